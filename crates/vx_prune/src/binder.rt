//! The statistics of a file beside its type.
ghost use Rattle.std.specs.Prelude.{◌≡◌, ◌∷◌, [], Some, None, map, string_bytes};
ghost use Rattle.vx_data.specs.Dtype.{dtype_view};
ghost use Rattle.vx_data.specs.Scalar.{scalar_view};
ghost use Rattle.vx_prune.specs.Never.{stat_of};
ghost use Rattle.vx_prune.specs.Binders.{sets_of, dtype_of, lent_value};

use vx_data::{DType, FieldPath, Precision, Scalar, Stat};
use vx_footer::FileStatistics;
use vx_rows::place_of_field;

/// The statistics of a file beside its type.
#[derive(Clone, Copy)]
pub struct FileStatsBinder<'a> {
    file_stats: &'a FileStatistics,
    dtype: &'a DType,
}

impl<'a> FileStatsBinder<'a> {
    /// These statistics, of a file of this type.
    pub fn new(file_stats: &'a FileStatistics, dtype: &'a DType) -> FileStatsBinder<'a>
        ensures sets { sets_of result ≡ file_stats.now.sets }
        ensures dtype { dtype_of result ≡ dtype_view dtype.now }
    {
        FileStatsBinder { file_stats, dtype }
    }

    /// Of the path of one name, the exact statistic of the first field of that name. No other path has any.
    pub fn stat(&self, path: &FieldPath, stat: Stat) -> Option<&'a Scalar>
        ensures { lent_value result ≡ stat_of stat path.now (dtype_of self.now) (sets_of self.now) }
    {
        let names = path.parts();
        if names.len() != 1 {
            return None;
        }
        let place = match place_of_field(self.dtype, names[0].as_str()) {
            None => return None,
            Some((place, _)) => place,
        };
        let sets = self.file_stats.stats_sets();
        if place >= sets.len() {
            return None;
        }
        match sets[place].get(stat) {
            Some((value, Precision::Exact)) => Some(value),
            _ => None,
        }
    }
}
