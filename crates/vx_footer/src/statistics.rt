//! The statistics of a file.
ghost use Rattle.std.specs.Prelude.{◌≡◌, ◌<◌, IfOk, length, map, slice_get, Some};
ghost use Rattle.vx_base.specs.Checks.{Gives};
ghost use Rattle.vx_data.specs.Dtype.{dtype_view};
ghost use Rattle.vx_data.specs.StatsTable.{columns_of, stats_checks};
ghost use Rattle.vx_footer.specs.declared.error.Which.TheVariants as which;
ghost use Rattle.vx_footer.specs.Opening.{of_table, statistics_in, Fails};

use crate::error::refusal;
use crate::{OpenError, Which};
use std::alloc::{AllocError, Global};
use std::marker::Model;
use vx_data::{DType, StatsSet, columns, read_stats};

/// Statistics of columns, one set for each: of the fields of a struct, or of the whole.
#[derive(Debug, Drop)]
pub struct FileStatistics {
    stats: Vec<StatsSet>,
    columns: Vec<DType>,
}

impl Model for FileStatistics {
    ghost use Rattle.std.specs.Coded.{codes};
    ghost use Rattle.vx_footer.specs.DtypeCode.{dtype_code};
    ghost use Rattle.std.specs.Prelude.{◌≡◌, length, map};
    ghost use Rattle.vx_data.specs.Dtype.{dtype_view};
    ghost use Rattle.vx_footer.specs.FileStats.{FileStats};

    ghost Value = { FileStats };

    ghost coded = { Prim.hlevel (codes, dtype_code) };

    ghost view = { λ a. record { sets = a.stats.items; dtypes = map dtype_view a.columns.items } };

    ghost invariant = { λ a. length a.stats.items ≡ length a.columns.items };
}

impl FileStatistics {
    /// The statistics of columns of these types.
    pub fn new(stats: Vec<StatsSet>, dtypes: Vec<DType>) -> FileStatistics
        requires { length stats.items ≡ length dtypes.items }
        ensures { result ≡ record { sets = stats.items; dtypes = map dtype_view dtypes.items } }
    {
        FileStatistics {
            stats,
            columns: dtypes,
        }
    }

    /// The statistics of a file of this type: one set for each field of a struct, or one.
    #[tactic(auto, using(crate::proofs::Lists::map_lengths))]
    pub fn new_with_dtype(
        alloc: Global,
        stats: Vec<StatsSet>,
        file_dtype: &DType,
    ) -> Result<FileStatistics, AllocError>
        requires { length stats.items ≡ length (columns_of (dtype_view file_dtype.now)) }
        ensures { IfOk result (λ statistics. statistics ≡ record { sets = stats.items; dtypes = columns_of (dtype_view file_dtype.now) }) }
    {
        let dtypes = columns(alloc, file_dtype)?;
        Ok(FileStatistics::new(stats, dtypes))
    }

    /// The statistics that a table spells, of a file of this type. All of the table's grammar comes before
    /// the number of sets, and that before the scalars.
    #[tactic(auto, using(crate::proofs::Sets::as_many_sets))]
    pub fn from_table(
        alloc: Global,
        bytes: &[u8],
        file_dtype: &DType,
    ) -> Result<FileStatistics, OpenError>
        ensures { Gives Fails (λ statistics. statistics) result (statistics_in (dtype_view file_dtype.now) bytes.now) }
    {
        let stats = match read_stats(alloc, bytes, file_dtype) {
            Ok(stats) => stats,
            Err(error) => return Err(refusal(Which::Statistics, error)),
        };
        Ok(FileStatistics::new_with_dtype(alloc, stats, file_dtype)?)
    }

    /// The sets, in order.
    pub fn stats_sets(&self) -> &[StatsSet]
        ensures value { result.now ≡ self.now.sets }
        ensures as_many { length self.now.sets ≡ length self.now.dtypes }
    {
        &self.stats
    }

    /// The types of the columns, in order.
    pub fn dtypes(&self) -> &[DType]
        ensures value { map dtype_view result.now ≡ self.now.dtypes }
        ensures as_many { length self.now.sets ≡ length self.now.dtypes }
    {
        &self.columns
    }

    /// The statistics of a column, and its type.
    pub fn get(&self, field_idx: usize) -> (&StatsSet, &DType)
        requires { field_idx < length self.now.sets }
        ensures set { slice_get self.now.sets field_idx ≡ Some result.0.now }
        ensures dtype { slice_get self.now.dtypes field_idx ≡ Some (dtype_view result.1.now) }
    {
        (&self.stats[field_idx], &self.columns[field_idx])
    }
}
