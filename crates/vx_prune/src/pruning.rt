//! Whether no row of a file can satisfy a predicate.
ghost use Rattle.std.specs.Prelude.{◌≡◌, true};
ghost use Rattle.std.specs.Option.{option_map};
ghost use Rattle.vx_data.specs.Dtype.{dtype_view};
ghost use Rattle.vx_data.specs.Scalar.{scalar_view};
ghost use Rattle.vx_rows.specs.Predicates.{pred_view};
ghost use Rattle.vx_rows.specs.Bounds.{bound_view};
ghost use Rattle.vx_rows.specs.RowValues.{value_cell};
ghost use Rattle.vx_rows.specs.Truth.{to_truth, is_true as holds};
ghost use Rattle.vx_prune.specs.Never.{never as never_holds};
ghost use Rattle.vx_prune.specs.Pruning.{Prunes, PruningLaw, ExactLaw};
ghost use Rattle.vx_prune.specs.Binders.{sets_of, dtype_of};

use crate::FileStatsBinder;
use crate::known::{is_never_met, is_never_true, known_of, known_of_field, known_of_path};
use vx_data::{DType, Scalar};
use vx_footer::FileStatistics;
use vx_rows::{Bound, Predicate};

/// Whether a literal is true.
fn is_true(value: &Option<Scalar>) -> bool
    ensures { result ≡ holds (to_truth (value_cell (option_map scalar_view value.now))) }
{
    match value {
        Some(Scalar::Bool(b)) => *b,
        Some(Scalar::Int(_)) | Some(Scalar::Text(_)) | None => false,
    }
}

/// Whether statistics tell that no row of so many satisfies a predicate.
#[cycle(pruning)]
fn never<'a>(binder: &FileStatsBinder<'a>, predicate: &'a Predicate, rows: u64) -> bool
    ensures { result ≡ never_holds (pred_view predicate.now) (dtype_of binder.now) (sets_of binder.now) rows }
{
    match predicate {
        Predicate::Lit(_, value) => !is_true(value),
        Predicate::Field(path) => is_never_true(known_of_field(binder, path, rows)),
        Predicate::Compare(op, p, q) => {
            is_never_met(*op, known_of(binder, p, rows), known_of(binder, q, rows))
        }
        Predicate::And(p, q) => never(binder, p, rows) || never(binder, q, rows),
        Predicate::Or(p, q) => never(binder, p, rows) && never(binder, q, rows),
        Predicate::IsNull(p) => known_of_path(binder, p, rows).never_null,
        Predicate::NotNull(p) => known_of(binder, p, rows).always_null,
        Predicate::Root | Predicate::Cast(_, _) | Predicate::Add(_, _) | Predicate::Not(_) => false,
    }
}

/// Whether no row of a file of this type and so many rows can satisfy a predicate, as far as the exact ones of
/// its statistics tell. Where the answer is true, the statistics are true of the rows and the row count is
/// right, no row satisfies the predicate.
pub fn can_prune_file_stats<'a>(
    bound: &'a Bound,
    row_count: u64,
    file_stats: &'a FileStatistics,
    dtype: &'a DType,
) -> bool
    ensures value { result ≡ never_holds (bound_view bound.now).0 (dtype_view dtype.now) file_stats.now.sets row_count }
    ensures sound { result ≡ true → Prunes (bound_view bound.now).0 (dtype_view dtype.now) file_stats.now.sets row_count }
{
    let binder = FileStatsBinder::new(file_stats, dtype);
    never(&binder, bound.predicate(), row_count)
}

/// Where pruning answers true, the statistics are true of the rows and the row count is right, no row satisfies
/// the predicate.
pub fn pruning_is_sound()
    ensures { PruningLaw }
{}

/// A comparison of a field with a literal, whose bounds are known, is pruned exactly where it holds of no value
/// between them.
pub fn one_comparison_is_exact()
    ensures { ExactLaw }
{}
