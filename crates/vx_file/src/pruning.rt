//! Files that can be skipped, since no row of them satisfies a predicate.
ghost use Rattle.std.specs.Prelude.{◌≡◌, Ok, true, map, string_bytes, IfOk};
ghost use Rattle.std.specs.Option.{option_map};
ghost use Rattle.vx_base.specs.Checks.{Gives};
ghost use Rattle.vx_data.specs.Scalar.{scalar_view};
ghost use Rattle.vx_rows.specs.Binding.{Fails};
ghost use Rattle.vx_rows.specs.Predicates.{pred_view};
ghost use Rattle.vx_data.specs.Dtype.{dtype_view};
ghost use Rattle.vx_prune.specs.Pruning.{Prunes};
ghost use Rattle.vx_file.specs.Pruned.{judged_by, pruned_by, pruned, SkipsBy, Skips};

use crate::VortexFile;
use std::alloc::{AllocError, Global};
use vx_data::{DType, FieldPath, Scalar};
use vx_footer::{FileStatistics, Footer};
use vx_prune::can_prune_file_stats;
use vx_rows::{BindError, Predicate};
use vx_source::SegmentSource;

/// What pruning rows of a type tells of a predicate, by their statistics.
fn judged(
    alloc: Global,
    dtype: &DType,
    statistics: &FileStatistics,
    rows: u64,
    filter: Predicate,
) -> Result<bool, BindError>
    ensures value { Gives Fails (λ b. b) result (judged_by (pred_view filter) (dtype_view dtype.now) statistics.now.sets rows) }
    ensures sound { result ≡ Ok true → Prunes (pred_view filter) (dtype_view dtype.now) statistics.now.sets rows }
{
    let bound = filter.bind(alloc, dtype)?;
    Ok(can_prune_file_stats(&bound, rows, statistics, dtype))
}

/// The same where the rows are structs and there are statistics, and else false.
fn judged_if(
    alloc: Global,
    dtype: &DType,
    statistics: Option<&FileStatistics>,
    rows: u64,
    filter: Predicate,
) -> Result<bool, BindError>
    ensures value { Gives Fails (λ b. b) result (pruned_by (dtype_view dtype.now) (option_map (λ s. s.now) statistics.entry) (pred_view filter) rows) }
    ensures sound { result ≡ Ok true → SkipsBy (pred_view filter) (dtype_view dtype.now) (option_map (λ s. s.now) statistics.entry) rows }
{
    match (dtype, statistics) {
        (DType::Struct(_, _), Some(statistics)) => judged(alloc, dtype, statistics, rows, filter),
        _ => Ok(false),
    }
}

/// Whether a file of this footer can be skipped: where the answer is true, its statistics are true of its rows and its
/// row count is right, no row satisfies the predicate. A file whose rows are no structs, or that has no statistics,
/// is not skipped, and then the predicate is not looked at; else a refusal is that of binding it.
pub fn can_prune(alloc: Global, footer: &Footer, filter: Predicate) -> Result<bool, BindError>
    ensures value { Gives Fails (λ b. b) result (pruned (pred_view filter) footer.now.content) }
    ensures sound { result ≡ Ok true → Skips (pred_view filter) footer.now.content }
{
    judged_if(
        alloc,
        footer.dtype(),
        footer.statistics(),
        footer.row_count(),
        filter,
    )
}

/// The same names.
fn names_of(alloc: Global, names: &[String]) -> Result<Vec<String>, AllocError>
    ensures { IfOk result (λ copies. map string_bytes copies.items ≡ map string_bytes names.now) }
{
    let mut copies = Vec::new(alloc);
    for name in names {
        copies.push(name.clone()?)?;
    }
    Ok(copies)
}

/// The same path.
fn path_of(alloc: Global, path: &FieldPath) -> Result<FieldPath, AllocError>
    ensures { IfOk result (λ copy. copy ≡ path.now) }
{
    Ok(FieldPath::new(names_of(alloc, path.parts())?))
}

/// The same value.
fn value_of(value: &Option<Scalar>) -> Result<Option<Scalar>, AllocError>
    ensures { IfOk result (λ copy. option_map scalar_view copy ≡ option_map scalar_view value.now) }
{
    match value {
        None => Ok(None),
        Some(Scalar::Bool(value)) => Ok(Some(Scalar::Bool(*value))),
        Some(Scalar::Int(value)) => Ok(Some(Scalar::Int(*value))),
        Some(Scalar::Text(value)) => Ok(Some(Scalar::Text(value.clone()?))),
    }
}

/// The same predicate, in a box.
#[cycle(copying)]
fn boxed(alloc: Global, predicate: &Predicate) -> Result<Box<Predicate>, AllocError>
    ensures { IfOk result (λ copy. pred_view copy.value ≡ pred_view predicate.now) }
{
    Ok(Box::new(alloc, copied(alloc, predicate)?)?)
}

/// The same predicate.
#[cycle(copying)]
fn copied(alloc: Global, predicate: &Predicate) -> Result<Predicate, AllocError>
    ensures { IfOk result (λ copy. pred_view copy ≡ pred_view predicate.now) }
{
    Ok(match predicate {
        Predicate::Lit(dtype, value) => Predicate::Lit(dtype.share(alloc)?, value_of(value)?),
        Predicate::Root => Predicate::Root,
        Predicate::Field(path) => Predicate::Field(path_of(alloc, path)?),
        Predicate::Cast(to, p) => Predicate::Cast(to.share(alloc)?, boxed(alloc, p)?),
        Predicate::Add(p, q) => Predicate::Add(boxed(alloc, p)?, boxed(alloc, q)?),
        Predicate::Compare(op, p, q) => {
            Predicate::Compare(*op, boxed(alloc, p)?, boxed(alloc, q)?)
        }
        Predicate::And(p, q) => Predicate::And(boxed(alloc, p)?, boxed(alloc, q)?),
        Predicate::Or(p, q) => Predicate::Or(boxed(alloc, p)?, boxed(alloc, q)?),
        Predicate::Not(p) => Predicate::Not(boxed(alloc, p)?),
        Predicate::IsNull(p) => Predicate::IsNull(boxed(alloc, p)?),
        Predicate::NotNull(p) => Predicate::NotNull(boxed(alloc, p)?),
    })
}

impl<S: SegmentSource> VortexFile<S> {
    /// Whether the file can be skipped, since no row of it satisfies a predicate, as `can_prune` says of its footer.
    pub fn can_prune(&self, alloc: Global, filter: &Predicate) -> Result<bool, BindError>
        ensures value { Gives Fails (λ b. b) result (pruned (pred_view filter.now) self.now.footer.content) }
        ensures sound { result ≡ Ok true → Skips (pred_view filter.now) self.now.footer.content }
    {
        can_prune(alloc, self.footer(), copied(alloc, filter)?)
    }
}
