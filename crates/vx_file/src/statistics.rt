//! Copies of statistics.
ghost use Rattle.std.specs.Prelude.{◌≡◌, None, map, IfOk, OnOk};
ghost use Rattle.vx_data.specs.Dtype.{dtype_view};
ghost use Rattle.vx_data.specs.Scalar.{scalar_view};
ghost use Rattle.vx_data.specs.Stats.{stat_in, with_stat};

use std::alloc::{AllocError, Global};
use vx_data::{DType, Scalar, Stat, StatsSet};
use vx_footer::FileStatistics;

/// The same value.
fn value_of(value: &Scalar) -> Result<Scalar, AllocError>
    ensures { IfOk result (λ copy. scalar_view copy ≡ scalar_view value.now) }
{
    match value {
        Scalar::Bool(value) => Ok(Scalar::Bool(*value)),
        Scalar::Int(value) => Ok(Scalar::Int(*value)),
        Scalar::Text(value) => Ok(Scalar::Text(value.clone()?)),
    }
}

/// Sets a statistic that is not set as it is in another set.
fn set_as(copy: &mut StatsSet, stat: Stat, set: &StatsSet) -> Result<(), AllocError>
    requires { stat_in stat copy.old ≡ None }
    ensures { OnOk result (copy.new ≡ with_stat stat (stat_in stat set.now) copy.old) }
{
    match set.get(stat) {
        None => Ok(()),
        Some((value, precision)) => {
            copy.set(stat, value_of(value)?, precision);
            Ok(())
        }
    }
}

/// The same set.
fn set_of(set: &StatsSet) -> Result<StatsSet, AllocError>
    ensures { IfOk result (λ copy. copy ≡ set.now) }
{
    let mut copy = StatsSet::new();
    set_as(&mut copy, Stat::Min, set)?;
    set_as(&mut copy, Stat::Max, set)?;
    set_as(&mut copy, Stat::NullCount, set)?;
    Ok(copy)
}

/// The same sets.
fn sets_of(alloc: Global, sets: &[StatsSet]) -> Result<Vec<StatsSet>, AllocError>
    ensures { IfOk result (λ copies. copies.items ≡ sets.now) }
{
    let mut copies = Vec::new(alloc);
    for set in sets {
        copies.push(set_of(set)?)?;
    }
    Ok(copies)
}

/// The same types.
fn types_of(alloc: Global, dtypes: &[DType]) -> Result<Vec<DType>, AllocError>
    ensures { IfOk result (λ copies. map dtype_view copies.items ≡ map dtype_view dtypes.now) }
{
    let mut copies = Vec::new(alloc);
    for dtype in dtypes {
        copies.push(dtype.share(alloc)?)?;
    }
    Ok(copies)
}

/// The same statistics. Only memory refuses.
pub(crate) fn copied(
    alloc: Global,
    statistics: &FileStatistics,
) -> Result<FileStatistics, AllocError>
    ensures { IfOk result (λ copy. copy ≡ statistics.now) }
{
    let sets = sets_of(alloc, statistics.stats_sets())?;
    let dtypes = types_of(alloc, statistics.dtypes())?;
    Ok(FileStatistics::new(sets, dtypes))
}
