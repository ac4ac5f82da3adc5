//! Gathers the statistics of a file, push by push.
ghost use Rattle.std.specs.Prelude.{◌≡◌, ◌<◌, [], ◌∷◌, List, length, map, replicate, slice_set, true, IfOk, get_or};
ghost use Rattle.vx_data.specs.declared.stats_set.Stat.{Stat};
ghost use Rattle.vx_rows.specs.Rows.{Rows, column_view, pairs_view, rows_len, dtype_of, AllHaveRows, HasRows};
ghost use Rattle.vx_rows.specs.ReadRows.{no_rows, no_rows_each};
ghost use Rattle.vx_rows.specs.RowStats.{stats_of};
ghost use Rattle.vx_data.specs.Dtype.{dtype_view, pairs_view as types_view};
ghost use Rattle.vx_write.specs.Gathered.{Counted, running, counted_fields, gathered, both, half_both, ArePair, ArePairs};

use std::alloc::{AllocError, Global};
use vx_data::{DType, Stat, StatsSet};
use vx_rows::{Column, Mask, RunningStats};

/// What is told of a column, of which some rows are there.
fn of_column(
    alloc: Global,
    wanted: &[Stat],
    column: &Column,
    present: &Mask,
) -> Result<RunningStats, AllocError>
    requires { length present.now ≡ rows_len (column_view column.now) }
    ensures { IfOk result (λ stats. stats ≡ running wanted.now (present.now, column_view column.now)) }
{
    let rows = column.len();
    prove!(rows <= usize::MAX);
    let mut stats = RunningStats::new(alloc, wanted)?;
    stats.add(alloc, column, present)?;
    Ok(stats)
}

/// What is told of each field of structs, of which some are there.
#[tactic(auto, using(crate::proofs::GatheredLemmas::next_field, crate::proofs::GatheredLemmas::next_rows, crate::proofs::GatheredLemmas::field_long))]
fn of_fields(
    alloc: Global,
    wanted: &[Stat],
    fields: &[(String, Column)],
    present: &Mask,
) -> Result<Vec<RunningStats>, AllocError>
    requires { AllHaveRows (length present.now) (pairs_view fields.now) }
    ensures { IfOk result (λ stats. stats.items ≡ map (running wanted.now) (counted_fields present.now (pairs_view fields.now))) }
{
    let mut stats = Vec::new(alloc);
    for at in 0..fields.len() {
        stats.push(of_column(alloc, wanted, &fields[at].1, present)?)?;
    }
    Ok(stats)
}

/// All of so many rows.
fn all_there(alloc: Global, rows: usize) -> Result<Mask, AllocError>
    ensures { IfOk result (λ mask. mask ≡ replicate rows true) }
{
    Ok(Mask::new(vec![in alloc; true; rows]?))
}

/// What is told of a column that is no struct.
fn of_whole(
    alloc: Global,
    wanted: &[Stat],
    column: &Column,
) -> Result<Vec<RunningStats>, AllocError>
    ensures { IfOk result (λ stats. stats.items ≡ running wanted.now (replicate (rows_len (column_view column.now)) true, column_view column.now) ∷ []) }
{
    let present = all_there(alloc, column.len())?;
    let mut stats = Vec::new(alloc);
    stats.push(of_column(alloc, wanted, column, &present)?)?;
    Ok(stats)
}

/// What is told of the rows of a chunk. Only memory refuses.
pub(crate) fn gather(
    alloc: Global,
    wanted: &[Stat],
    chunk: &Column,
) -> Result<Vec<RunningStats>, AllocError>
    requires { HasRows (rows_len (column_view chunk.now)) (column_view chunk.now) }
    ensures { IfOk result (λ stats. stats.items ≡ gathered wanted.now (column_view chunk.now)) }
{
    match chunk {
        Column::Struct(rows, fields) => {
            let present = rows.mask(alloc)?;
            of_fields(alloc, wanted, fields.as_slice(), &present)
        }
        Column::Bool(_) | Column::Int(_) | Column::Text(_) => of_whole(alloc, wanted, chunk),
    }
}

/// What is told of no rows of a type.
fn of_none(alloc: Global, wanted: &[Stat], _dtype: &DType) -> Result<RunningStats, AllocError>
    ensures { IfOk result (λ stats. stats ≡ running wanted.now ([], no_rows (dtype_view _dtype.now))) }
{
    Ok(RunningStats::new(alloc, wanted)?)
}

/// What is told of no rows of each field.
#[tactic(auto, using(crate::proofs::GatheredLemmas::next_empty))]
fn no_field_stats(
    alloc: Global,
    wanted: &[Stat],
    fields: &[(String, DType)],
) -> Result<Vec<RunningStats>, AllocError>
    ensures { IfOk result (λ stats. stats.items ≡ map (running wanted.now) (counted_fields [] (no_rows_each (types_view fields.now)))) }
{
    let mut stats = Vec::new(alloc);
    for at in 0..fields.len() {
        stats.push(of_none(alloc, wanted, &fields[at].1)?)?;
    }
    Ok(stats)
}

/// What is told of no rows of a type. Only memory refuses.
pub(crate) fn no_stats(
    alloc: Global,
    wanted: &[Stat],
    dtype: &DType,
) -> Result<Vec<RunningStats>, AllocError>
    ensures { IfOk result (λ stats. stats.items ≡ gathered wanted.now (no_rows (dtype_view dtype.now))) }
{
    match dtype {
        DType::Struct(fields, _) => no_field_stats(alloc, wanted, fields.as_slice()),
        DType::Bool(_) | DType::Int(_, _) | DType::Text(_) => {
            let mut stats = Vec::new(alloc);
            stats.push(of_none(alloc, wanted, dtype)?)?;
            Ok(stats)
        }
    }
}

/// Adds what is told of a column at a place.
fn merge_at(stats: &mut Vec<RunningStats>, at: usize, more: RunningStats)
    requires { (w : List Stat) × (a : Counted) × (b : Counted) × ArePair a b × (at < length stats.old.items)
        × (get_or stats.old.items at (running w a) ≡ running w a) × (more ≡ running w b) }
    ensures { (w : List Stat) (a b : Counted) → ArePair a b → get_or stats.old.items at (running w a) ≡ running w a → more ≡ running w b
        → stats.new.items ≡ slice_set stats.old.items at (running w (both a b)) }
{
    stats[at].merge(more);
}

/// Adds what is told of the rows behind those before.
pub(crate) fn merge(stats: &mut Vec<RunningStats>, more: Vec<RunningStats>)
    requires { (w : List Stat) × (a : List Counted) × (b : List Counted) × ArePairs a b × (stats.old.items ≡ map (running w) a)
        × (more.items ≡ map (running w) b) }
    ensures { (w : List Stat) (a b : List Counted) → ArePairs a b → stats.old.items ≡ map (running w) a → more.items ≡ map (running w) b
        → stats.new.items ≡ half_both w 0 a b }
{
    let mut more = more;
    while let Some(last) = more.pop() {
        let at = more.len();
        merge_at(stats, at, last);
    }
}

/// The statistics that are wanted, of each column.
pub(crate) fn finish(alloc: Global, stats: Vec<RunningStats>) -> Result<Vec<StatsSet>, AllocError>
    ensures { IfOk result (λ sets. sets.items ≡ map (λ r. stats_of r.wanted r.seen) stats.items) }
{
    let mut sets = Vec::new(alloc);
    for one in stats {
        sets.push(one.finish())?;
    }
    Ok(sets)
}
