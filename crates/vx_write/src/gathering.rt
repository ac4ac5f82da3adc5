//! Blocks that are gathered to chunks.
ghost use Rattle.std.specs.Prelude.{◌≡◌, ℕ, ◌+◌, ◌-◌, ◌/◌, ◌^◌, ◌<◌, ◌≤◌, min, nat_le, true, false, IfOk};
ghost use Rattle.vx_rows.specs.Rows.{column_view, rows_len};
ghost use Rattle.vx_rows.specs.Parts.{part, plain_size};
ghost use Rattle.vx_write.specs.Gathering.{gathered_from, first_end, EndsWithin};

use std::alloc::{AllocError, Global};
use vx_rows::Column;

/// What blocks that are gathered come to.
#[derive(Clone, Copy, Debug, PartialEq, Eq)]
pub(crate) enum Gathered {
    /// A chunk that is full and ends before this row.
    Full(usize),
    /// So many bytes, which fill no chunk.
    Open(u64),
}

/// Whether a chunk that has so many bytes is full with a block more.
#[tactic(auto, using(crate::proofs::GatherLemmas::full_test, crate::proofs::GatherLemmas::open_size))]
pub(crate) fn is_full(target: u64, gathered: u64, block: u64) -> bool
    ensures full { (size : ℕ) → block ≡ min size (2 ^ 64 - 1) → result ≡ nat_le target (gathered + size) }
    ensures exact { (size : ℕ) → block ≡ min size (2 ^ 64 - 1) → result ≡ false → block ≡ size }
    ensures small { result ≡ false → gathered + block < 2 ^ 64 }
{
    block >= target.saturating_sub(gathered)
}

/// How many bytes the rows of a column from one on, up to another, take.
fn size_between(alloc: Global, column: &Column, from: usize, to: usize) -> Result<u64, AllocError>
    requires { from ≤ to }
    ensures { IfOk result (λ size. size ≡ min (plain_size (part from to (column_view column.now))) (2 ^ 64 - 1)) }
{
    Ok(column.part(alloc, from, to)?.plain_size())
}

/// Gathers the whole blocks of a column from a row on, to a chunk that has so many bytes before. Only memory refuses.
pub(crate) fn gather(
    alloc: Global,
    rows: usize,
    target: u64,
    column: &Column,
    from: usize,
    before: u64,
) -> Result<Gathered, AllocError>
    requires blocks { 1 ≤ rows }
    requires inside { from ≤ rows_len (column_view column.now) }
    ensures value { IfOk result (λ found. found
        ≡ gathered_from rows target (column_view column.now) before from ((rows_len (column_view column.now) - from) / rows)) }
    ensures further { IfOk result (EndsWithin from (rows_len (column_view column.now))) }
{
    let mut gathered = before;
    let mut at = from;
    for block in 0..(column.len() - from) / rows {
        // A chunk that has enough bytes already is full with any block.
        if target <= gathered {
            return Ok(Gathered::Full(at + rows));
        }
        let size = size_between(alloc, column, at, at + rows)?;
        at += rows;
        if is_full(target, gathered, size) {
            return Ok(Gathered::Full(at));
        }
        gathered += size;
    }
    Ok(Gathered::Open(gathered))
}

/// The same where rows before the column share a block with its first ones, which has a size and ends before a row.
pub(crate) fn gather_behind(
    alloc: Global,
    rows: usize,
    target: u64,
    column: &Column,
    from: usize,
    before: u64,
    block: u64,
) -> Result<Gathered, AllocError>
    requires blocks { 1 ≤ rows }
    requires inside { from ≤ rows_len (column_view column.now) }
    ensures value { (size : ℕ) → block ≡ min size (2 ^ 64 - 1)
        → IfOk result (λ found. found ≡ first_end rows target (column_view column.now) before size from) }
{
    if is_full(target, before, block) {
        return Ok(Gathered::Full(from));
    }
    let found = gather(alloc, rows, target, column, from, before + block)?;
    Ok(found)
}
