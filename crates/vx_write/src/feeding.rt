//! Rows of a push that come behind rows that are held back.
ghost use Rattle.std.specs.Prelude.{◌≡◌, ◌+◌, ◌%◌, ◌≤◌, ◌∷◌, [], None, IfOk};
ghost use Rattle.vx_rows.specs.Rows.{Rows, column_view, rows_len, dtype_of, IsColumn};
ghost use Rattle.vx_rows.specs.Parts.{part, appended};
ghost use Rattle.vx_write.specs.declared.strategy.LeafStrategy.TheVariants.{Blocks, Whole};
ghost use Rattle.vx_write.specs.Chunks.{chunks_seen, last_seen};
ghost use Rattle.vx_write.specs.Holding.{Holds};
ghost use Rattle.vx_write.specs.Feeding.{StillThere, Feeds, FeedsFirst};

use crate::LeafStrategy;
use crate::chunks::{Chunks, Parts};
use crate::cutting::cut_column;
use crate::gathering::{Gathered, gather_behind};
use crate::pending::Pending;
use std::alloc::{AllocError, Global};
use vx_rows::{Column, GrowingColumn};

/// Full chunks, and what is held back behind them.
#[derive(Drop)]
pub(crate) struct Fed {
    pub(crate) chunks: Chunks,
    pub(crate) pending: Pending,
}

/// The rows of a column from one on.
fn copy_from(alloc: Global, column: &Column, from: usize) -> Result<GrowingColumn, AllocError>
    requires even { IsColumn (rows_len (column_view column.now)) (column_view column.now) }
    requires inside { from ≤ rows_len (column_view column.now) }
    ensures { IfOk result (λ copy. copy ≡ part from (rows_len (column_view column.now)) (column_view column.now)) }
{
    let dtype = column.dtype(alloc)?;
    let mut copy = GrowingColumn::new(alloc, &dtype)?;
    copy.append(alloc, column, from, column.len())?;
    Ok(copy)
}

/// Cuts a column of which nothing was held back, behind a chunk that is full, where there is one. Only memory refuses.
fn feed_first(
    alloc: Global,
    rows: usize,
    target: Option<u64>,
    column: &Column,
    first: Option<Column>,
) -> Result<Fed, AllocError>
    requires blocks { 1 ≤ rows }
    requires even { IsColumn (rows_len (column_view column.now)) (column_view column.now) }
    ensures { IfOk result (FeedsFirst rows target (last_seen first) (column_view column.now)) }
{
    let cut = cut_column(alloc, rows, target.unwrap_or(0), column)?;
    let held = copy_from(alloc, column, cut.start)?;
    let others = Parts::new(alloc, column, cut.ends)?;
    Ok(Fed {
        chunks: Chunks {
            first,
            others: Some(others),
        },
        pending: Pending {
            rows: Some(held),
            gathered: cut.gathered,
        },
    })
}

/// The rows of a column from one on are held behind others, and fill no chunk with them.
#[tactic(auto, using(crate::proofs::StillLemmas::still_same, crate::proofs::StillLemmas::still_more))]
fn feed_on(
    alloc: Global,
    held: &mut GrowingColumn,
    gathered: u64,
    column: &Column,
    from: usize,
) -> Result<Fed, AllocError>
    requires typed { dtype_of (column_view column.now) ≡ dtype_of held.old }
    requires even { IsColumn (rows_len (column_view column.now)) (column_view column.now) }
    requires held { IsColumn (rows_len held.old) held.old }
    requires inside { from ≤ rows_len (column_view column.now) }
    ensures held { IfOk result (λ _. held.new ≡ appended held.old (part from (rows_len (column_view column.now)) (column_view column.now))) }
    ensures fed { IfOk result (λ fed. fed.pending ≡ record { rows = None; gathered = gathered }) }
    ensures none { IfOk result (λ fed. chunks_seen fed.chunks ≡ []) }
    ensures still { StillThere held.old held.new }
{
    held.append(alloc, column, from, column.len())?;
    Ok(Fed {
        chunks: Chunks {
            first: None,
            others: None,
        },
        pending: Pending {
            rows: None,
            gathered,
        },
    })
}

/// The rows that are held and those of a column from one on, up to another, are a chunk, and the others are cut.
#[tactic(auto, using(crate::proofs::StillLemmas::still_same, crate::proofs::StillLemmas::still_more))]
fn feed_full(
    alloc: Global,
    rows: usize,
    target: Option<u64>,
    held: &mut GrowingColumn,
    column: &Column,
    from: usize,
    end: usize,
) -> Result<Fed, AllocError>
    requires blocks { 1 ≤ rows }
    requires typed { dtype_of (column_view column.now) ≡ dtype_of held.old }
    requires even { IsColumn (rows_len (column_view column.now)) (column_view column.now) }
    requires held { IsColumn (rows_len held.old) held.old }
    requires ordered { from ≤ end }
    requires inside { end ≤ rows_len (column_view column.now) }
    ensures fed { IfOk result (FeedsFirst rows target (appended held.old (part from end (column_view column.now)) ∷ [])
        (part end (rows_len (column_view column.now)) (column_view column.now))) }
    ensures still { StillThere held.old held.new }
{
    held.append(alloc, column, from, end)?;
    let first = held.column(alloc)?;
    let others = column.part(alloc, end, column.len())?;
    let fed = feed_first(alloc, rows, target, &others, Some(first))?;
    Ok(fed)
}

/// The first rows of a column make the last block of those that are held whole, and others may fill chunks.
#[tactic(auto, using(crate::proofs::StillLemmas::still_same, crate::proofs::StillLemmas::still_more))]
fn feed_behind(
    alloc: Global,
    rows: usize,
    target: Option<u64>,
    held: &mut GrowingColumn,
    gathered: u64,
    column: &Column,
) -> Result<Fed, AllocError>
    requires holds { Holds (Blocks rows target) held.old gathered }
    requires typed { dtype_of (column_view column.now) ≡ dtype_of held.old }
    requires even { IsColumn (rows_len (column_view column.now)) (column_view column.now) }
    requires enough { rows ≤ rows_len held.old % rows + rows_len (column_view column.now) }
    ensures fed { IfOk result (Feeds (Blocks rows target) held.old (column_view column.now) held.new) }
    ensures still { StillThere held.old held.new }
{
    let missing = rows - held.len() % rows;
    held.append(alloc, column, 0, missing)?;
    // The last block is whole now, and what is held ends with it.
    let size = held.plain_size_from(held.len() - rows);
    match gather_behind(
        alloc,
        rows,
        target.unwrap_or(0),
        column,
        missing,
        gathered,
        size,
    )? {
        Gathered::Full(end) => feed_full(alloc, rows, target, held, column, missing, end),
        Gathered::Open(sum) => feed_on(alloc, held, sum, column, missing),
    }
}

/// Gathers the rows of a column in blocks, behind those that are held.
#[tactic(auto, using(crate::proofs::StillLemmas::still_same, crate::proofs::StillLemmas::still_more))]
fn feed_blocks(
    alloc: Global,
    rows: usize,
    target: Option<u64>,
    held: &mut GrowingColumn,
    gathered: u64,
    column: &Column,
) -> Result<Fed, AllocError>
    requires holds { Holds (Blocks rows target) held.old gathered }
    requires typed { dtype_of (column_view column.now) ≡ dtype_of held.old }
    requires even { IsColumn (rows_len (column_view column.now)) (column_view column.now) }
    ensures fed { IfOk result (Feeds (Blocks rows target) held.old (column_view column.now) held.new) }
    ensures still { StillThere held.old held.new }
{
    if held.len() == 0 {
        return feed_first(alloc, rows, target, column, None);
    }
    if column.len() < rows - held.len() % rows {
        return feed_on(alloc, held, gathered, column, 0);
    }
    feed_behind(alloc, rows, target, held, gathered, column)
}

/// The full chunks of the rows that are held and of those of a column, and what is held then. The rows that are held
/// stay the first ones. Only memory refuses.
#[tactic(auto, using(crate::proofs::StillLemmas::still_same, crate::proofs::StillLemmas::still_more))]
pub(crate) fn feed_rows(
    alloc: Global,
    strategy: LeafStrategy,
    held: &mut GrowingColumn,
    gathered: u64,
    column: &Column,
) -> Result<Fed, AllocError>
    requires holds { Holds strategy held.old gathered }
    requires typed { dtype_of (column_view column.now) ≡ dtype_of held.old }
    requires even { IsColumn (rows_len (column_view column.now)) (column_view column.now) }
    ensures fed { IfOk result (Feeds strategy held.old (column_view column.now) held.new) }
    ensures still { StillThere held.old held.new }
{
    match strategy {
        LeafStrategy::Whole => feed_on(alloc, held, 0, column, 0),
        LeafStrategy::Blocks { rows, target } => {
            feed_blocks(alloc, rows, target, held, gathered, column)
        }
    }
}
