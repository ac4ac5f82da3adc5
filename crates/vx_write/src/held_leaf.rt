//! A leaf, and the rows that are held back of it.
ghost use Rattle.std.specs.Prelude.{◌≡◌, ◌≤◌, ◌-◌, ◌^◌, ◌∷◌, [], min, if◌then◌else◌, unwrap_or, IfOk};
ghost use Rattle.vx_data.specs.Dtype.{dtype_view};
ghost use Rattle.vx_rows.specs.Rows.{Rows, column_view, rows_len, dtype_of, IsColumn};
ghost use Rattle.vx_rows.specs.Parts.{part, appended, plain_size};
ghost use Rattle.vx_rows.specs.ReadRows.{no_rows};
ghost use Rattle.vx_write.specs.Strategies.{HasBlocks};
ghost use Rattle.vx_write.specs.Cutting.{full_chunks, last_chunk};
ghost use Rattle.vx_write.specs.Leaves.{leaf_type, grown_leaf, AllOfType};
ghost use Rattle.vx_write.specs.Chunks.{chunks_seen, last_seen};
ghost use Rattle.vx_write.specs.Holding.{IsHeld};
ghost use Rattle.vx_write.specs.Feeding.{Feeds};

use crate::LeafStrategy;
use crate::chunks::Chunks;
use crate::feeding::{Fed, feed_rows};
use crate::pending::Pending;
use std::alloc::{AllocError, Global};
use std::marker::Model;
use vx_data::DType;
use vx_rows::{Column, GrowingColumn};

/// A leaf, and the rows that are held back of it. Behind them stand rows of a push that is under way.
#[derive(Drop)]
pub(crate) struct HeldLeaf {
    strategy: LeafStrategy,
    rows: GrowingColumn,
    count: usize,
    gathered: u64,
    size: u64,
    pending: Option<Pending>,
}

impl Model for HeldLeaf {
    ghost use Rattle.vx_write.specs.Leaves.{LeafState};
    ghost use Rattle.vx_write.specs.LeafCodes.{state_code};
    ghost use Rattle.vx_write.specs.Holding.{KeepsLeaf, held_leaf, pending_leaf};

    ghost Value = { LeafState };

    ghost coded = { state_code };

    ghost view = { λ a. record { now = held_leaf a.strategy a.rows a.count; next = pending_leaf a.strategy a.rows a.count a.pending } };

    ghost invariant = { λ a. KeepsLeaf a.strategy a.rows a.count a.gathered a.size a.pending };
}

/// The full chunks of so many rows that are held and of those of a column, and what is held then. Only memory refuses.
fn feed_held(
    alloc: Global,
    strategy: LeafStrategy,
    rows: &mut GrowingColumn,
    count: usize,
    gathered: u64,
    column: &Column,
) -> Result<Fed, AllocError>
    requires held { IsHeld strategy rows.old count gathered }
    requires typed { dtype_of (column_view column.now) ≡ dtype_of rows.old }
    requires even { IsColumn (rows_len (column_view column.now)) (column_view column.now) }
    ensures fed { IfOk result (Feeds strategy (part 0 count rows.old) (column_view column.now) rows.new) }
    ensures held { IsHeld strategy rows.new count gathered }
    ensures same { part 0 count rows.new ≡ part 0 count rows.old }
{
    rows.truncate(count);
    feed_rows(alloc, strategy, rows, gathered, column)
}

/// Puts other rows in place of these, where there are others.
fn replace(rows: &mut GrowingColumn, others: Option<GrowingColumn>)
    ensures { rows.new ≡ unwrap_or others rows.old }
{
    match others {
        None => {}
        Some(others) => *rows = others,
    }
}

/// Whether so many rows are a last chunk.
fn has_last(strategy: LeafStrategy, count: usize) -> bool
    ensures { (c : Rows) → rows_len c ≡ count → last_chunk strategy c ≡ (if result then c ∷ [] else []) }
{
    match strategy {
        LeafStrategy::Whole => true,
        LeafStrategy::Blocks { .. } => count != 0,
    }
}

/// The last chunk of so many rows, if there is one.
#[tactic(auto, using(crate::proofs::LeafLemmas::part_count))]
fn last_of(
    alloc: Global,
    strategy: LeafStrategy,
    rows: GrowingColumn,
    count: usize,
) -> Result<Option<Column>, AllocError>
    requires { count ≤ rows_len rows }
    ensures chunk { IfOk result (λ last. last_seen last ≡ last_chunk strategy (part 0 count rows)) }
    ensures sound { IfOk result (λ last. AllOfType (dtype_of rows) (last_seen last)) }
{
    let mut kept = rows;
    kept.truncate(count);
    if !has_last(strategy, count) {
        return Ok(None);
    }
    let column = kept.finish(alloc)?;
    Ok(Some(column))
}

impl HeldLeaf {
    /// A leaf without rows. Only memory refuses.
    pub(crate) fn new(
        alloc: Global,
        strategy: LeafStrategy,
        dtype: &DType,
    ) -> Result<HeldLeaf, AllocError>
        requires { HasBlocks strategy }
        ensures { IfOk result (λ leaf. leaf.now ≡ record { strategy = strategy; kept = no_rows (dtype_view dtype.now) }) }
    {
        let rows = GrowingColumn::new(alloc, dtype)?;
        let size = rows.plain_size();
        Ok(HeldLeaf {
            strategy,
            rows,
            count: 0,
            gathered: 0,
            size,
            pending: None,
        })
    }

    /// The chunks that are full with the rows of a column, which count once the push is settled. Only memory refuses.
    pub(crate) fn feed(&mut self, alloc: Global, column: &Column) -> Result<Chunks, AllocError>
        requires typed { dtype_of (column_view column.now) ≡ leaf_type self.old.now }
        requires even { IsColumn (rows_len (column_view column.now)) (column_view column.now) }
        ensures chunks { IfOk result (λ chunks. chunks_seen chunks
            ≡ full_chunks self.old.now.strategy (appended self.old.now.kept (column_view column.now))) }
        ensures sound { IfOk result (λ chunks. AllOfType (leaf_type self.old.now) (chunks_seen chunks)) }
        ensures next { IfOk result (λ _. self.new.next ≡ grown_leaf self.old.now (column_view column.now)) }
        ensures still { self.new.now ≡ self.old.now }
    {
        self.pending = None;
        let fed = feed_held(
            alloc,
            self.strategy,
            &mut self.rows,
            self.count,
            self.gathered,
            column,
        )?;
        self.pending = Some(fed.pending);
        Ok(fed.chunks)
    }

    /// The push is done: its rows count.
    pub(crate) fn settle(&mut self)
        ensures { self.new.now ≡ self.old.next }
    {
        match self.pending.take() {
            None => {}
            Some(pending) => {
                replace(&mut self.rows, pending.rows);
                self.gathered = pending.gathered;
                self.count = self.rows.len();
                self.size = self.rows.plain_size();
            }
        }
    }

    /// The last chunk, if there is one. No value is copied. Only memory refuses.
    pub(crate) fn finish(self, alloc: Global) -> Result<Option<Column>, AllocError>
        ensures chunk { IfOk result (λ last. last_seen last ≡ last_chunk self.now.strategy self.now.kept) }
        ensures sound { IfOk result (λ last. AllOfType (leaf_type self.now) (last_seen last)) }
    {
        let last = last_of(alloc, self.strategy, self.rows, self.count)?;
        Ok(last)
    }

    /// How many bytes the rows that are held take, written plainly; 2^64 - 1 where they are more.
    pub(crate) fn plain_size(&self) -> u64
        ensures { result ≡ min (plain_size self.now.now.kept) (2 ^ 64 - 1) }
    {
        self.size
    }
}
