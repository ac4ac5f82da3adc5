//! The leaves of a file, and the rows that are held back of each.
ghost use Rattle.std.specs.Prelude.{◌≡◌, length, ◌++◌, ◌-◌, ◌^◌, min, map, sum_by, OnOk, IfOk};
ghost use Rattle.vx_data.specs.Dtype.{dtype_view};
ghost use Rattle.vx_rows.specs.Parts.{plain_size};
ghost use Rattle.vx_write.specs.Plans.{plan_view, IsFor, leaves_of};
ghost use Rattle.vx_write.specs.Leaves.{nows, nexts, filled, grown, rests, held_size, chunks_at, leaf_types, column_types, AreSound, AreChunks};
ghost use Rattle.vx_write.specs.Chunks.{chunks_view, chunks_seen, columns_seen, last_seen};

use crate::LeafStrategy;
use crate::chunks::Chunks;
use crate::held_leaf::HeldLeaf;
use crate::new_leaves::add_leaves;
use crate::plan::Plan;
use std::alloc::{AllocError, Global};
use std::marker::Model;
use std::mem;
use vx_data::DType;
use vx_rows::Column;

/// The chunks of a leaf, which is named by its place in preorder.
#[derive(Drop)]
pub(crate) struct LeafChunks {
    pub leaf: usize,
    pub chunks: Chunks,
}

/// The leaves of a file, and the rows that are held back of each.
#[derive(Drop)]
pub(crate) struct HeldLeaves {
    leaves: Vec<HeldLeaf>,
}

impl Model for HeldLeaves {
    ghost use Rattle.vx_write.specs.Leaves.{LeafStates, states_of};
    ghost use Rattle.vx_write.specs.LeafCodes.{states_code};

    ghost Value = { LeafStates };

    ghost coded = { states_code };

    ghost view = { λ a. states_of a.leaves.items };
}

/// Adds the chunks of a leaf.
#[tactic(auto, using(crate::proofs::SendingLemmas::chunks_more))]
fn push_chunks(all: &mut Vec<LeafChunks>, leaf: usize, chunks: Chunks) -> Result<(), AllocError>
    ensures { OnOk result (chunks_view all.new.items ≡ chunks_view all.old.items ++ chunks_at leaf (chunks_seen chunks)) }
{
    all.push(LeafChunks { leaf, chunks })?;
    Ok(())
}

/// Adds the last chunk of a leaf, if there is one.
fn push_last(
    chunks: &mut Vec<LeafChunks>,
    leaf: usize,
    last: Option<Column>,
) -> Result<(), AllocError>
    ensures { OnOk result (chunks_view chunks.new.items ≡ chunks_view chunks.old.items ++ chunks_at leaf (last_seen last)) }
{
    match last {
        None => Ok(()),
        Some(column) => {
            let last = Chunks {
                first: Some(column),
                others: None,
            };
            push_chunks(chunks, leaf, last)?;
            Ok(())
        }
    }
}

/// Feeds each leaf its column.
fn feed_each(
    alloc: Global,
    leaves: &mut Vec<HeldLeaf>,
    columns: &[Column],
) -> Result<Vec<LeafChunks>, AllocError>
    requires typed { column_types (columns_seen columns.now) ≡ leaf_types (nows leaves.old.items) }
    requires sound { AreSound (columns_seen columns.now) }
    ensures chunks { IfOk result (λ chunks. chunks_view chunks.items ≡ filled (nows leaves.old.items) (columns_seen columns.now)) }
    ensures sound { IfOk result (λ chunks. AreChunks (leaf_types (nows leaves.old.items)) (chunks_view chunks.items)) }
    ensures next { IfOk result (λ _. nexts leaves.new.items ≡ grown (nows leaves.old.items) (columns_seen columns.now)) }
    ensures still { nows leaves.new.items ≡ nows leaves.old.items }
{
    let mut chunks = Vec::new(alloc);
    for at in 0..leaves.len() {
        let leaf = &mut leaves[at];
        let full = leaf.feed(alloc, &columns[at])?;
        push_chunks(&mut chunks, at, full)?;
    }
    Ok(chunks)
}

/// Settles each leaf.
fn settle_each(leaves: &mut Vec<HeldLeaf>)
    ensures { nows leaves.new.items ≡ nexts leaves.old.items }
{
    for at in 0..leaves.len() {
        let leaf = &mut leaves[at];
        leaf.settle();
    }
}

/// A leaf, in whose place one without rows stands then.
fn take(alloc: Global, leaf: &mut HeldLeaf) -> Result<HeldLeaf, AllocError>
    ensures { IfOk result (λ taken. taken ≡ leaf.old) }
{
    let empty = HeldLeaf::new(alloc, LeafStrategy::Whole, &DType::Bool(false))?;
    Ok(mem::replace(leaf, empty))
}

/// The last chunks of leaves, which are taken away.
fn finish_each(alloc: Global, leaves: &mut Vec<HeldLeaf>) -> Result<Vec<LeafChunks>, AllocError>
    ensures chunks { IfOk result (λ chunks. chunks_view chunks.items ≡ rests (nows leaves.old.items)) }
    ensures sound { IfOk result (λ chunks. AreChunks (leaf_types (nows leaves.old.items)) (chunks_view chunks.items)) }
{
    let mut chunks = Vec::new(alloc);
    for at in 0..leaves.len() {
        let leaf = &mut leaves[at];
        let taken = take(alloc, leaf)?;
        let last = taken.finish(alloc)?;
        push_last(&mut chunks, at, last)?;
    }
    Ok(chunks)
}

/// The sum of the sizes of the rows that are held.
fn size_of_all(leaves: &[HeldLeaf]) -> u64
    ensures { result ≡ min (held_size (nows leaves.now)) (2 ^ 64 - 1) }
{
    let mut size: u64 = 0;
    for at in 0..leaves.len() {
        size = size.saturating_add(leaves[at].plain_size());
    }
    size
}

impl HeldLeaves {
    /// The leaves of a type, without rows. Only memory refuses.
    pub(crate) fn new(alloc: Global, plan: &Plan, dtype: &DType) -> Result<HeldLeaves, AllocError>
        requires { IsFor (plan_view plan.now) (dtype_view dtype.now) }
        ensures { IfOk result (λ leaves. leaves.now ≡ leaves_of (plan_view plan.now) (dtype_view dtype.now)) }
    {
        let mut leaves = Vec::new(alloc);
        add_leaves(alloc, plan, dtype, &mut leaves)?;
        Ok(HeldLeaves { leaves })
    }

    /// The chunks that are full with a column more for each leaf, leaf after leaf. The rows count once the push is
    /// settled: a push that is not is as if it had not been. Only memory refuses.
    pub(crate) fn feed(
        &mut self,
        alloc: Global,
        columns: &[Column],
    ) -> Result<Vec<LeafChunks>, AllocError>
        requires typed { column_types (columns_seen columns.now) ≡ leaf_types self.old.now }
        requires sound { AreSound (columns_seen columns.now) }
        ensures chunks { IfOk result (λ chunks. chunks_view chunks.items ≡ filled self.old.now (columns_seen columns.now)) }
        ensures next { IfOk result (λ _. self.new.next ≡ grown self.old.now (columns_seen columns.now)) }
        ensures typed { IfOk result (λ _. leaf_types self.new.next ≡ leaf_types self.old.now) }
        ensures sound { IfOk result (λ chunks. AreChunks (leaf_types self.old.now) (chunks_view chunks.items)) }
        ensures still { self.new.now ≡ self.old.now }
    {
        let chunks = feed_each(alloc, &mut self.leaves, columns)?;
        Ok(chunks)
    }

    /// The push is done: its rows count.
    pub(crate) fn settle(&mut self)
        ensures { self.new.now ≡ self.old.next }
    {
        settle_each(&mut self.leaves);
    }

    /// The last chunks, of the rows that are held back, leaf after leaf. Only memory refuses.
    pub(crate) fn finish(self, alloc: Global) -> Result<Vec<LeafChunks>, AllocError>
        ensures chunks { IfOk result (λ chunks. chunks_view chunks.items ≡ rests self.now) }
        ensures sound { IfOk result (λ chunks. AreChunks (leaf_types self.now) (chunks_view chunks.items)) }
    {
        let mut leaves = self.leaves;
        let chunks = finish_each(alloc, &mut leaves)?;
        Ok(chunks)
    }

    /// How many bytes the rows that are held back take, written plainly; 2^64 - 1 where they are more.
    pub(crate) fn plain_size(&self) -> u64
        ensures { result ≡ min (held_size self.now.now) (2 ^ 64 - 1) }
    {
        size_of_all(&self.leaves)
    }
}

impl HeldLeaves {
    /// How many leaves there are.
    pub(crate) fn len(&self) -> usize
        ensures { result ≡ length self.now.now }
    {
        self.leaves.len()
    }
}
