//! Writes the table of a layout, within what a reader allows.
ghost use Rattle.std.specs.Prelude.{◌≡◌, ◌≤◌, ◌+◌, true, length, map, nat_le, string_bytes};
ghost use Rattle.vx_base.specs.Checks.{Gives};
ghost use Rattle.vx_data.specs.Layout.{layouts_of, numbers_of};
ghost use Rattle.vx_data.specs.Written.{FailsToWrite, left_of};
ghost use Rattle.vx_data.specs.LayoutWritten.{uses_ids, tree_levels, most_tree_levels, vector_visit, segments_visits, tree_visits, trees_visits, layout_written};

use crate::dtype_writing::{MOST_LEVELS, MOST_VISITS, finished};
use crate::layout_table::table_of;
use crate::{Layout, TableWriteError};
use std::alloc::Global;
use vx_base::{ByteBuffer, SegmentId};

/// Whether layouts have at most so many levels of tables.
#[cycle(measuring)]
#[tactic(auto, using(crate::proofs::LayoutTables::next_tree_levels))]
fn are_shallow(layouts: &[Layout], levels: usize) -> bool
    ensures { result ≡ nat_le (most_tree_levels (layouts_of layouts.now)) levels }
{
    for at in 0..layouts.len() {
        if !is_shallow(&layouts[at], levels) {
            return false;
        }
    }
    true
}

/// Whether a layout has at most so many levels of tables. It looks no deeper.
#[cycle(measuring)]
#[tactic(auto, using(crate::proofs::LayoutTables::levels_are))]
pub(crate) fn is_shallow(layout: &Layout, levels: usize) -> bool
    ensures { result ≡ nat_le (tree_levels layout.now) levels }
{
    if levels == 0 {
        return false;
    }
    are_shallow(layout.children(), levels - 1)
}

/// The visit of a vector of children.
#[tactic(auto, using(crate::proofs::LayoutTables::one_vector))]
fn vector_visits(children: &[Layout]) -> u64
    ensures value { result ≡ vector_visit (layouts_of children.now) }
    ensures few { result ≤ 1 }
{
    if children.is_empty() {
        return 0;
    }
    1
}

/// The visits of a table and its vectors.
fn own_visits(children: &[Layout], segments: &[SegmentId]) -> u64
    ensures { result ≡ 1 + (vector_visit (layouts_of children.now) + segments_visits (numbers_of segments.now)) }
{
    1 + vector_visits(children) + segment_visits(segments)
}

/// The visits of a vector of segments.
#[tactic(auto, using(crate::proofs::Lengths::lengths))]
fn segment_visits(segments: &[SegmentId]) -> u64
    ensures value { result ≡ segments_visits (numbers_of segments.now) }
    ensures few { result ≤ 2305843009213693952 }
{
    if segments.is_empty() {
        return 0;
    }
    1 + segments.len() as u64 / 16
}

/// The visits that are left behind those of layouts.
#[cycle(visiting)]
#[tactic(auto, using(crate::proofs::LayoutTables::next_tree_visits))]
fn all_left(layouts: &[Layout], visits: u64) -> Option<u64>
    ensures { result ≡ left_of (trees_visits (layouts_of layouts.now)) visits }
{
    let mut left = visits;
    for at in 0..layouts.len() {
        left = visits_left(&layouts[at], left)?;
    }
    Some(left)
}

/// The visits that are left behind those of a layout.
#[cycle(visiting)]
#[tactic(auto, using(crate::proofs::LayoutTables::visits_are))]
pub(crate) fn visits_left(layout: &Layout, visits: u64) -> Option<u64>
    ensures { result ≡ left_of (tree_visits layout.now) visits }
{
    let own = own_visits(layout.children(), layout.segment_ids());
    let left = visits.checked_sub(own)?;
    all_left(layout.children(), left)
}

impl Layout {
    /// The table of the layout, whose encodings are places among these ids. It is refused where a reader
    /// would find it too deep or too large.
    #[tactic(auto, unfolding(crate::specs::LayoutWritten::layout_written))]
    pub fn write(&self, alloc: Global, layout_ids: &[String]) -> Result<ByteBuffer, TableWriteError>
        requires used { uses_ids (map string_bytes layout_ids.now) self.now ≡ true }
        requires few { length layout_ids.now ≤ 65536 }
        ensures { Gives FailsToWrite (λ b. b.bytes) result (layout_written (map string_bytes layout_ids.now) self.now) }
    {
        if !is_shallow(self, MOST_LEVELS) {
            return Err(TableWriteError::TooDeep);
        }
        if visits_left(self, MOST_VISITS).is_none() {
            return Err(TableWriteError::TooManyTables);
        }
        let table = table_of(alloc, self, layout_ids)?;
        finished(alloc, table)
    }
}
