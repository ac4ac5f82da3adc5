//! The table of a layout, as it is written.
ghost use Rattle.std.specs.Prelude.{◌≡◌, ◌≤◌, ◌++◌, IfOk, OnOk, List, ℕ, true, length, map, string_bytes};
ghost use Rattle.vx_tables.specs.Block.{Piece, slot_count, listed};
ghost use Rattle.vx_data.specs.Layout.{layouts_of, numbers_of};
ghost use Rattle.vx_data.specs.LayoutWritten.{kind_id, place_in, has_id, uses_ids, all_use, children_pieces, segments_pieces, node_pieces, tree_pieces, trees_pieces};

use crate::{Layout, LayoutKind};
use std::alloc::{AllocError, Global};
use vx_base::SegmentId;
use vx_tables::{TableList, TableWriter};

/// The id of a kind.
pub(crate) fn name_of(kind: LayoutKind) -> &'static str
    ensures { result.now ≡ kind_id kind }
{
    match kind {
        LayoutKind::Flat => "vortex.flat",
        LayoutKind::Chunked => "vortex.chunked",
        LayoutKind::Struct => "vortex.struct",
    }
}

/// The first place of an id, or how many ids there are.
fn place_of(ids: &[String], id: &str) -> usize
    ensures { result ≡ place_in (map string_bytes ids.now) id.now }
{
    let mut place = 0;
    for other in ids {
        if other.as_str() == id {
            return place;
        }
        place += 1;
    }
    place
}

/// The place of a kind's id.
#[tactic(auto, using(crate::proofs::LayoutTables::place_below))]
fn encoding_of(kind: LayoutKind, ids: &[String]) -> u16
    requires used { has_id (map string_bytes ids.now) (kind_id kind) ≡ true }
    requires few { length ids.now ≤ 65536 }
    ensures { result ≡ place_in (map string_bytes ids.now) (kind_id kind) }
{
    place_of(ids, name_of(kind)) as u16
}

/// The numbers of segments.
fn numbers(alloc: Global, segments: &[SegmentId]) -> Result<Vec<u32>, AllocError>
    ensures { IfOk result (λ numbers. numbers.items ≡ numbers_of segments.now) }
{
    let mut numbers = Vec::new(alloc);
    for segment in segments {
        numbers.push(segment.0)?;
    }
    Ok(numbers)
}

/// Adds the tables of children, where there are any.
#[tactic(auto, using(crate::proofs::LayoutTables::slots_behind))]
fn push_children(
    alloc: Global,
    table: &mut TableWriter,
    children: &TableList,
) -> Result<(), AllocError>
    requires { slot_count table.old ≤ 3 }
    ensures value { OnOk result ((ws : List (List Piece)) → children.now ≡ listed ws → table.new ≡ table.old ++ children_pieces ws) }
    ensures slots { OnOk result (slot_count table.new ≤ 4) }
{
    if children.is_empty() {
        return Ok(());
    }
    table.push_list(alloc, 3, children)?;
    Ok(())
}

/// Adds the numbers of segments, where there are any.
fn push_segments(alloc: Global, table: &mut TableWriter, segments: &[u32]) -> Result<(), AllocError>
    requires { slot_count table.old ≤ 4 }
    ensures { OnOk result (table.new ≡ table.old ++ segments_pieces segments.now) }
{
    if segments.is_empty() {
        return Ok(());
    }
    table.push_numbers(alloc, 4, segments)?;
    Ok(())
}

/// The table of a layout of these parts.
#[tactic(auto, using(crate::proofs::LayoutTables::slots_fit))]
fn node_of(
    alloc: Global,
    encoding: u16,
    row_count: u64,
    children: &TableList,
    segments: &[u32],
) -> Result<TableWriter, AllocError>
    ensures { IfOk result (λ table. (ws : List (List Piece)) → children.now ≡ listed ws → table ≡ node_pieces encoding row_count ws segments.now) }
{
    let mut table = TableWriter::new(alloc);
    table.push_u16(alloc, 0, encoding)?;
    table.push_u64(alloc, 1, row_count)?;
    push_children(alloc, &mut table, children)?;
    push_segments(alloc, &mut table, segments)?;
    Ok(table)
}

/// The tables of layouts.
#[cycle(writing)]
#[tactic(auto, using(crate::proofs::LayoutTables::tree_steps))]
fn tables_of(alloc: Global, layouts: &[Layout], ids: &[String]) -> Result<TableList, AllocError>
    requires used { all_use (map string_bytes ids.now) (layouts_of layouts.now) ≡ true }
    requires few { length ids.now ≤ 65536 }
    ensures { IfOk result (λ tables. tables ≡ listed (trees_pieces (map string_bytes ids.now) (layouts_of layouts.now))) }
{
    let mut tables = TableList::new(alloc);
    for at in 0..layouts.len() {
        let table = table_of(alloc, &layouts[at], ids)?;
        tables.push(&table)?;
    }
    Ok(tables)
}

/// The table of a layout, whose ids are among these.
#[cycle(writing)]
#[tactic(auto, using(crate::proofs::LayoutTables::tree_parts))]
pub(crate) fn table_of(
    alloc: Global,
    layout: &Layout,
    ids: &[String],
) -> Result<TableWriter, AllocError>
    requires used { uses_ids (map string_bytes ids.now) layout.now ≡ true }
    requires few { length ids.now ≤ 65536 }
    ensures { IfOk result (λ table. table ≡ tree_pieces (map string_bytes ids.now) layout.now) }
{
    let encoding = encoding_of(layout.kind(), ids);
    let segments = numbers(alloc, layout.segment_ids())?;
    let children = tables_of(alloc, layout.children(), ids)?;
    Ok(node_of(alloc, encoding, layout.row_count(), &children, &segments)?)
}
