//! Reads the table of a layout. No row of it is kept: each layout is made while its table is walked.
ghost use Rattle.std.specs.Arc.{arc_value};
ghost use Rattle.std.specs.Prelude.{◌≡◌, ◌∷◌, ◌&&◌, [], suc, length, is_some, IfOk, IfSome, Some, None, if◌then◌else◌};
ghost use Rattle.std.specs.Option.{option_map};
ghost use Rattle.vx_tables.specs.Field.{numbers_in, numbers_of_vector};
ghost use Rattle.vx_tables.specs.Counted.{within, allowed, each_table};
ghost use Rattle.vx_tables.specs.Walking.{Walks, Reads};
ghost use Rattle.vx_data.specs.Dtype.{dtype_view};
ghost use Rattle.vx_data.specs.Layout.{numbers_of};
ghost use Rattle.vx_data.specs.LayoutTable.{ids_in, row_at, children_in, segments_in, layout_table};
ghost use Rattle.vx_data.specs.LayoutFound.{owned_dtype, behind, encoding_below, IsRow, AreRows, Finds, FindsAll};

use crate::layout_kinds::kind_at;
use crate::layout_shape::{child_dtype, has_as_many, shaped};
use crate::segment_ids::SegmentIds;
use crate::{DType, Layout, LayoutKind};
use std::alloc::{AllocError, Global};
use std::sync::Arc;
use vx_base::SegmentId;
use vx_tables::{Elements, TableReader, VectorReader, Visits, WalkError};

/// For how many layouts room is taken before they are read.
const MOST_AHEAD: usize = 1 << 18;

/// The number that bytes are, where there are as many as one number has.
fn only_number(bytes: &[u8]) -> Option<u32>
    ensures { IfSome result (λ n. numbers_in 1 bytes.now ≡ n ∷ []) }
{
    match bytes {
        [a, b, c, d] => Some(u32::from_le_bytes([*a, *b, *c, *d])),
        _ => None,
    }
}

/// The segments that the numbers of a vector are. Only memory refuses.
fn segments_of(alloc: Global, vector: &VectorReader<'_>) -> Result<SegmentIds, AllocError>
    requires { vector.now.elements ≡ Elements.Numbers 4 }
    ensures { IfOk result (λ ids. numbers_of (ids_in ids) ≡ numbers_of_vector vector.now.bytes vector.now.vector) }
{
    if vector.len() == 1 {
        if let Some(number) = only_number(vector.as_bytes()) {
            return Ok(SegmentIds::One(SegmentId(number)));
        }
    }
    let numbers = vector.numbers(alloc)?;
    SegmentIds::of(alloc, &numbers)
}

/// The segments that a layout names.
#[tactic(auto, using(vx_tables::proofs::Walk::seen_steps), unfolding(crate::specs::LayoutTable::segments_in))]
fn read_segments(
    alloc: Global,
    table: &TableReader<'_>,
    visits: &mut Visits,
) -> Result<SegmentIds, WalkError>
    ensures { Walks (λ ids. numbers_of (ids_in ids)) result visits.new (within table.now.levels visits.old (segments_in table.now.bytes table.now.table)) }
{
    match table.field_vector(4, Elements::Numbers(4), visits)? {
        Some(vector) => Ok(segments_of(alloc, &vector)?),
        None => Ok(SegmentIds::Listed(Vec::new(alloc))),
    }
}

/// The encoding, where it is below the number of ids.
fn encoding_among(specs: usize, encoding: u16) -> Result<u16, WalkError>
    ensures { Reads (λ e. e) result (encoding_below specs encoding) }
{
    if encoding as usize >= specs {
        return Err(WalkError::BadTable);
    }
    Ok(encoding)
}

/// Notes whether a kind is known beside those before it.
fn note_kind(known: &mut bool, kind: Option<LayoutKind>)
    ensures { known.new ≡ (known.old && is_some kind) }
{
    *known = *known && kind.is_some();
}

/// Room for so many layouts, where there may be as many.
fn room(alloc: Global, may_be: bool, count: usize) -> Result<Option<Vec<Layout>>, AllocError>
    ensures { IfOk result (λ layouts. option_map (λ v. v.items) layouts ≡ (if may_be then Some [] else None)) }
{
    if !may_be {
        return Ok(None);
    }
    Ok(Some(Vec::with_capacity(alloc, count.min(MOST_AHEAD))?))
}

/// A layout behind others, where all are there.
fn with_next(
    layouts: Option<Vec<Layout>>,
    layout: Option<Layout>,
) -> Result<Option<Vec<Layout>>, AllocError>
    ensures { IfOk result (λ all. option_map (λ v. v.items) all ≡ behind (option_map (λ v. v.items) layouts) layout) }
{
    let Some(mut layouts) = layouts else {
        return Ok(None);
    };
    let Some(layout) = layout else {
        return Ok(None);
    };
    layouts.push(layout)?;
    Ok(Some(layouts))
}

/// The layouts that are the elements of a vector, below one of this kind and type.
#[cycle(walking)]
#[tactic(auto, using(vx_tables::proofs::Walk::seen_steps), unfolding(vx_tables::specs::Counted::each_table))]
fn read_elements(
    alloc: Global,
    kinds: &[Option<LayoutKind>],
    kind: Option<LayoutKind>,
    dtype: &Option<Arc<DType, Global>>,
    vector: &VectorReader<'_>,
    known: &mut bool,
    visits: &mut Visits,
) -> Result<Option<Vec<Layout>>, WalkError>
    requires { vector.now.elements ≡ Elements.Offsets }
    ensures { Finds (λ rows layouts. AreRows kinds.now kind (owned_dtype dtype.now) known.old known.new rows (option_map (λ v. v.items) layouts))
        result visits.new (within vector.now.levels visits.old
        (each_table vector.now.bytes (row_at (length kinds.now) vector.now.levels vector.now.bytes) vector.now.vector)) }
{
    let mut layouts = room(alloc, has_as_many(kind, dtype, vector.len()), vector.len())?;
    for at in 0..vector.len() {
        let table = vector.table_at(at, visits)?;
        let child = child_dtype(alloc, kind, dtype, at)?;
        let layout = read_in(alloc, kinds, child, &table, known, visits)?;
        layouts = with_next(layouts, layout)?;
    }
    Ok(layouts)
}

/// The layouts below one of this kind and type.
#[cycle(walking)]
#[tactic(auto, using(vx_tables::proofs::Walk::seen_steps), unfolding(crate::specs::LayoutTable::children_in, vx_tables::specs::Counted::or_empty))]
fn read_children(
    alloc: Global,
    kinds: &[Option<LayoutKind>],
    kind: Option<LayoutKind>,
    dtype: &Option<Arc<DType, Global>>,
    table: &TableReader<'_>,
    known: &mut bool,
    visits: &mut Visits,
) -> Result<Option<Vec<Layout>>, WalkError>
    ensures { Finds (λ rows layouts. AreRows kinds.now kind (owned_dtype dtype.now) known.old known.new rows (option_map (λ v. v.items) layouts))
        result visits.new (within table.now.levels visits.old
        (children_in (row_at (length kinds.now) table.now.levels table.now.bytes) table.now.bytes table.now.table)) }
{
    match table.field_vector(3, Elements::Offsets, visits)? {
        Some(vector) => read_elements(alloc, kinds, kind, dtype, &vector, known, visits),
        None => Ok(room(alloc, has_as_many(kind, dtype, 0), 0)?),
    }
}

/// The layout that a table spells, where its type is there and it fits.
#[cycle(walking)]
#[tactic(auto, using(vx_tables::proofs::Walk::seen_steps), unfolding(crate::specs::LayoutTable::row_at))]
fn read_in(
    alloc: Global,
    kinds: &[Option<LayoutKind>],
    dtype: Option<Arc<DType, Global>>,
    table: &TableReader<'_>,
    known: &mut bool,
    visits: &mut Visits,
) -> Result<Option<Layout>, WalkError>
    ensures { Finds (λ row layout. IsRow kinds.now (owned_dtype dtype) known.old known.new row layout)
        result visits.new (within table.now.levels visits.old
        (row_at (length kinds.now) (suc table.now.levels) table.now.bytes table.now.table)) }
{
    let encoding = table.field_u16(0)?.unwrap_or(0);
    let row_count = table.field_u64(1)?.unwrap_or(0);
    let kind = kind_at(kinds, encoding);
    let children = read_children(alloc, kinds, kind, &dtype, table, known, visits)?;
    let segments = read_segments(alloc, table, visits)?;
    encoding_among(kinds.len(), encoding)?;
    note_kind(known, kind);
    Ok(shaped(alloc, kind, dtype, row_count, segments, children)?)
}

/// The layout of this type that a root spells, where it fits, and whether all kinds in it are known.
#[tactic(auto, using(vx_tables::proofs::Walk::seen_steps), unfolding(crate::specs::LayoutTable::layout_table, vx_tables::specs::Counted::allowed))]
pub(crate) fn read_layout(
    alloc: Global,
    kinds: &[Option<LayoutKind>],
    dtype: &DType,
    bytes: &[u8],
    known: &mut bool,
) -> Result<Option<Layout>, WalkError>
    ensures { FindsAll (λ row layout. IsRow kinds.now (Some (dtype_view dtype.now)) known.old known.new row layout)
        result (allowed (layout_table (length kinds.now) bytes.now)) }
{
    let mut visits = Visits::new();
    let table = TableReader::root(bytes, &mut visits)?;
    let dtype = Arc::new(alloc, dtype.share(alloc)?)?;
    read_in(alloc, kinds, Some(dtype), &table, known, &mut visits)
}
