//! The rows of a layout, read segment by segment.
ghost use Rattle.std.specs.Prelude.{◌≡◌, ℕ, List, ◌∷◌, [], ◌++◌, map, string_bytes, Ok, Err, IfOk, OnOk};
ghost use Rattle.vx_data.specs.Layout.{kind_of, segments_of, children_of, no_layouts};
ghost use Rattle.vx_data.specs.Layout.{dtype_of as type_of_tree, rows_of as tree_rows};
ghost use Rattle.vx_data.specs.declared.layout_kind.LayoutKind.TheVariants.{Flat, Chunked};
ghost use Rattle.vx_rows.specs.Rows.{column_view};
ghost use Rattle.vx_source.specs.Sources.{SameSource};
ghost use Rattle.vx_file.specs.declared.scan_error.ScanError.{ScanError};
ghost use Rattle.vx_file.specs.Scans.{seen, array_in, flats_of, flats_of_all, IsOf, AreParts};
ghost use Rattle.vx_file.specs.Scans.{IsRead, AreRead, NamesFirst, DecodeFails, SourceFails};

use crate::ScanError;
use crate::column_joining::{take_rows, zip};
use std::alloc::{AllocError, Global};
use vx_base::{ByteBuffer, SegmentId};
use vx_data::{Layout, LayoutKind};
use vx_rows::{ArrayError, Column, GrowingColumn, decode_array};
use vx_source::{SegmentSource, SourceError};

/// The column of a flat layout whose segment has these bytes.
fn decode_flat(
    alloc: Global,
    layout: &Layout,
    ids: &[String],
    id: SegmentId,
    segment: &ByteBuffer,
) -> Result<Column, ScanError>
    ensures ok { let names = map string_bytes ids.now in
        IfOk result (λ c. array_in layout.now names segment.now.bytes ≡ Ok (column_view c)) }
    ensures typed { IfOk result (λ c. IsOf layout.now (column_view c)) }
    ensures fails { (e : ScanError) → result ≡ Err e →
        DecodeFails id.0 (array_in layout.now (map string_bytes ids.now) segment.now.bytes) e }
{
    match decode_array(alloc, segment, layout.dtype(), layout.row_count(), ids) {
        Ok(column) => Ok(column),
        Err(ArrayError::BadArray) => Err(ScanError::BadArray(id)),
        Err(ArrayError::UnknownEncoding) => Err(ScanError::UnknownEncoding(id)),
        Err(ArrayError::OutOfMemory) => Err(ScanError::OutOfMemory),
    }
}

/// The column of a flat layout.
fn read_flat<S: SegmentSource>(
    alloc: Global,
    source: &mut S,
    layout: &Layout,
    ids: &[String],
) -> Result<Column, ScanError>
    requires { kind_of layout.now ≡ Flat }
    ensures reads { let names = map string_bytes ids.now in
        IfOk result (λ c. IsRead (S.serves source.old) (S.state source.old) names layout.now (column_view c)) }
    ensures typed { IfOk result (λ c. IsOf layout.now (column_view c)) }
    ensures fails { let flats = flats_of layout.now in (e : ScanError) → result ≡ Err e →
        NamesFirst (S.serves source.old) (S.state source.old) (S.state source.new) (map string_bytes ids.now) flats e }
    ensures cause { (e : ScanError) → result ≡ Err e → SourceFails (S.state source.old) (S.state source.new) e }
    ensures serves { (file : List ℕ) → S.serves source.old file → S.serves source.new file }
    ensures steady { (file : List ℕ) → S.never_fails source.old file →
        S.never_fails source.new file × ((S.state source.new).faults ≡ (S.state source.old).faults) }
    ensures same { SameSource (S.state source.old) (S.state source.new) }
{
    let id = segment_of(layout);
    match source.segment(alloc, id) {
        Ok(segment) => decode_flat(alloc, layout, ids, id, &segment),
        Err(SourceError::OutOfMemory) => Err(ScanError::OutOfMemory),
        Err(error) => Err(ScanError::Segment(id, error)),
    }
}

/// The segment of a flat layout.
fn segment_of(layout: &Layout) -> SegmentId
    requires { kind_of layout.now ≡ Flat }
    ensures segment { segments_of layout.now ≡ result.0 ∷ [] }
    ensures alone { children_of layout.now ≡ no_layouts }
{
    let children = layout.fitted_children();
    prove!(children.is_empty());
    layout.segment_ids()[0]
}

/// Puts a column behind others.
pub(crate) fn add(columns: &mut Vec<Column>, column: Column) -> Result<(), AllocError>
    ensures { OnOk result (seen columns.new.items ≡ seen columns.old.items ++ column_view column ∷ []) }
{
    columns.push(column)?;
    Ok(())
}

/// The columns of the layouts below.
#[cycle(reading)]
fn read_children<S: SegmentSource>(
    alloc: Global,
    source: &mut S,
    layout: &Layout,
    ids: &[String],
) -> Result<Vec<Column>, ScanError>
    ensures reads { let names = map string_bytes ids.now in let ts = children_of layout.now in
        IfOk result (λ cs. AreRead (S.serves source.old) (S.state source.old) names ts (seen cs.items)) }
    ensures parts { let t = layout.now in
        IfOk result (λ cs. AreParts (kind_of t) (type_of_tree t) (tree_rows t) (seen cs.items)) }
    ensures fails { let flats = flats_of_all (children_of layout.now) in (e : ScanError) → result ≡ Err e →
        NamesFirst (S.serves source.old) (S.state source.old) (S.state source.new) (map string_bytes ids.now) flats e }
    ensures cause { (e : ScanError) → result ≡ Err e → SourceFails (S.state source.old) (S.state source.new) e }
    ensures serves { (file : List ℕ) → S.serves source.old file → S.serves source.new file }
    ensures steady { (file : List ℕ) → S.never_fails source.old file →
        S.never_fails source.new file × ((S.state source.new).faults ≡ (S.state source.old).faults) }
    ensures same { SameSource (S.state source.old) (S.state source.new) }
{
    let children = layout.fitted_children();
    let mut columns = Vec::new(alloc);
    for child in children {
        let column = read_layout(alloc, source, child, ids)?;
        add(&mut columns, column)?;
    }
    Ok(columns)
}

/// The rows of the layouts below, one behind the other. Each column goes as soon as its rows are taken, before the next
/// segment is read, so that the bytes are hardly ever held twice.
#[cycle(reading)]
fn read_chunks<S: SegmentSource>(
    alloc: Global,
    source: &mut S,
    layout: &Layout,
    ids: &[String],
) -> Result<Column, ScanError>
    requires { kind_of layout.now ≡ Chunked }
    ensures reads { let names = map string_bytes ids.now in
        IfOk result (λ c. IsRead (S.serves source.old) (S.state source.old) names layout.now (column_view c)) }
    ensures typed { IfOk result (λ c. IsOf layout.now (column_view c)) }
    ensures fails { let flats = flats_of layout.now in (e : ScanError) → result ≡ Err e →
        NamesFirst (S.serves source.old) (S.state source.old) (S.state source.new) (map string_bytes ids.now) flats e }
    ensures cause { (e : ScanError) → result ≡ Err e → SourceFails (S.state source.old) (S.state source.new) e }
    ensures serves { (file : List ℕ) → S.serves source.old file → S.serves source.new file }
    ensures steady { (file : List ℕ) → S.never_fails source.old file →
        S.never_fails source.new file × ((S.state source.new).faults ≡ (S.state source.old).faults) }
    ensures same { SameSource (S.state source.old) (S.state source.new) }
{
    let children = layout.fitted_children();
    let mut rows = GrowingColumn::new(alloc, layout.dtype())?;
    for child in children {
        let column = read_layout(alloc, source, child, ids)?;
        take_rows(alloc, &mut rows, column)?;
    }
    Ok(rows.finish(alloc)?)
}

/// The column of a layout, read segment by segment, in preorder, from a source. Where it fails, the error names the
/// first flat layout that does.
#[cycle(reading)]
pub(crate) fn read_layout<S: SegmentSource>(
    alloc: Global,
    source: &mut S,
    layout: &Layout,
    ids: &[String],
) -> Result<Column, ScanError>
    ensures reads { let names = map string_bytes ids.now in
        IfOk result (λ c. IsRead (S.serves source.old) (S.state source.old) names layout.now (column_view c)) }
    ensures typed { IfOk result (λ c. IsOf layout.now (column_view c)) }
    ensures fails { let flats = flats_of layout.now in (e : ScanError) → result ≡ Err e →
        NamesFirst (S.serves source.old) (S.state source.old) (S.state source.new) (map string_bytes ids.now) flats e }
    ensures cause { (e : ScanError) → result ≡ Err e → SourceFails (S.state source.old) (S.state source.new) e }
    ensures serves { (file : List ℕ) → S.serves source.old file → S.serves source.new file }
    ensures steady { (file : List ℕ) → S.never_fails source.old file →
        S.never_fails source.new file × ((S.state source.new).faults ≡ (S.state source.old).faults) }
    ensures same { SameSource (S.state source.old) (S.state source.new) }
{
    match layout.kind() {
        LayoutKind::Flat => read_flat(alloc, source, layout, ids),
        LayoutKind::Chunked => read_chunks(alloc, source, layout, ids),
        LayoutKind::Struct => {
            let columns = read_children(alloc, source, layout, ids)?;
            let rows = layout.row_count() as usize;
            Ok(zip(alloc, layout.dtype(), rows, columns)?)
        }
    }
}
