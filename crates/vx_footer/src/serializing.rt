//! Writes a footer: its tables, the postscript that says where they lie, and the end marker.
ghost use Rattle.std.specs.Prelude.{All, ◌≡◌, ◌+◌, ◌<◌, ◌^◌, ◌∷◌, [], IfOk, length, map, string_bytes, true};
ghost use Rattle.vx_base.specs.Checks.{Gives};
ghost use Rattle.vx_tables.specs.Block.{root_bytes};
ghost use Rattle.vx_data.specs.Dtype.{dtype_view};
ghost use Rattle.vx_data.specs.DtypeWritten.{dtype_written, pieces_of};
ghost use Rattle.vx_data.specs.LayoutWritten.{layout_written, tree_pieces, uses_ids};
ghost use Rattle.vx_footer.specs.Serialized.{IsFlat, id_pieces, flat_id, footer_pieces, place_pieces, postscript_pieces, ids_bytes, places_bytes, end_marker as end_marker_bytes, place, segment_of, placed, of_written, serialize_checks, serialized, joined, Fails};

use crate::version::{MAGIC_BYTES, VERSION};
use crate::{Footer, PostscriptSegment, SerializeError};
use std::alloc::{AllocError, Global};
use vx_base::{Alignment, ByteBuffer, SegmentSpec};
use vx_data::{DType, Layout};
use vx_tables::{TableError, TableWriter};

/// The alignment exponent that the postscript says of each table. It is a mere claim: the tables
/// lie one behind the other, without padding.
const TABLE_EXPONENT: u8 = 3;

/// The id of the one layout.
const FLAT: &str = "vortex.flat";

/// The places of the tables that are written.
#[derive(Clone, Copy, Debug, PartialEq, Eq)]
pub struct Places {
    pub dtype: PostscriptSegment,
    pub layout: PostscriptSegment,
    pub footer: PostscriptSegment,
}

/// The root of the dtype table.
#[tactic(auto, using(crate::proofs::Written::dtype_written_is, crate::proofs::Written::dtype_short))]
fn dtype_table(alloc: Global, dtype: &DType) -> Result<ByteBuffer, SerializeError>
    ensures value { Gives Fails (λ b. b.bytes) result (of_written (dtype_written (dtype_view dtype.now))) }
    ensures bytes { IfOk result (λ b. b.bytes ≡ root_bytes (pieces_of (dtype_view dtype.now))) }
    ensures short { IfOk result (λ b. length b.bytes < 2 ^ 32) }
    ensures unaligned { IfOk result (λ b. b.alignment ≡ 0) }
{
    Ok(dtype.write(alloc)?.aligned(Alignment::none()))
}

/// The ids of layouts: the flat one alone.
fn layout_ids(alloc: Global) -> Result<Vec<String>, AllocError>
    ensures { IfOk result (λ ids. map string_bytes ids.items ≡ flat_id ∷ []) }
{
    let mut ids = Vec::new(alloc);
    ids.push(String::from_str(alloc, FLAT)?)?;
    Ok(ids)
}

/// The root of the layout table.
#[tactic(auto, using(crate::proofs::Written::layout_written_is, crate::proofs::Written::layout_short))]
fn layout_table(alloc: Global, layout: &Layout) -> Result<ByteBuffer, SerializeError>
    requires { uses_ids (flat_id ∷ []) layout.now ≡ true }
    ensures value { Gives Fails (λ b. b.bytes) result (of_written (layout_written (flat_id ∷ []) layout.now)) }
    ensures bytes { IfOk result (λ b. b.bytes ≡ root_bytes (tree_pieces (flat_id ∷ []) layout.now)) }
    ensures short { IfOk result (λ b. length b.bytes < 2 ^ 32) }
    ensures unaligned { IfOk result (λ b. b.alignment ≡ 0) }
{
    let ids = layout_ids(alloc)?;
    Ok(layout.write(alloc, &ids)?.aligned(Alignment::none()))
}

/// The table of an encoding, which has its id.
fn id_table(alloc: Global, id: &str) -> Result<TableWriter, AllocError>
    ensures { IfOk result (λ t. t ≡ id_pieces id.now) }
{
    let mut table = TableWriter::new(alloc);
    table.push_text(alloc, 0, id)?;
    Ok(table)
}

/// The tables of encodings, one for each id.
pub(crate) fn id_tables(alloc: Global, ids: &[String]) -> Result<Vec<TableWriter>, AllocError>
    ensures { IfOk result (λ v. v.items ≡ map id_pieces (map string_bytes ids.now)) }
{
    let mut tables = Vec::new(alloc);
    for id in ids {
        tables.push(id_table(alloc, id.as_str())?)?;
    }
    Ok(tables)
}

/// The tables of layouts: the flat one alone.
fn layout_tables(alloc: Global) -> Result<Vec<TableWriter>, AllocError>
    ensures { IfOk result (λ v. v.items ≡ id_pieces flat_id ∷ []) }
{
    let mut tables = Vec::new(alloc);
    tables.push(id_table(alloc, FLAT)?)?;
    Ok(tables)
}

/// The footer's table: the ids of arrays, the one layout's id, and the segments.
fn ids_table(
    alloc: Global,
    ids: &[String],
    specs: &[SegmentSpec],
) -> Result<TableWriter, AllocError>
    ensures { IfOk result (λ t. t ≡ footer_pieces (map string_bytes ids.now) specs.now) }
{
    let mut table = TableWriter::new(alloc);
    table.push_tables(alloc, 0, id_tables(alloc, ids)?)?;
    table.push_tables(alloc, 1, layout_tables(alloc)?)?;
    table.push_specs(alloc, 2, specs)?;
    Ok(table)
}

/// The root of the footer's table.
#[tactic(auto, unfolding(crate::specs::Serialized::ids_bytes))]
fn footer_table(
    alloc: Global,
    ids: &[String],
    specs: &[SegmentSpec],
) -> Result<ByteBuffer, SerializeError>
    ensures value { Gives Fails (λ b. b.bytes) result (segment_of (ids_bytes (map string_bytes ids.now) specs.now)) }
    ensures unaligned { IfOk result (λ b. b.alignment ≡ 0) }
{
    let table = ids_table(alloc, ids, specs)?;
    Ok(table.finish(alloc)?)
}

/// The table that says where another lies.
pub(crate) fn place_table(
    alloc: Global,
    place: &PostscriptSegment,
) -> Result<TableWriter, AllocError>
    ensures { IfOk result (λ t. t ≡ place_pieces place.now) }
{
    let mut table = TableWriter::new(alloc);
    table.push_u64(alloc, 0, place.offset)?;
    table.push_u32(alloc, 1, place.length)?;
    table.push_u8(alloc, 2, place.alignment.exponent())?;
    Ok(table)
}

/// The root of the postscript. It has the same length whatever the places are, so it is never too
/// long, and only memory refuses.
#[tactic(auto, unfolding(crate::specs::Serialized::places_bytes))]
fn postscript_table(alloc: Global, places: &Places) -> Result<ByteBuffer, AllocError>
    ensures value { IfOk result (λ b. b.bytes ≡ places_bytes places.now) }
    ensures size { IfOk result (λ b. length b.bytes ≡ 113) }
    ensures unaligned { IfOk result (λ b. b.alignment ≡ 0) }
{
    let mut table = TableWriter::new(alloc);
    table.push_table(alloc, 0, place_table(alloc, &places.dtype)?)?;
    table.push_table(alloc, 1, place_table(alloc, &places.layout)?)?;
    table.push_table(alloc, 3, place_table(alloc, &places.footer)?)?;
    match table.finish(alloc) {
        Ok(buffer) => Ok(buffer),
        Err(TableError::OutOfMemory) => Err(AllocError),
        Err(TableError::TableTooLong) => unreachable!(),
    }
}

/// The end marker behind a postscript of `size` bytes.
fn end_marker(alloc: Global, size: u16) -> Result<ByteBuffer, AllocError>
    ensures value { IfOk result (λ b. b.bytes ≡ end_marker_bytes size) }
    ensures unaligned { IfOk result (λ b. b.alignment ≡ 0) }
{
    let mut bytes = Vec::new(alloc);
    bytes.extend_from_slice(&VERSION.to_le_bytes())?;
    bytes.extend_from_slice(&size.to_le_bytes())?;
    bytes.extend_from_slice(&MAGIC_BYTES)?;
    ByteBuffer::from_vec(alloc, bytes, Alignment::none())
}

/// The place of a table that begins at `offset`.
fn place_of(offset: u64, table: &ByteBuffer) -> PostscriptSegment
    requires { length table.now.bytes < 2 ^ 32 }
    ensures { result ≡ place offset table.now.bytes }
{
    PostscriptSegment {
        offset,
        length: table.len() as u32,
        alignment: Alignment::new(TABLE_EXPONENT).unwrap(),
    }
}

/// The places of the tables, the first of which begins at `offset`.
fn places_of(
    offset: u64,
    dtype: &ByteBuffer,
    layout: &ByteBuffer,
    footer: &ByteBuffer,
) -> Result<Places, SerializeError>
    requires dtype { length dtype.now.bytes < 2 ^ 32 }
    requires layout { length layout.now.bytes < 2 ^ 32 }
    requires footer { length footer.now.bytes < 2 ^ 32 }
    ensures { Gives Fails (λ t. t) result (placed offset dtype.now.bytes layout.now.bytes footer.now.bytes) }
{
    let head = dtype.len() as u64;
    let middle = layout.len() as u64;
    let tail = footer.len() as u64;
    if offset > u64::MAX - (head + middle + tail) {
        return Err(SerializeError::OffsetOverflow);
    }
    Ok(Places {
        dtype: place_of(offset, dtype),
        layout: place_of(offset + head, layout),
        footer: place_of(offset + head + middle, footer),
    })
}

/// These buffers in a vector.
fn in_order(alloc: Global, buffers: [ByteBuffer; 5]) -> Result<Vec<ByteBuffer>, AllocError>
    ensures { IfOk result (λ v. v.items ≡ buffers) }
{
    Ok(Vec::from_array(alloc, buffers)?)
}

impl Footer {
    /// The bytes that follow the segments of a file, where they begin at `offset`: the dtype table,
    /// the layout table, the footer's table, the postscript and the end marker, each in a buffer of
    /// its own that claims no alignment. So far only footers with one flat layout, without statistics
    /// and metadata, are written. A table that is too deep or too large for a reader, or of more than
    /// 2^32 - 1 bytes, is refused, then tables that would end past the offset 2^64 - 1.
    #[tactic(auto, unfolding(crate::specs::Serialized::serialize_checks))]
    pub fn serialize(&self, alloc: Global, offset: u64) -> Result<Vec<ByteBuffer>, SerializeError>
        requires { IsFlat self.now.content }
        ensures value { Gives Fails (λ buffers. map (λ b. b.bytes) buffers.items) result (serialize_checks offset self.now.content) }
        ensures bytes { IfOk result (λ buffers. joined buffers.items ≡ serialized offset self.now.content) }
        ensures unaligned { IfOk result (λ buffers. All (λ b. b.alignment ≡ 0) buffers.items) }
    {
        let dtype = dtype_table(alloc, self.dtype())?;
        let layout = layout_table(alloc, self.layout())?;
        let footer = footer_table(alloc, self.array_ids(), self.segment_map())?;
        let places = places_of(offset, &dtype, &layout, &footer)?;
        let postscript = postscript_table(alloc, &places)?;
        let marker = end_marker(alloc, postscript.len() as u16)?;
        let buffers = [dtype, layout, footer, postscript, marker];
        Ok(in_order(alloc, buffers)?)
    }
}
