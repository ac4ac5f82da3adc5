//! Writes a footer: new metadata values, the tables, the postscript that says where they lie, and the end marker.
ghost use Rattle.std.specs.Prelude.{◌≡◌, ◌≤◌, ◌<◌, ◌^◌, ◌+◌, ◌++◌, ◌∷◌, [], IfOk, IfSome, IfNone, OnOk, Some, None, true, false, length, map};
ghost use Rattle.std.specs.Option.{option_map};
ghost use Rattle.vx_base.specs.Checks.{Gives};
ghost use Rattle.vx_footer.specs.Footers.{entries_size};
ghost use Rattle.vx_footer.specs.PostscriptWritten.{FailsToWrite, postscript_root};
ghost use Rattle.vx_footer.specs.Serialized.{place};
ghost use Rattle.vx_footer.specs.Serializing.{Serializing, values_view, version_number, marker as marker_bytes, some_length, some_part, roots_end, postscript_at, tail_parts, are_distinct, bytes_of, entries_by, tables_checks, assembling_checks, serializing_checks, AreShort};
ghost use Rattle.vx_footer.specs.Serializers.{parts_seen, parts_alone};

use crate::metadata_values::{
    are_short, check_metadata, copied, end_of, entries_of, parts_of, sorted,
};
use crate::postscript_writing::root_of;
use crate::serializer_tables::{Tables, are_permitted, are_shallow, are_small, tables_of};
use crate::version::{EOF_SIZE, MAGIC_BYTES};
use crate::{
    FileVersion, Footer, LATEST_VERSION, Postscript, PostscriptMetadata, PostscriptSegment,
    VERSION, WriteError,
};
use std::alloc::{AllocError, Global};
use std::marker::Model;
use vx_base::{Alignment, ByteBuffer, Sequence};
use vx_data::LayoutContext;

/// The alignment exponent that the postscript says of each table. The tables lie one behind the other,
/// without padding.
const TABLE_EXPONENT: u8 = 3;

/// Writes a footer, with what is told of it.
#[derive(Drop)]
pub struct FooterSerializer {
    footer: Footer,
    context: LayoutContext,
    start: u64,
    is_dtype_excluded: bool,
    new_values: Vec<(String, ByteBuffer)>,
    format: FileVersion,
}

impl Model for FooterSerializer {
    ghost use Rattle.std.specs.Coded.{codes};
    ghost use Rattle.vx_data.specs.Codes.{tree_code};
    ghost use Rattle.vx_footer.specs.DtypeCode.{dtype_code};
    ghost use Rattle.vx_footer.specs.Serializing.{Serializing, values_view};

    ghost Value = { Serializing };

    ghost coded = { Prim.hlevel (codes, dtype_code, tree_code) };

    ghost view = { λ a. record {
      content = a.footer.content;
      permitted = a.context;
      offset = a.start;
      excludes_dtype = a.is_dtype_excluded;
      values = values_view a.new_values.items;
      version = a.format;
    } };
}

/// A footer that was written.
#[derive(Drop)]
pub struct Serialized {
    /// The bytes, one buffer behind the other.
    pub buffers: Vec<ByteBuffer>,
    /// Where the metadata values lie.
    pub metadata: Vec<PostscriptMetadata>,
    /// How many bytes stand behind the metadata values.
    pub approx_byte_size: usize,
    /// The footer that was written, with this metadata and this size.
    pub footer: Footer,
}

/// The place of a table that begins at an offset.
fn place_of(offset: u64, table: &ByteBuffer) -> PostscriptSegment
    requires { length table.now.bytes < 2 ^ 32 }
    ensures { result ≡ place offset table.now.bytes }
{
    PostscriptSegment {
        offset,
        length: table.len() as u32,
        alignment: Alignment::new(TABLE_EXPONENT).unwrap(),
    }
}

/// The place of a table that begins at an offset, where there is one.
fn place_if_any(offset: u64, table: &Option<ByteBuffer>) -> Option<PostscriptSegment>
    requires { some_length (option_map (λ b. b.bytes) table.now) < 2 ^ 32 }
    ensures { result ≡ option_map (place offset) (option_map (λ b. b.bytes) table.now) }
{
    match table {
        Some(table) => Some(place_of(offset, table)),
        None => None,
    }
}

/// How many bytes a table has, where there is one.
fn length_of(table: &Option<ByteBuffer>) -> u64
    ensures { result ≡ some_length (option_map (λ b. b.bytes) table.now) }
{
    match table {
        Some(table) => table.len() as u64,
        None => 0,
    }
}

/// The offset behind tables, the first of which begins at an offset, where it is below 2^64.
fn tables_end(at: u64, tables: &Tables) -> Option<u64>
    requires { AreShort tables.now }
    ensures some { IfSome result (λ end. end ≡ roots_end at tables.now) }
    ensures none { IfNone result (2 ^ 64 ≤ roots_end at tables.now) }
{
    let head = length_of(&tables.dtype_root) + tables.layout_root.len() as u64;
    let rest = length_of(&tables.stats_root) + tables.footer_root.len() as u64;
    at.checked_add(head + rest)
}

/// Where tables lie, the first of which begins at an offset, with the metadata.
fn postscript_of(at: u64, tables: &Tables, metadata: Sequence<PostscriptMetadata>) -> Postscript
    requires short { AreShort tables.now }
    requires fits { roots_end at tables.now < 2 ^ 64 }
    ensures { result ≡ postscript_at at tables.now metadata }
{
    let layout = at + length_of(&tables.dtype_root);
    let statistics = layout + tables.layout_root.len() as u64;
    let footer = statistics + length_of(&tables.stats_root);
    Postscript {
        dtype: place_if_any(at, &tables.dtype_root),
        layout: place_of(layout, &tables.layout_root),
        statistics: place_if_any(statistics, &tables.stats_root),
        footer: place_of(footer, &tables.footer_root),
        metadata,
    }
}

/// The number of a version.
fn number_of(version: FileVersion) -> u16
    ensures { result ≡ version_number version }
{
    match version {
        FileVersion::V1 => VERSION,
        FileVersion::V2 => LATEST_VERSION,
    }
}

/// The end marker of a file of this version, behind a postscript of `size` bytes.
fn marker(alloc: Global, version: FileVersion, size: u16) -> Result<ByteBuffer, AllocError>
    ensures { IfOk result (λ b. b.bytes ≡ marker_bytes version size) }
{
    let mut bytes = Vec::new(alloc);
    bytes.extend_from_slice(&number_of(version).to_le_bytes())?;
    bytes.extend_from_slice(&size.to_le_bytes())?;
    bytes.extend_from_slice(&MAGIC_BYTES)?;
    ByteBuffer::from_vec(alloc, bytes, Alignment::none())
}

/// Adds a buffer, where there is one.
fn push_if_any(buffers: &mut Vec<ByteBuffer>, buffer: Option<ByteBuffer>) -> Result<(), AllocError>
    ensures { OnOk result (bytes_of buffers.new.items ≡ bytes_of buffers.old.items ++ some_part (option_map (λ b. b.bytes) buffer)) }
{
    match buffer {
        Some(buffer) => {
            buffers.push(buffer)?;
            Ok(())
        }
        None => Ok(()),
    }
}

/// Adds the tables, the postscript and the end marker.
fn push_tail(
    alloc: Global,
    buffers: &mut Vec<ByteBuffer>,
    version: FileVersion,
    tables: Tables,
    root: ByteBuffer,
) -> Result<(), AllocError>
    requires { length root.bytes ≤ 20122 }
    ensures { OnOk result (bytes_of buffers.new.items ≡ bytes_of buffers.old.items ++ tail_parts version tables root.bytes) }
{
    let Tables {
        dtype_root,
        layout_root,
        stats_root,
        footer_root,
    } = tables;
    let marker = marker(alloc, version, root.len() as u16)?;
    push_if_any(buffers, dtype_root)?;
    buffers.push(layout_root)?;
    push_if_any(buffers, stats_root)?;
    buffers.push(footer_root)?;
    buffers.push(root)?;
    buffers.push(marker)?;
    Ok(())
}

/// The tables of a footer, unless its layout has an id that is not permitted, or one of them is too deep, too
/// large or too long.
#[tactic(auto, unfolding(crate::specs::Serializing::tables_checks))]
fn checked_tables(
    alloc: Global,
    footer: &Footer,
    context: &LayoutContext,
    excluded: bool,
) -> Result<Tables, WriteError>
    ensures value { Gives FailsToWrite (λ tables. tables) result (tables_checks context.now excluded footer.now.content) }
    ensures short { IfOk result (λ tables. AreShort tables) }
{
    let ids = footer.layout().used_ids(alloc)?;
    if !are_permitted(context, &ids) {
        return Err(WriteError::NotPermitted);
    }
    if !are_shallow(footer, excluded) {
        return Err(WriteError::TooDeep);
    }
    if !are_small(alloc, footer, excluded, &ids)? {
        return Err(WriteError::TooManyTables);
    }
    tables_of(alloc, footer, excluded, &ids)
}

/// A footer of which the metadata and the tables were checked, as it is written from an offset on.
#[tactic(auto, unfolding(crate::specs::Serializing::assembling_checks))]
fn assembled(
    alloc: Global,
    footer: &Footer,
    start: u64,
    version: FileVersion,
    values: Vec<(String, ByteBuffer)>,
    tables: Tables,
) -> Result<Serialized, WriteError>
    requires few { length (entries_by footer.now.content.metadata start (values_view values.items)) ≤ 64 }
    requires small { entries_size (entries_by footer.now.content.metadata start (values_view values.items)) ≤ 17408 }
    requires short { AreShort tables }
    ensures value { Gives FailsToWrite parts_seen result (assembling_checks footer.now.content start version (values_view values.items) tables) }
    ensures metadata { IfOk result (λ s. s.metadata.items ≡ s.footer.content.metadata) }
    ensures size { IfOk result (λ s. s.footer.approx_byte_size ≡ Some s.approx_byte_size) }
{
    if !are_short(&values) {
        return Err(WriteError::SegmentTooLong);
    }
    let Some(at) = end_of(start, &values) else {
        return Err(WriteError::OffsetOverflow);
    };
    let Some(end) = tables_end(at, &tables) else {
        return Err(WriteError::OffsetOverflow);
    };
    let entries = entries_of(alloc, footer.metadata(), start, &values)?;
    let postscript = postscript_of(at, &tables, entries);
    let root = root_of(alloc, &postscript)?;
    let approx_byte_size = (end - at) as usize + (root.len() + EOF_SIZE);
    let mut buffers = parts_of(alloc, start, values)?;
    push_tail(alloc, &mut buffers, version, tables, root)?;
    let metadata = copied(alloc, postscript.metadata.as_slice())?.into_vec();
    let footer = footer.with_metadata(alloc, version, postscript.metadata, approx_byte_size)?;
    Ok(Serialized {
        buffers,
        metadata,
        approx_byte_size,
        footer,
    })
}

impl FooterSerializer {
    /// A serializer of a footer: from offset 0 on, in the footer's version, with all layout ids permitted, the
    /// type's table and the footer's own metadata.
    pub(crate) fn of(alloc: Global, footer: Footer) -> FooterSerializer
        ensures value { result ≡ record {
          content = footer.content;
          permitted = None;
          offset = 0;
          excludes_dtype = false;
          values = [];
          version = footer.content.version;
        } }
    {
        let format = footer.version();
        FooterSerializer {
            footer,
            context: LayoutContext::new(None),
            start: 0,
            is_dtype_excluded: false,
            new_values: Vec::new(alloc),
            format,
        }
    }

    /// Only layout ids of this context may be written.
    pub fn with_layout_context(self, context: LayoutContext) -> FooterSerializer
        ensures { result ≡ record self { permitted = context } }
    {
        let mut serializer = self;
        serializer.context = context;
        serializer
    }

    /// The bytes are to begin at this offset of the file.
    pub fn with_offset(self, offset: u64) -> FooterSerializer
        ensures { result ≡ record self { offset = offset } }
    {
        let mut serializer = self;
        serializer.start = offset;
        serializer
    }

    /// The type's table is left out.
    pub fn exclude_dtype(self) -> FooterSerializer
        ensures { result ≡ record self { excludes_dtype = true } }
    {
        self.with_exclude_dtype(true)
    }

    /// Whether the type's table is left out.
    pub fn with_exclude_dtype(self, exclude: bool) -> FooterSerializer
        ensures { result ≡ record self { excludes_dtype = exclude } }
    {
        let mut serializer = self;
        serializer.is_dtype_excluded = exclude;
        serializer
    }

    /// Metadata values, which are written in the order of their keys, in place of the footer's own metadata; with
    /// none, that is kept. No two keys are equal.
    pub fn with_metadata_segments(self, metadata: Vec<(String, ByteBuffer)>) -> FooterSerializer
        requires { are_distinct (map (λ v. v.0) (values_view metadata.items)) ≡ true }
        ensures { result ≡ record self { values = values_view metadata.items } }
    {
        let mut serializer = self;
        serializer.new_values = metadata;
        serializer
    }

    /// The version of the file.
    pub fn with_version(self, version: FileVersion) -> FooterSerializer
        ensures { result ≡ record self { version = version } }
    {
        let mut serializer = self;
        serializer.format = version;
        serializer
    }

    /// The footer as it is written, with where its metadata lies. Refuses, in this order: too many metadata
    /// entries, the first key that is empty or too long, a layout id that is not permitted, tables that are too deep,
    /// tables that are too large for a reader, a table or value of more than 2^32 - 1 bytes, and tables that end
    /// past the offset 2^64 - 1.
    #[tactic(auto, using(crate::proofs::ValueLemmas::entries_few, crate::proofs::ValueLemmas::entries_small, crate::proofs::ValueLemmas::metadata_passed), unfolding(crate::specs::Serializing::serializing_checks))]
    pub fn serialize_with_metadata(self, alloc: Global) -> Result<Serialized, WriteError>
        ensures value { Gives FailsToWrite parts_seen result (serializing_checks self) }
        ensures metadata { IfOk result (λ s. s.metadata.items ≡ s.footer.content.metadata) }
        ensures size { IfOk result (λ s. s.footer.approx_byte_size ≡ Some s.approx_byte_size) }
    {
        let FooterSerializer {
            footer,
            context,
            start,
            is_dtype_excluded,
            new_values,
            format,
        } = self;
        let values = sorted(alloc, new_values)?;
        check_metadata(format, footer.metadata(), &values)?;
        let tables = checked_tables(alloc, &footer, &context, is_dtype_excluded)?;
        assembled(alloc, &footer, start, format, values, tables)
    }

    /// The bytes of the footer, as `serialize_with_metadata` gives them, with the same refusals.
    pub fn serialize(self, alloc: Global) -> Result<Vec<ByteBuffer>, WriteError>
        ensures { Gives FailsToWrite (λ buffers. bytes_of buffers.items) result (parts_alone (serializing_checks self)) }
    {
        let serialized = self.serialize_with_metadata(alloc)?;
        Ok(serialized.buffers)
    }
}

impl Footer {
    /// What writes the footer.
    pub fn into_serializer(self, alloc: Global) -> FooterSerializer
        ensures { result ≡ record {
          content = self.content;
          permitted = None;
          offset = 0;
          excludes_dtype = false;
          values = [];
          version = self.content.version;
        } }
    {
        FooterSerializer::of(alloc, self)
    }
}
