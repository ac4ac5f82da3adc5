//! The checks on the tables of a file, which give its footer.
ghost use Rattle.std.specs.Prelude.{◌≡◌, ◌+◌, ◌<◌, ◌^◌, ◌==◌, ◌%◌, ◌*◌, ◌≤◌, ℕ, IfOk, length, map, string_bytes, Some, None};
ghost use Rattle.std.specs.List.{list_all};
ghost use Rattle.std.specs.Option.{option_map};
ghost use Rattle.vx_base.specs.Checks.{Gives};
ghost use Rattle.vx_data.specs.Dtype.{dtype_view};
ghost use Rattle.vx_data.specs.DtypeTable.{dtype_checks};
ghost use Rattle.vx_data.specs.LayoutTable.{layout_checks};
ghost use Rattle.vx_footer.specs.declared.error.Which.TheVariants as which;
ghost use Rattle.vx_footer.specs.Opening.{of_table, is_plain, is_placed as is_placed_entry, aligned_spec as aligned_spec_of, aligned_specs, rise_from, are_ordered as have_order, segments_checks, dtype_found, statistics_found, content_checks, table_checks, Fails};
ghost use Rattle.vx_footer.specs.Steps.{seen_bytes};
ghost use Rattle.vx_footer.specs.Tables.{segment_structs};

use crate::error::refusal;
use crate::footer_table::{read_footer, split_locator};
use crate::rows::Locator;
use crate::{
    FileStatistics, FileVersion, Footer, OpenError, Postscript, PostscriptMetadata,
    PostscriptSegment, Which,
};
use std::alloc::{AllocError, Global};
use vx_base::{Alignment, SegmentSpec, Sequence};
use vx_data::{DType, Layout};
use vx_tables::WalkError;

/// The bytes of a table in the part of a file that begins at `start`.
fn bytes_of(start: u64, seen: &[u8], place: PostscriptSegment) -> Option<&[u8]>
    requires { start + length seen.now < 2 ^ 64 }
    ensures { option_map (λ bytes. bytes.now) result ≡ seen_bytes start seen.now place }
{
    if place.offset < start {
        return None;
    }
    let from = place.offset - start;
    let length = u64::from(place.length);
    let size = seen.len() as u64;
    if from > size || length > size - from {
        return None;
    }
    Some(&seen[from as usize..(from + length) as usize])
}

/// The dtype that a table spells.
fn read_dtype(alloc: Global, bytes: &[u8]) -> Result<DType, OpenError>
    ensures { Gives Fails dtype_view result (of_table which.DType (dtype_checks bytes.now)) }
{
    match DType::read(alloc, bytes) {
        Ok(dtype) => Ok(dtype),
        Err(error) => Err(refusal(Which::DType, error)),
    }
}

/// The dtype of the rows: the supplied one, or that of the table that is named.
fn dtype_of(
    alloc: Global,
    start: u64,
    seen: &[u8],
    supplied: &Option<DType>,
    place: Option<PostscriptSegment>,
) -> Result<DType, OpenError>
    requires { start + length seen.now < 2 ^ 64 }
    ensures { Gives Fails dtype_view result (dtype_found (seen_bytes start seen.now) (option_map dtype_view supplied.now) place) }
{
    if let Some(dtype) = supplied {
        return Ok(dtype.share(alloc)?);
    }
    let Some(place) = place else {
        return Err(OpenError::MissingDType);
    };
    let Some(bytes) = bytes_of(start, seen, place) else {
        return Err(OpenError::OutOfBounds);
    };
    read_dtype(alloc, bytes)
}

/// The statistics, where they are named.
fn statistics_of(
    alloc: Global,
    start: u64,
    seen: &[u8],
    dtype: &DType,
    place: Option<PostscriptSegment>,
) -> Result<Option<FileStatistics>, OpenError>
    requires { start + length seen.now < 2 ^ 64 }
    ensures { Gives Fails (λ statistics. statistics) result (statistics_found (seen_bytes start seen.now) (dtype_view dtype.now) place) }
{
    let Some(place) = place else {
        return Ok(None);
    };
    let Some(bytes) = bytes_of(start, seen, place) else {
        return Err(OpenError::OutOfBounds);
    };
    Ok(Some(FileStatistics::from_table(alloc, bytes, dtype)?))
}

fn is_placed(entry: &PostscriptMetadata) -> bool
    ensures { result ≡ is_placed_entry entry.now }
{
    entry
        .segment
        .alignment
        .is_offset_aligned(entry.segment.offset)
}

fn are_placed(entries: &[PostscriptMetadata]) -> bool
    ensures { result ≡ list_all is_placed_entry entries.now }
{
    entries.iter().all(|entry| is_placed(entry))
}

/// Whether so many segments name neither compression nor encryption.
#[tactic(auto, using(crate::proofs::Specs::plain_steps))]
fn are_plain(cells: &[u8], count: usize) -> bool
    requires { count * 16 ≤ length cells.now }
    ensures { result ≡ list_all is_plain (segment_structs count cells.now) }
{
    let mut rest = cells;
    for at in 0..count {
        let (locator, behind) = split_locator(rest);
        if !locator.is_plain() {
            return false;
        }
        rest = behind;
    }
    true
}

fn aligned_spec(locator: &Locator) -> Option<SegmentSpec>
    ensures { result ≡ aligned_spec_of locator.now }
{
    match Alignment::new(locator.exponent) {
        Ok(alignment) => Some(SegmentSpec {
            offset: locator.offset,
            length: locator.length,
            alignment,
        }),
        Err(_) => None,
    }
}

/// So many segments, where all of their alignments are ones.
#[tactic(auto, using(crate::proofs::Specs::aligned_steps))]
fn specs_of(
    alloc: Global,
    cells: &[u8],
    count: usize,
) -> Result<Option<Vec<SegmentSpec>>, AllocError>
    requires { count * 16 ≤ length cells.now }
    ensures { IfOk result (λ specs. option_map (λ v. v.items) specs ≡ aligned_specs (segment_structs count cells.now)) }
{
    let mut specs = Vec::with_capacity(alloc, count)?;
    let mut rest = cells;
    for at in 0..count {
        let (locator, behind) = split_locator(rest);
        let Some(spec) = aligned_spec(&locator) else {
            return Ok(None);
        };
        specs.push(spec)?;
        rest = behind;
    }
    Ok(Some(specs))
}

/// Whether no offset is below the one before it.
#[tactic(auto, using(crate::proofs::Specs::next_rise))]
fn are_ordered(specs: &[SegmentSpec]) -> bool
    ensures { result ≡ have_order specs.now }
{
    let mut least = 0;
    for at in 0..specs.len() {
        let offset = specs[at].offset;
        if offset < least {
            return false;
        }
        least = offset;
    }
    true
}

/// The data segments, by their alignments and then their order.
#[tactic(auto, unfolding(crate::specs::Opening::segments_checks))]
fn segments_of(alloc: Global, cells: &[u8], count: usize) -> Result<Vec<SegmentSpec>, OpenError>
    requires { count * 16 ≤ length cells.now }
    ensures { Gives Fails (λ specs. specs.items) result (segments_checks (segment_structs count cells.now)) }
{
    let Some(specs) = specs_of(alloc, cells, count)? else {
        return Err(OpenError::BadAlignment);
    };
    if !are_ordered(&specs) {
        return Err(OpenError::Unordered);
    }
    Ok(specs)
}

/// The layout that a table spells.
fn layout_of(
    alloc: Global,
    bytes: &[u8],
    dtype: &DType,
    layout_ids: &[String],
) -> Result<Layout, OpenError>
    ensures { Gives Fails (λ layout. layout) result (of_table which.Layout (layout_checks (map string_bytes layout_ids.now) (dtype_view dtype.now) bytes.now)) }
{
    match Layout::read(alloc, bytes, dtype, layout_ids) {
        Ok(layout) => Ok(layout),
        Err(error) => Err(refusal(Which::Layout, error)),
    }
}

/// The footer, from the bytes of its table and of the layout's.
#[tactic(auto, unfolding(crate::specs::Opening::content_checks))]
fn footer_in(
    alloc: Global,
    version: FileVersion,
    dtype: &DType,
    statistics: Option<FileStatistics>,
    metadata: Sequence<PostscriptMetadata>,
    footer_bytes: &[u8],
    layout_bytes: &[u8],
) -> Result<Footer, OpenError>
    ensures { Gives Fails (λ f. f.content) result (content_checks version (dtype_view dtype.now) statistics metadata footer_bytes.now layout_bytes.now) }
{
    let row = match read_footer(alloc, footer_bytes) {
        Ok(row) => row,
        Err(WalkError::BadTable) => return Err(OpenError::BadTable(Which::Footer)),
        Err(WalkError::OutOfMemory) => return Err(OpenError::OutOfMemory),
    };
    if !are_plain(row.places.as_bytes(), row.places.len()) {
        return Err(OpenError::Unsupported);
    }
    let layout = layout_of(alloc, layout_bytes, dtype, &row.layout_ids)?;
    let segments = segments_of(alloc, row.places.as_bytes(), row.places.len())?;
    let footer = Footer::made(
        alloc,
        version,
        layout,
        segments,
        statistics,
        metadata,
        row.array_ids,
    )?;
    Ok(footer)
}

/// The footer, from the tables that the postscript names, in the part of a file that begins at `start`.
#[tactic(auto, unfolding(crate::specs::Opening::table_checks))]
pub(crate) fn footer_of(
    alloc: Global,
    start: u64,
    seen: &[u8],
    supplied: &Option<DType>,
    version: FileVersion,
    postscript: Postscript,
) -> Result<Footer, OpenError>
    requires { start + length seen.now < 2 ^ 64 }
    ensures { Gives Fails (λ f. f.content) result (table_checks (seen_bytes start seen.now) (option_map dtype_view supplied.now) version postscript) }
{
    let dtype = dtype_of(alloc, start, seen, supplied, postscript.dtype)?;
    let statistics = statistics_of(alloc, start, seen, &dtype, postscript.statistics)?;
    if !are_placed(postscript.metadata.as_slice()) {
        return Err(OpenError::BadAlignment);
    }
    let Some(footer_bytes) = bytes_of(start, seen, postscript.footer) else {
        return Err(OpenError::OutOfBounds);
    };
    let Some(layout_bytes) = bytes_of(start, seen, postscript.layout) else {
        return Err(OpenError::OutOfBounds);
    };
    footer_in(
        alloc,
        version,
        &dtype,
        statistics,
        postscript.metadata,
        footer_bytes,
        layout_bytes,
    )
}
