//! The postscript: where the tables of a file lie, and its metadata.
ghost use Rattle.std.specs.Prelude.{◌≡◌, ◌≤◌, IfOk, [], length};
ghost use Rattle.std.specs.List.{list_all};
ghost use Rattle.vx_base.specs.Checks.{Gives};
ghost use Rattle.vx_footer.specs.Footers.{entries_size};
ghost use Rattle.vx_footer.specs.Opening.{passes, is_plain, all_plain as has_all_plain, most_entries as most_of, longest_key as longest_of, aligned as aligned_of, aligned_if_any as aligned_of_any, has_key as has_this_key, entry_checks, entries_checks, places_checks, postscript_checks, Fails};

use crate::postscript_table::read_postscript;
use crate::rows::{Locator, MetadataRow, PostscriptRow};
use crate::{FileVersion, OpenError, Which};
use std::alloc::Global;
use vx_base::{Alignment, SegmentSpec, Sequence, Text};
use vx_tables::WalkError;

/// Where a table or a value lies.
#[derive(Clone, Copy, Debug, PartialEq, Eq)]
pub struct PostscriptSegment {
    pub offset: u64,
    pub length: u32,
    pub alignment: Alignment,
}

/// A metadata entry: its key, and where its value lies.
#[derive(Debug, Drop)]
pub struct PostscriptMetadata {
    pub key: Text,
    pub segment: PostscriptSegment,
}

/// Where the tables of a file lie, and its metadata.
#[derive(Debug, Drop)]
pub struct Postscript {
    pub dtype: Option<PostscriptSegment>,
    pub layout: PostscriptSegment,
    pub statistics: Option<PostscriptSegment>,
    pub footer: PostscriptSegment,
    pub metadata: Sequence<PostscriptMetadata>,
}

impl From<&PostscriptSegment> for SegmentSpec {
    ghost use Rattle.std.specs.Prelude.{◌≡◌};
    ghost use Rattle.vx_footer.specs.Footers.{spec_of};

    ghost from_gives = { λ segment spec. spec ≡ spec_of segment.now };

    fn from(segment: &PostscriptSegment) -> SegmentSpec {
        SegmentSpec {
            offset: segment.offset,
            length: segment.length,
            alignment: segment.alignment,
        }
    }
}

impl From<&SegmentSpec> for PostscriptSegment {
    ghost use Rattle.std.specs.Prelude.{◌≡◌};
    ghost use Rattle.vx_footer.specs.Footers.{spec_of};

    ghost from_gives = { λ spec segment. spec_of segment ≡ spec.now };

    fn from(spec: &SegmentSpec) -> PostscriptSegment {
        PostscriptSegment {
            offset: spec.offset,
            length: spec.length,
            alignment: spec.alignment,
        }
    }
}

fn is_plain_or_absent(locator: &Option<Locator>) -> bool
    ensures { result ≡ passes is_plain locator.now }
{
    match locator {
        Some(locator) => locator.is_plain(),
        None => true,
    }
}

fn are_plain(entries: &[MetadataRow]) -> bool
    ensures { result ≡ list_all (λ e. is_plain e.segment) entries.now }
{
    entries.iter().all(|entry| !entry.segment.is_coded)
}

fn all_plain(p: &PostscriptRow) -> bool
    ensures { result ≡ has_all_plain p.now }
{
    is_plain_or_absent(&p.dtype)
        && p.layout.is_plain()
        && is_plain_or_absent(&p.statistics)
        && p.footer.is_plain()
        && are_plain(p.metadata.as_slice())
}

/// How many metadata entries a file of this version may have.
pub(crate) fn most_entries(version: FileVersion) -> usize
    ensures value { result ≡ most_of version }
    ensures bound { result ≤ 64 }
{
    match version {
        FileVersion::V1 => 16,
        FileVersion::V2 => 64,
    }
}

/// How many bytes a key may have in a file of this version.
pub(crate) fn longest_key(version: FileVersion) -> usize
    ensures value { result ≡ longest_of version }
    ensures bound { result ≤ 256 }
{
    match version {
        FileVersion::V1 => 64,
        FileVersion::V2 => 256,
    }
}

fn aligned(locator: Locator) -> Option<PostscriptSegment>
    ensures { result ≡ aligned_of locator }
{
    match Alignment::new(locator.exponent) {
        Ok(alignment) => Some(PostscriptSegment {
            offset: locator.offset,
            length: locator.length,
            alignment,
        }),
        Err(_) => None,
    }
}

fn aligned_if_any(locator: Option<Locator>) -> Option<Option<PostscriptSegment>>
    ensures { result ≡ aligned_of_any locator }
{
    match locator {
        Some(locator) => Some(Some(aligned(locator)?)),
        None => Some(None),
    }
}

pub(crate) fn has_key(entries: &[PostscriptMetadata], key: &str) -> bool
    ensures { result ≡ has_this_key entries.now key.now }
{
    entries.iter().any(|entry| entry.key.as_str() == key)
}

/// The entry of a row, behind others.
#[tactic(auto, unfolding(crate::specs::Opening::entry_checks))]
fn entry_of(
    version: FileVersion,
    earlier: &[PostscriptMetadata],
    row: MetadataRow,
) -> Result<PostscriptMetadata, OpenError>
    ensures value { Gives Fails (λ entry. entry) result (entry_checks version earlier.now row) }
    ensures short { IfOk result (λ entry. length entry.key ≤ 256) }
{
    let Some(segment) = aligned(row.segment) else {
        return Err(OpenError::BadAlignment);
    };
    let key = row.key.as_str();
    if key.is_empty() {
        return Err(OpenError::EmptyKey);
    }
    if key.len() > longest_key(version) {
        return Err(OpenError::LongKey);
    }
    if has_key(earlier, key) {
        return Err(OpenError::DuplicateKey);
    }
    Ok(PostscriptMetadata {
        key: row.key,
        segment,
    })
}

/// The metadata entries, in order.
#[tactic(auto, unfolding(crate::specs::Opening::entries_checks))]
fn entries_of(
    alloc: Global,
    version: FileVersion,
    rows: Sequence<MetadataRow>,
) -> Result<Sequence<PostscriptMetadata>, OpenError>
    requires { length rows ≤ 64 }
    ensures value { Gives Fails (λ entries. entries) result (entries_checks version [] rows) }
    ensures small { IfOk result (λ entries. entries_size entries ≤ 17408) }
{
    let mut entries = Sequence::new(alloc);
    for row in rows.into_vec() {
        let entry = entry_of(version, entries.as_slice(), row)?;
        entries.push(entry)?;
    }
    Ok(entries)
}

/// The postscript of these places.
#[tactic(auto, unfolding(crate::specs::Opening::places_checks))]
fn placed(
    dtype: Option<Locator>,
    layout: Locator,
    statistics: Option<Locator>,
    footer: Locator,
    metadata: Sequence<PostscriptMetadata>,
) -> Result<Postscript, OpenError>
    ensures value { Gives Fails (λ postscript. postscript) result (places_checks dtype layout statistics footer metadata) }
    ensures metadata { IfOk result (λ postscript. postscript.metadata ≡ metadata) }
{
    let Some(dtype) = aligned_if_any(dtype) else {
        return Err(OpenError::BadAlignment);
    };
    let Some(layout) = aligned(layout) else {
        return Err(OpenError::BadAlignment);
    };
    let Some(statistics) = aligned_if_any(statistics) else {
        return Err(OpenError::BadAlignment);
    };
    let Some(footer) = aligned(footer) else {
        return Err(OpenError::BadAlignment);
    };
    Ok(Postscript {
        dtype,
        layout,
        statistics,
        footer,
        metadata,
    })
}

impl Postscript {
    /// The postscript that these bytes spell in a file of this version. Refuses by the first check that
    /// fails.
    #[tactic(auto, unfolding(crate::specs::Opening::postscript_checks))]
    pub fn read(alloc: Global, bytes: &[u8], version: FileVersion) -> Result<Postscript, OpenError>
        ensures value { Gives Fails (λ postscript. postscript) result (postscript_checks version bytes.now) }
        ensures small { IfOk result (λ postscript. entries_size postscript.metadata ≤ 17408) }
    {
        let p = match read_postscript(alloc, bytes) {
            Ok(p) => p,
            Err(WalkError::BadTable) => return Err(OpenError::BadTable(Which::Postscript)),
            Err(WalkError::OutOfMemory) => return Err(OpenError::OutOfMemory),
        };
        if !all_plain(&p) {
            return Err(OpenError::Unsupported);
        }
        if p.metadata.len() > most_entries(version) {
            return Err(OpenError::TooManyMetadata);
        }
        let metadata = entries_of(alloc, version, p.metadata)?;
        placed(p.dtype, p.layout, p.statistics, p.footer, metadata)
    }
}
