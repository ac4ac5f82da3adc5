//! The values of a file's metadata, which are read before a script is answered.
ghost use Rattle.std.specs.Prelude.{◌≡◌, ◌+◌, ◌-◌, ◌≤◌, ℕ, List, [], length, Some, true, IfOk, OnOk};
ghost use Rattle.vx_base.specs.Caches.{SameCache};
ghost use Rattle.vx_base.specs.Readers.{SameReader};
ghost use Rattle.vx_footer.specs.Footers.{segment_table};
ghost use Rattle.vx_source.specs.Bytes.{HasBytes, TellsSlices};
ghost use Rattle.vx_source.specs.Fits.{World};
ghost use Rattle.vx_source.specs.Stands.{Stands, EndsWithin};
ghost use Rattle.vx_file.specs.Loading.{numbers_from, metadata_ids, keyed, values_of, first_failed, LoadCause};
ghost use Rattle.vx_file.specs.Serving.{FaultRose, NamesCheck, failure_as};

use crate::ServeError;
use std::alloc::{AllocError, Global};
use vx_base::{ByteBuffer, Reader, SegmentCache, SegmentId, Sequence, Text};
use vx_footer::{Footer, PostscriptMetadata};
use vx_source::{FailCause, Reply, Session, Span};

/// A value of the metadata under its key.
#[derive(Drop)]
pub struct MetadataValue {
    pub key: Text,
    pub value: ByteBuffer,
}

/// The values of the metadata, in the order of the file, and the spans that were read for them.
#[derive(Drop)]
pub struct Loaded {
    pub values: Sequence<MetadataValue>,
    pub spans: Sequence<Span>,
}

/// The numbers of segments from one on, up to one. Numbers have 32 bits: a table in which one is greater fits no memory.
fn numbers(alloc: Global, first: usize, end: usize) -> Result<Vec<SegmentId>, AllocError>
    requires { first ≤ end }
    ensures { IfOk result (λ ids. ids.items ≡ numbers_from first (end - first)) }
{
    let mut ids = Vec::new(alloc);
    for number in first..end {
        if number > u32::MAX as usize {
            return Err(AllocError);
        }
        ids.push(SegmentId(number as u32))?;
    }
    Ok(ids)
}

/// The numbers of the metadata segments, which stand behind the data segments.
fn metadata_ids(alloc: Global, footer: &Footer) -> Result<Vec<SegmentId>, AllocError>
    ensures ids { IfOk result (λ ids. ids.items ≡ metadata_ids footer.now.content) }
    ensures long { IfOk result (λ ids. length ids.items ≡ length footer.now.content.metadata) }
{
    let first = footer.segment_map().len();
    let end = footer.segment_specs_with_metadata().len();
    let ids = numbers(alloc, first, end)?;
    Ok(ids)
}

/// Why the first of the replies that failed did, if one failed.
fn first_failure(replies: &[Reply]) -> Option<FailCause>
    ensures { result ≡ first_failed replies.now }
{
    for reply in replies {
        if let Reply::Failed(cause) = reply {
            return Some(*cause);
        }
    }
    None
}

/// Bytes under the key of an entry, with its alignment.
fn keyed(
    alloc: Global,
    entry: &PostscriptMetadata,
    bytes: ByteBuffer,
) -> Result<MetadataValue, AllocError>
    ensures { IfOk result (λ value. value ≡ keyed entry.now bytes) }
{
    let key = Text::from_str(alloc, entry.key.as_str())?;
    let value = bytes.aligned(entry.segment.alignment);
    Ok(MetadataValue { key, value })
}

/// The values of entries, of which each was answered.
fn values(
    alloc: Global,
    entries: &[PostscriptMetadata],
    replies: Sequence<Reply>,
) -> Result<Sequence<MetadataValue>, AllocError>
    ensures { IfOk result (λ values. values ≡ values_of entries.now replies) }
{
    let mut values = Sequence::new(alloc);
    let mut replies = replies.into_vec().into_iter();
    for entry in entries {
        match replies.next() {
            Some(Reply::Ready(bytes)) => {
                let value = keyed(alloc, entry, bytes)?;
                values.push(value)?;
            }
            Some(_other) => {}
            None => return Ok(values),
        }
    }
    Ok(values)
}

/// The refusal of a file whose metadata could not be read.
fn refusal(cause: FailCause) -> ServeError
    ensures { result ≡ failure_as cause }
{
    match cause {
        FailCause::Fault(fault) => ServeError::Fault(fault),
        FailCause::Cache => ServeError::CacheFault,
    }
}

/// Loads the values of the metadata by a session without requests for the segments of a footer: registers each metadata
/// segment, polls each, drives once, and polls what is pending. The first entry that failed refuses the file.
pub(crate) fn load<R: Reader, C: SegmentCache>(
    alloc: Global,
    session: &mut Session,
    reader: &mut R,
    cache: &mut C,
    footer: &Footer,
) -> Result<Loaded, ServeError>
    requires concurrency { session.old.idle.concurrency ≤ (R.state reader.old).concurrency }
    requires room { length session.old.requests + length footer.now.content.metadata ≤ u64.MAX }
    ensures cause { (w : World) (file : List ℕ) → (R.state reader.old).bytes ≡ Some file → Stands w [] session.old → HasBytes file session.old →
        w.table ≡ segment_table footer.now.content →
        LoadCause w file footer.now.content (R.state reader.old) (R.state reader.new) (C.state cache.old) (C.state cache.new) result }
    ensures slices { OnOk result ((w : World) (file : List ℕ) → (R.state reader.old).bytes ≡ Some file → Stands w [] session.old → HasBytes file session.old →
        TellsSlices file w.table (C.state cache.old) → TellsSlices file w.table (C.state cache.new)) }
    ensures fault { (w : World) → Stands w [] session.old → FaultRose (R.state reader.old) (R.state reader.new) (C.state cache.old) (C.state cache.new) result }
    ensures names { NamesCheck result }
    ensures steady { (w : World) (file : List ℕ) → (R.state reader.old).never_fails ≡ true → (R.state reader.old).bytes ≡ Some file → Stands w [] session.old →
        EndsWithin (length file) w.table → (R.state reader.new).faults ≡ (R.state reader.old).faults }
    ensures same { SameReader (R.state reader.old) (R.state reader.new) }
    ensures same_cache { SameCache (C.state cache.old) (C.state cache.new) }
{
    let ids = metadata_ids(alloc, footer)?;
    let fetched = session.segments(alloc, reader, cache, &ids)?;
    if let Some(cause) = first_failure(fetched.replies.as_slice()) {
        return Err(refusal(cause));
    }
    let values = values(alloc, footer.metadata(), fetched.replies)?;
    Ok(Loaded {
        values,
        spans: fetched.spans,
    })
}
