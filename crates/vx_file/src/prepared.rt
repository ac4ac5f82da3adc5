//! Prepares a file for a script: opens it, and loads its metadata where that is asked for.
ghost use Rattle.std.specs.Prelude.{◌≡◌, ◌++◌, [], ℕ, List, length, Some, true, Err, IfOk, OnOk, map};
ghost use Rattle.vx_base.specs.Caches.{SameCache};
ghost use Rattle.vx_base.specs.Counts.{Rises};
ghost use Rattle.vx_base.specs.Readers.{SameReader, settings_of};
ghost use Rattle.vx_base.specs.declared.segment_cache.CacheError.TheVariants as cache_error;
ghost use Rattle.vx_footer.specs.Footers.{segment_table};
ghost use Rattle.vx_source.specs.Bytes.{IsEnd, HasBytes, TellsSlices};
ghost use Rattle.vx_source.specs.Kept.{tail_start};
ghost use Rattle.vx_source.specs.Puts.{Gains};
ghost use Rattle.vx_source.specs.Stands.{AreFit, Stands, EndsWithin, world};
ghost use Rattle.vx_file.specs.Covered.{covered_from};
ghost use Rattle.vx_file.specs.Hints.{IsSized, IsBounded};
ghost use Rattle.vx_file.specs.Loading.{LoadIfCause, range_of, spans_of, values_in};
ghost use Rattle.vx_file.specs.Plans.{plan_of, table_world};
ghost use Rattle.vx_file.specs.Prepared.{PrepareCause};
ghost use Rattle.vx_file.specs.Serving.{FaultRose, NamesCheck};

use crate::covered::put_covered;
use crate::metadata::{Loaded, MetadataValue, load};
use crate::opened::{Opened, open_file};
use crate::{ServeError, ServeOptions};
use std::alloc::{AllocError, Global};
use vx_base::{CacheError, Reader, SegmentCache, SegmentSpec, Sequence};
use vx_footer::Footer;
use vx_source::{Session, Span, Tail};

/// A file that is ready for a script: its footer, the tail that was read of it, if one was, what was asked, and the values of
/// its metadata, where they were loaded.
#[derive(Drop)]
pub struct Prepared {
    pub footer: Footer,
    pub tail: Option<Tail>,
    pub opening: Sequence<(u64, u64)>,
    pub metadata: Option<Sequence<MetadataValue>>,
}

/// Puts the segments that the tail covers, if one was read, into the cache.
fn put_tail<C: SegmentCache>(
    alloc: Global,
    cache: &mut C,
    tail: &Option<Tail>,
    segments: &[SegmentSpec],
) -> Result<(), CacheError>
    requires { AreFit segments.now tail.now }
    ensures gains { OnOk result ((file : List ℕ) → IsEnd file tail.now →
        Gains (covered_from file (tail_start tail.now) segments.now) (C.state cache.old) (C.state cache.new)) }
    ensures failed { result ≡ Err cache_error.Failed → Rises 1 (C.state cache.old).faults (C.state cache.new).faults }
    ensures same { SameCache (C.state cache.old) (C.state cache.new) }
{
    match tail {
        Some(tail) => put_covered(alloc, cache, tail, segments),
        None => Ok(()),
    }
}

/// A session for segments, over the tail of their file, if one was read, with the settings of its reader.
pub(crate) fn session_of<R: Reader>(
    alloc: Global,
    reader: &R,
    tail: Option<Tail>,
    segments: &[SegmentSpec],
) -> Result<Session, AllocError>
    requires { AreFit segments.now tail }
    ensures stands { IfOk result (Stands (table_world segments.now (settings_of (R.state reader.now)) (tail_start tail)) []) }
    ensures bytes { IfOk result (λ session. (file : List ℕ) → IsEnd file tail → HasBytes file session) }
{
    let concurrency = reader.concurrency();
    prove!(concurrency >= 1);
    let table = Vec::from_slice(alloc, segments)?;
    Session::new(
        alloc,
        table,
        reader.coalesce_distance(),
        reader.max_read_size(),
        concurrency,
        tail,
    )
}

/// The tail, if there is one, shared.
fn share_tail(alloc: Global, tail: &Option<Tail>) -> Result<Option<Tail>, AllocError>
    ensures { IfOk result (λ shared. shared ≡ tail.now) }
{
    match tail {
        Some(tail) => Ok(Some(Tail {
            start: tail.start,
            bytes: tail.bytes.share(alloc)?,
        })),
        None => Ok(None),
    }
}

/// Loads the metadata, where that is asked for, in a session of its own.
fn load_if<R: Reader, C: SegmentCache>(
    alloc: Global,
    options: &ServeOptions,
    reader: &mut R,
    cache: &mut C,
    tail: &Option<Tail>,
    footer: &Footer,
) -> Result<Option<Loaded>, ServeError>
    requires fit { AreFit (segment_table footer.now.content) tail.now }
    ensures cause { (file : List ℕ) → (R.state reader.old).bytes ≡ Some file → IsEnd file tail.now →
        LoadIfCause options.now.metadata
        (table_world (segment_table footer.now.content) (settings_of (R.state reader.old)) (tail_start tail.now)) file footer.now.content
        (R.state reader.old) (R.state reader.new) (C.state cache.old) (C.state cache.new) result }
    ensures slices { OnOk result ((file : List ℕ) → (R.state reader.old).bytes ≡ Some file → IsEnd file tail.now →
        TellsSlices file (segment_table footer.now.content) (C.state cache.old) → TellsSlices file (segment_table footer.now.content) (C.state cache.new)) }
    ensures fault { FaultRose (R.state reader.old) (R.state reader.new) (C.state cache.old) (C.state cache.new) result }
    ensures names { NamesCheck result }
    ensures steady { (file : List ℕ) → (R.state reader.old).never_fails ≡ true → (R.state reader.old).bytes ≡ Some file →
        EndsWithin (length file) (segment_table footer.now.content) → (R.state reader.new).faults ≡ (R.state reader.old).faults }
    ensures same { SameReader (R.state reader.old) (R.state reader.new) }
    ensures same_cache { SameCache (C.state cache.old) (C.state cache.new) }
{
    if !options.includes_metadata() {
        return Ok(None);
    }
    let tail = share_tail(alloc, tail)?;
    let segments = footer.segment_specs_with_metadata();
    let mut session = session_of(alloc, reader, tail, segments)?;
    let loaded = load(alloc, &mut session, reader, cache, footer)?;
    Ok(Some(loaded))
}

/// Adds the ranges of spans.
fn add_spans(ranges: &mut Sequence<(u64, u64)>, spans: &[Span]) -> Result<(), AllocError>
    ensures { OnOk result (ranges.new ≡ ranges.old ++ map range_of spans.now) }
{
    for span in spans {
        ranges.push((span.start, span.end.saturating_sub(span.start)))?;
    }
    Ok(())
}

/// The values, if some were loaded; the ranges of their spans are added.
fn take_loaded(
    ranges: &mut Sequence<(u64, u64)>,
    loaded: Option<Loaded>,
) -> Result<Option<Sequence<MetadataValue>>, AllocError>
    ensures values { IfOk result (λ values. values ≡ values_in loaded) }
    ensures ranges { OnOk result (ranges.new ≡ ranges.old ++ map range_of (spans_of loaded)) }
{
    let Some(loaded) = loaded else {
        return Ok(None);
    };
    add_spans(ranges, loaded.spans.as_slice())?;
    Ok(Some(loaded.values))
}

/// Opens a file, puts the segments that its tail covers into the cache, and loads its metadata, where that is asked for.
pub(crate) fn prepare<R: Reader, C: SegmentCache>(
    alloc: Global,
    options: &ServeOptions,
    reader: &mut R,
    cache: &mut C,
) -> Result<Prepared, ServeError>
    ensures cause { (file : List ℕ) → (R.state reader.old).bytes ≡ Some file → IsSized options.now file →
        PrepareCause (plan_of options.now file) options.now.metadata file (R.state reader.old) (R.state reader.new)
        (C.state cache.old) (C.state cache.new) result }
    ensures fault { FaultRose (R.state reader.old) (R.state reader.new) (C.state cache.old) (C.state cache.new) result }
    ensures names { NamesCheck result }
    ensures steady { (file : List ℕ) → (R.state reader.old).never_fails ≡ true → (R.state reader.old).bytes ≡ Some file →
        IsSized options.now file → IsBounded options.now file → (R.state reader.new).faults ≡ (R.state reader.old).faults }
    ensures fit { IfOk result (λ p. AreFit (segment_table p.footer.content) p.tail) }
    ensures same { SameReader (R.state reader.old) (R.state reader.new) }
    ensures same_cache { SameCache (C.state cache.old) (C.state cache.new) }
{
    let opened = open_file(alloc, options, reader)?;
    let Opened {
        footer,
        tail,
        mut ranges,
    } = opened;
    put_tail(alloc, cache, &tail, footer.segment_specs_with_metadata())?;
    let loaded = load_if(alloc, options, reader, cache, &tail, &footer)?;
    let metadata = take_loaded(&mut ranges, loaded)?;
    Ok(Prepared {
        footer,
        tail,
        opening: ranges,
        metadata,
    })
}
