//! The segments that the tail covers go into the cache before anything is registered.
ghost use Rattle.std.specs.Prelude.{◌≡◌, ◌+◌, ◌≤◌, ℕ, List, length, slice_get, Some, Err, IfOk, OnOk};
ghost use Rattle.vx_base.specs.Caches.{SameCache};
ghost use Rattle.vx_base.specs.Counts.{Rises};
ghost use Rattle.vx_source.specs.Bytes.{IsEnd};
ghost use Rattle.vx_source.specs.Kept.{LiesIn};
ghost use Rattle.vx_source.specs.Puts.{Gains};
ghost use Rattle.vx_base.specs.declared.segment_cache.CacheError.TheVariants as errors;
ghost use Rattle.vx_file.specs.Covered.{slice_of, covered_put, covered_segments};

use std::alloc::{AllocError, Global};
use vx_base::{ByteBuffer, CacheError, SegmentCache, SegmentId, SegmentSpec};
use vx_source::Tail;

/// How many numbers segments may have.
const NUMBERS: usize = 4_294_967_296;

/// The bytes of a segment that the tail covers, with the alignment that it claims.
fn cut(alloc: Global, tail: &Tail, spec: &SegmentSpec) -> Result<ByteBuffer, AllocError>
    requires covered { tail.now.start ≤ spec.now.offset }
    requires inside { spec.now.offset + spec.now.length ≤ tail.now.start + length tail.now.bytes.bytes }
    ensures { IfOk result (λ buffer. (file : List ℕ) → IsEnd file (Some tail.now) → buffer ≡ slice_of file spec.now) }
{
    // The tail's length fits, and so do the sums below.
    prove!(tail.bytes.len() <= usize::MAX);
    let from = (spec.offset - tail.start) as usize;
    let buffer = tail.bytes.slice(alloc, from..from + spec.length as usize)?;
    Ok(buffer.aligned(spec.alignment))
}

/// Puts a segment into the cache, if the tail covers it.
fn put_one<C: SegmentCache>(
    alloc: Global,
    cache: &mut C,
    tail: &Tail,
    number: u32,
    spec: &SegmentSpec,
) -> Result<(), CacheError>
    requires { LiesIn (Some tail.now) spec.now }
    ensures gains { OnOk result ((file : List ℕ) → IsEnd file (Some tail.now) →
        Gains (covered_put file tail.now.start number spec.now) (C.state cache.old) (C.state cache.new)) }
    ensures failed { result ≡ Err errors.Failed → Rises 1 (C.state cache.old).faults (C.state cache.new).faults }
    ensures same { SameCache (C.state cache.old) (C.state cache.new) }
{
    if spec.offset < tail.start {
        return Ok(());
    }
    let buffer = cut(alloc, tail, spec)?;
    cache.put(alloc, SegmentId(number), buffer)
}

/// Puts the segments that the tail covers into the cache, in order of number. The first put that fails or finds no
/// memory ends it.
pub(crate) fn put_covered<C: SegmentCache>(
    alloc: Global,
    cache: &mut C,
    tail: &Tail,
    segments: &[SegmentSpec],
) -> Result<(), CacheError>
    requires { (n : ℕ) (s : SegmentSpec) → slice_get segments.now n ≡ Some s → LiesIn (Some tail.now) s }
    ensures gains { OnOk result ((file : List ℕ) → IsEnd file (Some tail.now) →
        Gains (covered_segments file tail.now.start segments.now) (C.state cache.old) (C.state cache.new)) }
    ensures failed { result ≡ Err errors.Failed → Rises 1 (C.state cache.old).faults (C.state cache.new).faults }
    ensures same { SameCache (C.state cache.old) (C.state cache.new) }
{
    for number in 0..segments.len().min(NUMBERS) {
        put_one(alloc, cache, tail, number as u32, &segments[number])?;
    }
    Ok(())
}
