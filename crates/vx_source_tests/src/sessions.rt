//! Worked rows of sessions, with ample memory.
ghost use Rattle.std.specs.Prelude.{◌≡◌, ◌+◌, ◌≤◌, IfOk, Some, length};
ghost use Rattle.vx_source.specs.Sources.{HasHistory};
ghost use Rattle.vx_source.specs.declared.tail.Tail.{Tail};

use std::alloc::Global;
use std::collections::BTreeMap;
use std::process::Abort;
use std::test::Fail;
use vx_base::{
    Alignment, ByteBuffer, MemCache, MemReader, Mischief, MischiefKind, Reader, SegmentCache,
    SegmentId, SegmentSpec, Sequence,
};
use vx_source::{
    BufferSegmentSource, FailCause, Fetched, InitialReadSegmentCache, LruSegments, Reply,
    SegmentSource, Session, SessionSource, SourceError, SpanOutcome, Tail,
};

// A step of a script.
#[derive(Clone, Copy)]
enum Step {
    Register(u32),
    Poll(u64),
    Drop(u64),
    Drive,
}

// A reply: of Ready the first byte, of Driven how many spans there are and how many of them failed.
#[derive(Clone, Copy)]
enum Want {
    Registered(u64, bool),
    Missing,
    Ready(u8),
    Pending,
    Failed,
    FailedCache,
    Dropped,
    NotLive,
    Driven(usize, usize),
}

// The segment of four bytes at an offset.
fn segment(offset: u64) -> SegmentSpec
    ensures { result ≡ record { offset = offset; length = 4; alignment = 0 } }
{
    SegmentSpec {
        offset,
        length: 4,
        alignment: Alignment::none(),
    }
}

// The buffer of some bytes.
fn buffer(alloc: Global, bytes: &[u8]) -> Result<ByteBuffer, Fail> {
    let bytes = Vec::from_slice(alloc, bytes)?;
    Ok(ByteBuffer::from_vec(alloc, bytes, Alignment::none())?)
}

// A reader of sixteen letters, with mischief.
fn letters(alloc: Global, mischief: Vec<Mischief>) -> Result<MemReader, Fail> {
    let bytes = buffer(alloc, b"abcdefghijklmnop")?;
    Ok(MemReader::new(alloc, bytes, None, None, 2, mischief)?)
}

// A reader of sixteen letters whose second range fails.
fn failing_once(alloc: Global) -> Result<MemReader, Fail> {
    let wrongs = vec![in alloc;
        Mischief {
            at: 1,
            kind: MischiefKind::Fail
        },
    ]?;
    letters(alloc, wrongs)
}

// How many spans failed.
fn bad(spans: &[vx_source::Span]) -> usize {
    let mut count = 0usize;
    for span in spans {
        if span.outcome != SpanOutcome::Good {
            count = count.saturating_add(1);
        }
    }
    count
}

// Whether a reply is the wanted one.
fn meets(reply: &Reply, want: Want) -> bool {
    match (reply, want) {
        (Reply::Registered { number, held }, Want::Registered(n, h)) => *number == n && *held == h,
        (Reply::MissingSegment, Want::Missing) => true,
        (Reply::Ready(bytes), Want::Ready(first)) => {
            bytes.len() == 4 && bytes.as_slice().first() == Some(&first)
        }
        (Reply::Pending, Want::Pending) => true,
        (Reply::Failed(FailCause::Fault(_)), Want::Failed) => true,
        (Reply::Failed(FailCause::Cache), Want::FailedCache) => true,
        (Reply::Dropped, Want::Dropped) => true,
        (Reply::NotLive, Want::NotLive) => true,
        (Reply::Driven(spans), Want::Driven(all, failed)) => {
            spans.len() == all && bad(spans.as_slice()) == failed
        }
        _ => false,
    }
}

// Whether a source's answer is the wanted one.
fn is_found(found: &Result<ByteBuffer, SourceError>, want: Want) -> bool {
    match (found, want) {
        (Ok(bytes), Want::Ready(first)) => {
            bytes.len() == 4 && bytes.as_slice().first() == Some(&first)
        }
        (Err(SourceError::MissingSegment), Want::Missing) => true,
        (Err(SourceError::Fault(_)), Want::Failed) => true,
        (Err(SourceError::CacheFault), Want::FailedCache) => true,
        _ => false,
    }
}

// The calls of a session and of caches stand in functions that promise nothing, so that no proof of a test looks at all
// that they promise.

// The reply to a register.
fn registered(
    rt: &impl Abort,
    alloc: Global,
    session: &mut Session,
    cache: &mut MemCache,
    segment: u32,
) -> Result<Reply, Fail> {
    assert!(rt; session.made() < u64::MAX);
    Ok(session.register(alloc, cache, SegmentId(segment))?)
}

// The reply to a poll.
fn polled(alloc: Global, session: &mut Session, number: u64) -> Result<Reply, Fail> {
    Ok(session.poll(alloc, number)?)
}

// The reply to a drop.
fn dropped(session: &mut Session, number: u64) -> Reply {
    session.drop_request(number)
}

// The reply to a drive.
fn driven(
    rt: &impl Abort,
    alloc: Global,
    session: &mut Session,
    reader: &mut MemReader,
    cache: &mut MemCache,
) -> Result<Reply, Fail> {
    assert!(rt; session.concurrency() <= reader.concurrency());
    let spans = session.drive(alloc, reader, cache)?;
    Ok(Reply::Driven(Sequence::from_vec(spans)))
}

// The reply to one step.
fn answer(
    rt: &impl Abort,
    alloc: Global,
    session: &mut Session,
    reader: &mut MemReader,
    cache: &mut MemCache,
    step: Step,
) -> Result<Reply, Fail> {
    match step {
        Step::Register(segment) => registered(rt, alloc, session, cache, segment),
        Step::Poll(number) => polled(alloc, session, number),
        Step::Drop(number) => Ok(dropped(session, number)),
        Step::Drive => driven(rt, alloc, session, reader, cache),
    }
}

// Plays a script against the wanted replies.
fn play(
    rt: &impl Abort,
    alloc: Global,
    session: &mut Session,
    reader: &mut MemReader,
    cache: &mut MemCache,
    rows: &[(Step, Want)],
) -> Result<(), Fail> {
    for (step, want) in rows {
        let reply = answer(rt, alloc, session, reader, cache, *step)?;
        assert!(rt; meets(&reply, *want));
    }
    Ok(())
}

// A session for two segments, at 0 and 8, over a tail that reaches past them, if there is one.
fn two_segments(alloc: Global, distance: Option<u64>, tail: Option<Tail>) -> Result<Session, Fail>
    requires { (t : Tail) → tail ≡ Some t → 12 ≤ t.start + length t.bytes.bytes }
{
    let segments = vec![in alloc; segment(0), segment(8)]?;
    Ok(Session::new(alloc, segments, distance, None, 2, tail)?)
}

// A cache without entries, whose calls at these places fail.
fn empty_cache(alloc: Global, fail: Vec<u64>) -> MemCache {
    MemCache::new(alloc, Vec::new(alloc), fail)
}

#[test]
fn a_dropped_request_leaves_its_read_to_the_others(rt: HostRuntime) -> Result<(), Fail> {
    let mut session = two_segments(rt.alloc(), None, None)?;
    let mut reader = letters(rt.alloc(), Vec::new(rt.alloc()))?;
    let mut cache = empty_cache(rt.alloc(), Vec::new(rt.alloc()));
    let rows = [
        (Step::Register(0), Want::Registered(0, false)),
        (Step::Register(0), Want::Registered(1, false)),
        (Step::Poll(0), Want::Pending),
        (Step::Drop(0), Want::Dropped),
        (Step::Drive, Want::Driven(1, 0)),
        (Step::Poll(1), Want::Ready(b'a')),
    ];
    play(
        &rt,
        rt.alloc(),
        &mut session,
        &mut reader,
        &mut cache,
        &rows,
    )
}

#[test]
fn nobody_waits_for_a_dropped_request(rt: HostRuntime) -> Result<(), Fail> {
    let mut session = two_segments(rt.alloc(), None, None)?;
    let mut reader = letters(rt.alloc(), Vec::new(rt.alloc()))?;
    let mut cache = empty_cache(rt.alloc(), Vec::new(rt.alloc()));
    let rows = [
        (Step::Register(0), Want::Registered(0, false)),
        (Step::Drive, Want::Driven(0, 0)),
        (Step::Poll(0), Want::Pending),
        (Step::Drop(0), Want::Dropped),
        (Step::Drive, Want::Driven(0, 0)),
        (Step::Poll(0), Want::NotLive),
        (Step::Register(2), Want::Missing),
    ];
    play(
        &rt,
        rt.alloc(),
        &mut session,
        &mut reader,
        &mut cache,
        &rows,
    )
}

#[test]
fn a_failed_read_fails_alone_and_is_read_again(rt: HostRuntime) -> Result<(), Fail> {
    let mut session = two_segments(rt.alloc(), None, None)?;
    let mut reader = failing_once(rt.alloc())?;
    let mut cache = empty_cache(rt.alloc(), Vec::new(rt.alloc()));
    let rows = [
        (Step::Register(0), Want::Registered(0, false)),
        (Step::Register(1), Want::Registered(1, false)),
        (Step::Poll(0), Want::Pending),
        (Step::Poll(1), Want::Pending),
        (Step::Drive, Want::Driven(2, 1)),
        (Step::Poll(0), Want::Ready(b'a')),
        (Step::Poll(1), Want::Failed),
        (Step::Register(1), Want::Registered(2, false)),
        (Step::Poll(2), Want::Pending),
        (Step::Drive, Want::Driven(1, 0)),
        (Step::Poll(2), Want::Ready(b'i')),
    ];
    play(
        &rt,
        rt.alloc(),
        &mut session,
        &mut reader,
        &mut cache,
        &rows,
    )?;
    let metrics = session.metrics();
    assert!(rt; metrics.read_ranges_calls == 2 && metrics.read_ranges_num_ranges == 3);
    Ok(())
}

#[test]
fn near_reads_are_merged_and_cut(rt: HostRuntime) -> Result<(), Fail> {
    let mut session = two_segments(rt.alloc(), Some(4), None)?;
    let mut reader = letters(rt.alloc(), Vec::new(rt.alloc()))?;
    // The second put fails, and is passed over.
    let mut cache = empty_cache(rt.alloc(), vec![in rt.alloc(); 3u64]?);
    let rows = [
        (Step::Register(0), Want::Registered(0, false)),
        (Step::Register(1), Want::Registered(1, false)),
        (Step::Poll(1), Want::Pending),
        (Step::Drive, Want::Driven(1, 0)),
        (Step::Poll(1), Want::Ready(b'i')),
        (Step::Register(0), Want::Registered(2, true)),
        (Step::Register(1), Want::Registered(3, false)),
    ];
    play(
        &rt,
        rt.alloc(),
        &mut session,
        &mut reader,
        &mut cache,
        &rows,
    )?;
    assert!(rt; cache.puts().len() == 2 && reader.asked().len() == 1);
    session.renew(rt.alloc());
    assert!(rt; session.made() == 0);
    Ok(())
}

#[test]
fn the_tail_is_looked_at_before_the_cache(rt: HostRuntime) -> Result<(), Fail> {
    let bytes = buffer(rt.alloc(), b"efghijklmnop")?;
    assert!(rt; bytes.len() == 12);
    let tail = Tail { start: 4, bytes };
    let mut session = two_segments(rt.alloc(), None, Some(tail))?;
    let mut reader = letters(rt.alloc(), Vec::new(rt.alloc()))?;
    let mut cache = empty_cache(rt.alloc(), vec![in rt.alloc(); 0u64]?);
    let rows = [
        (Step::Register(1), Want::Registered(0, true)),
        (Step::Poll(0), Want::Ready(b'i')),
        (Step::Register(0), Want::FailedCache),
        (Step::Poll(1), Want::NotLive),
        (Step::Register(0), Want::Registered(1, false)),
    ];
    play(
        &rt,
        rt.alloc(),
        &mut session,
        &mut reader,
        &mut cache,
        &rows,
    )
}

// A session for three segments, at 0, 4 and 12, that merges reads at most 2 bytes apart.
fn three_segments(alloc: Global) -> Result<Session, Fail>
    ensures { IfOk result HasHistory }
{
    let segments = vec![in alloc; segment(0), segment(4), segment(12)]?;
    Ok(Session::new(alloc, segments, Some(2), None, 2, None)?)
}

// What a new session fetches of three segments and of one that it has not.
fn fetched(rt: &impl Abort, alloc: Global, reader: &mut MemReader) -> Result<Fetched, Fail> {
    let mut session = three_segments(alloc)?;
    let mut cache = empty_cache(alloc, Vec::new(alloc));
    let ids = [SegmentId(1), SegmentId(0), SegmentId(3), SegmentId(2)];
    assert!(rt; session.made() == 0 && session.concurrency() <= reader.concurrency());
    Ok(session.segments(alloc, reader, &mut cache, &ids)?)
}

#[test]
fn segments_are_fetched_in_one_drive(rt: HostRuntime) -> Result<(), Fail> {
    let mut reader = failing_once(rt.alloc())?;
    let wants = [
        Want::Ready(b'e'),
        Want::Ready(b'a'),
        Want::Missing,
        Want::Failed,
    ];
    let fetched = fetched(&rt, rt.alloc(), &mut reader)?;
    assert!(rt; fetched.replies.len() == wants.len() && fetched.spans.len() == 2);
    for (reply, want) in fetched.replies.as_slice().iter().zip(wants) {
        assert!(rt; meets(reply, want));
    }
    assert!(rt; bad(fetched.spans.as_slice()) == 1 && reader.asked().len() == 2);
    Ok(())
}

// Puts four bytes under a number.
fn put<C: SegmentCache>(alloc: Global, cache: &mut C, segment: u32) -> Result<(), Fail> {
    Ok(cache.put(alloc, SegmentId(segment), buffer(alloc, b"efgh")?)?)
}

// The first byte that a cache has under a number.
fn first<C: SegmentCache>(alloc: Global, cache: &mut C, segment: u32) -> Result<Option<u8>, Fail> {
    let found = cache.get(alloc, SegmentId(segment))?;
    Ok(found.and_then(|bytes| bytes.as_slice().first().copied()))
}

#[test]
fn the_segment_that_was_used_least_recently_goes(rt: HostRuntime) -> Result<(), Fail> {
    let mut cache = LruSegments::new(rt.alloc(), 2)?;
    // A put of a segment, or a get of one that is there or is not.
    let rows = [
        (0u32, None),
        (1, None),
        (0, Some(true)),
        (2, None),
        (1, Some(false)),
        (0, Some(true)),
        (2, Some(true)),
    ];
    for (segment, held) in rows {
        match held {
            None => put(rt.alloc(), &mut cache, segment)?,
            Some(held) => {
                assert!(rt; first(rt.alloc(), &mut cache, segment)?.is_some() == held);
            }
        }
    }
    assert!(rt; cache.puts().len() == 3);
    Ok(())
}

#[test]
fn a_segment_of_the_initial_read_stays(rt: HostRuntime) -> Result<(), Fail> {
    let mut initial = BTreeMap::new(rt.alloc());
    initial.insert(SegmentId(0), buffer(rt.alloc(), b"abcd")?)?;
    let fallback = LruSegments::new(rt.alloc(), 1)?;
    let mut cache = InitialReadSegmentCache { initial, fallback };
    for segment in [0u32, 1, 2] {
        put(rt.alloc(), &mut cache, segment)?;
    }
    assert!(rt; first(rt.alloc(), &mut cache, 0)? == Some(b'a'));
    assert!(rt; first(rt.alloc(), &mut cache, 1)?.is_none());
    assert!(rt; first(rt.alloc(), &mut cache, 2)? == Some(b'e'));
    Ok(())
}

// A source over a session for three segments, whose reader and cache fail once.
fn failing_source(
    rt: &impl Abort,
    alloc: Global,
) -> Result<SessionSource<MemReader, MemCache>, Fail> {
    let session = three_segments(alloc)?;
    let reader = failing_once(alloc)?;
    assert!(rt; session.concurrency() <= reader.concurrency());
    // The cache is asked for each segment that the table has, and each that was read is put into it.
    let cache = empty_cache(alloc, vec![in alloc; 5u64]?);
    Ok(SessionSource::new(session, reader, cache))
}

// What a source answers for a segment.
fn found(
    alloc: Global,
    source: &mut SessionSource<MemReader, MemCache>,
    segment: u32,
) -> Result<ByteBuffer, SourceError> {
    source.segment(alloc, SegmentId(segment))
}

#[test]
fn a_source_over_a_session_gives_its_segments(rt: HostRuntime) -> Result<(), Fail> {
    let mut source = failing_source(&rt, rt.alloc())?;
    let rows = [
        (1u32, Want::Ready(b'e')),
        (2, Want::Failed),
        (3, Want::Missing),
        (2, Want::Ready(b'm')),
        (0, Want::FailedCache),
        (2, Want::Ready(b'm')),
    ];
    for (id, want) in rows {
        assert!(rt; is_found(&found(rt.alloc(), &mut source, id), want));
    }
    let (_, reader, _) = source.into_parts();
    assert!(rt; reader.asked().len() == 3);
    Ok(())
}

#[test]
fn a_file_in_memory_gives_its_segments(rt: HostRuntime) -> Result<(), Fail> {
    let segments = vec![in rt.alloc(); segment(0), segment(4), segment(5)]?;
    let mut source = BufferSegmentSource::new(buffer(rt.alloc(), b"abcdefgh")?, segments);
    let rows = [
        (0u32, Ok(b'a')),
        (1, Ok(b'e')),
        (2, Err(SourceError::PastEnd)),
        (3, Err(SourceError::MissingSegment)),
    ];
    for (id, want) in rows {
        let meets = match (source.segment(rt.alloc(), SegmentId(id)), want) {
            (Ok(bytes), Ok(first)) => bytes.as_slice().first() == Some(&first),
            (Err(error), Err(other)) => error == other,
            _ => false,
        };
        assert!(rt; meets);
    }
    Ok(())
}
