//! Worked rows of the scheduler, with ample memory.
ghost use Rattle.std.specs.Prelude.{◌≡◌};

use std::alloc::Global;
use std::process::Abort;
use std::test::Fail;
use vx_base::{Alignment, ByteBuffer, FaultKind, MemReader, Mischief, MischiefKind};
use vx_sched::{
    CoalescedRequest, IoRequest, Outcome, RangeError, ReadEvent, ReadRequest, ReadState,
    RequestMetrics, State, ask, ask_size, request_of,
};

// The alignment of an exponent.
pub fn aligned(exponent: u8) -> Alignment {
    match Alignment::new(exponent) {
        Ok(alignment) => alignment,
        Err(_) => Alignment::none(),
    }
}

fn read(id: u64, offset: u64, length: usize) -> ReadRequest
    ensures { result ≡ record { id = id; offset = offset; length = length; alignment = 0 } }
{
    ReadRequest {
        id,
        offset,
        length,
        alignment: Alignment::none(),
    }
}

// The read, with the alignment of an exponent.
fn claiming(read: ReadRequest, exponent: u8) -> ReadRequest {
    ReadRequest {
        id: read.id,
        offset: read.offset,
        length: read.length,
        alignment: aligned(exponent),
    }
}

// The bytes of one read of a span whose bytes are nine letters.
fn cut_of(
    rt: &impl Abort,
    alloc: Global,
    span: &CoalescedRequest,
    index: usize,
) -> Result<ByteBuffer, Fail> {
    let bytes = Vec::from_slice(alloc, b"456789abc")?;
    let buffer = ByteBuffer::from_vec(alloc, bytes, span.alignment())?;
    let range = span.range();
    assert!(rt; buffer.len() as u64 == range.end - range.start);
    assert!(rt; index < span.requests().len());
    Ok(span.slice_of(alloc, &buffer, index)?)
}

// Two reads, the first polled, with settings, and the range of the first span.
#[derive(Clone, Copy)]
struct Row {
    distance: Option<u64>,
    max_read_size: Option<u64>,
    exponent: u8,
    polled: (u64, usize),
    registered: (u64, usize),
    range: (u64, u64),
}

// The row of a distance, a greatest size, reads without alignment, and the range.
fn at_distance(
    distance: u64,
    max_read_size: Option<u64>,
    polled: (u64, usize),
    registered: (u64, usize),
    range: (u64, u64),
) -> Row {
    Row {
        distance: Some(distance),
        max_read_size,
        exponent: 0,
        polled,
        registered,
        range,
    }
}

// The state of a row: the first read is polled.
fn state_of(rt: &impl Abort, alloc: Global, row: &Row) -> Result<State, Fail> {
    let (first, second) = (row.polled, row.registered);
    assert!(rt; first.0 < 2000000 && first.1 < 2000000);
    assert!(rt; second.0 < 2000000 && second.1 < 2000000);
    let alignment = aligned(row.exponent);
    let mut state = State::new(alloc, row.distance, row.max_read_size, alignment, 4);
    state.on_event(ReadEvent::Request(read(0, first.0, first.1)))?;
    state.on_event(ReadEvent::Request(read(1, second.0, second.1)))?;
    state.on_event(ReadEvent::Polled(0))?;
    Ok(state)
}

// Whether the first span of a row has its range.
fn holds(rt: &impl Abort, alloc: Global, row: &Row) -> Result<bool, Fail> {
    let spans = state_of(rt, alloc, row)?.batch(alloc, 4)?;
    let range = spans.first().ok_or("no span")?.range();
    Ok(spans.len() == 1 && range.start == row.range.0 && range.end == row.range.1)
}

#[test]
fn spans_of_two_reads(rt: HostRuntime) -> Result<(), Fail> {
    let aligned_fits = Row {
        distance: Some(8),
        max_read_size: Some(16),
        exponent: 3,
        polled: (10, 4),
        registered: (20, 8),
        range: (8, 28),
    };
    let aligned_long = Row {
        distance: Some(8),
        max_read_size: Some(16),
        exponent: 3,
        polled: (10, 4),
        registered: (20, 12),
        range: (8, 14),
    };
    let exact = Row {
        distance: None,
        max_read_size: Some(1),
        exponent: 3,
        polled: (10, 4),
        registered: (14, 4),
        range: (10, 14),
    };
    let rows = vec![in rt.alloc();
        at_distance(4, Some(100), (0, 10), (14, 6), (0, 20)),
        at_distance(3, Some(100), (0, 10), (14, 6), (0, 10)),
        aligned_fits,
        aligned_long,
        exact,
        at_distance(50, Some(1000), (100, 10), (0, 100), (0, 110)),
        at_distance(50, Some(109), (100, 10), (0, 100), (100, 110)),
        at_distance(50, None, (100, 10), (0, 49), (100, 110)),
        at_distance(50, None, (100, 10), (0, 50), (0, 110)),
        at_distance(u64::MAX, None, (1000000, 10), (0, 4), (0, 1000010)),
        at_distance(4, Some(5), (0, 10), (14, 6), (0, 10)),
    ]?;
    for row in &rows {
        assert!(rt; holds(&rt, rt.alloc(), row)?);
    }
    Ok(())
}

// A state whose only read is polled.
fn polled(alloc: Global) -> Result<State, Fail> {
    let mut state = State::new(alloc, None, None, aligned(0), 2);
    state.on_event(ReadEvent::Request(read(3, 7, 5)))?;
    state.on_event(ReadEvent::Polled(3))?;
    Ok(state)
}

// How many reads are polled, in flight and resolved, and how many ranges are in flight.
fn counted(state: &State) -> (usize, usize, usize, usize) {
    let counts = state.counts();
    (
        counts.polled,
        counts.in_flight,
        counts.resolved,
        counts.ranges,
    )
}

#[test]
fn a_span_is_taken_resolved_and_gone(rt: HostRuntime) -> Result<(), Fail> {
    let mut state = polled(rt.alloc())?;
    assert!(rt; counted(&state) == (1, 0, 0, 0));
    assert!(rt; state.counts().ranges < state.concurrency());
    let span = state.next(rt.alloc())?.ok_or("no span")?;
    let asked = request_of(&span);
    assert!(rt; asked.offset == 7 && asked.length == 5);
    assert!(rt; counted(&state) == (0, 1, 0, 1));
    assert!(rt; state.is_in_flight(&span));
    state.resolve(&span);
    assert!(rt; counted(&state) == (0, 0, 1, 0));
    state.on_event(ReadEvent::Dropped(3))?;
    assert!(rt; counted(&state) == (0, 0, 0, 0));
    Ok(())
}

// A state of three reads, two of which touch, and of which the others are polled.
fn three_reads(alloc: Global) -> Result<State, Fail> {
    let mut state = State::new(alloc, Some(0), None, aligned(0), 2);
    state.on_event(ReadEvent::Request(read(0, 0, 4)))?;
    state.on_event(ReadEvent::Request(read(1, 4, 4)))?;
    state.on_event(ReadEvent::Request(read(2, 9, 4)))?;
    state.on_event(ReadEvent::Polled(2))?;
    state.on_event(ReadEvent::Polled(0))?;
    Ok(state)
}

// What is counted of one call for these spans.
fn counted_call(spans: &[CoalescedRequest]) -> RequestMetrics {
    let mut metrics = RequestMetrics::new();
    metrics.add_call(spans.len());
    for span in spans {
        metrics.add_span(span.requests().len());
    }
    metrics
}

#[test]
fn a_batch_is_settled(rt: HostRuntime) -> Result<(), Fail> {
    let mut state = three_reads(rt.alloc())?;
    assert!(rt; state.concurrency() == 2 && state.counts().ranges == 0);
    let spans = state.batch(rt.alloc(), 2)?;
    let metrics = counted_call(spans.as_slice());
    assert!(rt; metrics.individual_requests == 1 && metrics.num_requests_coalesced == 2);
    assert!(rt; metrics.coalesced_requests == 1 && metrics.read_ranges_multi == 1);
    assert!(rt; metrics.read_ranges_calls == 1 && metrics.read_ranges_num_ranges == 2);
    assert!(rt; !spans.is_empty());
    state.settle(spans.as_slice());
    assert!(rt; counted(&state) == (0, 0, 3, 0));
    Ok(())
}

// Registers two reads with alignments of their own, polls the first, and gives the spans of a batch.
fn spans_of_aligned(
    rt: &impl Abort,
    alloc: Global,
    first: ReadRequest,
    second: ReadRequest,
) -> Result<Vec<CoalescedRequest>, Fail> {
    let mut state = State::new(alloc, Some(1), Some(16), aligned(2), 4);
    assert!(rt; first.id == 0 && first.offset < 1000 && first.length < 1000);
    assert!(rt; second.id == 1 && second.offset < 1000 && second.length < 1000);
    state.on_event(ReadEvent::Request(first))?;
    state.on_event(ReadEvent::Request(second))?;
    state.on_event(ReadEvent::Polled(0))?;
    Ok(state.batch(alloc, 4)?)
}

#[test]
fn a_span_is_aligned_to_the_greatest_alignment(rt: HostRuntime) -> Result<(), Fail> {
    let polled = claiming(read(0, 6, 5), 1);
    let registered = claiming(read(1, 12, 1), 2);
    let spans = spans_of_aligned(&rt, rt.alloc(), polled, registered)?;
    assert_eq!(rt; spans.len(), 1);
    let span = spans.first().ok_or("no span")?;
    assert_eq!(rt; span.range().start, 4);
    assert_eq!(rt; span.range().end, 13);
    let first = cut_of(&rt, rt.alloc(), span, 0)?;
    assert!(rt; first.as_slice() == b"6789a".as_slice());
    let second = cut_of(&rt, rt.alloc(), span, 1)?;
    assert!(rt; second.as_slice() == b"c".as_slice());
    let asked = request_of(span);
    assert!(rt; asked.offset == 4 && asked.length == 9 && asked.alignment.exponent() == 2);
    Ok(())
}

#[test]
fn a_range_that_is_no_span_is_refused_in_order(rt: HostRuntime) -> Result<(), Fail> {
    let reversed = CoalescedRequest::try_new(5..4, aligned(0), Vec::new(rt.alloc()));
    assert!(rt; matches!(reversed, Err(RangeError::RangeReversed)));
    let within = vec![in rt.alloc(); read(0, 4, 3)]?;
    assert!(rt; CoalescedRequest::try_new(4..8, aligned(0), within).is_ok());
    let before = vec![in rt.alloc(); read(0, 3, 9)]?;
    assert!(rt;
        matches!(
            CoalescedRequest::try_new(4..8, aligned(0), before),
            Err(RangeError::Precedes)
        )
    );
    let after = vec![in rt.alloc(); read(0, 4, 5)]?;
    assert!(rt;
        matches!(
            CoalescedRequest::try_new(4..8, aligned(0), after),
            Err(RangeError::Exceeds)
        )
    );
    Ok(())
}

#[test]
fn answers_are_matched_by_range(rt: HostRuntime) -> Result<(), Fail> {
    let wrongs = vec![in rt.alloc();
        Mischief {
            at: 0,
            kind: MischiefKind::Skip
        },
        Mischief {
            at: 1,
            kind: MischiefKind::Unknown
        },
    ]?;
    let bytes = Vec::from_slice(rt.alloc(), b"0123456789abcdef")?;
    let held = ByteBuffer::from_vec(rt.alloc(), bytes, Alignment::none())?;
    let mut reader = MemReader::new(rt.alloc(), held, None, None, 2, wrongs)?;
    assert!(rt; ask_size(&mut reader).is_ok());
    let single = IoRequest::Single(read(0, 0, 4));
    let asked = [single.range(), IoRequest::Single(read(1, 4, 4)).range()];
    let outcomes = ask(rt.alloc(), &mut reader, &asked)?;
    assert_eq!(rt; outcomes.len(), 2);
    assert!(rt;
        matches!(&outcomes[0], Outcome::Fault(fault) if fault.kind() == FaultKind::MissingRange)
    );
    assert!(rt;
        matches!(&outcomes[1], Outcome::Bytes(bytes) if bytes.as_slice() == b"4567".as_slice())
    );
    Ok(())
}
