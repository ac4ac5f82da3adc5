//! The spans of many small lists of reads, compared with plain searches.
ghost use Rattle.std.specs.Prelude.{◌≡◌, ◌<◌, ◌≤◌, ◌+◌, OnOk};

use crate::scheduler::aligned;
use std::alloc::{AllocError, Global};
use std::process::Abort;
use std::test::Fail;
use vx_sched::{CoalescedRequest, ReadEvent, ReadRequest, State};

// A linear congruential generator, so that each run makes the same lists.
#[derive(Clone, Copy)]
struct Generator {
    state: u64,
}

impl Generator {
    // A number below a bound.
    fn below(&mut self, bound: u64) -> u64
        requires { 1 ≤ bound }
    {
        self.state = self
            .state
            .wrapping_mul(6364136223846793005)
            .wrapping_add(1442695040888963407);
        (self.state / 8589934592) % bound
    }

    // The exponent of an alignment.
    fn exponent(&mut self) -> u8 {
        match self.below(3) {
            0 => 0,
            1 => 1,
            _ => 2,
        }
    }
}

// A read of a list, where it ends, and whether it is polled or dropped.
#[derive(Clone, Copy)]
struct Listed {
    request: ReadRequest,
    end: u64,
    is_polled: bool,
    is_dropped: bool,
}

// The settings of a scheduler. The limit has room for the start to be aligned down.
#[derive(Clone, Copy)]
struct Rules {
    distance: u64,
    limit: Option<u64>,
    exponent: u8,
}

impl Rules {
    // The start of a range that begins at an offset.
    fn start_of(&self, offset: u64) -> u64 {
        let past = match self.exponent {
            0 => 0,
            1 => offset % 2,
            _ => offset % 4,
        };
        offset.saturating_sub(past)
    }

    // Whether a range fits the limit.
    fn fits(&self, low: u64, high: u64) -> bool {
        match self.limit {
            Some(limit) => high.saturating_sub(self.start_of(low)) <= limit,
            None => true,
        }
    }

    // Whether each read but the first begins at most the distance past the greatest end before it.
    fn has_no_wide_gap(&self, chosen: &[Listed]) -> bool {
        let mut reach = first_offset(chosen);
        for read in chosen {
            if read.request.offset > reach.saturating_add(self.distance) {
                return false;
            }
            reach = reach.max(read.end);
        }
        true
    }

    // Whether each read left out is far from the chosen ones, or would make their range too long.
    fn is_closed(&self, chosen: &[Listed], left: &[Listed]) -> bool {
        let low = first_offset(chosen);
        let high = greatest_end(chosen);
        for read in left {
            let offset = read.request.offset;
            let is_near = low <= read.end.saturating_add(self.distance)
                && offset <= high.saturating_add(self.distance);
            if is_near && self.fits(low.min(offset), high.max(read.end)) {
                return false;
            }
        }
        true
    }

    // Whether the chosen reads merge, with a read that is to be among them.
    fn merges(&self, chosen: &[Listed], left: &[Listed], next: u64) -> bool {
        let fits = chosen.len() == 1 || self.fits(first_offset(chosen), greatest_end(chosen));
        has_number(chosen, next)
            && fits
            && self.has_no_wide_gap(chosen)
            && self.is_closed(chosen, left)
    }
}

fn first_offset(chosen: &[Listed]) -> u64 {
    match chosen.first() {
        Some(read) => read.request.offset,
        None => 0,
    }
}

fn greatest_end(chosen: &[Listed]) -> u64 {
    let mut end = 0u64;
    for read in chosen {
        end = end.max(read.end);
    }
    end
}

fn has_number(reads: &[Listed], id: u64) -> bool {
    for read in reads {
        if read.request.id == id {
            return true;
        }
    }
    false
}

// The polled read of least number.
fn next_of(waiting: &[Listed]) -> Option<Listed> {
    let mut least = u64::MAX;
    for read in waiting {
        if read.is_polled {
            least = least.min(read.request.id);
        }
    }
    for read in waiting {
        if read.is_polled && read.request.id == least {
            return Some(*read);
        }
    }
    None
}

// The reads whose bits are set, and the others.
fn split_by(
    alloc: Global,
    waiting: &[Listed],
    mask: u64,
) -> Result<(Vec<Listed>, Vec<Listed>), AllocError> {
    let mut bits = mask;
    let mut chosen = Vec::new(alloc);
    let mut left = Vec::new(alloc);
    for read in waiting {
        if bits % 2 == 1 {
            chosen.push(*read)?;
        } else {
            left.push(*read)?;
        }
        bits /= 2;
    }
    Ok((chosen, left))
}

// Whether a span is the range of the chosen reads, and lists them in order.
fn is_span_of(span: &CoalescedRequest, rules: &Rules, chosen: &[Listed]) -> bool {
    let requests = span.requests();
    for (place, request) in requests.iter().enumerate() {
        match chosen.get(place) {
            Some(read) => {
                if *request != read.request {
                    return false;
                }
            }
            None => return false,
        }
    }
    requests.len() == chosen.len()
        && span.range().start == rules.start_of(first_offset(chosen))
        && span.range().end == greatest_end(chosen)
        && span.alignment().exponent() == rules.exponent
}

// Whether a span is among those that a search over all sets of the waiting reads finds to merge.
fn is_found(
    alloc: Global,
    span: &CoalescedRequest,
    rules: &Rules,
    waiting: &[Listed],
    next: u64,
) -> Result<bool, AllocError> {
    for mask in 0..256u64 {
        let (chosen, left) = split_by(alloc, waiting, mask)?;
        if rules.merges(chosen.as_slice(), left.as_slice(), next)
            && is_span_of(span, rules, chosen.as_slice())
        {
            return Ok(true);
        }
    }
    Ok(false)
}

// One pass over the waiting reads: adds those that it absorbs, and gives the range of all.
fn pass_over(
    rules: &Rules,
    waiting: &[Listed],
    picked: &mut Vec<Listed>,
    range: (u64, u64),
) -> Result<(u64, u64), AllocError> {
    let (mut low, mut high) = range;
    let left = low.saturating_sub(rules.distance);
    let right = high.saturating_add(rules.distance);
    for read in waiting {
        let offset = read.request.offset;
        let is_near = left <= read.end && offset <= right;
        let is_new = !has_number(picked.as_slice(), read.request.id);
        if is_near && is_new && rules.fits(low.min(offset), high.max(read.end)) {
            picked.push(*read)?;
            low = low.min(offset);
            high = high.max(read.end);
        }
    }
    Ok((low, high))
}

// The reads that passes gather from one on, in order. Eight passes end with one that adds nothing.
fn gathered_in_passes(
    alloc: Global,
    rules: &Rules,
    waiting: &[Listed],
    next: &Listed,
) -> Result<Vec<Listed>, AllocError> {
    let mut picked = Vec::new(alloc);
    picked.push(*next)?;
    let mut range = (next.request.offset, next.end);
    for _ in 0..8 {
        range = pass_over(rules, waiting, &mut picked, range)?;
    }
    let mut chosen = Vec::new(alloc);
    for read in waiting {
        if has_number(picked.as_slice(), read.request.id) {
            chosen.push(*read)?;
        }
    }
    Ok(chosen)
}

// The reads that wait, in order of offset and number.
fn waiting_of(alloc: Global, all: &[Listed]) -> Result<Vec<Listed>, AllocError> {
    let mut waiting = Vec::new(alloc);
    for offset in 0..40u64 {
        for read in all {
            if read.request.offset == offset && !read.is_dropped {
                waiting.push(*read)?;
            }
        }
    }
    Ok(waiting)
}

// The reads that a span does not list.
fn left_by(
    alloc: Global,
    span: &CoalescedRequest,
    waiting: &[Listed],
) -> Result<Vec<Listed>, AllocError> {
    let mut left = Vec::new(alloc);
    for read in waiting {
        let mut is_listed = false;
        for request in span.requests() {
            is_listed = is_listed || request.id == read.request.id;
        }
        if !is_listed {
            left.push(*read)?;
        }
    }
    Ok(left)
}

// Registers a read that the generator makes.
fn register(
    rt: &impl Abort,
    state: &mut State,
    all: &mut Vec<Listed>,
    generator: &mut Generator,
    id: u64,
) -> Result<(), Fail>
    requires { state.old.next ≤ id }
    ensures { OnOk result (state.new.next ≡ id + 1) }
{
    let offset = generator.below(40);
    let length = generator.below(11);
    let alignment = aligned(generator.exponent());
    let stage = generator.below(4);
    assert!(rt; offset < 40 && length < 11);
    let request = ReadRequest {
        id,
        offset,
        length: length as usize,
        alignment,
    };
    state.on_event(ReadEvent::Request(request))?;
    all.push(Listed {
        request,
        end: offset + length,
        is_polled: stage < 2,
        is_dropped: stage == 3,
    })?;
    Ok(())
}

// Registers eight reads, and polls and drops some.
fn fill(
    rt: &impl Abort,
    alloc: Global,
    state: &mut State,
    generator: &mut Generator,
) -> Result<Vec<Listed>, Fail>
    requires { state.old.next ≡ 0 }
{
    let mut all = Vec::new(alloc);
    register(rt, state, &mut all, generator, 0)?;
    register(rt, state, &mut all, generator, 1)?;
    register(rt, state, &mut all, generator, 2)?;
    register(rt, state, &mut all, generator, 3)?;
    register(rt, state, &mut all, generator, 4)?;
    register(rt, state, &mut all, generator, 5)?;
    register(rt, state, &mut all, generator, 6)?;
    register(rt, state, &mut all, generator, 7)?;
    for read in &all {
        if read.is_polled {
            state.on_event(ReadEvent::Polled(read.request.id))?;
        }
        if read.is_dropped {
            state.on_event(ReadEvent::Dropped(read.request.id))?;
        }
    }
    Ok(all)
}

// Compares a span with the two searches, and gives the reads that it leaves.
fn compare_span(
    rt: &impl Abort,
    alloc: Global,
    rules: &Rules,
    span: &CoalescedRequest,
    waiting: &[Listed],
) -> Result<Vec<Listed>, Fail> {
    let next = next_of(waiting).ok_or("a span without a polled read")?;
    let found = is_found(alloc, span, rules, waiting, next.request.id)?;
    assert!(rt; found);
    let chosen = gathered_in_passes(alloc, rules, waiting, &next)?;
    assert!(rt; is_span_of(span, rules, chosen.as_slice()));
    Ok(left_by(alloc, span, waiting)?)
}

// Compares the spans of a batch, after which no polled read is left.
fn compare_all(
    rt: &impl Abort,
    alloc: Global,
    rules: &Rules,
    spans: &[CoalescedRequest],
    all: &[Listed],
) -> Result<(), Fail> {
    let mut waiting = waiting_of(alloc, all)?;
    for span in spans {
        waiting = compare_span(rt, alloc, rules, span, waiting.as_slice())?;
    }
    assert!(rt; next_of(waiting.as_slice()).is_none());
    Ok(())
}

// Makes a list of reads, and compares the spans of its batch. Gives how many there are.
fn compare(rt: &impl Abort, alloc: Global, generator: &mut Generator) -> Result<usize, Fail> {
    let distance = match generator.below(8) {
        0 => 100,
        gap => gap - 1,
    };
    let size = generator.below(31);
    let max_read_size = match generator.below(4) {
        0 => None,
        _ => Some(size),
    };
    let exponent = generator.exponent();
    let limit = match max_read_size {
        Some(size) => Some(size.saturating_add(room_of(exponent))),
        None => None,
    };
    let rules = Rules {
        distance,
        limit,
        exponent,
    };
    let mut state = State::new(alloc, Some(distance), max_read_size, aligned(exponent), 4);
    let all = fill(rt, alloc, &mut state, generator)?;
    let spans = state.batch(alloc, 8)?;
    compare_all(rt, alloc, &rules, spans.as_slice(), all.as_slice())?;
    Ok(spans.len())
}

// How many bytes the start of a range may be aligned down.
fn room_of(exponent: u8) -> u64 {
    match exponent {
        0 => 0,
        1 => 1,
        _ => 3,
    }
}

#[test]
fn the_spans_of_small_lists_are_those_of_plain_searches(rt: HostRuntime) -> Result<(), Fail> {
    let mut generator = Generator { state: 7 };
    let mut count = 0usize;
    for _ in 0..300 {
        let made = compare(&rt, rt.alloc(), &mut generator)?;
        count = count.saturating_add(made);
    }
    assert!(rt; count > 300);
    Ok(())
}
