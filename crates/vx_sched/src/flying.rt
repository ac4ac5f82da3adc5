//! Whether a span is in flight.
ghost use Rattle.std.specs.Prelude.{◌≡◌, ℕ, ◌<◌, ◌≤◌, ◌^◌};
ghost use Rattle.std.specs.List.{list_all};
ghost use Rattle.vx_sched.specs.Span.{AllWithin};
ghost use Rattle.vx_sched.specs.Entries.{entry_at};
ghost use Rattle.vx_sched.specs.Merging.{is_in_order, greatest_end};
ghost use Rattle.vx_sched.specs.Flying.{same_read, flies_in, flies_so};

use crate::ReadRequest;
use crate::gather::comes_before;
use crate::read::{Read, Stage};
use crate::read_map::ReadMap;
use std::ops::Range;

/// Whether reads are listed once each, in order.
pub fn is_ordered(reads: &[ReadRequest]) -> bool
    ensures { result ≡ is_in_order reads.now }
{
    let Some((first, rest)) = reads.split_first() else {
        return true;
    };
    let mut last = *first;
    for read in rest {
        if !comes_before(&last, read) {
            return false;
        }
        last = *read;
    }
    true
}

/// The greatest end of reads that lie in a range.
pub fn greatest_end_of(range: &Range<u64>, reads: &[ReadRequest]) -> u64
    requires { AllWithin range.now.start range.now.end reads.now }
    ensures { result ≡ greatest_end reads.now }
{
    let _end = range.end;
    let mut end = 0u64;
    for read in reads {
        end = end.max(read.offset + read.length as u64);
    }
    end
}

/// Whether two reads are one.
fn is_same_read(a: &ReadRequest, b: &ReadRequest) -> bool
    ensures { result ≡ same_read a.now b.now }
{
    a.id == b.id
        && a.offset == b.offset
        && a.length == b.length
        && a.alignment.exponent() == b.alignment.exponent()
}

/// Whether a stage is that of a read in flight in a span.
fn is_in_span(stage: &Stage, span: u64, size: usize) -> bool
    ensures { result ≡ flies_in span size stage.now }
{
    match stage {
        Stage::InFlight {
            span: other,
            size: count,
            dropped: _,
        } => *other == span && *count == size,
        _ => false,
    }
}

/// Whether a read that was looked up is in flight in a span.
fn flies(span: u64, size: usize, request: &ReadRequest, found: Option<Read>) -> bool
    ensures { result ≡ flies_so span size request.now found }
{
    match found {
        None => false,
        Some(read) => {
            is_in_span(&read.stage(), span, size) && is_same_read(&read.request(), request)
        }
    }
}

/// Whether reads are in flight in a span.
pub fn all_fly(reads: &ReadMap, span: u64, size: usize, spans: &[ReadRequest]) -> bool
    ensures { result ≡ list_all (λ r. flies_so span size r (entry_at reads.now r.id)) spans.now }
{
    for read in spans {
        if !flies(span, size, read, reads.get(read.id)) {
            return false;
        }
    }
    true
}
