//! A range of a file that serves several reads.
ghost use Rattle.std.specs.Prelude.{◌≡◌, ◌-◌, ◌<◌, ◌≤◌, ◌+◌, ◌^◌, Some, None, length, slice_get, IfOk, IfErr};
ghost use Rattle.vx_base.specs.Buffer.{bytes_at};
ghost use Rattle.vx_sched.specs.declared.request.ReadRequest.{ReadRequest};
ghost use Rattle.vx_sched.specs.Span.{outside, range_error, AllWithin, IsWithin};

use crate::ReadRequest;
use std::alloc::{AllocError, Global};
use std::marker::Model;
use std::ops::Range;
use thiserror::Error;
use vx_base::{Alignment, ByteBuffer};

/// A range that is no span of some reads: its end lies before its start, or a read begins before
/// it or ends after it.
#[derive(Clone, Copy, Debug, PartialEq, Eq, Error)]
pub enum RangeError {
    #[error("the range ends before it starts")]
    RangeReversed,
    #[error("a read begins before the range")]
    Precedes,
    #[error("a read ends after the range")]
    Exceeds,
}

/// A range that serves the reads that lie in it.
#[derive(Drop)]
pub struct CoalescedRequest {
    from: u64,
    upto: u64,
    aligned: Alignment,
    served: Vec<ReadRequest>,
}

impl Model for CoalescedRequest {
    ghost use Rattle.std.specs.Prelude.{◌≤◌};
    ghost use Rattle.vx_sched.specs.Span.{Span, AllWithin};

    ghost Value = { Span };

    ghost view = { λ s. record { start = s.from; end = s.upto; alignment = s.aligned; reads = s.served.items } };

    ghost invariant = { λ s. (s.from ≤ s.upto) × AllWithin s.from s.upto s.served.items };
}

/// The first read that does not lie in a range, and how.
fn first_outside(range: &Range<u64>, reads: &[ReadRequest]) -> Option<RangeError>
    requires { range.now.start ≤ range.now.end }
    ensures value { result ≡ outside range.now.start range.now.end reads.now }
    ensures none { result ≡ None → AllWithin range.now.start range.now.end reads.now }
{
    for read in reads {
        if read.offset < range.start {
            return Some(RangeError::Precedes);
        }
        if read.offset > range.end || read.length as u64 > range.end - read.offset {
            return Some(RangeError::Exceeds);
        }
    }
    None
}

impl CoalescedRequest {
    /// The span of a range and reads that lie in it. The range is looked at first, and then each
    /// read in order, its start before its end.
    pub fn try_new(
        range: Range<u64>,
        alignment: Alignment,
        requests: Vec<ReadRequest>,
    ) -> Result<CoalescedRequest, RangeError>
        ensures ok { IfOk result (λ s. s ≡ record {
          start = range.start;
          end = range.end;
          alignment = alignment;
          reads = requests.items;
        }) }
        ensures taken { IfOk result (λ _. range_error range.start range.end requests.items ≡ None) }
        ensures refused { IfErr result (λ e. range_error range.start range.end requests.items ≡ Some e) }
    {
        if range.end < range.start {
            return Err(RangeError::RangeReversed);
        }
        if let Some(error) = first_outside(&range, requests.as_slice()) {
            return Err(error);
        }
        Ok(CoalescedRequest::within(range.start, range.end, alignment, requests))
    }

    /// The span of a range and reads that lie in it.
    pub(crate) fn within(
        start: u64,
        end: u64,
        alignment: Alignment,
        reads: Vec<ReadRequest>,
    ) -> CoalescedRequest
        requires forward { start ≤ end }
        requires within { AllWithin start end reads.items }
        ensures { result ≡ record { start = start; end = end; alignment = alignment; reads = reads.items } }
    {
        CoalescedRequest {
            from: start,
            upto: end,
            aligned: alignment,
            served: reads,
        }
    }

    /// The range.
    pub fn range(&self) -> Range<u64>
        ensures start { result.start ≡ self.now.start }
        ensures end { result.end ≡ self.now.end }
        ensures forward { result.start ≤ result.end }
    {
        self.from..self.upto
    }

    /// The alignment that its bytes claim.
    pub fn alignment(&self) -> Alignment
        ensures { result ≡ self.now.alignment }
    {
        self.aligned
    }

    /// The reads that it serves, in order.
    pub fn requests(&self) -> &[ReadRequest]
        ensures value { result.now ≡ self.now.reads }
        ensures within { AllWithin self.now.start self.now.end self.now.reads }
    {
        self.served.as_slice()
    }

    /// One of its reads, which lies in the range.
    fn served_at(&self, index: usize) -> ReadRequest
        requires { index < length self.now.reads }
        ensures at { slice_get self.now.reads index ≡ Some result }
        ensures within { IsWithin self.now.start self.now.end result }
    {
        self.served[index]
    }

    /// The bytes of one of its reads, cut from the bytes of the range. Only memory refuses.
    pub fn slice_of(
        &self,
        alloc: Global,
        buffer: &ByteBuffer,
        index: usize,
    ) -> Result<ByteBuffer, AllocError>
        requires whole { length buffer.now.bytes ≡ self.now.end - self.now.start }
        requires listed { index < length self.now.reads }
        ensures { IfOk result (λ b. (r : ReadRequest) → slice_get self.now.reads index ≡ Some r →
            b ≡ record {
              bytes = bytes_at buffer.now.bytes (r.offset - self.now.start) r.length;
              alignment = r.alignment;
            }) }
    {
        let _whole = buffer.len();
        let read = self.served_at(index);
        let start = (read.offset - self.from) as usize;
        let cut = buffer.slice(alloc, start..start + read.length)?;
        Ok(cut.aligned(read.alignment))
    }
}
