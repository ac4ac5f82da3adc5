//! What is asked of a reader in one range.
ghost use Rattle.std.specs.Prelude.{◌≡◌, ℕ, ◌==◌, ◌∷◌, [], None};
ghost use Rattle.vx_sched.specs.Io.{io_offset, io_len, io_alignment, io_range, request_of};
ghost use Rattle.vx_sched.specs.Merging.{span_of};
ghost use Rattle.vx_sched.specs.declared.request.ReadRequest.{ReadRequest};

use crate::{CoalescedRequest, ReadRequest};
use vx_base::{Alignment, ReadAtRequest};

/// A range for one read alone, or for the reads of a span.
#[derive(Drop)]
pub enum IoRequest {
    Single(ReadRequest),
    Coalesced(CoalescedRequest),
}

impl IoRequest {
    /// Where the range begins.
    pub fn offset(&self) -> u64
        ensures { result ≡ io_offset self.now }
    {
        match self {
            IoRequest::Single(read) => read.offset,
            IoRequest::Coalesced(span) => span.range().start,
        }
    }

    /// The number of bytes.
    pub fn len(&self) -> usize
        ensures { result ≡ io_len self.now }
    {
        match self {
            IoRequest::Single(read) => read.length,
            IoRequest::Coalesced(span) => {
                let range = span.range();
                (range.end - range.start) as usize
            }
        }
    }

    /// Whether there are no bytes.
    pub fn is_empty(&self) -> bool
        ensures { result ≡ (io_len self.now == 0) }
    {
        self.len() == 0
    }

    /// The alignment that the bytes are to claim: that of the read, or that of the span.
    pub fn alignment(&self) -> Alignment
        ensures { result ≡ io_alignment self.now }
    {
        match self {
            IoRequest::Single(read) => read.alignment,
            IoRequest::Coalesced(span) => span.alignment(),
        }
    }

    /// The range that is asked of a reader.
    pub fn range(&self) -> ReadAtRequest
        ensures { result ≡ io_range self.now }
    {
        ReadAtRequest {
            offset: self.offset(),
            length: self.len(),
            alignment: self.alignment(),
        }
    }
}

/// The range that a taken span is asked as: the whole span with the greatest alignment, and without a
/// distance its single read with its own offset, length and alignment.
pub fn request_of(span: &CoalescedRequest) -> ReadAtRequest
    ensures value { result ≡ request_of span.now }
    ensures single { (alignment : ℕ) (r : ReadRequest) → span.now ≡ span_of None alignment (r ∷ []) →
        result ≡ io_range (IoRequest.Single r) }
{
    let range = span.range();
    ReadAtRequest {
        offset: range.start,
        length: (range.end - range.start) as usize,
        alignment: span.alignment(),
    }
}
