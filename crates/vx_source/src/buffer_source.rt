//! The segments of a file in memory.
ghost use Rattle.std.specs.Prelude.{◌≡◌, ◌+◌, nat_le};
ghost use Rattle.vx_base.specs.Checks.{Gives};
ghost use Rattle.vx_source.specs.Sources.{IsFileInMemory, in_memory, segment_in, tells};

use crate::{SegmentSource, SourceError};
use std::alloc::Global;
use std::marker::Model;
use vx_base::{ByteBuffer, SegmentId, SegmentSpec};

/// A file in memory, and its segments.
#[derive(Drop)]
pub struct BufferSegmentSource {
    buffer: ByteBuffer,
    segments: Vec<SegmentSpec>,
}

impl Model for BufferSegmentSource {
    ghost use Rattle.vx_source.specs.Sources.{FileInMemory};

    ghost Value = { FileInMemory };

    ghost view = { λ s. record { buffer = s.buffer; table = s.segments.items } };
}

/// Whether a segment ends within so many bytes.
fn ends_within(spec: &SegmentSpec, size: u64) -> bool
    ensures { result ≡ nat_le (spec.now.offset + spec.now.length) size }
{
    spec.offset <= size && u64::from(spec.length) <= size - spec.offset
}

impl BufferSegmentSource {
    /// The segments of a table in the bytes of a file.
    pub fn new(buffer: ByteBuffer, segments: Vec<SegmentSpec>) -> BufferSegmentSource
        ensures { result ≡ record { buffer = buffer; table = segments.items } }
    {
        BufferSegmentSource { buffer, segments }
    }

    /// The bytes of a segment, shared.
    pub fn request(&self, alloc: Global, id: SegmentId) -> Result<ByteBuffer, SourceError>
        ensures { Gives tells (λ b. b) result (segment_in self.now id.0) }
    {
        let Some(spec) = self.segments.get(id.0 as usize) else {
            return Err(SourceError::MissingSegment);
        };
        if !ends_within(spec, self.buffer.len() as u64) {
            return Err(SourceError::PastEnd);
        }
        let from = spec.offset as usize;
        let bytes = self.buffer.slice(alloc, from..from + spec.length as usize)?;
        Ok(bytes.aligned(spec.alignment))
    }
}

impl SegmentSource for BufferSegmentSource {
    ghost state = { in_memory };

    ghost serves = { IsFileInMemory };

    ghost never_fails = { IsFileInMemory };

    fn segment(&mut self, alloc: Global, id: SegmentId) -> Result<ByteBuffer, SourceError> {
        self.request(alloc, id)
    }
}
