//! Writes segments one behind the other, and keeps where they lie.
ghost use Rattle.std.specs.Prelude.{List, ◌≡◌, ◌≤◌, ◌<◌, ◌^◌, ◌++◌, ◌%◌, ◌-◌, [], Err, IfOk, IfSome, IfNone, true, length, replicate};
ghost use Rattle.std.specs.List.{flat_map};
ghost use Rattle.vx_base.specs.Checks.{Gives};
ghost use Rattle.vx_base.specs.Streams.{SameSink};
ghost use Rattle.vx_base.specs.declared.segment.SegmentSpec.{SegmentSpec};
ghost use Rattle.vx_footer.specs.Serialized.{joined};
ghost use Rattle.vx_footer.specs.PostscriptWritten.{FailsToWrite};
ghost use Rattle.vx_footer.specs.declared.write_error.WriteError.TheVariants.{WriteFault};
ghost use Rattle.vx_write.specs.Sinks.{are_laid, alignment_of, zeros_before, spec_of, behind, place_checks, WritesSegment, error_of_sink};

use std::alloc::{AllocError, Global};
use std::marker::Model;
use vx_base::{Alignment, ByteBuffer, SegmentId, SegmentSpec, Sink, SinkError, write_pieces};
use vx_footer::{WriteError, padding};

/// The most segments that a file may have.
pub(crate) const MOST_SEGMENTS: usize = 4_294_967_295;

/// Where a segment is to lie: its place, how many zeros stand before it, and the offset behind it.
#[derive(Clone, Copy, Debug, PartialEq, Eq)]
pub(crate) struct Placing {
    pub(crate) spec: SegmentSpec,
    pub(crate) zeros: u64,
    pub(crate) next: u64,
}

/// Writes segments one behind the other, each at a multiple of its alignment, and keeps where they lie.
#[derive(Debug, Drop)]
pub struct BufferedSegmentSink {
    specs: Vec<SegmentSpec>,
    offset: u64,
}

impl Model for BufferedSegmentSink {
    ghost use Rattle.std.specs.Prelude.{◌≡◌, true};
    ghost use Rattle.vx_write.specs.Sinks.{Segments, are_laid};

    ghost Value = { Segments };

    ghost view = { λ a. record { specs = a.specs.items; offset = a.offset } };

    ghost invariant = { λ a. are_laid 0 a.specs.items a.offset ≡ true };
}

/// How many bytes buffers have, where that is at most 2^32 - 1.
fn size_of(buffers: &[ByteBuffer]) -> Option<u32>
    ensures some { IfSome result (λ size. size ≡ length (joined buffers.now)) }
    ensures none { IfNone result (2 ^ 32 ≤ length (joined buffers.now)) }
{
    let mut size: u32 = 0;
    for buffer in buffers {
        if buffer.len() > (u32::MAX - size) as usize {
            return None;
        }
        size += buffer.len() as u32;
    }
    Some(size)
}

/// The alignment of the first buffer, or none.
fn first_alignment(buffers: &[ByteBuffer]) -> Alignment
    ensures { result ≡ alignment_of buffers.now }
{
    match buffers.first() {
        Some(buffer) => buffer.alignment(),
        None => Alignment::none(),
    }
}

/// So many zeros.
fn zeros(alloc: Global, count: u64) -> Result<Vec<u8>, AllocError>
    ensures { IfOk result (λ zeros. zeros.items ≡ replicate count 0) }
{
    vec![in alloc; 0; count as usize]
}

/// Zeros, and the bytes of buffers behind them.
pub(crate) fn pieces_of<'a>(
    alloc: Global,
    zeros: &'a [u8],
    buffers: &'a [ByteBuffer],
) -> Result<Vec<&'a [u8]>, AllocError>
    ensures { IfOk result (λ pieces. flat_map (λ piece. piece.now) pieces.items ≡ zeros.now ++ joined buffers.now) }
{
    let mut pieces = Vec::new(alloc);
    pieces.push(zeros)?;
    for buffer in buffers {
        pieces.push(buffer.as_slice())?;
    }
    Ok(pieces)
}

pub(crate) fn error_of(error: SinkError) -> WriteError
    ensures { result ≡ error_of_sink error }
{
    match error {
        SinkError::Failed => WriteError::WriteFault,
        SinkError::OutOfMemory => WriteError::OutOfMemory,
    }
}

/// Where the segment of buffers is to lie, behind so many segments and this offset.
#[tactic(auto, unfolding(crate::specs::Sinks::place_checks))]
pub(crate) fn place(count: usize, start: u64, buffers: &[ByteBuffer]) -> Result<Placing, WriteError>
    ensures checked { (specs : List SegmentSpec) → count ≡ length specs
        → Gives FailsToWrite (λ _. tt) result (place_checks buffers.now (record { specs = specs; offset = start })) }
    ensures spec { IfOk result (λ placing. placing.spec ≡ spec_of start buffers.now) }
    ensures zeros { IfOk result (λ placing. placing.zeros ≡ zeros_before start buffers.now) }
    ensures next { IfOk result (λ placing. placing.next ≡ behind start buffers.now) }
    ensures aligned { IfOk result (λ placing. placing.spec.offset % 2 ^ placing.spec.alignment ≡ 0) }
    ensures few { IfOk result (λ _. count < 2 ^ 32 - 1) }
{
    if count >= MOST_SEGMENTS {
        return Err(WriteError::TooManySegments);
    }
    let Some(length) = size_of(buffers) else {
        return Err(WriteError::SegmentTooLong);
    };
    let alignment = first_alignment(buffers);
    let zeros = padding(alignment, start);
    if u64::MAX - start < zeros + u64::from(length) {
        return Err(WriteError::OffsetOverflow);
    }
    let offset = start + zeros;
    Ok(Placing {
        spec: SegmentSpec {
            offset,
            length,
            alignment,
        },
        zeros,
        next: offset + u64::from(length),
    })
}

impl BufferedSegmentSink {
    /// No segment yet. The first begins at or after this offset.
    pub fn new(alloc: Global, byte_offset: u64) -> Result<BufferedSegmentSink, AllocError>
        ensures { IfOk result (λ sink. sink ≡ record { specs = []; offset = byte_offset }) }
    {
        Ok(BufferedSegmentSink {
            specs: Vec::new(alloc),
            offset: byte_offset,
        })
    }

    /// Where the segments lie, in order of their numbers.
    pub fn segment_specs(&self) -> &[SegmentSpec]
        ensures value { result.now ≡ self.now.specs }
        ensures laid { are_laid 0 self.now.specs self.now.offset ≡ true }
    {
        &self.specs
    }

    /// The offset behind the last segment.
    pub fn byte_offset(&self) -> u64
        ensures { result ≡ self.now.offset }
    {
        self.offset
    }

    /// Writes the segment of buffers: zeros up to a multiple of the first one's alignment, and their bytes.
    /// Refuses more than 2^32 - 1 segments, a segment of more than 2^32 - 1 bytes, and an end past the offset
    /// 2^64 - 1, before any byte. After a refusal the segments are as before.
    pub fn write<O: Sink>(
        &mut self,
        alloc: Global,
        out: &mut O,
        buffers: &[ByteBuffer],
    ) -> Result<SegmentId, WriteError>
        ensures cause { WritesSegment buffers.now self.old self.new (O.state out.old) (O.state out.new) result }
        ensures sound { (O.state out.old).never_fails ≡ true → (result ≡ Err WriteFault → ⊥) × ((O.state out.new).faults ≡ (O.state out.old).faults) }
        ensures same { SameSink (O.state out.old) (O.state out.new) }
    {
        let placing = place(self.specs.len(), self.offset, buffers)?;
        let zeros = zeros(alloc, placing.zeros)?;
        let pieces = pieces_of(alloc, &zeros, buffers)?;
        self.specs.reserve(1)?;
        match write_pieces(alloc, out, &pieces) {
            Ok(()) => {}
            Err(error) => return Err(error_of(error)),
        }
        let id = SegmentId(self.specs.len() as u32);
        self.specs.push_reserved(placing.spec);
        self.offset = placing.next;
        Ok(id)
    }
}
