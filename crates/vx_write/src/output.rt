//! Writes the chunks of a file behind its magic, and keeps where they lie.
ghost use Rattle.std.specs.Prelude.{◌≡◌, ◌+◌, ◌≤◌, ◌<◌, ◌^◌, ◌++◌, ◌∷◌, [], Ok, Err, OnOk, OnErr, IfOk, length, replicate, map};
ghost use Rattle.std.specs.List.{flat_map};
ghost use Rattle.vx_footer.specs.Serialized.{joined};
ghost use Rattle.vx_base.specs.Buffer.{Buffer};
ghost use Rattle.vx_footer.specs.declared.write_error.WriteError.TheVariants.{WriteFault};
ghost use Rattle.vx_write.specs.Sinks.{place_checks};
ghost use Rattle.vx_write.specs.Taken.{TookAll, TookPart, SinkCause, Checked};
ghost use Rattle.vx_write.specs.Placed.{Place, first_place, lead as lead_of_file, segments_in, Wrote, Failed, IsAlive};

use crate::counted::write_parts;
use crate::laid_chunk::Laid;
use crate::segment_sink::{MOST_SEGMENTS, pieces_of, place};
use std::alloc::{AllocError, Global};
use std::array;
use std::marker::Model;
use vx_base::{ByteBuffer, SegmentSpec, Sink};
use vx_footer::WriteError;

/// Where the first chunk may begin: behind the magic.
const FIRST_OFFSET: u64 = 4;

/// What a file begins with.
const MAGIC: &[u8] = b"VTXF";

/// The chunks that lie in a file, the offset behind them, and how many bytes went out.
#[derive(Drop)]
pub(crate) struct Output {
    laid: Vec<Laid>,
    offset: u64,
    taken: u64,
}

impl Model for Output {
    ghost use Rattle.vx_write.specs.Placed.{Place};

    ghost Value = { Place };

    ghost view = { λ o. record { laid = o.laid.items; offset = o.offset; taken = o.taken } };
}

/// What goes out before other bytes, where so many went out: the magic before the first.
fn lead(taken: u64) -> &'static [u8]
    ensures { result.now ≡ lead_of_file taken }
{
    if taken == 0 { MAGIC } else { &[] }
}

/// The magic before the first bytes, and so many zeros.
fn front_of(alloc: Global, taken: u64, zeros: u64) -> Result<Vec<u8>, AllocError>
    ensures { IfOk result (λ front. front.items ≡ lead_of_file taken ++ replicate zeros 0) }
{
    let mut front = Vec::from_slice(alloc, lead(taken))?;
    let zeros = vec![in alloc; 0; zeros as usize]?;
    front.extend_from_slice(&zeros)?;
    Ok(front)
}

/// Writes buffers behind the magic, where no byte went out yet, and so many zeros.
pub(crate) fn write_led<S: Sink>(
    alloc: Global,
    out: &mut S,
    taken: &mut u64,
    zeros: u64,
    buffers: &[ByteBuffer],
) -> Result<(), WriteError>
    requires { taken.old + length (lead_of_file taken.old ++ (replicate zeros 0 ++ joined buffers.now)) < 2 ^ 64 }
    ensures ok { OnOk result
        (TookAll (lead_of_file taken.old ++ (replicate zeros 0 ++ joined buffers.now)) (S.state out.old).gained
        (S.state out.new).gained taken.old taken.new) }
    ensures err { OnErr result
        (TookPart (lead_of_file taken.old ++ (replicate zeros 0 ++ joined buffers.now)) (S.state out.old).gained
        (S.state out.new).gained taken.old taken.new) }
    ensures cause { SinkCause (S.state out.old) (S.state out.new) result }
    ensures only { Checked {B = Unit {0}} result (Ok tt) }
{
    let front = match front_of(alloc, *taken, zeros) {
        Ok(front) => front,
        Err(_) => return Err(WriteError::OutOfMemory),
    };
    let parts = match pieces_of(alloc, &front, buffers) {
        Ok(parts) => parts,
        Err(_) => return Err(WriteError::OutOfMemory),
    };
    match write_parts(alloc, out, taken, &parts) {
        Ok(()) => Ok(()),
        Err(error) => Err(error),
    }
}

/// Zeros that stand at hand.
static ZEROS: [u8; 64] = [0; 64];

/// So many zeros of those at hand.
fn few_zeros(count: usize) -> &'static [u8]
    requires { count ≤ 64 }
    ensures { result.now ≡ replicate count 0 }
{
    &ZEROS[..count]
}

/// Three pieces.
fn three<'a>(first: &'a [u8], second: &'a [u8], third: &'a [u8]) -> [&'a [u8]; 3]
    ensures { flat_map (λ part. part.now) result ≡ first.now ++ (second.now ++ (third.now ++ [])) }
{
    [first, second, third]
}

/// Writes a buffer as `write_led` does. Nearly always the zeros are few, and no memory is taken.
pub(crate) fn write_one<S: Sink>(
    alloc: Global,
    out: &mut S,
    taken: &mut u64,
    zeros: u64,
    buffer: &ByteBuffer,
) -> Result<(), WriteError>
    requires { taken.old + length (lead_of_file taken.old ++ (replicate zeros 0 ++ joined (buffer.now ∷ []))) < 2 ^ 64 }
    ensures ok { OnOk result
        (TookAll (lead_of_file taken.old ++ (replicate zeros 0 ++ joined (buffer.now ∷ []))) (S.state out.old).gained
        (S.state out.new).gained taken.old taken.new) }
    ensures err { OnErr result
        (TookPart (lead_of_file taken.old ++ (replicate zeros 0 ++ joined (buffer.now ∷ []))) (S.state out.old).gained
        (S.state out.new).gained taken.old taken.new) }
    ensures cause { SinkCause (S.state out.old) (S.state out.new) result }
    ensures only { Checked {B = Unit {0}} result (Ok tt) }
{
    if zeros > ZEROS.len() as u64 {
        return write_led(alloc, out, taken, zeros, array::from_ref(buffer));
    }
    let parts = three(lead(*taken), few_zeros(zeros as usize), buffer.as_slice());
    write_parts(alloc, out, taken, &parts)
}

impl Output {
    /// Nothing yet.
    pub(crate) fn new(alloc: Global) -> Output
        ensures { result ≡ first_place }
    {
        Output {
            laid: Vec::new(alloc),
            offset: FIRST_OFFSET,
            taken: 0,
        }
    }

    /// The chunks that lie in the file, in order.
    pub(crate) fn laid(&self) -> &[Laid]
        ensures { result.now ≡ self.now.laid }
    {
        &self.laid
    }

    /// The offset behind the chunks.
    pub(crate) fn offset(&self) -> u64
        ensures { result ≡ self.now.offset }
    {
        self.offset
    }

    /// How many bytes the sink took.
    pub(crate) fn taken(&self) -> u64
        ensures { result ≡ self.now.taken }
    {
        self.taken
    }

    /// Why a segment of more than 2^32 - 1 bytes is refused: it is one segment too many, or too long.
    #[tactic(auto, using(crate::proofs::PlacedLemmas::one_too_many, crate::proofs::PlacedLemmas::one_too_long))]
    pub(crate) fn too_long(&self) -> WriteError
        ensures long { (b : Buffer) → 2 ^ 32 ≤ length b.bytes → place_checks (b ∷ []) (segments_in self.now) ≡ Err result }
        ensures fault { result ≡ WriteFault → ⊥ }
    {
        if self.laid.len() >= MOST_SEGMENTS {
            return WriteError::TooManySegments;
        }
        WriteError::SegmentTooLong
    }

    /// Writes the segment of a chunk of a leaf, with so many rows. Refuses it as `place` does, before any byte.
    pub(crate) fn write_chunk<S: Sink>(
        &mut self,
        alloc: Global,
        out: &mut S,
        leaf: usize,
        rows: u64,
        buffer: &ByteBuffer,
    ) -> Result<(), WriteError>
        requires { IsAlive self.old }
        ensures ok { OnOk result
            (Wrote self.old (record { leaf = leaf; rows = rows; buffer = buffer.now } ∷ []) (S.state out.old).gained self.new
            (S.state out.new).gained) }
        ensures err { OnErr result
            (Failed self.old (record { leaf = leaf; rows = rows; buffer = buffer.now } ∷ []) (S.state out.old).gained self.new
            (S.state out.new).gained) }
        ensures checked { Checked result (place_checks (buffer.now ∷ []) (segments_in self.old)) }
        ensures cause { SinkCause (S.state out.old) (S.state out.new) result }
    {
        let buffers = array::from_ref(buffer);
        let placing = match place(self.laid.len(), self.offset, buffers) {
            Ok(placing) => placing,
            Err(error) => return Err(error),
        };
        match self.laid.reserve(1) {
            Ok(()) => {}
            Err(_) => return Err(WriteError::OutOfMemory),
        }
        match write_one(alloc, out, &mut self.taken, placing.zeros, buffer) {
            Ok(()) => {}
            Err(error) => return Err(error),
        }
        self.laid.push_reserved(Laid {
            spec: placing.spec,
            leaf,
            rows,
        });
        self.offset = placing.next;
        Ok(())
    }
}
