//! Writes the chunks of leaves, each as one segment.
ghost use Rattle.std.specs.Prelude.{◌≡◌, ℕ, ◌<◌, ◌≤◌, ◌^◌, ◌∷◌, ◌++◌, [], List, Option, Ok, Err, true, OnOk, OnErr, IfOk, IfErr, length, map, string_bytes};
ghost use Rattle.vx_footer.specs.declared.write_error.WriteError.TheVariants.{WriteFault, OutOfMemory};
ghost use Rattle.vx_rows.specs.Rows.{column_view, rows_len};
ghost use Rattle.vx_rows.specs.Encoded.{is_permitted, array_bytes};
ghost use Rattle.vx_write.specs.Chunks.{leaf_view, chunks_view, last_seen};
ghost use Rattle.vx_write.specs.Leaves.{ChunkRows, chunk_at, chunks_at};
ghost use Rattle.vx_write.specs.Placed.{Place, Wrote, Failed, IsAlive};
ghost use Rattle.vx_write.specs.Sending.{Coding, encoded_chunk, encoded_chunks, chunk_checks, chunks_checks, Going, Goes};
ghost use Rattle.vx_write.specs.Taken.{SinkCause, Checked};

use crate::chunks::Parts;
use crate::held_leaves::LeafChunks;
use crate::output::Output;
use std::alloc::Global;
use std::marker::Model;
use vx_base::{Alignment, ByteBuffer, Sink};
use vx_footer::WriteError;
use vx_rows::{Column, EncodeError, encode_array};

/// How chunks are encoded: by these ids of arrays, at this alignment.
#[derive(Drop)]
pub(crate) struct ChunkCoding {
    ids: Vec<String>,
    alignment: Alignment,
}

impl Model for ChunkCoding {
    ghost use Rattle.std.specs.Prelude.{◌≤◌, length, map, string_bytes};
    ghost use Rattle.vx_write.specs.Sending.{Coding};

    ghost Value = { Coding };

    ghost view = { λ c. record { ids = map string_bytes c.ids.items; alignment = c.alignment } };

    ghost invariant = { λ c. length c.ids.items ≤ 65536 };
}

impl ChunkCoding {
    /// A coding by these ids, of which there are at most 65,536, at this alignment.
    pub(crate) fn new(ids: Vec<String>, alignment: Alignment) -> ChunkCoding
        requires { length ids.items ≤ 65536 }
        ensures { result ≡ record { ids = map string_bytes ids.items; alignment = alignment } }
    {
        ChunkCoding { ids, alignment }
    }

    /// The ids of arrays.
    pub(crate) fn ids(&self) -> &[String]
        ensures value { map string_bytes result.now ≡ self.now.ids }
        ensures few { length result.now ≤ 65536 }
    {
        &self.ids
    }

    /// The alignment of segments.
    pub(crate) fn alignment(&self) -> Alignment
        ensures { result ≡ self.now.alignment }
    {
        self.alignment
    }
}

/// The bytes of a chunk. Refuses a chunk with an array that is not permitted, and behind so many segments one of
/// more than 2^32 - 1 bytes, or any where there are as many segments as there may be.
fn encode(
    alloc: Global,
    coding: &ChunkCoding,
    output: &Output,
    leaf: usize,
    rows: &Column,
) -> Result<ByteBuffer, WriteError>
    ensures ok { IfOk result (λ b. b ≡ (encoded_chunk coding.now (chunk_at leaf (column_view rows.now))).buffer) }
    ensures permitted { OnOk result (is_permitted coding.now.ids (column_view rows.now) ≡ true) }
    ensures checked { IfErr result (λ e. (e ≡ OutOfMemory → ⊥) → chunk_checks coding.now output.now (chunk_at leaf (column_view rows.now)) ≡ Err e) }
    ensures fault { result ≡ Err WriteFault → ⊥ }
{
    match encode_array(alloc, rows, coding.ids()) {
        Ok(bytes) => Ok(bytes.aligned(coding.alignment())),
        Err(EncodeError::NotPermitted) => Err(WriteError::NotPermitted),
        Err(EncodeError::SegmentTooLong) => Err(output.too_long()),
        Err(EncodeError::OutOfMemory) => Err(WriteError::OutOfMemory),
    }
}

/// Writes a chunk of a leaf behind those before it.
fn write_chunk<S: Sink>(
    alloc: Global,
    out: &mut S,
    coding: &ChunkCoding,
    output: &mut Output,
    leaf: usize,
    rows: &Column,
) -> Result<(), WriteError>
    requires { IsAlive output.old }
    ensures ok { OnOk result
        (Wrote output.old (encoded_chunk coding.now (chunk_at leaf (column_view rows.now)) ∷ []) (S.state out.old).gained output.new
        (S.state out.new).gained) }
    ensures err { OnErr result
        (Failed output.old (encoded_chunk coding.now (chunk_at leaf (column_view rows.now)) ∷ []) (S.state out.old).gained output.new
        (S.state out.new).gained) }
    ensures checked { Checked result (chunk_checks coding.now output.old (chunk_at leaf (column_view rows.now))) }
    ensures cause { SinkCause (S.state out.old) (S.state out.new) result }
{
    let buffer = match encode(alloc, coding, output, leaf, rows) {
        Ok(buffer) => buffer,
        Err(error) => return Err(error),
    };
    match output.write_chunk(alloc, out, leaf, rows.len() as u64, &buffer) {
        Ok(()) => Ok(()),
        Err(error) => Err(error),
    }
}

/// Writes the chunk of a leaf that is made, where there is one, behind those before it.
fn write_made<S: Sink>(
    alloc: Global,
    out: &mut S,
    coding: &ChunkCoding,
    output: &mut Output,
    leaf: usize,
    made: &Option<Column>,
) -> Result<(), WriteError>
    requires { IsAlive output.old }
    ensures going { (p : Place) (all rest : List ChunkRows) (g : Option (List ℕ)) →
        Going coding.now p all (chunks_at leaf (last_seen made.now) ++ rest) g output.old (S.state out.old).gained →
        Goes coding.now p all rest g output.new (S.state out.new).gained result }
    ensures alive { OnOk result (IsAlive output.new) }
    ensures cause { SinkCause (S.state out.old) (S.state out.new) result }
{
    match made {
        None => Ok(()),
        Some(rows) => match write_chunk(alloc, out, coding, output, leaf, rows) {
            Ok(()) => Ok(()),
            Err(error) => Err(error),
        },
    }
}

/// Writes the chunks of a leaf that are parts of a column, each as it is cut, behind those before them.
fn write_cut<S: Sink>(
    alloc: Global,
    out: &mut S,
    coding: &ChunkCoding,
    output: &mut Output,
    leaf: usize,
    parts: &Parts,
) -> Result<(), WriteError>
    requires { IsAlive output.old }
    ensures going { (p : Place) (all rest : List ChunkRows) (g : Option (List ℕ)) →
        Going coding.now p all (chunks_at leaf parts.now ++ rest) g output.old (S.state out.old).gained →
        Goes coding.now p all rest g output.new (S.state out.new).gained result }
    ensures cause { SinkCause (S.state out.old) (S.state out.new) result }
{
    for at in 0..parts.len() {
        let rows = match parts.part(alloc, at) {
            Ok(rows) => rows,
            Err(_) => return Err(WriteError::OutOfMemory),
        };
        match write_chunk(alloc, out, coding, output, leaf, &rows) {
            Ok(()) => {}
            Err(error) => return Err(error),
        }
    }
    Ok(())
}

/// Writes the chunks of a leaf, one behind the other, behind those before them.
fn write_leaf<S: Sink>(
    alloc: Global,
    out: &mut S,
    coding: &ChunkCoding,
    output: &mut Output,
    chunks: &LeafChunks,
) -> Result<(), WriteError>
    requires { IsAlive output.old }
    // Of chunks that were to be written from a place on, of which these are the next ones, those behind them are left, or they
    // were written in part, as far as the checks and the sink let them.
    ensures going { (p : Place) (all rest : List ChunkRows) (g : Option (List ℕ)) →
        Going coding.now p all (leaf_view chunks.now ++ rest) g output.old (S.state out.old).gained →
        Goes coding.now p all rest g output.new (S.state out.new).gained result }
    ensures cause { SinkCause (S.state out.old) (S.state out.new) result }
{
    let leaf = chunks.leaf;
    match write_made(alloc, out, coding, output, leaf, &chunks.chunks.first) {
        Ok(()) => {}
        Err(error) => return Err(error),
    }
    match &chunks.chunks.others {
        None => Ok(()),
        Some(parts) => match write_cut(alloc, out, coding, output, leaf, parts) {
            Ok(()) => Ok(()),
            Err(error) => Err(error),
        },
    }
}

/// Writes the chunks of leaves, one behind the other, behind those before them.
pub(crate) fn write_chunks<S: Sink>(
    alloc: Global,
    out: &mut S,
    coding: &ChunkCoding,
    output: &mut Output,
    chunks: &[LeafChunks],
) -> Result<(), WriteError>
    requires { IsAlive output.old }
    ensures ok { OnOk result
        (Wrote output.old (encoded_chunks coding.now (chunks_view chunks.now)) (S.state out.old).gained output.new
        (S.state out.new).gained) }
    ensures err { OnErr result
        (Failed output.old (encoded_chunks coding.now (chunks_view chunks.now)) (S.state out.old).gained output.new
        (S.state out.new).gained) }
    ensures checked { Checked result (chunks_checks coding.now output.old (chunks_view chunks.now)) }
    ensures cause { SinkCause (S.state out.old) (S.state out.new) result }
{
    for at in 0..chunks.len() {
        match write_leaf(alloc, out, coding, output, &chunks[at]) {
            Ok(()) => {}
            Err(error) => return Err(error),
        }
    }
    Ok(())
}
