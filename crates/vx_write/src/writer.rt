//! Writes a file chunk by chunk, to a sink of its own.
ghost use Rattle.std.specs.Prelude.{◌≡◌, ◌-◌, ◌^◌, [], Err, IfOk, List, ℕ, Option, true, min};
ghost use Rattle.vx_data.specs.Dtype.{Dtype, dtype_view};
ghost use Rattle.vx_footer.specs.declared.write_error.WriteError.TheVariants.{WriterFailed, WriteFault};
ghost use Rattle.vx_rows.specs.Rows.{Rows, column_view};
ghost use Rattle.vx_write.specs.Leaves.{held_size};
ghost use Rattle.vx_write.specs.Options.{Options};
ghost use Rattle.vx_write.specs.Taken.{SinkCause, Checked};
ghost use Rattle.vx_write.specs.ChunkSources.{SameChunks};
ghost use Rattle.vx_write.specs.Writers.{HasPushed, Pushes, PushesStream, Closes};
ghost use Rattle.vx_write.specs.Written.{begin_checks};

use crate::chunk_source::{ChunkError, ChunkSource};
use crate::field_texts::has_texts;
use crate::file_writer::FileWriter;
use crate::options::VortexWriteOptions;
use crate::sound_writer::SoundWriter;
use crate::summary::WriteSummary;
use std::alloc::Global;
use vx_base::Sink;
use vx_data::DType;
use vx_footer::WriteError;
use vx_rows::Column;

/// Writes a file of rows chunk by chunk, to a sink that it owns. From the first byte on that the sink took, a
/// refusal leaves the writer broken: it then answers that it failed.
#[derive(Drop)]
pub struct Writer<O: Sink> {
    out: O,
    state: SoundWriter,
}

/// A writer of a file, to which nothing was written.
fn begun(
    alloc: Global,
    options: VortexWriteOptions,
    dtype: DType,
) -> Result<SoundWriter, WriteError>
    ensures begun { IfOk result (λ w. (gained : Option (List ℕ)) → HasPushed options (dtype_view dtype) [] gained w gained) }
    ensures checked { Checked result (begin_checks options (dtype_view dtype)) }
    ensures fault { result ≡ Err WriteFault → ⊥ }
{
    options.are_told();
    has_texts(&dtype);
    match FileWriter::begin(alloc, options, dtype) {
        Ok(writer) => Ok(SoundWriter::new(writer)),
        Err(error) => Err(error),
    }
}

impl VortexWriteOptions {
    /// A writer of a file of rows of a type to a sink, to which nothing is written yet. Refuses bad metadata, then an
    /// array that is needed and not permitted, and then too deep a type; the sink is dropped then, as it was.
    pub fn writer<O: Sink>(
        self,
        alloc: Global,
        out: O,
        dtype: DType,
    ) -> Result<Writer<O>, WriteError>
        ensures begun { IfOk result (λ w. HasPushed self (dtype_view dtype) [] (O.state out).gained w.state (O.state w.out).gained) }
        ensures still { IfOk result (λ w. w.out ≡ out) }
        ensures checked { Checked result (begin_checks self (dtype_view dtype)) }
        ensures fault { result ≡ Err WriteFault → ⊥ }
    {
        match begun(alloc, self, dtype) {
            Ok(state) => Ok(Writer { out, state }),
            Err(error) => Err(error),
        }
    }
}

impl<O: Sink> Writer<O> {
    /// Writes a chunk, but for the rows that fill no chunk of a leaf. Refuses it where the writer is broken, then where
    /// it is of another type, and then where there would be too many rows.
    pub fn push(&mut self, alloc: Global, chunk: &Column) -> Result<(), WriteError>
        ensures pushes { (o : Options) (d : Dtype) (past : List Rows) (start : Option (List ℕ)) →
            HasPushed o d past start self.old.state (O.state self.old.out).gained
            → Pushes o d past (column_view chunk.now) start self.new.state (O.state self.new.out).gained result }
        ensures failed { self.old.state.failed ≡ true → result ≡ Err WriterFailed }
        ensures still { self.old.state.failed ≡ true → (self.new.state ≡ self.old.state) × (O.state self.new.out ≡ O.state self.old.out) }
        ensures cause { SinkCause (O.state self.old.out) (O.state self.new.out) result }
    {
        let pushed = self.state.push(alloc, &mut self.out, chunk);
        self.state.note();
        pushed
    }

    /// Writes the chunks of a source, each as it comes, until none comes. Where the source fails behind some, these are
    /// pushed, and the writer is broken if the sink took a byte. A broken writer asks the source for nothing.
    pub fn push_stream<I: ChunkSource>(
        &mut self,
        alloc: Global,
        chunks: &mut I,
    ) -> Result<(), WriteError>
        ensures pushes { (o : Options) (d : Dtype) (past : List Rows) (start : Option (List ℕ)) →
            HasPushed o d past start self.old.state (O.state self.old.out).gained
            → PushesStream o d past start (I.state chunks.old) (I.state chunks.new) self.new.state (O.state self.new.out).gained result }
        ensures failed { self.old.state.failed ≡ true → result ≡ Err WriterFailed }
        ensures still { self.old.state.failed ≡ true → (self.new ≡ self.old) × (chunks.new ≡ chunks.old) }
        ensures same { SameChunks (I.state chunks.old) (I.state chunks.new) }
        ensures cause { SinkCause (O.state self.old.out) (O.state self.new.out) result }
    {
        if self.state.is_broken() {
            return Err(WriteError::WriterFailed);
        }
        for _ in 0..u64::MAX {
            match chunks.next_chunk(alloc) {
                Ok(Some(chunk)) => match self.push(alloc, &chunk) {
                    Ok(()) => {}
                    Err(error) => return Err(error),
                },
                Ok(None) => return Ok(()),
                Err(ChunkError::Failed) => {
                    self.state.break_off();
                    return Err(WriteError::ChunkFault);
                }
                Err(ChunkError::OutOfMemory) => {
                    self.state.break_off();
                    return Err(WriteError::OutOfMemory);
                }
            }
        }
        self.state.break_off();
        Err(WriteError::OutOfMemory)
    }

    /// How many bytes the sink took.
    pub fn bytes_written(&self) -> u64
        ensures { result ≡ self.now.state.output.taken }
    {
        self.state.bytes_written()
    }

    /// How many bytes the rows that are held back take, written plainly, at most 2^64 - 1.
    pub fn buffered_bytes(&self) -> u64
        ensures { result ≡ min (held_size self.now.state.held.now) (2 ^ 64 - 1) }
    {
        self.state.buffered_bytes()
    }

    /// Writes the rows that are held back and the footer, and flushes; gives the sink back. Refuses it where the writer
    /// is broken.
    pub fn finish(self, alloc: Global) -> (O, Result<WriteSummary, WriteError>)
        ensures closes { (o : Options) (d : Dtype) (past : List Rows) (start : Option (List ℕ)) → HasPushed o d past start self.state (O.state self.out).gained
            → Closes o d past start (O.state result.0) result.1 }
        ensures failed { self.state.failed ≡ true → result.1 ≡ Err WriterFailed }
        ensures still { self.state.failed ≡ true → O.state result.0 ≡ O.state self.out }
        ensures cause { SinkCause (O.state self.out) (O.state result.0) result.1 }
    {
        let Writer { out, state } = self;
        let mut out = out;
        let finished = state.finish(alloc, &mut out);
        (out, finished)
    }

    /// The sink, as it is. The file is not finished.
    pub fn into_inner(self) -> O
        ensures { result ≡ self.out }
    {
        let Writer { out, state: _ } = self;
        out
    }
}
