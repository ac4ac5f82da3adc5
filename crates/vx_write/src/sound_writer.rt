//! A writer of a file, with what each of its calls keeps.
ghost use Rattle.std.specs.Prelude.{◌≡◌, ◌-◌, ◌<◌, ◌^◌, [], Err, List, ℕ, Option, true, min};
ghost use Rattle.vx_data.specs.Dtype.{Dtype};
ghost use Rattle.vx_footer.specs.declared.write_error.WriteError.TheVariants.{WriterFailed};
ghost use Rattle.vx_rows.specs.Rows.{Rows, column_view};
ghost use Rattle.vx_write.specs.Leaves.{held_size};
ghost use Rattle.vx_write.specs.Options.{Options};
ghost use Rattle.vx_write.specs.Standing.{IsSound, Stands, Pushed, Finished};
ghost use Rattle.vx_write.specs.Taken.{SinkCause};

use crate::file_writer::FileWriter;
use crate::summary::WriteSummary;
use std::alloc::Global;
use std::marker::Model;
use vx_base::Sink;
use vx_footer::WriteError;
use vx_rows::Column;

/// A writer of a file, which contracts see as it is, and as sound.
#[derive(Drop)]
pub(crate) struct SoundWriter {
    writer: FileWriter,
}

impl Model for SoundWriter {
    ghost use Rattle.std.specs.Coded.{codes};
    ghost use Rattle.vx_data.specs.contracts.dtype.DType as dtype;
    ghost use Rattle.vx_write.specs.LeafCodes.{states_code};
    ghost use Rattle.vx_write.specs.contracts.plan.Plan as plan;
    ghost use Rattle.vx_write.specs.declared.file_writer.FileWriter.{FileWriter};
    ghost use Rattle.vx_write.specs.Standing.{IsSound};

    ghost Value = { FileWriter };

    ghost coded = { Prim.hlevel (codes, dtype.the_row.coded, plan.the_row.coded, states_code) };

    ghost view = { λ w. w.writer };

    ghost invariant = { λ w. IsSound w.writer };
}

impl SoundWriter {
    /// A writer that is sound.
    pub(crate) fn new(writer: FileWriter) -> SoundWriter
        requires { IsSound writer }
        ensures { result ≡ writer }
    {
        SoundWriter { writer }
    }

    /// Writes a chunk, as `FileWriter` does.
    pub(crate) fn push<S: Sink>(
        &mut self,
        alloc: Global,
        out: &mut S,
        chunk: &Column,
    ) -> Result<(), WriteError>
        ensures pushed { (o : Options) (d : Dtype) (past : List Rows) (start : Option (List ℕ)) → Stands o d past start self.old (S.state out.old).gained
            → Pushed o d past (column_view chunk.now) start self.new (S.state out.new).gained result }
        ensures failed { self.old.failed ≡ true → result ≡ Err WriterFailed }
        ensures still { self.old.failed ≡ true → (self.new ≡ self.old) × (S.state out.new ≡ S.state out.old) }
        ensures cause { SinkCause (S.state out.old) (S.state out.new) result }
    {
        self.writer.push(alloc, out, chunk)
    }

    /// Whether an earlier call was refused after a byte was written.
    pub(crate) fn is_broken(&self) -> bool
        ensures { result ≡ self.now.failed }
    {
        self.writer.failed
    }

    /// Breaks the writer, where the sink took a byte of it.
    #[tactic(auto, using(crate::proofs::WriterLemmas::broken_sound))]
    pub(crate) fn break_off(&mut self)
        ensures untouched { self.old.output.taken ≡ 0 → self.new ≡ self.old }
        ensures begun { 0 < self.old.output.taken → self.new ≡ record self.old { failed = true } }
    {
        if self.writer.bytes_written() != 0 {
            self.writer.failed = true;
        }
    }

    /// Writes the rest, as `FileWriter` does.
    pub(crate) fn finish<S: Sink>(
        self,
        alloc: Global,
        out: &mut S,
    ) -> Result<WriteSummary, WriteError>
        ensures finished { (o : Options) (d : Dtype) (past : List Rows) (start : Option (List ℕ)) → Stands o d past start self (S.state out.old).gained
            → Finished o d past start (S.state out.new) result }
        ensures failed { self.failed ≡ true → result ≡ Err WriterFailed }
        ensures still { self.failed ≡ true → S.state out.new ≡ S.state out.old }
        ensures cause { SinkCause (S.state out.old) (S.state out.new) result }
    {
        self.writer.finish(alloc, out)
    }

    /// How many bytes the sink took.
    pub(crate) fn bytes_written(&self) -> u64
        ensures { result ≡ self.now.output.taken }
    {
        self.writer.bytes_written()
    }

    /// How many bytes the rows that are held back take, written plainly, at most 2^64 - 1.
    pub(crate) fn buffered_bytes(&self) -> u64
        ensures { result ≡ min (held_size self.now.held.now) (2 ^ 64 - 1) }
    {
        self.writer.buffered_bytes()
    }

    /// Tells the tracker of the options how many bytes are held back.
    pub(crate) fn note(&self) {
        self.writer
            .options
            .note_buffered(self.writer.buffered_bytes());
    }
}
