//! The same writing under the names of the blocking interface. Here each call blocks, so that nothing else differs.
ghost use Rattle.std.specs.Prelude.{◌≡◌, ◌-◌, ◌^◌, [], Err, IfOk, List, ℕ, Option, true, min};
ghost use Rattle.vx_data.specs.Dtype.{Dtype, dtype_view};
ghost use Rattle.vx_footer.specs.declared.write_error.WriteError.TheVariants.{WriterFailed, WriteFault};
ghost use Rattle.vx_rows.specs.Rows.{Rows, column_view};
ghost use Rattle.vx_write.specs.Leaves.{held_size};
ghost use Rattle.vx_write.specs.Options.{Options};
ghost use Rattle.vx_write.specs.Streamed.{Streams};
ghost use Rattle.vx_write.specs.Taken.{SinkCause, Checked};
ghost use Rattle.vx_write.specs.ChunkSources.{SameChunks};
ghost use Rattle.vx_write.specs.Writers.{HasPushed, Pushes, PushesStream, Closes};
ghost use Rattle.vx_write.specs.Written.{begin_checks};

use crate::chunk_source::ChunkSource;
use crate::options::VortexWriteOptions;
use crate::summary::WriteSummary;
use crate::writer::Writer;
use std::alloc::Global;
use vx_base::Sink;
use vx_data::DType;
use vx_footer::WriteError;
use vx_rows::Column;

/// Options with which a file is written.
#[derive(Drop)]
pub struct BlockingWrite {
    options: VortexWriteOptions,
}

/// Writes a file of rows chunk by chunk, as `Writer` does.
#[derive(Drop)]
pub struct BlockingWriter<O: Sink> {
    writer: Writer<O>,
}

impl VortexWriteOptions {
    /// The same options, under the names of the blocking interface.
    pub fn blocking(self) -> BlockingWrite
        ensures { result.options ≡ self }
    {
        BlockingWrite { options: self }
    }
}

impl BlockingWrite {
    /// Writes a file of rows of a type, which come in the chunks of a source, each as it comes.
    pub fn write<S: Sink, I: ChunkSource>(
        self,
        alloc: Global,
        out: &mut S,
        dtype: DType,
        chunks: &mut I,
    ) -> Result<WriteSummary, WriteError>
        ensures streams { Streams self.options (dtype_view dtype) (I.state chunks.old) (I.state chunks.new) (S.state out.old) (S.state out.new) result }
        ensures cause { SinkCause (S.state out.old) (S.state out.new) result }
    {
        self.options.write(alloc, out, dtype, chunks)
    }

    /// A writer of a file of rows of a type to a sink, to which nothing is written yet. It refuses what the options'
    /// own `writer` refuses.
    pub fn writer<O: Sink>(
        self,
        alloc: Global,
        out: O,
        dtype: DType,
    ) -> Result<BlockingWriter<O>, WriteError>
        ensures begun { IfOk result (λ w.
            HasPushed self.options (dtype_view dtype) [] (O.state out).gained w.writer.state (O.state w.writer.out).gained) }
        ensures still { IfOk result (λ w. w.writer.out ≡ out) }
        ensures checked { Checked result (begin_checks self.options (dtype_view dtype)) }
        ensures fault { result ≡ Err WriteFault → ⊥ }
    {
        match self.options.writer(alloc, out, dtype) {
            Ok(writer) => Ok(BlockingWriter { writer }),
            Err(error) => Err(error),
        }
    }
}

impl<O: Sink> BlockingWriter<O> {
    /// Writes a chunk, as `Writer` does.
    pub fn push(&mut self, alloc: Global, chunk: &Column) -> Result<(), WriteError>
        ensures pushes { (o : Options) (d : Dtype) (past : List Rows) (start : Option (List ℕ)) →
            HasPushed o d past start self.old.writer.state (O.state self.old.writer.out).gained
            → Pushes o d past (column_view chunk.now) start self.new.writer.state (O.state self.new.writer.out).gained result }
        ensures failed { self.old.writer.state.failed ≡ true → result ≡ Err WriterFailed }
        ensures still { self.old.writer.state.failed ≡ true →
            (self.new.writer.state ≡ self.old.writer.state) × (O.state self.new.writer.out ≡ O.state self.old.writer.out) }
        ensures cause { SinkCause (O.state self.old.writer.out) (O.state self.new.writer.out) result }
    {
        self.writer.push(alloc, chunk)
    }

    /// Writes the chunks of a source, as `Writer` does.
    pub fn push_stream<I: ChunkSource>(
        &mut self,
        alloc: Global,
        chunks: &mut I,
    ) -> Result<(), WriteError>
        ensures pushes { (o : Options) (d : Dtype) (past : List Rows) (start : Option (List ℕ)) →
            HasPushed o d past start self.old.writer.state (O.state self.old.writer.out).gained
            → PushesStream o d past start (I.state chunks.old) (I.state chunks.new) self.new.writer.state (O.state self.new.writer.out).gained result }
        ensures failed { self.old.writer.state.failed ≡ true → result ≡ Err WriterFailed }
        ensures still { self.old.writer.state.failed ≡ true → (self.new ≡ self.old) × (chunks.new ≡ chunks.old) }
        ensures same { SameChunks (I.state chunks.old) (I.state chunks.new) }
        ensures cause { SinkCause (O.state self.old.writer.out) (O.state self.new.writer.out) result }
    {
        self.writer.push_stream(alloc, chunks)
    }

    /// How many bytes the sink took.
    pub fn bytes_written(&self) -> u64
        ensures { result ≡ self.now.writer.state.output.taken }
    {
        self.writer.bytes_written()
    }

    /// How many bytes the rows that are held back take, written plainly, at most 2^64 - 1.
    pub fn buffered_bytes(&self) -> u64
        ensures { result ≡ min (held_size self.now.writer.state.held.now) (2 ^ 64 - 1) }
    {
        self.writer.buffered_bytes()
    }

    /// Writes the rest and flushes, as `Writer` does, and gives the sink back.
    pub fn finish(self, alloc: Global) -> (O, Result<WriteSummary, WriteError>)
        ensures closes { (o : Options) (d : Dtype) (past : List Rows) (start : Option (List ℕ)) →
            HasPushed o d past start self.writer.state (O.state self.writer.out).gained
            → Closes o d past start (O.state result.0) result.1 }
        ensures failed { self.writer.state.failed ≡ true → result.1 ≡ Err WriterFailed }
        ensures still { self.writer.state.failed ≡ true → O.state result.0 ≡ O.state self.writer.out }
        ensures cause { SinkCause (O.state self.writer.out) (O.state result.0) result.1 }
    {
        self.writer.finish(alloc)
    }
}
