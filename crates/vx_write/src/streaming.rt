//! Writes the chunks of a source as one file.
ghost use Rattle.std.specs.Prelude.{OnOk, IfErr};
ghost use Rattle.vx_data.specs.Dtype.{dtype_view};
ghost use Rattle.vx_write.specs.Standing.{IsSound};
ghost use Rattle.vx_write.specs.Streamed.{Streams, StreamPushed, StreamCut, stream_result};
ghost use Rattle.vx_write.specs.Taken.{SinkCause};

use crate::chunk_source::{ChunkError, ChunkSource};
use crate::field_texts::has_texts;
use crate::file_writer::FileWriter;
use crate::options::VortexWriteOptions;
use crate::summary::WriteSummary;
use std::alloc::Global;
use vx_base::Sink;
use vx_data::DType;
use vx_footer::WriteError;

/// Why the chunks of a source were not pushed.
#[derive(Drop)]
enum StreamError {
    /// The source failed.
    Chunks,
    /// A chunk was refused, or memory ran out.
    Writer(WriteError),
}

/// Pushes the chunks of a source, one after the other, until none comes.
fn push_stream<S: Sink, I: ChunkSource>(
    alloc: Global,
    out: &mut S,
    writer: &mut FileWriter,
    chunks: &mut I,
) -> Result<(), StreamError>
    requires { IsSound writer.old }
    ensures sound { IsSound writer.new }
    ensures ok { OnOk result (StreamPushed (I.state chunks.old) (I.state chunks.new) writer.old writer.new (S.state out.old).gained (S.state out.new).gained) }
    ensures err { IfErr result (λ e. StreamCut (I.state chunks.old) (I.state chunks.new) writer.old (S.state out.old).gained (S.state out.new).gained e) }
    ensures cause { SinkCause (S.state out.old) (S.state out.new) (stream_result result) }
{
    for _ in 0..u64::MAX {
        match chunks.next_chunk(alloc) {
            Ok(Some(chunk)) => match writer.push(alloc, out, &chunk) {
                Ok(()) => {}
                Err(error) => return Err(StreamError::Writer(error)),
            },
            Ok(None) => return Ok(()),
            Err(ChunkError::Failed) => return Err(StreamError::Chunks),
            Err(ChunkError::OutOfMemory) => {
                return Err(StreamError::Writer(WriteError::OutOfMemory));
            }
        }
    }
    Err(StreamError::Writer(WriteError::OutOfMemory))
}

impl VortexWriteOptions {
    /// Writes a file of rows of a type, which come in the chunks of a source, each as it comes.
    pub fn write<S: Sink, I: ChunkSource>(
        self,
        alloc: Global,
        out: &mut S,
        dtype: DType,
        chunks: &mut I,
    ) -> Result<WriteSummary, WriteError>
        ensures streams { Streams self (dtype_view dtype) (I.state chunks.old) (I.state chunks.new) (S.state out.old) (S.state out.new) result }
        ensures cause { SinkCause (S.state out.old) (S.state out.new) result }
    {
        self.are_told();
        has_texts(&dtype);
        let mut writer = match FileWriter::begin(alloc, self, dtype) {
            Ok(writer) => writer,
            Err(error) => return Err(error),
        };
        match push_stream(alloc, out, &mut writer, chunks) {
            Ok(()) => {}
            Err(StreamError::Chunks) => return Err(WriteError::ChunkFault),
            Err(StreamError::Writer(error)) => return Err(error),
        }
        match writer.finish(alloc, out) {
            Ok(summary) => Ok(summary),
            Err(error) => Err(error),
        }
    }
}
