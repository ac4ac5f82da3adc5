//! Writes chunks of rows as one file.
ghost use Rattle.std.specs.Prelude.{[], List, ℕ, Option, OnOk, IfOk, IfErr};
ghost use Rattle.vx_data.specs.Dtype.{Dtype, dtype_view};
ghost use Rattle.vx_footer.specs.ReadAgain.{content_read};
ghost use Rattle.vx_write.specs.Chunks.{columns_seen};
ghost use Rattle.vx_write.specs.OpensAgain.{OpensAgain};
ghost use Rattle.vx_write.specs.Options.{Options};
ghost use Rattle.vx_write.specs.RowsWritten.{pushes, RowsAnswer, RowsLeave, Pushing, PushingEnds};
ghost use Rattle.vx_write.specs.Standing.{IsSound, Stands};
ghost use Rattle.vx_write.specs.Taken.{SinkCause};

use crate::field_texts::has_texts;
use crate::file_writer::FileWriter;
use crate::options::VortexWriteOptions;
use crate::summary::WriteSummary;
use std::alloc::Global;
use vx_base::Sink;
use vx_data::DType;
use vx_footer::WriteError;
use vx_rows::Column;

/// Pushes chunks, one after the other.
fn push_all<S: Sink>(
    alloc: Global,
    out: &mut S,
    writer: &mut FileWriter,
    chunks: &[Column],
) -> Result<(), WriteError>
    requires { IsSound writer.old }
    ensures sound { IsSound writer.new }
    ensures ok { OnOk result ((o : Options) (d : Dtype) (start : Option (List ℕ)) → Stands o d [] start writer.old (S.state out.old).gained
        → Pushing o d (columns_seen chunks.now) [] start writer.new (S.state out.new).gained) }
    ensures err { IfErr result (λ e. (o : Options) (d : Dtype) (start : Option (List ℕ)) → Stands o d [] start writer.old (S.state out.old).gained
        → PushingEnds o d (columns_seen chunks.now) start (S.state out.new).gained e) }
    ensures cause { SinkCause (S.state out.old) (S.state out.new) result }
{
    for at in 0..chunks.len() {
        match writer.push(alloc, out, &chunks[at]) {
            Ok(()) => {}
            Err(error) => return Err(error),
        }
    }
    Ok(())
}

/// Writes a file of rows of a type, which come in chunks.
pub fn write_rows<S: Sink>(
    alloc: Global,
    options: VortexWriteOptions,
    out: &mut S,
    dtype: DType,
    chunks: &[Column],
) -> Result<WriteSummary, WriteError>
    // The first check that fails names the refusal.
    ensures answer { RowsAnswer options (dtype_view dtype) (columns_seen chunks.now) result }
    // The sink gained the whole file, flushed, or a part of it.
    ensures leaves { RowsLeave options (dtype_view dtype) (columns_seen chunks.now) (S.state out.old) (S.state out.new) result }
    ensures cause { SinkCause (S.state out.old) (S.state out.new) result }
    // The file opens again to the footer of the summary, and has the rows of the chunks, in their order.
    ensures opens { IfOk result (λ s. OpensAgain options (dtype_view dtype) (pushes [] (columns_seen chunks.now)) (content_read s.footer.content)) }
{
    options.are_told();
    has_texts(&dtype);
    let mut writer = match FileWriter::begin(alloc, options, dtype) {
        Ok(writer) => writer,
        Err(error) => return Err(error),
    };
    match push_all(alloc, out, &mut writer, chunks) {
        Ok(()) => {}
        Err(error) => return Err(error),
    }
    match writer.finish(alloc, out) {
        Ok(summary) => Ok(summary),
        Err(error) => Err(error),
    }
}
