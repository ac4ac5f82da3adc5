//! A file of rows, as `write` answers it.
ghost use Rattle.std.specs.Prelude.{◌≡◌, true};
ghost use Rattle.vx_base.specs.Streams.{SameSink};
ghost use Rattle.vx_commands.specs.RowsFiles.{WritesFile, told as told_of, write_failure};

use crate::commands::write::Write;
use crate::failure::Failure;
use crate::table::Table;
use std::alloc::Global;
use std::slice;
use vx_base::Sink;
use vx_footer::WriteError;
use vx_write::{WriteSummary, write_rows};

/// Rows, and how their file is written.
#[derive(Drop)]
pub struct RowsFile<'a> {
    pub arguments: Write<'a>,
    pub table: Table,
}

/// Why a file was not written, or not whole.
fn failure_of<'a>(error: WriteError) -> Failure<'a>
    ensures { result ≡ write_failure error }
{
    match error {
        WriteError::WriteFault => Failure::Output,
        WriteError::OutOfMemory => Failure::OutOfMemory,
        error => Failure::Unwritten(error),
    }
}

/// What the program answers where a writer answers this.
fn told<'a>(answer: Result<WriteSummary, WriteError>) -> Result<(), Failure<'a>>
    ensures { result ≡ told_of answer }
{
    match answer {
        Ok(_) => Ok(()),
        Err(error) => Err(failure_of(error)),
    }
}

impl<'a> RowsFile<'a> {
    /// Writes the file, as its chunks are full, and flushes. After an error a prefix of it was taken.
    pub(crate) fn write<S: Sink>(&self, alloc: Global, out: &mut S) -> Result<(), Failure<'a>>
        ensures writes { WritesFile self.now (S.state out.old) (S.state out.new) result }
        ensures steady { (S.state out.old).never_fails ≡ true → (S.state out.new).faults ≡ (S.state out.old).faults }
        ensures same { SameSink (S.state out.old) (S.state out.new) }
    {
        let options = self.arguments.options(alloc)?;
        let dtype = self.table.dtype().share(alloc)?;
        let chunks = slice::from_ref(self.table.rows());
        told(write_rows(alloc, options, out, dtype, chunks))
    }
}
