//! What commands answer, and its text.
ghost use Rattle.std.specs.Prelude.{◌≡◌, true};
ghost use Rattle.vx_base.specs.Streams.{SameSink};
ghost use Rattle.vx_commands.specs.Outputs.{is_text, text_of};
ghost use Rattle.vx_commands.specs.Performs.{Shows, shown_of, output_failure_of};
ghost use Rattle.vx_text.specs.Text.{Adds, Writes};

use crate::failure::Failure;
use crate::print::help::put_help;
use crate::print::served::put_served;
use crate::print::summary::put_summary;
use crate::print::truth::put_truth;
use crate::printable::Printable;
use crate::rows_file::RowsFile;
use crate::summary::FileSummary;
use std::alloc::Global;
use vx_base::{Sink, SinkError};
use vx_footer::CompressedFieldSizes;
use vx_print::{PrintableRows, put_rows, put_sizes};
use vx_text::TextOut;

const VERSION: &[u8] = b"vx 0.1.0\n";

/// The answer of a command.
#[derive(Drop)]
pub enum Answer<'a> {
    Help,
    Version,
    /// A footer, the opening ranges, and one reply for each step.
    Served(Printable),
    /// How many bytes each field takes.
    Sizes(CompressedFieldSizes),
    /// Whether the file can be skipped.
    Pruned(bool),
    /// The rows of a file.
    Rows(PrintableRows),
    /// What is told of a file that was written to memory.
    Summary(FileSummary),
    /// A file of rows.
    File(RowsFile<'a>),
}

/// Why the program fails where its output fails so.
fn output_failure<'a>(error: SinkError) -> Failure<'a>
    ensures { result ≡ output_failure_of error }
{
    match error {
        SinkError::Failed => Failure::Output,
        SinkError::OutOfMemory => Failure::OutOfMemory,
    }
}

/// What the program answers where its output answers this.
fn shown<'a>(written: Result<(), SinkError>) -> Result<(), Failure<'a>>
    ensures { result ≡ shown_of written }
{
    match written {
        Ok(()) => Ok(()),
        Err(error) => Err(output_failure(error)),
    }
}

impl<'a> Answer<'a> {
    fn put<S: Sink>(&self, text: &mut TextOut, out: &mut S)
        requires { is_text self.now ≡ true }
        ensures { Adds (text_of self.now) text.old (S.state out.old) text.new (S.state out.new) }
    {
        match self {
            Answer::Help => put_help(text, out),
            Answer::Version => text.word(out, VERSION),
            Answer::Served(printable) => put_served(printable, text, out),
            Answer::Sizes(sizes) => put_sizes(sizes, text, out),
            Answer::Pruned(skipped) => put_truth(*skipped, text, out),
            Answer::Rows(rows) => put_rows(rows, text, out),
            Answer::Summary(summary) => put_summary(summary, text, out),
            Answer::File(_) => unreachable!(),
        }
    }

    /// Writes the text, piece by piece, and flushes. After an error a prefix of it was taken.
    fn write<S: Sink>(&self, alloc: Global, out: &mut S) -> Result<(), SinkError>
        requires { is_text self.now ≡ true }
        ensures { Writes (text_of self.now) (S.state out.old) (S.state out.new) result }
    {
        let mut text = TextOut::new(alloc);
        self.put(&mut text, out);
        text.finish(out)
    }

    /// The same, where it is no file, with the failure of the program in place of the sink's.
    fn print_text<S: Sink>(&self, alloc: Global, out: &mut S) -> Result<(), Failure<'a>>
        requires { is_text self.now ≡ true }
        ensures shows { Shows self.now (S.state out.old) (S.state out.new) result }
        ensures steady { (S.state out.old).never_fails ≡ true → (S.state out.new).faults ≡ (S.state out.old).faults }
        ensures same { SameSink (S.state out.old) (S.state out.new) }
    {
        shown(self.write(alloc, out))
    }

    /// Writes the text or the file, piece by piece, and flushes. After an error a prefix of it was taken.
    pub(crate) fn print<S: Sink>(&self, alloc: Global, out: &mut S) -> Result<(), Failure<'a>>
        ensures shows { Shows self.now (S.state out.old) (S.state out.new) result }
        ensures steady { (S.state out.old).never_fails ≡ true → (S.state out.new).faults ≡ (S.state out.old).faults }
        ensures same { SameSink (S.state out.old) (S.state out.new) }
    {
        match self {
            Answer::Help
            | Answer::Version
            | Answer::Served(_)
            | Answer::Sizes(_)
            | Answer::Pruned(_)
            | Answer::Rows(_)
            | Answer::Summary(_) => self.print_text(alloc, out),
            Answer::File(file) => file.write(alloc, out),
        }
    }
}
