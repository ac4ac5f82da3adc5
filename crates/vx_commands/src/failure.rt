//! Why the program fails: its statuses and their lines.
ghost use Rattle.std.specs.Prelude.{◌≡◌, codes, decimal, ◌++◌};
ghost use Rattle.vx_commands.specs.Failures.{status_of, failure_words, message_of, read_words};
ghost use Rattle.vx_text.specs.Text.{Adds, Writes};
ghost use Rattle.vx_commands.specs.Performs.{Reports};
ghost use Rattle.vx_base.specs.Streams.{SameSink};

use crate::name::Name;
use crate::print::fault::put_fault;
use crate::refusal::{array_error_name, bind_error_name, refusal_name, write_error_name};
use std::alloc::{AllocError, Global};
use vx_base::{Sink, SinkError};
use vx_footer::{OpenError, WriteError};
use vx_rows::{ArrayError, BindError};
use vx_sched::{Fault, Place};
use vx_text::TextOut;

/// Why no text was printed, or not all of it.
#[derive(Drop)]
pub enum Failure<'a> {
    /// The words are no command.
    Usage,
    /// The first line of the input that is in no grammar, counted from 1.
    Line(u64),
    /// The file fails an opening check.
    Refused(OpenError),
    /// The layout of the file names a segment that the file has not.
    MissingSegment,
    /// The predicate is not one on the rows of the file.
    Unbound(BindError),
    /// The bytes of a segment are no array of the rows that the layout tells.
    Undecoded(ArrayError),
    /// A check refuses the file of the rows.
    Unwritten(WriteError),
    /// The file could not be read.
    Read(Fault),
    /// The input could not be read.
    Input,
    /// The output could not be written.
    Output,
    /// The file of a name could not be opened.
    Open(Name<'a>),
    /// The input has more bytes than it may.
    InputTooLong,
    OutOfMemory,
}

impl<'a> From<AllocError> for Failure<'a> {
    ghost use Rattle.std.specs.Prelude.{◌≡◌};
    ghost use Rattle.vx_commands.specs.declared.failure.Failure.TheVariants.{OutOfMemory};

    ghost from_gives = { λ _ e. e ≡ OutOfMemory };

    fn from(_error: AllocError) -> Failure<'a> {
        Failure::OutOfMemory
    }
}

fn put_read<S: Sink>(fault: &Fault, text: &mut TextOut, err: &mut S)
    ensures { Adds (codes "read " ++ read_words fault.now fault.now.place) text.old (S.state err.old) text.new (S.state err.new) }
{
    text.word(err, b"read ");
    match fault.place() {
        Place::Size => text.word(err, b"size"),
        Place::Range { .. } => put_fault(fault, text, err),
    }
}

impl<'a> Failure<'a> {
    /// The exit status.
    pub(crate) fn status(&self) -> u8
        ensures { result ≡ status_of self.now }
    {
        match self {
            Failure::Usage => 2,
            Failure::Line(_) => 3,
            Failure::Refused(_)
            | Failure::MissingSegment
            | Failure::Unbound(_)
            | Failure::Undecoded(_)
            | Failure::Unwritten(_) => 4,
            Failure::Read(_) => 5,
            Failure::Input => 6,
            Failure::Output => 7,
            Failure::Open(_) => 8,
            Failure::InputTooLong => 9,
            Failure::OutOfMemory => 70,
        }
    }

    fn put_words<S: Sink>(&self, text: &mut TextOut, err: &mut S)
        ensures { Adds (failure_words self.now) text.old (S.state err.old) text.new (S.state err.new) }
    {
        match self {
            Failure::Usage => text.word(err, b"usage"),
            Failure::Line(line) => {
                text.word(err, b"line ");
                text.number(err, *line)
            }
            Failure::Refused(refusal) => text.word(err, refusal_name(*refusal).as_bytes()),
            Failure::MissingSegment => text.word(err, b"MissingSegment"),
            Failure::Unbound(error) => text.word(err, bind_error_name(*error).as_bytes()),
            Failure::Undecoded(error) => text.word(err, array_error_name(*error).as_bytes()),
            Failure::Unwritten(error) => text.word(err, write_error_name(*error).as_bytes()),
            Failure::Read(fault) => put_read(fault, text, err),
            Failure::Input => text.word(err, b"input"),
            Failure::Output => text.word(err, b"output"),
            Failure::Open(name) => {
                text.word(err, b"open ");
                text.word(err, name.as_str().as_bytes())
            }
            Failure::InputTooLong => text.word(err, b"input too long"),
            Failure::OutOfMemory => text.word(err, b"memory"),
        }
    }

    /// Writes the line for the error stream.
    fn print<S: Sink>(&self, alloc: Global, err: &mut S) -> Result<(), SinkError>
        ensures { Writes (message_of self.now) (S.state err.old) (S.state err.new) result }
    {
        let mut text = TextOut::new(alloc);
        text.word(err, b"vx: ");
        self.put_words(&mut text, err);
        text.end_line(err);
        text.finish(err)
    }

    /// Writes the line for the error stream. What the stream answers changes nothing.
    #[tactic(auto, using(crate::proofs::Reporting::reports))]
    pub(crate) fn report<S: Sink>(&self, alloc: Global, err: &mut S)
        ensures reported { Reports (message_of self.now) (S.state err.old) (S.state err.new) }
        ensures same { SameSink (S.state err.old) (S.state err.new) }
    {
        let _ = self.print(alloc, err);
    }
}
