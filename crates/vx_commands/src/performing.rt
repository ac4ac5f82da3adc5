//! Performs the command of the program's words, and reports failures.
ghost use Rattle.std.specs.Prelude.{map, string_bytes};
ghost use Rattle.vx_base.specs.Streams.{SameSink};
ghost use Rattle.vx_commands.specs.Command.{command_of};
ghost use Rattle.vx_commands.specs.Outside.{KeepSteady, SameOutside, outside};
ghost use Rattle.vx_commands.specs.Performs.{Fails, Performs};

use crate::command::Command;
use crate::failure::Failure;
use std::alloc::Global;
use vx_base::{Opener, Sink, Source};

/// Does what the words ask for: answers their command, and writes the answer's text.
#[tactic(auto, using(crate::proofs::PerformingLemmas::unparsed, crate::proofs::PerformingLemmas::unanswered))]
pub fn perform<'a, I: Source, F: Opener, O: Sink>(
    alloc: Global,
    words: &'a [String],
    input: &mut I,
    files: &mut F,
    out: &mut O,
) -> Result<(), Failure<'a>>
    ensures performs { Performs (command_of (map string_bytes words.now))
        (outside (I.state input.old) (F.state files.old) (O.state out.old)) (outside (I.state input.new) (F.state files.new) (O.state out.new)) result }
    ensures steady { KeepSteady (command_of (map string_bytes words.now))
        (outside (I.state input.old) (F.state files.old) (O.state out.old)) (outside (I.state input.new) (F.state files.new) (O.state out.new)) }
    ensures same { SameOutside
        (outside (I.state input.old) (F.state files.old) (O.state out.old)) (outside (I.state input.new) (F.state files.new) (O.state out.new)) }
{
    let command = Command::parse(alloc, words)?;
    let answer = command.answer(alloc, input, files)?;
    answer.print(alloc, out)
}

/// Reports a failure, and gives its status.
pub fn fail<E: Sink>(alloc: Global, err: &mut E, failure: &Failure<'_>) -> u8
    ensures fails { Fails failure.now (E.state err.old) (E.state err.new) result }
    ensures same { SameSink (E.state err.old) (E.state err.new) }
{
    failure.report(alloc, err);
    failure.status()
}
