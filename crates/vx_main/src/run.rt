//! Runs the program over its words and streams.
ghost use Rattle.std.specs.Prelude.{map, string_bytes};
ghost use Rattle.vx_base.specs.Streams.{SameSink};
ghost use Rattle.vx_commands.specs.Command.{command_of};
ghost use Rattle.vx_commands.specs.Outside.{KeepSteady, SameOutside, outside};
ghost use Rattle.vx_main.specs.Runs.{Runs};
ghost use Rattle.vx_main.specs.Statuses.{Statuses};

use std::alloc::Global;
use vx_base::{Opener, Sink, Source};
use vx_commands::{fail, perform};

/// Runs the program: does what the words ask for, with the script from `input`, writes to `out` what is
/// answered or to `err` why not, and gives the exit status.
pub fn run<I: Source, F: Opener, O: Sink, E: Sink>(
    alloc: Global,
    words: &[String],
    input: &mut I,
    files: &mut F,
    out: &mut O,
    err: &mut E,
) -> u8
    // The command was performed, or has a failure with its cause, and status and line are those of it.
    ensures runs { Runs (command_of (map string_bytes words.now))
        (outside (I.state input.old) (F.state files.old) (O.state out.old)) (outside (I.state input.new) (F.state files.new) (O.state out.new))
        (E.state err.old) (E.state err.new) result }
    // What each exit status says.
    ensures statuses { Statuses (command_of (map string_bytes words.now))
        (outside (I.state input.old) (F.state files.old) (O.state out.old)) (outside (I.state input.new) (F.state files.new) (O.state out.new))
        (E.state err.old) (E.state err.new) result }
    // No count of faults rises where no call fails.
    ensures steady { KeepSteady (command_of (map string_bytes words.now))
        (outside (I.state input.old) (F.state files.old) (O.state out.old)) (outside (I.state input.new) (F.state files.new) (O.state out.new)) }
    // What no run changes.
    ensures same { SameOutside
        (outside (I.state input.old) (F.state files.old) (O.state out.old)) (outside (I.state input.new) (F.state files.new) (O.state out.new)) }
    ensures same_err { SameSink (E.state err.old) (E.state err.new) }
{
    match perform(alloc, words, input, files, out) {
        Ok(()) => 0,
        Err(failure) => fail(alloc, err, &failure),
    }
}
