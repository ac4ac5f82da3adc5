//! What the words of the program ask for.
ghost use Rattle.std.specs.Prelude.{◌≡◌, Some, None, map, string_bytes};
ghost use Rattle.vx_commands.specs.Command.{alone as alone_words, command_of, Parses};
ghost use Rattle.vx_commands.specs.Outside.{Keeps};
ghost use Rattle.vx_commands.specs.Performs.{Gathers};

use crate::answer::Answer;
use crate::commands::demo::Demo;
use crate::commands::generate::Generate;
use crate::commands::prune::Prune;
use crate::commands::scan::Scan;
use crate::commands::serve::Serve;
use crate::commands::sizes::Sizes;
use crate::commands::write::Write;
use crate::failure::Failure;
use std::alloc::Global;
use vx_base::{Opener, Source};

/// A command with its arguments.
#[derive(Drop)]
pub enum Command<'a> {
    /// Print how the program is used.
    Help,
    /// Print its version.
    Version,
    /// Serve the file of a name.
    Serve(Serve<'a>),
    /// Serve a file of values, which is written to memory.
    Demo(Demo),
    /// Print how many bytes each field of the file of a name takes.
    Sizes(Sizes<'a>),
    /// Print whether the file of a name can be skipped, since no row of it satisfies a predicate.
    Prune(Prune<'a>),
    /// Print the rows of the file of a name, or those that satisfy a predicate.
    Scan(Scan<'a>),
    /// Write the rows on the input as a file.
    Write(Write<'a>),
    /// Write generated rows to memory as a file, and tell of the file.
    Gen(Generate),
}

/// A command without arguments.
fn alone<'a>(command: Command<'a>, words: &[String]) -> Result<Command<'a>, Failure<'a>>
    ensures { Parses (alone_words command.entry (map string_bytes words.now)) result }
{
    if words.is_empty() {
        Ok(command)
    } else {
        Err(Failure::Usage)
    }
}

impl<'a> Command<'a> {
    /// The command that the words after the program's name ask for.
    pub(crate) fn parse(alloc: Global, words: &'a [String]) -> Result<Command<'a>, Failure<'a>>
        ensures { Parses (command_of (map string_bytes words.now)) result }
    {
        let [word, rest @ ..] = words else {
            return Err(Failure::Usage);
        };
        if word.as_str() == "serve" {
            return Serve::parse(alloc, rest);
        }
        if word.as_str() == "demo" {
            return Demo::parse(alloc, rest);
        }
        if word.as_str() == "sizes" {
            return Sizes::parse(alloc, rest);
        }
        if word.as_str() == "prune" {
            return Prune::parse(alloc, rest);
        }
        if word.as_str() == "scan" {
            return Scan::parse(alloc, rest);
        }
        if word.as_str() == "write" {
            return Write::parse(alloc, rest);
        }
        if word.as_str() == "gen" {
            return Generate::parse(rest);
        }
        if word.as_str() == "--help" {
            return alone(Command::Help, rest);
        }
        if word.as_str() == "--version" {
            return alone(Command::Version, rest);
        }
        Err(Failure::Usage)
    }

    /// What the command answers, from its input and the files.
    pub(crate) fn answer<I: Source, F: Opener>(
        &self,
        alloc: Global,
        input: &mut I,
        files: &mut F,
    ) -> Result<Answer<'a>, Failure<'a>>
        ensures gathers { Gathers self.now (I.state input.old) (I.state input.new) (F.state files.old) (F.state files.new) result }
        ensures keeps { Keeps self.now (I.state input.old) (I.state input.new) (F.state files.old) (F.state files.new) }
    {
        match self {
            Command::Help => Ok(Answer::Help),
            Command::Version => Ok(Answer::Version),
            Command::Serve(serve) => serve.answer(alloc, input, files),
            Command::Demo(demo) => demo.answer(alloc, input),
            Command::Sizes(sizes) => sizes.answer(alloc, files),
            Command::Prune(prune) => prune.answer(alloc, files),
            Command::Scan(scan) => scan.answer(alloc, files),
            Command::Write(write) => write.answer(alloc, input),
            Command::Gen(generate) => generate.answer(alloc),
        }
    }
}
