//! Runs the program over memory.
ghost use Rattle.std.specs.Prelude.{map, string_bytes};
ghost use Rattle.vx_commands.specs.Command.{command_of};
ghost use Rattle.vx_main.specs.InMemory.{RunsInMemory, EndsWell};

use crate::run::run;
use std::alloc::Global;
use vx_base::{ByteBuffer, MemOpener, MemSink, MemSource, Mischief};

/// What a run left: its status, and what stands on the output and on the error stream.
#[derive(Drop)]
pub struct Left {
    pub status: u8,
    pub out: Vec<u8>,
    pub err: Vec<u8>,
}

/// Runs the program over an input and files in memory, of which no call fails but what the files'
/// mischief does.
pub fn run_in_memory(
    alloc: Global,
    words: &[String],
    input: Vec<u8>,
    files: Vec<(String, ByteBuffer, Vec<Mischief>)>,
) -> Left
    ensures runs { RunsInMemory (command_of (map string_bytes words.now)) input.items files.items result }
    ensures ends { EndsWell (command_of (map string_bytes words.now)) input.items files.items result.status }
{
    let mut source = MemSource::new(input, Vec::new(alloc));
    let mut opener = MemOpener::new(alloc, files, Vec::new(alloc));
    let mut out = MemSink::new(alloc, Vec::new(alloc));
    let mut err = MemSink::new(alloc, Vec::new(alloc));
    let status = run(alloc, words, &mut source, &mut opener, &mut out, &mut err);
    Left {
        status,
        out: out.into_bytes(),
        err: err.into_bytes(),
    }
}
