//! The program `vx`: serves the segments of files by a script, measures and skips files, and writes and prints rows.
#![tactic(auto)]

mod laws;
mod memory;
mod run;
mod words;

use std::io::BufWriter;
use std::mem;
use std::process::ExitCode;
use vx_base::{FileOpener, StdSink, StdSource};
use vx_commands::{Failure, fail, unread};

// As many bytes are gathered before they go out. Small blocks of a file are a few bytes each.
const OUTPUT_ROOM: usize = 1 << 18;

fn main(rt: HostRuntime) -> ExitCode {
    let alloc = rt.alloc();
    let mut err = StdSink::new(rt.stderr());
    let words = match words::read_words(&rt) {
        Ok(words) => words,
        Err(error) => {
            let failure = unread(error.kind());
            return ExitCode::from(fail(alloc, &mut err, &failure));
        }
    };
    let Ok(output) = BufWriter::with_capacity(alloc, OUTPUT_ROOM, rt.stdout()) else {
        return ExitCode::from(fail(alloc, &mut err, &Failure::OutOfMemory));
    };
    let mut input = StdSource::new(rt.stdin());
    let mut out = StdSink::new(output);
    let mut files = FileOpener::new(rt);
    let status = run::run(
        alloc,
        words.as_slice(),
        &mut input,
        &mut files,
        &mut out,
        &mut err,
    );
    if status != 0 {
        // what a failure left unwritten stays so, which a drop would write
        mem::forget(out);
    }
    ExitCode::from(status)
}
