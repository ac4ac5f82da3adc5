//! Serves scripts: opens a file, and answers one reply a step.
ghost use Rattle.std.specs.Prelude.{◌≡◌, ℕ, List, length, Some, true, IsOk};
ghost use Rattle.vx_file.specs.StepsLeft.{steps_left};
ghost use Rattle.vx_base.specs.Caches.{SameCache};
ghost use Rattle.vx_base.specs.Readers.{SameReader};
ghost use Rattle.vx_file.specs.Hints.{IsSized, IsFooterOf};
ghost use Rattle.vx_file.specs.Plans.{plan_of};
ghost use Rattle.vx_file.specs.Serving.{HasCause, FaultRose, NamesCheck, StandsStill, Succeeds};

use crate::prepared::{Prepared, prepare, session_of};
use crate::script::Steps;
use crate::steps::answer_steps;
use crate::{Replies, Script, ServeError, ServeOptions, Served, Step};
use std::alloc::Global;
use vx_base::{Reader, SegmentCache};

/// Opens a file and answers steps that are taken one after another, of which there are so many, as `serve` says.
fn serve_steps<R: Reader, C: SegmentCache>(
    alloc: Global,
    options: ServeOptions,
    cache: &mut C,
    reader: &mut R,
    steps: Steps<'_>,
    count: usize,
) -> Result<Served, ServeError>
    requires { length (steps_left steps) ≡ count }
    ensures cause { (file : List ℕ) → (R.state reader.old).bytes ≡ Some file → IsSized options file →
        HasCause options file (steps_left steps.entry) (R.state reader.old) (R.state reader.new) (C.state cache.old) (C.state cache.new) result }
    ensures fault { FaultRose (R.state reader.old) (R.state reader.new) (C.state cache.old) (C.state cache.new) result }
    ensures names { NamesCheck result }
    ensures served { (file : List ℕ) → (R.state reader.old).bytes ≡ Some file → IsSized options file →
        IsOk (plan_of options file).footer → StandsStill (R.state reader.old).faults (R.state reader.new).faults →
        StandsStill (C.state cache.old).faults (C.state cache.new).faults → Succeeds result }
    ensures steady { (file : List ℕ) → (R.state reader.old).never_fails ≡ true → (R.state reader.old).bytes ≡ Some file →
        IsSized options file → IsFooterOf options.footer file → (R.state reader.new).faults ≡ (R.state reader.old).faults }
    ensures same { SameReader (R.state reader.old) (R.state reader.new) }
    ensures same_cache { SameCache (C.state cache.old) (C.state cache.new) }
{
    let prepared = prepare(alloc, &options, reader, cache)?;
    let Prepared {
        footer,
        tail,
        opening,
        metadata,
    } = prepared;
    if count == 0 {
        // no session is made, whose tables are as long as that of the segments
        return Ok(Served {
            footer,
            metadata,
            opening,
            replies: Replies::new(alloc),
        });
    }
    let segments = footer.segment_specs_with_metadata();
    let mut session = session_of(alloc, reader, tail, segments)?;
    let replies = match answer_steps(alloc, &mut session, reader, cache, steps, count) {
        Ok(replies) => replies,
        Err(_) => return Err(ServeError::OutOfMemory),
    };
    Ok(Served {
        footer,
        metadata,
        opening,
        replies,
    })
}

/// Opens a file, from its tail or by the footer that is supplied, and answers a script, one reply a step. The cache
/// is asked for segments that the tail does not cover, and given those that it covers and those that are read. Where the
/// values of the metadata are asked for, they are loaded before, in a session of their own.
pub fn serve<R: Reader, C: SegmentCache>(
    alloc: Global,
    options: ServeOptions,
    cache: &mut C,
    reader: &mut R,
    script: &[Step],
) -> Result<Served, ServeError>
    // Each answer has its cause, where the reader tells its bytes and a size by which the tail is read is theirs: a
    // history answers the script, a file is refused by the name of the first check that it fails, and the reader was
    // asked exactly for the ranges that are named.
    ensures cause { (file : List ℕ) → (R.state reader.old).bytes ≡ Some file → IsSized options file →
        HasCause options file script.now (R.state reader.old) (R.state reader.new) (C.state cache.old) (C.state cache.new) result }
    ensures fault { FaultRose (R.state reader.old) (R.state reader.new) (C.state cache.old) (C.state cache.new) result }
    ensures names { NamesCheck result }
    // A file that passes its checks is served where the counts of the reader and of the cache stand still.
    ensures served { (file : List ℕ) → (R.state reader.old).bytes ≡ Some file → IsSized options file →
        IsOk (plan_of options file).footer → StandsStill (R.state reader.old).faults (R.state reader.new).faults →
        StandsStill (C.state cache.old).faults (C.state cache.new).faults → Succeeds result }
    // The count of a reader that never fails stands still, where a footer that is supplied is the file's.
    ensures steady { (file : List ℕ) → (R.state reader.old).never_fails ≡ true → (R.state reader.old).bytes ≡ Some file →
        IsSized options file → IsFooterOf options.footer file → (R.state reader.new).faults ≡ (R.state reader.old).faults }
    ensures same { SameReader (R.state reader.old) (R.state reader.new) }
    ensures same_cache { SameCache (C.state cache.old) (C.state cache.new) }
{
    serve_steps(
        alloc,
        options,
        cache,
        reader,
        Steps::Plain(script),
        script.len(),
    )
}

/// Serves a script that is kept in few bytes, as `serve` does one of a slice.
pub fn serve_script<R: Reader, C: SegmentCache>(
    alloc: Global,
    options: ServeOptions,
    cache: &mut C,
    reader: &mut R,
    script: &Script,
) -> Result<Served, ServeError>
    ensures cause { (file : List ℕ) → (R.state reader.old).bytes ≡ Some file → IsSized options file →
        HasCause options file script.now (R.state reader.old) (R.state reader.new) (C.state cache.old) (C.state cache.new) result }
    ensures fault { FaultRose (R.state reader.old) (R.state reader.new) (C.state cache.old) (C.state cache.new) result }
    ensures names { NamesCheck result }
    ensures served { (file : List ℕ) → (R.state reader.old).bytes ≡ Some file → IsSized options file →
        IsOk (plan_of options file).footer → StandsStill (R.state reader.old).faults (R.state reader.new).faults →
        StandsStill (C.state cache.old).faults (C.state cache.new).faults → Succeeds result }
    ensures steady { (file : List ℕ) → (R.state reader.old).never_fails ≡ true → (R.state reader.old).bytes ≡ Some file →
        IsSized options file → IsFooterOf options.footer file → (R.state reader.new).faults ≡ (R.state reader.old).faults }
    ensures same { SameReader (R.state reader.old) (R.state reader.new) }
    ensures same_cache { SameCache (C.state cache.old) (C.state cache.new) }
{
    serve_steps(
        alloc,
        options,
        cache,
        reader,
        Steps::Compact(script.iter()),
        script.len(),
    )
}
