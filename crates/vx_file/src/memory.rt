//! Serves a file in memory.
ghost use Rattle.std.specs.Prelude.{◌≡◌, ℕ, List, Some, None, IsOk, true};
ghost use Rattle.vx_base.specs.Caches.{nothing_held};
ghost use Rattle.vx_base.specs.Readers.{SameReader};
ghost use Rattle.vx_footer.specs.Opening.{vx_grammar};
ghost use Rattle.vx_file.specs.Hints.{no_hints};
ghost use Rattle.vx_file.specs.Memory.{ServesMemory};
ghost use Rattle.vx_file.specs.Serving.{HasCause, FaultRose, NamesCheck, StandsStill, Succeeds};

use crate::{Script, ServeError, ServeOptions, Served, serve_script};
use std::alloc::Global;
use vx_base::{ByteBuffer, MemReader, NoCache, Reader};
use vx_data::VortexSession;

/// The most ranges that one call asks of a file in memory.
const CONCURRENCY: usize = 8;

/// Serves a script from a file of which nothing is known, without a cache.
fn serve_unknown<R: Reader>(
    alloc: Global,
    session: VortexSession,
    reader: &mut R,
    script: &Script,
) -> Result<Served, ServeError>
    ensures cause { (file : List ℕ) → (R.state reader.old).bytes ≡ Some file →
        HasCause no_hints file script.now (R.state reader.old) (R.state reader.new) nothing_held nothing_held result }
    ensures fault { FaultRose (R.state reader.old) (R.state reader.new) nothing_held nothing_held result }
    ensures names { NamesCheck result }
    ensures served { (file : List ℕ) → (R.state reader.old).bytes ≡ Some file → IsOk (vx_grammar file None) →
        StandsStill (R.state reader.old).faults (R.state reader.new).faults → Succeeds result }
    ensures steady { (file : List ℕ) → (R.state reader.old).never_fails ≡ true → (R.state reader.old).bytes ≡ Some file →
        (R.state reader.new).faults ≡ (R.state reader.old).faults }
    ensures same { SameReader (R.state reader.old) (R.state reader.new) }
{
    let mut cache = NoCache;
    serve_script(
        alloc,
        ServeOptions::new(session),
        &mut cache,
        reader,
        script,
    )
}

/// Serves a script from a file in memory, as `serve` does without a cache: no read of it fails.
pub fn serve_in_memory(
    alloc: Global,
    file: ByteBuffer,
    script: &Script,
) -> Result<Served, ServeError>
    ensures { ServesMemory file.bytes script.now result }
{
    let session = VortexSession::new(alloc)?;
    let mut reader = MemReader::new(alloc, file, None, None, CONCURRENCY, Vec::new(alloc))?;
    serve_unknown(alloc, session, &mut reader, script)
}
