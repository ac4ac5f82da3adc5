//! Serves scripts from the files of names.
ghost use Rattle.std.specs.Prelude.{◌≡◌, ℕ, List, Some, None, true};
ghost use Rattle.vx_base.specs.Openers.{SameOpener};
ghost use Rattle.vx_base.specs.Readers.{SameReader};
ghost use Rattle.vx_file.specs.Hints.{IsSizeOf};
ghost use Rattle.vx_commands.specs.Command.{typed_hints};
ghost use Rattle.vx_commands.specs.Outside.{OpenerSteady};
ghost use Rattle.vx_commands.specs.Reading.{settings_by};
ghost use Rattle.vx_commands.specs.Sizes.{OpensFile};
ghost use Rattle.vx_commands.specs.Served.{FileCause, ReaderCause, ReaderFault};

use crate::failure::Failure;
use crate::name::Name;
use crate::reading::Reading;
use crate::row_type::RowType;
use std::alloc::Global;
use vx_base::{NoCache, Opener, OpenerError, Reader, SegmentCache};
use vx_file::{Script, ServeError, ServeOptions, Served, serve_script};

/// Serves a script by a reader, over a cache that never fails.
#[tactic(auto, using(crate::proofs::Openings::is_sized, crate::proofs::Openings::is_own_footer))]
fn serve_reader<'a, R: Reader, C: SegmentCache>(
    alloc: Global,
    options: ServeOptions,
    cache: &mut C,
    reader: &mut R,
    script: &Script,
) -> Result<Served, Failure<'a>>
    requires never { (C.state cache.old).never_fails ≡ true }
    requires none { (C.state cache.old).faults ≡ 0 }
    requires no_footer { options.footer ≡ None }
    ensures cause { (file : List ℕ) → (R.state reader.old).bytes ≡ Some file → IsSizeOf options.size file →
        ReaderCause options file script.now (R.state reader.old) (R.state reader.new) (C.state cache.old) (C.state cache.new) result }
    ensures read { ReaderFault (R.state reader.old) (R.state reader.new) result }
    ensures steady { (file : List ℕ) → (R.state reader.old).never_fails ≡ true → (R.state reader.old).bytes ≡ Some file →
        IsSizeOf options.size file → (R.state reader.new).faults ≡ (R.state reader.old).faults }
    ensures same { SameReader (R.state reader.old) (R.state reader.new) }
    ensures still { (C.state cache.new).faults ≡ 0 }
{
    match serve_script(alloc, options, cache, reader, script) {
        Ok(served) => Ok(served),
        Err(ServeError::Open(refusal)) => Err(Failure::Refused(refusal)),
        Err(ServeError::Fault(fault)) => Err(Failure::Read(fault)),
        Err(ServeError::CacheFault) => unreachable!(),
        Err(ServeError::OutOfMemory) => Err(Failure::OutOfMemory),
    }
}

/// Serves a script from the file of a name, over a cache that never fails. The reader is given back.
pub(crate) fn serve_name<'a, F: Opener, C: SegmentCache>(
    alloc: Global,
    files: &mut F,
    options: ServeOptions,
    reading: &Reading,
    cache: &mut C,
    name: &'a str,
    script: &Script,
) -> Result<Served, Failure<'a>>
    requires never { (C.state cache.old).never_fails ≡ true }
    requires none { (C.state cache.old).faults ≡ 0 }
    requires no_footer { options.footer ≡ None }
    ensures cause { FileCause options (settings_by reading.now) (C.state cache.old) name.now script.now (F.state files.old) (F.state files.new) result }
    ensures steady { OpenerSteady options.size name.now (F.state files.old) (F.state files.new) }
    ensures same { SameOpener (F.state files.old) (F.state files.new) }
{
    let reader = match files.open_named(alloc, name) {
        Ok(reader) => reader,
        Err(OpenerError::Failed) => return Err(Failure::Open(Name::of(name))),
        Err(OpenerError::OutOfMemory) => return Err(Failure::OutOfMemory),
    };
    let mut windowed = reading.window(reader);
    let served = serve_reader(alloc, options, cache, &mut windowed, script);
    files.take_back(alloc, name, windowed.into_inner())?;
    served
}

/// Opens the file of a name of which nothing but the type may be known: serves no step from it.
pub(crate) fn open_name<'a, F: Opener>(
    alloc: Global,
    files: &mut F,
    dtype: &RowType,
    name: &Name<'a>,
) -> Result<Served, Failure<'a>>
    ensures cause { OpensFile (typed_hints dtype.now) name.now (F.state files.old) (F.state files.new) result }
    ensures steady { OpenerSteady None name.now (F.state files.old) (F.state files.new) }
    ensures same { SameOpener (F.state files.old) (F.state files.new) }
{
    let options = dtype.options(alloc)?;
    let mut cache = NoCache;
    let script = Script::new(alloc);
    serve_name(
        alloc,
        files,
        options,
        &Reading::plain(),
        &mut cache,
        name.as_str(),
        &script,
    )
}
