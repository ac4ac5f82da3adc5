//! Scans of the files of names.
ghost use Rattle.std.specs.Prelude.{◌≡◌, None, false};
ghost use Rattle.std.specs.Option.{option_map};
ghost use Rattle.vx_base.specs.Openers.{SameOpener};
ghost use Rattle.vx_rows.specs.Predicates.{pred_view};
ghost use Rattle.vx_commands.specs.Outside.{OpenerSteady};
ghost use Rattle.vx_commands.specs.Scans.{NameScan, AreTold, scan_failure};

use crate::failure::Failure;
use crate::name::Name;
use std::alloc::Global;
use vx_base::{Opener, OpenerError};
use vx_file::{ScanReaderError, ServeOptions, scan_reader};
use vx_rows::{ArrayError, Column, Predicate};

/// Why a file was not scanned.
fn failure_of<'a>(error: ScanReaderError) -> Failure<'a>
    ensures { result ≡ scan_failure error }
{
    match error {
        ScanReaderError::Open(refusal) => Failure::Refused(refusal),
        ScanReaderError::Read(fault) => Failure::Read(fault),
        ScanReaderError::Unbound(error) => Failure::Unbound(error),
        ScanReaderError::MissingSegment(_) => Failure::MissingSegment,
        ScanReaderError::BadArray(_) => Failure::Undecoded(ArrayError::BadArray),
        ScanReaderError::UnknownEncoding(_) => Failure::Undecoded(ArrayError::UnknownEncoding),
        ScanReaderError::OutOfMemory => Failure::OutOfMemory,
    }
}

/// What the program answers where a scan answers this.
fn told<'a>(rows: Result<Column, ScanReaderError>) -> Result<Column, Failure<'a>>
    ensures { AreTold rows result }
{
    match rows {
        Ok(column) => Ok(column),
        Err(error) => Err(failure_of(error)),
    }
}

/// The rows of the file of a name; with a predicate those that satisfy it. The reader is given back.
pub(crate) fn scan_name<'a, F: Opener>(
    alloc: Global,
    files: &mut F,
    options: &ServeOptions,
    predicate: Option<Predicate>,
    name: &'a str,
) -> Result<Column, Failure<'a>>
    requires no_footer { options.now.footer ≡ None }
    requires no_metadata { options.now.metadata ≡ false }
    ensures cause { NameScan options.now (option_map pred_view predicate) name.now (F.state files.old) (F.state files.new) result }
    ensures steady { OpenerSteady options.now.size name.now (F.state files.old) (F.state files.new) }
    ensures same { SameOpener (F.state files.old) (F.state files.new) }
{
    let reader = match files.open_named(alloc, name) {
        Ok(reader) => reader,
        Err(OpenerError::Failed) => return Err(Failure::Open(Name::of(name))),
        Err(OpenerError::OutOfMemory) => return Err(Failure::OutOfMemory),
    };
    let (reader, rows) = scan_reader(alloc, options, reader, predicate);
    files.take_back(alloc, name, reader)?;
    told(rows)
}
