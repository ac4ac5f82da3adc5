//! The rows of a file, by a reader that is given back.
ghost use Rattle.std.specs.Prelude.{◌≡◌, ◌≤◌, ℕ, List, length, true, Err, Some, IfOk};
ghost use Rattle.std.specs.Option.{option_map};
ghost use Rattle.vx_base.specs.Caches.{nothing_held};
ghost use Rattle.vx_base.specs.Checks.{Gives};
ghost use Rattle.vx_data.specs.Dtype.{dtype_view};
ghost use Rattle.vx_footer.specs.Footers.{segment_table};
ghost use Rattle.vx_rows.specs.Binding.{Fails};
ghost use Rattle.vx_rows.specs.Predicates.{pred_view};
ghost use Rattle.vx_rows.specs.Rows.{column_view};
ghost use Rattle.vx_source.specs.Bytes.{IsEnd};
ghost use Rattle.vx_source.specs.Sources.{HasHistory, AreOfFile, NeverFails};
ghost use Rattle.vx_source.specs.Stands.{AreFit, EndsWithin};
ghost use Rattle.vx_file.specs.declared.scan_error.ScanError.{ScanError};
ghost use Rattle.vx_file.specs.declared.served.ServeError.TheVariants as serve_error;
ghost use Rattle.vx_file.specs.Hints.{IsSized, IsBounded};
ghost use Rattle.vx_file.specs.Plans.{plan_of};
ghost use Rattle.vx_file.specs.ReaderScans.{filter_on, source_by, IsTold, AreTold, IsOfSession, IsOpening, ScanCause, ScansBy, ScanRose};
ghost use Rattle.vx_file.specs.Scanned.{filter_of, is_skipped, IsScanned, ScanStopped};
ghost use Rattle.vx_file.specs.Scans.{SourceFails};

use crate::prepared::{Prepared, prepare, session_of};
use crate::{ScanError, ServeError, ServeOptions, scan_rows};
use std::alloc::Global;
use thiserror::Error;
use vx_base::{NoCache, Reader, SegmentId};
use vx_data::DType;
use vx_footer::{Footer, OpenError};
use vx_rows::{BindError, Bound, Column, Predicate};
use vx_sched::Fault;
use vx_source::{Session, SessionSource, SourceError};

/// Why a reader gave no rows.
#[derive(Clone, Copy, Debug, PartialEq, Eq, Error)]
pub enum ScanReaderError {
    /// The file fails this opening check first.
    #[error("{0}")]
    Open(OpenError),
    /// The size, an opening range, the metadata or a segment could not be read.
    #[error("a read failed")]
    Read(Fault),
    /// The predicate is not one on the rows.
    #[error("{0}")]
    Unbound(BindError),
    /// A layout names a segment that the file has not.
    #[error("no such segment")]
    MissingSegment(SegmentId),
    /// The bytes of a segment are not those of the column.
    #[error("the bytes are not those of the column")]
    BadArray(SegmentId),
    /// A segment has an array id that is not known.
    #[error("the array id is not known")]
    UnknownEncoding(SegmentId),
    #[error("out of memory")]
    OutOfMemory,
}

/// What an error of a scan by a session is told as.
fn scan_failure(error: ScanError) -> ScanReaderError
    requires { IsOfSession error }
    ensures { IsTold error result }
{
    match error {
        ScanError::Segment(id, SourceError::MissingSegment) => ScanReaderError::MissingSegment(id),
        ScanError::Segment(_, SourceError::Fault(fault)) => ScanReaderError::Read(fault),
        ScanError::Segment(_, SourceError::PastEnd) => unreachable!(),
        ScanError::Segment(_, SourceError::CacheFault) => unreachable!(),
        ScanError::Segment(_, SourceError::OutOfMemory) => unreachable!(),
        ScanError::BadArray(id) => ScanReaderError::BadArray(id),
        ScanError::UnknownEncoding(id) => ScanReaderError::UnknownEncoding(id),
        ScanError::OutOfMemory => ScanReaderError::OutOfMemory,
    }
}

/// What the rows of a scan by a session, or its error, are told as.
fn told(rows: Result<Column, ScanError>) -> Result<Column, ScanReaderError>
    requires { (e : ScanError) → rows ≡ Err e → IsOfSession e }
    ensures { AreTold rows result }
{
    match rows {
        Ok(column) => Ok(column),
        Err(error) => Err(scan_failure(error)),
    }
}

/// What an error of opening is told as, over a cache that never fails.
fn opening_failure(error: ServeError) -> ScanReaderError
    requires { error ≡ serve_error.CacheFault → ⊥ }
    ensures { IsOpening error result }
{
    match error {
        ServeError::Open(refusal) => ScanReaderError::Open(refusal),
        ServeError::Fault(fault) => ScanReaderError::Read(fault),
        ServeError::CacheFault => unreachable!(),
        ServeError::OutOfMemory => ScanReaderError::OutOfMemory,
    }
}

/// The filter that a predicate is on rows of a type, if one is given.
fn filter_of_rows(
    alloc: Global,
    filter: Option<Predicate>,
    dtype: &DType,
) -> Result<Option<Bound>, BindError>
    ensures { Gives Fails filter_of result (filter_on (option_map pred_view filter) (dtype_view dtype.now)) }
{
    match filter {
        Some(predicate) => Ok(Some(predicate.bind(alloc, dtype)?)),
        None => Ok(None),
    }
}

/// The rows of an opened file, by a session over its reader, which is given back.
fn scan_session<R: Reader>(
    alloc: Global,
    reader: R,
    session: Session,
    footer: &Footer,
    filter: &Option<Bound>,
) -> (R, Result<Column, ScanError>)
    requires concurrency { session.idle.concurrency ≤ (R.state reader).concurrency }
    requires history { HasHistory session }
    ensures rows { let before = source_by session.table (R.state reader) in let b = filter_of filter.now in
        IfOk result.1 (λ c. IsScanned (AreOfFile session (R.state reader) nothing_held) before footer.now.content b (column_view c)) }
    ensures fails { let before = source_by session.table (R.state reader) in let now = source_by session.table (R.state result.0) in
        (e : ScanError) → result.1 ≡ Err e →
        ScanStopped (AreOfFile session (R.state reader) nothing_held) before now footer.now.content (filter_of filter.now) e }
    ensures cause { let before = source_by session.table (R.state reader) in let now = source_by session.table (R.state result.0) in
        (e : ScanError) → result.1 ≡ Err e → SourceFails before now e }
    ensures unread { is_skipped (filter_of filter.now) footer.now.content ≡ true → R.state result.0 ≡ R.state reader }
    ensures steady { (file : List ℕ) → NeverFails session (R.state reader) file → (R.state result.0).faults ≡ (R.state reader).faults }
    ensures later { (R.state reader).faults ≤ (R.state result.0).faults }
{
    let mut source = SessionSource::new(session, reader, NoCache);
    let rows = scan_rows(alloc, &mut source, footer, filter);
    let (_session, reader, _cache) = source.into_parts();
    (reader, rows)
}

/// The rows of an opened file, by its reader, which is given back.
fn scan_prepared<R: Reader>(
    alloc: Global,
    reader: R,
    prepared: Prepared,
    filter: Option<Predicate>,
) -> (R, Result<Column, ScanReaderError>)
    requires { AreFit (segment_table prepared.footer.content) prepared.tail }
    ensures cause { (file : List ℕ) → (R.state reader).bytes ≡ Some file → IsEnd file prepared.tail →
        ScanCause file (option_map pred_view filter) prepared.footer.content (R.state reader) (R.state result.0) result.1 }
    ensures rose { ScanRose (R.state reader) (R.state result.0) result.1 }
    ensures steady { (file : List ℕ) → (R.state reader).never_fails ≡ true → (R.state reader).bytes ≡ Some file →
        EndsWithin (length file) (segment_table prepared.footer.content) → (R.state result.0).faults ≡ (R.state reader).faults }
    ensures later { (R.state reader).faults ≤ (R.state result.0).faults }
{
    let Prepared {
        footer,
        tail,
        opening: _opening,
        metadata: _metadata,
    } = prepared;
    let filter = match filter_of_rows(alloc, filter, footer.dtype()) {
        Ok(filter) => filter,
        Err(BindError::OutOfMemory) => return (reader, Err(ScanReaderError::OutOfMemory)),
        Err(error) => return (reader, Err(ScanReaderError::Unbound(error))),
    };
    let segments = footer.segment_specs_with_metadata();
    let session = match session_of(alloc, &reader, tail, segments) {
        Ok(session) => session,
        Err(_) => return (reader, Err(ScanReaderError::OutOfMemory)),
    };
    let (reader, rows) = scan_session(alloc, reader, session, &footer, &filter);
    (reader, told(rows))
}

/// The rows of a file, in order; with a predicate those that satisfy it. The file is opened by its reader, which is given
/// back whatever comes; then the predicate is bound, and where the statistics tell that no row satisfies it nothing more is
/// read. A segment that cannot be read is that of the first flat layout, in preorder, that fails.
pub fn scan_reader<R: Reader>(
    alloc: Global,
    options: &ServeOptions,
    reader: R,
    filter: Option<Predicate>,
) -> (R, Result<Column, ScanReaderError>)
    ensures scans { (file : List ℕ) → (R.state reader).bytes ≡ Some file → IsSized options.now file →
        ScansBy (plan_of options.now file) options.now.metadata file (option_map pred_view filter) (R.state reader) (R.state result.0) result.1 }
    ensures rose { ScanRose (R.state reader) (R.state result.0) result.1 }
    // The count of a reader that never fails stands still, where a footer or a size that is supplied is the file's.
    ensures steady { (file : List ℕ) → (R.state reader).never_fails ≡ true → (R.state reader).bytes ≡ Some file →
        IsSized options.now file → IsBounded options.now file → (R.state result.0).faults ≡ (R.state reader).faults }
    ensures later { (R.state reader).faults ≤ (R.state result.0).faults }
{
    let mut reader = reader;
    let mut cache = NoCache;
    match prepare(alloc, options, &mut reader, &mut cache) {
        Ok(prepared) => scan_prepared(alloc, reader, prepared, filter),
        Err(error) => (reader, Err(opening_failure(error))),
    }
}
