//! The files of names, each opened by options that are chosen anew, and their rows.
ghost use Rattle.std.specs.Prelude.{◌≡◌, ◌⊎◌, ℕ, List, None, Err, IfOk, OnOk, OnErr};
ghost use Rattle.vx_base.specs.Openers.{AsksFor, SameOpener};
ghost use Rattle.vx_data.specs.Dtype.{dtype_view};
ghost use Rattle.vx_data.specs.Layout.{dtype_of as type_of_tree};
ghost use Rattle.vx_rows.specs.Rows.{column_view, dtype_of};
ghost use Rattle.vx_file.specs.declared.multi_error.MultiError.{MultiError};
ghost use Rattle.vx_file.specs.Hints.{no_hints};
ghost use Rattle.vx_file.specs.declared.scan_error.ScanError.{ScanError};
ghost use Rattle.vx_file.specs.MultiFiles.{chosen_by, OpensAs, HasRows, HasNoRows, ReadsAs, StopsOpening, StopsReading};

use crate::path_opening::OpenPathError;
use crate::{
    MultiError, OpenOptionsSessionExt, ScanError, VortexFile, VortexOpenOptions, scan_rows,
};
use std::alloc::Global;
use vx_base::{NoCache, Opener, Reader, SegmentCache};
use vx_data::{DType, VortexSession};
use vx_rows::Column;
use vx_source::SessionSource;

/// Opens the file of a name by options that a function chooses. Its index tells it from others.
pub(crate) fn open_named<
    F: Opener,
    C: SegmentCache,
    G: Fn(VortexOpenOptions<NoCache>) -> VortexOpenOptions<C>,
>(
    alloc: Global,
    session: &VortexSession,
    options: &G,
    files: &mut F,
    name: &str,
    index: usize,
) -> Result<VortexFile<SessionSource<F::Reader, C>>, MultiError>
    requires { G.IsAlwaysCallable options.now }
    ensures opens { let Chosen = chosen_by (G.post options.now) (λ p. (p.options ≡ no_hints) × (p.session ≡ session.now))
        (λ o. o.options) (λ o. C.state o.cache) in
        IfOk result (λ f. OpensAs Chosen name.now (F.state files.old) (F.state files.new) (record {
          footer = f.footer.content;
          metadata = f.metadata;
          session = f.source.session;
          reader = F.Reader.state f.source.reader;
          cache = C.state f.source.cache;
        })) }
    ensures stops { let Chosen = chosen_by (G.post options.now) (λ p. (p.options ≡ no_hints) × (p.session ≡ session.now))
        (λ o. o.options) (λ o. C.state o.cache) in
        (e : MultiError) → result ≡ Err e → StopsOpening Chosen index name.now (F.state files.old) (F.state files.new) e }
    ensures asked { OnOk result (AsksFor name.now (F.state files.old) (F.state files.new)) }
    ensures stopped { OnErr result (AsksFor name.now (F.state files.old) (F.state files.new) ⊎ ((F.state files.new).asked ≡ (F.state files.old).asked)) }
    ensures same { SameOpener (F.state files.old) (F.state files.new) }
{
    let plain = match session.open_options(alloc) {
        Ok(plain) => plain,
        Err(_) => return Err(MultiError::OutOfMemory),
    };
    let chosen = options(plain);
    match chosen.open_path(alloc, files, name) {
        Ok(file) => Ok(file),
        Err(OpenPathError::Opener) => Err(MultiError::Opener(index)),
        Err(OpenPathError::Serve(error)) => Err(MultiError::Serve(index, error)),
        Err(OpenPathError::OutOfMemory) => Err(MultiError::OutOfMemory),
    }
}

/// The rows of an opened file, which is then closed.
fn rows_of<R: Reader, C: SegmentCache>(
    alloc: Global,
    file: VortexFile<SessionSource<R, C>>,
) -> Result<Column, ScanError>
    ensures rows { IfOk result (λ c. HasRows (record {
      footer = file.footer.content;
      metadata = file.metadata;
      session = file.source.session;
      reader = R.state file.source.reader;
      cache = C.state file.source.cache;
    }) (column_view c)) }
    ensures fails { (e : ScanError) → result ≡ Err e → HasNoRows (record {
      footer = file.footer.content;
      metadata = file.metadata;
      session = file.source.session;
      reader = R.state file.source.reader;
      cache = C.state file.source.cache;
    }) e }
{
    let (footer, source) = file.into_parts();
    let mut source = source;
    scan_rows(alloc, &mut source, &footer, &None)
}

/// The rows of the file of a name, which are to have the type of a column.
pub(crate) fn read_named<
    F: Opener,
    C: SegmentCache,
    G: Fn(VortexOpenOptions<NoCache>) -> VortexOpenOptions<C>,
>(
    alloc: Global,
    session: &VortexSession,
    options: &G,
    files: &mut F,
    name: &str,
    index: usize,
    like: &Column,
) -> Result<Column, MultiError>
    requires { G.IsAlwaysCallable options.now }
    ensures reads { let Chosen = chosen_by (G.post options.now) (λ p. (p.options ≡ no_hints) × (p.session ≡ session.now))
        (λ o. o.options) (λ o. C.state o.cache) in
        IfOk result (λ c. ReadsAs Chosen (dtype_of (column_view like.now)) name.now (F.state files.old) (F.state files.new) (column_view c)) }
    ensures stops { let Chosen = chosen_by (G.post options.now) (λ p. (p.options ≡ no_hints) × (p.session ≡ session.now))
        (λ o. o.options) (λ o. C.state o.cache) in
        (e : MultiError) → result ≡ Err e →
        StopsReading Chosen (dtype_of (column_view like.now)) index name.now (F.state files.old) (F.state files.new) e }
    ensures asked { OnOk result (AsksFor name.now (F.state files.old) (F.state files.new)) }
    ensures stopped { OnErr result (AsksFor name.now (F.state files.old) (F.state files.new) ⊎ ((F.state files.new).asked ≡ (F.state files.old).asked)) }
    ensures same { SameOpener (F.state files.old) (F.state files.new) }
{
    let file = match open_named::<F, C, G>(alloc, session, options, files, name, index) {
        Ok(file) => file,
        Err(error) => return Err(error),
    };
    if !like.dtype_is(file.dtype()) {
        return Err(MultiError::DTypeMismatch(index));
    }
    match rows_of(alloc, file) {
        Ok(rows) => Ok(rows),
        Err(ScanError::OutOfMemory) => Err(MultiError::OutOfMemory),
        Err(error) => Err(MultiError::Scan(index, error)),
    }
}
