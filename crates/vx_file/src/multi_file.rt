//! The files of many names as one, of which each but the first is opened when its rows come.
ghost use Rattle.std.specs.Prelude.{◌≡◌, ◌⊎◌, ◌∷◌, [], ◌++◌, ℕ, List, ◌<◌, length, slice_get, take, map, string_bytes, None, Some, Err, IfOk, OnOk};
ghost use Rattle.vx_base.specs.Openers.{SameOpener};
ghost use Rattle.vx_data.specs.Dtype.{dtype_view};
ghost use Rattle.vx_data.specs.Layout.{dtype_of as type_of_tree};
ghost use Rattle.vx_rows.specs.Rows.{Rows, column_view, dtype_of};
ghost use Rattle.vx_file.specs.declared.multi_error.MultiError.{MultiError};
ghost use Rattle.vx_file.specs.declared.multi_error.MultiError.TheVariants as errors;
ghost use Rattle.vx_file.specs.Hints.{no_hints};
ghost use Rattle.vx_file.specs.MultiFiles.{chosen_by, names_of, OpensAs, AreReadAs, AsksForAll, StopsOpening, StopsAmong};
ghost use Rattle.vx_file.specs.Scans.{seen};

use crate::layout_reading::add;
use crate::named_files::{open_named, read_named};
use crate::{MultiError, VortexOpenOptions};
use std::alloc::Global;
use vx_base::{NoCache, Opener, Reader, SegmentCache, Sequence};
use vx_data::{DType, VortexSession};
use vx_footer::Footer;
use vx_rows::Column;
use vx_source::SessionSource;

/// The names of files that are to be read as one, and the function that chooses how each is opened.
#[derive(Drop)]
pub struct MultiFileDataSource<G> {
    session: VortexSession,
    options: G,
    names: Option<Sequence<String>>,
}

/// Files that are read as one: the first, which is opened, and the names of the others.
#[derive(Drop)]
pub struct MultiLayoutDataSource<R: Reader, C: SegmentCache, G> {
    pub(crate) session: VortexSession,
    pub(crate) options: G,
    pub(crate) footer: Footer,
    pub(crate) source: SessionSource<R, C>,
    pub(crate) others: Vec<String>,
}

impl<G> MultiFileDataSource<G> {
    /// No file yet, with the function that chooses how files are opened.
    pub fn new(session: VortexSession, options: G) -> MultiFileDataSource<G>
        ensures session { result.session ≡ session }
        ensures options { result.options ≡ options }
        ensures names { result.names ≡ None }
    {
        MultiFileDataSource {
            session,
            options,
            names: None,
        }
    }

    /// The same with these names in place of any others.
    pub fn with_named_files(self, names: Vec<String>) -> MultiFileDataSource<G>
        ensures session { result.session ≡ self.session }
        ensures options { result.options ≡ self.options }
        ensures names { result.names ≡ Some names.items }
    {
        let MultiFileDataSource {
            session,
            options,
            names: _old,
        } = self;
        MultiFileDataSource {
            session,
            options,
            names: Some(Sequence::from_vec(names)),
        }
    }

    /// Opens the first file. Without names there is none.
    pub fn build<F: Opener, C: SegmentCache>(
        self,
        alloc: Global,
        files: &mut F,
    ) -> Result<MultiLayoutDataSource<F::Reader, C, G>, MultiError>
    where
        G: Fn(VortexOpenOptions<NoCache>) -> VortexOpenOptions<C>,
        requires { G.IsAlwaysCallable self.options }
        ensures opens { let Chosen = chosen_by (G.post self.options) (λ p. (p.options ≡ no_hints) × (p.session ≡ self.session))
            (λ o. o.options) (λ o. C.state o.cache) in
            IfOk result (λ m. (name : List ℕ) × (metadata : _) × (names_of self.names ≡ name ∷ map string_bytes m.others.items)
            × OpensAs Chosen name (F.state files.old) (F.state files.new) (record {
              footer = m.footer.content;
              metadata = metadata;
              session = m.source.session;
              reader = F.Reader.state m.source.reader;
              cache = C.state m.source.cache;
            })) }
        ensures session { IfOk result (λ m. m.session ≡ self.session) }
        ensures options { IfOk result (λ m. m.options ≡ self.options) }
        ensures asked { OnOk result (AsksForAll (take 1 (names_of self.names)) (F.state files.old) (F.state files.new)) }
        ensures nameless { result ≡ Err errors.NoFiles → names_of self.names ≡ [] }
        ensures no_files { names_of self.names ≡ [] → result ≡ Err errors.NoFiles }
        ensures unasked { result ≡ Err errors.NoFiles → files.new ≡ files.old }
        ensures stops { let Chosen = chosen_by (G.post self.options) (λ p. (p.options ≡ no_hints) × (p.session ≡ self.session))
            (λ o. o.options) (λ o. C.state o.cache) in
            (e : MultiError) → result ≡ Err e → (e ≡ errors.NoFiles) ⊎ ((name : List ℕ) × (take 1 (names_of self.names) ≡ name ∷ [])
            × StopsOpening Chosen 0 name (F.state files.old) (F.state files.new) e) }
        ensures same { SameOpener (F.state files.old) (F.state files.new) }
    {
        let MultiFileDataSource {
            session,
            options,
            names,
        } = self;
        let mut names = match names {
            Some(names) => names.into_vec(),
            None => return Err(MultiError::NoFiles),
        };
        if names.is_empty() {
            return Err(MultiError::NoFiles);
        }
        let name = names.remove(0);
        let file = match open_named::<F, C, G>(alloc, &session, &options, files, name.as_str(), 0) {
            Ok(file) => file,
            Err(error) => return Err(error),
        };
        let (footer, source) = file.into_parts();
        Ok(MultiLayoutDataSource {
            session,
            options,
            footer,
            source,
            others: names,
        })
    }
}

/// One of the names.
#[tactic(auto, using(crate::proofs::MultiLemmas::name_there))]
fn name_at(names: &[String], at: usize) -> &str
    requires { at < length names.now }
    ensures { slice_get (map string_bytes names.now) at ≡ Some result.now }
{
    names[at].as_str()
}

/// The rows of the files of names, behind columns of the same type.
pub(crate) fn read_all<
    F: Opener,
    C: SegmentCache,
    G: Fn(VortexOpenOptions<NoCache>) -> VortexOpenOptions<C>,
>(
    alloc: Global,
    session: &VortexSession,
    options: &G,
    files: &mut F,
    names: &[String],
    like: &Column,
    columns: &mut Vec<Column>,
) -> Result<(), MultiError>
    requires { G.IsAlwaysCallable options.now }
    ensures reads { let Chosen = chosen_by (G.post options.now) (λ p. (p.options ≡ no_hints) × (p.session ≡ session.now))
        (λ o. o.options) (λ o. C.state o.cache) in
        OnOk result ((cs : List Rows) × (seen columns.new.items ≡ seen columns.old.items ++ cs)
        × AreReadAs Chosen (dtype_of (column_view like.now)) (map string_bytes names.now) (F.state files.old) (F.state files.new) cs) }
    ensures stops { let Chosen = chosen_by (G.post options.now) (λ p. (p.options ≡ no_hints) × (p.session ≡ session.now))
        (λ o. o.options) (λ o. C.state o.cache) in
        (e : MultiError) → result ≡ Err e →
        StopsAmong Chosen (dtype_of (column_view like.now)) 1 (map string_bytes names.now) (F.state files.old) (F.state files.new) e }
    ensures all { OnOk result (AsksForAll (map string_bytes names.now) (F.state files.old) (F.state files.new)) }
    ensures asked { (k : ℕ) × AsksForAll (take k (map string_bytes names.now)) (F.state files.old) (F.state files.new) }
    ensures same { SameOpener (F.state files.old) (F.state files.new) }
{
    for at in 0..names.len() {
        let column = match read_named::<F, C, G>(
            alloc,
            session,
            options,
            files,
            name_at(names, at),
            at + 1,
            like,
        ) {
            Ok(column) => column,
            Err(error) => return Err(error),
        };
        add(columns, column)?;
    }
    Ok(())
}

impl<R: Reader, C: SegmentCache, G> MultiLayoutDataSource<R, C, G> {
    /// The type of the rows, which is that of the first file.
    pub fn dtype(&self) -> &DType
        ensures { dtype_view result.now ≡ type_of_tree self.now.footer.content.layout }
    {
        self.footer.dtype()
    }
}
