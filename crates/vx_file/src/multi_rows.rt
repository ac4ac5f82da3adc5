//! The rows of files that are read as one.
ghost use Rattle.std.specs.Prelude.{◌≡◌, ◌⊎◌, ◌∷◌, ℕ, List, take, map, string_bytes, None, Err, IfOk, OnOk};
ghost use Rattle.vx_base.specs.Openers.{SameOpener};
ghost use Rattle.vx_data.specs.Layout.{dtype_of as type_of_tree};
ghost use Rattle.vx_rows.specs.LayoutRows.{joined};
ghost use Rattle.vx_rows.specs.Rows.{Rows, column_view, dtype_of};
ghost use Rattle.vx_source.specs.Sources.{AreOfFile};
ghost use Rattle.vx_file.specs.declared.multi_error.MultiError.{MultiError};
ghost use Rattle.vx_file.specs.declared.multi_error.MultiError.TheVariants as errors;
ghost use Rattle.vx_file.specs.declared.scan_error.ScanError.{ScanError};
ghost use Rattle.vx_file.specs.Hints.{no_hints};
ghost use Rattle.vx_file.specs.MultiFiles.{chosen_by, HasRows, HasNoRows, AreReadAs, AsksForAll, StopsAmong};

use crate::column_joining::join;
use crate::layout_reading::add;
use crate::multi_file::read_all;
use crate::scan::empty;
use crate::{MultiError, MultiLayoutDataSource, ScanError, VortexOpenOptions, scan_rows};
use std::alloc::Global;
use vx_base::{NoCache, Opener, Reader, SegmentCache};
use vx_footer::Footer;
use vx_rows::Column;
use vx_source::SessionSource;

/// The rows of the first file, from a source of its segments.
fn first_rows<R: Reader, C: SegmentCache>(
    alloc: Global,
    source: &mut SessionSource<R, C>,
    footer: &Footer,
) -> Result<Column, MultiError>
    ensures rows { IfOk result (λ c. HasRows (record {
      footer = footer.now.content;
      metadata = None;
      session = source.old.session;
      reader = R.state source.old.reader;
      cache = C.state source.old.cache;
    }) (column_view c)) }
    ensures fails { (e : MultiError) → result ≡ Err e → (e ≡ errors.OutOfMemory) ⊎ ((x : ScanError) × (e ≡ errors.Scan 0 x) × HasNoRows (record {
      footer = footer.now.content;
      metadata = None;
      session = source.old.session;
      reader = R.state source.old.reader;
      cache = C.state source.old.cache;
    }) x) }
    ensures serves { (file : List ℕ) → AreOfFile source.old.session (R.state source.old.reader) (C.state source.old.cache) file
        → AreOfFile source.new.session (R.state source.new.reader) (C.state source.new.cache) file }
{
    match scan_rows(alloc, source, footer, &None) {
        Ok(rows) => Ok(rows),
        Err(ScanError::OutOfMemory) => Err(MultiError::OutOfMemory),
        Err(error) => Err(MultiError::Scan(0, error)),
    }
}

impl<R: Reader, C: SegmentCache, G> MultiLayoutDataSource<R, C, G> {
    /// The rows of all files, those of a name behind those of the names before. The first file is read where it was opened;
    /// each of the others is opened when its rows come, at each call anew, and then closed.
    pub fn rows<F: Opener<Reader = R>>(
        &mut self,
        alloc: Global,
        files: &mut F,
    ) -> Result<Column, MultiError>
    where
        G: Fn(VortexOpenOptions<NoCache>) -> VortexOpenOptions<C>,
        requires { G.IsAlwaysCallable self.old.options }
        ensures rows { let Chosen = chosen_by (G.post self.old.options) (λ p. (p.options ≡ no_hints) × (p.session ≡ self.old.session))
            (λ o. o.options) (λ o. C.state o.cache) in
            let d = type_of_tree self.old.footer.content.layout in
            IfOk result (λ c. (front : Rows) × (cs : List Rows) × HasRows (record {
              footer = self.old.footer.content;
              metadata = None;
              session = self.old.source.session;
              reader = R.state self.old.source.reader;
              cache = C.state self.old.source.cache;
            }) front × AreReadAs Chosen d (map string_bytes self.old.others.items) (F.state files.old) (F.state files.new) cs
            × (column_view c ≡ joined d (front ∷ cs))) }
        ensures fails { let Chosen = chosen_by (G.post self.old.options) (λ p. (p.options ≡ no_hints) × (p.session ≡ self.old.session))
            (λ o. o.options) (λ o. C.state o.cache) in
            let d = type_of_tree self.old.footer.content.layout in
            (e : MultiError) → result ≡ Err e → ((x : ScanError) × (e ≡ errors.Scan 0 x) × HasNoRows (record {
              footer = self.old.footer.content;
              metadata = None;
              session = self.old.source.session;
              reader = R.state self.old.source.reader;
              cache = C.state self.old.source.cache;
            }) x) ⊎ StopsAmong Chosen d 1 (map string_bytes self.old.others.items) (F.state files.old) (F.state files.new) e }
        ensures all { OnOk result (AsksForAll (map string_bytes self.old.others.items) (F.state files.old) (F.state files.new)) }
        ensures asked { (k : ℕ) × AsksForAll (take k (map string_bytes self.old.others.items)) (F.state files.old) (F.state files.new) }
        ensures footer { self.new.footer ≡ self.old.footer }
        ensures session { self.new.session ≡ self.old.session }
        ensures options { self.new.options ≡ self.old.options }
        ensures others { self.new.others ≡ self.old.others }
        ensures serves { (file : List ℕ) → AreOfFile self.old.source.session (R.state self.old.source.reader) (C.state self.old.source.cache) file
            → AreOfFile self.new.source.session (R.state self.new.source.reader) (C.state self.new.source.cache) file }
        ensures same { SameOpener (F.state files.old) (F.state files.new) }
    {
        let front = match first_rows(alloc, &mut self.source, &self.footer) {
            Ok(rows) => rows,
            Err(error) => return Err(error),
        };
        let like = empty(alloc, self.footer.dtype())?;
        let mut columns = Vec::new(alloc);
        add(&mut columns, front)?;
        match read_all::<F, C, G>(
            alloc,
            &self.session,
            &self.options,
            files,
            self.others.as_slice(),
            &like,
            &mut columns,
        ) {
            Ok(()) => {}
            Err(error) => return Err(error),
        }
        Ok(join(alloc, self.footer.dtype(), columns)?)
    }
}
