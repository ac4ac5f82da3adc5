//! Scans of opened files.
ghost use Rattle.std.specs.Prelude.{◌≡◌, Some, None, Err, IfOk};
ghost use Rattle.vx_rows.specs.Rows.{column_view};
ghost use Rattle.vx_file.specs.declared.scan_error.ScanError.{ScanError};
ghost use Rattle.vx_file.specs.Scanned.{filter_of, IsScanned, ScanEnds};

use crate::{ScanError, VortexFile, scan_rows};
use std::alloc::Global;
use vx_rows::{Bound, Column};
use vx_source::SegmentSource;

/// A scan of a file, before it is run.
#[derive(Drop)]
pub struct ScanBuilder<'a, S: SegmentSource> {
    file: &'a mut VortexFile<S>,
    filter: Option<Bound>,
}

impl<'a, S: SegmentSource> ScanBuilder<'a, S> {
    /// The same with a filter in place of any other.
    pub fn with_filter(self, filter: Bound) -> ScanBuilder<'a, S>
        ensures same_reference { result.file.ghost_name ≡ self.entry.file.ghost_name }
        ensures file { result.file.now ≡ self.entry.file.now }
        ensures filter { result.filter ≡ Some filter }
    {
        let ScanBuilder { file, filter: _old } = self;
        ScanBuilder {
            file,
            filter: Some(filter),
        }
    }

    /// The rows of the file, as `scan_rows` gives them.
    pub fn read(self, alloc: Global) -> Result<Column, ScanError>
        ensures rows { let v = self.entry.file.now in let b = filter_of self.entry.filter in
            IfOk result (λ c. IsScanned (S.serves v.source) (S.state v.source) v.footer.content b (column_view c)) }
        ensures fails { let v = self.entry.file.now in let b = filter_of self.entry.filter in
            (e : ScanError) → result ≡ Err e → ScanEnds (S.serves v.source) (S.state v.source) v.footer.content b e }
    {
        let ScanBuilder { file, filter } = self;
        scan_rows(alloc, &mut file.source, &file.footer, &filter)
    }
}

impl<S: SegmentSource> VortexFile<S> {
    /// Begins a scan of the rows, without a filter.
    pub fn scan(&mut self) -> ScanBuilder<'_, S>
        ensures file { result.file.now ≡ self.old }
        ensures filter { result.filter ≡ None }
    {
        ScanBuilder {
            file: self,
            filter: None,
        }
    }
}
