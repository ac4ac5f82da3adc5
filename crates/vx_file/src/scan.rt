//! The rows of a file.
ghost use Rattle.std.specs.Prelude.{◌≡◌, ℕ, List, true, false, Some, Err, IfOk};
ghost use Rattle.vx_data.specs.Dtype.{dtype_view};
ghost use Rattle.vx_rows.specs.Bounds.{bound_view};
ghost use Rattle.vx_rows.specs.ReadRows.{no_rows};
ghost use Rattle.vx_rows.specs.Rows.{column_view, rows_len, dtype_of, IsColumn};
ghost use Rattle.vx_source.specs.Sources.{SameSource};
ghost use Rattle.vx_file.specs.declared.scan_error.ScanError.{ScanError};
ghost use Rattle.vx_file.specs.Scans.{NamesFirst, SourceFails, flats_of};
ghost use Rattle.vx_file.specs.Scanned.{is_skipped, filter_of, matching, IsScanned, ScanStopped};

use crate::ScanError;
use crate::layout_reading::read_layout;
use crate::row_filter::keep;
use std::alloc::{AllocError, Global};
use vx_data::DType;
use vx_footer::Footer;
use vx_prune::can_prune_file_stats;
use vx_rows::{Bound, Column, GrowingColumn};
use vx_source::SegmentSource;

/// Whether no row of a file satisfies a filter, as its statistics tell.
fn is_never_met(filter: &Bound, footer: &Footer) -> bool
    ensures { result ≡ is_skipped (Some (bound_view filter.now)) footer.now.content }
{
    match footer.dtype() {
        DType::Struct(_, _) => match footer.statistics() {
            Some(statistics) => {
                can_prune_file_stats(filter, footer.row_count(), statistics, filter.dtype())
            }
            None => false,
        },
        DType::Bool(_) | DType::Int(_, _) | DType::Text(_) => false,
    }
}

/// The same of a filter, if there is one.
fn skips(filter: &Option<Bound>, footer: &Footer) -> bool
    ensures { result ≡ is_skipped (filter_of filter.now) footer.now.content }
{
    match filter {
        Some(filter) => is_never_met(filter, footer),
        None => false,
    }
}

/// A column of a type without rows. Only memory refuses.
pub(crate) fn empty(alloc: Global, dtype: &DType) -> Result<Column, AllocError>
    ensures value { IfOk result (λ c. column_view c ≡ no_rows (dtype_view dtype.now)) }
    ensures typed { IfOk result (λ c. dtype_of (column_view c) ≡ dtype_view dtype.now) }
    ensures sound { IfOk result (λ c. IsColumn (rows_len (column_view c)) (column_view c)) }
{
    let growing = GrowingColumn::new(alloc, dtype)?;
    Ok(growing.finish(alloc)?)
}

/// The rows of a column that match a filter, if there is one. Only memory refuses.
fn matching_rows(
    alloc: Global,
    column: Column,
    filter: &Option<Bound>,
) -> Result<Column, AllocError>
    requires { IsColumn (rows_len (column_view column)) (column_view column) }
    ensures value { IfOk result (λ c. column_view c ≡ matching (filter_of filter.now) (column_view column)) }
    ensures typed { IfOk result (λ c. dtype_of (column_view c) ≡ dtype_of (column_view column)) }
    ensures sound { IfOk result (λ c. IsColumn (rows_len (column_view c)) (column_view c)) }
{
    match filter {
        None => Ok(column),
        Some(filter) => {
            let mask = filter.rows(alloc, &column)?;
            Ok(keep(alloc, &column, &mask)?)
        }
    }
}

/// Reads all rows of a layout, and keeps those that match a filter.
fn read_matching<S: SegmentSource>(
    alloc: Global,
    source: &mut S,
    footer: &Footer,
    filter: &Option<Bound>,
) -> Result<Column, ScanError>
    requires { is_skipped (filter_of filter.now) footer.now.content ≡ false }
    ensures rows { let f = footer.now.content in let b = filter_of filter.now in
        IfOk result (λ c. IsScanned (S.serves source.old) (S.state source.old) f b (column_view c)) }
    ensures fails { let f = footer.now.content in (e : ScanError) → result ≡ Err e →
        NamesFirst (S.serves source.old) (S.state source.old) (S.state source.new) f.array_ids (flats_of f.layout) e }
    ensures cause { (e : ScanError) → result ≡ Err e → SourceFails (S.state source.old) (S.state source.new) e }
    ensures serves { (file : List ℕ) → S.serves source.old file → S.serves source.new file }
    ensures steady { (file : List ℕ) → S.never_fails source.old file →
        S.never_fails source.new file × ((S.state source.new).faults ≡ (S.state source.old).faults) }
    ensures same { SameSource (S.state source.old) (S.state source.new) }
{
    let column = read_layout(alloc, source, footer.layout(), footer.array_ids())?;
    Ok(matching_rows(alloc, column, filter)?)
}

/// The rows of a file, in order; with a filter those that satisfy it. Where the statistics of the file tell that no row
/// does, nothing is read. An error names the first flat layout, in preorder, that could not be read.
pub fn scan_rows<S: SegmentSource>(
    alloc: Global,
    source: &mut S,
    footer: &Footer,
    filter: &Option<Bound>,
) -> Result<Column, ScanError>
    ensures rows { let f = footer.now.content in let b = filter_of filter.now in
        IfOk result (λ c. IsScanned (S.serves source.old) (S.state source.old) f b (column_view c)) }
    ensures fails { let f = footer.now.content in (e : ScanError) → result ≡ Err e →
        ScanStopped (S.serves source.old) (S.state source.old) (S.state source.new) f (filter_of filter.now) e }
    ensures unread { is_skipped (filter_of filter.now) footer.now.content ≡ true → source.new ≡ source.old }
    ensures cause { (e : ScanError) → result ≡ Err e → SourceFails (S.state source.old) (S.state source.new) e }
    ensures serves { (file : List ℕ) → S.serves source.old file → S.serves source.new file }
    ensures steady { (file : List ℕ) → S.never_fails source.old file →
        S.never_fails source.new file × ((S.state source.new).faults ≡ (S.state source.old).faults) }
    ensures same { SameSource (S.state source.old) (S.state source.new) }
{
    if skips(filter, footer) {
        return Ok(empty(alloc, footer.dtype())?);
    }
    read_matching(alloc, source, footer, filter)
}
