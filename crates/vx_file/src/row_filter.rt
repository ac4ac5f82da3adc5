//! The rows of a column that a mask keeps.
ghost use Rattle.std.specs.Prelude.{◌≡◌, ◌≤◌, ◌<◌, ℕ, true, false, length, slice_index_or, IfOk};
ghost use Rattle.vx_rows.specs.Rows.{column_view, rows_len, dtype_of, IsColumn};
ghost use Rattle.vx_file.specs.Kept.{kept_rows, KeepsRows};

use std::alloc::{AllocError, Global};
use vx_rows::{Column, GrowingColumn, Mask};

/// The first row that is kept, from a row on; the number of rows where there is none.
fn next_kept(mask: &Mask, from: usize) -> usize
    requires { from ≤ length mask.now }
    ensures behind { from ≤ result }
    ensures inside { result ≤ length mask.now }
    ensures not_kept { (k : ℕ) → from ≤ k → k < result → slice_index_or mask.now k true ≡ false }
    ensures kept { result < length mask.now → slice_index_or mask.now result true ≡ true }
{
    let mut at = mask.skip(from, false);
    while at < mask.len() {
        if mask.get(at) {
            return at;
        }
        at += 1;
    }
    at
}

/// The first row that is not kept, from a row on; the number of rows where there is none.
fn run_end(mask: &Mask, from: usize) -> usize
    requires { from ≤ length mask.now }
    ensures behind { from ≤ result }
    ensures inside { result ≤ length mask.now }
    ensures kept { (k : ℕ) → from ≤ k → k < result → slice_index_or mask.now k true ≡ true }
    ensures not_kept { result < length mask.now → slice_index_or mask.now result true ≡ false }
{
    let mut at = mask.skip(from, true);
    while at < mask.len() {
        if !mask.get(at) {
            return at;
        }
        at += 1;
    }
    at
}

/// The rows of a column that a mask keeps, in order, run by run. Only memory refuses.
fn keep_runs(alloc: Global, column: &Column, mask: &Mask) -> Result<Column, AllocError>
    requires even { IsColumn (rows_len (column_view column.now)) (column_view column.now) }
    requires long { length mask.now ≡ rows_len (column_view column.now) }
    ensures value { IfOk result (λ c. column_view c ≡ kept_rows mask.now (column_view column.now)) }
    ensures typed { IfOk result (λ c. dtype_of (column_view c) ≡ dtype_of (column_view column.now)) }
    ensures sound { IfOk result (λ c. IsColumn (rows_len (column_view c)) (column_view c)) }
{
    let dtype = column.dtype(alloc)?;
    let mut growing = GrowingColumn::new(alloc, &dtype)?;
    let mut at = 0;
    while at < mask.len() {
        let from = next_kept(mask, at);
        let to = run_end(mask, from);
        growing.append(alloc, column, from, to)?;
        at = to;
    }
    Ok(growing.finish(alloc)?)
}

/// The rows of a column that a mask keeps, in order. Only memory refuses.
pub(crate) fn keep(alloc: Global, column: &Column, mask: &Mask) -> Result<Column, AllocError>
    requires even { IsColumn (rows_len (column_view column.now)) (column_view column.now) }
    requires long { length mask.now ≡ rows_len (column_view column.now) }
    ensures value { IfOk result (λ c. column_view c ≡ kept_rows mask.now (column_view column.now)) }
    ensures typed { IfOk result (λ c. dtype_of (column_view c) ≡ dtype_of (column_view column.now)) }
    ensures sound { IfOk result (λ c. IsColumn (rows_len (column_view c)) (column_view c)) }
{
    let from = next_kept(mask, 0);
    let to = run_end(mask, from);
    if next_kept(mask, to) == mask.len() {
        // one run, whose values are shared and not copied
        return Ok(column.part(alloc, from, to)?);
    }
    keep_runs(alloc, column, mask)
}

/// What a mask keeps of a column has the rows that the mask keeps, in order.
#[tactic(auto, using(crate::proofs::KeepingLemmas::keeps_rows))]
pub fn kept_rows_are_in_order()
    ensures { KeepsRows }
{}
