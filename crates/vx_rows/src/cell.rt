//! Values of rows, and what comparisons and sums of them are.
ghost use Rattle.std.specs.Prelude.{◌≡◌};
ghost use Rattle.vx_data.specs.Scalar.{scalar_view};
ghost use Rattle.std.specs.Option.{option_map};
ghost use Rattle.vx_rows.specs.Rows.{column_view};
ghost use Rattle.vx_rows.specs.RowValues.{cell, row_in, value_cell, bool_cell, int_cell, text_cell};
ghost use Rattle.vx_rows.specs.Truth.{to_truth, is_null as null_cell, meets, compared, summed};
ghost use Rattle.vx_rows.specs.CellViews.{cell_view};

use crate::kind::{Kind, fits};
use crate::{BindError, Column, Comparison};
use std::cmp::Ordering;
use vx_data::Scalar;

/// What a row is by itself.
#[derive(Clone, Copy)]
pub enum Cell<'a> {
    Null,
    Bool(bool),
    Int(i128),
    Text(&'a str),
    Struct,
}

/// A truth value, or null.
#[inline(always)]
pub fn of_truth<'a>(truth: Option<bool>) -> Cell<'a>
    ensures { cell_view result ≡ bool_cell truth }
{
    match truth {
        None => Cell::Null,
        Some(b) => Cell::Bool(b),
    }
}

/// An integer, or null.
#[inline(always)]
pub fn of_number<'a>(number: Option<i128>) -> Cell<'a>
    ensures { cell_view result ≡ int_cell number }
{
    match number {
        None => Cell::Null,
        Some(n) => Cell::Int(n),
    }
}

/// A text, or null.
#[inline(always)]
fn of_text(text: Option<&str>) -> Cell<'_>
    ensures { cell_view result ≡ text_cell (option_map (λ t. t.now) text.entry) }
{
    match text {
        None => Cell::Null,
        Some(t) => Cell::Text(t),
    }
}

/// A literal.
pub fn of_scalar(value: &Option<Scalar>) -> Cell<'_>
    ensures { cell_view result ≡ value_cell (option_map scalar_view value.now) }
{
    match value {
        None => Cell::Null,
        Some(Scalar::Bool(b)) => Cell::Bool(*b),
        Some(Scalar::Int(n)) => Cell::Int(*n),
        Some(Scalar::Text(t)) => Cell::Text(t.as_str()),
    }
}

/// A row of a column.
#[inline(always)]
pub fn of_row(column: &Column, row: usize) -> Cell<'_>
    ensures { cell_view result ≡ cell (row_in (column_view column.now) row) }
{
    match column {
        Column::Bool(values) => of_truth(values.get(row)),
        Column::Int(values) => of_number(values.get(row)),
        Column::Text(values) => of_text(values.get(row)),
        Column::Struct(rows, _) => {
            if !rows.has(row) {
                return Cell::Null;
            }
            Cell::Struct
        }
    }
}

/// Whether a comparison holds of values in this order.
#[inline(always)]
pub fn is_met(op: Comparison, order: Ordering) -> bool
    ensures { result ≡ meets op order }
{
    match op {
        Comparison::Eq => order.is_eq(),
        Comparison::Ne => order.is_ne(),
        Comparison::Lt => order.is_lt(),
        Comparison::Le => order.is_le(),
        Comparison::Gt => order.is_gt(),
        Comparison::Ge => order.is_ge(),
    }
}

/// A comparison of values; null where an operand is.
#[inline(always)]
pub fn compare(op: Comparison, a: Cell, b: Cell) -> Option<bool>
    ensures { result ≡ compared op (cell_view a.entry) (cell_view b.entry) }
{
    match (a, b) {
        (Cell::Bool(x), Cell::Bool(y)) => Some(is_met(op, x.cmp(&y))),
        (Cell::Int(x), Cell::Int(y)) => Some(is_met(op, x.cmp(&y))),
        (Cell::Text(x), Cell::Text(y)) => Some(is_met(op, x.cmp(y))),
        _ => None,
    }
}

/// A sum within a type; null where an operand is.
#[inline(always)]
pub fn add(kind: Result<Kind, BindError>, a: Cell, b: Cell) -> Option<i128>
    ensures { result ≡ summed kind (cell_view a.entry) (cell_view b.entry) }
{
    let ptype = match kind {
        Ok(Kind::Int(ptype)) => ptype,
        _ => return None,
    };
    match (a, b) {
        (Cell::Int(x), Cell::Int(y)) => {
            let sum = x.checked_add(y)?;
            if !fits(ptype, sum) {
                return None;
            }
            Some(sum)
        }
        _ => None,
    }
}

/// A cell as a truth value: null where it is none.
#[inline(always)]
pub fn truth_of(cell: Cell) -> Option<bool>
    ensures { result ≡ to_truth (cell_view cell.entry) }
{
    match cell {
        Cell::Bool(b) => Some(b),
        Cell::Null | Cell::Int(_) | Cell::Text(_) | Cell::Struct => None,
    }
}

/// Whether there is nothing.
#[inline(always)]
pub fn is_null(cell: Cell) -> bool
    ensures { result ≡ null_cell (cell_view cell.entry) }
{
    match cell {
        Cell::Null => true,
        Cell::Bool(_) | Cell::Int(_) | Cell::Text(_) | Cell::Struct => false,
    }
}
