//! The operands of predicates, column by column.
ghost use Rattle.std.specs.Prelude.{◌≡◌, ℕ, None, IfSome, slice_index_or};
ghost use Rattle.vx_data.specs.Scalar.{number, words};
ghost use Rattle.vx_rows.specs.RowValues.{value, int_cell, text_cell};
ghost use Rattle.vx_rows.specs.CellViews.{cell_view};
ghost use Rattle.vx_rows.specs.Operands.{operand_at, is_shown as shown_at};

use crate::cell::{Cell, of_number, of_row, of_truth};
use crate::{Column, IntColumn, Mask, TextColumn};

/// What a node of a predicate is at each row.
#[derive(Drop)]
pub enum Operand<'a> {
    /// The same at each row.
    Value(Cell<'a>),
    /// The rows of a column, of which some may be hidden, which are null.
    Rows(&'a Column, Option<Mask>),
    Numbers(Vec<Option<i128>>),
    Truths(Vec<Option<bool>>),
}

/// Whether a row is not hidden.
#[inline(always)]
pub fn is_shown(shown: &Option<Mask>, row: usize) -> bool
    ensures { result ≡ shown_at shown.now row }
{
    match shown {
        None => true,
        Some(mask) => row >= mask.len() || mask.get(row),
    }
}

#[inline(always)]
fn number_at(values: &[Option<i128>], row: usize) -> Option<i128>
    ensures { result ≡ slice_index_or values.now row None }
{
    match values.get(row) {
        None => None,
        Some(value) => *value,
    }
}

#[inline(always)]
fn truth_at(values: &[Option<bool>], row: usize) -> Option<bool>
    ensures { result ≡ slice_index_or values.now row None }
{
    match values.get(row) {
        None => None,
        Some(value) => *value,
    }
}

impl<'a> Operand<'a> {
    /// What stands at a row.
    #[inline(always)]
    pub fn at(&self, row: usize) -> Cell<'_>
        ensures { cell_view result ≡ operand_at self.now row }
    {
        match self {
            Operand::Value(cell) => *cell,
            Operand::Rows(column, shown) => {
                if !is_shown(shown, row) {
                    return Cell::Null;
                }
                of_row(column, row)
            }
            Operand::Numbers(values) => of_number(number_at(values, row)),
            Operand::Truths(values) => of_truth(truth_at(values, row)),
        }
    }

    /// The rows of a column of integers, of which none is hidden.
    pub fn numbers(&self) -> Option<&IntColumn>
        ensures { IfSome result (λ c. (row : ℕ) → operand_at self.now row ≡ int_cell (slice_index_or c.now.rows row None)) }
    {
        match self {
            Operand::Rows(Column::Int(values), None) => Some(values),
            _ => None,
        }
    }

    /// The rows of a column of texts, of which none is hidden.
    pub fn texts(&self) -> Option<&TextColumn>
        ensures { IfSome result (λ c. (row : ℕ) → operand_at self.now row ≡ text_cell (slice_index_or c.now.rows row None)) }
    {
        match self {
            Operand::Rows(Column::Text(values), None) => Some(values),
            _ => None,
        }
    }

    /// The integer that stands at each row.
    pub fn number(&self) -> Option<i128>
        ensures { IfSome result (λ n. (row : ℕ) → operand_at self.now row ≡ value (number n)) }
    {
        match self {
            Operand::Value(Cell::Int(n)) => Some(*n),
            _ => None,
        }
    }

    /// The text that stands at each row.
    pub fn text(&self) -> Option<&str>
        ensures { IfSome result (λ t. (row : ℕ) → operand_at self.now row ≡ value (words t.now)) }
    {
        match self {
            Operand::Value(Cell::Text(t)) => Some(t),
            _ => None,
        }
    }
}
