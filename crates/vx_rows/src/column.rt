//! Columns of any type.
ghost use Rattle.std.specs.Prelude.{◌≡◌, ◌<◌, is_some, Some, true};
ghost use Rattle.vx_rows.specs.Rows.{column_view, columns_view, pairs_view, rows_len, present_in, bool_in, int_in, text_in, fields_in};

use crate::{BoolColumn, IntColumn, StructRows, TextColumn};

/// A column: what its rows are.
#[cycle(column)]
#[derive(Drop)]
pub enum Column {
    Bool(BoolColumn),
    Int(IntColumn),
    Text(TextColumn),
    Struct(StructRows, Columns),
}

/// The names and columns of a struct's fields, in order. Names may repeat.
#[cycle(column)]
#[derive(Drop)]
pub struct Columns {
    pub(crate) columns: Vec<(String, Column)>,
}

impl Columns {
    /// These fields.
    pub fn new(columns: Vec<(String, Column)>) -> Columns
        ensures { columns_view result ≡ pairs_view columns.items }
    {
        Columns { columns }
    }

    /// The fields in order.
    pub fn as_slice(&self) -> &[(String, Column)]
        ensures { pairs_view result.now ≡ columns_view self.now }
    {
        &self.columns
    }
}

impl Column {
    /// The number of rows.
    #[inline(always)]
    pub fn len(&self) -> usize
        ensures { result ≡ rows_len (column_view self.now) }
    {
        match self {
            Column::Bool(column) => column.len(),
            Column::Int(column) => column.len(),
            Column::Text(column) => column.len(),
            Column::Struct(rows, _) => rows.len(),
        }
    }
    /// Whether a row is not null.
    #[inline(always)]
    pub fn is_present(&self, row: usize) -> bool
        requires { row < rows_len (column_view self.now) }
        ensures { result ≡ present_in (column_view self.now) row }
    {
        match self {
            Column::Bool(column) => column.is_present(row),
            Column::Int(column) => column.is_present(row),
            Column::Text(column) => column.is_present(row),
            Column::Struct(rows, _) => rows.is_present(row),
        }
    }

    /// The truth value of a row that has one.
    #[inline(always)]
    pub fn bool_at(&self, row: usize) -> bool
        requires inside { row < rows_len (column_view self.now) }
        requires here { is_some (bool_in (column_view self.now) row) ≡ true }
        ensures { bool_in (column_view self.now) row ≡ Some result }
    {
        match self {
            Column::Bool(column) => column.bool_at(row),
            _ => unreachable!(),
        }
    }

    /// The integer of a row that has one.
    #[inline(always)]
    pub fn int_at(&self, row: usize) -> i128
        requires inside { row < rows_len (column_view self.now) }
        requires here { is_some (int_in (column_view self.now) row) ≡ true }
        ensures { int_in (column_view self.now) row ≡ Some result }
    {
        match self {
            Column::Int(column) => column.int_at(row),
            _ => unreachable!(),
        }
    }

    /// The text of a row that has one.
    #[inline(always)]
    pub fn text_at(&self, row: usize) -> &str
        requires inside { row < rows_len (column_view self.now) }
        requires here { is_some (text_in (column_view self.now) row) ≡ true }
        ensures { text_in (column_view self.now) row ≡ Some result.now }
    {
        match self {
            Column::Text(column) => column.text_at(row),
            _ => unreachable!(),
        }
    }

    /// The names and columns of a struct's fields; no other column has any.
    pub fn fields(&self) -> &[(String, Column)]
        ensures { pairs_view result.now ≡ fields_in (column_view self.now) }
    {
        match self {
            Column::Struct(_, fields) => fields.as_slice(),
            _ => &[],
        }
    }
}
