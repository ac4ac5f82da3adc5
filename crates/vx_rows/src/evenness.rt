//! Whether a column has a given type, and whether all columns in it are as long.
ghost use Rattle.std.specs.Prelude.{◌≡◌, true, false};
ghost use Rattle.vx_data.specs.Dtype.{bool, int, text, dtype_view, fields_view, pairs_view as types_view};
ghost use Rattle.vx_rows.specs.Rows.{column_view, columns_view, pairs_view, rows_len, dtype_of, types_of, IsColumn, AreColumns};

use crate::{Column, Columns};
use vx_data::{DType, Fields, PType};

/// Whether two types of integers are one.
fn is_same(a: PType, b: PType) -> bool
    ensures yes { result ≡ true → a ≡ b }
    ensures no { result ≡ false → a ≡ b → ⊥ }
{
    a == b
}

fn is_bool(dtype: &DType, nullable: bool) -> bool
    ensures yes { result ≡ true → bool nullable ≡ dtype_view dtype.now }
    ensures no { result ≡ false → bool nullable ≡ dtype_view dtype.now → ⊥ }
{
    match dtype {
        DType::Bool(other) => nullable == *other,
        DType::Int(_, _) => false,
        DType::Text(_) => false,
        DType::Struct(_, _) => false,
    }
}

fn is_int(dtype: &DType, ptype: PType, nullable: bool) -> bool
    ensures yes { result ≡ true → int ptype nullable ≡ dtype_view dtype.now }
    ensures no { result ≡ false → int ptype nullable ≡ dtype_view dtype.now → ⊥ }
{
    match dtype {
        DType::Int(kind, other) => is_same(ptype, *kind) && nullable == *other,
        DType::Bool(_) => false,
        DType::Text(_) => false,
        DType::Struct(_, _) => false,
    }
}

fn is_text(dtype: &DType, nullable: bool) -> bool
    ensures yes { result ≡ true → text nullable ≡ dtype_view dtype.now }
    ensures no { result ≡ false → text nullable ≡ dtype_view dtype.now → ⊥ }
{
    match dtype {
        DType::Text(other) => nullable == *other,
        DType::Bool(_) => false,
        DType::Int(_, _) => false,
        DType::Struct(_, _) => false,
    }
}

/// Whether fields have these names and types.
#[cycle(comparing)]
fn are_of(columns: &[(String, Column)], types: &[(String, DType)]) -> bool
    ensures yes { result ≡ true → types_of (pairs_view columns.now) ≡ types_view types.now }
    ensures no { result ≡ false → types_of (pairs_view columns.now) ≡ types_view types.now → ⊥ }
{
    if columns.len() != types.len() {
        return false;
    }
    for at in 0..columns.len() {
        let column = &columns[at];
        let field = &types[at];
        if column.0.as_str() != field.0.as_str() {
            return false;
        }
        if !is_of(&column.1, &field.1) {
            return false;
        }
    }
    true
}

/// Whether a struct's fields have these names and types.
#[cycle(comparing)]
fn are_fields_of(columns: &Columns, fields: &Fields) -> bool
    ensures yes { result ≡ true → types_of (columns_view columns.now) ≡ fields_view fields.now }
    ensures no { result ≡ false → types_of (columns_view columns.now) ≡ fields_view fields.now → ⊥ }
{
    are_of(&columns.columns, fields.as_slice())
}

/// Whether a column has a type.
#[cycle(comparing)]
fn is_of(column: &Column, dtype: &DType) -> bool
    ensures yes { result ≡ true → dtype_of (column_view column.now) ≡ dtype_view dtype.now }
    ensures no { result ≡ false → dtype_of (column_view column.now) ≡ dtype_view dtype.now → ⊥ }
{
    match column {
        Column::Bool(column) => is_bool(dtype, column.is_nullable()),
        Column::Int(column) => is_int(dtype, column.ptype(), column.is_nullable()),
        Column::Text(column) => is_text(dtype, column.is_nullable()),
        Column::Struct(rows, columns) => match dtype {
            DType::Struct(fields, nullable) => {
                rows.is_nullable() == *nullable && are_fields_of(columns, fields)
            }
            DType::Bool(_) => false,
            DType::Int(_, _) => false,
            DType::Text(_) => false,
        },
    }
}

/// Whether fields are columns of so many rows.
#[cycle(evening)]
fn are_even(columns: &[(String, Column)], rows: usize) -> bool
    ensures yes { result ≡ true → AreColumns rows (pairs_view columns.now) }
    ensures no { result ≡ false → AreColumns rows (pairs_view columns.now) → ⊥ }
{
    for at in 0..columns.len() {
        if !has_rows(&columns[at].1, rows) {
            return false;
        }
    }
    true
}

/// Whether a struct's fields are columns of so many rows.
#[cycle(evening)]
fn are_fields_even(columns: &Columns, rows: usize) -> bool
    ensures yes { result ≡ true → AreColumns rows (columns_view columns.now) }
    ensures no { result ≡ false → AreColumns rows (columns_view columns.now) → ⊥ }
{
    are_even(&columns.columns, rows)
}

/// Whether a column is one of so many rows.
#[cycle(evening)]
fn has_rows(column: &Column, rows: usize) -> bool
    ensures yes { result ≡ true → IsColumn rows (column_view column.now) }
    ensures no { result ≡ false → IsColumn rows (column_view column.now) → ⊥ }
{
    if column.len() != rows {
        return false;
    }
    match column {
        Column::Bool(column) => column.is_filled(),
        Column::Int(column) => column.is_filled(),
        Column::Text(column) => column.is_filled(),
        Column::Struct(structs, columns) => {
            structs.is_filled() && are_fields_even(columns, rows)
        }
    }
}

impl Column {
    /// Whether the column has a type.
    pub fn dtype_is(&self, dtype: &DType) -> bool
        ensures yes { result ≡ true → dtype_of (column_view self.now) ≡ dtype_view dtype.now }
        ensures no { result ≡ false → dtype_of (column_view self.now) ≡ dtype_view dtype.now → ⊥ }
    {
        is_of(self, dtype)
    }

    /// Whether all columns in the column are as long as it is, and no row is missing where none may be null. Each
    /// column that was read, or made of values, is so; a struct that is put together of parts need not be.
    pub fn is_even(&self) -> bool
        ensures yes { result ≡ true → IsColumn (rows_len (column_view self.now)) (column_view self.now) }
        ensures no { result ≡ false → IsColumn (rows_len (column_view self.now)) (column_view self.now) → ⊥ }
    {
        has_rows(self, self.len())
    }
}
