//! The type of a column.
ghost use Rattle.std.specs.Prelude.{◌≡◌, ◌++◌, ◌∷◌, [], IfOk, OnOk, string_bytes};
ghost use Rattle.vx_data.specs.Dtype.{FieldList, field as typed, dtype_view, fields_view, pairs_view as types_view};
ghost use Rattle.vx_rows.specs.Rows.{column_view, columns_view, pairs_view, dtype_of, types_of};

use crate::{Column, Columns};
use std::alloc::{AllocError, Global};
use vx_data::{DType, Fields};

/// The names and types of fields.
#[cycle(typing)]
fn type_all(alloc: Global, columns: &[(String, Column)]) -> Result<Vec<(String, DType)>, AllocError>
    ensures { IfOk result (λ types. types_view types.items ≡ types_of (pairs_view columns.now)) }
{
    let mut types = Vec::new(alloc);
    for at in 0..columns.len() {
        let column = &columns[at];
        types.push((column.0.clone()?, type_one(alloc, &column.1)?))?;
    }
    Ok(types)
}

/// The types of a struct's fields.
#[cycle(typing)]
fn type_fields(alloc: Global, columns: &Columns) -> Result<Fields, AllocError>
    ensures { IfOk result (λ fields. fields_view fields ≡ types_of (columns_view columns.now)) }
{
    Ok(Fields::new(type_all(alloc, &columns.columns)?))
}

/// The type of a column.
#[cycle(typing)]
fn type_one(alloc: Global, column: &Column) -> Result<DType, AllocError>
    ensures { IfOk result (λ dtype. dtype_view dtype ≡ dtype_of (column_view column.now)) }
{
    match column {
        Column::Bool(column) => Ok(DType::Bool(column.is_nullable())),
        Column::Int(column) => Ok(DType::Int(column.ptype(), column.is_nullable())),
        Column::Text(column) => Ok(DType::Text(column.is_nullable())),
        Column::Struct(rows, columns) => {
            let fields = type_fields(alloc, columns)?;
            Ok(DType::Struct(fields, rows.is_nullable()))
        }
    }
}

impl Column {
    /// What the rows are. Only memory refuses.
    pub fn dtype(&self, alloc: Global) -> Result<DType, AllocError>
        ensures { IfOk result (λ dtype. dtype_view dtype ≡ dtype_of (column_view self.now)) }
    {
        Ok(type_one(alloc, self)?)
    }
}
