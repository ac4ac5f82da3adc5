//! The rows of a layout, put together of the columns of its children.
ghost use Rattle.std.specs.Prelude.{◌≡◌, map, replicate, unwrap_or, is_some, true, false, Some, IfOk, OnOk};
ghost use Rattle.vx_data.specs.Dtype.{struct, dtype_view, pairs_view as types_view};
ghost use Rattle.vx_rows.specs.LayoutRows.{joined, zipped, struct_rows};
ghost use Rattle.vx_rows.specs.Parts.{part, appended};
ghost use Rattle.vx_rows.specs.Rows.{column_view, pairs_view, rows_len, dtype_of, IsColumn};
ghost use Rattle.vx_file.specs.Scans.{seen, AreChunks, AreColumnsOf, structs_over};

use std::alloc::{AllocError, Global};
use std::vec::IntoIter;
use vx_data::DType;
use vx_rows::{BoolColumn, Column, GrowingColumn};

/// Adds the rows of a column, which then goes. Only memory refuses.
pub(crate) fn take_rows(
    alloc: Global,
    growing: &mut GrowingColumn,
    chunk: Column,
) -> Result<(), AllocError>
    requires typed { dtype_of (column_view chunk) ≡ dtype_of growing.old }
    requires even { IsColumn (rows_len (column_view chunk)) (column_view chunk) }
    ensures { OnOk result (growing.new ≡ appended growing.old (part 0 (rows_len (column_view chunk)) (column_view chunk))) }
{
    growing.append(alloc, &chunk, 0, chunk.len())
}

/// The rows of columns of a type, one behind the other. Each column goes as soon as its rows are taken, so that the bytes
/// are hardly ever held twice. Only memory refuses.
pub(crate) fn join(alloc: Global, dtype: &DType, chunks: Vec<Column>) -> Result<Column, AllocError>
    requires { AreChunks (dtype_view dtype.now) (seen chunks.items) }
    ensures { IfOk result (λ c. column_view c ≡ joined (dtype_view dtype.now) (seen chunks.items)) }
{
    let mut growing = GrowingColumn::new(alloc, dtype)?;
    for chunk in chunks {
        take_rows(alloc, &mut growing, chunk)?;
    }
    Ok(growing.finish(alloc)?)
}

/// The columns under the names of fields. There are as many.
fn named(
    alloc: Global,
    fields: &[(String, DType)],
    columns: IntoIter<Column>,
) -> Result<Vec<(String, Column)>, AllocError>
    requires { is_some (zipped (types_view fields.now) (seen columns.rest.items)) ≡ true }
    ensures { IfOk result (λ v. zipped (types_view fields.now) (seen columns.rest.items) ≡ Some (pairs_view v.items)) }
{
    let mut columns = columns;
    let mut named = Vec::new(alloc);
    for at in 0..fields.len() {
        let field = &fields[at];
        let Some(column) = columns.next() else {
            unreachable!()
        };
        named.push((field.0.clone()?, column))?;
    }
    Ok(named)
}

/// The truth values of a column; what is null is false.
fn flags_of(alloc: Global, column: &BoolColumn) -> Result<Vec<bool>, AllocError>
    ensures { IfOk result (λ flags. flags.items ≡ map (λ row. unwrap_or row false) column.now.rows) }
{
    let mut flags = Vec::new(alloc);
    for row in 0..column.len() {
        flags.push(column.get(row).unwrap_or(false))?;
    }
    Ok(flags)
}

/// Structs that are all there.
fn zip_all(
    alloc: Global,
    fields: &[(String, DType)],
    rows: usize,
    columns: Vec<Column>,
) -> Result<Column, AllocError>
    requires { AreColumnsOf (struct (types_view fields.now) false) rows (seen columns.items) }
    ensures { let fs = types_view fields.now in
        IfOk result (λ c. struct_rows fs false rows (seen columns.items) ≡ Some (column_view c)) }
{
    let fields = named(alloc, fields, columns.into_iter())?;
    Ok(Column::present_structs(fields, rows))
}

/// Structs of which the first column says which are there.
fn zip_present(
    alloc: Global,
    fields: &[(String, DType)],
    rows: usize,
    columns: Vec<Column>,
) -> Result<Column, AllocError>
    requires { AreColumnsOf (struct (types_view fields.now) true) rows (seen columns.items) }
    ensures { let fs = types_view fields.now in
        IfOk result (λ c. struct_rows fs true rows (seen columns.items) ≡ Some (column_view c)) }
{
    let _ = rows;
    let mut columns = columns.into_iter();
    let Some(there) = columns.next() else {
        unreachable!()
    };
    let Column::Bool(there) = there else {
        unreachable!()
    };
    let present = flags_of(alloc, &there)?;
    let fields = named(alloc, fields, columns)?;
    Ok(Column::structs(alloc, fields, &present, true)?)
}

/// Structs over the columns of their fields; where they may be null, the first column says which are there. Only
/// memory refuses.
pub(crate) fn zip(
    alloc: Global,
    dtype: &DType,
    rows: usize,
    columns: Vec<Column>,
) -> Result<Column, AllocError>
    requires { AreColumnsOf (dtype_view dtype.now) rows (seen columns.items) }
    ensures { IfOk result (λ c. structs_over (dtype_view dtype.now) rows (seen columns.items) ≡ Some (column_view c)) }
{
    match dtype {
        DType::Struct(fields, nullable) => {
            if *nullable {
                Ok(zip_present(alloc, fields.as_slice(), rows, columns)?)
            } else {
                Ok(zip_all(alloc, fields.as_slice(), rows, columns)?)
            }
        }
        DType::Bool(_) | DType::Int(_, _) | DType::Text(_) => unreachable!(),
    }
}
