//! A column of any type in the bytes of a segment.
ghost use Rattle.std.specs.Prelude.{◌≡◌, ◌+◌, ◌<◌, ◌≤◌, ◌==◌, length, slice_index, map, string_bytes, IfOk, OnOk, OnErr, ◌++◌, ◌∷◌, [], ℕ};
ghost use Rattle.vx_base.specs.Checks.{Gives};
ghost use Rattle.vx_data.specs.Dtype.{dtype_view, fields_view, pairs_view as types_view};
ghost use Rattle.vx_rows.specs.Rows.{FieldRows, column as made, column_view, columns_view, viewed, dtype_of, IsColumn};
ghost use Rattle.vx_rows.specs.Arrays.{Fails};
ghost use Rattle.vx_rows.specs.Trees.{index_of, index_at, structs_at, column_at, columns_at, before, array};

use crate::array_kind::{ArrayKind, is_same, kinds_of};
use crate::int_column::u16_at;
use crate::presence::read_presence;
use crate::reading::{read_bools, read_ints};
use crate::text_reading::read_texts;
use crate::{ArrayError, Column, Columns, StructRows};
use std::alloc::{AllocError, Global};
use vx_base::ByteBuffer;
use vx_data::DType;

/// The place after an index of a kind that is wanted.
fn index_after(want: ArrayKind, after: usize, found: Option<ArrayKind>) -> Result<usize, ArrayError>
    ensures value { Gives Fails (λ place. place) result (index_of want after found) }
    ensures same { IfOk result (λ place. place ≡ after) }
{
    match found {
        None => Err(ArrayError::BadArray),
        Some(ArrayKind::Unknown) => Err(ArrayError::UnknownEncoding),
        Some(kind) => {
            if is_same(want, kind) {
                Ok(after)
            } else {
                Err(ArrayError::BadArray)
            }
        }
    }
}

/// Reads the index of an array's id, and gives the place after it.
#[tactic(auto, unfolding(crate::specs::Trees::index_at))]
fn read_index(
    kinds: &[ArrayKind],
    want: ArrayKind,
    bytes: &[u8],
    at: usize,
) -> Result<usize, ArrayError>
    requires { at ≤ length bytes.now }
    ensures value { Gives Fails (λ place. place) result (index_at kinds.now want bytes.now at) }
    ensures inside { IfOk result (λ place. place ≤ length bytes.now) }
{
    if bytes.len() - at < 2 {
        return Err(ArrayError::BadArray);
    }
    let index = u16_at(bytes, at) as usize;
    index_after(want, at + 2, kinds.get(index).copied())
}

/// Which structs are not null, and the place after that.
#[tactic(auto, unfolding(crate::specs::Trees::structs_at))]
fn read_structs(
    alloc: Global,
    segment: &ByteBuffer,
    at: usize,
    nullable: bool,
    rows: usize,
) -> Result<(StructRows, usize), ArrayError>
    requires { at ≤ length segment.now.bytes }
    ensures value { Gives Fails (λ x. x) result (structs_at nullable rows segment.now.bytes at) }
    ensures inside { IfOk result (λ x. x.1 ≤ length segment.now.bytes) }
{
    let (present, after) = read_presence(alloc, segment, at, nullable, rows)?;
    Ok((StructRows::new(nullable, present, rows), after))
}

/// Adds a field.
fn add(fields: &mut Vec<(String, Column)>, name: &String, column: Column) -> Result<(), AllocError>
    ensures { OnOk result ((cs : FieldRows) → before (viewed fields.new.items) cs
        ≡ before (viewed fields.old.items) (made (string_bytes name.now) (column_view column) cs)) }
{
    fields.push((name.clone()?, column))?;
    Ok(())
}

/// The columns of fields and the place after them.
#[cycle(reading)]
fn read_fields(
    alloc: Global,
    kinds: &[ArrayKind],
    fields: &[(String, DType)],
    segment: &ByteBuffer,
    at: usize,
    rows: usize,
) -> Result<(Columns, usize), ArrayError>
    requires { at ≤ length segment.now.bytes }
    ensures value { Gives Fails (λ x. (columns_view x.0, x.1)) result
        (columns_at kinds.now (types_view fields.now) rows segment.now.bytes at) }
    ensures inside { IfOk result (λ x. x.1 ≤ length segment.now.bytes) }
{
    let mut place = at;
    let mut columns = Vec::new(alloc);
    for index in 0..fields.len() {
        let field = &fields[index];
        let (column, after) = read_column(alloc, kinds, &field.1, segment, place, rows)?;
        add(&mut columns, &field.0, column)?;
        place = after;
    }
    Ok((Columns::new(columns), place))
}

/// The column of a type and the place after it.
#[cycle(reading)]
fn read_column(
    alloc: Global,
    kinds: &[ArrayKind],
    dtype: &DType,
    segment: &ByteBuffer,
    at: usize,
    rows: usize,
) -> Result<(Column, usize), ArrayError>
    requires { at ≤ length segment.now.bytes }
    ensures value { Gives Fails (λ x. (column_view x.0, x.1)) result
        (column_at kinds.now (dtype_view dtype.now) rows segment.now.bytes at) }
    ensures inside { IfOk result (λ x. x.1 ≤ length segment.now.bytes) }
{
    match dtype {
        DType::Bool(nullable) => {
            let from = read_index(kinds, ArrayKind::Bools, segment.as_slice(), at)?;
            let (column, after) = read_bools(alloc, segment, from, *nullable, rows)?;
            Ok((Column::Bool(column), after))
        }
        DType::Int(ptype, nullable) => {
            let from = read_index(kinds, ArrayKind::Integers, segment.as_slice(), at)?;
            let (column, after) = read_ints(alloc, segment, from, *ptype, *nullable, rows)?;
            Ok((Column::Int(column), after))
        }
        DType::Text(nullable) => {
            let from = read_index(kinds, ArrayKind::Texts, segment.as_slice(), at)?;
            let (column, after) = read_texts(alloc, segment, from, *nullable, rows)?;
            Ok((Column::Text(column), after))
        }
        DType::Struct(fields, nullable) => {
            let from = read_index(kinds, ArrayKind::Structs, segment.as_slice(), at)?;
            let (structs, next) = read_structs(alloc, segment, from, *nullable, rows)?;
            let (columns, after) = read_fields(
                alloc,
                kinds,
                fields.as_slice(),
                segment,
                next,
                rows,
            )?;
            Ok((Column::Struct(structs, columns), after))
        }
    }
}

/// Whether no byte follows.
fn ends_at(bytes: &[u8], after: usize) -> bool
    ensures value { result ≡ (after == length bytes.now) }
    ensures bytes { (i : ℕ) → slice_index bytes.now i < 256 }
{
    after == bytes.len()
}

/// The column of a type and so many rows whose bytes these are. Its values are shared, not copied. The ids are
/// those of the file's array encodings; the first fault in reading order is answered.
pub fn decode_array(
    alloc: Global,
    segment: &ByteBuffer,
    dtype: &DType,
    rows: u64,
    ids: &[String],
) -> Result<Column, ArrayError>
    ensures value { Gives Fails column_view result
        (array (map string_bytes ids.now) (dtype_view dtype.now) rows segment.now.bytes) }
    ensures typed { IfOk result (λ c. dtype_of (column_view c) ≡ dtype_view dtype.now) }
    ensures sound { IfOk result (λ c. IsColumn rows (column_view c)) }
{
    let kinds = kinds_of(alloc, ids)?;
    let (column, after) = read_column(alloc, &kinds, dtype, segment, 0, rows as usize)?;
    if !ends_at(segment.as_slice(), after) {
        return Err(ArrayError::BadArray);
    }
    Ok(column)
}
