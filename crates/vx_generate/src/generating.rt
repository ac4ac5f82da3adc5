//! Generated rows.
ghost use Rattle.std.specs.Prelude.{◌≡◌, ◌≤◌, ◌<◌, ◌+◌, ◌++◌, ◌∷◌, [], ℕ, Ok, true, false, is_ok, min, map, replicate, string_bytes, String, IfOk, OnOk};
ghost use Rattle.std.specs.Global.{Global};
ghost use Rattle.vx_rows.specs.declared.column.Column.{Column as AnyColumn};
ghost use Rattle.vx_data.specs.declared.ptype.PType.TheVariants.{U32, I64};
ghost use Rattle.vx_data.specs.Dtype.{dtype_view, int, text};
ghost use Rattle.vx_rows.specs.Rows.{column_view, pairs_view};
ghost use Rattle.vx_rows.specs.Trees.{array};
ghost use Rattle.vx_generate.specs.Generated.{generated as rows_from, generated_columns as columns_from, generated_arrays, generated_dtype as dtype_from, ids, scores, names, name_of};
ghost use Rattle.vx_generate.specs.Tables.{IsTable};
ghost use Rattle.vx_generate.specs.declared.generated_bytes.TheConstants.{MOST_ROWS};

use crate::generated_bytes::{id_array, name_array, score_array};
use std::alloc::{AllocError, Global};
use vx_base::{Alignment, ByteBuffer};
use vx_data::{DType, Fields, PType};
use vx_rows::{ArrayError, Column, GrowingColumn, decode_array};

/// After so many rows the names come again.
const NAMES: u64 = 1000;

/// A field.
fn field(alloc: Global, name: &str, dtype: DType) -> Result<(String, DType), AllocError>
    ensures name { IfOk result (λ f. string_bytes f.0 ≡ name.now) }
    ensures dtype { IfOk result (λ f. dtype_view f.1 ≡ dtype_view dtype) }
{
    Ok((String::from_str(alloc, name)?, dtype))
}

/// The type of the ids.
fn id_type() -> DType
    ensures { dtype_view result ≡ int U32 false }
{
    DType::Int(PType::U32, false)
}

/// The type of the scores.
fn score_type() -> DType
    ensures { dtype_view result ≡ int I64 true }
{
    DType::Int(PType::I64, true)
}

/// The type of the names.
fn name_type() -> DType
    ensures { dtype_view result ≡ text false }
{
    DType::Text(false)
}

/// The type of the rows.
#[tactic(auto, using(crate::proofs::GeneratedLemmas::fields_are))]
fn generated_dtype(alloc: Global) -> Result<DType, AllocError>
    ensures { IfOk result (λ d. dtype_view d ≡ dtype_from) }
{
    let id = field(alloc, "id", id_type())?;
    let score = field(alloc, "score", score_type())?;
    let name = field(alloc, "name", name_type())?;
    let fields = vec![in alloc; id, score, name]?;
    Ok(DType::Struct(Fields::new(fields), false))
}

/// The ids of their arrays.
fn array_ids(alloc: Global) -> Result<Vec<String>, AllocError>
    ensures { IfOk result (λ ids. map string_bytes ids.items ≡ generated_arrays) }
{
    let mut ids = Vec::new(alloc);
    ids.push(String::from_str(alloc, "vortex.primitive")?)?;
    ids.push(String::from_str(alloc, "vortex.struct")?)?;
    ids.push(String::from_str(alloc, "vortex.varbin")?)?;
    Ok(ids)
}

/// The column of an array. Only memory refuses.
fn decoded(alloc: Global, bytes: Vec<u8>, dtype: &DType, rows: u64) -> Result<Column, AllocError>
    requires { is_ok (array generated_arrays (dtype_view dtype.now) rows bytes.items) ≡ true }
    ensures { IfOk result (λ c. array generated_arrays (dtype_view dtype.now) rows bytes.items ≡ Ok (column_view c)) }
{
    let array = ByteBuffer::from_vec(alloc, bytes, Alignment::none())?;
    let ids = array_ids(alloc)?;
    match decode_array(alloc, &array, dtype, rows, &ids) {
        Ok(column) => Ok(column),
        Err(ArrayError::OutOfMemory) => Err(AllocError),
        // These are the bytes of an array.
        Err(ArrayError::BadArray) | Err(ArrayError::UnknownEncoding) => unreachable!(),
    }
}

/// The ids of so many rows.
fn id_column(alloc: Global, rows: u64) -> Result<Column, AllocError>
    requires { rows ≤ MOST_ROWS }
    ensures { IfOk result (λ c. column_view c ≡ ids rows) }
{
    let bytes = id_array(alloc, rows)?;
    let dtype = id_type();
    let column = decoded(alloc, bytes, &dtype, rows)?;
    Ok(column)
}

/// The scores of so many rows from a seed.
fn score_column(alloc: Global, seed: u32, rows: u64) -> Result<Column, AllocError>
    requires { rows ≤ MOST_ROWS }
    ensures { IfOk result (λ c. column_view c ≡ scores seed rows) }
{
    let bytes = score_array(alloc, seed, rows)?;
    let dtype = score_type();
    let column = decoded(alloc, bytes, &dtype, rows)?;
    Ok(column)
}

/// The names of a few rows from a seed.
fn few_names(alloc: Global, seed: u32, rows: u64) -> Result<Column, AllocError>
    requires { rows ≤ MOST_ROWS }
    ensures { IfOk result (λ c. column_view c ≡ names seed rows) }
{
    let bytes = name_array(alloc, seed, rows)?;
    let dtype = name_type();
    let column = decoded(alloc, bytes, &dtype, rows)?;
    Ok(column)
}

/// The fewer of two counts.
fn fewer(a: u64, b: u64) -> u64
    ensures { result ≡ min a b }
{
    a.min(b)
}

/// The names of so many rows from a seed, where a column has those of so many after which they come again.
fn repeated_names(
    alloc: Global,
    _seed: u32,
    rows: u64,
    size: u64,
    block: &Column,
) -> Result<Column, AllocError>
    requires some { 0 < size }
    requires made { column_view block.now ≡ names _seed size }
    requires again { (row : ℕ) → name_of _seed (row + size) ≡ name_of _seed row }
    ensures { IfOk result (λ c. column_view c ≡ names _seed rows) }
{
    let dtype = name_type();
    let mut growing = GrowingColumn::new(alloc, &dtype)?;
    let mut first = 0;
    while first < rows {
        let count = fewer(rows - first, size);
        growing.append(alloc, block, 0, count as usize)?;
        first += count;
    }
    let column = growing.finish(alloc)?;
    Ok(column)
}

/// The names of so many rows from a seed, which come again after so many others. They are made once.
fn names_after(alloc: Global, seed: u32, rows: u64, size: u64) -> Result<Column, AllocError>
    requires some { 0 < size }
    requires inside { size ≤ MOST_ROWS }
    requires again { (row : ℕ) → name_of seed (row + size) ≡ name_of seed row }
    ensures { IfOk result (λ c. column_view c ≡ names seed rows) }
{
    let block = few_names(alloc, seed, size)?;
    repeated_names(alloc, seed, rows, size, &block)
}

/// The names of so many rows from a seed.
#[tactic(auto, using(crate::proofs::GeneratedLemmas::names_again))]
fn name_column(alloc: Global, seed: u32, rows: u64) -> Result<Column, AllocError>
    requires { rows ≤ MOST_ROWS }
    ensures { IfOk result (λ c. column_view c ≡ names seed rows) }
{
    names_after(alloc, seed, rows, NAMES)
}

/// A column and its name.
fn named(alloc: Global, name: &str, column: Column) -> Result<(String, Column), AllocError>
    ensures name { IfOk result (λ f. string_bytes f.0 ≡ name.now) }
    ensures column { IfOk result (λ f. column_view f.1 ≡ column_view column) }
{
    Ok((String::from_str(alloc, name)?, column))
}

/// So many rows that are there.
fn all_there(alloc: Global, rows: usize) -> Result<Vec<bool>, AllocError>
    ensures { IfOk result (λ flags. flags.items ≡ replicate rows true) }
{
    vec![in alloc; true; rows]
}

/// Adds a column under its name.
fn push_field(
    alloc: Global,
    fields: &mut Vec<(String, Column)>,
    name: &str,
    column: Column,
) -> Result<(), AllocError>
    ensures { OnOk result ((f : String Global × AnyColumn) × (fields.new.items ≡ fields.old.items ++ f ∷ [])
        × (string_bytes f.0 ≡ name.now) × (column_view f.1 ≡ column_view column)) }
{
    let field = named(alloc, name, column)?;
    fields.push(field)?;
    Ok(())
}

/// The columns of the rows. Only memory refuses.
fn generated_columns(
    alloc: Global,
    seed: u32,
    rows: u64,
) -> Result<Vec<(String, Column)>, AllocError>
    requires { rows ≤ MOST_ROWS }
    ensures { IfOk result (λ fields. pairs_view fields.items ≡ columns_from seed rows) }
{
    let mut fields = Vec::new(alloc);
    push_field(alloc, &mut fields, "id", id_column(alloc, rows)?)?;
    push_field(
        alloc,
        &mut fields,
        "score",
        score_column(alloc, seed, rows)?,
    )?;
    push_field(alloc, &mut fields, "name", name_column(alloc, seed, rows)?)?;
    Ok(fields)
}

/// The column of the rows. Only memory refuses.
fn generated_column(alloc: Global, seed: u32, rows: u64) -> Result<Column, AllocError>
    requires { rows ≤ MOST_ROWS }
    ensures { IfOk result (λ c. column_view c ≡ rows_from seed rows) }
{
    let fields = generated_columns(alloc, seed, rows)?;
    let present = all_there(alloc, rows as usize)?;
    let column = Column::structs(alloc, fields, &present, false)?;
    Ok(column)
}

/// So many rows from a seed, and their type. Only memory refuses.
pub fn generated(alloc: Global, seed: u32, rows: u64) -> Result<(DType, Column), AllocError>
    requires { rows ≤ MOST_ROWS }
    ensures dtype { IfOk result (λ x. dtype_view x.0 ≡ dtype_from) }
    ensures rows { IfOk result (λ x. column_view x.1 ≡ rows_from seed rows) }
    ensures table { IfOk result (λ x. IsTable (dtype_view x.0) (column_view x.1)) }
{
    let dtype = generated_dtype(alloc)?;
    let column = generated_column(alloc, seed, rows)?;
    Ok((dtype, column))
}
