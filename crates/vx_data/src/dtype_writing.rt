//! Writes the table of a type.
ghost use Rattle.std.specs.Prelude.{◌≡◌, IfOk, List, ℕ, true, map, nat_le, string_bytes};
ghost use Rattle.vx_base.specs.Checks.{Gives};
ghost use Rattle.vx_data.specs.Dtype.{dtype_view, fields_view, pairs_view};
ghost use Rattle.vx_data.specs.Written.{FailsToWrite, left_of, root_written};
ghost use Rattle.vx_data.specs.DtypeWritten.{ptype_number, head_pieces, names_of, pieces_of, struct_pieces, all_pieces, levels_of, most_levels, visits_of, fields_visits, dtype_written};

use crate::dtype::Kept;
use crate::dtype_parts::{BOOL, INTEGER, STRUCT, TEXT};
use crate::{DType, Fields, PType, TableWriteError};
use std::alloc::{AllocError, Global};
use vx_base::ByteBuffer;
use vx_tables::{TableError, TableWriter};

/// How many tables may lie one in the other.
pub(crate) const MOST_LEVELS: usize = 64;

/// How many visits a reader may make.
pub(crate) const MOST_VISITS: u64 = 1_000_000;

/// The number of a type of integers.
fn number_of(ptype: PType) -> u8
    ensures { result ≡ ptype_number ptype }
{
    match ptype {
        PType::U8 => 0,
        PType::U16 => 1,
        PType::U32 => 2,
        PType::U64 => 3,
        PType::I8 => 4,
        PType::I16 => 5,
        PType::I32 => 6,
        PType::I64 => 7,
    }
}

/// A table of a kind, with the numbers that each kind has.
fn head(alloc: Global, kind: u8, nullable: bool, ptype: u8) -> Result<TableWriter, AllocError>
    ensures { IfOk result (λ table. table ≡ head_pieces kind nullable ptype) }
{
    let mut table = TableWriter::new(alloc);
    table.push_u8(alloc, 0, kind)?;
    table.push_u8(alloc, 1, u8::from(nullable))?;
    table.push_u8(alloc, 2, ptype)?;
    Ok(table)
}

/// The names of fields.
fn names(alloc: Global, fields: &[(String, DType)]) -> Result<Vec<String>, AllocError>
    ensures { IfOk result (λ names. map string_bytes names.items ≡ names_of (pairs_view fields.now)) }
{
    let mut names = Vec::new(alloc);
    for at in 0..fields.len() {
        names.push(fields[at].0.clone()?)?;
    }
    Ok(names)
}

/// The table of a struct whose fields have these names and tables.
fn struct_of(
    alloc: Global,
    nullable: bool,
    names: Vec<String>,
    tables: Vec<TableWriter>,
) -> Result<TableWriter, AllocError>
    ensures { IfOk result (λ table. table ≡ struct_pieces nullable (map string_bytes names.items) tables.items) }
{
    let mut table = head(alloc, STRUCT, nullable, 0)?;
    table.push_texts(alloc, 3, &names)?;
    table.push_tables(alloc, 4, tables)?;
    Ok(table)
}

/// The tables of fields.
#[cycle(writing)]
#[tactic(auto, using(crate::proofs::FieldTables::next_pieces))]
fn all_tables(alloc: Global, fields: &[(String, DType)]) -> Result<Vec<TableWriter>, AllocError>
    ensures { IfOk result (λ tables. tables.items ≡ all_pieces (pairs_view fields.now)) }
{
    let mut tables = Vec::new(alloc);
    for at in 0..fields.len() {
        tables.push(table_of(alloc, &fields[at].1)?)?;
    }
    Ok(tables)
}

/// The tables of a struct's fields.
#[cycle(writing)]
fn field_tables(alloc: Global, fields: &Fields) -> Result<Vec<TableWriter>, AllocError>
    ensures { IfOk result (λ tables. tables.items ≡ all_pieces (fields_view fields.now)) }
{
    match &fields.kept {
        Kept::Owned(fields) => Ok(all_tables(alloc, fields)?),
        Kept::Shared(fields) => Ok(all_tables(alloc, fields)?),
    }
}

/// The table of a type.
#[cycle(writing)]
fn table_of(alloc: Global, dtype: &DType) -> Result<TableWriter, AllocError>
    ensures { IfOk result (λ table. table ≡ pieces_of (dtype_view dtype.now)) }
{
    match dtype {
        DType::Bool(nullable) => Ok(head(alloc, BOOL, *nullable, 0)?),
        DType::Int(ptype, nullable) => Ok(head(alloc, INTEGER, *nullable, number_of(*ptype))?),
        DType::Text(nullable) => Ok(head(alloc, TEXT, *nullable, 0)?),
        DType::Struct(fields, nullable) => {
            let tables = field_tables(alloc, fields)?;
            let names = names(alloc, fields.as_slice())?;
            Ok(struct_of(alloc, *nullable, names, tables)?)
        }
    }
}

/// Whether fields have at most so many levels of tables.
#[cycle(measuring)]
#[tactic(auto, using(crate::proofs::FieldTables::next_levels))]
fn are_shallow(fields: &[(String, DType)], levels: usize) -> bool
    ensures { result ≡ nat_le (most_levels (pairs_view fields.now)) levels }
{
    for at in 0..fields.len() {
        if !is_shallow(&fields[at].1, levels) {
            return false;
        }
    }
    true
}

/// Whether a struct's fields have at most so many levels of tables.
#[cycle(measuring)]
fn fields_are_shallow(fields: &Fields, levels: usize) -> bool
    ensures { result ≡ nat_le (most_levels (fields_view fields.now)) levels }
{
    match &fields.kept {
        Kept::Owned(fields) => are_shallow(fields, levels),
        Kept::Shared(fields) => are_shallow(fields, levels),
    }
}

/// Whether a type has at most so many levels of tables. It looks no deeper.
#[cycle(measuring)]
pub(crate) fn is_shallow(dtype: &DType, levels: usize) -> bool
    ensures { result ≡ nat_le (levels_of (dtype_view dtype.now)) levels }
{
    if levels == 0 {
        return false;
    }
    match dtype {
        DType::Struct(fields, _) => fields_are_shallow(fields, levels - 1),
        DType::Bool(_) | DType::Int(_, _) | DType::Text(_) => true,
    }
}

/// The visits that are left behind those of fields.
#[cycle(visiting)]
#[tactic(auto, using(crate::proofs::FieldTables::next_visits))]
fn all_left(fields: &[(String, DType)], visits: u64) -> Option<u64>
    ensures { result ≡ left_of (fields_visits (pairs_view fields.now)) visits }
{
    let mut left = visits;
    for at in 0..fields.len() {
        let field = &fields[at];
        left = left.checked_sub(1 + field.0.as_str().len() as u64 / 64)?;
        left = visits_left(&field.1, left)?;
    }
    Some(left)
}

/// The visits that are left behind those of a struct's fields.
#[cycle(visiting)]
fn fields_left(fields: &Fields, visits: u64) -> Option<u64>
    ensures { result ≡ left_of (fields_visits (fields_view fields.now)) visits }
{
    match &fields.kept {
        Kept::Owned(fields) => all_left(fields, visits),
        Kept::Shared(fields) => all_left(fields, visits),
    }
}

/// The visits that are left behind those of a type.
#[cycle(visiting)]
pub(crate) fn visits_left(dtype: &DType, visits: u64) -> Option<u64>
    ensures { result ≡ left_of (visits_of (dtype_view dtype.now)) visits }
{
    match dtype {
        DType::Struct(fields, _) => {
            let left = visits.checked_sub(3)?;
            fields_left(fields, left)
        }
        DType::Bool(_) | DType::Int(_, _) | DType::Text(_) => visits.checked_sub(1),
    }
}

/// The bytes of a table that was made.
pub(crate) fn finished(alloc: Global, table: TableWriter) -> Result<ByteBuffer, TableWriteError>
    ensures { Gives FailsToWrite (λ b. b.bytes) result (root_written table) }
{
    match table.finish(alloc) {
        Ok(buffer) => Ok(buffer),
        Err(TableError::TableTooLong) => Err(TableWriteError::TableTooLong),
        Err(TableError::OutOfMemory) => Err(TableWriteError::OutOfMemory),
    }
}

impl DType {
    /// The table of the type. It is refused where a reader would find it too deep or too large.
    #[tactic(auto, unfolding(crate::specs::DtypeWritten::dtype_written))]
    pub fn write(&self, alloc: Global) -> Result<ByteBuffer, TableWriteError>
        ensures { Gives FailsToWrite (λ b. b.bytes) result (dtype_written (dtype_view self.now)) }
    {
        if !is_shallow(self, MOST_LEVELS) {
            return Err(TableWriteError::TooDeep);
        }
        if visits_left(self, MOST_VISITS).is_none() {
            return Err(TableWriteError::TooManyTables);
        }
        let table = table_of(alloc, self)?;
        finished(alloc, table)
    }
}
