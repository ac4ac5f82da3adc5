//! Reads the table of a type.
ghost use Rattle.std.specs.Prelude.{◌≡◌, suc, map, string_bytes};
ghost use Rattle.std.specs.Result.{result_ok};
ghost use Rattle.std.specs.Option.{option_map};
ghost use Rattle.vx_tables.specs.Counted.{within, allowed, each_text, each_table};
ghost use Rattle.vx_tables.specs.Walking.{Walks, Reads};
ghost use Rattle.vx_base.specs.Checks.{Gives};
ghost use Rattle.vx_data.specs.Refusing.{Fails};
ghost use Rattle.vx_data.specs.Dtype.{dtype_view};
ghost use Rattle.vx_data.specs.DtypeTable.{ptype_field, dtype_at, names_in, fields_in, dtype_table, dtype_checks};

use crate::dtype_parts::{INTEGER, paired};
use crate::{DType, DataError};
use std::alloc::Global;
use vx_tables::{BadTable, Elements, TableReader, VectorReader, Visits, WalkError};

/// The number of an integer type. It is not looked at for another kind.
fn read_ptype(table: &TableReader<'_>, kind: u8) -> Result<Option<u8>, BadTable>
    ensures { result_ok result ≡ ptype_field table.now.bytes table.now.table kind }
{
    if kind == INTEGER {
        return table.field_u8(2);
    }
    Ok(None)
}

/// The texts of a vector.
#[tactic(auto, using(vx_tables::proofs::Walk::seen_steps), unfolding(vx_tables::specs::Counted::each_text))]
fn read_texts(
    alloc: Global,
    vector: &VectorReader<'_>,
    visits: &mut Visits,
) -> Result<Vec<String>, WalkError>
    requires { vector.now.elements ≡ Elements.Offsets }
    ensures { Walks (λ texts. map string_bytes texts.items) result visits.new
        (within vector.now.levels visits.old (each_text vector.now.bytes vector.now.vector)) }
{
    let mut texts = Vec::new(alloc);
    for at in 0..vector.len() {
        let text = vector.text_at(at, visits)?;
        texts.push(String::from_str(alloc, text)?)?;
    }
    Ok(texts)
}

/// The names of the fields.
#[tactic(auto, using(vx_tables::proofs::Walk::seen_steps), unfolding(crate::specs::DtypeTable::names_in, vx_tables::specs::Counted::or_empty))]
fn read_names(
    alloc: Global,
    table: &TableReader<'_>,
    visits: &mut Visits,
) -> Result<Vec<String>, WalkError>
    ensures { Walks (λ names. map string_bytes names.items) result visits.new (within table.now.levels visits.old (names_in table.now.bytes table.now.table)) }
{
    match table.field_vector(3, Elements::Offsets, visits)? {
        Some(vector) => read_texts(alloc, &vector, visits),
        None => Ok(Vec::new(alloc)),
    }
}

/// The types that are the elements of a vector, each where its kinds are known.
#[cycle(walking)]
#[tactic(auto, using(vx_tables::proofs::Walk::seen_steps), unfolding(vx_tables::specs::Counted::each_table))]
fn read_elements(
    alloc: Global,
    vector: &VectorReader<'_>,
    visits: &mut Visits,
) -> Result<Vec<Option<DType>>, WalkError>
    requires { vector.now.elements ≡ Elements.Offsets }
    ensures { Walks (λ dtypes. map (option_map dtype_view) dtypes.items) result visits.new
        (within vector.now.levels visits.old (each_table vector.now.bytes (dtype_at vector.now.levels vector.now.bytes) vector.now.vector)) }
{
    let mut dtypes = Vec::new(alloc);
    for at in 0..vector.len() {
        let table = vector.table_at(at, visits)?;
        let dtype = read_in(alloc, &table, visits)?;
        dtypes.push(dtype)?;
    }
    Ok(dtypes)
}

/// The types of the fields.
#[cycle(walking)]
#[tactic(auto, using(vx_tables::proofs::Walk::seen_steps), unfolding(crate::specs::DtypeTable::fields_in, vx_tables::specs::Counted::or_empty))]
fn read_fields(
    alloc: Global,
    table: &TableReader<'_>,
    visits: &mut Visits,
) -> Result<Vec<Option<DType>>, WalkError>
    ensures { Walks (λ dtypes. map (option_map dtype_view) dtypes.items) result visits.new
        (within table.now.levels visits.old (fields_in (dtype_at table.now.levels table.now.bytes) table.now.bytes table.now.table)) }
{
    match table.field_vector(4, Elements::Offsets, visits)? {
        Some(vector) => read_elements(alloc, &vector, visits),
        None => Ok(Vec::new(alloc)),
    }
}

/// The type that a table spells, where its kinds are known.
#[cycle(walking)]
#[tactic(auto, using(vx_tables::proofs::Walk::seen_steps), unfolding(crate::specs::DtypeTable::dtype_at))]
fn read_in(
    alloc: Global,
    table: &TableReader<'_>,
    visits: &mut Visits,
) -> Result<Option<DType>, WalkError>
    ensures { Walks (option_map dtype_view) result visits.new
        (within table.now.levels visits.old (dtype_at (suc table.now.levels) table.now.bytes table.now.table)) }
{
    let kind = table.field_u8(0)?.unwrap_or(0);
    let nullable = table.field_u8(1)?.unwrap_or(0);
    let ptype = read_ptype(table, kind)?.unwrap_or(0);
    let names = read_names(alloc, table, visits)?;
    let dtypes = read_fields(alloc, table, visits)?;
    paired(alloc, kind, nullable != 0, ptype, names, dtypes)
}

/// The type that a root spells, where its kinds are known.
#[tactic(auto, using(vx_tables::proofs::Walk::seen_steps), unfolding(crate::specs::DtypeTable::dtype_table, vx_tables::specs::Counted::allowed))]
fn read_dtype(alloc: Global, bytes: &[u8]) -> Result<Option<DType>, WalkError>
    ensures { Reads (option_map dtype_view) result (allowed (dtype_table bytes.now)) }
{
    let mut visits = Visits::new();
    let table = TableReader::root(bytes, &mut visits)?;
    read_in(alloc, &table, &mut visits)
}

impl DType {
    /// The type that a table spells. A table that is not in its grammar is refused before a kind that
    /// is not known.
    #[tactic(auto, unfolding(crate::specs::DtypeTable::dtype_checks))]
    pub fn read(alloc: Global, bytes: &[u8]) -> Result<DType, DataError>
        ensures { Gives Fails dtype_view result (dtype_checks bytes.now) }
    {
        match read_dtype(alloc, bytes) {
            Ok(Some(dtype)) => Ok(dtype),
            Ok(None) => Err(DataError::Unsupported),
            Err(WalkError::BadTable) => Err(DataError::BadTable),
            Err(WalkError::OutOfMemory) => Err(DataError::OutOfMemory),
        }
    }
}
