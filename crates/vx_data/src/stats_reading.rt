//! Reads statistics from their table.
ghost use Rattle.std.specs.Prelude.{◌≡◌, ◌==◌, IfOk, length, map, Some};
ghost use Rattle.std.specs.Option.{option_map};
ghost use Rattle.vx_tables.specs.Counted.{within, allowed, each_table};
ghost use Rattle.vx_tables.specs.Walking.{Walks, Reads};
ghost use Rattle.vx_base.specs.Checks.{Gives};
ghost use Rattle.vx_data.specs.Refusing.{Fails};
ghost use Rattle.vx_data.specs.Dtype.{dtype_view};
ghost use Rattle.vx_data.specs.Stats.{kept_view};
ghost use Rattle.vx_data.specs.StatsTable.{bytes_in, entry_in, entries_in, stats_table, columns_of, precision_of as precision_by, is_struct as is_struct_type, bound_of, count_stat, stats_of as stats_by, all_stats, stats_checks};

use crate::layout_shape::push_dtypes;
use crate::scalar_reading::scalar_of;
use crate::stats_entry::StatsEntry;
use crate::{DType, DataError, Precision, Scalar, StatsSet};
use std::alloc::{AllocError, Global};
use vx_tables::{Elements, TableReader, VectorReader, Visits, WalkError};

/// What says that a statistic is the value itself.
const EXACT: u8 = 1;

/// The bytes of a slot.
#[tactic(auto, using(vx_tables::proofs::Walk::seen_steps), unfolding(crate::specs::StatsTable::bytes_in))]
fn read_bytes(
    alloc: Global,
    table: &TableReader<'_>,
    slot: usize,
    visits: &mut Visits,
) -> Result<Option<Vec<u8>>, WalkError>
    ensures { Walks (option_map (λ v. v.items)) result visits.new (within table.now.levels visits.old (bytes_in table.now.bytes table.now.table slot)) }
{
    match table.field_vector(slot, Elements::Numbers(1), visits)? {
        Some(vector) => Ok(Some(Vec::from_slice(alloc, vector.as_bytes())?)),
        None => Ok(None),
    }
}

/// The statistics of a column.
#[tactic(auto, using(vx_tables::proofs::Walk::seen_steps), unfolding(crate::specs::StatsTable::entry_in))]
fn read_entry(
    alloc: Global,
    table: &TableReader<'_>,
    visits: &mut Visits,
) -> Result<StatsEntry, WalkError>
    ensures { Walks (λ entry. entry) result visits.new (within table.now.levels visits.old (entry_in table.now.bytes table.now.table)) }
{
    let min = read_bytes(alloc, table, 0, visits)?;
    let min_precision = table.field_u8(1)?.unwrap_or(0);
    let max = read_bytes(alloc, table, 2, visits)?;
    let max_precision = table.field_u8(3)?.unwrap_or(0);
    let null_count = table.field_u64(4)?;
    let null_precision = table.field_u8(5)?.unwrap_or(0);
    Ok(StatsEntry {
        min,
        is_min_exact: min_precision == EXACT,
        max,
        is_max_exact: max_precision == EXACT,
        null_count,
        is_null_count_exact: null_precision == EXACT,
    })
}

/// The statistics that are the elements of a vector.
#[tactic(auto, using(vx_tables::proofs::Walk::seen_steps), unfolding(vx_tables::specs::Counted::each_table))]
fn read_elements(
    alloc: Global,
    vector: &VectorReader<'_>,
    visits: &mut Visits,
) -> Result<Vec<StatsEntry>, WalkError>
    requires { vector.now.elements ≡ Elements.Offsets }
    ensures { Walks (λ entries. entries.items) result visits.new
        (within vector.now.levels visits.old (each_table vector.now.bytes (entry_in vector.now.bytes) vector.now.vector)) }
{
    let mut entries = Vec::new(alloc);
    for at in 0..vector.len() {
        let table = vector.table_at(at, visits)?;
        let entry = read_entry(alloc, &table, visits)?;
        entries.push(entry)?;
    }
    Ok(entries)
}

/// The statistics that a table spells.
#[tactic(auto, using(vx_tables::proofs::Walk::seen_steps), unfolding(crate::specs::StatsTable::entries_in, vx_tables::specs::Counted::or_empty))]
fn read_in(
    alloc: Global,
    table: &TableReader<'_>,
    visits: &mut Visits,
) -> Result<Vec<StatsEntry>, WalkError>
    ensures { Walks (λ entries. entries.items) result visits.new (within table.now.levels visits.old (entries_in table.now.bytes table.now.table)) }
{
    match table.field_vector(0, Elements::Offsets, visits)? {
        Some(vector) => read_elements(alloc, &vector, visits),
        None => Ok(Vec::new(alloc)),
    }
}

/// The statistics that a root spells.
#[tactic(auto, using(vx_tables::proofs::Walk::seen_steps), unfolding(crate::specs::StatsTable::stats_table, vx_tables::specs::Counted::allowed))]
fn read_entries(alloc: Global, bytes: &[u8]) -> Result<Vec<StatsEntry>, WalkError>
    ensures { Reads (λ entries. entries.items) result (allowed (stats_table bytes.now)) }
{
    let mut visits = Visits::new();
    let table = TableReader::root(bytes, &mut visits)?;
    read_in(alloc, &table, &mut visits)
}

/// The types of the columns of a file of this type: the fields of a struct, and another type by itself.
pub fn columns(alloc: Global, dtype: &DType) -> Result<Vec<DType>, AllocError>
    ensures { IfOk result (λ dtypes. map dtype_view dtypes.items ≡ columns_of (dtype_view dtype.now)) }
{
    let mut dtypes = Vec::new(alloc);
    match dtype {
        DType::Struct(fields, _) => push_dtypes(alloc, &mut dtypes, fields.as_slice())?,
        DType::Bool(_) | DType::Int(_, _) | DType::Text(_) => dtypes.push(dtype.share(alloc)?)?,
    }
    Ok(dtypes)
}

fn precision_of(is_exact: bool) -> Precision
    ensures { result ≡ precision_by is_exact }
{
    if is_exact {
        Precision::Exact
    } else {
        Precision::Inexact
    }
}

fn is_struct(dtype: &DType) -> bool
    ensures { result ≡ is_struct_type (dtype_view dtype.now) }
{
    matches!(dtype, DType::Struct(_, _))
}

/// A minimum or maximum, where its bytes are a value of the type. None is kept of a struct.
fn bound(
    alloc: Global,
    dtype: &DType,
    cells: &Option<Vec<u8>>,
    is_exact: bool,
) -> Result<Option<Option<(Scalar, Precision)>>, AllocError>
    ensures { IfOk result (λ o. option_map kept_view o ≡ bound_of (dtype_view dtype.now) (option_map (λ v. v.items) cells.now) is_exact) }
{
    let Some(cells) = cells else {
        return Ok(Some(None));
    };
    if is_struct(dtype) {
        return Ok(Some(None));
    }
    match scalar_of(alloc, dtype, cells)? {
        Some(scalar) => Ok(Some(Some((scalar, precision_of(is_exact))))),
        None => Ok(None),
    }
}

/// A null count.
fn count(null_count: Option<u64>, is_exact: bool) -> Option<(Scalar, Precision)>
    ensures { kept_view result ≡ count_stat null_count is_exact }
{
    match null_count {
        Some(nulls) => Some((Scalar::Int(i128::from(nulls)), precision_of(is_exact))),
        None => None,
    }
}

/// The statistics of a column of the type, where their scalars are values of it.
fn stats_of(
    alloc: Global,
    dtype: &DType,
    entry: &StatsEntry,
) -> Result<Option<StatsSet>, AllocError>
    ensures { IfOk result (λ set. set ≡ stats_by (dtype_view dtype.now) entry.now) }
{
    let Some(min) = bound(alloc, dtype, &entry.min, entry.is_min_exact)? else {
        return Ok(None);
    };
    let Some(max) = bound(alloc, dtype, &entry.max, entry.is_max_exact)? else {
        return Ok(None);
    };
    let nulls = count(entry.null_count, entry.is_null_count_exact);
    Ok(Some(StatsSet::of(min, max, nulls)))
}

/// The statistics of all columns, where their scalars are values of the columns' types.
#[tactic(auto, using(crate::proofs::Sets::sets_none))]
fn all_of(
    alloc: Global,
    dtypes: &[DType],
    entries: &[StatsEntry],
) -> Result<Option<Vec<StatsSet>>, AllocError>
    requires { length entries.now ≡ length dtypes.now }
    ensures { IfOk result (λ sets. option_map (λ v. v.items) sets ≡ all_stats entries.now (map dtype_view dtypes.now)) }
{
    let mut sets = Vec::new(alloc);
    for at in 0..entries.len() {
        let Some(set) = stats_of(alloc, &dtypes[at], &entries[at])? else {
            return Ok(None);
        };
        sets.push(set)?;
    }
    Ok(Some(sets))
}

/// The statistics of the columns of a file of this type that a table spells: one set for each field of a
/// struct, or one. All of the grammar comes before the number of sets, and that before the scalars.
#[tactic(auto, using(crate::proofs::Lengths::lengths), unfolding(crate::specs::StatsTable::stats_checks))]
pub fn read_stats(
    alloc: Global,
    bytes: &[u8],
    file_dtype: &DType,
) -> Result<Vec<StatsSet>, DataError>
    ensures { Gives Fails (λ sets. sets.items) result (stats_checks (dtype_view file_dtype.now) bytes.now) }
{
    let entries = match read_entries(alloc, bytes) {
        Ok(entries) => entries,
        Err(WalkError::BadTable) => return Err(DataError::BadTable),
        Err(WalkError::OutOfMemory) => return Err(DataError::OutOfMemory),
    };
    let dtypes = columns(alloc, file_dtype)?;
    if entries.len() != dtypes.len() {
        return Err(DataError::StatsCount);
    }
    match all_of(alloc, &dtypes, &entries)? {
        Some(sets) => Ok(sets),
        None => Err(DataError::BadTable),
    }
}
