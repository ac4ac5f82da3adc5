//! Writes the table of statistics.
ghost use Rattle.std.specs.Prelude.{◌≡◌, ◌≤◌, ◌<◌, ◌++◌, ◌&&◌, int_le, true, IfOk, OnOk, length, map, sum_by, Option, List, ℕ};
ghost use Rattle.std.specs.Option.{option_map};
ghost use Rattle.vx_base.specs.Checks.{Gives};
ghost use Rattle.vx_tables.specs.Block.{slot_count};
ghost use Rattle.vx_data.specs.Dtype.{dtype_view};
ghost use Rattle.vx_data.specs.Scalar.{scalar_view};
ghost use Rattle.vx_data.specs.Stats.{stat_in};
ghost use Rattle.vx_data.specs.Written.{FailsToWrite, left_of};
ghost use Rattle.vx_data.specs.StatsWritten.{least_of as least_by, most_of as most_by, is_number_of, number_bytes as number_cells, bytes_of_flag, bytes_of_number, bytes_of_words, scalar_bytes as scalar_cells, count_of_value, bound_bytes, count_number, is_sure, entry_of as entry_by, entries_of as entries_by, bound_pieces, count_pieces, entry_pieces, bound_visits as visits_of_bound, entry_visits as visits_of_entry, stats_pieces, stats_written};

use crate::dtype_writing::{MOST_VISITS, finished};
use crate::stats_entry::StatsEntry;
use crate::{DType, PType, Precision, Scalar, Stat, StatsSet, TableWriteError};
use std::alloc::{AllocError, Global};
use vx_base::ByteBuffer;
use vx_tables::TableWriter;

/// The least number of a type.
fn least_of(ptype: PType) -> i128
    ensures { result ≡ least_by ptype }
{
    match ptype {
        PType::U8 | PType::U16 | PType::U32 | PType::U64 => 0,
        PType::I8 => -128,
        PType::I16 => -32_768,
        PType::I32 => -2_147_483_648,
        PType::I64 => -9_223_372_036_854_775_808,
    }
}

/// The greatest number of a type.
fn most_of(ptype: PType) -> i128
    ensures { result ≡ most_by ptype }
{
    match ptype {
        PType::U8 => 255,
        PType::U16 => 65_535,
        PType::U32 => 4_294_967_295,
        PType::U64 => 18_446_744_073_709_551_615,
        PType::I8 => 127,
        PType::I16 => 32_767,
        PType::I32 => 2_147_483_647,
        PType::I64 => 9_223_372_036_854_775_807,
    }
}

/// Whether a number is one of the type.
fn is_of(ptype: PType, value: i128) -> bool
    ensures { result ≡ is_number_of ptype value }
{
    least_of(ptype) <= value && value <= most_of(ptype)
}

/// The bytes of a number of the type.
fn number_bytes(alloc: Global, ptype: PType, value: i128) -> Result<Vec<u8>, AllocError>
    requires { is_number_of ptype value ≡ true }
    ensures { IfOk result (λ cells. cells.items ≡ number_cells ptype value) }
{
    match ptype {
        PType::U8 => Vec::from_slice(alloc, &(value as u8).to_le_bytes()),
        PType::U16 => Vec::from_slice(alloc, &(value as u16).to_le_bytes()),
        PType::U32 => Vec::from_slice(alloc, &(value as u32).to_le_bytes()),
        PType::U64 => Vec::from_slice(alloc, &(value as u64).to_le_bytes()),
        PType::I8 => Vec::from_slice(alloc, &(value as i8).to_le_bytes()),
        PType::I16 => Vec::from_slice(alloc, &(value as i16).to_le_bytes()),
        PType::I32 => Vec::from_slice(alloc, &(value as i32).to_le_bytes()),
        PType::I64 => Vec::from_slice(alloc, &(value as i64).to_le_bytes()),
    }
}

/// The byte of a truth value.
fn flag_cells(alloc: Global, scalar: &Scalar) -> Result<Option<Vec<u8>>, AllocError>
    ensures { IfOk result (λ o. option_map (λ v. v.items) o ≡ bytes_of_flag (scalar_view scalar.now)) }
{
    match scalar {
        Scalar::Bool(flag) => Ok(Some(Vec::from_slice(alloc, &[u8::from(*flag)])?)),
        Scalar::Int(_) | Scalar::Text(_) => Ok(None),
    }
}

/// The bytes of an integer, where it is one of the type.
fn int_cells(alloc: Global, ptype: PType, scalar: &Scalar) -> Result<Option<Vec<u8>>, AllocError>
    ensures { IfOk result (λ o. option_map (λ v. v.items) o ≡ bytes_of_number ptype (scalar_view scalar.now)) }
{
    match scalar {
        Scalar::Int(number) => {
            if !is_of(ptype, *number) {
                return Ok(None);
            }
            Ok(Some(number_bytes(alloc, ptype, *number)?))
        }
        Scalar::Bool(_) | Scalar::Text(_) => Ok(None),
    }
}

/// The bytes of a text.
fn text_cells(alloc: Global, scalar: &Scalar) -> Result<Option<Vec<u8>>, AllocError>
    ensures { IfOk result (λ o. option_map (λ v. v.items) o ≡ bytes_of_words (scalar_view scalar.now)) }
{
    match scalar {
        Scalar::Text(text) => Ok(Some(Vec::from_slice(alloc, text.as_bytes())?)),
        Scalar::Bool(_) | Scalar::Int(_) => Ok(None),
    }
}

/// The bytes of a value, where it is one of the type.
fn scalar_bytes(
    alloc: Global,
    dtype: &DType,
    scalar: &Scalar,
) -> Result<Option<Vec<u8>>, AllocError>
    ensures { IfOk result (λ o. option_map (λ v. v.items) o ≡ scalar_cells (dtype_view dtype.now) (scalar_view scalar.now)) }
{
    match dtype {
        DType::Bool(_) => Ok(flag_cells(alloc, scalar)?),
        DType::Int(ptype, _) => Ok(int_cells(alloc, *ptype, scalar)?),
        DType::Text(_) => Ok(text_cells(alloc, scalar)?),
        DType::Struct(_, _) => Ok(None),
    }
}

/// The bytes of a minimum or maximum, where there is one of the type.
fn bound_cells(
    alloc: Global,
    dtype: &DType,
    set: &StatsSet,
    stat: Stat,
) -> Result<Option<Vec<u8>>, AllocError>
    ensures { IfOk result (λ o. option_map (λ v. v.items) o ≡ bound_bytes (dtype_view dtype.now) (stat_in stat set.now)) }
{
    match set.get(stat) {
        Some((scalar, _)) => Ok(scalar_bytes(alloc, dtype, scalar)?),
        None => Ok(None),
    }
}

/// The number of a value that is a count.
fn count_in(scalar: &Scalar) -> Option<u64>
    ensures { result ≡ count_of_value (scalar_view scalar.now) }
{
    match scalar {
        Scalar::Int(number) => {
            if !is_of(PType::U64, *number) {
                return None;
            }
            Some(*number as u64)
        }
        Scalar::Bool(_) | Scalar::Text(_) => None,
    }
}

/// The null count, where there is one.
fn count_of(set: &StatsSet) -> Option<u64>
    ensures { result ≡ count_number set.now.null_count }
{
    match set.get(Stat::NullCount) {
        Some((scalar, _)) => count_in(scalar),
        None => None,
    }
}

/// Whether a statistic is there and exact.
fn is_exact(set: &StatsSet, stat: Stat) -> bool
    ensures { result ≡ is_sure (stat_in stat set.now) }
{
    match set.get(stat) {
        Some((_, Precision::Exact)) => true,
        Some((_, Precision::Inexact)) => false,
        None => false,
    }
}

/// The statistics of a column of the type as their table has them.
fn entry_of(alloc: Global, set: &StatsSet, dtype: &DType) -> Result<StatsEntry, AllocError>
    ensures { IfOk result (λ entry. entry ≡ entry_by (dtype_view dtype.now) set.now) }
{
    let min = bound_cells(alloc, dtype, set, Stat::Min)?;
    let max = bound_cells(alloc, dtype, set, Stat::Max)?;
    Ok(StatsEntry {
        min,
        is_min_exact: is_exact(set, Stat::Min),
        max,
        is_max_exact: is_exact(set, Stat::Max),
        null_count: count_of(set),
        is_null_count_exact: is_exact(set, Stat::NullCount),
    })
}

/// The statistics of columns of these types.
#[tactic(auto, using(crate::proofs::SetsWritten::next_entry, crate::proofs::SetsWritten::no_entry))]
pub(crate) fn entries_of(
    alloc: Global,
    sets: &[StatsSet],
    dtypes: &[DType],
) -> Result<Vec<StatsEntry>, AllocError>
    requires { length sets.now ≡ length dtypes.now }
    ensures { IfOk result (λ entries. entries.items ≡ entries_by sets.now (map dtype_view dtypes.now)) }
{
    let mut entries = Vec::new(alloc);
    for at in 0..sets.len() {
        entries.push(entry_of(alloc, &sets[at], &dtypes[at])?)?;
    }
    Ok(entries)
}

/// Adds a minimum or maximum, and behind it whether it is exact.
#[tactic(auto, using(crate::proofs::SetsWritten::slots_push))]
fn push_bound(
    alloc: Global,
    table: &mut TableWriter,
    slot: usize,
    cells: &Option<Vec<u8>>,
    is_exact: bool,
) -> Result<(), AllocError>
    requires above { slot_count table.old ≤ slot }
    requires below { slot < 1023 }
    ensures { OnOk result (table.new ≡ table.old ++ bound_pieces slot (option_map (λ v. v.items) cells.now) is_exact) }
{
    let Some(cells) = cells else {
        return Ok(());
    };
    table.push_bytes(alloc, slot, cells)?;
    table.push_u8(alloc, slot + 1, u8::from(is_exact))?;
    Ok(())
}

/// Adds a null count, and behind it whether it is exact.
#[tactic(auto, using(crate::proofs::SetsWritten::slots_push))]
fn push_count(
    alloc: Global,
    table: &mut TableWriter,
    count: Option<u64>,
    is_exact: bool,
) -> Result<(), AllocError>
    requires { slot_count table.old ≤ 4 }
    ensures { OnOk result (table.new ≡ table.old ++ count_pieces count is_exact) }
{
    let Some(count) = count else {
        return Ok(());
    };
    table.push_u64(alloc, 4, count)?;
    table.push_u8(alloc, 5, u8::from(is_exact))?;
    Ok(())
}

/// The table of a column's statistics.
#[tactic(auto, using(crate::proofs::SetsWritten::slots_two, crate::proofs::SetsWritten::slots_four))]
fn table_of(alloc: Global, entry: &StatsEntry) -> Result<TableWriter, AllocError>
    ensures { IfOk result (λ table. table ≡ entry_pieces entry.now) }
{
    let mut table = TableWriter::new(alloc);
    push_bound(alloc, &mut table, 0, &entry.min, entry.is_min_exact)?;
    push_bound(alloc, &mut table, 2, &entry.max, entry.is_max_exact)?;
    push_count(
        alloc,
        &mut table,
        entry.null_count,
        entry.is_null_count_exact,
    )?;
    Ok(table)
}

/// The tables of columns' statistics.
fn tables_of(alloc: Global, entries: &[StatsEntry]) -> Result<Vec<TableWriter>, AllocError>
    ensures { IfOk result (λ tables. tables.items ≡ map entry_pieces entries.now) }
{
    let mut tables = Vec::new(alloc);
    for entry in entries {
        tables.push(table_of(alloc, entry)?)?;
    }
    Ok(tables)
}

/// The visits of a minimum or maximum.
fn bound_visits(cells: &Option<Vec<u8>>) -> u64
    ensures value { result ≡ visits_of_bound (option_map (λ v. v.items) cells.now) }
    ensures few { result ≤ 288230376151711745 }
{
    match cells {
        Some(cells) => 1 + cells.len() as u64 / 64,
        None => 0,
    }
}

/// The visits of a column's statistics.
fn entry_visits(entry: &StatsEntry) -> u64
    ensures { result ≡ visits_of_entry entry.now }
{
    1 + (bound_visits(&entry.min) + bound_visits(&entry.max))
}

/// The visits that are left behind those of columns' statistics.
pub(crate) fn visits_left(entries: &[StatsEntry], visits: u64) -> Option<u64>
    ensures { result ≡ left_of (sum_by visits_of_entry entries.now) visits }
{
    let mut left = visits;
    for entry in entries {
        left = left.checked_sub(entry_visits(entry))?;
    }
    Some(left)
}

/// The root of the table of statistics.
fn root_of(alloc: Global, entries: &[StatsEntry]) -> Result<TableWriter, AllocError>
    ensures { IfOk result (λ table. table ≡ stats_pieces entries.now) }
{
    let mut table = TableWriter::new(alloc);
    table.push_tables(alloc, 0, tables_of(alloc, entries)?)?;
    Ok(table)
}

/// The table of the statistics of columns of these types, a set for each. A minimum or maximum that is no
/// value of its type is left out, and so is a null count that does not fit 64 bits. It is refused where a
/// reader would find it too large.
#[tactic(auto, unfolding(crate::specs::StatsWritten::stats_written))]
pub fn write_stats(
    alloc: Global,
    sets: &[StatsSet],
    dtypes: &[DType],
) -> Result<ByteBuffer, TableWriteError>
    requires { length sets.now ≡ length dtypes.now }
    ensures { Gives FailsToWrite (λ b. b.bytes) result (stats_written sets.now (map dtype_view dtypes.now)) }
{
    let entries = entries_of(alloc, sets, dtypes)?;
    if visits_left(&entries, MOST_VISITS - 2).is_none() {
        return Err(TableWriteError::TooManyTables);
    }
    let table = root_of(alloc, &entries)?;
    finished(alloc, table)
}
