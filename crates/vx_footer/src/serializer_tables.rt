//! The tables that a serializer writes of a footer.
ghost use Rattle.std.specs.Prelude.{◌≡◌, ◌≤◌, ◌+◌, ◌<◌, ◌^◌, ◌||◌, not, nat_le, true, IfOk, IfSome, IfNone, OnOk, length, map, string_bytes, sum_by, if◌then◌else◌};
ghost use Rattle.std.specs.List.{list_all};
ghost use Rattle.std.specs.Option.{option_map};
ghost use Rattle.vx_base.specs.Checks.{Gives};
ghost use Rattle.vx_tables.specs.Block.{root_bytes};
ghost use Rattle.vx_data.specs.Dtype.{dtype_view};
ghost use Rattle.vx_data.specs.DtypeWritten.{pieces_of, levels_of, visits_of};
ghost use Rattle.vx_data.specs.Layout.{dtype_of};
ghost use Rattle.vx_data.specs.LayoutIds.{used_ids};
ghost use Rattle.vx_data.specs.LayoutWritten.{has_id as is_among, tree_levels, tree_visits, tree_pieces, uses_ids};
ghost use Rattle.vx_data.specs.StatsWritten.{entries_of as entries_by, stats_pieces, stats_visits};
ghost use Rattle.vx_data.specs.Written.{left_of};
ghost use Rattle.vx_footer.specs.PostscriptWritten.{FailsToWrite};
ghost use Rattle.vx_footer.specs.Serialized.{id_pieces};
ghost use Rattle.vx_footer.specs.Serializing.{footer_pieces, stats_root as stats_bytes, has_sets, dtype_root as dtype_bytes, layout_root as layout_bytes, footer_root as footer_bytes, ids_visits, footer_visits, some_stats_visits, permits, is_shallow, has_few_visits, short_root, short_if, some_length, roots_checks, AreShort};

use crate::serializing::id_tables;
use crate::{FileStatistics, Footer, WriteError};
use std::alloc::{AllocError, Global};
use std::marker::Model;
use vx_base::{ByteBuffer, SegmentSpec};
use vx_data::{DType, Layout, LayoutContext, stats_have_few_visits, write_stats};
use vx_tables::{TableError, TableWriter};

/// The roots of the tables that are written.
#[derive(Drop)]
pub(crate) struct Tables {
    pub(crate) dtype_root: Option<ByteBuffer>,
    pub(crate) layout_root: ByteBuffer,
    pub(crate) stats_root: Option<ByteBuffer>,
    pub(crate) footer_root: ByteBuffer,
}

impl Model for Tables {
    ghost use Rattle.std.specs.Option.{option_map};
    ghost use Rattle.vx_footer.specs.Serializing.{Roots};

    ghost Value = { Roots };

    ghost view = { λ a. record {
      dtype = option_map (λ b. b.bytes) a.dtype_root;
      layout = a.layout_root.bytes;
      statistics = option_map (λ b. b.bytes) a.stats_root;
      footer = a.footer_root.bytes;
    } };
}

/// Whether an id is among others.
fn has_id(ids: &[String], id: &str) -> bool
    ensures { result ≡ is_among (map string_bytes ids.now) id.now }
{
    for other in ids {
        if other.as_str() == id {
            return true;
        }
    }
    false
}

/// Whether each of some ids is among others.
fn have_all(permitted: &[String], ids: &[String]) -> bool
    ensures { result ≡ list_all (is_among (map string_bytes permitted.now)) (map string_bytes ids.now) }
{
    for id in ids {
        if !has_id(permitted, id.as_str()) {
            return false;
        }
    }
    true
}

/// Whether all ids are among those that are permitted, where not all are.
pub(crate) fn are_permitted(context: &LayoutContext, ids: &[String]) -> bool
    ensures { result ≡ permits context.now (map string_bytes ids.now) }
{
    match context.permitted() {
        Some(permitted) => have_all(permitted, ids),
        None => true,
    }
}

/// Whether the tables are flat enough for a reader.
pub(crate) fn are_shallow(footer: &Footer, excluded: bool) -> bool
    ensures { result ≡ is_shallow excluded footer.now.content }
{
    (excluded || footer.dtype().has_few_levels()) && footer.layout().has_few_levels()
}

/// The visits that are left behind those of ids.
fn ids_left(ids: &[String], visits: u64) -> Option<u64>
    ensures { result ≡ left_of (ids_visits (map string_bytes ids.now)) visits }
{
    let mut left = visits;
    for id in ids {
        left = left.checked_sub(2 + id.as_str().len() as u64 / 64)?;
    }
    Some(left)
}

/// Whether a reader makes few visits of the footer's table.
fn footer_is_small(arrays: &[String], layouts: &[String]) -> bool
    ensures { result ≡ nat_le (4 + (ids_visits (map string_bytes arrays.now) + ids_visits (map string_bytes layouts.now))) 1000000 }
{
    match ids_left(arrays, 999_996) {
        Some(left) => ids_left(layouts, left).is_some(),
        None => false,
    }
}

/// Whether a reader makes few visits of the table of statistics.
fn stats_are_small(alloc: Global, footer: &Footer) -> Result<bool, AllocError>
    ensures { IfOk result (λ few. few ≡ nat_le (some_stats_visits footer.now.content.statistics) 1000000) }
{
    match footer.statistics() {
        Some(statistics) => Ok(stats_have_few_visits(
            alloc,
            statistics.stats_sets(),
            statistics.dtypes(),
        )?),
        None => Ok(true),
    }
}

/// Whether a reader makes few visits of each table, where the layout uses these ids.
pub(crate) fn are_small(
    alloc: Global,
    footer: &Footer,
    excluded: bool,
    ids: &[String],
) -> Result<bool, AllocError>
    requires { map string_bytes ids.now ≡ used_ids footer.now.content.layout }
    ensures { IfOk result (λ few. few ≡ has_few_visits excluded footer.now.content) }
{
    let stats = stats_are_small(alloc, footer)?;
    Ok(
        (excluded || footer.dtype().has_few_visits())
            && footer.layout().has_few_visits()
            && stats
            && footer_is_small(footer.array_ids(), ids),
    )
}

/// The root of the type's table.
#[tactic(auto, using(crate::proofs::RootLemmas::short_is), unfolding(vx_data::specs::DtypeWritten::dtype_written))]
fn dtype_root(alloc: Global, dtype: &DType) -> Result<ByteBuffer, WriteError>
    requires shallow { nat_le (levels_of (dtype_view dtype.now)) 64 ≡ true }
    requires small { nat_le (visits_of (dtype_view dtype.now)) 1000000 ≡ true }
    ensures short { IfOk result (λ b. length b.bytes < 2 ^ 32) }
    ensures value { Gives FailsToWrite (λ b. b.bytes) result (short_root (root_bytes (pieces_of (dtype_view dtype.now)))) }
{
    match dtype.write(alloc) {
        Ok(buffer) => Ok(buffer),
        Err(error) => Err(WriteError::from(error)),
    }
}

/// The root of the layout's table, which uses these ids.
#[tactic(auto, using(crate::proofs::RootLemmas::short_is), unfolding(vx_data::specs::LayoutWritten::layout_written))]
fn layout_root(alloc: Global, layout: &Layout, ids: &[String]) -> Result<ByteBuffer, WriteError>
    requires used { uses_ids (map string_bytes ids.now) layout.now ≡ true }
    requires few { length ids.now ≤ 65536 }
    requires shallow { nat_le (tree_levels layout.now) 64 ≡ true }
    requires small { nat_le (tree_visits layout.now) 1000000 ≡ true }
    ensures short { IfOk result (λ b. length b.bytes < 2 ^ 32) }
    ensures value { Gives FailsToWrite (λ b. b.bytes) result (short_root (root_bytes (tree_pieces (map string_bytes ids.now) layout.now))) }
{
    match layout.write(alloc, ids) {
        Ok(buffer) => Ok(buffer),
        Err(error) => Err(WriteError::from(error)),
    }
}

/// The root of the table of statistics.
#[tactic(auto, using(crate::proofs::RootLemmas::short_is), unfolding(vx_data::specs::StatsWritten::stats_written))]
fn stats_root(alloc: Global, statistics: &FileStatistics) -> Result<ByteBuffer, WriteError>
    requires { nat_le (stats_visits (entries_by statistics.now.sets statistics.now.dtypes)) 1000000 ≡ true }
    ensures short { IfOk result (λ b. length b.bytes < 2 ^ 32) }
    ensures value { Gives FailsToWrite (λ b. b.bytes) result (short_root (root_bytes (stats_pieces (entries_by statistics.now.sets statistics.now.dtypes)))) }
{
    match write_stats(alloc, statistics.stats_sets(), statistics.dtypes()) {
        Ok(buffer) => Ok(buffer),
        Err(error) => Err(WriteError::from(error)),
    }
}

/// The footer's table: the ids of arrays and of layouts, and the segments.
fn footer_table(
    alloc: Global,
    arrays: &[String],
    layouts: &[String],
    specs: &[SegmentSpec],
) -> Result<TableWriter, AllocError>
    ensures { IfOk result (λ t. t ≡ footer_pieces (map string_bytes arrays.now) (map string_bytes layouts.now) specs.now) }
{
    let mut table = TableWriter::new(alloc);
    table.push_tables(alloc, 0, id_tables(alloc, arrays)?)?;
    table.push_tables(alloc, 1, id_tables(alloc, layouts)?)?;
    table.push_specs(alloc, 2, specs)?;
    Ok(table)
}

/// The root of the footer's table.
fn footer_root(alloc: Global, footer: &Footer, ids: &[String]) -> Result<ByteBuffer, WriteError>
    requires { map string_bytes ids.now ≡ used_ids footer.now.content.layout }
    ensures short { IfOk result (λ b. length b.bytes < 2 ^ 32) }
    ensures value { Gives FailsToWrite (λ b. b.bytes) result (short_root (footer_bytes footer.now.content)) }
{
    let table = footer_table(alloc, footer.array_ids(), ids, footer.segment_map())?;
    match table.finish(alloc) {
        Ok(buffer) => Ok(buffer),
        Err(TableError::TableTooLong) => Err(WriteError::SegmentTooLong),
        Err(TableError::OutOfMemory) => Err(WriteError::OutOfMemory),
    }
}

/// The root of the type's table, unless it is excluded.
fn dtype_if_any(
    alloc: Global,
    dtype: &DType,
    excluded: bool,
) -> Result<Option<ByteBuffer>, WriteError>
    requires shallow { (excluded || nat_le (levels_of (dtype_view dtype.now)) 64) ≡ true }
    requires small { (excluded || nat_le (visits_of (dtype_view dtype.now)) 1000000) ≡ true }
    ensures short { IfOk result (λ o. some_length (option_map (λ b. b.bytes) o) < 2 ^ 32) }
    ensures value { Gives FailsToWrite (option_map (λ b. b.bytes)) result (short_if (not excluded) (root_bytes (pieces_of (dtype_view dtype.now)))) }
{
    if excluded {
        return Ok(None);
    }
    let root = dtype_root(alloc, dtype)?;
    Ok(Some(root))
}

/// The root of the table of statistics, where there are some with sets.
fn stats_if_any(alloc: Global, footer: &Footer) -> Result<Option<ByteBuffer>, WriteError>
    requires { nat_le (some_stats_visits footer.now.content.statistics) 1000000 ≡ true }
    ensures short { IfOk result (λ o. some_length (option_map (λ b. b.bytes) o) < 2 ^ 32) }
    ensures value { Gives FailsToWrite (option_map (λ b. b.bytes)) result
        (short_if (has_sets footer.now.content.statistics) (stats_bytes footer.now.content.statistics)) }
{
    let Some(statistics) = footer.statistics() else {
        return Ok(None);
    };
    if statistics.stats_sets().is_empty() {
        return Ok(None);
    }
    let root = stats_root(alloc, statistics)?;
    Ok(Some(root))
}

/// The roots of a footer's tables, where its layout uses these ids.
#[tactic(auto, using(crate::proofs::RootLemmas::shallow_parts, crate::proofs::RootLemmas::small_parts), unfolding(crate::specs::Serializing::roots_checks))]
pub(crate) fn tables_of(
    alloc: Global,
    footer: &Footer,
    excluded: bool,
    ids: &[String],
) -> Result<Tables, WriteError>
    requires names { map string_bytes ids.now ≡ used_ids footer.now.content.layout }
    requires used { uses_ids (map string_bytes ids.now) footer.now.content.layout ≡ true }
    requires few { length ids.now ≤ 3 }
    requires shallow { is_shallow excluded footer.now.content ≡ true }
    requires small { has_few_visits excluded footer.now.content ≡ true }
    ensures value { Gives FailsToWrite (λ tables. tables) result (roots_checks excluded footer.now.content) }
    ensures short { IfOk result (λ tables. AreShort tables) }
{
    let dtype_root = dtype_if_any(alloc, footer.dtype(), excluded)?;
    let layout_root = layout_root(alloc, footer.layout(), ids)?;
    let stats_root = stats_if_any(alloc, footer)?;
    let footer_root = footer_root(alloc, footer, ids)?;
    Ok(Tables {
        dtype_root,
        layout_root,
        stats_root,
        footer_root,
    })
}
