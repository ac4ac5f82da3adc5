//! Reads the table of the postscript, as it stands.
ghost use Rattle.std.specs.Prelude.{◌≡◌, string_bytes};
ghost use Rattle.std.specs.Result.{result_ok};
ghost use Rattle.vx_tables.specs.Counted.{within, allowed};
ghost use Rattle.vx_tables.specs.Reader.{taken};
ghost use Rattle.vx_tables.specs.Walking.{Walks, Reads};
ghost use Rattle.vx_footer.specs.Tables.{locator, locator_field as locator_of_slot, locator_required as locator_needed, text_required as text_needed, entry_in, entries_of, metadata_in, postscript_in, postscript_table};

use crate::rows::{Locator, MetadataRow, PostscriptRow};
use std::alloc::Global;
use vx_base::{Sequence, Text};
use vx_tables::{BadTable, Elements, TableReader, VectorReader, Visits, WalkError};

#[tactic(auto, unfolding(crate::specs::Tables::locator))]
fn read_locator(table: &TableReader<'_>) -> Result<Locator, BadTable>
    ensures { result_ok result ≡ locator table.now.bytes table.now.table }
{
    let offset = table.field_u64(0)?;
    let length = table.field_u32(1)?;
    let exponent = table.field_u8(2)?;
    let compression = table.field_u8(3)?;
    let encryption = table.field_u8(4)?;
    Ok(Locator {
        offset: offset.unwrap_or(0),
        length: length.unwrap_or(0),
        exponent: exponent.unwrap_or(0),
        is_coded: compression.is_some() || encryption.is_some(),
    })
}

#[tactic(auto, using(vx_tables::proofs::Walk::walk_steps), unfolding(crate::specs::Tables::locator_field))]
fn locator_field(
    table: &TableReader<'_>,
    slot: usize,
    visits: &mut Visits,
) -> Result<Option<Locator>, BadTable>
    ensures { taken (λ l. l) result visits.new ≡ within table.now.levels visits.old (locator_of_slot table.now.bytes table.now.table slot) }
{
    match table.field_table(slot, visits)? {
        Some(inner) => Ok(Some(read_locator(&inner)?)),
        None => Ok(None),
    }
}

#[tactic(auto, using(vx_tables::proofs::Walk::walk_steps), unfolding(crate::specs::Tables::locator_required))]
fn locator_required(
    table: &TableReader<'_>,
    slot: usize,
    visits: &mut Visits,
) -> Result<Locator, BadTable>
    ensures { taken (λ l. l) result visits.new ≡ within table.now.levels visits.old (locator_needed table.now.bytes table.now.table slot) }
{
    match locator_field(table, slot, visits)? {
        Some(locator) => Ok(locator),
        None => Err(BadTable),
    }
}

#[tactic(auto, using(vx_tables::proofs::Walk::walk_steps), unfolding(crate::specs::Tables::text_required))]
fn read_key(alloc: Global, table: &TableReader<'_>, visits: &mut Visits) -> Result<Text, WalkError>
    ensures { Walks (λ key. key) result visits.new (within table.now.levels visits.old (text_needed table.now.bytes table.now.table 0)) }
{
    match table.field_text(0, visits)? {
        Some(key) => Ok(Text::from_str(alloc, key)?),
        None => Err(WalkError::BadTable),
    }
}

#[tactic(auto, using(vx_tables::proofs::Walk::walk_steps), unfolding(crate::specs::Tables::entry_in))]
fn read_entry(
    alloc: Global,
    table: &TableReader<'_>,
    visits: &mut Visits,
) -> Result<MetadataRow, WalkError>
    ensures { Walks (λ entry. entry) result visits.new (within table.now.levels visits.old (entry_in table.now.bytes table.now.table)) }
{
    let key = read_key(alloc, table, visits)?;
    let segment = locator_required(table, 1, visits)?;
    Ok(MetadataRow { key, segment })
}

#[tactic(auto, using(vx_tables::proofs::Walk::walk_steps), unfolding(crate::specs::Tables::entries_of, vx_tables::specs::Counted::each_table))]
fn read_entries(
    alloc: Global,
    vector: &VectorReader<'_>,
    visits: &mut Visits,
) -> Result<Sequence<MetadataRow>, WalkError>
    requires { vector.now.elements ≡ Elements.Offsets }
    ensures { Walks (λ entries. entries) result visits.new (within vector.now.levels visits.old (entries_of vector.now.bytes vector.now.vector)) }
{
    let mut entries = Sequence::new(alloc);
    for at in 0..vector.len() {
        let table = vector.table_at(at, visits)?;
        let entry = read_entry(alloc, &table, visits)?;
        entries.push(entry)?;
    }
    Ok(entries)
}

#[tactic(auto, using(vx_tables::proofs::Walk::walk_steps), unfolding(crate::specs::Tables::metadata_in, vx_tables::specs::Counted::or_empty))]
fn read_metadata(
    alloc: Global,
    table: &TableReader<'_>,
    visits: &mut Visits,
) -> Result<Sequence<MetadataRow>, WalkError>
    ensures { Walks (λ entries. entries) result visits.new (within table.now.levels visits.old (metadata_in table.now.bytes table.now.table)) }
{
    match table.field_vector(4, Elements::Offsets, visits)? {
        Some(vector) => read_entries(alloc, &vector, visits),
        None => Ok(Sequence::new(alloc)),
    }
}

#[tactic(auto, using(vx_tables::proofs::Walk::walk_steps), unfolding(crate::specs::Tables::postscript_in))]
fn read_in(
    alloc: Global,
    table: &TableReader<'_>,
    visits: &mut Visits,
) -> Result<PostscriptRow, WalkError>
    ensures { Walks (λ p. p) result visits.new (within table.now.levels visits.old (postscript_in table.now.bytes table.now.table)) }
{
    let dtype = locator_field(table, 0, visits)?;
    let layout = locator_required(table, 1, visits)?;
    let statistics = locator_field(table, 2, visits)?;
    let footer = locator_required(table, 3, visits)?;
    let metadata = read_metadata(alloc, table, visits)?;
    Ok(PostscriptRow {
        dtype,
        layout,
        statistics,
        footer,
        metadata,
    })
}

/// The postscript that a root spells.
#[tactic(auto, using(vx_tables::proofs::Walk::walk_steps), unfolding(crate::specs::Tables::postscript_table, vx_tables::specs::Counted::allowed))]
pub(crate) fn read_postscript(alloc: Global, bytes: &[u8]) -> Result<PostscriptRow, WalkError>
    ensures { Reads (λ p. p) result (allowed (postscript_table bytes.now)) }
{
    let mut visits = Visits::new();
    let table = TableReader::root(bytes, &mut visits)?;
    read_in(alloc, &table, &mut visits)
}
