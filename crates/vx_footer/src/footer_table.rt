//! Reads the footer's table, as it stands.
ghost use Rattle.std.specs.Prelude.{◌≡◌, ◌≤◌, drop, length, map, string_bytes};
ghost use Rattle.vx_tables.specs.Counted.{within, allowed};
ghost use Rattle.vx_tables.specs.Walking.{Walks, Reads};
ghost use Rattle.vx_footer.specs.Tables.{spec_in, specs_of, specs_in, segment_struct, footer_in, footer_table};

use crate::rows::{FooterRow, Locator};
use std::alloc::Global;
use vx_tables::{Elements, TableReader, VectorReader, Visits, WalkError};

/// The id that a spec names.
#[tactic(auto, using(vx_tables::proofs::Walk::seen_steps), unfolding(crate::specs::Tables::spec_in, crate::specs::Tables::text_required))]
fn read_spec(
    alloc: Global,
    table: &TableReader<'_>,
    visits: &mut Visits,
) -> Result<String, WalkError>
    ensures { Walks string_bytes result visits.new (within table.now.levels visits.old (spec_in table.now.bytes table.now.table)) }
{
    match table.field_text(0, visits)? {
        Some(id) => Ok(String::from_str(alloc, id)?),
        None => Err(WalkError::BadTable),
    }
}

#[tactic(auto, using(vx_tables::proofs::Walk::seen_steps), unfolding(crate::specs::Tables::specs_of, vx_tables::specs::Counted::each_table))]
fn read_specs(
    alloc: Global,
    vector: &VectorReader<'_>,
    visits: &mut Visits,
) -> Result<Vec<String>, WalkError>
    requires { vector.now.elements ≡ Elements.Offsets }
    ensures { Walks (λ ids. map string_bytes ids.items) result visits.new (within vector.now.levels visits.old (specs_of vector.now.bytes vector.now.vector)) }
{
    let mut ids = Vec::new(alloc);
    for at in 0..vector.len() {
        let table = vector.table_at(at, visits)?;
        let id = read_spec(alloc, &table, visits)?;
        ids.push(id)?;
    }
    Ok(ids)
}

/// The ids of a slot.
#[tactic(auto, using(vx_tables::proofs::Walk::seen_steps), unfolding(crate::specs::Tables::specs_in, vx_tables::specs::Counted::or_empty))]
fn read_ids(
    alloc: Global,
    table: &TableReader<'_>,
    slot: usize,
    visits: &mut Visits,
) -> Result<Vec<String>, WalkError>
    ensures { Walks (λ ids. map string_bytes ids.items) result visits.new (within table.now.levels visits.old (specs_in table.now.bytes table.now.table slot)) }
{
    match table.field_vector(slot, Elements::Offsets, visits)? {
        Some(vector) => read_specs(alloc, &vector, visits),
        None => Ok(Vec::new(alloc)),
    }
}

fn locator_of(cells: &[u8]) -> Locator
    requires { 16 ≤ length cells.now }
    ensures { result ≡ segment_struct cells.now }
{
    let (offset, rest) = cells.split_at(8);
    let offset = u64::from_le_bytes([
        offset[0], offset[1], offset[2], offset[3], offset[4], offset[5], offset[6], offset[7],
    ]);
    let length = u32::from_le_bytes([rest[0], rest[1], rest[2], rest[3]]);
    let compression = u8::from_le_bytes([cells[13]]);
    let encryption = u16::from_le_bytes([cells[14], cells[15]]);
    Locator {
        offset,
        length,
        exponent: u8::from_le_bytes([cells[12]]),
        is_coded: compression != 0 || encryption != 0,
    }
}

/// The first segment, and the bytes behind it.
pub(crate) fn split_locator(cells: &[u8]) -> (Locator, &[u8])
    requires { 16 ≤ length cells.now }
    ensures locator { result.0 ≡ segment_struct cells.now }
    ensures rest { result.1.now ≡ drop 16 cells.now }
{
    let (_, rest) = cells.split_at(16);
    (locator_of(cells), rest)
}

#[tactic(auto, using(vx_tables::proofs::Walk::seen_steps, crate::proofs::Vectors::segments_fit), unfolding(crate::specs::Tables::footer_in, crate::specs::Tables::segments_in))]
fn read_in<'a>(
    alloc: Global,
    table: &TableReader<'a>,
    visits: &mut Visits,
) -> Result<FooterRow<'a>, WalkError>
    ensures { Walks (λ f. f) result visits.new (within table.now.levels visits.old (footer_in table.now.bytes table.now.table)) }
{
    let array_ids = read_ids(alloc, table, 0, visits)?;
    let layout_ids = read_ids(alloc, table, 1, visits)?;
    let Some(places) = table.field_vector(2, Elements::Segments, visits)? else {
        return Err(WalkError::BadTable);
    };
    Ok(FooterRow {
        array_ids,
        layout_ids,
        places,
    })
}

/// The footer's table that a root spells.
#[tactic(auto, using(vx_tables::proofs::Walk::seen_steps), unfolding(crate::specs::Tables::footer_table, vx_tables::specs::Counted::allowed))]
pub(crate) fn read_footer(alloc: Global, bytes: &[u8]) -> Result<FooterRow<'_>, WalkError>
    ensures { Reads (λ f. f) result (allowed (footer_table bytes.now)) }
{
    let mut visits = Visits::new();
    let table = TableReader::root(bytes, &mut visits)?;
    read_in(alloc, &table, &mut visits)
}
