//! Reads a table, field by field.
ghost use Rattle.std.specs.Prelude.{◌≡◌, ◌-◌, ◌≤◌, OnOk, IfOk, IfSome, length, List, ℕ};
ghost use Rattle.std.specs.Result.{result_ok};
ghost use Rattle.std.specs.Option.{option_map, option_copied};
ghost use Rattle.std.specs.Int.{w8, w16, w32, w64};
ghost use Rattle.vx_tables.specs.Field.{target_field, table_at, root as root_table, slot as slot_place, entry_place, field, text_field, table_field, vector_field};
ghost use Rattle.vx_tables.specs.Counted.{most_levels, one, text_cost, vector_cost, optional_cost};
ghost use Rattle.vx_tables.specs.Reader.{InTable, IsBelow, IsVectorOf, reached_optional, charge, taken};

use crate::bad_table::BadTable;
use crate::elements::Elements;
use crate::vector_reader::VectorReader;
use crate::visits::Visits;
use crate::wire::{
    backward_from, forward_from, target_from, text_from, u8_from, u16_from, u32_from, u64_from,
};
use std::marker::Model;

/// How many tables may lie one in the other, the root among them.
const MOST_LEVELS: usize = 64;

/// A table of a root.
#[derive(Debug, Drop)]
pub struct TableReader<'a> {
    bytes: &'a [u8],
    place: usize,
    vtable: usize,
    size: usize,
    levels: usize,
}

impl<'a> Model for TableReader<'a> {
    ghost use Rattle.std.specs.Prelude.{◌≤◌, ◌+◌, length};
    ghost use Rattle.vx_tables.specs.Reader.{InTable};

    ghost Value = { InTable };

    ghost view = { λ a. record { bytes = a.bytes.now; table = record { place = a.place; vtable = a.vtable; size = a.size }; levels = a.levels } };

    ghost invariant = { λ a. (a.place + 4 ≤ length a.bytes.now) × (4 ≤ a.size) × (a.vtable + a.size ≤ length a.bytes.now) };
}

/// The table at a place, with the levels that may be entered from it.
#[tactic(auto, unfolding(crate::specs::Field::table_at))]
pub(crate) fn table_from(
    bytes: &[u8],
    at: usize,
    levels: usize,
) -> Result<TableReader<'_>, BadTable>
    requires { at ≤ length bytes.now }
    ensures value { option_map (λ r. r.table) (result_ok result) ≡ table_at bytes.now at }
    ensures bytes { IfOk result (λ r. r.bytes ≡ bytes.now) }
    ensures levels { IfOk result (λ r. r.levels ≡ levels) }
{
    let back = u32_from(bytes, at)?;
    let vtable = backward_from(bytes, at, back)?;
    let size = u16_from(bytes, vtable)? as usize;
    let own = u16_from(bytes, vtable + 2)?;
    if size < 4 || own < 4 || size > bytes.len() - vtable {
        return Err(BadTable);
    }
    Ok(TableReader {
        bytes,
        place: at,
        vtable,
        size,
        levels,
    })
}

impl<'a> TableReader<'a> {
    /// The root table, which takes a visit.
    #[tactic(auto, unfolding(crate::specs::Field::root))]
    pub fn root(bytes: &'a [u8], visits: &mut Visits) -> Result<TableReader<'a>, BadTable>
        ensures value { taken (λ r. r.table) result visits.new ≡ charge one (root_table bytes.now) visits.old }
        ensures bytes { IfOk result (λ r. r.bytes ≡ bytes.now) }
        ensures levels { IfOk result (λ r. r.levels ≡ most_levels - 1) }
    {
        let table = table_from(bytes, target_from(bytes, 0)?, MOST_LEVELS - 1)?;
        visits.charge(1)?;
        Ok(table)
    }

    /// Where the field of a slot stands.
    #[tactic(auto, unfolding(crate::specs::Field::slot, crate::specs::Field::entry_place))]
    fn place_of(&self, slot: usize) -> Result<Option<usize>, BadTable>
        ensures value { result_ok result ≡ slot_place self.now.bytes self.now.table slot }
        ensures inside { IfOk result (λ o. IfSome o (λ at. at ≤ length self.now.bytes)) }
    {
        if slot >= (self.size - 4) / 2 {
            return Ok(None);
        }
        let entry = u16_from(self.bytes, self.vtable + 4 + 2 * slot)? as usize;
        if entry == 0 {
            return Ok(None);
        }
        if entry < 4 {
            return Err(BadTable);
        }
        Ok(Some(forward_from(self.bytes, self.place, entry)?))
    }

    /// The u8 of a slot.
    #[tactic(auto, unfolding(crate::specs::Field::field))]
    pub fn field_u8(&self, slot: usize) -> Result<Option<u8>, BadTable>
        ensures { result_ok result ≡ field w8 self.now.bytes self.now.table slot }
    {
        match self.place_of(slot)? {
            Some(at) => Ok(Some(u8_from(self.bytes, at)?)),
            None => Ok(None),
        }
    }

    /// The u16 of a slot.
    #[tactic(auto, unfolding(crate::specs::Field::field))]
    pub fn field_u16(&self, slot: usize) -> Result<Option<u16>, BadTable>
        ensures { result_ok result ≡ field w16 self.now.bytes self.now.table slot }
    {
        match self.place_of(slot)? {
            Some(at) => Ok(Some(u16_from(self.bytes, at)?)),
            None => Ok(None),
        }
    }

    /// The u32 of a slot.
    #[tactic(auto, unfolding(crate::specs::Field::field))]
    pub fn field_u32(&self, slot: usize) -> Result<Option<u32>, BadTable>
        ensures { result_ok result ≡ field w32 self.now.bytes self.now.table slot }
    {
        match self.place_of(slot)? {
            Some(at) => Ok(Some(u32_from(self.bytes, at)?)),
            None => Ok(None),
        }
    }

    /// The u64 of a slot.
    #[tactic(auto, unfolding(crate::specs::Field::field))]
    pub fn field_u64(&self, slot: usize) -> Result<Option<u64>, BadTable>
        ensures { result_ok result ≡ field w64 self.now.bytes self.now.table slot }
    {
        match self.place_of(slot)? {
            Some(at) => Ok(Some(u64_from(self.bytes, at)?)),
            None => Ok(None),
        }
    }

    /// The place that the offset of a slot leads to.
    #[tactic(auto, unfolding(crate::specs::Field::target_field))]
    fn target_of(&self, slot: usize) -> Result<Option<usize>, BadTable>
        ensures value { result_ok result ≡ target_field self.now.bytes self.now.table slot }
        ensures inside { IfOk result (λ o. IfSome o (λ at. at ≤ length self.now.bytes)) }
    {
        match self.place_of(slot)? {
            Some(at) => Ok(Some(target_from(self.bytes, at)?)),
            None => Ok(None),
        }
    }

    /// The text of a slot.
    #[tactic(auto, unfolding(crate::specs::Field::text_field))]
    pub fn field_text(&self, slot: usize, visits: &mut Visits) -> Result<Option<&str>, BadTable>
        ensures { taken option_copied result visits.new ≡ charge (optional_cost text_cost) (text_field self.now.bytes self.now.table slot) visits.old }
    {
        match self.target_of(slot)? {
            Some(at) => {
                let text = text_from(self.bytes, at)?;
                visits.charge(1 + text.len() as u64 / 64)?;
                Ok(Some(text))
            }
            None => Ok(None),
        }
    }

    /// The table of a slot.
    #[tactic(auto, unfolding(crate::specs::Field::table_field))]
    pub fn field_table(
        &self,
        slot: usize,
        visits: &mut Visits,
    ) -> Result<Option<TableReader<'_>>, BadTable>
        ensures value { taken (option_map (λ r. r.table)) result visits.new
            ≡ charge (optional_cost one) (reached_optional self.now.levels (table_field self.now.bytes self.now.table slot)) visits.old }
        ensures below { IfOk result (λ o. IfSome o (IsBelow self.now)) }
    {
        match self.target_of(slot)? {
            Some(at) => {
                if self.levels == 0 {
                    return Err(BadTable);
                }
                let table = table_from(self.bytes, at, self.levels - 1)?;
                visits.charge(1)?;
                Ok(Some(table))
            }
            None => Ok(None),
        }
    }

    /// The vector of a slot.
    #[tactic(auto, unfolding(crate::specs::Field::vector_field))]
    pub fn field_vector(
        &self,
        slot: usize,
        elements: Elements,
        visits: &mut Visits,
    ) -> Result<Option<VectorReader<'a>>, BadTable>
        ensures value { taken (option_map (λ r. r.vector)) result visits.new
            ≡ charge (optional_cost (vector_cost elements)) (vector_field self.now.bytes self.now.table slot elements) visits.old }
        ensures within { IfOk result (λ o. IfSome o (IsVectorOf self.now elements)) }
    {
        match self.target_of(slot)? {
            Some(at) => {
                let vector = VectorReader::at(self.bytes, at, elements, self.levels)?;
                visits.charge(vector.cost())?;
                Ok(Some(vector))
            }
            None => Ok(None),
        }
    }
}
