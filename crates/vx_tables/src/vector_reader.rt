//! Reads the elements of a vector.
ghost use Rattle.std.specs.Prelude.{◌≡◌, ◌==◌, ◌+◌, ◌≤◌, ◌<◌, IfOk, length};
ghost use Rattle.std.specs.Result.{result_ok};
ghost use Rattle.std.specs.Option.{option_map};
ghost use Rattle.vx_tables.specs.Field.{vector as vector_at, element_target, text_of_vector, table_of_vector, numbers_of_vector, element_bytes};
ghost use Rattle.vx_tables.specs.Counted.{one, text_cost, vector_cost};
ghost use Rattle.vx_tables.specs.Reader.{IsElementOf, reached, charge, taken};

use crate::bad_table::BadTable;
use crate::elements::Elements;
use crate::table_reader::{TableReader, table_from};
use crate::visits::Visits;
use crate::wire::{numbers_from, target_from, text_from, vector_from};
use std::alloc::{AllocError, Global};
use std::marker::Model;

/// A vector of a root.
#[derive(Debug, Drop)]
pub struct VectorReader<'a> {
    bytes: &'a [u8],
    first: usize,
    count: usize,
    elements: Elements,
    levels: usize,
}

impl<'a> Model for VectorReader<'a> {
    ghost use Rattle.std.specs.Prelude.{◌≤◌, ◌+◌, ◌*◌, length};
    ghost use Rattle.vx_tables.specs.Field.{element_size};
    ghost use Rattle.vx_tables.specs.Reader.{InVector};

    ghost Value = { InVector };

    ghost view = { λ a. record { bytes = a.bytes.now; vector = record { first = a.first; count = a.count }; elements = a.elements; levels = a.levels } };

    ghost invariant = { λ a. a.first + a.count * element_size a.elements ≤ length a.bytes.now };
}

impl<'a> VectorReader<'a> {
    /// The vector at a place, with the levels that may be entered from it.
    pub(crate) fn at(
        bytes: &'a [u8],
        at: usize,
        elements: Elements,
        levels: usize,
    ) -> Result<VectorReader<'a>, BadTable>
        requires { at ≤ length bytes.now }
        ensures value { option_map (λ r. r.vector) (result_ok result) ≡ vector_at bytes.now at elements }
        ensures bytes { IfOk result (λ r. r.bytes ≡ bytes.now) }
        ensures elements { IfOk result (λ r. r.elements ≡ elements) }
        ensures levels { IfOk result (λ r. r.levels ≡ levels) }
    {
        let (first, count) = vector_from(bytes, at, elements)?;
        Ok(VectorReader {
            bytes,
            first,
            count,
            elements,
            levels,
        })
    }

    /// How many visits the vector takes.
    pub(crate) fn cost(&self) -> u64
        ensures { result ≡ vector_cost self.now.elements self.now.vector }
    {
        match self.elements {
            Elements::Numbers(_) => 1 + self.as_bytes().len() as u64 / 64,
            Elements::Offsets | Elements::Segments => 1,
        }
    }

    /// How many elements there are.
    pub fn len(&self) -> usize
        ensures { result ≡ self.now.vector.count }
    {
        self.count
    }

    /// Whether there are no elements.
    pub fn is_empty(&self) -> bool
        ensures { result ≡ (self.now.vector.count == 0) }
    {
        self.count == 0
    }

    /// The bytes of all elements.
    pub fn as_bytes(&self) -> &[u8]
        ensures { result.now ≡ element_bytes self.now.bytes self.now.vector self.now.elements }
    {
        let size = self.count * self.elements.size();
        &self.bytes[self.first..self.first + size]
    }

    /// The numbers that are the elements.
    pub fn numbers(&self, alloc: Global) -> Result<Vec<u32>, AllocError>
        requires { self.now.elements ≡ Elements.Numbers 4 }
        ensures { IfOk result (λ numbers. numbers.items ≡ numbers_of_vector self.now.bytes self.now.vector) }
    {
        numbers_from(alloc, self.as_bytes(), self.count)
    }

    /// The place that the offset of an element leads to.
    fn target_of(&self, at: usize) -> Result<usize, BadTable>
        requires place { at < self.now.vector.count }
        requires offsets { self.now.elements ≡ Elements.Offsets }
        ensures value { result_ok result ≡ element_target self.now.bytes self.now.vector at }
        ensures inside { IfOk result (λ to. to ≤ length self.now.bytes) }
    {
        target_from(self.bytes, self.first + 4 * at)
    }

    /// The text of an element.
    #[tactic(auto, unfolding(crate::specs::Field::text_of_vector))]
    pub fn text_at(&self, at: usize, visits: &mut Visits) -> Result<&str, BadTable>
        requires place { at < self.now.vector.count }
        requires offsets { self.now.elements ≡ Elements.Offsets }
        ensures { taken (λ text. text.now) result visits.new ≡ charge text_cost (text_of_vector self.now.bytes self.now.vector at) visits.old }
    {
        let text = text_from(self.bytes, self.target_of(at)?)?;
        visits.charge(1 + text.len() as u64 / 64)?;
        Ok(text)
    }

    /// The table of an element.
    #[tactic(auto, unfolding(crate::specs::Field::table_of_vector))]
    pub fn table_at(&self, at: usize, visits: &mut Visits) -> Result<TableReader<'_>, BadTable>
        requires place { at < self.now.vector.count }
        requires offsets { self.now.elements ≡ Elements.Offsets }
        ensures value { taken (λ r. r.table) result visits.new
            ≡ charge one (reached self.now.levels (table_of_vector self.now.bytes self.now.vector at)) visits.old }
        ensures element { IfOk result (IsElementOf self.now) }
    {
        if self.levels == 0 {
            return Err(BadTable);
        }
        let table = table_from(self.bytes, self.target_of(at)?, self.levels - 1)?;
        visits.charge(1)?;
        Ok(table)
    }
}
