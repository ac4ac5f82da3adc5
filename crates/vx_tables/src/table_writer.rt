//! Writes a table, field by field.
ghost use Rattle.std.specs.Prelude.{◌≡◌, ◌≤◌, ◌<◌, ◌+◌, ◌^◌, ◌∷◌, [], ◌++◌, if◌then◌else◌, is_ok, map, string_bytes, IfOk, OnOk, length, List, ℕ};
ghost use Rattle.std.specs.Int.{w8, w16, w32, w64};
ghost use Rattle.vx_tables.specs.Field.{root};
ghost use Rattle.vx_tables.specs.Standing.{IsTableAt};
ghost use Rattle.vx_tables.specs.Writing.{Finishes};
ghost use Rattle.vx_tables.specs.Block.{Piece as WrittenPiece, slot_count, number, size_of, text, bytes, numbers, texts, segments, table, tables, listed, list_piece, vtable_size, block, root_bytes};

use crate::TableList;
use crate::blocks::{push_block, push_low, vtable_size_of};
use crate::elements_block::{
    bytes_block_of, numbers_block_of, segments_block_of, text_block_of, texts_block_of,
    vector_block_of,
};
use crate::piece::Piece;
use crate::table_error::TableError;
use std::alloc::{AllocError, Global};
use std::marker::Model;
use vx_base::{Alignment, ByteBuffer, SegmentSpec};

/// A table that is written, field by field in order of slot.
#[derive(Debug, Drop)]
pub struct TableWriter {
    pieces: Vec<Piece>,
}

impl Model for TableWriter {
    ghost use Rattle.std.specs.Prelude.{◌≡◌, List, true};
    ghost use Rattle.vx_tables.specs.Block.{Piece as WrittenPiece, in_order};

    ghost Value = { List WrittenPiece };

    ghost view = { λ a. a.pieces.items };

    ghost invariant = { λ a. in_order 0 a.pieces.items ≡ true };
}

impl TableWriter {
    /// A table without fields.
    pub fn new(alloc: Global) -> TableWriter
        ensures { result ≡ [] }
    {
        TableWriter {
            pieces: Vec::new(alloc),
        }
    }

    /// Adds a piece.
    #[tactic(auto, using(crate::proofs::Order::order_push))]
    fn push(&mut self, slot: usize, lead: Option<usize>, content: Vec<u8>) -> Result<(), AllocError>
        requires above { slot_count self.old ≤ slot }
        requires below { slot < 1024 }
        requires narrow { size_of lead content.items ≤ 8 }
        ensures { self.new ≡ (if is_ok result then self.old ++ record { slot = slot; lead = lead; bytes = content.items } ∷ [] else self.old) }
    {
        self.pieces.push(Piece {
            slot,
            lead,
            bytes: content,
        })?;
        Ok(())
    }

    /// Adds a u8.
    pub fn push_u8(&mut self, alloc: Global, slot: usize, value: u8) -> Result<(), AllocError>
        requires above { slot_count self.old ≤ slot }
        requires below { slot < 1024 }
        ensures { self.new ≡ (if is_ok result then self.old ++ number w8 slot value ∷ [] else self.old) }
    {
        let content = Vec::from_slice(alloc, &value.to_le_bytes())?;
        self.push(slot, None, content)
    }

    /// Adds a u16.
    pub fn push_u16(&mut self, alloc: Global, slot: usize, value: u16) -> Result<(), AllocError>
        requires above { slot_count self.old ≤ slot }
        requires below { slot < 1024 }
        ensures { self.new ≡ (if is_ok result then self.old ++ number w16 slot value ∷ [] else self.old) }
    {
        let content = Vec::from_slice(alloc, &value.to_le_bytes())?;
        self.push(slot, None, content)
    }

    /// Adds a u32.
    pub fn push_u32(&mut self, alloc: Global, slot: usize, value: u32) -> Result<(), AllocError>
        requires above { slot_count self.old ≤ slot }
        requires below { slot < 1024 }
        ensures { self.new ≡ (if is_ok result then self.old ++ number w32 slot value ∷ [] else self.old) }
    {
        let content = Vec::from_slice(alloc, &value.to_le_bytes())?;
        self.push(slot, None, content)
    }

    /// Adds a u64.
    pub fn push_u64(&mut self, alloc: Global, slot: usize, value: u64) -> Result<(), AllocError>
        requires above { slot_count self.old ≤ slot }
        requires below { slot < 1024 }
        ensures { self.new ≡ (if is_ok result then self.old ++ number w64 slot value ∷ [] else self.old) }
    {
        let content = Vec::from_slice(alloc, &value.to_le_bytes())?;
        self.push(slot, None, content)
    }

    /// Adds a text.
    pub fn push_text(&mut self, alloc: Global, slot: usize, value: &str) -> Result<(), AllocError>
        requires above { slot_count self.old ≤ slot }
        requires below { slot < 1024 }
        ensures { self.new ≡ (if is_ok result then self.old ++ text slot value.now ∷ [] else self.old) }
    {
        let content = text_block_of(alloc, value)?;
        self.push(slot, Some(0), content)
    }

    /// Adds a vector of u8.
    pub fn push_bytes(&mut self, alloc: Global, slot: usize, value: &[u8]) -> Result<(), AllocError>
        requires above { slot_count self.old ≤ slot }
        requires below { slot < 1024 }
        ensures { self.new ≡ (if is_ok result then self.old ++ bytes slot value.now ∷ [] else self.old) }
    {
        let content = bytes_block_of(alloc, value)?;
        self.push(slot, Some(0), content)
    }

    /// Adds a vector of u32.
    pub fn push_numbers(
        &mut self,
        alloc: Global,
        slot: usize,
        value: &[u32],
    ) -> Result<(), AllocError>
        requires above { slot_count self.old ≤ slot }
        requires below { slot < 1024 }
        ensures { self.new ≡ (if is_ok result then self.old ++ numbers slot value.now ∷ [] else self.old) }
    {
        let content = numbers_block_of(alloc, value)?;
        self.push(slot, Some(0), content)
    }

    /// Adds a vector of texts.
    pub fn push_texts(
        &mut self,
        alloc: Global,
        slot: usize,
        value: &[String],
    ) -> Result<(), AllocError>
        requires above { slot_count self.old ≤ slot }
        requires below { slot < 1024 }
        ensures { self.new ≡ (if is_ok result then self.old ++ texts slot (map string_bytes value.now) ∷ [] else self.old) }
    {
        let content = texts_block_of(alloc, value)?;
        self.push(slot, Some(0), content)
    }

    /// Adds a vector of segment structs.
    pub fn push_specs(
        &mut self,
        alloc: Global,
        slot: usize,
        value: &[SegmentSpec],
    ) -> Result<(), AllocError>
        requires above { slot_count self.old ≤ slot }
        requires below { slot < 1024 }
        ensures { self.new ≡ (if is_ok result then self.old ++ segments slot value.now ∷ [] else self.old) }
    {
        let content = segments_block_of(alloc, value)?;
        self.push(slot, Some(0), content)
    }

    /// Adds a table.
    pub fn push_table(
        &mut self,
        alloc: Global,
        slot: usize,
        value: TableWriter,
    ) -> Result<(), AllocError>
        requires above { slot_count self.old ≤ slot }
        requires below { slot < 1024 }
        ensures { self.new ≡ (if is_ok result then self.old ++ table slot value ∷ [] else self.old) }
    {
        let mut content = Vec::new(alloc);
        push_block(&mut content, &value.pieces)?;
        self.push(slot, Some(vtable_size_of(&value.pieces)), content)
    }

    /// Adds a vector of tables.
    pub fn push_tables(
        &mut self,
        alloc: Global,
        slot: usize,
        value: Vec<TableWriter>,
    ) -> Result<(), AllocError>
        requires above { slot_count self.old ≤ slot }
        requires below { slot < 1024 }
        ensures { self.new ≡ (if is_ok result then self.old ++ tables slot value.items ∷ [] else self.old) }
    {
        let mut elements = Vec::new(alloc);
        for writer in &value {
            elements.push(writer.element(alloc)?)?;
        }
        let content = vector_block_of(alloc, &elements)?;
        self.push(slot, Some(0), content)
    }

    /// Adds a vector of tables that are listed.
    #[tactic(auto, using(crate::proofs::Listing::listed_vector))]
    pub fn push_list(
        &mut self,
        alloc: Global,
        slot: usize,
        value: &TableList,
    ) -> Result<(), AllocError>
        requires above { slot_count self.old ≤ slot }
        requires below { slot < 1024 }
        ensures value { self.new ≡ (if is_ok result then self.old ++ list_piece slot value.now ∷ [] else self.old) }
        ensures tables { (ws : List (List WrittenPiece)) → value.now ≡ listed ws → list_piece slot value.now ≡ tables slot ws }
    {
        let content = value.block(alloc)?;
        self.push(slot, Some(0), content)
    }

    /// The size of the vtable.
    pub(crate) fn vtable_size(&self) -> usize
        ensures { result ≡ vtable_size self.now }
    {
        vtable_size_of(&self.pieces)
    }

    /// Appends the block of the table.
    pub(crate) fn push_block(&self, out: &mut Vec<u8>) -> Result<(), AllocError>
        ensures { OnOk result (out.new.items ≡ out.old.items ++ block self.now) }
    {
        push_block(out, &self.pieces)
    }

    /// The table as an element of a vector.
    fn element(&self, alloc: Global) -> Result<Piece, AllocError>
        ensures { IfOk result (λ p. p ≡ table 0 self.now) }
    {
        let mut content = Vec::new(alloc);
        push_block(&mut content, &self.pieces)?;
        Ok(Piece {
            slot: 0,
            lead: Some(vtable_size_of(&self.pieces)),
            bytes: content,
        })
    }

    /// The bytes of the root, without padding. A reader finds the table in them.
    #[tactic(auto, using(crate::proofs::ReadTexts::root_back))]
    pub fn finish(self, alloc: Global) -> Result<ByteBuffer, TableError>
        ensures value { Finishes result (root_bytes self) }
        ensures back { IfOk result (λ b. IsTableAt b.bytes (root b.bytes) self) }
    {
        let mut content = Vec::new(alloc);
        push_low(&mut content, 4 + vtable_size_of(&self.pieces))?;
        push_block(&mut content, &self.pieces)?;
        if content.len() >= 1 << 32 {
            return Err(TableError::TableTooLong);
        }
        Ok(ByteBuffer::from_vec(alloc, content, Alignment::none())?)
    }
}
