//! Columns of integers that grow row by row.
ghost use Rattle.std.specs.Prelude.{ℕ, List, ◌≡◌, ◌-◌, ◌^◌, ◌++◌, ◌||◌, length, min, take, [], pos, true, Some, None, is_some, IfOk, IfSome, OnOk};
ghost use Rattle.vx_base.specs.Checks.{Gives, ◌lacking◌};
ghost use Rattle.std.specs.Option.{option_map};
ghost use Rattle.vx_data.specs.declared.text_error.TextError.TheVariants.{BadText};
ghost use Rattle.vx_data.specs.TextsRead.{FailsToRead};
ghost use Rattle.vx_rows.specs.Written.{is_within};
ghost use Rattle.vx_rows.specs.Columns.{Ints, may_hold};
ghost use Rattle.vx_rows.specs.Rows.{ints, AreWithin};
ghost use Rattle.vx_rows.specs.Parts.{Keeps, part, plain_size};
ghost use Rattle.vx_rows.specs.ReadValues.{optional_in, number_in};
ghost use Rattle.vx_rows.specs.ReadRows.{more_ints, null_or};

use crate::IntColumn;
use crate::cells::push_cell;
use crate::flags::Flags;
use crate::int_column::place_of;
use crate::plain_size::{rows_between, size_of_ints};
use crate::value_reading::{read_null, read_number};
use std::alloc::{AllocError, Global};
use std::marker::Model;
use vx_base::{Alignment, ByteBuffer};
use vx_data::{PType, TextError};

/// Integers so far, as the bytes of the column. Those of null rows are 0.
#[derive(Drop)]
pub struct IntBuilder {
    kind: PType,
    present: Flags,
    bytes: Vec<u8>,
}

impl Model for IntBuilder {
    ghost use Rattle.std.specs.Prelude.{◌≡◌, ◌*◌, length, true};
    ghost use Rattle.vx_rows.specs.Span.{span, every};
    ghost use Rattle.vx_rows.specs.Columns.{Ints, value_size, int_row, is_clear};
    ghost use Rattle.vx_rows.specs.Kept.{kept};

    ghost Value = { Ints };

    ghost view = { λ b. record {
      ptype = b.kind;
      nullable = b.present.nullable;
      rows = span (int_row b.kind (kept b.present) b.bytes.items 0) 0 (length b.present.present);
    } };

    ghost invariant = { λ b. (length b.bytes.items ≡ value_size b.kind * length b.present.present)
        × (every (is_clear b.kind (kept b.present) b.bytes.items 0) 0 (length b.present.present) ≡ true) };
}

impl IntBuilder {
    /// No rows.
    pub fn new(alloc: Global, kind: PType, may_be_null: bool) -> IntBuilder
        ensures { result ≡ record { ptype = kind; nullable = may_be_null; rows = [] } }
    {
        IntBuilder {
            kind,
            present: Flags::new(alloc, may_be_null),
            bytes: Vec::new(alloc),
        }
    }

    /// Adds a row, null only where it may be.
    #[inline(always)]
    fn push_row(&mut self, row: Option<i128>) -> Result<(), AllocError>
        requires allowed { (self.old.nullable || is_some row) ≡ true }
        requires within { IfSome row (λ n. is_within self.old.ptype n ≡ true) }
        ensures { OnOk result (self.new ≡ more_ints self.old row) }
    {
        let before = self.bytes.len();
        push_cell(&mut self.bytes, self.kind, row)?;
        match self.present.push(row.is_some()) {
            Ok(()) => Ok(()),
            Err(error) => {
                self.bytes.truncate(before);
                Err(error)
            }
        }
    }

    /// Adds the row that stands in a struct that is null: null where it may be, else 0.
    pub fn push_absent(&mut self) -> Result<(), AllocError>
        ensures { OnOk result (self.new ≡ more_ints self.old (null_or self.old.nullable (pos 0))) }
    {
        if self.present.is_nullable() {
            return self.push_row(None);
        }
        self.push_row(Some(0))
    }

    /// Adds the value in front, and gives what follows it.
    #[inline(always)]
    pub fn read<'a>(&mut self, text: &'a [u8]) -> Result<&'a [u8], TextError>
        ensures { Gives {A = Ints × List ℕ} FailsToRead (λ rest. (self.new, rest.now)) result
            (BadText lacking option_map (λ x. (more_ints self.old x.0, x.1)) (optional_in (number_in self.old.ptype) self.old.nullable text.now)) }
    {
        if let Some(rest) = read_null(self.present.is_nullable(), text) {
            self.push_absent()?;
            return Ok(rest);
        }
        match read_number(self.kind, text) {
            Some((value, rest)) => {
                self.push_row(Some(value))?;
                Ok(rest)
            }
            None => Err(TextError::BadText),
        }
    }

    /// The column of the rows.
    pub fn finish(self, alloc: Global) -> Result<IntColumn, AllocError>
        ensures { IfOk result (λ column. column ≡ self) }
    {
        let IntBuilder {
            kind,
            present,
            bytes,
        } = self;
        let bits = present.to_bits(alloc)?;
        let held = ByteBuffer::from_vec(alloc, bytes, Alignment::none())?;
        let column = IntColumn::new(
            alloc,
            kind,
            present.is_nullable(),
            bits,
            &held,
            0,
            present.len(),
        )?;
        Ok(column)
    }

    /// The number of rows.
    #[tactic(auto, using(crate::proofs::SpanLemmas::length_span))]
    pub fn len(&self) -> usize
        ensures { result ≡ length self.now.rows }
    {
        self.present.len()
    }

    /// Adds the rows of a column. Only memory refuses, and then nothing changes.
    #[tactic(auto, using(crate::proofs::KeepLemmas::ints_same))]
    pub fn append(&mut self, alloc: Global, column: &IntColumn) -> Result<(), AllocError>
        requires same { column.now.ptype ≡ self.old.ptype }
        requires allowed { may_hold self.old.nullable column.now.rows ≡ true }
        requires within { AreWithin self.old.ptype column.now.rows }
        ensures ok { OnOk result (self.new ≡ record self.old { rows = self.old.rows ++ column.now.rows }) }
        ensures kept { Keeps (ints self.old) (ints self.new) }
    {
        let before = self.bytes.len();
        column.push_cells(&mut self.bytes)?;
        match column.push_flags(&mut self.present) {
            Ok(()) => Ok(()),
            Err(error) => {
                self.bytes.truncate(before);
                Err(error)
            }
        }
    }

    /// Keeps so many rows.
    pub fn truncate(&mut self, rows: usize)
        ensures { self.new ≡ record self.old { rows = take rows self.old.rows } }
    {
        let kept = rows.min(self.present.len());
        self.present.truncate(kept);
        self.bytes.truncate(place_of(self.kind, 0, kept));
    }

    /// How many bytes the rows from one on, up to another, take, written plainly.
    #[tactic(auto, using(crate::proofs::SizeLemmas::slice_len))]
    pub fn size_between(&self, from: usize, to: usize) -> u64
        ensures { result ≡ min (plain_size (part from to (ints self.now))) (2 ^ 64 - 1) }
    {
        let rows = rows_between(self.len(), from, to);
        size_of_ints(self.kind, self.present.is_nullable(), rows)
    }

    /// A column of the rows so far. Only memory refuses.
    pub fn to_column(&self, alloc: Global) -> Result<IntColumn, AllocError>
        ensures { IfOk result (λ column. column ≡ self.now) }
    {
        let bits = self.present.to_bits(alloc)?;
        let bytes = Vec::from_slice(alloc, &self.bytes)?;
        let held = ByteBuffer::from_vec(alloc, bytes, Alignment::none())?;
        let column = IntColumn::new(
            alloc,
            self.kind,
            self.present.is_nullable(),
            bits,
            &held,
            0,
            self.present.len(),
        )?;
        Ok(column)
    }
}
