//! Columns of truth values that grow row by row.
ghost use Rattle.std.specs.Prelude.{ℕ, List, ◌≡◌, ◌-◌, ◌^◌, ◌++◌, ◌||◌, length, min, take, not, [], true, false, Some, None, if◌then◌else◌, IfOk, OnOk, OnErr};
ghost use Rattle.vx_base.specs.Checks.{Gives, ◌lacking◌};
ghost use Rattle.std.specs.Option.{option_map};
ghost use Rattle.vx_data.specs.declared.text_error.TextError.TheVariants.{BadText};
ghost use Rattle.vx_data.specs.TextsRead.{FailsToRead};
ghost use Rattle.vx_rows.specs.Columns.{Bools, may_hold};
ghost use Rattle.vx_rows.specs.Rows.{bools};
ghost use Rattle.vx_rows.specs.Parts.{Keeps, part, plain_size};
ghost use Rattle.vx_rows.specs.ReadValues.{optional_in, truth_in};
ghost use Rattle.vx_rows.specs.ReadRows.{more_bools, null_or};

use crate::flags::Flags;
use crate::plain_size::{rows_between, size_of_bools};
use crate::value_reading::{read_null, read_truth};
use crate::{Bits, BoolColumn};
use std::alloc::{AllocError, Global};
use std::marker::Model;
use vx_data::TextError;

/// Truth values so far. Those of null rows are false.
#[derive(Drop)]
pub struct BoolBuilder {
    present: Flags,
    values: Vec<bool>,
}

impl Model for BoolBuilder {
    ghost use Rattle.std.specs.Prelude.{◌≡◌, length, true};
    ghost use Rattle.vx_rows.specs.Span.{span, every};
    ghost use Rattle.vx_rows.specs.Columns.{Bools, bool_row, is_false_row};
    ghost use Rattle.vx_rows.specs.Kept.{kept};

    ghost Value = { Bools };

    ghost view = { λ b. record {
      nullable = b.present.nullable;
      rows = span (bool_row (kept b.present) b.values.items) 0 (length b.values.items);
    } };

    ghost invariant = { λ b. (length b.present.present ≡ length b.values.items)
        × (every (is_false_row (kept b.present) b.values.items) 0 (length b.values.items) ≡ true) };
}

impl BoolBuilder {
    /// No rows.
    pub fn new(alloc: Global, may_be_null: bool) -> BoolBuilder
        ensures { result ≡ record { nullable = may_be_null; rows = [] } }
    {
        BoolBuilder {
            present: Flags::new(alloc, may_be_null),
            values: Vec::new(alloc),
        }
    }

    /// Adds a row that is there, or one that is null.
    fn push_row(&mut self, is_there: bool, value: bool) -> Result<(), AllocError>
        requires allowed { (self.old.nullable || is_there) ≡ true }
        requires clear { (is_there || not value) ≡ true }
        ensures ok { OnOk result (self.new ≡ more_bools self.old (if is_there then Some value else None)) }
        ensures err { OnErr result (self.new ≡ self.old) }
    {
        self.values.push(value)?;
        match self.present.push(is_there) {
            Ok(()) => Ok(()),
            Err(error) => {
                self.values.pop();
                Err(error)
            }
        }
    }

    /// Adds the row that stands in a struct that is null: null where it may be, else false.
    pub fn push_absent(&mut self) -> Result<(), AllocError>
        ensures { OnOk result (self.new ≡ more_bools self.old (null_or self.old.nullable false)) }
    {
        let may_be_null = self.present.is_nullable();
        self.push_row(!may_be_null, false)
    }

    /// Adds the value in front, and gives what follows it.
    pub fn read<'a>(&mut self, text: &'a [u8]) -> Result<&'a [u8], TextError>
        ensures { Gives {A = Bools × List ℕ} FailsToRead (λ rest. (self.new, rest.now)) result
            (BadText lacking option_map (λ x. (more_bools self.old x.0, x.1)) (optional_in truth_in self.old.nullable text.now)) }
    {
        if let Some(rest) = read_null(self.present.is_nullable(), text) {
            self.push_absent()?;
            return Ok(rest);
        }
        match read_truth(text) {
            Some((value, rest)) => {
                self.push_row(true, value)?;
                Ok(rest)
            }
            None => Err(TextError::BadText),
        }
    }

    /// The column of the rows.
    pub fn finish(self, alloc: Global) -> Result<BoolColumn, AllocError>
        ensures { IfOk result (λ column. column ≡ self) }
    {
        Ok(self.to_column(alloc)?)
    }

    /// The number of rows.
    #[tactic(auto, using(crate::proofs::SpanLemmas::length_span))]
    pub fn len(&self) -> usize
        ensures { result ≡ length self.now.rows }
    {
        self.values.len()
    }

    /// Adds the rows of a column. Only memory refuses, and then some of them may be there.
    #[tactic(auto, using(crate::proofs::JoinLemmas::bools_next, crate::proofs::JoinLemmas::bools_none, crate::proofs::JoinLemmas::bools_all, crate::proofs::KeepLemmas::bools_keep, crate::proofs::JoinLemmas::hold_at))]
    pub fn append(&mut self, column: &BoolColumn) -> Result<(), AllocError>
        requires { may_hold self.old.nullable column.now.rows ≡ true }
        ensures ok { OnOk result (self.new ≡ record self.old { rows = self.old.rows ++ column.now.rows }) }
        ensures kept { Keeps (bools self.old) (bools self.new) }
    {
        for row in 0..column.len() {
            let value = column.get(row);
            self.push_row(value.is_some(), value.unwrap_or(false))?;
        }
        Ok(())
    }

    /// Keeps so many rows.
    pub fn truncate(&mut self, rows: usize)
        ensures { self.new ≡ record self.old { rows = take rows self.old.rows } }
    {
        let kept = rows.min(self.values.len());
        self.present.truncate(kept);
        self.values.truncate(kept);
    }

    /// How many bytes the rows from one on, up to another, take, written plainly.
    #[tactic(auto, using(crate::proofs::SizeLemmas::slice_len))]
    pub fn size_between(&self, from: usize, to: usize) -> u64
        ensures { result ≡ min (plain_size (part from to (bools self.now))) (2 ^ 64 - 1) }
    {
        size_of_bools(
            self.present.is_nullable(),
            rows_between(self.len(), from, to),
        )
    }

    /// A column of the rows so far. Only memory refuses.
    pub fn to_column(&self, alloc: Global) -> Result<BoolColumn, AllocError>
        ensures { IfOk result (λ column. column ≡ self.now) }
    {
        let bits = self.present.to_bits(alloc)?;
        let values = Bits::from_rows(alloc, &self.values)?;
        Ok(BoolColumn::new(self.present.is_nullable(), bits, values))
    }
}
