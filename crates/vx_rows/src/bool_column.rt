//! Columns of truth values.
ghost use Rattle.std.specs.Prelude.{◌≡◌, ◌++◌, ◌-◌, ◌^◌, ◌<◌, ◌≤◌, length, map, min, slice_index_or, slice_range, is_some, IfOk, IfSome, Some, None, true, OnOk};
ghost use Rattle.vx_rows.specs.Span.{span, every};
ghost use Rattle.vx_rows.specs.Columns.{bool_row, is_false_row, may_hold};
ghost use Rattle.vx_rows.specs.Rows.{bools};
ghost use Rattle.vx_rows.specs.Parts.{plain_size};
ghost use Rattle.vx_rows.specs.Written.{bools_bytes};

use crate::Bits;
use crate::int_column::has_value;
use crate::parts::{are_all_present, flags_of, part_of};
use crate::plain_size::size_of_bools;
use crate::presence::push_presence;
use std::alloc::{AllocError, Global};
use std::marker::Model;

/// Truth values, some of which may be null.
#[derive(Drop)]
pub struct BoolColumn {
    may_be_null: bool,
    present: Option<Bits>,
    values: Bits,
}

impl Model for BoolColumn {
    ghost use Rattle.std.specs.Prelude.{◌≡◌, length, IfSome, true};
    ghost use Rattle.vx_rows.specs.Span.{span, every};
    ghost use Rattle.vx_rows.specs.Columns.{Bools, bool_row, is_false_row};

    ghost Value = { Bools };

    ghost view = { λ c. record { nullable = c.may_be_null; rows = span (bool_row c.present c.values) 0 (length c.values) } };

    ghost invariant = { λ c. IfSome c.present (λ bits. length bits ≡ length c.values) × (every (is_false_row c.present c.values) 0 (length c.values) ≡ true) };
}

impl BoolColumn {
    /// Truth values, and which rows have one. The others are false.
    pub(crate) fn new(may_be_null: bool, present: Option<Bits>, values: Bits) -> BoolColumn
        requires long { IfSome present (λ bits. length bits ≡ length values) }
        requires clear { every (is_false_row present values) 0 (length values) ≡ true }
        ensures { result ≡ record { nullable = may_be_null; rows = span (bool_row present values) 0 (length values) } }
    {
        BoolColumn {
            may_be_null,
            present,
            values,
        }
    }

    /// Whether a row may be null.
    #[inline(always)]
    pub fn is_nullable(&self) -> bool
        ensures { result ≡ self.now.nullable }
    {
        self.may_be_null
    }

    /// The number of rows.
    #[inline(always)]
    #[tactic(auto, using(crate::proofs::SpanLemmas::length_span))]
    pub fn len(&self) -> usize
        ensures { result ≡ length self.now.rows }
    {
        self.values.len()
    }

    /// Whether a row has a value.
    #[inline(always)]
    #[tactic(auto, using(crate::proofs::SpanLemmas::length_span, crate::proofs::SpanLemmas::get_or_span))]
    pub fn is_present(&self, row: usize) -> bool
        requires { row < length self.now.rows }
        ensures { result ≡ is_some (slice_index_or self.now.rows row None) }
    {
        has_value(&self.present, row)
    }

    /// The value of a row that has one.
    #[inline(always)]
    #[tactic(auto, using(crate::proofs::SpanLemmas::length_span, crate::proofs::SpanLemmas::get_or_span))]
    pub fn bool_at(&self, row: usize) -> bool
        requires inside { row < length self.now.rows }
        requires here { is_some (slice_index_or self.now.rows row None) ≡ true }
        ensures { slice_index_or self.now.rows row None ≡ Some result }
    {
        self.values.get(row)
    }

    /// The value of a row, if there is such a row and it has one.
    #[inline(always)]
    #[tactic(auto, using(crate::proofs::WrittenLemmas::row_values))]
    pub fn get(&self, row: usize) -> Option<bool>
        ensures { result ≡ slice_index_or self.now.rows row None }
    {
        if row >= self.len() {
            return None;
        }
        if !self.is_present(row) {
            return None;
        }
        Some(self.bool_at(row))
    }

    /// Adds the bytes of the rows.
    pub(crate) fn push_bytes(&self, bytes: &mut Vec<u8>) -> Result<(), AllocError>
        ensures { OnOk result (bytes.new.items ≡ bytes.old.items ++ bools_bytes self.now) }
    {
        push_presence(bytes, self.may_be_null, &self.present, self.values.len())?;
        self.values.push_bytes(bytes)?;
        Ok(())
    }

    /// The rows from one on, up to another. Only memory refuses.
    #[tactic(auto, using(crate::proofs::CutLemmas::bools_cut, crate::proofs::CutLemmas::bools_cut_clear, crate::proofs::CutLemmas::bools_cut_long, crate::proofs::SpanLemmas::length_span))]
    pub(crate) fn part(
        &self,
        alloc: Global,
        from: usize,
        to: usize,
    ) -> Result<BoolColumn, AllocError>
        requires ordered { from ≤ to }
        requires inside { to ≤ length self.now.rows }
        ensures { IfOk result (λ column. column ≡ record self.now { rows = slice_range self.now.rows from to }) }
    {
        let present = part_of(alloc, &self.present, from, to)?;
        let values = self.values.part(alloc, from, to)?;
        Ok(BoolColumn::new(self.may_be_null, present, values))
    }

    /// Whether no row is missing where none may be null.
    #[tactic(auto, using(crate::proofs::FillLemmas::bools_filled))]
    pub(crate) fn is_filled(&self) -> bool
        ensures { result ≡ may_hold self.now.nullable self.now.rows }
    {
        self.may_be_null || are_all_present(&self.present)
    }

    /// How many bytes the rows take, written plainly.
    pub(crate) fn plain_size(&self) -> u64
        ensures { result ≡ min (plain_size (bools self.now)) (2 ^ 64 - 1) }
    {
        size_of_bools(self.may_be_null, self.len())
    }

    /// Which rows have a value. Only memory refuses.
    #[tactic(auto, using(crate::proofs::WrittenLemmas::bools_present, crate::proofs::SpanLemmas::length_span))]
    pub(crate) fn flags(&self, alloc: Global) -> Result<Vec<bool>, AllocError>
        ensures { IfOk result (λ flags. flags.items ≡ map is_some self.now.rows) }
    {
        Ok(flags_of(alloc, &self.present, self.len())?)
    }
}
