//! Which structs of a column are not null.
ghost use Rattle.std.specs.Prelude.{◌≡◌, ◌++◌, ◌<◌, ◌≤◌, ℕ, length, map, slice_index_or, slice_range, IsTrue, IfOk, IfSome, Some, true, false, OnOk, OnErr};
ghost use Rattle.vx_rows.specs.Columns.{are_there};
ghost use Rattle.vx_rows.specs.Span.{span};
ghost use Rattle.vx_rows.specs.Bits.{present_at};
ghost use Rattle.vx_rows.specs.Written.{presence_bytes};

use crate::flags::Flags;
use crate::int_column::has_value;
use crate::parts::{are_all_present, flags_of, part_of};
use crate::presence::push_presence;
use crate::{Bits, BoolColumn, Mask};
use std::alloc::{AllocError, Global};
use std::marker::Model;

/// Which structs are not null.
#[derive(Drop)]
pub struct StructRows {
    may_be_null: bool,
    count: usize,
    bits: Option<Bits>,
}

impl Model for StructRows {
    ghost use Rattle.std.specs.Prelude.{◌≡◌, length, IfSome};
    ghost use Rattle.vx_rows.specs.Span.{span};
    ghost use Rattle.vx_rows.specs.Bits.{present_at};
    ghost use Rattle.vx_rows.specs.Columns.{Structs};

    ghost Value = { Structs };

    ghost view = { λ c. record { nullable = c.may_be_null; present = span (present_at c.bits) 0 c.count } };

    ghost invariant = { λ c. IfSome c.bits (λ bits. length bits ≡ c.count) };
}

impl StructRows {
    /// So many structs, some of which may be null.
    pub(crate) fn new(may_be_null: bool, bits: Option<Bits>, count: usize) -> StructRows
        requires { IfSome bits (λ present. length present ≡ count) }
        ensures { result ≡ record { nullable = may_be_null; present = span (present_at bits) 0 count } }
    {
        StructRows {
            may_be_null,
            count,
            bits,
        }
    }

    /// Whether a struct may be null.
    #[inline(always)]
    pub fn is_nullable(&self) -> bool
        ensures { result ≡ self.now.nullable }
    {
        self.may_be_null
    }

    /// The number of rows.
    #[inline(always)]
    #[tactic(auto, using(crate::proofs::SpanLemmas::length_span))]
    pub fn len(&self) -> usize
        ensures { result ≡ length self.now.present }
    {
        self.count
    }

    /// Whether a row is not null.
    #[inline(always)]
    #[tactic(auto, using(crate::proofs::SpanLemmas::length_span, crate::proofs::SpanLemmas::get_or_span))]
    pub fn is_present(&self, row: usize) -> bool
        requires { row < length self.now.present }
        ensures { result ≡ slice_index_or self.now.present row true }
    {
        has_value(&self.bits, row)
    }

    /// Whether a row is not null, or there is no such row.
    #[inline(always)]
    #[tactic(auto, using(crate::proofs::WrittenLemmas::past))]
    pub(crate) fn has(&self, row: usize) -> bool
        ensures { result ≡ slice_index_or self.now.present row true }
    {
        if row >= self.len() {
            return true;
        }
        self.is_present(row)
    }

    /// Whether it is plain that no row is null: none may be, or which are is not kept.
    #[inline(always)]
    #[tactic(auto, using(crate::proofs::FieldRowLemmas::none_null))]
    pub(crate) fn has_no_null(&self) -> bool
        ensures { IsTrue result → (row : ℕ) → slice_index_or self.now.present row true ≡ true }
    {
        self.bits.is_none()
    }

    /// Adds which rows are not null.
    pub(crate) fn push_bytes(&self, bytes: &mut Vec<u8>) -> Result<(), AllocError>
        ensures { OnOk result (bytes.new.items ≡ bytes.old.items ++ presence_bytes self.now.nullable self.now.present) }
    {
        push_presence(bytes, self.may_be_null, &self.bits, self.count)
    }

    /// The rows from one on, up to another. Only memory refuses.
    #[tactic(auto, using(crate::proofs::CutLemmas::structs_cut, crate::proofs::CutLemmas::present_long, crate::proofs::SpanLemmas::length_span))]
    pub(crate) fn part(
        &self,
        alloc: Global,
        from: usize,
        to: usize,
    ) -> Result<StructRows, AllocError>
        requires ordered { from ≤ to }
        requires inside { to ≤ length self.now.present }
        ensures { IfOk result (λ rows. rows ≡ record self.now { present = slice_range self.now.present from to }) }
    {
        let bits = part_of(alloc, &self.bits, from, to)?;
        Ok(StructRows::new(self.may_be_null, bits, to - from))
    }

    /// Whether no row is missing where none may be null.
    #[tactic(auto, using(crate::proofs::FillLemmas::structs_filled))]
    pub(crate) fn is_filled(&self) -> bool
        ensures { result ≡ are_there self.now.nullable self.now.present }
    {
        self.may_be_null || are_all_present(&self.bits)
    }

    /// Which rows are not null, as a mask. Only memory refuses.
    pub fn mask(&self, alloc: Global) -> Result<Mask, AllocError>
        ensures { IfOk result (λ mask. mask ≡ self.now.present) }
    {
        Ok(Mask::new(self.flags(alloc)?))
    }

    /// Which rows are not null, as bits. Only memory refuses.
    #[tactic(auto, using(crate::proofs::FillLemmas::whole_bits))]
    fn to_bits(&self, alloc: Global) -> Result<Bits, AllocError>
        ensures { IfOk result (λ bits. bits ≡ self.now.present) }
    {
        match &self.bits {
            Some(bits) => Ok(bits.part(alloc, 0, self.count)?),
            None => Ok(Bits::from_rows(alloc, &self.flags(alloc)?)?),
        }
    }

    /// Which rows are not null, as truth values. Only memory refuses.
    #[tactic(auto, using(crate::proofs::FillLemmas::truths, crate::proofs::FillLemmas::truths_clear))]
    pub(crate) fn presence(&self, alloc: Global) -> Result<BoolColumn, AllocError>
        ensures { IfOk result (λ column. column ≡ record { nullable = false; rows = map Some self.now.present }) }
    {
        let values = self.to_bits(alloc)?;
        Ok(BoolColumn::new(false, None, values))
    }

    /// Adds which rows are not null to those of other rows. Only memory refuses, and then nothing changes.
    pub(crate) fn push_flags(&self, flags: &mut Flags) -> Result<(), AllocError>
        requires { are_there flags.old.nullable self.now.present ≡ true }
        ensures ok { OnOk result (flags.new ≡ record flags.old { present = flags.old.present ++ self.now.present }) }
        ensures err { OnErr result (flags.new ≡ flags.old) }
    {
        flags.append(&self.bits, self.count)
    }

    /// Which rows are not null. Only memory refuses.
    pub(crate) fn flags(&self, alloc: Global) -> Result<Vec<bool>, AllocError>
        ensures { IfOk result (λ flags. flags.items ≡ self.now.present) }
    {
        Ok(flags_of(alloc, &self.bits, self.count)?)
    }
}
