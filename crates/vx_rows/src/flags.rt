//! Which rows of a column that grows are not null.
ghost use Rattle.std.specs.Prelude.{◌≡◌, ◌++◌, ◌∷◌, [], ◌||◌, ◌<◌, true, false, take, length, replicate, IfOk, IfSome, OnOk, OnErr};
ghost use Rattle.vx_rows.specs.Span.{span};
ghost use Rattle.vx_rows.specs.Columns.{Structs, are_there};
ghost use Rattle.vx_rows.specs.ReadRows.{more_structs};
ghost use Rattle.vx_rows.specs.Bits.{present_at};
ghost use Rattle.vx_rows.specs.Kept.{kept};

use crate::{Bits, StructRows};
use std::alloc::{AllocError, Global};
use std::marker::Model;

/// Which rows so far are not null. Where none may be null they are only counted.
#[derive(Drop)]
pub struct Flags {
    may_be_null: bool,
    counted: usize,
    flags: Vec<bool>,
}

impl Model for Flags {
    ghost use Rattle.std.specs.Prelude.{◌≡◌, true};
    ghost use Rattle.vx_rows.specs.Columns.{Structs, are_there, rows_there};

    ghost Value = { Structs };

    ghost view = { λ f. record { nullable = f.may_be_null; present = rows_there f.may_be_null f.counted f.flags.items } };

    ghost invariant = { λ f. are_there f.may_be_null (rows_there f.may_be_null f.counted f.flags.items) ≡ true };
}

/// Adds so many rows that have a value. Only memory refuses, and then nothing changes.
#[tactic(auto, using(crate::proofs::FlagLemmas::filled_there))]
fn push_there(flags: &mut Vec<bool>, rows: usize) -> Result<(), AllocError>
    ensures ok { OnOk result (flags.new.items ≡ flags.old.items ++ replicate rows true) }
    ensures err { OnErr result (flags.new.items ≡ flags.old.items) }
{
    flags.reserve(rows)?;
    flags.resize(flags.len() + rows, true)
}

/// Adds which of so many rows have a value. Only memory refuses, and then nothing changes.
#[tactic(auto, using(crate::proofs::FlagLemmas::some_there, crate::proofs::MakingLemmas::all_there))]
fn push_flags(flags: &mut Vec<bool>, present: &Option<Bits>, rows: usize) -> Result<(), AllocError>
    requires { IfSome present.now (λ bits. length bits ≡ rows) }
    ensures ok { OnOk result (flags.new.items ≡ flags.old.items ++ span (present_at present.now) 0 rows) }
    ensures err { OnErr result (flags.new.items ≡ flags.old.items) }
{
    match present {
        Some(bits) => bits.push_rows(flags),
        None => push_there(flags, rows),
    }
}

impl Flags {
    /// No rows, which may be null or not.
    pub fn new(alloc: Global, may_be_null: bool) -> Flags
        ensures { result ≡ record { nullable = may_be_null; present = [] } }
    {
        Flags {
            may_be_null,
            counted: 0,
            flags: Vec::new(alloc),
        }
    }

    /// Whether a row may be null.
    #[inline(always)]
    pub fn is_nullable(&self) -> bool
        ensures { result ≡ self.now.nullable }
    {
        self.may_be_null
    }

    /// The number of rows.
    #[inline(always)]
    pub fn len(&self) -> usize
        ensures { result ≡ length self.now.present }
    {
        if self.may_be_null {
            self.flags.len()
        } else {
            self.counted
        }
    }

    /// Adds a row, null only where it may be. Only memory refuses, and then nothing changes.
    #[inline(always)]
    #[tactic(auto, using(crate::proofs::FlagLemmas::there_more, crate::proofs::FlagLemmas::there_counted, crate::proofs::FlagLemmas::one_counted))]
    pub fn push(&mut self, is_there: bool) -> Result<(), AllocError>
        requires { (self.old.nullable || is_there) ≡ true }
        ensures ok { OnOk result (self.new ≡ more_structs self.old is_there) }
        ensures err { OnErr result (self.new ≡ self.old) }
    {
        if self.may_be_null {
            self.flags.reserve(1)?;
            self.flags.push_reserved(is_there);
            return Ok(());
        }
        self.count_more(1)
    }

    /// The same as bits, where some row may be null.
    pub fn to_bits(&self, alloc: Global) -> Result<Option<Bits>, AllocError>
        ensures { IfOk result (λ bits. bits ≡ kept self.now) }
    {
        if !self.may_be_null {
            return Ok(None);
        }
        let bits = Bits::from_rows(alloc, &self.flags)?;
        Ok(Some(bits))
    }

    /// The rows, as those of structs.
    #[tactic(auto, using(crate::proofs::MakingLemmas::structs_made))]
    pub fn to_structs(&self, alloc: Global) -> Result<StructRows, AllocError>
        ensures { IfOk result (λ rows. rows ≡ self.now) }
    {
        let bits = self.to_bits(alloc)?;
        Ok(StructRows::new(self.may_be_null, bits, self.len()))
    }

    /// Counts so many rows more, of which none may be null.
    #[inline(always)]
    #[tactic(auto, using(crate::proofs::FlagLemmas::more_counted, crate::proofs::FlagLemmas::there_counted))]
    fn count_more(&mut self, rows: usize) -> Result<(), AllocError>
        requires { self.old.nullable ≡ false }
        ensures ok { OnOk result (self.new ≡ record self.old { present = self.old.present ++ replicate rows true }) }
        ensures err { OnErr result (self.new ≡ self.old) }
    {
        match self.counted.checked_add(rows) {
            Some(counted) => {
                self.counted = counted;
                Ok(())
            }
            None => Err(AllocError),
        }
    }

    /// Adds so many rows, null only where they may be. Only memory refuses, and then nothing changes.
    #[tactic(auto, using(crate::proofs::FlagLemmas::there_more, crate::proofs::FlagLemmas::there_counted, crate::proofs::FlagLemmas::all_counted))]
    pub fn append(&mut self, present: &Option<Bits>, rows: usize) -> Result<(), AllocError>
        requires long { IfSome present.now (λ bits. length bits ≡ rows) }
        requires allowed { are_there self.old.nullable (span (present_at present.now) 0 rows) ≡ true }
        ensures ok { OnOk result (self.new ≡ record self.old { present = self.old.present ++ span (present_at present.now) 0 rows }) }
        ensures err { OnErr result (self.new ≡ self.old) }
    {
        if !self.may_be_null {
            return self.count_more(rows);
        }
        push_flags(&mut self.flags, present, rows)
    }

    /// Keeps so many rows.
    #[tactic(auto, using(crate::proofs::FlagLemmas::there_less, crate::proofs::FlagLemmas::there_counted))]
    pub fn truncate(&mut self, rows: usize)
        ensures { self.new ≡ record self.old { present = take rows self.old.present } }
    {
        self.counted = self.counted.min(rows);
        self.flags.truncate(rows);
    }

    /// Whether a row is not null.
    #[inline(always)]
    pub fn is_there(&self, row: usize) -> bool
        requires { row < length self.now.present }
        ensures { result ≡ present_at (kept self.now) row }
    {
        !self.may_be_null || self.flags[row]
    }
}
