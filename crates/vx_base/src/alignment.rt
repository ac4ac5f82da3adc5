//! An alignment is a power of two, kept as its exponent.
ghost use Rattle.std.specs.Prelude.{◌≡◌, ◌+◌, ◌%◌, ◌^◌, ◌<◌, ◌≤◌, ◌==◌, ◌↔◌, IsOk, IfOk};
ghost use Rattle.vx_base.specs.Aligned.{align_down};

use std::marker::Model;
use thiserror::Error;

/// An exponent above 16 is no alignment.
#[derive(Clone, Copy, Debug, PartialEq, Eq, Error)]
#[error("the alignment exponent is above 16")]
pub struct BadAlignment;

/// A power of two of bytes, with an exponent of at most 16.
#[derive(Clone, Copy, Debug, PartialEq, Eq, PartialOrd, Ord)]
pub struct Alignment {
    exponent: u8,
}

impl Model for Alignment {
    ghost use Rattle.std.specs.Prelude.{ℕ, ◌≤◌};

    ghost Value = { ℕ };

    ghost view = { λ a. a.exponent };

    ghost invariant = { λ a. a.exponent ≤ 16 };

    ghost inverse = { λ n. record { exponent = n } };
}

impl Alignment {
    /// The alignment of 2 to the power of `exponent` bytes.
    pub fn new(exponent: u8) -> Result<Alignment, BadAlignment>
        ensures taken { IsOk result ↔ (exponent ≤ 16) }
        ensures value { IfOk result (λ alignment. alignment ≡ exponent) }
    {
        if exponent > 16 {
            return Err(BadAlignment);
        }
        Ok(Alignment { exponent })
    }

    /// No alignment: a power of one byte.
    pub fn none() -> Alignment
        ensures { result ≡ 0 }
    {
        Alignment { exponent: 0 }
    }

    /// The exponent of the power of two.
    pub fn exponent(&self) -> u8
        ensures value { result ≡ self.now }
        ensures bound { self.now ≤ 16 }
    {
        self.exponent
    }

    /// The alignment in bytes.
    pub fn as_u64(&self) -> u64
        ensures value { result ≡ 2 ^ self.now }
        ensures bound { result ≤ 65536 }
    {
        1u64 << self.exponent
    }

    /// The greatest multiple of the alignment at or below an offset.
    pub fn down(&self, offset: u64) -> u64
        ensures value { result ≡ align_down self.now offset }
        ensures below { result ≤ offset }
        ensures multiple { result % 2 ^ self.now ≡ 0 }
        ensures greatest { offset < result + 2 ^ self.now }
    {
        offset - offset % self.as_u64()
    }

    /// Whether an offset is a multiple of the alignment.
    pub fn is_offset_aligned(&self, offset: u64) -> bool
        ensures { result ≡ (offset % 2 ^ self.now == 0) }
    {
        offset % self.as_u64() == 0
    }
}
