//! Room for the bytes of a text, which wait to be sent.
ghost use Rattle.std.specs.Prelude.{◌≡◌, ◌+◌, ◌≤◌, ◌<◌, ◌++◌, ◌∷◌, [], length, decimal};

use crate::digits::{put_digits, put_one};
use std::marker::Model;
use std::simd::prelude::*;

/// For how many bytes there is room.
pub(crate) const ROOM: usize = 32_768;

/// Bytes that wait, at the front of an array. What stands behind them is of no account, so that nothing is wiped.
#[derive(Drop)]
pub(crate) struct Room {
    cells: [u8; ROOM],
    len: usize,
}

impl Model for Room {
    ghost use Rattle.std.specs.Prelude.{ℕ, ◌≤◌, List, take};

    ghost Value = { List ℕ };

    ghost view = { λ r. take r.len r.cells };

    ghost invariant = { λ r. r.len ≤ 32768 };
}

impl Room {
    pub(crate) fn new() -> Room
        ensures { result ≡ [] }
    {
        Room {
            cells: [0; ROOM],
            len: 0,
        }
    }

    /// How many bytes there is room for.
    #[inline(always)]
    pub(crate) fn left(&self) -> usize
        ensures { result + length self.now ≡ 32768 }
    {
        ROOM - self.len
    }

    /// The bytes.
    pub(crate) fn as_slice(&self) -> &[u8]
        ensures { result.now ≡ self.now }
    {
        &self.cells[..self.len]
    }

    /// Puts one byte behind the others.
    #[inline(always)]
    pub(crate) fn push(&mut self, byte: u8)
        requires { length self.old < 32768 }
        ensures { self.new ≡ self.old ++ byte ∷ [] }
    {
        self.cells[self.len] = byte;
        self.len += 1;
    }

    /// Puts the digits of a number behind the others.
    #[inline(always)]
    pub(crate) fn put_digits(&mut self, number: u64)
        requires { length self.old + 20 ≤ 32768 }
        ensures { self.new ≡ self.old ++ decimal number }
    {
        self.len = put_digits(number, &mut self.cells, self.len);
    }

    /// Puts a byte and the digits of a number behind the others.
    #[inline(always)]
    pub(crate) fn put_digits_after(&mut self, byte: u8, number: u64)
        requires { length self.old + 21 ≤ 32768 }
        ensures { self.new ≡ self.old ++ byte ∷ decimal number }
    {
        let behind = put_one(byte, &mut self.cells, self.len);
        self.len = put_digits(number, &mut self.cells, behind);
    }

    /// Puts bytes behind the others.
    #[inline(always)]
    pub(crate) fn extend(&mut self, bytes: &[u8])
        requires { length self.old + length bytes.now ≤ 32768 }
        ensures { self.new ≡ self.old ++ bytes.now }
    {
        let end = self.len + bytes.len();
        self.cells[self.len..end].copy_from_slice(bytes);
        self.len = end;
    }

    /// Puts the bytes of a vector behind the others.
    #[inline(always)]
    pub(crate) fn put_vector(&mut self, bytes: u8x32)
        requires { length self.old + 32 ≤ 32768 }
        ensures { self.new ≡ self.old ++ bytes }
    {
        let end = self.len + 32;
        bytes.copy_to_slice(&mut self.cells[self.len..end]);
        self.len = end;
    }

    /// Lets all bytes go.
    pub(crate) fn clear(&mut self)
        ensures { self.new ≡ [] }
    {
        self.len = 0;
    }
}
