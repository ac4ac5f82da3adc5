//! A choice of rows.
ghost use Rattle.std.specs.Prelude.{ℕ, ◌≡◌, ◌<◌, ◌≤◌, ◌==◌, length, slice_index_or, true};
ghost use Rattle.std.specs.List.{list_all};

use std::marker::Model;

/// So many rows are looked at at once.
const BLOCK: usize = 64;

/// One truth value for each row.
#[derive(Debug, Drop)]
pub struct Mask {
    bits: Vec<bool>,
}

impl Model for Mask {
    ghost use Rattle.std.specs.Prelude.{List, Bool};

    ghost Value = { List Bool };

    ghost view = { λ m. m.bits.items };
}

impl Mask {
    /// These truth values.
    pub fn new(bits: Vec<bool>) -> Mask
        ensures { result ≡ bits.items }
    {
        Mask { bits }
    }

    /// The number of rows.
    pub fn len(&self) -> usize
        ensures { result ≡ length self.now }
    {
        self.bits.len()
    }

    /// Whether there is no row.
    pub fn is_empty(&self) -> bool
        ensures { result ≡ (length self.now == 0) }
    {
        self.bits.is_empty()
    }

    /// The truth value of a row.
    pub fn get(&self, at: usize) -> bool
        requires { at < length self.now }
        ensures { result ≡ slice_index_or self.now at true }
    {
        self.bits[at]
    }

    /// Whether the rows from one on, up to another, have this truth value. No row ends the search, so that many rows are looked
    /// at at once.
    fn are_between(&self, from: usize, to: usize, value: bool) -> bool
        requires ordered { from ≤ to }
        requires inside { to ≤ length self.now }
        ensures { result ≡ true → (k : ℕ) → from ≤ k → k < to → slice_index_or self.now k true ≡ value }
    {
        let mut all = true;
        for row in from..to {
            all = all & (self.get(row) == value);
        }
        all
    }

    /// A row from one on, behind rows that all have this truth value, which are passed block by block. What stands there may
    /// have it too.
    pub fn skip(&self, from: usize, value: bool) -> usize
        requires { from ≤ length self.now }
        ensures behind { from ≤ result }
        ensures inside { result ≤ length self.now }
        ensures passed { (k : ℕ) → from ≤ k → k < result → slice_index_or self.now k true ≡ value }
    {
        let mut at = from;
        while self.len() - at >= BLOCK && self.are_between(at, at + BLOCK, value) {
            at += BLOCK;
        }
        at
    }

    /// Whether each row is chosen. No row ends the search, so that many rows are looked at at once.
    #[tactic(auto, using(crate::proofs::WrittenLemmas::next_flag))]
    pub(crate) fn are_all(&self) -> bool
        ensures { result ≡ list_all (λ b. b) self.now }
    {
        let mut all = true;
        for row in 0..self.len() {
            all = all & self.get(row);
        }
        all
    }
}
