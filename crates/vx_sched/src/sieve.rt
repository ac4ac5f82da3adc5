//! A sieve of numbers: it tells fast of most numbers that they are not among those that were marked.
//!
//! A number's bit is one of 65,536, and it is set once a number with that bit was marked. A sieve takes no memory before
//! it is opened, and lets all numbers through until then.
ghost use Rattle.std.specs.Prelude.{◌≡◌, ℕ, true, false, IfOk};
ghost use Rattle.vx_sched.specs.Sieve.{may_hold, HoldsOn};

use crate::bits::{is_set, with_bit};
use std::alloc::{AllocError, Global};
use std::marker::Model;

/// How many words of bits an open sieve has.
const WORDS: u64 = 1024;

/// The words of its bits, of which there are none before it is opened.
#[derive(Drop)]
pub struct Sieve {
    words: Vec<u64>,
}

impl Model for Sieve {
    ghost use Rattle.std.specs.Prelude.{ℕ, List};

    ghost Value = { List ℕ };

    ghost view = { λ s. s.words.items };
}

impl Sieve {
    /// A sieve that is not open.
    pub fn new(alloc: Global) -> Sieve
        ensures { (q : ℕ) → may_hold result q ≡ true }
    {
        Sieve {
            words: Vec::new(alloc),
        }
    }

    /// An open sieve, with nothing marked. Only memory refuses.
    pub fn opened(alloc: Global) -> Result<Sieve, AllocError>
        ensures { IfOk result (λ sieve. (q : ℕ) → may_hold sieve q ≡ false) }
    {
        let mut words = Vec::with_capacity(alloc, WORDS as usize)?;
        words.resize(WORDS as usize, 0)?;
        Ok(Sieve { words })
    }

    /// Whether it can tell of any number.
    #[inline(always)]
    pub fn is_open(&self) -> bool
        ensures { result ≡ false → (q : ℕ) → may_hold self.now q ≡ true }
    {
        !self.words.is_empty()
    }

    /// Whether a number may be among those that were marked.
    #[inline(always)]
    pub fn may_hold(&self, number: u64) -> bool
        ensures { result ≡ may_hold self.now number }
    {
        let at = (number / 64 % WORDS) as usize;
        if at >= self.words.len() {
            return true;
        }
        is_set(self.words[at], number % 64)
    }

    /// Marks a number, where the sieve is open.
    #[inline(always)]
    pub fn mark(&mut self, number: u64)
        ensures kept { HoldsOn self.old self.new }
        ensures marked { may_hold self.new number ≡ true }
    {
        let at = (number / 64 % WORDS) as usize;
        if at >= self.words.len() {
            return;
        }
        let word = self.words[at];
        self.words[at] = with_bit(word, number % 64, true);
    }
}
