//! A set of numbers of reads.
//!
//! A word has a bit for each of 64 numbers, and a word of groups one for each of 64 words, which says whether a bit
//! of that is set. So the least number from one on is found past few words, and putting one in or out takes no memory.
ghost use Rattle.std.specs.Prelude.{◌≡◌, ℕ, ◌/◌, ◌%◌, ◌<◌, ◌≤◌, ◌==◌, ◌^◌, [], cond, true, false, IfSome, IfNone, OnOk};
ghost use Rattle.vx_sched.specs.BitSet.{word_at, has_word, has_room, is_raised, IsUp, Covers};

use crate::bits::{first_bit, is_set, with_bit};
use crate::numbered::{Numbered, Slot, place_of};
use std::alloc::{AllocError, Global};
use std::marker::Model;

/// Words of bits of numbers, and over them words of bits of words.
#[derive(Drop)]
pub struct BitSet {
    words: Numbered<u64>,
    groups: Numbered<u64>,
}

impl Model for BitSet {
    ghost use Rattle.vx_sched.specs.BitSet.{Words, Covers};

    ghost Value = { Words };

    ghost view = { λ p. p.words };

    ghost invariant = { λ p. Covers p.words p.groups };
}

/// The word of a block of numbers, which is 0 where there is none.
#[inline(always)]
fn word_of(words: &Numbered<u64>, block: u64) -> u64
    ensures { result ≡ word_at words.now block }
{
    match words.get(block) {
        Some(word) => word,
        None => 0,
    }
}

/// Gives a block a word without bits, if it has none.
fn open_word(words: &mut Numbered<u64>, block: u64) -> Result<(), AllocError>
    ensures same { (b : ℕ) → word_at words.new b ≡ word_at words.old b }
    ensures kept { (b : ℕ) → has_word words.old b ≡ true → has_word words.new b ≡ true }
    ensures only { (b : ℕ) → has_word words.new b ≡ true → (block == b) ≡ false → has_word words.old b ≡ true }
    ensures there { OnOk result (has_word words.new block ≡ true) }
{
    if words.get(block).is_some() {
        return Ok(());
    }
    words.put(block, 0)?;
    Ok(())
}

/// Sets or clears the bit of a number in the word of its block, and gives what that is then.
#[inline(always)]
fn set_bit(words: &mut Numbered<u64>, number: u64, word: u64, is_set: bool) -> u64
    requires room { has_room words.old number ≡ true }
    requires word { word ≡ word_at words.old (number / 64) }
    ensures word { result ≡ word_at words.new (number / 64) }
    ensures bits { (n : ℕ) → is_raised words.new n ≡ cond (number == n) is_set (is_raised words.old n) }
    ensures others { (b : ℕ) → (number / 64 == b) ≡ false → word_at words.new b ≡ word_at words.old b }
    ensures kept { (b : ℕ) → has_word words.new b ≡ has_word words.old b }
{
    let block = number / 64;
    let word = with_bit(word, number % 64, is_set);
    match words.put(block, word) {
        Ok(()) => word,
        Err(_) => unreachable!(),
    }
}

/// The least number from one on, within its block, whose bit is set.
fn first_in_block(words: &Numbered<u64>, from: u64) -> Option<u64>
    ensures raised { IfSome result (λ n. is_raised words.now n ≡ true) }
    ensures after { IfSome result (λ n. from ≤ n) }
    ensures least { IfSome result (λ n. (q : ℕ) → from ≤ q → q < n → is_raised words.now q ≡ false) }
    ensures none { IfNone result ((q : ℕ) → from ≤ q → q / 64 ≡ from / 64 → is_raised words.now q ≡ false) }
    ensures empty { IfNone result (from % 64 ≡ 0 → word_at words.now (from / 64) ≡ 0) }
{
    let block = from / 64;
    match first_bit(word_of(words, block), from % 64) {
        Some(place) => Some(block * 64 + place),
        None => None,
    }
}

/// Whether a bit of a slot's word is set.
fn is_up(slot: &Slot<u64>) -> bool
    ensures up { result ≡ true → IsUp slot.now.value }
    ensures low { result ≡ false → IsUp slot.now.value → ⊥ }
{
    match slot.value {
        Some(word) => word != 0,
        None => false,
    }
}

/// The least block from one on that has a bit set.
fn next_word(words: &Numbered<u64>, from: u64) -> Option<u64>
    ensures some { IfSome result (λ b. 0 < word_at words.now b) }
    ensures after { IfSome result (λ b. from ≤ b) }
    ensures least { IfSome result (λ b. (q : ℕ) → from ≤ q → q < b → word_at words.now q ≡ 0) }
    ensures none { IfNone result ((q : ℕ) → from ≤ q → word_at words.now q ≡ 0) }
{
    let slots = words.slots();
    for at in place_of(slots, from)..slots.len() {
        let slot = &slots[at];
        if is_up(slot) {
            return Some(slot.number);
        }
    }
    None
}

/// The least block from one on that has a bit set, by the bits of groups over blocks.
fn next_block(words: &Numbered<u64>, groups: &Numbered<u64>, from: u64) -> Option<u64>
    requires { Covers words.now groups.now }
    ensures some { IfSome result (λ b. 0 < word_at words.now b) }
    ensures after { IfSome result (λ b. from ≤ b) }
    ensures least { IfSome result (λ b. (q : ℕ) → from ≤ q → q < b → word_at words.now q ≡ 0) }
    ensures none { IfNone result ((q : ℕ) → from ≤ q → word_at words.now q ≡ 0) }
{
    if let Some(block) = first_in_block(groups, from) {
        return Some(block);
    }
    let Some(group) = next_word(groups, from / 64 + 1) else {
        return None;
    };
    first_in_block(groups, group * 64)
}

impl BitSet {
    pub fn new(alloc: Global) -> BitSet
        ensures { result ≡ [] }
    {
        BitSet {
            words: Numbered::new(alloc),
            groups: Numbered::new(alloc),
        }
    }

    /// Makes room for the bit of a number. Only memory refuses.
    pub fn open(&mut self, number: u64) -> Result<(), AllocError>
        ensures same { (n : ℕ) → is_raised self.new n ≡ is_raised self.old n }
        ensures kept { (n : ℕ) → has_room self.old n ≡ true → has_room self.new n ≡ true }
        ensures room { OnOk result (has_room self.new number ≡ true) }
    {
        let block = number / 64;
        open_word(&mut self.groups, block / 64)?;
        open_word(&mut self.words, block)?;
        Ok(())
    }

    /// Whether a number is in the set.
    #[inline(always)]
    pub fn has(&self, number: u64) -> bool
        ensures { result ≡ is_raised self.now number }
    {
        is_set(word_of(&self.words, number / 64), number % 64)
    }

    /// Puts a number into the set, or takes it out.
    #[inline(always)]
    pub fn put(&mut self, number: u64, is_in: bool)
        requires { has_room self.old number ≡ true }
        ensures bits { (n : ℕ) → is_raised self.new n ≡ cond (number == n) is_in (is_raised self.old n) }
        ensures kept { (n : ℕ) → has_room self.old n ≡ true → has_room self.new n ≡ true }
    {
        let block = number / 64;
        let before = word_of(&self.words, block);
        let after = set_bit(&mut self.words, number, before, is_in);
        let has_some = after != 0;
        if has_some != (before != 0) {
            let group = word_of(&self.groups, block / 64);
            set_bit(&mut self.groups, block, group, has_some);
        }
    }

    /// The least number from one on.
    pub fn next(&self, from: u64) -> Option<u64>
        ensures raised { IfSome result (λ n. is_raised self.now n ≡ true) }
        ensures after { IfSome result (λ n. from ≤ n) }
        ensures least { IfSome result (λ n. (q : ℕ) → from ≤ q → q < n → is_raised self.now q ≡ false) }
        ensures none { IfNone result ((q : ℕ) → from ≤ q → is_raised self.now q ≡ false) }
    {
        if let Some(number) = first_in_block(&self.words, from) {
            return Some(number);
        }
        let Some(block) = next_block(&self.words, &self.groups, from / 64 + 1) else {
            return None;
        };
        first_in_block(&self.words, block * 64)
    }
}
