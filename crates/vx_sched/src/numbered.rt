//! Values by number, kept in one vector in the order of their numbers.
//!
//! Numbers are mostly added in their order and without gaps, so a number is mostly found where it would stand if
//! there were none, and a new one is added at the end. A value that is taken away leaves its slot, until half of
//! the slots are empty.
ghost use Rattle.std.specs.Prelude.{◌≡◌, ℕ, ◌<◌, ◌≤◌, [], None, Some, cond, length, slice_get, slice_set, OnOk, OnErr, IfOk, IfErr};
ghost use Rattle.std.specs.BTreeMap.{insert_entry, is_at};
ghost use Rattle.std.specs.Map.{keys_of, lookup, remove_entry};
ghost use Rattle.std.specs.Ordering.{nat_cmp};
ghost use Rattle.vx_sched.specs.Numbered.{held, is_full, RiseFrom, IsGap, IsSlot};
ghost use Rattle.std.specs.List.{filter, insert};
ghost use Rattle.vx_sched.specs.declared.numbered.Slot.{Slot};

use std::alloc::{AllocError, Global};
use std::marker::Model;

/// A number, and its value unless that was taken away.
#[derive(Clone, Copy)]
pub struct Slot<V> {
    pub number: u64,
    pub value: Option<V>,
}

/// Values by number.
#[derive(Drop)]
pub struct Numbered<V> {
    slots: Vec<Slot<V>>,
    empty: usize,
}

impl<V> Model for Numbered<V> {
    ghost use Rattle.std.specs.Prelude.{ℕ, List};
    ghost use Rattle.vx_sched.specs.Numbered.{held, RiseFrom};

    ghost Value = { List (ℕ × V) };

    ghost view = { λ s. held s.slots.items };

    ghost invariant = { λ s. RiseFrom 0 s.slots.items };
}

/// The place of the first slot whose number is not below this, among slots that rise.
#[tactic(auto, using(crate::proofs::NumberedLemmas::low_below, crate::proofs::NumberedLemmas::hit_above, crate::proofs::NumberedLemmas::none_past))]
fn search<V>(slots: &[Slot<V>], number: u64) -> usize
    requires { RiseFrom 0 slots.now }
    ensures within { result ≤ length slots.now }
    ensures below { (i : ℕ) (x : Slot V) → slice_get slots.now i ≡ Some x → i < result → x.number < number }
    ensures above { (i : ℕ) (x : Slot V) → slice_get slots.now i ≡ Some x → result ≤ i → number ≤ x.number }
{
    let mut low = 0;
    let mut high = slots.len();
    while low < high {
        let middle = low + (high - low) / 2;
        if slots[middle].number < number {
            low = middle + 1;
        } else {
            high = middle;
        }
    }
    low
}

/// The same, found at once behind all slots, or where the number would stand if there were no gaps.
#[tactic(auto, using(crate::proofs::NumberedLemmas::low_below, crate::proofs::NumberedLemmas::hit_above, crate::proofs::NumberedLemmas::hit_below, crate::proofs::NumberedLemmas::none_past))]
#[inline(always)]
pub fn place_of<V>(slots: &[Slot<V>], number: u64) -> usize
    requires { RiseFrom 0 slots.now }
    ensures within { result ≤ length slots.now }
    ensures below { (i : ℕ) (x : Slot V) → slice_get slots.now i ≡ Some x → i < result → x.number < number }
    ensures above { (i : ℕ) (x : Slot V) → slice_get slots.now i ≡ Some x → result ≤ i → number ≤ x.number }
{
    let count = slots.len();
    if count == 0 {
        return 0;
    }
    if slots[count - 1].number < number {
        return count;
    }
    let guess = number.saturating_sub(slots[0].number) as usize;
    if guess < count && slots[guess].number == number {
        return guess;
    }
    search(slots, number)
}

/// Where the slot of a number stands, or else where it would stand.
#[inline(always)]
fn look<V>(slots: &[Slot<V>], number: u64) -> Result<usize, usize>
    requires { RiseFrom 0 slots.now }
    ensures found { IfOk result (IsSlot slots.now number) }
    ensures gap { IfErr result (IsGap slots.now number) }
{
    let at = place_of(slots, number);
    if at == slots.len() {
        return Err(at);
    }
    if slots[at].number == number {
        Ok(at)
    } else {
        Err(at)
    }
}

/// The value of a slot.
#[inline(always)]
fn value_at<V: Copy>(slots: &[Slot<V>], at: usize) -> Option<V>
    requires { at < length slots.now }
    ensures { (x : Slot V) → slice_get slots.now at ≡ Some x → result ≡ x.value }
{
    slots[at].value
}

/// Gives a slot another value, or none.
#[inline(always)]
fn set_value<V: Copy>(slots: &mut Vec<Slot<V>>, at: usize, value: Option<V>)
    requires { at < length slots.old.items }
    ensures { (x : Slot V) → slice_get slots.old.items at ≡ Some x →
        slots.new.items ≡ slice_set slots.old.items at (record { number = x.number; value = value }) }
{
    let number = slots[at].number;
    slots[at] = Slot { number, value };
}

/// Puts a slot at a place. Only memory refuses.
fn add_slot<V: Copy>(slots: &mut Vec<Slot<V>>, at: usize, slot: Slot<V>) -> Result<(), AllocError>
    requires { at ≤ length slots.old.items }
    ensures ok { OnOk result (slots.new.items ≡ insert slots.old.items at slot) }
    ensures err { OnErr result (slots.new.items ≡ slots.old.items) }
{
    if at == slots.len() {
        slots.push(slot)?;
        return Ok(());
    }
    let Ok(()) = slots.insert(at, slot) else {
        return Err(AllocError);
    };
    Ok(())
}

/// Takes the empty slots away.
fn pack<V: Copy>(slots: &mut Vec<Slot<V>>)
    ensures { slots.new.items ≡ filter is_full slots.old.items }
{
    slots.retain(|slot| slot.value.is_some());
}

impl<V: Copy> Numbered<V> {
    /// No value.
    pub fn new(alloc: Global) -> Numbered<V>
        ensures { result ≡ [] }
    {
        Numbered {
            slots: Vec::new(alloc),
            empty: 0,
        }
    }

    /// No value, with room for so many. Only memory refuses.
    pub fn with_room(alloc: Global, count: usize) -> Result<Numbered<V>, AllocError>
        ensures { IfOk result (λ numbered. numbered ≡ []) }
    {
        Ok(Numbered {
            slots: Vec::with_capacity(alloc, count)?,
            empty: 0,
        })
    }

    /// The value of a number.
    #[inline(always)]
    pub fn get(&self, number: u64) -> Option<V>
        ensures { result ≡ lookup (is_at (nat_cmp number)) self.now }
    {
        match look(&self.slots, number) {
            Ok(at) => value_at(&self.slots, at),
            Err(_) => None,
        }
    }

    /// Gives a number a value, in the place of the one that it has. Only memory refuses, and only a number without one.
    #[inline(always)]
    pub fn put(&mut self, number: u64, value: V) -> Result<(), AllocError>
        ensures ok { OnOk result (self.new ≡ insert_entry nat_cmp self.old number value) }
        ensures lookups { OnOk result ((q : ℕ) → lookup (is_at (nat_cmp q)) self.new
            ≡ cond (is_at (nat_cmp number) q) (Some value) (lookup (is_at (nat_cmp q)) self.old)) }
        ensures err { OnErr result (self.new ≡ self.old) }
        ensures absent { OnErr result (lookup (is_at (nat_cmp number)) self.old ≡ None) }
    {
        match look(&self.slots, number) {
            Ok(at) => {
                set_value(&mut self.slots, at, Some(value));
                Ok(())
            }
            Err(at) => {
                let value = Some(value);
                let Ok(()) = add_slot(&mut self.slots, at, Slot { number, value }) else {
                    return Err(AllocError);
                };
                Ok(())
            }
        }
    }

    /// Takes the value of a number away, if it has one.
    pub fn remove(&mut self, number: u64)
        ensures entries { self.new ≡ remove_entry (is_at (nat_cmp number)) self.old }
        ensures lookups { (q : ℕ) → lookup (is_at (nat_cmp q)) self.new
            ≡ cond (is_at (nat_cmp number) q) None (lookup (is_at (nat_cmp q)) self.old) }
    {
        let Ok(at) = look(&self.slots, number) else {
            return;
        };
        set_value(&mut self.slots, at, None);
        self.empty = self.empty.saturating_add(1);
        if self.empty > 64 + self.slots.len() / 2 {
            pack(&mut self.slots);
            self.empty = 0;
        }
    }

    /// The slots, in the order of their numbers.
    pub fn slots(&self) -> &[Slot<V>]
        ensures held { held result.now ≡ self.now }
        ensures rise { RiseFrom 0 result.now }
    {
        self.slots.as_slice()
    }

    /// The numbers that have a value, in order. Only memory refuses.
    pub fn numbers(&self, alloc: Global) -> Result<Vec<u64>, AllocError>
        ensures { IfOk result (λ numbers. numbers.items ≡ keys_of self.now) }
    {
        let mut numbers = Vec::new(alloc);
        let slots = self.slots();
        for slot in slots {
            if slot.value.is_none() {
                continue;
            }
            numbers.push(slot.number)?;
        }
        Ok(numbers)
    }
}
