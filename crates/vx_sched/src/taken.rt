//! The numbers of the reads that the spans of a batch serve.
//!
//! Those of a span that has many reads, as measured by those before it, are kept in order in a vector, and the others in
//! a tree. So adding a number takes few steps wherever it goes. One number alone that is above those in the vector goes
//! there too.
//!
//! Once a span has many reads, a sieve stands before both, since most numbers that are asked are not taken.
ghost use Rattle.std.specs.Prelude.{◌≡◌, ℕ, ◌==◌, ◌++◌, ◌||◌, ◌∷◌, [], true, false, IfOk, IfSome, OnOk};
ghost use Rattle.std.specs.BTreeSet.{contains};
ghost use Rattle.std.specs.List.Sorted.{IsNonDecreasing};
ghost use Rattle.std.specs.Ordering.{nat_cmp};
ghost use Rattle.vx_sched.specs.Merging.{is_listed};
ghost use Rattle.vx_sched.specs.Picks.{is_among};
ghost use Rattle.vx_sched.specs.Sieve.{may_hold, HoldsOn, MayHoldAll};

use crate::ReadRequest;
use crate::sieve::Sieve;
use std::alloc::{AllocError, Global};
use std::collections::BTreeSet;
use std::marker::Model;

/// How many reads of a span make a sieve worth its memory.
const MANY: usize = 64;

/// Numbers, as a list of which only the members are told.
#[derive(Drop)]
pub struct Taken {
    sorted: Vec<u64>,
    others: BTreeSet<u64>,
    sieve: Sieve,
}

impl Model for Taken {
    ghost use Rattle.std.specs.Prelude.{ℕ, List, ◌++◌};
    ghost use Rattle.std.specs.List.Sorted.{IsNonDecreasing};
    ghost use Rattle.vx_sched.specs.Sieve.{MayHoldAll};

    ghost Value = { List ℕ };

    ghost view = { λ t. t.sorted.items ++ t.others.keys };

    ghost invariant = { λ t. IsNonDecreasing t.sorted.items × MayHoldAll t.sieve (t.sorted.items ++ t.others.keys) };
}

/// The numbers of reads, in order.
fn sorted_numbers(alloc: Global, reads: &[ReadRequest]) -> Result<Vec<u64>, AllocError>
    ensures all { IfOk result (λ numbers. (q : ℕ) → is_among numbers.items q ≡ is_listed reads.now q) }
    ensures rise { IfOk result (λ numbers. IsNonDecreasing numbers.items) }
{
    let mut numbers = Vec::with_capacity(alloc, reads.len())?;
    for read in reads {
        numbers.push(read.id)?;
    }
    numbers.sort_unstable();
    Ok(numbers)
}

/// Adds the numbers of reads to a tree, in order, since it takes them fastest so.
fn add_numbers(
    alloc: Global,
    numbers: &mut BTreeSet<u64>,
    reads: &[ReadRequest],
) -> Result<(), AllocError>
    ensures only { (q : ℕ) → contains nat_cmp numbers.new q ≡ true → (contains nat_cmp numbers.old q || is_listed reads.now q) ≡ true }
    ensures all { OnOk result ((q : ℕ) → contains nat_cmp numbers.new q
        ≡ (contains nat_cmp numbers.old q || is_listed reads.now q)) }
{
    for number in sorted_numbers(alloc, reads)? {
        numbers.insert(number)?;
    }
    Ok(())
}

/// Whether a number is above all of some in order.
#[inline(always)]
fn is_above(numbers: &[u64], number: u64) -> bool
    requires { IsNonDecreasing numbers.now }
    ensures absent { result ≡ true → is_among numbers.now number ≡ false }
    ensures rise { result ≡ true → IsNonDecreasing (numbers.now ++ number ∷ []) }
{
    let count = numbers.len();
    if count == 0 {
        return true;
    }
    numbers[count - 1] < number
}

/// Whether a number is among some in order.
#[inline(always)]
fn is_in(numbers: &[u64], number: u64) -> bool
    requires { IsNonDecreasing numbers.now }
    ensures { result ≡ is_among numbers.now number }
{
    if is_above(numbers, number) {
        return false;
    }
    numbers.binary_search(&number).is_ok()
}

/// Whether a number is in a tree.
#[inline(always)]
fn is_in_tree(numbers: &BTreeSet<u64>, number: u64) -> bool
    ensures { result ≡ is_among numbers.now.keys number }
{
    if numbers.is_empty() {
        return false;
    }
    numbers.contains(&number)
}

/// Whether a number is among some in order, or in a tree.
fn is_in_either(sorted: &[u64], others: &BTreeSet<u64>, number: u64) -> bool
    requires { IsNonDecreasing sorted.now }
    ensures { result ≡ is_among (sorted.now ++ others.now.keys) number }
{
    is_in(sorted, number) || is_in_tree(others, number)
}

/// Puts numbers in order.
fn sort(numbers: &mut Vec<u64>)
    ensures same { (q : ℕ) → is_among numbers.new.items q ≡ is_among numbers.old.items q }
    ensures rise { IsNonDecreasing numbers.new.items }
{
    match numbers.sort() {
        Ok(()) => {}
        Err(_) => numbers.sort_unstable(),
    }
}

/// Adds numbers in order to others. Only memory refuses.
fn merge(sorted: &mut Vec<u64>, numbers: Vec<u64>) -> Result<(), AllocError>
    requires rise { IsNonDecreasing sorted.old.items }
    requires rise_too { IsNonDecreasing numbers.items }
    ensures only { (q : ℕ) → is_among sorted.new.items q ≡ true → (is_among sorted.old.items q || is_among numbers.items q) ≡ true }
    ensures all { OnOk result ((q : ℕ) → is_among sorted.new.items q ≡ (is_among sorted.old.items q || is_among numbers.items q)) }
    ensures rise { IsNonDecreasing sorted.new.items }
{
    let mut numbers = numbers;
    if sorted.is_empty() {
        *sorted = numbers;
        return Ok(());
    }
    sorted.append(&mut numbers)?;
    sort(sorted);
    Ok(())
}

/// The number of one read alone, if it is above all of some in order.
fn next_number(sorted: &[u64], reads: &[ReadRequest]) -> Option<u64>
    requires { IsNonDecreasing sorted.now }
    ensures rise { IfSome result (λ number. IsNonDecreasing (sorted.now ++ number ∷ [])) }
    ensures all { IfSome result (λ number. (q : ℕ) → (number == q) ≡ is_listed reads.now q) }
{
    if reads.len() != 1 {
        return None;
    }
    let number = reads[0].id;
    if is_above(sorted, number) {
        Some(number)
    } else {
        None
    }
}

/// Adds the numbers of reads to those in order, or to a tree. Only memory refuses.
fn add_to(
    alloc: Global,
    sorted: &mut Vec<u64>,
    others: &mut BTreeSet<u64>,
    reads: &[ReadRequest],
) -> Result<(), AllocError>
    requires { IsNonDecreasing sorted.old.items }
    ensures rise { IsNonDecreasing sorted.new.items }
    ensures only { (q : ℕ) → is_among (sorted.new.items ++ others.new.keys) q ≡ true →
        (is_among (sorted.old.items ++ others.old.keys) q || is_listed reads.now q) ≡ true }
    ensures all { OnOk result ((q : ℕ) → is_among (sorted.new.items ++ others.new.keys) q
        ≡ (is_among (sorted.old.items ++ others.old.keys) q || is_listed reads.now q)) }
{
    if let Some(number) = next_number(sorted, reads) {
        sorted.push(number)?;
        return Ok(());
    }
    if reads.len() < sorted.len() / 16 + 2 {
        add_numbers(alloc, others, reads)?;
        return Ok(());
    }
    let numbers = sorted_numbers(alloc, reads)?;
    merge(sorted, numbers)?;
    Ok(())
}

/// Marks numbers.
fn mark_all(sieve: &mut Sieve, numbers: &[u64])
    ensures kept { HoldsOn sieve.old sieve.new }
    ensures all { MayHoldAll sieve.new numbers.now }
{
    for number in numbers {
        sieve.mark(*number);
    }
}

/// Marks the numbers of a tree.
fn mark_tree(sieve: &mut Sieve, numbers: &BTreeSet<u64>)
    ensures kept { HoldsOn sieve.old sieve.new }
    ensures all { MayHoldAll sieve.new numbers.now.keys }
{
    for number in numbers.iter() {
        sieve.mark(*number);
    }
}

/// Marks the numbers of reads.
fn mark_reads(sieve: &mut Sieve, reads: &[ReadRequest])
    ensures kept { HoldsOn sieve.old sieve.new }
    ensures all { (q : ℕ) → is_listed reads.now q ≡ true → may_hold sieve.new q ≡ true }
{
    for read in reads {
        sieve.mark(read.id);
    }
}

/// An open sieve of numbers. Only memory refuses.
fn sieve_of(alloc: Global, sorted: &[u64], others: &BTreeSet<u64>) -> Result<Sieve, AllocError>
    ensures { IfOk result (λ sieve. MayHoldAll sieve (sorted.now ++ others.now.keys)) }
{
    let mut sieve = Sieve::opened(alloc)?;
    mark_all(&mut sieve, sorted);
    mark_tree(&mut sieve, others);
    Ok(sieve)
}

/// Opens the sieve of numbers before many more are added. Only memory refuses.
fn open_for(
    alloc: Global,
    sieve: &mut Sieve,
    sorted: &[u64],
    others: &BTreeSet<u64>,
    more: usize,
) -> Result<(), AllocError>
    requires { MayHoldAll sieve.old (sorted.now ++ others.now.keys) }
    ensures { MayHoldAll sieve.new (sorted.now ++ others.now.keys) }
{
    if more < MANY || sieve.is_open() {
        return Ok(());
    }
    *sieve = sieve_of(alloc, sorted, others)?;
    Ok(())
}

impl Taken {
    pub fn new(alloc: Global) -> Taken
        ensures { result ≡ [] }
    {
        Taken {
            sorted: Vec::new(alloc),
            others: BTreeSet::new(alloc),
            sieve: Sieve::new(alloc),
        }
    }

    /// Whether the read of a number is taken.
    #[inline(always)]
    pub fn contains(&self, number: u64) -> bool
        ensures { result ≡ is_among self.now number }
    {
        self.sieve.may_hold(number) && is_in_either(&self.sorted, &self.others, number)
    }

    /// Adds the numbers of reads. Only memory refuses.
    pub fn add(&mut self, alloc: Global, reads: &[ReadRequest]) -> Result<(), AllocError>
        ensures { OnOk result ((q : ℕ) → is_among self.new q ≡ (is_among self.old q || is_listed reads.now q)) }
    {
        let more = reads.len();
        open_for(alloc, &mut self.sieve, &self.sorted, &self.others, more)?;
        mark_reads(&mut self.sieve, reads);
        add_to(alloc, &mut self.sorted, &mut self.others, reads)
    }
}
