//! Gathering the reads of a span, in passes.
//!
//! A pass fixes its bounds as it begins, and looks at the waiting reads that end at or after the first
//! and begin at or before the second, in order of offset and number: it picks each that does not make
//! the range too long. Passes go on until the bounds stay. A read that was looked at is picked, or was
//! too long and stays so as the range grows, so a pass looks only at what earlier ones did not.
ghost use Rattle.std.specs.Prelude.{◌≡◌, ◌+◌, ◌-◌, ◌<◌, ◌≤◌, ◌^◌, ◌∷◌, [], true, false, Some, max, min, IfOk, IfSome, OnOk, is_some, if◌then◌else◌};
ghost use Rattle.std.specs.BTreeMap.{insert_entry, is_at, values};
ghost use Rattle.std.specs.Map.{lookup};
ghost use Rattle.vx_sched.specs.Reads.{waiting_at};
ghost use Rattle.vx_sched.specs.Span.{end_of};
ghost use Rattle.vx_sched.specs.Merging.{is_before, is_in_order, is_listed, aligned_size, IsTooLong, IsWithinLimit};
ghost use Rattle.vx_sched.specs.Places.{place_cmp, AllFit};
ghost use Rattle.vx_sched.specs.Picks.{ArePlaced, AreUpTo, SamePicks, IsAhead, entries_of, reads_of, IsPicked, PickedMore, IsLookedAt, AreLookedAt, IsClosed, free_at};

use crate::ReadRequest;
use crate::table::Table;
use crate::taken::Taken;
use std::alloc::{AllocError, Global};
use std::collections::BTreeMap;
use vx_base::Alignment;

/// How far apart reads may lie, how long a span may be, and to what its start is aligned.
#[derive(Clone, Copy)]
pub struct Rules {
    pub distance: u64,
    pub limit: Option<u64>,
    pub alignment: Alignment,
}

/// The reads that were picked so far, by offset and number, of which those that came behind all others stand apart;
/// the last of them; the first offset and the greatest end.
#[derive(Drop)]
pub struct Picks {
    pub reads: BTreeMap<(u64, u64), ReadRequest>,
    pub later: Vec<ReadRequest>,
    pub last: ReadRequest,
    pub low: u64,
    pub high: u64,
}

/// The reads that end at `left` or after and begin at `right` or before.
#[derive(Clone, Copy)]
struct Bounds {
    left: u64,
    right: u64,
}

/// Whether one read is listed before another.
pub fn comes_before(a: &ReadRequest, b: &ReadRequest) -> bool
    ensures { result ≡ is_before a.now b.now }
{
    a.offset < b.offset || (a.offset == b.offset && a.id < b.id)
}

/// Whether the range would be longer than the limit with a read.
fn is_too_long(rules: &Rules, low: u64, high: u64, read: &ReadRequest) -> bool
    requires { end_of read.now < 2 ^ 64 }
    ensures long { result ≡ true → IsTooLong rules.now.limit rules.now.alignment low high read.now }
    ensures short { result ≡ false → IsWithinLimit rules.now.limit
        (aligned_size rules.now.alignment (min low read.now.offset) (max high (end_of read.now))) }
{
    let Some(limit) = rules.limit else {
        return false;
    };
    let end = high.max(read.offset + read.length as u64);
    let start = rules.alignment.down(low.min(read.offset));
    end.saturating_sub(start) > limit
}

/// The reads of a map, in order, with room for so many more.
fn values_with_room(
    alloc: Global,
    picked: BTreeMap<(u64, u64), ReadRequest>,
    more: usize,
) -> Result<Vec<ReadRequest>, AllocError>
    ensures { IfOk result (λ v. v.items ≡ values picked) }
{
    let mut reads = Vec::with_capacity(alloc, picked.len().saturating_add(more))?;
    for read in picked.into_values() {
        reads.push(read)?;
    }
    Ok(reads)
}

/// Whether a read comes before others in order.
fn is_ahead(reads: &[ReadRequest], read: &ReadRequest) -> bool
    ensures { result ≡ true → IsAhead reads.now read.now }
{
    match reads.first() {
        Some(first) => comes_before(read, first),
        None => true,
    }
}

impl Picks {
    /// The picks that begin with one read.
    fn first(alloc: Global, read: ReadRequest) -> Result<Picks, AllocError>
        requires { end_of read < 2 ^ 64 }
        ensures reads { IfOk result (λ p. entries_of p ≡ ((read.offset, read.id), read) ∷ []) }
        ensures last { IfOk result (λ p. p.last ≡ read) }
        ensures low { IfOk result (λ p. p.low ≡ read.offset) }
        ensures high { IfOk result (λ p. p.high ≡ end_of read) }
    {
        let low = read.offset;
        let high = low + read.length as u64;
        let last = read;
        let later = Vec::new(alloc);
        let mut reads = BTreeMap::new(alloc);
        reads.insert((low, read.id), read)?;
        Ok(Picks {
            reads,
            later,
            last,
            low,
            high,
        })
    }

    /// The bounds at the distance of the picks.
    fn near(&self, rules: &Rules) -> Bounds
        ensures left { result.left ≡ self.now.low - rules.now.distance }
        ensures right { result.right ≡ min (self.now.high + rules.now.distance) (2 ^ 64 - 1) }
    {
        Bounds {
            left: self.low.saturating_sub(rules.distance),
            right: self.high.saturating_add(rules.distance),
        }
    }

    /// The picked reads, in order.
    pub fn into_reads(self, alloc: Global) -> Result<Vec<ReadRequest>, AllocError>
        ensures { IfOk result (λ v. v.items ≡ reads_of self) }
    {
        let mut reads = values_with_room(alloc, self.reads, self.later.len())?;
        let mut later = self.later;
        reads.append(&mut later)?;
        Ok(reads)
    }

    /// Puts those that stand apart to the others.
    fn gather_all(&mut self) -> Result<(), AllocError>
        requires placed { ArePlaced (entries_of self.old) }
        requires order { is_in_order (reads_of self.old) ≡ true }
        ensures same { OnOk result (SamePicks self.old self.new) }
        ensures none { OnOk result (self.new.later.items ≡ []) }
    {
        for at in 0..self.later.len() {
            let read = self.later[at];
            self.reads.insert((read.offset, read.id), read)?;
        }
        self.later.clear();
        Ok(())
    }

    /// Makes way for a read: none that stands apart comes before it.
    fn make_way(&mut self, read: &ReadRequest) -> Result<(), AllocError>
        requires placed { ArePlaced (entries_of self.old) }
        requires order { is_in_order (reads_of self.old) ≡ true }
        ensures same { OnOk result (SamePicks self.old self.new) }
        ensures ahead { OnOk result (IsAhead self.new.later.items read.now) }
    {
        if is_ahead(self.later.as_slice(), read) {
            return Ok(());
        }
        self.gather_all()?;
        Ok(())
    }

    /// Whether a read was picked.
    fn holds(&mut self, read: &ReadRequest) -> Result<bool, AllocError>
        requires placed { ArePlaced (entries_of self.old) }
        requires order { is_in_order (reads_of self.old) ≡ true }
        requires last { AreUpTo self.old.last (reads_of self.old) }
        ensures same { OnOk result (SamePicks self.old self.new) }
        ensures holds { IfOk result (λ holds. holds
            ≡ is_some (lookup (is_at (place_cmp (read.now.offset, read.now.id))) (entries_of self.old))) }
    {
        if comes_before(&self.last, read) {
            return Ok(false);
        }
        self.make_way(read)?;
        Ok(self.reads.contains_key(&(read.offset, read.id)))
    }

    /// Puts a read that was not picked in its place.
    fn put(&mut self, read: ReadRequest) -> Result<(), AllocError>
        requires placed { ArePlaced (entries_of self.old) }
        requires order { is_in_order (reads_of self.old) ≡ true }
        requires last { AreUpTo self.old.last (reads_of self.old) }
        ensures reads { OnOk result (entries_of self.new
            ≡ insert_entry place_cmp (entries_of self.old) (read.offset, read.id) read) }
        ensures last { OnOk result (self.new.last ≡ (if is_before self.old.last read then read else self.old.last)) }
        ensures low { OnOk result (self.new.low ≡ self.old.low) }
        ensures high { OnOk result (self.new.high ≡ self.old.high) }
    {
        if comes_before(&self.last, &read) {
            self.later.push(read)?;
            self.last = read;
            return Ok(());
        }
        self.make_way(&read)?;
        self.reads.insert((read.offset, read.id), read)?;
        Ok(())
    }

    /// Adds a read.
    fn add(&mut self, read: ReadRequest) -> Result<(), AllocError>
        requires fits { end_of read < 2 ^ 64 }
        requires placed { ArePlaced (entries_of self.old) }
        requires order { is_in_order (reads_of self.old) ≡ true }
        requires last { AreUpTo self.old.last (reads_of self.old) }
        ensures reads { OnOk result (entries_of self.new
            ≡ insert_entry place_cmp (entries_of self.old) (read.offset, read.id) read) }
        ensures last { OnOk result (self.new.last ≡ (if is_before self.old.last read then read else self.old.last)) }
        ensures low { OnOk result (self.new.low ≡ min self.old.low read.offset) }
        ensures high { OnOk result (self.new.high ≡ max self.old.high (end_of read)) }
    {
        let low = self.low.min(read.offset);
        let high = self.high.max(read.offset + read.length as u64);
        self.put(read)?;
        self.low = low;
        self.high = high;
        Ok(())
    }

    /// Looks at a waiting read, and picks it where no earlier span has it, and it lies in the bounds and fits.
    fn look(
        &mut self,
        table: &Table,
        before: &Taken,
        rules: &Rules,
        bounds: Bounds,
        read: ReadRequest,
    ) -> Result<(), AllocError>
        requires waits { waiting_at table.now read.id ≡ Some read }
        requires fits { end_of read < 2 ^ 64 }
        requires picked { IsPicked rules.now table.now before.now self.old }
        requires left { self.old.low ≤ bounds.left + rules.now.distance }
        requires right { bounds.right ≤ self.old.high + rules.now.distance }
        ensures picked { OnOk result (IsPicked rules.now table.now before.now self.new) }
        ensures more { OnOk result (PickedMore self.old self.new) }
        ensures looked { OnOk result (IsLookedAt rules.now table.now before.now bounds.left 0 bounds.right self.new read.id) }
    {
        if before.contains(read.id) {
            return Ok(());
        }
        let end = read.offset + read.length as u64;
        if end < bounds.left || read.offset > bounds.right {
            return Ok(());
        }
        if self.holds(&read)? {
            return Ok(());
        }
        if is_too_long(rules, self.low, self.high, &read) {
            return Ok(());
        }
        self.add(read)?;
        Ok(())
    }
}

/// Looks at the waiting reads in bounds that begin at an offset or after, in order.
fn look_between(
    alloc: Global,
    table: &Table,
    before: &Taken,
    rules: &Rules,
    bounds: Bounds,
    from: u64,
    picks: &mut Picks,
) -> Result<(), AllocError>
    requires picked { IsPicked rules.now table.now before.now picks.old }
    requires left { picks.old.low ≤ bounds.left + rules.now.distance }
    requires right { bounds.right ≤ picks.old.high + rules.now.distance }
    ensures picked { OnOk result (IsPicked rules.now table.now before.now picks.new) }
    ensures more { OnOk result (PickedMore picks.old picks.new) }
    ensures looked { OnOk result (AreLookedAt rules.now table.now before.now bounds.left from bounds.right picks.new) }
    ensures fit { AllFit table.now }
{
    let reads = table.reads_near(alloc, bounds.left, from, bounds.right)?;
    for read in &reads {
        picks.look(table, before, rules, bounds, *read)?;
    }
    Ok(())
}

/// Looks at the waiting reads that end at an offset or after, before bounds whose reads were looked at.
fn look_before(
    alloc: Global,
    table: &Table,
    before: &Taken,
    rules: &Rules,
    left: u64,
    seen: Bounds,
    picks: &mut Picks,
) -> Result<(), AllocError>
    requires picked { IsPicked rules.now table.now before.now picks.old }
    requires seen { AreLookedAt rules.now table.now before.now seen.left 0 seen.right picks.old }
    requires left { picks.old.low ≤ left + rules.now.distance }
    requires right { seen.left ≤ picks.old.high + rules.now.distance }
    ensures picked { OnOk result (IsPicked rules.now table.now before.now picks.new) }
    ensures more { OnOk result (PickedMore picks.old picks.new) }
    ensures looked { OnOk result (AreLookedAt rules.now table.now before.now left 0 seen.right picks.new) }
{
    if left >= seen.left {
        return Ok(());
    }
    let bounds = Bounds {
        left,
        right: seen.left - 1,
    };
    look_between(alloc, table, before, rules, bounds, 0, picks)?;
    Ok(())
}

/// Looks at the waiting reads after bounds whose reads were looked at, up to an offset.
fn look_after(
    alloc: Global,
    table: &Table,
    before: &Taken,
    rules: &Rules,
    seen: Bounds,
    right: u64,
    picks: &mut Picks,
) -> Result<(), AllocError>
    requires picked { IsPicked rules.now table.now before.now picks.old }
    requires seen { AreLookedAt rules.now table.now before.now seen.left 0 seen.right picks.old }
    requires left { picks.old.low ≤ seen.left + rules.now.distance }
    requires right { right ≤ picks.old.high + rules.now.distance }
    ensures picked { OnOk result (IsPicked rules.now table.now before.now picks.new) }
    ensures more { OnOk result (PickedMore picks.old picks.new) }
    ensures looked { OnOk result (AreLookedAt rules.now table.now before.now seen.left 0 right picks.new) }
{
    if right <= seen.right {
        return Ok(());
    }
    let bounds = Bounds {
        left: seen.left,
        right,
    };
    look_between(alloc, table, before, rules, bounds, seen.right + 1, picks)?;
    Ok(())
}

/// Looks at the waiting reads in bounds that were not looked at before, in order.
fn pass(
    alloc: Global,
    table: &Table,
    before: &Taken,
    rules: &Rules,
    seen: Bounds,
    bounds: Bounds,
    picks: &mut Picks,
) -> Result<(), AllocError>
    requires picked { IsPicked rules.now table.now before.now picks.old }
    requires seen { AreLookedAt rules.now table.now before.now seen.left 0 seen.right picks.old }
    requires left { picks.old.low ≤ bounds.left + rules.now.distance }
    requires right { bounds.right ≤ picks.old.high + rules.now.distance }
    requires forward { seen.left ≤ seen.right }
    requires wider { (bounds.left ≤ seen.left) × (seen.right ≤ bounds.right) }
    ensures picked { OnOk result (IsPicked rules.now table.now before.now picks.new) }
    ensures more { OnOk result (PickedMore picks.old picks.new) }
    ensures looked { OnOk result (AreLookedAt rules.now table.now before.now bounds.left 0 bounds.right picks.new) }
{
    look_before(alloc, table, before, rules, bounds.left, seen, picks)?;
    let seen = Bounds {
        left: bounds.left,
        right: seen.right,
    };
    look_after(alloc, table, before, rules, seen, bounds.right, picks)
}

/// Gathers the reads of a span from one on, in passes, until none is near it that fits. Each pass
/// fixes its bounds as it begins. Only memory refuses.
pub fn gather(
    alloc: Global,
    table: &Table,
    before: &Taken,
    rules: &Rules,
    first: ReadRequest,
) -> Result<Picks, AllocError>
    requires free { free_at table.now before.now first.id ≡ Some first }
    requires fits { end_of first < 2 ^ 64 }
    ensures picked { IfOk result (λ p. IsPicked rules.now table.now before.now p) }
    ensures closed { IfOk result (λ p. IsClosed rules.now table.now before.now p) }
    ensures listed { IfOk result (λ p. is_listed (reads_of p) first.id ≡ true) }
{
    let mut picks = Picks::first(alloc, first)?;
    let mut seen = picks.near(rules);
    look_between(alloc, table, before, rules, seen, 0, &mut picks)?;
    loop {
        let bounds = picks.near(rules);
        if bounds.left >= seen.left && bounds.right <= seen.right {
            return Ok(picks);
        }
        pass(alloc, table, before, rules, seen, bounds, &mut picks)?;
        seen = bounds;
    }
}
