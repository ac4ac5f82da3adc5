//! The places of the reads that wait.
//!
//! New places are noted as they come, and put in order before a batch looks for them: many with the others in a vector,
//! few in a tree beside it, so that no place is moved often. A read that waits no longer leaves its place behind, until
//! half of the places may be such. The vector keeps what the reads ask, so that those near a span are handed out without
//! a look at their slots: whether each waits is told by bits that lie close together.
ghost use Rattle.std.specs.Prelude.{◌≡◌, ℕ, ◌<◌, ◌≤◌, ◌==◌, ◌||◌, ◌++◌, None, [], true, slice_index_or, not, IfOk, OnOk, OnErr};
ghost use Rattle.std.specs.List.{list_any, filter, All};
ghost use Rattle.std.specs.List.Sorted.{IsNonDecreasingBy, IsPermutation};
ghost use Rattle.vx_sched.specs.Entries.{Entries, entry_at};
ghost use Rattle.vx_sched.specs.Kept.{Has, HaveAll, IsKept, Names};
ghost use Rattle.vx_sched.specs.Merging.{is_listed};
ghost use Rattle.vx_sched.specs.Places.{offset_of, read_offset, has_place, holds_read, if_waiting, waiting_of, AreAsked, AreUpTo, AreApart, IsWaitingRead};
ghost use Rattle.vx_sched.specs.declared.request.ReadRequest.{ReadRequest};

use crate::ReadRequest;
use crate::read_map::ReadMap;
use std::alloc::{AllocError, Global};
use std::collections::{BTreeSet, btree_set};
use std::mem;

/// Offsets and numbers of reads, or nothing where nobody asks for them: some in order, a few that came later, and those
/// that were added since.
#[derive(Drop)]
pub struct Places {
    pub is_kept: bool,
    /// The reads at the places in order.
    pub sorted: Vec<ReadRequest>,
    pub later: BTreeSet<(u64, u64)>,
    pub fresh: Vec<(u64, u64)>,
    /// No read in order has a number above this.
    pub newest: u64,
    /// How many reads left their places.
    pub left: usize,
}

/// How many of the places in order have offsets below this.
fn count_below(places: &[(u64, u64)], offset: u64) -> usize
    requires { IsNonDecreasingBy offset_of places.now }
    ensures { (i : ℕ) (d : ℕ × ℕ) → i < result → (slice_index_or places.now i d).0 < offset }
{
    places.partition_point(|place| place.0 < offset)
}

/// How many of the reads in order have offsets below this.
fn count_before(reads: &[ReadRequest], offset: u64) -> usize
    requires { IsNonDecreasingBy read_offset reads.now }
    ensures { (i : ℕ) (d : ReadRequest) → i < result → (slice_index_or reads.now i d).offset < offset }
{
    reads.partition_point(|read| read.offset < offset)
}

/// The numbers at places in order whose offsets lie in bounds. Only memory refuses.
fn numbers_in(
    alloc: Global,
    places: &[(u64, u64)],
    left: u64,
    right: u64,
) -> Result<Vec<u64>, AllocError>
    requires { IsNonDecreasingBy offset_of places.now }
    ensures { IfOk result (λ ids. (offset id : ℕ) → left ≤ offset → offset ≤ right → has_place places.now (offset, id) ≡ true →
        list_any (λ n. n == id) ids.items ≡ true) }
{
    let mut ids = Vec::new(alloc);
    for at in count_below(places, left)..places.len() {
        let place = places[at];
        if place.0 > right {
            return Ok(ids);
        }
        ids.push(place.1)?;
    }
    Ok(ids)
}

/// Those of the reads in order that wait and whose offsets lie in bounds. Only memory refuses.
fn waiting_in(
    alloc: Global,
    sorted: &[ReadRequest],
    reads: &ReadMap,
    left: u64,
    right: u64,
) -> Result<Vec<ReadRequest>, AllocError>
    requires rise { IsNonDecreasingBy read_offset sorted.now }
    requires asked { AreAsked reads.now sorted.now }
    ensures all { IfOk result (λ found. (offset id : ℕ) → left ≤ offset → offset ≤ right → if_waiting (entry_at reads.now id) ≡ true →
        holds_read sorted.now (offset, id) ≡ true → is_listed found.items id ≡ true) }
    ensures wait { IfOk result (λ found. All (IsWaitingRead reads.now) found.items) }
{
    let mut found = Vec::new(alloc);
    for at in count_before(sorted, left)..sorted.len() {
        let read = sorted[at];
        if read.offset > right {
            return Ok(found);
        }
        if !reads.is_waiting(read.id) {
            continue;
        }
        found.push(read)?;
    }
    Ok(found)
}

/// Those of the reads at places that wait. Nothing else is done as they are looked up, so that the processor fetches
/// several at once. Only memory refuses.
fn waiting_of(
    alloc: Global,
    reads: &ReadMap,
    places: &[(u64, u64)],
) -> Result<Vec<ReadRequest>, AllocError>
    ensures { IfOk result (λ found. found.items ≡ waiting_of reads.now places.now) }
{
    let mut found = Vec::with_capacity(alloc, places.len())?;
    for place in places {
        let Some(request) = reads.waiting(place.1) else {
            continue;
        };
        found.push(request)?;
    }
    Ok(found)
}

/// Takes those that wait no longer out.
fn keep_waiting(sorted: &mut Vec<ReadRequest>, reads: &ReadMap)
    ensures { sorted.new.items ≡ filter (λ r. if_waiting (entry_at reads.now r.id)) sorted.old.items }
{
    sorted.retain(|read| reads.is_waiting(read.id));
}

/// Takes those of a number out.
fn keep_others(sorted: &mut Vec<ReadRequest>, id: u64)
    ensures { sorted.new.items ≡ filter (λ r. not (r.id == id)) sorted.old.items }
{
    sorted.retain(|read| read.id != id);
}

/// The greatest of a number and those of reads.
fn newest_of(reads: &[ReadRequest], newest: u64) -> u64
    ensures least { newest ≤ result }
    ensures all { AreUpTo result reads.now }
{
    let mut greatest = newest;
    for read in reads {
        greatest = greatest.max(read.id);
    }
    greatest
}

/// Puts reads in the order of their places.
fn sort_new(found: &mut Vec<ReadRequest>)
    ensures { IsPermutation found.old.items found.new.items }
{
    found.sort_unstable_by_key(|read| (read.offset, read.id));
}

/// Puts reads in the order of their places, which are few runs in order.
fn sort_reads(reads: &mut Vec<ReadRequest>)
    ensures same { IsPermutation reads.old.items reads.new.items }
    ensures rise { IsNonDecreasingBy read_offset reads.new.items }
{
    match reads.sort_by_key(|read| (read.offset, read.id)) {
        Ok(()) => {}
        Err(_) => reads.sort_unstable_by_key(|read| (read.offset, read.id)),
    }
}

/// Moves reads to others. Only memory refuses, and then those are as before.
fn join(sorted: &mut Vec<ReadRequest>, found: &mut Vec<ReadRequest>) -> Result<(), AllocError>
    ensures all { OnOk result (sorted.new.items ≡ sorted.old.items ++ found.old.items) }
    ensures kept { OnErr result (sorted.new.items ≡ sorted.old.items) }
{
    if sorted.is_empty() {
        mem::swap(sorted, found);
        return Ok(());
    }
    sorted.append(found)?;
    Ok(())
}

/// Puts reads in order among others. Only memory refuses, and then those are as before.
fn merge(sorted: &mut Vec<ReadRequest>, mut found: Vec<ReadRequest>) -> Result<(), AllocError>
    ensures held { OnOk result ((k : ℕ × ℕ) → (holds_read sorted.old.items k || holds_read found.items k) ≡ true → holds_read sorted.new.items k ≡ true) }
    ensures asked { OnOk result ((entries : Entries) → AreAsked entries sorted.old.items → AreAsked entries found.items → AreAsked entries sorted.new.items) }
    ensures newest { OnOk result ((n : ℕ) → AreUpTo n sorted.old.items → AreUpTo n found.items → AreUpTo n sorted.new.items) }
    ensures rise { OnOk result (IsNonDecreasingBy read_offset sorted.new.items) }
    ensures kept { OnErr result (sorted.new.items ≡ sorted.old.items) }
{
    sort_new(&mut found);
    join(sorted, &mut found)?;
    sort_reads(sorted);
    Ok(())
}

/// Adds places to a tree. Only memory refuses.
fn insert_all(later: &mut BTreeSet<(u64, u64)>, places: &[(u64, u64)]) -> Result<(), AllocError>
    ensures kept { (k : ℕ × ℕ) → has_place later.old.keys k ≡ true → has_place later.new.keys k ≡ true }
    ensures all { OnOk result ((k : ℕ × ℕ) → has_place places.now k ≡ true → has_place later.new.keys k ≡ true) }
{
    for place in places {
        later.insert(*place)?;
    }
    Ok(())
}

/// Adds the places of a tree to others. Only memory refuses.
fn add_all(places: &mut Vec<(u64, u64)>, later: &BTreeSet<(u64, u64)>) -> Result<(), AllocError>
    ensures kept { (k : ℕ × ℕ) → has_place places.old.items k ≡ true → has_place places.new.items k ≡ true }
    ensures all { OnOk result ((k : ℕ × ℕ) → has_place later.now.keys k ≡ true → has_place places.new.items k ≡ true) }
{
    for place in later.iter() {
        places.push(*place)?;
    }
    Ok(())
}

/// Puts places in order, which are few runs in order.
fn sort(places: &mut Vec<(u64, u64)>)
    ensures same { (k : ℕ × ℕ) → has_place places.new.items k ≡ has_place places.old.items k }
    ensures rise { IsNonDecreasingBy offset_of places.new.items }
{
    match places.sort() {
        Ok(()) => {}
        Err(_) => places.sort_unstable(),
    }
}

/// The places of a tree whose offsets lie in bounds.
fn between(later: &BTreeSet<(u64, u64)>, left: u64, right: u64) -> btree_set::Range<'_, (u64, u64)>
    requires { left ≤ right }
    ensures { (offset id : ℕ) → left ≤ offset → offset ≤ right → has_place later.now.keys (offset, id) ≡ true → has_place result (offset, id) ≡ true }
{
    match right.checked_add(1) {
        Some(end) => later.range((left, 0)..(end, 0)),
        None => later.range((left, 0)..),
    }
}

/// The places of the reads in order whose offsets lie in bounds. Only memory refuses.
fn places_in(
    alloc: Global,
    sorted: &[ReadRequest],
    left: u64,
    right: u64,
) -> Result<Vec<(u64, u64)>, AllocError>
    requires { IsNonDecreasingBy read_offset sorted.now }
    ensures { IfOk result (λ near. (offset id : ℕ) → left ≤ offset → offset ≤ right → holds_read sorted.now (offset, id) ≡ true →
        has_place near.items (offset, id) ≡ true) }
{
    let mut near = Vec::new(alloc);
    for at in count_before(sorted, left)..sorted.len() {
        let read = sorted[at];
        if read.offset > right {
            return Ok(near);
        }
        near.push((read.offset, read.id))?;
    }
    Ok(near)
}

/// Adds the places of a tree whose offsets lie in bounds. Only memory refuses.
fn add_between(
    near: &mut Vec<(u64, u64)>,
    later: &BTreeSet<(u64, u64)>,
    left: u64,
    right: u64,
) -> Result<(), AllocError>
    ensures kept { OnOk result ((k : ℕ × ℕ) → has_place near.old.items k ≡ true → has_place near.new.items k ≡ true) }
    ensures all { OnOk result ((offset id : ℕ) → left ≤ offset → offset ≤ right → has_place later.now.keys (offset, id) ≡ true →
        has_place near.new.items (offset, id) ≡ true) }
{
    if right < left {
        return Ok(());
    }
    for place in between(later, left, right) {
        near.push(*place)?;
    }
    Ok(())
}

/// Adds places as they came. Only memory refuses.
fn add_fresh(near: &mut Vec<(u64, u64)>, fresh: &[(u64, u64)]) -> Result<(), AllocError>
    ensures { OnOk result ((k : ℕ × ℕ) → has_place near.new.items k ≡ (has_place near.old.items k || has_place fresh.now k)) }
{
    near.extend_from_slice(fresh)?;
    Ok(())
}

impl Places {
    pub fn new(alloc: Global, is_kept: bool) -> Places
        ensures sorted { result.sorted.items ≡ [] }
        ensures later { result.later.keys ≡ [] }
        ensures fresh { result.fresh.items ≡ [] }
    {
        Places {
            is_kept,
            sorted: Vec::new(alloc),
            later: BTreeSet::new(alloc),
            fresh: Vec::new(alloc),
            newest: 0,
            left: 0,
        }
    }

    /// Takes what an older read of a number asked out of the places in order.
    fn forget(&mut self, id: u64)
        ensures kept { (entries : Entries) (longest : ℕ) → IsKept entries self.old longest → entry_at entries id ≡ None →
            IsKept entries self.new longest }
        ensures apart { (entries : Entries) (longest : ℕ) → IsKept entries self.old longest → AreApart id self.new.sorted.items }
    {
        if id > self.newest {
            return;
        }
        keep_others(&mut self.sorted, id);
    }

    /// Notes a place at the end. Only memory refuses.
    fn note(&mut self, place: (u64, u64)) -> Result<(), AllocError>
        ensures added { OnOk result (Has self.new place) }
        ensures all { HaveAll self.old self.new }
    {
        if !self.is_kept {
            return Ok(());
        }
        self.fresh.push(place)?;
        Ok(())
    }

    /// Adds the place of a read, whose number no other read has. Only memory refuses.
    pub fn insert(&mut self, place: (u64, u64)) -> Result<(), AllocError>
        ensures added { OnOk result (Has self.new place) }
        ensures kept { (entries : Entries) (longest : ℕ) → IsKept entries self.old longest → entry_at entries place.1 ≡ None →
            IsKept entries self.new longest }
        ensures apart { (entries : Entries) (longest : ℕ) → IsKept entries self.old longest → AreApart place.1 self.new.sorted.items }
    {
        self.forget(place.1);
        self.note(place)?;
        Ok(())
    }

    /// A read leaves its place.
    pub fn leave(&mut self)
        ensures all { HaveAll self.old self.new }
    {
        self.left = self.left.saturating_add(1);
    }

    /// Whether few places came since most were put in order.
    fn is_few(&self) -> bool {
        self.later.len() < self.sorted.len() / 8 && self.fresh.len() < self.sorted.len() / 8
    }

    /// Puts the places that were added into the tree. Only memory refuses.
    fn arrange_few(&mut self) -> Result<(), AllocError>
        ensures { HaveAll self.old self.new }
    {
        insert_all(&mut self.later, self.fresh.as_slice())?;
        self.fresh.clear();
        Ok(())
    }

    /// Puts all places in order in one vector. Only memory refuses.
    fn arrange_all(&mut self, reads: &ReadMap) -> Result<(), AllocError>
        ensures { (longest : ℕ) → IsKept reads.now self.old longest → IsKept reads.now self.new longest }
    {
        let alloc = *self.fresh.allocator();
        add_all(&mut self.fresh, &self.later)?;
        let found = waiting_of(alloc, reads, self.fresh.as_slice())?;
        let newest = newest_of(found.as_slice(), self.newest);
        merge(&mut self.sorted, found)?;
        self.newest = newest;
        self.fresh = Vec::new(alloc);
        self.later.clear();
        Ok(())
    }

    /// Takes the places in order of reads that wait no longer out.
    fn clear(&mut self, reads: &ReadMap)
        ensures { (longest : ℕ) → IsKept reads.now self.old longest → IsKept reads.now self.new longest }
    {
        keep_waiting(&mut self.sorted, reads);
        self.left = 0;
    }

    /// Puts the places in order. Only memory refuses.
    pub fn arrange(&mut self, reads: &ReadMap) -> Result<(), AllocError>
        ensures { (longest : ℕ) → IsKept reads.now self.old longest → IsKept reads.now self.new longest }
    {
        if self.left > 64 + self.sorted.len() / 2 {
            self.clear(reads);
            return self.arrange_all(reads);
        }
        if self.fresh.is_empty() {
            return Ok(());
        }
        if self.is_few() {
            return self.arrange_few();
        }
        self.arrange_all(reads)
    }

    /// Whether all places are kept, and in order.
    #[inline(always)]
    pub fn are_in_order(&self) -> bool
        ensures { result ≡ true → (place : ℕ × ℕ) → Has self.now place → holds_read self.now.sorted.items place ≡ true }
    {
        self.is_kept && self.later.is_empty() && self.fresh.is_empty()
    }

    /// The waiting reads whose offsets lie in bounds, in order of their places, where all places are in order. Only
    /// memory refuses.
    pub fn waiting_between(
        &self,
        alloc: Global,
        reads: &ReadMap,
        left: u64,
        right: u64,
    ) -> Result<Vec<ReadRequest>, AllocError>
        requires rise { IsNonDecreasingBy read_offset self.now.sorted.items }
        requires asked { AreAsked reads.now self.now.sorted.items }
        ensures all { IfOk result (λ found. (offset id : ℕ) → left ≤ offset → offset ≤ right → if_waiting (entry_at reads.now id) ≡ true →
            holds_read self.now.sorted.items (offset, id) ≡ true → is_listed found.items id ≡ true) }
        ensures wait { IfOk result (λ found. All (IsWaitingRead reads.now) found.items) }
    {
        let found = waiting_in(alloc, self.sorted.as_slice(), reads, left, right)?;
        Ok(found)
    }

    /// All places whose offsets lie in bounds, in order, and perhaps others. Only memory refuses.
    fn near(&self, alloc: Global, left: u64, right: u64) -> Result<Vec<(u64, u64)>, AllocError>
        requires { IsNonDecreasingBy read_offset self.now.sorted.items }
        ensures rise { IfOk result (λ near. IsNonDecreasingBy offset_of near.items) }
        ensures all { IfOk result (λ near. self.now.is_kept ≡ true → (offset id : ℕ) → left ≤ offset → offset ≤ right → Has self.now (offset, id) →
            has_place near.items (offset, id) ≡ true) }
    {
        let mut near = places_in(alloc, self.sorted.as_slice(), left, right)?;
        add_between(&mut near, &self.later, left, right)?;
        add_fresh(&mut near, self.fresh.as_slice())?;
        sort(&mut near);
        Ok(near)
    }

    /// The numbers at the places whose offsets lie in bounds, in order. Only memory refuses.
    pub fn numbers_between(
        &self,
        alloc: Global,
        left: u64,
        right: u64,
    ) -> Result<Vec<u64>, AllocError>
        requires { IsNonDecreasingBy read_offset self.now.sorted.items }
        ensures { IfOk result (λ ids. self.now.is_kept ≡ true → Names self.now left right ids.items) }
    {
        let near = self.near(alloc, left, right)?;
        let ids = numbers_in(alloc, near.as_slice(), left, right)?;
        Ok(ids)
    }
}
