//! The reads of a scheduler, by number, and the places of those that wait.
ghost use Rattle.std.specs.Prelude.{◌≡◌, ℕ, ◌==◌, ◌<◌, ◌≤◌, ◌++◌, ◌∷◌, length, IfOk, ◌^◌, [], None, Some, true, false, ◌&&◌, not, IfSome, IfNone, OnOk, OnErr, option_map};
ghost use Rattle.std.specs.BTreeMap.{insert_entry};
ghost use Rattle.std.specs.Map.{keys_of};
ghost use Rattle.std.specs.List.Sorted.{IsNonDecreasingBy};
ghost use Rattle.std.specs.List.{AllByRecursion, All};
ghost use Rattle.vx_sched.specs.declared.request.ReadRequest.{ReadRequest};
ghost use Rattle.vx_sched.specs.Stored.{Read};
ghost use Rattle.std.specs.Ordering.{nat_cmp};
ghost use Rattle.vx_sched.specs.Span.{end_of};
ghost use Rattle.vx_sched.specs.Entries.{entry_at, if_waits, waiting_among, state_of, changed, all_changed};
ghost use Rattle.vx_sched.specs.Reads.{read_at, waiting_at, polled_at, state_at, leads_at, change, register_read, poll_read, drop_read, take_read, resolve_read};
ghost use Rattle.vx_sched.specs.Merging.{is_listed, is_in_order, first_number};
ghost use Rattle.vx_sched.specs.Kept.{Has, IsKept, Names};
ghost use Rattle.vx_sched.specs.Picks.{is_among};
ghost use Rattle.vx_sched.specs.Places.{AllFit, AreAsked, AreApart, IsWaitingRead, read_offset};
ghost use Rattle.vx_sched.specs.Counting.{counts_of};
ghost use Rattle.vx_sched.specs.Scheduling.{NonePolled, IsSomePolled};
ghost use Rattle.vx_sched.specs.Told.{polls_in};
ghost use Rattle.vx_sched.specs.declared.read.Stage.TheVariants as Stage;

use crate::ReadRequest;
use crate::counts::{Counts, Kind};
use crate::flying::{all_fly, is_ordered};
use crate::places::Places;
use crate::read::{Change, Read, ReadState};
use crate::read_map::ReadMap;
use crate::taken::Taken;
use std::alloc::{AllocError, Global};
use std::marker::Model;

/// The reads by number, and the places of those that wait.
#[derive(Drop)]
pub struct Table {
    reads: ReadMap,
    places: Places,
    /// No read is longer than this.
    longest: u64,
}

impl Model for Table {
    ghost use Rattle.vx_sched.specs.Reads.{Reads};
    ghost use Rattle.vx_sched.specs.Entries.{seen};
    ghost use Rattle.vx_sched.specs.Kept.{IsTable};

    ghost Value = { Reads };

    ghost view = { λ t. seen t.reads };

    ghost invariant = { λ t. IsTable t.reads t.places t.longest };
}

/// Adds a read and its place. Without memory the reads are as before.
fn add(reads: &mut ReadMap, places: &mut Places, request: ReadRequest) -> Result<(), AllocError>
    requires { entry_at reads.old request.id ≡ None }
    ensures entries { OnOk result (reads.new ≡ insert_entry nat_cmp reads.old request.id
        (record { request = request; stage = Stage.Registered })) }
    ensures place { OnOk result (Has places.new (request.offset, request.id)) }
    ensures places { (longest : ℕ) → IsKept reads.old places.old longest → IsKept reads.old places.new longest }
    ensures apart { (longest : ℕ) → IsKept reads.old places.old longest → AreApart request.id places.new.sorted.items }
    ensures kept { OnErr result (reads.new ≡ reads.old) }
{
    places.insert((request.offset, request.id))?;
    reads.add(request)?;
    Ok(())
}

/// The polled number from one on that is least and not among some.
fn next_of(reads: &ReadMap, from: u64, taken: &Taken) -> Option<u64>
    ensures polled { IfSome result (λ n. polls_in (entry_at reads.now n) ≡ true) }
    ensures fresh { IfSome result (λ n. is_among taken.now n ≡ false) }
    ensures least { IfSome result (λ n. (q : ℕ) → from ≤ q → q < n → polls_in (entry_at reads.now q) ≡ true →
        is_among taken.now q ≡ true) }
    ensures none { IfNone result ((q : ℕ) → from ≤ q → q < 2 ^ 64 → polls_in (entry_at reads.now q) ≡ true →
        is_among taken.now q ≡ true) }
{
    let mut at = from;
    loop {
        let Some(number) = reads.next_polled(at) else {
            return None;
        };
        if !taken.contains(number) {
            return Some(number);
        }
        if number == u64::MAX {
            return None;
        }
        at = number + 1;
    }
}

/// Those of the reads of numbers that wait. Nothing else is done as they are looked up, so that the processor
/// fetches several at once.
fn waiting_among(
    alloc: Global,
    reads: &ReadMap,
    ids: &[u64],
) -> Result<Vec<ReadRequest>, AllocError>
    ensures { IfOk result (λ v. v.items ≡ waiting_among reads.now ids.now) }
{
    let mut found = Vec::with_capacity(alloc, ids.len())?;
    for id in ids {
        let Some(request) = reads.waiting(*id) else {
            continue;
        };
        found.push(request)?;
    }
    Ok(found)
}

/// The numbers of the reads at places whose offsets lie in bounds, in order, or of all reads where no places are
/// kept. Only memory refuses.
fn numbers_near(
    alloc: Global,
    reads: &ReadMap,
    places: &Places,
    left: u64,
    right: u64,
) -> Result<Vec<u64>, AllocError>
    requires { IsNonDecreasingBy read_offset places.now.sorted.items }
    ensures near { IfOk result (λ ids. places.now.is_kept ≡ true → Names places.now left right ids.items) }
    ensures all { IfOk result (λ ids. places.now.is_kept ≡ false → ids.items ≡ keys_of reads.now) }
{
    if places.is_kept {
        let ids = places.numbers_between(alloc, left, right)?;
        return Ok(ids);
    }
    let ids = reads.numbers(alloc)?;
    Ok(ids)
}

/// The waiting reads whose offsets lie in bounds, in order of offset and number, and perhaps others that wait. Only
/// memory refuses.
fn reads_between(
    alloc: Global,
    reads: &ReadMap,
    places: &Places,
    left: u64,
    right: u64,
) -> Result<Vec<ReadRequest>, AllocError>
    requires rise { IsNonDecreasingBy read_offset places.now.sorted.items }
    requires asked { AreAsked reads.now places.now.sorted.items }
    ensures all { IfOk result (λ found. (longest : ℕ) → IsKept reads.now places.now longest →
        (id : ℕ) (r : ReadRequest) → if_waits (entry_at reads.now id) ≡ Some r → left ≤ r.offset → r.offset ≤ right → is_listed found.items id ≡ true) }
    ensures wait { IfOk result (λ found. (longest : ℕ) → IsKept reads.now places.now longest → All (IsWaitingRead reads.now) found.items) }
{
    if places.are_in_order() {
        let found = places.waiting_between(alloc, reads, left, right)?;
        return Ok(found);
    }
    let ids = numbers_near(alloc, reads, places, left, right)?;
    let found = waiting_among(alloc, reads, &ids)?;
    Ok(found)
}

/// The state of an entry.
fn if_state(found: Option<Read>) -> Option<ReadState>
    ensures { result ≡ option_map (λ (x : Read). state_of x.stage) found }
{
    match found {
        Some(read) => Some(read.stage().state()),
        None => None,
    }
}

/// Changes the read of a number, if there is one.
#[inline(always)]
fn change_entry(reads: &mut ReadMap, places: &mut Places, id: u64, change: Change)
    ensures changed { reads.new ≡ changed change reads.old id }
    ensures kept { (longest : ℕ) → IsKept reads.old places.old longest → IsKept reads.new places.new longest }
{
    if reads.change(change, id) {
        places.leave();
    }
}

/// Changes several reads.
fn change_entries(reads: &mut ReadMap, places: &mut Places, change: Change, span: &[ReadRequest])
    ensures changed { reads.new ≡ all_changed change reads.old span.now }
    ensures kept { (longest : ℕ) → IsKept reads.old places.old longest → IsKept reads.new places.new longest }
{
    for read in span {
        change_entry(reads, places, read.id, change);
    }
}

/// The number of the first read.
fn number_of(span: &[ReadRequest]) -> u64
    ensures { result ≡ first_number span.now }
{
    match span.first() {
        Some(first) => first.id,
        None => 0,
    }
}

impl Table {
    /// A table without reads. What reads lie near a range is found fast only where places are kept.
    pub fn new(alloc: Global, keeps_places: bool) -> Table
        ensures { result ≡ [] }
    {
        Table {
            reads: ReadMap::new(alloc),
            places: Places::new(alloc, keeps_places),
            longest: 0,
        }
    }

    /// A table without reads, with room for so many. Only memory refuses.
    pub fn with_room(alloc: Global, keeps_places: bool, count: usize) -> Result<Table, AllocError>
        ensures { IfOk result (λ table. table ≡ []) }
    {
        let reads = ReadMap::with_room(alloc, count)?;
        Ok(Table {
            reads,
            places: Places::new(alloc, keeps_places),
            longest: 0,
        })
    }

    /// Where the read of a number stands.
    pub fn state(&self, id: u64) -> Option<ReadState>
        ensures { result ≡ state_at self.now id }
    {
        let found = self.reads.get(id);
        if_state(found)
    }

    /// The waiting read of a number.
    pub fn waiting(&self, id: u64) -> Option<ReadRequest>
        ensures value { result ≡ waiting_at self.now id }
        ensures keyed { IfSome result (λ r. (r.id ≡ id) × (end_of r < 2 ^ 64)) }
    {
        self.reads.waiting(id)
    }

    /// Whether a read is polled.
    pub fn has_polled(&self) -> bool
        ensures some { result ≡ true → IsSomePolled self.now }
        ensures none { result ≡ false → NonePolled self.now }
    {
        match self.reads.next_polled(0) {
            Some(_number) => true,
            None => false,
        }
    }

    /// The polled read of least number, from a number on, that is not among some.
    pub fn next_polled(&self, from: u64, taken: &Taken) -> Option<ReadRequest>
        ensures found { IfSome result (λ r. waiting_at self.now r.id ≡ Some r) }
        ensures polled { IfSome result (λ r. polled_at self.now r.id ≡ true) }
        ensures fresh { IfSome result (λ r. is_among taken.now r.id ≡ false) }
        ensures fits { IfSome result (λ r. end_of r < 2 ^ 64) }
        ensures least { IfSome result (λ r. (q : ℕ) → from ≤ q → q < r.id → polled_at self.now q ≡ true →
            is_among taken.now q ≡ true) }
        ensures none { IfNone result ((q : ℕ) → from ≤ q → polled_at self.now q ≡ true →
            is_among taken.now q ≡ true) }
    {
        match next_of(&self.reads, from, taken) {
            Some(id) => self.waiting(id),
            None => None,
        }
    }

    /// Waiting reads, in order of offset and number, all those among them that end at `left` or after and begin
    /// from `from` to `right`. Since no read is longer than the longest, few others are. Only memory refuses.
    pub fn reads_near(
        &self,
        alloc: Global,
        left: u64,
        from: u64,
        right: u64,
    ) -> Result<Vec<ReadRequest>, AllocError>
        ensures complete { IfOk result (λ reads. (id : ℕ) (r : ReadRequest) → waiting_at self.now id ≡ Some r →
            left ≤ end_of r → from ≤ r.offset → r.offset ≤ right → is_listed reads.items id ≡ true) }
        ensures waits { IfOk result (λ reads. AllByRecursion (λ r. waiting_at self.now r.id ≡ Some r) reads.items) }
        ensures fit { AllFit self.now }
    {
        let first = from.max(left.saturating_sub(self.longest));
        if first > right {
            return Ok(Vec::new(alloc));
        }
        let reads = reads_between(alloc, &self.reads, &self.places, first, right)?;
        Ok(reads)
    }

    /// How many reads there are of each kind.
    pub fn counts(&self) -> Counts
        ensures { result ≡ counts_of self.now }
    {
        Counts {
            registered: self.reads.count(Kind::IsRegistered),
            polled: self.reads.count(Kind::IsPolled),
            in_flight: self.reads.count(Kind::IsFlying),
            resolved: self.reads.count(Kind::IsResolved),
            ranges: self.reads.count(Kind::Leads),
        }
    }

    /// Registers a read whose number is above all others. Only memory refuses.
    pub fn register(&mut self, request: ReadRequest) -> Result<(), AllocError>
        requires fresh { (q : ℕ) → request.id ≤ q → read_at self.old q ≡ None }
        requires fits { end_of request < 2 ^ 64 }
        ensures registered { OnOk result (self.new ≡ self.old ++ register_read request ∷ []) }
        ensures kept { OnErr result (self.new ≡ self.old) }
    {
        let longest = self.longest.max(request.length as u64);
        add(&mut self.reads, &mut self.places, request)?;
        self.longest = longest;
        Ok(())
    }

    /// Puts the places of the reads in order, as `reads_near` wants them. Only memory refuses.
    pub fn arrange(&mut self) -> Result<(), AllocError>
        ensures { self.new ≡ self.old }
    {
        self.places.arrange(&self.reads)?;
        Ok(())
    }

    /// Polls the read of a number, if it is registered.
    pub fn poll(&mut self, id: u64)
        ensures { self.new ≡ change (λ n. n == id) poll_read self.old }
    {
        change_entry(&mut self.reads, &mut self.places, id, Change::Poll);
    }

    /// Takes the read of a number out, or marks it where it is in flight.
    pub fn cancel(&mut self, id: u64)
        ensures { self.new ≡ change (λ n. n == id) drop_read self.old }
    {
        change_entry(&mut self.reads, &mut self.places, id, Change::Cancel);
    }

    /// Puts waiting reads in flight in one span.
    pub fn take(&mut self, span: &[ReadRequest])
        requires some { 1 ≤ length span.now }
        requires order { is_in_order span.now ≡ true }
        requires waits { AllByRecursion (λ r. waiting_at self.old r.id ≡ Some r) span.now }
        ensures { self.new ≡ change (is_listed span.now) (take_read span.now) self.old }
    {
        let change = Change::Take {
            span: number_of(span),
            size: span.len(),
        };
        change_entries(&mut self.reads, &mut self.places, change, span);
    }

    /// Resolves the reads of a span in flight; those that were dropped are gone.
    pub fn resolve(&mut self, span: &[ReadRequest])
        requires some { 1 ≤ length span.now }
        requires flies { leads_at self.old (first_number span.now) ≡ span.now }
        ensures { self.new ≡ change (is_listed span.now) resolve_read self.old }
    {
        change_entries(&mut self.reads, &mut self.places, Change::Resolve, span);
    }

    /// Takes waiting reads in one span and resolves them.
    pub fn settle(&mut self, span: &[ReadRequest])
        requires { AllByRecursion (λ r. waiting_at self.old r.id ≡ Some r) span.now }
        ensures { self.new ≡ change (is_listed span.now) resolve_read (change (is_listed span.now) (take_read span.now) self.old) }
    {
        change_entries(&mut self.reads, &mut self.places, Change::Settle, span);
    }

    /// Whether reads are those of a span in flight.
    pub fn is_in_flight(&self, span: &[ReadRequest]) -> bool
        requires some { 1 ≤ length span.now }
        ensures flies { result ≡ true → leads_at self.now (first_number span.now) ≡ span.now }
        ensures rests { result ≡ false → leads_at self.now (first_number span.now) ≡ span.now → ⊥ }
    {
        is_ordered(span) && all_fly(&self.reads, number_of(span), span.len(), span)
    }
}
