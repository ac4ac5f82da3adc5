//! The reads of a table, by number.
//!
//! Whether a read waits and whether it was polled stands in bits beside the slots of the reads. So reads are polled, and
//! those of a span settled, by a few words of bits in place of a slot for each, which would mostly come from far memory.
ghost use Rattle.std.specs.Prelude.{◌≡◌, ℕ, ◌<◌, ◌≤◌, ◌^◌, [], None, Some, cond, false, true, is_some, option_map, IfSome, IfNone, IfOk, OnOk, OnErr};
ghost use Rattle.std.specs.BTreeMap.{insert_entry, is_at};
ghost use Rattle.std.specs.Map.{keys_of};
ghost use Rattle.std.specs.Ordering.{nat_cmp};
ghost use Rattle.vx_sched.specs.Counting.{count_of};
ghost use Rattle.vx_sched.specs.Entries.{entry_at, if_waits, changed, with_stage};
ghost use Rattle.vx_sched.specs.BitSet.{is_raised};
ghost use Rattle.vx_sched.specs.Numbered.{held};
ghost use Rattle.vx_sched.specs.Places.{if_waiting, stays_waiting};
ghost use Rattle.vx_sched.specs.Told.{stage_by, told_read, told, polls_in, stays_polled, leaves};
ghost use Rattle.vx_sched.specs.declared.read.Change.TheVariants as Change;
ghost use Rattle.vx_sched.specs.declared.read.Stage.TheVariants as Stage;

use crate::ReadRequest;
use crate::bit_set::BitSet;
use crate::counts::{Kind, is_read_kind};
use crate::numbered::{Numbered, Slot};
use crate::read::{Change, Read, Stage, stage_after};
use std::alloc::{AllocError, Global};
use std::marker::Model;

/// Reads by number. What a slot says of its read holds where the read does not wait.
#[derive(Drop)]
pub struct ReadMap {
    slots: Numbered<Read>,
    /// The reads that wait.
    waits: BitSet,
    /// Those of them that were polled.
    polls: BitSet,
}

impl Model for ReadMap {
    ghost use Rattle.vx_sched.specs.Entries.{Entries};
    ghost use Rattle.vx_sched.specs.Told.{told, AreTold};

    ghost Value = { Entries };

    ghost view = { λ m. told m.waits m.polls m.slots };

    ghost invariant = { λ m. AreTold m.slots m.waits m.polls };
}

/// The stage of a read, by its bits and by what its slot says.
#[inline(always)]
fn stage_by(waits: bool, polled: bool, stage: Stage) -> Stage
    ensures { result ≡ stage_by waits polled stage }
{
    if polled {
        return Stage::Polled;
    }
    if waits {
        return Stage::Registered;
    }
    match stage {
        Stage::Registered | Stage::Polled => Stage::Resolved,
        _ => stage,
    }
}

/// Whether a read waits in a stage, if it has one.
#[inline(always)]
fn stays_waiting(stage: &Option<Stage>) -> bool
    ensures { result ≡ stays_waiting stage.now }
{
    match stage {
        Some(stage) => stage.is_waiting(),
        None => false,
    }
}

/// Whether a read waits in a stage and was polled, if it has one.
#[inline(always)]
fn stays_polled(stage: &Option<Stage>) -> bool
    ensures { result ≡ stays_polled stage.now }
{
    match stage {
        Some(stage) => stage.is_polled(),
        None => false,
    }
}

/// Gives the slot of a number, which is there, another stage, or empties it.
fn put(slots: &mut Numbered<Read>, id: u64, request: ReadRequest, stage: Option<Stage>)
    requires { is_some (entry_at slots.old id) ≡ true }
    ensures entries { slots.new ≡ with_stage slots.old id request stage }
    ensures lookups { (q : ℕ) → entry_at slots.new q ≡ cond (is_at (nat_cmp id) q)
        (option_map (λ s. record { request = request; stage = s }) stage) (entry_at slots.old q) }
{
    match stage {
        Some(stage) => match slots.put(id, Read::new(request, stage)) {
            Ok(()) => {}
            Err(_) => unreachable!(),
        },
        None => slots.remove(id),
    }
}

/// What a slot and bits tell of a read.
fn told_slot(slot: &Slot<Read>, waits: &BitSet, polls: &BitSet) -> Option<Read>
    ensures { result ≡ option_map (told_read (is_raised waits.now slot.now.number) (is_raised polls.now slot.now.number)) slot.now.value }
{
    match slot.value {
        Some(read) => {
            let stage = stage_by(waits.has(slot.number), polls.has(slot.number), read.stage());
            Some(Read::new(read.request(), stage))
        }
        None => None,
    }
}

/// How many of the reads that slots and bits tell are of a kind.
fn count_told(slots: &[Slot<Read>], waits: &BitSet, polls: &BitSet, kind: Kind) -> usize
    ensures { result ≡ count_of kind (told waits.now polls.now (held slots.now)) }
{
    let mut count = 0;
    for slot in slots {
        if is_read_kind(kind, &told_slot(slot, waits, polls)) {
            count += 1;
        }
    }
    count
}

impl ReadMap {
    /// No read.
    pub fn new(alloc: Global) -> ReadMap
        ensures { result ≡ [] }
    {
        ReadMap {
            slots: Numbered::new(alloc),
            waits: BitSet::new(alloc),
            polls: BitSet::new(alloc),
        }
    }

    /// No read, with room for so many. Only memory refuses.
    pub fn with_room(alloc: Global, count: usize) -> Result<ReadMap, AllocError>
        ensures { IfOk result (λ reads. reads ≡ []) }
    {
        let slots = Numbered::with_room(alloc, count)?;
        Ok(ReadMap {
            slots,
            waits: BitSet::new(alloc),
            polls: BitSet::new(alloc),
        })
    }

    /// The read of a number, if there is one.
    #[inline(always)]
    pub fn get(&self, id: u64) -> Option<Read>
        ensures { result ≡ entry_at self.now id }
    {
        match self.slots.get(id) {
            Some(read) => {
                let stage = stage_by(self.waits.has(id), self.polls.has(id), read.stage());
                Some(Read::new(read.request(), stage))
            }
            None => None,
        }
    }

    /// Whether the read of a number waits.
    #[inline(always)]
    pub fn is_waiting(&self, id: u64) -> bool
        ensures { result ≡ if_waiting (entry_at self.now id) }
    {
        self.waits.has(id)
    }

    /// What the waiting read of a number asks.
    #[inline(always)]
    pub fn waiting(&self, id: u64) -> Option<ReadRequest>
        ensures { result ≡ if_waits (entry_at self.now id) }
    {
        if !self.waits.has(id) {
            return None;
        }
        match self.slots.get(id) {
            Some(read) => Some(read.request()),
            None => None,
        }
    }

    /// The least number from one on whose read waits and was polled.
    #[inline(always)]
    pub fn next_polled(&self, from: u64) -> Option<u64>
        ensures polled { IfSome result (λ n. polls_in (entry_at self.now n) ≡ true) }
        ensures after { IfSome result (λ n. from ≤ n) }
        ensures least { IfSome result (λ n. (q : ℕ) → from ≤ q → q < n → polls_in (entry_at self.now q) ≡ false) }
        ensures none { IfNone result ((q : ℕ) → from ≤ q → polls_in (entry_at self.now q) ≡ false) }
    {
        self.polls.next(from)
    }

    /// The numbers of the reads, in order. Only memory refuses.
    pub fn numbers(&self, alloc: Global) -> Result<Vec<u64>, AllocError>
        ensures { IfOk result (λ numbers. numbers.items ≡ keys_of self.now) }
    {
        let numbers = self.slots.numbers(alloc)?;
        Ok(numbers)
    }

    /// How many reads are of a kind.
    pub fn count(&self, kind: Kind) -> usize
        ensures { result ≡ count_of kind self.now }
    {
        count_told(self.slots.slots(), &self.waits, &self.polls, kind)
    }

    /// Adds a read that waits, under its number. Only memory refuses.
    pub fn add(&mut self, request: ReadRequest) -> Result<(), AllocError>
        requires { entry_at self.old request.id ≡ None }
        ensures entries { OnOk result (self.new ≡ insert_entry nat_cmp self.old request.id
            (record { request = request; stage = Stage.Registered })) }
        ensures kept { OnErr result (self.new ≡ self.old) }
    {
        let id = request.id;
        self.waits.open(id)?;
        self.polls.open(id)?;
        self.slots.put(id, Read::new(request, Stage::Registered))?;
        self.waits.put(id, true);
        Ok(())
    }

    /// Polls the read of a number, if it waits.
    #[inline(always)]
    fn poll(&mut self, id: u64)
        ensures changed { self.new ≡ changed Change.Poll self.old id }
        ensures stays { leaves (entry_at self.old id) (entry_at self.new id) ≡ false }
    {
        if !self.waits.has(id) {
            return;
        }
        self.polls.put(id, true);
    }

    /// Settles the read of a number, if it waits, and says whether it did.
    #[inline(always)]
    fn settle(&mut self, id: u64) -> bool
        ensures changed { self.new ≡ changed Change.Settle self.old id }
        ensures left { result ≡ leaves (entry_at self.old id) (entry_at self.new id) }
    {
        if !self.waits.has(id) {
            return false;
        }
        self.waits.put(id, false);
        self.polls.put(id, false);
        true
    }

    /// Changes the read of a number in its slot, and says whether it waits no longer.
    fn change_slot(&mut self, change: Change, id: u64) -> bool
        ensures changed { self.new ≡ changed change self.old id }
        ensures left { result ≡ leaves (entry_at self.old id) (entry_at self.new id) }
    {
        let Some(read) = self.get(id) else {
            return false;
        };
        let before = read.stage();
        let stage = stage_after(change, before);
        let waits = stays_waiting(&stage);
        let polled = stays_polled(&stage);
        put(&mut self.slots, id, read.request(), stage);
        if !before.is_waiting() {
            return false;
        }
        self.waits.put(id, waits);
        self.polls.put(id, polled);
        !waits
    }

    /// Changes the read of a number, if there is one, and says whether it waits no longer.
    #[inline(always)]
    pub fn change(&mut self, change: Change, id: u64) -> bool
        ensures changed { self.new ≡ changed change self.old id }
        ensures left { result ≡ leaves (entry_at self.old id) (entry_at self.new id) }
    {
        match change {
            Change::Poll => {
                self.poll(id);
                false
            }
            Change::Settle => self.settle(id),
            _ => self.change_slot(change, id),
        }
    }
}
