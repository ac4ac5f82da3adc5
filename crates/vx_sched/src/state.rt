//! The scheduler's state.
ghost use Rattle.std.specs.Prelude.{◌≡◌, ℕ, ◌+◌, ◌<◌, ◌≤◌, ◌==◌, ◌^◌, [], ◌∷◌, true, false, cond, length, IfOk, IfSome, IfNone, option_map, is_some, None, Some, IsOk, OnOk, OnErr};
ghost use Rattle.vx_sched.specs.Reads.{read_at, waiting_at, polled_at, state_at, ranges_in_flight};
ghost use Rattle.vx_sched.specs.Span.{Span, end_of};
ghost use Rattle.vx_sched.specs.Merging.{raised, Merges, is_listed, same_span};
ghost use Rattle.vx_sched.specs.Picks.{free_at};
ghost use Rattle.vx_sched.specs.Counting.{counts_of, count_in};
ghost use Rattle.vx_sched.specs.Law.{IsSound};
ghost use Rattle.vx_sched.specs.Scheduling.{SameSettings, span_at, IsInFlight, AllInFlight, AreApart, MayHappen, stepped, requested, polled, dropped, takes_no_memory, MayTake, MergesNow, MergesInTurn, NonePolled, IsSomePolled, taken, all_taken, resolved, all_resolved, settled};
ghost use Rattle.vx_sched.specs.Chain.{waiting_after, polled_after, IsLeft};
ghost use Rattle.vx_sched.specs.declared.read.ReadState.TheVariants.{Polled};

use crate::batching::{gathered, lone};
use crate::flying::greatest_end_of;
use crate::gather::Rules;
use crate::read::ReadState;
use crate::table::Table;
use crate::taken::Taken;
use crate::{CoalescedRequest, Counts, ReadEvent, ReadRequest};
use std::alloc::{AllocError, Global};
use std::marker::Model;
use vx_base::Alignment;

/// For at most so many spans of a batch room is made at once.
const FEW: usize = 64;

/// Reads that are registered, polled, in flight and resolved, and how they are gathered.
#[derive(Drop)]
pub struct State {
    gap: Option<u64>,
    longest: Option<u64>,
    aligned: Alignment,
    most: usize,
    table: Table,
    last: Option<u64>,
}

impl Model for State {
    ghost use Rattle.std.specs.Prelude.{ℕ, ◌+◌, ◌≤◌};
    ghost use Rattle.std.specs.Option.{option_map_or};
    ghost use Rattle.vx_sched.specs.Scheduling.{Scheduler};
    ghost use Rattle.vx_sched.specs.Law.{IsSound};

    ghost Value = { Scheduler };

    ghost view = { λ s. record {
      distance = s.gap;
      limit = s.longest;
      alignment = s.aligned;
      concurrency = s.most;
      reads = s.table;
      next = option_map_or (λ n. n + 1) s.last 0;
    } };

    ghost invariant = { λ s. (1 ≤ s.most) × IsSound (record {
      distance = s.gap;
      limit = s.longest;
      alignment = s.aligned;
      concurrency = s.most;
      reads = s.table;
      next = option_map_or (λ n. n + 1) s.last 0;
    }) };
}

impl State {
    /// A scheduler without reads. Without a distance reads are not gathered, and without a greatest size
    /// spans have no limit. The limit gets room for the start to be aligned down.
    pub fn new(
        alloc: Global,
        distance: Option<u64>,
        max_read_size: Option<u64>,
        alignment: Alignment,
        concurrency: usize,
    ) -> State
        requires { 1 ≤ concurrency }
        ensures value { result ≡ record {
          distance = distance;
          limit = option_map (raised alignment) max_read_size;
          alignment = alignment;
          concurrency = concurrency;
          reads = [];
          next = 0;
        } }
        ensures rests { ranges_in_flight result.reads ≡ 0 }
    {
        State {
            gap: distance,
            longest: raise(max_read_size, alignment),
            aligned: alignment,
            most: concurrency,
            table: Table::new(alloc, distance.is_some()),
            last: None,
        }
    }

    /// The same, with room for so many reads. Only memory refuses.
    pub fn with_room(
        alloc: Global,
        distance: Option<u64>,
        max_read_size: Option<u64>,
        alignment: Alignment,
        concurrency: usize,
        count: usize,
    ) -> Result<State, AllocError>
        requires { 1 ≤ concurrency }
        ensures value { IfOk result (λ state. state ≡ record {
          distance = distance;
          limit = option_map (raised alignment) max_read_size;
          alignment = alignment;
          concurrency = concurrency;
          reads = [];
          next = 0;
        }) }
        ensures rests { IfOk result (λ state. ranges_in_flight state.reads ≡ 0) }
    {
        Ok(State {
            gap: distance,
            longest: raise(max_read_size, alignment),
            aligned: alignment,
            most: concurrency,
            table: Table::with_room(alloc, distance.is_some(), count)?,
            last: None,
        })
    }

    /// What a caller does. Only a new read takes memory.
    #[inline(always)]
    pub fn on_event(&mut self, event: ReadEvent) -> Result<(), AllocError>
        requires { MayHappen self.old event }
        ensures step { OnOk result (self.new ≡ stepped self.old event) }
        ensures kept { OnErr result (self.new ≡ self.old) }
        ensures sure { takes_no_memory event ≡ true → IsOk result }
        ensures waiting { OnOk result ((q : ℕ) → waiting_at self.new.reads q ≡ waiting_after event (waiting_at self.old.reads) q) }
        ensures polled { OnOk result ((q : ℕ) → polled_at self.new.reads q
            ≡ polled_after event (waiting_at self.old.reads) (polled_at self.old.reads) q) }
        ensures settings { SameSettings self.old self.new }
        ensures ranges { ranges_in_flight self.new.reads ≤ ranges_in_flight self.old.reads }
    {
        prove!(self.concurrency() >= 1);
        match event {
            ReadEvent::Request(request) => {
                self.request(request)?;
                Ok(())
            }
            ReadEvent::Polled(id) => {
                self.poll(id);
                Ok(())
            }
            ReadEvent::Dropped(id) => {
                self.cancel(id);
                Ok(())
            }
        }
    }

    /// Registers a read. Only memory refuses.
    fn request(&mut self, request: ReadRequest) -> Result<(), AllocError>
        requires next { self.old.next ≤ request.id }
        requires fits { end_of request < 2 ^ 64 }
        ensures step { OnOk result (self.new ≡ requested self.old request) }
        ensures kept { OnErr result (self.new ≡ self.old) }
    {
        let id = request.id;
        self.table.register(request)?;
        self.last = Some(id);
        Ok(())
    }

    /// Polls the read of a number.
    fn poll(&mut self, id: u64)
        ensures { self.new ≡ polled self.old id }
    {
        self.table.poll(id);
    }

    /// Drops the read of a number.
    fn cancel(&mut self, id: u64)
        ensures { self.new ≡ dropped self.old id }
    {
        self.table.cancel(id);
    }

    /// Makes ready for a batch: one that comes after this call finds the reads near a span fast. Only memory refuses.
    pub fn arrange(&mut self) -> Result<(), AllocError>
        ensures { self.new ≡ self.old }
    {
        self.table.arrange()?;
        Ok(())
    }

    /// The span of the next read, from what earlier spans leave.
    fn gather_from(
        &self,
        alloc: Global,
        before: &Taken,
        first: ReadRequest,
    ) -> Result<CoalescedRequest, AllocError>
        requires free { free_at self.now.reads before.now first.id ≡ Some first }
        requires fits { end_of first < 2 ^ 64 }
        ensures { IfOk result (λ span. Merges self.now.distance self.now.limit self.now.alignment
            (free_at self.now.reads before.now) first.id span) }
    {
        let Some(distance) = self.gap else {
            return lone(alloc, first);
        };
        let rules = Rules {
            distance,
            limit: self.longest,
            alignment: self.aligned,
        };
        gathered(alloc, &self.table, before, &rules, first)
    }

    /// The spans that are to be asked next, at most so many, each of which merges from what the
    /// earlier ones leave. There are fewer only where no polled read is left. Only memory refuses.
    pub fn batch(&self, alloc: Global, most: usize) -> Result<Vec<CoalescedRequest>, AllocError>
        ensures merge { IfOk result (λ spans. MergesInTurn self.now spans.items) }
        ensures most { IfOk result (λ spans. length spans.items ≤ most) }
        ensures all { IfOk result (λ spans. length spans.items < most → NonePolled (all_taken self.now spans.items).reads) }
        ensures may { IfOk result (λ spans. ranges_in_flight self.now.reads + most ≤ self.now.concurrency →
            1 ≤ length spans.items → MayTake self.now spans.items) }
        ensures ranges { IfOk result (λ spans. ranges_in_flight (all_taken self.now spans.items).reads
            ≡ ranges_in_flight self.now.reads + length spans.items) }
        ensures apart { IfOk result (λ spans. AreApart spans.items) }
    {
        let mut spans = Vec::with_capacity(alloc, most.min(FEW))?;
        let mut before = Taken::new(alloc);
        let mut from = 0;
        for _ in 0..most {
            let Some(first) = self.table.next_polled(from, &before) else {
                return Ok(spans);
            };
            let next = first.id;
            let span = self.gather_from(alloc, &before, first)?;
            before.add(alloc, span.requests())?;
            spans.push(span)?;
            from = next.saturating_add(1);
        }
        Ok(spans)
    }

    /// Puts the reads of a span in flight.
    fn take_one(&mut self, span: &CoalescedRequest)
        requires { MergesNow self.old span.now }
        ensures value { self.new ≡ taken self.old span.now }
        ensures flies { IsInFlight self.new span.now }
        ensures ranges { ranges_in_flight self.new.reads ≡ ranges_in_flight self.old.reads + 1 }
        ensures may { ranges_in_flight self.old.reads < self.old.concurrency → MayTake self.old (span.now ∷ []) }
        ensures fewer { count_in Polled self.new.reads < count_in Polled self.old.reads }
    {
        self.table.take(span.requests());
    }

    /// Puts the reads of a batch in flight.
    pub fn take(&mut self, batch: &[CoalescedRequest])
        requires { MayTake self.old batch.now }
        ensures value { self.new ≡ all_taken self.old batch.now }
        ensures flies { AllInFlight self.new batch.now }
        ensures apart { AreApart batch.now }
        ensures ranges { ranges_in_flight self.new.reads ≡ ranges_in_flight self.old.reads + length batch.now }
        ensures fewer { count_in Polled self.new.reads < count_in Polled self.old.reads }
        ensures settings { SameSettings self.old self.new }
    {
        prove!(self.concurrency() >= 1);
        for span in batch {
            self.take_one(span);
        }
    }

    /// Resolves the reads of a span in flight; those that were dropped are gone.
    pub fn resolve(&mut self, range: &CoalescedRequest)
        requires { IsInFlight self.old range.now }
        ensures value { self.new ≡ resolved self.old range.now }
        ensures waiting { (q : ℕ) → waiting_at self.new.reads q ≡ waiting_at self.old.reads q }
        ensures polled { (q : ℕ) → polled_at self.new.reads q ≡ polled_at self.old.reads q }
        ensures ranges { ranges_in_flight self.old.reads ≡ ranges_in_flight self.new.reads + 1 }
    {
        self.table.resolve(range.requests());
    }

    /// Takes a batch and resolves each of its spans, as a caller with one thread does.
    pub fn settle(&mut self, batch: &[CoalescedRequest])
        requires { MayTake self.old batch.now }
        ensures value { self.new ≡ settled self.old batch.now }
        ensures waiting { (q : ℕ) → waiting_at self.new.reads q ≡ waiting_at (all_taken self.old batch.now).reads q }
        ensures polled { (q : ℕ) → polled_at self.new.reads q ≡ polled_at (all_taken self.old batch.now).reads q }
        ensures ranges { ranges_in_flight self.new.reads ≡ ranges_in_flight self.old.reads }
        ensures fewer { count_in Polled self.new.reads < count_in Polled self.old.reads }
        ensures settings { SameSettings self.old self.new }
        ensures next { self.new.next ≡ self.old.next }
    {
        prove!(self.concurrency() >= 1);
        for span in batch {
            prove!(self.concurrency() >= 1);
            self.settle_one(span);
        }
    }

    /// Takes a span and resolves it.
    fn settle_one(&mut self, span: &CoalescedRequest)
        requires { MergesNow self.old span.now }
        ensures { self.new ≡ resolved (taken self.old span.now) span.now }
    {
        self.table.settle(span.requests());
    }

    /// The next span, taken: a batch of one. There is none exactly where no polled read waits. Only
    /// memory refuses.
    pub fn next(&mut self, alloc: Global) -> Result<Option<CoalescedRequest>, AllocError>
        requires { ranges_in_flight self.old.reads < self.old.concurrency }
        ensures merges { IfOk result (λ found. IfSome found (MergesNow self.old)) }
        ensures taken { IfOk result (λ found. IfSome found (λ span. self.new ≡ taken self.old span)) }
        ensures may { IfOk result (λ found. IfSome found (λ span. MayTake self.old (span ∷ []))) }
        ensures flies { IfOk result (λ found. IfSome found (IsInFlight self.new)) }
        ensures ranges { IfOk result (λ found. IfSome found (λ _. ranges_in_flight self.new.reads ≡ ranges_in_flight self.old.reads + 1)) }
        ensures fewer { IfOk result (λ found. IfSome found (λ _. count_in Polled self.new.reads < count_in Polled self.old.reads)) }
        ensures none { IfOk result (λ found. IfNone found (NonePolled self.old.reads)) }
        ensures idle { IfOk result (λ found. IfNone found (self.new ≡ self.old)) }
        ensures kept { OnErr result (self.new ≡ self.old) }
    {
        let mut batch = self.batch(alloc, 1)?;
        match batch.pop() {
            None => Ok(None),
            Some(span) => {
                self.take_one(&span);
                Ok(Some(span))
            }
        }
    }

    /// How many ranges may be in flight. The numbers of the reads rise and lie below the next one, and
    /// the spans in flight hold the reads in flight.
    pub fn concurrency(&self) -> usize
        ensures value { result ≡ self.now.concurrency }
        ensures some { 1 ≤ self.now.concurrency }
        ensures sound { IsSound self.now }
    {
        self.most
    }

    /// Whether a read is polled.
    pub fn has_polled(&self) -> bool
        ensures some { result ≡ true → IsSomePolled self.now.reads }
        ensures none { result ≡ false → NonePolled self.now.reads }
    {
        self.table.has_polled()
    }

    /// Where the read of a number stands, if there is one.
    pub fn read_state(&self, id: u64) -> Option<ReadState>
        ensures { result ≡ state_at self.now.reads id }
    {
        self.table.state(id)
    }

    /// Whether a span is in flight.
    pub fn is_in_flight(&self, range: &CoalescedRequest) -> bool
        ensures flies { result ≡ true → IsInFlight self.now range.now }
        ensures rests { result ≡ false → IsInFlight self.now range.now → ⊥ }
    {
        let reads = range.requests();
        if reads.is_empty() {
            return false;
        }
        self.has_range(range) && self.table.is_in_flight(reads)
    }

    /// Whether a span with reads has the range and the alignment that the settings give its reads.
    fn has_range(&self, range: &CoalescedRequest) -> bool
        requires { 1 ≤ length range.now.reads }
        ensures { result ≡ same_span range.now (span_at self.now range.now.reads) }
    {
        let reads = range.requests();
        let place = range.range();
        let exponent = range.alignment().exponent();
        let first = reads[0];
        match self.gap {
            None => {
                place.start == first.offset
                    && place.end == first.offset + first.length as u64
                    && exponent == first.alignment.exponent()
            }
            Some(_) => {
                place.start == self.aligned.down(first.offset)
                    && place.end == greatest_end_of(&place, reads)
                    && exponent == self.aligned.exponent()
            }
        }
    }

    /// How many reads there are in each state, and how many ranges are in flight.
    pub fn counts(&self) -> Counts
        ensures { result ≡ counts_of self.now.reads }
    {
        self.table.counts()
    }
}

/// The limit of a greatest size, with room for the start to be aligned down.
fn raise(max_read_size: Option<u64>, alignment: Alignment) -> Option<u64>
    ensures { result ≡ option_map (raised alignment) max_read_size }
{
    match max_read_size {
        None => None,
        Some(size) => Some(size.saturating_add(alignment.as_u64() - 1)),
    }
}
