//! The scheduling law.
ghost use Rattle.std.specs.Prelude.{◌≡◌, ℕ, ◌+◌, ◌-◌, ◌*◌, ◌^◌, ◌<◌, ◌≤◌, List, length, map, Some, Option};
ghost use Rattle.vx_sched.specs.Span.{Span};
ghost use Rattle.vx_sched.specs.Merging.{Merges};
ghost use Rattle.vx_sched.specs.Scheduling.{Scheduler, IsLegal, AllInFlight, AreApart};
ghost use Rattle.vx_sched.specs.Law.{idle, IsSound, Keeps, uncovered};
ghost use Rattle.vx_sched.specs.Calls.{Call, AreCalls, IsReplay, all_events};
ghost use Rattle.vx_sched.specs.declared.event.Event.{Event};
ghost use Rattle.vx_sched.specs.declared.request.ReadRequest.{ReadRequest};

/// What holds of every legal list of events, whoever they come from: see `Keeps`. A span of several
/// reads is no longer than the limit, and leaves few bytes uncovered.
pub fn scheduling_law()
    ensures keeps { (distance limit : Option ℕ) (alignment concurrency : ℕ) (events : List Event) →
        IsLegal (idle distance limit alignment concurrency) events → Keeps (idle distance limit alignment concurrency) events }
    ensures limit { (distance limit alignment next : ℕ) (waiting : ℕ → Option ReadRequest) (span : Span) →
        Merges (Some distance) (Some limit) alignment waiting next span → 1 < length span.reads → span.end - span.start ≤ limit }
    ensures uncovered { (distance : ℕ) (limit : Option ℕ) (alignment next : ℕ) (waiting : ℕ → Option ReadRequest) (span : Span) →
        Merges (Some distance) limit alignment waiting next span →
        uncovered span ≤ (length span.reads - 1) * distance + (2 ^ alignment - 1) }
{}

/// What holds of every list of calls of a scheduler that are made under their conditions: the events
/// are legal, the state is their replay, and so all that `scheduling_law` says holds. And spans in
/// flight that begin with different reads, as those of a batch do, may be resolved in any order.
pub fn law_of_calls()
    ensures replay { (distance limit : Option ℕ) (alignment concurrency : ℕ) (calls : List Call) (state : Scheduler) →
        AreCalls calls (idle distance limit alignment concurrency) state →
        IsReplay (idle distance limit alignment concurrency) (all_events calls) state }
    ensures settling { (state : Scheduler) (spans : List Span) → IsSound state → AllInFlight state spans → AreApart spans →
        IsLegal state (map Event.Resolve spans) }
{}
