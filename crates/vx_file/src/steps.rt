//! The steps of a script, answered in order.
ghost use Rattle.std.specs.Prelude.{◌≡◌, ◌+◌, ◌≤◌, ◌<◌, ℕ, [], List, length, Some, true, IfOk, OnErr};
ghost use Rattle.vx_base.specs.Caches.{SameCache};
ghost use Rattle.vx_base.specs.Readers.{SameReader};
ghost use Rattle.vx_source.specs.Bytes.{HasBytes, TellsSlices};
ghost use Rattle.vx_source.specs.Fits.{World};
ghost use Rattle.vx_source.specs.History.{Moment};
ghost use Rattle.vx_source.specs.Stands.{Stands, EndsWithin};
ghost use Rattle.vx_file.specs.StepsLeft.{steps_left};
ghost use Rattle.vx_file.specs.Scripts.{Stops};
ghost use Rattle.vx_file.specs.Steps.{IsAnswered, StaysTrue, StopsStep, Answering};

use crate::script::Steps;
use crate::{Replies, Step};
use std::alloc::{AllocError, Global};
use vx_base::{Reader, SegmentCache, SegmentId, Sequence};
use vx_source::{Reply, Session};

/// Answers one step.
fn answer_step<R: Reader, C: SegmentCache>(
    alloc: Global,
    session: &mut Session,
    reader: &mut R,
    cache: &mut C,
    step: Step,
) -> Result<Reply, AllocError>
    requires concurrency { session.old.idle.concurrency ≤ (R.state reader.old).concurrency }
    requires room { length session.old.requests < u64.MAX }
    ensures answered { IfOk result (λ reply. (w : World) (past : List Moment) → Stands w past session.old →
        IsAnswered w past step (R.state reader.old) (R.state reader.new) (C.state cache.old) (C.state cache.new) reply session.new) }
    ensures stays { IfOk result (λ reply. (w : World) (past : List Moment) (file : List ℕ) → (R.state reader.old).bytes ≡ Some file →
        Stands w past session.old →
        HasBytes file session.old → TellsSlices file w.table (C.state cache.old) → StaysTrue file w past step (C.state cache.new) reply session.new) }
    ensures stopped { OnErr result ((w : World) (past : List Moment) → Stands w past session.old →
        StopsStep w past (R.state reader.old).log (R.state reader.new).log) }
    ensures steady { (w : World) (past : List Moment) (file : List ℕ) → (R.state reader.old).never_fails ≡ true → (R.state reader.old).bytes ≡ Some file →
        Stands w past session.old → EndsWithin (length file) w.table → (R.state reader.new).faults ≡ (R.state reader.old).faults }
    ensures settings { session.new.idle ≡ session.old.idle }
    ensures made { IfOk result (λ _. length session.new.requests ≤ length session.old.requests + 1) }
    ensures same { SameReader (R.state reader.old) (R.state reader.new) }
    ensures same_cache { SameCache (C.state cache.old) (C.state cache.new) }
{
    match step {
        Step::Register(segment) => {
            let reply = session.register(alloc, cache, SegmentId(segment))?;
            Ok(reply)
        }
        Step::Poll(number) => {
            let reply = session.poll(alloc, number)?;
            Ok(reply)
        }
        Step::Drop(number) => Ok(session.drop_request(number)),
        Step::Drive => {
            let spans = session.drive(alloc, reader, cache)?;
            Ok(Reply::Driven(Sequence::from_vec(spans)))
        }
    }
}

/// Answers the steps of a script, one reply each.
pub(crate) fn answer_steps<R: Reader, C: SegmentCache>(
    alloc: Global,
    session: &mut Session,
    reader: &mut R,
    cache: &mut C,
    steps: Steps<'_>,
    count: usize,
) -> Result<Replies, AllocError>
    requires concurrency { session.old.idle.concurrency ≤ (R.state reader.old).concurrency }
    requires count { length (steps_left steps) ≡ count }
    requires room { length session.old.requests + count ≤ u64.MAX }
    ensures answered { IfOk result (λ replies. (w : World) → Stands w [] session.old →
        Answering w (steps_left steps.entry) [] (R.state reader.old) (R.state reader.new) session.old (C.state cache.old) (C.state cache.new) replies session.new) }
    ensures stopped { OnErr result ((w : World) → Stands w [] session.old →
        Stops w (steps_left steps.entry) (R.state reader.old).log (R.state reader.new).log) }
    ensures steady { (w : World) (file : List ℕ) → (R.state reader.old).never_fails ≡ true → (R.state reader.old).bytes ≡ Some file → Stands w [] session.old →
        EndsWithin (length file) w.table → (R.state reader.new).faults ≡ (R.state reader.old).faults }
    ensures same { SameReader (R.state reader.old) (R.state reader.new) }
    ensures same_cache { SameCache (C.state cache.old) (C.state cache.new) }
{
    let mut replies = Replies::with_capacity(alloc, count)?;
    for step in steps {
        let reply = answer_step(alloc, session, reader, cache, step)?;
        replies.push(reply)?;
    }
    Ok(replies)
}
