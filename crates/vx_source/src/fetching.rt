//! Segments that are fetched in one call.
ghost use Rattle.std.specs.Prelude.{◌≡◌, ◌+◌, ◌≤◌, ℕ, List, [], length, map, Some, None, true, IfOk, OnErr};
ghost use Rattle.vx_base.specs.Caches.{SameCache};
ghost use Rattle.vx_base.specs.Counts.{Rises};
ghost use Rattle.vx_base.specs.Readers.{SameReader};
ghost use Rattle.vx_source.specs.Asks.{Grew, asked_by, bad_spans};
ghost use Rattle.vx_source.specs.Bytes.{HasBytes, TellsSlices};
ghost use Rattle.vx_source.specs.Fetching.{at_register, at_poll, IsPolled, Fetches, RegistersSome, StopsRegisters, PollsSome, StopsPolls, StopsFetch, IsTruePoll, AreTruePolls, AreAnswers, AreFaultsOf, HaveSlices, IsReadyUnlessFailed, cache_failures};
ghost use Rattle.vx_source.specs.Fits.{World};
ghost use Rattle.vx_source.specs.History.{Moment};
ghost use Rattle.vx_source.specs.Stands.{Stands, EndsWithin};

use crate::{Reply, Session, Span};
use std::alloc::{AllocError, Global};
use vx_base::{Reader, SegmentCache, SegmentId, Sequence};

/// What a fetch of segments gave: the last reply about each of them, and the spans that were read.
#[derive(Drop)]
pub struct Fetched {
    pub replies: Sequence<Reply>,
    pub spans: Sequence<Span>,
}

/// A segment that is fetched: the number of its request while that is open, and the last reply about it.
#[derive(Drop)]
pub struct Fetch {
    pub number: Option<u64>,
    pub reply: Reply,
}

/// A segment whose register was answered.
fn at_register(reply: Reply) -> Fetch
    ensures { result ≡ at_register reply }
{
    let number = match &reply {
        Reply::Registered { number, .. } => Some(*number),
        _ => None,
    };
    Fetch { number, reply }
}

/// A segment whose request was polled.
fn at_poll(number: u64, reply: Reply) -> Fetch
    ensures { result ≡ at_poll number reply }
{
    let number = match &reply {
        Reply::Pending => Some(number),
        _ => None,
    };
    Fetch { number, reply }
}

/// Registers segments in order. Without memory some of them were registered.
fn register_all<C: SegmentCache>(
    alloc: Global,
    session: &mut Session,
    cache: &mut C,
    ids: &[SegmentId],
) -> Result<Vec<Fetch>, AllocError>
    requires { length session.old.requests + length ids.now ≤ u64.MAX }
    ensures registered { IfOk result (λ fetches. (w : World) (past : List Moment) → Stands w past session.old →
        RegistersSome w past (C.state cache.old) (C.state cache.new) ids.now [] fetches.items session.new) }
    ensures stopped { OnErr result ((w : World) (past : List Moment) → Stands w past session.old →
        StopsRegisters w past (C.state cache.old) ids.now session.new) }
    ensures bytes { (w : World) (past : List Moment) (file : List ℕ) → Stands w past session.old → HasBytes file session.old →
        TellsSlices file w.table (C.state cache.old) → HasBytes file session.new × TellsSlices file w.table (C.state cache.new) }
    ensures settings { session.new.idle ≡ session.old.idle }
    ensures made { length session.new.requests ≤ length session.old.requests + length ids.now }
    ensures same { SameCache (C.state cache.old) (C.state cache.new) }
{
    let mut fetches = Vec::new(alloc);
    for id in ids {
        let reply = session.register(alloc, cache, *id)?;
        fetches.push(at_register(reply))?;
    }
    Ok(fetches)
}

/// Polls the request of a segment, if it is open. Without memory the session is as before.
fn poll_open(alloc: Global, session: &mut Session, fetch: Fetch) -> Result<Fetch, AllocError>
    ensures polled { IfOk result (λ next. (w : World) (past : List Moment) → Stands w past session.old →
        (now : List Moment) × IsPolled w past fetch.number fetch next now × Stands w now session.new) }
    ensures bytes { IfOk result (λ next. (w : World) (past : List Moment) (file : List ℕ) → Stands w past session.old → HasBytes file session.old →
        IsTruePoll file w past fetch.number next.reply × HasBytes file session.new) }
    ensures err { OnErr result (session.new ≡ session.old) }
    ensures settings { session.new.idle ≡ session.old.idle }
    ensures made { length session.new.requests ≡ length session.old.requests }
{
    let Some(number) = fetch.number else {
        return Ok(fetch);
    };
    let reply = session.poll(alloc, number)?;
    Ok(at_poll(number, reply))
}

/// Polls the open requests in order. Without memory some of them were polled.
fn poll_all(
    alloc: Global,
    session: &mut Session,
    fetches: Vec<Fetch>,
) -> Result<Vec<Fetch>, AllocError>
    ensures polled { IfOk result (λ polled. (w : World) (past : List Moment) → Stands w past session.old →
        PollsSome w past fetches.items [] polled.items session.new) }
    ensures slices { IfOk result (λ polled. (w : World) (past : List Moment) (file : List ℕ) → Stands w past session.old → HasBytes file session.old →
        AreTruePolls file w past fetches.items polled.items) }
    ensures stopped { OnErr result ((w : World) (past : List Moment) → Stands w past session.old → StopsPolls w past fetches.items session.new) }
    ensures bytes { (w : World) (past : List Moment) (file : List ℕ) → Stands w past session.old → HasBytes file session.old → HasBytes file session.new }
    ensures settings { session.new.idle ≡ session.old.idle }
    ensures made { length session.new.requests ≡ length session.old.requests }
{
    let mut polled = Vec::new(alloc);
    for fetch in fetches {
        let next = poll_open(alloc, session, fetch)?;
        polled.push(next)?;
    }
    Ok(polled)
}

/// The last replies.
fn last_replies(alloc: Global, fetches: Vec<Fetch>) -> Result<Sequence<Reply>, AllocError>
    ensures { IfOk result (λ replies. replies ≡ map (λ f. f.reply) fetches.items) }
{
    let mut replies = Sequence::new(alloc);
    for fetch in fetches {
        replies.push(fetch.reply)?;
    }
    Ok(replies)
}

impl Session {
    /// Fetches segments: registers them in order, polls each number that was made, drives once, and polls each number
    /// that is pending again. Without memory some of these steps were taken.
    pub fn segments<R: Reader, C: SegmentCache>(
        &mut self,
        alloc: Global,
        reader: &mut R,
        cache: &mut C,
        ids: &[SegmentId],
    ) -> Result<Fetched, AllocError>
        requires concurrency { self.old.idle.concurrency ≤ (R.state reader.old).concurrency }
        requires room { length self.old.requests + length ids.now ≤ u64.MAX }
        ensures fetches { IfOk result (λ fetched. (w : World) (past : List Moment) → Stands w past self.old →
            Fetches w past (C.state cache.old) (C.state cache.new) ids.now fetched self.new) }
        ensures stands { (w : World) (past : List Moment) → Stands w past self.old → (now : List Moment) × Stands w now self.new }
        ensures answers { IfOk result (λ fetched. (w : World) (past : List Moment) → Stands w past self.old →
            AreAnswers w.table fetched.spans ids.now fetched.replies) }
        ensures faults { IfOk result (λ fetched. (w : World) (past : List Moment) → Stands w past self.old → AreFaultsOf fetched.spans fetched.replies) }
        ensures ready { IfOk result (λ fetched. (w : World) (past : List Moment) → Stands w past self.old → IsReadyUnlessFailed w.table ids.now fetched) }
        ensures log { IfOk result (λ fetched. Grew (asked_by fetched.spans) (R.state reader.old).log (R.state reader.new).log) }
        ensures bad { IfOk result (λ fetched. Rises (bad_spans fetched.spans) (R.state reader.old).faults (R.state reader.new).faults) }
        ensures failures { IfOk result (λ fetched. (w : World) (past : List Moment) → Stands w past self.old →
            Rises (cache_failures fetched.replies) (C.state cache.old).faults (C.state cache.new).faults) }
        ensures slices { IfOk result (λ fetched. (w : World) (past : List Moment) (file : List ℕ) → (R.state reader.old).bytes ≡ Some file →
            Stands w past self.old → HasBytes file self.old → TellsSlices file w.table (C.state cache.old) → HaveSlices file w.table ids.now fetched.replies) }
        ensures bytes { (w : World) (past : List Moment) (file : List ℕ) → (R.state reader.old).bytes ≡ Some file → Stands w past self.old →
            HasBytes file self.old → TellsSlices file w.table (C.state cache.old) → HasBytes file self.new × TellsSlices file w.table (C.state cache.new) }
        // Of a reader that never fails the count stands still, and no span fails, where each segment ends within the file.
        ensures steady { (w : World) (past : List Moment) (file : List ℕ) → (R.state reader.old).never_fails ≡ true → (R.state reader.old).bytes ≡ Some file →
            Stands w past self.old → EndsWithin (length file) w.table → (R.state reader.new).faults ≡ (R.state reader.old).faults }
        ensures sound { IfOk result (λ fetched. (w : World) (past : List Moment) (file : List ℕ) → (R.state reader.old).never_fails ≡ true →
            (R.state reader.old).bytes ≡ Some file → Stands w past self.old → EndsWithin (length file) w.table → bad_spans fetched.spans ≡ 0) }
        ensures stopped { OnErr result ((w : World) (past : List Moment) → Stands w past self.old →
            StopsFetch w past (R.state reader.old).log (R.state reader.new).log (C.state cache.old) (C.state cache.new) ids.now self.new) }
        ensures settings { self.new.idle ≡ self.old.idle }
        ensures made { length self.new.requests ≤ length self.old.requests + length ids.now }
        ensures same { SameReader (R.state reader.old) (R.state reader.new) }
        ensures same_cache { SameCache (C.state cache.old) (C.state cache.new) }
    {
        let registered = register_all(alloc, self, cache, ids)?;
        let polled = poll_all(alloc, self, registered)?;
        let spans = self.drive(alloc, reader, cache)?;
        let last = poll_all(alloc, self, polled)?;
        let replies = last_replies(alloc, last)?;
        Ok(Fetched {
            replies,
            spans: Sequence::from_vec(spans),
        })
    }
}
