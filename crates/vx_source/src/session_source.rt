//! A session with its reader and its cache.
ghost use Rattle.std.specs.Prelude.{◌≡◌, ◌+◌, ◌≤◌, ◌<◌, ℕ, List, [], ◌∷◌, length, Some, true, IfOk, OnErr};
ghost use Rattle.vx_base.specs.Caches.{SameCache};
ghost use Rattle.vx_base.specs.Counts.{Rises};
ghost use Rattle.vx_base.specs.Readers.{SameReader};
ghost use Rattle.vx_source.specs.Asks.{Grew, asked_by, bad_spans};
ghost use Rattle.vx_source.specs.Bytes.{HasBytes};
ghost use Rattle.vx_source.specs.Fetching.{Fetches, StopsFetch, AreAnswers, HaveSlices, IsReadyUnlessFailed, cache_failures};
ghost use Rattle.vx_source.specs.Fits.{World};
ghost use Rattle.vx_source.specs.History.{Moment};
ghost use Rattle.vx_source.specs.Sources.{HasHistory, AreOfFile, in_session, history_for, NeverFails};
ghost use Rattle.vx_source.specs.Stands.{Stands, EndsWithin};

use crate::{FailCause, Fetched, Reply, SegmentSource, Session, SourceError};
use std::alloc::{AllocError, Global};
use vx_base::{ByteBuffer, Reader, SegmentCache, SegmentId, Sequence};

/// A session with its reader and its cache.
#[derive(Drop)]
pub struct SessionSource<R: Reader, C: SegmentCache> {
    session: Session,
    reader: R,
    cache: C,
    ghost concurrency: { session.idle.concurrency ≤ (R.state reader).concurrency },
    ghost history: { HasHistory session },
}

/// Begins the numbers of requests anew where so many more would pass the greatest.
fn make_room(alloc: Global, session: &mut Session, count: u64)
    ensures room { length session.new.requests + count ≤ u64.MAX }
    ensures stands { (w : World) (past : List Moment) → Stands w past session.old → Stands w (history_for count past) session.new }
    ensures history { HasHistory session.old → HasHistory session.new }
    ensures bytes { (file : List ℕ) → HasBytes file session.old → HasBytes file session.new }
    ensures settings { session.new.idle ≡ session.old.idle }
    ensures table { session.new.table ≡ session.old.table }
{
    if session.made() > u64::MAX - count {
        session.renew(alloc);
    }
}

/// The last of the replies.
fn last_reply(replies: Sequence<Reply>) -> Option<Reply>
    ensures { (reply : Reply) → replies ≡ reply ∷ [] → result ≡ Some reply }
{
    replies.into_vec().pop()
}

impl<R: Reader, C: SegmentCache> SessionSource<R, C> {
    /// A session over a reader that may be asked as many ranges in one call as the session asks.
    pub fn new(session: Session, reader: R, cache: C) -> SessionSource<R, C>
        requires concurrency { session.idle.concurrency ≤ (R.state reader).concurrency }
        requires history { HasHistory session }
        ensures session { result.session ≡ session }
        ensures reader { result.reader ≡ reader }
        ensures cache { result.cache ≡ cache }
    {
        SessionSource {
            session,
            reader,
            cache,
        }
    }

    /// The reader.
    pub fn reader(&self) -> &R
        ensures { result.now ≡ self.now.reader }
    {
        &self.reader
    }

    /// The session, the reader and the cache.
    pub fn into_parts(self) -> (Session, R, C)
        ensures session { result.0 ≡ self.session }
        ensures reader { result.1 ≡ self.reader }
        ensures cache { result.2 ≡ self.cache }
    {
        let SessionSource {
            session,
            reader,
            cache,
        } = self;
        (session, reader, cache)
    }

    /// Fetches segments in one drive, as `Session::segments` does. Where the numbers of requests would pass the
    /// greatest, they first begin anew.
    pub fn segments(&mut self, alloc: Global, ids: &[SegmentId]) -> Result<Fetched, AllocError>
        ensures fetches { IfOk result (λ fetched. (w : World) (past : List Moment) → Stands w past self.old.session →
            Fetches w (history_for (length ids.now) past) (C.state self.old.cache) (C.state self.new.cache) ids.now fetched self.new.session) }
        ensures answers { IfOk result (λ fetched. AreAnswers self.old.session.table fetched.spans ids.now fetched.replies) }
        ensures ready { IfOk result (IsReadyUnlessFailed self.old.session.table ids.now) }
        ensures log { IfOk result (λ fetched. Grew (asked_by fetched.spans) (R.state self.old.reader).log (R.state self.new.reader).log) }
        ensures bad { IfOk result (λ fetched. Rises (bad_spans fetched.spans) (R.state self.old.reader).faults (R.state self.new.reader).faults) }
        ensures failures { IfOk result (λ fetched. Rises (cache_failures fetched.replies) (C.state self.old.cache).faults (C.state self.new.cache).faults) }
        ensures slices { IfOk result (λ fetched. (file : List ℕ) → AreOfFile self.old.session (R.state self.old.reader) (C.state self.old.cache) file →
            HaveSlices file self.old.session.table ids.now fetched.replies) }
        ensures bytes { (file : List ℕ) → AreOfFile self.old.session (R.state self.old.reader) (C.state self.old.cache) file →
            AreOfFile self.new.session (R.state self.new.reader) (C.state self.new.cache) file }
        // Of a reader that never fails the count stands still, and no span fails, where each segment ends within the file.
        ensures steady { (file : List ℕ) → (R.state self.old.reader).never_fails ≡ true → (R.state self.old.reader).bytes ≡ Some file →
            EndsWithin (length file) self.old.session.table → (R.state self.new.reader).faults ≡ (R.state self.old.reader).faults }
        ensures sound { IfOk result (λ fetched. (file : List ℕ) → (R.state self.old.reader).never_fails ≡ true → (R.state self.old.reader).bytes ≡ Some file →
            EndsWithin (length file) self.old.session.table → bad_spans fetched.spans ≡ 0) }
        ensures stopped { OnErr result ((w : World) (past : List Moment) → Stands w past self.old.session →
            StopsFetch w (history_for (length ids.now) past) (R.state self.old.reader).log (R.state self.new.reader).log
            (C.state self.old.cache) (C.state self.new.cache) ids.now self.new.session) }
        ensures table { self.new.session.table ≡ self.old.session.table }
        ensures same { SameReader (R.state self.old.reader) (R.state self.new.reader) }
        ensures same_cache { SameCache (C.state self.old.cache) (C.state self.new.cache) }
    {
        make_room(alloc, &mut self.session, ids.len() as u64);
        let fetched = self
            .session
            .segments(alloc, &mut self.reader, &mut self.cache, ids)?;
        Ok(fetched)
    }
}

impl<R: Reader, C: SegmentCache> SegmentSource for SessionSource<R, C> {
    ghost state = { λ s. in_session s.session (R.state s.reader) (C.state s.cache) };

    ghost serves = { λ s. AreOfFile s.session (R.state s.reader) (C.state s.cache) };

    ghost never_fails = { λ s. NeverFails s.session (R.state s.reader) };

    fn segment(&mut self, alloc: Global, id: SegmentId) -> Result<ByteBuffer, SourceError> {
        let fetched = self.segments(alloc, &[id])?;
        match last_reply(fetched.replies) {
            Some(Reply::Ready(bytes)) => Ok(bytes),
            Some(Reply::MissingSegment) => Err(SourceError::MissingSegment),
            Some(Reply::Failed(FailCause::Fault(fault))) => Err(SourceError::Fault(fault)),
            Some(Reply::Failed(FailCause::Cache)) => Err(SourceError::CacheFault),
            _ => unreachable!(),
        }
    }
}
