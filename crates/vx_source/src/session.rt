//! A session: the requests for segments of one file, and their reads.
ghost use Rattle.std.specs.Prelude.{◌≡◌, ℕ, ◌+◌, ◌-◌, ◌<◌, ◌≤◌, ◌^◌, List, [], ◌∷◌, length, Some, None, true, false, slice_get, is_some, IfOk, IfSome, OnOk, OnErr};
ghost use Rattle.vx_base.specs.Counts.{Rises};
ghost use Rattle.vx_base.specs.declared.segment.SegmentSpec.{SegmentSpec};
ghost use Rattle.vx_base.specs.Readers.{SameReader};
ghost use Rattle.vx_sched.specs.Counting.{count_in};
ghost use Rattle.vx_sched.specs.Metrics.{with_call};
ghost use Rattle.vx_sched.specs.Reads.{polled_at, ranges_in_flight};
ghost use Rattle.vx_sched.specs.Scheduling.{SameSettings, MergesInTurn, NonePolled, MayTake, settled, all_taken};
ghost use Rattle.vx_sched.specs.declared.read.ReadState.TheVariants.{Polled};
ghost use Rattle.vx_source.specs.Asks.{Grew, asked_by, bad_spans};
ghost use Rattle.vx_source.specs.Blocks.{file_reads, with_cores};
ghost use Rattle.vx_source.specs.Bytes.{HasBytes, IsEnd, TellsSlices, IsEntry, IsTrueReply};
ghost use Rattle.vx_source.specs.Drives.{IsTurned, IsLost, StopsDrive, WaitsWithin};
ghost use Rattle.vx_source.specs.Puts.{PutsBy, AreHanded, puts_of};
ghost use Rattle.vx_source.specs.declared.reply.Reply.TheVariants.{Driven};
ghost use Rattle.vx_base.specs.Caches.{SameCache, OldEntries};
ghost use Rattle.vx_source.specs.Caching.{HasGot};
ghost use Rattle.vx_source.specs.Events.{metrics};
ghost use Rattle.vx_source.specs.Fits.{World, covered_from};
ghost use Rattle.vx_source.specs.History.{Moment, made, polls, drops, drives};
ghost use Rattle.vx_source.specs.Stands.{Stands, IsNext, Registers, AreFit, EndsWithin, world, greatest_alignment};
ghost use Rattle.vx_source.specs.Kept.{IsBlank, LiesIn, IsCut, IsLook, is_asked, got_of, tail_start, joinable_at, with_held, with_joined, with_begun, with_found, look_reply, after_look, without_user, without_held, with_poll, poll_reply, after_poll, reply_read, after_read, reply_good, after_good, drop_reply, after_drop, left_core};

use crate::filing::{Block, ask_block, count_block, file_all};
use crate::look::Look;
use crate::putting::{put_all, puts_of};
use crate::request::{Filed, Newest, Place, Request, SharedRead};
use crate::slots::{add_user, end_request, mark_polled, put_newest, remove_user, take_bytes};
use crate::telling::{tell_begin, tell_block, tell_drop, tell_poll};
use crate::{FailCause, Reply, Span, SpanOutcome, Tail};
use std::alloc::{AllocError, Global};
use std::marker::Model;
use vx_base::{Alignment, ByteBuffer, CacheError, Reader, SegmentCache, SegmentId, SegmentSpec};
use vx_sched::{CoalescedRequest, ReadRequest, RequestMetrics, State};

/// The requests for segments of one file, and their reads. Numbers are given in order, from 0.
#[derive(Drop)]
pub struct Session {
    segments: Vec<SegmentSpec>,
    tail: Option<Tail>,
    distance: Option<u64>,
    max_read_size: Option<u64>,
    alignment: Alignment,
    concurrency: usize,
    core: State,
    requests: Vec<Request>,
    reads: Vec<SharedRead>,
    newest: Vec<Newest>,
    counts: RequestMetrics,
    /// How many reads were polled since the last drive, for the room of the next one's spans.
    polled: usize,
}

impl Model for Session {
    ghost use Rattle.std.specs.Prelude.{length, option_map};
    ghost use Rattle.vx_sched.specs.Law.{idle};
    ghost use Rattle.vx_sched.specs.Merging.{raised};
    ghost use Rattle.vx_source.specs.Kept.{Kept, IsKept};

    ghost Value = { Kept };

    ghost view = { λ s. record {
      table = s.segments.items;
      tail = s.tail;
      idle = idle s.distance (option_map (raised s.alignment) s.max_read_size) s.alignment s.concurrency;
      core = s.core;
      requests = s.requests.items;
      reads = s.reads.items;
      latest = s.newest.items;
      metrics = s.counts;
    } };

    ghost invariant = { λ s. IsKept s.segments.items s.tail
        (idle s.distance (option_map (raised s.alignment) s.max_read_size) s.alignment s.concurrency) s.core
        (length s.requests.items) (length s.reads.items) (length s.newest.items) };
}

/// The greatest alignment of segments.
fn greatest_alignment(segments: &[SegmentSpec]) -> Alignment
    ensures { result ≡ greatest_alignment segments.now }
{
    let mut greatest = Alignment::none();
    for spec in segments {
        if spec.alignment.exponent() > greatest.exponent() {
            greatest = spec.alignment;
        }
    }
    greatest
}

/// No newest read of each of so many segments. Only memory refuses.
fn nothing_read(alloc: Global, count: usize) -> Result<Vec<Newest>, AllocError>
    ensures len { IfOk result (λ v. length v.items ≡ count) }
    ensures blank { IfOk result (λ v. IsBlank v.items) }
{
    let mut newest = Vec::with_capacity(alloc, count)?;
    for _s in 0..count {
        newest.push(Newest::none())?;
    }
    Ok(newest)
}

/// No segment has a newest read any more.
fn forget_reads(newest: &mut Vec<Newest>)
    ensures len { length newest.new.items ≡ length newest.old.items }
    ensures blank { IsBlank newest.new.items }
{
    for s in 0..newest.len() {
        newest[s] = Newest::none();
    }
}

/// A read is dropped with its last request.
fn leave_core(core: &mut State, reads: &[SharedRead], r: u64)
    ensures value { core.new ≡ left_core core.old r (slice_get reads.now r) }
    ensures ranges { ranges_in_flight core.new.reads ≤ ranges_in_flight core.old.reads }
    ensures settings { SameSettings core.old core.new }
    ensures next { core.new.next ≡ core.old.next }
{
    let Some(read) = reads.get(r as usize) else {
        return;
    };
    if read.users() <= 1 {
        tell_drop(core, r);
    }
}

impl Session {
    /// A session without requests for the segments of a table, with the settings of its scheduler, over the tail
    /// that was read of the file, if one was. Only memory refuses.
    pub fn new(
        alloc: Global,
        segments: Vec<SegmentSpec>,
        distance: Option<u64>,
        max_read_size: Option<u64>,
        concurrency: usize,
        tail: Option<Tail>,
    ) -> Result<Session, AllocError>
        requires some { 1 ≤ concurrency }
        requires fit { AreFit segments.items tail }
        ensures stands { IfOk result (Stands (world segments.items distance max_read_size concurrency (tail_start tail)) []) }
        ensures bytes { IfOk result (λ session. (file : List ℕ) → IsEnd file tail → HasBytes file session) }
    {
        let newest = nothing_read(alloc, segments.len())?;
        let alignment = greatest_alignment(segments.as_slice());
        // There is room for a request of each segment at once, since vectors that grow fill their memory anew.
        let requests = Vec::with_capacity(alloc, segments.len())?;
        let reads = Vec::with_capacity(alloc, segments.len())?;
        let core = State::with_room(
            alloc,
            distance,
            max_read_size,
            alignment,
            concurrency,
            segments.len(),
        )?;
        Ok(Session {
            segments,
            tail,
            distance,
            max_read_size,
            alignment,
            concurrency,
            core,
            requests,
            reads,
            newest,
            counts: RequestMetrics::new(),
            polled: 0,
        })
    }

    /// Forgets all requests: the session has no history again.
    pub fn renew(&mut self, alloc: Global)
        ensures stands { (w : World) (past : List Moment) → Stands w past self.old → Stands w [] self.new }
        ensures bytes { (file : List ℕ) → HasBytes file self.old → HasBytes file self.new }
        ensures settings { self.new.idle ≡ self.old.idle }
        ensures table { self.new.table ≡ self.old.table }
        ensures made { self.new.requests ≡ [] }
    {
        prove!(self.core.concurrency() >= 1);
        self.core = State::new(
            alloc,
            self.distance,
            self.max_read_size,
            self.alignment,
            self.concurrency,
        );
        self.requests.clear();
        self.reads.clear();
        forget_reads(&mut self.newest);
        self.counts = RequestMetrics::new();
        self.polled = 0;
    }

    /// How many numbers were made.
    pub fn made(&self) -> u64
        ensures value { result ≡ length self.now.requests }
        ensures made { (w : World) (past : List Moment) → Stands w past self.now → result ≡ made past }
    {
        self.requests.len() as u64
    }

    /// The counts of what was asked.
    pub fn metrics(&self) -> RequestMetrics
        ensures { (w : World) (past : List Moment) → Stands w past self.now → result ≡ metrics w past }
    {
        self.counts
    }

    /// The place of a segment, which lies in the tail where the tail covers it.
    fn place(&self, s: usize) -> Option<SegmentSpec>
        ensures value { result ≡ slice_get self.now.table s }
        ensures lies { IfSome result (LiesIn self.now.tail) }
        ensures ends { IfSome result (λ spec. spec.offset + spec.length < 2 ^ 64) }
    {
        self.segments.get(s).copied()
    }

    /// The bytes of a segment that the tail covers.
    fn cut(&self, alloc: Global, spec: &SegmentSpec) -> Result<Option<ByteBuffer>, AllocError>
        requires { LiesIn self.now.tail spec.now }
        ensures found { IfOk result (λ o. is_some o ≡ covered_from (tail_start self.now.tail) spec.now) }
        ensures bytes { IfOk result (λ o. IfSome o (IsCut self.now.tail spec.now)) }
    {
        let Some(tail) = &self.tail else {
            return Ok(None);
        };
        if spec.offset < tail.start {
            return Ok(None);
        }
        let _size = tail.bytes.len();
        let from = (spec.offset - tail.start) as usize;
        let buffer = tail.bytes.slice(alloc, from..from + spec.length as usize)?;
        Ok(Some(buffer.aligned(spec.alignment)))
    }

    /// Where a segment is to be had.
    #[inline(always)]
    fn look<C: SegmentCache>(
        &self,
        alloc: Global,
        cache: &mut C,
        id: SegmentId,
    ) -> Result<Look, AllocError>
        ensures is { IfOk result (IsLook self.now id.0) }
        ensures entry { IfOk result (IsEntry id.0 (C.state cache.old)) }
        ensures got { IfOk result (λ look. HasGot (is_asked self.now id.0) id.0 (C.state cache.old) (C.state cache.new) (got_of look)) }
        ensures from { OldEntries (C.state cache.old).entries (C.state cache.new).entries }
        ensures tells { is_some (C.state cache.new).entries ≡ is_some (C.state cache.old).entries }
        ensures same { SameCache (C.state cache.old) (C.state cache.new) }
    {
        let Some(spec) = self.place(id.0 as usize) else {
            return Ok(Look::Missing);
        };
        if let Some(buffer) = self.cut(alloc, &spec)? {
            return Ok(Look::InTail(buffer));
        }
        match cache.get(alloc, id) {
            Ok(Some(buffer)) => Ok(Look::InCache(buffer)),
            Ok(None) => Ok(Look::Nowhere),
            Err(CacheError::Failed) => Ok(Look::CacheFailed),
            Err(CacheError::OutOfMemory) => Err(AllocError),
        }
    }

    /// The read that a register of a segment joins, if there is one.
    fn joinable(&self, s: usize) -> Option<u64>
        ensures { result ≡ joinable_at self.now s }
    {
        let Some(newest) = self.newest.get(s) else {
            return None;
        };
        let Some(r) = newest.read() else {
            return None;
        };
        let Some(read) = self.reads.get(r as usize) else {
            return None;
        };
        if read.users() == 0 {
            return None;
        }
        match read.outcome() {
            Some(SpanOutcome::Bad(_)) => None,
            _ => Some(r),
        }
    }

    /// A request whose bytes are at hand. Only memory refuses.
    fn hold(&mut self, alloc: Global, segment: u32, buffer: ByteBuffer) -> Result<u64, AllocError>
        ensures number { IfOk result (λ n. n ≡ length self.old.requests) }
        ensures after { OnOk result (self.new ≡ with_held self.old segment buffer) }
        ensures err { OnErr result (self.new ≡ self.old) }
    {
        let number = self.requests.len() as u64;
        let request = Request::held(alloc, segment, buffer)?;
        self.requests.reserve(1)?;
        self.reads.reserve(1)?;
        self.requests.push_reserved(request);
        self.reads.push_reserved(SharedRead::new(0));
        Ok(number)
    }

    /// A request that joins a read. Only memory refuses.
    fn join(&mut self, segment: u32, r: u64) -> Result<u64, AllocError>
        ensures number { IfOk result (λ n. n ≡ length self.old.requests) }
        ensures after { OnOk result (self.new ≡ with_joined self.old segment r) }
        ensures err { OnErr result (self.new ≡ self.old) }
    {
        let number = self.requests.len() as u64;
        self.requests.reserve(1)?;
        self.reads.reserve(1)?;
        self.requests.push_reserved(Request::sharing(segment, r));
        add_user(&mut self.reads, r as usize);
        self.reads.push_reserved(SharedRead::new(0));
        Ok(number)
    }

    /// A request that begins a read. Only memory refuses.
    fn begin(&mut self, segment: u32, spec: SegmentSpec) -> Result<u64, AllocError>
        requires { spec.offset + spec.length < 2 ^ 64 }
        ensures number { IfOk result (λ n. n ≡ length self.old.requests) }
        ensures after { OnOk result (self.new ≡ with_begun self.old segment spec) }
        ensures err { OnErr result (self.new ≡ self.old) }
    {
        let number = self.requests.len() as u64;
        self.requests.reserve(1)?;
        self.reads.reserve(1)?;
        let length = spec.length as usize;
        tell_begin(
            &mut self.core,
            ReadRequest {
                id: number,
                offset: spec.offset,
                length,
                alignment: spec.alignment,
            },
        )?;
        self.requests
            .push_reserved(Request::sharing(segment, number));
        self.reads.push_reserved(SharedRead::new(1));
        put_newest(&mut self.newest, segment as usize, number);
        Ok(number)
    }

    /// A request for a segment that is not at hand. Only memory refuses.
    fn share_read(&mut self, segment: u32) -> Result<u64, AllocError>
        requires { segment < length self.old.table }
        ensures number { IfOk result (λ n. n ≡ length self.old.requests) }
        ensures after { OnOk result (self.new ≡ with_found self.old segment (slice_get self.old.table segment)) }
        ensures err { OnErr result (self.new ≡ self.old) }
    {
        let s = segment as usize;
        let Some(spec) = self.place(s) else {
            unreachable!();
        };
        match self.joinable(s) {
            Some(r) => {
                let number = self.join(segment, r)?;
                Ok(number)
            }
            None => {
                let number = self.begin(segment, spec)?;
                Ok(number)
            }
        }
    }

    /// Answers a register that found this.
    #[inline(always)]
    fn answer(&mut self, alloc: Global, segment: u32, look: Look) -> Result<Reply, AllocError>
        requires { IsLook self.old segment look }
        ensures reply { IfOk result (λ reply. reply ≡ look_reply self.old look) }
        ensures after { OnOk result (self.new ≡ after_look self.old segment look) }
        ensures err { OnErr result (self.new ≡ self.old) }
    {
        match look {
            Look::Missing => Ok(Reply::MissingSegment),
            Look::InTail(buffer) | Look::InCache(buffer) => {
                let number = self.hold(alloc, segment, buffer)?;
                Ok(Reply::Registered { number, held: true })
            }
            Look::CacheFailed => Ok(Reply::Failed(FailCause::Cache)),
            Look::Nowhere => {
                let number = self.share_read(segment)?;
                Ok(Reply::Registered {
                    number,
                    held: false,
                })
            }
        }
    }

    /// A request whose bytes are at hand ends.
    fn leave_held(&mut self, n: usize)
        ensures { self.new ≡ without_held self.old n }
    {
        end_request(&mut self.requests, n);
    }

    /// A request of a read ends.
    fn leave(&mut self, n: usize, r: u64)
        ensures { self.new ≡ without_user self.old n r }
    {
        leave_core(&mut self.core, self.reads.as_slice(), r);
        end_request(&mut self.requests, n);
        remove_user(&mut self.reads, r as usize);
    }

    /// The read of a request is polled.
    fn poll_waiting(&mut self, r: u64, polled: bool)
        ensures { self.new ≡ with_poll self.old r polled }
    {
        if polled {
            return;
        }
        tell_poll(&mut self.core, r);
        mark_polled(&mut self.reads, r as usize);
        self.polled = self.polled.saturating_add(1);
    }

    /// The last request of a read ends with the read's bytes, if they are there.
    #[inline(always)]
    fn leave_with_bytes(&mut self, n: usize, r: u64) -> Reply
        requires { (x : SharedRead) → slice_get self.old.reads r ≡ Some x → x.users ≤ 1 }
        ensures reply { (x : SharedRead) → slice_get self.old.reads r ≡ Some x → result ≡ reply_good x.bytes }
        ensures after { (x : SharedRead) → slice_get self.old.reads r ≡ Some x → self.new ≡ after_good self.old n r x.bytes }
    {
        let Some(buffer) = take_bytes(&mut self.reads, r as usize) else {
            return Reply::NotLive;
        };
        tell_drop(&mut self.core, r);
        end_request(&mut self.requests, n);
        Reply::Ready(buffer)
    }

    /// Answers a poll of a request whose read has its bytes. The last one takes them, and needs no further owner of them.
    #[inline(always)]
    fn poll_good(&mut self, alloc: Global, n: usize, r: u64) -> Result<Reply, AllocError>
        ensures reply { (x : SharedRead) → slice_get self.old.reads r ≡ Some x → IfOk result (λ reply. reply ≡ reply_good x.bytes) }
        ensures after { (x : SharedRead) → slice_get self.old.reads r ≡ Some x → OnOk result (self.new ≡ after_good self.old n r x.bytes) }
        ensures err { OnErr result (self.new ≡ self.old) }
    {
        let Some(read) = self.reads.get(r as usize) else {
            return Ok(Reply::NotLive);
        };
        let users = read.users();
        if users <= 1 {
            return Ok(self.leave_with_bytes(n, r));
        }
        let Some(buffer) = read.share_bytes(alloc)? else {
            return Ok(Reply::NotLive);
        };
        self.leave(n, r);
        Ok(Reply::Ready(buffer))
    }

    /// Answers a poll of a request that shares a read.
    #[inline(always)]
    fn poll_read(&mut self, alloc: Global, n: usize, r: u64) -> Result<Reply, AllocError>
        ensures reply { IfOk result (λ reply. reply ≡ reply_read (slice_get self.old.reads r)) }
        ensures after { OnOk result (self.new ≡ after_read self.old n r (slice_get self.old.reads r)) }
        ensures err { OnErr result (self.new ≡ self.old) }
    {
        let Some(read) = self.reads.get(r as usize) else {
            return Ok(Reply::NotLive);
        };
        let polled = read.is_polled();
        match read.outcome() {
            None => {
                self.poll_waiting(r, polled);
                Ok(Reply::Pending)
            }
            Some(SpanOutcome::Good) => {
                let reply = self.poll_good(alloc, n, r)?;
                Ok(reply)
            }
            Some(SpanOutcome::Bad(fault)) => {
                self.leave(n, r);
                Ok(Reply::Failed(FailCause::Fault(fault)))
            }
        }
    }

    /// Answers a poll, by what is kept.
    #[inline(always)]
    fn poll_kept(&mut self, alloc: Global, number: u64) -> Result<Reply, AllocError>
        ensures reply { IfOk result (λ reply. reply ≡ poll_reply self.old number) }
        ensures after { OnOk result (self.new ≡ after_poll self.old number) }
        ensures err { OnErr result (self.new ≡ self.old) }
    {
        let n = number as usize;
        let Some(request) = self.requests.get(n) else {
            return Ok(Reply::NotLive);
        };
        match request.place() {
            Place::Held(buffer) => {
                let buffer = buffer.share(alloc)?;
                self.leave_held(n);
                Ok(Reply::Ready(buffer))
            }
            Place::Reads(r) => {
                let r = *r;
                let reply = self.poll_read(alloc, n, r)?;
                Ok(reply)
            }
            Place::Ended => Ok(Reply::NotLive),
        }
    }

    /// Ends a request, by what is kept.
    #[inline(always)]
    fn drop_kept(&mut self, number: u64) -> Reply
        ensures reply { result ≡ drop_reply self.old number }
        ensures after { self.new ≡ after_drop self.old number }
    {
        let n = number as usize;
        let Some(request) = self.requests.get(n) else {
            return Reply::NotLive;
        };
        match request.place() {
            Place::Held(_) => self.leave_held(n),
            Place::Reads(r) => {
                let r = *r;
                self.leave(n, r);
            }
            Place::Ended => return Reply::NotLive,
        }
        Reply::Dropped
    }

    /// Makes a request for a segment, which is looked for in the table, in the tail, in the cache and among the
    /// reads. Without memory the session is as before.
    #[inline(always)]
    pub fn register<C: SegmentCache>(
        &mut self,
        alloc: Global,
        cache: &mut C,
        id: SegmentId,
    ) -> Result<Reply, AllocError>
        requires { length self.old.requests < u64.MAX }
        ensures registers { IfOk result (λ reply. (w : World) (past : List Moment) → Stands w past self.old →
            Registers w past id.0 (C.state cache.old) (C.state cache.new) reply self.new) }
        ensures bytes { OnOk result ((w : World) (past : List Moment) (file : List ℕ) → Stands w past self.old → HasBytes file self.old →
            TellsSlices file self.old.table (C.state cache.old) → HasBytes file self.new) }
        ensures slices { (file : List ℕ) (table : List SegmentSpec) → TellsSlices file table (C.state cache.old) → TellsSlices file table (C.state cache.new) }
        ensures settings { self.new.idle ≡ self.old.idle }
        ensures room { length self.new.requests ≤ length self.old.requests + 1 }
        ensures err { OnErr result (self.new ≡ self.old) }
        ensures same { SameCache (C.state cache.old) (C.state cache.new) }
    {
        let look = self.look(alloc, cache, id)?;
        let reply = self.answer(alloc, id.0, look)?;
        Ok(reply)
    }

    /// Answers a poll. Without memory the session is as before.
    #[inline(always)]
    pub fn poll(&mut self, alloc: Global, number: u64) -> Result<Reply, AllocError>
        ensures polls { IfOk result (λ reply. (w : World) (past : List Moment) → Stands w past self.old →
            IsNext w past (polls number) reply self.new) }
        ensures bytes { IfOk result (λ reply. (w : World) (past : List Moment) (file : List ℕ) → Stands w past self.old → HasBytes file self.old →
            IsTrueReply file w past number reply × HasBytes file self.new) }
        ensures settings { self.new.idle ≡ self.old.idle }
        ensures made { length self.new.requests ≡ length self.old.requests }
        ensures err { OnErr result (self.new ≡ self.old) }
    {
        let reply = self.poll_kept(alloc, number)?;
        Ok(reply)
    }

    /// Ends a request.
    #[inline(always)]
    pub fn drop_request(&mut self, number: u64) -> Reply
        ensures drops { (w : World) (past : List Moment) → Stands w past self.old → IsNext w past (drops number) result self.new }
        ensures bytes { (file : List ℕ) → HasBytes file self.old → HasBytes file self.new }
        ensures settings { self.new.idle ≡ self.old.idle }
        ensures made { length self.new.requests ≡ length self.old.requests }
    {
        let reply = self.drop_kept(number);
        reply
    }

    /// How many ranges one call of a reader asks at most.
    pub fn concurrency(&self) -> usize
        ensures value { result ≡ self.now.idle.concurrency }
        ensures settings { (w : World) (past : List Moment) → Stands w past self.now → result ≡ w.idle.concurrency }
    {
        self.limit()
    }

    /// How many ranges one call of a reader asks; none is in flight between calls.
    fn limit(&self) -> usize
        ensures core { result ≡ self.now.core.concurrency }
        ensures idle { result ≡ self.now.idle.concurrency }
        ensures some { 1 ≤ result }
        ensures rests { ranges_in_flight self.now.core.reads ≡ 0 }
    {
        self.core.concurrency()
    }

    /// Makes the scheduler ready for a block. Only memory refuses.
    fn arrange(&mut self) -> Result<(), AllocError>
        ensures { self.new ≡ self.old }
    {
        tell_block(&mut self.core)?;
        Ok(())
    }

    /// The spans that are to be asked next, as many as one call asks unless no polled read is left.
    fn next_block(&self, alloc: Global) -> Result<Vec<CoalescedRequest>, AllocError>
        ensures merge { IfOk result (λ spans. MergesInTurn self.now.core spans.items) }
        ensures few { IfOk result (λ spans. length spans.items ≤ self.now.core.concurrency) }
        ensures all { IfOk result (λ spans. length spans.items < self.now.core.concurrency → NonePolled (all_taken self.now.core spans.items).reads) }
        ensures may { IfOk result (λ spans. 1 ≤ length spans.items → MayTake self.now.core spans.items) }
        ensures some { 1 ≤ self.now.core.concurrency }
    {
        let most = self.limit();
        let spans = self.core.batch(alloc, most)?;
        Ok(spans)
    }

    /// The buffers of what a block gave, for a cache that does not forget them.
    fn buffers<C: SegmentCache>(
        &self,
        alloc: Global,
        cache: &C,
        filed: &[Filed],
    ) -> Result<Vec<(SegmentId, ByteBuffer)>, AllocError>
        ensures { IfOk result (λ puts. AreHanded (puts_of self.now.requests filed.now) (C.state cache.now) puts.items) }
    {
        if cache.forgets_puts() {
            return Ok(Vec::new(alloc));
        }
        let puts = puts_of(alloc, self.requests.as_slice(), filed)?;
        Ok(puts)
    }

    /// Takes a block of spans whose bytes or faults came, and files them.
    fn commit(&mut self, spans: &[CoalescedRequest], filed: Vec<Filed>)
        requires { MayTake self.old.core spans.now }
        ensures after { self.new ≡ record self.old {
          core = settled self.old.core spans.now;
          reads = file_reads self.old.reads filed.items;
          metrics = with_cores spans.now (with_call (length spans.now) self.old.metrics);
        } }
        ensures polled { (q : ℕ) → polled_at self.new.core.reads q ≡ polled_at (all_taken self.old.core spans.now).reads q }
        ensures fewer { count_in Polled self.new.core.reads < count_in Polled self.old.core.reads }
    {
        self.core.settle(spans);
        file_all(&mut self.reads, filed);
        count_block(&mut self.counts, spans);
    }

    /// Room for the spans of a drive, if there is memory for all, since a vector that grows fills its memory anew.
    fn room_for_spans(&mut self, alloc: Global) -> Vec<Span>
        ensures none { result.items ≡ [] }
        ensures kept { self.new ≡ self.old }
    {
        let count = self.polled;
        self.polled = 0;
        match Vec::with_capacity(alloc, count) {
            Ok(room) => room,
            Err(_) => Vec::new(alloc),
        }
    }

    /// Asks the next block, if a polled read waits, and tells whether more may wait. Without memory nothing changes
    /// but the reader.
    fn turn<R: Reader, C: SegmentCache>(
        &mut self,
        alloc: Global,
        reader: &mut R,
        cache: &mut C,
        done: &mut Vec<Span>,
    ) -> Result<bool, AllocError>
        requires { self.old.idle.concurrency ≤ (R.state reader.old).concurrency }
        ensures turned { IfOk result (IsTurned self.old self.new done.old.items done.new.items (R.state reader.old) (R.state reader.new)
            (C.state cache.old) (C.state cache.new)) }
        ensures fewer { IfOk result (λ more. more ≡ true → count_in Polled self.new.core.reads < count_in Polled self.old.core.reads) }
        ensures err { OnErr result (self.new ≡ self.old) }
        ensures err_done { OnErr result (done.new.items ≡ done.old.items) }
        ensures lost { OnErr result (IsLost self.old (R.state reader.old).log (R.state reader.new).log) }
        ensures err_cache { OnErr result (C.state cache.new ≡ C.state cache.old) }
        ensures idle { self.new.idle ≡ self.old.idle }
        ensures made { length self.new.requests ≡ length self.old.requests }
        ensures steady { (file : List ℕ) → (R.state reader.old).never_fails ≡ true → (R.state reader.old).bytes ≡ Some file →
            WaitsWithin (length file) self.old → (R.state reader.new).faults ≡ (R.state reader.old).faults }
        ensures sound { IfOk result (λ _. (file : List ℕ) → (R.state reader.old).never_fails ≡ true → (R.state reader.old).bytes ≡ Some file →
            WaitsWithin (length file) self.old → bad_spans done.new.items ≡ bad_spans done.old.items) }
        ensures same { SameReader (R.state reader.old) (R.state reader.new) }
        ensures same_cache { SameCache (C.state cache.old) (C.state cache.new) }
    {
        let most = self.limit();
        if !self.core.has_polled() {
            return Ok(false);
        }
        self.arrange()?;
        let spans = self.next_block(alloc)?;
        if spans.is_empty() {
            return Ok(false);
        }
        let Block { mut reports, filed } = ask_block(alloc, reader, spans.as_slice())?;
        let puts = self.buffers(alloc, cache, filed.as_slice())?;
        done.append(&mut reports)?;
        self.commit(spans.as_slice(), filed);
        put_all(alloc, cache, puts);
        Ok(spans.len() == most)
    }

    /// Asks block after block until no polled read waits. Without memory what was resolved stays so.
    pub fn drive<R: Reader, C: SegmentCache>(
        &mut self,
        alloc: Global,
        reader: &mut R,
        cache: &mut C,
    ) -> Result<Vec<Span>, AllocError>
        requires { self.old.idle.concurrency ≤ (R.state reader.old).concurrency }
        ensures driven { IfOk result (λ spans. (w : World) (past : List Moment) → Stands w past self.old →
            IsNext w past drives (Driven spans.items) self.new) }
        ensures log { IfOk result (λ spans. Grew (asked_by spans.items) (R.state reader.old).log (R.state reader.new).log) }
        ensures bad { IfOk result (λ spans. Rises (bad_spans spans.items) (R.state reader.old).faults (R.state reader.new).faults) }
        ensures bytes { (w : World) (past : List Moment) (file : List ℕ) → (R.state reader.old).bytes ≡ Some file → Stands w past self.old →
            HasBytes file self.old → HasBytes file self.new }
        ensures slices { (w : World) (past : List Moment) (file : List ℕ) → (R.state reader.old).bytes ≡ Some file → Stands w past self.old →
            HasBytes file self.old → TellsSlices file w.table (C.state cache.old) → TellsSlices file w.table (C.state cache.new) }
        // Of a reader that never fails the count stands still, and no span fails, where each segment ends within the file.
        ensures steady { (w : World) (past : List Moment) (file : List ℕ) → (R.state reader.old).never_fails ≡ true → (R.state reader.old).bytes ≡ Some file →
            Stands w past self.old → EndsWithin (length file) w.table → (R.state reader.new).faults ≡ (R.state reader.old).faults }
        ensures sound { IfOk result (λ spans. (w : World) (past : List Moment) (file : List ℕ) → (R.state reader.old).never_fails ≡ true →
            (R.state reader.old).bytes ≡ Some file → Stands w past self.old → EndsWithin (length file) w.table → bad_spans spans.items ≡ 0) }
        ensures stopped { OnErr result ((w : World) (past : List Moment) → Stands w past self.old →
            StopsDrive w past (R.state reader.old).log (R.state reader.new).log (C.state cache.old) (C.state cache.new) self.new) }
        ensures puts { IfOk result (λ spans. (w : World) (past : List Moment) → Stands w past self.old →
            PutsBy past spans.items (C.state cache.old) (C.state cache.new)) }
        ensures settings { self.new.idle ≡ self.old.idle }
        ensures made { length self.new.requests ≡ length self.old.requests }
        ensures same { SameReader (R.state reader.old) (R.state reader.new) }
        ensures same_cache { SameCache (C.state cache.old) (C.state cache.new) }
    {
        let mut done = self.room_for_spans(alloc);
        while self.turn(alloc, reader, cache, &mut done)? {}
        Ok(done)
    }
}
