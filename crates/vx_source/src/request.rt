//! What a session keeps of its requests and their reads.
ghost use Rattle.std.specs.Prelude.{◌≡◌, ◌<◌, ◌≤◌, Some, None, true, false, IfOk, IfSome, IfNone};
ghost use Rattle.vx_source.specs.Blocks.{with_filed};
ghost use Rattle.vx_source.specs.Kept.{ended, one_more, one_less, marked};
ghost use Rattle.vx_source.specs.Requests.{standing_in, outcome_in, bytes_in, Held, Reads};
ghost use Rattle.vx_source.specs.declared.span.SpanOutcome.TheVariants.{Good, Bad};

use crate::SpanOutcome;
use std::alloc::{AllocError, Global};
use std::marker::Model;
use std::mem;
use vx_base::ByteBuffer;
use vx_sched::Fault;

/// Where a request stands: its bytes are at hand, it shares a read, or it ended.
#[derive(Drop)]
pub enum Place {
    Held(Box<ByteBuffer>),
    Reads(u64),
    Ended,
}

/// A request for a segment.
#[derive(Drop)]
pub struct Request {
    number_of_segment: u32,
    place: Place,
}

impl Model for Request {
    ghost use Rattle.vx_source.specs.Requests as kept;

    ghost Value = { kept.Request };

    ghost view = { λ q. record { segment = q.number_of_segment; standing = kept.standing_in q.place } };
}

impl Request {
    /// A request whose bytes are at hand. Only memory refuses.
    pub fn held(alloc: Global, segment: u32, buffer: ByteBuffer) -> Result<Request, AllocError>
        ensures { IfOk result (λ q. q ≡ record { segment = segment; standing = Held buffer }) }
    {
        let Ok(held) = Box::new(alloc, buffer) else {
            return Err(AllocError);
        };
        Ok(Request {
            number_of_segment: segment,
            place: Place::Held(held),
        })
    }

    /// A request that shares a read.
    pub fn sharing(segment: u32, read: u64) -> Request
        ensures { result ≡ record { segment = segment; standing = Reads read } }
    {
        Request {
            number_of_segment: segment,
            place: Place::Reads(read),
        }
    }

    pub fn segment(&self) -> u32
        ensures { result ≡ self.now.segment }
    {
        self.number_of_segment
    }

    /// Where it stands.
    pub fn place(&self) -> &Place
        ensures { standing_in result.now ≡ self.now.standing }
    {
        &self.place
    }

    /// Ends it.
    pub fn end(&mut self)
        ensures { self.new ≡ ended self.old }
    {
        self.place = Place::Ended;
    }
}

/// What became of a read: it waits, its bytes came, they came and no request wants them any more, or it failed.
#[derive(Drop)]
pub enum Fate {
    Waits,
    Good(ByteBuffer),
    Spent,
    Bad(Fault),
}

impl Fate {
    /// How the span of the read went, if it was read.
    fn outcome(&self) -> Option<SpanOutcome>
        ensures { result ≡ outcome_in self.now }
    {
        match self {
            Fate::Waits => None,
            Fate::Good(_) | Fate::Spent => Some(SpanOutcome::Good),
            Fate::Bad(fault) => Some(SpanOutcome::Bad(*fault)),
        }
    }

    /// Another owner of the bytes, if they are there. Only memory refuses.
    fn share(&self, alloc: Global) -> Result<Option<ByteBuffer>, AllocError>
        ensures { IfOk result (λ bytes. bytes ≡ bytes_in self.now) }
    {
        match self {
            Fate::Good(buffer) => {
                let shared = buffer.share(alloc)?;
                Ok(Some(shared))
            }
            _ => Ok(None),
        }
    }
}

/// A read: how many live requests share it, whether one of them was polled, and what became of it.
#[derive(Drop)]
pub struct SharedRead {
    requests: u64,
    is_polled: bool,
    fate: Fate,
}

impl Model for SharedRead {
    ghost use Rattle.vx_source.specs.Requests as kept;

    ghost Value = { kept.SharedRead };

    ghost view = { λ r. record {
      users = r.requests;
      polled = r.is_polled;
      outcome = kept.outcome_in r.fate;
      bytes = kept.bytes_in r.fate;
    } };
}

impl SharedRead {
    /// A read with so many requests.
    pub fn new(users: u64) -> SharedRead
        ensures { result ≡ record { users = users; polled = false; outcome = None; bytes = None } }
    {
        SharedRead {
            requests: users,
            is_polled: false,
            fate: Fate::Waits,
        }
    }

    /// How many live requests share it.
    pub fn users(&self) -> u64
        ensures { result ≡ self.now.users }
    {
        self.requests
    }

    pub fn is_polled(&self) -> bool
        ensures { result ≡ self.now.polled }
    {
        self.is_polled
    }

    /// How its span was read.
    pub fn outcome(&self) -> Option<SpanOutcome>
        ensures { result ≡ self.now.outcome }
    {
        self.fate.outcome()
    }

    /// Another owner of its bytes, if they are there. Only memory refuses.
    pub fn share_bytes(&self, alloc: Global) -> Result<Option<ByteBuffer>, AllocError>
        ensures { IfOk result (λ bytes. bytes ≡ self.now.bytes) }
    {
        self.fate.share(alloc)
    }

    /// Its last request leaves with its bytes, if they are there.
    pub fn take_bytes(&mut self) -> Option<ByteBuffer>
        requires { self.old.users ≤ 1 }
        ensures bytes { result ≡ self.old.bytes }
        ensures taken { IfSome result (λ _. self.new ≡ one_less self.old) }
        ensures kept { IfNone result (self.new ≡ self.old) }
    {
        let Fate::Good(_) = &self.fate else {
            return None;
        };
        self.requests = self.requests.saturating_sub(1);
        match mem::replace(&mut self.fate, Fate::Spent) {
            Fate::Good(buffer) => Some(buffer),
            _ => unreachable!(),
        }
    }

    /// It has one request more.
    pub fn add_user(&mut self)
        ensures { self.new ≡ one_more self.old }
    {
        self.requests = self.requests.saturating_add(1);
    }

    /// It has one request less. With the last one its bytes go.
    pub fn remove_user(&mut self)
        ensures { self.new ≡ one_less self.old }
    {
        if self.requests <= 1 {
            if let Fate::Good(_) = &self.fate {
                self.fate = Fate::Spent;
            }
        }
        self.requests = self.requests.saturating_sub(1);
    }

    /// It was polled.
    pub fn mark_polled(&mut self)
        ensures { self.new ≡ marked self.old }
    {
        self.is_polled = true;
    }

    /// Files what its span gave it, the first time.
    pub fn file(&mut self, filed: Filed)
        ensures { self.new ≡ with_filed filed self.old }
    {
        if let Fate::Waits = &self.fate {
            self.fate = filed.fate;
        }
    }
}

/// What a span gives one of its reads.
#[derive(Drop)]
pub struct Filed {
    number: u64,
    fate: Fate,
}

impl Model for Filed {
    ghost use Rattle.std.specs.Prelude.{◌≡◌, true, unwrap_or, is_some};
    ghost use Rattle.vx_source.specs.Requests as kept;
    ghost use Rattle.vx_source.specs.declared.span.SpanOutcome.TheVariants.{Good};

    ghost Value = { kept.Filed };

    ghost view = { λ f. record {
      read = f.number;
      outcome = unwrap_or (kept.outcome_in f.fate) Good;
      bytes = kept.bytes_in f.fate;
    } };

    ghost invariant = { λ f. is_some (kept.outcome_in f.fate) ≡ true };
}

impl Filed {
    /// The bytes of a read.
    pub fn good(read: u64, bytes: ByteBuffer) -> Filed
        ensures { result ≡ record { read = read; outcome = Good; bytes = Some bytes } }
    {
        Filed {
            number: read,
            fate: Fate::Good(bytes),
        }
    }

    /// The fault of a read's span.
    pub fn bad(read: u64, fault: Fault) -> Filed
        ensures { result ≡ record { read = read; outcome = Bad fault; bytes = None } }
    {
        Filed {
            number: read,
            fate: Fate::Bad(fault),
        }
    }

    /// The number of the read.
    pub fn read(&self) -> u64
        ensures { result ≡ self.now.read }
    {
        self.number
    }

    /// Another owner of its bytes, if they are there. Only memory refuses.
    pub fn share_bytes(&self, alloc: Global) -> Result<Option<ByteBuffer>, AllocError>
        ensures { IfOk result (λ bytes. bytes ≡ self.now.bytes) }
    {
        self.fate.share(alloc)
    }
}

/// The newest read of a segment, if there is one: 0 for none, or the number that follows that of the read.
#[derive(Drop)]
pub struct Newest {
    following: u64,
}

impl Model for Newest {
    ghost use Rattle.std.specs.Prelude.{ℕ, ◌==◌, ◌-◌, Option, Some, None, if◌then◌else◌};

    ghost Value = { Option ℕ };

    ghost view = { λ n. if n.following == 0 then None else Some (n.following - 1) };
}

impl Newest {
    /// No read.
    pub fn none() -> Newest
        ensures { result ≡ None }
    {
        Newest { following: 0 }
    }

    /// A read of this number.
    pub fn of(read: u64) -> Newest
        requires { read < u64.MAX }
        ensures { result ≡ Some read }
    {
        Newest {
            following: read + 1,
        }
    }

    /// The number of the read.
    pub fn read(&self) -> Option<u64>
        ensures { result ≡ self.now }
    {
        if self.following == 0 {
            return None;
        }
        Some(self.following - 1)
    }
}
