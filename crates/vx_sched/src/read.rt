//! A read that a scheduler keeps, and what happens to it.
ghost use Rattle.std.specs.Prelude.{◌≡◌};
ghost use Rattle.vx_sched.specs.Entries.{after, waits_in, polled_in, state_of};
ghost use Rattle.vx_sched.specs.declared.read.Stage.TheVariants as Stage;

use crate::ReadRequest;
use std::marker::Model;
use vx_base::Alignment;

/// Where a read stands.
#[derive(Clone, Copy, Debug, PartialEq, Eq)]
pub enum ReadState {
    Registered,
    Polled,
    InFlight,
    Resolved,
}

/// What is kept of where a read stands. A read in flight names its span by the number of the span's first read, and
/// knows how many reads that has, and whether it was dropped meanwhile.
#[derive(Clone, Copy, Debug, PartialEq, Eq)]
pub enum Stage {
    Registered,
    Polled,
    InFlight {
        span: u64,
        size: usize,
        dropped: bool,
    },
    Resolved,
}

/// The stage of a read in flight in a span of so many reads.
#[inline(always)]
fn in_flight(span: u64, size: usize, dropped: bool) -> Stage
    ensures { result ≡ Stage.InFlight span size dropped }
{
    Stage::InFlight {
        span,
        size,
        dropped,
    }
}

/// How a read stands, without the span that it may be in.
#[derive(Clone, Copy)]
pub enum Standing {
    Registered,
    Polled,
    Flies,
    FliesDropped,
    Resolved,
}

/// A read and its stage, in few bytes, those first that gathering looks at.
#[derive(Clone, Copy)]
pub struct Read {
    standing: Standing,
    alignment: Alignment,
    offset: u64,
    length: usize,
    id: u64,
    span: u64,
    size: usize,
}

impl Model for Read {
    ghost use Rattle.vx_sched.specs.Stored as stored;

    ghost Value = { stored.Read };

    ghost view = { λ r. record {
      request = record { id = r.id; offset = r.offset; length = r.length; alignment = r.alignment };
      stage = stored.stage_of r.standing r.span r.size;
    } };

    ghost invariant = { λ r. stored.IsTidy r.standing r.span r.size };

    ghost inverse = { λ r. record {
      standing = stored.standing_of r.stage;
      alignment = r.request.alignment;
      offset = r.request.offset;
      length = r.request.length;
      id = r.request.id;
      span = stored.span_in r.stage;
      size = stored.size_in r.stage;
    } };

    ghost inverse_ok = { λ r tidy. λ i. record {
      standing = stored.standing_back r.standing r.span r.size i;
      alignment = r.alignment;
      offset = r.offset;
      length = r.length;
      id = r.id;
      span = stored.span_back r.standing r.span r.size tidy i;
      size = stored.size_back r.standing r.span r.size tidy i;
    } };
}

impl Read {
    /// A read in a stage.
    #[inline(always)]
    pub fn new(request: ReadRequest, stage: Stage) -> Read
        ensures { result ≡ record { request = request; stage = stage } }
    {
        let (standing, span, size) = match stage {
            Stage::Registered => (Standing::Registered, 0, 0),
            Stage::Polled => (Standing::Polled, 0, 0),
            Stage::InFlight {
                span,
                size,
                dropped,
            } => {
                if dropped {
                    (Standing::FliesDropped, span, size)
                } else {
                    (Standing::Flies, span, size)
                }
            }
            Stage::Resolved => (Standing::Resolved, 0, 0),
        };
        Read {
            standing,
            alignment: request.alignment,
            offset: request.offset,
            length: request.length,
            id: request.id,
            span,
            size,
        }
    }

    /// What was asked.
    #[inline(always)]
    pub fn request(&self) -> ReadRequest
        ensures { result ≡ self.now.request }
    {
        ReadRequest {
            id: self.id,
            offset: self.offset,
            length: self.length,
            alignment: self.alignment,
        }
    }

    /// The stage that it is in.
    #[inline(always)]
    pub fn stage(&self) -> Stage
        ensures { result ≡ self.now.stage }
    {
        match self.standing {
            Standing::Registered => Stage::Registered,
            Standing::Polled => Stage::Polled,
            Standing::Flies => in_flight(self.span, self.size, false),
            Standing::FliesDropped => in_flight(self.span, self.size, true),
            Standing::Resolved => Stage::Resolved,
        }
    }
}

/// What happens to a read.
#[derive(Clone, Copy, Debug, PartialEq, Eq)]
pub enum Change {
    Poll,
    Cancel,
    Take { span: u64, size: usize },
    Resolve,
    /// It is taken and resolved at once.
    Settle,
}

/// The stage of a read after a change, or that it is gone.
#[inline(always)]
pub fn stage_after(change: Change, stage: Stage) -> Option<Stage>
    ensures { result ≡ after change stage }
{
    match (change, stage) {
        (Change::Poll, Stage::Registered) => Some(Stage::Polled),
        (
            Change::Cancel,
            Stage::InFlight {
                span,
                size,
                dropped: _,
            },
        ) => Some(Stage::InFlight {
            span,
            size,
            dropped: true,
        }),
        (Change::Cancel, _) => None,
        (Change::Take { span, size }, Stage::Registered | Stage::Polled) => Some(Stage::InFlight {
            span,
            size,
            dropped: false,
        }),
        (
            Change::Resolve,
            Stage::InFlight {
                span: _,
                size: _,
                dropped,
            },
        ) => { if dropped { None } else { Some(Stage::Resolved) } }
        (Change::Settle, Stage::Registered | Stage::Polled) => Some(Stage::Resolved),
        _ => Some(stage),
    }
}

impl Stage {
    pub fn state(&self) -> ReadState
        ensures { result ≡ state_of self.now }
    {
        match self {
            Stage::Registered => ReadState::Registered,
            Stage::Polled => ReadState::Polled,
            Stage::InFlight { .. } => ReadState::InFlight,
            Stage::Resolved => ReadState::Resolved,
        }
    }

    #[inline(always)]
    pub fn is_waiting(&self) -> bool
        ensures { result ≡ waits_in self.now }
    {
        match self {
            Stage::Registered | Stage::Polled => true,
            _ => false,
        }
    }

    #[inline(always)]
    pub fn is_polled(&self) -> bool
        ensures { result ≡ polled_in self.now }
    {
        match self {
            Stage::Polled => true,
            _ => false,
        }
    }
}
