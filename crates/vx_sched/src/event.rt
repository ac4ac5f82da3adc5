//! What happens to a scheduler.
use crate::{CoalescedRequest, ReadRequest};
use std::marker::Model;

/// What a caller does: asks for a read, polls it, or drops it.
#[derive(Clone, Copy, Debug, PartialEq, Eq)]
pub enum ReadEvent {
    Request(ReadRequest),
    Polled(u64),
    Dropped(u64),
}

/// Spans that are taken together.
#[derive(Drop)]
pub struct Batch {
    spans: Vec<CoalescedRequest>,
}

impl Model for Batch {
    ghost use Rattle.std.specs.Prelude.{List};
    ghost use Rattle.vx_sched.specs.Span.{Span};

    ghost Value = { List Span };

    ghost view = { λ b. b.spans.items };
}

impl Batch {
    ghost use Rattle.std.specs.Prelude.{◌≡◌};

    /// A batch of these spans.
    pub fn new(spans: Vec<CoalescedRequest>) -> Batch
        ensures { result ≡ spans.items }
    {
        Batch { spans }
    }

    /// The spans.
    pub fn into_spans(self) -> Vec<CoalescedRequest>
        ensures { result.items ≡ self }
    {
        let Batch { spans } = self;
        spans
    }
}

/// All that happens to a scheduler: what callers do, spans that are taken, and spans that are
/// resolved.
#[derive(Drop)]
pub enum Event {
    Request(ReadRequest),
    Polled(u64),
    Dropped(u64),
    Take(Batch),
    Resolve(CoalescedRequest),
}
