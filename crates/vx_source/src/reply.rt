//! What a session answers.
use crate::Span;
use vx_base::{ByteBuffer, Sequence};
use vx_sched::Fault;

/// Why a request failed: a fault of its read, or of the cache that was asked for its segment.
#[derive(Clone, Copy, Debug, PartialEq, Eq)]
pub enum FailCause {
    Fault(Fault),
    Cache,
}

/// The answer to one step.
#[derive(Drop)]
pub enum Reply {
    /// A request was made under this number; `held` where its bytes are at hand.
    Registered { number: u64, held: bool },
    /// No segment has this number.
    MissingSegment,
    /// The bytes of the request's segment. The request ends.
    Ready(ByteBuffer),
    /// The request's read waits for a drive.
    Pending,
    /// The request's read failed, and the request ends; or the cache failed, and no request was made.
    Failed(FailCause),
    /// The request ended.
    Dropped,
    /// No request with this number is live.
    NotLive,
    /// What a drive read.
    Driven(Sequence<Span>),
}
