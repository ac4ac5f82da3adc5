//! The spans of a drive.
use vx_base::{Alignment, Sequence};
use vx_sched::Fault;

/// How a span was read.
#[derive(Clone, Copy, Debug, PartialEq, Eq)]
pub enum SpanOutcome {
    Good,
    Bad(Fault),
}

/// A range that was read: its places, the alignment that was asked, the reads that it served, in order of
/// offset and number, and how that went.
#[derive(Drop)]
pub struct Span {
    pub start: u64,
    pub end: u64,
    pub alignment: Alignment,
    pub reads: Sequence<u64>,
    pub outcome: SpanOutcome,
}
