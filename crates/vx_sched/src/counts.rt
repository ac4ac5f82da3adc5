//! How many reads a scheduler has in each state.
ghost use Rattle.std.specs.Prelude.{◌≡◌};
ghost use Rattle.vx_sched.specs.Counting.{slot_is, is_of};

use crate::read::{Read, Stage};

/// How many reads are registered, polled, in flight and resolved, and how many ranges are in flight.
#[derive(Clone, Copy, Debug, PartialEq, Eq)]
pub struct Counts {
    pub registered: usize,
    pub polled: usize,
    pub in_flight: usize,
    pub resolved: usize,
    pub ranges: usize,
}

/// What is counted.
#[derive(Clone, Copy)]
pub enum Kind {
    IsRegistered,
    IsPolled,
    IsFlying,
    IsResolved,
    Leads,
}

/// Whether a read is of a kind.
fn is_kind(kind: Kind, id: u64, stage: &Stage) -> bool
    ensures { result ≡ is_of kind id stage.now }
{
    match (kind, stage) {
        (Kind::IsRegistered, Stage::Registered) => true,
        (Kind::IsPolled, Stage::Polled) => true,
        (Kind::IsFlying, Stage::InFlight { .. }) => true,
        (Kind::IsResolved, Stage::Resolved) => true,
        (
            Kind::Leads,
            Stage::InFlight {
                span,
                size: _,
                dropped: _,
            },
        ) => *span == id,
        _ => false,
    }
}

/// Whether there is a read, and it is of a kind.
pub fn is_read_kind(kind: Kind, found: &Option<Read>) -> bool
    ensures { result ≡ slot_is kind found.now }
{
    match found {
        Some(read) => is_kind(kind, read.request().id, &read.stage()),
        None => false,
    }
}
