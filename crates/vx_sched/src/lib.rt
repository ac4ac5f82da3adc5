//! The scheduler of a coalescing reader: reads are registered, polled, gathered into spans, and
//! resolved.
#![tactic(auto)]

mod asking;
mod batching;
mod bit_set;
mod bits;
mod counts;
mod event;
mod fault;
mod flying;
mod gather;
mod io_request;
mod law;
mod metrics;
mod numbered;
mod places;
mod read;
mod read_map;
mod request;
mod sieve;
mod span;
mod state;
mod table;
mod taken;

pub use asking::{ask, ask_size};
pub use counts::Counts;
pub use event::{Batch, Event, ReadEvent};
pub use fault::{Fault, Outcome, Place};
pub use io_request::{IoRequest, request_of};
pub use law::{law_of_calls, scheduling_law};
pub use metrics::RequestMetrics;
pub use read::ReadState;
pub use request::ReadRequest;
pub use span::{CoalescedRequest, RangeError};
pub use state::State;
