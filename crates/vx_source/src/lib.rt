//! Many requests for segments of one file in flight over one reader: near reads are merged, dropped requests
//! are harmless, and failed reads stay apart.
#![tactic(auto)]

mod buffer_source;
mod fetching;
mod filing;
mod initial;
mod law;
mod look;
mod lru_segments;
mod putting;
mod reply;
mod request;
mod segment_source;
mod session;
mod session_source;
mod slots;
mod span;
mod tail;
mod telling;

pub use buffer_source::BufferSegmentSource;
pub use fetching::Fetched;
pub use initial::InitialReadSegmentCache;
pub use law::law_of_sessions;
pub use lru_segments::LruSegments;
pub use reply::{FailCause, Reply};
pub use segment_source::{SegmentSource, SourceError};
pub use session::Session;
pub use session_source::SessionSource;
pub use span::{Span, SpanOutcome};
pub use tail::Tail;
