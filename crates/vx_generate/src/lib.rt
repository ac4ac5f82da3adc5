//! The rows that are generated from a seed.
#![tactic(auto)]

mod generated_bytes;
mod generating;

pub use generated_bytes::MOST_ROWS;
pub use generating::generated;
