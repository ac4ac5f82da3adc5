//! What is told of a file that was written to memory and opened.
use vx_base::Sequence;

/// How many rows and bytes a file has, how many segments of data, what each column takes, and which ranges opening it read.
#[derive(Drop)]
pub struct FileSummary {
    pub rows: u64,
    pub size: u64,
    pub segments: u64,
    pub columns: Sequence<u64>,
    pub opening: Sequence<(u64, u64)>,
}
