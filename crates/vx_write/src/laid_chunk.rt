//! Chunks that lie in a file, and those of one leaf.

use vx_base::SegmentSpec;

/// A chunk that lies in a file: where, of which leaf it is, and how many rows it has.
#[derive(Clone, Copy, Debug, PartialEq, Eq)]
pub struct Laid {
    pub spec: SegmentSpec,
    pub leaf: usize,
    pub rows: u64,
}

/// A chunk of a leaf: how many rows it has, and the number of its segment.
#[derive(Clone, Copy, Debug, PartialEq, Eq)]
pub struct Numbered {
    pub rows: u64,
    pub segment: u32,
}
