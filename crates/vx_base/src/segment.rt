//! Places of a file.
ghost use Rattle.std.specs.Prelude.{◌≡◌, ◌+◌, ◌^◌, ◌<◌};

use crate::Alignment;
use std::ops::Range;

/// A segment of a file: where it begins, its length in bytes, and its alignment.
#[derive(Clone, Copy, Debug, PartialEq, Eq)]
pub struct SegmentSpec {
    pub offset: u64,
    pub length: u32,
    pub alignment: Alignment,
}

impl SegmentSpec {
    /// The bytes' places in the file.
    pub fn byte_range(&self) -> Range<u64>
        requires { self.now.offset + self.now.length < 2 ^ 64 }
        ensures start { result.start ≡ self.now.offset }
        ensures end { result.end ≡ self.now.offset + self.now.length }
    {
        self.offset..self.offset + self.length as u64
    }
}

/// The number of a segment.
#[derive(Clone, Copy, Debug, PartialEq, Eq, PartialOrd, Ord)]
pub struct SegmentId(pub u32);
