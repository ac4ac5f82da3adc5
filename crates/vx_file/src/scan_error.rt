//! Why the rows of a file were not read.
use std::alloc::AllocError;
use thiserror::Error;
use vx_base::SegmentId;
use vx_source::SourceError;

/// The first flat layout, in preorder, that could not be read, by its segment; or want of memory.
#[derive(Clone, Copy, Debug, PartialEq, Eq, Error)]
pub enum ScanError {
    /// The source did not give the segment.
    #[error("{1}")]
    Segment(SegmentId, SourceError),
    /// The bytes of the segment are not those of the column.
    #[error("the bytes are not those of the column")]
    BadArray(SegmentId),
    /// The segment has an array id that is not known.
    #[error("the array id is not known")]
    UnknownEncoding(SegmentId),
    /// Memory ran out.
    #[error("out of memory")]
    OutOfMemory,
}

impl From<AllocError> for ScanError {
    ghost use Rattle.std.specs.Prelude.{◌≡◌};
    ghost use Rattle.vx_file.specs.declared.scan_error.ScanError.TheVariants.{OutOfMemory};

    ghost from_gives = { λ _ e. e ≡ OutOfMemory };

    fn from(_error: AllocError) -> ScanError {
        ScanError::OutOfMemory
    }
}
