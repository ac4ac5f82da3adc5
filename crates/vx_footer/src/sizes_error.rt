//! Why there are no sizes of fields.
use std::alloc::{AllocError, AllocFailed};
use thiserror::Error;
use vx_base::SegmentId;

/// Why there are no sizes of fields.
#[derive(Clone, Copy, Debug, Error, PartialEq, Eq)]
pub enum SizesError {
    /// A layout names a segment that is not there.
    #[error("a segment is missing")]
    MissingSegment(SegmentId),
    /// Memory ran out.
    #[error("out of memory")]
    OutOfMemory,
}

impl From<AllocError> for SizesError {
    ghost use Rattle.std.specs.Prelude.{◌≡◌};
    ghost use Rattle.vx_footer.specs.declared.sizes_error.SizesError.TheVariants.{OutOfMemory};

    ghost from_gives = { λ _ e. e ≡ OutOfMemory };

    fn from(_error: AllocError) -> SizesError {
        SizesError::OutOfMemory
    }
}

impl<T: Drop> From<AllocFailed<T>> for SizesError {
    ghost use Rattle.std.specs.Prelude.{◌≡◌};
    ghost use Rattle.vx_footer.specs.declared.sizes_error.SizesError.TheVariants.{OutOfMemory};

    ghost from_gives = { λ _ e. e ≡ OutOfMemory };

    fn from(_error: AllocFailed<T>) -> SizesError {
        SizesError::OutOfMemory
    }
}
