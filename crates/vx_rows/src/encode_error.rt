//! Why a column is not encoded.
use std::alloc::AllocError;
use thiserror::Error;

/// Why a column is not encoded.
#[derive(Clone, Copy, Debug, Error, PartialEq, Eq)]
pub enum EncodeError {
    /// The id of an array that the column needs is not among those of the file.
    #[error("an array id that is needed is not permitted")]
    NotPermitted,
    /// The bytes would exceed 2^32 - 1.
    #[error("the array exceeds 2^32 - 1 bytes")]
    SegmentTooLong,
    /// Memory ran out.
    #[error("out of memory")]
    OutOfMemory,
}

impl From<AllocError> for EncodeError {
    ghost use Rattle.std.specs.Prelude.{◌≡◌};
    ghost use Rattle.vx_rows.specs.declared.encode_error.EncodeError.TheVariants.{OutOfMemory};

    ghost from_gives = { λ _ e. e ≡ OutOfMemory };

    fn from(_error: AllocError) -> EncodeError {
        EncodeError::OutOfMemory
    }
}
