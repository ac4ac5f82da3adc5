//! Why the bytes of a segment are no column.
use std::alloc::AllocError;
use thiserror::Error;

/// The first fault in reading order, or want of memory.
#[derive(Clone, Copy, Debug, Error, PartialEq, Eq)]
pub enum ArrayError {
    /// The bytes are not in the grammar of arrays.
    #[error("the bytes are not those of the column")]
    BadArray,
    /// The array id is not known.
    #[error("the array id is not known")]
    UnknownEncoding,
    /// Memory ran out.
    #[error("out of memory")]
    OutOfMemory,
}

impl From<AllocError> for ArrayError {
    ghost use Rattle.std.specs.Prelude.{◌≡◌};
    ghost use Rattle.vx_rows.specs.declared.array_error.ArrayError.TheVariants.{OutOfMemory};

    ghost from_gives = { λ _ e. e ≡ OutOfMemory };

    fn from(_error: AllocError) -> ArrayError {
        ArrayError::OutOfMemory
    }
}
