//! Why a walk over a table root ends early.
use crate::bad_table::BadTable;
use std::alloc::{AllocError, AllocFailed};
use thiserror::Error;

/// Why a walk that takes memory has no value.
#[derive(Clone, Copy, Debug, Error, PartialEq, Eq)]
pub enum WalkError {
    /// The root is not in its grammar, or too deep or too large.
    #[error("the table can't be read")]
    BadTable,
    /// Memory ran out.
    #[error("out of memory")]
    OutOfMemory,
}

impl From<BadTable> for WalkError {
    ghost use Rattle.std.specs.Prelude.{◌≡◌};
    ghost use Rattle.vx_tables.specs.declared.walk_error.WalkError.TheVariants.{BadTable as the_bad_table};

    ghost from_gives = { λ _ e. e ≡ the_bad_table };

    fn from(_error: BadTable) -> WalkError {
        WalkError::BadTable
    }
}

impl From<AllocError> for WalkError {
    ghost use Rattle.std.specs.Prelude.{◌≡◌};
    ghost use Rattle.vx_tables.specs.declared.walk_error.WalkError.TheVariants.{OutOfMemory};

    ghost from_gives = { λ _ e. e ≡ OutOfMemory };

    fn from(_error: AllocError) -> WalkError {
        WalkError::OutOfMemory
    }
}

impl<T: Drop> From<AllocFailed<T>> for WalkError {
    ghost use Rattle.std.specs.Prelude.{◌≡◌};
    ghost use Rattle.vx_tables.specs.declared.walk_error.WalkError.TheVariants.{OutOfMemory};

    ghost from_gives = { λ _ e. e ≡ OutOfMemory };

    fn from(_error: AllocFailed<T>) -> WalkError {
        WalkError::OutOfMemory
    }
}
