//! Why a table is not written.
use std::alloc::{AllocError, AllocFailed};
use thiserror::Error;

/// Why a table is not written.
#[derive(Clone, Copy, Debug, Error, PartialEq, Eq)]
pub enum TableWriteError {
    /// More than 64 tables would lie one in the other.
    #[error("the tables are too deep")]
    TooDeep,
    /// A reader would make more than 1,000,000 visits.
    #[error("too many tables")]
    TooManyTables,
    /// The bytes would exceed 2^32 - 1.
    #[error("the table exceeds 2^32 - 1 bytes")]
    TableTooLong,
    /// Memory ran out.
    #[error("out of memory")]
    OutOfMemory,
}

impl From<AllocError> for TableWriteError {
    ghost use Rattle.std.specs.Prelude.{◌≡◌};
    ghost use Rattle.vx_data.specs.declared.table_write_error.TableWriteError.TheVariants.{OutOfMemory};

    ghost from_gives = { λ _ e. e ≡ OutOfMemory };

    fn from(_error: AllocError) -> TableWriteError {
        TableWriteError::OutOfMemory
    }
}

impl<T: Drop> From<AllocFailed<T>> for TableWriteError {
    ghost use Rattle.std.specs.Prelude.{◌≡◌};
    ghost use Rattle.vx_data.specs.declared.table_write_error.TableWriteError.TheVariants.{OutOfMemory};

    ghost from_gives = { λ _ e. e ≡ OutOfMemory };

    fn from(_error: AllocFailed<T>) -> TableWriteError {
        TableWriteError::OutOfMemory
    }
}
