//! Why a table is refused.
use std::alloc::{AllocError, AllocFailed};
use thiserror::Error;

/// The check that a table fails first, or want of memory.
#[derive(Clone, Copy, Debug, Error, PartialEq, Eq)]
pub enum DataError {
    /// The table is not in its grammar.
    #[error("the table is not in its grammar")]
    BadTable,
    /// A kind of type that is not known.
    #[error("the type is of an unknown kind")]
    Unsupported,
    /// The tree uses a layout id that is not known.
    #[error("the layout id is not known")]
    UnknownEncoding,
    /// Not as many sets of statistics as columns.
    #[error("not as many statistics as columns")]
    StatsCount,
    /// Memory ran out.
    #[error("out of memory")]
    OutOfMemory,
}

impl From<AllocError> for DataError {
    ghost use Rattle.std.specs.Prelude.{◌≡◌};
    ghost use Rattle.vx_data.specs.declared.data_error.DataError.TheVariants.{OutOfMemory};

    ghost from_gives = { λ _ e. e ≡ OutOfMemory };

    fn from(_error: AllocError) -> DataError {
        DataError::OutOfMemory
    }
}

impl<T: Drop> From<AllocFailed<T>> for DataError {
    ghost use Rattle.std.specs.Prelude.{◌≡◌};
    ghost use Rattle.vx_data.specs.declared.data_error.DataError.TheVariants.{OutOfMemory};

    ghost from_gives = { λ _ e. e ≡ OutOfMemory };

    fn from(_error: AllocFailed<T>) -> DataError {
        DataError::OutOfMemory
    }
}
