//! Why a footer is not written.

use std::alloc::AllocError;
use thiserror::Error;
use vx_data::TableWriteError;
use vx_tables::TableError;

/// Why a footer is not written.
#[derive(Clone, Copy, Debug, PartialEq, Eq, Error)]
pub enum SerializeError {
    /// A table would be deeper than a reader allows.
    #[error("TooDeep")]
    TooDeep,
    /// A table would take more visits than a reader allows.
    #[error("TooManyTables")]
    TooManyTables,
    /// The bytes of a table would exceed 2^32 - 1.
    #[error("SegmentTooLong")]
    SegmentTooLong,
    /// The tables would end past the offset 2^64 - 1.
    #[error("OffsetOverflow")]
    OffsetOverflow,
    /// Memory ran out.
    #[error("OutOfMemory")]
    OutOfMemory,
}

impl From<TableWriteError> for SerializeError {
    ghost use Rattle.std.specs.Prelude.{◌≡◌};
    ghost use Rattle.vx_footer.specs.Serialized.{of_write};

    ghost from_gives = { λ error e. e ≡ of_write error };

    fn from(error: TableWriteError) -> SerializeError {
        match error {
            TableWriteError::TooDeep => SerializeError::TooDeep,
            TableWriteError::TooManyTables => SerializeError::TooManyTables,
            TableWriteError::TableTooLong => SerializeError::SegmentTooLong,
            TableWriteError::OutOfMemory => SerializeError::OutOfMemory,
        }
    }
}

impl From<TableError> for SerializeError {
    ghost use Rattle.std.specs.Prelude.{◌≡◌};
    ghost use Rattle.vx_footer.specs.Serialized.{of_table};

    ghost from_gives = { λ error e. e ≡ of_table error };

    fn from(error: TableError) -> SerializeError {
        match error {
            TableError::TableTooLong => SerializeError::SegmentTooLong,
            TableError::OutOfMemory => SerializeError::OutOfMemory,
        }
    }
}

impl From<AllocError> for SerializeError {
    ghost use Rattle.std.specs.Prelude.{◌≡◌};
    ghost use Rattle.vx_footer.specs.declared.serialize_error.SerializeError.TheVariants.{OutOfMemory};

    ghost from_gives = { λ _ e. e ≡ OutOfMemory };

    fn from(_error: AllocError) -> SerializeError {
        SerializeError::OutOfMemory
    }
}
