//! Why a file is not written.

use std::alloc::{AllocError, AllocFailed};
use thiserror::Error;
use vx_data::TableWriteError;

/// Why a file is not written, or not whole.
#[derive(Clone, Copy, Debug, PartialEq, Eq, Error)]
pub enum WriteError {
    /// There are more metadata entries than the file's version allows.
    #[error("TooManyMetadata")]
    TooManyMetadata,
    /// A metadata entry has an empty key.
    #[error("EmptyKey")]
    EmptyKey,
    /// A metadata entry has a key that is longer than the file's version allows.
    #[error("LongKey")]
    LongKey,
    /// An array or a layout that is needed may not be written.
    #[error("NotPermitted")]
    NotPermitted,
    /// More than 64 tables would lie one in the other.
    #[error("TooDeep")]
    TooDeep,
    /// A reader would make more than 1,000,000 visits of a table.
    #[error("TooManyTables")]
    TooManyTables,
    /// A chunk is of another type than the file.
    #[error("ChunkDType")]
    ChunkDType,
    /// The rows would pass 2^64 - 1.
    #[error("RowsOverflow")]
    RowsOverflow,
    /// A source of chunks failed.
    #[error("ChunkFault")]
    ChunkFault,
    /// The bytes of a segment or a table would exceed 2^32 - 1.
    #[error("SegmentTooLong")]
    SegmentTooLong,
    /// There would be more than 2^32 - 1 segments.
    #[error("TooManySegments")]
    TooManySegments,
    /// The file would end past the offset 2^64 - 1.
    #[error("OffsetOverflow")]
    OffsetOverflow,
    /// A write failed. A prefix of the file was written.
    #[error("WriteFault")]
    WriteFault,
    /// An earlier call of the writer was refused after a byte was written.
    #[error("WriterFailed")]
    WriterFailed,
    /// Two metadata entries of a postscript have the same key.
    #[error("DuplicateKey")]
    DuplicateKey,
    /// Memory ran out.
    #[error("OutOfMemory")]
    OutOfMemory,
}

impl From<AllocError> for WriteError {
    ghost use Rattle.std.specs.Prelude.{◌≡◌};
    ghost use Rattle.vx_footer.specs.declared.write_error.WriteError.TheVariants.{OutOfMemory};

    ghost from_gives = { λ _ e. e ≡ OutOfMemory };

    fn from(_error: AllocError) -> WriteError {
        WriteError::OutOfMemory
    }
}

impl<T: Drop> From<AllocFailed<T>> for WriteError {
    ghost use Rattle.std.specs.Prelude.{◌≡◌};
    ghost use Rattle.vx_footer.specs.declared.write_error.WriteError.TheVariants.{OutOfMemory};

    ghost from_gives = { λ _ e. e ≡ OutOfMemory };

    fn from(_error: AllocFailed<T>) -> WriteError {
        WriteError::OutOfMemory
    }
}

impl From<TableWriteError> for WriteError {
    ghost use Rattle.std.specs.Prelude.{◌≡◌};
    ghost use Rattle.vx_footer.specs.WriteErrors.{of_table_write};

    ghost from_gives = { λ error e. e ≡ of_table_write error };

    fn from(error: TableWriteError) -> WriteError {
        match error {
            TableWriteError::TooDeep => WriteError::TooDeep,
            TableWriteError::TooManyTables => WriteError::TooManyTables,
            TableWriteError::TableTooLong => WriteError::SegmentTooLong,
            TableWriteError::OutOfMemory => WriteError::OutOfMemory,
        }
    }
}
