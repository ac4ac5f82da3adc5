//! Why rows are not read from text.
use std::alloc::AllocError;
use thiserror::Error;

/// Why rows are not read from text.
#[derive(Clone, Copy, Debug, Error, PartialEq, Eq)]
pub enum RowsError {
    /// The first line, from 0, that is not in its grammar.
    #[error("line {0} is not in its grammar")]
    BadLine(u64),
    /// Memory ran out.
    #[error("out of memory")]
    OutOfMemory,
}

impl From<AllocError> for RowsError {
    ghost use Rattle.std.specs.Prelude.{◌≡◌};
    ghost use Rattle.vx_rows.specs.declared.rows_error.RowsError.TheVariants.{OutOfMemory};

    ghost from_gives = { λ _ e. e ≡ OutOfMemory };

    fn from(_error: AllocError) -> RowsError {
        RowsError::OutOfMemory
    }
}
