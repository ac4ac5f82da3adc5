//! Why files are not read as one.
use crate::{ScanError, ServeError};
use std::alloc::AllocError;
use thiserror::Error;

/// Why the files of names are not read as one, by the index of the name.
#[derive(Clone, Copy, Debug, PartialEq, Eq, Error)]
pub enum MultiError {
    /// There is no name.
    #[error("there are no files")]
    NoFiles,
    /// The name could not be opened.
    #[error("file {0} could not be opened")]
    Opener(usize),
    /// The file was refused, or could not be read.
    #[error("file {0}: {1}")]
    Serve(usize, ServeError),
    /// The rows of the file have another type than those of the first.
    #[error("file {0} has rows of another type")]
    DTypeMismatch(usize),
    /// The rows of the file could not be read.
    #[error("file {0}: {1}")]
    Scan(usize, ScanError),
    /// Memory ran out.
    #[error("out of memory")]
    OutOfMemory,
}

impl From<AllocError> for MultiError {
    ghost use Rattle.std.specs.Prelude.{◌≡◌};
    ghost use Rattle.vx_file.specs.declared.multi_error.MultiError.TheVariants.{OutOfMemory};

    ghost from_gives = { λ _ e. e ≡ OutOfMemory };

    fn from(_error: AllocError) -> MultiError {
        MultiError::OutOfMemory
    }
}
