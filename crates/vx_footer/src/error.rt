//! Why a file is refused.
ghost use Rattle.std.specs.Prelude.{◌≡◌};
ghost use Rattle.vx_footer.specs.Opening.{refusal_of};

use std::alloc::AllocError;
use thiserror::Error;
use vx_data::DataError;

/// A table of a file.
#[derive(Clone, Copy, Debug, PartialEq, Eq)]
pub enum Which {
    Postscript,
    DType,
    Layout,
    Statistics,
    Footer,
}

/// The opening check that a file fails first, or want of memory.
#[derive(Clone, Copy, Debug, PartialEq, Eq, Error)]
pub enum OpenError {
    #[error("TooSmall")]
    TooSmall,
    #[error("BadMagic")]
    BadMagic,
    #[error("BadVersion")]
    BadVersion,
    #[error("PostscriptTooLong")]
    PostscriptTooLong,
    #[error("BadTable({0:?})")]
    BadTable(Which),
    #[error("Unsupported")]
    Unsupported,
    #[error("TooManyMetadata")]
    TooManyMetadata,
    #[error("EmptyKey")]
    EmptyKey,
    #[error("LongKey")]
    LongKey,
    #[error("DuplicateKey")]
    DuplicateKey,
    #[error("BadAlignment")]
    BadAlignment,
    #[error("MissingDType")]
    MissingDType,
    #[error("BufferTooLong")]
    BufferTooLong,
    #[error("OutOfBounds")]
    OutOfBounds,
    #[error("StatsCount")]
    StatsCount,
    #[error("PastEnd")]
    PastEnd,
    #[error("UnknownEncoding")]
    UnknownEncoding,
    #[error("Unordered")]
    Unordered,
    #[error("OutOfMemory")]
    OutOfMemory,
}

impl From<AllocError> for OpenError {
    ghost use Rattle.std.specs.Prelude.{◌≡◌};
    ghost use Rattle.vx_footer.specs.declared.error.OpenError.TheVariants.{OutOfMemory};

    ghost from_gives = { λ _ e. e ≡ OutOfMemory };

    fn from(_error: AllocError) -> OpenError {
        OpenError::OutOfMemory
    }
}

/// A segment that does not end within the file.
#[derive(Clone, Copy, Debug, PartialEq, Eq, Error)]
#[error("PastEnd")]
pub struct PastEnd;

/// The refusal of a file by that of a table.
pub(crate) fn refusal(which: Which, error: DataError) -> OpenError
    ensures { result ≡ refusal_of which error }
{
    match error {
        DataError::BadTable => OpenError::BadTable(which),
        DataError::Unsupported => OpenError::Unsupported,
        DataError::UnknownEncoding => OpenError::UnknownEncoding,
        DataError::StatsCount => OpenError::StatsCount,
        DataError::OutOfMemory => OpenError::OutOfMemory,
    }
}
