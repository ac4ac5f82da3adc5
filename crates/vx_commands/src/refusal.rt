//! The names of refusals.
ghost use Rattle.std.specs.Prelude.{◌≡◌};
ghost use Rattle.vx_commands.specs.Refusals.{refusal_words, bind_error_words, array_error_words, write_error_words};

use vx_footer::{OpenError, Which, WriteError};
use vx_rows::{ArrayError, BindError};

/// The name of the opening check that a file fails.
pub(crate) fn refusal_name(refusal: OpenError) -> &'static str
    ensures { result.now ≡ refusal_words refusal }
{
    match refusal {
        OpenError::TooSmall => "TooSmall",
        OpenError::BadMagic => "BadMagic",
        OpenError::BadVersion => "BadVersion",
        OpenError::PostscriptTooLong => "PostscriptTooLong",
        OpenError::Unsupported => "Unsupported",
        OpenError::TooManyMetadata => "TooManyMetadata",
        OpenError::EmptyKey => "EmptyKey",
        OpenError::LongKey => "LongKey",
        OpenError::DuplicateKey => "DuplicateKey",
        OpenError::BadAlignment => "BadAlignment",
        OpenError::MissingDType => "MissingDType",
        OpenError::BufferTooLong => "BufferTooLong",
        OpenError::OutOfBounds => "OutOfBounds",
        OpenError::StatsCount => "StatsCount",
        OpenError::PastEnd => "PastEnd",
        OpenError::UnknownEncoding => "UnknownEncoding",
        OpenError::Unordered => "Unordered",
        OpenError::OutOfMemory => "OutOfMemory",
        OpenError::BadTable(Which::Postscript) => "BadTable(Postscript)",
        OpenError::BadTable(Which::DType) => "BadTable(DType)",
        OpenError::BadTable(Which::Layout) => "BadTable(Layout)",
        OpenError::BadTable(Which::Statistics) => "BadTable(Statistics)",
        OpenError::BadTable(Which::Footer) => "BadTable(Footer)",
    }
}

/// Why a predicate is not one on the rows of a file.
pub(crate) fn bind_error_name(error: BindError) -> &'static str
    ensures { result.now ≡ bind_error_words error }
{
    match error {
        BindError::NoField => "NoField",
        BindError::TypeMismatch => "TypeMismatch",
        BindError::NarrowingCast => "NarrowingCast",
        BindError::OutOfMemory => "OutOfMemory",
    }
}

/// Why the bytes of a segment are no array.
pub(crate) fn array_error_name(error: ArrayError) -> &'static str
    ensures { result.now ≡ array_error_words error }
{
    match error {
        ArrayError::BadArray => "BadArray",
        ArrayError::UnknownEncoding => "UnknownEncoding",
        ArrayError::OutOfMemory => "OutOfMemory",
    }
}

/// The check that refuses a file that is written.
pub(crate) fn write_error_name(error: WriteError) -> &'static str
    ensures { result.now ≡ write_error_words error }
{
    match error {
        WriteError::TooManyMetadata => "TooManyMetadata",
        WriteError::EmptyKey => "EmptyKey",
        WriteError::LongKey => "LongKey",
        WriteError::NotPermitted => "NotPermitted",
        WriteError::TooDeep => "TooDeep",
        WriteError::TooManyTables => "TooManyTables",
        WriteError::ChunkDType => "ChunkDType",
        WriteError::RowsOverflow => "RowsOverflow",
        WriteError::ChunkFault => "ChunkFault",
        WriteError::SegmentTooLong => "SegmentTooLong",
        WriteError::TooManySegments => "TooManySegments",
        WriteError::OffsetOverflow => "OffsetOverflow",
        WriteError::WriteFault => "WriteFault",
        WriteError::WriterFailed => "WriterFailed",
        WriteError::DuplicateKey => "DuplicateKey",
        WriteError::OutOfMemory => "OutOfMemory",
    }
}
