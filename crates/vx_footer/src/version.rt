//! The versions of the format, and its constants.

/// A version of the format. Files of the two versions differ in their end markers, and in how many
/// metadata entries they may have and how long their keys may be.
#[derive(Clone, Copy, Debug, PartialEq, Eq)]
pub enum FileVersion {
    V1,
    V2,
}

/// The number of the first version.
pub const VERSION: u16 = 1;

/// The number of the last version.
pub const LATEST_VERSION: u16 = 2;

/// How many bytes the fixed part of a footer's table has in the first version.
pub const V1_FOOTER_FBS_SIZE: usize = 32;

/// How many bytes a postscript may have.
pub const MAX_POSTSCRIPT_SIZE: u16 = 65527;

/// What a file begins and ends with.
pub const MAGIC_BYTES: [u8; 4] = *b"VTXF";

/// How many bytes the end marker has.
pub const EOF_SIZE: usize = 8;

/// What names of files end with.
pub const VORTEX_FILE_EXTENSION: &str = "vortex";
