//! The end marker of a file, and the postscript before it.
ghost use Rattle.std.specs.Prelude.{◌≡◌, ◌≤◌, IfOk, length};
ghost use Rattle.vx_base.specs.Checks.{Gives};
ghost use Rattle.vx_footer.specs.Opening.{version_of as version_of_number, postscript_length, marker_checks, end_checks, Fails};

use crate::version::{EOF_SIZE, LATEST_VERSION, MAGIC_BYTES, MAX_POSTSCRIPT_SIZE, VERSION};
use crate::{FileVersion, OpenError};

/// The version with a number.
fn version_of(number: u16) -> Option<FileVersion>
    ensures { result ≡ version_of_number number }
{
    match number {
        VERSION => Some(FileVersion::V1),
        LATEST_VERSION => Some(FileVersion::V2),
        _ => None,
    }
}

/// The version, from the last bytes of a file.
#[tactic(auto, unfolding(crate::specs::Opening::marker_checks))]
fn version_in(tail: &[u8]) -> Result<FileVersion, OpenError>
    ensures value { Gives Fails (λ version. version) result (marker_checks tail.now) }
    ensures long { IfOk result (λ _. 8 ≤ length tail.now) }
{
    if tail.len() < EOF_SIZE {
        return Err(OpenError::TooSmall);
    }
    let marker = &tail[tail.len() - EOF_SIZE..];
    if &marker[4..] != MAGIC_BYTES.as_slice() {
        return Err(OpenError::BadMagic);
    }
    let Some(version) = version_of(u16::from_le_bytes([marker[0], marker[1]])) else {
        return Err(OpenError::BadVersion);
    };
    if length_in(tail) > MAX_POSTSCRIPT_SIZE {
        return Err(OpenError::PostscriptTooLong);
    }
    Ok(version)
}

/// How many bytes the postscript has, by the end marker.
fn length_in(tail: &[u8]) -> u16
    requires { 8 ≤ length tail.now }
    ensures { result ≡ postscript_length tail.now }
{
    let marker = &tail[tail.len() - EOF_SIZE..];
    u16::from_le_bytes([marker[2], marker[3]])
}

/// The version and the postscript's bytes, from the last bytes of a file.
#[tactic(auto, unfolding(crate::specs::Opening::end_checks))]
pub(crate) fn postscript_of(tail: &[u8]) -> Result<(FileVersion, &[u8]), OpenError>
    ensures { Gives Fails (λ end. (end.0, end.1.now)) result (end_checks tail.now) }
{
    let version = version_in(tail)?;
    let length = length_in(tail) as usize;
    if length + EOF_SIZE > tail.len() {
        return Err(OpenError::TooSmall);
    }
    let start = tail.len() - EOF_SIZE - length;
    Ok((version, &tail[start..start + length]))
}
