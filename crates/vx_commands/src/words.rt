//! Why the words after the program's name were not read.
ghost use Rattle.std.specs.Prelude.{◌≡◌};

use crate::failure::Failure;
use std::io::ErrorKind;

/// Why words were not read: memory ran out, or else they are no text and so no command.
pub fn unread<'a>(kind: ErrorKind) -> Failure<'a>
    ensures memory { kind ≡ ErrorKind.OutOfMemory → result ≡ Failure.OutOfMemory }
    ensures no_text { (kind ≡ ErrorKind.OutOfMemory → ⊥) → result ≡ Failure.Usage }
{
    match kind {
        ErrorKind::OutOfMemory => Failure::OutOfMemory,
        _ => Failure::Usage,
    }
}
