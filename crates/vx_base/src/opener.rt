//! The trait of what opens readers by name.
ghost use Rattle.vx_base.specs.Openers.{OpenerState, SameOpener, OpenCause, ReturnCause};

use crate::{OpenerError, Reader};
use std::alloc::{AllocError, Global};

/// What opens readers by name, as a file system.
pub trait Opener: Sized + Drop {
    type Reader: Reader;

    // What the opener tells.
    ghost state: { Self → OpenerState };

    /// Opens the reader of a name.
    fn open_named(&mut self, alloc: Global, name: &str) -> Result<Self::Reader, OpenerError>
        ensures cause { OpenCause Self.Reader.state name.now (state self.old) (state self.new) result }
        ensures same { SameOpener (state self.old) (state self.new) };

    /// Takes back a reader that was opened by a name.
    fn take_back(
        &mut self,
        alloc: Global,
        name: &str,
        reader: Self::Reader,
    ) -> Result<(), AllocError>
        ensures cause { ReturnCause name.now (Self.Reader.state reader) (state self.old) (state self.new) result }
        ensures same { SameOpener (state self.old) (state self.new) };
}
