//! The traits of streams of bytes.
ghost use Rattle.vx_base.specs.Streams.{SourceState, SameSource, ReadCause, SinkState, SameSink, WriteCause, FlushCause};

use crate::{Failed, SinkError};
use std::alloc::Global;

/// A stream of bytes that is read to its end.
pub trait Source: Sized + Drop {
    // What the source tells.
    ghost state: { Self → SourceState };

    /// Reads some bytes into the front of a buffer, and says how many: 0 for a buffer that is not
    /// empty is the end.
    fn read(&mut self, into: &mut [u8]) -> Result<usize, Failed>
        ensures cause { ReadCause into.old into.new (state self.old) (state self.new) result }
        ensures same { SameSource (state self.old) (state self.new) };
}

/// A stream that bytes are written to.
pub trait Sink: Sized + Drop {
    // What the sink tells.
    ghost state: { Self → SinkState };

    /// Writes some bytes of the front of a piece, at least one unless it is empty, and says how many.
    fn write(&mut self, alloc: Global, piece: &[u8]) -> Result<usize, SinkError>
        ensures cause { WriteCause piece.now (state self.old) (state self.new) result }
        ensures same { SameSink (state self.old) (state self.new) };

    /// Writes out what is held back.
    fn flush(&mut self) -> Result<(), Failed>
        ensures cause { FlushCause (state self.old) (state self.new) result }
        ensures same { SameSink (state self.old) (state self.new) };
}
