//! Faults of a reader, and what was asked.
ghost use Rattle.std.specs.Prelude.{◌≡◌};

use vx_base::{ByteBuffer, FaultKind};

/// Where a fault was met: at the call for the size, or at a range.
#[derive(Clone, Copy, Debug, PartialEq, Eq)]
pub enum Place {
    Size,
    Range { offset: u64, length: usize },
}

/// A fault of a reader. Only `ask` and `ask_size` make one.
#[derive(Clone, Copy, Debug, PartialEq, Eq)]
pub struct Fault {
    pub(crate) kind: FaultKind,
    pub(crate) place: Place,
}

impl Fault {
    /// Why there are no bytes.
    pub fn kind(&self) -> FaultKind
        ensures { result ≡ self.now.kind }
    {
        self.kind
    }

    /// Where the fault was met.
    pub fn place(&self) -> Place
        ensures { result ≡ self.now.place }
    {
        self.place
    }
}

/// What became of a range or a read.
#[derive(Drop)]
pub enum Outcome {
    Bytes(ByteBuffer),
    Fault(Fault),
    NoMemory,
}
