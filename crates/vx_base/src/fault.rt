//! Faults of the outside.
ghost use Rattle.std.specs.Prelude.{◌≡◌};
ghost use Rattle.vx_base.specs.FaultName.{fault_name};

use std::alloc::AllocError;
use std::fmt;
use thiserror::Error;

/// A call to the outside failed.
#[derive(Clone, Copy, Debug, PartialEq, Eq, Error)]
#[error("failed")]
pub struct Failed;

/// Why a range has no bytes: the reader failed, gave another length, or gave no answer.
#[derive(Clone, Copy, Debug, PartialEq, Eq)]
pub enum FaultKind {
    ReadFault,
    ShortRead,
    MissingRange,
}

impl FaultKind {
    /// The kind's name.
    pub fn name(&self) -> &'static str
        ensures { result.now ≡ fault_name self.now }
    {
        match self {
            FaultKind::ReadFault => "ReadFault",
            FaultKind::ShortRead => "ShortRead",
            FaultKind::MissingRange => "MissingRange",
        }
    }
}

impl fmt::Display for FaultKind {
    ghost use Rattle.std.specs.Prelude.{Some};
    ghost use Rattle.vx_base.specs.FaultName.{fault_name};

    ghost output = { λ kind. Some (fault_name kind) };

    fn fmt<W: fmt::Write>(&self, f: &mut fmt::Formatter<W>) -> fmt::Result {
        f.write_str(self.name())
    }
}

/// A reader could not be cloned.
#[derive(Clone, Copy, Debug, PartialEq, Eq, Error)]
pub enum CloneError {
    #[error("failed")]
    Failed,
    #[error("out of memory")]
    OutOfMemory,
}

/// A write to a sink was refused.
#[derive(Clone, Copy, Debug, PartialEq, Eq, Error)]
pub enum SinkError {
    #[error("failed")]
    Failed,
    #[error("out of memory")]
    OutOfMemory,
}

/// A name could not be opened.
#[derive(Clone, Copy, Debug, PartialEq, Eq, Error)]
pub enum OpenerError {
    #[error("failed")]
    Failed,
    #[error("out of memory")]
    OutOfMemory,
}

impl From<AllocError> for CloneError {
    ghost use Rattle.std.specs.Prelude.{◌≡◌};
    ghost use Rattle.vx_base.specs.declared.fault.CloneError.TheVariants.{OutOfMemory};

    ghost from_gives = { λ _ e. e ≡ OutOfMemory };

    fn from(_error: AllocError) -> CloneError {
        CloneError::OutOfMemory
    }
}
