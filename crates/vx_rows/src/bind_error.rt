//! Why a predicate is not bound to a type.
use std::alloc::AllocError;
use thiserror::Error;

/// Why a predicate is not bound to a type.
#[derive(Clone, Copy, Debug, Error, PartialEq, Eq)]
pub enum BindError {
    /// A path names no field, or goes through a type that is no struct.
    #[error("a path names no field")]
    NoField,
    /// The type of an operand is not one that the node takes.
    #[error("a node of the predicate does not take the type of its operand")]
    TypeMismatch,
    /// A cast is to a type that does not hold each value of the operand's.
    #[error("a cast is to a type that does not hold each value of the operand's type")]
    NarrowingCast,
    /// Memory ran out.
    #[error("out of memory")]
    OutOfMemory,
}

impl From<AllocError> for BindError {
    ghost use Rattle.std.specs.Prelude.{◌≡◌};
    ghost use Rattle.vx_rows.specs.declared.bind_error.BindError.TheVariants.{OutOfMemory};

    ghost from_gives = { λ _ e. e ≡ OutOfMemory };

    fn from(_error: AllocError) -> BindError {
        BindError::OutOfMemory
    }
}
