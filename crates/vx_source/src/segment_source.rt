//! The trait of sources of segments.
ghost use Rattle.std.specs.Prelude.{◌≡◌, ℕ, List, IfOk};
ghost use Rattle.vx_source.specs.Bytes.{IsSlice};
ghost use Rattle.vx_source.specs.Sources.{SourceState, SegmentCause, SameSource};

use std::alloc::{AllocError, Global};
use thiserror::Error;
use vx_base::{ByteBuffer, SegmentId};
use vx_sched::Fault;

/// A source gave no segment.
#[derive(Clone, Copy, Debug, PartialEq, Eq, Error)]
pub enum SourceError {
    /// No segment has this number.
    #[error("no such segment")]
    MissingSegment,
    /// The segment passes the end of the file.
    #[error("past the end")]
    PastEnd,
    /// A read failed.
    #[error("a read failed")]
    Fault(Fault),
    /// The cache failed.
    #[error("the cache failed")]
    CacheFault,
    #[error("out of memory")]
    OutOfMemory,
}

impl From<AllocError> for SourceError {
    ghost use Rattle.std.specs.Prelude.{◌≡◌};
    ghost use Rattle.vx_source.specs.declared.segment_source.SourceError.TheVariants.{OutOfMemory};

    ghost from_gives = { λ _ e. e ≡ OutOfMemory };

    fn from(_error: AllocError) -> SourceError {
        SourceError::OutOfMemory
    }
}

/// What gives segments of a file by their numbers.
pub trait SegmentSource: Sized + Drop {
    // What the source tells.
    ghost state: { Self → SourceState };

    // Whether its segments are those of a file.
    ghost serves: { Self → List ℕ → Type 0 };

    // Whether no read of it fails, over a file.
    ghost never_fails: { Self → List ℕ → Type 0 };

    /// The bytes of a segment.
    fn segment(&mut self, alloc: Global, id: SegmentId) -> Result<ByteBuffer, SourceError>
        ensures cause { SegmentCause id.0 (state self.old) (state self.new) result }
        ensures slice { IfOk result (λ buffer. (file : List ℕ) → serves self.old file → IsSlice file (state self.old).table id.0 buffer) }
        ensures serves { (file : List ℕ) → serves self.old file → serves self.new file }
        ensures steady { (file : List ℕ) → never_fails self.old file →
            never_fails self.new file × ((state self.new).faults ≡ (state self.old).faults) }
        ensures same { SameSource (state self.old) (state self.new) };
}
