//! What serving a script gives.
ghost use Rattle.std.specs.Prelude.{◌≡◌};

use crate::{MetadataValue, Replies};
use std::alloc::AllocError;
use thiserror::Error;
use vx_base::{CacheError, Sequence};
use vx_footer::{Footer, OpenError};
use vx_sched::Fault;

/// A footer, the values of the metadata, where they were loaded, the ranges that were asked before the script was answered,
/// and one reply for each step of it.
#[derive(Drop)]
pub struct Served {
    pub footer: Footer,
    pub metadata: Option<Sequence<MetadataValue>>,
    pub opening: Sequence<(u64, u64)>,
    pub replies: Replies,
}

/// Why a file was not served.
#[derive(Clone, Copy, Debug, PartialEq, Eq, Error)]
pub enum ServeError {
    /// The file fails this opening check first. It is never want of memory.
    #[error("{0}")]
    Open(OpenError),
    /// The size or an opening range could not be read.
    #[error("a read failed")]
    Fault(Fault),
    /// The cache failed to take a segment that the tail covers.
    #[error("the cache failed")]
    CacheFault,
    #[error("out of memory")]
    OutOfMemory,
}

impl From<CacheError> for ServeError {
    ghost use Rattle.vx_file.specs.Serving.{put_error};

    ghost from_gives = { λ e error. error ≡ put_error e };

    fn from(error: CacheError) -> ServeError {
        match error {
            CacheError::Failed => ServeError::CacheFault,
            CacheError::OutOfMemory => ServeError::OutOfMemory,
        }
    }
}

impl From<AllocError> for ServeError {
    ghost use Rattle.std.specs.Prelude.{◌≡◌};
    ghost use Rattle.vx_file.specs.declared.served.ServeError.TheVariants.{OutOfMemory};

    ghost from_gives = { λ _ e. e ≡ OutOfMemory };

    fn from(_error: AllocError) -> ServeError {
        ServeError::OutOfMemory
    }
}
