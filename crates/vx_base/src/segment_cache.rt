//! The trait of caches of segments, and the cache that holds nothing.
ghost use Rattle.std.specs.Prelude.{◌≡◌, true, None};
ghost use Rattle.vx_base.specs.Caches.{CacheState, SameCache, GetCause, PutCause, nothing_held};

use crate::{ByteBuffer, SegmentId};
use std::alloc::{AllocError, Global};
use thiserror::Error;

/// A call of a cache was refused.
#[derive(Clone, Copy, Debug, PartialEq, Eq, Error)]
pub enum CacheError {
    #[error("failed")]
    Failed,
    #[error("out of memory")]
    OutOfMemory,
}

impl From<AllocError> for CacheError {
    ghost use Rattle.std.specs.Prelude.{◌≡◌};
    ghost use Rattle.vx_base.specs.declared.segment_cache.CacheError.TheVariants.{OutOfMemory};

    ghost from_gives = { λ _ e. e ≡ OutOfMemory };

    fn from(_error: AllocError) -> CacheError {
        CacheError::OutOfMemory
    }
}

/// What keeps buffers of segments by the segments' numbers.
pub trait SegmentCache: Sized + Drop {
    // What the cache tells.
    ghost state: { Self → CacheState };

    /// The buffer of a segment, if the cache holds it.
    fn get(&mut self, alloc: Global, id: SegmentId) -> Result<Option<ByteBuffer>, CacheError>
        ensures cause { GetCause id.0 (state self.old) (state self.new) result }
        ensures same { SameCache (state self.old) (state self.new) };

    /// Puts the buffer of a segment into the cache.
    fn put(&mut self, alloc: Global, id: SegmentId, buffer: ByteBuffer) -> Result<(), CacheError>
        ensures cause { PutCause id buffer (state self.old) (state self.new) result }
        ensures same { SameCache (state self.old) (state self.new) };

    /// Whether puts may be left out, since it tells none of them and never gives an entry.
    fn forgets_puts(&self) -> bool
        ensures untold { result ≡ true → (state self.now).puts ≡ None }
        ensures nothing { result ≡ true → (state self.now).never_gives ≡ true };
}

/// A cache that holds nothing, forgets what is put, and never fails.
#[derive(Clone, Copy, Debug)]
pub struct NoCache;

impl SegmentCache for NoCache {
    ghost state = { λ _. nothing_held };

    fn get(&mut self, alloc: Global, _id: SegmentId) -> Result<Option<ByteBuffer>, CacheError> {
        let _ = alloc;
        Ok(None)
    }

    fn put(
        &mut self,
        alloc: Global,
        _id: SegmentId,
        _buffer: ByteBuffer,
    ) -> Result<(), CacheError> {
        let _ = alloc;
        Ok(())
    }

    fn forgets_puts(&self) -> bool {
        true
    }
}
