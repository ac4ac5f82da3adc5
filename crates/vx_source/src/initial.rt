//! A cache behind the segments of an initial read.
ghost use Rattle.std.specs.Prelude.{◌≡◌, IfOk};
ghost use Rattle.vx_base.specs.Caches.{buffer_of};
ghost use Rattle.vx_source.specs.Keeping.{in_front};

use std::alloc::{AllocError, Global};
use std::collections::BTreeMap;
use vx_base::{ByteBuffer, CacheError, SegmentCache, SegmentId};

/// A cache that has the segments of an initial read at hand, and leaves the others to another cache.
#[derive(Drop)]
pub struct InitialReadSegmentCache<C: SegmentCache> {
    pub initial: BTreeMap<SegmentId, ByteBuffer>,
    pub fallback: C,
}

/// The buffer of a segment of an initial read, shared. Only memory refuses.
fn find_initial(
    alloc: Global,
    initial: &BTreeMap<SegmentId, ByteBuffer>,
    id: SegmentId,
) -> Result<Option<ByteBuffer>, AllocError>
    ensures { IfOk result (λ found. found ≡ buffer_of initial.now.entries id.0) }
{
    let Some(buffer) = initial.get(&id) else {
        return Ok(None);
    };
    let shared = buffer.share(alloc)?;
    Ok(Some(shared))
}

impl<C: SegmentCache> SegmentCache for InitialReadSegmentCache<C> {
    ghost state = { λ c. in_front c.initial.entries (C.state c.fallback) };

    fn get(&mut self, alloc: Global, id: SegmentId) -> Result<Option<ByteBuffer>, CacheError> {
        match find_initial(alloc, &self.initial, id)? {
            Some(buffer) => Ok(Some(buffer)),
            None => self.fallback.get(alloc, id),
        }
    }

    fn put(&mut self, alloc: Global, id: SegmentId, buffer: ByteBuffer) -> Result<(), CacheError> {
        self.fallback.put(alloc, id, buffer)
    }

    fn forgets_puts(&self) -> bool {
        self.initial.is_empty() && self.fallback.forgets_puts()
    }
}
