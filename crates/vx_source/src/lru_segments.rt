//! A cache of the segments that were used last.
ghost use Rattle.std.specs.Prelude.{◌≡◌, ◌++◌, ◌∷◌, ◌≤◌, [], length, nat_eq, IfOk, OnOk, OnErr};
ghost use Rattle.std.specs.Map.{lookup};
ghost use Rattle.lru.specs.LruCache.{lru_cache, promoted, put_entries};
ghost use Rattle.vx_base.specs.Counts.{Rises, next_count};
ghost use Rattle.vx_source.specs.Keeping.{LruState, lru_state, new_lru};

use lru::LruCache;
use std::alloc::{AllocError, Global};
use std::marker::Model;
use std::num::NonZeroUsize;
use vx_base::{ByteBuffer, CacheError, SegmentCache, SegmentId};

/// A cache of at most so many segments. The one that was used least recently goes first.
#[derive(Drop)]
pub struct LruSegments {
    kept: LruCache<u32, ByteBuffer>,
    puts: Vec<(SegmentId, ByteBuffer)>,
    lost: u64,
}

impl Model for LruSegments {
    ghost use Rattle.vx_source.specs.Keeping.{LruState};

    ghost Value = { LruState };

    ghost view = { λ c. record { kept = c.kept; puts = c.puts.items; lost = c.lost } };
}

impl LruSegments {
    /// An empty cache of so many segments. Only memory refuses.
    pub fn new(alloc: Global, capacity: usize) -> Result<LruSegments, AllocError>
        requires { 1 ≤ capacity }
        ensures { IfOk result (λ c. c ≡ new_lru capacity) }
    {
        let Some(most) = NonZeroUsize::new(capacity) else {
            unreachable!();
        };
        Ok(LruSegments {
            kept: LruCache::sparse(alloc, most)?,
            puts: Vec::new(alloc),
            lost: 0,
        })
    }

    /// How many segments it holds, which are at most its capacity.
    pub fn len(&self) -> usize
        ensures value { result ≡ length self.now.kept.entries }
        ensures most { result ≤ self.now.kept.cap }
    {
        self.kept.len()
    }

    /// The puts that were asked, in order.
    pub fn puts(&self) -> &[(SegmentId, ByteBuffer)]
        ensures { result.now ≡ self.now.puts }
    {
        self.puts.as_slice()
    }

    // The buffer of a segment, shared, which goes to the front. Only memory refuses.
    fn find(&mut self, alloc: Global, id: SegmentId) -> Result<Option<ByteBuffer>, AllocError>
        ensures found { IfOk result (λ found. found ≡ lookup (nat_eq id.0) self.old.kept.entries) }
        ensures front { self.new ≡ record self.old { kept = lru_cache (promoted (nat_eq id.0) self.old.kept.entries) self.old.kept.cap } }
    {
        let Some(buffer) = self.kept.get(&id.0) else {
            return Ok(None);
        };
        let shared = buffer.share(alloc)?;
        Ok(Some(shared))
    }

    // Counts a put that found no memory.
    fn lose(&mut self)
        ensures value { self.new ≡ record self.old { lost = next_count self.old.lost } }
        ensures rises { Rises 1 self.old.lost self.new.lost }
    {
        self.lost = self.lost.saturating_add(1);
    }

    // Adds a put to the log. Only memory refuses.
    fn note(&mut self, alloc: Global, id: SegmentId, buffer: &ByteBuffer) -> Result<(), AllocError>
        ensures ok { OnOk result (self.new ≡ record self.old { puts = self.old.puts ++ (id, buffer.now) ∷ [] }) }
        ensures err { OnErr result (self.new ≡ self.old) }
    {
        let shared = buffer.share(alloc)?;
        self.puts.push((id, shared))?;
        Ok(())
    }

    // Puts an entry in front. Only memory refuses.
    fn keep(&mut self, id: SegmentId, buffer: ByteBuffer) -> Result<(), AllocError>
        ensures ok { OnOk result (self.new ≡ record self.old { kept = lru_cache (put_entries nat_eq self.old.kept id.0 buffer) self.old.kept.cap }) }
        ensures err { OnErr result (self.new ≡ self.old) }
    {
        match self.kept.put(id.0, buffer) {
            Ok(_) => Ok(()),
            Err(_) => Err(AllocError),
        }
    }
}

impl SegmentCache for LruSegments {
    ghost state = { lru_state };

    fn get(&mut self, alloc: Global, id: SegmentId) -> Result<Option<ByteBuffer>, CacheError> {
        let found = self.find(alloc, id)?;
        Ok(found)
    }

    fn put(&mut self, alloc: Global, id: SegmentId, buffer: ByteBuffer) -> Result<(), CacheError> {
        match self.note(alloc, id, &buffer) {
            Ok(()) => {}
            Err(_) => {
                self.lose();
                return Err(CacheError::OutOfMemory);
            }
        }
        match self.keep(id, buffer) {
            Ok(()) => Ok(()),
            Err(_) => {
                self.lose();
                Err(CacheError::OutOfMemory)
            }
        }
    }

    fn forgets_puts(&self) -> bool {
        false
    }
}
