//! A cache of segments in memory.
ghost use Rattle.std.specs.Prelude.{◌≡◌, ◌++◌, ◌∷◌, [], true, false, IfOk, OnOk, OnErr};
ghost use Rattle.vx_base.specs.Caches.{MemCacheState, SameCache, GetCause, PutCause, buffer_of, cache_state, called};
ghost use Rattle.vx_base.specs.Counts.{Rises, next_count};
ghost use Rattle.vx_base.specs.Memory.{is_failing, is_empty};

use crate::{ByteBuffer, CacheError, SegmentCache, SegmentId};
use std::alloc::{AllocError, Global};
use std::marker::Model;

/// A cache in memory. It tells its entries and its puts, and fails at chosen calls.
#[derive(Drop)]
pub struct MemCache {
    entries: Vec<(SegmentId, ByteBuffer)>,
    puts: Vec<(SegmentId, ByteBuffer)>,
    fail: Vec<u64>,
    calls: u64,
    faults: u64,
    lost: u64,
}

impl Model for MemCache {
    ghost use Rattle.vx_base.specs.Caches.{MemCacheState};

    ghost Value = { MemCacheState };

    ghost view = { λ c. record {
      entries = c.entries.items;
      puts = c.puts.items;
      fail = c.fail.items;
      calls = c.calls;
      faults = c.faults;
      lost = c.lost;
    } };
}

/// The buffer of a segment, shared. Only memory refuses.
fn find_buffer(
    alloc: Global,
    entries: &[(SegmentId, ByteBuffer)],
    id: SegmentId,
) -> Result<Option<ByteBuffer>, AllocError>
    ensures { IfOk result (λ found. found ≡ buffer_of entries.now id.0) }
{
    for (key, buffer) in entries {
        if key.0 == id.0 {
            let shared = buffer.share(alloc)?;
            return Ok(Some(shared));
        }
    }
    Ok(None)
}

impl MemCache {
    /// A cache of these entries, whose calls at these places, from 0, fail. With no place it never fails.
    pub fn new(alloc: Global, entries: Vec<(SegmentId, ByteBuffer)>, fail: Vec<u64>) -> MemCache
        ensures { result ≡ record { entries = entries.items; puts = []; fail = fail.items; calls = 0; faults = 0; lost = 0 } }
    {
        MemCache {
            entries,
            puts: Vec::new(alloc),
            fail,
            calls: 0,
            faults: 0,
            lost: 0,
        }
    }

    /// The puts that were asked, in order.
    pub fn puts(&self) -> &[(SegmentId, ByteBuffer)]
        ensures { result.now ≡ self.now.puts }
    {
        self.puts.as_slice()
    }

    // Whether this call fails, which is then counted.
    #[tactic(auto, using(crate::proofs::MemoryLemmas::empty_failing))]
    fn fails(&mut self) -> bool
        ensures value { result ≡ is_failing self.old.fail self.old.calls }
        ensures after { self.new ≡ called self.old }
        ensures same { SameCache (cache_state self.old) (cache_state self.new) }
        ensures rises { result ≡ true → Rises 1 self.old.faults self.new.faults }
        ensures still { result ≡ false → self.new ≡ record self.old { calls = next_count self.old.calls } }
        ensures kept { (self.new.entries ≡ self.old.entries) × (self.new.puts ≡ self.old.puts) × (self.new.lost ≡ self.old.lost) }
        ensures sound { is_empty self.old.fail ≡ true → result ≡ false }
    {
        let place = self.calls;
        self.calls = place.saturating_add(1);
        if self.fail.contains(&place) {
            self.faults = self.faults.saturating_add(1);
            return true;
        }
        false
    }

    // Counts a put that found no memory.
    fn lose(&mut self)
        ensures value { self.new ≡ record self.old { lost = next_count self.old.lost } }
        ensures same { SameCache (cache_state self.old) (cache_state self.new) }
        ensures rises { Rises 1 self.old.lost self.new.lost }
    {
        self.lost = self.lost.saturating_add(1);
    }

    // Adds a put to the log. Only memory refuses.
    fn note(&mut self, alloc: Global, id: SegmentId, buffer: &ByteBuffer) -> Result<(), AllocError>
        ensures ok { OnOk result (self.new ≡ record self.old { puts = self.old.puts ++ (id, buffer.now) ∷ [] }) }
        ensures err { OnErr result (self.new ≡ self.old) }
        ensures same { SameCache (cache_state self.old) (cache_state self.new) }
    {
        let shared = buffer.share(alloc)?;
        self.puts.push((id, shared))?;
        Ok(())
    }

    // Adds an entry in front. Only memory refuses.
    fn add(&mut self, id: SegmentId, buffer: ByteBuffer) -> Result<(), AllocError>
        ensures ok { OnOk result (self.new ≡ record self.old { entries = (id, buffer) ∷ self.old.entries }) }
        ensures err { OnErr result (self.new ≡ self.old) }
        ensures same { SameCache (cache_state self.old) (cache_state self.new) }
    {
        self.entries.insert(0, (id, buffer))?;
        Ok(())
    }
}

impl SegmentCache for MemCache {
    ghost state = { cache_state };

    fn get(&mut self, alloc: Global, id: SegmentId) -> Result<Option<ByteBuffer>, CacheError> {
        if self.fails() {
            return Err(CacheError::Failed);
        }
        let found = find_buffer(alloc, self.entries.as_slice(), id)?;
        Ok(found)
    }

    fn put(&mut self, alloc: Global, id: SegmentId, buffer: ByteBuffer) -> Result<(), CacheError> {
        let fails = self.fails();
        if self.note(alloc, id, &buffer).is_err() {
            self.lose();
            return Err(CacheError::OutOfMemory);
        }
        if fails {
            return Err(CacheError::Failed);
        }
        if self.add(id, buffer).is_err() {
            self.lose();
            return Err(CacheError::OutOfMemory);
        }
        Ok(())
    }

    fn forgets_puts(&self) -> bool {
        false
    }
}
