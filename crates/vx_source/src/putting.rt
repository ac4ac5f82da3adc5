//! What a session puts into its cache.
ghost use Rattle.std.specs.Prelude.{◌≡◌, ◌++◌, IfOk, OnOk};
ghost use Rattle.vx_base.specs.Caches.{SameCache};
ghost use Rattle.vx_source.specs.Kept.{segment_at};
ghost use Rattle.vx_source.specs.Puts.{Gains, put_at, puts_of};

use crate::request::{Filed, Request};
use std::alloc::{AllocError, Global};
use vx_base::{ByteBuffer, SegmentCache, SegmentId};

/// The segment that a number asks for.
fn segment_of(requests: &[Request], n: usize) -> Option<u32>
    ensures { result ≡ segment_at requests.now n }
{
    let Some(request) = requests.get(n) else {
        return None;
    };
    Some(request.segment())
}

/// Adds the buffer for the cache of what a read was given, if that is good. Only memory refuses.
fn add_put(
    alloc: Global,
    puts: &mut Vec<(SegmentId, ByteBuffer)>,
    requests: &[Request],
    one: &Filed,
) -> Result<(), AllocError>
    ensures { OnOk result (puts.new.items ≡ puts.old.items ++ put_at (segment_at requests.now one.now.read) one.now.bytes) }
{
    let Some(segment) = segment_of(requests, one.read() as usize) else {
        return Ok(());
    };
    let Some(shared) = one.share_bytes(alloc)? else {
        return Ok(());
    };
    puts.push((SegmentId(segment), shared))?;
    Ok(())
}

/// The buffers for the cache of what a block gave: each good read's bytes, under its segment.
pub fn puts_of(
    alloc: Global,
    requests: &[Request],
    filed: &[Filed],
) -> Result<Vec<(SegmentId, ByteBuffer)>, AllocError>
    ensures { IfOk result (λ puts. puts.items ≡ puts_of requests.now filed.now) }
{
    let mut puts = Vec::with_capacity(alloc, filed.len())?;
    for one in filed {
        add_put(alloc, &mut puts, requests, one)?;
    }
    Ok(puts)
}

/// Puts buffers into a cache. A put that fails or finds no memory is passed over.
pub fn put_all<C: SegmentCache>(alloc: Global, cache: &mut C, puts: Vec<(SegmentId, ByteBuffer)>)
    ensures gains { Gains puts.items (C.state cache.old) (C.state cache.new) }
    ensures same { SameCache (C.state cache.old) (C.state cache.new) }
{
    for (id, buffer) in puts {
        let _ = cache.put(alloc, id, buffer);
    }
}
