//! Where a register finds a segment.
use vx_base::ByteBuffer;

/// Where a segment was found: no segment has this number, the tail has its bytes, the cache has them, the cache
/// failed, or nobody has them.
#[derive(Drop)]
pub enum Look {
    Missing,
    InTail(ByteBuffer),
    InCache(ByteBuffer),
    CacheFailed,
    Nowhere,
}
