//! The tail of a file.
use vx_base::ByteBuffer;

/// The bytes of a file from a place on.
#[derive(Drop)]
pub struct Tail {
    pub start: u64,
    pub bytes: ByteBuffer,
}
