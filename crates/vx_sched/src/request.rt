//! A read that is asked of the scheduler.
use vx_base::Alignment;

/// A read: its number, the place and length of its bytes, and the alignment that they are to claim.
#[derive(Clone, Copy, Debug, PartialEq, Eq)]
pub struct ReadRequest {
    pub id: u64,
    pub offset: u64,
    pub length: usize,
    pub alignment: Alignment,
}
