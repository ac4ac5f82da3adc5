//! What a reader is asked, and what it answers.
use crate::{Alignment, ByteBuffer, Failed, FaultKind};

/// A range of a file that is to be read, and the alignment that its bytes are to claim.
#[derive(Clone, Copy, Debug, PartialEq, Eq)]
pub struct ReadAtRequest {
    pub offset: u64,
    pub length: usize,
    pub alignment: Alignment,
}

/// An answer of a reader, which names the range that it answers.
#[derive(Drop)]
pub struct RangeAnswer<B = ByteBuffer> {
    pub request: ReadAtRequest,
    pub result: Result<B, Failed>,
}

/// A range that a reader was asked, and its mark: why it got no bytes of its length, if it got none.
#[derive(Clone, Copy, Debug, PartialEq, Eq)]
pub struct Asked {
    pub range: ReadAtRequest,
    pub mark: Option<FaultKind>,
}
