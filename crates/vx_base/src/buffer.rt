//! Bytes that are cut and shared without a copy.
ghost use Rattle.std.specs.Prelude.{◌≡◌, ◌^◌, ◌<◌, ◌≤◌, ◌==◌, ◌++◌, length, slice_range, IfOk};

use crate::Alignment;
use bytes::{Bytes, BytesMut};
use std::alloc::{AllocError, Global};
use std::marker::Model;
use std::ops::Range;

/// A run of bytes, and the alignment that it claims. A slice or a share copies no byte.
#[derive(Drop)]
pub struct ByteBuffer {
    held: Bytes<Global>,
    aligned: Alignment,
}

impl Model for ByteBuffer {
    ghost use Rattle.vx_base.specs.Buffer.{Buffer};

    ghost Value = { Buffer };

    ghost view = { λ b. record { bytes = b.held; alignment = b.aligned } };
}

impl ByteBuffer {
    /// The buffer of these bytes. Only memory refuses.
    pub fn from_vec(
        alloc: Global,
        bytes: Vec<u8>,
        alignment: Alignment,
    ) -> Result<ByteBuffer, AllocError>
        ensures { IfOk result (λ b. b ≡ record { bytes = bytes.items; alignment = alignment }) }
    {
        let _ = alloc;
        let held = Bytes::from_vec(bytes)?;
        Ok(ByteBuffer {
            held,
            aligned: alignment,
        })
    }

    /// The bytes in a range, with the same alignment. Only memory refuses.
    pub fn slice(&self, alloc: Global, range: Range<usize>) -> Result<ByteBuffer, AllocError>
        requires ordered { range.start ≤ range.end }
        requires inside { range.end ≤ length self.now.bytes }
        ensures { IfOk result (λ b. b ≡ record self.now { bytes = slice_range self.now.bytes range.start range.end }) }
    {
        let _ = alloc;
        let held = self.held.slice(range)?;
        Ok(ByteBuffer {
            held,
            aligned: self.aligned,
        })
    }

    /// Another owner of the same bytes. Only memory refuses.
    pub fn share(&self, alloc: Global) -> Result<ByteBuffer, AllocError>
        ensures { IfOk result (λ b. b ≡ self.now) }
    {
        let _ = alloc;
        let held = self.held.slice(0..self.held.len())?;
        Ok(ByteBuffer {
            held,
            aligned: self.aligned,
        })
    }

    /// The same bytes with others behind them. Where this is their only owner they are not copied.
    pub fn extended(self, alloc: Global, behind: &[u8]) -> Result<ByteBuffer, AllocError>
        ensures { IfOk result (λ b. b ≡ record self { bytes = self.bytes ++ behind.now }) }
    {
        let ByteBuffer { held, aligned } = self;
        let mut bytes = match held.try_into_mut() {
            Ok(bytes) => bytes,
            Err(shared) => BytesMut::copy_from_slice(alloc, shared.as_slice())?,
        };
        bytes.extend_from_slice(behind)?;
        let held = bytes.freeze()?;
        Ok(ByteBuffer { held, aligned })
    }

    /// The same bytes, which claim another alignment.
    pub fn aligned(self, alignment: Alignment) -> ByteBuffer
        ensures { result ≡ record self { alignment = alignment } }
    {
        let ByteBuffer { held, aligned: _ } = self;
        ByteBuffer {
            held,
            aligned: alignment,
        }
    }

    /// The number of bytes.
    pub fn len(&self) -> usize
        ensures value { result ≡ length self.now.bytes }
        ensures bound { result < 2 ^ 63 }
    {
        self.held.len()
    }

    /// Whether there is no byte.
    pub fn is_empty(&self) -> bool
        ensures { result ≡ (length self.now.bytes == 0) }
    {
        self.held.is_empty()
    }

    /// The bytes.
    pub fn as_slice(&self) -> &[u8]
        ensures value { result.now ≡ self.now.bytes }
        ensures bound { length self.now.bytes < 2 ^ 63 }
    {
        let _bound = self.held.len();
        self.held.as_slice()
    }

    /// The alignment that the bytes claim.
    pub fn alignment(&self) -> Alignment
        ensures { result ≡ self.now.alignment }
    {
        self.aligned
    }
}
