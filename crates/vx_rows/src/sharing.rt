//! What threads may send and share.
use crate::{Column, Mask};

fn takes_shared<T: Send + Sync>(_value: &T) {}

/// Values of these types may be sent and shared between threads.
pub fn may_be_shared(column: &Column, mask: &Mask) {
    takes_shared(column);
    takes_shared(mask);
}
