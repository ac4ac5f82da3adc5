//! How many bytes a writer holds back, as others may see it.
use std::alloc::{AllocError, Global};
use std::sync::Arc;
use std::sync::atomic::{AtomicU64, Ordering};

/// How many bytes the rows take that writers hold back, as their last calls left it. It is shared: whoever has it
/// sees what the writers note.
#[derive(Drop)]
pub struct BufferedBytesTracker {
    count: Arc<AtomicU64, Global>,
}

impl BufferedBytesTracker {
    /// Nothing is held back yet.
    pub(crate) fn new(alloc: Global) -> Result<BufferedBytesTracker, AllocError> {
        Ok(BufferedBytesTracker {
            count: Arc::new(alloc, AtomicU64::new(0))?,
        })
    }

    /// The same number, shared. Only memory refuses.
    pub(crate) fn share(&self) -> Result<BufferedBytesTracker, AllocError> {
        Ok(BufferedBytesTracker {
            count: Arc::try_clone(&self.count)?,
        })
    }

    /// Notes how many bytes are held back.
    pub(crate) fn set(&self, count: u64) {
        self.count.store(count, Ordering::SeqCst);
    }

    /// How many bytes were held back when that was last noted.
    pub fn get(&self) -> u64 {
        self.count.load(Ordering::SeqCst)
    }
}
