//! A reader with other settings.
ghost use Rattle.std.specs.Prelude.{◌≡◌, ◌≤◌};

use crate::{CloneError, Failed, RangeAnswer, ReadAtRequest, Reader};
use std::alloc::{AllocError, Global};

/// A reader in the place of another, with a distance, a read limit and a concurrency of its own.
#[derive(Drop)]
pub struct WithWindow<R: Reader> {
    inner: R,
    distance: Option<u64>,
    max_read_size: Option<u64>,
    concurrency: usize,
    ghost some: { 1 ≤ concurrency },
    ghost fewer: { concurrency ≤ (R.state inner).concurrency },
}

impl<R: Reader> WithWindow<R> {
    /// A reader of the same bytes, which asks the inner one at most as many ranges as that allows.
    pub fn new(
        inner: R,
        distance: Option<u64>,
        max_read_size: Option<u64>,
        concurrency: usize,
    ) -> WithWindow<R>
        requires some { 1 ≤ concurrency }
        requires fewer { concurrency ≤ (R.state inner).concurrency }
        ensures inner { result.inner ≡ inner }
        ensures distance { result.distance ≡ distance }
        ensures max_read_size { result.max_read_size ≡ max_read_size }
        ensures concurrency { result.concurrency ≡ concurrency }
    {
        WithWindow {
            inner,
            distance,
            max_read_size,
            concurrency,
        }
    }

    /// The inner reader.
    pub fn into_inner(self) -> R
        ensures { result ≡ self.inner }
    {
        let WithWindow {
            inner,
            distance: _,
            max_read_size: _,
            concurrency: _,
        } = self;
        inner
    }
}

impl<R: Reader> Reader for WithWindow<R> {
    ghost state = { λ r. record (R.state r.inner) { distance = r.distance; max_read_size = r.max_read_size; concurrency = r.concurrency } };

    fn size(&mut self) -> Result<u64, Failed> {
        self.inner.size()
    }

    fn read_ranges(
        &mut self,
        alloc: Global,
        asked: &[ReadAtRequest],
    ) -> Result<Vec<RangeAnswer>, AllocError> {
        self.inner.read_ranges(alloc, asked)
    }

    fn coalesce_distance(&self) -> Option<u64> {
        self.distance
    }

    fn max_read_size(&self) -> Option<u64> {
        self.max_read_size
    }

    fn concurrency(&self) -> usize {
        self.concurrency
    }

    fn uri(&self) -> Option<&str> {
        self.inner.uri()
    }

    fn try_clone(&mut self, alloc: Global) -> Result<WithWindow<R>, CloneError> {
        let inner = self.inner.try_clone(alloc)?;
        Ok(WithWindow {
            inner,
            distance: self.distance,
            max_read_size: self.max_read_size,
            concurrency: self.concurrency,
        })
    }
}
