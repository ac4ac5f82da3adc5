//! Counts the bytes that a sink takes.
ghost use Rattle.std.specs.Prelude.{◌≡◌, ◌+◌, ◌-◌, ◌^◌, min, IfOk, OnErr};
ghost use Rattle.vx_base.specs.Streams.{WriteCause, FlushCause, SameSink};

use std::alloc::Global;
use vx_base::{Failed, Sink, SinkError};

/// A sink that counts the bytes that it took, up to 2^64 - 1.
#[derive(Drop)]
pub struct CountingVortexWrite<W: Sink> {
    inner: W,
    count: u64,
}

impl<W: Sink> CountingVortexWrite<W> {
    /// This sink, of which no byte is counted yet.
    pub fn new(inner: W) -> CountingVortexWrite<W>
        ensures inner { result.inner ≡ inner }
        ensures none { result.count ≡ 0 }
    {
        CountingVortexWrite { inner, count: 0 }
    }

    /// How many bytes the sink took, at most 2^64 - 1.
    pub fn bytes_written(&self) -> u64
        ensures { result ≡ self.now.count }
    {
        self.count
    }

    /// The sink.
    pub fn into_inner(self) -> W
        ensures { result ≡ self.inner }
    {
        let CountingVortexWrite { inner, count: _ } = self;
        inner
    }
}

impl<W: Sink> Sink for CountingVortexWrite<W> {
    ghost state = { λ sink. W.state sink.inner };

    fn write(&mut self, alloc: Global, piece: &[u8]) -> Result<usize, SinkError>
        ensures cause { WriteCause piece.now (W.state self.old.inner) (W.state self.new.inner) result }
        ensures same { SameSink (W.state self.old.inner) (W.state self.new.inner) }
        // Each byte that the sink took is counted.
        ensures counted { IfOk result (λ n. self.new.count ≡ min (self.old.count + n) (2 ^ 64 - 1)) }
        ensures kept { OnErr result (self.new.count ≡ self.old.count) }
    {
        let count = self.inner.write(alloc, piece)?;
        self.count = self.count.saturating_add(count as u64);
        Ok(count)
    }

    fn flush(&mut self) -> Result<(), Failed>
        ensures cause { FlushCause (W.state self.old.inner) (W.state self.new.inner) result }
        ensures same { SameSink (W.state self.old.inner) (W.state self.new.inner) }
        // No byte is counted.
        ensures still { self.new.count ≡ self.old.count }
    {
        self.inner.flush()
    }
}
