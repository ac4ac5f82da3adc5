//! Streams over those of the system. They tell no content.
ghost use Rattle.std.specs.Prelude.{◌≡◌, ◌<◌, ◌≤◌, length, IfSome};

use crate::{Failed, Sink, SinkError, Source};
use std::alloc::Global;
use std::io::{ErrorKind, Read, Write};

// Reads once, and again where a signal came between.
fn read_some<R: Read>(inner: &mut R, into: &mut [u8]) -> Option<usize>
    ensures { IfSome result (λ n. n ≤ length into.old) }
{
    for _ in 0..u64::MAX {
        match inner.read(into) {
            Ok(count) => return Some(count),
            Err(error) => {
                if error.kind() != ErrorKind::Interrupted {
                    return None;
                }
            }
        }
    }
    None
}

// Writes once, and again where a signal came between. No byte of some is a failure.
fn write_some<W: Write>(inner: &mut W, piece: &[u8]) -> Option<usize>
    ensures bound { IfSome result (λ n. n ≤ length piece.now) }
    ensures some { 0 < length piece.now → IfSome result (λ n. 0 < n) }
{
    for _ in 0..u64::MAX {
        match inner.write(piece) {
            Ok(0) => return if piece.is_empty() { Some(0) } else { None },
            Ok(count) => return Some(count),
            Err(error) => {
                if error.kind() != ErrorKind::Interrupted {
                    return None;
                }
            }
        }
    }
    None
}

/// A stream that reads what std reads, as standard input.
#[derive(Drop)]
pub struct StdSource<R: Read + Drop> {
    inner: R,
    faults: u64,
}

impl<R: Read + Drop> StdSource<R> {
    /// A stream over a reader of std.
    pub fn new(inner: R) -> StdSource<R>
        ensures { (⟦<StdSource<R> as Source>⟧.state result).faults ≡ 0 }
    {
        StdSource { inner, faults: 0 }
    }
}

impl<R: Read + Drop> Source for StdSource<R> {
    ghost use Rattle.std.specs.Prelude.{None, false};

    ghost state = { λ s. record { rest = None; never_fails = false; faults = s.faults } };

    fn read(&mut self, into: &mut [u8]) -> Result<usize, Failed> {
        match read_some(&mut self.inner, into) {
            Some(count) => Ok(count),
            None => {
                self.faults = self.faults.saturating_add(1);
                Err(Failed)
            }
        }
    }
}

/// A stream that writes as std writes, as standard output.
#[derive(Drop)]
pub struct StdSink<W: Write + Drop> {
    inner: W,
    is_flushed: bool,
    faults: u64,
}

impl<W: Write + Drop> StdSink<W> {
    /// A stream over a writer of std.
    pub fn new(inner: W) -> StdSink<W>
        ensures { (⟦<StdSink<W> as Sink>⟧.state result).faults ≡ 0 }
    {
        StdSink {
            inner,
            is_flushed: true,
            faults: 0,
        }
    }
}

impl<W: Write + Drop> Sink for StdSink<W> {
    ghost use Rattle.std.specs.Prelude.{None, false};

    ghost state = { λ s. record {
      gained = None;
      is_flushed = s.is_flushed;
      never_fails = false;
      faults = s.faults;
      memory_faults = 0;
    } };

    fn write(&mut self, alloc: Global, piece: &[u8]) -> Result<usize, SinkError> {
        let _ = alloc;
        match write_some(&mut self.inner, piece) {
            Some(count) => {
                self.is_flushed = false;
                Ok(count)
            }
            None => {
                self.faults = self.faults.saturating_add(1);
                Err(SinkError::Failed)
            }
        }
    }

    fn flush(&mut self) -> Result<(), Failed> {
        match self.inner.flush() {
            Ok(()) => {
                self.is_flushed = true;
                Ok(())
            }
            Err(_) => {
                self.faults = self.faults.saturating_add(1);
                Err(Failed)
            }
        }
    }
}
