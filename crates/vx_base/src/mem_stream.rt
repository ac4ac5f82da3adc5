//! Streams over memory.
ghost use Rattle.std.specs.Prelude.{◌≡◌, ◌⊎◌, [], true, false, length, OnOk, IfOk};
ghost use Rattle.vx_base.specs.Memory.{MemSourceState, MemSinkState, source_state, sink_state, read_count, after_read, counted, is_failing, is_empty};
ghost use Rattle.vx_base.specs.Counts.{Rises, next_count};
ghost use Rattle.vx_base.specs.Streams.{ReadCause, SameSource, WriteCause, FlushCause, SameSink};

use crate::{Failed, Sink, SinkError, Source};
use std::alloc::Global;
use std::marker::Model;

/// A stream of bytes in memory. It tells what is left, and fails at chosen calls.
#[derive(Drop)]
pub struct MemSource {
    bytes: Vec<u8>,
    at: usize,
    fail: Vec<u64>,
    calls: u64,
    faults: u64,
}

impl Model for MemSource {
    ghost use Rattle.std.specs.Prelude.{◌≤◌, drop, length};
    ghost use Rattle.vx_base.specs.Memory.{MemSourceState};

    ghost Value = { MemSourceState };

    ghost view = { λ s. record { rest = drop s.at s.bytes.items; fail = s.fail.items; calls = s.calls; faults = s.faults } };

    ghost invariant = { λ s. s.at ≤ length s.bytes.items };
}

impl MemSource {
    /// A stream of these bytes, whose reads at these places, from 0, fail. With no place it never
    /// fails.
    pub fn new(bytes: Vec<u8>, fail: Vec<u64>) -> MemSource
        ensures { result ≡ record { rest = bytes.items; fail = fail.items; calls = 0; faults = 0 } }
    {
        MemSource {
            bytes,
            at: 0,
            fail,
            calls: 0,
            faults: 0,
        }
    }
}

impl Source for MemSource {
    ghost state = { source_state };

    fn read(&mut self, into: &mut [u8]) -> Result<usize, Failed>
        ensures cause { ReadCause into.old into.new (source_state self.old) (source_state self.new) result }
        ensures same { SameSource (source_state self.old) (source_state self.new) }
        // Exactly the reads at the chosen places fail.
        ensures count { result ≡ read_count (length into.old) self.old }
        ensures after { self.new ≡ after_read (length into.old) self.old }
    {
        let place = self.calls;
        self.calls = place.saturating_add(1);
        if self.fail.contains(&place) {
            self.faults = self.faults.saturating_add(1);
            return Err(Failed);
        }
        let count = into.len().min(self.bytes.len() - self.at);
        into[..count].copy_from_slice(&self.bytes[self.at..self.at + count]);
        self.at += count;
        Ok(count)
    }
}

/// A stream into memory. It tells what it took, and fails at chosen calls.
#[derive(Drop)]
pub struct MemSink {
    bytes: Vec<u8>,
    is_flushed: bool,
    fail: Vec<u64>,
    calls: u64,
    faults: u64,
    memory_faults: u64,
}

impl Model for MemSink {
    ghost use Rattle.vx_base.specs.Memory.{MemSinkState};

    ghost Value = { MemSinkState };

    ghost view = { λ s. record {
      gained = s.bytes.items;
      is_flushed = s.is_flushed;
      fail = s.fail.items;
      calls = s.calls;
      faults = s.faults;
      memory_faults = s.memory_faults;
    } };
}

impl MemSink {
    /// A stream that took nothing yet, whose writes and flushes at these places, from 0, fail. With no
    /// place it never fails.
    pub fn new(alloc: Global, fail: Vec<u64>) -> MemSink
        ensures { result ≡ record { gained = []; is_flushed = true; fail = fail.items; calls = 0; faults = 0; memory_faults = 0 } }
    {
        MemSink {
            bytes: Vec::new(alloc),
            is_flushed: true,
            fail,
            calls: 0,
            faults: 0,
            memory_faults: 0,
        }
    }

    /// What it took.
    pub fn into_bytes(self) -> Vec<u8>
        ensures { result.items ≡ self.gained }
    {
        self.bytes
    }

    // Whether this call fails, which is then counted.
    #[tactic(auto, using(crate::proofs::MemoryLemmas::empty_failing))]
    fn fails(&mut self) -> bool
        ensures value { result ≡ is_failing self.old.fail self.old.calls }
        ensures after { self.new ≡ counted self.old }
        ensures same { SameSink (sink_state self.old) (sink_state self.new) }
        ensures rises { result ≡ true → Rises 1 self.old.faults self.new.faults }
        ensures kept { (self.new.gained ≡ self.old.gained) × (self.new.fail ≡ self.old.fail) }
        ensures still { result ≡ false → self.new ≡ record self.old { calls = next_count self.old.calls } }
        ensures sound { is_empty self.old.fail ≡ true → result ≡ false }
    {
        let place = self.calls;
        self.calls = place.saturating_add(1);
        if self.fail.contains(&place) {
            self.faults = self.faults.saturating_add(1);
            return true;
        }
        false
    }
}

impl Sink for MemSink {
    ghost state = { sink_state };

    fn write(&mut self, alloc: Global, piece: &[u8]) -> Result<usize, SinkError>
        ensures cause { WriteCause piece.now (sink_state self.old) (sink_state self.new) result }
        ensures same { SameSink (sink_state self.old) (sink_state self.new) }
        // A piece is taken whole, and exactly the calls at the chosen places fail.
        ensures whole { IfOk result (λ n. n ≡ length piece.now) }
        ensures failed { result ≡ Err SinkError.Failed → is_failing self.old.fail self.old.calls ≡ true }
        ensures fails { is_failing self.old.fail self.old.calls ≡ true → result ≡ Err SinkError.Failed }
        ensures unflushed { OnOk result (self.new.is_flushed ≡ false) }
    {
        let _ = alloc;
        if self.fails() {
            return Err(SinkError::Failed);
        }
        match self.bytes.extend_from_slice(piece) {
            Ok(()) => {
                self.is_flushed = false;
                Ok(piece.len())
            }
            Err(_) => {
                self.memory_faults = self.memory_faults.saturating_add(1);
                Err(SinkError::OutOfMemory)
            }
        }
    }

    fn flush(&mut self) -> Result<(), Failed>
        ensures cause { FlushCause (sink_state self.old) (sink_state self.new) result }
        ensures same { SameSink (sink_state self.old) (sink_state self.new) }
        // Exactly the calls at the chosen places fail.
        ensures failed { result ≡ Err (record {}) → is_failing self.old.fail self.old.calls ≡ true }
        ensures fails { is_failing self.old.fail self.old.calls ≡ true → result ≡ Err (record {}) }
    {
        if self.fails() {
            return Err(Failed);
        }
        self.is_flushed = true;
        Ok(())
    }
}
