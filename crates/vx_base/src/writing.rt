//! Writes bytes whole, in as many turns as a sink takes.
ghost use Rattle.std.specs.Prelude.{◌≡◌, ◌≤◌, [], length, drop, true, OnOk};
ghost use Rattle.std.specs.List.{flat_map};
ghost use Rattle.vx_base.specs.Streams.{SameSink, WritesAll};

use crate::{Sink, SinkError};
use std::alloc::Global;

/// The bytes behind the first `n`.
fn rest_of(bytes: &[u8], n: usize) -> &[u8]
    requires { n ≤ length bytes.now }
    ensures { result.now ≡ drop n bytes.now }
{
    &bytes[n..]
}

/// Writes bytes. After an error a prefix of them was taken.
pub fn write_all<S: Sink>(alloc: Global, sink: &mut S, bytes: &[u8]) -> Result<(), SinkError>
    ensures written { WritesAll bytes.now (S.state sink.old) (S.state sink.new) result }
    ensures same { SameSink (S.state sink.old) (S.state sink.new) }
{
    let mut rest = bytes;
    while !rest.is_empty() {
        let n = sink.write(alloc, rest)?;
        rest = rest_of(rest, n);
    }
    Ok(())
}

/// Writes pieces one behind the other, without a copy of them. After an error a prefix of them was
/// taken.
pub fn write_pieces<S: Sink>(alloc: Global, sink: &mut S, pieces: &[&[u8]]) -> Result<(), SinkError>
    ensures written { WritesAll (flat_map (λ piece. piece.now) pieces.now) (S.state sink.old) (S.state sink.new) result }
    ensures same { SameSink (S.state sink.old) (S.state sink.new) }
{
    for piece in pieces {
        write_all(alloc, sink, piece)?;
    }
    Ok(())
}

/// Flushes a sink.
fn flush<S: Sink>(sink: &mut S) -> Result<(), SinkError>
    ensures written { WritesAll [] (S.state sink.old) (S.state sink.new) result }
    ensures flushed { OnOk result ((S.state sink.new).is_flushed ≡ true) }
    ensures same { SameSink (S.state sink.old) (S.state sink.new) }
{
    match sink.flush() {
        Ok(()) => Ok(()),
        Err(_) => Err(SinkError::Failed),
    }
}

/// Writes bytes and flushes. After an error a prefix of them was taken.
pub fn write_flushed<S: Sink>(alloc: Global, sink: &mut S, bytes: &[u8]) -> Result<(), SinkError>
    ensures written { WritesAll bytes.now (S.state sink.old) (S.state sink.new) result }
    ensures flushed { OnOk result ((S.state sink.new).is_flushed ≡ true) }
    ensures same { SameSink (S.state sink.old) (S.state sink.new) }
{
    write_all(alloc, sink, bytes)?;
    flush(sink)
}
