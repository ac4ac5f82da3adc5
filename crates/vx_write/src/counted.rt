//! Writes bytes whole, and counts those that a sink took.
ghost use Rattle.std.specs.Prelude.{◌≡◌, ◌+◌, ◌<◌, ◌≤◌, ◌^◌, Ok, length, drop, OnOk, OnErr};
ghost use Rattle.std.specs.List.{flat_map};
ghost use Rattle.vx_write.specs.Taken.{TookAll, TookPart, SinkCause, Checked};

use crate::segment_sink::error_of;
use std::alloc::Global;
use vx_base::Sink;
use vx_footer::WriteError;

/// The bytes behind the first `n`.
fn rest_of(bytes: &[u8], n: usize) -> &[u8]
    requires { n ≤ length bytes.now }
    ensures { result.now ≡ drop n bytes.now }
{
    &bytes[n..]
}

/// Writes bytes, and counts those that the sink took. After an error the first ones were taken.
pub(crate) fn write_counted<S: Sink>(
    alloc: Global,
    sink: &mut S,
    taken: &mut u64,
    bytes: &[u8],
) -> Result<(), WriteError>
    requires { taken.old + length bytes.now < 2 ^ 64 }
    ensures ok { OnOk result (TookAll bytes.now (S.state sink.old).gained (S.state sink.new).gained taken.old taken.new) }
    ensures err { OnErr result (TookPart bytes.now (S.state sink.old).gained (S.state sink.new).gained taken.old taken.new) }
    ensures cause { SinkCause (S.state sink.old) (S.state sink.new) result }
    ensures only { Checked {B = Unit {0}} result (Ok tt) }
{
    let mut rest = bytes;
    while !rest.is_empty() {
        match sink.write(alloc, rest) {
            Ok(count) => {
                rest = rest_of(rest, count);
                *taken += count as u64;
            }
            Err(error) => return Err(error_of(error)),
        }
    }
    Ok(())
}

/// Writes pieces one behind the other, and counts the bytes that the sink took. After an error the first ones
/// were taken.
pub(crate) fn write_parts<S: Sink>(
    alloc: Global,
    sink: &mut S,
    taken: &mut u64,
    parts: &[&[u8]],
) -> Result<(), WriteError>
    requires { taken.old + length (flat_map (λ part. part.now) parts.now) < 2 ^ 64 }
    ensures ok { OnOk result (TookAll (flat_map (λ part. part.now) parts.now) (S.state sink.old).gained (S.state sink.new).gained taken.old taken.new) }
    ensures err { OnErr result (TookPart (flat_map (λ part. part.now) parts.now) (S.state sink.old).gained (S.state sink.new).gained taken.old taken.new) }
    ensures cause { SinkCause (S.state sink.old) (S.state sink.new) result }
    ensures only { Checked {B = Unit {0}} result (Ok tt) }
{
    for at in 0..parts.len() {
        match write_counted(alloc, sink, taken, parts[at]) {
            Ok(()) => {}
            Err(error) => return Err(error),
        }
    }
    Ok(())
}
