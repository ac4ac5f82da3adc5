//! Which rows of a column are not null, in the bytes of a segment.
ghost use Rattle.std.specs.Prelude.{◌≡◌, ◌++◌, ◌∷◌, [], ◌+◌, ◌-◌, ◌*◌, ◌/◌, ◌<◌, ◌≤◌, length, if◌then◌else◌, IfOk, IfSome, OnOk, ◌≤◌};
ghost use Rattle.std.specs.List.{list_all};
ghost use Rattle.vx_rows.specs.Span.{span};
ghost use Rattle.vx_base.specs.Checks.{Gives};
ghost use Rattle.vx_rows.specs.Bits.{bitmap_size, bitmap, present_at};
ghost use Rattle.vx_rows.specs.Written.{presence_bytes, flags_bytes};
ghost use Rattle.vx_rows.specs.Arrays.{Fails, is_padded, bitmap_end, bitmap_at, some_present, flagged, presence_at};

use crate::bits::{are_set, bitmap_len};
use crate::{ArrayError, Bits};
use std::alloc::{AllocError, Global};
use vx_base::ByteBuffer;

/// Whether the bits behind the last row are 0.
fn are_padded(bytes: &[u8], at: usize, rows: usize) -> bool
    requires { at + bitmap_size rows ≤ length bytes.now }
    ensures { result ≡ is_padded bytes.now at rows }
{
    rows % 8 == 0 || bytes[at + rows / 8] >> (rows % 8) == 0
}

/// The place after a bitmap of so many rows.
#[tactic(auto, unfolding(crate::specs::Arrays::bitmap_end))]
fn end_of_bitmap(bytes: &[u8], at: usize, rows: usize) -> Result<usize, ArrayError>
    requires { at ≤ length bytes.now }
    ensures value { Gives Fails (λ after. after) result (bitmap_end rows bytes.now at) }
    ensures inside { IfOk result (λ after. (after ≡ at + bitmap_size rows) × (after ≤ length bytes.now)) }
{
    let size = bitmap_len(rows);
    if size > bytes.len() - at {
        return Err(ArrayError::BadArray);
    }
    if !are_padded(bytes, at, rows) {
        return Err(ArrayError::BadArray);
    }
    Ok(at + size)
}

/// A bitmap of so many rows, and the place after it.
#[tactic(auto, using(crate::proofs::SpanLemmas::length_span), unfolding(crate::specs::Arrays::bitmap_at))]
pub fn read_bitmap(
    alloc: Global,
    segment: &ByteBuffer,
    at: usize,
    rows: usize,
) -> Result<(Bits, usize), ArrayError>
    requires { at ≤ length segment.now.bytes }
    ensures value { Gives Fails (λ x. x) result (bitmap_at rows segment.now.bytes at) }
    ensures inside { IfOk result (λ x. x.1 ≤ length segment.now.bytes) }
    ensures long { IfOk result (λ x. length x.0 ≡ rows) }
{
    let after = end_of_bitmap(segment.as_slice(), at, rows)?;
    let bits = Bits::new(alloc, segment, at, rows)?;
    Ok((bits, after))
}

/// A bitmap of the rows that are not null, where some row is null, and the place after it.
#[tactic(auto, using(crate::proofs::SpanLemmas::length_span), unfolding(crate::specs::Arrays::some_present))]
fn read_some(
    alloc: Global,
    segment: &ByteBuffer,
    at: usize,
    rows: usize,
) -> Result<(Option<Bits>, usize), ArrayError>
    requires { at ≤ length segment.now.bytes }
    ensures value { Gives Fails (λ x. x) result (some_present rows segment.now.bytes at) }
    ensures inside { IfOk result (λ x. x.1 ≤ length segment.now.bytes) }
    ensures long { IfOk result (λ x. IfSome x.0 (λ bits. length bits ≡ rows)) }
{
    let after = end_of_bitmap(segment.as_slice(), at, rows)?;
    if are_set(segment.as_slice(), at, rows) {
        return Err(ArrayError::BadArray);
    }
    let bits = Bits::new(alloc, segment, at, rows)?;
    Ok((Some(bits), after))
}

/// Which rows are not null, by a flag, and the place after that.
#[tactic(auto, unfolding(crate::specs::Arrays::flagged))]
fn read_flagged(
    alloc: Global,
    segment: &ByteBuffer,
    at: usize,
    rows: usize,
    flag: u8,
) -> Result<(Option<Bits>, usize), ArrayError>
    requires { at ≤ length segment.now.bytes }
    ensures value { Gives Fails (λ x. x) result (flagged rows segment.now.bytes at flag) }
    ensures inside { IfOk result (λ x. x.1 ≤ length segment.now.bytes) }
    ensures long { IfOk result (λ x. IfSome x.0 (λ bits. length bits ≡ rows)) }
{
    match flag {
        0 => Ok((None, at)),
        1 => read_some(alloc, segment, at, rows),
        _ => Err(ArrayError::BadArray),
    }
}

/// Which rows are not null, and the place after that.
#[tactic(auto, unfolding(crate::specs::Arrays::presence_at))]
pub fn read_presence(
    alloc: Global,
    segment: &ByteBuffer,
    at: usize,
    nullable: bool,
    rows: usize,
) -> Result<(Option<Bits>, usize), ArrayError>
    requires { at ≤ length segment.now.bytes }
    ensures value { Gives Fails (λ x. x) result (presence_at nullable rows segment.now.bytes at) }
    ensures inside { IfOk result (λ x. x.1 ≤ length segment.now.bytes) }
    ensures long { IfOk result (λ x. IfSome x.0 (λ bits. length bits ≡ rows)) }
{
    if !nullable {
        return Ok((None, at));
    }
    let bytes = segment.as_slice();
    if at >= bytes.len() {
        return Err(ArrayError::BadArray);
    }
    read_flagged(alloc, segment, at + 1, rows, bytes[at])
}

/// Adds 0 where each row is true, else 1 and the bitmap.
fn push_flags(bytes: &mut Vec<u8>, flags: &Bits) -> Result<(), AllocError>
    ensures { OnOk result (bytes.new.items ≡ bytes.old.items ++ flags_bytes flags.now) }
{
    if flags.are_all() {
        bytes.push(0)?;
        return Ok(());
    }
    bytes.push(1)?;
    flags.push_bytes(bytes)
}

/// Adds which rows are not null.
#[tactic(auto, using(crate::proofs::WrittenLemmas::presence))]
pub fn push_presence(
    bytes: &mut Vec<u8>,
    nullable: bool,
    present: &Option<Bits>,
    rows: usize,
) -> Result<(), AllocError>
    requires { IfSome present.now (λ bits. length bits ≡ rows) }
    ensures { OnOk result (bytes.new.items ≡ bytes.old.items ++ presence_bytes nullable (span (present_at present.now) 0 rows)) }
{
    if !nullable {
        return Ok(());
    }
    match present {
        None => Ok(bytes.push(0)?),
        Some(bits) => push_flags(bytes, bits),
    }
}
