//! Columns of integers and of truth values in the bytes of a segment.
ghost use Rattle.std.specs.Prelude.{◌≡◌, ◌+◌, ◌-◌, ◌*◌, ◌<◌, ◌≤◌, ◌==◌, ◌^◌, nat_le, length, IfOk, IfSome};
ghost use Rattle.vx_base.specs.Checks.{Gives};
ghost use Rattle.vx_rows.specs.Span.{every};
ghost use Rattle.vx_rows.specs.Bits.{bitmap_size};
ghost use Rattle.vx_rows.specs.Columns.{value_size, value_place, raw_at, is_clear};
ghost use Rattle.vx_rows.specs.Arrays.{Fails, is_false, ints_at, bools_at};

use crate::bits::bit_of;
use crate::int_column::{has_value, is_zero, place_of};
use crate::presence::{read_bitmap, read_presence};
use crate::{ArrayError, Bits, BoolColumn, IntColumn};
use std::alloc::Global;
use vx_base::ByteBuffer;
use vx_data::PType;

/// Whether so many values have room in so many bytes.
pub fn have_room(ptype: PType, rows: usize, room: usize) -> bool
    ensures { result ≡ nat_le (value_size ptype * rows) room }
{
    match ptype {
        PType::U8 | PType::I8 => rows <= room,
        PType::U16 | PType::I16 => rows <= room / 2,
        PType::U32 | PType::I32 => rows <= room / 4,
        PType::U64 | PType::I64 => rows <= room / 8,
    }
}

/// Whether a row has a value, or is 0.
#[inline(always)]
#[tactic(auto, using(crate::proofs::IntLemmas::place_inside))]
fn row_is_clear(ptype: PType, present: &Option<Bits>, bytes: &[u8], at: usize, row: usize) -> bool
    requires inside { value_place ptype at row + value_size ptype ≤ length bytes.now }
    requires bound { value_place ptype at row < 2 ^ 64 }
    requires long { IfSome present.now (λ bits. row < length bits) }
    ensures { result ≡ is_clear ptype present.now bytes.now at row }
{
    has_value(present, row) || is_zero(ptype, bytes, place_of(ptype, at, row))
}

/// Whether each null row is 0. Each call is compiled for its type.
#[inline(always)]
#[tactic(auto, using(crate::proofs::SpanLemmas::every_step, crate::proofs::IntLemmas::place_inside, crate::proofs::IntLemmas::place_bound))]
fn rows_are_clear(
    ptype: PType,
    present: &Option<Bits>,
    bytes: &[u8],
    at: usize,
    rows: usize,
) -> bool
    requires inside { value_place ptype at rows ≤ length bytes.now }
    requires bound { length bytes.now < 2 ^ 63 }
    requires long { IfSome present.now (λ bits. length bits ≡ rows) }
    ensures { result ≡ every (is_clear ptype present.now bytes.now at) 0 rows }
{
    for row in 0..rows {
        if !row_is_clear(ptype, present, bytes, at, row) {
            return false;
        }
    }
    true
}

/// Whether each null row is 0.
pub fn are_clear(ptype: PType, present: &Option<Bits>, bytes: &[u8], at: usize, rows: usize) -> bool
    requires inside { value_place ptype at rows ≤ length bytes.now }
    requires bound { length bytes.now < 2 ^ 63 }
    requires long { IfSome present.now (λ bits. length bits ≡ rows) }
    ensures { result ≡ every (is_clear ptype present.now bytes.now at) 0 rows }
{
    match ptype {
        PType::U8 => rows_are_clear(PType::U8, present, bytes, at, rows),
        PType::U16 => rows_are_clear(PType::U16, present, bytes, at, rows),
        PType::U32 => rows_are_clear(PType::U32, present, bytes, at, rows),
        PType::U64 => rows_are_clear(PType::U64, present, bytes, at, rows),
        PType::I8 => rows_are_clear(PType::I8, present, bytes, at, rows),
        PType::I16 => rows_are_clear(PType::I16, present, bytes, at, rows),
        PType::I32 => rows_are_clear(PType::I32, present, bytes, at, rows),
        PType::I64 => rows_are_clear(PType::I64, present, bytes, at, rows),
    }
}

/// Integers and the place after them.
#[tactic(auto, unfolding(crate::specs::Arrays::ints_at, crate::specs::Arrays::ints_here))]
pub fn read_ints(
    alloc: Global,
    segment: &ByteBuffer,
    at: usize,
    ptype: PType,
    nullable: bool,
    rows: usize,
) -> Result<(IntColumn, usize), ArrayError>
    requires { at ≤ length segment.now.bytes }
    ensures value { Gives Fails (λ x. x) result (ints_at ptype nullable rows segment.now.bytes at) }
    ensures inside { IfOk result (λ x. x.1 ≤ length segment.now.bytes) }
{
    let (present, from) = read_presence(alloc, segment, at, nullable, rows)?;
    let bytes = segment.as_slice();
    if !have_room(ptype, rows, bytes.len() - from) {
        return Err(ArrayError::BadArray);
    }
    if !are_clear(ptype, &present, bytes, from, rows) {
        return Err(ArrayError::BadArray);
    }
    let column = IntColumn::new(alloc, ptype, nullable, present, segment, from, rows)?;
    Ok((column, place_of(ptype, from, rows)))
}

/// Whether a row has a value, or is false.
#[inline(always)]
fn row_is_false(present: &Option<Bits>, bytes: &[u8], at: usize, row: usize) -> bool
    requires inside { 8 * at + row < 8 * length bytes.now }
    requires long { IfSome present.now (λ bits. row < length bits) }
    ensures { result ≡ is_false present.now bytes.now at row }
{
    has_value(present, row) || !bit_of(bytes, at, row)
}

/// Whether each null row is false.
#[tactic(auto, using(crate::proofs::SpanLemmas::every_step))]
fn are_false(present: &Option<Bits>, bytes: &[u8], at: usize, rows: usize) -> bool
    requires inside { 8 * at + rows ≤ 8 * length bytes.now }
    requires long { IfSome present.now (λ bits. length bits ≡ rows) }
    ensures { result ≡ every (is_false present.now bytes.now at) 0 rows }
{
    for row in 0..rows {
        if !row_is_false(present, bytes, at, row) {
            return false;
        }
    }
    true
}

/// Truth values and the place after them.
#[tactic(auto, unfolding(crate::specs::Arrays::bools_at, crate::specs::Arrays::bools_here, crate::specs::Arrays::bitmap_at))]
pub fn read_bools(
    alloc: Global,
    segment: &ByteBuffer,
    at: usize,
    nullable: bool,
    rows: usize,
) -> Result<(BoolColumn, usize), ArrayError>
    requires { at ≤ length segment.now.bytes }
    ensures value { Gives Fails (λ x. x) result (bools_at nullable rows segment.now.bytes at) }
    ensures inside { IfOk result (λ x. x.1 ≤ length segment.now.bytes) }
{
    let (present, from) = read_presence(alloc, segment, at, nullable, rows)?;
    let (values, after) = read_bitmap(alloc, segment, from, rows)?;
    if !are_false(&present, segment.as_slice(), from, rows) {
        return Err(ArrayError::BadArray);
    }
    Ok((BoolColumn::new(nullable, present, values), after))
}
