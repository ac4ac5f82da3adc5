//! Columns of integers.
ghost use Rattle.std.specs.Prelude.{◌≡◌, ◌++◌, ◌+◌, ◌-◌, ◌*◌, ◌<◌, ◌≤◌, ◌==◌, ◌^◌, OnOk, OnErr, length, map, min, slice_range, option_map};
ghost use Rattle.std.specs.Prelude.{slice_index_or, is_some, IsSome, IfOk, IfSome, Some, None, true, take, drop, pos};
ghost use Rattle.std.specs.Int.{w8, w16, w32, w64, from_le_bytes, cast_signed};
ghost use Rattle.std.specs.List.{flat_map};
ghost use Rattle.vx_rows.specs.Span.{span, every};
ghost use Rattle.vx_rows.specs.Bits.{present_at};
ghost use Rattle.vx_rows.specs.Columns.{are_there, value_size, value_place, raw_at, value_of, int_row, is_clear, may_hold};
ghost use Rattle.vx_rows.specs.Keys.{of_key};
ghost use Rattle.vx_rows.specs.Rows.{ints, AreWithin};
ghost use Rattle.vx_rows.specs.Parts.{plain_size};
ghost use Rattle.vx_rows.specs.Written.{cell, ints_bytes};

use crate::Bits;
use crate::flags::Flags;
use crate::parts::{are_all_present, part_of};
use crate::plain_size::size_of_ints;
use crate::presence::push_presence;
use std::alloc::{AllocError, Global};
use std::marker::Model;
use vx_base::ByteBuffer;
use vx_data::PType;

/// Half of the range of U64.
const HALF: i128 = 1 << 63;

/// Integers of a type, some of which may be null. Their bytes are shared.
#[derive(Drop)]
pub struct IntColumn {
    kind: PType,
    may_be_null: bool,
    count: usize,
    present: Option<Bits>,
    held: ByteBuffer,
    at: usize,
}

impl Model for IntColumn {
    ghost use Rattle.std.specs.Prelude.{◌≡◌, ◌≤◌, length, IfSome, true};
    ghost use Rattle.vx_rows.specs.Span.{span, every};
    ghost use Rattle.vx_rows.specs.Columns.{Ints, value_place, int_row, is_clear};

    ghost Value = { Ints };

    ghost view = { λ c. record {
      ptype = c.kind;
      nullable = c.may_be_null;
      rows = span (int_row c.kind c.present c.held.bytes c.at) 0 c.count;
    } };

    ghost invariant = { λ c. (value_place c.kind c.at c.count ≤ length c.held.bytes) × IfSome c.present (λ bits. length bits ≡ c.count)
        × (every (is_clear c.kind c.present c.held.bytes c.at) 0 c.count ≡ true) };
}

/// How many bytes a value of a type has.
#[inline(always)]
pub fn size_of(ptype: PType) -> usize
    ensures { result ≡ value_size ptype }
{
    match ptype {
        PType::U8 | PType::I8 => 1,
        PType::U16 | PType::I16 => 2,
        PType::U32 | PType::I32 => 4,
        PType::U64 | PType::I64 => 8,
    }
}

/// Where the value of a row begins.
#[inline(always)]
pub fn place_of(ptype: PType, at: usize, row: usize) -> usize
    requires { value_place ptype at row < 2 ^ 64 }
    ensures { result ≡ value_place ptype at row }
{
    match ptype {
        PType::U8 | PType::I8 => at + row,
        PType::U16 | PType::I16 => at + 2 * row,
        PType::U32 | PType::I32 => at + 4 * row,
        PType::U64 | PType::I64 => at + 8 * row,
    }
}

#[inline(always)]
fn u8_at(bytes: &[u8], at: usize) -> u8
    requires { at + 1 ≤ length bytes.now }
    ensures { result ≡ from_le_bytes w8 (take 1 (drop at bytes.now)) }
{
    let cells = &bytes[at..at + 1];
    u8::from_le_bytes([cells[0]])
}

#[inline(always)]
pub fn u16_at(bytes: &[u8], at: usize) -> u16
    requires { at + 2 ≤ length bytes.now }
    ensures { result ≡ from_le_bytes w16 (take 2 (drop at bytes.now)) }
{
    let cells = &bytes[at..at + 2];
    u16::from_le_bytes([cells[0], cells[1]])
}

#[inline(always)]
pub fn u32_at(bytes: &[u8], at: usize) -> u32
    requires { at + 4 ≤ length bytes.now }
    ensures { result ≡ from_le_bytes w32 (take 4 (drop at bytes.now)) }
{
    let cells = &bytes[at..at + 4];
    u32::from_le_bytes([cells[0], cells[1], cells[2], cells[3]])
}

#[inline(always)]
fn u64_at(bytes: &[u8], at: usize) -> u64
    requires { at + 8 ≤ length bytes.now }
    ensures { result ≡ from_le_bytes w64 (take 8 (drop at bytes.now)) }
{
    let cells = &bytes[at..at + 8];
    u64::from_le_bytes([
        cells[0], cells[1], cells[2], cells[3], cells[4], cells[5], cells[6], cells[7],
    ])
}

#[inline(always)]
fn i8_at(bytes: &[u8], at: usize) -> i8
    requires { at + 1 ≤ length bytes.now }
    ensures { result ≡ cast_signed w8 (from_le_bytes w8 (take 1 (drop at bytes.now))) }
{
    let cells = &bytes[at..at + 1];
    i8::from_le_bytes([cells[0]])
}

#[inline(always)]
fn i16_at(bytes: &[u8], at: usize) -> i16
    requires { at + 2 ≤ length bytes.now }
    ensures { result ≡ cast_signed w16 (from_le_bytes w16 (take 2 (drop at bytes.now))) }
{
    let cells = &bytes[at..at + 2];
    i16::from_le_bytes([cells[0], cells[1]])
}

#[inline(always)]
fn i32_at(bytes: &[u8], at: usize) -> i32
    requires { at + 4 ≤ length bytes.now }
    ensures { result ≡ cast_signed w32 (from_le_bytes w32 (take 4 (drop at bytes.now))) }
{
    let cells = &bytes[at..at + 4];
    i32::from_le_bytes([cells[0], cells[1], cells[2], cells[3]])
}

#[inline(always)]
fn i64_at(bytes: &[u8], at: usize) -> i64
    requires { at + 8 ≤ length bytes.now }
    ensures { result ≡ cast_signed w64 (from_le_bytes w64 (take 8 (drop at bytes.now))) }
{
    let cells = &bytes[at..at + 8];
    i64::from_le_bytes([
        cells[0], cells[1], cells[2], cells[3], cells[4], cells[5], cells[6], cells[7],
    ])
}

/// The value that begins at a byte.
#[inline(always)]
pub fn value_at(ptype: PType, bytes: &[u8], at: usize) -> i128
    requires { at + value_size ptype ≤ length bytes.now }
    ensures { result ≡ value_of ptype (raw_at ptype bytes.now at) }
{
    match ptype {
        PType::U8 => i128::from(u8_at(bytes, at)),
        PType::U16 => i128::from(u16_at(bytes, at)),
        PType::U32 => i128::from(u32_at(bytes, at)),
        PType::U64 => i128::from(u64_at(bytes, at)),
        PType::I8 => i128::from(i8_at(bytes, at)),
        PType::I16 => i128::from(i16_at(bytes, at)),
        PType::I32 => i128::from(i32_at(bytes, at)),
        PType::I64 => i128::from(i64_at(bytes, at)),
    }
}

/// The value that begins at a byte, as a key: an i64 in the order of the values, where those of U64 are moved down by half of
/// their range.
#[inline(always)]
pub fn key_at(ptype: PType, bytes: &[u8], at: usize) -> i64
    requires { at + value_size ptype ≤ length bytes.now }
    ensures { of_key ptype result ≡ value_of ptype (raw_at ptype bytes.now at) }
{
    match ptype {
        PType::U8 => i64::from(u8_at(bytes, at)),
        PType::U16 => i64::from(u16_at(bytes, at)),
        PType::U32 => i64::from(u32_at(bytes, at)),
        PType::U64 => (i128::from(u64_at(bytes, at)) - HALF) as i64,
        PType::I8 => i64::from(i8_at(bytes, at)),
        PType::I16 => i64::from(i16_at(bytes, at)),
        PType::I32 => i64::from(i32_at(bytes, at)),
        PType::I64 => i64_at(bytes, at),
    }
}

/// The key of an integer, where it has one.
pub fn key_of(ptype: PType, number: i128) -> Option<i64>
    ensures { IfSome result (λ key. of_key ptype key ≡ number) }
{
    let moved = match ptype {
        PType::U64 => number.checked_sub(HALF)?,
        _ => number,
    };
    i64::try_from(moved).ok()
}

/// The value that a key stands for.
pub fn value_of_key(ptype: PType, key: i64) -> i128
    ensures { result ≡ of_key ptype key }
{
    match ptype {
        PType::U64 => i128::from(key) + HALF,
        _ => i128::from(key),
    }
}

/// The key of one of so many rows, of which none is null, where the values begin at a byte.
#[inline(always)]
#[tactic(auto, using(crate::proofs::IntLemmas::place_inside, crate::proofs::IntLemmas::place_bound))]
pub fn plain_key(ptype: PType, bytes: &[u8], at: usize, rows: usize, row: usize) -> i64
    requires inside { value_place ptype at rows ≤ length bytes.now }
    requires less { row < rows }
    ensures { Some (of_key ptype result) ≡ int_row ptype None bytes.now at row }
{
    key_at(ptype, bytes, place_of(ptype, at, row))
}

/// The value of a row, where the values begin at a byte. One look at the type tells its place and its bytes.
#[inline(always)]
fn value_of_row(ptype: PType, bytes: &[u8], at: usize, row: usize) -> i128
    requires { value_place ptype at row + value_size ptype ≤ length bytes.now }
    ensures { result ≡ value_of ptype (raw_at ptype bytes.now (value_place ptype at row)) }
{
    match ptype {
        PType::U8 => i128::from(u8_at(bytes, at + row)),
        PType::U16 => i128::from(u16_at(bytes, at + 2 * row)),
        PType::U32 => i128::from(u32_at(bytes, at + 4 * row)),
        PType::U64 => i128::from(u64_at(bytes, at + 8 * row)),
        PType::I8 => i128::from(i8_at(bytes, at + row)),
        PType::I16 => i128::from(i16_at(bytes, at + 2 * row)),
        PType::I32 => i128::from(i32_at(bytes, at + 4 * row)),
        PType::I64 => i128::from(i64_at(bytes, at + 8 * row)),
    }
}

/// One of so many rows, of which none is null, where the values begin at a byte.
#[inline(always)]
#[tactic(auto, using(crate::proofs::IntLemmas::place_inside, crate::proofs::IntLemmas::place_bound))]
pub fn plain_row(ptype: PType, bytes: &[u8], at: usize, rows: usize, row: usize) -> Option<i128>
    requires inside { value_place ptype at rows ≤ length bytes.now }
    requires less { row < rows }
    ensures { result ≡ int_row ptype None bytes.now at row }
{
    Some(value_at(ptype, bytes, place_of(ptype, at, row)))
}

/// Whether the bytes of a value are all 0.
#[inline(always)]
pub fn is_zero(ptype: PType, bytes: &[u8], at: usize) -> bool
    requires { at + value_size ptype ≤ length bytes.now }
    ensures { result ≡ (raw_at ptype bytes.now at == 0) }
{
    match ptype {
        PType::U8 | PType::I8 => u8_at(bytes, at) == 0,
        PType::U16 | PType::I16 => u16_at(bytes, at) == 0,
        PType::U32 | PType::I32 => u32_at(bytes, at) == 0,
        PType::U64 | PType::I64 => u64_at(bytes, at) == 0,
    }
}

/// Whether a row has a value.
#[inline(always)]
pub fn has_value(present: &Option<Bits>, row: usize) -> bool
    requires { IfSome present.now (λ bits. row < length bits) }
    ensures { result ≡ present_at present.now row }
{
    match present {
        None => true,
        Some(bits) => bits.get(row),
    }
}

/// Adds the bytes of values, among which those of null rows are 0.
fn push_values(
    bytes: &mut Vec<u8>,
    kind: PType,
    present: &Option<Bits>,
    held: &[u8],
    at: usize,
    count: usize,
) -> Result<(), AllocError>
    requires inside { value_place kind at count ≤ length held.now }
    requires bound { length held.now < 2 ^ 63 }
    requires clear { every (is_clear kind present.now held.now at) 0 count ≡ true }
    ensures ok { OnOk result (bytes.new.items ≡ bytes.old.items ++ flat_map (cell kind) (span (int_row kind present.now held.now at) 0 count)) }
    ensures err { OnErr result (bytes.new.items ≡ bytes.old.items) }
{
    let end = place_of(kind, at, count);
    bytes.extend_from_slice(&held[at..end])
}

/// The values that bytes hold are in the range of their type.
fn are_within(_kind: PType, _present: &Option<Bits>, bytes: &[u8], _at: usize, _count: usize)
    requires { value_place _kind _at _count ≤ length bytes.now }
    ensures { AreWithin _kind (span (int_row _kind _present.now bytes.now _at) 0 _count) }
{
    let _bytes = bytes;
}

impl IntColumn {
    /// Integers whose values begin at a byte; those of null rows are 0. Only memory refuses.
    pub(crate) fn new(
        alloc: Global,
        kind: PType,
        may_be_null: bool,
        present: Option<Bits>,
        held: &ByteBuffer,
        at: usize,
        count: usize,
    ) -> Result<IntColumn, AllocError>
        requires inside { value_place kind at count ≤ length held.now.bytes }
        requires present { IfSome present (λ bits. length bits ≡ count) }
        requires clear { every (is_clear kind present held.now.bytes at) 0 count ≡ true }
        ensures { IfOk result (λ c. c ≡ record {
          ptype = kind;
          nullable = may_be_null;
          rows = span (int_row kind present held.now.bytes at) 0 count;
        }) }
    {
        Ok(IntColumn {
            kind,
            may_be_null,
            count,
            present,
            held: held.share(alloc)?,
            at,
        })
    }

    /// The type of the integers.
    #[inline(always)]
    pub fn ptype(&self) -> PType
        ensures { result ≡ self.now.ptype }
    {
        self.kind
    }

    /// Whether a row may be null.
    #[inline(always)]
    pub fn is_nullable(&self) -> bool
        ensures { result ≡ self.now.nullable }
    {
        self.may_be_null
    }

    /// The number of rows.
    #[inline(always)]
    #[tactic(auto, using(crate::proofs::SpanLemmas::length_span))]
    pub fn len(&self) -> usize
        ensures { result ≡ length self.now.rows }
    {
        self.count
    }

    /// Whether a row has a value.
    #[inline(always)]
    #[tactic(auto, using(crate::proofs::SpanLemmas::length_span, crate::proofs::SpanLemmas::get_or_span))]
    pub fn is_present(&self, row: usize) -> bool
        requires { row < length self.now.rows }
        ensures { result ≡ is_some (slice_index_or self.now.rows row None) }
    {
        has_value(&self.present, row)
    }

    /// The value of a row that has one, of integers of a type. A call with a constant is compiled for that type.
    #[inline(always)]
    #[tactic(auto, using(crate::proofs::SpanLemmas::length_span, crate::proofs::SpanLemmas::get_or_span, crate::proofs::IntLemmas::place_inside))]
    fn int_of(&self, ptype: PType, row: usize) -> i128
        requires typed { self.now.ptype ≡ ptype }
        requires inside { row < length self.now.rows }
        requires here { is_some (slice_index_or self.now.rows row None) ≡ true }
        ensures { slice_index_or self.now.rows row None ≡ Some result }
    {
        value_of_row(ptype, self.held.as_slice(), self.at, row)
    }

    /// The value of a row of integers of a type, if there is such a row and it has one.
    #[inline(always)]
    #[tactic(auto, using(crate::proofs::WrittenLemmas::row_values))]
    pub(crate) fn get_of(&self, ptype: PType, row: usize) -> Option<i128>
        requires { self.now.ptype ≡ ptype }
        ensures { result ≡ slice_index_or self.now.rows row None }
    {
        if row >= self.len() {
            return None;
        }
        if !self.is_present(row) {
            return None;
        }
        Some(self.int_of(ptype, row))
    }

    /// The key of a row that has a value, of integers of a type. A call with a constant is compiled for that type.
    #[inline(always)]
    #[tactic(auto, using(crate::proofs::SpanLemmas::length_span, crate::proofs::SpanLemmas::get_or_span, crate::proofs::IntLemmas::place_inside))]
    fn key_here(&self, ptype: PType, row: usize) -> i64
        requires typed { self.now.ptype ≡ ptype }
        requires inside { row < length self.now.rows }
        requires here { is_some (slice_index_or self.now.rows row None) ≡ true }
        ensures { slice_index_or self.now.rows row None ≡ Some (of_key ptype result) }
    {
        let bytes = self.held.as_slice();
        let place = place_of(ptype, self.at, row);
        key_at(ptype, bytes, place)
    }

    /// The key of a row of integers of a type, if there is such a row and it has a value.
    #[inline(always)]
    #[tactic(auto, using(crate::proofs::WrittenLemmas::row_values))]
    pub(crate) fn key_of(&self, ptype: PType, row: usize) -> Option<i64>
        requires { self.now.ptype ≡ ptype }
        ensures { option_map (of_key ptype) result ≡ slice_index_or self.now.rows row None }
    {
        if row >= self.len() {
            return None;
        }
        if !self.is_present(row) {
            return None;
        }
        Some(self.key_here(ptype, row))
    }

    /// The value of a row that has one.
    #[inline(always)]
    pub fn int_at(&self, row: usize) -> i128
        requires inside { row < length self.now.rows }
        requires here { is_some (slice_index_or self.now.rows row None) ≡ true }
        ensures { slice_index_or self.now.rows row None ≡ Some result }
    {
        self.int_of(self.kind, row)
    }

    /// The value of a row, if there is such a row and it has one.
    #[inline(always)]
    pub fn get(&self, row: usize) -> Option<i128>
        ensures { result ≡ slice_index_or self.now.rows row None }
    {
        self.get_of(self.kind, row)
    }

    /// The bytes that hold the values, and where those begin. None where a bitmap tells which rows are null.
    #[tactic(auto, using(crate::proofs::SpanLemmas::length_span))]
    pub(crate) fn plain_values(&self) -> Option<(&[u8], usize)>
        ensures inside { IfSome result (λ plain. value_place self.now.ptype plain.1 (length self.now.rows) ≤ length plain.0.now) }
        ensures rows { IfSome result (λ plain. self.now.rows ≡ span (int_row self.now.ptype None plain.0.now plain.1) 0 (length self.now.rows)) }
    {
        match &self.present {
            None => Some((self.held.as_slice(), self.at)),
            Some(_) => None,
        }
    }

    /// Adds the bytes of the rows.
    pub(crate) fn push_bytes(&self, bytes: &mut Vec<u8>) -> Result<(), AllocError>
        ensures { OnOk result (bytes.new.items ≡ bytes.old.items ++ ints_bytes self.now) }
    {
        push_presence(bytes, self.may_be_null, &self.present, self.count)?;
        push_values(
            bytes,
            self.kind,
            &self.present,
            self.held.as_slice(),
            self.at,
            self.count,
        )?;
        Ok(())
    }

    /// The rows from one on, up to another. Only memory refuses.
    #[tactic(auto, using(crate::proofs::CutLemmas::ints_cut, crate::proofs::CutLemmas::ints_cut_clear, crate::proofs::CutLemmas::ints_cut_inside, crate::proofs::CutLemmas::present_long, crate::proofs::SpanLemmas::length_span, crate::proofs::IntLemmas::place_bound))]
    pub(crate) fn part(
        &self,
        alloc: Global,
        from: usize,
        to: usize,
    ) -> Result<IntColumn, AllocError>
        requires ordered { from ≤ to }
        requires inside { to ≤ length self.now.rows }
        ensures { IfOk result (λ column. column ≡ record self.now { rows = slice_range self.now.rows from to }) }
    {
        prove!(self.held.len() < 1 << 63);
        let present = part_of(alloc, &self.present, from, to)?;
        let place = place_of(self.kind, self.at, from);
        let column = IntColumn::new(
            alloc,
            self.kind,
            self.may_be_null,
            present,
            &self.held,
            place,
            to - from,
        )?;
        Ok(column)
    }

    /// Whether no row is missing where none may be null. Each value is in the range of the type.
    #[tactic(auto, using(crate::proofs::FillLemmas::ints_filled))]
    pub(crate) fn is_filled(&self) -> bool
        ensures value { result ≡ may_hold self.now.nullable self.now.rows }
        ensures within { AreWithin self.now.ptype self.now.rows }
    {
        are_within(
            self.kind,
            &self.present,
            self.held.as_slice(),
            self.at,
            self.count,
        );
        self.may_be_null || are_all_present(&self.present)
    }

    /// How many bytes the rows take, written plainly.
    pub(crate) fn plain_size(&self) -> u64
        ensures { result ≡ min (plain_size (ints self.now)) (2 ^ 64 - 1) }
    {
        size_of_ints(self.kind, self.may_be_null, self.len())
    }

    /// Adds the bytes of the values, among which those of null rows are 0.
    pub(crate) fn push_cells(&self, bytes: &mut Vec<u8>) -> Result<(), AllocError>
        ensures ok { OnOk result (bytes.new.items ≡ bytes.old.items ++ flat_map (cell self.now.ptype) self.now.rows) }
        ensures err { OnErr result (bytes.new.items ≡ bytes.old.items) }
    {
        push_values(
            bytes,
            self.kind,
            &self.present,
            self.held.as_slice(),
            self.at,
            self.count,
        )
    }

    /// Adds which rows have a value to those of other rows. Only memory refuses, and then nothing changes.
    #[tactic(auto, using(crate::proofs::WrittenLemmas::ints_present, crate::proofs::SpanLemmas::length_span))]
    pub(crate) fn push_flags(&self, flags: &mut Flags) -> Result<(), AllocError>
        requires { are_there flags.old.nullable (map is_some self.now.rows) ≡ true }
        ensures ok { OnOk result (flags.new ≡ record flags.old { present = flags.old.present ++ map is_some self.now.rows }) }
        ensures err { OnErr result (flags.new ≡ flags.old) }
    {
        flags.append(&self.present, self.len())
    }
}
