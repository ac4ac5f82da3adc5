//! Truth values in a bitmap.
ghost use Rattle.std.specs.Prelude.{ℕ, slice_index, ◌≡◌, ◌++◌, ◌+◌, ◌-◌, ◌*◌, ◌/◌, ◌<◌, ◌≤◌, ◌^◌, length, slice_index_or, slice_range, true, false, IfOk, OnOk, OnErr};
ghost use Rattle.std.specs.List.{list_all};
ghost use Rattle.std.specs.Vec.{vec_len, vec_capacity};
ghost use Rattle.vx_rows.specs.Span.{span, every};
ghost use Rattle.vx_rows.specs.Bits.{bit, bit_value, bitmap_byte, bitmap_size, bitmap, byte_bits};

use std::alloc::{AllocError, Global};
use std::marker::Model;
use vx_base::{Alignment, ByteBuffer};

/// Truth values, each a bit of a bitmap that is shared.
#[derive(Drop)]
pub struct Bits {
    held: ByteBuffer,
    at: usize,
    first: usize,
    count: usize,
}

impl Model for Bits {
    ghost use Rattle.std.specs.Prelude.{List, Bool, ◌+◌, ◌*◌, ◌<◌, ◌≤◌, ◌^◌, length};
    ghost use Rattle.vx_rows.specs.Span.{span};
    ghost use Rattle.vx_rows.specs.Bits.{bit};

    ghost Value = { List Bool };

    ghost view = { λ b. span (bit b.held.bytes b.at) b.first b.count };

    ghost invariant = { λ b. (8 * b.at + b.first + b.count ≤ 8 * length b.held.bytes) × (b.first + b.count < 2 ^ 64) };
}

/// Bit i of the bitmap at a byte.
#[inline(always)]
pub fn bit_of(bytes: &[u8], at: usize, i: usize) -> bool
    requires { 8 * at + i < 8 * length bytes.now }
    ensures { result ≡ bit bytes.now at i }
{
    (bytes[at + i / 8] >> (i % 8)) & 1 == 1
}

/// Whether so many bits of a bitmap are all set.
#[tactic(auto, using(crate::proofs::SpanLemmas::every_step))]
pub fn are_set(bytes: &[u8], at: usize, count: usize) -> bool
    requires { 8 * at + count ≤ 8 * length bytes.now }
    ensures { result ≡ every (bit bytes.now at) 0 count }
{
    for i in 0..count {
        if !bit_of(bytes, at, i) {
            return false;
        }
    }
    true
}

/// The value of a bit: 1 where a row is true.
fn value_of(rows: &[bool], row: usize) -> u8
    ensures { result ≡ bit_value rows.now row }
{
    match rows.get(row) {
        Some(true) => 1,
        _ => 0,
    }
}

/// A byte of the bitmap of rows.
fn byte_of(rows: &[bool], k: usize) -> u8
    requires { 8 * k + 7 < 2 ^ 64 }
    ensures { result ≡ bitmap_byte rows.now k }
{
    let first = 8 * k;
    let low = value_of(rows, first)
        + 2 * value_of(rows, first + 1)
        + 4 * value_of(rows, first + 2)
        + 8 * value_of(rows, first + 3);
    low + 16 * value_of(rows, first + 4)
        + 32 * value_of(rows, first + 5)
        + 64 * value_of(rows, first + 6)
        + 128 * value_of(rows, first + 7)
}

/// How many bytes a bitmap of so many rows has.
pub fn bitmap_len(rows: usize) -> usize
    ensures { result ≡ bitmap_size rows }
{
    rows / 8 + (rows % 8 + 7) / 8
}

/// The value of a bit of a row: 1 where it is true.
#[inline(always)]
fn value_at(rows: &[bool], row: usize) -> u8
    requires { row < length rows.now }
    ensures { result ≡ bit_value rows.now row }
{
    if rows[row] { 1 } else { 0 }
}

/// A byte of the bitmap of rows, each of its eight rows.
#[inline(always)]
fn whole_byte_of(rows: &[bool], k: usize) -> u8
    requires { 8 * k + 8 ≤ length rows.now }
    ensures { result ≡ bitmap_byte rows.now k }
{
    let first = 8 * k;
    let low = value_at(rows, first)
        + 2 * value_at(rows, first + 1)
        + 4 * value_at(rows, first + 2)
        + 8 * value_at(rows, first + 3);
    low + 16 * value_at(rows, first + 4)
        + 32 * value_at(rows, first + 5)
        + 64 * value_at(rows, first + 6)
        + 128 * value_at(rows, first + 7)
}

/// The bytes of the bitmap of rows that are full, with room for one more.
#[tactic(auto, using(crate::proofs::SpanLemmas::span_push))]
fn whole_bytes_of(alloc: Global, rows: &[bool]) -> Result<Vec<u8>, AllocError>
    ensures { IfOk result (λ bytes. bytes.items ≡ span (bitmap_byte rows.now) 0 (length rows.now / 8)) }
{
    let count = rows.len() / 8;
    let mut bytes = Vec::with_capacity(alloc, count + 1)?;
    for k in 0..count {
        bytes.push_reserved(whole_byte_of(rows, k));
    }
    Ok(bytes)
}

/// The bitmap of rows.
#[tactic(auto, using(crate::proofs::EightLemmas::bitmap_whole, crate::proofs::EightLemmas::bitmap_last))]
pub fn bitmap_of(alloc: Global, rows: &[bool]) -> Result<Vec<u8>, AllocError>
    ensures { IfOk result (λ bytes. bytes.items ≡ bitmap rows.now) }
{
    let mut bytes = whole_bytes_of(alloc, rows)?;
    if rows.len() % 8 != 0 {
        bytes.push(byte_of(rows, rows.len() / 8))?;
    }
    Ok(bytes)
}

/// Adds bytes of a bitmap as they are.
fn push_whole(out: &mut Vec<u8>, bytes: &[u8], from: usize, count: usize) -> Result<(), AllocError>
    requires { from + count ≤ length bytes.now }
    ensures same { OnOk result (out.new.items ≡ out.old.items ++ slice_range bytes.now from (from + count)) }
    ensures bytes { (i : ℕ) → slice_index bytes.now i < 2 ^ 8 }
{
    out.extend_from_slice(&bytes[from..from + count])
}

/// Adds so many bits from one on, for which there is room.
#[tactic(auto, using(crate::proofs::SpanLemmas::span_behind))]
fn push_bits(rows: &mut Vec<bool>, bytes: &[u8], at: usize, first: usize, count: usize)
    requires inside { 8 * at + first + count ≤ 8 * length bytes.now }
    requires bound { first + count < 2 ^ 64 }
    requires room { vec_len rows.old + count ≤ vec_capacity rows.old }
    ensures { rows.new.items ≡ rows.old.items ++ span (bit bytes.now at) first count }
{
    for row in 0..count {
        rows.push_reserved(bit_of(bytes, at, first + row));
    }
}

/// Adds the eight bits of a byte, for which there is room.
#[inline(always)]
fn push_eight(rows: &mut Vec<bool>, byte: u8)
    requires { vec_len rows.old + 8 ≤ vec_capacity rows.old }
    ensures items { rows.new.items ≡ rows.old.items ++ byte_bits byte }
    ensures len { vec_len rows.new ≡ vec_len rows.old + 8 }
    ensures capacity { vec_capacity rows.new ≡ vec_capacity rows.old }
{
    rows.push_reserved(byte & 1 == 1);
    rows.push_reserved((byte >> 1) & 1 == 1);
    rows.push_reserved((byte >> 2) & 1 == 1);
    rows.push_reserved((byte >> 3) & 1 == 1);
    rows.push_reserved((byte >> 4) & 1 == 1);
    rows.push_reserved((byte >> 5) & 1 == 1);
    rows.push_reserved((byte >> 6) & 1 == 1);
    rows.push_reserved((byte >> 7) & 1 == 1);
}

/// Adds the bits of so many bytes from one on, for which there is room.
#[tactic(auto, using(crate::proofs::EightLemmas::eight_more))]
fn push_eights(rows: &mut Vec<bool>, bytes: &[u8], from: usize, count: usize)
    requires inside { from + count ≤ length bytes.now }
    requires room { vec_len rows.old + 8 * count ≤ vec_capacity rows.old }
    ensures items { rows.new.items ≡ rows.old.items ++ span (bit bytes.now from) 0 (8 * count) }
    ensures len { vec_len rows.new ≡ vec_len rows.old + 8 * count }
    ensures capacity { vec_capacity rows.new ≡ vec_capacity rows.old }
{
    for k in 0..count {
        push_eight(rows, bytes[from + k]);
    }
}

impl Bits {
    /// Truth values of their own. Only memory refuses.
    #[tactic(auto, using(crate::proofs::BitmapLemmas::bitmap_read, crate::proofs::SpanLemmas::length_span))]
    pub fn from_rows(alloc: Global, rows: &[bool]) -> Result<Bits, AllocError>
        ensures { IfOk result (λ bits. bits ≡ rows.now) }
    {
        let held = ByteBuffer::from_vec(alloc, bitmap_of(alloc, rows)?, Alignment::none())?;
        let bits = Bits::new(alloc, &held, 0, rows.len())?;
        Ok(bits)
    }

    /// So many bits of the bitmap at a byte. Only memory refuses.
    pub(crate) fn new(
        alloc: Global,
        held: &ByteBuffer,
        at: usize,
        count: usize,
    ) -> Result<Bits, AllocError>
        requires { 8 * at + count ≤ 8 * length held.now.bytes }
        ensures { IfOk result (λ bits. bits ≡ span (bit held.now.bytes at) 0 count) }
    {
        Ok(Bits {
            held: held.share(alloc)?,
            at,
            first: 0,
            count,
        })
    }

    /// The number of rows.
    #[inline(always)]
    #[tactic(auto, using(crate::proofs::SpanLemmas::length_span))]
    pub fn len(&self) -> usize
        ensures { result ≡ length self.now }
    {
        self.count
    }

    /// The truth value of a row.
    #[inline(always)]
    #[tactic(auto, using(crate::proofs::SpanLemmas::length_span, crate::proofs::SpanLemmas::get_or_span))]
    pub fn get(&self, row: usize) -> bool
        requires { row < length self.now }
        ensures { result ≡ slice_index_or self.now row true }
    {
        bit_of(self.held.as_slice(), self.at, self.first + row)
    }

    /// Whether each row is true.
    #[tactic(auto, using(crate::proofs::WrittenLemmas::next_flag))]
    pub(crate) fn are_all(&self) -> bool
        ensures { result ≡ list_all (λ b. b) self.now }
    {
        for row in 0..self.len() {
            if !self.get(row) {
                return false;
            }
        }
        true
    }

    /// The value of a bit: 1 where a row is true.
    #[inline(always)]
    #[tactic(auto, using(crate::proofs::WrittenLemmas::bit_values))]
    fn bit_value(&self, row: usize) -> u8
        ensures { result ≡ bit_value self.now row }
    {
        if row < self.len() && self.get(row) {
            1
        } else {
            0
        }
    }

    /// A byte of the bitmap.
    fn byte(&self, k: usize) -> u8
        requires { 8 * k + 7 < 2 ^ 64 }
        ensures { result ≡ bitmap_byte self.now k }
    {
        let first = 8 * k;
        let low = self.bit_value(first)
            + 2 * self.bit_value(first + 1)
            + 4 * self.bit_value(first + 2)
            + 8 * self.bit_value(first + 3);
        low + 16 * self.bit_value(first + 4)
            + 32 * self.bit_value(first + 5)
            + 64 * self.bit_value(first + 6)
            + 128 * self.bit_value(first + 7)
    }

    /// Adds the rows to other truth values. Only memory refuses, and then nothing changes.
    #[tactic(auto, using(crate::proofs::EightLemmas::all_behind))]
    pub(crate) fn push_rows(&self, rows: &mut Vec<bool>) -> Result<(), AllocError>
        ensures ok { OnOk result (rows.new.items ≡ rows.old.items ++ self.now) }
        ensures err { OnErr result (rows.new.items ≡ rows.old.items) }
    {
        rows.reserve(self.count)?;
        let bytes = self.held.as_slice();
        if self.first % 8 != 0 {
            push_bits(rows, bytes, self.at, self.first, self.count);
            return Ok(());
        }
        let whole = self.count / 8;
        push_eights(rows, bytes, self.at + self.first / 8, whole);
        push_bits(rows, bytes, self.at, self.first + 8 * whole, self.count % 8);
        Ok(())
    }

    /// Adds the bytes of the bitmap from one on, each of its eight rows.
    #[tactic(auto, using(crate::proofs::WholeLemmas::run_more))]
    fn push_from(&self, bytes: &mut Vec<u8>, from: usize) -> Result<(), AllocError>
        requires { from ≤ bitmap_size (length self.now) }
        ensures { OnOk result (bytes.new.items ≡ bytes.old.items ++ span (bitmap_byte self.now) from (bitmap_size (length self.now) - from)) }
    {
        for k in from..bitmap_len(self.len()) {
            bytes.push(self.byte(k))?;
        }
        Ok(())
    }

    /// Adds the bitmap. Where its rows begin at a byte, whole bytes are copied.
    pub(crate) fn push_bytes(&self, bytes: &mut Vec<u8>) -> Result<(), AllocError>
        ensures { OnOk result (bytes.new.items ≡ bytes.old.items ++ bitmap self.now) }
    {
        if self.first % 8 != 0 {
            return self.push_from(bytes, 0);
        }
        let whole = self.count / 8;
        push_whole(bytes, self.held.as_slice(), self.at + self.first / 8, whole)?;
        self.push_from(bytes, whole)
    }

    /// The rows from one on, up to another. Only memory refuses.
    #[tactic(auto, using(crate::proofs::CutLemmas::bits_cut, crate::proofs::SpanLemmas::length_span))]
    pub(crate) fn part(&self, alloc: Global, from: usize, to: usize) -> Result<Bits, AllocError>
        requires ordered { from ≤ to }
        requires inside { to ≤ length self.now }
        ensures { IfOk result (λ bits. bits ≡ slice_range self.now from to) }
    {
        Ok(Bits {
            held: self.held.share(alloc)?,
            at: self.at,
            first: self.first + from,
            count: to - from,
        })
    }
}
