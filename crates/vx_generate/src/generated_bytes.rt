//! The bytes of the arrays of generated columns.
ghost use Rattle.std.specs.Prelude.{◌≡◌, ◌≤◌, ◌<◌, ◌+◌, ◌*◌, ◌%◌, ◌++◌, length, take, decimal, IfOk, OnOk};
ghost use Rattle.std.specs.Int.{w16, w64, to_le_bytes};
ghost use Rattle.std.specs.List.{flat_map};
ghost use Rattle.vx_data.specs.declared.ptype.PType.TheVariants.{U32, I64};
ghost use Rattle.vx_rows.specs.Bits.{bit_value, bitmap_byte, bitmap};
ghost use Rattle.vx_rows.specs.Span.{span, every};
ghost use Rattle.vx_rows.specs.Written.{cell, flags_bytes, length_bytes as length_in, text_bytes};
ghost use Rattle.vx_rows.specs.Encoded.{array_bytes};
ghost use Rattle.vx_generate.specs.Generated.{has_score as has_value, id_of, score_of, name_of, ids, scores, names, generated_arrays};
ghost use Rattle.vx_generate.specs.declared.generated_bytes.TheConstants.{MOST_ROWS};

use itoa::Buffer;
use std::alloc::{AllocError, Global};

/// The most rows that are generated.
pub const MOST_ROWS: u64 = 1_000_000;

/// How many values are put at once.
const BLOCK: usize = 512;

/// Adds the place of an array's id.
fn push_index(bytes: &mut Vec<u8>, place: u16) -> Result<(), AllocError>
    ensures { OnOk result (bytes.new.items ≡ bytes.old.items ++ to_le_bytes w16 place) }
{
    bytes.extend_from_slice(&place.to_le_bytes())
}

// ---- values

/// The bytes of an id.
#[inline(always)]
fn id_bytes(row: u64) -> [u8; 4]
    requires { row ≤ MOST_ROWS }
    ensures { result ≡ cell U32 (id_of row) }
{
    (row as u32).to_le_bytes()
}

/// Whether a row has a score.
#[inline(always)]
fn has_score(seed: u32, row: u64) -> bool
    requires { row ≤ MOST_ROWS }
    ensures { result ≡ has_value seed row }
{
    (row + u64::from(seed)) % 5 != 0
}

/// The bytes of the score of a row, which are 0 where it has none.
#[inline(always)]
fn score_bytes(seed: u32, row: u64) -> [u8; 8]
    requires { row ≤ MOST_ROWS }
    ensures { result ≡ cell I64 (score_of seed row) }
{
    let score = if has_score(seed, row) {
        3 * row + u64::from(seed)
    } else {
        0
    };
    score.to_le_bytes()
}

/// The number in the name of a row.
fn name_number(seed: u32, row: u64) -> u64
    requires { row ≤ MOST_ROWS }
    ensures { result ≡ (row + seed) % 1000 }
{
    (row + u64::from(seed)) % 1000
}

/// How many digits a number in a name has.
#[tactic(auto, using(crate::proofs::GeneratedLemmas::digits_many))]
fn digits_of(number: u64) -> u32
    requires { number < 1000 }
    ensures { result ≡ length (decimal number) }
{
    if number < 10 {
        return 1;
    }
    if number < 100 {
        return 2;
    }
    3
}

/// The length of the name of a row.
#[tactic(auto, using(crate::proofs::GeneratedLemmas::number_short))]
fn length_bytes(seed: u32, row: u64) -> [u8; 4]
    requires { row ≤ MOST_ROWS }
    ensures { result ≡ length_in (name_of seed row) }
{
    (1 + digits_of(name_number(seed, row))).to_le_bytes()
}

/// Adds the name of a row.
fn push_name(bytes: &mut Vec<u8>, seed: u32, row: u64) -> Result<(), AllocError>
    requires { row ≤ MOST_ROWS }
    ensures { OnOk result (bytes.new.items ≡ bytes.old.items ++ text_bytes (name_of seed row)) }
{
    let mut digits = Buffer::new();
    let number = digits.format(name_number(seed, row));
    bytes.push(b'n')?;
    bytes.extend_from_slice(number.as_bytes())
}

// ---- values of rows

/// Fills room with the ids of rows from one on.
#[inline(always)]
fn fill_ids(room: &mut [u8], first: u64, count: usize)
    requires room { 4 * count ≤ length room.old }
    requires few { first + count ≤ MOST_ROWS }
    ensures long { length room.new ≡ length room.old }
    ensures filled { take (4 * count) room.new ≡ flat_map (cell U32) (span id_of first count) }
{
    for k in 0..count {
        let at = 4 * k;
        room[at..at + 4].copy_from_slice(&id_bytes(first + k as u64));
    }
}

/// Adds the ids of a few rows from one on.
fn push_few_ids(bytes: &mut Vec<u8>, first: u64, count: usize) -> Result<(), AllocError>
    requires room { count ≤ 512 }
    requires few { first + count ≤ MOST_ROWS }
    ensures { OnOk result (bytes.new.items ≡ bytes.old.items ++ flat_map (cell U32) (span id_of first count)) }
{
    let mut room = [0; 4 * BLOCK];
    fill_ids(&mut room, first, count);
    bytes.extend_from_slice(&room[..4 * count])
}

/// Adds the ids of so many rows.
fn push_id_values(bytes: &mut Vec<u8>, rows: u64) -> Result<(), AllocError>
    requires { rows ≤ MOST_ROWS }
    ensures { OnOk result (bytes.new.items ≡ bytes.old.items ++ flat_map (cell U32) (span id_of 0 rows)) }
{
    let mut first = 0;
    while first < rows {
        let count = (rows - first).min(BLOCK as u64);
        push_few_ids(bytes, first, count as usize)?;
        first += count;
    }
    Ok(())
}

/// Fills room with the scores of rows from one on.
#[inline(always)]
fn fill_scores(room: &mut [u8], seed: u32, first: u64, count: usize)
    requires room { 8 * count ≤ length room.old }
    requires few { first + count ≤ MOST_ROWS }
    ensures long { length room.new ≡ length room.old }
    ensures filled { take (8 * count) room.new ≡ flat_map (cell I64) (span (score_of seed) first count) }
{
    for k in 0..count {
        let at = 8 * k;
        room[at..at + 8].copy_from_slice(&score_bytes(seed, first + k as u64));
    }
}

/// Adds the scores of a few rows from one on.
fn push_few_scores(
    bytes: &mut Vec<u8>,
    seed: u32,
    first: u64,
    count: usize,
) -> Result<(), AllocError>
    requires room { count ≤ 512 }
    requires few { first + count ≤ MOST_ROWS }
    ensures { OnOk result (bytes.new.items ≡ bytes.old.items ++ flat_map (cell I64) (span (score_of seed) first count)) }
{
    let mut room = [0; 8 * BLOCK];
    fill_scores(&mut room, seed, first, count);
    bytes.extend_from_slice(&room[..8 * count])
}

/// Adds the scores of so many rows.
fn push_score_values(bytes: &mut Vec<u8>, seed: u32, rows: u64) -> Result<(), AllocError>
    requires { rows ≤ MOST_ROWS }
    ensures { OnOk result (bytes.new.items ≡ bytes.old.items ++ flat_map (cell I64) (span (score_of seed) 0 rows)) }
{
    let mut first = 0;
    while first < rows {
        let count = (rows - first).min(BLOCK as u64);
        push_few_scores(bytes, seed, first, count as usize)?;
        first += count;
    }
    Ok(())
}

#[tactic(auto, using(crate::proofs::GeneratedLemmas::flat_none))]
fn push_name_lengths(bytes: &mut Vec<u8>, seed: u32, rows: u64) -> Result<(), AllocError>
    requires { rows ≤ MOST_ROWS }
    ensures { OnOk result (bytes.new.items ≡ bytes.old.items ++ flat_map length_in (span (name_of seed) 0 rows)) }
{
    for row in 0..rows {
        bytes.extend_from_slice(&length_bytes(seed, row))?;
    }
    Ok(())
}

#[tactic(auto, using(crate::proofs::GeneratedLemmas::flat_none))]
fn push_name_texts(bytes: &mut Vec<u8>, seed: u32, rows: u64) -> Result<(), AllocError>
    requires { rows ≤ MOST_ROWS }
    ensures { OnOk result (bytes.new.items ≡ bytes.old.items ++ flat_map text_bytes (span (name_of seed) 0 rows)) }
{
    for row in 0..rows {
        push_name(bytes, seed, row)?;
    }
    Ok(())
}

// ---- which rows have a score

/// Whether each row has a score.
#[tactic(auto, using(vx_rows::proofs::SpanLemmas::every_step))]
fn have_scores(seed: u32, rows: u64) -> bool
    requires { rows ≤ MOST_ROWS }
    ensures { result ≡ every (has_value seed) 0 rows }
{
    for row in 0..rows {
        if !has_score(seed, row) {
            return false;
        }
    }
    true
}

/// The value of a bit: 1 where there is such a row and it has a score.
#[tactic(auto, using(crate::proofs::GeneratedLemmas::bit_past, crate::proofs::GeneratedLemmas::bit_here))]
fn flag(seed: u32, rows: u64, row: u64) -> u8
    requires { rows ≤ MOST_ROWS }
    ensures { result ≡ bit_value (span (has_value seed) 0 rows) row }
{
    if row >= rows {
        return 0;
    }
    if has_score(seed, row) { 1 } else { 0 }
}

/// A byte of the bitmap of the rows that have a score.
fn flags_byte(seed: u32, rows: u64, k: u64) -> u8
    requires few { rows ≤ MOST_ROWS }
    requires inside { k ≤ MOST_ROWS }
    ensures { result ≡ bitmap_byte (span (has_value seed) 0 rows) k }
{
    let first = 8 * k;
    let low = flag(seed, rows, first)
        + 2 * flag(seed, rows, first + 1)
        + 4 * flag(seed, rows, first + 2)
        + 8 * flag(seed, rows, first + 3);
    low + 16 * flag(seed, rows, first + 4)
        + 32 * flag(seed, rows, first + 5)
        + 64 * flag(seed, rows, first + 6)
        + 128 * flag(seed, rows, first + 7)
}

/// Adds the bitmap of the rows that have a score.
#[tactic(auto, using(vx_rows::proofs::SpanLemmas::span_more, vx_rows::proofs::SpanLemmas::length_span))]
fn push_bitmap(bytes: &mut Vec<u8>, seed: u32, rows: u64) -> Result<(), AllocError>
    requires { rows ≤ MOST_ROWS }
    ensures { OnOk result (bytes.new.items ≡ bytes.old.items ++ bitmap (span (has_value seed) 0 rows)) }
{
    for k in 0..(rows + 7) / 8 {
        bytes.push(flags_byte(seed, rows, k))?;
    }
    Ok(())
}

/// Adds which rows have a score.
#[tactic(auto, using(crate::proofs::GeneratedLemmas::every_flag))]
fn push_flags(bytes: &mut Vec<u8>, seed: u32, rows: u64) -> Result<(), AllocError>
    requires { rows ≤ MOST_ROWS }
    ensures { OnOk result (bytes.new.items ≡ bytes.old.items ++ flags_bytes (span (has_value seed) 0 rows)) }
{
    if have_scores(seed, rows) {
        bytes.push(0)?;
        return Ok(());
    }
    bytes.push(1)?;
    push_bitmap(bytes, seed, rows)?;
    Ok(())
}

// ---- arrays

/// The bytes of the array of the ids of so many rows.
#[tactic(auto, using(crate::proofs::GeneratedLemmas::ids_made))]
pub(crate) fn id_array(alloc: Global, rows: u64) -> Result<Vec<u8>, AllocError>
    requires { rows ≤ MOST_ROWS }
    ensures { IfOk result (λ bytes. bytes.items ≡ array_bytes generated_arrays (ids rows)) }
{
    let mut bytes = Vec::with_capacity(alloc, 2 + 4 * rows as usize)?;
    push_index(&mut bytes, 0)?;
    push_id_values(&mut bytes, rows)?;
    Ok(bytes)
}

/// The bytes of the array of the scores of so many rows from a seed.
#[tactic(auto, using(crate::proofs::GeneratedLemmas::scores_made))]
pub(crate) fn score_array(alloc: Global, seed: u32, rows: u64) -> Result<Vec<u8>, AllocError>
    requires { rows ≤ MOST_ROWS }
    ensures { IfOk result (λ bytes. bytes.items ≡ array_bytes generated_arrays (scores seed rows)) }
{
    // a byte before the bitmap, and its last one
    let mut bytes = Vec::with_capacity(alloc, 4 + 8 * rows as usize + rows as usize / 8)?;
    push_index(&mut bytes, 0)?;
    push_flags(&mut bytes, seed, rows)?;
    push_score_values(&mut bytes, seed, rows)?;
    Ok(bytes)
}

/// The bytes of the array of the names of so many rows from a seed.
#[tactic(auto, using(crate::proofs::GeneratedLemmas::names_made))]
pub(crate) fn name_array(alloc: Global, seed: u32, rows: u64) -> Result<Vec<u8>, AllocError>
    requires { rows ≤ MOST_ROWS }
    ensures { IfOk result (λ bytes. bytes.items ≡ array_bytes generated_arrays (names seed rows)) }
{
    let mut bytes = Vec::new(alloc);
    push_index(&mut bytes, 2)?;
    push_name_lengths(&mut bytes, seed, rows)?;
    push_name_texts(&mut bytes, seed, rows)?;
    Ok(bytes)
}
