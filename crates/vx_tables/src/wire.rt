//! What stands at the places of a table root.

ghost use Rattle.std.specs.Prelude.{◌≡◌, ◌+◌, ◌*◌, ◌≤◌, OnOk, IfOk, length, List, ℕ, if◌then◌else◌, Some, None, take, drop};
ghost use Rattle.std.specs.Str.{is_utf8};
ghost use Rattle.std.specs.Result.{result_ok};
ghost use Rattle.std.specs.Option.{option_map};
ghost use Rattle.std.specs.Int.{w8, w16, w32, w64, from_le_bytes};
ghost use Rattle.vx_tables.specs.Field.{forward, backward, bytes as bytes_at, num, target, text, element_size, vector, numbers_in};

use crate::bad_table::BadTable;
use crate::elements::Elements;
use std::alloc::{AllocError, Global};

/// The place `n` bytes after `at`.
#[tactic(auto, unfolding(crate::specs::Field::forward))]
pub(crate) fn forward_from(bytes: &[u8], at: usize, n: usize) -> Result<usize, BadTable>
    requires { at ≤ length bytes.now }
    ensures value { result_ok result ≡ forward bytes.now at n }
    ensures inside { IfOk result (λ to. to ≤ length bytes.now) }
{
    if n > bytes.len() - at {
        return Err(BadTable);
    }
    Ok(at + n)
}

/// The place that the signed number `n` leads to, taken away from `at`.
#[tactic(auto, unfolding(crate::specs::Field::backward))]
pub(crate) fn backward_from(bytes: &[u8], at: usize, n: u32) -> Result<usize, BadTable>
    requires { at ≤ length bytes.now }
    ensures value { result_ok result ≡ backward bytes.now at n }
    ensures inside { IfOk result (λ to. to ≤ length bytes.now) }
{
    if n >= 1 << 31 {
        return forward_from(bytes, at, (1 << 32) - n as usize);
    }
    if n as usize > at {
        return Err(BadTable);
    }
    Ok(at - n as usize)
}

/// The `n` bytes at `at`.
#[tactic(auto, unfolding(crate::specs::Field::bytes))]
pub(crate) fn bytes_from(bytes: &[u8], at: usize, n: usize) -> Result<&[u8], BadTable>
    requires { at ≤ length bytes.now }
    ensures value { option_map (λ cells. cells.now) (result_ok result) ≡ bytes_at bytes.now at n }
    ensures inside { OnOk result (at + n ≤ length bytes.now) }
    ensures len { IfOk result (λ cells. length cells.now ≡ n) }
{
    if n > bytes.len() - at {
        return Err(BadTable);
    }
    Ok(&bytes[at..at + n])
}

#[tactic(auto, unfolding(crate::specs::Field::num))]
pub(crate) fn u8_from(bytes: &[u8], at: usize) -> Result<u8, BadTable>
    requires { at ≤ length bytes.now }
    ensures value { result_ok result ≡ num w8 bytes.now at }
    ensures inside { OnOk result (at + 1 ≤ length bytes.now) }
{
    let cells = bytes_from(bytes, at, 1)?;
    Ok(u8::from_le_bytes([cells[0]]))
}

#[tactic(auto, unfolding(crate::specs::Field::num))]
pub(crate) fn u16_from(bytes: &[u8], at: usize) -> Result<u16, BadTable>
    requires { at ≤ length bytes.now }
    ensures value { result_ok result ≡ num w16 bytes.now at }
    ensures inside { OnOk result (at + 2 ≤ length bytes.now) }
{
    let cells = bytes_from(bytes, at, 2)?;
    Ok(u16::from_le_bytes([cells[0], cells[1]]))
}

#[tactic(auto, unfolding(crate::specs::Field::num))]
pub(crate) fn u32_from(bytes: &[u8], at: usize) -> Result<u32, BadTable>
    requires { at ≤ length bytes.now }
    ensures value { result_ok result ≡ num w32 bytes.now at }
    ensures inside { OnOk result (at + 4 ≤ length bytes.now) }
{
    let cells = bytes_from(bytes, at, 4)?;
    Ok(u32::from_le_bytes([cells[0], cells[1], cells[2], cells[3]]))
}

#[tactic(auto, unfolding(crate::specs::Field::num))]
pub(crate) fn u64_from(bytes: &[u8], at: usize) -> Result<u64, BadTable>
    requires { at ≤ length bytes.now }
    ensures value { result_ok result ≡ num w64 bytes.now at }
    ensures inside { OnOk result (at + 8 ≤ length bytes.now) }
{
    let cells = bytes_from(bytes, at, 8)?;
    Ok(u64::from_le_bytes([
        cells[0], cells[1], cells[2], cells[3], cells[4], cells[5], cells[6], cells[7],
    ]))
}

/// The place that the offset at `at` leads to.
#[tactic(auto, unfolding(crate::specs::Field::target))]
pub(crate) fn target_from(bytes: &[u8], at: usize) -> Result<usize, BadTable>
    requires { at ≤ length bytes.now }
    ensures value { result_ok result ≡ target bytes.now at }
    ensures inside { IfOk result (λ to. to ≤ length bytes.now) }
{
    let n = u32_from(bytes, at)?;
    forward_from(bytes, at, n as usize)
}

/// The text that these bytes are.
#[tactic(auto, using(crate::proofs::Text::utf8_tests))]
fn text_of(cells: &[u8]) -> Result<&str, BadTable>
    ensures { option_map (λ text. text.now) (result_ok result) ≡ (if is_utf8 cells.now then Some cells.now else None) }
{
    match str::from_utf8(cells) {
        Ok(text) => Ok(text),
        Err(_) => Err(BadTable),
    }
}

/// The text at `at`.
#[tactic(auto, unfolding(crate::specs::Field::text))]
pub(crate) fn text_from(bytes: &[u8], at: usize) -> Result<&str, BadTable>
    requires { at ≤ length bytes.now }
    ensures { option_map (λ cells. cells.now) (result_ok result) ≡ text bytes.now at }
{
    let count = u32_from(bytes, at)?;
    text_of(bytes_from(bytes, at + 4, count as usize)?)
}

/// The place of the first element of the vector at `at`, and how many it has.
#[tactic(auto, unfolding(crate::specs::Field::vector))]
pub(crate) fn vector_from(
    bytes: &[u8],
    at: usize,
    elements: Elements,
) -> Result<(usize, usize), BadTable>
    requires { at ≤ length bytes.now }
    ensures value { option_map (λ v. record { first = v.0; count = v.1 }) (result_ok result) ≡ vector bytes.now at elements }
    ensures inside { IfOk result (λ v. v.0 + v.1 * element_size elements ≤ length bytes.now) }
{
    let count = u32_from(bytes, at)? as usize;
    let first = at + 4;
    match count.checked_mul(elements.size()) {
        Some(size) if size <= bytes.len() - first => Ok((first, count)),
        _ => Err(BadTable),
    }
}

/// The number in the first four bytes, and the bytes behind it.
fn split_number(cells: &[u8]) -> (u32, &[u8])
    requires { 4 ≤ length cells.now }
    ensures number { result.0 ≡ from_le_bytes w32 (take 4 cells.now) }
    ensures rest { result.1.now ≡ drop 4 cells.now }
{
    let (number, rest) = cells.split_at(4);
    (
        u32::from_le_bytes([number[0], number[1], number[2], number[3]]),
        rest,
    )
}

/// So many numbers of four bytes.
pub(crate) fn numbers_from(
    alloc: Global,
    cells: &[u8],
    count: usize,
) -> Result<Vec<u32>, AllocError>
    requires { count * 4 ≤ length cells.now }
    ensures { IfOk result (λ ns. ns.items ≡ numbers_in count cells.now) }
{
    let mut numbers = Vec::new(alloc);
    let mut rest = cells;
    for at in 0..count {
        let (number, behind) = split_number(rest);
        numbers.push(number)?;
        rest = behind;
    }
    Ok(numbers)
}
