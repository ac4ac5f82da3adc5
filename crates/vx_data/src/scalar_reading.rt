//! Reads a value from its bytes.
ghost use Rattle.std.specs.Prelude.{◌≡◌, IfOk};
ghost use Rattle.std.specs.Int.{w8, w16, w32, w64};
ghost use Rattle.std.specs.Option.{option_map};
ghost use Rattle.vx_data.specs.Dtype.{dtype_view};
ghost use Rattle.vx_data.specs.Scalar.{scalar_view};
ghost use Rattle.vx_data.specs.StatsTable.{flag_of, unsigned_of, signed_of, int_of, words_of as text_by, scalar_of as scalar_by};

use crate::{DType, PType, Scalar};
use std::alloc::{AllocError, Global};

fn u8_of(cells: &[u8]) -> Option<i128>
    ensures { result ≡ unsigned_of w8 cells.now }
{
    if cells.len() != 1 {
        return None;
    }
    Some(i128::from(u8::from_le_bytes([cells[0]])))
}

fn u16_of(cells: &[u8]) -> Option<i128>
    ensures { result ≡ unsigned_of w16 cells.now }
{
    if cells.len() != 2 {
        return None;
    }
    Some(i128::from(u16::from_le_bytes([cells[0], cells[1]])))
}

fn u32_of(cells: &[u8]) -> Option<i128>
    ensures { result ≡ unsigned_of w32 cells.now }
{
    if cells.len() != 4 {
        return None;
    }
    let number = u32::from_le_bytes([cells[0], cells[1], cells[2], cells[3]]);
    Some(i128::from(number))
}

fn u64_of(cells: &[u8]) -> Option<i128>
    ensures { result ≡ unsigned_of w64 cells.now }
{
    if cells.len() != 8 {
        return None;
    }
    let number = u64::from_le_bytes([
        cells[0], cells[1], cells[2], cells[3], cells[4], cells[5], cells[6], cells[7],
    ]);
    Some(i128::from(number))
}

fn i8_of(cells: &[u8]) -> Option<i128>
    ensures { result ≡ signed_of w8 cells.now }
{
    if cells.len() != 1 {
        return None;
    }
    Some(i128::from(i8::from_le_bytes([cells[0]])))
}

fn i16_of(cells: &[u8]) -> Option<i128>
    ensures { result ≡ signed_of w16 cells.now }
{
    if cells.len() != 2 {
        return None;
    }
    Some(i128::from(i16::from_le_bytes([cells[0], cells[1]])))
}

fn i32_of(cells: &[u8]) -> Option<i128>
    ensures { result ≡ signed_of w32 cells.now }
{
    if cells.len() != 4 {
        return None;
    }
    let number = i32::from_le_bytes([cells[0], cells[1], cells[2], cells[3]]);
    Some(i128::from(number))
}

fn i64_of(cells: &[u8]) -> Option<i128>
    ensures { result ≡ signed_of w64 cells.now }
{
    if cells.len() != 8 {
        return None;
    }
    let number = i64::from_le_bytes([
        cells[0], cells[1], cells[2], cells[3], cells[4], cells[5], cells[6], cells[7],
    ]);
    Some(i128::from(number))
}

/// The integer that these bytes are.
fn number_of(ptype: PType, cells: &[u8]) -> Option<i128>
    ensures { result ≡ int_of ptype cells.now }
{
    match ptype {
        PType::U8 => u8_of(cells),
        PType::U16 => u16_of(cells),
        PType::U32 => u32_of(cells),
        PType::U64 => u64_of(cells),
        PType::I8 => i8_of(cells),
        PType::I16 => i16_of(cells),
        PType::I32 => i32_of(cells),
        PType::I64 => i64_of(cells),
    }
}

/// The truth value that these bytes are.
fn truth_of(cells: &[u8]) -> Option<Scalar>
    ensures { option_map scalar_view result ≡ flag_of cells.now }
{
    if cells.len() != 1 {
        return None;
    }
    match cells[0] {
        0 => Some(Scalar::Bool(false)),
        1 => Some(Scalar::Bool(true)),
        _ => None,
    }
}

/// The text that these bytes are.
#[tactic(auto, using(vx_tables::proofs::Text::utf8_tests))]
fn words_of(alloc: Global, cells: &[u8]) -> Result<Option<Scalar>, AllocError>
    ensures { IfOk result (λ s. option_map scalar_view s ≡ text_by cells.now) }
{
    match str::from_utf8(cells) {
        Ok(text) => Ok(Some(Scalar::Text(String::from_str(alloc, text)?))),
        Err(_) => Ok(None),
    }
}

/// The value of a type that these bytes are. A struct has none.
pub(crate) fn scalar_of(
    alloc: Global,
    dtype: &DType,
    cells: &[u8],
) -> Result<Option<Scalar>, AllocError>
    ensures { IfOk result (λ s. option_map scalar_view s ≡ scalar_by (dtype_view dtype.now) cells.now) }
{
    match dtype {
        DType::Bool(_) => Ok(truth_of(cells)),
        DType::Int(ptype, _) => match number_of(*ptype, cells) {
            Some(number) => Ok(Some(Scalar::Int(number))),
            None => Ok(None),
        },
        DType::Text(_) => Ok(words_of(alloc, cells)?),
        DType::Struct(_, _) => Ok(None),
    }
}
