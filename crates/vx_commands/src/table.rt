//! The rows that an input spells: a line with their type, and a line for each of them.
ghost use Rattle.std.specs.Prelude.{◌≡◌, ◌&&◌, ◌+◌, ◌<◌, ◌≤◌, ◌^◌, length, map, true, false, IfOk};
ghost use Rattle.std.specs.List.{list_all};
ghost use Rattle.std.specs.Prelude.{nat_lt};
ghost use Rattle.std.specs.Str.{IsAscii};
ghost use Rattle.vx_base.specs.Streams.{SameSource};
ghost use Rattle.vx_data.specs.Dtype.{dtype_view};
ghost use Rattle.vx_rows.specs.Rows.{column_view};
ghost use Rattle.vx_generate.specs.Tables.{IsTable};
ghost use Rattle.vx_commands.specs.Tables.{as_ascii, first_line, behind_line, RowsCause, TableCause, InputTableCause};

use crate::failure::Failure;
use crate::input::{InputError, read_input};
use std::alloc::{AllocError, Global};
use std::marker::Model;
use std::str;
use vx_base::Source;
use vx_data::{DType, TextError};
use vx_rows::{Column, RowsError, read_rows};

/// Rows of a type.
#[derive(Drop)]
pub struct Table {
    dtype: DType,
    rows: Column,
}

impl Model for Table {
    ghost use Rattle.vx_data.specs.Dtype.{dtype_view};
    ghost use Rattle.vx_rows.specs.Rows.{column_view};
    ghost use Rattle.std.specs.Coded.{codes};
    ghost use Rattle.vx_footer.specs.DtypeCode.{dtype_code};
    ghost use Rattle.vx_rows.specs.RowsCode.{rows_code};
    ghost use Rattle.vx_generate.specs.Tables.{IsTable};
    ghost use Rattle.vx_commands.specs.Tables.{TableValue};

    ghost Value = { TableValue };

    ghost coded = { Prim.hlevel (codes, dtype_code, rows_code) };

    ghost view = { λ t. record { dtype = dtype_view t.dtype; rows = column_view t.rows } };

    ghost invariant = { λ t. IsTable (dtype_view t.dtype) (column_view t.rows) };
}

/// The byte, or 0 in place of one that is not ASCII.
fn ascii_byte(byte: u8) -> u8
    ensures { result ≡ as_ascii byte }
{
    if byte < 128 { byte } else { 0 }
}

/// The greater of two bytes, which is ASCII where both are.
#[inline(always)]
#[tactic(auto, using(crate::proofs::TableLemmas::greater_first, crate::proofs::TableLemmas::greater_second))]
fn greater(a: u8, b: u8) -> u8
    ensures { nat_lt result 128 ≡ (nat_lt a 128 && nat_lt b 128) }
{
    if b > a { b } else { a }
}

/// Whether all bytes are ASCII. The greatest tells, which is found many bytes at a time.
#[tactic(auto, using(crate::proofs::TableLemmas::more_low))]
fn is_ascii(text: &[u8]) -> bool
    ensures { result ≡ list_all (λ b. nat_lt b 128) text.now }
{
    let mut greatest = 0;
    for byte in text {
        greatest = greater(greatest, *byte);
    }
    greatest < 128
}

/// The text with 0 in place of each byte that is not ASCII. Only memory refuses.
#[tactic(auto, using(crate::proofs::TableLemmas::byte_steps))]
fn to_ascii(alloc: Global, text: Vec<u8>) -> Result<Vec<u8>, AllocError>
    ensures value { IfOk result (λ t. t.items ≡ map as_ascii text.items) }
    ensures ascii { IfOk result (λ t. IsAscii t.items) }
{
    if is_ascii(text.as_slice()) {
        return Ok(text);
    }
    text.into_iter().map(|byte| ascii_byte(byte)).collect(alloc)
}

/// The first line, and what follows its line feed.
#[tactic(auto, using(crate::proofs::TableLemmas::line_steps))]
fn split_line(text: &[u8]) -> (&[u8], &[u8])
    ensures first { result.0.now ≡ first_line text.now }
    ensures behind { result.1.now ≡ behind_line text.now }
{
    for at in 0..text.len() {
        if text[at] == b'\n' {
            return (&text[..at], &text[at + 1..]);
        }
    }
    (text, &[])
}

/// Bytes of ASCII as a text.
#[tactic(auto, using(crate::proofs::TableLemmas::ascii_text))]
fn as_text(bytes: &[u8]) -> &str
    requires { IsAscii bytes.now }
    ensures { result.now ≡ bytes.now }
{
    unsafe { str::from_utf8_unchecked(bytes) }
}

impl Table {
    /// The type of the rows.
    pub(crate) fn dtype(&self) -> &DType
        ensures { dtype_view result.now ≡ self.now.dtype }
    {
        &self.dtype
    }

    /// The rows.
    pub(crate) fn rows(&self) -> &Column
        ensures value { column_view result.now ≡ self.now.rows }
        ensures table { IsTable self.now.dtype (column_view result.now) }
    {
        &self.rows
    }

    /// Rows of a type, which a text spells.
    #[tactic(auto, using(crate::proofs::TableLemmas::bad_line))]
    fn typed<'a>(alloc: Global, dtype: DType, text: &str) -> Result<Table, Failure<'a>>
        ensures { RowsCause (dtype_view dtype) text.now result }
    {
        match read_rows(alloc, &dtype, text) {
            Ok(rows) => {
                prove!(rows.len() <= usize::MAX);
                Ok(Table { dtype, rows })
            }
            Err(RowsError::BadLine(number)) => Err(Failure::Line(number + 2)),
            Err(RowsError::OutOfMemory) => Err(Failure::OutOfMemory),
        }
    }

    /// The rows that a text spells.
    #[tactic(auto, using(crate::proofs::TableLemmas::ascii_first, crate::proofs::TableLemmas::ascii_behind))]
    fn read<'a>(alloc: Global, text: Vec<u8>) -> Result<Table, Failure<'a>>
        ensures { TableCause text.items result }
    {
        let text = to_ascii(alloc, text)?;
        let (first, behind) = split_line(text.as_slice());
        match DType::from_text(alloc, as_text(first)) {
            Ok(dtype) => Table::typed(alloc, dtype, as_text(behind)),
            Err(TextError::BadText) => Err(Failure::Line(1)),
            Err(TextError::OutOfMemory) => Err(Failure::OutOfMemory),
        }
    }

    /// The rows that an input spells.
    pub(crate) fn load<'a, I: Source>(alloc: Global, input: &mut I) -> Result<Table, Failure<'a>>
        ensures cause { InputTableCause (I.state input.old) (I.state input.new) result }
        ensures steady { (I.state input.old).never_fails ≡ true → (I.state input.new).faults ≡ (I.state input.old).faults }
        ensures same { SameSource (I.state input.old) (I.state input.new) }
    {
        let text = match read_input(alloc, input) {
            Ok(text) => text,
            Err(InputError::Failed) => return Err(Failure::Input),
            Err(InputError::TooLong) => return Err(Failure::InputTooLong),
            Err(InputError::OutOfMemory) => return Err(Failure::OutOfMemory),
        };
        Table::read(alloc, text)
    }
}
