//! Reads rows from text.
ghost use Rattle.std.specs.Prelude.{◌≡◌, ℕ, List, ◌∷◌, [], true, length, IfOk};
ghost use Rattle.std.specs.Option.{option_map, option_and_then};
ghost use Rattle.vx_base.specs.Checks.{Gives, ◌lacking◌};
ghost use Rattle.vx_data.specs.Dtype.{dtype_view};
ghost use Rattle.vx_data.specs.Texts.{comma};
ghost use Rattle.vx_data.specs.TextsRead.{FailsToRead as FailsToReadValue, after as after_front};
ghost use Rattle.vx_data.specs.declared.text_error.TextError.TheVariants.{BadText};
ghost use Rattle.vx_rows.specs.declared.rows_error.RowsError.TheVariants.{BadLine};
ghost use Rattle.vx_rows.specs.Rows.{Rows, FieldRows, structs, column_view, dtype_of, IsColumn};
ghost use Rattle.vx_rows.specs.Builders.{builder_view, builders_view, pairs_view};
ghost use Rattle.vx_rows.specs.ReadRows.{FailsToRead, value_in, values_in, after_end as behind_end, row_in, rows_behind, lines_of, rows_of};

use crate::builder::{Builder, Builders, begin, finish, push_absent_fields};
use crate::flags::Flags;
use crate::value_reading::{after_byte, read_null};
use crate::{Column, RowsError};
use std::alloc::Global;
use vx_data::{DType, TextError};

/// What follows a byte, which must come.
#[inline(always)]
fn expect(text: &[u8], byte: u8) -> Result<&[u8], TextError>
    ensures { Gives FailsToReadValue (λ rest. rest.now) result (BadText lacking after_front (byte ∷ []) text.now) }
{
    match after_byte(text, byte) {
        Some(rest) => Ok(rest),
        None => Err(TextError::BadText),
    }
}

/// What follows a comma, which must come before each field but the first.
#[inline(always)]
fn expect_comma(is_first: bool, text: &[u8]) -> Result<&[u8], TextError>
    ensures { Gives FailsToReadValue (λ rest. rest.now) result (BadText lacking after_front (comma is_first) text.now) }
{
    if is_first {
        return Ok(text);
    }
    expect(text, b',')
}

/// Adds the values of fields in front, and gives what follows them.
#[cycle(reading_rows)]
#[inline(always)]
#[tactic(auto, using(crate::proofs::ReadingLemmas::value_steps))]
fn read_fields<'a>(
    alloc: Global,
    builders: &mut Vec<(String, Builder)>,
    text: &'a [u8],
) -> Result<&'a [u8], TextError>
    ensures { Gives {A = FieldRows × List ℕ} FailsToReadValue (λ rest. (pairs_view builders.new.items, rest.now)) result
        (BadText lacking values_in true (pairs_view builders.old.items) text.now) }
{
    let mut rest = text;
    let mut is_first = true;
    for at in 0..builders.len() {
        let builder = &mut builders[at];
        rest = read_field(alloc, &mut builder.1, is_first, rest)?;
        is_first = false;
    }
    Ok(rest)
}

/// Adds the value of a field in front, behind a comma where it is not the first, and gives what follows it.
#[cycle(reading_rows)]
#[inline(always)]
fn read_field<'a>(
    alloc: Global,
    builder: &mut Builder,
    is_first: bool,
    text: &'a [u8],
) -> Result<&'a [u8], TextError>
    ensures { Gives {A = Rows × List ℕ} FailsToReadValue (λ rest. (builder_view builder.new, rest.now)) result
        (BadText lacking option_and_then (value_in (builder_view builder.old)) (after_front (comma is_first) text.now)) }
{
    let value = expect_comma(is_first, text)?;
    read_value(alloc, builder, value)
}

/// Adds the values of a struct's fields in front, and gives what follows them.
#[cycle(reading_rows)]
#[inline(always)]
fn read_fields_of<'a>(
    alloc: Global,
    builders: &mut Builders,
    text: &'a [u8],
) -> Result<&'a [u8], TextError>
    ensures { Gives {A = FieldRows × List ℕ} FailsToReadValue (λ rest. (builders_view builders.new, rest.now)) result
        (BadText lacking values_in true (builders_view builders.old) text.now) }
{
    read_fields(alloc, &mut builders.builders, text)
}

/// Adds the struct in front, or one that is null, and gives what follows it.
#[cycle(reading_rows)]
#[inline(always)]
fn read_struct<'a>(
    alloc: Global,
    rows: &mut Flags,
    builders: &mut Builders,
    text: &'a [u8],
) -> Result<&'a [u8], TextError>
    ensures { Gives {A = Rows × List ℕ} FailsToReadValue (λ rest. (structs rows.new (builders_view builders.new), rest.now)) result
        (BadText lacking value_in (structs rows.old (builders_view builders.old)) text.now) }
{
    if let Some(rest) = read_null(rows.is_nullable(), text) {
        rows.push(false)?;
        push_absent_fields(builders)?;
        return Ok(rest);
    }
    let inside = expect(text, b'(')?;
    rows.push(true)?;
    let behind = read_fields_of(alloc, builders, inside)?;
    expect(behind, b')')
}

/// The same by a call, for a struct within another.
#[cycle(reading_rows)]
#[inline(never)]
fn read_inner_struct<'a>(
    alloc: Global,
    rows: &mut Flags,
    builders: &mut Builders,
    text: &'a [u8],
) -> Result<&'a [u8], TextError>
    ensures { Gives {A = Rows × List ℕ} FailsToReadValue (λ rest. (structs rows.new (builders_view builders.new), rest.now)) result
        (BadText lacking value_in (structs rows.old (builders_view builders.old)) text.now) }
{
    read_struct(alloc, rows, builders, text)
}

/// Adds the value in front, and gives what follows it.
#[cycle(reading_rows)]
#[inline(always)]
fn read_value<'a>(
    alloc: Global,
    builder: &mut Builder,
    text: &'a [u8],
) -> Result<&'a [u8], TextError>
    ensures { Gives {A = Rows × List ℕ} FailsToReadValue (λ rest. (builder_view builder.new, rest.now)) result
        (BadText lacking value_in (builder_view builder.old) text.now) }
{
    // Each arm unpacks its result, so that what the other arms call can't write where it is kept.
    match builder {
        Builder::Bool(rows) => Ok(rows.read(text)?),
        Builder::Int(rows) => Ok(rows.read(text)?),
        Builder::Text(rows) => Ok(rows.read(alloc, text)?),
        Builder::Struct(rows, builders) => Ok(read_inner_struct(alloc, rows, builders, text)?),
    }
}

/// Adds the value in front, and gives what follows it. A struct's fields are read without a call.
#[inline(always)]
fn read_row<'a>(alloc: Global, builder: &mut Builder, text: &'a [u8]) -> Result<&'a [u8], TextError>
    ensures { Gives {A = Rows × List ℕ} FailsToReadValue (λ rest. (builder_view builder.new, rest.now)) result
        (BadText lacking value_in (builder_view builder.old) text.now) }
{
    match builder {
        Builder::Struct(rows, builders) => read_struct(alloc, rows, builders, text),
        _ => read_value(alloc, builder, text),
    }
}

/// What follows the end of a line: its line feed, which may lack at the end.
#[inline(always)]
fn after_end(text: &[u8]) -> Option<&[u8]>
    ensures { option_map (λ rest. rest.now) result ≡ behind_end text.now }
{
    match text.split_first() {
        None => Some(text),
        Some((first, rest)) if *first == b'\n' => Some(rest),
        Some(_) => None,
    }
}

/// Adds the value that the first line is, which has this number, and gives what follows the line. A line that is none
/// is BadLine.
#[inline(always)]
fn read_line<'a>(
    alloc: Global,
    builder: &mut Builder,
    text: &'a [u8],
    number: u64,
) -> Result<&'a [u8], RowsError>
    ensures { Gives {A = Rows × List ℕ} FailsToRead (λ rest. (builder_view builder.new, rest.now)) result
        (BadLine number lacking row_in (builder_view builder.old) text.now) }
{
    let rest = match read_row(alloc, builder, text) {
        Ok(rest) => rest,
        Err(TextError::BadText) => return Err(RowsError::BadLine(number)),
        Err(TextError::OutOfMemory) => return Err(RowsError::OutOfMemory),
    };
    match after_end(rest) {
        Some(behind) => Ok(behind),
        None => Err(RowsError::BadLine(number)),
    }
}

/// Adds the rows of lines.
#[tactic(auto, using(crate::proofs::LineLemmas::text_row_steps))]
fn read_lines(alloc: Global, builder: &mut Builder, text: &[u8]) -> Result<(), RowsError>
    ensures { Gives {A = Rows} FailsToRead (λ _. builder_view builder.new) result
        (rows_behind (builder_view builder.old) 0 (lines_of text.now)) }
{
    let mut number = 0;
    let mut rest = text;
    while !rest.is_empty() {
        rest = read_line(alloc, builder, rest, number)?;
        number += 1;
    }
    Ok(())
}

/// The column of a type whose rows a text spells, one line each, as `push_rows` prints them. The last line feed
/// may lack. The first line, from 0, that is no value of the type is BadLine.
#[tactic(auto, using(crate::proofs::ReadSoundLemmas::read_sound))]
pub fn read_rows(alloc: Global, dtype: &DType, text: &str) -> Result<Column, RowsError>
    ensures value { Gives FailsToRead column_view result (rows_of (dtype_view dtype.now) text.now) }
    ensures typed { IfOk result (λ c. dtype_of (column_view c) ≡ dtype_view dtype.now) }
    ensures sound { IfOk result (λ c. IsColumn (length (lines_of text.now)) (column_view c)) }
{
    let mut builder = begin(alloc, dtype)?;
    read_lines(alloc, &mut builder, text.as_bytes())?;
    Ok(finish(alloc, builder)?)
}
