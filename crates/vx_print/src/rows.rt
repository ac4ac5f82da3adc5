//! The texts of rows.
ghost use Rattle.std.specs.Prelude.{◌≡◌, ◌+◌, ◌<◌, ◌≤◌, length, slice_index_or, true};
ghost use Rattle.std.specs.Fmt.{signed_decimal};
ghost use Rattle.std.specs.Option.{option_map};
ghost use Rattle.vx_data.specs.Texts.{comma, quoted};
ghost use Rattle.vx_rows.specs.Rows.{column_view, pairs_view, structs};
ghost use Rattle.vx_rows.specs.ValueTexts.{optional, bool_text, value_text, fields_text, lines_text};
ghost use Rattle.vx_print.specs.RowsText.{rows_text};
ghost use Rattle.vx_text.specs.Text.{Adds, Holds};

use crate::printable_rows::PrintableRows;
use crate::words::put_quoted;
use itoa::Buffer;
use vx_base::Sink;
use vx_rows::{Column, StructRows};
use vx_text::TextOut;

/// Adds a truth value, or `~`.
#[inline(always)]
fn put_bool<S: Sink>(value: Option<bool>, text: &mut TextOut, out: &mut S)
    ensures { Adds (optional bool_text value) text.old (S.state out.old) text.new (S.state out.new) }
{
    match value {
        None => text.byte(out, b'~'),
        Some(true) => text.word(out, b"true"),
        Some(false) => text.word(out, b"false"),
    }
}

/// Adds a decimal number that is negative, or has more than 64 bits.
fn put_signed<S: Sink>(number: i128, text: &mut TextOut, out: &mut S)
    ensures { Adds (signed_decimal number) text.old (S.state out.old) text.new (S.state out.new) }
{
    match i64::try_from(number) {
        Ok(number) => text.integer(out, number),
        Err(_) => {
            let mut digits = Buffer::new();
            text.word(out, digits.format(number).as_bytes());
        }
    }
}

/// Adds a decimal number. Nearly all are unsigned numbers of 64 bits.
#[inline(always)]
#[tactic(auto, using(vx_text::proofs::TextLemmas::adds_holds))]
fn put_number<S: Sink>(number: i128, text: &mut TextOut, out: &mut S)
    requires { length text.old.held + 20 ≤ 32768 }
    ensures { Adds (signed_decimal number) text.old (S.state out.old) text.new (S.state out.new) }
{
    match u64::try_from(number) {
        Ok(number) => text.put_digits(number),
        Err(_) => put_signed(number, text, out),
    }
}

/// Adds a decimal number, or `~`.
#[inline(always)]
fn put_int<S: Sink>(value: Option<i128>, text: &mut TextOut, out: &mut S)
    requires { length text.old.held + 20 ≤ 32768 }
    ensures { Adds (optional signed_decimal value) text.old (S.state out.old) text.new (S.state out.new) }
{
    match value {
        None => text.byte(out, b'~'),
        Some(number) => put_number(number, text, out),
    }
}

/// Adds quoted text, or `~`.
#[inline(always)]
fn put_text<S: Sink>(value: Option<&str>, text: &mut TextOut, out: &mut S)
    ensures { Adds (optional quoted (option_map (λ v. v.now) value.entry)) text.old (S.state out.old) text.new (S.state out.new) }
{
    match value {
        None => text.byte(out, b'~'),
        Some(value) => put_quoted(value.as_bytes(), text, out),
    }
}

/// Whether a struct is not null, or there is no such row.
#[inline(always)]
fn is_there(rows: &StructRows, row: usize) -> bool
    ensures { result ≡ slice_index_or rows.now.present row true }
{
    if row >= rows.len() {
        return true;
    }
    rows.is_present(row)
}

/// Puts what stands before a field.
#[inline(always)]
fn put_comma(is_first: bool, text: &mut TextOut)
    requires { length text.old.held < 32768 }
    ensures holds { Holds (comma is_first) text.old text.new }
    ensures long { length text.new.held ≤ length text.old.held + 1 }
{
    if is_first {
        return;
    }
    text.push(b',');
}

/// Adds the values of fields at a row.
#[cycle(printing)]
#[inline(always)]
#[tactic(auto, using(crate::proofs::RowLines::smaller_column))]
fn put_all<S: Sink>(columns: &[(String, Column)], row: usize, text: &mut TextOut, out: &mut S)
    ensures { Adds (fields_text true (pairs_view columns.now) row) text.old (S.state out.old) text.new (S.state out.new) }
{
    let mut is_first = true;
    for column in columns {
        text.make_room(out);
        put_comma(is_first, text);
        put_value(&column.1, row, text, out);
        is_first = false;
    }
}

/// Adds a struct at a row: its fields between brackets, or `~`.
#[cycle(printing)]
#[inline(always)]
fn put_struct<S: Sink>(
    rows: &StructRows,
    columns: &[(String, Column)],
    row: usize,
    text: &mut TextOut,
    out: &mut S,
)
    ensures { Adds (value_text (structs rows.now (pairs_view columns.now)) row) text.old (S.state out.old) text.new (S.state out.new) }
{
    if !is_there(rows, row) {
        return text.byte(out, b'~');
    }
    text.byte(out, b'(');
    put_all(columns, row, text, out);
    text.byte(out, b')');
}

/// Adds a struct that is a field. Only here is a call made for a value, all else is compiled into the loop over rows.
#[cycle(printing)]
fn put_inner<S: Sink>(
    rows: &StructRows,
    columns: &[(String, Column)],
    row: usize,
    text: &mut TextOut,
    out: &mut S,
)
    ensures { Adds (value_text (structs rows.now (pairs_view columns.now)) row) text.old (S.state out.old) text.new (S.state out.new) }
{
    put_struct(rows, columns, row, text, out);
}

/// Adds the value of a column at a row: `~` where it is null, else `true` or `false`, a decimal number, quoted text, or the
/// fields between brackets.
#[cycle(printing)]
#[inline(always)]
fn put_value<S: Sink>(column: &Column, row: usize, text: &mut TextOut, out: &mut S)
    requires { length text.old.held + 20 ≤ 32768 }
    ensures { Adds (value_text (column_view column.now) row) text.old (S.state out.old) text.new (S.state out.new) }
{
    match column {
        Column::Bool(values) => put_bool(values.get(row), text, out),
        Column::Int(values) => put_int(values.get(row), text, out),
        Column::Text(values) => put_text(values.get(row), text, out),
        Column::Struct(rows, columns) => put_inner(rows, columns.as_slice(), row, text, out),
    }
}

/// Adds a row, which mostly is a struct.
#[inline(always)]
fn put_row<S: Sink>(column: &Column, row: usize, text: &mut TextOut, out: &mut S)
    ensures { Adds (value_text (column_view column.now) row) text.old (S.state out.old) text.new (S.state out.new) }
{
    match column {
        Column::Struct(rows, columns) => put_struct(rows, columns.as_slice(), row, text, out),
        _ => {
            text.make_room(out);
            put_value(column, row, text, out);
        }
    }
}

/// Adds all rows, a line each.
fn put_lines<S: Sink>(column: &Column, text: &mut TextOut, out: &mut S)
    ensures { Adds (lines_text (column_view column.now)) text.old (S.state out.old) text.new (S.state out.new) }
{
    for row in 0..column.len() {
        put_row(column, row, text, out);
        text.end_line(out);
    }
}

/// Adds the type of rows, and the rows, a line each.
pub fn put_rows<S: Sink>(rows: &PrintableRows, text: &mut TextOut, out: &mut S)
    ensures { Adds (rows_text rows.now) text.old (S.state out.old) text.new (S.state out.new) }
{
    text.word(out, rows.dtype().as_bytes());
    text.end_line(out);
    put_lines(rows.rows(), text, out);
}
