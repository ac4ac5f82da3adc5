//! The texts of rows.
ghost use Rattle.std.specs.Prelude.{◌≡◌, ◌++◌, ◌<◌, true, OnOk, IfOk, string_bytes};
ghost use Rattle.std.specs.Fmt.{signed_decimal};
ghost use Rattle.std.specs.List.{list_all};
ghost use Rattle.std.specs.Option.{option_map};
ghost use Rattle.vx_data.specs.Texts.{is_quote_plain, quoted, comma};
ghost use Rattle.vx_rows.specs.Rows.{rows_len, column_view, columns_view, pairs_view};
ghost use Rattle.vx_rows.specs.ValueTexts.{optional, bool_text, value_text, fields_text, lines_text};

use crate::value_reading::is_plain;
use crate::{Column, Columns};
use itoa::Buffer;
use std::alloc::{AllocError, Global};
use vx_data::quote;

/// Adds a truth value, or `~`.
fn push_bool(text: &mut String, value: Option<bool>) -> Result<(), AllocError>
    ensures { OnOk result (string_bytes text.new ≡ string_bytes text.old ++ optional bool_text value) }
{
    match value {
        None => text.push_str("~"),
        Some(true) => text.push_str("true"),
        Some(false) => text.push_str("false"),
    }
}

/// Adds a decimal number, or `~`.
fn push_number(text: &mut String, value: Option<i128>) -> Result<(), AllocError>
    ensures { OnOk result (string_bytes text.new ≡ string_bytes text.old ++ optional signed_decimal value) }
{
    match value {
        None => text.push_str("~"),
        Some(number) => {
            let mut buffer = Buffer::new();
            text.push_str(buffer.format(number))
        }
    }
}

/// Whether each byte stands for itself in quoted text.
#[tactic(auto, using(crate::proofs::PrintedLemmas::plain_texts))]
fn are_plain(bytes: &[u8]) -> bool
    ensures { result ≡ list_all is_quote_plain bytes.now }
{
    for byte in bytes {
        if !is_plain(*byte) {
            return false;
        }
    }
    true
}

/// Adds quoted text.
#[tactic(auto, using(crate::proofs::PrintedLemmas::quoted_plain))]
fn push_quoted(alloc: Global, text: &mut String, value: &str) -> Result<(), AllocError>
    ensures { OnOk result (string_bytes text.new ≡ string_bytes text.old ++ quoted value.now) }
{
    if value.is_empty() {
        return text.push_str("%");
    }
    if are_plain(value.as_bytes()) {
        return text.push_str(value);
    }
    let spelled = quote(alloc, value)?;
    text.push_str(spelled.as_str())
}

/// Adds quoted text, or `~`.
fn push_text(alloc: Global, text: &mut String, value: Option<&str>) -> Result<(), AllocError>
    ensures { OnOk result (string_bytes text.new ≡ string_bytes text.old ++ optional quoted (option_map (λ v. v.now) value.entry)) }
{
    match value {
        None => text.push_str("~"),
        Some(value) => push_quoted(alloc, text, value),
    }
}

/// Adds what stands before a field.
fn push_comma(text: &mut String, is_first: bool) -> Result<(), AllocError>
    ensures { OnOk result (string_bytes text.new ≡ string_bytes text.old ++ comma is_first) }
{
    if is_first {
        return Ok(());
    }
    text.push_str(",")
}

/// Adds the values of fields at a row.
#[cycle(printing)]
#[tactic(auto, using(crate::proofs::PrintedLemmas::next_text))]
fn push_all(
    alloc: Global,
    text: &mut String,
    columns: &[(String, Column)],
    row: usize,
) -> Result<(), AllocError>
    ensures { OnOk result (string_bytes text.new ≡ string_bytes text.old ++ fields_text true (pairs_view columns.now) row) }
{
    let mut is_first = true;
    for at in 0..columns.len() {
        let column = &columns[at];
        push_comma(text, is_first)?;
        push_value(alloc, text, &column.1, row)?;
        is_first = false;
    }
    Ok(())
}

#[cycle(printing)]
fn push_fields(
    alloc: Global,
    text: &mut String,
    columns: &Columns,
    row: usize,
) -> Result<(), AllocError>
    ensures { OnOk result (string_bytes text.new ≡ string_bytes text.old ++ fields_text true (columns_view columns.now) row) }
{
    push_all(alloc, text, &columns.columns, row)
}

/// Adds the value of a column at a row.
#[cycle(printing)]
fn push_value(
    alloc: Global,
    text: &mut String,
    column: &Column,
    row: usize,
) -> Result<(), AllocError>
    ensures { OnOk result (string_bytes text.new ≡ string_bytes text.old ++ value_text (column_view column.now) row) }
{
    match column {
        Column::Bool(values) => push_bool(text, values.get(row)),
        Column::Int(values) => push_number(text, values.get(row)),
        Column::Text(values) => push_text(alloc, text, values.get(row)),
        Column::Struct(rows, columns) => {
            if !rows.has(row) {
                return text.push_str("~");
            }
            text.push_str("(")?;
            push_fields(alloc, text, columns, row)?;
            text.push_str(")")
        }
    }
}

/// The text of a row: `~` where it is null, `true`, a decimal number, quoted text, or `(`, the fields with `,`
/// between, and `)`. Only memory refuses.
pub fn row_text(alloc: Global, column: &Column, row: usize) -> Result<String, AllocError>
    requires { row < rows_len (column_view column.now) }
    ensures { IfOk result (λ text. string_bytes text ≡ value_text (column_view column.now) row) }
{
    let mut text = String::new(alloc);
    push_value(alloc, &mut text, column, row)?;
    Ok(text)
}

/// Adds the text of each row and a line feed behind it. Only memory refuses; then a part may have been added.
#[tactic(auto, using(crate::proofs::PrintedLemmas::next_line))]
pub fn push_rows(alloc: Global, text: &mut String, column: &Column) -> Result<(), AllocError>
    ensures { OnOk result (string_bytes text.new ≡ string_bytes text.old ++ lines_text (column_view column.now)) }
{
    for row in 0..column.len() {
        push_value(alloc, text, column, row)?;
        text.push_str("\n")?;
    }
    Ok(())
}
