//! Literals of predicates, as words spell them.
ghost use Rattle.std.specs.Prelude.{◌≡◌};
ghost use Rattle.std.specs.Option.{option_map};
ghost use Rattle.vx_base.specs.Checks.{Gives, ◌lacking◌};
ghost use Rattle.vx_data.specs.declared.text_error.TextError.TheVariants.{BadText};
ghost use Rattle.vx_data.specs.Dtype.{dtype_view};
ghost use Rattle.vx_data.specs.Scalar.{scalar_view};
ghost use Rattle.vx_data.specs.TextsRead.{FailsToRead};
ghost use Rattle.vx_rows.specs.Rows.{column_view, texts};
ghost use Rattle.vx_prune.specs.PredicateWords.{has_line_feed as has_a_line_feed, only_value, literal_of};

use std::alloc::Global;
use vx_data::{DType, Scalar, TextError};
use vx_rows::{Column, RowsError, TextColumn, read_rows};

/// The text of the only row, or null.
fn only_text(alloc: Global, rows: &TextColumn) -> Result<Option<Scalar>, TextError>
    ensures { Gives FailsToRead (option_map scalar_view) result (BadText lacking only_value (texts rows.now)) }
{
    if rows.len() != 1 {
        return Err(TextError::BadText);
    }
    match rows.get(0) {
        Some(text) => Ok(Some(Scalar::Text(String::from_str(alloc, text)?))),
        None => Ok(None),
    }
}

/// The value of the only row, or null. A struct is no value.
fn value(alloc: Global, column: &Column) -> Result<Option<Scalar>, TextError>
    ensures { Gives FailsToRead (option_map scalar_view) result (BadText lacking only_value (column_view column.now)) }
{
    match column {
        Column::Bool(rows) if rows.len() == 1 => Ok(rows.get(0).map(Scalar::Bool)),
        Column::Int(rows) if rows.len() == 1 => Ok(rows.get(0).map(Scalar::Int)),
        Column::Text(rows) => only_text(alloc, rows),
        _ => Err(TextError::BadText),
    }
}

fn has_line_feed(text: &[u8]) -> bool
    ensures { result ≡ has_a_line_feed text.now }
{
    for byte in text {
        if *byte == b'\n' {
            return true;
        }
    }
    false
}

/// The value of a type that a word spells as one row of it, or null where a row may be.
pub(crate) fn literal(alloc: Global, dtype: &DType, word: &str) -> Result<Option<Scalar>, TextError>
    ensures { Gives FailsToRead (option_map scalar_view) result (BadText lacking literal_of (dtype_view dtype.now) word.now) }
{
    if has_line_feed(word.as_bytes()) {
        return Err(TextError::BadText);
    }
    match read_rows(alloc, dtype, word) {
        Ok(column) => value(alloc, &column),
        Err(RowsError::BadLine(_)) => Err(TextError::BadText),
        Err(RowsError::OutOfMemory) => Err(TextError::OutOfMemory),
    }
}
