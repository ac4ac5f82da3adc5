//! The least and the greatest value of the rows of a column, and how many of them are null.
ghost use Rattle.std.specs.Prelude.{◌≡◌, ◌+◌, ◌<◌, ◌≤◌, length, slice_index_or, not, is_some, if◌then◌else◌, Some, None, IfOk, map};
ghost use Rattle.std.specs.Option.{option_map};
ghost use Rattle.std.specs.Ordering.{bool_cmp, int_cmp, flip_args};
ghost use Rattle.vx_data.specs.Scalar.{scalar_view, flag, number, words};
ghost use Rattle.vx_rows.specs.Keys.{of_key};
ghost use Rattle.vx_rows.specs.Rows.{bools, ints, texts, structs, rows_len, column_view, columns_view};
ghost use Rattle.vx_rows.specs.Span.{span};
ghost use Rattle.vx_rows.specs.Columns.{value_place, int_row, text_row, AreRanges, AreTexts};
ghost use Rattle.vx_rows.specs.RowStats.{lesser as lesser_one, lesser_of, greater_of, masked, there, text_cmp, value_cmp, summary, summary_by};

use crate::int_column::{plain_key, value_of_key};
use crate::text_column::plain_text;
use crate::text_ends::{TextEnds, greatest_text, least_text, with_text};
use crate::{BoolColumn, Column, Columns, IntColumn, Mask, StructRows, TextColumn};
use std::alloc::{AllocError, Global};
use std::cmp::Ordering;
use std::marker::Model;
use vx_data::{PType, Scalar};

/// The least and the greatest value of rows, and how many rows are null.
#[derive(Drop)]
pub struct Extent {
    pub min: Option<Scalar>,
    pub max: Option<Scalar>,
    pub nulls: u64,
}

impl Model for Extent {
    ghost use Rattle.std.specs.Option.{option_map};
    ghost use Rattle.vx_data.specs.Scalar.{scalar_view};
    ghost use Rattle.vx_rows.specs.RowStats.{Summary};

    ghost Value = { Summary };

    ghost view = { λ e. record { min = option_map scalar_view e.min; max = option_map scalar_view e.max; nulls = e.nulls } };
}

// ---- the lesser and the greater of two values

#[inline(always)]
fn lesser_flag(a: Option<bool>, b: Option<bool>) -> Option<bool>
    ensures { result ≡ lesser_of bool_cmp a b }
{
    let (Some(first), Some(second)) = (a, b) else {
        return a.or(b);
    };
    if first && !second { b } else { a }
}

#[inline(always)]
fn greater_flag(a: Option<bool>, b: Option<bool>) -> Option<bool>
    ensures { result ≡ greater_of bool_cmp a b }
{
    let (Some(first), Some(second)) = (a, b) else {
        return a.or(b);
    };
    if second && !first { b } else { a }
}

/// The least and the greatest of some integers, each as its key, which takes half the room of an i128.
#[derive(Clone, Copy)]
struct Ends {
    least: i64,
    greatest: i64,
}

/// The ends of integers and one more.
#[inline(always)]
fn widened(ends: Ends, key: i64) -> Ends
    ensures least { result.least ≡ lesser_one int_cmp ends.least key }
    ensures greatest { result.greatest ≡ lesser_one (flip_args int_cmp) ends.greatest key }
{
    let Ends { least, greatest } = ends;
    Ends {
        least: if key < least { key } else { least },
        greatest: if key > greatest { key } else { greatest },
    }
}

/// The ends of integers and of a row, which may have none. The first of them is both.
#[inline(always)]
fn with_row(ends: Option<Ends>, row: Option<i64>) -> Option<Ends>
    ensures least { option_map (λ e. e.least) result ≡ lesser_of int_cmp (option_map (λ e. e.least) ends) row }
    ensures greatest { option_map (λ e. e.greatest) result ≡ greater_of int_cmp (option_map (λ e. e.greatest) ends) row }
{
    let Some(key) = row else {
        return ends;
    };
    let Some(ends) = ends else {
        return Some(Ends {
            least: key,
            greatest: key,
        });
    };
    Some(widened(ends, key))
}

/// How two values of one kind compare; values of different kinds compare as equal.
fn compare(a: &Scalar, b: &Scalar) -> Ordering
    ensures { result ≡ value_cmp (scalar_view a.now) (scalar_view b.now) }
{
    match (a, b) {
        (Scalar::Bool(a), Scalar::Bool(b)) => a.cmp(b),
        (Scalar::Int(a), Scalar::Int(b)) => a.cmp(b),
        (Scalar::Text(a), Scalar::Text(b)) => a.as_str().cmp(b.as_str()),
        _ => Ordering::Equal,
    }
}

/// The lesser of two values, or the first where they compare as equal.
pub fn lesser(a: Option<Scalar>, b: Option<Scalar>) -> Option<Scalar>
    ensures { option_map scalar_view result ≡ lesser_of value_cmp (option_map scalar_view a) (option_map scalar_view b) }
{
    match (a, b) {
        (None, other) => other,
        (Some(first), None) => Some(first),
        (Some(first), Some(second)) => {
            if compare(&second, &first).is_lt() {
                Some(second)
            } else {
                Some(first)
            }
        }
    }
}

/// The greater of two values, or the first where they compare as equal.
pub fn greater(a: Option<Scalar>, b: Option<Scalar>) -> Option<Scalar>
    ensures { option_map scalar_view result ≡ greater_of value_cmp (option_map scalar_view a) (option_map scalar_view b) }
{
    match (a, b) {
        (None, other) => other,
        (Some(first), None) => Some(first),
        (Some(first), Some(second)) => {
            if compare(&first, &second).is_lt() {
                Some(second)
            } else {
                Some(first)
            }
        }
    }
}

// ---- the rows of a column

/// 1 for a row that is null.
#[inline(always)]
fn null_of<T: Copy>(row: Option<T>) -> u64
    ensures { result ≡ (if not (is_some row) then 1 else 0) }
{
    match row {
        Some(_) => 0,
        None => 1,
    }
}

fn one_if(is_null: bool) -> u64
    ensures { result ≡ (if is_null then 1 else 0) }
{
    if is_null { 1 } else { 0 }
}

fn as_flag(value: Option<bool>) -> Option<Scalar>
    ensures { option_map scalar_view result ≡ option_map flag value }
{
    match value {
        Some(value) => Some(Scalar::Bool(value)),
        None => None,
    }
}

/// What the ends of integers of a type tell, where so many rows are null.
fn told_by_keys(ptype: PType, ends: Ends, nulls: u64) -> Extent
    ensures { result ≡ record {
      min = Some (number (of_key ptype ends.least));
      max = Some (number (of_key ptype ends.greatest));
      nulls = nulls;
    } }
{
    Extent {
        min: Some(Scalar::Int(value_of_key(ptype, ends.least))),
        max: Some(Scalar::Int(value_of_key(ptype, ends.greatest))),
        nulls,
    }
}

/// The same where there may be no integer.
fn told_by_numbers(ptype: PType, ends: Option<Ends>, nulls: u64) -> Extent
    ensures { result ≡ record {
      min = option_map number (option_map (of_key ptype) (option_map (λ e. e.least) ends));
      max = option_map number (option_map (of_key ptype) (option_map (λ e. e.greatest) ends));
      nulls = nulls;
    } }
{
    let Some(ends) = ends else {
        return Extent {
            min: None,
            max: None,
            nulls,
        };
    };
    told_by_keys(ptype, ends, nulls)
}

#[inline(always)]
#[tactic(auto, using(crate::proofs::ExtentLemmas::masked_at))]
fn flag_at(column: &BoolColumn, present: &Mask, row: usize) -> Option<bool>
    requires long { length present.now ≡ length column.now.rows }
    requires inside { row < length column.now.rows }
    ensures { result ≡ slice_index_or (masked present.now column.now.rows) row None }
{
    if present.get(row) {
        column.get(row)
    } else {
        None
    }
}

/// The key of a row, or none where it is null or not present.
#[inline(always)]
#[tactic(auto, using(crate::proofs::ExtentLemmas::masked_at))]
fn key_of_row(ptype: PType, column: &IntColumn, present: &Mask, row: usize) -> Option<i64>
    requires typed { column.now.ptype ≡ ptype }
    requires long { length present.now ≡ length column.now.rows }
    requires inside { row < length column.now.rows }
    ensures { option_map (of_key ptype) result ≡ slice_index_or (masked present.now column.now.rows) row None }
{
    if present.get(row) {
        column.key_of(ptype, row)
    } else {
        None
    }
}

#[inline(always)]
#[tactic(auto, using(crate::proofs::ExtentLemmas::masked_at))]
fn text_at<'a>(column: &'a TextColumn, present: &Mask, row: usize) -> Option<&'a str>
    requires long { length present.now ≡ length column.now.rows }
    requires inside { row < length column.now.rows }
    ensures { option_map (λ v. v.now) result ≡ slice_index_or (masked present.now column.now.rows) row None }
{
    if present.get(row) {
        column.get(row)
    } else {
        None
    }
}

#[tactic(auto, using(crate::proofs::ExtentLemmas::struct_nulls))]
fn is_null_at(rows: &StructRows, present: &Mask, row: usize) -> bool
    requires long { length present.now ≡ length rows.now.present }
    requires inside { row < length rows.now.present }
    ensures { result ≡ not (is_some (slice_index_or (masked present.now (map there rows.now.present)) row None)) }
{
    if !present.get(row) {
        return true;
    }
    !rows.is_present(row)
}

/// Truth values.
fn extent_of_flags(column: &BoolColumn, present: &Mask) -> Extent
    requires { length present.now ≡ length column.now.rows }
    ensures { result ≡ summary present.now (bools column.now) }
{
    let mut min = None;
    let mut max = None;
    let mut nulls = 0;
    for row in 0..column.len() {
        let value = flag_at(column, present, row);
        min = lesser_flag(min, value);
        max = greater_flag(max, value);
        nulls += null_of(value);
    }
    Extent {
        min: as_flag(min),
        max: as_flag(max),
        nulls,
    }
}

/// Integers of a type, of which none is null.
#[inline(always)]
fn extent_of_plain(ptype: PType, bytes: &[u8], at: usize, count: usize) -> Extent
    requires { value_place ptype at count ≤ length bytes.now }
    ensures { result ≡ summary_by number int_cmp (span (int_row ptype None bytes.now at) 0 count) }
{
    if count == 0 {
        return told_by_numbers(ptype, None, 0);
    }
    let first = plain_key(ptype, bytes, at, count, 0);
    let mut ends = Ends {
        least: first,
        greatest: first,
    };
    for row in 1..count {
        ends = widened(ends, plain_key(ptype, bytes, at, count, row));
    }
    told_by_keys(ptype, ends, 0)
}

/// Integers of a type, of which some may be null or not present.
#[inline(always)]
fn extent_of_nullable(ptype: PType, column: &IntColumn, present: &Mask) -> Extent
    requires typed { column.now.ptype ≡ ptype }
    requires long { length present.now ≡ length column.now.rows }
    ensures { result ≡ summary present.now (ints column.now) }
{
    let mut ends = None;
    let mut nulls = 0;
    for row in 0..column.len() {
        let key = key_of_row(ptype, column, present, row);
        ends = with_row(ends, key);
        nulls += null_of(key);
    }
    told_by_numbers(ptype, ends, nulls)
}

/// Integers of a type. Each call is compiled for its type.
#[inline(always)]
fn extent_of_kind(ptype: PType, column: &IntColumn, present: &Mask) -> Extent
    requires typed { column.now.ptype ≡ ptype }
    requires long { length present.now ≡ length column.now.rows }
    ensures { result ≡ summary present.now (ints column.now) }
{
    if !present.are_all() {
        return extent_of_nullable(ptype, column, present);
    }
    let Some((bytes, at)) = column.plain_values() else {
        return extent_of_nullable(ptype, column, present);
    };
    extent_of_plain(ptype, bytes, at, column.len())
}

/// Integers.
fn extent_of_numbers(column: &IntColumn, present: &Mask) -> Extent
    requires { length present.now ≡ length column.now.rows }
    ensures { result ≡ summary present.now (ints column.now) }
{
    match column.ptype() {
        PType::U8 => extent_of_kind(PType::U8, column, present),
        PType::U16 => extent_of_kind(PType::U16, column, present),
        PType::U32 => extent_of_kind(PType::U32, column, present),
        PType::U64 => extent_of_kind(PType::U64, column, present),
        PType::I8 => extent_of_kind(PType::I8, column, present),
        PType::I16 => extent_of_kind(PType::I16, column, present),
        PType::I32 => extent_of_kind(PType::I32, column, present),
        PType::I64 => extent_of_kind(PType::I64, column, present),
    }
}

/// A text of its own.
fn owned(alloc: Global, text: Option<&str>) -> Result<Option<Scalar>, AllocError>
    ensures { IfOk result (λ owned. option_map scalar_view owned ≡ option_map words (option_map (λ v. v.now) text.entry)) }
{
    match text {
        None => Ok(None),
        Some(text) => Ok(Some(Scalar::Text(String::from_str(alloc, text)?))),
    }
}

/// What the ends of texts tell, where so many rows are null.
fn told_by_texts(alloc: Global, ends: Option<TextEnds>, nulls: u64) -> Result<Extent, AllocError>
    ensures { IfOk result (λ extent. extent ≡ record {
      min = option_map words (option_map (λ e. e.least.text.now) ends.entry);
      max = option_map words (option_map (λ e. e.greatest.text.now) ends.entry);
      nulls = nulls;
    }) }
{
    Ok(Extent {
        min: owned(alloc, least_text(ends))?,
        max: owned(alloc, greatest_text(ends))?,
        nulls,
    })
}

/// Texts, of which none is null.
fn extent_of_plain_texts(
    alloc: Global,
    bytes: &[u8],
    places: &[u32],
    count: usize,
) -> Result<Extent, AllocError>
    requires long { length places.now ≡ count + 1 }
    requires ranges { AreRanges bytes.now places.now count }
    requires texts { AreTexts bytes.now places.now count }
    ensures { IfOk result (λ extent. extent ≡ summary_by words text_cmp (span (text_row None bytes.now places.now) 0 count)) }
{
    let mut ends = None;
    for row in 0..count {
        ends = with_text(ends, plain_text(bytes, places, count, row));
    }
    Ok(told_by_texts(alloc, ends, 0)?)
}

/// Texts, of which some may be null or not present.
fn extent_of_nullable_texts(
    alloc: Global,
    column: &TextColumn,
    present: &Mask,
) -> Result<Extent, AllocError>
    requires { length present.now ≡ length column.now.rows }
    ensures { IfOk result (λ extent. extent ≡ summary present.now (texts column.now)) }
{
    let mut ends = None;
    let mut nulls = 0;
    for row in 0..column.len() {
        let value = text_at(column, present, row);
        ends = with_text(ends, value);
        nulls += null_of(value);
    }
    Ok(told_by_texts(alloc, ends, nulls)?)
}

/// Texts.
fn extent_of_texts(alloc: Global, column: &TextColumn, present: &Mask) -> Result<Extent, AllocError>
    requires { length present.now ≡ length column.now.rows }
    ensures { IfOk result (λ extent. extent ≡ summary present.now (texts column.now)) }
{
    if !present.are_all() {
        return extent_of_nullable_texts(alloc, column, present);
    }
    let Some((bytes, places)) = column.plain_texts() else {
        return extent_of_nullable_texts(alloc, column, present);
    };
    Ok(extent_of_plain_texts(alloc, bytes, places, column.len())?)
}

/// Structs, of which none is less than another.
fn extent_of_structs(rows: &StructRows, fields: &Columns, present: &Mask) -> Extent
    requires { length present.now ≡ length rows.now.present }
    ensures { result ≡ summary present.now (structs rows.now (columns_view fields.now)) }
{
    let _ = fields;
    let mut nulls = 0;
    for row in 0..rows.len() {
        nulls += one_if(is_null_at(rows, present, row));
    }
    Extent {
        min: None,
        max: None,
        nulls,
    }
}

/// The rows of a column; a row that is not present counts as null. Only memory refuses.
pub fn extent_of(alloc: Global, column: &Column, present: &Mask) -> Result<Extent, AllocError>
    requires { length present.now ≡ rows_len (column_view column.now) }
    ensures { IfOk result (λ extent. extent ≡ summary present.now (column_view column.now)) }
{
    match column {
        Column::Bool(column) => Ok(extent_of_flags(column, present)),
        Column::Int(column) => Ok(extent_of_numbers(column, present)),
        Column::Text(column) => Ok(extent_of_texts(alloc, column, present)?),
        Column::Struct(rows, fields) => Ok(extent_of_structs(rows, fields, present)),
    }
}
