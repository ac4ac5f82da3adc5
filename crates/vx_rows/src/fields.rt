//! The rows of fields, by the names that lead to them.
ghost use Rattle.std.specs.Prelude.{◌≡◌, IfOk};
ghost use Rattle.vx_data.specs.Dtype.{dtype_view};
ghost use Rattle.vx_rows.specs.Span.{span, every};
ghost use Rattle.vx_rows.specs.Rows.{column_view, pairs_view};
ghost use Rattle.vx_rows.specs.Predicates.{path as path_of};
ghost use Rattle.vx_rows.specs.Operands.{IsValueOf};
ghost use Rattle.vx_rows.specs.Fields.{Hides, is_there, shown_and_there, nth_column, part_of, lent_column, lent_part};

use crate::cell::Cell;
use crate::operand::{Operand, is_shown};
use crate::places::place_of_field;
use crate::{Column, Mask, StructRows};
use std::alloc::{AllocError, Global};
use vx_data::{DType, FieldPath};

/// Whether each of so many structs is there.
#[tactic(auto, using(crate::proofs::SpanLemmas::every_step, crate::proofs::FieldRowLemmas::all_there))]
fn are_there(rows: &StructRows, count: usize) -> bool
    ensures { result ≡ every (is_there rows.now) 0 count }
{
    if rows.has_no_null() {
        return true;
    }
    for row in 0..count {
        if !rows.has(row) {
            return false;
        }
    }
    true
}

/// Which of so many rows are shown and there.
#[tactic(auto, using(crate::proofs::SpanLemmas::span_push))]
fn both_there(
    alloc: Global,
    shown: &Option<Mask>,
    rows: &StructRows,
    count: usize,
) -> Result<Vec<bool>, AllocError>
    ensures { IfOk result (λ bits. bits.items ≡ span (shown_and_there shown.now rows.now) 0 count) }
{
    let mut bits = Vec::with_capacity(alloc, count)?;
    for row in 0..count {
        bits.push(is_shown(shown, row) && rows.has(row))?;
    }
    Ok(bits)
}

/// Hides those of so many rows whose structs are not there.
fn hide(
    alloc: Global,
    shown: Option<Mask>,
    rows: &StructRows,
    count: usize,
) -> Result<Option<Mask>, AllocError>
    ensures { IfOk result (Hides shown rows.now count) }
{
    if are_there(rows, count) {
        return Ok(shown);
    }
    let bits = both_there(alloc, &shown, rows, count)?;
    Ok(Some(Mask::new(bits)))
}

/// The column at a place.
fn column_at(columns: &[(String, Column)], place: usize) -> Option<&Column>
    ensures { lent_column result ≡ nth_column place (pairs_view columns.now) }
{
    if place >= columns.len() {
        return None;
    }
    Some(&columns[place].1)
}

/// Of a struct, which are there, and the column of the field at a place.
fn part_at(column: &Column, place: usize) -> Option<(&StructRows, &Column)>
    ensures { lent_part result ≡ part_of place (column_view column.now) }
{
    match column {
        Column::Struct(rows, columns) => match column_at(columns.as_slice(), place) {
            None => None,
            Some(inner) => Some((rows, inner)),
        },
        Column::Bool(_) | Column::Int(_) | Column::Text(_) => None,
    }
}

/// The rows of the field that a path names; null where there is none.
pub fn field_rows<'a>(
    alloc: Global,
    path: &FieldPath,
    dtype: &DType,
    column: &'a Column,
) -> Result<Operand<'a>, AllocError>
    ensures { IfOk result (IsValueOf (path_of path.now) (dtype_view dtype.now) (column_view column.now)) }
{
    let count = column.len();
    let names = path.parts();
    let mut here = dtype;
    let mut below = column;
    let mut shown = None;
    for name in names {
        let (place, inner) = match place_of_field(here, name.as_str()) {
            None => return Ok(Operand::Value(Cell::Null)),
            Some(found) => found,
        };
        let (rows, part) = match part_at(below, place) {
            None => return Ok(Operand::Value(Cell::Null)),
            Some(found) => found,
        };
        shown = hide(alloc, shown, rows, count)?;
        below = part;
        here = inner;
    }
    Ok(Operand::Rows(below, shown))
}
