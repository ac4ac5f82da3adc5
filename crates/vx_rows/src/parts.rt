//! Parts of columns.
ghost use Rattle.std.specs.Prelude.{◌≡◌, ◌≤◌, [], List, Bool, true, length, slice_range, unwrap_or, IfOk, IfSome};
ghost use Rattle.std.specs.Option.{option_map};
ghost use Rattle.std.specs.List.{list_all};
ghost use Rattle.vx_rows.specs.Span.{span};
ghost use Rattle.vx_rows.specs.Bits.{present_at};
ghost use Rattle.vx_rows.specs.Rows.{column_view, columns_view, pairs_view};
ghost use Rattle.vx_rows.specs.Parts.{part, field_parts, is_struct, presence_of};

use crate::int_column::has_value;
use crate::{Bits, Column, Columns};
use std::alloc::{AllocError, Global};

/// Which rows of a part have a value. Only memory refuses.
pub fn part_of(
    alloc: Global,
    present: &Option<Bits>,
    from: usize,
    to: usize,
) -> Result<Option<Bits>, AllocError>
    requires ordered { from ≤ to }
    requires inside { IfSome present.now (λ bits. to ≤ length bits) }
    ensures { IfOk result (λ part. part ≡ option_map (λ (bits : List Bool). slice_range bits from to) present.now) }
{
    match present {
        None => Ok(None),
        Some(bits) => Ok(Some(bits.part(alloc, from, to)?)),
    }
}

/// Whether each row has a value.
pub fn are_all_present(present: &Option<Bits>) -> bool
    ensures { result ≡ list_all (λ b. b) (unwrap_or present.now []) }
{
    match present {
        None => true,
        Some(bits) => bits.are_all(),
    }
}

/// Which of so many rows have a value. Only memory refuses.
#[tactic(auto, using(crate::proofs::SpanLemmas::span_push, crate::proofs::MakingLemmas::all_there))]
pub fn flags_of(alloc: Global, present: &Option<Bits>, rows: usize) -> Result<Vec<bool>, AllocError>
    requires { IfSome present.now (λ bits. length bits ≡ rows) }
    ensures { IfOk result (λ flags. flags.items ≡ span (present_at present.now) 0 rows) }
{
    if present.is_none() {
        return vec![in alloc; true; rows];
    }
    let mut flags = Vec::with_capacity(alloc, rows)?;
    for row in 0..rows {
        flags.push(has_value(present, row))?;
    }
    Ok(flags)
}

/// The parts of fields.
#[cycle(cutting)]
fn cut_all(
    alloc: Global,
    columns: &[(String, Column)],
    from: usize,
    to: usize,
) -> Result<Vec<(String, Column)>, AllocError>
    requires { from ≤ to }
    ensures { IfOk result (λ parts. pairs_view parts.items ≡ field_parts from to (pairs_view columns.now)) }
{
    let mut parts = Vec::new(alloc);
    for at in 0..columns.len() {
        let column = &columns[at];
        parts.push((column.0.clone()?, cut(alloc, &column.1, from, to)?))?;
    }
    Ok(parts)
}

/// The parts of a struct's fields.
#[cycle(cutting)]
fn cut_fields(
    alloc: Global,
    columns: &Columns,
    from: usize,
    to: usize,
) -> Result<Columns, AllocError>
    requires { from ≤ to }
    ensures { IfOk result (λ parts. columns_view parts ≡ field_parts from to (columns_view columns.now)) }
{
    Ok(Columns::new(cut_all(alloc, &columns.columns, from, to)?))
}

/// The part of a column.
#[cycle(cutting)]
fn cut(alloc: Global, column: &Column, from: usize, to: usize) -> Result<Column, AllocError>
    requires { from ≤ to }
    ensures { IfOk result (λ part_of_it. column_view part_of_it ≡ part from to (column_view column.now)) }
{
    let end = to.min(column.len());
    let start = from.min(end);
    match column {
        Column::Bool(column) => Ok(Column::Bool(column.part(alloc, start, end)?)),
        Column::Int(column) => Ok(Column::Int(column.part(alloc, start, end)?)),
        Column::Text(column) => Ok(Column::Text(column.part(alloc, start, end)?)),
        Column::Struct(rows, columns) => {
            let structs = rows.part(alloc, start, end)?;
            Ok(Column::Struct(structs, cut_fields(alloc, columns, from, to)?))
        }
    }
}

impl Column {
    /// The rows from one on, up to another, as far as there are any. Values are shared, not copied. Only memory
    /// refuses.
    pub fn part(&self, alloc: Global, from: usize, to: usize) -> Result<Column, AllocError>
        requires { from ≤ to }
        ensures { IfOk result (λ column. column_view column ≡ part from to (column_view self.now)) }
    {
        Ok(cut(alloc, self, from, to)?)
    }

    /// Which structs of a column of structs are not null, as truth values. Only memory refuses.
    pub fn presence(&self, alloc: Global) -> Result<Column, AllocError>
        requires { is_struct (column_view self.now) ≡ true }
        ensures { IfOk result (λ column. column_view column ≡ presence_of (column_view self.now)) }
    {
        match self {
            Column::Struct(rows, _) => Ok(Column::Bool(rows.presence(alloc)?)),
            _ => unreachable!(),
        }
    }
}
