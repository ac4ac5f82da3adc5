//! Columns that grow by parts of columns.
ghost use Rattle.std.specs.Prelude.{◌≡◌, ◌≤◌, ◌-◌, ◌^◌, ◌++◌, ℕ, min, true, IfOk, OnOk, OnErr};
ghost use Rattle.vx_data.specs.Dtype.{dtype_view};
ghost use Rattle.vx_rows.specs.Rows.{column_view, columns_view, pairs_view as columns_in, rows_len, dtype_of, types_of, structs, IsColumn, AreColumns};
ghost use Rattle.vx_rows.specs.Columns.{are_there};
ghost use Rattle.vx_rows.specs.ReadRows.{no_rows};
ghost use Rattle.vx_rows.specs.Builders.{builder_view, builders_view, pairs_view};
ghost use Rattle.vx_rows.specs.Parts.{part, field_parts, Keeps, FieldsKeep, appended, fields_appended, plain_size, fields_plain_size};

use crate::builder::{Builder, Builders, begin, finish};
use crate::flags::Flags;
use crate::plain_size::{rows_between, size_of_structs};
use crate::{Column, Columns, StructRows};
use std::alloc::{AllocError, Global};
use std::marker::Model;
use vx_data::DType;

/// The number of rows.
fn len_of(builder: &Builder) -> usize
    ensures { result ≡ rows_len (builder_view builder.now) }
{
    match builder {
        Builder::Bool(rows) => rows.len(),
        Builder::Int(rows) => rows.len(),
        Builder::Text(rows) => rows.len(),
        Builder::Struct(rows, _) => rows.len(),
    }
}

/// Adds to each field the rows of a column.
#[cycle(appending)]
fn append_all(
    alloc: Global,
    builders: &mut Vec<(String, Builder)>,
    columns: &[(String, Column)],
) -> Result<(), AllocError>
    requires typed { types_of (columns_in columns.now) ≡ types_of (pairs_view builders.old.items) }
    requires even { (n : ℕ) × AreColumns n (columns_in columns.now) }
    ensures ok { OnOk result (pairs_view builders.new.items ≡ fields_appended (pairs_view builders.old.items) (columns_in columns.now)) }
    ensures kept { FieldsKeep (pairs_view builders.old.items) (pairs_view builders.new.items) }
{
    for at in 0..builders.len() {
        let builder = &mut builders[at];
        append_to(alloc, &mut builder.1, &columns[at].1)?;
    }
    Ok(())
}

/// Adds to each field of structs the rows of a column.
#[cycle(appending)]
fn append_fields(
    alloc: Global,
    builders: &mut Builders,
    columns: &Columns,
) -> Result<(), AllocError>
    requires typed { types_of (columns_view columns.now) ≡ types_of (builders_view builders.old) }
    requires even { (n : ℕ) × AreColumns n (columns_view columns.now) }
    ensures ok { OnOk result (builders_view builders.new ≡ fields_appended (builders_view builders.old) (columns_view columns.now)) }
    ensures kept { FieldsKeep (builders_view builders.old) (builders_view builders.new) }
{
    append_all(alloc, &mut builders.builders, columns.as_slice())
}

/// Adds the rows of structs.
#[cycle(appending)]
#[tactic(auto, using(crate::proofs::KeepLemmas::structs_keep, crate::proofs::KeepLemmas::structs_same))]
fn append_structs(
    alloc: Global,
    rows: &mut Flags,
    builders: &mut Builders,
    more: &StructRows,
    columns: &Columns,
) -> Result<(), AllocError>
    requires there { are_there rows.old.nullable more.now.present ≡ true }
    requires typed { types_of (columns_view columns.now) ≡ types_of (builders_view builders.old) }
    requires even { (n : ℕ) × AreColumns n (columns_view columns.now) }
    ensures rows { OnOk result (rows.new ≡ record rows.old { present = rows.old.present ++ more.now.present }) }
    ensures fields { OnOk result (builders_view builders.new ≡ fields_appended (builders_view builders.old) (columns_view columns.now)) }
    ensures kept { Keeps (structs rows.old (builders_view builders.old)) (structs rows.new (builders_view builders.new)) }
{
    more.push_flags(rows)?;
    append_fields(alloc, builders, columns)
}

/// Adds the rows of a column. Where memory refuses, some of them may be there, and the rows before are as they were.
#[cycle(appending)]
fn append_to(alloc: Global, builder: &mut Builder, column: &Column) -> Result<(), AllocError>
    requires typed { dtype_of (column_view column.now) ≡ dtype_of (builder_view builder.old) }
    requires even { (n : ℕ) × IsColumn n (column_view column.now) }
    ensures ok { OnOk result (builder_view builder.new ≡ appended (builder_view builder.old) (column_view column.now)) }
    ensures kept { Keeps (builder_view builder.old) (builder_view builder.new) }
{
    match (builder, column) {
        (Builder::Bool(rows), Column::Bool(column)) => rows.append(column),
        (Builder::Int(rows), Column::Int(column)) => rows.append(alloc, column),
        (Builder::Text(rows), Column::Text(column)) => rows.append(alloc, column),
        (Builder::Struct(rows, builders), Column::Struct(structs, columns)) => {
            append_structs(alloc, rows, builders, structs, columns)
        }
        _ => unreachable!(),
    }
}

/// Keeps so many rows of each field.
#[cycle(truncating)]
fn truncate_all(builders: &mut Vec<(String, Builder)>, rows: usize)
    ensures { pairs_view builders.new.items ≡ field_parts 0 rows (pairs_view builders.old.items) }
{
    for at in 0..builders.len() {
        let builder = &mut builders[at];
        truncate(&mut builder.1, rows);
    }
}

/// Keeps so many rows of each field of structs.
#[cycle(truncating)]
fn truncate_fields(builders: &mut Builders, rows: usize)
    ensures { builders_view builders.new ≡ field_parts 0 rows (builders_view builders.old) }
{
    truncate_all(&mut builders.builders, rows);
}

/// Keeps so many rows.
#[cycle(truncating)]
fn truncate(builder: &mut Builder, rows: usize)
    ensures { builder_view builder.new ≡ part 0 rows (builder_view builder.old) }
{
    match builder {
        Builder::Bool(kept) => kept.truncate(rows),
        Builder::Int(kept) => kept.truncate(rows),
        Builder::Text(kept) => kept.truncate(rows),
        Builder::Struct(kept, builders) => {
            kept.truncate(rows);
            truncate_fields(builders, rows);
        }
    }
}

/// Adds the rows of a column. Only memory refuses, and then nothing changes.
#[tactic(auto, using(crate::proofs::KeepLemmas::appended_even, crate::proofs::KeepLemmas::appended_same, crate::proofs::KeepLemmas::same_even, crate::proofs::KeepLemmas::cut_back))]
fn append_whole(alloc: Global, builder: &mut Builder, column: &Column) -> Result<(), AllocError>
    requires typed { dtype_of (column_view column.now) ≡ dtype_of (builder_view builder.old) }
    requires even { (n : ℕ) × IsColumn n (column_view column.now) }
    requires old { IsColumn (rows_len (builder_view builder.old)) (builder_view builder.old) }
    ensures ok { OnOk result (builder_view builder.new ≡ appended (builder_view builder.old) (column_view column.now)) }
    ensures err { OnErr result (builder_view builder.new ≡ builder_view builder.old) }
    ensures same { dtype_of (builder_view builder.new) ≡ dtype_of (builder_view builder.old) }
    ensures even { IsColumn (rows_len (builder_view builder.new)) (builder_view builder.new) }
{
    let before = len_of(builder);
    match append_to(alloc, builder, column) {
        Ok(()) => Ok(()),
        Err(error) => {
            truncate(builder, before);
            Err(error)
        }
    }
}

/// The sum of the sizes of a part of each field.
#[cycle(weighing)]
#[tactic(auto, using(crate::proofs::FieldGrowLemmas::builder_sizes))]
fn size_of_all(builders: &[(String, Builder)], from: usize, to: usize) -> u64
    ensures { result ≡ min (fields_plain_size (field_parts from to (pairs_view builders.now))) (2 ^ 64 - 1) }
{
    let mut size: u64 = 0;
    for at in 0..builders.len() {
        size = size.saturating_add(size_between(&builders[at].1, from, to));
    }
    size
}

/// The sum of the sizes of a part of each field of structs.
#[cycle(weighing)]
fn size_of_fields(builders: &Builders, from: usize, to: usize) -> u64
    ensures { result ≡ min (fields_plain_size (field_parts from to (builders_view builders.now))) (2 ^ 64 - 1) }
{
    size_of_all(&builders.builders, from, to)
}

/// How many bytes the rows from one on, up to another, take, written plainly.
#[cycle(weighing)]
#[tactic(auto, using(crate::proofs::SizeLemmas::slice_len))]
fn size_between(builder: &Builder, from: usize, to: usize) -> u64
    ensures { result ≡ min (plain_size (part from to (builder_view builder.now))) (2 ^ 64 - 1) }
{
    match builder {
        Builder::Bool(rows) => rows.size_between(from, to),
        Builder::Int(rows) => rows.size_between(from, to),
        Builder::Text(rows) => rows.size_between(from, to),
        Builder::Struct(rows, builders) => {
            let count = rows_between(rows.len(), from, to);
            let fields = size_of_fields(builders, from, to);
            size_of_structs(rows.is_nullable(), count, fields)
        }
    }
}

/// The columns of fields.
#[cycle(copying)]
fn copy_all(
    alloc: Global,
    builders: &[(String, Builder)],
) -> Result<Vec<(String, Column)>, AllocError>
    ensures { IfOk result (λ columns. columns_in columns.items ≡ pairs_view builders.now) }
{
    let mut columns = Vec::new(alloc);
    for at in 0..builders.len() {
        let builder = &builders[at];
        columns.push((builder.0.clone()?, copy(alloc, &builder.1)?))?;
    }
    Ok(columns)
}

/// The columns of the fields of structs.
#[cycle(copying)]
fn copy_fields(alloc: Global, builders: &Builders) -> Result<Columns, AllocError>
    ensures { IfOk result (λ columns. columns_view columns ≡ builders_view builders.now) }
{
    Ok(Columns::new(copy_all(alloc, &builders.builders)?))
}

/// A column of the rows so far.
#[cycle(copying)]
fn copy(alloc: Global, builder: &Builder) -> Result<Column, AllocError>
    ensures { IfOk result (λ column. column_view column ≡ builder_view builder.now) }
{
    match builder {
        Builder::Bool(rows) => Ok(Column::Bool(rows.to_column(alloc)?)),
        Builder::Int(rows) => Ok(Column::Int(rows.to_column(alloc)?)),
        Builder::Text(rows) => Ok(Column::Text(rows.to_column(alloc)?)),
        Builder::Struct(rows, builders) => {
            let structs = rows.to_structs(alloc)?;
            Ok(Column::Struct(structs, copy_fields(alloc, builders)?))
        }
    }
}

/// A column of one type that grows by parts of columns.
#[derive(Drop)]
pub struct GrowingColumn {
    builder: Builder,
}

impl Model for GrowingColumn {
    ghost use Rattle.vx_rows.specs.Rows.{Rows, rows_len, IsColumn};
    ghost use Rattle.vx_rows.specs.RowsCode.{rows_code};
    ghost use Rattle.vx_rows.specs.Builders.{builder_view};

    ghost Value = { Rows };

    ghost coded = { rows_code };

    ghost view = { λ g. builder_view g.builder };

    ghost invariant = { λ g. IsColumn (rows_len (builder_view g.builder)) (builder_view g.builder) };
}

impl GrowingColumn {
    /// No rows of a type. Only memory refuses.
    #[tactic(auto, using(crate::proofs::KeepLemmas::new_even, crate::proofs::KeepLemmas::new_type))]
    pub fn new(alloc: Global, dtype: &DType) -> Result<GrowingColumn, AllocError>
        ensures value { IfOk result (λ growing. growing ≡ no_rows (dtype_view dtype.now)) }
        ensures typed { IfOk result (λ growing. dtype_of growing ≡ dtype_view dtype.now) }
    {
        Ok(GrowingColumn {
            builder: begin(alloc, dtype)?,
        })
    }

    /// Adds the rows of a column from one on, up to another. Only memory refuses, and then nothing changes.
    #[tactic(auto, using(crate::proofs::KeepLemmas::part_even, crate::proofs::KeepLemmas::part_typed))]
    pub fn append(
        &mut self,
        alloc: Global,
        column: &Column,
        from: usize,
        to: usize,
    ) -> Result<(), AllocError>
        requires typed { dtype_of (column_view column.now) ≡ dtype_of self.old }
        requires even { IsColumn (rows_len (column_view column.now)) (column_view column.now) }
        requires ordered { from ≤ to }
        requires inside { to ≤ rows_len (column_view column.now) }
        ensures ok { OnOk result (self.new ≡ appended self.old (part from to (column_view column.now))) }
        ensures err { OnErr result (self.new ≡ self.old) }
        ensures same { dtype_of self.new ≡ dtype_of self.old }
    {
        let more = column.part(alloc, from, to)?;
        append_whole(alloc, &mut self.builder, &more)
    }

    /// Keeps so many rows, the first ones.
    #[tactic(auto, using(crate::proofs::KeepLemmas::front_even))]
    pub fn truncate(&mut self, rows: usize)
        ensures { self.new ≡ part 0 rows self.old }
    {
        truncate(&mut self.builder, rows);
    }

    /// The number of rows.
    pub fn len(&self) -> usize
        ensures value { result ≡ rows_len self.now }
        ensures sound { IsColumn (rows_len self.now) self.now }
    {
        len_of(&self.builder)
    }

    /// How many bytes the rows take, written plainly; 2^64 - 1 where they are more.
    pub fn plain_size(&self) -> u64
        ensures { result ≡ min (plain_size self.now) (2 ^ 64 - 1) }
    {
        size_between(&self.builder, 0, self.len())
    }

    /// How many bytes the rows from one on take, written plainly; 2^64 - 1 where they are more.
    pub fn plain_size_from(&self, from: usize) -> u64
        requires { from ≤ rows_len self.now }
        ensures { result ≡ min (plain_size (part from (rows_len self.now) self.now)) (2 ^ 64 - 1) }
    {
        size_between(&self.builder, from, self.len())
    }

    /// A column of the rows so far. Only memory refuses.
    pub fn column(&self, alloc: Global) -> Result<Column, AllocError>
        ensures value { IfOk result (λ column. column_view column ≡ self.now) }
        ensures sound { IsColumn (rows_len self.now) self.now }
    {
        Ok(copy(alloc, &self.builder)?)
    }

    /// The column of the rows. No value is copied. Only memory refuses.
    pub fn finish(self, alloc: Global) -> Result<Column, AllocError>
        ensures value { IfOk result (λ column. column_view column ≡ self) }
        ensures sound { IsColumn (rows_len self) self }
    {
        Ok(finish(alloc, self.builder)?)
    }
}
