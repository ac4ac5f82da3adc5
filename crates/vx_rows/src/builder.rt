//! Columns of any type that grow row by row.
ghost use Rattle.std.specs.Prelude.{◌≡◌, IfOk, OnOk};
ghost use Rattle.vx_data.specs.Dtype.{dtype_view, fields_view, pairs_view as types_view};
ghost use Rattle.vx_rows.specs.Rows.{column_view, columns_view, pairs_view as columns_in};
ghost use Rattle.vx_rows.specs.ReadRows.{absent, all_absent, no_rows, no_rows_each};
ghost use Rattle.vx_rows.specs.Builders.{builder_view, builders_view, pairs_view};

use crate::bool_builder::BoolBuilder;
use crate::flags::Flags;
use crate::int_builder::IntBuilder;
use crate::text_builder::TextBuilder;
use crate::{Column, Columns};
use std::alloc::{AllocError, Global};
use vx_data::DType;

/// A column that grows row by row.
#[cycle(builder)]
#[derive(Drop)]
pub enum Builder {
    Bool(BoolBuilder),
    Int(IntBuilder),
    Text(TextBuilder),
    Struct(Flags, Builders),
}

/// The names and columns of a struct's fields, in order.
#[cycle(builder)]
#[derive(Drop)]
pub struct Builders {
    pub(crate) builders: Vec<(String, Builder)>,
}

impl Builders {
    fn new(builders: Vec<(String, Builder)>) -> Builders
        ensures { builders_view result ≡ pairs_view builders.items }
    {
        Builders { builders }
    }
}

/// Columns of fields, without rows.
#[cycle(beginning)]
fn begin_fields(alloc: Global, fields: &[(String, DType)]) -> Result<Builders, AllocError>
    ensures { IfOk result (λ builders. builders_view builders ≡ no_rows_each (types_view fields.now)) }
{
    let mut builders = Vec::new(alloc);
    for at in 0..fields.len() {
        let field = &fields[at];
        builders.push((field.0.clone()?, begin(alloc, &field.1)?))?;
    }
    Ok(Builders::new(builders))
}

/// A column of a type, without rows. Only memory refuses.
#[cycle(beginning)]
pub fn begin(alloc: Global, dtype: &DType) -> Result<Builder, AllocError>
    ensures { IfOk result (λ builder. builder_view builder ≡ no_rows (dtype_view dtype.now)) }
{
    match dtype {
        DType::Bool(nullable) => Ok(Builder::Bool(BoolBuilder::new(alloc, *nullable))),
        DType::Int(ptype, nullable) => Ok(Builder::Int(IntBuilder::new(alloc, *ptype, *nullable))),
        DType::Text(nullable) => Ok(Builder::Text(TextBuilder::new(alloc, *nullable)?)),
        DType::Struct(fields, nullable) => {
            let builders = begin_fields(alloc, fields.as_slice())?;
            Ok(Builder::Struct(Flags::new(alloc, *nullable), builders))
        }
    }
}

/// Adds to each field the row of a struct that is null.
#[cycle(leaving)]
fn push_all_absent(builders: &mut Vec<(String, Builder)>) -> Result<(), AllocError>
    ensures { OnOk result (pairs_view builders.new.items ≡ all_absent (pairs_view builders.old.items)) }
{
    for at in 0..builders.len() {
        let builder = &mut builders[at];
        push_absent(&mut builder.1)?;
    }
    Ok(())
}

/// Adds to each field the row of a struct that is null.
#[cycle(leaving)]
pub fn push_absent_fields(builders: &mut Builders) -> Result<(), AllocError>
    ensures { OnOk result (builders_view builders.new ≡ all_absent (builders_view builders.old)) }
{
    push_all_absent(&mut builders.builders)
}

/// Adds the row that stands in a struct that is null.
#[cycle(leaving)]
fn push_absent(builder: &mut Builder) -> Result<(), AllocError>
    ensures { OnOk result (builder_view builder.new ≡ absent (builder_view builder.old)) }
{
    match builder {
        Builder::Bool(rows) => rows.push_absent(),
        Builder::Int(rows) => rows.push_absent(),
        Builder::Text(rows) => rows.push_absent(),
        Builder::Struct(rows, builders) => {
            let may_be_null = rows.is_nullable();
            rows.push(!may_be_null)?;
            push_absent_fields(builders)
        }
    }
}

/// The columns of the rows of fields.
#[cycle(finishing)]
fn finish_all(
    alloc: Global,
    builders: Vec<(String, Builder)>,
) -> Result<Vec<(String, Column)>, AllocError>
    ensures { IfOk result (λ columns. columns_in columns.items ≡ pairs_view builders.items) }
{
    let mut columns = Vec::new(alloc);
    for (name, builder) in builders {
        columns.push((name, finish(alloc, builder)?))?;
    }
    Ok(columns)
}

/// The columns of the rows of a struct's fields.
#[cycle(finishing)]
fn finish_fields(alloc: Global, builders: Builders) -> Result<Columns, AllocError>
    ensures { IfOk result (λ columns. columns_view columns ≡ builders_view builders) }
{
    Ok(Columns::new(finish_all(alloc, builders.builders)?))
}

/// The column of the rows. Only memory refuses.
#[cycle(finishing)]
pub fn finish(alloc: Global, builder: Builder) -> Result<Column, AllocError>
    ensures { IfOk result (λ column. column_view column ≡ builder_view builder) }
{
    match builder {
        Builder::Bool(rows) => Ok(Column::Bool(rows.finish(alloc)?)),
        Builder::Int(rows) => Ok(Column::Int(rows.finish(alloc)?)),
        Builder::Text(rows) => Ok(Column::Text(rows.finish(alloc)?)),
        Builder::Struct(rows, builders) => {
            let structs = rows.to_structs(alloc)?;
            Ok(Column::Struct(structs, finish_fields(alloc, builders)?))
        }
    }
}
