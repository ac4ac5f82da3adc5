//! What the children of a layout hold.
ghost use Rattle.std.specs.Prelude.{◌≡◌, ◌<◌, ◌^◌, ◌++◌, IfOk, OnOk, map};
ghost use Rattle.vx_data.specs.Dtype.{dtype_view, pairs_view};
ghost use Rattle.vx_data.specs.Layout.{layouts_of, rows_sum};
ghost use Rattle.vx_data.specs.ChildTypes.{child_view, chunk_types as chunks_from, field_types, struct_types as struct_by, validity_types, child_types as types_of};

use crate::{DType, Layout, LayoutKind};
use std::alloc::{AllocError, Global};

/// What a child of a layout holds.
#[derive(Debug, Drop)]
pub enum LayoutChildType {
    /// The rows of a field.
    Field(String),
    /// Some of the rows, from the first one on.
    Chunk { index: usize, first_row: u64 },
    /// Which rows are there.
    Validity,
}

/// What chunks hold.
#[tactic(auto, using(crate::proofs::Children::next_chunk))]
fn chunk_types(alloc: Global, children: &[Layout]) -> Result<Vec<LayoutChildType>, AllocError>
    requires { rows_sum children.now < 2 ^ 64 }
    ensures { IfOk result (λ types. map child_view types.items ≡ chunks_from 0 0 (layouts_of children.now)) }
{
    let mut types = Vec::new(alloc);
    let mut first_row = 0;
    for index in 0..children.len() {
        types.push(LayoutChildType::Chunk { index, first_row })?;
        first_row += children[index].row_count();
    }
    Ok(types)
}

/// What stands before the fields, where rows may be null.
fn validity_type(alloc: Global, nullable: bool) -> Result<Vec<LayoutChildType>, AllocError>
    ensures { IfOk result (λ types. map child_view types.items ≡ validity_types nullable) }
{
    if nullable {
        return Ok(vec![in alloc; LayoutChildType::Validity]?);
    }
    Ok(Vec::new(alloc))
}

/// Adds what the fields hold.
fn push_fields(
    types: &mut Vec<LayoutChildType>,
    fields: &[(String, DType)],
) -> Result<(), AllocError>
    ensures { OnOk result (map child_view types.new.items ≡ map child_view types.old.items ++ field_types (pairs_view fields.now)) }
{
    for at in 0..fields.len() {
        let field = &fields[at];
        types.push(LayoutChildType::Field(field.0.clone()?))?;
    }
    Ok(())
}

/// What the children of a struct hold.
fn struct_types(alloc: Global, dtype: &DType) -> Result<Vec<LayoutChildType>, AllocError>
    ensures { IfOk result (λ types. map child_view types.items ≡ struct_by (dtype_view dtype.now)) }
{
    match dtype {
        DType::Struct(fields, nullable) => {
            let mut types = validity_type(alloc, *nullable)?;
            push_fields(&mut types, fields.as_slice())?;
            Ok(types)
        }
        DType::Bool(_) | DType::Int(_, _) | DType::Text(_) => Ok(Vec::new(alloc)),
    }
}

impl Layout {
    /// What the children hold, one for each child in order.
    pub fn child_types(&self, alloc: Global) -> Result<Vec<LayoutChildType>, AllocError>
        ensures { IfOk result (λ types. map child_view types.items ≡ types_of self.now) }
    {
        match self.kind() {
            LayoutKind::Flat => Ok(Vec::new(alloc)),
            LayoutKind::Chunked => Ok(chunk_types(alloc, self.chunks())?),
            LayoutKind::Struct => Ok(struct_types(alloc, self.dtype())?),
        }
    }
}
