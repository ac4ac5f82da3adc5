//! How many bytes each column of a file takes.
ghost use Rattle.std.specs.Prelude.{◌≡◌, Err, IfOk};
ghost use Rattle.vx_footer.specs.declared.sizes_error.SizesError.{SizesError};
ghost use Rattle.vx_data.specs.Dtype.{pairs_view};
ghost use Rattle.vx_write.specs.ColumnSizes.{column_size, field_sizes, HasColumnSizes, RefusesSizes};

use std::alloc::{AllocError, Global};
use vx_data::{DType, FieldPath};
use vx_footer::{CompressedFieldSizes, Footer, SizesError};

/// What a column takes: nothing, where no field has the name. Only memory refuses.
fn size_of(alloc: Global, sizes: &CompressedFieldSizes, name: &str) -> Result<u64, AllocError>
    ensures { IfOk result (λ size. size ≡ column_size sizes.now name.now) }
{
    let mut names = Vec::new(alloc);
    names.push(String::from_str(alloc, name)?)?;
    Ok(sizes.get(&FieldPath::new(names)).unwrap_or(0))
}

/// What the fields take, in their order. Only memory refuses.
fn sizes_of(
    alloc: Global,
    sizes: &CompressedFieldSizes,
    fields: &[(String, DType)],
) -> Result<Vec<u64>, AllocError>
    ensures { IfOk result (λ made. made.items ≡ field_sizes sizes.now (pairs_view fields.now)) }
{
    let mut made = Vec::new(alloc);
    for at in 0..fields.len() {
        made.push(size_of(alloc, sizes, fields[at].0.as_str())?)?;
    }
    Ok(made)
}

/// What the columns of a file take, in the order of the fields, or the whole, where the rows are no structs.
pub(crate) fn column_sizes(alloc: Global, footer: &Footer) -> Result<Vec<u64>, SizesError>
    ensures value { let f = footer.now.content in IfOk result (λ sizes. HasColumnSizes f.layout f.segments sizes.items) }
    ensures refused { let f = footer.now.content in (e : SizesError) → result ≡ Err e → RefusesSizes f.layout f.segments e }
{
    let sizes = footer.compressed_field_sizes(alloc)?;
    match footer.dtype() {
        DType::Struct(fields, _) => Ok(sizes_of(alloc, &sizes, fields.as_slice())?),
        DType::Bool(_) | DType::Int(_, _) | DType::Text(_) => Ok(vec![in alloc; sizes.total()]?),
    }
}
