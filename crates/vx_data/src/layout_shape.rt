//! What the children of a layout must be.
ghost use Rattle.std.specs.Arc.{arc_value};
ghost use Rattle.std.specs.Prelude.{◌≡◌, ◌==◌, ◌≤◌, ◌<◌, ◌++◌, [], IfOk, OnOk, ℕ, length, map, slice_get, Some};
ghost use Rattle.std.specs.List.{list_all};
ghost use Rattle.std.specs.Option.{option_map};
ghost use Rattle.vx_data.specs.Dtype.{dtype_view, pairs_view};
ghost use Rattle.vx_data.specs.Layout.{numbers_of, dtype_of, rows_of, rows_sum, dtypes_of, validity as validity_of, child_dtypes, has_shape as shape_holds};
ghost use Rattle.vx_data.specs.LayoutParts.{kind_in, segments_in, below_in};
ghost use Rattle.vx_data.specs.LayoutTable.{ids_in, dtypes_for as dtypes_by};
ghost use Rattle.vx_data.specs.LayoutFound.{owned_dtype, dtypes_asked, are_as_many, one_of, shaped_in, AskedFit};

use crate::layout::Parts;
use crate::segment_ids::SegmentIds;
use crate::{DType, Layout, LayoutKind};
use std::alloc::{AllocError, Global};
use std::sync::Arc;
use vx_base::SegmentId;

/// Adds the types of fields.
pub(crate) fn push_dtypes(
    alloc: Global,
    dtypes: &mut Vec<DType>,
    fields: &[(String, DType)],
) -> Result<(), AllocError>
    ensures { OnOk result (map dtype_view dtypes.new.items ≡ map dtype_view dtypes.old.items ++ dtypes_of (pairs_view fields.now)) }
{
    for at in 0..fields.len() {
        dtypes.push(fields[at].1.share(alloc)?)?;
    }
    Ok(())
}

/// Whether so many children are one for each field, behind one that tells which rows are there where rows may
/// be null.
fn has_fields(fields: &[(String, DType)], nullable: bool, count: usize) -> bool
    ensures { result ≡ (count == length (validity_of nullable ++ dtypes_of (pairs_view fields.now))) }
{
    if !nullable {
        return count == fields.len();
    }
    count > 0 && count - 1 == fields.len()
}

/// Whether a struct's layout has so many children.
fn struct_count(dtype: &DType, count: usize) -> bool
    ensures { result ≡ are_as_many (child_dtypes LayoutKind.Struct (dtype_view dtype.now) count) count }
{
    match dtype {
        DType::Struct(fields, nullable) => has_fields(fields.as_slice(), *nullable, count),
        DType::Bool(_) | DType::Int(_, _) | DType::Text(_) => false,
    }
}

/// Whether a layout of this kind and type has so many children.
#[tactic(auto, using(crate::proofs::Asked::chunk_counts))]
fn fits_count(kind: Option<LayoutKind>, dtype: &DType, count: usize) -> bool
    ensures { result ≡ are_as_many (dtypes_by kind (dtype_view dtype.now) count) count }
{
    match kind {
        Some(LayoutKind::Flat) => count == 0,
        Some(LayoutKind::Chunked) => true,
        Some(LayoutKind::Struct) => struct_count(dtype, count),
        None => false,
    }
}

/// The same, where the type is there.
pub(crate) fn has_as_many(
    kind: Option<LayoutKind>,
    dtype: &Option<Arc<DType, Global>>,
    count: usize,
) -> bool
    ensures { result ≡ are_as_many (dtypes_asked kind (owned_dtype dtype.now) count) count }
{
    match dtype {
        Some(dtype) => fits_count(kind, dtype, count),
        None => false,
    }
}

/// The type of a field, where there is one.
#[tactic(auto, using(crate::proofs::Asked::field_steps))]
fn field_dtype(
    alloc: Global,
    fields: &[(String, DType)],
    at: usize,
) -> Result<Option<Arc<DType, Global>>, AllocError>
    ensures { IfOk result (λ child. owned_dtype child ≡ slice_get (dtypes_of (pairs_view fields.now)) at) }
{
    if at < fields.len() {
        return Ok(Some(Arc::new(alloc, fields[at].1.share(alloc)?)?));
    }
    Ok(None)
}

/// The type of a child of a struct of these fields, where there is one.
#[tactic(auto, using(crate::proofs::Asked::behind_validity))]
fn among_fields(
    alloc: Global,
    fields: &[(String, DType)],
    nullable: bool,
    at: usize,
) -> Result<Option<Arc<DType, Global>>, AllocError>
    ensures { IfOk result (λ child. owned_dtype child ≡ slice_get (validity_of nullable ++ dtypes_of (pairs_view fields.now)) at) }
{
    if !nullable {
        return field_dtype(alloc, fields, at);
    }
    if at == 0 {
        return Ok(Some(Arc::new(alloc, DType::Bool(false))?));
    }
    field_dtype(alloc, fields, at - 1)
}

/// The type of a child of a struct, where there is one.
fn struct_child(
    alloc: Global,
    dtype: &DType,
    at: usize,
) -> Result<Option<Arc<DType, Global>>, AllocError>
    ensures { (count : ℕ) → IfOk result (λ child. owned_dtype child ≡ one_of (child_dtypes LayoutKind.Struct (dtype_view dtype.now) count) at) }
{
    match dtype {
        DType::Struct(fields, nullable) => among_fields(alloc, fields.as_slice(), *nullable, at),
        DType::Bool(_) | DType::Int(_, _) | DType::Text(_) => Ok(None),
    }
}

/// The type of a child of a layout of this kind and type, where there is one. Chunks share it.
#[tactic(auto, using(crate::proofs::Asked::chunk_steps))]
fn child_by(
    alloc: Global,
    kind: Option<LayoutKind>,
    dtype: &Arc<DType, Global>,
    at: usize,
) -> Result<Option<Arc<DType, Global>>, AllocError>
    ensures { (count : ℕ) → at < count → IfOk result (λ child. owned_dtype child
        ≡ one_of (dtypes_by kind (dtype_view (arc_value dtype.now)) count) at) }
{
    match kind {
        Some(LayoutKind::Chunked) => Ok(Some(Arc::try_clone(dtype)?)),
        Some(LayoutKind::Struct) => struct_child(alloc, dtype, at),
        Some(LayoutKind::Flat) | None => Ok(None),
    }
}

/// The same, where the type is there.
pub(crate) fn child_dtype(
    alloc: Global,
    kind: Option<LayoutKind>,
    dtype: &Option<Arc<DType, Global>>,
    at: usize,
) -> Result<Option<Arc<DType, Global>>, AllocError>
    ensures { (count : ℕ) → at < count → IfOk result (λ child. owned_dtype child
        ≡ one_of (dtypes_asked kind (owned_dtype dtype.now) count) at) }
{
    match dtype {
        Some(dtype) => child_by(alloc, kind, dtype, at),
        None => Ok(None),
    }
}

/// Whether the children's rows are this many.
fn is_sum(row_count: u64, children: &[Layout]) -> bool
    ensures { result ≡ (row_count == rows_sum children.now) }
{
    let mut left = row_count;
    for child in children {
        match left.checked_sub(child.row_count()) {
            Some(rest) => left = rest,
            None => return false,
        }
    }
    left == 0
}

/// Whether each child has this many rows.
fn all_have(row_count: u64, children: &[Layout]) -> bool
    ensures { result ≡ list_all (λ t. row_count == rows_of t) children.now }
{
    children.iter().all(|child| row_count == child.row_count())
}

/// Whether a layout of these parts has the rows and segments of its kind.
#[tactic(auto, using(crate::proofs::Lengths::lengths))]
fn has_shape(kind: LayoutKind, row_count: u64, segments: &[SegmentId], children: &[Layout]) -> bool
    ensures { result ≡ shape_holds kind row_count (numbers_of segments.now) children.now }
{
    match kind {
        LayoutKind::Flat => segments.len() == 1,
        LayoutKind::Chunked => segments.is_empty() && is_sum(row_count, children),
        LayoutKind::Struct => segments.is_empty() && all_have(row_count, children),
    }
}

/// The parts of a layout of this kind. Only memory refuses.
#[tactic(auto, using(crate::proofs::Shapes::only_segment))]
fn parts_of(
    alloc: Global,
    kind: LayoutKind,
    segments: &[SegmentId],
    children: Vec<Layout>,
) -> Result<Parts, AllocError>
    requires flat { kind ≡ LayoutKind.Flat → (length segments.now ≡ 1) × (children.items ≡ []) }
    requires others { (kind ≡ LayoutKind.Flat → ⊥) → segments.now ≡ [] }
    ensures kind { IfOk result (λ parts. kind_in parts ≡ kind) }
    ensures segments { IfOk result (λ parts. segments_in parts ≡ numbers_of segments.now) }
    ensures below { IfOk result (λ parts. below_in parts ≡ children.items) }
{
    match kind {
        LayoutKind::Flat => Ok(Parts::Flat(segments[0])),
        LayoutKind::Chunked => Ok(Parts::Chunked(Arc::new(alloc, children)?)),
        LayoutKind::Struct => Ok(Parts::Struct(Arc::new(alloc, children)?)),
    }
}

/// The layout of these parts, where it has the rows and segments of its kind.
fn shaped_by(
    alloc: Global,
    kind: LayoutKind,
    dtype: Arc<DType, Global>,
    row_count: u64,
    segments: &[SegmentId],
    children: Vec<Layout>,
) -> Result<Option<Layout>, AllocError>
    requires { child_dtypes kind (dtype_view (arc_value dtype)) (length children.items) ≡ Some (map dtype_of children.items) }
    ensures { IfOk result (λ layout. layout
        ≡ shaped_in (Some kind) (Some (dtype_view (arc_value dtype))) row_count (numbers_of segments.now) (Some children.items)) }
{
    if !has_shape(kind, row_count, segments, &children) {
        return Ok(None);
    }
    let parts = parts_of(alloc, kind, segments, children)?;
    Ok(Some(Layout::made(dtype, row_count, parts)))
}

/// The same, where all parts are there.
pub(crate) fn shaped(
    alloc: Global,
    kind: Option<LayoutKind>,
    dtype: Option<Arc<DType, Global>>,
    row_count: u64,
    segments: SegmentIds,
    children: Option<Vec<Layout>>,
) -> Result<Option<Layout>, AllocError>
    requires { AskedFit kind (owned_dtype dtype) (option_map (λ v. v.items) children) }
    ensures { IfOk result (λ layout. layout
        ≡ shaped_in kind (owned_dtype dtype) row_count (numbers_of (ids_in segments)) (option_map (λ v. v.items) children)) }
{
    match (kind, dtype, children) {
        (Some(kind), Some(dtype), Some(children)) => {
            shaped_by(alloc, kind, dtype, row_count, segments.as_slice(), children)
        }
        _ => Ok(None),
    }
}
