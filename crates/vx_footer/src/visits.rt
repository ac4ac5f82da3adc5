//! A walk over a layout's tree.
ghost use Rattle.std.specs.Prelude.{◌≡◌, ◌++◌, ◌∷◌, ◌<◌, [], OnOk, IfOk, None, length, map, replicate};
ghost use Rattle.vx_data.specs.Dtype.{dtype_view, pairs_view};
ghost use Rattle.vx_data.specs.Layout.{layouts_of};
ghost use Rattle.vx_data.specs.Paths.{Path};
ghost use Rattle.vx_footer.specs.FieldSizes.{paths_of, paths_below, references_of, references_below, chunk_parts, field_parts, validity_parts, struct_parts};
ghost use Rattle.vx_footer.specs.CommonPaths.{commons_after};
ghost use Rattle.vx_footer.specs.Gathering.{path_at, has_path, first_missing, Meets};

use crate::gathered::Gathered;
use std::alloc::{AllocError, Global};
use vx_data::{DType, Layout, LayoutKind};

/// The fields of a struct, and whether its rows may be null. No other type has any.
fn fields_of(dtype: &DType) -> (&[(String, DType)], bool)
    ensures { struct_parts (dtype_view dtype.now) ≡ validity_parts result.1 ++ field_parts (pairs_view result.0.now) }
{
    match dtype {
        DType::Struct(fields, nullable) => (fields.as_slice(), *nullable),
        DType::Bool(_) | DType::Int(_, _) | DType::Text(_) => (&[], false),
    }
}

/// Visits layouts that have their parent's path.
#[cycle(visiting)]
#[tactic(auto, using(crate::proofs::VisitSteps::chunk_steps))]
fn visit_chunks(
    alloc: Global,
    gathered: &mut Gathered,
    number: u32,
    children: &[Layout],
) -> Result<(), AllocError>
    requires { number < length gathered.old.paths }
    ensures { let path = path_at gathered.old.paths number in let ts = layouts_of children.now in let parts = chunk_parts ts in
        OnOk result (Meets gathered.old gathered.new (paths_below path parts ts) (references_below path parts ts)) }
{
    for at in 0..children.len() {
        visit(alloc, gathered, number, &children[at])?;
    }
    Ok(())
}

/// Visits the layouts of fields.
#[cycle(visiting)]
#[tactic(auto, using(crate::proofs::VisitSteps::field_steps))]
fn visit_fields(
    alloc: Global,
    gathered: &mut Gathered,
    number: u32,
    fields: &[(String, DType)],
    children: &[Layout],
) -> Result<(), AllocError>
    requires { number < length gathered.old.paths }
    ensures { let path = path_at gathered.old.paths number in let ts = layouts_of children.now in let parts = field_parts (pairs_view fields.now) in
        OnOk result (Meets gathered.old gathered.new (paths_below path parts ts) (references_below path parts ts)) }
{
    for at in 0..fields.len().min(children.len()) {
        let child = gathered.child(alloc, number, fields[at].0.as_str())?;
        visit(alloc, gathered, child, &children[at])?;
    }
    Ok(())
}

/// Visits a layout that tells which rows are there, and those of fields behind it.
#[cycle(visiting)]
#[tactic(auto, using(crate::proofs::VisitSteps::validity_steps))]
fn visit_nullable(
    alloc: Global,
    gathered: &mut Gathered,
    number: u32,
    fields: &[(String, DType)],
    children: &[Layout],
) -> Result<(), AllocError>
    requires { number < length gathered.old.paths }
    ensures { let path = path_at gathered.old.paths number in let ts = layouts_of children.now in let parts = [] ∷ field_parts (pairs_view fields.now) in
        OnOk result (Meets gathered.old gathered.new (paths_below path parts ts) (references_below path parts ts)) }
{
    let (validity, others) = children.split_at(children.len().min(1));
    visit_chunks(alloc, gathered, number, validity)?;
    visit_fields(alloc, gathered, number, fields, others)
}

/// Visits the layouts of a struct's rows.
#[cycle(visiting)]
fn visit_struct(
    alloc: Global,
    gathered: &mut Gathered,
    number: u32,
    dtype: &DType,
    children: &[Layout],
) -> Result<(), AllocError>
    requires { number < length gathered.old.paths }
    ensures { let path = path_at gathered.old.paths number in let ts = layouts_of children.now in let parts = struct_parts (dtype_view dtype.now) in
        OnOk result (Meets gathered.old gathered.new (paths_below path parts ts) (references_below path parts ts)) }
{
    let (fields, nullable) = fields_of(dtype);
    if nullable {
        return visit_nullable(alloc, gathered, number, fields, children);
    }
    visit_fields(alloc, gathered, number, fields, children)
}

/// Visits a layout and those below.
#[cycle(visiting)]
#[tactic(auto, using(crate::proofs::VisitSteps::node_steps))]
fn visit(
    alloc: Global,
    gathered: &mut Gathered,
    number: u32,
    layout: &Layout,
) -> Result<(), AllocError>
    requires { number < length gathered.old.paths }
    ensures { let path = path_at gathered.old.paths number in
        OnOk result (Meets gathered.old gathered.new (paths_of path layout.now) (references_of path layout.now)) }
{
    gathered.meet(number, layout.segment_ids());
    match layout.kind() {
        LayoutKind::Flat => Ok(()),
        LayoutKind::Chunked => visit_chunks(alloc, gathered, number, layout.children()),
        LayoutKind::Struct => visit_struct(
            alloc,
            gathered,
            number,
            layout.dtype(),
            layout.children(),
        ),
    }
}

/// What a walk over a tree meets, of so many segments and so many that have a number.
pub(crate) fn gathered_of(
    alloc: Global,
    layout: &Layout,
    segments: usize,
    named: usize,
) -> Result<Gathered, AllocError>
    ensures paths { IfOk result (λ g. (q : Path) → has_path g.paths q ≡ has_path (paths_of [] layout.now) q) }
    ensures commons { IfOk result (λ g. g.commons ≡ commons_after (replicate named None) (references_of [] layout.now)) }
    ensures missing { IfOk result (λ g. g.missing ≡ first_missing segments (map (λ r. r.segment) (references_of [] layout.now))) }
{
    let mut gathered = Gathered::new(alloc, segments, named)?;
    visit(alloc, &mut gathered, 0, layout)?;
    Ok(gathered)
}
