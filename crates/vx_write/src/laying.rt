//! Lays out a file: a tree by the plan of its type, over the chunks that lie in it.
ghost use Rattle.std.specs.Prelude.{◌≡◌, ◌<◌, ◌≤◌, ◌^◌, ◌+◌, ◌++◌, [], IfOk, OnOk, IfSome, Some, None, is_some, length, drop, map, replicate, sum_by};
ghost use Rattle.vx_data.specs.Dtype.{dtype_view, fields_view, pairs_view, struct};
ghost use Rattle.vx_data.specs.Layout.{node, layouts_of};
ghost use Rattle.vx_data.specs.declared.layout_kind.LayoutKind.TheVariants.{Struct as StructKind};
ghost use Rattle.vx_write.specs.Plans.{plan_view, plans_view, IsFor, AreFor};
ghost use Rattle.vx_write.specs.Laying.{put_at, put_from, grouped, flat as flat_tree, leaf_layout as leaf_tree, first_group, leaf_count, leaves_count, laid_out, all_laid_out, with_validity, validity_count, AreFull};

use crate::LeafStrategy;
use crate::laid_chunk::{Laid, Numbered};
use crate::plan::Plan;
use std::alloc::{AllocError, Global};
use vx_base::{SegmentId, Sequence};
use vx_data::{DType, Fields, Layout};

/// No chunks of so many leaves.
fn no_groups(alloc: Global, leaves: usize) -> Result<Vec<Sequence<Numbered>>, AllocError>
    ensures { IfOk result (λ groups. groups.items ≡ replicate leaves []) }
{
    let mut groups = Vec::new(alloc);
    for _at in 0..leaves {
        groups.push(Sequence::new(alloc))?;
    }
    Ok(groups)
}

/// Adds a chunk to those of a leaf.
#[tactic(auto, using(crate::proofs::LayingLemmas::put_set, crate::proofs::LayingLemmas::put_past))]
fn put(groups: &mut Vec<Sequence<Numbered>>, leaf: usize, chunk: Numbered) -> Result<(), AllocError>
    ensures { OnOk result (groups.new.items ≡ put_at leaf chunk groups.old.items) }
{
    if leaf >= groups.len() {
        return Ok(());
    }
    groups[leaf].push(chunk)
}

/// The chunks of each leaf, in one pass.
#[tactic(auto, using(crate::proofs::LayingLemmas::put_next))]
pub(crate) fn group(
    alloc: Global,
    leaves: usize,
    laid: &[Laid],
) -> Result<Vec<Sequence<Numbered>>, AllocError>
    requires { length laid.now < 2 ^ 32 }
    ensures { IfOk result (λ groups. groups.items ≡ grouped leaves laid.now) }
{
    let mut groups = no_groups(alloc, leaves)?;
    for number in 0..laid.len() {
        let chunk = laid[number];
        let numbered = Numbered {
            rows: chunk.rows,
            segment: number as u32,
        };
        put(&mut groups, chunk.leaf, numbered)?;
    }
    Ok(groups)
}

/// The layout of a chunk.
fn flat(alloc: Global, dtype: &DType, chunk: Numbered) -> Result<Layout, AllocError>
    ensures { IfOk result (λ layout. layout ≡ flat_tree (dtype_view dtype.now) chunk) }
{
    Layout::flat(
        alloc,
        dtype.share(alloc)?,
        chunk.rows,
        SegmentId(chunk.segment),
    )
}

/// The layouts of chunks.
fn flats(alloc: Global, dtype: &DType, chunks: &[Numbered]) -> Result<Vec<Layout>, AllocError>
    ensures { IfOk result (λ layouts. layouts.items ≡ map (flat_tree (dtype_view dtype.now)) chunks.now) }
{
    let mut layouts = Vec::with_capacity(alloc, chunks.len())?;
    for chunk in chunks {
        layouts.push(flat(alloc, dtype, *chunk)?)?;
    }
    Ok(layouts)
}

/// The layout of a leaf: flat where it has one chunk, and chunked where it has another number of them.
#[tactic(auto, using(crate::proofs::LayingLemmas::flat_types, crate::proofs::LayingLemmas::flat_rows, crate::proofs::LayingLemmas::only_flat, crate::proofs::LayingLemmas::many_chunked))]
fn leaf_layout(alloc: Global, dtype: &DType, chunks: &[Numbered]) -> Result<Layout, AllocError>
    requires { sum_by (λ x. x.rows) chunks.now < 2 ^ 64 }
    ensures { IfOk result (λ layout. layout ≡ leaf_tree (dtype_view dtype.now) chunks.now) }
{
    if chunks.len() == 1 {
        return flat(alloc, dtype, chunks[0]);
    }
    let layouts = flats(alloc, dtype, chunks)?;
    Layout::chunked(alloc, dtype.share(alloc)?, layouts)
}

/// The chunks of the first leaf.
#[tactic(auto, using(crate::proofs::LayingLemmas::first_at))]
fn first(groups: &[Sequence<Numbered>]) -> &[Numbered]
    requires { 1 ≤ length groups.now }
    ensures { result.now ≡ first_group groups.now }
{
    groups[0].as_slice()
}

/// The chunks of the leaves behind the first ones.
fn behind(groups: &[Sequence<Numbered>], count: usize) -> &[Sequence<Numbered>]
    requires { count ≤ length groups.now }
    ensures { result.now ≡ drop count groups.now }
{
    &groups[count..]
}

/// Adds the layout of the validity column, where there is one, and says how many leaves that is.
fn push_validity(
    alloc: Global,
    children: &mut Vec<Layout>,
    validity: &Option<LeafStrategy>,
    groups: &[Sequence<Numbered>],
) -> Result<usize, AllocError>
    requires enough { validity_count validity.now ≤ length groups.now }
    requires few { sum_by (λ x. x.rows) (first_group groups.now) < 2 ^ 64 }
    ensures count { IfOk result (λ n. n ≡ validity_count validity.now) }
    ensures children { OnOk result (children.old.items ≡ [] → children.new.items ≡ with_validity validity.now groups.now []) }
{
    match validity {
        Some(_) => {
            children.push(leaf_layout(alloc, &DType::Bool(false), first(groups))?)?;
            Ok(1)
        }
        None => Ok(0),
    }
}

/// Adds the layouts of fields, and says how many leaves they have.
#[cycle(laying)]
#[tactic(auto, using(crate::proofs::LayingTurns::field_steps))]
fn push_fields(
    alloc: Global,
    children: &mut Vec<Layout>,
    plans: &[Plan],
    fields: &[(String, DType)],
    rows: u64,
    groups: &[Sequence<Numbered>],
) -> Result<usize, AllocError>
    requires fit { AreFor (plans_view plans.now) (pairs_view fields.now) }
    requires full { AreFull rows groups.now }
    requires enough { leaves_count (plans_view plans.now) ≤ length groups.now }
    ensures count { IfOk result (λ n. n ≡ leaves_count (plans_view plans.now)) }
    ensures children { OnOk result (children.new.items ≡ children.old.items ++ all_laid_out (plans_view plans.now) (pairs_view fields.now) rows groups.now) }
{
    let mut next = 0;
    for at in 0..plans.len() {
        let rest = behind(groups, next);
        let (layout, count) = lay_out(alloc, &plans[at], &fields[at].1, rows, rest)?;
        children.push(layout)?;
        next += count;
    }
    Ok(next)
}

/// The layout of structs, and how many leaves it has.
#[cycle(laying)]
fn lay_out_struct(
    alloc: Global,
    validity: &Option<LeafStrategy>,
    plans: &[Plan],
    dtype: &DType,
    fields: &Fields,
    rows: u64,
    groups: &[Sequence<Numbered>],
) -> Result<(Layout, usize), AllocError>
    requires type_is { dtype_view dtype.now ≡ struct (fields_view fields.now) (is_some validity.now) }
    requires fit { AreFor (plans_view plans.now) (fields_view fields.now) }
    requires full { AreFull rows groups.now }
    requires enough { validity_count validity.now + leaves_count (plans_view plans.now) ≤ length groups.now }
    ensures count { IfOk result (λ x. x.1 ≡ validity_count validity.now + leaves_count (plans_view plans.now)) }
    ensures layout { IfOk result
        (λ x. x.0 ≡ node StructKind (dtype_view dtype.now) rows []
        (layouts_of (with_validity validity.now groups.now
        (all_laid_out (plans_view plans.now) (fields_view fields.now) rows (drop (validity_count validity.now) groups.now))))) }
{
    let mut children = Vec::new(alloc);
    let first = push_validity(alloc, &mut children, validity, groups)?;
    let rest = behind(groups, first);
    let more = push_fields(alloc, &mut children, plans, fields.as_slice(), rows, rest)?;
    let layout = Layout::structure(alloc, dtype.share(alloc)?, rows, children)?;
    Ok((layout, first + more))
}

/// The layout of rows of a plan, and how many leaves it has.
#[cycle(laying)]
fn lay_out(
    alloc: Global,
    plan: &Plan,
    dtype: &DType,
    rows: u64,
    groups: &[Sequence<Numbered>],
) -> Result<(Layout, usize), AllocError>
    requires fit { IsFor (plan_view plan.now) (dtype_view dtype.now) }
    requires full { AreFull rows groups.now }
    requires enough { leaf_count (plan_view plan.now) ≤ length groups.now }
    ensures count { IfOk result (λ x. x.1 ≡ leaf_count (plan_view plan.now)) }
    ensures layout { IfOk result (λ x. x.0 ≡ laid_out (plan_view plan.now) (dtype_view dtype.now) rows groups.now) }
{
    match plan {
        Plan::Leaf(_) => Ok((leaf_layout(alloc, dtype, first(groups))?, 1)),
        Plan::Struct(validity, plans) => match dtype {
            DType::Struct(fields, _) => {
                lay_out_struct(alloc, validity, plans, dtype, fields, rows, groups)
            }
            DType::Bool(_) | DType::Int(_, _) | DType::Text(_) => unreachable!(),
        },
    }
}

/// The layout of a file of so many rows, whose leaves have these chunks.
pub(crate) fn layout_of(
    alloc: Global,
    plan: &Plan,
    dtype: &DType,
    rows: u64,
    groups: &[Sequence<Numbered>],
) -> Result<Layout, AllocError>
    requires fit { IsFor (plan_view plan.now) (dtype_view dtype.now) }
    requires full { AreFull rows groups.now }
    requires enough { leaf_count (plan_view plan.now) ≤ length groups.now }
    ensures { IfOk result (λ layout. layout ≡ laid_out (plan_view plan.now) (dtype_view dtype.now) rows groups.now) }
{
    let (layout, _) = lay_out(alloc, plan, dtype, rows, groups)?;
    Ok(layout)
}
