//! What is refused before any chunk comes.
ghost use Rattle.std.specs.Prelude.{◌≡◌, ◌≤◌, ◌-◌, nat_le, map, string_bytes, true};
ghost use Rattle.vx_data.specs.Dtype.{dtype_view, fields_view, pairs_view};
ghost use Rattle.vx_data.specs.LayoutWritten.{has_id as is_among};
ghost use Rattle.vx_write.specs.Laying.{least_levels, most_least_levels};
ghost use Rattle.vx_write.specs.Plans.{plan_view, plans_view};
ghost use Rattle.vx_write.specs.Written.{array_id, may_encode, may_encode_all, may_write, may_write_all, may_write_validity};

use crate::LeafStrategy;
use crate::options::has_id;
use crate::plan::Plan;
use vx_data::{DType, Fields};

/// The id of the array of a column of a type.
fn name_of(dtype: &DType) -> &'static str
    ensures { result.now ≡ array_id (dtype_view dtype.now) }
{
    match dtype {
        DType::Bool(_) => "vortex.bool",
        DType::Int(_, _) => "vortex.primitive",
        DType::Text(_) => "vortex.varbin",
        DType::Struct(_, _) => "vortex.struct",
    }
}

/// Whether the arrays of fields are among these ids.
#[cycle(encodable)]
#[tactic(auto, using(crate::proofs::NeedsLemmas::next_encodable, crate::proofs::LayingTurns::field_size))]
fn are_fields_encodable(ids: &[String], fields: &[(String, DType)]) -> bool
    ensures { result ≡ may_encode_all (map string_bytes ids.now) (pairs_view fields.now) }
{
    for at in 0..fields.len() {
        if !is_encodable(ids, &fields[at].1) {
            return false;
        }
    }
    true
}

#[cycle(encodable)]
fn is_struct_encodable(ids: &[String], fields: &Fields) -> bool
    ensures { result ≡ may_encode_all (map string_bytes ids.now) (fields_view fields.now) }
{
    are_fields_encodable(ids, fields.as_slice())
}

/// Whether the arrays of a column of a type are among these ids.
#[cycle(encodable)]
fn is_encodable(ids: &[String], dtype: &DType) -> bool
    ensures { result ≡ may_encode (map string_bytes ids.now) (dtype_view dtype.now) }
{
    match dtype {
        DType::Struct(fields, _) => {
            has_id(ids, name_of(dtype)) && is_struct_encodable(ids, fields)
        }
        _ => has_id(ids, name_of(dtype)),
    }
}

/// Whether the array of a validity column, where there is one, is among these ids.
fn is_validity_permitted(ids: &[String], validity: &Option<LeafStrategy>) -> bool
    ensures { result ≡ may_write_validity (map string_bytes ids.now) validity.now }
{
    match validity {
        Some(_) => has_id(ids, "vortex.bool"),
        None => true,
    }
}

/// Whether the arrays of the leaves of plans are among these ids.
#[cycle(permitted)]
#[tactic(auto, using(crate::proofs::NeedsLemmas::next_written, crate::proofs::NeedsLemmas::all_written, crate::proofs::NeedsLemmas::no_more_fields))]
fn are_all_permitted(ids: &[String], plans: &[Plan], fields: &[(String, DType)]) -> bool
    ensures { result ≡ may_write_all (map string_bytes ids.now) (plans_view plans.now) (pairs_view fields.now) }
{
    for at in 0..plans.len().min(fields.len()) {
        if !is_permitted(ids, &plans[at], &fields[at].1) {
            return false;
        }
    }
    true
}

#[cycle(permitted)]
fn are_fields_permitted(ids: &[String], plans: &[Plan], fields: &Fields) -> bool
    ensures { result ≡ may_write_all (map string_bytes ids.now) (plans_view plans.now) (fields_view fields.now) }
{
    are_all_permitted(ids, plans, fields.as_slice())
}

/// Whether the arrays of the leaves of a plan are among these ids.
#[cycle(permitted)]
pub(crate) fn is_permitted(ids: &[String], plan: &Plan, dtype: &DType) -> bool
    ensures { result ≡ may_write (map string_bytes ids.now) (plan_view plan.now) (dtype_view dtype.now) }
{
    match plan {
        Plan::Leaf(_) => is_encodable(ids, dtype),
        Plan::Struct(validity, plans) => match dtype {
            DType::Struct(fields, _) => {
                is_validity_permitted(ids, validity) && are_fields_permitted(ids, plans, fields)
            }
            DType::Bool(_) | DType::Int(_, _) | DType::Text(_) => true,
        },
    }
}

/// Whether the least layouts of plans have at most so many levels.
#[cycle(shallow)]
#[tactic(auto, using(crate::proofs::NeedsLemmas::next_levels))]
fn are_shallow(plans: &[Plan], most: usize) -> bool
    ensures { result ≡ nat_le (most_least_levels (plans_view plans.now)) most }
{
    for at in 0..plans.len() {
        if !is_shallow(&plans[at], most) {
            return false;
        }
    }
    true
}

/// Whether the least layout of a plan has at most so many levels.
#[cycle(shallow)]
pub(crate) fn is_shallow(plan: &Plan, most: usize) -> bool
    ensures { result ≡ nat_le (least_levels (plan_view plan.now)) most }
{
    if most == 0 {
        return false;
    }
    match plan {
        Plan::Leaf(_) => true,
        Plan::Struct(validity, plans) => {
            (validity.is_none() || most > 1) && are_shallow(plans, most - 1)
        }
    }
}
