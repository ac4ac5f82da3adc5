//! The leaves of a type, without rows.
ghost use Rattle.std.specs.Prelude.{◌≡◌, ◌++◌, OnOk};
ghost use Rattle.vx_data.specs.Dtype.{dtype_view, pairs_view};
ghost use Rattle.vx_write.specs.Plans.{plan_view, plans_view, IsFor, AreFor, ValidityHasBlocks, validity_leaves, leaves_of, leaves_in};
ghost use Rattle.vx_write.specs.Leaves.{nows};

use crate::LeafStrategy;
use crate::held_leaf::HeldLeaf;
use crate::plan::Plan;
use std::alloc::{AllocError, Global};
use vx_data::DType;

/// Adds a leaf of truth values for the validity column, where there is one.
fn add_validity(
    alloc: Global,
    validity: &Option<LeafStrategy>,
    leaves: &mut Vec<HeldLeaf>,
) -> Result<(), AllocError>
    requires { ValidityHasBlocks validity.now }
    ensures { OnOk result (nows leaves.new.items ≡ nows leaves.old.items ++ validity_leaves validity.now) }
{
    match validity {
        None => Ok(()),
        Some(strategy) => {
            leaves.push(HeldLeaf::new(alloc, *strategy, &DType::Bool(false))?)?;
            Ok(())
        }
    }
}

/// Adds the leaves of fields.
#[cycle(beginning)]
fn add_fields(
    alloc: Global,
    plans: &[Plan],
    fields: &[(String, DType)],
    leaves: &mut Vec<HeldLeaf>,
) -> Result<(), AllocError>
    requires { AreFor (plans_view plans.now) (pairs_view fields.now) }
    ensures { OnOk result (nows leaves.new.items ≡ nows leaves.old.items ++ leaves_in (plans_view plans.now) (pairs_view fields.now)) }
{
    for at in 0..plans.len() {
        let field = &fields[at];
        add_leaves(alloc, &plans[at], &field.1, leaves)?;
    }
    Ok(())
}

/// Adds the leaves of a type, in preorder. Only memory refuses.
#[cycle(beginning)]
pub(crate) fn add_leaves(
    alloc: Global,
    plan: &Plan,
    dtype: &DType,
    leaves: &mut Vec<HeldLeaf>,
) -> Result<(), AllocError>
    requires { IsFor (plan_view plan.now) (dtype_view dtype.now) }
    ensures { OnOk result (nows leaves.new.items ≡ nows leaves.old.items ++ leaves_of (plan_view plan.now) (dtype_view dtype.now)) }
{
    match (plan, dtype) {
        (Plan::Leaf(strategy), dtype) => {
            leaves.push(HeldLeaf::new(alloc, *strategy, dtype)?)?;
            Ok(())
        }
        (Plan::Struct(validity, plans), DType::Struct(fields, _)) => {
            add_validity(alloc, validity, leaves)?;
            add_fields(alloc, plans, fields.as_slice(), leaves)?;
            Ok(())
        }
        _ => unreachable!(),
    }
}
