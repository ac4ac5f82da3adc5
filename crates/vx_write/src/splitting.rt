//! Rows that are split into the columns of leaves.
ghost use Rattle.std.specs.Prelude.{◌≡◌, ◌++◌, ℕ, true, IfOk, OnOk};
ghost use Rattle.vx_rows.specs.Rows.{column_view, pairs_view, rows_len, dtype_of, types_of, IsColumn, AreColumns};
ghost use Rattle.vx_rows.specs.Parts.{is_struct, presence_of};
ghost use Rattle.vx_write.specs.Plans.{plan_view, plans_view, IsFor, AreFor, validity_columns, columns_of, columns_in, leaves_of};
ghost use Rattle.vx_write.specs.Leaves.{column_types, leaf_types, AreSound};
ghost use Rattle.vx_write.specs.Chunks.{columns_seen, AllHaveLength};

use crate::LeafStrategy;
use crate::plan::Plan;
use std::alloc::{AllocError, Global};
use vx_rows::Column;

/// Adds the validity column, where there is one.
fn push_validity(
    alloc: Global,
    validity: &Option<LeafStrategy>,
    chunk: &Column,
    columns: &mut Vec<Column>,
) -> Result<(), AllocError>
    requires { is_struct (column_view chunk.now) ≡ true }
    ensures { OnOk result (columns_seen columns.new.items
        ≡ columns_seen columns.old.items ++ validity_columns validity.now (presence_of (column_view chunk.now))) }
{
    if validity.is_none() {
        return Ok(());
    }
    columns.push(chunk.presence(alloc)?)?;
    Ok(())
}

/// Adds the columns of the leaves of fields.
#[cycle(splitting)]
fn split_fields(
    alloc: Global,
    plans: &[Plan],
    fields: &[(String, Column)],
    columns: &mut Vec<Column>,
) -> Result<(), AllocError>
    requires fit { AreFor (plans_view plans.now) (types_of (pairs_view fields.now)) }
    requires even { (n : ℕ) × AreColumns n (pairs_view fields.now) }
    ensures { OnOk result (columns_seen columns.new.items ≡ columns_seen columns.old.items ++ columns_in (plans_view plans.now) (pairs_view fields.now)) }
{
    for at in 0..plans.len() {
        let field = &fields[at];
        split_one(alloc, &plans[at], &field.1, columns)?;
    }
    Ok(())
}

/// Adds the columns of the leaves of a column.
#[cycle(splitting)]
fn split_one(
    alloc: Global,
    plan: &Plan,
    chunk: &Column,
    columns: &mut Vec<Column>,
) -> Result<(), AllocError>
    requires fit { IsFor (plan_view plan.now) (dtype_of (column_view chunk.now)) }
    requires even { (n : ℕ) × IsColumn n (column_view chunk.now) }
    ensures { OnOk result (columns_seen columns.new.items ≡ columns_seen columns.old.items ++ columns_of (plan_view plan.now) (column_view chunk.now)) }
{
    let (validity, plans) = match plan {
        Plan::Leaf(_) => {
            columns.push(chunk.part(alloc, 0, chunk.len())?)?;
            return Ok(());
        }
        Plan::Struct(validity, plans) => (validity, plans),
    };
    push_validity(alloc, validity, chunk, columns)?;
    split_fields(alloc, plans, chunk.fields(), columns)?;
    Ok(())
}

/// The column of each leaf, in preorder. Values are shared, not copied. Only memory refuses.
pub(crate) fn split(alloc: Global, plan: &Plan, chunk: &Column) -> Result<Vec<Column>, AllocError>
    requires fit { IsFor (plan_view plan.now) (dtype_of (column_view chunk.now)) }
    requires even { IsColumn (rows_len (column_view chunk.now)) (column_view chunk.now) }
    ensures value { IfOk result (λ columns. columns_seen columns.items ≡ columns_of (plan_view plan.now) (column_view chunk.now)) }
    ensures typed { IfOk result (λ columns. column_types (columns_seen columns.items)
        ≡ leaf_types (leaves_of (plan_view plan.now) (dtype_of (column_view chunk.now)))) }
    ensures even { IfOk result (λ columns. AllHaveLength (rows_len (column_view chunk.now)) (columns_seen columns.items)) }
    ensures sound { IfOk result (λ columns. AreSound (columns_seen columns.items)) }
{
    let mut columns = Vec::new(alloc);
    split_one(alloc, plan, chunk, &mut columns)?;
    Ok(columns)
}
