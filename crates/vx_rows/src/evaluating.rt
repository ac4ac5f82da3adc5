//! Evaluates predicates, column by column.
ghost use Rattle.std.specs.Prelude.{◌≡◌, IfOk, IfSome, map, string_bytes, length};
ghost use Rattle.vx_data.specs.Dtype.{dtype_view};
ghost use Rattle.vx_rows.specs.Rows.{column_view, rows_len};
ghost use Rattle.vx_rows.specs.Predicates.{path, pred_view};
ghost use Rattle.vx_rows.specs.Truth.{rows_satisfying};
ghost use Rattle.vx_rows.specs.Operands.{IsValueOf};

use crate::binding::kind_of_predicate;
use crate::cell::of_scalar;
use crate::fields::field_rows;
use crate::nodes::{
    add_rows, and_rows, compare_rows, not_rows, null_rows, or_rows, present_rows, true_comparisons,
    true_rows,
};
use crate::operand::Operand;
use crate::{Column, Predicate};
use std::alloc::{AllocError, Global};
use vx_data::DType;

/// What a predicate is at each row of a column.
#[cycle(evaluating)]
fn evaluate<'a>(
    alloc: Global,
    predicate: &'a Predicate,
    dtype: &DType,
    column: &'a Column,
) -> Result<Operand<'a>, AllocError>
    ensures { IfOk result (IsValueOf (pred_view predicate.now) (dtype_view dtype.now) (column_view column.now)) }
{
    let count = column.len();
    match predicate {
        Predicate::Lit(_, value) => Ok(Operand::Value(of_scalar(value))),
        Predicate::Root => Ok(Operand::Rows(column, None)),
        Predicate::Field(path) => Ok(field_rows(alloc, path, dtype, column)?),
        Predicate::Cast(_, p) => Ok(evaluate(alloc, p, dtype, column)?),
        Predicate::Add(p, q) => {
            let kind = kind_of_predicate(p, dtype);
            let a = evaluate(alloc, p, dtype, column)?;
            let b = evaluate(alloc, q, dtype, column)?;
            Ok(Operand::Numbers(add_rows(alloc, kind, &a, &b, count)?))
        }
        Predicate::Compare(op, p, q) => {
            let a = evaluate(alloc, p, dtype, column)?;
            let b = evaluate(alloc, q, dtype, column)?;
            Ok(Operand::Truths(compare_rows(alloc, *op, &a, &b, count)?))
        }
        Predicate::And(p, q) => {
            let a = evaluate(alloc, p, dtype, column)?;
            let b = evaluate(alloc, q, dtype, column)?;
            Ok(Operand::Truths(and_rows(alloc, &a, &b, count)?))
        }
        Predicate::Or(p, q) => {
            let a = evaluate(alloc, p, dtype, column)?;
            let b = evaluate(alloc, q, dtype, column)?;
            Ok(Operand::Truths(or_rows(alloc, &a, &b, count)?))
        }
        Predicate::Not(p) => {
            let a = evaluate(alloc, p, dtype, column)?;
            Ok(Operand::Truths(not_rows(alloc, &a, count)?))
        }
        Predicate::IsNull(p) => {
            let a = evaluate(alloc, p, dtype, column)?;
            Ok(Operand::Truths(null_rows(alloc, &a, count)?))
        }
        Predicate::NotNull(p) => {
            let a = evaluate(alloc, p, dtype, column)?;
            Ok(Operand::Truths(present_rows(alloc, &a, count)?))
        }
    }
}

/// For each row of a column, whether it satisfies a predicate on a type. Only memory refuses.
pub fn satisfying(
    alloc: Global,
    predicate: &Predicate,
    dtype: &DType,
    column: &Column,
) -> Result<Vec<bool>, AllocError>
    ensures { IfOk result (λ bits. bits.items ≡ rows_satisfying (pred_view predicate.now) (dtype_view dtype.now) (column_view column.now)) }
{
    if let Predicate::Compare(op, p, q) = predicate {
        let a = evaluate(alloc, p, dtype, column)?;
        let b = evaluate(alloc, q, dtype, column)?;
        return Ok(true_comparisons(alloc, *op, &a, &b, column.len())?);
    }
    let whole = evaluate(alloc, predicate, dtype, column)?;
    Ok(true_rows(alloc, &whole, column.len())?)
}
