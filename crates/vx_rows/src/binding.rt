//! Binds predicates to types.
ghost use Rattle.std.specs.Prelude.{◌≡◌, Some};
ghost use Rattle.vx_base.specs.Checks.{Gives};
ghost use Rattle.vx_data.specs.Dtype.{dtype_view};
ghost use Rattle.vx_rows.specs.Predicates.{pred_view};
ghost use Rattle.vx_rows.specs.Binding.{Fails, kind_in, field_kind, type_at, bound};
ghost use Rattle.vx_rows.specs.Bounds.{bound_view};

use crate::kind::{Kind, cast, comparison, kind_of_type, literal, logic, logic_of_two, sum};
use crate::places::type_of_field;
use crate::{BindError, Bound, Predicate};
use std::alloc::Global;
use vx_data::{DType, FieldPath};

/// The kind of a field.
fn field(path: &FieldPath, dtype: &DType) -> Result<Kind, BindError>
    ensures { result ≡ field_kind (type_at path.now (dtype_view dtype.now)) }
{
    match type_of_field(dtype, path.parts()) {
        Some(inner) => Ok(kind_of_type(inner)),
        None => Err(BindError::NoField),
    }
}

/// What a predicate is of rows of a type.
#[cycle(kinds)]
pub fn kind_of_predicate(predicate: &Predicate, dtype: &DType) -> Result<Kind, BindError>
    ensures { result ≡ kind_in (pred_view predicate.now) (dtype_view dtype.now) }
{
    match predicate {
        Predicate::Lit(of, value) => literal(of, value),
        Predicate::Root => Ok(kind_of_type(dtype)),
        Predicate::Field(path) => field(path, dtype),
        Predicate::Cast(to, p) => cast(to, kind_of_predicate(p, dtype)?),
        Predicate::Add(p, q) => sum(kind_of_predicate(p, dtype)?, kind_of_predicate(q, dtype)?),
        Predicate::Compare(_, p, q) => {
            comparison(kind_of_predicate(p, dtype)?, kind_of_predicate(q, dtype)?)
        }
        Predicate::And(p, q) | Predicate::Or(p, q) => {
            logic_of_two(kind_of_predicate(p, dtype)?, kind_of_predicate(q, dtype)?)
        }
        Predicate::Not(p) => logic(kind_of_predicate(p, dtype)?),
        Predicate::IsNull(p) | Predicate::NotNull(p) => {
            kind_of_predicate(p, dtype)?;
            Ok(Kind::Bool)
        }
    }
}

impl Predicate {
    /// This predicate, to be looked at in rows of a type. A refusal is that of the first node that fails, operands
    /// before the node that they are of.
    pub fn bind(self, alloc: Global, dtype: &DType) -> Result<Bound, BindError>
        ensures { Gives Fails bound_view result (bound (pred_view self) (dtype_view dtype.now)) }
    {
        logic(kind_of_predicate(&self, dtype)?)?;
        Ok(Bound::new(alloc, self, dtype)?)
    }
}
