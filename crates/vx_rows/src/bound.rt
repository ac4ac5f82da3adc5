//! Predicates that are bound to types.
ghost use Rattle.std.specs.Prelude.{◌≡◌, IfOk};
ghost use Rattle.vx_data.specs.Dtype.{dtype_view};
ghost use Rattle.vx_rows.specs.Predicates.{pred_view};
ghost use Rattle.vx_rows.specs.Bounds.{bound_view};
ghost use Rattle.vx_rows.specs.Rows.{column_view};
ghost use Rattle.vx_rows.specs.Truth.{rows_satisfying};

use crate::evaluating::satisfying;
use crate::{Column, Mask, Predicate};
use std::alloc::{AllocError, Global};
use std::sync::Arc;
use vx_data::DType;

/// A predicate that is bound to a type of rows. It can have several owners.
#[derive(Drop)]
pub struct Bound {
    predicate: Arc<Predicate, Global>,
    dtype: DType,
}

impl Bound {
    /// A predicate and a type.
    pub(crate) fn new(
        alloc: Global,
        predicate: Predicate,
        dtype: &DType,
    ) -> Result<Bound, AllocError>
        ensures { IfOk result (λ b. bound_view b ≡ (pred_view predicate, dtype_view dtype.now)) }
    {
        Ok(Bound {
            predicate: Arc::new(alloc, predicate)?,
            dtype: dtype.share(alloc)?,
        })
    }

    /// The same, without a copy of the predicate. Only memory refuses.
    pub fn share(&self, alloc: Global) -> Result<Bound, AllocError>
        ensures { IfOk result (λ b. bound_view b ≡ bound_view self.now) }
    {
        Ok(Bound {
            predicate: Arc::try_clone(&self.predicate)?,
            dtype: self.dtype.share(alloc)?,
        })
    }

    /// The predicate.
    pub fn predicate(&self) -> &Predicate
        ensures { pred_view result.now ≡ (bound_view self.now).0 }
    {
        &self.predicate
    }

    /// The type of the rows.
    pub fn dtype(&self) -> &DType
        ensures { dtype_view result.now ≡ (bound_view self.now).1 }
    {
        &self.dtype
    }

    /// For each row of a column, whether it satisfies the predicate: true exactly where that is true, and neither
    /// false nor null. Only memory refuses.
    pub fn rows(&self, alloc: Global, column: &Column) -> Result<Mask, AllocError>
        ensures { let b = bound_view self.now in
            IfOk result (λ mask. mask ≡ rows_satisfying b.0 b.1 (column_view column.now)) }
    {
        let bits = satisfying(alloc, &self.predicate, &self.dtype, column)?;
        Ok(Mask::new(bits))
    }
}
