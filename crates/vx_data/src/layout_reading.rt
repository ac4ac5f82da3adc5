//! Reads a layout from its table.
ghost use Rattle.std.specs.Prelude.{map, string_bytes};
ghost use Rattle.vx_base.specs.Checks.{Gives};
ghost use Rattle.vx_data.specs.Refusing.{Fails};
ghost use Rattle.vx_data.specs.Dtype.{dtype_view};
ghost use Rattle.vx_data.specs.LayoutTable.{layout_checks};

use crate::layout_kinds::kinds_of;
use crate::layout_walk::read_layout;
use crate::{DType, DataError, Layout};
use std::alloc::Global;
use vx_tables::WalkError;

impl Layout {
    /// The layout of rows of this type that a table spells. All of its grammar comes before the ids that
    /// the tree uses, and those come before the fit.
    #[tactic(auto, unfolding(crate::specs::LayoutTable::layout_checks))]
    pub fn read(
        alloc: Global,
        bytes: &[u8],
        dtype: &DType,
        layout_ids: &[String],
    ) -> Result<Layout, DataError>
        ensures { Gives Fails (λ layout. layout) result (layout_checks (map string_bytes layout_ids.now) (dtype_view dtype.now) bytes.now) }
    {
        let kinds = kinds_of(alloc, layout_ids)?;
        let mut known = true;
        let layout = match read_layout(alloc, &kinds, dtype, bytes, &mut known) {
            Ok(layout) => layout,
            Err(WalkError::BadTable) => return Err(DataError::BadTable),
            Err(WalkError::OutOfMemory) => return Err(DataError::OutOfMemory),
        };
        if !known {
            return Err(DataError::UnknownEncoding);
        }
        match layout {
            Some(layout) => Ok(layout),
            None => Err(DataError::BadTable),
        }
    }
}
