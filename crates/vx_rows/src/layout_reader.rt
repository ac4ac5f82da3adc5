//! Readers of layouts.
ghost use Rattle.std.specs.Prelude.{◌≡◌};
ghost use Rattle.vx_data.specs.Dtype.{dtype_view};
ghost use Rattle.vx_data.specs.Layout.{dtype_of, rows_of};
ghost use Rattle.vx_rows.specs.LayoutReaders.{tree_of};

use crate::{Bound, Mask};
use std::ops::Range;
use vx_data::{DType, Layout};

/// Reads the rows of a layout, without statistics.
#[derive(Drop)]
pub struct LayoutReader {
    layout: Layout,
}

impl LayoutReader {
    /// A reader of this layout.
    pub fn new(layout: Layout) -> LayoutReader
        ensures { tree_of result ≡ layout }
    {
        LayoutReader { layout }
    }

    /// The type of the rows.
    pub fn dtype(&self) -> &DType
        ensures { dtype_view result.now ≡ dtype_of (tree_of self.now) }
    {
        self.layout.dtype()
    }

    /// The number of rows.
    pub fn row_count(&self) -> u64
        ensures { result ≡ rows_of (tree_of self.now) }
    {
        self.layout.row_count()
    }

    /// The rows of a range that a predicate may be true of, among those of a mask: the mask itself.
    pub fn pruning_evaluation(&self, _row_range: Range<u64>, _bound: &Bound, mask: Mask) -> Mask
        ensures { result ≡ mask }
    {
        mask
    }
}
