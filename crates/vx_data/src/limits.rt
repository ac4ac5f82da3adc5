//! Whether tables stay within what a reader allows.
ghost use Rattle.std.specs.Prelude.{◌≡◌, nat_le, IfOk, length, map};
ghost use Rattle.vx_data.specs.Dtype.{dtype_view};
ghost use Rattle.vx_data.specs.DtypeWritten.{levels_of, visits_of};
ghost use Rattle.vx_data.specs.LayoutWritten.{tree_levels, tree_visits};
ghost use Rattle.vx_data.specs.StatsWritten.{entries_of as entries_by, stats_visits};

use crate::stats_writing::{entries_of, visits_left as stats_left};
use crate::{DType, Layout, StatsSet, dtype_writing, layout_writing};
use std::alloc::{AllocError, Global};

impl DType {
    /// Whether at most 64 tables of the type lie one in the other.
    pub fn has_few_levels(&self) -> bool
        ensures { result ≡ nat_le (levels_of (dtype_view self.now)) 64 }
    {
        dtype_writing::is_shallow(self, dtype_writing::MOST_LEVELS)
    }

    /// Whether a reader makes at most 1,000,000 visits of the type's table.
    pub fn has_few_visits(&self) -> bool
        ensures { result ≡ nat_le (visits_of (dtype_view self.now)) 1000000 }
    {
        dtype_writing::visits_left(self, dtype_writing::MOST_VISITS).is_some()
    }
}

impl Layout {
    /// Whether at most 64 tables of the layout lie one in the other.
    pub fn has_few_levels(&self) -> bool
        ensures { result ≡ nat_le (tree_levels self.now) 64 }
    {
        layout_writing::is_shallow(self, dtype_writing::MOST_LEVELS)
    }

    /// Whether a reader makes at most 1,000,000 visits of the layout's table.
    pub fn has_few_visits(&self) -> bool
        ensures { result ≡ nat_le (tree_visits self.now) 1000000 }
    {
        layout_writing::visits_left(self, dtype_writing::MOST_VISITS).is_some()
    }
}

/// Whether a reader makes at most 1,000,000 visits of the table of these statistics.
pub fn stats_have_few_visits(
    alloc: Global,
    sets: &[StatsSet],
    dtypes: &[DType],
) -> Result<bool, AllocError>
    requires { length sets.now ≡ length dtypes.now }
    ensures { IfOk result (λ few. few ≡ nat_le (stats_visits (entries_by sets.now (map dtype_view dtypes.now))) 1000000) }
{
    let entries = entries_of(alloc, sets, dtypes)?;
    Ok(stats_left(&entries, dtype_writing::MOST_VISITS - 2).is_some())
}
