//! Statistics of a column as their table has them, before their scalars are looked at.
use std::marker::Model;

/// Statistics of a column as their table has them.
#[derive(Drop)]
pub(crate) struct StatsEntry {
    pub(crate) min: Option<Vec<u8>>,
    pub(crate) is_min_exact: bool,
    pub(crate) max: Option<Vec<u8>>,
    pub(crate) is_max_exact: bool,
    pub(crate) null_count: Option<u64>,
    pub(crate) is_null_count_exact: bool,
}

impl Model for StatsEntry {
    ghost use Rattle.std.specs.Option.{option_map};
    ghost use Rattle.vx_data.specs.StatsEntry.{Entry};

    ghost Value = { Entry };

    ghost view = { λ a. record {
      min = option_map (λ v. v.items) a.min;
      is_min_exact = a.is_min_exact;
      max = option_map (λ v. v.items) a.max;
      is_max_exact = a.is_max_exact;
      null_count = a.null_count;
      is_null_count_exact = a.is_null_count_exact;
    } };
}
