//! Statistics of a column.
ghost use Rattle.std.specs.Prelude.{◌≡◌, Some};
ghost use Rattle.std.specs.Option.{option_map};
ghost use Rattle.vx_data.specs.Scalar.{scalar_view};
ghost use Rattle.vx_data.specs.Stats.{kept_view, no_stats, stat_in, with_stat};

use crate::Scalar;
use std::marker::Model;

/// A statistic.
#[derive(Clone, Copy, Debug, PartialEq, Eq)]
pub enum Stat {
    Min,
    Max,
    NullCount,
}

/// Whether a statistic is the value itself, or a bound of it.
#[derive(Clone, Copy, Debug, PartialEq, Eq)]
pub enum Precision {
    Exact,
    Inexact,
}

/// The statistics of a column that are known.
#[derive(Debug, Drop)]
pub struct StatsSet {
    min: Option<(Scalar, Precision)>,
    max: Option<(Scalar, Precision)>,
    null_count: Option<(Scalar, Precision)>,
}

impl Model for StatsSet {
    ghost use Rattle.vx_data.specs.Stats.{Stats, kept_view};

    ghost Value = { Stats };

    ghost view = { λ a. record { min = kept_view a.min; max = kept_view a.max; null_count = kept_view a.null_count } };
}

fn lent(kept: &Option<(Scalar, Precision)>) -> Option<(&Scalar, Precision)>
    ensures { option_map (λ p. (scalar_view p.0.now, p.1)) result ≡ kept_view kept.now }
{
    match kept {
        Some((scalar, precision)) => Some((scalar, *precision)),
        None => None,
    }
}

impl StatsSet {
    /// No statistics.
    pub fn new() -> StatsSet
        ensures { result ≡ no_stats }
    {
        StatsSet::of(None, None, None)
    }

    /// These statistics.
    pub(crate) fn of(
        min: Option<(Scalar, Precision)>,
        max: Option<(Scalar, Precision)>,
        null_count: Option<(Scalar, Precision)>,
    ) -> StatsSet
        ensures { result ≡ record { min = kept_view min; max = kept_view max; null_count = kept_view null_count } }
    {
        StatsSet {
            min,
            max,
            null_count,
        }
    }

    /// A statistic, where it is known.
    pub fn get(&self, stat: Stat) -> Option<(&Scalar, Precision)>
        ensures { option_map (λ p. (scalar_view p.0.now, p.1)) result ≡ stat_in stat self.now }
    {
        match stat {
            Stat::Min => lent(&self.min),
            Stat::Max => lent(&self.max),
            Stat::NullCount => lent(&self.null_count),
        }
    }

    /// Sets a statistic.
    pub fn set(&mut self, stat: Stat, value: Scalar, precision: Precision)
        ensures { self.new ≡ with_stat stat (Some (scalar_view value, precision)) self.old }
    {
        match stat {
            Stat::Min => self.min = Some((value, precision)),
            Stat::Max => self.max = Some((value, precision)),
            Stat::NullCount => self.null_count = Some((value, precision)),
        }
    }
}
