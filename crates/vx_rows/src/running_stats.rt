//! Statistics of columns that come one after another.
ghost use Rattle.std.specs.Prelude.{◌≡◌, ◌+◌, ◌<◌, ◌^◌, ◌++◌, [], List, Bool, if◌then◌else◌, None, length, IfOk, OnOk, OnErr};
ghost use Rattle.std.specs.Option.{option_map};
ghost use Rattle.vx_data.specs.declared.stats_set.Precision.TheVariants.{Exact};
ghost use Rattle.vx_data.specs.Dtype.{Dtype};
ghost use Rattle.vx_data.specs.Scalar.{scalar_view};
ghost use Rattle.vx_data.specs.Stats.{with_stat, stat_in};
ghost use Rattle.vx_rows.specs.Rows.{Rows, rows_len, dtype_of, column_view};
ghost use Rattle.vx_rows.specs.ReadRows.{no_rows};
ghost use Rattle.vx_rows.specs.Parts.{appended};
ghost use Rattle.vx_rows.specs.RowStats.{summary, stats_of, wants, bound};

use crate::extents::{extent_of, greater, lesser};
use crate::{Column, Mask};
use std::alloc::{AllocError, Global};
use std::marker::Model;
use vx_data::{Precision, Scalar, Stat, StatsSet};

/// The statistics of the columns so far, of one type: what they tell of all rows.
#[derive(Drop)]
pub struct RunningStats {
    wanted: Vec<Stat>,
    count: u64,
    min: Option<Scalar>,
    max: Option<Scalar>,
    nulls: u64,
}

impl Model for RunningStats {
    ghost use Rattle.std.specs.Prelude.{◌≤◌};
    ghost use Rattle.std.specs.Option.{option_map};
    ghost use Rattle.vx_data.specs.Scalar.{scalar_view};
    ghost use Rattle.vx_rows.specs.RowStats.{Running};

    ghost Value = { Running };

    ghost view = { λ s. record {
      wanted = s.wanted.items;
      rows = s.count;
      seen = record { min = option_map scalar_view s.min; max = option_map scalar_view s.max; nulls = s.nulls };
    } };

    ghost invariant = { λ s. s.nulls ≤ s.count };
}

/// Whether a statistic is among those that are wanted.
fn is_wanted(wanted: &[Stat], stat: Stat) -> bool
    ensures { result ≡ wants wanted.now stat }
{
    for other in wanted {
        if *other == stat {
            return true;
        }
    }
    false
}

/// A minimum or maximum, unless it is a text of more than 64 bytes.
fn bounded(value: Option<Scalar>) -> Option<Scalar>
    ensures { option_map (λ v. (scalar_view v, Exact)) result ≡ bound (option_map scalar_view value) }
{
    match value {
        Some(Scalar::Text(text)) => {
            if text.len() > 64 {
                return None;
            }
            Some(Scalar::Text(text))
        }
        other => other,
    }
}

/// Sets a statistic that is not known yet, where it is wanted and there is one.
#[tactic(auto, using(crate::proofs::ExtentLemmas::unset))]
fn put(set: &mut StatsSet, wanted: &[Stat], stat: Stat, value: Option<Scalar>)
    requires { stat_in stat set.old ≡ None }
    ensures { set.new ≡ with_stat stat (if wants wanted.now stat then option_map (λ v. (scalar_view v, Exact)) value else None) set.old }
{
    if !is_wanted(wanted, stat) {
        return;
    }
    match value {
        Some(value) => set.set(stat, value, Precision::Exact),
        None => {}
    }
}

impl RunningStats {
    /// No columns yet. Only memory refuses.
    pub fn new(alloc: Global, wanted: &[Stat]) -> Result<RunningStats, AllocError>
        ensures wanted { IfOk result (λ stats. (stats.wanted ≡ wanted.now) × (stats.rows ≡ 0)) }
        ensures none { IfOk result (λ stats. (d : Dtype) → stats.seen ≡ summary [] (no_rows d)) }
    {
        Ok(RunningStats {
            wanted: Vec::from_slice(alloc, wanted)?,
            count: 0,
            min: None,
            max: None,
            nulls: 0,
        })
    }

    /// Adds the rows of a column, which has the type of those before; a row that is not present counts as null.
    /// Only memory refuses, and then nothing changes.
    pub fn add(&mut self, alloc: Global, column: &Column, present: &Mask) -> Result<(), AllocError>
        requires long { length present.now ≡ rows_len (column_view column.now) }
        requires few { self.old.rows + rows_len (column_view column.now) < 2 ^ 64 }
        // What is seen then is what all columns tell, one behind the other.
        ensures seen { OnOk result ((c : Rows) → (p : List Bool) → length p ≡ rows_len c → dtype_of c ≡ dtype_of (column_view column.now)
            → self.old.seen ≡ summary p c → self.new.seen ≡ summary (p ++ present.now) (appended c (column_view column.now))) }
        ensures rows { OnOk result ((self.new.wanted ≡ self.old.wanted) × (self.new.rows ≡ self.old.rows + rows_len (column_view column.now))) }
        ensures err { OnErr result (self.new ≡ self.old) }
    {
        let more = extent_of(alloc, column, present)?;
        self.min = lesser(self.min.take(), more.min);
        self.max = greater(self.max.take(), more.max);
        self.nulls += more.nulls;
        self.count += column.len() as u64;
        Ok(())
    }

    /// Adds what other columns tell, which come behind those so far and have their type.
    pub fn merge(&mut self, other: RunningStats)
        requires few { self.old.rows + other.rows < 2 ^ 64 }
        // What is seen then is what all columns tell, one behind the other.
        ensures seen { (c d : Rows) (p q : List Bool) → length p ≡ rows_len c → length q ≡ rows_len d → dtype_of c ≡ dtype_of d
            → self.old.seen ≡ summary p c → other.seen ≡ summary q d → self.new.seen ≡ summary (p ++ q) (appended c d) }
        ensures rows { (self.new.wanted ≡ self.old.wanted) × (self.new.rows ≡ self.old.rows + other.rows) }
    {
        self.min = lesser(self.min.take(), other.min);
        self.max = greater(self.max.take(), other.max);
        self.nulls += other.nulls;
        self.count += other.count;
    }

    /// The statistics that are wanted, all of them exact.
    pub fn finish(self) -> StatsSet
        ensures { result ≡ stats_of self.wanted self.seen }
    {
        let RunningStats {
            wanted,
            count: _,
            min,
            max,
            nulls,
        } = self;
        let mut set = StatsSet::new();
        put(&mut set, &wanted, Stat::Min, bounded(min));
        put(&mut set, &wanted, Stat::Max, bounded(max));
        let nulls = Scalar::Int(i128::from(nulls));
        put(&mut set, &wanted, Stat::NullCount, Some(nulls));
        set
    }
}
