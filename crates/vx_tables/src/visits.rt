//! The visits that a root may still take.
ghost use Rattle.std.specs.Prelude.{◌≡◌, nat_le, ◌-◌, if◌then◌else◌, is_ok};
ghost use Rattle.vx_tables.specs.Counted.{most_visits};

use crate::bad_table::BadTable;
use std::marker::Model;

/// How many visits one root may take.
const MOST_VISITS: u64 = 1_000_000;

/// How many visits of one table root are left.
#[derive(Debug, Drop)]
pub struct Visits {
    left: u64,
}

impl Model for Visits {
    ghost use Rattle.std.specs.Prelude.{ℕ};

    ghost Value = { ℕ };

    ghost view = { λ a. a.left };
}

impl Visits {
    /// All visits of a root.
    pub fn new() -> Visits
        ensures { result ≡ most_visits }
    {
        Visits { left: MOST_VISITS }
    }

    /// Takes as many visits as the cost, where they are left.
    pub(crate) fn charge(&mut self, cost: u64) -> Result<(), BadTable>
        ensures enough { is_ok result ≡ nat_le cost self.old }
        ensures left { self.new ≡ (if is_ok result then self.old - cost else self.old) }
    {
        if cost > self.left {
            return Err(BadTable);
        }
        self.left -= cost;
        Ok(())
    }
}
