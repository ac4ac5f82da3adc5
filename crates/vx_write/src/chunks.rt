//! Chunks of a leaf that are cut only as they are written.
ghost use Rattle.std.specs.Prelude.{◌≡◌, ◌<◌, ◌∷◌, ℕ, List, length, get_or, IfOk};
ghost use Rattle.vx_rows.specs.Rows.{Rows, column_view, rows_len, IsColumn};
ghost use Rattle.vx_write.specs.CutParts.{parts_from, AreOrdered};

use std::alloc::{AllocError, Global};
use std::marker::Model;
use vx_rows::Column;

/// Parts of a column, one behind the other from its first row on. Each is cut where it is asked for: many columns at
/// once would take more memory than their rows.
#[derive(Drop)]
pub(crate) struct Parts {
    column: Column,
    ends: Vec<usize>,
}

impl Model for Parts {
    ghost use Rattle.std.specs.Prelude.{List};
    ghost use Rattle.std.specs.Coded.{codes};
    ghost use Rattle.vx_rows.specs.Rows.{Rows, column_view};
    ghost use Rattle.vx_rows.specs.RowsCode.{rows_code};
    ghost use Rattle.vx_write.specs.CutParts.{parts_from, AreOrdered};

    ghost Value = { List Rows };

    ghost coded = { Prim.hlevel (codes, rows_code) };

    ghost view = { λ p. parts_from (column_view p.column) 0 p.ends.items };

    ghost invariant = { λ p. AreOrdered 0 p.ends.items };
}

/// Full chunks of a leaf: one that is made, where there is one, and behind it parts of a column.
#[derive(Drop)]
pub(crate) struct Chunks {
    pub(crate) first: Option<Column>,
    pub(crate) others: Option<Parts>,
}

/// The row with which the part at a place begins.
#[tactic(auto, using(crate::proofs::PartsLemmas::first_start, crate::proofs::PartsLemmas::later_start))]
fn start_of(ends: &[usize], at: usize) -> usize
    requires { at < length ends.now }
    ensures { result ≡ get_or (0 ∷ ends.now) at 0 }
{
    if at == 0 {
        return 0;
    }
    ends[at - 1]
}

impl Parts {
    /// The parts that end before these rows. Values are shared, not copied. Only memory refuses.
    #[tactic(auto, using(crate::proofs::StillLemmas::whole_part))]
    pub(crate) fn new(alloc: Global, column: &Column, ends: Vec<usize>) -> Result<Parts, AllocError>
        requires even { IsColumn (rows_len (column_view column.now)) (column_view column.now) }
        requires ordered { AreOrdered 0 ends.items }
        ensures { IfOk result (λ parts. parts ≡ parts_from (column_view column.now) 0 ends.items) }
    {
        let column = column.part(alloc, 0, column.len())?;
        Ok(Parts { column, ends })
    }

    /// How many parts there are.
    #[tactic(auto, using(crate::proofs::PartsLemmas::parts_many))]
    pub(crate) fn len(&self) -> usize
        ensures { result ≡ length self.now }
    {
        self.ends.len()
    }

    /// The part at a place. Values are shared, not copied. Only memory refuses.
    #[tactic(auto, using(crate::proofs::PartsLemmas::parts_many))]
    pub(crate) fn part(&self, alloc: Global, at: usize) -> Result<Column, AllocError>
        requires { at < length self.now }
        ensures { IfOk result (λ column. (other : Rows) → column_view column ≡ get_or self.now at other) }
    {
        let start = start_of(&self.ends, at);
        self.column.part(alloc, start, self.ends[at])
    }
}
