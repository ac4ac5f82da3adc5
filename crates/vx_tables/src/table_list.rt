//! Tables that are written as a vector: each goes as soon as its bytes are there.
ghost use Rattle.std.specs.Prelude.{◌≡◌, ◌++◌, ◌∷◌, [], ◌==◌, IfOk, OnOk, length, List, ℕ};
ghost use Rattle.vx_tables.specs.Block.{Piece as WrittenPiece, vtable_size, block, Listed, listed, listed_block, offsets};

use crate::TableWriter;
use crate::blocks::{push_low, sum_of};
use std::alloc::{AllocError, Global};
use std::marker::Model;

/// The bytes of tables one behind the other, and where the offset of each leads.
#[derive(Debug, Drop)]
pub struct TableList {
    leads: Vec<usize>,
    bytes: Vec<u8>,
}

impl Model for TableList {
    ghost use Rattle.vx_tables.specs.Block.{Listed};

    ghost Value = { Listed };

    ghost view = { λ l. record { leads = l.leads.items; bytes = l.bytes.items } };
}

/// Appends the offsets of tables whose bytes stand at a place behind the count.
fn push_offsets(out: &mut Vec<u8>, fixed: usize, leads: &[usize]) -> Result<(), AllocError>
    ensures { OnOk result (out.new.items ≡ out.old.items ++ offsets 4 fixed leads.now) }
{
    let mut at: usize = 4;
    for lead in leads {
        push_low(out, sum_of(fixed, *lead)?.saturating_sub(at))?;
        at = sum_of(at, 4)?;
    }
    Ok(())
}

impl TableList {
    /// No table.
    pub fn new(alloc: Global) -> TableList
        ensures { result ≡ listed [] }
    {
        TableList {
            leads: Vec::new(alloc),
            bytes: Vec::new(alloc),
        }
    }

    /// Whether there is no table.
    pub fn is_empty(&self) -> bool
        ensures { (ws : List (List WrittenPiece)) → self.now ≡ listed ws → result ≡ (length ws == 0) }
    {
        self.leads.is_empty()
    }

    /// Adds a table.
    pub fn push(&mut self, table: &TableWriter) -> Result<(), AllocError>
        ensures { OnOk result ((ws : List (List WrittenPiece)) → self.old ≡ listed ws → self.new ≡ listed (ws ++ table.now ∷ [])) }
    {
        let lead = sum_of(self.bytes.len(), table.vtable_size())?;
        self.leads.push(lead)?;
        table.push_block(&mut self.bytes)?;
        Ok(())
    }

    /// The block of the vector.
    pub(crate) fn block(&self, alloc: Global) -> Result<Vec<u8>, AllocError>
        ensures { IfOk result (λ v. v.items ≡ listed_block self.now) }
    {
        let count = self.leads.len();
        let fixed = sum_of(4, count.checked_mul(4).ok_or(AllocError)?)?;
        let mut out = Vec::with_capacity(alloc, sum_of(fixed, self.bytes.len())?)?;
        push_low(&mut out, count)?;
        push_offsets(&mut out, fixed, &self.leads)?;
        out.extend_from_slice(&self.bytes)?;
        Ok(out)
    }
}
