//! Where columns are cut into chunks.
ghost use Rattle.std.specs.Prelude.{◌≡◌, ◌/◌, ◌≤◌, IfOk};
ghost use Rattle.vx_rows.specs.Rows.{column_view, rows_len};
ghost use Rattle.vx_write.specs.CutParts.{AreOrdered};
ghost use Rattle.vx_write.specs.Cutting.{cut_blocks};
ghost use Rattle.vx_write.specs.Feeding.{cut_view};

use crate::gathering::{Gathered, gather};
use std::alloc::{AllocError, Global};
use vx_rows::Column;

/// The rows before which the full chunks of a column end, the first row behind them, and how many bytes the whole blocks
/// from that row on have.
#[derive(Drop)]
pub(crate) struct CutColumn {
    pub(crate) ends: Vec<usize>,
    pub(crate) start: usize,
    pub(crate) gathered: u64,
}

/// Where the whole blocks of a column are cut into chunks. Only memory refuses.
pub(crate) fn cut_column(
    alloc: Global,
    rows: usize,
    target: u64,
    column: &Column,
) -> Result<CutColumn, AllocError>
    requires { 1 ≤ rows }
    ensures value { IfOk result (λ cut. cut_view (column_view column.now) cut
        ≡ cut_blocks rows target (column_view column.now) 0 0 0 (rows_len (column_view column.now) / rows)) }
    ensures ordered { IfOk result (λ cut. AreOrdered 0 cut.ends.items) }
    ensures inside { IfOk result (λ cut. cut.start ≤ rows_len (column_view column.now)) }
{
    let mut ends = Vec::new(alloc);
    let mut start = 0;
    loop {
        match gather(alloc, rows, target, column, start, 0)? {
            Gathered::Full(end) => {
                ends.push(end)?;
                start = end;
            }
            Gathered::Open(gathered) => {
                return Ok(CutColumn {
                    ends,
                    start,
                    gathered,
                });
            }
        }
    }
}
