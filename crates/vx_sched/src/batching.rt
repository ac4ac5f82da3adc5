//! Making the spans of a batch.
ghost use Rattle.std.specs.Prelude.{◌≡◌, ℕ, ◌==◌, ◌<◌, ◌^◌, ◌||◌, ◌∷◌, [], Some, IfOk, OnOk};
ghost use Rattle.vx_sched.specs.Span.{end_of};
ghost use Rattle.vx_sched.specs.Merging.{Merges};
ghost use Rattle.vx_sched.specs.Picks.{free_at};

use crate::gather::{Rules, gather};
use crate::table::Table;
use crate::taken::Taken;
use crate::{CoalescedRequest, ReadRequest};
use std::alloc::{AllocError, Global};

/// The span of one read alone.
pub fn lone(alloc: Global, first: ReadRequest) -> Result<CoalescedRequest, AllocError>
    requires { end_of first < 2 ^ 64 }
    ensures { IfOk result (λ span. span ≡ record {
      start = first.offset;
      end = end_of first;
      alignment = first.alignment;
      reads = first ∷ [];
    }) }
{
    let start = first.offset;
    let end = start + first.length as u64;
    let alignment = first.alignment;
    let mut reads = Vec::with_capacity(alloc, 1)?;
    reads.push(first)?;
    Ok(CoalescedRequest::within(start, end, alignment, reads))
}

/// The span that rules gather from a read on.
pub fn gathered(
    alloc: Global,
    table: &Table,
    before: &Taken,
    rules: &Rules,
    first: ReadRequest,
) -> Result<CoalescedRequest, AllocError>
    requires free { free_at table.now before.now first.id ≡ Some first }
    requires fits { end_of first < 2 ^ 64 }
    ensures { IfOk result (λ span. Merges (Some rules.now.distance) rules.now.limit rules.now.alignment
        (free_at table.now before.now) first.id span) }
{
    let picks = gather(alloc, table, before, rules, first)?;
    let alignment = rules.alignment;
    let start = alignment.down(picks.low);
    let end = picks.high;
    let reads = picks.into_reads(alloc)?;
    Ok(CoalescedRequest::within(start, end, alignment, reads))
}
