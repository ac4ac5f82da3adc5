//! The segments that a layout's table names. Most tables name one, or none.
ghost use Rattle.std.specs.Prelude.{◌≡◌, IfOk};
ghost use Rattle.vx_data.specs.Layout.{numbers_of};
ghost use Rattle.vx_data.specs.LayoutTable.{ids_in};

use std::alloc::{AllocError, Global};
use std::array;
use vx_base::SegmentId;

/// The segments that a layout's table names. One segment takes no memory of its own.
#[derive(Debug, Drop)]
pub(crate) enum SegmentIds {
    One(SegmentId),
    Listed(Vec<SegmentId>),
}

impl SegmentIds {
    /// The segments of these numbers.
    pub(crate) fn of(alloc: Global, numbers: &[u32]) -> Result<SegmentIds, AllocError>
        ensures { IfOk result (λ ids. numbers_of (ids_in ids) ≡ numbers.now) }
    {
        if let [number] = numbers {
            return Ok(SegmentIds::One(SegmentId(*number)));
        }
        Ok(SegmentIds::Listed(listed(alloc, numbers)?))
    }

    /// The segments in order.
    pub(crate) fn as_slice(&self) -> &[SegmentId]
        ensures { result.now ≡ ids_in self.now }
    {
        match self {
            SegmentIds::One(id) => array::from_ref(id),
            SegmentIds::Listed(ids) => ids,
        }
    }
}

/// A list of the segments of these numbers.
fn listed(alloc: Global, numbers: &[u32]) -> Result<Vec<SegmentId>, AllocError>
    ensures { IfOk result (λ ids. numbers_of ids.items ≡ numbers.now) }
{
    let mut ids = Vec::new(alloc);
    for number in numbers {
        ids.push(SegmentId(*number))?;
    }
    Ok(ids)
}
