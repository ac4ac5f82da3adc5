//! Where the rows of a file are split.
ghost use Rattle.std.specs.Prelude.{◌≡◌, ◌+◌, ◌<◌, ◌^◌, ◌++◌, map, IfOk, OnOk};
ghost use Rattle.vx_data.specs.Layout.{kind_of, children_of, rows_of};
ghost use Rattle.vx_data.specs.declared.layout_kind.LayoutKind.TheVariants.{Chunked, Struct};
ghost use Rattle.vx_file.specs.Splits.{ends_of, chunk_ends, field_ends, neighbours, AreDistinct, AreSplits};

use crate::VortexFile;
use std::alloc::{AllocError, Global};
use std::ops::Range;
use vx_data::{Layout, LayoutKind};
use vx_source::SegmentSource;

/// Adds where the flat layouts of chunks end.
#[cycle(ending)]
fn push_chunk_ends(layout: &Layout, first: u64, ends: &mut Vec<u64>) -> Result<(), AllocError>
    requires chunked { kind_of layout.now ≡ Chunked }
    requires inside { first + rows_of layout.now < 2 ^ 64 }
    ensures { OnOk result (ends.new.items ≡ ends.old.items ++ chunk_ends first (children_of layout.now)) }
{
    let mut at = first;
    for chunk in layout.fitted_children() {
        push_ends(chunk, at, ends)?;
        at += chunk.row_count();
    }
    Ok(())
}

/// Adds where the flat layouts of fields end.
#[cycle(ending)]
fn push_field_ends(layout: &Layout, first: u64, ends: &mut Vec<u64>) -> Result<(), AllocError>
    requires fields { kind_of layout.now ≡ Struct }
    requires inside { first + rows_of layout.now < 2 ^ 64 }
    ensures { OnOk result (ends.new.items ≡ ends.old.items ++ field_ends first (children_of layout.now)) }
{
    for field in layout.fitted_children() {
        push_ends(field, first, ends)?;
    }
    Ok(())
}

/// Adds where the flat layouts of a layout end, whose first row this is.
#[cycle(ending)]
fn push_ends(layout: &Layout, first: u64, ends: &mut Vec<u64>) -> Result<(), AllocError>
    requires { first + rows_of layout.now < 2 ^ 64 }
    ensures { OnOk result (ends.new.items ≡ ends.old.items ++ ends_of first layout.now) }
{
    match layout.kind() {
        LayoutKind::Flat => {
            ends.push(first + layout.row_count())?;
            Ok(())
        }
        LayoutKind::Chunked => push_chunk_ends(layout, first, ends),
        LayoutKind::Struct => push_field_ends(layout, first, ends),
    }
}

/// The numbers, each once and in order.
fn make_distinct(numbers: &mut Vec<u64>)
    ensures { AreDistinct numbers.new.items numbers.old.items }
{
    numbers.sort_unstable();
    numbers.dedup();
}

/// The ranges between neighbours.
fn ranges_between(alloc: Global, points: &[u64]) -> Result<Vec<Range<u64>>, AllocError>
    ensures { IfOk result (λ v. map (λ r. (r.start, r.end)) v.items ≡ neighbours points.now) }
{
    let mut ranges = Vec::new(alloc);
    for at in 1..points.len() {
        ranges.push(points[at - 1]..points[at])?;
    }
    Ok(ranges)
}

impl<S: SegmentSource> VortexFile<S> {
    /// The ranges between neighbours among the first row and the ends of all flat layouts. Only memory refuses.
    pub fn splits(&self, alloc: Global) -> Result<Vec<Range<u64>>, AllocError>
        ensures { let t = self.now.footer.content.layout in
            IfOk result (λ v. AreSplits t (map (λ r. (r.start, r.end)) v.items)) }
    {
        let mut points = Vec::new(alloc);
        points.push(0)?;
        let layout = self.footer().layout();
        let rows = layout.row_count();
        prove!(rows <= u64::MAX);
        push_ends(layout, 0, &mut points)?;
        make_distinct(&mut points);
        Ok(ranges_between(alloc, &points)?)
    }
}
