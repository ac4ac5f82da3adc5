//! The lines of layouts.
ghost use Rattle.std.specs.Prelude.{◌≡◌, ◌∷◌, decimal};
ghost use Rattle.vx_data.specs.Layout.{layouts_of, kind_of, rows_of, segments_of, numbers_of};
ghost use Rattle.vx_print.specs.Lines.{numbers_after};
ghost use Rattle.vx_print.specs.FooterText.{kind_name, layout_line, layout_lines, layouts_lines};
ghost use Rattle.vx_text.specs.Text.{Adds};

use vx_base::{SegmentId, Sink};
use vx_data::{Layout, LayoutKind};
use vx_text::TextOut;

fn name_of(kind: LayoutKind) -> &'static str
    ensures { result.now ≡ kind_name kind }
{
    match kind {
        LayoutKind::Flat => "flat",
        LayoutKind::Chunked => "chunked",
        LayoutKind::Struct => "struct",
    }
}

/// Adds the numbers of segments, each after a space.
fn put_ids<S: Sink>(ids: &[SegmentId], text: &mut TextOut, out: &mut S)
    ensures { Adds (numbers_after (numbers_of ids.now)) text.old (S.state out.old) text.new (S.state out.new) }
{
    for id in ids {
        text.number_after(out, u64::from(id.0));
    }
}

/// Adds the kind of a layout.
fn put_kind<S: Sink>(layout: &Layout, text: &mut TextOut, out: &mut S)
    ensures { Adds (kind_name (kind_of layout.now)) text.old (S.state out.old) text.new (S.state out.new) }
{
    text.word(out, name_of(layout.kind()).as_bytes());
}

/// Adds the rows of a layout, and the segments that it names itself.
fn put_counts<S: Sink>(layout: &Layout, text: &mut TextOut, out: &mut S)
    ensures { Adds (numbers_after (rows_of layout.now ∷ segments_of layout.now)) text.old (S.state out.old) text.new (S.state out.new) }
{
    text.number_after(out, layout.row_count());
    put_ids(layout.segment_ids(), text, out);
}

/// Adds the line of a layout alone.
fn put_one<S: Sink>(layout: &Layout, depth: u64, text: &mut TextOut, out: &mut S)
    ensures { Adds (layout_line depth (kind_of layout.now) (rows_of layout.now) (segments_of layout.now)) text.old (S.state out.old)
        text.new (S.state out.new) }
{
    text.word(out, b"layout ");
    text.number(out, depth);
    text.word(out, b" ");
    put_kind(layout, text, out);
    put_counts(layout, text, out);
    text.end_line(out);
}

/// Adds the lines of layouts, in order.
#[cycle(below)]
#[tactic(auto, using(crate::proofs::LayoutLines::smaller_one))]
fn put_all<S: Sink>(layouts: &[Layout], depth: u64, text: &mut TextOut, out: &mut S)
    ensures { Adds (layouts_lines depth (layouts_of layouts.now)) text.old (S.state out.old) text.new (S.state out.new) }
{
    for at in 0..layouts.len() {
        put_layout(&layouts[at], depth, text, out);
    }
}

/// Adds the line of a layout, and those of the layouts below it.
#[cycle(below)]
pub(crate) fn put_layout<S: Sink>(layout: &Layout, depth: u64, text: &mut TextOut, out: &mut S)
    ensures { Adds (layout_lines depth layout.now) text.old (S.state out.old) text.new (S.state out.new) }
{
    put_one(layout, depth, text, out);
    put_all(layout.children(), depth.saturating_add(1), text, out);
}
