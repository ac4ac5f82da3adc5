//! The lines of a footer.
ghost use Rattle.std.specs.Prelude.{◌≡◌, ◌∷◌, [], ◌++◌, codes, map, string_bytes};
ghost use Rattle.std.specs.List.{flat_map};
ghost use Rattle.vx_data.specs.Layout.{dtype_of, rows_of};
ghost use Rattle.vx_print.specs.Lines.{line, numbered, numbers_after};
ghost use Rattle.vx_print.specs.FooterText.{array_line, footer_text, meta_line, segment_line};
ghost use Rattle.vx_data.specs.Texts.{dtype_text};
ghost use Rattle.vx_text.specs.Text.{Adds};

use crate::layout::put_layout;
use crate::statistics::put_statistics;
use crate::words::{put_line, put_numbers, put_quoted};
use vx_base::{SegmentSpec, Sink};
use vx_footer::{Footer, PostscriptMetadata, PostscriptSegment};
use vx_text::TextOut;

fn put_rows<S: Sink>(footer: &Footer, text: &mut TextOut, out: &mut S)
    ensures { Adds (line (codes "rows") (rows_of footer.now.content.layout ∷ [])) text.old (S.state out.old) text.new (S.state out.new) }
{
    put_line(b"rows", &[footer.row_count()], text, out);
}

fn put_dtype<S: Sink>(dtype: &str, text: &mut TextOut, out: &mut S)
    ensures { Adds (codes "dtype " ++ dtype.now ++ 10 ∷ []) text.old (S.state out.old) text.new (S.state out.new) }
{
    text.word(out, b"dtype ");
    text.word(out, dtype.as_bytes());
    text.end_line(out);
}

fn put_segment<S: Sink>(place: u64, segment: &SegmentSpec, text: &mut TextOut, out: &mut S)
    ensures { Adds (segment_line place segment.now) text.old (S.state out.old) text.new (S.state out.new) }
{
    let exponent = u64::from(segment.alignment.exponent());
    let length = u64::from(segment.length);
    put_line(
        b"segment",
        &[place, segment.offset, length, exponent],
        text,
        out,
    );
}

fn put_segments<S: Sink>(segments: &[SegmentSpec], text: &mut TextOut, out: &mut S)
    ensures { Adds (numbered segment_line 0 segments.now) text.old (S.state out.old) text.new (S.state out.new) }
{
    for i in 0..segments.len() {
        put_segment(i as u64, &segments[i], text, out);
    }
}

fn put_array<S: Sink>(place: u64, id: &str, text: &mut TextOut, out: &mut S)
    ensures { Adds (array_line place id.now) text.old (S.state out.old) text.new (S.state out.new) }
{
    text.word(out, b"array ");
    text.number(out, place);
    text.word(out, b" ");
    put_quoted(id.as_bytes(), text, out);
    text.end_line(out);
}

fn put_arrays<S: Sink>(ids: &[String], text: &mut TextOut, out: &mut S)
    ensures { Adds (numbered array_line 0 (map string_bytes ids.now)) text.old (S.state out.old) text.new (S.state out.new) }
{
    for i in 0..ids.len() {
        put_array(i as u64, ids[i].as_str(), text, out);
    }
}

fn put_place<S: Sink>(place: &PostscriptSegment, text: &mut TextOut, out: &mut S)
    ensures { Adds (numbers_after (place.now.offset ∷ place.now.length ∷ place.now.alignment ∷ [])) text.old (S.state out.old)
        text.new (S.state out.new) }
{
    let exponent = u64::from(place.alignment.exponent());
    put_numbers(
        &[place.offset, u64::from(place.length), exponent],
        text,
        out,
    );
}

fn put_entry<S: Sink>(entry: &PostscriptMetadata, text: &mut TextOut, out: &mut S)
    ensures { Adds (meta_line entry.now) text.old (S.state out.old) text.new (S.state out.new) }
{
    text.word(out, b"meta ");
    put_quoted(entry.key.as_str().as_bytes(), text, out);
    put_place(&entry.segment, text, out);
    text.end_line(out);
}

fn put_metadata<S: Sink>(entries: &[PostscriptMetadata], text: &mut TextOut, out: &mut S)
    ensures { Adds (flat_map meta_line entries.now) text.old (S.state out.old) text.new (S.state out.new) }
{
    for entry in entries {
        put_entry(entry, text, out);
    }
}

/// Adds the lines of a footer, whose rows have a type of this text.
pub fn put_footer<S: Sink>(footer: &Footer, dtype: &str, text: &mut TextOut, out: &mut S)
    requires { dtype.now ≡ dtype_text (dtype_of footer.now.content.layout) }
    ensures { Adds (footer_text footer.now.content) text.old (S.state out.old) text.new (S.state out.new) }
{
    put_rows(footer, text, out);
    put_dtype(dtype, text, out);
    put_layout(footer.layout(), 0, text, out);
    put_segments(footer.segment_map(), text, out);
    put_statistics(footer.statistics(), text, out);
    put_arrays(footer.array_ids(), text, out);
    put_metadata(footer.metadata(), text, out);
}
