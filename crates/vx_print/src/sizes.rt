//! The sizes of fields.
ghost use Rattle.std.specs.Prelude.{map, string_bytes};
ghost use Rattle.std.specs.List.{flat_map};
ghost use Rattle.vx_print.specs.SizesText.{part_text, path_text, size_line, sizes_text};
ghost use Rattle.vx_text.specs.Text.{Adds};

use crate::words::put_quoted;
use vx_base::Sink;
use vx_data::FieldPath;
use vx_footer::CompressedFieldSizes;
use vx_text::TextOut;

/// Adds the parts of a path.
fn put_parts<S: Sink>(parts: &[String], text: &mut TextOut, out: &mut S)
    ensures { Adds (flat_map part_text (map string_bytes parts.now)) text.old (S.state out.old) text.new (S.state out.new) }
{
    for part in parts {
        text.word(out, b"/");
        put_quoted(part.as_str().as_bytes(), text, out);
    }
}

/// Adds a path, `/` for that of the whole.
fn put_path<S: Sink>(path: &FieldPath, text: &mut TextOut, out: &mut S)
    ensures { Adds (path_text path.now) text.old (S.state out.old) text.new (S.state out.new) }
{
    let parts = path.parts();
    if parts.is_empty() {
        return text.word(out, b"/");
    }
    put_parts(parts, text, out);
}

/// Adds a path and how many bytes it takes.
fn put_size<S: Sink>(path: &FieldPath, size: u64, text: &mut TextOut, out: &mut S)
    ensures { Adds (size_line (path.now, size)) text.old (S.state out.old) text.new (S.state out.new) }
{
    text.word(out, b"size ");
    put_path(path, text, out);
    text.word(out, b" ");
    text.number(out, size);
    text.end_line(out);
}

/// Adds each path and how many bytes it takes, a line each.
pub fn put_sizes<S: Sink>(sizes: &CompressedFieldSizes, text: &mut TextOut, out: &mut S)
    ensures { Adds (sizes_text sizes.now.entries) text.old (S.state out.old) text.new (S.state out.new) }
{
    for (path, size) in sizes.iter() {
        put_size(path, size, text, out);
    }
}
