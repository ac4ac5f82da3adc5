//! What was served.
ghost use Rattle.std.specs.List.{flat_map};
ghost use Rattle.vx_commands.specs.Render.{read_line, reply_text, value_line, values_text, render_text};
ghost use Rattle.vx_text.specs.Text.{Adds};

use crate::print::reply::put_reply;
use crate::printable::Printable;
use vx_base::{Sequence, Sink};
use vx_file::{MetadataValue, Replies};
use vx_print::{put_footer, put_line, put_quoted};
use vx_text::{TextOut, put_hex};

/// Adds the ranges that were asked, a line each.
pub(crate) fn put_ranges<S: Sink>(ranges: &[(u64, u64)], text: &mut TextOut, out: &mut S)
    ensures { Adds (flat_map read_line ranges.now) text.old (S.state out.old) text.new (S.state out.new) }
{
    for range in ranges {
        put_line(b"read", &[range.0, range.1], text, out);
    }
}

fn put_replies<S: Sink>(replies: &Replies, text: &mut TextOut, out: &mut S)
    ensures { Adds (flat_map reply_text replies.now) text.old (S.state out.old) text.new (S.state out.new) }
{
    for told in replies.iter() {
        put_reply(told.reply(), text, out);
    }
}

/// Adds a value of the metadata under its key.
fn put_value<S: Sink>(value: &MetadataValue, text: &mut TextOut, out: &mut S)
    ensures { Adds (value_line value.now) text.old (S.state out.old) text.new (S.state out.new) }
{
    text.word(out, b"value ");
    put_quoted(value.key.as_str().as_bytes(), text, out);
    text.word(out, b" ");
    put_hex(value.value.as_slice(), text, out);
    text.end_line(out);
}

fn put_values<S: Sink>(values: &[MetadataValue], text: &mut TextOut, out: &mut S)
    ensures { Adds (flat_map value_line values.now) text.old (S.state out.old) text.new (S.state out.new) }
{
    for value in values {
        put_value(value, text, out);
    }
}

/// Adds the values of the metadata, if they were loaded.
fn put_loaded<S: Sink>(metadata: &Option<Sequence<MetadataValue>>, text: &mut TextOut, out: &mut S)
    ensures { Adds (values_text metadata.now) text.old (S.state out.old) text.new (S.state out.new) }
{
    match metadata {
        Some(values) => put_values(values.as_slice(), text, out),
        None => {}
    }
}

/// Adds the text of what was served: the footer, the values of the metadata, what was read before the script, and the
/// replies, a line each.
pub(crate) fn put_served<S: Sink>(printable: &Printable, text: &mut TextOut, out: &mut S)
    ensures { Adds (render_text printable.now) text.old (S.state out.old) text.new (S.state out.new) }
{
    let served = printable.served();
    put_footer(&served.footer, printable.dtype(), text, out);
    put_loaded(&served.metadata, text, out);
    put_ranges(served.opening.as_slice(), text, out);
    put_replies(&served.replies, text, out);
}
