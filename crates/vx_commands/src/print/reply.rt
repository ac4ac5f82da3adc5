//! The lines of replies.
ghost use Rattle.std.specs.Prelude.{◌∷◌, [], ◌++◌, length, codes};
ghost use Rattle.std.specs.List.{flat_map};
ghost use Rattle.vx_print.specs.Lines.{words, line};
ghost use Rattle.vx_commands.specs.Render.{cause_words, outcome_word, span_line, held_word, reply_text};
ghost use Rattle.vx_text.specs.Hexadecimal.{hex_text};
ghost use Rattle.vx_text.specs.Text.{Adds};

use crate::print::fault::put_fault;
use vx_base::Sink;
use vx_file::{FailCause, Reply, Span, SpanOutcome};
use vx_print::{put_line, put_numbers, put_words};
use vx_text::{TextOut, put_hex};

fn put_outcome<S: Sink>(outcome: &SpanOutcome, text: &mut TextOut, out: &mut S)
    ensures { Adds (outcome_word outcome.now) text.old (S.state out.old) text.new (S.state out.new) }
{
    match outcome {
        SpanOutcome::Good => text.word(out, b" ok"),
        SpanOutcome::Bad(fault) => {
            text.word(out, b" ");
            text.word(out, fault.kind().name().as_bytes())
        }
    }
}

fn put_span<S: Sink>(span: &Span, text: &mut TextOut, out: &mut S)
    ensures { Adds (span_line span.now) text.old (S.state out.old) text.new (S.state out.new) }
{
    put_words(b"span", &[span.start, span.end], text, out);
    put_outcome(&span.outcome, text, out);
    put_numbers(span.reads.as_slice(), text, out);
    text.end_line(out);
}

fn put_spans<S: Sink>(spans: &[Span], text: &mut TextOut, out: &mut S)
    ensures { Adds (flat_map span_line spans.now) text.old (S.state out.old) text.new (S.state out.new) }
{
    for span in spans {
        put_span(span, text, out);
    }
}

fn put_held<S: Sink>(held: bool, text: &mut TextOut, out: &mut S)
    ensures { Adds (held_word held) text.old (S.state out.old) text.new (S.state out.new) }
{
    if held {
        text.word(out, b" held\n")
    } else {
        text.word(out, b"\n")
    }
}

fn put_registered<S: Sink>(number: u64, held: bool, text: &mut TextOut, out: &mut S)
    ensures { Adds (words (codes "registered") (number ∷ []) ++ held_word held) text.old (S.state out.old) text.new (S.state out.new) }
{
    put_words(b"registered", &[number], text, out);
    put_held(held, text, out);
}

fn put_ready<S: Sink>(bytes: &[u8], text: &mut TextOut, out: &mut S)
    ensures { Adds (codes "ready " ++ hex_text bytes.now ++ 10 ∷ []) text.old (S.state out.old) text.new (S.state out.new) }
{
    text.word(out, b"ready ");
    put_hex(bytes, text, out);
    text.end_line(out);
}

fn put_cause<S: Sink>(cause: &FailCause, text: &mut TextOut, out: &mut S)
    ensures { Adds (cause_words cause.now) text.old (S.state out.old) text.new (S.state out.new) }
{
    match cause {
        FailCause::Fault(fault) => put_fault(fault, text, out),
        FailCause::Cache => text.word(out, b"cache"),
    }
}

fn put_failed<S: Sink>(cause: &FailCause, text: &mut TextOut, out: &mut S)
    ensures { Adds (codes "failed " ++ cause_words cause.now ++ 10 ∷ []) text.old (S.state out.old) text.new (S.state out.new) }
{
    text.word(out, b"failed ");
    put_cause(cause, text, out);
    text.end_line(out);
}

fn put_driven<S: Sink>(spans: &[Span], text: &mut TextOut, out: &mut S)
    ensures { Adds (line (codes "driven") (length spans.now ∷ []) ++ flat_map span_line spans.now) text.old (S.state out.old) text.new (S.state out.new) }
{
    if spans.is_empty() {
        // most drives of a long script find nothing to read
        return text.word(out, b"driven 0\n");
    }
    put_line(b"driven", &[spans.len() as u64], text, out);
    put_spans(spans, text, out);
}

/// Adds the lines of a reply.
pub(crate) fn put_reply<S: Sink>(reply: &Reply, text: &mut TextOut, out: &mut S)
    ensures { Adds (reply_text reply.now) text.old (S.state out.old) text.new (S.state out.new) }
{
    match reply {
        Reply::Registered { number, held } => put_registered(*number, *held, text, out),
        Reply::MissingSegment => text.word(out, b"missing-segment\n"),
        Reply::Ready(buffer) => put_ready(buffer.as_slice(), text, out),
        Reply::Pending => text.word(out, b"pending\n"),
        Reply::Failed(cause) => put_failed(cause, text, out),
        Reply::Dropped => text.word(out, b"dropped\n"),
        Reply::NotLive => text.word(out, b"not-live\n"),
        Reply::Driven(spans) => put_driven(spans.as_slice(), text, out),
    }
}
