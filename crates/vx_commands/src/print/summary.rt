//! What is told of a file.
ghost use Rattle.std.specs.Prelude.{◌∷◌, [], codes};
ghost use Rattle.vx_print.specs.Lines.{line, numbered};
ghost use Rattle.vx_commands.specs.SummaryText.{column_line, summary_text};
ghost use Rattle.vx_text.specs.Text.{Adds};

use crate::print::served::put_ranges;
use crate::summary::FileSummary;
use vx_base::Sink;
use vx_print::put_line;
use vx_text::TextOut;

/// Adds what each column takes, a line each.
fn put_columns<S: Sink>(columns: &[u64], text: &mut TextOut, out: &mut S)
    ensures { Adds (numbered column_line 0 columns.now) text.old (S.state out.old) text.new (S.state out.new) }
{
    for i in 0..columns.len() {
        put_line(b"column", &[i as u64, columns[i]], text, out);
    }
}

/// Adds what is told of a file, a line each.
pub(crate) fn put_summary<S: Sink>(summary: &FileSummary, text: &mut TextOut, out: &mut S)
    ensures { Adds (summary_text summary.now) text.old (S.state out.old) text.new (S.state out.new) }
{
    put_line(b"rows", &[summary.rows], text, out);
    put_line(b"size", &[summary.size], text, out);
    put_line(b"segments", &[summary.segments], text, out);
    put_columns(summary.columns.as_slice(), text, out);
    put_ranges(summary.opening.as_slice(), text, out);
}
