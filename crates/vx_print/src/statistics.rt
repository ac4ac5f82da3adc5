//! The lines of statistics.
ghost use Rattle.std.specs.Prelude.{◌≡◌, ◌++◌};
ghost use Rattle.std.specs.Fmt.{signed_decimal};
ghost use Rattle.std.specs.Option.{option_map};
ghost use Rattle.vx_data.specs.Scalar.{scalar_text, scalar_view};
ghost use Rattle.vx_data.specs.Stats.{stat_in};
ghost use Rattle.vx_print.specs.Lines.{numbered};
ghost use Rattle.vx_print.specs.FooterText.{precision_mark, stat_words, stats_line, stats_lines};
ghost use Rattle.vx_text.specs.Text.{Adds};

use crate::words::put_quoted;
use itoa::Buffer;
use vx_base::Sink;
use vx_data::{Precision, Scalar, Stat, StatsSet};
use vx_footer::FileStatistics;
use vx_text::TextOut;

fn put_int<S: Sink>(number: i128, text: &mut TextOut, out: &mut S)
    ensures { Adds (signed_decimal number) text.old (S.state out.old) text.new (S.state out.new) }
{
    let mut digits = Buffer::new();
    text.word(out, digits.format(number).as_bytes());
}

fn put_scalar<S: Sink>(scalar: &Scalar, text: &mut TextOut, out: &mut S)
    ensures { Adds (scalar_text (scalar_view scalar.now)) text.old (S.state out.old) text.new (S.state out.new) }
{
    match scalar {
        Scalar::Bool(true) => text.word(out, b"true"),
        Scalar::Bool(false) => text.word(out, b"false"),
        Scalar::Int(number) => put_int(*number, text, out),
        Scalar::Text(value) => put_quoted(value.as_bytes(), text, out),
    }
}

fn put_precision<S: Sink>(precision: Precision, text: &mut TextOut, out: &mut S)
    ensures { Adds (precision_mark precision) text.old (S.state out.old) text.new (S.state out.new) }
{
    match precision {
        Precision::Exact => text.word(out, b" ="),
        Precision::Inexact => text.word(out, b" ?"),
    }
}

fn put_known<S: Sink>(known: Option<(&Scalar, Precision)>, text: &mut TextOut, out: &mut S)
    ensures { Adds (stat_words (option_map (λ p. (scalar_view p.0.now, p.1)) known.entry)) text.old (S.state out.old) text.new (S.state out.new) }
{
    match known {
        None => text.word(out, b" ."),
        Some((scalar, precision)) => {
            put_precision(precision, text, out);
            put_scalar(scalar, text, out)
        }
    }
}

fn put_stat<S: Sink>(set: &StatsSet, stat: Stat, text: &mut TextOut, out: &mut S)
    ensures { Adds (stat_words (stat_in stat set.now)) text.old (S.state out.old) text.new (S.state out.new) }
{
    put_known(set.get(stat), text, out);
}

fn put_set<S: Sink>(place: u64, set: &StatsSet, text: &mut TextOut, out: &mut S)
    ensures { Adds (stats_line place set.now) text.old (S.state out.old) text.new (S.state out.new) }
{
    text.word(out, b"stats ");
    text.number(out, place);
    put_stat(set, Stat::Min, text, out);
    put_stat(set, Stat::Max, text, out);
    put_stat(set, Stat::NullCount, text, out);
    text.end_line(out);
}

fn put_sets<S: Sink>(sets: &[StatsSet], text: &mut TextOut, out: &mut S)
    ensures { Adds (numbered stats_line 0 sets.now) text.old (S.state out.old) text.new (S.state out.new) }
{
    for i in 0..sets.len() {
        put_set(i as u64, &sets[i], text, out);
    }
}

/// Adds a line for each set of statistics.
pub(crate) fn put_statistics<S: Sink>(
    statistics: Option<&FileStatistics>,
    text: &mut TextOut,
    out: &mut S,
)
    ensures { Adds (stats_lines (option_map (λ s. s.now) statistics.entry)) text.old (S.state out.old) text.new (S.state out.new) }
{
    if let Some(statistics) = statistics {
        put_sets(statistics.stats_sets(), text, out);
    }
}
