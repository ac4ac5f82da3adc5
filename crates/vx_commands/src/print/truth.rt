//! A truth value.
ghost use Rattle.vx_commands.specs.Outputs.{truth_text};
ghost use Rattle.vx_text.specs.Text.{Adds};

use vx_base::Sink;
use vx_text::TextOut;

/// Adds a truth value as a line.
pub(crate) fn put_truth<S: Sink>(value: bool, text: &mut TextOut, out: &mut S)
    ensures { Adds (truth_text value) text.old (S.state out.old) text.new (S.state out.new) }
{
    if value {
        text.word(out, b"true\n");
    } else {
        text.word(out, b"false\n");
    }
}
