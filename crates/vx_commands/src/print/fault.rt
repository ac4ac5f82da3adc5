//! Why a read failed.
ghost use Rattle.vx_commands.specs.Render.{fault_words};
ghost use Rattle.vx_text.specs.Text.{Adds};

use vx_base::Sink;
use vx_print::put_numbers;
use vx_sched::{Fault, Place};
use vx_text::TextOut;

/// Adds why a read failed, and what it asked.
pub(crate) fn put_fault<S: Sink>(fault: &Fault, text: &mut TextOut, out: &mut S)
    ensures { Adds (fault_words fault.now) text.old (S.state out.old) text.new (S.state out.new) }
{
    text.word(out, fault.kind().name().as_bytes());
    match fault.place() {
        Place::Size => text.word(out, b" size"),
        Place::Range { offset, length } => put_numbers(&[offset, length as u64], text, out),
    }
}
