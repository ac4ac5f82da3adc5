//! Scripts: a step a line.

ghost use Rattle.std.specs.Prelude.{◌≡◌, ◌+◌, ◌≤◌, length, drop};
ghost use Rattle.vx_text.specs.Numbers.{number_of};
ghost use Rattle.vx_commands.specs.Script.{register_of, poll_of, drop_of, numbered_step, step_of, lines_of, line_length, script_of, Reads};

use std::alloc::{AllocError, Global};
use vx_file::{Script, Step};
use vx_text::number;

/// Why a script could not be read.
#[derive(Clone, Copy, Debug, PartialEq, Eq)]
pub enum ScriptError {
    /// The first line, counted from 1, that is no step.
    Line(u64),
    OutOfMemory,
}

impl From<AllocError> for ScriptError {
    ghost use Rattle.vx_commands.specs.declared.script.ScriptError.TheVariants.{OutOfMemory};

    ghost from_gives = { λ _ e. e ≡ OutOfMemory };

    fn from(_error: AllocError) -> ScriptError {
        ScriptError::OutOfMemory
    }
}

fn register(segment: Option<u64>) -> Option<Step>
    ensures { result ≡ register_of segment }
{
    match segment {
        Some(segment) if segment <= u64::from(u32::MAX) => Some(Step::Register(segment as u32)),
        _ => None,
    }
}

fn poll(number: Option<u64>) -> Option<Step>
    ensures { result ≡ poll_of number }
{
    Some(Step::Poll(number?))
}

fn end(number: Option<u64>) -> Option<Step>
    ensures { result ≡ drop_of number }
{
    Some(Step::Drop(number?))
}

/// The step that a letter and a number spell.
fn numbered(line: &[u8]) -> Option<Step>
    ensures { result ≡ numbered_step line.now }
{
    let [letter, space, digits @ ..] = line else {
        return None;
    };
    if *space != b' ' {
        return None;
    }
    match *letter {
        b'r' => register(number(digits)),
        b'p' => poll(number(digits)),
        b'd' => end(number(digits)),
        _ => None,
    }
}

/// The step that a line spells.
#[tactic(auto, unfolding(crate::specs::Script::step_of))]
fn step(line: &[u8]) -> Option<Step>
    ensures { result ≡ step_of line.now }
{
    match line {
        [b'g', b'o'] => Some(Step::Drive),
        _ => numbered(line),
    }
}

/// How many bytes stand before the first line feed.
fn line_end(text: &[u8]) -> usize
    ensures length { result ≡ line_length text.now }
    ensures within { result ≤ length text.now }
{
    let mut end = 0;
    for byte in text {
        if *byte == b'\n' {
            return end;
        }
        end += 1;
    }
    end
}

/// What stands after a line of this length and its line feed.
fn after_line(text: &[u8], end: usize) -> &[u8]
    requires { end ≤ length text.now }
    ensures { result.now ≡ drop (end + 1) text.now }
{
    if end == text.len() {
        return &text[end..];
    }
    &text[end + 1..]
}

/// So many bytes are counted at once, with a count of one byte.
const BLOCK: usize = 128;

/// How many line feeds a block has at most.
#[inline(always)]
fn most_feeds(block: &[u8]) -> u8
    requires { length block.now ≤ 128 }
    ensures { result ≤ length block.now }
{
    let mut count = 0;
    for byte in block {
        count += u8::from(*byte == b'\n');
    }
    count
}

/// How many lines a text has at most.
fn most_lines(text: &[u8]) -> usize
    ensures { result ≤ length text.now + 1 }
{
    let mut count = 1;
    for at in (0..text.len()).step_by(BLOCK) {
        let end = at + BLOCK.min(text.len() - at);
        count += usize::from(most_feeds(&text[at..end]));
    }
    count
}

/// The steps of a script, a line each. Refuses the first line that is no step.
pub fn read(alloc: Global, text: &[u8]) -> Result<Script, ScriptError>
    ensures { Reads result (script_of text.now) }
{
    let mut script = Script::with_capacity(alloc, most_lines(text))?;
    let mut rest = text;
    let mut line = 0u64;
    while !rest.is_empty() {
        line += 1;
        let end = line_end(rest);
        let Some(next) = step(&rest[..end]) else {
            return Err(ScriptError::Line(line));
        };
        script.push(next)?;
        rest = after_line(rest, end);
    }
    Ok(script)
}
