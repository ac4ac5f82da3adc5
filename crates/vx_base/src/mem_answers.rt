//! The answers of a reader in memory.
ghost use Rattle.std.specs.Prelude.{◌≡◌, ◌≢◌, ◌∷◌, ◌++◌, [], length, All, IfOk, OnOk};
ghost use Rattle.vx_base.specs.Asking.{IsTrueTo};
ghost use Rattle.vx_base.specs.Mischiefs.{plain_answer, failed_answer, short_answer, without_last, past, turn_answers, turn};

use crate::mischief::mischief_at;
use crate::{Alignment, ByteBuffer, Failed, Mischief, MischiefKind, RangeAnswer, ReadAtRequest};
use std::alloc::{AllocError, Global};

// The answer to a range without mischief.
fn answer_plainly(
    alloc: Global,
    held: &ByteBuffer,
    range: &ReadAtRequest,
) -> Result<RangeAnswer, AllocError>
    ensures plain { IfOk result (λ a. a ≡ plain_answer held.now.bytes range.now) }
    ensures slices { IfOk result (λ a. IsTrueTo held.now.bytes a) }
    ensures request { IfOk result (λ a. a.request ≡ range.now) }
    ensures len { IfOk result (λ a. IfOk a.result (λ b. length b.bytes ≡ range.now.length)) }
{
    let size = held.len() as u64;
    if range.offset > size || range.length as u64 > size - range.offset {
        return Ok(answer_failed(range));
    }
    let start = range.offset as usize;
    let cut = held.slice(alloc, start..start + range.length)?;
    Ok(RangeAnswer {
        request: *range,
        result: Ok(cut.aligned(range.alignment)),
    })
}

// The answer that a range failed.
fn answer_failed(range: &ReadAtRequest) -> RangeAnswer
    ensures { result ≡ failed_answer range.now }
{
    RangeAnswer {
        request: *range,
        result: Err(Failed),
    }
}

// A buffer without its last byte, or of one zero where it is empty.
fn shortened(alloc: Global, buffer: &ByteBuffer) -> Result<ByteBuffer, AllocError>
    ensures value { IfOk result (λ b. b ≡ without_last buffer.now) }
    ensures other { IfOk result (λ b. length b.bytes ≢ length buffer.now.bytes) }
{
    if buffer.is_empty() {
        return ByteBuffer::from_vec(alloc, vec![in alloc; 0u8]?, Alignment::none());
    }
    buffer.slice(alloc, 0..buffer.len() - 1)
}

// The answer to a range, with a byte too few or too many.
fn answer_shortly(
    alloc: Global,
    held: &ByteBuffer,
    range: &ReadAtRequest,
) -> Result<RangeAnswer, AllocError>
    ensures value { IfOk result (λ a. a ≡ short_answer held.now.bytes range.now) }
    ensures slices { IfOk result (λ a. IsTrueTo held.now.bytes a) }
{
    let answer = answer_plainly(alloc, held, range)?;
    match &answer.result {
        Ok(buffer) => {
            let cut = shortened(alloc, buffer)?;
            Ok(RangeAnswer {
                request: *range,
                result: Ok(cut),
            })
        }
        Err(_) => Ok(answer_failed(range)),
    }
}

// The range 4 past a range.
fn past_of(range: &ReadAtRequest) -> ReadAtRequest
    ensures { result ≡ past range.now }
{
    ReadAtRequest {
        offset: range.offset.saturating_add(4),
        length: range.length,
        alignment: range.alignment,
    }
}

// Adds an answer.
fn push_true(
    held: &ByteBuffer,
    answer: RangeAnswer,
    answers: &mut Vec<RangeAnswer>,
) -> Result<(), AllocError>
    requires slices { All (IsTrueTo held.now.bytes) answers.old.items }
    requires slice { IsTrueTo held.now.bytes answer }
    ensures slices { OnOk result (All (IsTrueTo held.now.bytes) answers.new.items) }
    ensures pushed { OnOk result (answers.new.items ≡ answers.old.items ++ answer ∷ []) }
{
    let _ = held;
    answers.push(answer)?;
    Ok(())
}

// Adds the answers to one range in one of the two turns of a call: of late answers, or of the others.
fn push_answers(
    alloc: Global,
    held: &ByteBuffer,
    range: &ReadAtRequest,
    kind: Option<MischiefKind>,
    late: bool,
    answers: &mut Vec<RangeAnswer>,
) -> Result<(), AllocError>
    requires { All (IsTrueTo held.now.bytes) answers.old.items }
    ensures slices { OnOk result (All (IsTrueTo held.now.bytes) answers.new.items) }
    ensures value { OnOk result (answers.new.items ≡ answers.old.items ++ turn_answers late held.now.bytes kind range.now) }
{
    if late {
        return match kind {
            Some(MischiefKind::Late) => push_true(
                held,
                answer_plainly(alloc, held, range)?,
                answers,
            ),
            _ => Ok(()),
        };
    }
    match kind {
        Some(MischiefKind::Skip) | Some(MischiefKind::Late) => Ok(()),
        Some(MischiefKind::Fail) => push_true(held, answer_failed(range), answers),
        Some(MischiefKind::Short) => push_true(held, answer_shortly(alloc, held, range)?, answers),
        Some(MischiefKind::Unknown) => {
            let unasked = answer_plainly(alloc, held, &past_of(range))?;
            push_true(held, unasked, answers)?;
            push_true(held, answer_plainly(alloc, held, range)?, answers)
        }
        _ => push_true(held, answer_plainly(alloc, held, range)?, answers),
    }
}

// Adds the answers of one of the two turns of a call, whose first range has this place in the log.
pub(crate) fn push_turn(
    alloc: Global,
    held: &ByteBuffer,
    mischief: &[Mischief],
    place: u64,
    asked: &[ReadAtRequest],
    late: bool,
    answers: &mut Vec<RangeAnswer>,
) -> Result<(), AllocError>
    requires { All (IsTrueTo held.now.bytes) answers.old.items }
    ensures slices { OnOk result (All (IsTrueTo held.now.bytes) answers.new.items) }
    ensures value { OnOk result
        (answers.new.items ≡ answers.old.items ++ turn late held.now.bytes mischief.now place asked.now) }
{
    let mut at = place;
    for range in asked {
        let kind = mischief_at(mischief, at);
        push_answers(alloc, held, range, kind, late, answers)?;
        at = at.saturating_add(1);
    }
    Ok(())
}
