//! Answers matched to ranges: each range gets the first answer left that names it.
ghost use Rattle.std.specs.Prelude.{◌≡◌, map, position, true, None, IfOk};
ghost use Rattle.vx_base.specs.Asking.{logged, names, answer_to, without_answer, same_range, mark_of_result, ranges_of, faulted};
ghost use Rattle.vx_base.specs.Outlines.{outline_of, mark_of_outline};

use crate::{Asked, Failed, FaultKind, RangeAnswer, ReadAtRequest};
use std::alloc::{AllocError, Global};

fn is_same(a: &ReadAtRequest, b: &ReadAtRequest) -> bool
    ensures { result ≡ same_range a.now b.now }
{
    a.offset == b.offset && a.length == b.length && a.alignment.exponent() == b.alignment.exponent()
}

fn place_of<B>(answers: &[RangeAnswer<B>], range: &ReadAtRequest) -> Option<usize>
    ensures { result ≡ position (names range.now) answers.now }
{
    answers.iter().position(|a| is_same(range, &a.request))
}

/// Takes the first answer that names a range.
pub fn take_answer<B>(
    answers: &mut Vec<RangeAnswer<B>>,
    range: &ReadAtRequest,
) -> Option<RangeAnswer<B>>
    ensures found { result ≡ answer_to range.now answers.old.items }
    ensures left { answers.new.items ≡ without_answer range.now answers.old.items }
{
    match place_of(answers.as_slice(), range) {
        Some(place) => Some(answers.remove(place)),
        None => None,
    }
}

// An answer without its bytes.
fn outlined(answer: &RangeAnswer) -> RangeAnswer<usize>
    ensures { result ≡ outline_of answer.now }
{
    let result = match &answer.result {
        Ok(buffer) => Ok(buffer.len()),
        Err(_) => Err(Failed),
    };
    RangeAnswer {
        request: answer.request,
        result,
    }
}

fn all_outlined(
    alloc: Global,
    answers: &[RangeAnswer],
) -> Result<Vec<RangeAnswer<usize>>, AllocError>
    ensures { IfOk result (λ all. all.items ≡ map outline_of answers.now) }
{
    let mut all = Vec::new(alloc);
    for answer in answers {
        all.push(outlined(answer))?;
    }
    Ok(all)
}

fn mark(length: usize, outline: Option<RangeAnswer<usize>>) -> Option<FaultKind>
    ensures { result ≡ mark_of_outline length outline }
{
    let Some(RangeAnswer { request: _, result }) = outline else {
        return Some(FaultKind::MissingRange);
    };
    let Ok(count) = result else {
        return Some(FaultKind::ReadFault);
    };
    if count == length {
        None
    } else {
        Some(FaultKind::ShortRead)
    }
}

/// The ranges of one call of a reader, each marked by the first answer left that names it. Only
/// memory refuses.
pub fn log_answers(
    alloc: Global,
    asked: &[ReadAtRequest],
    answers: &[RangeAnswer],
) -> Result<Vec<Asked>, AllocError>
    ensures log { IfOk result (λ log. log.items ≡ logged asked.now answers.now) }
    ensures ranges { IfOk result (λ log. ranges_of log.items ≡ asked.now) }
{
    let mut left = all_outlined(alloc, answers)?;
    let mut log = Vec::new(alloc);
    for range in asked {
        let found = take_answer(&mut left, range);
        log.push(Asked {
            range: *range,
            mark: mark(range.length, found),
        })?;
    }
    Ok(log)
}

// Whether an answer names a range and has the bytes of its length.
fn is_whole(range: &ReadAtRequest, answer: &RangeAnswer) -> bool
    ensures names { result ≡ true → names range.now answer.now ≡ true }
    ensures whole { result ≡ true → mark_of_result range.now.length answer.now.result ≡ None }
{
    if !is_same(range, &answer.request) {
        return false;
    }
    match &answer.result {
        Ok(buffer) => buffer.len() == range.length,
        Err(_) => false,
    }
}

/// Whether answers name ranges in their order, each with the bytes of its length. Then none of these is at fault.
pub fn are_whole(asked: &[ReadAtRequest], answers: &[RangeAnswer]) -> bool
    ensures { result ≡ true → faulted (logged asked.now answers.now) ≡ 0 }
{
    for at in 0..asked.len() {
        let Some(answer) = answers.get(at) else {
            return false;
        };
        if !is_whole(&asked[at], answer) {
            return false;
        }
    }
    true
}

/// How many ranges of a log got no bytes of their length.
pub fn count_faulted(log: &[Asked]) -> usize
    ensures { result ≡ faulted log.now }
{
    log.iter().filter(|asked| asked.mark.is_some()).count()
}
