//! Asking a reader.
ghost use Rattle.std.specs.Prelude.{◌≡◌, ℕ, ◌≤◌, List, length, All, IfOk};
ghost use Rattle.vx_base.specs.Asking.{logged, IsTrueTo};
ghost use Rattle.vx_base.specs.Readers.{SameReader};
ghost use Rattle.vx_sched.specs.Outcomes.{range_fault, outcome_of, log_of, AreOutcomesOf, HaveBytesOf, AskCause, AskSizeCause};

use crate::{Fault, Outcome, Place};
use std::alloc::{AllocError, Global};
use vx_base::{Failed, FaultKind, RangeAnswer, ReadAtRequest, Reader, take_answer};

/// A fault at a range.
fn fault_at(kind: FaultKind, range: &ReadAtRequest) -> Outcome
    ensures { result ≡ Outcome.Fault (range_fault kind range.now) }
{
    Outcome::Fault(Fault {
        kind,
        place: Place::Range {
            offset: range.offset,
            length: range.length,
        },
    })
}

/// What the answer to a range makes of it.
fn outcome(range: &ReadAtRequest, answer: Option<RangeAnswer>) -> Outcome
    ensures { result ≡ outcome_of range.now answer }
{
    let Some(RangeAnswer { request: _, result }) = answer else {
        return fault_at(FaultKind::MissingRange, range);
    };
    let Ok(buffer) = result else {
        return fault_at(FaultKind::ReadFault, range);
    };
    if buffer.len() == range.length {
        Outcome::Bytes(buffer.aligned(range.alignment))
    } else {
        fault_at(FaultKind::ShortRead, range)
    }
}

/// What the answers make of ranges, each by the first answer left that names it. Only memory refuses.
fn match_answers(
    alloc: Global,
    asked: &[ReadAtRequest],
    answers: Vec<RangeAnswer>,
) -> Result<Vec<Outcome>, AllocError>
    ensures log { IfOk result (λ all. log_of asked.now all.items ≡ logged asked.now answers.items) }
    ensures places { IfOk result (λ all. AreOutcomesOf asked.now all.items) }
    ensures bytes { (b : List ℕ) → All (IsTrueTo b) answers.items → IfOk result (λ all. HaveBytesOf b asked.now all.items) }
{
    let mut answers = answers;
    let mut all = Vec::with_capacity(alloc, asked.len())?;
    for range in asked {
        let answer = take_answer(&mut answers, range);
        all.push(outcome(range, answer))?;
    }
    Ok(all)
}

/// Asks a reader for ranges, and says what became of each, in order: its bytes, or a fault at it.
/// Only memory refuses.
pub fn ask<R: Reader>(
    alloc: Global,
    reader: &mut R,
    asked: &[ReadAtRequest],
) -> Result<Vec<Outcome>, AllocError>
    requires some { 1 ≤ length asked.now }
    requires at_most { length asked.now ≤ (R.state reader.old).concurrency }
    ensures cause { AskCause asked.now (R.state reader.old) (R.state reader.new) result }
    ensures same { SameReader (R.state reader.old) (R.state reader.new) }
{
    let answers = reader.read_ranges(alloc, asked)?;
    match match_answers(alloc, asked, answers) {
        Ok(all) => Ok(all),
        Err(error) => Err(error),
    }
}

/// Asks a reader for its size.
pub fn ask_size<R: Reader>(reader: &mut R) -> Result<u64, Fault>
    ensures cause { AskSizeCause (R.state reader.old) (R.state reader.new) result }
    ensures same { SameReader (R.state reader.old) (R.state reader.new) }
{
    match reader.size() {
        Ok(size) => Ok(size),
        Err(Failed) => Err(Fault {
            kind: FaultKind::ReadFault,
            place: Place::Size,
        }),
    }
}
