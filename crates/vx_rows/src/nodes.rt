//! The nodes of predicates, each over all rows.
ghost use Rattle.std.specs.Prelude.{◌≡◌, map, IfOk};
ghost use Rattle.vx_rows.specs.Span.{span};
ghost use Rattle.vx_rows.specs.Truth.{kleene_and, kleene_or, kleene_not, is_true as holds};
ghost use Rattle.vx_rows.specs.Operands.{compared_at, summed_at, and_at, or_at, not_at, null_at, present_at, true_at, is_true_in};

use crate::cell::{add, compare, is_null, truth_of};
use crate::comparing::{Verdict, compare_literal};
use crate::kind::Kind;
use crate::meeting::meet_literal;
use crate::operand::Operand;
use crate::{BindError, Comparison};
use std::alloc::{AllocError, Global};

/// A comparison at each of so many rows, whatever the operands are.
#[tactic(auto, using(crate::proofs::SpanLemmas::span_push))]
fn compare_cells(
    alloc: Global,
    op: Comparison,
    a: &Operand,
    b: &Operand,
    count: usize,
) -> Result<Vec<Option<bool>>, AllocError>
    ensures { IfOk result (λ truths. truths.items ≡ span (compared_at op a.now b.now) 0 count) }
{
    let mut truths = Vec::with_capacity(alloc, count)?;
    for row in 0..count {
        truths.push(compare(op, a.at(row), b.at(row)))?;
    }
    Ok(truths)
}

/// A comparison at each of so many rows. Mostly a column is compared with a literal, on either side.
pub fn compare_rows(
    alloc: Global,
    op: Comparison,
    a: &Operand,
    b: &Operand,
    count: usize,
) -> Result<Vec<Option<bool>>, AllocError>
    ensures { IfOk result (λ truths. truths.items ≡ span (compared_at op a.now b.now) 0 count) }
{
    let verdict = Verdict::of(op);
    if let Some(truths) = compare_literal(alloc, verdict, a, b, count)? {
        return Ok(truths);
    }
    if let Some(truths) = compare_literal(alloc, verdict.turned(), b, a, count)? {
        return Ok(truths);
    }
    Ok(compare_cells(alloc, op, a, b, count)?)
}

/// A sum at each of so many rows.
#[tactic(auto, using(crate::proofs::SpanLemmas::span_push))]
pub fn add_rows(
    alloc: Global,
    kind: Result<Kind, BindError>,
    a: &Operand,
    b: &Operand,
    count: usize,
) -> Result<Vec<Option<i128>>, AllocError>
    ensures { IfOk result (λ numbers. numbers.items ≡ span (summed_at kind a.now b.now) 0 count) }
{
    let mut numbers = Vec::with_capacity(alloc, count)?;
    for row in 0..count {
        numbers.push(add(kind, a.at(row), b.at(row)))?;
    }
    Ok(numbers)
}

/// Kleene's conjunction.
#[inline(always)]
fn both(a: Option<bool>, b: Option<bool>) -> Option<bool>
    ensures { result ≡ kleene_and a b }
{
    match a {
        Some(false) => Some(false),
        Some(true) => b,
        None => match b {
            Some(false) => Some(false),
            Some(true) | None => None,
        },
    }
}

/// Kleene's disjunction.
#[inline(always)]
fn either(a: Option<bool>, b: Option<bool>) -> Option<bool>
    ensures { result ≡ kleene_or a b }
{
    match a {
        Some(true) => Some(true),
        Some(false) => b,
        None => match b {
            Some(true) => Some(true),
            Some(false) | None => None,
        },
    }
}

#[inline(always)]
fn opposite(a: Option<bool>) -> Option<bool>
    ensures { result ≡ kleene_not a }
{
    match a {
        None => None,
        Some(b) => Some(!b),
    }
}

/// Whether a truth value is true, and neither false nor null.
#[inline(always)]
fn is_true(a: Option<bool>) -> bool
    ensures { result ≡ holds a }
{
    match a {
        None => false,
        Some(b) => b,
    }
}

/// A conjunction at each of so many rows.
#[tactic(auto, using(crate::proofs::SpanLemmas::span_push))]
pub fn and_rows(
    alloc: Global,
    a: &Operand,
    b: &Operand,
    count: usize,
) -> Result<Vec<Option<bool>>, AllocError>
    ensures { IfOk result (λ truths. truths.items ≡ span (and_at a.now b.now) 0 count) }
{
    let mut truths = Vec::with_capacity(alloc, count)?;
    for row in 0..count {
        truths.push(both(truth_of(a.at(row)), truth_of(b.at(row))))?;
    }
    Ok(truths)
}

/// A disjunction at each of so many rows.
#[tactic(auto, using(crate::proofs::SpanLemmas::span_push))]
pub fn or_rows(
    alloc: Global,
    a: &Operand,
    b: &Operand,
    count: usize,
) -> Result<Vec<Option<bool>>, AllocError>
    ensures { IfOk result (λ truths. truths.items ≡ span (or_at a.now b.now) 0 count) }
{
    let mut truths = Vec::with_capacity(alloc, count)?;
    for row in 0..count {
        truths.push(either(truth_of(a.at(row)), truth_of(b.at(row))))?;
    }
    Ok(truths)
}

/// The opposite at each of so many rows.
#[tactic(auto, using(crate::proofs::SpanLemmas::span_push))]
pub fn not_rows(alloc: Global, a: &Operand, count: usize) -> Result<Vec<Option<bool>>, AllocError>
    ensures { IfOk result (λ truths. truths.items ≡ span (not_at a.now) 0 count) }
{
    let mut truths = Vec::with_capacity(alloc, count)?;
    for row in 0..count {
        truths.push(opposite(truth_of(a.at(row))))?;
    }
    Ok(truths)
}

/// Whether each of so many rows is null.
#[tactic(auto, using(crate::proofs::SpanLemmas::span_push))]
pub fn null_rows(alloc: Global, a: &Operand, count: usize) -> Result<Vec<Option<bool>>, AllocError>
    ensures { IfOk result (λ truths. truths.items ≡ span (null_at a.now) 0 count) }
{
    let mut truths = Vec::with_capacity(alloc, count)?;
    for row in 0..count {
        truths.push(Some(is_null(a.at(row))))?;
    }
    Ok(truths)
}

/// Whether each of so many rows is not null.
#[tactic(auto, using(crate::proofs::SpanLemmas::span_push))]
pub fn present_rows(
    alloc: Global,
    a: &Operand,
    count: usize,
) -> Result<Vec<Option<bool>>, AllocError>
    ensures { IfOk result (λ truths. truths.items ≡ span (present_at a.now) 0 count) }
{
    let mut truths = Vec::with_capacity(alloc, count)?;
    for row in 0..count {
        truths.push(Some(!is_null(a.at(row))))?;
    }
    Ok(truths)
}

/// Whether a truth value is there and true.
#[inline(always)]
fn is_true_at(truths: &[Option<bool>], row: usize) -> bool
    ensures { result ≡ is_true_in truths.now row }
{
    match truths.get(row) {
        Some(Some(b)) => *b,
        _ => false,
    }
}

/// Whether each of so many truth values is true.
#[tactic(auto, using(crate::proofs::SpanLemmas::span_push))]
fn true_truths(
    alloc: Global,
    truths: &[Option<bool>],
    count: usize,
) -> Result<Vec<bool>, AllocError>
    ensures { IfOk result (λ bits. bits.items ≡ span (is_true_in truths.now) 0 count) }
{
    let mut bits = Vec::with_capacity(alloc, count)?;
    for row in 0..count {
        bits.push_reserved(is_true_at(truths, row));
    }
    Ok(bits)
}

/// Whether each of so many rows is true, whatever the operand is.
#[tactic(auto, using(crate::proofs::SpanLemmas::span_push))]
fn true_cells(alloc: Global, a: &Operand, count: usize) -> Result<Vec<bool>, AllocError>
    ensures { IfOk result (λ bits. bits.items ≡ span (true_at a.now) 0 count) }
{
    let mut bits = Vec::with_capacity(alloc, count)?;
    for row in 0..count {
        bits.push(is_true(truth_of(a.at(row))))?;
    }
    Ok(bits)
}

/// Whether a comparison is true at each of so many rows. Mostly a column without nulls is compared with a literal, on either
/// side.
pub fn true_comparisons(
    alloc: Global,
    op: Comparison,
    a: &Operand,
    b: &Operand,
    count: usize,
) -> Result<Vec<bool>, AllocError>
    ensures { IfOk result (λ bits. bits.items ≡ map holds (span (compared_at op a.now b.now) 0 count)) }
{
    let verdict = Verdict::of(op);
    if let Some(flags) = meet_literal(alloc, verdict, a, b, count)? {
        return Ok(flags);
    }
    if let Some(flags) = meet_literal(alloc, verdict.turned(), b, a, count)? {
        return Ok(flags);
    }
    let truths = compare_rows(alloc, op, a, b, count)?;
    Ok(true_truths(alloc, &truths, count)?)
}

/// Whether each of so many rows is true. Mostly a node has told truth values.
pub fn true_rows(alloc: Global, a: &Operand, count: usize) -> Result<Vec<bool>, AllocError>
    ensures { IfOk result (λ bits. bits.items ≡ span (true_at a.now) 0 count) }
{
    match a {
        Operand::Truths(truths) => Ok(true_truths(alloc, truths, count)?),
        Operand::Value(_) | Operand::Rows(_, _) | Operand::Numbers(_) => {
            Ok(true_cells(alloc, a, count)?)
        }
    }
}
