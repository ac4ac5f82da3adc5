//! Comparisons of the rows of a column with one literal. What a comparison tells is worked out once, not at each row.
ghost use Rattle.std.specs.Prelude.{◌≡◌, ◌≤◌, length, IfOk, IfSome};
ghost use Rattle.vx_rows.specs.Columns.{value_place};
ghost use Rattle.std.specs.Option.{option_map};
ghost use Rattle.std.specs.Ordering.{int_cmp};
ghost use Rattle.vx_rows.specs.Span.{span};
ghost use Rattle.vx_rows.specs.RowValues.{int_cell, text_cell, value};
ghost use Rattle.vx_data.specs.Scalar.{number, words};
ghost use Rattle.vx_rows.specs.Verdicts.{by_order, verdict_of, turned, told, told_at, plain_told, number_told, text_told};

use crate::cell::is_met;
use crate::int_column::plain_row;
use crate::operand::Operand;
use crate::{Comparison, IntColumn, TextColumn};
use std::alloc::{AllocError, Global};
use std::cmp::Ordering;
use vx_data::PType;

/// What a comparison tells of two values that are in an order.
#[derive(Clone, Copy)]
pub struct Verdict {
    pub less: bool,
    pub equal: bool,
    pub greater: bool,
}

impl Verdict {
    /// What a comparison tells.
    pub fn of(op: Comparison) -> Verdict
        ensures { result ≡ verdict_of op }
    {
        Verdict {
            less: is_met(op, Ordering::Less),
            equal: is_met(op, Ordering::Equal),
            greater: is_met(op, Ordering::Greater),
        }
    }

    /// The same of two values that change places.
    pub fn turned(self) -> Verdict
        ensures { result ≡ turned self }
    {
        Verdict {
            less: self.greater,
            equal: self.equal,
            greater: self.less,
        }
    }

    /// What is told of values in this order.
    #[inline(always)]
    fn at(self, order: Ordering) -> bool
        ensures { result ≡ by_order self order }
    {
        match order {
            Ordering::Less => self.less,
            Ordering::Equal => self.equal,
            Ordering::Greater => self.greater,
        }
    }

    /// What is told of two integers: by plain tests, as each row takes them.
    #[inline(always)]
    fn at_number(self, here: i128, literal: i128) -> bool
        ensures { result ≡ by_order self (int_cmp here literal) }
    {
        if here < literal {
            return self.less;
        }
        if here == literal {
            return self.equal;
        }
        self.greater
    }

    /// What is told of two integers of 64 bits.
    #[inline(always)]
    pub fn at_key(self, here: i64, literal: i64) -> bool
        ensures { result ≡ by_order self (int_cmp here literal) }
    {
        if here < literal {
            return self.less;
        }
        if here == literal {
            return self.equal;
        }
        self.greater
    }

    /// What is told of an integer, which may lack, and a literal.
    #[inline(always)]
    fn of_number(self, row: Option<i128>, literal: i128) -> Option<bool>
        ensures { result ≡ told self (int_cell row) (value (number literal)) }
    {
        match row {
            None => None,
            Some(here) => Some(self.at_number(here, literal)),
        }
    }

    /// What is told of a text, which may lack, and a literal.
    #[inline(always)]
    fn of_text(self, row: Option<&str>, literal: &str) -> Option<bool>
        ensures { result ≡ told self (text_cell (option_map (λ t. t.now) row.entry)) (value (words literal.now)) }
    {
        match row {
            None => None,
            Some(here) => Some(self.at(here.cmp(literal))),
        }
    }
}

/// Integers of a type, of which none is null.
#[inline(always)]
#[tactic(auto, using(crate::proofs::SpanLemmas::span_push))]
fn compare_plain_of(
    alloc: Global,
    ptype: PType,
    verdict: Verdict,
    bytes: &[u8],
    at: usize,
    literal: i128,
    count: usize,
) -> Result<Vec<Option<bool>>, AllocError>
    requires { value_place ptype at count ≤ length bytes.now }
    ensures { IfOk result (λ truths. truths.items ≡ span (plain_told verdict ptype bytes.now at literal) 0 count) }
{
    let mut truths = Vec::with_capacity(alloc, count)?;
    for row in 0..count {
        let here = plain_row(ptype, bytes, at, count, row);
        truths.push_reserved(verdict.of_number(here, literal));
    }
    Ok(truths)
}

/// Integers of a type, of which some may be null.
#[inline(always)]
#[tactic(auto, using(crate::proofs::SpanLemmas::span_push))]
fn compare_nullable_of(
    alloc: Global,
    ptype: PType,
    verdict: Verdict,
    values: &IntColumn,
    literal: i128,
    count: usize,
) -> Result<Vec<Option<bool>>, AllocError>
    requires { values.now.ptype ≡ ptype }
    ensures { IfOk result (λ truths. truths.items ≡ span (number_told verdict values.now literal) 0 count) }
{
    let mut truths = Vec::with_capacity(alloc, count)?;
    for row in 0..count {
        truths.push_reserved(verdict.of_number(values.get_of(ptype, row), literal));
    }
    Ok(truths)
}

/// Integers of a type. Each call is compiled for its type.
#[inline(always)]
fn compare_numbers_of(
    alloc: Global,
    ptype: PType,
    verdict: Verdict,
    values: &IntColumn,
    literal: i128,
    count: usize,
) -> Result<Vec<Option<bool>>, AllocError>
    requires { values.now.ptype ≡ ptype }
    ensures { IfOk result (λ truths. truths.items ≡ span (number_told verdict values.now literal) 0 count) }
{
    if count != values.len() {
        return compare_nullable_of(alloc, ptype, verdict, values, literal, count);
    }
    let Some((bytes, at)) = values.plain_values() else {
        return compare_nullable_of(alloc, ptype, verdict, values, literal, count);
    };
    let truths = compare_plain_of(alloc, ptype, verdict, bytes, at, literal, count)?;
    Ok(truths)
}

/// Integers.
fn compare_numbers(
    alloc: Global,
    verdict: Verdict,
    values: &IntColumn,
    literal: i128,
    count: usize,
) -> Result<Vec<Option<bool>>, AllocError>
    ensures { IfOk result (λ truths. truths.items ≡ span (number_told verdict values.now literal) 0 count) }
{
    match values.ptype() {
        PType::U8 => compare_numbers_of(alloc, PType::U8, verdict, values, literal, count),
        PType::U16 => compare_numbers_of(alloc, PType::U16, verdict, values, literal, count),
        PType::U32 => compare_numbers_of(alloc, PType::U32, verdict, values, literal, count),
        PType::U64 => compare_numbers_of(alloc, PType::U64, verdict, values, literal, count),
        PType::I8 => compare_numbers_of(alloc, PType::I8, verdict, values, literal, count),
        PType::I16 => compare_numbers_of(alloc, PType::I16, verdict, values, literal, count),
        PType::I32 => compare_numbers_of(alloc, PType::I32, verdict, values, literal, count),
        PType::I64 => compare_numbers_of(alloc, PType::I64, verdict, values, literal, count),
    }
}

/// Texts.
#[tactic(auto, using(crate::proofs::SpanLemmas::span_push))]
fn compare_texts(
    alloc: Global,
    verdict: Verdict,
    values: &TextColumn,
    literal: &str,
    count: usize,
) -> Result<Vec<Option<bool>>, AllocError>
    ensures { IfOk result (λ truths. truths.items ≡ span (text_told verdict values.now literal.now) 0 count) }
{
    let mut truths = Vec::with_capacity(alloc, count)?;
    for row in 0..count {
        truths.push_reserved(verdict.of_text(values.get(row), literal));
    }
    Ok(truths)
}

/// What is told of each of so many rows, where one operand is a whole column of integers or texts, and the other a
/// literal of its kind. Of other operands nothing is told.
pub fn compare_literal(
    alloc: Global,
    verdict: Verdict,
    rows: &Operand,
    literal: &Operand,
    count: usize,
) -> Result<Option<Vec<Option<bool>>>, AllocError>
    ensures { IfOk result (λ told. IfSome told (λ truths. truths.items ≡ span (told_at verdict rows.now literal.now) 0 count)) }
{
    if let (Some(values), Some(number)) = (rows.numbers(), literal.number()) {
        let truths = compare_numbers(alloc, verdict, values, number, count)?;
        return Ok(Some(truths));
    }
    if let (Some(values), Some(text)) = (rows.texts(), literal.text()) {
        let truths = compare_texts(alloc, verdict, values, text, count)?;
        return Ok(Some(truths));
    }
    Ok(None)
}
