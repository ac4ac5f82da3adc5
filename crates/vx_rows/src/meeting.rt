//! Which rows of a column of integers meet a comparison with one literal, where no row is null. They are found without truth
//! values that may lack.
ghost use Rattle.std.specs.Prelude.{◌≡◌, ◌≤◌, length, map, IfOk, IfSome};
ghost use Rattle.std.specs.Ordering.{int_cmp};
ghost use Rattle.vx_rows.specs.Columns.{value_place};
ghost use Rattle.vx_rows.specs.Keys.{of_key};
ghost use Rattle.vx_rows.specs.Span.{span};
ghost use Rattle.vx_rows.specs.Truth.{is_true};
ghost use Rattle.vx_rows.specs.Verdicts.{by_order, told_at, plain_told, number_told};

use crate::IntColumn;
use crate::comparing::Verdict;
use crate::int_column::{key_of, plain_key};
use crate::operand::Operand;
use std::alloc::{AllocError, Global};
use vx_data::PType;

/// Integers of a type, by their keys.
#[inline(always)]
#[tactic(auto, using(crate::proofs::MeetingLemmas::met_more))]
fn meet_plain_of(
    alloc: Global,
    ptype: PType,
    verdict: Verdict,
    bytes: &[u8],
    at: usize,
    key: i64,
    count: usize,
) -> Result<Vec<bool>, AllocError>
    requires { value_place ptype at count ≤ length bytes.now }
    ensures { IfOk result (λ flags. flags.items ≡ map is_true (span (plain_told verdict ptype bytes.now at (of_key ptype key)) 0 count)) }
{
    let mut flags = Vec::with_capacity(alloc, count)?;
    for row in 0..count {
        let here = plain_key(ptype, bytes, at, count, row);
        flags.push_reserved(verdict.at_key(here, key));
    }
    Ok(flags)
}

/// Integers of a type, where none is null and the literal has a key. Each call is compiled for its type.
#[inline(always)]
fn meet_numbers_of(
    alloc: Global,
    ptype: PType,
    verdict: Verdict,
    values: &IntColumn,
    literal: i128,
    count: usize,
) -> Result<Option<Vec<bool>>, AllocError>
    requires { values.now.ptype ≡ ptype }
    ensures { IfOk result (λ met. IfSome met (λ flags. flags.items ≡ map is_true (span (number_told verdict values.now literal) 0 count))) }
{
    if count != values.len() {
        return Ok(None);
    }
    let Some((bytes, at)) = values.plain_values() else {
        return Ok(None);
    };
    let Some(key) = key_of(ptype, literal) else {
        return Ok(None);
    };
    let flags = meet_plain_of(alloc, ptype, verdict, bytes, at, key, count)?;
    Ok(Some(flags))
}

/// Integers, where none is null and the literal has a key.
fn meet_numbers(
    alloc: Global,
    verdict: Verdict,
    values: &IntColumn,
    literal: i128,
    count: usize,
) -> Result<Option<Vec<bool>>, AllocError>
    ensures { IfOk result (λ met. IfSome met (λ flags. flags.items ≡ map is_true (span (number_told verdict values.now literal) 0 count))) }
{
    match values.ptype() {
        PType::U8 => meet_numbers_of(alloc, PType::U8, verdict, values, literal, count),
        PType::U16 => meet_numbers_of(alloc, PType::U16, verdict, values, literal, count),
        PType::U32 => meet_numbers_of(alloc, PType::U32, verdict, values, literal, count),
        PType::U64 => meet_numbers_of(alloc, PType::U64, verdict, values, literal, count),
        PType::I8 => meet_numbers_of(alloc, PType::I8, verdict, values, literal, count),
        PType::I16 => meet_numbers_of(alloc, PType::I16, verdict, values, literal, count),
        PType::I32 => meet_numbers_of(alloc, PType::I32, verdict, values, literal, count),
        PType::I64 => meet_numbers_of(alloc, PType::I64, verdict, values, literal, count),
    }
}

/// Whether each of so many rows meets a comparison, where one operand is a whole column of integers, of which none is null, and
/// the other a literal. Of other operands nothing is told.
pub fn meet_literal(
    alloc: Global,
    verdict: Verdict,
    rows: &Operand,
    literal: &Operand,
    count: usize,
) -> Result<Option<Vec<bool>>, AllocError>
    ensures { IfOk result (λ met. IfSome met (λ flags. flags.items ≡ map is_true (span (told_at verdict rows.now literal.now) 0 count))) }
{
    let (Some(values), Some(number)) = (rows.numbers(), literal.number()) else {
        return Ok(None);
    };
    let Some(flags) = meet_numbers(alloc, verdict, values, number, count)? else {
        return Ok(None);
    };
    Ok(Some(flags))
}
