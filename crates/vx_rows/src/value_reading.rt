//! Reads the texts of values.
ghost use Rattle.std.specs.Prelude.{◌≡◌, ◌∷◌, [], ◌+◌, ◌*◌, ◌-◌, ◌<◌, ◌≤◌, ◌^◌, pos, nat_lt, true, false, Some, IfSome, length, take, drop, slice_index};
ghost use Rattle.std.specs.List.{list_all};
ghost use Rattle.std.specs.Option.{option_map, option_and_then};
ghost use Rattle.vx_data.specs.Texts.{is_quote_plain};
ghost use Rattle.vx_data.specs.TextsRead.{quoted_in, after as after_front};
ghost use Rattle.vx_rows.specs.Columns.{is_signed as signed};
ghost use Rattle.vx_rows.specs.Written.{value_bits};
ghost use Rattle.vx_rows.specs.ReadValues.{null_in, truth_in, is_digit as is_decimal, digits_in, natural_in, narrow, narrowed, below_zero, within_range, number_in};

use crate::text_column::text_of;
use vx_data::{PType, after};

/// So many digits behind a first one spell a number below 2^64, whatever they are.
const SHORT: usize = 18;

/// Each byte that stands for itself in quoted text, at its own place, and a comma at every other place.
static PLAIN: [u8; 256] = *b"\
    ,,,,,,,,,,,,,,,,,,,,,,,,,,,,,,,,\
    ,,,,,,,,,,,,,-.,0123456789,,,,,,\
    ,ABCDEFGHIJKLMNOPQRSTUVWXYZ,,,,_\
    ,abcdefghijklmnopqrstuvwxyz,,,,,\
    ,,,,,,,,,,,,,,,,,,,,,,,,,,,,,,,,\
    ,,,,,,,,,,,,,,,,,,,,,,,,,,,,,,,,\
    ,,,,,,,,,,,,,,,,,,,,,,,,,,,,,,,,\
    ,,,,,,,,,,,,,,,,,,,,,,,,,,,,,,,,";

/// What follows a byte, where it comes first.
#[inline(always)]
pub fn after_byte(text: &[u8], byte: u8) -> Option<&[u8]>
    ensures { option_map (λ rest. rest.now) result ≡ after_front (byte ∷ []) text.now }
{
    match text.split_first() {
        Some((first, rest)) if *first == byte => Some(rest),
        _ => None,
    }
}

/// What follows `~`, where a row may be null.
#[inline(always)]
pub fn read_null(may_be_null: bool, text: &[u8]) -> Option<&[u8]>
    ensures { option_map (λ rest. rest.now) result ≡ null_in may_be_null text.now }
{
    if !may_be_null {
        return None;
    }
    after_byte(text, b'~')
}

/// A truth value, and what follows.
pub fn read_truth(text: &[u8]) -> Option<(bool, &[u8])>
    ensures { option_map (λ x. (x.0, x.1.now)) result ≡ truth_in text.now }
{
    if let Some(rest) = after(text, b"true") {
        return Some((true, rest));
    }
    let rest = after(text, b"false")?;
    Some((false, rest))
}

/// Whether a byte is a decimal digit.
#[inline(always)]
fn is_digit(byte: u8) -> bool
    ensures { result ≡ is_decimal byte }
{
    byte >= b'0' && byte <= b'9'
}

/// A number with a digit more, where it is below 2^64.
#[inline(always)]
fn with_digit(number: u64, digit: u8) -> Option<u64>
    requires { is_decimal digit ≡ true }
    ensures { result ≡ narrow (10 * number + (digit - 48)) }
{
    let tens = number.checked_mul(10)?;
    tens.checked_add(u64::from(digit - b'0'))
}

/// What stands from a place on.
#[inline(always)]
fn behind(text: &[u8], at: usize) -> &[u8]
    requires { at ≤ length text.now }
    ensures { result.now ≡ drop at text.now }
{
    text.split_at(at).1
}

/// The number whose first digits spell this one, where it is below 2^64, and what follows its digits.
#[tactic(auto, using(crate::proofs::DigitLemmas::digit_steps))]
fn read_long(first: u64, text: &[u8]) -> Option<(u64, &[u8])>
    ensures { option_map (λ x. (x.0, x.1.now)) result ≡ narrowed (digits_in first text.now) }
{
    let mut number = first;
    let mut rest = text;
    while let Some((digit, tail)) = rest.split_first() {
        if !is_digit(*digit) {
            return Some((number, rest));
        }
        number = with_digit(number, *digit)?;
        rest = tail;
    }
    Some((number, rest))
}

/// The number whose first digit is this one, where it is below 2^64, and what follows its digits.
#[inline(always)]
#[tactic(auto, using(crate::proofs::DigitLemmas::place_steps))]
fn read_digits(first: u64, text: &[u8]) -> Option<(u64, &[u8])>
    requires { first < 10 }
    ensures { option_map (λ x. (x.0, x.1.now)) result ≡ narrowed (digits_in first text.now) }
{
    let mut number = first;
    let short = text.len().min(SHORT);
    for at in 0..short {
        let digit = text[at];
        if !is_digit(digit) {
            return Some((number, behind(text, at)));
        }
        number = 10 * number + u64::from(digit - b'0');
    }
    read_long(number, behind(text, short))
}

/// A decimal number below 2^64, and what follows.
#[inline(always)]
#[tactic(auto, unfolding(crate::specs::ReadValues::natural_in))]
fn read_natural(text: &[u8]) -> Option<(u64, &[u8])>
    ensures { option_map (λ x. (x.0, x.1.now)) result ≡ option_and_then narrowed (natural_in text.now) }
{
    let (digit, tail) = text.split_first()?;
    if *digit == b'0' {
        return Some((0, tail));
    }
    if !is_digit(*digit) {
        return None;
    }
    read_digits(u64::from(*digit - b'0'), tail)
}

/// How many bits the numbers of a type have below the highest, besides their sign.
#[inline(always)]
fn low_bits(ptype: PType) -> u32
    ensures value { result ≡ value_bits ptype - 1 }
    ensures few { result < 64 }
{
    match ptype {
        PType::U8 => 7,
        PType::U16 => 15,
        PType::U32 => 31,
        PType::U64 => 63,
        PType::I8 => 6,
        PType::I16 => 14,
        PType::I32 => 30,
        PType::I64 => 62,
    }
}

/// Whether a number has no more bits than those of a type, besides their sign.
#[inline(always)]
#[tactic(auto, using(crate::proofs::DigitLemmas::below_bits))]
fn fits_bits(ptype: PType, number: u64) -> bool
    ensures { result ≡ nat_lt number (2 ^ value_bits ptype) }
{
    number >> low_bits(ptype) <= 1
}

/// Whether a type has numbers below 0.
fn is_signed(ptype: PType) -> bool
    ensures { result ≡ signed ptype }
{
    match ptype {
        PType::U8 | PType::U16 | PType::U32 | PType::U64 => false,
        PType::I8 | PType::I16 | PType::I32 | PType::I64 => true,
    }
}

/// A number below 0 in the range of a type, behind its sign, and what follows.
#[inline(never)]
#[tactic(auto, using(crate::proofs::DigitLemmas::negative_steps))]
fn read_negative(ptype: PType, text: &[u8]) -> Option<(i128, &[u8])>
    ensures { option_map (λ x. (x.0, x.1.now)) result ≡ option_and_then (within_range ptype) (option_and_then below_zero (natural_in text.now)) }
{
    let (number, rest) = read_natural(text)?;
    if number == 0 || !is_signed(ptype) || !fits_bits(ptype, number - 1) {
        return None;
    }
    Some((-i128::from(number), rest))
}

/// A number in the range of a type that is not below 0, and what follows.
#[inline(always)]
#[tactic(auto, using(crate::proofs::DigitLemmas::positive_narrowed))]
fn read_positive(ptype: PType, text: &[u8]) -> Option<(i128, &[u8])>
    ensures { option_map (λ x. (x.0, x.1.now)) result ≡ option_and_then (within_range ptype) (option_map (λ x. (pos x.0, x.1)) (natural_in text.now)) }
{
    let (number, rest) = read_natural(text)?;
    if !fits_bits(ptype, number) {
        return None;
    }
    Some((i128::from(number), rest))
}

/// An integer in the range of a type, and what follows.
#[inline(always)]
pub fn read_number(ptype: PType, text: &[u8]) -> Option<(i128, &[u8])>
    ensures { option_map (λ x. (x.0, x.1.now)) result ≡ number_in ptype text.now }
{
    if let Some(number) = after_byte(text, b'-') {
        return read_negative(ptype, number);
    }
    read_positive(ptype, text)
}

/// Whether a byte stands for itself in quoted text.
#[inline(always)]
pub fn is_plain(byte: u8) -> bool
    ensures { result ≡ is_quote_plain byte }
{
    PLAIN[byte as usize] != b','
}

/// How many bytes that stand for themselves come first.
#[inline(always)]
#[tactic(auto, using(crate::proofs::PlainTextLemmas::plain_more))]
fn plain_length(text: &[u8]) -> usize
    ensures inside { result ≤ length text.now }
    ensures all { list_all is_quote_plain (take result text.now) ≡ true }
    ensures stop { result < length text.now → is_quote_plain (slice_index text.now result) ≡ false }
{
    for at in 0..text.len() {
        if !is_plain(text[at]) {
            return at;
        }
    }
    text.len()
}

/// Quoted text whose bytes all stand for themselves, and what follows.
#[inline(always)]
#[tactic(auto, using(crate::proofs::PlainTextLemmas::plain_utf8, crate::proofs::PlainTextLemmas::plain_read))]
pub fn read_plain(text: &[u8]) -> Option<(&str, &[u8])>
    ensures { IfSome result (λ x. quoted_in text.now ≡ Some (x.0.now, x.1.now)) }
{
    let length = plain_length(text);
    if length == 0 || (length < text.len() && text[length] == b'%') {
        return None;
    }
    let (value, rest) = text.split_at(length);
    Some((text_of(value), rest))
}
