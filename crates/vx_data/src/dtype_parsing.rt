//! Reads the text of a type.
ghost use Rattle.std.specs.Prelude.{◌≡◌, length, Some, string_bytes};
ghost use Rattle.std.specs.Option.{option_map};
ghost use Rattle.vx_base.specs.Checks.{Gives, ◌lacking◌};
ghost use Rattle.vx_data.specs.declared.text_error.TextError.TheVariants.{BadText};
ghost use Rattle.vx_data.specs.Dtype.{dtype_view, pairs_view};
ghost use Rattle.vx_data.specs.TextsRead.{FailsToRead, mark_in, ptypes, ptype_among, plain_in, name_in, fields_in, struct_in, dtype_in, dtype_of_text, after as after_front};
ghost use Rattle.std.specs.Prelude.{codes};

use crate::dtype_text::name_of;
use crate::dtype_writing::MOST_LEVELS;
use crate::unquoting::{after, read_quoted};
use crate::{DType, Fields, PType, TextError};
use std::alloc::Global;

/// Whether `?` comes, and what follows.
fn read_mark(text: &[u8]) -> (bool, &[u8])
    ensures { (result.0, result.1.now) ≡ mark_in text.now }
{
    match after(text, b"?") {
        Some(rest) => (true, rest),
        None => (false, text),
    }
}

/// The first of these types whose name comes, and what follows.
#[tactic(auto, using(crate::proofs::QuoteSteps::ptype_steps))]
fn read_among<'a>(ptypes: &[PType], text: &'a [u8]) -> Option<(PType, &'a [u8])>
    ensures { option_map (λ x. (x.0, x.1.now)) result ≡ ptype_among ptypes.now text.now }
{
    for at in 0..ptypes.len() {
        let ptype = ptypes[at];
        if let Some(rest) = after(text, name_of(ptype).as_bytes()) {
            return Some((ptype, rest));
        }
    }
    None
}

/// The type of integers whose name comes, and what follows.
fn read_ptype(text: &[u8]) -> Option<(PType, &[u8])>
    ensures { option_map (λ x. (x.0, x.1.now)) result ≡ ptype_among ptypes text.now }
{
    let ptypes = [
        PType::U8,
        PType::U16,
        PType::U32,
        PType::U64,
        PType::I8,
        PType::I16,
        PType::I32,
        PType::I64,
    ];
    read_among(&ptypes, text)
}

/// The type in front, which is no struct, and what follows.
#[tactic(auto, unfolding(crate::specs::TextsRead::plain_in))]
fn read_plain(text: &[u8]) -> Option<(DType, &[u8])>
    ensures { option_map (λ x. (dtype_view x.0, x.1.now)) result ≡ plain_in text.now }
{
    if let Some(rest) = after(text, b"bool") {
        let (nullable, rest) = read_mark(rest);
        return Some((DType::Bool(nullable), rest));
    }
    if let Some(rest) = after(text, b"text") {
        let (nullable, rest) = read_mark(rest);
        return Some((DType::Text(nullable), rest));
    }
    let (ptype, rest) = read_ptype(text)?;
    let (nullable, rest) = read_mark(rest);
    Some((DType::Int(ptype, nullable), rest))
}

/// A name and its colon, and what follows.
#[tactic(auto, unfolding(crate::specs::TextsRead::name_in))]
fn read_name(alloc: Global, text: &[u8]) -> Result<(String, &[u8]), TextError>
    ensures { Gives FailsToRead (λ x. (string_bytes x.0, x.1.now)) result (BadText lacking name_in text.now) }
{
    let (name, rest) = read_quoted(alloc, text)?;
    match after(rest, b":") {
        Some(rest) => Ok((name, rest)),
        None => Err(TextError::BadText),
    }
}

/// Fields and the end of their struct, and what follows. No struct has more fields than its text has bytes.
#[cycle(parsing)]
#[tactic(auto, using(crate::proofs::ParsedFields::parsed_steps))]
fn read_fields(
    alloc: Global,
    levels: usize,
    text: &[u8],
) -> Result<(Vec<(String, DType)>, &[u8]), TextError>
    ensures { Gives FailsToRead (λ x. (pairs_view x.0.items, x.1.now)) result
        (BadText lacking fields_in (dtype_in levels) (length text.now) text.now) }
{
    let mut fields = Vec::new(alloc);
    let mut rest = text;
    for _field in 0..text.len() {
        let (name, typed) = read_name(alloc, rest)?;
        let (dtype, behind) = read_dtype(alloc, levels, typed)?;
        fields.push((name, dtype))?;
        if let Some(end) = after(behind, b"}") {
            return Ok((fields, end));
        }
        let Some(next) = after(behind, b",") else {
            return Err(TextError::BadText);
        };
        rest = next;
    }
    Err(TextError::BadText)
}

/// The fields of a struct and its end, and what follows.
#[cycle(parsing)]
fn read_struct(
    alloc: Global,
    levels: usize,
    text: &[u8],
) -> Result<(Vec<(String, DType)>, &[u8]), TextError>
    ensures { Gives FailsToRead (λ x. (pairs_view x.0.items, x.1.now)) result
        (BadText lacking struct_in (dtype_in levels) text.now (after_front (codes "}") text.now)) }
{
    match after(text, b"}") {
        Some(rest) => Ok((Vec::new(alloc), rest)),
        None => read_fields(alloc, levels, text),
    }
}

/// The type in front, of so many levels at most, and what follows.
#[cycle(parsing)]
#[tactic(auto, unfolding(crate::specs::TextsRead::dtype_in))]
fn read_dtype(alloc: Global, levels: usize, text: &[u8]) -> Result<(DType, &[u8]), TextError>
    ensures { Gives FailsToRead (λ x. (dtype_view x.0, x.1.now)) result (BadText lacking dtype_in levels text.now) }
{
    if levels == 0 {
        return Err(TextError::BadText);
    }
    let Some(inside) = after(text, b"{") else {
        return match read_plain(text) {
            Some(found) => Ok(found),
            None => Err(TextError::BadText),
        };
    };
    let (fields, rest) = read_struct(alloc, levels - 1, inside)?;
    let (nullable, rest) = read_mark(rest);
    Ok((DType::Struct(Fields::new(fields), nullable), rest))
}

impl DType {
    /// The type that a text spells, in which at most 64 types lie one in the other. A text that is not what
    /// `to_text` gives of one is refused.
    #[tactic(auto, unfolding(crate::specs::TextsRead::dtype_of_text))]
    pub fn from_text(alloc: Global, text: &str) -> Result<DType, TextError>
        ensures { Gives FailsToRead dtype_view result (BadText lacking dtype_of_text text.now) }
    {
        let (dtype, rest) = read_dtype(alloc, MOST_LEVELS, text.as_bytes())?;
        if !rest.is_empty() {
            return Err(TextError::BadText);
        }
        Ok(dtype)
    }
}
