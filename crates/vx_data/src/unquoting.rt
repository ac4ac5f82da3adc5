//! Reads quoted text.
ghost use Rattle.std.specs.Prelude.{◌≡◌, ◌∷◌, ◌<◌, ◌≤◌, length, IfSome, Some, string_bytes};
ghost use Rattle.std.specs.Option.{option_map};
ghost use Rattle.vx_base.specs.Checks.{Gives, ◌lacking◌};
ghost use Rattle.vx_data.specs.declared.text_error.TextError.TheVariants.{BadText};
ghost use Rattle.vx_data.specs.TextsRead.{FailsToRead, digit_value, not_plain, escaped_byte as escaped, unquoted_bytes, byte_first};
ghost use Rattle.vx_data.specs.TextsRead.{as_text, is_percent as is_empty_text};
ghost use Rattle.vx_data.specs.TextsRead.{unquoted, is_quote_byte, quote_length as quoted_length, quoted_in, after as after_front};

use crate::TextError;
use crate::quoted::is_plain;
use std::alloc::Global;

/// The value of an upper case hexadecimal digit.
fn value_of(digit: u8) -> Option<u8>
    ensures value { result ≡ digit_value digit }
    ensures below { IfSome result (λ value. value < 16) }
{
    if digit >= b'0' && digit <= b'9' {
        return Some(digit - b'0');
    }
    if digit >= b'A' && digit <= b'F' {
        return Some(digit - b'A' + 10);
    }
    None
}

/// The byte of two digits, unless it stands for itself.
fn escaped_byte(high: u8, low: u8) -> Option<u8>
    ensures { result ≡ escaped high low }
{
    let high = value_of(high)?;
    let low = value_of(low)?;
    let byte = 16 * high + low;
    if is_plain(byte) {
        return None;
    }
    Some(byte)
}

/// The byte that quoted bytes spell first, and what follows.
#[tactic(auto, unfolding(crate::specs::TextsRead::unquoted_bytes, crate::specs::TextsRead::first_digit, crate::specs::TextsRead::second_digit))]
fn read_byte(first: u8, tail: &[u8]) -> Option<(u8, &[u8])>
    ensures value { unquoted_bytes (first ∷ tail.now) ≡ byte_first (option_map (λ x. (x.0, x.1.now)) result) }
    ensures shorter { IfSome result (λ x. length x.1.now ≤ length tail.now) }
{
    if is_plain(first) {
        return Some((first, tail));
    }
    if first != b'%' {
        return None;
    }
    let (high, tail) = tail.split_first()?;
    let (low, tail) = tail.split_first()?;
    let byte = escaped_byte(*high, *low)?;
    Some((byte, tail))
}

/// The bytes that quoted bytes spell.
#[tactic(auto, using(crate::proofs::QuoteSteps::next_byte), unfolding(crate::specs::TextsRead::unquoted_bytes))]
fn unquote_bytes(alloc: Global, text: &[u8]) -> Result<Vec<u8>, TextError>
    ensures { Gives FailsToRead (λ bytes. bytes.items) result (BadText lacking unquoted_bytes text.now) }
{
    let mut bytes = Vec::new(alloc);
    let mut rest = text;
    while let Some((first, tail)) = rest.split_first() {
        let Some((byte, behind)) = read_byte(*first, tail) else {
            return Err(TextError::BadText);
        };
        bytes.push(byte)?;
        rest = behind;
    }
    Ok(bytes)
}

/// The text that bytes are.
#[tactic(auto, using(vx_tables::proofs::Text::utf8_tests, vx_tables::proofs::Text::string_is_utf8))]
fn text_of(bytes: Vec<u8>) -> Option<String>
    ensures { option_map string_bytes result ≡ as_text (Some bytes.items) }
{
    match String::from_utf8(bytes) {
        Ok(text) => Some(text),
        Err(_) => None,
    }
}

/// Whether the text is `%`.
fn is_percent(text: &[u8]) -> bool
    ensures { result ≡ is_empty_text text.now }
{
    text.len() == 1 && text[0] == b'%'
}

/// The text that quoted bytes spell.
#[tactic(auto, unfolding(crate::specs::TextsRead::unquoted))]
fn unquote_all(alloc: Global, text: &[u8]) -> Result<String, TextError>
    ensures { Gives FailsToRead string_bytes result (BadText lacking unquoted text.now) }
{
    if text.is_empty() {
        return Err(TextError::BadText);
    }
    if is_percent(text) {
        return Ok(String::new(alloc));
    }
    let bytes = unquote_bytes(alloc, text)?;
    match text_of(bytes) {
        Some(text) => Ok(text),
        None => Err(TextError::BadText),
    }
}

/// The text that a quoted text spells. A text that is not what `quote` gives of one is refused.
pub fn unquote(alloc: Global, text: &str) -> Result<String, TextError>
    ensures { Gives FailsToRead string_bytes result (BadText lacking unquoted text.now) }
{
    unquote_all(alloc, text.as_bytes())
}

/// Whether a byte may stand in quoted text.
fn is_quote(byte: u8) -> bool
    ensures { result ≡ is_quote_byte byte }
{
    is_plain(byte) || byte == b'%'
}

/// How many bytes of quoted text come first.
#[tactic(auto, using(crate::proofs::QuoteSteps::one_quoted, crate::proofs::QuoteSteps::none_quoted, crate::proofs::QuoteSteps::end_quoted))]
fn quote_length(text: &[u8]) -> usize
    ensures value { result ≡ quoted_length text.now }
    ensures inside { result ≤ length text.now }
{
    for at in 0..text.len() {
        if !is_quote(text[at]) {
            return at;
        }
    }
    text.len()
}

/// The quoted text in front, as long as it can be, and what follows.
#[tactic(auto, unfolding(crate::specs::TextsRead::quoted_in))]
pub fn read_quoted(alloc: Global, text: &[u8]) -> Result<(String, &[u8]), TextError>
    ensures { Gives FailsToRead (λ x. (string_bytes x.0, x.1.now)) result (BadText lacking quoted_in text.now) }
{
    let (quoted, rest) = text.split_at(quote_length(text));
    let spelled = unquote_all(alloc, quoted)?;
    Ok((spelled, rest))
}

/// What follows a front.
#[tactic(auto, using(crate::proofs::QuoteSteps::after_steps))]
pub fn after<'a>(text: &'a [u8], front: &[u8]) -> Option<&'a [u8]>
    ensures { option_map (λ rest. rest.now) result ≡ after_front front.now text.now }
{
    if text.len() < front.len() {
        return None;
    }
    for at in 0..front.len() {
        if text[at] != front[at] {
            return None;
        }
    }
    Some(&text[front.len()..])
}
