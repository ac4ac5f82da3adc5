//! The numbers that texts spell.
ghost use Rattle.std.specs.Prelude.{◌≡◌, ◌≤◌, length, Some, None, if◌then◌else◌};
ghost use Rattle.std.specs.List.{list_all};
ghost use Rattle.std.specs.Char.{is_ascii_digit};
ghost use Rattle.vx_text.specs.Numbers.{number_of, value_after, is_plain as is_plain_text, positive as positive_value, negative as negative_value, value_of};

/// So many digits spell a number below 2^64, whatever they are.
const FEW: usize = 19;

fn are_digits(text: &[u8]) -> bool
    ensures { result ≡ list_all is_ascii_digit text.now }
{
    text.iter().all(|byte| byte.is_ascii_digit())
}

// One spelling for each number: no leading zero.
fn is_plain(text: &[u8]) -> bool
    ensures { result ≡ is_plain_text text.now }
{
    if text.is_empty() {
        return false;
    }
    if text[0] == b'0' {
        return text.len() == 1;
    }
    are_digits(text)
}

/// The number that bytes spell, which are digits and few.
fn few_digits(text: &[u8]) -> Option<u64>
    requires { length text.now ≤ 19 }
    ensures { result ≡ (if list_all is_ascii_digit text.now then Some (value_after 0 text.now) else None) }
{
    let mut value = 0u64;
    for at in 0..text.len() {
        let byte = text[at];
        if !byte.is_ascii_digit() {
            return None;
        }
        value = 10 * value + u64::from(byte - b'0');
    }
    Some(value)
}

/// The same as `number`, of any length.
#[tactic(auto, unfolding(crate::specs::Numbers::number_of))]
fn long_number(text: &[u8]) -> Option<u64>
    ensures { result ≡ number_of text.now }
{
    if !is_plain(text) {
        return None;
    }
    let mut value = 0u64;
    for digit in text {
        value = value
            .checked_mul(10)?
            .checked_add(u64::from(digit.saturating_sub(b'0')))?;
    }
    Some(value)
}

/// The number that decimal digits spell, without sign or leading zero, below 2^64. Nearly all have few digits.
#[tactic(auto, using(crate::proofs::NumberLemmas::few_spell, crate::proofs::NumberLemmas::zero_spells, crate::proofs::NumberLemmas::zero_behind, crate::proofs::NumberLemmas::nothing_spells))]
pub fn number(text: &[u8]) -> Option<u64>
    ensures { result ≡ number_of text.now }
{
    if text.len() > FEW {
        return long_number(text);
    }
    if text.is_empty() {
        return None;
    }
    if text[0] == b'0' {
        return if text.len() == 1 { Some(0) } else { None };
    }
    few_digits(text)
}

/// The value of a magnitude, where it has 32 bits.
fn positive(magnitude: u64) -> Option<i32>
    ensures { result ≡ positive_value (Some magnitude) }
{
    if magnitude >= 1 << 31 {
        return None;
    }
    Some(magnitude as i32)
}

/// The value below 0 of a magnitude, where it has 32 bits.
fn negative(magnitude: u64) -> Option<i32>
    ensures { result ≡ negative_value (Some magnitude) }
{
    if magnitude == 0 || magnitude > 1 << 31 {
        return None;
    }
    Some(-1 - (magnitude - 1) as i32)
}

/// The value of 32 bits that a word spells: digits as above, after a `-` where it is below 0.
pub fn value(word: &str) -> Option<i32>
    ensures { result ≡ value_of word.now }
{
    let bytes = word.as_bytes();
    match bytes {
        [] => None,
        [first, digits @ ..] => {
            if *first == b'-' {
                negative(number(digits)?)
            } else {
                positive(number(bytes)?)
            }
        }
    }
}
