//! Quoted text: one spelling for each text, of letters, digits and a few marks.
ghost use Rattle.std.specs.Prelude.{◌≡◌, ◌++◌, ◌∷◌, [], ◌<◌, ◌/◌, ◌%◌, OnOk, IfOk, length, string_bytes};
ghost use Rattle.std.specs.List.{flat_map};
ghost use Rattle.vx_data.specs.Texts.{is_quote_plain, upper_hex_digit, quoted_byte, quoted};

use std::alloc::{AllocError, Global};

/// Whether a byte stands for itself.
pub(crate) fn is_plain(byte: u8) -> bool
    ensures value { result ≡ is_quote_plain byte }
{
    byte.is_ascii_alphanumeric() || byte == b'_' || byte == b'.' || byte == b'-'
}

/// The upper case digit of a number below 16.
fn hex_digit(number: u8) -> u8
    requires { number < 16 }
    ensures value { result ≡ upper_hex_digit number }
    ensures ascii { result < 128 }
{
    if number < 10 {
        b'0' + number
    } else {
        b'A' - 10 + number
    }
}

/// Adds a byte below 128.
#[tactic(auto, using(std::proofs::lemmas::Str::encode_ascii))]
fn push_ascii(text: &mut String, byte: u8) -> Result<(), AllocError>
    requires { byte < 128 }
    ensures { OnOk result (string_bytes text.new ≡ string_bytes text.old ++ byte ∷ []) }
{
    text.push(byte as char)
}

/// Adds a byte by its digits.
fn push_digits(text: &mut String, byte: u8) -> Result<(), AllocError>
    ensures { OnOk result (string_bytes text.new ≡ string_bytes text.old ++ 37 ∷ upper_hex_digit (byte / 16) ∷ upper_hex_digit (byte % 16) ∷ []) }
{
    push_ascii(text, b'%')?;
    push_ascii(text, hex_digit(byte / 16))?;
    push_ascii(text, hex_digit(byte % 16))
}

/// Adds a byte of quoted text.
fn push_quoted_byte(text: &mut String, byte: u8) -> Result<(), AllocError>
    ensures { OnOk result (string_bytes text.new ≡ string_bytes text.old ++ quoted_byte byte) }
{
    if is_plain(byte) {
        return push_ascii(text, byte);
    }
    push_digits(text, byte)
}

/// Adds the bytes of quoted text.
fn push_quoted_bytes(text: &mut String, bytes: &[u8]) -> Result<(), AllocError>
    ensures { OnOk result (string_bytes text.new ≡ string_bytes text.old ++ flat_map quoted_byte bytes.now) }
{
    for byte in bytes {
        push_quoted_byte(text, *byte)?;
    }
    Ok(())
}

/// Adds quoted text.
pub(crate) fn push_quoted(text: &mut String, added: &str) -> Result<(), AllocError>
    ensures { OnOk result (string_bytes text.new ≡ string_bytes text.old ++ quoted added.now) }
{
    if added.is_empty() {
        return push_ascii(text, b'%');
    }
    push_quoted_bytes(text, added.as_bytes())
}

/// The quoted text. The empty text is `%`.
pub fn quote(alloc: Global, text: &str) -> Result<String, AllocError>
    ensures { IfOk result (λ spelled. string_bytes spelled ≡ quoted text.now) }
{
    let mut spelled = String::new(alloc);
    push_quoted(&mut spelled, text)?;
    Ok(spelled)
}
