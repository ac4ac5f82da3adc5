//! Bytes as hex text.
ghost use Rattle.std.specs.Prelude.{◌≡◌, ◌∷◌, [], ◌+◌, ◌*◌, ◌/◌, ◌%◌, ◌<◌, ◌≤◌, length, map, slice_index};
ghost use Rattle.hex.specs.Hex.{encode_lower, lower_digits};
ghost use Rattle.vx_text.specs.Hexadecimal.{hex_text};
ghost use Rattle.vx_text.specs.Text.{Adds, Holds};

use crate::text::TextOut;
use std::simd::prelude::*;
use vx_base::Sink;

/// The lower case digits.
const DIGITS: [u8; 16] = *b"0123456789abcdef";

/// So many bytes fit a vector.
const LANES: usize = 16;

/// For the digits of at most so many bytes room is made at once.
const PIECE: usize = 2048;

/// The digits of so many bytes go to the sink by themselves.
const MANY: usize = 131_072;

/// The lower case digit of a number below 16.
#[inline(always)]
#[tactic(auto, using(crate::proofs::HexLemmas::lower_digit_is))]
fn lower_digit(number: u8) -> u8
    requires { number < 16 }
    ensures { result ≡ slice_index lower_digits number }
{
    if number < 10 {
        b'0' + number
    } else {
        b'a' - 10 + number
    }
}

/// The digits of the high halves of bytes.
#[inline(always)]
fn high_digits(bytes: u8x16) -> u8x16
    ensures { result ≡ map (λ byte. slice_index lower_digits (byte / 16)) bytes }
{
    u8x16::from_array(DIGITS).swizzle_dyn(bytes >> u8x16::splat(4))
}

/// The digits of the low halves of bytes.
#[inline(always)]
fn low_digits(bytes: u8x16) -> u8x16
    ensures { result ≡ map (λ byte. slice_index lower_digits (byte % 16)) bytes }
{
    u8x16::from_array(DIGITS).swizzle_dyn(bytes & u8x16::splat(15))
}

/// The digits of bytes, those of each byte beside one another.
#[inline(always)]
fn digits_of(bytes: u8x16) -> u8x32
    ensures { result ≡ encode_lower bytes }
{
    high_digits(bytes).shuffle(
        low_digits(bytes),
        [
            0, 16, 1, 17, 2, 18, 3, 19, 4, 20, 5, 21, 6, 22, 7, 23, 8, 24, 9, 25, 10, 26, 11, 27,
            12, 28, 13, 29, 14, 30, 15, 31,
        ],
    )
}

/// Puts the digits of a byte, for which there is room.
#[inline(always)]
fn put_byte(byte: u8, text: &mut TextOut)
    requires { length text.old.held + 2 ≤ 32768 }
    ensures holds { Holds (encode_lower (byte ∷ [])) text.old text.new }
    ensures long { length text.new.held ≡ length text.old.held + 2 }
{
    text.push(lower_digit(byte / 16));
    text.push(lower_digit(byte % 16));
}

/// Puts the digits of as many bytes as fit a vector, for which there is room.
#[inline(always)]
fn put_vector(bytes: &[u8], text: &mut TextOut)
    requires whole { length bytes.now ≡ 16 }
    requires room { length text.old.held + 32 ≤ 32768 }
    ensures holds { Holds (encode_lower bytes.now) text.old text.new }
    ensures long { length text.new.held ≡ length text.old.held + 32 }
{
    text.put_vector(digits_of(u8x16::from_slice(bytes)));
}

/// Puts the digits of bytes, for which there is room: of as many as fit a vector at a time, and then of each that is left.
fn put_bytes(bytes: &[u8], text: &mut TextOut)
    requires { length text.old.held + 2 * length bytes.now ≤ 32768 }
    ensures { Holds (encode_lower bytes.now) text.old text.new }
{
    let mut rest = bytes;
    while rest.len() >= LANES {
        let (front, behind) = rest.split_at(LANES);
        put_vector(front, text);
        rest = behind;
    }
    while let Some((byte, behind)) = rest.split_first() {
        put_byte(*byte, text);
        rest = behind;
    }
}

/// Adds the digits of bytes, piece by piece.
fn put_pieces<S: Sink>(bytes: &[u8], text: &mut TextOut, out: &mut S)
    ensures { Adds (encode_lower bytes.now) text.old (S.state out.old) text.new (S.state out.new) }
{
    let mut left = bytes;
    while !left.is_empty() {
        let (piece, behind) = left.split_at(left.len().min(PIECE));
        text.make_room_for(out, 2 * piece.len());
        put_bytes(piece, text);
        left = behind;
    }
}

/// Spells bytes: as many as fit a vector at a time, and then each that is left.
fn spell(bytes: &[u8], digits: &mut [u8])
    requires { length digits.old ≡ 2 * length bytes.now }
    ensures { digits.new ≡ encode_lower bytes.now }
{
    let blocks = bytes.len() / LANES;
    for block in 0..blocks {
        let vector = u8x16::from_slice(&bytes[LANES * block..]);
        digits_of(vector).copy_to_slice(&mut digits[2 * LANES * block..]);
    }
    for at in LANES * blocks..bytes.len() {
        let byte = bytes[at];
        digits[2 * at] = lower_digit(byte / 16);
        digits[2 * at + 1] = lower_digit(byte % 16);
    }
}

/// Adds the digits of many bytes, which go to the sink without a copy. It stands apart, so that the room for its digits is
/// not laid out for few bytes too.
#[inline(never)]
fn put_many<S: Sink>(bytes: &[u8], text: &mut TextOut, out: &mut S)
    ensures { Adds (encode_lower bytes.now) text.old (S.state out.old) text.new (S.state out.new) }
{
    let mut digits = [0u8; 2 * MANY];
    let mut left = bytes;
    while left.len() >= MANY {
        let (piece, behind) = left.split_at(MANY);
        spell(piece, &mut digits);
        text.pass_on(out, &digits);
        left = behind;
    }
    put_pieces(left, text, out);
}

/// Adds bytes as lower case digits, `-` for none.
pub fn put_hex<S: Sink>(bytes: &[u8], text: &mut TextOut, out: &mut S)
    ensures { Adds (hex_text bytes.now) text.old (S.state out.old) text.new (S.state out.new) }
{
    if bytes.is_empty() {
        return text.word(out, b"-");
    }
    if bytes.len() >= MANY {
        return put_many(bytes, text, out);
    }
    put_pieces(bytes, text, out);
}
