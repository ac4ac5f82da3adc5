//! Words and numbers, and quoted text.
ghost use Rattle.std.specs.Prelude.{◌≡◌, ◌+◌, ◌<◌, ◌≤◌, ◌/◌, ◌%◌, ◌∷◌, [], length};
ghost use Rattle.std.specs.List.{flat_map, list_all};
ghost use Rattle.vx_data.specs.Texts.{quoted, quoted_byte, is_quote_plain, upper_hex_digit};
ghost use Rattle.vx_print.specs.Lines.{numbers_after, words, line};
ghost use Rattle.vx_text.specs.Text.{Adds, Holds};

use vx_base::Sink;
use vx_text::TextOut;

/// Adds numbers, each after a space.
pub fn put_numbers<S: Sink>(numbers: &[u64], text: &mut TextOut, out: &mut S)
    ensures { Adds (numbers_after numbers.now) text.old (S.state out.old) text.new (S.state out.new) }
{
    for number in numbers {
        text.number_after(out, *number);
    }
}

/// Adds a word and numbers behind it.
pub fn put_words<S: Sink>(head: &[u8], numbers: &[u64], text: &mut TextOut, out: &mut S)
    ensures { Adds (words head.now numbers.now) text.old (S.state out.old) text.new (S.state out.new) }
{
    text.word(out, head);
    put_numbers(numbers, text, out);
}

/// Adds a line of a word and numbers.
pub fn put_line<S: Sink>(head: &[u8], numbers: &[u64], text: &mut TextOut, out: &mut S)
    ensures { Adds (line head.now numbers.now) text.old (S.state out.old) text.new (S.state out.new) }
{
    put_words(head, numbers, text, out);
    text.end_line(out);
}

/// The bytes that stand for themselves, each at its place. At all other places stands another byte.
static PLAIN: [u8; 256] =
    *b"----------------------------------------------.-0123456789-------ABCDEFGHIJKLMNOPQRSTUVWXYZ----_-abcdefghijklmnopqrstuvwxyz-------------------------------------------------------------------------------------------------------------------------------------";

/// Whether a byte stands for itself. It is looked up, which takes as few steps for one byte as for another.
#[inline(always)]
fn is_plain(byte: u8) -> bool
    ensures { result ≡ is_quote_plain byte }
{
    PLAIN[byte as usize] == byte
}

/// The upper case digit of a number below 16.
fn hex_digit(number: u8) -> u8
    requires { number < 16 }
    ensures { result ≡ upper_hex_digit number }
{
    if number < 10 {
        b'0' + number
    } else {
        b'A' - 10 + number
    }
}

/// Adds the digits of a byte that does not stand for itself.
#[cold]
fn put_byte_digits<S: Sink>(byte: u8, text: &mut TextOut, out: &mut S)
    ensures { Adds (37 ∷ upper_hex_digit (byte / 16) ∷ upper_hex_digit (byte % 16) ∷ []) text.old (S.state out.old) text.new (S.state out.new) }
{
    text.word(out, &[b'%', hex_digit(byte / 16), hex_digit(byte % 16)]);
}

#[inline(always)]
fn put_quoted_byte<S: Sink>(byte: u8, text: &mut TextOut, out: &mut S)
    ensures { Adds (quoted_byte byte) text.old (S.state out.old) text.new (S.state out.new) }
{
    if is_plain(byte) {
        return text.byte(out, byte);
    }
    put_byte_digits(byte, text, out);
}

#[inline(always)]
fn put_quoted_bytes<S: Sink>(bytes: &[u8], text: &mut TextOut, out: &mut S)
    ensures { Adds (flat_map quoted_byte bytes.now) text.old (S.state out.old) text.new (S.state out.new) }
{
    for byte in bytes {
        put_quoted_byte(*byte, text, out);
    }
}

#[inline(always)]
fn are_plain(bytes: &[u8]) -> bool
    ensures { result ≡ list_all is_quote_plain bytes.now }
{
    bytes.iter().all(|byte| is_plain(*byte))
}

/// Puts four bytes. All are read before one is written, so that they go by one change of the length.
#[inline(always)]
fn put_four(bytes: &[u8], text: &mut TextOut)
    requires four { length bytes.now ≡ 4 }
    requires room { length text.old.held + 4 ≤ 32768 }
    ensures { Holds bytes.now text.old text.new }
{
    let (first, second, third, fourth) = (bytes[0], bytes[1], bytes[2], bytes[3]);
    text.push(first);
    text.push(second);
    text.push(third);
    text.push(fourth);
}

/// Adds the bytes of quoted text. Most stand for themselves, and are looked at and put by four.
#[inline(always)]
fn put_by_four<S: Sink>(bytes: &[u8], text: &mut TextOut, out: &mut S)
    ensures { Adds (flat_map quoted_byte bytes.now) text.old (S.state out.old) text.new (S.state out.new) }
{
    let mut rest = bytes;
    while rest.len() >= 4 {
        let (four, behind) = rest.split_at(4);
        text.make_room(out);
        if !are_plain(four) {
            return put_quoted_bytes(rest, text, out);
        }
        put_four(four, text);
        rest = behind;
    }
    put_quoted_bytes(rest, text, out);
}

/// Adds quoted text: one spelling for each text.
#[inline(always)]
pub fn put_quoted<S: Sink>(bytes: &[u8], text: &mut TextOut, out: &mut S)
    ensures { Adds (quoted bytes.now) text.old (S.state out.old) text.new (S.state out.new) }
{
    if bytes.is_empty() {
        return text.byte(out, b'%');
    }
    put_by_four(bytes, text, out);
}
