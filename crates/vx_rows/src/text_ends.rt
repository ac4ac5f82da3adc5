//! The least and the greatest of some texts.
ghost use Rattle.std.specs.Prelude.{ℕ, ◌≡◌, ◌<◌, ◌≤◌, length, slice_index_or, Option, Some, None, true};
ghost use Rattle.std.specs.Option.{option_map};
ghost use Rattle.std.specs.Str.{is_utf8};
ghost use Rattle.std.specs.Ordering.{is_lt};
ghost use Rattle.vx_rows.specs.RowStats.{lesser_of, greater_of, text_cmp};
ghost use Rattle.vx_rows.specs.FirstBytes.{first_four as number_of};

/// A text, and its first four bytes as one number: where two numbers differ, the texts are in their order. That its bytes are
/// those of a text is kept, since it is not known of a text in a struct.
#[derive(Clone, Copy)]
struct NumberedText<'a> {
    text: &'a str,
    number: u32,
    ghost exact: { number ≡ number_of text.now },
    ghost bytes: { (i : ℕ) → slice_index_or text.now i 0 < 256 },
    ghost utf8: { is_utf8 text.now ≡ true },
}

/// The least and the greatest of some texts.
#[derive(Clone, Copy)]
pub struct TextEnds<'a> {
    least: NumberedText<'a>,
    greatest: NumberedText<'a>,
}

/// A byte of a text, or 0 behind its end.
#[inline(always)]
fn byte_or_zero(bytes: &[u8], at: usize) -> u8
    ensures { result ≡ slice_index_or bytes.now at 0 }
{
    if at < bytes.len() { bytes[at] } else { 0 }
}

/// The first four bytes of a text that may have fewer.
fn first_of_few(bytes: &[u8]) -> u32
    ensures { result ≡ number_of bytes.now }
{
    u32::from_be_bytes([
        byte_or_zero(bytes, 0),
        byte_or_zero(bytes, 1),
        byte_or_zero(bytes, 2),
        byte_or_zero(bytes, 3),
    ])
}

/// The first four bytes of a text as one number.
#[inline(always)]
fn first_four(bytes: &[u8]) -> u32
    ensures { result ≡ number_of bytes.now }
{
    if bytes.len() < 4 {
        return first_of_few(bytes);
    }
    u32::from_be_bytes([bytes[0], bytes[1], bytes[2], bytes[3]])
}

/// A text with its number.
#[inline(always)]
#[tactic(auto, using(crate::proofs::FirstLemmas::utf8_told))]
fn numbered<'a>(text: &'a str) -> NumberedText<'a>
    ensures { result.text.now ≡ text.entry.now }
{
    let bytes = text.as_bytes();
    let number = first_four(bytes);
    NumberedText { text, number }
}

/// Whether a text comes before another.
#[tactic(auto, using(crate::proofs::FirstLemmas::first_before, crate::proofs::FirstLemmas::first_behind, crate::proofs::FirstLemmas::utf8_known))]
fn comes_before(a: NumberedText, b: NumberedText) -> bool
    ensures { result ≡ is_lt (text_cmp a.entry.text.now b.entry.text.now) }
{
    if a.number < b.number {
        return true;
    }
    if b.number < a.number {
        return false;
    }
    a.text.cmp(b.text).is_lt()
}

/// The ends of texts and one more, wherever it stands.
fn stretched<'a>(ends: TextEnds<'a>, value: NumberedText<'a>) -> TextEnds<'a>
    ensures least { Some result.least.text.now ≡ lesser_of text_cmp (Some ends.entry.least.text.now) (Some value.entry.text.now) }
    ensures greatest { Some result.greatest.text.now ≡ greater_of text_cmp (Some ends.entry.greatest.text.now) (Some value.entry.text.now) }
{
    let TextEnds { least, greatest } = ends;
    TextEnds {
        least: if comes_before(value, least) {
            value
        } else {
            least
        },
        greatest: if comes_before(greatest, value) {
            value
        } else {
            greatest
        },
    }
}

/// The ends of texts and one more. The first of them is both. Mostly the first bytes tell that it is neither.
#[inline(always)]
#[tactic(auto, using(crate::proofs::FirstLemmas::first_behind))]
fn widened<'a>(ends: Option<TextEnds<'a>>, text: &'a str) -> TextEnds<'a>
    ensures least { Some result.least.text.now ≡ lesser_of text_cmp (option_map (λ e. e.least.text.now) ends.entry) (Some text.entry.now) }
    ensures greatest { Some result.greatest.text.now ≡ greater_of text_cmp (option_map (λ e. e.greatest.text.now) ends.entry) (Some text.entry.now) }
{
    let value = numbered(text);
    let Some(ends) = ends else {
        return TextEnds {
            least: value,
            greatest: value,
        };
    };
    if ends.least.number < value.number {
        if value.number < ends.greatest.number {
            return ends;
        }
    }
    stretched(ends, value)
}

/// The ends of texts and of a row, which may have none.
#[inline(always)]
pub fn with_text<'a>(ends: Option<TextEnds<'a>>, row: Option<&'a str>) -> Option<TextEnds<'a>>
    ensures least { option_map (λ e. e.least.text.now) result
        ≡ lesser_of text_cmp (option_map (λ e. e.least.text.now) ends.entry) (option_map (λ v. v.now) row.entry) }
    ensures greatest { option_map (λ e. e.greatest.text.now) result
        ≡ greater_of text_cmp (option_map (λ e. e.greatest.text.now) ends.entry) (option_map (λ v. v.now) row.entry) }
{
    match row {
        None => ends,
        Some(text) => Some(widened(ends, text)),
    }
}

/// The least text, if there is any.
#[tactic(auto, using(crate::proofs::FirstLemmas::utf8_known))]
pub fn least_text<'a>(ends: Option<TextEnds<'a>>) -> Option<&'a str>
    ensures { option_map (λ v. v.now) result ≡ option_map (λ e. e.least.text.now) ends.entry }
{
    match ends {
        Some(ends) => Some(ends.least.text),
        None => None,
    }
}

/// The greatest text, if there is any.
#[tactic(auto, using(crate::proofs::FirstLemmas::utf8_known))]
pub fn greatest_text<'a>(ends: Option<TextEnds<'a>>) -> Option<&'a str>
    ensures { option_map (λ v. v.now) result ≡ option_map (λ e. e.greatest.text.now) ends.entry }
{
    match ends {
        Some(ends) => Some(ends.greatest.text),
        None => None,
    }
}
