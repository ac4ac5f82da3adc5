//! Values of metadata, as the words of `write` spell them.
ghost use Rattle.std.specs.Prelude.{◌≡◌, map, string_bytes, true};
ghost use Rattle.std.specs.List.{list_all};
ghost use Rattle.std.specs.Str.{bytes_eq};
ghost use Rattle.vx_base.specs.Buffer.{Buffer};
ghost use Rattle.vx_base.specs.Checks.{Gives, ◌lacking◌};
ghost use Rattle.vx_data.specs.TextsRead.{FailsToRead};
ghost use Rattle.vx_data.specs.declared.text_error.TextError.TheVariants.{BadText};
ghost use Rattle.vx_footer.specs.Serializing.{values_view};
ghost use Rattle.vx_commands.specs.MetadataWords.{is_lower, bytes_in_hex, entry_of, entries_of};

use hex::FromHexError;
use std::alloc::Global;
use vx_base::{Alignment, ByteBuffer};
use vx_data::{TextError, unquote};
use vx_text::{Shape, behind, first, value_count};

const META: &str = "--meta";

fn is_lower_case(word: &[u8]) -> bool
    ensures { result ≡ list_all is_lower word.now }
{
    word.iter().all(|digit| !(*digit >= b'A' && *digit <= b'F'))
}

/// The bytes that a word spells: `-` for none, else two digits for each, in lower case.
fn bytes_in_hex(alloc: Global, word: &str) -> Result<Vec<u8>, TextError>
    ensures { Gives FailsToRead (λ bytes. bytes.items) result (BadText lacking bytes_in_hex word.now) }
{
    if word == "-" {
        return Ok(Vec::new(alloc));
    }
    if word.is_empty() || !is_lower_case(word.as_bytes()) {
        return Err(TextError::BadText);
    }
    match hex::decode(alloc, word.as_bytes()) {
        Ok(bytes) => Ok(bytes),
        Err(FromHexError::OutOfMemory) => Err(TextError::OutOfMemory),
        Err(_) => Err(TextError::BadText),
    }
}

/// The key and the bytes that the values of an option spell.
fn entry(alloc: Global, values: &[String]) -> Result<(String, ByteBuffer), TextError>
    ensures { Gives FailsToRead (λ e. (string_bytes e.0, e.1)) result (BadText lacking entry_of (map string_bytes values.now)) }
{
    let [key, word] = values else {
        return Err(TextError::BadText);
    };
    let key = unquote(alloc, key.as_str())?;
    let bytes = bytes_in_hex(alloc, word.as_str())?;
    Ok((key, ByteBuffer::from_vec(alloc, bytes, Alignment::none())?))
}

/// The entries of all options `--meta` among words that are options, in order.
pub(crate) fn entries(
    alloc: Global,
    shapes: &[Shape],
    words: &[String],
) -> Result<Vec<(String, ByteBuffer)>, TextError>
    ensures { Gives FailsToRead (λ es. values_view es.items) result (BadText lacking entries_of shapes.now (map string_bytes words.now)) }
{
    let mut entries = Vec::new(alloc);
    let mut rest = words;
    while let Some((word, others)) = rest.split_first() {
        let text = word.as_str();
        let count = value_count(shapes, text, others);
        rest = behind(others, count);
        if text != META {
            continue;
        }
        entries.push(entry(alloc, first(others, count))?)?;
    }
    Ok(entries)
}
