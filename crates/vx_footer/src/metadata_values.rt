//! Metadata values that are written: in the order of their keys, and where they lie.
ghost use Rattle.std.specs.Prelude.{◌≡◌, ◌≤◌, ◌<◌, ◌^◌, ◌++◌, ◌∷◌, [], IfOk, IfSome, IfNone, OnOk, true, length, map, string_bytes, replicate, take, drop};
ghost use Rattle.std.specs.List.{list_all};
ghost use Rattle.vx_base.specs.Buffer.{Buffer};
ghost use Rattle.vx_base.specs.Checks.{Gives};
ghost use Rattle.vx_footer.specs.Placing.{padding as zeros_to};
ghost use Rattle.vx_footer.specs.PostscriptWritten.{FailsToWrite};
ghost use Rattle.vx_footer.specs.Serializing.{is_before as comes_before, put_value, put_values, values_view, is_short, entry_at, placed_entries, entries_by, value_end, values_end, value_parts, keys_by, bytes_of, lengths_checks, metadata_checks};

use crate::postscript::{longest_key, most_entries};
use crate::{FileVersion, PostscriptMetadata, PostscriptSegment, WriteError, padding};
use std::alloc::{AllocError, Global};
use vx_base::{Alignment, ByteBuffer, Sequence, Text};

/// Whether a key comes before another, by their bytes.
fn is_before(key: &str, other: &str) -> bool
    ensures { result ≡ comes_before key.now other.now }
{
    key.cmp(other).is_lt()
}

/// The place of the first value whose key is greater, or how many values there are.
#[tactic(auto, using(crate::proofs::ValueLemmas::put_here, crate::proofs::ValueLemmas::put_next, crate::proofs::ValueLemmas::put_end))]
fn place_of(sorted: &[(String, ByteBuffer)], key: &str) -> usize
    ensures inside { result ≤ length sorted.now }
    ensures put { (b : Buffer) → values_view (take result sorted.now) ++ (key.now, b)
        ∷ values_view (drop result sorted.now) ≡ put_value (key.now, b) (values_view sorted.now) }
{
    for at in 0..sorted.len() {
        if is_before(key, sorted[at].0.as_str()) {
            return at;
        }
    }
    sorted.len()
}

/// Puts a value in its place.
#[tactic(auto, using(crate::proofs::ValueLemmas::insert_view))]
fn put(
    sorted: &mut Vec<(String, ByteBuffer)>,
    value: (String, ByteBuffer),
) -> Result<(), AllocError>
    ensures { OnOk result (values_view sorted.new.items ≡ put_value (string_bytes value.0, value.1) (values_view sorted.old.items)) }
{
    let place = place_of(sorted, value.0.as_str());
    sorted.insert(place, value)?;
    Ok(())
}

/// The values in the order of their keys.
pub(crate) fn sorted(
    alloc: Global,
    values: Vec<(String, ByteBuffer)>,
) -> Result<Vec<(String, ByteBuffer)>, AllocError>
    ensures { IfOk result (λ sorted. values_view sorted.items ≡ put_values [] (values_view values.items)) }
{
    let mut sorted = Vec::new(alloc);
    for value in values {
        put(&mut sorted, value)?;
    }
    Ok(sorted)
}

/// Whether the keys of values have lengths that the version allows.
#[tactic(auto, using(crate::proofs::ValueLemmas::next_lengths))]
fn check_values(version: FileVersion, values: &[(String, ByteBuffer)]) -> Result<(), WriteError>
    ensures { Gives FailsToWrite (λ x. x) result (lengths_checks version (map (λ v. v.0) (values_view values.now))) }
{
    for at in 0..values.len() {
        let key = values[at].0.as_str();
        if key.is_empty() {
            return Err(WriteError::EmptyKey);
        }
        if key.len() > longest_key(version) {
            return Err(WriteError::LongKey);
        }
    }
    Ok(())
}

/// Whether the keys of entries have lengths that the version allows.
#[tactic(auto, using(crate::proofs::ValueLemmas::next_entry_lengths))]
fn check_entries(version: FileVersion, entries: &[PostscriptMetadata]) -> Result<(), WriteError>
    ensures { Gives FailsToWrite (λ x. x) result (lengths_checks version (map (λ m. m.key) entries.now)) }
{
    for at in 0..entries.len() {
        let key = entries[at].key.as_str();
        if key.is_empty() {
            return Err(WriteError::EmptyKey);
        }
        if key.len() > longest_key(version) {
            return Err(WriteError::LongKey);
        }
    }
    Ok(())
}

/// The offset behind a value, where it is below 2^64.
fn end_behind(at: u64, value: &ByteBuffer) -> Option<u64>
    ensures some { IfSome result (λ end. end ≡ value_end at value.now) }
    ensures none { IfNone result (2 ^ 64 ≤ value_end at value.now) }
{
    let start = at.checked_add(padding(value.alignment(), at))?;
    start.checked_add(value.len() as u64)
}

/// The offset behind values that lie one behind the other from an offset on, where it is below 2^64.
#[tactic(auto, using(crate::proofs::ValueLemmas::next_end, crate::proofs::ValueLemmas::end_beyond))]
pub(crate) fn end_of(offset: u64, values: &[(String, ByteBuffer)]) -> Option<u64>
    ensures some { IfSome result (λ end. end ≡ values_end offset (values_view values.now)) }
    ensures none { IfNone result (2 ^ 64 ≤ values_end offset (values_view values.now)) }
{
    let mut end = offset;
    for at in 0..values.len() {
        match end_behind(end, &values[at].1) {
            Some(next) => end = next,
            None => return None,
        }
    }
    Some(end)
}

/// Whether each value has less than 2^32 bytes.
pub(crate) fn are_short(values: &[(String, ByteBuffer)]) -> bool
    ensures { result ≡ list_all (λ v. is_short v.1.bytes) (values_view values.now) }
{
    for at in 0..values.len() {
        if values[at].1.len() >= 1 << 32 {
            return false;
        }
    }
    true
}

/// Whether a footer's own metadata may be written in a file of this version.
#[tactic(auto, using(crate::proofs::Lists::map_lengths))]
fn check_own(version: FileVersion, own: &[PostscriptMetadata]) -> Result<(), WriteError>
    ensures { Gives FailsToWrite (λ x. x) result (metadata_checks version (map (λ m. m.key) own.now)) }
{
    if own.len() > most_entries(version) {
        return Err(WriteError::TooManyMetadata);
    }
    check_entries(version, own)
}

/// Whether metadata values may be written in a file of this version.
#[tactic(auto, using(crate::proofs::Lists::map_lengths))]
fn check_new(version: FileVersion, values: &[(String, ByteBuffer)]) -> Result<(), WriteError>
    ensures { Gives FailsToWrite (λ x. x) result (metadata_checks version (map (λ v. v.0) (values_view values.now))) }
{
    if values.len() > most_entries(version) {
        return Err(WriteError::TooManyMetadata);
    }
    check_values(version, values)
}

/// Whether the metadata of a file of this version may be written: few entries, each with a key that is neither
/// empty nor too long.
#[tactic(auto, using(crate::proofs::ValueLemmas::some_keys, crate::proofs::ValueLemmas::no_keys))]
pub(crate) fn check_metadata(
    version: FileVersion,
    own: &[PostscriptMetadata],
    values: &[(String, ByteBuffer)],
) -> Result<(), WriteError>
    ensures { Gives FailsToWrite (λ x. x) result (metadata_checks version (keys_by own.now (values_view values.now))) }
{
    if values.is_empty() {
        return check_own(version, own);
    }
    check_new(version, values)
}

/// The offset behind a value.
fn end_at(at: u64, value: &ByteBuffer) -> u64
    requires { value_end at value.now < 2 ^ 64 }
    ensures { result ≡ value_end at value.now }
{
    at + padding(value.alignment(), at) + value.len() as u64
}

/// The entry of a value, and the offset behind it.
fn entry_and_end(
    alloc: Global,
    at: u64,
    value: &(String, ByteBuffer),
) -> Result<(PostscriptMetadata, u64), AllocError>
    requires short { is_short value.now.1.bytes ≡ true }
    requires fits { value_end at value.now.1 < 2 ^ 64 }
    ensures entry { IfOk result (λ x. x.0 ≡ entry_at at (string_bytes value.now.0, value.now.1)) }
    ensures end { IfOk result (λ x. x.1 ≡ value_end at value.now.1) }
{
    let alignment = value.1.alignment();
    let offset = at + padding(alignment, at);
    let entry = PostscriptMetadata {
        key: Text::from_str(alloc, value.0.as_str())?,
        segment: PostscriptSegment {
            offset,
            length: value.1.len() as u32,
            alignment,
        },
    };
    Ok((entry, offset + value.1.len() as u64))
}

/// The entries of values that lie one behind the other from an offset on.
#[tactic(auto, using(crate::proofs::ValueLemmas::next_placed, crate::proofs::ValueLemmas::next_short, crate::proofs::ValueLemmas::next_end))]
fn placed(
    alloc: Global,
    offset: u64,
    values: &[(String, ByteBuffer)],
) -> Result<Sequence<PostscriptMetadata>, AllocError>
    requires short { list_all (λ v. is_short v.1.bytes) (values_view values.now) ≡ true }
    requires fits { values_end offset (values_view values.now) < 2 ^ 64 }
    ensures { IfOk result (λ entries. entries ≡ placed_entries offset (values_view values.now)) }
{
    let mut entries = Sequence::new(alloc);
    let mut start = offset;
    for at in 0..values.len() {
        let (entry, end) = entry_and_end(alloc, start, &values[at])?;
        entries.push(entry)?;
        start = end;
    }
    Ok(entries)
}

/// The same entries.
pub(crate) fn copied(
    alloc: Global,
    entries: &[PostscriptMetadata],
) -> Result<Sequence<PostscriptMetadata>, AllocError>
    ensures { IfOk result (λ copies. copies ≡ entries.now) }
{
    let mut copies = Sequence::new(alloc);
    for entry in entries {
        copies.push(PostscriptMetadata {
            key: Text::from_str(alloc, entry.key.as_str())?,
            segment: entry.segment,
        })?;
    }
    Ok(copies)
}

/// The entries that are written: those of new values, where there are any, and else the footer's own.
#[tactic(auto, using(crate::proofs::ValueLemmas::some_values, crate::proofs::ValueLemmas::no_values))]
pub(crate) fn entries_of(
    alloc: Global,
    own: &[PostscriptMetadata],
    offset: u64,
    values: &[(String, ByteBuffer)],
) -> Result<Sequence<PostscriptMetadata>, AllocError>
    requires short { list_all (λ v. is_short v.1.bytes) (values_view values.now) ≡ true }
    requires fits { values_end offset (values_view values.now) < 2 ^ 64 }
    ensures { IfOk result (λ entries. entries ≡ entries_by own.now offset (values_view values.now)) }
{
    if values.is_empty() {
        return copied(alloc, own);
    }
    placed(alloc, offset, values)
}

/// Adds a value, with the zeros before it.
fn push_value(
    alloc: Global,
    parts: &mut Vec<ByteBuffer>,
    at: u64,
    value: ByteBuffer,
) -> Result<(), AllocError>
    ensures { OnOk result (bytes_of parts.new.items ≡ bytes_of parts.old.items ++ replicate (zeros_to value.alignment at) 0 ∷ value.bytes ∷ []) }
{
    let count = padding(value.alignment(), at) as usize;
    let zeros = vec![in alloc; 0; count]?;
    parts.push(ByteBuffer::from_vec(alloc, zeros, Alignment::none())?)?;
    parts.push(value)?;
    Ok(())
}

/// The values, each behind the zeros before it.
#[tactic(auto, using(crate::proofs::ValueLemmas::end_past))]
pub(crate) fn parts_of(
    alloc: Global,
    offset: u64,
    values: Vec<(String, ByteBuffer)>,
) -> Result<Vec<ByteBuffer>, AllocError>
    requires { values_end offset (values_view values.items) < 2 ^ 64 }
    ensures { IfOk result (λ parts. bytes_of parts.items ≡ value_parts offset (values_view values.items)) }
{
    let mut parts = Vec::new(alloc);
    let mut at = offset;
    for value in values {
        let end = end_at(at, &value.1);
        push_value(alloc, &mut parts, at, value.1)?;
        at = end;
    }
    Ok(parts)
}
