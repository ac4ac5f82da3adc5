//! Columns of texts in the bytes of a segment.
ghost use Rattle.std.specs.Prelude.{◌≡◌, ◌+◌, ◌-◌, ◌*◌, ◌<◌, ◌≤◌, ◌^◌, length, slice_index, slice_range, IfOk, IfSome, IfNone, IsAscii, true};
ghost use Rattle.std.specs.Str.{is_utf8};
ghost use Rattle.vx_base.specs.Checks.{Gives};
ghost use Rattle.vx_data.specs.declared.ptype.PType.TheVariants.{U32};
ghost use Rattle.vx_rows.specs.Span.{span, every};
ghost use Rattle.vx_rows.specs.Columns.{value_place, AreRanges, AreTexts};
ghost use Rattle.vx_rows.specs.Arrays.{Fails, place_at, places_at, is_text, texts_at};

use crate::int_column::{place_of, u32_at};
use crate::presence::read_presence;
use crate::reading::{are_clear, have_room};
use crate::text_places::TextPlaces;
use crate::{ArrayError, TextColumn};
use std::alloc::{AllocError, Global};
use vx_base::ByteBuffer;
use vx_data::PType;

/// The places of so many texts whose lengths stand at a place, in four bytes each, and the one behind the last, which comes once
/// more; none, where the bytes end before.
#[tactic(auto, using(crate::proofs::TextLemmas::so_far_start, crate::proofs::TextLemmas::so_far_end))]
fn narrow_places_of(
    alloc: Global,
    bytes: &[u8],
    at: usize,
    rows: usize,
) -> Result<Option<(Vec<u32>, usize)>, AllocError>
    requires room { value_place U32 at rows ≤ length bytes.now }
    requires bound { length bytes.now < 2 ^ 32 }
    ensures places { IfOk result (λ found. IfSome found (λ x. x.0.items ≡ places_at rows bytes.now at)) }
    ensures after { IfOk result (λ found. IfSome found (λ x. x.1 ≡ place_at bytes.now at (value_place U32 at rows) rows)) }
    ensures inside { IfOk result (λ found. IfSome found (λ x. x.1 ≤ length bytes.now)) }
    ensures ranges { IfOk result (λ found. IfSome found (λ x. AreRanges bytes.now x.0.items rows)) }
    ensures none { IfOk result (λ found. IfNone found (length bytes.now < place_at bytes.now at (value_place U32 at rows) rows)) }
{
    let mut place = place_of(PType::U32, at, rows);
    let mut places = Vec::with_capacity(alloc, rows + 1)?;
    places.push_reserved(place as u32);
    for row in 0..rows {
        let size = u32_at(bytes, at + 4 * row) as usize;
        if size > bytes.len() - place {
            return Ok(None);
        }
        place += size;
        places.push_reserved(place as u32);
    }
    Ok(Some((places, place)))
}

/// The same, where some places may need more than four bytes.
#[tactic(auto, using(crate::proofs::TextLemmas::so_far_start, crate::proofs::TextLemmas::so_far_end))]
fn wide_places_of(
    alloc: Global,
    bytes: &[u8],
    at: usize,
    rows: usize,
) -> Result<Option<(TextPlaces, usize)>, AllocError>
    requires room { value_place U32 at rows ≤ length bytes.now }
    requires bound { length bytes.now < 2 ^ 63 }
    ensures places { IfOk result (λ found. IfSome found (λ x. x.0 ≡ places_at rows bytes.now at)) }
    ensures after { IfOk result (λ found. IfSome found (λ x. x.1 ≡ place_at bytes.now at (value_place U32 at rows) rows)) }
    ensures inside { IfOk result (λ found. IfSome found (λ x. x.1 ≤ length bytes.now)) }
    ensures ranges { IfOk result (λ found. IfSome found (λ x. AreRanges bytes.now x.0 rows)) }
    ensures none { IfOk result (λ found. IfNone found (length bytes.now < place_at bytes.now at (value_place U32 at rows) rows)) }
{
    let mut place = place_of(PType::U32, at, rows);
    let mut places = TextPlaces::with_capacity(alloc, rows + 1)?;
    places.push(place)?;
    for row in 0..rows {
        let size = u32_at(bytes, at + 4 * row) as usize;
        if size > bytes.len() - place {
            return Ok(None);
        }
        place += size;
        places.push(place)?;
    }
    Ok(Some((places, place)))
}

/// The places of so many texts whose lengths stand at a place, and the one behind the last, which comes once
/// more; none, where the bytes end before.
fn places_of(
    alloc: Global,
    bytes: &[u8],
    at: usize,
    rows: usize,
) -> Result<Option<(TextPlaces, usize)>, AllocError>
    requires room { value_place U32 at rows ≤ length bytes.now }
    requires bound { length bytes.now < 2 ^ 63 }
    ensures places { IfOk result (λ found. IfSome found (λ x. x.0 ≡ places_at rows bytes.now at)) }
    ensures after { IfOk result (λ found. IfSome found (λ x. x.1 ≡ place_at bytes.now at (value_place U32 at rows) rows)) }
    ensures inside { IfOk result (λ found. IfSome found (λ x. x.1 ≤ length bytes.now)) }
    ensures ranges { IfOk result (λ found. IfSome found (λ x. AreRanges bytes.now x.0 rows)) }
    ensures none { IfOk result (λ found. IfNone found (length bytes.now < place_at bytes.now at (value_place U32 at rows) rows)) }
{
    if bytes.len() > u32::MAX as usize {
        return wide_places_of(alloc, bytes, at, rows);
    }
    match narrow_places_of(alloc, bytes, at, rows)? {
        Some((places, after)) => Ok(Some((TextPlaces::from_narrow(alloc, places), after))),
        None => Ok(None),
    }
}

/// Whether the bytes between two places are a text.
#[inline(always)]
#[tactic(auto, using(vx_tables::proofs::Text::utf8_tests))]
fn is_text_between(bytes: &[u8], from: usize, to: usize) -> bool
    requires ordered { from ≤ to }
    requires inside { to ≤ length bytes.now }
    ensures { result ≡ is_utf8 (slice_range bytes.now from to) }
{
    str::from_utf8(&bytes[from..to]).is_ok()
}

/// Whether the bytes of all rows together are ASCII, of which each part is a text.
fn are_ascii(bytes: &[u8], places: &TextPlaces, rows: usize) -> bool
    requires long { length places.now ≡ rows + 1 }
    ensures { result ≡ true → IsAscii (slice_range bytes.now (slice_index places.now 0) (slice_index places.now rows)) }
{
    match bytes.get(places.at(0)..places.at(rows)) {
        Some(all) => all.is_ascii(),
        None => false,
    }
}

/// Whether the bytes of each row are a text.
#[tactic(auto, using(crate::proofs::SpanLemmas::every_step, crate::proofs::TextLemmas::texts_are, crate::proofs::AsciiLemmas::ascii_texts))]
fn are_texts(bytes: &[u8], places: &TextPlaces, rows: usize) -> bool
    requires long { length places.now ≡ rows + 1 }
    requires ranges { AreRanges bytes.now places.now rows }
    ensures value { result ≡ every (is_text bytes.now places.now) 0 rows }
    ensures texts { result ≡ true → AreTexts bytes.now places.now rows }
{
    if are_ascii(bytes, places, rows) {
        return true;
    }
    for row in 0..rows {
        if !is_text_between(bytes, places.at(row), places.behind(row)) {
            return false;
        }
    }
    true
}

/// Texts and the place after them.
#[tactic(auto, using(crate::proofs::SpanLemmas::length_span), unfolding(crate::specs::Arrays::texts_at, crate::specs::Arrays::texts_here))]
pub fn read_texts(
    alloc: Global,
    segment: &ByteBuffer,
    at: usize,
    nullable: bool,
    rows: usize,
) -> Result<(TextColumn, usize), ArrayError>
    requires { at ≤ length segment.now.bytes }
    ensures value { Gives Fails (λ x. x) result (texts_at nullable rows segment.now.bytes at) }
    ensures inside { IfOk result (λ x. x.1 ≤ length segment.now.bytes) }
{
    let (present, from) = read_presence(alloc, segment, at, nullable, rows)?;
    let bytes = segment.as_slice();
    if !have_room(PType::U32, rows, bytes.len() - from) {
        return Err(ArrayError::BadArray);
    }
    if !are_clear(PType::U32, &present, bytes, from, rows) {
        return Err(ArrayError::BadArray);
    }
    let Some((places, after)) = places_of(alloc, bytes, from, rows)? else {
        return Err(ArrayError::BadArray);
    };
    if !are_texts(bytes, &places, rows) {
        return Err(ArrayError::BadArray);
    }
    let column = TextColumn::new(alloc, nullable, present, segment, places, rows)?;
    Ok((column, after))
}
