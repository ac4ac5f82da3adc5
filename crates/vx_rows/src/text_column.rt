//! Columns of texts.
ghost use Rattle.std.specs.Prelude.{ℕ, take, ◌≡◌, ◌++◌, ◌+◌, ◌-◌, ◌*◌, ◌%◌, ◌<◌, ◌≤◌, ◌^◌, length, map, min, sum_by, slice_index};
ghost use Rattle.std.specs.Prelude.{slice_index_or, slice_range, is_some, IfOk, IfSome, Some, None, true, option_map, OnOk, OnErr};
ghost use Rattle.std.specs.Str.{IsUtf8};
ghost use Rattle.vx_rows.specs.Span.{span};
ghost use Rattle.vx_rows.specs.Columns.{are_there, text_row, AreRanges, AreTexts, may_hold};
ghost use Rattle.vx_rows.specs.PlainTexts.{ArePlainTexts};
ghost use Rattle.vx_rows.specs.Rows.{texts, AreUtf8};
ghost use Rattle.vx_rows.specs.Parts.{plain_size};
ghost use Rattle.vx_rows.specs.Written.{text_bytes, length_bytes, texts_bytes};
ghost use Rattle.vx_rows.specs.TextsBehind.{length_from, end_from, ComeBehind};
ghost use Rattle.std.specs.List.{flat_map};
ghost use Rattle.std.specs.Int.{w32, to_le_bytes};

use crate::Bits;
use crate::flags::Flags;
use crate::int_column::has_value;
use crate::parts::{are_all_present, part_of};
use crate::plain_size::size_of_texts;
use crate::presence::push_presence;
use crate::shared_places::SharedPlaces;
use crate::text_places::TextPlaces;
use std::alloc::{AllocError, Global};
use std::marker::Model;
use vx_base::ByteBuffer;

/// Texts, some of which may be null. Their bytes are shared, and were checked once.
#[derive(Drop)]
pub struct TextColumn {
    may_be_null: bool,
    count: usize,
    present: Option<Bits>,
    held: ByteBuffer,
    places: SharedPlaces,
}

impl Model for TextColumn {
    ghost use Rattle.std.specs.Prelude.{◌≡◌, ◌++◌, ◌+◌, ◌%◌, length, IfSome};
    ghost use Rattle.vx_rows.specs.Span.{span};
    ghost use Rattle.vx_rows.specs.Columns.{Texts, text_row, AreRanges, AreTexts};

    ghost Value = { Texts };

    ghost view = { λ c. record { nullable = c.may_be_null; rows = span (text_row c.present c.held.bytes c.places) 0 c.count } };

    ghost invariant = { λ c. (length c.places ≡ c.count + 1) × IfSome c.present (λ bits. length bits ≡ c.count)
        × AreRanges c.held.bytes c.places c.count × AreTexts c.held.bytes c.places c.count };
}

/// How many lengths are put at once.
const LENGTHS: usize = 512;

/// Bytes that are a text, as one.
#[inline(always)]
pub fn text_of(bytes: &[u8]) -> &str
    requires { IsUtf8 bytes.now }
    ensures { result.now ≡ bytes.now }
{
    unsafe { str::from_utf8_unchecked(bytes) }
}

/// The text between the place of a row and the next.
#[inline(always)]
fn text_between<'a>(bytes: &'a [u8], places: &SharedPlaces, rows: usize, row: usize) -> &'a str
    requires long { length places.now ≡ rows + 1 }
    requires less { row < rows }
    requires ranges { AreRanges bytes.now places.now rows }
    requires texts { AreTexts bytes.now places.now rows }
    ensures { result.now ≡ slice_range bytes.now (slice_index places.now row) (slice_index places.now (row + 1)) }
{
    let from = places.at(row);
    let to = places.behind(row);
    text_of(&bytes[from..to])
}

/// One of so many texts, of which none is null, between a place and the next.
#[inline(always)]
pub fn plain_text<'a>(bytes: &'a [u8], places: &[u32], rows: usize, row: usize) -> Option<&'a str>
    requires long { length places.now ≡ rows + 1 }
    requires less { row < rows }
    requires ranges { AreRanges bytes.now places.now rows }
    requires texts { AreTexts bytes.now places.now rows }
    ensures { option_map (λ v. v.now) result ≡ text_row None bytes.now places.now row }
{
    let from = places[row] as usize;
    let to = places[row + 1] as usize;
    Some(text_of(&bytes[from..to]))
}

/// The bytes between the place of the first row and the one behind the last.
fn all_between<'a>(bytes: &'a [u8], places: &SharedPlaces, rows: usize) -> &'a [u8]
    requires long { length places.now ≡ rows + 1 }
    requires ordered { slice_index places.now 0 ≤ slice_index places.now rows }
    requires inside { slice_index places.now rows ≤ length bytes.now }
    ensures { result.now ≡ slice_range bytes.now (slice_index places.now 0) (slice_index places.now rows) }
{
    let from = places.at(0);
    let to = places.at(rows);
    &bytes[from..to]
}

/// Adds the low 32 bits of a length. A greater one makes the array too long.
#[inline(always)]
fn push_length(bytes: &mut Vec<u8>, length: usize) -> Result<(), AllocError>
    ensures { OnOk result (bytes.new.items ≡ bytes.old.items ++ to_le_bytes w32 length) }
{
    let low = (length % (1 << 32)) as u32;
    bytes.extend_from_slice(&low.to_le_bytes())
}

/// The bytes of the low 32 bits of a length.
#[inline(always)]
fn length_between(places: &SharedPlaces, row: usize) -> [u8; 4]
    requires inside { row + 1 < length places.now }
    requires ordered { slice_index places.now row ≤ slice_index places.now (row + 1) }
    ensures { result ≡ to_le_bytes w32 (length_from places.now row) }
{
    let length = places.behind(row) - places.at(row);
    ((length % (1 << 32)) as u32).to_le_bytes()
}

/// Fills room with the lengths of rows from one on, where each place is kept in four bytes.
#[inline(always)]
fn fill_narrow_lengths(room: &mut [u8], places: &[u32], first: usize, count: usize)
    requires room { 4 * count ≤ length room.old }
    requires inside { first + count < length places.now }
    requires ordered { (row : ℕ) → row + 1 < length places.now → slice_index places.now row ≤ slice_index places.now (row + 1) }
    ensures long { length room.new ≡ length room.old }
    ensures filled { take (4 * count) room.new ≡ flat_map (to_le_bytes w32) (span (length_from places.now) first count) }
{
    for k in 0..count {
        let at = 4 * k;
        let row = first + k;
        let length = places[row + 1] - places[row];
        room[at..at + 4].copy_from_slice(&length.to_le_bytes());
    }
}

/// Fills room with the lengths of rows from one on.
#[inline(always)]
fn fill_lengths(room: &mut [u8], places: &SharedPlaces, first: usize, count: usize)
    requires room { 4 * count ≤ length room.old }
    requires inside { first + count < length places.now }
    requires fits { first + count < 2 ^ 64 }
    requires ordered { (row : ℕ) → row + 1 < length places.now → slice_index places.now row ≤ slice_index places.now (row + 1) }
    ensures long { length room.new ≡ length room.old }
    ensures filled { take (4 * count) room.new ≡ flat_map (to_le_bytes w32) (span (length_from places.now) first count) }
{
    if let Some(narrow) = places.as_narrow() {
        fill_narrow_lengths(room, narrow, first, count);
        return;
    }
    for k in 0..count {
        let at = 4 * k;
        room[at..at + 4].copy_from_slice(&length_between(places, first + k));
    }
}

/// Adds the lengths of a few rows from one on.
fn push_few_lengths(
    bytes: &mut Vec<u8>,
    places: &SharedPlaces,
    first: usize,
    count: usize,
) -> Result<(), AllocError>
    requires few { count ≤ 512 }
    requires inside { first + count < length places.now }
    requires fits { first + count < 2 ^ 64 }
    requires ordered { (row : ℕ) → row + 1 < length places.now → slice_index places.now row ≤ slice_index places.now (row + 1) }
    ensures { OnOk result (bytes.new.items ≡ bytes.old.items ++ flat_map (to_le_bytes w32) (span (length_from places.now) first count)) }
{
    let mut room = [0; 4 * LENGTHS];
    fill_lengths(&mut room, places, first, count);
    bytes.extend_from_slice(&room[..4 * count])
}

/// Adds the length of each of so many rows, from its place to the next.
fn push_lengths_between(
    bytes: &mut Vec<u8>,
    places: &SharedPlaces,
    rows: usize,
) -> Result<(), AllocError>
    requires long { length places.now ≡ rows + 1 }
    requires ordered { (row : ℕ) → row < rows → slice_index places.now row ≤ slice_index places.now (row + 1) }
    ensures { OnOk result (bytes.new.items ≡ bytes.old.items ++ flat_map (to_le_bytes w32) (span (length_from places.now) 0 rows)) }
{
    let mut first = 0;
    while first < rows {
        let count = (rows - first).min(LENGTHS);
        push_few_lengths(bytes, places, first, count)?;
        first += count;
    }
    Ok(())
}

impl TextColumn {
    /// Texts between places that others may share. Only memory refuses.
    fn with_places(
        alloc: Global,
        may_be_null: bool,
        present: Option<Bits>,
        held: &ByteBuffer,
        places: SharedPlaces,
        count: usize,
    ) -> Result<TextColumn, AllocError>
        requires long { length places ≡ count + 1 }
        requires present { IfSome present (λ bits. length bits ≡ count) }
        requires ranges { AreRanges held.now.bytes places count }
        requires texts { AreTexts held.now.bytes places count }
        ensures { IfOk result (λ c. c ≡ record {
          nullable = may_be_null;
          rows = span (text_row present held.now.bytes places) 0 count;
        }) }
    {
        Ok(TextColumn {
            may_be_null,
            count,
            present,
            held: held.share(alloc)?,
            places,
        })
    }

    /// Texts between places. Only memory refuses.
    pub(crate) fn new(
        alloc: Global,
        may_be_null: bool,
        present: Option<Bits>,
        held: &ByteBuffer,
        places: TextPlaces,
        count: usize,
    ) -> Result<TextColumn, AllocError>
        requires long { length places ≡ count + 1 }
        requires present { IfSome present (λ bits. length bits ≡ count) }
        requires ranges { AreRanges held.now.bytes places count }
        requires texts { AreTexts held.now.bytes places count }
        ensures { IfOk result (λ c. c ≡ record {
          nullable = may_be_null;
          rows = span (text_row present held.now.bytes places) 0 count;
        }) }
    {
        let places = SharedPlaces::new(alloc, places)?;
        TextColumn::with_places(alloc, may_be_null, present, held, places, count)
    }

    /// Whether a row may be null.
    #[inline(always)]
    pub fn is_nullable(&self) -> bool
        ensures { result ≡ self.now.nullable }
    {
        self.may_be_null
    }

    /// The number of rows.
    #[inline(always)]
    #[tactic(auto, using(crate::proofs::SpanLemmas::length_span))]
    pub fn len(&self) -> usize
        ensures { result ≡ length self.now.rows }
    {
        self.count
    }

    /// Whether a row has a value.
    #[inline(always)]
    #[tactic(auto, using(crate::proofs::SpanLemmas::length_span, crate::proofs::SpanLemmas::get_or_span))]
    pub fn is_present(&self, row: usize) -> bool
        requires { row < length self.now.rows }
        ensures { result ≡ is_some (slice_index_or self.now.rows row None) }
    {
        has_value(&self.present, row)
    }

    /// The value of a row that has one.
    #[inline(always)]
    #[tactic(auto, using(crate::proofs::SpanLemmas::length_span, crate::proofs::SpanLemmas::get_or_span))]
    pub fn text_at(&self, row: usize) -> &str
        requires inside { row < length self.now.rows }
        requires here { is_some (slice_index_or self.now.rows row None) ≡ true }
        ensures { slice_index_or self.now.rows row None ≡ Some result.now }
    {
        let bytes = self.held.as_slice();
        text_between(bytes, &self.places, self.count, row)
    }

    /// The value of a row, if there is such a row and it has one.
    #[inline(always)]
    #[tactic(auto, using(crate::proofs::WrittenLemmas::row_values))]
    pub fn get(&self, row: usize) -> Option<&str>
        ensures { option_map (λ v. v.now) result ≡ slice_index_or self.now.rows row None }
    {
        if row >= self.len() {
            return None;
        }
        if !self.is_present(row) {
            return None;
        }
        Some(self.text_at(row))
    }

    /// The bytes of the texts, and the places between them. None where a bitmap tells which rows are null, or where a place
    /// needs more than four bytes.
    pub(crate) fn plain_texts(&self) -> Option<(&[u8], &[u32])>
        ensures { IfSome result (λ plain. ArePlainTexts self.now.rows plain.0.now plain.1.now) }
    {
        if self.present.is_some() {
            return None;
        }
        let Some(places) = self.places.as_narrow() else {
            return None;
        };
        Some((self.held.as_slice(), places))
    }

    /// The value of a row, or the empty text where it has none.
    #[inline(always)]
    pub(crate) fn text_or_empty(&self, row: usize) -> &str
        requires { row < length self.now.rows }
        ensures { result.now ≡ text_bytes (slice_index_or self.now.rows row None) }
    {
        if self.is_present(row) {
            self.text_at(row)
        } else {
            ""
        }
    }

    /// Adds the length of each text. Where no row is null the places alone tell them.
    #[tactic(auto, using(crate::proofs::WrittenLemmas::next_row))]
    fn push_lengths(&self, bytes: &mut Vec<u8>) -> Result<(), AllocError>
        ensures { OnOk result (bytes.new.items ≡ bytes.old.items ++ flat_map length_bytes self.now.rows) }
    {
        if self.present.is_none() {
            return push_lengths_between(bytes, &self.places, self.count);
        }
        for row in 0..self.len() {
            push_length(bytes, self.text_or_empty(row).len())?;
        }
        Ok(())
    }

    /// Adds each text. Where no row is null they stand one behind the other.
    #[tactic(auto, using(crate::proofs::WrittenLemmas::next_row))]
    fn push_texts(&self, bytes: &mut Vec<u8>) -> Result<(), AllocError>
        ensures { OnOk result (bytes.new.items ≡ bytes.old.items ++ flat_map text_bytes self.now.rows) }
    {
        if self.present.is_none() && self.count > 0 {
            let all = all_between(self.held.as_slice(), &self.places, self.count);
            return bytes.extend_from_slice(all);
        }
        for row in 0..self.len() {
            bytes.extend_from_slice(self.text_or_empty(row).as_bytes())?;
        }
        Ok(())
    }

    /// Adds the bytes of the rows.
    pub(crate) fn push_bytes(&self, bytes: &mut Vec<u8>) -> Result<(), AllocError>
        ensures { OnOk result (bytes.new.items ≡ bytes.old.items ++ texts_bytes self.now) }
    {
        push_presence(bytes, self.may_be_null, &self.present, self.count)?;
        self.push_lengths(bytes)?;
        self.push_texts(bytes)?;
        Ok(())
    }

    /// Adds the bytes of all texts at once behind those of others, and the place behind each. Only memory refuses, and then
    /// nothing changes.
    #[tactic(auto, using(crate::proofs::BehindLemmas::places_ascend, crate::proofs::BehindLemmas::last_inside))]
    pub(crate) fn append_to(
        &self,
        bytes: &mut Vec<u8>,
        places: &mut TextPlaces,
    ) -> Result<(), AllocError>
        ensures ok { (n : ℕ) → length places.old ≡ n + 1 → slice_index places.old n ≡ length bytes.old.items →
            AreRanges bytes.old.items places.old n → AreTexts bytes.old.items places.old n →
            OnOk result (ComeBehind self.now.rows n bytes.old.items places.old bytes.new.items places.new) }
        ensures err { OnErr result ((bytes.new.items ≡ bytes.old.items) × (places.new ≡ places.old)) }
    {
        if self.count == 0 {
            return Ok(());
        }
        let start = bytes.len();
        let count = places.len();
        let all = all_between(self.held.as_slice(), &self.places, self.count);
        bytes.extend_from_slice(all)?;
        match places.push_ends(&self.places, self.count, start) {
            Ok(()) => Ok(()),
            Err(error) => {
                bytes.truncate(start);
                places.truncate(count);
                Err(error)
            }
        }
    }

    /// The rows from one on, up to another, with the same bytes and places. Only memory refuses.
    #[tactic(auto, using(crate::proofs::CutLemmas::texts_cut, crate::proofs::CutLemmas::texts_cut_long, crate::proofs::CutLemmas::ranges_cut, crate::proofs::CutLemmas::utf8_cut, crate::proofs::CutLemmas::present_long, crate::proofs::SpanLemmas::length_span))]
    pub(crate) fn part(
        &self,
        alloc: Global,
        from: usize,
        to: usize,
    ) -> Result<TextColumn, AllocError>
        requires ordered { from ≤ to }
        requires inside { to ≤ length self.now.rows }
        ensures { IfOk result (λ column. column ≡ record self.now { rows = slice_range self.now.rows from to }) }
    {
        let present = part_of(alloc, &self.present, from, to)?;
        prove!(to < self.places.len());
        let places = self.places.part(from, to + 1)?;
        let column = TextColumn::with_places(
            alloc,
            self.may_be_null,
            present,
            &self.held,
            places,
            to - from,
        )?;
        Ok(column)
    }

    /// Whether no row is missing where none may be null. Each value is a text.
    #[tactic(auto, using(crate::proofs::FillLemmas::texts_filled, crate::proofs::FillLemmas::texts_valid))]
    pub(crate) fn is_filled(&self) -> bool
        ensures value { result ≡ may_hold self.now.nullable self.now.rows }
        ensures texts { AreUtf8 self.now.rows }
    {
        self.may_be_null || are_all_present(&self.present)
    }

    /// How many bytes the texts have. Where no row is null they stand one behind the other.
    #[tactic(auto, using(crate::proofs::BehindLemmas::last_inside))]
    fn bytes_len(&self) -> u64
        ensures { result ≡ min (sum_by (λ row. length (text_bytes row)) self.now.rows) (2 ^ 64 - 1) }
    {
        if self.present.is_none() && self.count > 0 {
            let all = all_between(self.held.as_slice(), &self.places, self.count);
            return all.len() as u64;
        }
        let mut size: u64 = 0;
        for row in 0..self.len() {
            size = size.saturating_add(self.text_or_empty(row).len() as u64);
        }
        size
    }

    /// How many bytes the rows take, written plainly.
    pub(crate) fn plain_size(&self) -> u64
        ensures { result ≡ min (plain_size (texts self.now)) (2 ^ 64 - 1) }
    {
        size_of_texts(self.may_be_null, self.len(), self.bytes_len())
    }

    /// Adds which rows have a value to those of other rows. Only memory refuses, and then nothing changes.
    #[tactic(auto, using(crate::proofs::WrittenLemmas::texts_present, crate::proofs::SpanLemmas::length_span))]
    pub(crate) fn push_flags(&self, flags: &mut Flags) -> Result<(), AllocError>
        requires { are_there flags.old.nullable (map is_some self.now.rows) ≡ true }
        ensures ok { OnOk result (flags.new ≡ record flags.old { present = flags.old.present ++ map is_some self.now.rows }) }
        ensures err { OnErr result (flags.new ≡ flags.old) }
    {
        flags.append(&self.present, self.len())
    }
}
