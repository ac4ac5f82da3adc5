//! Columns of texts that grow row by row.
ghost use Rattle.std.specs.Prelude.{ℕ, List, ◌≡◌, ◌-◌, ◌^◌, ◌<◌, ◌||◌, ◌++◌, ◌∷◌, [], length, min, take, sum_by, slice_index, slice_index_or, slice_range, true, Some, None, if◌then◌else◌, IfOk, OnOk, OnErr};
ghost use Rattle.vx_base.specs.Checks.{Gives, ◌lacking◌};
ghost use Rattle.std.specs.Option.{option_map};
ghost use Rattle.vx_data.specs.declared.text_error.TextError.TheVariants.{BadText};
ghost use Rattle.vx_data.specs.TextsRead.{FailsToRead, quoted_in};
ghost use Rattle.vx_rows.specs.Columns.{Texts, may_hold};
ghost use Rattle.vx_rows.specs.Rows.{texts};
ghost use Rattle.vx_rows.specs.Written.{text_bytes};
ghost use Rattle.vx_rows.specs.Parts.{Keeps, part, plain_size};
ghost use Rattle.vx_rows.specs.ReadValues.{optional_in};
ghost use Rattle.vx_rows.specs.ReadRows.{more_texts, null_or};

use crate::TextColumn;
use crate::flags::Flags;
use crate::plain_size::{rows_between, size_of_texts};
use crate::text_places::TextPlaces;
use crate::value_reading::{read_null, read_plain};
use std::alloc::{AllocError, Global};
use std::marker::Model;
use vx_base::{Alignment, ByteBuffer};
use vx_data::{TextError, read_quoted};

/// Texts so far: their bytes, the place of each and the place behind the last. Those of null rows are empty.
#[derive(Drop)]
pub struct TextBuilder {
    present: Flags,
    bytes: Vec<u8>,
    places: TextPlaces,
}

impl Model for TextBuilder {
    ghost use Rattle.std.specs.Prelude.{◌≡◌, ◌+◌, length, slice_index};
    ghost use Rattle.vx_rows.specs.Span.{span};
    ghost use Rattle.vx_rows.specs.Columns.{Texts, text_row, AreRanges, AreTexts};
    ghost use Rattle.vx_rows.specs.Kept.{kept};

    ghost Value = { Texts };

    ghost view = { λ b. record {
      nullable = b.present.nullable;
      rows = span (text_row (kept b.present) b.bytes.items b.places) 0 (length b.present.present);
    } };

    ghost invariant = { λ b. (length b.places ≡ length b.present.present + 1)
        × (slice_index b.places (length b.present.present) ≡ length b.bytes.items)
        × AreRanges b.bytes.items b.places (length b.present.present)
        × AreTexts b.bytes.items b.places (length b.present.present) };
}

/// Adds a text and the place behind it. Where memory refuses, nothing changes.
#[inline(always)]
fn push_text(bytes: &mut Vec<u8>, places: &mut TextPlaces, value: &str) -> Result<(), AllocError>
    ensures bytes { OnOk result (bytes.new.items ≡ bytes.old.items ++ value.now) }
    ensures places { OnOk result (places.new ≡ places.old ++ length bytes.new.items ∷ []) }
    ensures err { OnErr result ((bytes.new.items ≡ bytes.old.items) × (places.new ≡ places.old)) }
{
    let before = bytes.len();
    bytes.extend_from_slice(value.as_bytes())?;
    match places.push(bytes.len()) {
        Ok(()) => Ok(()),
        Err(_) => {
            bytes.truncate(before);
            Err(AllocError)
        }
    }
}

impl TextBuilder {
    /// No rows. Only memory refuses.
    pub fn new(alloc: Global, may_be_null: bool) -> Result<TextBuilder, AllocError>
        ensures { IfOk result (λ b. b ≡ record { nullable = may_be_null; rows = [] }) }
    {
        let mut places = TextPlaces::with_capacity(alloc, 1)?;
        places.push(0)?;
        Ok(TextBuilder {
            present: Flags::new(alloc, may_be_null),
            bytes: Vec::new(alloc),
            places,
        })
    }

    /// Adds a row that is there, or one that is null and has no bytes.
    #[inline(always)]
    fn push_row(&mut self, is_there: bool, value: &str) -> Result<(), AllocError>
        requires { (self.old.nullable || is_there) ≡ true }
        ensures ok { OnOk result (self.new ≡ more_texts self.old (if is_there then Some value.now else None)) }
        ensures err { OnErr result (self.new ≡ self.old) }
    {
        let before = self.bytes.len();
        let count = self.places.len();
        push_text(&mut self.bytes, &mut self.places, value)?;
        match self.present.push(is_there) {
            Ok(()) => Ok(()),
            Err(error) => {
                self.bytes.truncate(before);
                self.places.truncate(count);
                Err(error)
            }
        }
    }

    /// Adds the row that stands in a struct that is null: null where it may be, else the empty text.
    pub fn push_absent(&mut self) -> Result<(), AllocError>
        ensures { OnOk result (self.new ≡ more_texts self.old (null_or self.old.nullable [])) }
    {
        let may_be_null = self.present.is_nullable();
        self.push_row(!may_be_null, "")
    }

    /// Adds the quoted text in front, whatever its bytes are, and gives what follows it.
    #[inline(never)]
    fn read_escaped<'a>(&mut self, alloc: Global, text: &'a [u8]) -> Result<&'a [u8], TextError>
        ensures { Gives {A = Texts × List ℕ} FailsToRead (λ rest. (self.new, rest.now)) result
            (BadText lacking option_map (λ x. (more_texts self.old (Some x.0), x.1)) (quoted_in text.now)) }
    {
        let (value, rest) = read_quoted(alloc, text)?;
        self.push_row(true, value.as_str())?;
        Ok(rest)
    }

    /// Adds the value in front, and gives what follows it.
    #[inline(always)]
    pub fn read<'a>(&mut self, alloc: Global, text: &'a [u8]) -> Result<&'a [u8], TextError>
        ensures { Gives {A = Texts × List ℕ} FailsToRead (λ rest. (self.new, rest.now)) result
            (BadText lacking option_map (λ x. (more_texts self.old x.0, x.1)) (optional_in quoted_in self.old.nullable text.now)) }
    {
        if let Some(rest) = read_null(self.present.is_nullable(), text) {
            self.push_absent()?;
            return Ok(rest);
        }
        if let Some((value, rest)) = read_plain(text) {
            self.push_row(true, value)?;
            return Ok(rest);
        }
        // The result is unpacked, so that what is called can't write where the caller keeps it.
        Ok(self.read_escaped(alloc, text)?)
    }

    /// The column of the rows.
    pub fn finish(self, alloc: Global) -> Result<TextColumn, AllocError>
        ensures { IfOk result (λ column. column ≡ self) }
    {
        let TextBuilder {
            present,
            bytes,
            places,
        } = self;
        let bits = present.to_bits(alloc)?;
        let held = ByteBuffer::from_vec(alloc, bytes, Alignment::none())?;
        let column = TextColumn::new(
            alloc,
            present.is_nullable(),
            bits,
            &held,
            places,
            present.len(),
        )?;
        Ok(column)
    }

    /// The number of rows.
    #[tactic(auto, using(crate::proofs::SpanLemmas::length_span))]
    pub fn len(&self) -> usize
        ensures { result ≡ length self.now.rows }
    {
        self.present.len()
    }

    /// Adds the rows of a column. Only memory refuses, and then nothing changes.
    #[tactic(auto, using(crate::proofs::KeepLemmas::texts_same))]
    pub fn append(&mut self, alloc: Global, column: &TextColumn) -> Result<(), AllocError>
        requires { may_hold self.old.nullable column.now.rows ≡ true }
        ensures ok { OnOk result (self.new ≡ record self.old { rows = self.old.rows ++ column.now.rows }) }
        ensures kept { Keeps (texts self.old) (texts self.new) }
    {
        let before = self.present.len();
        column.push_flags(&mut self.present)?;
        match column.append_to(&mut self.bytes, &mut self.places) {
            Ok(()) => Ok(()),
            Err(error) => {
                self.present.truncate(before);
                Err(error)
            }
        }
    }

    /// Keeps so many rows.
    pub fn truncate(&mut self, rows: usize)
        ensures { self.new ≡ record self.old { rows = take rows self.old.rows } }
    {
        let kept = rows.min(self.present.len());
        self.present.truncate(kept);
        self.bytes.truncate(self.places.at(kept));
        prove!(kept < self.places.len());
        self.places.truncate(kept + 1);
    }

    /// How many bytes the text of a row has; none where there is no text.
    fn length_at(&self, row: usize) -> usize
        requires { row < length self.now.rows }
        ensures { result ≡ length (text_bytes (slice_index_or self.now.rows row None)) }
    {
        if self.present.is_there(row) {
            self.places.behind(row) - self.places.at(row)
        } else {
            0
        }
    }

    /// How many bytes the texts of the rows from one on, up to another, have.
    fn bytes_between(&self, from: usize, to: usize) -> u64
        ensures { result ≡ min (sum_by (λ row. length (text_bytes row)) (slice_range self.now.rows from to)) (2 ^ 64 - 1) }
    {
        let mut size: u64 = 0;
        for row in from..to.min(self.len()) {
            size = size.saturating_add(self.length_at(row) as u64);
        }
        size
    }

    /// How many bytes the rows from one on, up to another, take, written plainly.
    #[tactic(auto, using(crate::proofs::SizeLemmas::slice_len))]
    pub fn size_between(&self, from: usize, to: usize) -> u64
        ensures { result ≡ min (plain_size (part from to (texts self.now))) (2 ^ 64 - 1) }
    {
        let rows = rows_between(self.len(), from, to);
        let bytes = self.bytes_between(from, to);
        size_of_texts(self.present.is_nullable(), rows, bytes)
    }

    /// A column of the rows so far. Only memory refuses.
    pub fn to_column(&self, alloc: Global) -> Result<TextColumn, AllocError>
        ensures { IfOk result (λ column. column ≡ self.now) }
    {
        let bits = self.present.to_bits(alloc)?;
        let bytes = Vec::from_slice(alloc, &self.bytes)?;
        let places = self.places.part(alloc, 0, self.places.len())?;
        let held = ByteBuffer::from_vec(alloc, bytes, Alignment::none())?;
        let column = TextColumn::new(
            alloc,
            self.present.is_nullable(),
            bits,
            &held,
            places,
            self.present.len(),
        )?;
        Ok(column)
    }
}
