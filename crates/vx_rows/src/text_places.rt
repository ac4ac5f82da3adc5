//! Where texts lie in their bytes.
ghost use Rattle.std.specs.Prelude.{◌≡◌, ◌+◌, ◌++◌, ◌∷◌, ◌-◌, ◌≤◌, ◌<◌, ◌^◌, ℕ, []};
ghost use Rattle.std.specs.Prelude.{length, take, slice_index, slice_range, IfOk, IfSome, OnOk, OnErr};
ghost use Rattle.vx_rows.specs.Span.{span};
ghost use Rattle.vx_rows.specs.TextsBehind.{end_from};

use crate::shared_places::SharedPlaces;
use std::alloc::{AllocError, Global};
use std::marker::Model;

/// Places in bytes, one behind the other: each in four bytes, up to the first that needs more.
#[derive(Drop)]
pub struct TextPlaces {
    narrow: Vec<u32>,
    wide: Vec<usize>,
}

impl Model for TextPlaces {
    ghost use Rattle.std.specs.Prelude.{ℕ, ◌++◌, List};

    ghost Value = { List ℕ };

    ghost view = { λ p. p.narrow.items ++ p.wide.items };
}

impl TextPlaces {
    /// No place, with room for so many.
    pub(crate) fn with_capacity(alloc: Global, count: usize) -> Result<TextPlaces, AllocError>
        ensures { IfOk result (λ places. places ≡ []) }
    {
        Ok(TextPlaces {
            narrow: Vec::with_capacity(alloc, count)?,
            wide: Vec::new(alloc),
        })
    }

    /// Places that take four bytes each.
    #[tactic(auto, using(crate::proofs::PlacesLemmas::all_narrow))]
    pub(crate) fn from_narrow(alloc: Global, narrow: Vec<u32>) -> TextPlaces
        ensures { result ≡ narrow.items }
    {
        TextPlaces {
            narrow,
            wide: Vec::new(alloc),
        }
    }

    /// How many places there are.
    #[inline(always)]
    #[tactic(auto, using(crate::proofs::PlacesLemmas::long))]
    pub(crate) fn len(&self) -> usize
        ensures { result ≡ length self.now }
    {
        self.narrow.len() + self.wide.len()
    }

    /// The place at a position.
    #[inline(always)]
    #[tactic(auto, using(crate::proofs::PlacesLemmas::place_before, crate::proofs::PlacesLemmas::place_behind, crate::proofs::PlacesLemmas::long))]
    pub(crate) fn at(&self, position: usize) -> usize
        requires { position < length self.now }
        ensures { result ≡ slice_index self.now position }
    {
        let count = self.narrow.len();
        if position < count {
            self.narrow[position] as usize
        } else {
            self.wide[position - count]
        }
    }

    /// The place behind a position.
    #[inline(always)]
    pub(crate) fn behind(&self, position: usize) -> usize
        requires { position + 1 < length self.now }
        ensures { result ≡ slice_index self.now (position + 1) }
    {
        prove!(position < self.len());
        self.at(position + 1)
    }

    /// The places, where each is kept in four bytes.
    #[tactic(auto, using(crate::proofs::PlacesLemmas::all_narrow))]
    pub(crate) fn as_narrow(&self) -> Option<&[u32]>
        ensures { IfSome result (λ places. places.now ≡ self.now) }
    {
        if self.wide.is_empty() {
            Some(&self.narrow)
        } else {
            None
        }
    }

    /// Adds a place. Where memory refuses, nothing changes.
    #[inline(always)]
    #[tactic(auto, using(crate::proofs::PlacesLemmas::narrow_more, crate::proofs::PlacesLemmas::wide_more))]
    pub(crate) fn push(&mut self, place: usize) -> Result<(), AllocError>
        ensures ok { OnOk result (self.new ≡ self.old ++ place ∷ []) }
        ensures err { OnErr result (self.new ≡ self.old) }
    {
        if self.wide.is_empty() && place <= u32::MAX as usize {
            self.narrow.reserve(1)?;
            self.narrow.push_reserved(place as u32);
        } else {
            self.wide.push(place)?;
        }
        Ok(())
    }

    /// Adds the place behind each of so many rows, where the first of them comes at a place. Only memory refuses, and then some
    /// of them may be there.
    #[tactic(auto, using(crate::proofs::SpanLemmas::span_more, crate::proofs::PlacesLemmas::all_narrow))]
    pub(crate) fn push_ends(
        &mut self,
        places: &SharedPlaces,
        rows: usize,
        start: usize,
    ) -> Result<(), AllocError>
        requires long { length places.now ≡ rows + 1 }
        requires least { (row : ℕ) → row ≤ rows → slice_index places.now 0 ≤ slice_index places.now row }
        requires greatest { (row : ℕ) → row ≤ rows → slice_index places.now row ≤ slice_index places.now rows }
        requires few { start + (slice_index places.now rows - slice_index places.now 0) < 2 ^ 64 }
        ensures ok { OnOk result (self.new ≡ self.old ++ span (end_from places.now start) 0 rows) }
        ensures err { OnErr result (take (length self.old) self.new ≡ self.old) }
    {
        let first = places.at(0);
        let last = start + (places.at(rows) - first);
        if self.wide.is_empty() && last <= u32::MAX as usize {
            return push_narrow_ends(&mut self.narrow, places, rows, start);
        }
        for row in 0..rows {
            self.push(start + (places.behind(row) - first))?;
        }
        Ok(())
    }

    /// Keeps so many places.
    #[tactic(auto, using(crate::proofs::PlacesLemmas::take_both))]
    pub(crate) fn truncate(&mut self, count: usize)
        ensures { self.new ≡ take count self.old }
    {
        let behind = count.saturating_sub(self.narrow.len());
        self.narrow.truncate(count);
        self.wide.truncate(behind);
    }

    /// The places from a position on, up to another. Only memory refuses.
    #[tactic(auto, using(crate::proofs::PlacesLemmas::part_both))]
    pub(crate) fn part(
        &self,
        alloc: Global,
        from: usize,
        to: usize,
    ) -> Result<TextPlaces, AllocError>
        requires { from ≤ to }
        ensures { IfOk result (λ places. places ≡ slice_range self.now from to) }
    {
        let narrow = between(&self.narrow, from, to);
        let count = self.narrow.len();
        let wide = between(
            &self.wide,
            from.saturating_sub(count),
            to.saturating_sub(count),
        );
        Ok(TextPlaces {
            narrow: Vec::from_slice(alloc, narrow)?,
            wide: Vec::from_slice(alloc, wide)?,
        })
    }
}

/// What stands from a position on, up to another, as far as there is anything.
#[tactic(auto, using(crate::proofs::CutLemmas::clamped))]
fn between<T: Copy>(all: &[T], from: usize, to: usize) -> &[T]
    requires { from ≤ to }
    ensures { result.now ≡ slice_range all.now from to }
{
    let end = to.min(all.len());
    let start = from.min(end);
    &all[start..end]
}

/// Adds the place behind each of so many rows, where the first of them comes at a place and each takes four bytes. Only
/// memory refuses, and then nothing changes.
#[tactic(auto, using(crate::proofs::SpanLemmas::span_more))]
fn push_narrow_ends(
    narrow: &mut Vec<u32>,
    places: &SharedPlaces,
    rows: usize,
    start: usize,
) -> Result<(), AllocError>
    requires long { length places.now ≡ rows + 1 }
    requires least { (row : ℕ) → row ≤ rows → slice_index places.now 0 ≤ slice_index places.now row }
    requires few { (row : ℕ) → row ≤ rows → start + (slice_index places.now row - slice_index places.now 0) < 2 ^ 32 }
    ensures ok { OnOk result (narrow.new.items ≡ narrow.old.items ++ span (end_from places.now start) 0 rows) }
    ensures err { OnErr result (narrow.new.items ≡ narrow.old.items) }
{
    narrow.reserve(rows)?;
    let first = places.at(0);
    if let Some(all) = places.as_narrow() {
        for row in 0..rows {
            narrow.push_reserved((start + (all[row + 1] as usize - first)) as u32);
        }
        return Ok(());
    }
    for row in 0..rows {
        narrow.push_reserved((start + (places.behind(row) - first)) as u32);
    }
    Ok(())
}
