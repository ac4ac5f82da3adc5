//! Where texts lie in their bytes, shared by the parts of a column.
ghost use Rattle.std.specs.Prelude.{◌≡◌, ◌+◌, ◌≤◌, ◌<◌, length, slice_index, slice_range, IfOk, IfSome};
ghost use Rattle.std.specs.Arc.{arc_value};

use crate::text_places::TextPlaces;
use std::alloc::{AllocError, Global};
use std::marker::Model;
use std::sync::Arc;

/// Places from a position on, up to another, of a list that others share.
#[derive(Drop)]
pub struct SharedPlaces {
    all: Arc<TextPlaces, Global>,
    from: usize,
    to: usize,
}

impl Model for SharedPlaces {
    ghost use Rattle.std.specs.Prelude.{ℕ, List, ◌≤◌, ◌<◌, ◌^◌, length, slice_range};
    ghost use Rattle.std.specs.Arc.{arc_value};

    ghost Value = { List ℕ };

    ghost view = { λ p. slice_range (arc_value p.all) p.from p.to };

    ghost invariant = { λ p. (p.from ≤ p.to) × (p.to ≤ length (arc_value p.all)) × (p.to < 2 ^ 64) };
}

impl SharedPlaces {
    /// All of these places. Only memory refuses.
    #[tactic(auto, using(crate::proofs::PlacesLemmas::window_all))]
    pub(crate) fn new(alloc: Global, places: TextPlaces) -> Result<SharedPlaces, AllocError>
        ensures { IfOk result (λ shared. shared ≡ places) }
    {
        let to = places.len();
        Ok(SharedPlaces {
            all: Arc::new(alloc, places)?,
            from: 0,
            to,
        })
    }

    /// How many places there are.
    #[inline(always)]
    #[tactic(auto, using(crate::proofs::PlacesLemmas::window_long))]
    pub(crate) fn len(&self) -> usize
        ensures { result ≡ length self.now }
    {
        self.to - self.from
    }

    /// The place at a position.
    #[inline(always)]
    #[tactic(auto, using(crate::proofs::PlacesLemmas::window_long, crate::proofs::PlacesLemmas::window_at))]
    pub(crate) fn at(&self, position: usize) -> usize
        requires { position < length self.now }
        ensures { result ≡ slice_index self.now position }
    {
        self.all.at(self.from + position)
    }

    /// The place behind a position.
    #[inline(always)]
    pub(crate) fn behind(&self, position: usize) -> usize
        requires { position + 1 < length self.now }
        ensures { result ≡ slice_index self.now (position + 1) }
    {
        prove!(position < self.len());
        self.at(position + 1)
    }

    /// The places, where each is kept in four bytes.
    pub(crate) fn as_narrow(&self) -> Option<&[u32]>
        ensures { IfSome result (λ places. places.now ≡ self.now) }
    {
        let all = self.all.as_narrow()?;
        Some(&all[self.from..self.to])
    }

    /// The places from a position on, up to another. None is copied, and only memory refuses.
    #[tactic(auto, using(crate::proofs::PlacesLemmas::window_long, crate::proofs::PlacesLemmas::window_part))]
    pub(crate) fn part(&self, from: usize, to: usize) -> Result<SharedPlaces, AllocError>
        requires ordered { from ≤ to }
        requires inside { to ≤ length self.now }
        ensures { IfOk result (λ places. places ≡ slice_range self.now from to) }
    {
        Ok(SharedPlaces {
            all: Arc::try_clone(&self.all)?,
            from: self.from + from,
            to: self.from + to,
        })
    }
}
