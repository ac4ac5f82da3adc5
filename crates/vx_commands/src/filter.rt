//! A predicate on rows, as words spell it.
ghost use Rattle.std.specs.Prelude.{◌≡◌, Some, map, string_bytes, IfOk};
ghost use Rattle.vx_rows.specs.Predicates.{pred_view};
ghost use Rattle.vx_prune.specs.PredicateWords.{predicate_of};
ghost use Rattle.vx_commands.specs.Command.{filter_of, Parses};

use crate::failure::Failure;
use std::alloc::{AllocError, Global};
use std::marker::Model;
use vx_data::TextError;
use vx_prune::read_predicate;
use vx_rows::Predicate;

/// Words that spell a predicate.
#[derive(Drop)]
pub struct Filter<'a> {
    words: &'a [String],
}

impl<'a> Model for Filter<'a> {
    ghost use Rattle.std.specs.Prelude.{List, ℕ, map, string_bytes, ◌≡◌, true, is_some};
    ghost use Rattle.vx_prune.specs.PredicateWords.{predicate_of};

    ghost Value = { List (List ℕ) };

    ghost view = { λ f. map string_bytes f.words.now };

    ghost invariant = { λ f. is_some (predicate_of (map string_bytes f.words.now)) ≡ true };
}

impl<'a> Filter<'a> {
    /// The words, where they spell a predicate.
    pub(crate) fn parse(alloc: Global, words: &'a [String]) -> Result<Filter<'a>, Failure<'a>>
        ensures { Parses (filter_of (map string_bytes words.now)) result }
    {
        match read_predicate(alloc, words) {
            Ok(_) => Ok(Filter { words }),
            Err(TextError::BadText) => Err(Failure::Usage),
            Err(TextError::OutOfMemory) => Err(Failure::OutOfMemory),
        }
    }

    /// The predicate that the words spell.
    pub(crate) fn predicate(&self, alloc: Global) -> Result<Predicate, AllocError>
        ensures { IfOk result (λ p. predicate_of self.now ≡ Some (pred_view p)) }
    {
        match read_predicate(alloc, self.words) {
            Ok(predicate) => Ok(predicate),
            Err(TextError::BadText) => unreachable!(),
            Err(TextError::OutOfMemory) => Err(AllocError),
        }
    }
}
