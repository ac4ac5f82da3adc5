//! `prune NAME ..`: prints whether a file can be skipped, since no row of it satisfies a predicate.
ghost use Rattle.std.specs.Prelude.{◌≡◌, Some, map, string_bytes};
ghost use Rattle.vx_base.specs.Streams.{SourceState};
ghost use Rattle.vx_commands.specs.Command.{prune_of, prune_behind, prune_typed, typed_filter, Parses};
ghost use Rattle.vx_commands.specs.Outside.{Keeps};
ghost use Rattle.vx_commands.specs.Performs.{Gathers};
ghost use Rattle.vx_commands.specs.declared.command.Command.TheVariants as commands;

use crate::answer::Answer;
use crate::command::Command;
use crate::failure::Failure;
use crate::filter::Filter;
use crate::name::Name;
use crate::row_type::RowType;
use crate::serving::open_name;
use std::alloc::Global;
use vx_base::Opener;
use vx_file::can_prune;
use vx_rows::BindError;

/// The arguments of `prune`: the type of the rows, where it is known, and the predicate.
#[derive(Drop)]
pub struct Prune<'a> {
    pub name: Name<'a>,
    pub dtype: RowType,
    pub filter: Filter<'a>,
}

impl<'a> Prune<'a> {
    /// A name, the option behind it, and a predicate.
    pub(crate) fn parse(alloc: Global, words: &'a [String]) -> Result<Command<'a>, Failure<'a>>
        ensures { Parses (prune_of (map string_bytes words.now)) result }
    {
        let [word, rest @ ..] = words else {
            return Err(Failure::Usage);
        };
        let Some(name) = Name::parse(word.as_str()) else {
            return Err(Failure::Usage);
        };
        match Prune::behind(alloc, name, rest) {
            Ok(prune) => Ok(Command::Prune(prune)),
            Err(failure) => Err(failure),
        }
    }

    /// The arguments of a name, and what stands behind it.
    fn behind(alloc: Global, name: Name<'a>, words: &'a [String]) -> Result<Prune<'a>, Failure<'a>>
        ensures { Parses (prune_behind (Some name.entry) (map string_bytes words.now)) result }
    {
        match words {
            [option, rest @ ..] if option.as_str() == "--dtype" => Prune::typed(alloc, name, rest),
            _ => Prune::filtered(alloc, name, RowType::unknown(), words),
        }
    }

    /// The arguments of a name, a type and a predicate.
    fn typed(alloc: Global, name: Name<'a>, words: &'a [String]) -> Result<Prune<'a>, Failure<'a>>
        ensures { Parses (prune_typed name.entry (map string_bytes words.now)) result }
    {
        let [word, rest @ ..] = words else {
            return Err(Failure::Usage);
        };
        match RowType::spelled(alloc, word.as_str()) {
            Ok(dtype) => Prune::filtered(alloc, name, dtype, rest),
            Err(failure) => Err(failure),
        }
    }

    /// The arguments of a name, a type and a predicate.
    fn filtered(
        alloc: Global,
        name: Name<'a>,
        dtype: RowType,
        words: &'a [String],
    ) -> Result<Prune<'a>, Failure<'a>>
        ensures { Parses (typed_filter name.entry (Some dtype) (map string_bytes words.now)) result }
    {
        match Filter::parse(alloc, words) {
            Ok(filter) => Ok(Prune {
                name,
                dtype,
                filter,
            }),
            Err(failure) => Err(failure),
        }
    }

    /// Whether the file can be skipped.
    pub(crate) fn answer<F: Opener>(
        &self,
        alloc: Global,
        files: &mut F,
    ) -> Result<Answer<'a>, Failure<'a>>
        ensures gathers { (source : SourceState) → Gathers (commands.Prune self.now) source source (F.state files.old) (F.state files.new) result }
        ensures keeps { (source : SourceState) → Keeps (commands.Prune self.now) source source (F.state files.old) (F.state files.new) }
    {
        let served = open_name(alloc, files, &self.dtype, &self.name)?;
        let filter = self.filter.predicate(alloc)?;
        match can_prune(alloc, &served.footer, filter) {
            Ok(skipped) => Ok(Answer::Pruned(skipped)),
            Err(BindError::OutOfMemory) => Err(Failure::OutOfMemory),
            Err(error) => Err(Failure::Unbound(error)),
        }
    }
}
