//! `sizes NAME ..`: prints how many bytes each field of a file takes.
ghost use Rattle.std.specs.Prelude.{◌≡◌, Some, map, string_bytes, codes};
ghost use Rattle.std.specs.Option.{option_map};
ghost use Rattle.vx_base.specs.Streams.{SourceState};
ghost use Rattle.vx_commands.specs.Command.{sizes_of, sizes_behind, sizes_shapes, Parses};
ghost use Rattle.vx_text.specs.Options.{are_options, values_of};
ghost use Rattle.vx_commands.specs.Outside.{Keeps};
ghost use Rattle.vx_commands.specs.Performs.{Gathers};
ghost use Rattle.vx_commands.specs.declared.command.Command.TheVariants as commands;

use crate::answer::Answer;
use crate::command::Command;
use crate::failure::Failure;
use crate::name::Name;
use crate::row_type::RowType;
use crate::serving::open_name;
use std::alloc::Global;
use vx_base::Opener;
use vx_footer::SizesError;
use vx_text::{Shape, are_options, values_of};

/// The arguments of `sizes`: the type of the rows, where it is known.
#[derive(Drop)]
pub struct Sizes<'a> {
    pub name: Name<'a>,
    pub dtype: RowType,
}

/// The option of `sizes`.
fn shapes() -> [Shape; 1]
    ensures { result ≡ sizes_shapes }
{
    [Shape::once("--dtype", 1)]
}

fn are_sizes_options(words: &[String]) -> bool
    ensures { result ≡ are_options sizes_shapes (map string_bytes words.now) }
{
    are_options(&shapes(), words)
}

/// The values of the option for the type of the rows, where it is given.
fn dtype_values(words: &[String]) -> Option<&[String]>
    ensures { option_map (λ values. map string_bytes values.now) result ≡ values_of sizes_shapes (codes "--dtype") (map string_bytes words.now) }
{
    let shapes = shapes();
    values_of(&shapes, "--dtype", words)
}

impl<'a> Sizes<'a> {
    /// A name, and the option behind it.
    pub(crate) fn parse(alloc: Global, words: &'a [String]) -> Result<Command<'a>, Failure<'a>>
        ensures { Parses (sizes_of (map string_bytes words.now)) result }
    {
        let [word, rest @ ..] = words else {
            return Err(Failure::Usage);
        };
        let Some(name) = Name::parse(word.as_str()) else {
            return Err(Failure::Usage);
        };
        match Sizes::behind(alloc, name, rest) {
            Ok(sizes) => Ok(Command::Sizes(sizes)),
            Err(failure) => Err(failure),
        }
    }

    /// The arguments of a name and the option behind it.
    fn behind(alloc: Global, name: Name<'a>, words: &[String]) -> Result<Sizes<'a>, Failure<'a>>
        ensures { Parses (sizes_behind (Some name.entry) (map string_bytes words.now)) result }
    {
        if !are_sizes_options(words) {
            return Err(Failure::Usage);
        }
        match RowType::parse(alloc, dtype_values(words)) {
            Ok(dtype) => Ok(Sizes { name, dtype }),
            Err(failure) => Err(failure),
        }
    }

    /// The sizes of the fields.
    pub(crate) fn answer<F: Opener>(
        &self,
        alloc: Global,
        files: &mut F,
    ) -> Result<Answer<'a>, Failure<'a>>
        ensures gathers { (source : SourceState) → Gathers (commands.Sizes self.now) source source (F.state files.old) (F.state files.new) result }
        ensures keeps { (source : SourceState) → Keeps (commands.Sizes self.now) source source (F.state files.old) (F.state files.new) }
    {
        let served = open_name(alloc, files, &self.dtype, &self.name)?;
        match served.footer.compressed_field_sizes(alloc) {
            Ok(sizes) => Ok(Answer::Sizes(sizes)),
            Err(SizesError::MissingSegment(_)) => Err(Failure::MissingSegment),
            Err(SizesError::OutOfMemory) => Err(Failure::OutOfMemory),
        }
    }
}
