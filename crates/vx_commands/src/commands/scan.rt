//! `scan NAME ..`: prints the type of the rows of a file, and the rows.
ghost use Rattle.std.specs.Prelude.{◌≡◌, Some, map, string_bytes, codes, IfOk};
ghost use Rattle.std.specs.Option.{option_map};
ghost use Rattle.vx_base.specs.Openers.{SameOpener};
ghost use Rattle.vx_base.specs.Streams.{SourceState};
ghost use Rattle.vx_commands.specs.Command.{scan_of, scan_behind, scan_shapes, scan_filtered, scan_hints, optional_filter, Parses};
ghost use Rattle.vx_text.specs.Options.{are_options, values_of};
ghost use Rattle.vx_commands.specs.Outside.{Keeps, OpenerSteady};
ghost use Rattle.vx_commands.specs.Performs.{Gathers};
ghost use Rattle.vx_commands.specs.Scans.{ScansName, Spells};
ghost use Rattle.vx_commands.specs.declared.command.Command.TheVariants as commands;
ghost use Rattle.vx_rows.specs.Predicates.{pred_view};

use crate::answer::Answer;
use crate::command::Command;
use crate::failure::Failure;
use crate::filter::Filter;
use crate::name::Name;
use crate::row_type::RowType;
use crate::scanning::scan_name;
use std::alloc::{AllocError, Global};
use vx_base::Opener;
use vx_print::PrintableRows;
use vx_rows::{Column, Predicate};
use vx_text::{Shape, are_options, values_of};

/// The arguments of `scan`: the type of the rows, where it is known, and a predicate, where one is given.
#[derive(Drop)]
pub struct Scan<'a> {
    pub name: Name<'a>,
    pub dtype: RowType,
    pub filter: Option<Filter<'a>>,
}

/// The options of `scan`.
fn shapes() -> [Shape; 2]
    ensures { result ≡ scan_shapes }
{
    [Shape::once("--dtype", 1), Shape::last("--filter")]
}

fn are_scan_options(words: &[String]) -> bool
    ensures { result ≡ are_options scan_shapes (map string_bytes words.now) }
{
    are_options(&shapes(), words)
}

/// The values of the option for the type of the rows, where it is given.
fn dtype_values(words: &[String]) -> Option<&[String]>
    ensures { option_map (λ values. map string_bytes values.now) result ≡ values_of scan_shapes (codes "--dtype") (map string_bytes words.now) }
{
    let shapes = shapes();
    values_of(&shapes, "--dtype", words)
}

/// The words of the predicate, where one is given.
fn filter_words<'a>(words: &'a [String]) -> Option<&'a [String]>
    ensures { option_map (λ values. map string_bytes values.now) result ≡ values_of scan_shapes (codes "--filter") (map string_bytes words.now) }
{
    let shapes = shapes();
    values_of(&shapes, "--filter", words)
}

/// The predicate that words spell, where they are given.
fn filter<'a>(alloc: Global, words: Option<&'a [String]>) -> Result<Option<Filter<'a>>, Failure<'a>>
    ensures { Parses (optional_filter (option_map (λ v. map string_bytes v.now) words.entry)) result }
{
    match words {
        None => Ok(None),
        Some(words) => match Filter::parse(alloc, words) {
            Ok(filter) => Ok(Some(filter)),
            Err(failure) => Err(failure),
        },
    }
}

impl<'a> Scan<'a> {
    /// A name, and the options behind it.
    pub(crate) fn parse(alloc: Global, words: &'a [String]) -> Result<Command<'a>, Failure<'a>>
        ensures { Parses (scan_of (map string_bytes words.now)) result }
    {
        let [word, rest @ ..] = words else {
            return Err(Failure::Usage);
        };
        let Some(name) = Name::parse(word.as_str()) else {
            return Err(Failure::Usage);
        };
        match Scan::behind(alloc, name, rest) {
            Ok(scan) => Ok(Command::Scan(scan)),
            Err(failure) => Err(failure),
        }
    }

    /// The arguments of a name and the options behind it.
    fn behind(alloc: Global, name: Name<'a>, words: &'a [String]) -> Result<Scan<'a>, Failure<'a>>
        ensures { Parses (scan_behind (Some name.entry) (map string_bytes words.now)) result }
    {
        if !are_scan_options(words) {
            return Err(Failure::Usage);
        }
        match RowType::parse(alloc, dtype_values(words)) {
            Ok(dtype) => Scan::filtered(alloc, name, dtype, words),
            Err(failure) => Err(failure),
        }
    }

    /// The arguments of a name, a type and the options behind the name.
    fn filtered(
        alloc: Global,
        name: Name<'a>,
        dtype: RowType,
        words: &'a [String],
    ) -> Result<Scan<'a>, Failure<'a>>
        ensures { let filter = optional_filter (values_of scan_shapes (codes "--filter") (map string_bytes words.now)) in
            Parses (scan_filtered name.entry (Some dtype) filter) result }
    {
        match filter(alloc, filter_words(words)) {
            Ok(filter) => Ok(Scan {
                name,
                dtype,
                filter,
            }),
            Err(failure) => Err(failure),
        }
    }

    /// The predicate, if one is given.
    fn predicate(&self, alloc: Global) -> Result<Option<Predicate>, AllocError>
        ensures { IfOk result (λ p. Spells self.now.filter (option_map pred_view p)) }
    {
        match &self.filter {
            Some(filter) => Ok(Some(filter.predicate(alloc)?)),
            None => Ok(None),
        }
    }

    /// The rows of the file.
    fn rows<F: Opener>(&self, alloc: Global, files: &mut F) -> Result<Column, Failure<'a>>
        ensures cause { ScansName (scan_hints self.now) self.now.filter self.now.name (F.state files.old) (F.state files.new) result }
        ensures steady { OpenerSteady None self.now.name (F.state files.old) (F.state files.new) }
        ensures same { SameOpener (F.state files.old) (F.state files.new) }
    {
        let options = self.dtype.options(alloc)?;
        let predicate = self.predicate(alloc)?;
        scan_name(alloc, files, &options, predicate, self.name.as_str())
    }

    /// The rows of the file, ready to be printed.
    pub(crate) fn answer<F: Opener>(
        &self,
        alloc: Global,
        files: &mut F,
    ) -> Result<Answer<'a>, Failure<'a>>
        ensures gathers { (source : SourceState) → Gathers (commands.Scan self.now) source source (F.state files.old) (F.state files.new) result }
        ensures keeps { (source : SourceState) → Keeps (commands.Scan self.now) source source (F.state files.old) (F.state files.new) }
    {
        let rows = self.rows(alloc, files)?;
        Ok(Answer::Rows(PrintableRows::new(alloc, rows)?))
    }
}
