//! `serve NAME ..`: serves the segments of a file by the script on the input.
ghost use Rattle.std.specs.Prelude.{◌≡◌, Some, is_some, map, string_bytes, codes, IfOk};
ghost use Rattle.std.specs.Option.{option_map};
ghost use Rattle.vx_base.specs.Openers.{SameOpener};
ghost use Rattle.vx_commands.specs.Command.{serve_of, serve_behind, serve_shapes, served_by, serve_number, reading_by, optional_dtype, serve_hints, Parses};
ghost use Rattle.vx_text.specs.Options.{are_options, values_of};
ghost use Rattle.vx_commands.specs.Outside.{Keeps, OpenerSteady};
ghost use Rattle.vx_commands.specs.Reading.{settings_by, new_cache};
ghost use Rattle.vx_commands.specs.Performs.{Gathers};
ghost use Rattle.vx_commands.specs.Served.{FileCause};
ghost use Rattle.vx_commands.specs.declared.command.Command.TheVariants as commands;

use crate::answer::Answer;
use crate::command::Command;
use crate::failure::Failure;
use crate::input::load_script;
use crate::name::Name;
use crate::printable::Printable;
use crate::reading::Reading;
use crate::row_type::RowType;
use crate::serving::serve_name;
use std::alloc::{AllocError, Global};
use vx_base::{NoCache, Opener, Source};
use vx_data::VortexSession;
use vx_file::{Script, ServeOptions, Served};
use vx_source::LruSegments;
use vx_text::{Shape, are_options, optional_number, values_of};

/// The arguments of `serve`: the size of the file and the type of its rows, where they are known, how many bytes the
/// first read is to ask for, whether the metadata is to be loaded, and how segments are read.
#[derive(Drop)]
pub struct Serve<'a> {
    pub name: Name<'a>,
    pub size: Option<u64>,
    pub initial: u64,
    pub reading: Reading,
    pub metadata: bool,
    pub dtype: RowType,
}

/// The options of `serve`, in any order.
fn shapes() -> [Shape; 8]
    ensures { result ≡ serve_shapes }
{
    [
        Shape::once("--size", 1),
        Shape::once("--initial", 1),
        Shape::once("--dtype", 1),
        Shape::once("--meta", 0),
        Shape::once("--distance", 1),
        Shape::once("--max", 1),
        Shape::once("--reads", 1),
        Shape::once("--cache", 1),
    ]
}

fn are_serve_options(words: &[String]) -> bool
    ensures { result ≡ are_options serve_shapes (map string_bytes words.now) }
{
    are_options(&shapes(), words)
}

/// The number of an option, where it is given.
fn number(words: &[String], option: &str) -> Option<Option<u64>>
    ensures { result ≡ serve_number (map string_bytes words.now) option.now }
{
    let shapes = shapes();
    optional_number(values_of(&shapes, option, words))
}

/// The values of the option for the type of the rows, where it is given.
fn dtype_values(words: &[String]) -> Option<&[String]>
    ensures { option_map (λ values. map string_bytes values.now) result ≡ values_of serve_shapes (codes "--dtype") (map string_bytes words.now) }
{
    let shapes = shapes();
    values_of(&shapes, "--dtype", words)
}

/// Whether the metadata is to be loaded.
fn has_metadata(words: &[String]) -> bool
    ensures { result ≡ is_some (values_of serve_shapes (codes "--meta") (map string_bytes words.now)) }
{
    let shapes = shapes();
    values_of(&shapes, "--meta", words).is_some()
}

/// How segments are read by these numbers, where each is one.
fn reading_of(
    distance: Option<Option<u64>>,
    max_read_size: Option<Option<u64>>,
    reads: Option<Option<u64>>,
    kept: Option<Option<u64>>,
) -> Option<Reading>
    ensures { result ≡ reading_by distance max_read_size reads kept }
{
    let distance = distance?;
    let max_read_size = max_read_size?;
    let reads = reads?;
    let kept = kept?;
    Reading::of(distance, max_read_size, reads, kept)
}

/// How segments are read by the options.
fn reading(words: &[String]) -> Option<Reading>
    ensures { result ≡ reading_by (serve_number (map string_bytes words.now) (codes "--distance")) (serve_number (map string_bytes words.now) (codes "--max"))
        (serve_number (map string_bytes words.now) (codes "--reads")) (serve_number (map string_bytes words.now) (codes "--cache")) }
{
    reading_of(
        number(words, "--distance"),
        number(words, "--max"),
        number(words, "--reads"),
        number(words, "--cache"),
    )
}

impl<'a> Serve<'a> {
    /// A name, and options behind it.
    pub(crate) fn parse(alloc: Global, words: &'a [String]) -> Result<Command<'a>, Failure<'a>>
        ensures { Parses (serve_of (map string_bytes words.now)) result }
    {
        let [word, rest @ ..] = words else {
            return Err(Failure::Usage);
        };
        let Some(name) = Name::parse(word.as_str()) else {
            return Err(Failure::Usage);
        };
        match Serve::behind(alloc, name, rest) {
            Ok(serve) => Ok(Command::Serve(serve)),
            Err(failure) => Err(failure),
        }
    }

    /// The arguments of a name and the options behind it.
    fn behind(alloc: Global, name: Name<'a>, words: &[String]) -> Result<Serve<'a>, Failure<'a>>
        ensures { Parses (serve_behind (Some name.entry) (map string_bytes words.now)) result }
    {
        if !are_serve_options(words) {
            return Err(Failure::Usage);
        }
        Serve::of(
            alloc,
            name,
            number(words, "--size"),
            number(words, "--initial"),
            reading(words),
            has_metadata(words),
            dtype_values(words),
        )
    }

    /// The arguments of these, where each is one.
    fn of(
        alloc: Global,
        name: Name<'a>,
        size: Option<Option<u64>>,
        initial: Option<Option<u64>>,
        reading: Option<Reading>,
        metadata: bool,
        dtype: Option<&[String]>,
    ) -> Result<Serve<'a>, Failure<'a>>
        ensures { Parses (served_by name.entry size initial reading metadata (optional_dtype (option_map (λ v. map string_bytes v.now) dtype.entry))) result }
    {
        let Some(size) = size else {
            return Err(Failure::Usage);
        };
        let Some(initial) = initial else {
            return Err(Failure::Usage);
        };
        let Some(reading) = reading else {
            return Err(Failure::Usage);
        };
        match RowType::parse(alloc, dtype) {
            Ok(dtype) => Ok(Serve {
                name,
                size,
                initial: initial.unwrap_or(0),
                reading,
                metadata,
                dtype,
            }),
            Err(failure) => Err(failure),
        }
    }

    /// How the file is opened.
    fn options(&self, alloc: Global) -> Result<ServeOptions, AllocError>
        ensures { IfOk result (λ options. options ≡ serve_hints self.now) }
    {
        let options = ServeOptions::new(VortexSession::new(alloc)?);
        Ok(
            options
                .with_some_file_size(self.size)
                .with_initial_read_size(self.initial as usize)
                .with_include_metadata(self.metadata)
                .with_some_dtype(self.dtype.share(alloc)?),
        )
    }

    /// What is served from the file by a script.
    fn serve<F: Opener>(
        &self,
        alloc: Global,
        files: &mut F,
        script: &Script,
    ) -> Result<Served, Failure<'a>>
        ensures cause { FileCause (serve_hints self.now) (settings_by self.now.reading) (new_cache self.now.reading.kept) self.now.name script.now
            (F.state files.old) (F.state files.new) result }
        ensures steady { OpenerSteady self.now.size self.now.name (F.state files.old) (F.state files.new) }
        ensures same { SameOpener (F.state files.old) (F.state files.new) }
    {
        let options = self.options(alloc)?;
        let name = self.name.as_str();
        match self.reading.kept() {
            None => {
                let mut cache = NoCache;
                serve_name(
                    alloc,
                    files,
                    options,
                    &self.reading,
                    &mut cache,
                    name,
                    script,
                )
            }
            Some(kept) => {
                let mut cache = LruSegments::new(alloc, kept)?;
                serve_name(
                    alloc,
                    files,
                    options,
                    &self.reading,
                    &mut cache,
                    name,
                    script,
                )
            }
        }
    }

    /// What was served.
    pub(crate) fn answer<I: Source, F: Opener>(
        &self,
        alloc: Global,
        input: &mut I,
        files: &mut F,
    ) -> Result<Answer<'a>, Failure<'a>>
        ensures gathers { Gathers (commands.Serve self.now) (I.state input.old) (I.state input.new) (F.state files.old) (F.state files.new) result }
        ensures keeps { Keeps (commands.Serve self.now) (I.state input.old) (I.state input.new) (F.state files.old) (F.state files.new) }
    {
        let script = load_script(alloc, input)?;
        let served = self.serve(alloc, files, &script)?;
        Ok(Answer::Served(Printable::new(alloc, served)?))
    }
}
