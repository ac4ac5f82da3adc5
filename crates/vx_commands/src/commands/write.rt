//! `write ..`: writes the rows on the input as a file.
ghost use Rattle.std.specs.Prelude.{◌≡◌, ◌≤◌, [], is_some, map, string_bytes, unwrap_or, IfOk};
ghost use Rattle.vx_base.specs.Openers.{OpenerState};
ghost use Rattle.vx_footer.specs.Serializing.{values_view};
ghost use Rattle.vx_commands.specs.Command.{write_of, write_number, positive as positive_number, Parses};
ghost use Rattle.vx_commands.specs.MetadataWords.{entries_of};
ghost use Rattle.vx_text.specs.Options.{are_options, values_of};
ghost use Rattle.vx_commands.specs.Outside.{Keeps};
ghost use Rattle.vx_commands.specs.Performs.{Gathers};
ghost use Rattle.vx_commands.specs.WriteWords.{write_shapes, metadata_of, options_of, strategy_of};
ghost use Rattle.vx_commands.specs.declared.command.Command.TheVariants as commands;

use crate::answer::Answer;
use crate::command::Command;
use crate::failure::Failure;
use crate::metadata_words::entries;
use crate::rows_file::RowsFile;
use crate::table::Table;
use std::alloc::{AllocError, Global};
use std::marker::Model;
use vx_base::{ByteBuffer, Source};
use vx_data::{TextError, VortexSession};
use vx_footer::FileVersion;
use vx_text::{Shape, are_options, optional_number, values_of};
use vx_write::{LayoutStrategy, VortexWriteOptions, WriteStrategyBuilder};

/// Words of which those of metadata spell entries.
#[derive(Drop)]
pub struct Metadata<'a> {
    words: &'a [String],
}

impl<'a> Model for Metadata<'a> {
    ghost use Rattle.std.specs.Prelude.{List, ℕ, map, string_bytes, ◌≡◌, true, is_some};
    ghost use Rattle.vx_commands.specs.MetadataWords.{entries_of};
    ghost use Rattle.vx_commands.specs.WriteWords.{write_shapes};

    ghost Value = { List (List ℕ) };

    ghost view = { λ m. map string_bytes m.words.now };

    ghost invariant = { λ m. is_some (entries_of write_shapes (map string_bytes m.words.now)) ≡ true };
}

impl<'a> Metadata<'a> {
    /// The words, where those of metadata spell entries.
    fn parse(alloc: Global, words: &'a [String]) -> Result<Metadata<'a>, Failure<'a>>
        ensures { Parses (metadata_of (map string_bytes words.now)) result }
    {
        match entries(alloc, &shapes(), words) {
            Ok(_) => Ok(Metadata { words }),
            Err(TextError::BadText) => Err(Failure::Usage),
            Err(TextError::OutOfMemory) => Err(Failure::OutOfMemory),
        }
    }

    /// The same words.
    fn copied(&self) -> Metadata<'a>
        ensures { result ≡ self.now }
    {
        Metadata { words: self.words }
    }

    /// The entries.
    fn entries(&self, alloc: Global) -> Result<Vec<(String, ByteBuffer)>, AllocError>
        ensures { IfOk result (λ es. values_view es.items ≡ unwrap_or (entries_of write_shapes self.now) []) }
    {
        match entries(alloc, &shapes(), self.words) {
            Ok(entries) => Ok(entries),
            Err(TextError::BadText) => unreachable!(),
            Err(TextError::OutOfMemory) => Err(AllocError),
        }
    }
}

/// The arguments of `write`: whether the type and the statistics are left out, how many rows a block has, how many
/// bytes a chunk gathers, the metadata, and whether the file is of the second version.
#[derive(Drop)]
pub struct Write<'a> {
    excludes_dtype: bool,
    excludes_statistics: bool,
    block: Option<u64>,
    target: Option<u64>,
    metadata: Metadata<'a>,
    is_second: bool,
}

impl<'a> Model for Write<'a> {
    ghost use Rattle.vx_commands.specs.WriteWords.{WriteValue, IsFromOne};

    ghost Value = { WriteValue };

    ghost view = { λ w. record {
      excludes_dtype = w.excludes_dtype;
      excludes_statistics = w.excludes_statistics;
      block = w.block;
      target = w.target;
      metadata = w.metadata;
      is_second = w.is_second;
    } };

    ghost invariant = { λ w. IsFromOne w.block };
}

/// The options of `write`, in any order.
fn shapes() -> [Shape; 6]
    ensures { result ≡ write_shapes }
{
    [
        Shape::once("--no-dtype", 0),
        Shape::once("--no-stats", 0),
        Shape::once("--block", 1),
        Shape::once("--target", 1),
        Shape::repeated("--meta", 2),
        Shape::once("--v2", 0),
    ]
}

fn are_write_options(words: &[String]) -> bool
    ensures { result ≡ are_options write_shapes (map string_bytes words.now) }
{
    are_options(&shapes(), words)
}

/// Whether an option is given.
fn has_option(option: &'static str, words: &[String]) -> bool
    ensures { result ≡ is_some (values_of write_shapes option.now (map string_bytes words.now)) }
{
    let shapes = shapes();
    values_of(&shapes, option, words).is_some()
}

/// The number of an option, where it is given.
fn number_of(option: &'static str, words: &[String]) -> Option<Option<u64>>
    ensures { result ≡ write_number (map string_bytes words.now) option.now }
{
    let shapes = shapes();
    optional_number(values_of(&shapes, option, words))
}

/// A number from one on, where it is given.
fn positive(number: Option<Option<u64>>) -> Option<Option<u64>>
    ensures { result ≡ positive_number number }
{
    match number {
        Some(Some(number)) if number >= 1 => Some(Some(number)),
        Some(None) => Some(None),
        _ => None,
    }
}

impl<'a> Write<'a> {
    /// The options of `write`.
    pub(crate) fn parse(alloc: Global, words: &'a [String]) -> Result<Command<'a>, Failure<'a>>
        ensures { Parses (write_of (map string_bytes words.now)) result }
    {
        if !are_write_options(words) {
            return Err(Failure::Usage);
        }
        let Some(block) = positive(number_of("--block", words)) else {
            return Err(Failure::Usage);
        };
        let Some(target) = number_of("--target", words) else {
            return Err(Failure::Usage);
        };
        match Metadata::parse(alloc, words) {
            Ok(metadata) => Ok(Command::Write(Write {
                excludes_dtype: has_option("--no-dtype", words),
                excludes_statistics: has_option("--no-stats", words),
                block,
                target,
                metadata,
                is_second: has_option("--v2", words),
            })),
            Err(failure) => Err(failure),
        }
    }

    /// The same arguments.
    fn copied(&self) -> Write<'a>
        ensures { result ≡ self.now }
    {
        Write {
            excludes_dtype: self.excludes_dtype,
            excludes_statistics: self.excludes_statistics,
            block: self.block,
            target: self.target,
            metadata: self.metadata.copied(),
            is_second: self.is_second,
        }
    }

    /// How the rows are laid out.
    fn strategy(&self, alloc: Global, session: &VortexSession) -> Result<LayoutStrategy, AllocError>
        ensures { IfOk result (λ s. s ≡ strategy_of self.now) }
    {
        let mut builder = WriteStrategyBuilder::from_session(alloc, session)?;
        if let Some(rows) = self.block {
            builder = builder.with_row_block_size(rows as usize);
        }
        if let Some(bytes) = self.target {
            builder = builder.with_data_block_target_bytes(Some(bytes));
        }
        Ok(builder.build())
    }

    /// What the file is written with.
    pub(crate) fn options(&self, alloc: Global) -> Result<VortexWriteOptions, AllocError>
        ensures { IfOk result (λ o. o ≡ options_of self.now) }
    {
        let session = VortexSession::new(alloc)?;
        let strategy = self.strategy(alloc, &session)?;
        let mut options = VortexWriteOptions::new(alloc, session)?.with_strategy(strategy);
        if self.excludes_dtype {
            options = options.exclude_dtype();
        }
        if self.excludes_statistics {
            options = options.with_file_statistics(Vec::new(alloc));
        }
        if self.is_second {
            options = options.with_version(FileVersion::V2);
        }
        options.with_metadata_segments(alloc, self.metadata.entries(alloc)?)
    }

    /// The file of the rows on the input.
    pub(crate) fn answer<I: Source>(
        &self,
        alloc: Global,
        input: &mut I,
    ) -> Result<Answer<'a>, Failure<'a>>
        ensures gathers { (files : OpenerState) → Gathers (commands.Write self.now) (I.state input.old) (I.state input.new) files files result }
        ensures keeps { (files : OpenerState) → Keeps (commands.Write self.now) (I.state input.old) (I.state input.new) files files }
    {
        let table = Table::load(alloc, input)?;
        Ok(Answer::File(RowsFile {
            arguments: self.copied(),
            table,
        }))
    }
}
