//! `gen SEED ROWS`: writes generated rows to memory as a file, and tells of the file.
ghost use Rattle.std.specs.Prelude.{◌≡◌, ◌≤◌, ◌-◌, ◌^◌, None, true, is_ok, map, string_bytes, IfOk};
ghost use Rattle.vx_base.specs.Openers.{OpenerState};
ghost use Rattle.vx_base.specs.Streams.{SourceState};
ghost use Rattle.vx_file.specs.Hints.{no_hints};
ghost use Rattle.vx_file.specs.Ranges.{tail_ranges};
ghost use Rattle.vx_footer.specs.FieldSizes.{missing};
ghost use Rattle.vx_footer.specs.Opening.{vx_grammar};
ghost use Rattle.vx_write.specs.ColumnSizes.{HasColumnSizes};
ghost use Rattle.vx_commands.specs.Command.{bounded, gen_of, Parses};
ghost use Rattle.vx_generate.specs.Generated.{generated as rows_from, generated_dtype};
ghost use Rattle.vx_commands.specs.Generated.{gen_options};
ghost use Rattle.vx_commands.specs.MadeFiles.{MakesFile};
ghost use Rattle.vx_text.specs.Numbers.{number_of};
ghost use Rattle.vx_commands.specs.Outside.{Keeps};
ghost use Rattle.vx_commands.specs.Performs.{Gathers};
ghost use Rattle.vx_commands.specs.Summaries.{SummaryCause};
ghost use Rattle.vx_commands.specs.declared.command.Command.TheVariants as commands;
ghost use Rattle.vx_generate.specs.declared.generated_bytes.TheConstants.{MOST_ROWS};

use crate::answer::Answer;
use crate::command::Command;
use crate::failure::Failure;
use crate::made_file::MadeFile;
use crate::summary::FileSummary;
use itoa::Buffer;
use std::alloc::{AllocError, Global};
use std::marker::Model;
use vx_base::{Alignment, ByteBuffer, Sequence};
use vx_data::VortexSession;
use vx_file::{Script, ServeError, serve_in_memory};
use vx_footer::SizesError;
use vx_generate::{MOST_ROWS, generated};
use vx_text::number;
use vx_write::{VortexWriteOptions, WriteSummary};

/// How many rows are generated.
#[derive(Drop)]
pub struct RowCount {
    rows: u64,
}

impl Model for RowCount {
    ghost use Rattle.std.specs.Prelude.{ℕ, ◌≤◌};
    ghost use Rattle.vx_generate.specs.declared.generated_bytes.TheConstants.{MOST_ROWS};

    ghost Value = { ℕ };

    ghost view = { λ c. c.rows };

    ghost invariant = { λ c. c.rows ≤ MOST_ROWS };
}

impl RowCount {
    fn get(&self) -> u64
        ensures value { result ≡ self.now }
        ensures few { result ≤ MOST_ROWS }
    {
        self.rows
    }
}

/// The arguments of `gen`.
#[derive(Drop)]
pub struct Generate {
    pub seed: u32,
    pub rows: RowCount,
}

/// What a word spells as a seed.
fn seed_of(word: &str) -> Option<u32>
    ensures { result ≡ bounded (2 ^ 32 - 1) (number_of word.now) }
{
    let seed = number(word.as_bytes())?;
    if seed > u64::from(u32::MAX) {
        return None;
    }
    Some(seed as u32)
}

/// The number of rows that a word spells.
fn rows_of(word: &str) -> Option<RowCount>
    ensures { result ≡ bounded MOST_ROWS (number_of word.now) }
{
    let rows = number(word.as_bytes())?;
    if rows > MOST_ROWS {
        return None;
    }
    Some(RowCount { rows })
}

/// What a file of a seed is written with.
fn options(alloc: Global, seed: u32) -> Result<VortexWriteOptions, AllocError>
    ensures { IfOk result (λ o. o ≡ gen_options seed) }
{
    let key = String::from_str(alloc, "org.apache.spark.sql.parquet.row.metadata")?;
    let mut digits = Buffer::new();
    let bytes = Vec::from_slice(alloc, digits.format(seed).as_bytes())?;
    let value = ByteBuffer::from_vec(alloc, bytes, Alignment::none())?;
    let session = VortexSession::new(alloc)?;
    VortexWriteOptions::new(alloc, session)?.with_metadata_segment(alloc, key, value)
}

/// The file of so many rows from a seed.
fn made_file<'a>(alloc: Global, seed: u32, rows: u64) -> Result<MadeFile, Failure<'a>>
    requires { rows ≤ MOST_ROWS }
    ensures { MakesFile (gen_options seed) generated_dtype (rows_from seed rows) result }
{
    let table = generated(alloc, seed, rows)?;
    let options = options(alloc, seed)?;
    MadeFile::write(alloc, options, table.0, &table.1)
}

/// What each column of a file takes. Only memory refuses.
fn columns_of(alloc: Global, summary: &WriteSummary) -> Result<Vec<u64>, AllocError>
    requires { let f = summary.now.footer.content in missing f.layout f.segments ≡ None }
    ensures { let f = summary.now.footer.content in IfOk result (λ sizes. HasColumnSizes f.layout f.segments sizes.items) }
{
    match summary.compressed_column_sizes(alloc) {
        Ok(sizes) => Ok(sizes),
        Err(SizesError::OutOfMemory) => Err(AllocError),
        // The file has each segment that its layout names.
        Err(SizesError::MissingSegment(_)) => unreachable!(),
    }
}

/// The ranges that opening a file reads, where nothing of it is known. Only memory refuses.
fn opening_of(alloc: Global, bytes: Vec<u8>) -> Result<Sequence<(u64, u64)>, AllocError>
    requires { is_ok (vx_grammar bytes.items None) ≡ true }
    ensures { IfOk result (λ ranges. ranges ≡ tail_ranges no_hints bytes.items) }
{
    let file = ByteBuffer::from_vec(alloc, bytes, Alignment::none())?;
    match serve_in_memory(alloc, file, &Script::new(alloc)) {
        Ok(served) => Ok(served.opening),
        Err(ServeError::OutOfMemory) => Err(AllocError),
        // The file is in the grammar.
        Err(ServeError::Open(_)) => unreachable!(),
        // No read of it fails, and there is no cache.
        Err(ServeError::Fault(_)) | Err(ServeError::CacheFault) => unreachable!(),
    }
}

/// What is told of the file of so many rows from a seed.
#[tactic(auto, using(crate::proofs::Summing::made_opens_ok))]
fn summary_of<'a>(alloc: Global, seed: u32, rows: u64) -> Result<FileSummary, Failure<'a>>
    requires { rows ≤ MOST_ROWS }
    ensures { SummaryCause seed rows result }
{
    let made = made_file(alloc, seed, rows)?;
    let columns = columns_of(alloc, &made.summary)?;
    let opening = opening_of(alloc, made.bytes)?;
    Ok(FileSummary {
        rows: made.summary.row_count(),
        size: made.summary.size(),
        segments: made.summary.footer().segment_map().len() as u64,
        columns: Sequence::from_vec(columns),
        opening,
    })
}

impl Generate {
    /// A seed and how many rows.
    #[tactic(auto, using(crate::proofs::Summing::gen_other))]
    pub(crate) fn parse<'a>(words: &'a [String]) -> Result<Command<'a>, Failure<'a>>
        ensures { Parses (gen_of (map string_bytes words.now)) result }
    {
        let [seed, rows] = words else {
            return Err(Failure::Usage);
        };
        let Some(seed) = seed_of(seed.as_str()) else {
            return Err(Failure::Usage);
        };
        let Some(rows) = rows_of(rows.as_str()) else {
            return Err(Failure::Usage);
        };
        Ok(Command::Gen(Generate { seed, rows }))
    }

    /// What is told of the file.
    pub(crate) fn answer<'a>(&self, alloc: Global) -> Result<Answer<'a>, Failure<'a>>
        ensures gathers { (source : SourceState) (files : OpenerState) → Gathers (commands.Gen self.now) source source files files result }
        ensures keeps { (source : SourceState) (files : OpenerState) → Keeps (commands.Gen self.now) source source files files }
    {
        let summary = summary_of(alloc, self.seed, self.rows.get())?;
        Ok(Answer::Summary(summary))
    }
}
