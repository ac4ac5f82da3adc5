//! Writes a file chunk by chunk, to a sink that is handed to each call.
ghost use Rattle.std.specs.Prelude.{◌≡◌, ◌+◌, ◌-◌, ◌<◌, ◌≤◌, ◌^◌, [], Ok, Err, List, ℕ, Option, Result, true, false, ◌&&◌, ◌||◌, nat_le, min, OnOk, OnErr, IfOk, length};
ghost use Rattle.std.specs.List.{All};
ghost use Rattle.vx_data.specs.Dtype.{Dtype, dtype_view};
ghost use Rattle.vx_data.specs.DtypeWritten.{levels_of};
ghost use Rattle.vx_write.specs.Laying.{least_levels};
ghost use Rattle.vx_rows.specs.Rows.{Rows, column_view, rows_len, dtype_of, IsColumn};
ghost use Rattle.vx_footer.specs.declared.write_error.WriteError.{WriteError};
ghost use Rattle.vx_footer.specs.declared.write_error.WriteError.TheVariants.{WriterFailed, WriteFault};
ghost use Rattle.vx_write.specs.Chunks.{chunks_view};
ghost use Rattle.vx_write.specs.Gathered.{gathered};
ghost use Rattle.vx_write.specs.Leaves.{filled, grown, leaf_types, column_types, held_size};
ghost use Rattle.vx_write.specs.Options.{Options};
ghost use Rattle.vx_write.specs.Placed.{Wrote, Failed, IsAlive};
ghost use Rattle.vx_write.specs.Plans.{plan_view, IsFor, leaves_of, columns_of};
ghost use Rattle.vx_write.specs.Sending.{encoded_chunks, chunks_checks};
ghost use Rattle.vx_write.specs.Standing.{IsSound, Stands, Pushed, PushAnswers, TakenIn, NotTaken, Finished, chunks_for};
ghost use Rattle.vx_write.specs.Taken.{SinkCause, Checked};
ghost use Rattle.vx_write.specs.Written.{begin_checks, IsChunk};

use crate::column_stats::{gather, merge, no_stats};
use crate::held_leaves::{HeldLeaves, LeafChunks};
use crate::needs::{is_permitted, is_shallow};
use crate::options::VortexWriteOptions;
use crate::output::Output;
use crate::plan::Plan;
use crate::sending::{ChunkCoding, write_chunks};
use crate::splitting::split;
use crate::summary::WriteSummary;
use crate::tail::{footer_of, serialized, write_tail};
use std::alloc::{AllocError, Global};
use vx_base::Sink;
use vx_data::{DType, Stat};
use vx_footer::WriteError;
use vx_rows::{Column, RunningStats};

/// How many levels the tables of a file may have.
const MOST_LEVELS: usize = 64;

/// Writes a file chunk by chunk, to a sink that is handed to each call.
#[derive(Drop)]
pub(crate) struct FileWriter {
    pub(crate) options: VortexWriteOptions,
    pub(crate) dtype: DType,
    pub(crate) plan: Plan,
    pub(crate) coding: ChunkCoding,
    pub(crate) held: HeldLeaves,
    pub(crate) output: Output,
    pub(crate) stats: Vec<RunningStats>,
    pub(crate) rows: u64,
    pub(crate) failed: bool,
}

/// Whether the type, where it is written, and the least layout of a plan have few levels.
fn have_few_levels(excluded: bool, dtype: &DType, plan: &Plan) -> bool
    ensures { result ≡ ((excluded || nat_le (levels_of (dtype_view dtype.now)) 64) && nat_le (least_levels (plan_view plan.now)) 64) }
{
    (excluded || dtype.has_few_levels()) && is_shallow(plan, MOST_LEVELS)
}

/// What a push is to write, and what is told of its rows.
#[tactic(auto, using(crate::proofs::StandingLemmas::columns_sound, crate::proofs::StandingLemmas::chunk_rows))]
fn prepare(
    alloc: Global,
    plan: &Plan,
    held: &mut HeldLeaves,
    wanted: &[Stat],
    chunk: &Column,
) -> Result<(Vec<RunningStats>, Vec<LeafChunks>), AllocError>
    requires fit { IsFor (plan_view plan.now) (dtype_of (column_view chunk.now)) }
    requires even { IsColumn (rows_len (column_view chunk.now)) (column_view chunk.now) }
    requires types { leaf_types held.old.now ≡ leaf_types (leaves_of (plan_view plan.now) (dtype_of (column_view chunk.now))) }
    ensures stats { IfOk result (λ x. x.0.items ≡ gathered wanted.now (column_view chunk.now)) }
    ensures chunks { IfOk result (λ x. chunks_view x.1.items ≡ filled held.old.now (columns_of (plan_view plan.now) (column_view chunk.now))) }
    ensures columns { OnOk result (column_types (columns_of (plan_view plan.now) (column_view chunk.now)) ≡ leaf_types held.old.now) }
    ensures even { OnOk result (All (IsColumn (rows_len (column_view chunk.now))) (columns_of (plan_view plan.now) (column_view chunk.now))) }
    ensures next { OnOk result (held.new.next ≡ grown held.old.now (columns_of (plan_view plan.now) (column_view chunk.now))) }
    ensures types { OnOk result (leaf_types held.new.next ≡ leaf_types held.old.now) }
    ensures still { held.new.now ≡ held.old.now }
{
    let stats = gather(alloc, wanted, chunk)?;
    let columns = split(alloc, plan, chunk)?;
    let chunks = held.feed(alloc, &columns)?;
    Ok((stats, chunks))
}

/// Whether a chunk is a column of a type.
fn is_chunk(chunk: &Column, dtype: &DType) -> bool
    ensures yes { result ≡ true → IsChunk (dtype_view dtype.now) (column_view chunk.now) }
    ensures no { result ≡ false → IsChunk (dtype_view dtype.now) (column_view chunk.now) → ⊥ }
{
    if !chunk.dtype_is(dtype) {
        return false;
    }
    chunk.is_even()
}

/// Whether a chunk may come behind so many rows of a type.
fn check(dtype: &DType, rows: u64, chunk: &Column) -> Result<(), WriteError>
    ensures ok { OnOk result (IsChunk (dtype_view dtype.now) (column_view chunk.now)) }
    ensures few { OnOk result (rows + rows_len (column_view chunk.now) < 2 ^ 64) }
    ensures err { (checks : Result (Unit {0}) WriteError) → OnErr result (PushAnswers (dtype_view dtype.now) rows checks (column_view chunk.now) result) }
    ensures fault { result ≡ Err WriteFault → ⊥ }
{
    if !is_chunk(chunk, dtype) {
        return Err(WriteError::ChunkDType);
    }
    if u64::MAX - rows < chunk.len() as u64 {
        return Err(WriteError::RowsOverflow);
    }
    Ok(())
}

impl FileWriter {
    /// A writer of a file of a type, to which nothing was written. Refuses bad metadata, then an array that is
    /// needed and not permitted, and then too deep a type.
    #[tactic(auto, using(crate::proofs::BeginLemmas::metadata_refused, crate::proofs::BeginLemmas::values_no_fault, crate::proofs::BeginLemmas::not_permitted, crate::proofs::BeginLemmas::too_deep, crate::proofs::BeginLemmas::may_begin, crate::proofs::StandingLemmas::begun_sound, crate::proofs::StandingLemmas::begun_stands))]
    pub(crate) fn begin(
        alloc: Global,
        options: VortexWriteOptions,
        dtype: DType,
    ) -> Result<FileWriter, WriteError>
        ensures sound { IfOk result (λ w. IsSound w) }
        ensures stands { IfOk result (λ w. (gained : Option (List ℕ)) → Stands options (dtype_view dtype) [] gained w gained) }
        ensures checked { Checked result (begin_checks options (dtype_view dtype)) }
        ensures fault { result ≡ Err WriteFault → ⊥ }
    {
        match options.validate_metadata() {
            Ok(()) => {}
            Err(error) => return Err(error),
        }
        let coding = options.coding(alloc)?;
        let plan = options.strategy().plan(alloc, &dtype)?;
        if !is_permitted(coding.ids(), &plan, &dtype) {
            return Err(WriteError::NotPermitted);
        }
        if !have_few_levels(options.is_dtype_excluded(), &dtype, &plan) {
            return Err(WriteError::TooDeep);
        }
        let held = HeldLeaves::new(alloc, &plan, &dtype)?;
        let stats = no_stats(alloc, options.statistics(), &dtype)?;
        Ok(FileWriter {
            options,
            dtype,
            plan,
            coding,
            held,
            output: Output::new(alloc),
            stats,
            rows: 0,
            failed: false,
        })
    }

    /// Takes a chunk in. After a refusal the rows are as they were.
    fn take<S: Sink>(
        &mut self,
        alloc: Global,
        out: &mut S,
        chunk: &Column,
    ) -> Result<(), WriteError>
        requires sound { IsSound self.old }
        requires fine { self.old.failed ≡ false }
        ensures ok { OnOk result (TakenIn (column_view chunk.now) self.old self.new (S.state out.old).gained (S.state out.new).gained) }
        ensures err { OnErr result (NotTaken (column_view chunk.now) self.old self.new (S.state out.old).gained (S.state out.new).gained) }
        ensures answers { PushAnswers (dtype_view self.old.dtype) self.old.rows
            (chunks_checks self.old.coding self.old.output (chunks_for self.old (column_view chunk.now))) (column_view chunk.now) result }
        ensures cause { SinkCause (S.state out.old) (S.state out.new) result }
    {
        match check(&self.dtype, self.rows, chunk) {
            Ok(()) => {}
            Err(error) => return Err(error),
        }
        let wanted = self.options.statistics();
        let (stats, chunks) = match prepare(alloc, &self.plan, &mut self.held, wanted, chunk) {
            Ok(prepared) => prepared,
            Err(_) => return Err(WriteError::OutOfMemory),
        };
        match write_chunks(alloc, out, &self.coding, &mut self.output, &chunks) {
            Ok(()) => {}
            Err(error) => return Err(error),
        }
        self.held.settle();
        merge(&mut self.stats, stats);
        self.rows += chunk.len() as u64;
        Ok(())
    }

    /// Writes a chunk, but for the rows that fill no chunk of a leaf. Refuses it where an earlier call was refused
    /// after a byte was written, then where it is of another type, and then where there would be too many rows.
    pub(crate) fn push<S: Sink>(
        &mut self,
        alloc: Global,
        out: &mut S,
        chunk: &Column,
    ) -> Result<(), WriteError>
        requires { IsSound self.old }
        ensures sound { IsSound self.new }
        ensures pushed { (o : Options) (d : Dtype) (past : List Rows) (start : Option (List ℕ)) → Stands o d past start self.old (S.state out.old).gained
            → Pushed o d past (column_view chunk.now) start self.new (S.state out.new).gained result }
        ensures failed { self.old.failed ≡ true → result ≡ Err WriterFailed }
        ensures still { self.old.failed ≡ true → (self.new ≡ self.old) × (S.state out.new ≡ S.state out.old) }
        ensures cause { SinkCause (S.state out.old) (S.state out.new) result }
    {
        if self.failed {
            return Err(WriteError::WriterFailed);
        }
        match self.take(alloc, out, chunk) {
            Ok(()) => Ok(()),
            Err(error) => {
                self.failed = self.output.taken() != 0;
                Err(error)
            }
        }
    }

    /// Writes the rows that are held back and the footer, and flushes. Refuses it where an earlier call was refused
    /// after a byte was written.
    pub(crate) fn finish<S: Sink>(
        self,
        alloc: Global,
        out: &mut S,
    ) -> Result<WriteSummary, WriteError>
        requires { IsSound self }
        ensures finished { (o : Options) (d : Dtype) (past : List Rows) (start : Option (List ℕ)) → Stands o d past start self (S.state out.old).gained
            → Finished o d past start (S.state out.new) result }
        ensures failed { self.failed ≡ true → result ≡ Err WriterFailed }
        ensures still { self.failed ≡ true → S.state out.new ≡ S.state out.old }
        ensures cause { SinkCause (S.state out.old) (S.state out.new) result }
    {
        if self.failed {
            return Err(WriteError::WriterFailed);
        }
        let FileWriter {
            options,
            dtype,
            plan,
            coding,
            held,
            output,
            stats,
            rows,
            failed: _,
        } = self;
        let mut output = output;
        let leaves = held.len();
        let chunks = match held.finish(alloc) {
            Ok(chunks) => chunks,
            Err(_) => return Err(WriteError::OutOfMemory),
        };
        match write_chunks(alloc, out, &coding, &mut output, &chunks) {
            Ok(()) => {}
            Err(error) => return Err(error),
        }
        let footer = match footer_of(
            alloc,
            &options,
            coding.ids(),
            &dtype,
            &plan,
            output.laid(),
            leaves,
            rows,
            stats,
        ) {
            Ok(footer) => footer,
            Err(_) => return Err(WriteError::OutOfMemory),
        };
        let serialized = match serialized(alloc, options, footer, output.offset()) {
            Ok(serialized) => serialized,
            Err(error) => return Err(error),
        };
        let mut size = output.taken();
        match write_tail(alloc, out, &mut size, &serialized.buffers) {
            Ok(()) => Ok(WriteSummary::new(serialized.footer, size, rows)),
            Err(error) => Err(error),
        }
    }

    /// How many bytes the sink took.
    pub(crate) fn bytes_written(&self) -> u64
        ensures { result ≡ self.now.output.taken }
    {
        self.output.taken()
    }

    /// How many bytes the rows that are held back take, written plainly, at most 2^64 - 1.
    pub(crate) fn buffered_bytes(&self) -> u64
        ensures { result ≡ min (held_size self.now.held.now) (2 ^ 64 - 1) }
    {
        self.held.plain_size()
    }
}
