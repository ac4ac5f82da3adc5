//! Writes what follows the chunks of a file.
ghost use Rattle.std.specs.Prelude.{◌≡◌, ◌+◌, ◌<◌, ◌≤◌, ◌^◌, ◌++◌, [], Ok, Err, OnOk, OnErr, IfOk, IfSome, IfNone, true, length, map, string_bytes};
ghost use Rattle.vx_base.specs.Checks.{Gives};
ghost use Rattle.vx_data.specs.Dtype.{dtype_view};
ghost use Rattle.vx_data.specs.Layout.{dtype_of as dtype_of_layout};
ghost use Rattle.vx_data.specs.StatsTable.{columns_of};
ghost use Rattle.vx_footer.specs.declared.version.FileVersion.TheVariants.{V1};
ghost use Rattle.vx_footer.specs.declared.write_error.WriteError.TheVariants.{WriteFault};
ghost use Rattle.vx_footer.specs.PostscriptWritten.{FailsToWrite};
ghost use Rattle.vx_footer.specs.Serialized.{joined};
ghost use Rattle.vx_footer.specs.Serializers.{parts_seen};
ghost use Rattle.vx_rows.specs.Rows.{Rows, dtype_of};
ghost use Rattle.vx_write.specs.Gathered.{gathered, file_stats};
ghost use Rattle.vx_write.specs.Laying.{grouped, laid_out, leaf_count, AreFull};
ghost use Rattle.vx_write.specs.Placed.{Place, lead as lead_of_file};
ghost use Rattle.vx_write.specs.Plans.{plan_view, IsFor};
ghost use Rattle.vx_write.specs.Taken.{TookAll, TookPart, SinkCause, Checked};
ghost use Rattle.vx_write.specs.Written.{tail_checks, tail_bytes};

use crate::column_stats::finish;
use crate::laid_chunk::Laid;
use crate::laying::{group, layout_of};
use crate::options::VortexWriteOptions;
use crate::output::write_led;
use crate::plan::Plan;
use std::alloc::{AllocError, Global};
use vx_base::{ByteBuffer, SegmentSpec, Sink};
use vx_data::{DType, Layout, Stat};
use vx_footer::{FileStatistics, Footer, Serialized, WriteError};
use vx_rows::RunningStats;

/// Where chunks lie.
fn specs_of(alloc: Global, laid: &[Laid]) -> Result<Vec<SegmentSpec>, AllocError>
    ensures { IfOk result (λ specs. specs.items ≡ map (λ l. l.spec) laid.now) }
{
    let mut specs = Vec::with_capacity(alloc, laid.len())?;
    for chunk in laid {
        specs.push(chunk.spec)?;
    }
    Ok(specs)
}

/// Copies of ids.
fn copied(alloc: Global, ids: &[String]) -> Result<Vec<String>, AllocError>
    ensures { IfOk result (λ copies. map string_bytes copies.items ≡ map string_bytes ids.now) }
{
    let mut copies = Vec::new(alloc);
    for id in ids {
        copies.push(id.clone()?)?;
    }
    Ok(copies)
}

/// The statistics of a file, where some are wanted.
fn statistics_of(
    alloc: Global,
    wanted: &[Stat],
    dtype: &DType,
    stats: Vec<RunningStats>,
) -> Result<Option<FileStatistics>, AllocError>
    requires { (seen : Rows) × (stats.items ≡ gathered wanted.now seen) × (dtype_of seen ≡ dtype_view dtype.now) }
    ensures dtypes { IfOk result (λ x. IfSome x (λ s. s.dtypes ≡ columns_of (dtype_view dtype.now))) }
    ensures value { (seen : Rows) → stats.items ≡ gathered wanted.now seen → IfOk result (λ x. x ≡ file_stats wanted.now (dtype_view dtype.now) seen) }
{
    if wanted.is_empty() {
        return Ok(None);
    }
    let sets = finish(alloc, stats)?;
    let statistics = FileStatistics::new_with_dtype(alloc, sets, dtype)?;
    Ok(Some(statistics))
}

/// The offset behind buffers from an offset on, where it is below 2^64.
fn end_of(offset: u64, buffers: &[ByteBuffer]) -> Option<u64>
    ensures some { IfSome result (λ end. end ≡ offset + length (joined buffers.now)) }
    ensures none { IfNone result (2 ^ 64 ≤ offset + length (joined buffers.now)) }
{
    let mut end = offset;
    for buffer in buffers {
        if u64::MAX - end < buffer.len() as u64 {
            return None;
        }
        end += buffer.len() as u64;
    }
    Some(end)
}

/// The layout of a file whose chunks lie so.
#[tactic(auto, using(crate::proofs::LayingLemmas::grouped_long, crate::proofs::LayingLemmas::laid_type))]
fn tree_of(
    alloc: Global,
    plan: &Plan,
    dtype: &DType,
    rows: u64,
    leaves: usize,
    laid: &[Laid],
) -> Result<Layout, AllocError>
    requires leaves { leaves ≡ leaf_count (plan_view plan.now) }
    requires fit { IsFor (plan_view plan.now) (dtype_view dtype.now) }
    requires full { AreFull rows (grouped (leaf_count (plan_view plan.now)) laid.now) }
    requires few { length laid.now < 2 ^ 32 }
    ensures value { IfOk result
        (λ layout. layout ≡ laid_out (plan_view plan.now) (dtype_view dtype.now) rows
        (grouped (leaf_count (plan_view plan.now)) laid.now)) }
    ensures typed { IfOk result (λ layout. dtype_of_layout layout ≡ dtype_view dtype.now) }
{
    let groups = group(alloc, leaves, laid)?;
    layout_of(alloc, plan, dtype, rows, &groups)
}

/// The footer of a file.
pub(crate) fn footer_of(
    alloc: Global,
    options: &VortexWriteOptions,
    ids: &[String],
    dtype: &DType,
    plan: &Plan,
    laid: &[Laid],
    leaves: usize,
    rows: u64,
    stats: Vec<RunningStats>,
) -> Result<Footer, AllocError>
    requires leaves { leaves ≡ leaf_count (plan_view plan.now) }
    requires fit { IsFor (plan_view plan.now) (dtype_view dtype.now) }
    requires full { AreFull rows (grouped (leaf_count (plan_view plan.now)) laid.now) }
    requires few { length laid.now < 2 ^ 32 }
    requires stats { (seen : Rows) × (stats.items ≡ gathered options.now.statistics seen) × (dtype_of seen ≡ dtype_view dtype.now) }
    ensures { (seen : Rows) → stats.items ≡ gathered options.now.statistics seen → IfOk result (λ footer. footer.content ≡ record {
      version = V1;
      layout = laid_out (plan_view plan.now) (dtype_view dtype.now) rows (grouped (leaf_count (plan_view plan.now)) laid.now);
      segments = map (λ l. l.spec) laid.now;
      statistics = file_stats options.now.statistics (dtype_view dtype.now) seen;
      metadata = [];
      array_ids = map string_bytes ids.now;
    }) }
{
    let layout = tree_of(alloc, plan, dtype, rows, leaves, laid)?;
    let specs = specs_of(alloc, laid)?;
    let statistics = statistics_of(alloc, options.statistics(), dtype, stats)?;
    Footer::new(alloc, layout, specs, statistics, copied(alloc, ids)?)
}

/// What follows the chunks of a file, the last of which ends at an offset.
#[tactic(auto, using(crate::proofs::EndLemmas::tail_joined, crate::proofs::EndLemmas::serialized_ok, crate::proofs::EndLemmas::serialized_long, crate::proofs::BeginLemmas::serializing_no_fault), unfolding(crate::specs::Written::tail_checks))]
pub(crate) fn serialized(
    alloc: Global,
    options: VortexWriteOptions,
    footer: Footer,
    offset: u64,
) -> Result<Serialized, WriteError>
    ensures value { (p : Place) → offset ≡ p.offset → Gives FailsToWrite parts_seen result (tail_checks options p footer.content) }
    ensures fault { result ≡ Err WriteFault → ⊥ }
    ensures fits { IfOk result (λ s. offset + length (joined s.buffers.items) < 2 ^ 64) }
    ensures bytes { IfOk result (λ s. tail_bytes (parts_seen s) ≡ joined s.buffers.items) }
{
    let context = options.layouts(alloc)?;
    let excluded = options.is_dtype_excluded();
    let version = options.version();
    let serializer = footer
        .into_serializer(alloc)
        .with_layout_context(context)
        .with_offset(offset)
        .with_exclude_dtype(excluded)
        .with_version(version)
        .with_metadata_segments(options.into_values());
    let serialized = serializer.serialize_with_metadata(alloc)?;
    if end_of(offset, &serialized.buffers).is_none() {
        return Err(WriteError::OffsetOverflow);
    }
    Ok(serialized)
}

/// Flushes a sink.
fn flush<S: Sink>(out: &mut S) -> Result<(), WriteError>
    ensures kept { (S.state out.new).gained ≡ (S.state out.old).gained }
    ensures flushed { OnOk result ((S.state out.new).is_flushed ≡ true) }
    ensures cause { SinkCause (S.state out.old) (S.state out.new) result }
    ensures only { Checked {B = Unit {0}} result (Ok tt) }
{
    match out.flush() {
        Ok(()) => Ok(()),
        Err(_) => Err(WriteError::WriteFault),
    }
}

/// Writes what follows the chunks of a file, and flushes.
pub(crate) fn write_tail<S: Sink>(
    alloc: Global,
    out: &mut S,
    taken: &mut u64,
    buffers: &[ByteBuffer],
) -> Result<(), WriteError>
    requires { taken.old + length (lead_of_file taken.old ++ joined buffers.now) < 2 ^ 64 }
    ensures ok { OnOk result (TookAll (lead_of_file taken.old ++ joined buffers.now) (S.state out.old).gained (S.state out.new).gained taken.old taken.new) }
    ensures flushed { OnOk result ((S.state out.new).is_flushed ≡ true) }
    ensures err { OnErr result (TookPart (lead_of_file taken.old ++ joined buffers.now) (S.state out.old).gained (S.state out.new).gained taken.old taken.new) }
    ensures cause { SinkCause (S.state out.old) (S.state out.new) result }
    ensures only { Checked {B = Unit {0}} result (Ok tt) }
{
    match write_led(alloc, out, taken, 0, buffers) {
        Ok(()) => {}
        Err(error) => return Err(error),
    }
    match flush(out) {
        Ok(()) => Ok(()),
        Err(error) => Err(error),
    }
}
