//! What asking a block of spans gives, and how it is filed.
ghost use Rattle.std.specs.Prelude.{◌≡◌, ◌-◌, ◌≤◌, ◌++◌, ◌∷◌, [], map, length, IfOk, IfSome, OnOk};
ghost use Rattle.vx_base.specs.Readers.{SameReader};
ghost use Rattle.vx_sched.specs.Io.{request_of};
ghost use Rattle.vx_sched.specs.Metrics.{with_call};
ghost use Rattle.vx_sched.specs.Outcomes.{IsOutcomeOf, AreOutcomesOf};
ghost use Rattle.vx_source.specs.Blocks.{number_of, reported, span_outcome, reports_of, filed_good, filed_bad, filed_by, filed_of, with_filed, file_reads, with_cores, AskedBlock};
ghost use Rattle.vx_source.specs.Kept.{update};
ghost use Rattle.vx_source.specs.declared.span.SpanOutcome.TheVariants.{Bad};

use crate::request::{Filed, SharedRead};
use crate::{Span, SpanOutcome};
use std::alloc::{AllocError, Global};
use vx_base::{ByteBuffer, ReadAtRequest, Reader, Sequence};
use vx_sched::{CoalescedRequest, Fault, Outcome, ReadRequest, RequestMetrics, ask, request_of};

/// What asking a block of spans gave.
#[derive(Drop)]
pub struct Block {
    pub reports: Vec<Span>,
    pub filed: Vec<Filed>,
}

/// The numbers of reads.
fn numbers(alloc: Global, requests: &[ReadRequest]) -> Result<Sequence<u64>, AllocError>
    ensures { IfOk result (λ numbers. numbers ≡ map number_of requests.now) }
{
    let mut numbers = Sequence::from_vec(Vec::with_capacity(alloc, requests.len())?);
    for request in requests {
        numbers.push(request.id)?;
    }
    Ok(numbers)
}

/// A span as a drive reports it.
fn report(alloc: Global, span: &CoalescedRequest, outcome: SpanOutcome) -> Result<Span, AllocError>
    ensures { IfOk result (λ report. report ≡ reported outcome span.now) }
{
    let range = span.range();
    Ok(Span {
        start: range.start,
        end: range.end,
        alignment: span.alignment(),
        reads: numbers(alloc, span.requests())?,
        outcome,
    })
}

/// The read of a span, where it is one alone and has all bytes of the span.
fn only_read(span: &CoalescedRequest) -> Option<ReadRequest>
    ensures only { IfSome result (λ read. span.now.reads ≡ read ∷ []) }
    ensures start { IfSome result (λ read. read.offset ≡ span.now.start) }
    ensures whole { IfSome result (λ read. read.length ≡ span.now.end - span.now.start) }
{
    let range = span.range();
    match span.requests() {
        [read] => {
            if read.offset == range.start && read.length as u64 == range.end - range.start {
                Some(*read)
            } else {
                None
            }
        }
        _ => None,
    }
}

/// Cuts the bytes of a span for each of its reads.
fn file_cuts(
    alloc: Global,
    span: &CoalescedRequest,
    buffer: &ByteBuffer,
    filed: &mut Vec<Filed>,
) -> Result<(), AllocError>
    requires { length buffer.now.bytes ≡ span.now.end - span.now.start }
    ensures { OnOk result (filed.new.items ≡ filed.old.items ++ map (filed_good span.now buffer.now) span.now.reads) }
{
    for index in 0..span.requests().len() {
        let bytes = span.slice_of(alloc, buffer, index)?;
        filed.push(Filed::good(span.requests()[index].id, bytes))?;
    }
    Ok(())
}

/// Gives the reads of a span its bytes. One alone that has all of them takes them as they are.
fn file_good(
    alloc: Global,
    span: &CoalescedRequest,
    buffer: ByteBuffer,
    filed: &mut Vec<Filed>,
) -> Result<(), AllocError>
    requires { length buffer.bytes ≡ span.now.end - span.now.start }
    ensures { OnOk result (filed.new.items ≡ filed.old.items ++ map (filed_good span.now buffer) span.now.reads) }
{
    match only_read(span) {
        Some(read) => {
            let bytes = buffer.aligned(read.alignment);
            filed.push(Filed::good(read.id, bytes))?;
            Ok(())
        }
        None => file_cuts(alloc, span, &buffer, filed),
    }
}

/// Gives each read of a span its fault.
fn file_bad(
    requests: &[ReadRequest],
    fault: Fault,
    filed: &mut Vec<Filed>,
) -> Result<(), AllocError>
    ensures { OnOk result (filed.new.items ≡ filed.old.items ++ map (filed_bad (Bad fault)) requests.now) }
{
    for request in requests {
        filed.push(Filed::bad(request.id, fault))?;
    }
    Ok(())
}

/// Adds a span to a block.
fn add_span(
    alloc: Global,
    block: &mut Block,
    span: &CoalescedRequest,
    outcome: Outcome,
) -> Result<(), AllocError>
    requires { IsOutcomeOf (request_of span.now) outcome }
    ensures reports { OnOk result (block.new.reports.items ≡ block.old.reports.items ++ reported (span_outcome outcome) span.now ∷ []) }
    ensures filed { OnOk result (block.new.filed.items ≡ block.old.filed.items ++ filed_by span.now outcome) }
{
    block.filed.reserve(span.requests().len())?;
    match outcome {
        Outcome::Bytes(buffer) => {
            file_good(alloc, span, buffer, &mut block.filed)?;
            block.reports.push(report(alloc, span, SpanOutcome::Good)?)?;
        }
        Outcome::Fault(fault) => {
            file_bad(span.requests(), fault, &mut block.filed)?;
            block
                .reports
                .push(report(alloc, span, SpanOutcome::Bad(fault))?)?;
        }
        Outcome::NoMemory => unreachable!(),
    }
    Ok(())
}

/// What the outcomes of the ranges of spans give.
fn block_of(
    alloc: Global,
    spans: &[CoalescedRequest],
    outcomes: Vec<Outcome>,
) -> Result<Block, AllocError>
    requires { AreOutcomesOf (map request_of spans.now) outcomes.items }
    ensures reports { IfOk result (λ block. block.reports.items ≡ reports_of spans.now outcomes.items) }
    ensures filed { IfOk result (λ block. block.filed.items ≡ filed_of spans.now outcomes.items) }
{
    let mut block = Block {
        reports: Vec::with_capacity(alloc, spans.len())?,
        filed: Vec::with_capacity(alloc, spans.len())?,
    };
    let mut left = outcomes.into_iter();
    for span in spans {
        let Some(outcome) = left.next() else {
            unreachable!();
        };
        add_span(alloc, &mut block, span, outcome)?;
    }
    Ok(block)
}

/// The ranges that spans are asked as.
fn ranges(alloc: Global, spans: &[CoalescedRequest]) -> Result<Vec<ReadAtRequest>, AllocError>
    ensures { IfOk result (λ ranges. ranges.items ≡ map request_of spans.now) }
{
    let mut ranges = Vec::with_capacity(alloc, spans.len())?;
    for span in spans {
        ranges.push(request_of(span))?;
    }
    Ok(ranges)
}

/// Asks a reader for a block of spans.
pub fn ask_block<R: Reader>(
    alloc: Global,
    reader: &mut R,
    spans: &[CoalescedRequest],
) -> Result<Block, AllocError>
    requires some { 1 ≤ length spans.now }
    requires at_most { length spans.now ≤ (R.state reader.old).concurrency }
    ensures cause { AskedBlock spans.now (R.state reader.old) (R.state reader.new) result }
    ensures same { SameReader (R.state reader.old) (R.state reader.new) }
{
    let asked = ranges(alloc, spans)?;
    let outcomes = ask(alloc, reader, asked.as_slice())?;
    let block = block_of(alloc, spans, outcomes)?;
    Ok(block)
}

/// Files what a span gave a read.
fn file_one(reads: &mut Vec<SharedRead>, filed: Filed)
    ensures items { reads.new.items ≡ update (with_filed filed) reads.old.items filed.read }
    ensures len { length reads.new.items ≡ length reads.old.items }
{
    let r = filed.read() as usize;
    if r >= reads.len() {
        return;
    }
    reads[r].file(filed);
}

/// Files what a block gave.
pub fn file_all(reads: &mut Vec<SharedRead>, filed: Vec<Filed>)
    ensures items { reads.new.items ≡ file_reads reads.old.items filed.items }
    ensures len { length reads.new.items ≡ length reads.old.items }
{
    for one in filed {
        file_one(reads, one);
    }
}

/// Counts a block of spans that is asked in one call.
pub fn count_block(counts: &mut RequestMetrics, spans: &[CoalescedRequest])
    ensures { counts.new ≡ with_cores spans.now (with_call (length spans.now) counts.old) }
{
    counts.add_call(spans.len());
    for span in spans {
        counts.add_span(span.requests().len());
    }
}
