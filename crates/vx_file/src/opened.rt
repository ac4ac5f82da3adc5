//! Opens a file: from its tail, or by a footer that is supplied.
ghost use Rattle.std.specs.Prelude.{◌≡◌, ◌+◌, ◌-◌, ◌≤◌, ◌<◌, ◌^◌, ◌∷◌, ℕ, List, length, Some, true, IfOk};
ghost use Rattle.vx_base.specs.Readers.{SameReader};
ghost use Rattle.vx_footer.specs.Footers.{segment_table};
ghost use Rattle.vx_source.specs.Stands.{AreFit};
ghost use Rattle.vx_file.specs.Hints.{IsSizeOf, IsSized};
ghost use Rattle.vx_file.specs.Opened.{OpenCause, Supplies};
ghost use Rattle.vx_file.specs.Plans.{tail_plan, plan_of};
ghost use Rattle.vx_file.specs.Ranges.{range_before};
ghost use Rattle.vx_file.specs.Serving.{OpeningRose, NamesCheck};

use crate::opening::{Opening, footer_of, read_tail};
use crate::{ServeError, ServeOptions};
use std::alloc::{AllocError, Global};
use vx_base::{Reader, Sequence};
use vx_footer::{Footer, OpenError};
use vx_source::Tail;

/// An opened file: its footer, the tail that was read of it, if one was, and the ranges that were asked for that.
#[derive(Drop)]
pub struct Opened {
    pub footer: Footer,
    pub tail: Option<Tail>,
    pub ranges: Sequence<(u64, u64)>,
}

/// The ranges that were asked for a tail, of which the first began at `first`.
fn ranges_of(alloc: Global, tail: &Tail, first: u64) -> Result<Sequence<(u64, u64)>, AllocError>
    requires after { tail.now.start ≤ first }
    requires inside { first ≤ tail.now.start + length tail.now.bytes.bytes }
    requires bound { tail.now.start + length tail.now.bytes.bytes < 2 ^ 64 }
    ensures { IfOk result (λ ranges. ranges ≡ (first, tail.now.start + length tail.now.bytes.bytes - first) ∷ range_before tail.now.start first) }
{
    let mut ranges = Sequence::new(alloc);
    let size = tail.start + tail.bytes.len() as u64;
    ranges.push((first, size - first))?;
    if tail.start < first {
        ranges.push((tail.start, first - tail.start))?;
    }
    Ok(ranges)
}

/// Opens a file from its tail.
fn open_tail<R: Reader>(
    alloc: Global,
    options: &ServeOptions,
    reader: &mut R,
) -> Result<Opened, ServeError>
    ensures cause { (file : List ℕ) → (R.state reader.old).bytes ≡ Some file → IsSizeOf options.now.size file →
        OpenCause (tail_plan options.now file) file (R.state reader.old) (R.state reader.new) result }
    ensures rose { OpeningRose (R.state reader.old) (R.state reader.new) result }
    ensures names { NamesCheck result }
    ensures steady { (file : List ℕ) → (R.state reader.old).never_fails ≡ true → (R.state reader.old).bytes ≡ Some file →
        IsSizeOf options.now.size file → (R.state reader.new).faults ≡ (R.state reader.old).faults }
    ensures fit { IfOk result (λ o. AreFit (segment_table o.footer.content) o.tail) }
    ensures same { SameReader (R.state reader.old) (R.state reader.new) }
{
    let opening = read_tail(alloc, options, reader)?;
    let Opening {
        tail,
        first,
        footer,
    } = opening;
    let footer = footer_of(alloc, options, &tail, footer)?;
    let ranges = ranges_of(alloc, &tail, first)?;
    Ok(Opened {
        footer,
        tail: Some(tail),
        ranges,
    })
}

/// Opens a file by its footer, of which only the ends of the segments are checked.
fn open_supplied(
    alloc: Global,
    options: &ServeOptions,
    footer: Footer,
) -> Result<Opened, ServeError>
    ensures supplies { Supplies options.now.size footer.content result }
    ensures fit { IfOk result (λ o. AreFit (segment_table o.footer.content) o.tail) }
{
    if footer.validate_file_size(options.greatest_end()).is_err() {
        return Err(ServeError::Open(OpenError::PastEnd));
    }
    Ok(Opened {
        footer,
        tail: None,
        ranges: Sequence::new(alloc),
    })
}

/// Opens a file: by the footer that is supplied, where nothing is read, or else from its tail.
pub(crate) fn open_file<R: Reader>(
    alloc: Global,
    options: &ServeOptions,
    reader: &mut R,
) -> Result<Opened, ServeError>
    ensures cause { (file : List ℕ) → (R.state reader.old).bytes ≡ Some file → IsSized options.now file →
        OpenCause (plan_of options.now file) file (R.state reader.old) (R.state reader.new) result }
    ensures rose { OpeningRose (R.state reader.old) (R.state reader.new) result }
    ensures names { NamesCheck result }
    ensures steady { (file : List ℕ) → (R.state reader.old).never_fails ≡ true → (R.state reader.old).bytes ≡ Some file →
        IsSized options.now file → (R.state reader.new).faults ≡ (R.state reader.old).faults }
    ensures fit { IfOk result (λ o. AreFit (segment_table o.footer.content) o.tail) }
    ensures same { SameReader (R.state reader.old) (R.state reader.new) }
{
    match options.share_footer(alloc)? {
        Some(footer) => open_supplied(alloc, options, footer),
        None => open_tail(alloc, options, reader),
    }
}
