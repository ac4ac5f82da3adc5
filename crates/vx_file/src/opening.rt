//! Opens a file from its tail: its last bytes, and what lies before them where tables do.
ghost use Rattle.std.specs.Prelude.{◌≡◌, ◌+◌, ◌≤◌, ◌<◌, ◌^◌, ◌++◌, ℕ, List, length, All, Some, None, Ok, true, false, IfOk, IfNone};
ghost use Rattle.vx_base.specs.Readers.{SameReader};
ghost use Rattle.vx_footer.specs.Footers.{FooterValue, segment_table};
ghost use Rattle.vx_footer.specs.Opening.{EndsWithin};
ghost use Rattle.vx_footer.specs.Steps.{asks_bytes};
ghost use Rattle.vx_file.specs.Hints.{IsSizeOf};
ghost use Rattle.vx_file.specs.Ranges.{tail_start};
ghost use Rattle.vx_file.specs.Serving.{OpeningRose, NamesCheck};
ghost use Rattle.vx_file.specs.Tails.{SizeCause, tail_step, refused_as, Refuses, Looks, Finishes, FirstCause, Prefixed, BeforeCause, TailFrom, IsFound, IsSettled, TailCause, FooterCause};

use crate::reading::read_range;
use crate::{ServeError, ServeOptions};
use std::alloc::{AllocError, Global};
use vx_base::{Alignment, ByteBuffer, ReadAtRequest, Reader};
use vx_data::VortexSession;
use vx_footer::{DeserializeStep, Footer, FooterDeserializer, OpenError};
use vx_sched::{Fault, ask_size};
use vx_source::Tail;

/// What a tail tells of its file: the footer, or that bytes before the tail are needed.
#[derive(Drop)]
pub enum Look {
    Whole(Footer),
    Before { offset: u64, len: usize },
}

/// The tail of a file that has all tables, where the first read began, and the footer, where the first
/// read told it.
#[derive(Drop)]
pub struct Opening {
    pub tail: Tail,
    pub first: u64,
    pub footer: Option<Footer>,
}

/// The size of a file: the one that is known, or else its reader is asked.
fn size_of<R: Reader>(options: &ServeOptions, reader: &mut R) -> Result<u64, Fault>
    ensures cause { SizeCause options.now (R.state reader.old) (R.state reader.new) result }
    ensures same { SameReader (R.state reader.old) (R.state reader.new) }
{
    match options.file_size() {
        Some(size) => Ok(size),
        None => ask_size(reader),
    }
}

/// Reads the last bytes of a file.
fn read_last<R: Reader>(
    alloc: Global,
    options: &ServeOptions,
    reader: &mut R,
) -> Result<Tail, ServeError>
    ensures cause { (file : List ℕ) → (R.state reader.old).bytes ≡ Some file → IsSizeOf options.now.size file →
        FirstCause options.now file (R.state reader.old) (R.state reader.new) result }
    ensures rose { OpeningRose (R.state reader.old) (R.state reader.new) result }
    ensures names { NamesCheck result }
    ensures steady { (file : List ℕ) → (R.state reader.old).never_fails ≡ true → (R.state reader.old).bytes ≡ Some file →
        IsSizeOf options.now.size file → (R.state reader.new).faults ≡ (R.state reader.old).faults }
    ensures bound { IfOk result (λ t. t.start + length t.bytes.bytes < 2 ^ 64) }
    ensures same { SameReader (R.state reader.old) (R.state reader.new) }
{
    let size = match size_of(options, reader) {
        Ok(size) => size,
        Err(fault) => return Err(ServeError::Fault(fault)),
    };
    let start = size.saturating_sub(options.first_length());
    let range = ReadAtRequest {
        offset: start,
        length: (size - start) as usize,
        alignment: Alignment::none(),
    };
    match read_range(alloc, reader, range)? {
        Ok(bytes) => Ok(Tail { start, bytes }),
        Err(fault) => Err(ServeError::Fault(fault)),
    }
}

/// A deserializer of a tail's bytes.
fn deserializer_of(
    alloc: Global,
    options: &ServeOptions,
    tail: &Tail,
) -> Result<FooterDeserializer, AllocError>
    requires { tail.now.start + length tail.now.bytes.bytes < 2 ^ 64 }
    ensures { IfOk result (λ d. d ≡ record { buffer = tail.now.bytes; dtype = options.now.dtype; size = Some (tail.now.start + length tail.now.bytes.bytes) }) }
{
    let size = tail.start + tail.bytes.len() as u64;
    let deserializer = Footer::deserializer(tail.bytes.share(alloc)?, options.session(alloc)?);
    Ok(
        deserializer
            .with_some_dtype(options.share_dtype(alloc)?)
            .with_size(size),
    )
}

fn refusal(error: OpenError) -> ServeError
    ensures { result ≡ refused_as error }
{
    match error {
        OpenError::OutOfMemory => ServeError::OutOfMemory,
        error => ServeError::Open(error),
    }
}

/// What a tail tells.
#[tactic(auto, using(crate::proofs::Looking::refused_look, crate::proofs::Looking::refuses_look, vx_footer::proofs::Seen::size_not_asked))]
fn look_at(alloc: Global, options: &ServeOptions, tail: &Tail) -> Result<Look, ServeError>
    requires { tail.now.start + length tail.now.bytes.bytes < 2 ^ 64 }
    ensures value { Looks (tail_step options.now tail.now) result }
    ensures refuses { Refuses result }
{
    let mut deserializer = deserializer_of(alloc, options, tail)?;
    match deserializer.deserialize(alloc) {
        Ok(DeserializeStep::Done(footer)) => Ok(Look::Whole(footer)),
        Ok(DeserializeStep::NeedMoreData { offset, len }) => Ok(Look::Before { offset, len }),
        Ok(DeserializeStep::NeedFileSize) => unreachable!(),
        Err(error) => Err(refusal(error)),
    }
}

/// The footer that a tail tells, which has all tables.
fn finish(alloc: Global, options: &ServeOptions, tail: &Tail) -> Result<Footer, ServeError>
    requires bound { tail.now.start + length tail.now.bytes.bytes < 2 ^ 64 }
    requires settled { asks_bytes (tail_step options.now tail.now) ≡ false }
    ensures value { Finishes (tail_step options.now tail.now) result }
    ensures refuses { Refuses result }
{
    match look_at(alloc, options, tail)? {
        Look::Whole(footer) => Ok(footer),
        Look::Before { .. } => unreachable!(),
    }
}

/// The tail with bytes before it.
fn prefixed(alloc: Global, offset: u64, more: ByteBuffer, tail: &Tail) -> Result<Tail, AllocError>
    ensures start { IfOk result (λ t. t.start ≡ offset) }
    ensures bytes { IfOk result (λ t. t.bytes.bytes ≡ more.bytes ++ tail.now.bytes.bytes) }
{
    let session = VortexSession::new(alloc)?;
    let mut deserializer = Footer::deserializer(tail.bytes.share(alloc)?, session);
    deserializer.prefix_data(alloc, more)?;
    Ok(Tail {
        start: offset,
        bytes: deserializer.buffer().share(alloc)?,
    })
}

/// Reads what lies before a tail.
fn read_before<R: Reader>(
    alloc: Global,
    reader: &mut R,
    tail: &Tail,
    offset: u64,
    len: usize,
) -> Result<Tail, ServeError>
    requires { offset + len ≡ tail.now.start }
    ensures cause { (file : List ℕ) → (R.state reader.old).bytes ≡ Some file →
        BeforeCause file tail.now offset len (R.state reader.old) (R.state reader.new) result }
    ensures prefixed { IfOk result (Prefixed offset len tail.now) }
    ensures rose { OpeningRose (R.state reader.old) (R.state reader.new) result }
    ensures names { NamesCheck result }
    ensures steady { (file : List ℕ) → (R.state reader.old).never_fails ≡ true → (R.state reader.old).bytes ≡ Some file →
        tail.now.start ≤ length file → (R.state reader.new).faults ≡ (R.state reader.old).faults }
    ensures same { SameReader (R.state reader.old) (R.state reader.new) }
{
    let range = ReadAtRequest {
        offset,
        length: len,
        alignment: Alignment::none(),
    };
    match read_range(alloc, reader, range)? {
        Ok(bytes) => Ok(prefixed(alloc, offset, bytes, tail)?),
        Err(fault) => Err(ServeError::Fault(fault)),
    }
}

/// Reads the tail of a file that has all tables.
pub(crate) fn read_tail<R: Reader>(
    alloc: Global,
    options: &ServeOptions,
    reader: &mut R,
) -> Result<Opening, ServeError>
    ensures cause { (file : List ℕ) → (R.state reader.old).bytes ≡ Some file → IsSizeOf options.now.size file →
        TailCause options.now file (R.state reader.old) (R.state reader.new) result }
    ensures rose { OpeningRose (R.state reader.old) (R.state reader.new) result }
    ensures names { NamesCheck result }
    ensures steady { (file : List ℕ) → (R.state reader.old).never_fails ≡ true → (R.state reader.old).bytes ≡ Some file →
        IsSizeOf options.now.size file → (R.state reader.new).faults ≡ (R.state reader.old).faults }
    ensures bound { IfOk result (λ o. o.tail.start + length o.tail.bytes.bytes < 2 ^ 64) }
    ensures order { IfOk result (λ o. (o.tail.start ≤ o.first) × (o.first ≤ o.tail.start + length o.tail.bytes.bytes)) }
    ensures settled { IfOk result (λ o. IsSettled options.now o o.footer) }
    ensures same { SameReader (R.state reader.old) (R.state reader.new) }
{
    let last = read_last(alloc, options, reader)?;
    let first = last.start;
    match look_at(alloc, options, &last)? {
        Look::Whole(footer) => Ok(Opening {
            tail: last,
            first,
            footer: Some(footer),
        }),
        Look::Before { offset, len } => {
            let tail = read_before(alloc, reader, &last, offset, len)?;
            Ok(Opening {
                tail,
                first,
                footer: None,
            })
        }
    }
}

/// The footer that an opening tells, before its extent is looked at.
fn found(
    alloc: Global,
    options: &ServeOptions,
    tail: &Tail,
    footer: Option<Footer>,
) -> Result<Footer, ServeError>
    requires bound { tail.now.start + length tail.now.bytes.bytes < 2 ^ 64 }
    requires settled { IfNone footer (asks_bytes (tail_step options.now tail.now) ≡ false) }
    ensures known { (f : FooterValue) → footer ≡ Some f → result ≡ Ok f }
    ensures told { IfNone footer (Finishes (tail_step options.now tail.now) result) }
    ensures refuses { Refuses result }
{
    match footer {
        Some(footer) => Ok(footer),
        None => finish(alloc, options, tail),
    }
}

/// The footer of a file, from its tail.
pub(crate) fn footer_of(
    alloc: Global,
    options: &ServeOptions,
    tail: &Tail,
    footer: Option<Footer>,
) -> Result<Footer, ServeError>
    requires bound { tail.now.start + length tail.now.bytes.bytes < 2 ^ 64 }
    requires settled { IfNone footer (asks_bytes (tail_step options.now tail.now) ≡ false) }
    ensures cause { (file : List ℕ) → TailFrom file (tail_start options.now file) tail.now → IsFound options.now file footer →
        FooterCause options.now file result }
    ensures refuses { Refuses result }
    ensures within { IfOk result (λ f. All (EndsWithin (tail.now.start + length tail.now.bytes.bytes)) (segment_table f.content)) }
{
    let footer = found(alloc, options, tail, footer)?;
    let size = tail.start + tail.bytes.len() as u64;
    if footer.validate_file_size(size).is_err() {
        return Err(ServeError::Open(OpenError::PastEnd));
    }
    Ok(footer)
}
