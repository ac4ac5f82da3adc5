//! Reads a footer from the last bytes of a file, step by step.
ghost use Rattle.std.specs.Prelude.{◌≡◌, ◌++◌, ◌≤◌, ◌<◌, OnOk, OnErr, IfOk, List, ℕ, length, None, Some};
ghost use Rattle.std.specs.Option.{option_map};
ghost use Rattle.vx_base.specs.Checks.{Gives};
ghost use Rattle.vx_data.specs.Dtype.{dtype_view};
ghost use Rattle.vx_footer.specs.Footers.{approx_of, entries_size};
ghost use Rattle.vx_footer.specs.Opening.{tail_checks, least_offset as least_of, lesser as lesser_of, Fails};
ghost use Rattle.vx_footer.specs.Steps.{step_of, IsSuffix, IsOfFile};

use crate::marker::postscript_of;
use crate::tables::footer_of;
use crate::{FileVersion, Footer, OpenError, Postscript, PostscriptMetadata, PostscriptSegment};
use std::alloc::{AllocError, Global};
use std::marker::Model;
use vx_base::ByteBuffer;
use vx_data::{DType, VortexSession};

/// What the last bytes of a file tell of it.
#[derive(Drop)]
pub enum DeserializeStep {
    /// Tables lie before these bytes: the `len` bytes from `offset` are to be prefixed.
    NeedMoreData { offset: u64, len: usize },
    /// The size of the file is to be supplied.
    NeedFileSize,
    /// The footer.
    Done(Footer),
}

/// Reads a footer from the last bytes of a file.
#[derive(Drop)]
pub struct FooterDeserializer {
    held: ByteBuffer,
    session: VortexSession,
    supplied: Option<DType>,
    file_size: Option<u64>,
}

impl Model for FooterDeserializer {
    ghost use Rattle.std.specs.Coded.{codes};
    ghost use Rattle.vx_footer.specs.DtypeCode.{dtype_code};
    ghost use Rattle.std.specs.Option.{option_map};
    ghost use Rattle.vx_data.specs.Dtype.{dtype_view};
    ghost use Rattle.vx_footer.specs.Deserializing.{Deserializing};

    ghost Value = { Deserializing };

    ghost coded = { Prim.hlevel (codes, dtype_code) };

    ghost view = { λ a. record { buffer = a.held; dtype = option_map dtype_view a.supplied; size = a.file_size } };
}

/// The version and the postscript, from the last bytes of a file.
#[tactic(auto, unfolding(crate::specs::Opening::tail_checks))]
fn tail_of(
    alloc: Global,
    supplied: &Option<DType>,
    seen: &[u8],
) -> Result<(FileVersion, Postscript), OpenError>
    ensures value { Gives Fails (λ tail. tail) result (tail_checks (option_map dtype_view supplied.now) seen.now) }
    ensures small { IfOk result (λ tail. entries_size tail.1.metadata ≤ 17408) }
{
    let (version, bytes) = postscript_of(seen)?;
    let postscript = Postscript::read(alloc, bytes, version)?;
    if supplied.is_none() && postscript.dtype.is_none() {
        return Err(OpenError::MissingDType);
    }
    Ok((version, postscript))
}

/// The lesser of an offset and that of a table, where there is one.
fn lesser(place: Option<PostscriptSegment>, offset: u64) -> u64
    ensures { result ≡ lesser_of place offset }
{
    match place {
        Some(place) => place.offset.min(offset),
        None => offset,
    }
}

/// The least offset of a table that is needed.
fn least_offset(supplied: &Option<DType>, postscript: &Postscript) -> u64
    ensures { result ≡ least_of (option_map dtype_view supplied.now) postscript.now }
{
    let tables = postscript.layout.offset.min(postscript.footer.offset);
    let least = lesser(postscript.statistics, tables);
    match supplied {
        Some(_) => least,
        None => lesser(postscript.dtype, least),
    }
}

/// The sum of 16 and the key's length over entries.
fn entry_sizes(entries: &[PostscriptMetadata]) -> usize
    requires { entries_size entries.now ≤ 17408 }
    ensures { result ≡ entries_size entries.now }
{
    let mut size = 0;
    for entry in entries {
        size += 16 + entry.key.as_str().len();
    }
    size
}

/// How many bytes a footer takes in a file.
fn byte_size(postscript: &Postscript) -> usize
    requires { entries_size postscript.now.metadata ≤ 17408 }
    ensures { result ≡ approx_of postscript.now }
{
    let tables = postscript.footer.length as usize + postscript.layout.length as usize;
    tables + entry_sizes(postscript.metadata.as_slice())
}

/// The step that the last bytes of a file lead to.
#[tactic(auto, unfolding(crate::specs::Steps::step_of))]
fn step_from(
    alloc: Global,
    supplied: &Option<DType>,
    file_size: Option<u64>,
    seen: &[u8],
) -> Result<DeserializeStep, OpenError>
    ensures { Gives Fails (λ step. step) result (step_of (option_map dtype_view supplied.now) file_size seen.now) }
{
    let (version, postscript) = tail_of(alloc, supplied, seen)?;
    let Some(size) = file_size else {
        return Ok(DeserializeStep::NeedFileSize);
    };
    let length = seen.len() as u64;
    if length > size {
        return Err(OpenError::BufferTooLong);
    }
    let start = size - length;
    let least = least_offset(supplied, &postscript);
    if least < start {
        return Ok(DeserializeStep::NeedMoreData {
            offset: least,
            len: (start - least) as usize,
        });
    }
    let byte_size = byte_size(&postscript);
    let footer = footer_of(alloc, start, seen, supplied, version, postscript)?;
    Ok(DeserializeStep::Done(footer.with_byte_size(byte_size)))
}

impl Footer {
    /// Reads a footer from the last bytes of a file.
    pub fn deserializer(eof_buffer: ByteBuffer, session: VortexSession) -> FooterDeserializer
        ensures { result ≡ record { buffer = eof_buffer; dtype = None; size = None } }
    {
        FooterDeserializer {
            held: eof_buffer,
            session,
            supplied: None,
            file_size: None,
        }
    }
}

impl FooterDeserializer {
    /// The same with a supplied dtype, which is used in place of the file's.
    pub fn with_dtype(self, dtype: DType) -> FooterDeserializer
        ensures { result ≡ record self { dtype = Some (dtype_view dtype) } }
    {
        self.with_some_dtype(Some(dtype))
    }

    /// The same with a supplied dtype, or with none.
    pub fn with_some_dtype(self, dtype: Option<DType>) -> FooterDeserializer
        ensures { result ≡ record self { dtype = option_map dtype_view dtype } }
    {
        let mut changed = self;
        changed.supplied = dtype;
        changed
    }

    /// The same with the size of the file.
    pub fn with_size(self, file_size: u64) -> FooterDeserializer
        ensures { result ≡ record self { size = Some file_size } }
    {
        self.with_some_size(Some(file_size))
    }

    /// The same with the size of the file, or without one.
    pub fn with_some_size(self, file_size: Option<u64>) -> FooterDeserializer
        ensures { result ≡ record self { size = file_size } }
    {
        let mut changed = self;
        changed.file_size = file_size;
        changed
    }

    /// The last bytes of the file.
    pub fn buffer(&self) -> &ByteBuffer
        ensures { result.now ≡ self.now.buffer }
    {
        &self.held
    }

    /// Puts bytes before those that are there. Without memory nothing changes.
    pub fn prefix_data(&mut self, alloc: Global, more_data: ByteBuffer) -> Result<(), AllocError>
        ensures ok { OnOk result (self.new ≡ record self.old { buffer = record self.old.buffer { bytes = more_data.bytes ++ self.old.buffer.bytes } }) }
        ensures err { OnErr result (self.new ≡ self.old) }
    {
        let bytes = more_data.extended(alloc, self.held.as_slice())?;
        self.held = bytes.aligned(self.held.alignment());
        Ok(())
    }

    /// The step that the bytes lead to: the footer, or what is needed before. Refuses by the first check
    /// that fails. Nothing changes.
    #[tactic(auto, using(crate::proofs::Seen::answers_of_file))]
    pub fn deserialize(&mut self, alloc: Global) -> Result<DeserializeStep, OpenError>
        ensures value { Gives Fails (λ step. step) result (step_of self.old.dtype self.old.size self.old.buffer.bytes) }
        // On the last bytes of a file of this size each step is the file's.
        ensures file { (file : List ℕ) (start : ℕ) → IsSuffix file start self.old.buffer.bytes → self.old.size ≡ Some (length file) →
            IsOfFile self.old.dtype file start result }
        ensures same { self.new ≡ self.old }
    {
        step_from(alloc, &self.supplied, self.file_size, self.held.as_slice())
    }
}
