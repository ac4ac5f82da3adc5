//! How a file is opened for reading.
ghost use Rattle.std.specs.Prelude.{◌≡◌, ℕ, List, length, true, Some, IfOk, Ok, Err};
ghost use Rattle.vx_base.specs.Caches.{nothing_held};
ghost use Rattle.vx_base.specs.Readers.{SameReader};
ghost use Rattle.vx_data.specs.Dtype.{dtype_view};
ghost use Rattle.vx_data.specs.Layout.{dtype_of};
ghost use Rattle.vx_data.specs.Session.{Session};
ghost use Rattle.vx_file.specs.Buffers.{PreparesBuffer, OpensBuffer, buffer_plan};
ghost use Rattle.vx_file.specs.Hints.{no_hints};
ghost use Rattle.vx_file.specs.Plans.{plan_of};
ghost use Rattle.vx_file.specs.Prepared.{PrepareCause};
ghost use Rattle.vx_file.specs.Serving.{FaultRose, NamesCheck};
ghost use Rattle.vx_footer.specs.declared.error.OpenError.{OpenError};
ghost use Rattle.vx_sched.specs.declared.fault.Fault.{Fault};
ghost use Rattle.vx_file.specs.declared.served.ServeError.TheVariants as errors;

use crate::prepared::{Prepared, prepare};
use crate::{ServeError, ServeOptions, VortexFile};
use std::alloc::{AllocError, Global};
use vx_base::{ByteBuffer, MemReader, NoCache, Reader, SegmentCache};
use vx_data::{DType, VortexSession};
use vx_footer::Footer;
use vx_source::BufferSegmentSource;

/// The most ranges that one call asks of a file in memory.
const CONCURRENCY: usize = 8;

/// How a file is opened, what is known of it before, and the cache of its segments.
#[derive(Drop)]
pub struct VortexOpenOptions<C: SegmentCache> {
    pub(crate) session: VortexSession,
    pub(crate) options: ServeOptions,
    pub(crate) cache: C,
}

/// Sessions open files.
pub trait OpenOptionsSessionExt: Sized {
    // What the session is.
    ghost opens_with: { Self → Session };

    /// Options for a file of which nothing is known. Only memory refuses.
    fn open_options(&self, alloc: Global) -> Result<VortexOpenOptions<NoCache>, AllocError>
        ensures { IfOk result (λ o. (o.options ≡ no_hints) × (o.session ≡ opens_with self.now)) };
}

impl OpenOptionsSessionExt for VortexSession {
    ghost opens_with = { λ s. s };

    fn open_options(&self, alloc: Global) -> Result<VortexOpenOptions<NoCache>, AllocError> {
        let session = self.share(alloc)?;
        let options = ServeOptions::new(self.share(alloc)?);
        Ok(VortexOpenOptions {
            session,
            options,
            cache: NoCache,
        })
    }
}

/// Prepares a file that is known to have this size, by a reader of it, without a cache.
fn prepare_known<R: Reader>(
    alloc: Global,
    options: &ServeOptions,
    reader: &mut R,
) -> Result<Prepared, ServeError>
    ensures cause { (file : List ℕ) → (R.state reader.old).bytes ≡ Some file → options.now.size ≡ Some (length file) →
        PrepareCause (plan_of options.now file) options.now.metadata file (R.state reader.old) (R.state reader.new) nothing_held nothing_held result }
    ensures fault { FaultRose (R.state reader.old) (R.state reader.new) nothing_held nothing_held result }
    ensures names { NamesCheck result }
    ensures steady { (file : List ℕ) → (R.state reader.old).never_fails ≡ true → (R.state reader.old).bytes ≡ Some file →
        options.now.size ≡ Some (length file) →
        (R.state reader.new).faults ≡ (R.state reader.old).faults }
    ensures same { SameReader (R.state reader.old) (R.state reader.new) }
{
    let mut cache = NoCache;
    prepare(alloc, options, reader, &mut cache)
}

/// Prepares a file in memory.
fn prepare_buffer(
    alloc: Global,
    options: ServeOptions,
    buffer: &ByteBuffer,
) -> Result<Prepared, ServeError>
    ensures { PreparesBuffer options buffer.now.bytes result }
{
    let size = buffer.len() as u64;
    let known = options
        .with_some_file_size(Some(size))
        .with_initial_read_size(0);
    let bytes = buffer.share(alloc)?;
    let mut reader = MemReader::new(alloc, bytes, None, None, CONCURRENCY, Vec::new(alloc))?;
    prepare_known(alloc, &known, &mut reader)
}

impl<C: SegmentCache> VortexOpenOptions<C> {
    /// The session.
    pub fn session(&self) -> &VortexSession
        ensures { result.now ≡ self.now.session }
    {
        &self.session
    }

    /// The same with how many bytes the first read asks for, at least.
    pub fn with_initial_read_size(self, initial_read_size: usize) -> VortexOpenOptions<C>
        ensures options { result.options ≡ record self.options { initial = initial_read_size } }
        ensures session { result.session ≡ self.session }
        ensures cache { result.cache ≡ self.cache }
    {
        let VortexOpenOptions {
            session,
            options,
            cache,
        } = self;
        VortexOpenOptions {
            session,
            options: options.with_initial_read_size(initial_read_size),
            cache,
        }
    }

    /// The same with the size of the file, which is then not asked.
    pub fn with_file_size(self, file_size: u64) -> VortexOpenOptions<C>
        ensures options { result.options ≡ record self.options { size = Some file_size } }
        ensures session { result.session ≡ self.session }
        ensures cache { result.cache ≡ self.cache }
    {
        self.with_some_file_size(Some(file_size))
    }

    /// The same with the size of the file, if it is known.
    pub fn with_some_file_size(self, file_size: Option<u64>) -> VortexOpenOptions<C>
        ensures options { result.options ≡ record self.options { size = file_size } }
        ensures session { result.session ≡ self.session }
        ensures cache { result.cache ≡ self.cache }
    {
        let VortexOpenOptions {
            session,
            options,
            cache,
        } = self;
        VortexOpenOptions {
            session,
            options: options.with_some_file_size(file_size),
            cache,
        }
    }

    /// The same with another cache of segments.
    pub fn with_segment_cache<D: SegmentCache>(self, cache: D) -> VortexOpenOptions<D>
        ensures options { result.options ≡ self.options }
        ensures session { result.session ≡ self.session }
        ensures cache { result.cache ≡ cache }
    {
        let VortexOpenOptions {
            session,
            options,
            cache: _cache,
        } = self;
        VortexOpenOptions {
            session,
            options,
            cache,
        }
    }

    /// The same without a cache of segments.
    pub fn without_segment_cache(self) -> VortexOpenOptions<NoCache>
        ensures options { result.options ≡ self.options }
        ensures session { result.session ≡ self.session }
    {
        self.with_segment_cache(NoCache)
    }

    /// The same with the type of the rows, which is used in place of the file's own.
    pub fn with_dtype(self, dtype: DType) -> VortexOpenOptions<C>
        ensures options { result.options ≡ record self.options { dtype = Some (dtype_view dtype) } }
        ensures session { result.session ≡ self.session }
        ensures cache { result.cache ≡ self.cache }
    {
        let VortexOpenOptions {
            session,
            options,
            cache,
        } = self;
        VortexOpenOptions {
            session,
            options: options.with_some_dtype(Some(dtype)),
            cache,
        }
    }

    /// The same with the footer of the file, and its type of the rows.
    pub fn with_footer(
        self,
        alloc: Global,
        footer: Footer,
    ) -> Result<VortexOpenOptions<C>, AllocError>
        ensures options { IfOk result (λ o. o.options ≡ record self.options { dtype = Some (dtype_of footer.content.layout); footer = Some footer.content }) }
        ensures session { IfOk result (λ o. o.session ≡ self.session) }
        ensures cache { IfOk result (λ o. o.cache ≡ self.cache) }
    {
        let VortexOpenOptions {
            session,
            options,
            cache,
        } = self;
        match footer.dtype().share(alloc) {
            Ok(dtype) => Ok(VortexOpenOptions {
                session,
                options: options
                    .with_some_dtype(Some(dtype))
                    .with_some_footer(Some(footer)),
                cache,
            }),
            Err(error) => Err(error),
        }
    }

    /// The same with the values of the metadata, which are loaded with the footer.
    pub fn include_metadata(self) -> VortexOpenOptions<C>
        ensures options { result.options ≡ record self.options { metadata = true } }
        ensures session { result.session ≡ self.session }
        ensures cache { result.cache ≡ self.cache }
    {
        self.with_include_metadata(true)
    }

    /// The same with the values of the metadata, or without them.
    pub fn with_include_metadata(self, include_metadata: bool) -> VortexOpenOptions<C>
        ensures options { result.options ≡ record self.options { metadata = include_metadata } }
        ensures session { result.session ≡ self.session }
        ensures cache { result.cache ≡ self.cache }
    {
        let VortexOpenOptions {
            session,
            options,
            cache,
        } = self;
        VortexOpenOptions {
            session,
            options: options.with_include_metadata(include_metadata),
            cache,
        }
    }

    /// Opens a file in memory, whose segments share its bytes. Each segment must end within them, also where the footer is
    /// supplied. The cache is not used.
    pub fn open_buffer(
        self,
        alloc: Global,
        buffer: ByteBuffer,
    ) -> Result<VortexFile<BufferSegmentSource>, ServeError>
        ensures opens { IfOk result (λ f. OpensBuffer self.options buffer f.footer.content f.source f.metadata) }
        ensures session { IfOk result (λ f. f.session ≡ self.session) }
        // A file is refused by the name of the first check that it fails, and for nothing else but want of memory.
        ensures refused { (e : OpenError) → result ≡ Err (errors.Open e) → (buffer_plan self.options buffer.bytes).footer ≡ Err e }
        ensures no_fault { (fault : Fault) → result ≡ Err (errors.Fault fault) → ⊥ }
        ensures no_cache_fault { result ≡ Err errors.CacheFault → ⊥ }
    {
        let VortexOpenOptions {
            session,
            options,
            cache: _cache,
        } = self;
        let prepared = match prepare_buffer(alloc, options, &buffer) {
            Ok(prepared) => prepared,
            Err(error) => return Err(error),
        };
        let Prepared {
            footer,
            tail: _tail,
            opening: _opening,
            metadata,
        } = prepared;
        let segments = match Vec::from_slice(alloc, footer.segment_specs_with_metadata()) {
            Ok(segments) => segments,
            Err(_) => return Err(ServeError::OutOfMemory),
        };
        let source = BufferSegmentSource::new(buffer, segments);
        Ok(VortexFile::new(footer, source, session).with_metadata(metadata))
    }
}
