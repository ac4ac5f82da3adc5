//! Opening files whose footers are kept, so that one that is known is not read before its segments are.
ghost use Rattle.std.specs.Prelude.{◌≡◌, ◌⊎◌, Some, None, Err, IfOk, OnErr, string_bytes};
ghost use Rattle.std.specs.Map.{lookup};
ghost use Rattle.std.specs.Option.{option_map};
ghost use Rattle.std.specs.Str.{bytes_eq};
ghost use Rattle.lru.specs.LruCache.{promoted};
ghost use Rattle.vx_file.specs.Cached.{known_by, key_of, OpensTheSame};
ghost use Rattle.vx_file.specs.Hints.{no_hints};
ghost use Rattle.vx_file.specs.KeptFooters.{kept_after};
ghost use Rattle.vx_file.specs.OpenRead.{OpensBy, FailsBy};
ghost use Rattle.vx_file.specs.declared.served.ServeError.{ServeError};
ghost use Rattle.vx_file.specs.declared.cached.CachedError.TheVariants as errors;

use crate::{MultiFileSession, OpenOptionsSessionExt, ServeError, VortexFile, VortexOpenOptions};
use std::alloc::{AllocError, Global};
use thiserror::Error;
use vx_base::{NoCache, Reader, SegmentCache};
use vx_data::VortexSession;
use vx_footer::Footer;
use vx_source::SessionSource;

/// Why a file whose footer may be kept was not opened.
#[derive(Clone, Copy, Debug, PartialEq, Eq, Error)]
pub enum CachedError {
    /// No key is given, and the reader has no name.
    #[error("there is no key")]
    MissingKey,
    /// The file was refused, or could not be read.
    #[error("{0}")]
    Serve(ServeError),
    /// Memory ran out.
    #[error("out of memory")]
    OutOfMemory,
}

/// The key of a file: the one that is given, or else the name of its reader.
fn key_for<R: Reader>(alloc: Global, key: Option<&str>, reader: &R) -> Result<String, CachedError>
    ensures key { IfOk result (λ name. key_of (option_map (λ k. k.now) key.entry) (R.state reader.now).uri ≡ Some (string_bytes name)) }
    ensures missing { result ≡ Err errors.MissingKey → key_of (option_map (λ k. k.now) key.entry) (R.state reader.now).uri ≡ None }
    ensures unserved { (e : ServeError) → result ≡ Err (errors.Serve e) → ⊥ }
{
    let name = match key {
        Some(key) => key,
        None => match reader.uri() {
            Some(uri) => uri,
            None => return Err(CachedError::MissingKey),
        },
    };
    match String::from_str(alloc, name) {
        Ok(name) => Ok(name),
        Err(_) => Err(CachedError::OutOfMemory),
    }
}

/// What was chosen, with the size, where that is given, and the footer, where that is kept. Only memory refuses.
fn knowing<C: SegmentCache>(
    alloc: Global,
    options: VortexOpenOptions<C>,
    kept: Option<Footer>,
    file_size: Option<u64>,
) -> Result<VortexOpenOptions<C>, AllocError>
    ensures options { IfOk result (λ o. o.options ≡ known_by kept file_size options.options) }
    ensures session { IfOk result (λ o. o.session ≡ options.session) }
    ensures cache { IfOk result (λ o. o.cache ≡ options.cache) }
{
    let sized = match file_size {
        Some(size) => options.with_file_size(size),
        None => options,
    };
    match kept {
        Some(footer) => sized.with_footer(alloc, footer),
        None => Ok(sized),
    }
}

impl MultiFileSession {
    /// Opens a file by what is known of it and the footer that is kept by a key, and keeps its footer by that key.
    fn open_kept<R: Reader, C: SegmentCache>(
        &mut self,
        alloc: Global,
        key: &str,
        reader: R,
        options: VortexOpenOptions<C>,
        file_size: Option<u64>,
    ) -> Result<VortexFile<SessionSource<R, C>>, CachedError>
        ensures opens { let hints = known_by (lookup (bytes_eq key.now) self.old) file_size options.options in
            IfOk result (λ f. OpensBy hints (R.state reader) (C.state options.cache) (record {
              footer = f.footer.content;
              metadata = f.metadata;
              session = f.source.session;
              reader = R.state f.source.reader;
              cache = C.state f.source.cache;
            })) }
        ensures session { IfOk result (λ f. f.session ≡ options.session) }
        ensures keeps { IfOk result (λ f. self.new ≡ kept_after key.now f.footer (promoted (bytes_eq key.now) self.old)) }
        ensures fails { let hints = known_by (lookup (bytes_eq key.now) self.old) file_size options.options in
            (e : ServeError) → result ≡ Err (errors.Serve e) → FailsBy hints (R.state reader) (C.state options.cache) e }
        ensures left { OnErr result ((self.new ≡ self.old) ⊎ (self.new ≡ promoted (bytes_eq key.now) self.old)) }
        ensures keyed { result ≡ Err errors.MissingKey → ⊥ }
    {
        let kept = match self.get_footer(alloc, key) {
            Ok(kept) => kept,
            Err(_) => return Err(CachedError::OutOfMemory),
        };
        let options = match knowing(alloc, options, kept, file_size) {
            Ok(options) => options,
            Err(_) => return Err(CachedError::OutOfMemory),
        };
        let file = match options.open_read(alloc, reader) {
            Ok(file) => file,
            Err(ServeError::OutOfMemory) => return Err(CachedError::OutOfMemory),
            Err(error) => return Err(CachedError::Serve(error)),
        };
        match self.put_footer(alloc, key, file.footer()) {
            Ok(()) => Ok(file),
            Err(_) => Err(CachedError::OutOfMemory),
        }
    }
}

/// Opens a file by its reader, and by the footer that is kept by its key, where one is: then nothing but metadata is
/// read. The key is the one that is given, or else the reader's name. The footer is kept by the key, in front. The
/// size and the footer count before what `options` chooses.
pub fn open_cached<
    R: Reader,
    C: SegmentCache,
    F: Fn(VortexOpenOptions<NoCache>) -> VortexOpenOptions<C>,
>(
    alloc: Global,
    session: &VortexSession,
    footers: &mut MultiFileSession,
    key: Option<&str>,
    reader: R,
    file_size: Option<u64>,
    options: F,
) -> Result<VortexFile<SessionSource<R, C>>, CachedError>
    requires { F.IsAlwaysCallable options }
    ensures opens { IfOk result (λ f. (name : _) × (plain : _) × (chosen : _) × F.post options plain chosen
        × (plain.options ≡ no_hints) × (plain.session ≡ session.now) × (f.session ≡ chosen.session)
        × (key_of (option_map (λ k. k.now) key.entry) (R.state reader).uri ≡ Some name)
        × (footers.new ≡ kept_after name f.footer (promoted (bytes_eq name) footers.old))
        × OpensBy (known_by (lookup (bytes_eq name) footers.old) file_size chosen.options) (R.state reader) (C.state chosen.cache) (record {
          footer = f.footer.content;
          metadata = f.metadata;
          session = f.source.session;
          reader = R.state f.source.reader;
          cache = C.state f.source.cache;
        })) }
    ensures fails { (e : ServeError) → result ≡ Err (errors.Serve e) → (name : _) × (plain : _) × (chosen : _) × F.post options plain chosen
        × (plain.options ≡ no_hints) × (plain.session ≡ session.now)
        × (key_of (option_map (λ k. k.now) key.entry) (R.state reader).uri ≡ Some name)
        × FailsBy (known_by (lookup (bytes_eq name) footers.old) file_size chosen.options) (R.state reader) (C.state chosen.cache) e }
    ensures missing { result ≡ Err errors.MissingKey → key_of (option_map (λ k. k.now) key.entry) (R.state reader).uri ≡ None }
    ensures left { OnErr result ((footers.new ≡ footers.old) ⊎ ((name : _) × (footers.new ≡ promoted (bytes_eq name) footers.old))) }
{
    let name = match key_for(alloc, key, &reader) {
        Ok(name) => name,
        Err(error) => return Err(error),
    };
    let plain = match session.open_options(alloc) {
        Ok(plain) => plain,
        Err(_) => return Err(CachedError::OutOfMemory),
    };
    let chosen = options(plain);
    footers.open_kept(alloc, name.as_str(), reader, chosen, file_size)
}

/// A kept footer that is the file's own opens it to the footer of its tail, without a read.
#[tactic(auto, using(crate::proofs::CachedLemmas::opens_the_same))]
pub fn kept_footer_opens_the_same()
    ensures { OpensTheSame }
{}
