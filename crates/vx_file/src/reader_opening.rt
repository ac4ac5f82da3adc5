//! Opens files by their readers.
ghost use Rattle.std.specs.Prelude.{◌≡◌, ℕ, [], List, Err, IfOk};
ghost use Rattle.vx_base.specs.Readers.{settings_of};
ghost use Rattle.vx_source.specs.Bytes.{IsEnd, HasBytes};
ghost use Rattle.vx_source.specs.Kept.{tail_start};
ghost use Rattle.vx_source.specs.Stands.{AreFit, Stands};
ghost use Rattle.vx_file.specs.OpenRead.{OpensBy, FailsBy};
ghost use Rattle.vx_file.specs.Plans.{table_world};
ghost use Rattle.vx_file.specs.declared.served.ServeError.{ServeError};

use crate::prepared::{Prepared, prepare, session_of};
use crate::{ServeError, VortexFile, VortexOpenOptions};
use std::alloc::{AllocError, Global};
use vx_base::{Reader, SegmentCache, SegmentSpec};
use vx_source::{SessionSource, Tail};

/// The segments of a file, by a reader, over the tail that was read of it, if one was.
fn source_of<R: Reader, C: SegmentCache>(
    alloc: Global,
    reader: R,
    cache: C,
    tail: Option<Tail>,
    segments: &[SegmentSpec],
) -> Result<SessionSource<R, C>, AllocError>
    requires { AreFit segments.now tail }
    ensures reader { IfOk result (λ source. source.reader ≡ reader) }
    ensures cache { IfOk result (λ source. source.cache ≡ cache) }
    ensures stands { IfOk result (λ source. Stands (table_world segments.now (settings_of (R.state reader)) (tail_start tail)) [] source.session) }
    ensures bytes { IfOk result (λ source. (file : List ℕ) → IsEnd file tail → HasBytes file source.session) }
{
    let session = session_of(alloc, &reader, tail, segments)?;
    Ok(SessionSource::new(session, reader, cache))
}

impl<C: SegmentCache> VortexOpenOptions<C> {
    /// Opens a file by a reader of it, which then reads its segments; the cache is given those that the tail covers.
    /// Where the values of the metadata are asked for, they are loaded in a session of their own.
    pub fn open_read<R: Reader>(
        self,
        alloc: Global,
        reader: R,
    ) -> Result<VortexFile<SessionSource<R, C>>, ServeError>
        ensures opens { IfOk result (λ f. OpensBy self.options (R.state reader) (C.state self.cache) (record {
          footer = f.footer.content;
          metadata = f.metadata;
          session = f.source.session;
          reader = R.state f.source.reader;
          cache = C.state f.source.cache;
        })) }
        ensures fails { (e : ServeError) → result ≡ Err e → FailsBy self.options (R.state reader) (C.state self.cache) e }
        ensures session { IfOk result (λ f. f.session ≡ self.session) }
    {
        let VortexOpenOptions {
            session,
            options,
            cache,
        } = self;
        let mut reader = reader;
        let mut cache = cache;
        let prepared = match prepare(alloc, &options, &mut reader, &mut cache) {
            Ok(prepared) => prepared,
            Err(error) => return Err(error),
        };
        let Prepared {
            footer,
            tail,
            opening: _opening,
            metadata,
        } = prepared;
        let segments = footer.segment_specs_with_metadata();
        let source = match source_of(alloc, reader, cache, tail, segments) {
            Ok(source) => source,
            Err(_) => return Err(ServeError::OutOfMemory),
        };
        Ok(VortexFile::new(footer, source, session).with_metadata(metadata))
    }

    /// The same as `open_read`.
    pub fn open<R: Reader>(
        self,
        alloc: Global,
        reader: R,
    ) -> Result<VortexFile<SessionSource<R, C>>, ServeError>
        ensures opens { IfOk result (λ f. OpensBy self.options (R.state reader) (C.state self.cache) (record {
          footer = f.footer.content;
          metadata = f.metadata;
          session = f.source.session;
          reader = R.state f.source.reader;
          cache = C.state f.source.cache;
        })) }
        ensures fails { (e : ServeError) → result ≡ Err e → FailsBy self.options (R.state reader) (C.state self.cache) e }
        ensures session { IfOk result (λ f. f.session ≡ self.session) }
    {
        self.open_read(alloc, reader)
    }
}
