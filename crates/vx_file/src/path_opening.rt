//! Opens files by their names.
ghost use Rattle.std.specs.Prelude.{◌≡◌, ◌⊎◌, Err, IfOk};
ghost use Rattle.vx_base.specs.Counts.{Rises};
ghost use Rattle.vx_base.specs.Openers.{AsksFor, SameOpener};
ghost use Rattle.vx_file.specs.OpenRead.{OpensPath, FailsPath};
ghost use Rattle.vx_file.specs.declared.served.ServeError.{ServeError};
ghost use Rattle.vx_file.specs.declared.path_opening.OpenPathError.TheVariants as errors;

use crate::{ServeError, VortexFile, VortexOpenOptions};
use std::alloc::Global;
use thiserror::Error;
use vx_base::{Opener, OpenerError, SegmentCache};
use vx_source::SessionSource;

/// Why the file of a name was not opened.
#[derive(Clone, Copy, Debug, PartialEq, Eq, Error)]
pub enum OpenPathError {
    /// The name could not be opened.
    #[error("the file could not be opened")]
    Opener,
    /// The file was refused, or could not be read.
    #[error("{0}")]
    Serve(ServeError),
    /// Memory ran out.
    #[error("out of memory")]
    OutOfMemory,
}

impl<C: SegmentCache> VortexOpenOptions<C> {
    /// Opens the file of a name, by a reader of its own.
    pub fn open_path<F: Opener>(
        self,
        alloc: Global,
        files: &mut F,
        path: &str,
    ) -> Result<VortexFile<SessionSource<F::Reader, C>>, OpenPathError>
        ensures opens { IfOk result (λ f. OpensPath self.options path.now (F.state files.old) (F.state files.new) (C.state self.cache) (record {
          footer = f.footer.content;
          metadata = f.metadata;
          session = f.source.session;
          reader = F.Reader.state f.source.reader;
          cache = C.state f.source.cache;
        })) }
        ensures opener { result ≡ Err errors.Opener → AsksFor path.now (F.state files.old) (F.state files.new)
            × Rises 1 (F.state files.old).faults (F.state files.new).faults }
        ensures fails { (e : ServeError) → result ≡ Err (errors.Serve e)
            → FailsPath self.options path.now (F.state files.old) (F.state files.new) (C.state self.cache) e }
        ensures memory { result ≡ Err errors.OutOfMemory → AsksFor path.now (F.state files.old) (F.state files.new)
            ⊎ ((F.state files.new).asked ≡ (F.state files.old).asked) }
        ensures session { IfOk result (λ f. f.session ≡ self.session) }
        ensures same { SameOpener (F.state files.old) (F.state files.new) }
    {
        let reader = match files.open_named(alloc, path) {
            Ok(reader) => reader,
            Err(OpenerError::Failed) => return Err(OpenPathError::Opener),
            Err(OpenerError::OutOfMemory) => return Err(OpenPathError::OutOfMemory),
        };
        match self.open_read(alloc, reader) {
            Ok(file) => Ok(file),
            Err(ServeError::OutOfMemory) => Err(OpenPathError::OutOfMemory),
            Err(error) => Err(OpenPathError::Serve(error)),
        }
    }
}
