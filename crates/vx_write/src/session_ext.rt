//! Sessions write files.
ghost use Rattle.std.specs.Prelude.{◌≡◌, IfOk};
ghost use Rattle.vx_data.specs.Session.{Session};
ghost use Rattle.vx_write.specs.Options.{default_options};

use crate::VortexWriteOptions;
use std::alloc::{AllocError, Global};
use vx_data::VortexSession;

/// Sessions write files.
pub trait WriteOptionsSessionExt: Sized {
    // What the session is.
    ghost writes_with: { Self → Session };

    /// Options as a file is written by default. Only memory refuses.
    fn write_options(&self, alloc: Global) -> Result<VortexWriteOptions, AllocError>
        ensures { IfOk result (λ o. o ≡ default_options (writes_with self.now)) };
}

impl WriteOptionsSessionExt for VortexSession {
    ghost writes_with = { λ s. s };

    fn write_options(&self, alloc: Global) -> Result<VortexWriteOptions, AllocError> {
        VortexWriteOptions::new(alloc, self.share(alloc)?)
    }
}
