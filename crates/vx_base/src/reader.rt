//! The trait of what is read at places.
ghost use Rattle.std.specs.Prelude.{◌≡◌, ◌≤◌, length};
ghost use Rattle.std.specs.Option.{option_copied};
ghost use Rattle.vx_base.specs.Readers.{ReaderState, SameReader, SizeCause, RangesCause, CloneCause};

use crate::{CloneError, Failed, RangeAnswer, ReadAtRequest};
use std::alloc::{AllocError, Global};

/// What is read at places, as a file. Its bytes never change.
pub trait Reader: Sized + Drop {
    // What the reader tells.
    ghost state: { Self → ReaderState };

    /// The number of bytes.
    fn size(&mut self) -> Result<u64, Failed>
        ensures cause { SizeCause (state self.old) (state self.new) result }
        ensures same { SameReader (state self.old) (state self.new) };

    /// Reads ranges. An answer names its range, and the answers come in any order.
    fn read_ranges(
        &mut self,
        alloc: Global,
        asked: &[ReadAtRequest],
    ) -> Result<Vec<RangeAnswer>, AllocError>
        requires some { 1 ≤ length asked.now }
        requires at_most { length asked.now ≤ (state self.old).concurrency }
        ensures cause { RangesCause asked.now (state self.old) (state self.new) result }
        ensures same { SameReader (state self.old) (state self.new) };

    /// How many bytes may lie between reads that are gathered into one. None: each read is asked alone.
    fn coalesce_distance(&self) -> Option<u64>
        ensures { result ≡ (state self.now).distance };

    /// The most bytes of a read that gathers several. None: no limit.
    fn max_read_size(&self) -> Option<u64>
        ensures { result ≡ (state self.now).max_read_size };

    /// The most ranges that one call may ask, at least one.
    fn concurrency(&self) -> usize
        ensures value { result ≡ (state self.now).concurrency }
        ensures some { 1 ≤ result };

    /// Where the bytes come from, if that has a name.
    fn uri(&self) -> Option<&str>
        ensures { option_copied result ≡ (state self.now).uri };

    /// Another reader of the same bytes, with an empty log and no faults.
    fn try_clone(&mut self, alloc: Global) -> Result<Self, CloneError>
        ensures cause { CloneCause state (state self.old) (state self.new) result }
        ensures same { SameReader (state self.old) (state self.new) };
}
