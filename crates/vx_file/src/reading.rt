//! Reads one range.
ghost use Rattle.std.specs.Prelude.{◌≡◌, ◌+◌, ◌≤◌, ◌∷◌, [], ℕ, List, length, Some, true, IfOk, OnErr};
ghost use Rattle.vx_base.specs.Asking.{GrewOrStayed};
ghost use Rattle.vx_base.specs.Readers.{SameReader};
ghost use Rattle.vx_file.specs.Logs.{ReadsRange};

use std::alloc::{AllocError, Global};
use vx_base::{ByteBuffer, ReadAtRequest, Reader};
use vx_sched::{Fault, Outcome, ask};

/// The bytes of one range, or its fault. Only memory refuses.
pub(crate) fn read_range<R: Reader>(
    alloc: Global,
    reader: &mut R,
    range: ReadAtRequest,
) -> Result<Result<ByteBuffer, Fault>, AllocError>
    ensures read { IfOk result (ReadsRange range (R.state reader.old) (R.state reader.new)) }
    ensures memory { OnErr result (GrewOrStayed (range ∷ []) (R.state reader.old).log (R.state reader.new).log) }
    ensures steady { (file : List ℕ) → (R.state reader.old).never_fails ≡ true → (R.state reader.old).bytes ≡ Some file →
        range.offset + range.length ≤ length file → (R.state reader.new).faults ≡ (R.state reader.old).faults }
    ensures same { SameReader (R.state reader.old) (R.state reader.new) }
{
    let most = reader.concurrency();
    prove!(most >= 1);
    let mut outcomes = ask(alloc, reader, &[range])?;
    match outcomes.pop() {
        Some(Outcome::Bytes(buffer)) => Ok(Ok(buffer)),
        Some(Outcome::Fault(fault)) => Ok(Err(fault)),
        _ => unreachable!(),
    }
}
