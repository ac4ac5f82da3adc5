//! The law by which what was written is read again.
ghost use Rattle.std.specs.Prelude.{◌≡◌, List, ℕ, Ok};
ghost use Rattle.vx_data.specs.Dtype.{Dtype};
ghost use Rattle.vx_data.specs.DtypeTable.{dtype_checks};
ghost use Rattle.vx_data.specs.DtypeWritten.{HasTexts, dtype_written};

/// A type that was written is read again.
#[tactic(auto, using(crate::proofs::DtypeBack::written_back))]
pub fn written_dtype_is_read()
    ensures { (d : Dtype) (bytes : List ℕ) → HasTexts d → dtype_written d ≡ Ok bytes → dtype_checks bytes ≡ Ok d }
{}
