//! The laws by which texts that were printed are read again.
ghost use Rattle.std.specs.Prelude.{◌≡◌, ◌≤◌, List, ℕ, Some, true};
ghost use Rattle.std.specs.Str.{is_utf8};
ghost use Rattle.vx_data.specs.Dtype.{Dtype};
ghost use Rattle.vx_data.specs.DtypeWritten.{HasTexts, levels_of};
ghost use Rattle.vx_data.specs.Texts.{quoted, dtype_text};
ghost use Rattle.vx_data.specs.TextsRead.{unquoted, dtype_of_text};

/// Quoted text is read again, and what is read is quoted so.
#[tactic(auto, using(crate::proofs::QuotedBack::quoted_again))]
pub fn quoted_text_is_read()
    ensures again { (x : List ℕ) → is_utf8 x ≡ true → unquoted (quoted x) ≡ Some x }
    ensures only { (t x : List ℕ) → unquoted t ≡ Some x → (quoted x ≡ t) × (is_utf8 x ≡ true) }
{}

/// The text of a type is read again, and what is read has that text.
#[tactic(auto, using(crate::proofs::TypesBack::dtype_again))]
pub fn dtype_text_is_read()
    ensures again { (d : Dtype) → HasTexts d → levels_of d ≤ 64 → dtype_of_text (dtype_text d) ≡ Some d }
    ensures only { (t : List ℕ) (d : Dtype) → dtype_of_text t ≡ Some d → (dtype_text d ≡ t) × HasTexts d × (levels_of d ≤ 64) }
{}
