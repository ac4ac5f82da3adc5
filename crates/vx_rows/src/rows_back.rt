//! The law by which rows that were printed are read again.
ghost use Rattle.std.specs.Prelude.{◌≡◌, ℕ, List, Ok};
ghost use Rattle.std.specs.List.{flat_map};
ghost use Rattle.vx_data.specs.Dtype.{Dtype};
ghost use Rattle.vx_rows.specs.Rows.{Rows, IsColumn, dtype_of};
ghost use Rattle.vx_rows.specs.ValueTexts.{lines_text};
ghost use Rattle.vx_rows.specs.ReadRows.{lines_of, rows_of};
ghost use Rattle.vx_rows.specs.PrintedRows.{HidesNothing, fed};

/// The rows that a column prints are read as the same column, where fields of a struct that is null have the
/// rows that are read there. What is read prints the lines that it was read from.
#[tactic(auto, using(crate::proofs::PrintedBackLemmas::printed_again, crate::proofs::ReadOnlyLemmas::read_only))]
pub fn printed_rows_are_read()
    ensures again { (c : Rows) (n : ℕ) → IsColumn n c → HidesNothing c → rows_of (dtype_of c) (lines_text c) ≡ Ok c }
    ensures only { (d : Dtype) (t : List ℕ) (c : Rows) → rows_of d t ≡ Ok c → lines_text c ≡ flat_map fed (lines_of t) }
{}
