//! The laws of parts of columns, and of columns behind one another.
ghost use Rattle.std.specs.Prelude.{◌≡◌, ◌≤◌, ◌+◌, ◌-◌, ℕ};
ghost use Rattle.vx_rows.specs.Rows.{Rows, HasRows, IsColumn, dtype_of};
ghost use Rattle.vx_rows.specs.Parts.{part, appended};

/// A column is its first rows and, behind them, its others. A part of a part is one of the whole. Parts of a column,
/// and columns of one type behind one another, are columns of that type.
#[tactic(auto, using(crate::proofs::ColumnLaws::part_laws))]
pub fn parts_are_columns()
    ensures again { (c : Rows) (n k : ℕ) → k ≤ n → HasRows n c → appended (part 0 k c) (part k n c) ≡ c }
    ensures front { (c d : Rows) (n : ℕ) → HasRows n c → part 0 n (appended c d) ≡ c }
    ensures inner { (c : Rows) (a b from to : ℕ) → from ≤ to → to ≤ b - a → part from to (part a b c) ≡ part (a + from) (a + to) c }
    ensures typed { (c : Rows) (from to : ℕ) → dtype_of (part from to c) ≡ dtype_of c }
    ensures same { (c d : Rows) → dtype_of (appended c d) ≡ dtype_of c }
    ensures cut { (c : Rows) (n from to : ℕ) → from ≤ to → to ≤ n → IsColumn n c → IsColumn (to - from) (part from to c) }
    ensures joined { (c d : Rows) (n m : ℕ) → dtype_of c ≡ dtype_of d → IsColumn n c → IsColumn m d → IsColumn (n + m) (appended c d) }
{}
