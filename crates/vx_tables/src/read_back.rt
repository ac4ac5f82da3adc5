//! The laws by which what was written is read again.
ghost use Rattle.std.specs.Prelude.{◌≡◌, ◌<◌, ◌^◌, true, length, List, ℕ};
ghost use Rattle.vx_tables.specs.Block.{Piece as WrittenPiece, in_order, root_bytes};
ghost use Rattle.vx_tables.specs.Field.{Table, root};
ghost use Rattle.vx_tables.specs.Standing.{IsTableAt, Stands, ReadsBack};

/// A reader finds the table in the bytes of its root.
#[tactic(auto, using(crate::proofs::ReadTexts::root_back))]
pub fn written_root_is_found()
    ensures { (ps : List WrittenPiece) → in_order 0 ps ≡ true → length (root_bytes ps) < 2 ^ 32 → IsTableAt (root_bytes ps) (root (root_bytes ps)) ps }
{}

/// Where a table that was written stands, each of its fields is read back; so is each table below it,
/// since it stands there too.
#[tactic(auto, using(crate::proofs::ReadAll::reads_back))]
pub fn written_is_read_back()
    ensures { (b : List ℕ) (t : Table) (ps : List WrittenPiece) → Stands b t ps → ReadsBack b t ps }
{}
