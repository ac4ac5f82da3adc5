//! What holds of every history that a session stands for.
ghost use Rattle.std.specs.Prelude.{◌≡◌, ℕ, List, Some, true, false};
ghost use Rattle.vx_sched.specs.Law.{Keeps};
ghost use Rattle.vx_source.specs.Events.{events};
ghost use Rattle.vx_source.specs.Fits.{World};
ghost use Rattle.vx_source.specs.History.{Moment, is_live, read_of, segment_of, outcome_of, is_bad, joinable};
ghost use Rattle.vx_source.specs.Kept.{Kept};
ghost use Rattle.vx_source.specs.Stands.{Stands};

/// The scheduling law holds of the events of the history: so no read stands in two spans. And a register joins
/// the read of a live number of its segment that did not fail, if there is one, and no other.
pub fn law_of_sessions()
    ensures keeps { (w : World) (past : List Moment) (k : Kept) → Stands w past k → Keeps w.idle (events w past) }
    ensures joins { (w : World) (past : List Moment) (k : Kept) → Stands w past k → (n r s : ℕ) →
        is_live past n ≡ true → read_of past n ≡ Some r → segment_of past n ≡ Some s → is_bad (outcome_of past r) ≡ false → joinable past s ≡ Some r }
    ensures others { (w : World) (past : List Moment) (k : Kept) → Stands w past k → (r s : ℕ) → joinable past s ≡ Some r →
        (n : ℕ) × ((is_live past n ≡ true) × (read_of past n ≡ Some r) × (segment_of past n ≡ Some s) × (is_bad (outcome_of past r) ≡ false)) }
{}
