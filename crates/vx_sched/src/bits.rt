//! The bits of a word.
ghost use Rattle.std.specs.Prelude.{◌≡◌, ℕ, ◌<◌, ◌≤◌, ◌==◌, true, false, cond, IfSome, IfNone};
ghost use Rattle.std.specs.Int.{bit_at};

/// A word whose bit at a place is set or cleared.
#[inline(always)]
pub fn with_bit(word: u64, place: u64, is_set: bool) -> u64
    requires { place < 64 }
    ensures { (i : ℕ) → i < 64 → bit_at result i ≡ cond (place == i) (cond is_set 1 0) (bit_at word i) }
{
    let bit = 1u64 << place;
    if is_set { word | bit } else { word & !bit }
}

/// Whether the bit at a place is set.
#[inline(always)]
pub fn is_set(word: u64, place: u64) -> bool
    requires { place < 64 }
    ensures { result ≡ (bit_at word place == 1) }
{
    (word >> place) % 2 == 1
}

/// The least place from one on whose bit is set.
pub fn first_bit(word: u64, from: u64) -> Option<u64>
    requires { from < 64 }
    ensures set { IfSome result (λ place. bit_at word place ≡ 1) }
    ensures within { IfSome result (λ place. (from ≤ place) × (place < 64)) }
    ensures least { IfSome result (λ place. (i : ℕ) → from ≤ i → i < place → bit_at word i ≡ 0) }
    ensures none { IfNone result ((i : ℕ) → from ≤ i → bit_at word i ≡ 0) }
    ensures empty { IfNone result (from ≡ 0 → word ≡ 0) }
{
    let rest = word >> from;
    if rest == 0 {
        return None;
    }
    Some(from + rest.trailing_zeros() as u64)
}
