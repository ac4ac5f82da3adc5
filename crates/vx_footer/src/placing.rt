//! Places at multiples of an alignment.
ghost use Rattle.std.specs.Prelude.{◌≡◌, ◌+◌, ◌%◌, ◌^◌, ◌<◌};
ghost use Rattle.vx_footer.specs.Placing.{padding as zeros_to};

use vx_base::Alignment;

/// How many zeros lead from an offset to the next multiple of the alignment.
#[tactic(auto, using(crate::proofs::PaddingLemmas::some))]
pub fn padding(alignment: Alignment, offset: u64) -> u64
    ensures value { result ≡ zeros_to alignment offset }
    ensures few { result < 65536 }
    ensures aligned { (offset + result) % 2 ^ alignment ≡ 0 }
{
    let size = alignment.as_u64();
    (size - offset % size) % size
}
