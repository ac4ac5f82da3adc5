//! The order of values.
ghost use Rattle.std.specs.Prelude.{◌≡◌};
ghost use Rattle.vx_data.specs.Scalar.{scalar_view};
ghost use Rattle.vx_prune.specs.Never.{rank, as_number, as_words, value_cmp};

use std::cmp::Ordering;
use vx_data::Scalar;

fn rank_of(value: &Scalar) -> u8
    ensures { result ≡ rank (scalar_view value.now) }
{
    match value {
        Scalar::Bool(_) => 0,
        Scalar::Int(_) => 1,
        Scalar::Text(_) => 2,
    }
}

fn number_of(value: &Scalar) -> i128
    ensures { result ≡ as_number (scalar_view value.now) }
{
    match value {
        Scalar::Bool(true) => 1,
        Scalar::Bool(false) => 0,
        Scalar::Int(number) => *number,
        Scalar::Text(_) => 0,
    }
}

fn text_of(value: &Scalar) -> &str
    ensures { result.now ≡ as_words (scalar_view value.now) }
{
    match value {
        Scalar::Bool(_) | Scalar::Int(_) => "",
        Scalar::Text(text) => text.as_str(),
    }
}

/// The order of two values: truth values, then numbers, then texts by their bytes.
pub fn order(a: &Scalar, b: &Scalar) -> Ordering
    ensures { result ≡ value_cmp (scalar_view a.now) (scalar_view b.now) }
{
    let values = number_of(a).cmp(&number_of(b));
    let texts = text_of(a).cmp(text_of(b));
    rank_of(a).cmp(&rank_of(b)).then(values.then(texts))
}
