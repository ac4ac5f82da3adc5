//! The names of all fields of a type are texts.
ghost use Rattle.vx_data.specs.Dtype.{dtype_view, fields_view, pairs_view};
ghost use Rattle.vx_data.specs.DtypeWritten.{HasTexts, HaveTexts};

use vx_data::{DType, Fields};

#[cycle(naming)]
#[tactic(auto, using(crate::proofs::LayingTurns::field_size))]
fn all_have_texts(fields: &[(String, DType)])
    ensures { HaveTexts (pairs_view fields.now) }
{
    for at in 0..fields.len() {
        let field = &fields[at];
        has_texts(&field.1);
    }
}

#[cycle(naming)]
fn fields_have_texts(fields: &Fields)
    ensures { HaveTexts (fields_view fields.now) }
{
    all_have_texts(fields.as_slice())
}

/// The names in a type are texts.
#[cycle(naming)]
pub(crate) fn has_texts(dtype: &DType)
    ensures { HasTexts (dtype_view dtype.now) }
{
    match dtype {
        DType::Struct(fields, _) => fields_have_texts(fields),
        DType::Bool(_) | DType::Int(_, _) | DType::Text(_) => {}
    }
}
