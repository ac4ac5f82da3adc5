//! Fields of types by their names.
ghost use Rattle.std.specs.Prelude.{◌≡◌, map, string_bytes};
ghost use Rattle.vx_data.specs.Dtype.{dtype_view, pairs_view};
ghost use Rattle.vx_rows.specs.Binding.{place_from, place, type_at};
ghost use Rattle.vx_rows.specs.Lent.{lent_place, lent_type};

use vx_data::DType;

/// The first field of a name: its place and type.
fn find<'a>(fields: &'a [(String, DType)], name: &str) -> Option<(usize, &'a DType)>
    ensures { lent_place result ≡ place_from 0 name.now (pairs_view fields.now) }
{
    for at in 0..fields.len() {
        let field = &fields[at];
        if field.0.as_str() == name {
            return Some((at, &field.1));
        }
    }
    None
}

/// The first field of a name of a type: its place and type. A type that is no struct has none.
pub fn place_of_field<'a>(dtype: &'a DType, name: &str) -> Option<(usize, &'a DType)>
    ensures { lent_place result ≡ place name.now (dtype_view dtype.now) }
{
    match dtype {
        DType::Struct(fields, _) => find(fields.as_slice(), name),
        DType::Bool(_) | DType::Int(_, _) | DType::Text(_) => None,
    }
}

/// The type of the field that names lead to.
pub fn type_of_field<'a>(dtype: &'a DType, names: &[String]) -> Option<&'a DType>
    ensures { lent_type result ≡ type_at (map string_bytes names.now) (dtype_view dtype.now) }
{
    let mut here = dtype;
    for name in names {
        match place_of_field(here, name.as_str()) {
            Some((_, inner)) => here = inner,
            None => return None,
        }
    }
    Some(here)
}
