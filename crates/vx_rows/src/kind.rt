//! What the nodes of a predicate are.
ghost use Rattle.std.specs.Prelude.{◌≡◌};
ghost use Rattle.vx_data.specs.Dtype.{dtype_view};
ghost use Rattle.vx_data.specs.Scalar.{scalar_view};
ghost use Rattle.std.specs.Option.{option_map};
ghost use Rattle.vx_rows.specs.Columns.{is_signed as signed};
ghost use Rattle.vx_rows.specs.Written.{value_bits, is_within as within};
ghost use Rattle.vx_rows.specs.Binding.{kind_of as kind_by_type, is_of as of_type, lit_kind, holds_all as holds_each, int_kind, cast_kind};
ghost use Rattle.vx_rows.specs.Binding.{same_ptype as are_one, add_kinds, are_alike as alike, compare_kinds, logic_kind, logic_kinds};

use crate::BindError;
use vx_data::{DType, PType, Scalar};

/// What a node of a predicate is, without whether it may be null.
#[derive(Clone, Copy, Debug)]
pub enum Kind {
    Bool,
    Int(PType),
    Text,
    Struct,
}

/// How many bits a value of a type has, besides its sign.
fn bits_of(ptype: PType) -> u8
    ensures { result ≡ value_bits ptype }
{
    match ptype {
        PType::U8 => 8,
        PType::U16 => 16,
        PType::U32 => 32,
        PType::U64 => 64,
        PType::I8 => 7,
        PType::I16 => 15,
        PType::I32 => 31,
        PType::I64 => 63,
    }
}

/// Whether the values of a type have a sign.
fn has_sign(ptype: PType) -> bool
    ensures { result ≡ signed ptype }
{
    match ptype {
        PType::U8 | PType::U16 | PType::U32 | PType::U64 => false,
        PType::I8 | PType::I16 | PType::I32 | PType::I64 => true,
    }
}

/// Whether a number is in the range of a type.
#[inline(always)]
pub fn fits(ptype: PType, number: i128) -> bool
    ensures { result ≡ within ptype number }
{
    match ptype {
        PType::U8 => number >= 0 && number <= 0xff,
        PType::U16 => number >= 0 && number <= 0xffff,
        PType::U32 => number >= 0 && number <= 0xffff_ffff,
        PType::U64 => number >= 0 && number <= 0xffff_ffff_ffff_ffff,
        PType::I8 => number >= -0x80 && number <= 0x7f,
        PType::I16 => number >= -0x8000 && number <= 0x7fff,
        PType::I32 => number >= -0x8000_0000 && number <= 0x7fff_ffff,
        PType::I64 => number >= -0x8000_0000_0000_0000 && number <= 0x7fff_ffff_ffff_ffff,
    }
}

/// The kind of rows of a type.
pub fn kind_of_type(dtype: &DType) -> Kind
    ensures { result ≡ kind_by_type (dtype_view dtype.now) }
{
    match dtype {
        DType::Bool(_) => Kind::Bool,
        DType::Int(ptype, _) => Kind::Int(*ptype),
        DType::Text(_) => Kind::Text,
        DType::Struct(_, _) => Kind::Struct,
    }
}

/// Whether a value, or null, is one of a type that is no struct.
fn is_of_type(dtype: &DType, value: &Option<Scalar>) -> bool
    ensures { result ≡ of_type (dtype_view dtype.now) (option_map scalar_view value.now) }
{
    match dtype {
        DType::Bool(nullable) => match value {
            None => *nullable,
            Some(Scalar::Bool(_)) => true,
            Some(Scalar::Int(_)) | Some(Scalar::Text(_)) => false,
        },
        DType::Int(ptype, nullable) => match value {
            None => *nullable,
            Some(Scalar::Int(number)) => fits(*ptype, *number),
            Some(Scalar::Bool(_)) | Some(Scalar::Text(_)) => false,
        },
        DType::Text(nullable) => match value {
            None => *nullable,
            Some(Scalar::Text(_)) => true,
            Some(Scalar::Bool(_)) | Some(Scalar::Int(_)) => false,
        },
        DType::Struct(_, _) => false,
    }
}

/// The kind of a literal.
pub fn literal(dtype: &DType, value: &Option<Scalar>) -> Result<Kind, BindError>
    ensures { result ≡ lit_kind (dtype_view dtype.now) (option_map scalar_view value.now) }
{
    if !is_of_type(dtype, value) {
        return Err(BindError::TypeMismatch);
    }
    Ok(kind_of_type(dtype))
}

/// Whether each value of a type is one of a wider type.
fn holds_all(wide: PType, narrow: PType) -> bool
    ensures { result ≡ holds_each wide narrow }
{
    (has_sign(wide) || !has_sign(narrow)) && bits_of(narrow) <= bits_of(wide)
}

fn cast_to_int(to: PType, kind: Kind) -> Result<Kind, BindError>
    ensures { result ≡ int_kind to kind }
{
    match kind {
        Kind::Int(from) => {
            if !holds_all(to, from) {
                return Err(BindError::NarrowingCast);
            }
            Ok(Kind::Int(to))
        }
        Kind::Bool | Kind::Text | Kind::Struct => Err(BindError::TypeMismatch),
    }
}

/// The kind of a cast.
pub fn cast(dtype: &DType, kind: Kind) -> Result<Kind, BindError>
    ensures { result ≡ cast_kind (dtype_view dtype.now) kind }
{
    match dtype {
        DType::Int(ptype, _) => cast_to_int(*ptype, kind),
        DType::Bool(_) | DType::Text(_) | DType::Struct(_, _) => Err(BindError::TypeMismatch),
    }
}

/// Whether two types of integers are one.
fn is_same_type(a: PType, b: PType) -> bool
    ensures { result ≡ are_one a b }
{
    bits_of(a) == bits_of(b)
}

/// The kind of a sum.
pub fn sum(a: Kind, b: Kind) -> Result<Kind, BindError>
    ensures { result ≡ add_kinds a b }
{
    match (a, b) {
        (Kind::Int(p), Kind::Int(q)) => {
            if !is_same_type(p, q) {
                return Err(BindError::TypeMismatch);
            }
            Ok(Kind::Int(p))
        }
        _ => Err(BindError::TypeMismatch),
    }
}

fn are_alike(a: Kind, b: Kind) -> bool
    ensures { result ≡ alike a b }
{
    match (a, b) {
        (Kind::Bool, Kind::Bool) => true,
        (Kind::Int(p), Kind::Int(q)) => is_same_type(p, q),
        (Kind::Text, Kind::Text) => true,
        _ => false,
    }
}

/// The kind of a comparison.
pub fn comparison(a: Kind, b: Kind) -> Result<Kind, BindError>
    ensures { result ≡ compare_kinds a b }
{
    if !are_alike(a, b) {
        return Err(BindError::TypeMismatch);
    }
    Ok(Kind::Bool)
}

/// The kind of what is to be a truth value.
pub fn logic(kind: Kind) -> Result<Kind, BindError>
    ensures { result ≡ logic_kind kind }
{
    match kind {
        Kind::Bool => Ok(Kind::Bool),
        Kind::Int(_) | Kind::Text | Kind::Struct => Err(BindError::TypeMismatch),
    }
}

/// The kind of a conjunction or a disjunction.
pub fn logic_of_two(a: Kind, b: Kind) -> Result<Kind, BindError>
    ensures { result ≡ logic_kinds a b }
{
    logic(a)?;
    logic(b)
}
