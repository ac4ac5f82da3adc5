//! Whether two predicates are the same.
ghost use Rattle.std.specs.Prelude.{◌≡◌, true};
ghost use Rattle.std.specs.Option.{option_map};
ghost use Rattle.vx_data.specs.Dtype.{dtype_view};
ghost use Rattle.vx_data.specs.Scalar.{scalar_view};
ghost use Rattle.vx_rows.specs.Predicates.{pred_view};

use vx_data::{DType, FieldPath, PType, Scalar};
use vx_rows::{Comparison, Predicate};

/// Whether two types are the same. Structs are not looked into.
fn is_same_type(a: &DType, b: &DType) -> bool
    ensures { result ≡ true → dtype_view a.now ≡ dtype_view b.now }
{
    match a {
        DType::Bool(nullable) => match b {
            DType::Bool(other) => *nullable == *other,
            DType::Int(_, _) | DType::Text(_) | DType::Struct(_, _) => false,
        },
        DType::Int(ptype, nullable) => match b {
            DType::Int(kind, other) => *ptype == *kind && *nullable == *other,
            DType::Bool(_) | DType::Text(_) | DType::Struct(_, _) => false,
        },
        DType::Text(nullable) => match b {
            DType::Text(other) => *nullable == *other,
            DType::Bool(_) | DType::Int(_, _) | DType::Struct(_, _) => false,
        },
        DType::Struct(_, _) => false,
    }
}

/// Whether two values are the same.
fn is_same_value(a: &Scalar, b: &Scalar) -> bool
    ensures { result ≡ true → scalar_view a.now ≡ scalar_view b.now }
{
    match a {
        Scalar::Bool(x) => match b {
            Scalar::Bool(y) => *x == *y,
            Scalar::Int(_) | Scalar::Text(_) => false,
        },
        Scalar::Int(x) => match b {
            Scalar::Int(y) => *x == *y,
            Scalar::Bool(_) | Scalar::Text(_) => false,
        },
        Scalar::Text(x) => match b {
            Scalar::Text(y) => x.as_str() == y.as_str(),
            Scalar::Bool(_) | Scalar::Int(_) => false,
        },
    }
}

/// Whether two literals are the same.
fn is_same_literal(a: &Option<Scalar>, b: &Option<Scalar>) -> bool
    ensures { result ≡ true → option_map scalar_view a.now ≡ option_map scalar_view b.now }
{
    match a {
        Some(x) => match b {
            Some(y) => is_same_value(x, y),
            None => false,
        },
        None => match b {
            Some(_) => false,
            None => true,
        },
    }
}

/// Whether two paths are the same.
#[tactic(auto, using(crate::proofs::SameNames::same_names))]
fn is_same_path(a: &FieldPath, b: &FieldPath) -> bool
    ensures { result ≡ true → a.now ≡ b.now }
{
    a == b
}

fn is_same_comparison(a: Comparison, b: Comparison) -> bool
    ensures { result ≡ true → a ≡ b }
{
    a == b
}

/// Whether two predicates are the same, node by node. Types of structs are not looked into, so that a predicate
/// with one is no other.
#[cycle(same)]
pub(crate) fn is_same(a: &Predicate, b: &Predicate) -> bool
    ensures { result ≡ true → pred_view a.now ≡ pred_view b.now }
{
    match a {
        Predicate::Lit(d, x) => match b {
            Predicate::Lit(e, y) => is_same_type(d, e) && is_same_literal(x, y),
            _ => false,
        },
        Predicate::Root => match b {
            Predicate::Root => true,
            _ => false,
        },
        Predicate::Field(x) => match b {
            Predicate::Field(y) => is_same_path(x, y),
            _ => false,
        },
        Predicate::Cast(d, p) => match b {
            Predicate::Cast(e, q) => is_same_type(d, e) && is_same(p, q),
            _ => false,
        },
        Predicate::Add(p, q) => match b {
            Predicate::Add(r, s) => is_same(p, r) && is_same(q, s),
            _ => false,
        },
        Predicate::Compare(op, p, q) => match b {
            Predicate::Compare(other, r, s) => {
                is_same_comparison(*op, *other) && is_same(p, r) && is_same(q, s)
            }
            _ => false,
        },
        Predicate::And(p, q) => match b {
            Predicate::And(r, s) => is_same(p, r) && is_same(q, s),
            _ => false,
        },
        Predicate::Or(p, q) => match b {
            Predicate::Or(r, s) => is_same(p, r) && is_same(q, s),
            _ => false,
        },
        Predicate::Not(p) => match b {
            Predicate::Not(q) => is_same(p, q),
            _ => false,
        },
        Predicate::IsNull(p) => match b {
            Predicate::IsNull(q) => is_same(p, q),
            _ => false,
        },
        Predicate::NotNull(p) => match b {
            Predicate::NotNull(q) => is_same(p, q),
            _ => false,
        },
    }
}
