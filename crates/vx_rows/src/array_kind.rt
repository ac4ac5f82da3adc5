//! Kinds of arrays.
ghost use Rattle.std.specs.Prelude.{◌≡◌, map, string_bytes, IfOk};
ghost use Rattle.vx_rows.specs.Trees.{kind_of, same_kind};

use std::alloc::{AllocError, Global};

/// What an array id names.
#[derive(Clone, Copy, Debug)]
pub enum ArrayKind {
    Bools,
    Integers,
    Texts,
    Structs,
    Unknown,
}

/// The kind that an id names.
fn kind_named(id: &str) -> ArrayKind
    ensures { result ≡ kind_of id.now }
{
    if id == "vortex.bool" {
        return ArrayKind::Bools;
    }
    if id == "vortex.primitive" {
        return ArrayKind::Integers;
    }
    if id == "vortex.varbin" {
        return ArrayKind::Texts;
    }
    if id == "vortex.struct" {
        return ArrayKind::Structs;
    }
    ArrayKind::Unknown
}

/// Whether two kinds are one.
pub fn is_same(a: ArrayKind, b: ArrayKind) -> bool
    ensures { result ≡ same_kind a b }
{
    match (a, b) {
        (ArrayKind::Bools, ArrayKind::Bools) => true,
        (ArrayKind::Integers, ArrayKind::Integers) => true,
        (ArrayKind::Texts, ArrayKind::Texts) => true,
        (ArrayKind::Structs, ArrayKind::Structs) => true,
        (ArrayKind::Unknown, ArrayKind::Unknown) => true,
        _ => false,
    }
}

/// The kinds that ids name, in order.
pub fn kinds_of(alloc: Global, ids: &[String]) -> Result<Vec<ArrayKind>, AllocError>
    ensures { IfOk result (λ kinds. kinds.items ≡ map kind_of (map string_bytes ids.now)) }
{
    let mut kinds = Vec::new(alloc);
    for id in ids {
        kinds.push(kind_named(id.as_str()))?;
    }
    Ok(kinds)
}
