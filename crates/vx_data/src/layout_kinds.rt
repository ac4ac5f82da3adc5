//! The layout ids that are known, and whether a tree uses no others.
ghost use Rattle.std.specs.Prelude.{◌≡◌, IfOk, map, string_bytes};
ghost use Rattle.vx_data.specs.LayoutTable.{kind_of_id, kind_at as kind_in};

use crate::LayoutKind;
use std::alloc::{AllocError, Global};

/// The kind of layout that an id names, where it is known.
pub(crate) fn kind_of(id: &str) -> Option<LayoutKind>
    ensures { result ≡ kind_of_id id.now }
{
    if id == "vortex.flat" {
        return Some(LayoutKind::Flat);
    }
    if id == "vortex.chunked" {
        return Some(LayoutKind::Chunked);
    }
    if id == "vortex.struct" {
        return Some(LayoutKind::Struct);
    }
    None
}

/// The kinds that the ids name.
pub(crate) fn kinds_of(alloc: Global, ids: &[String]) -> Result<Vec<Option<LayoutKind>>, AllocError>
    ensures { IfOk result (λ kinds. kinds.items ≡ map kind_of_id (map string_bytes ids.now)) }
{
    let mut kinds = Vec::new(alloc);
    for id in ids {
        kinds.push(kind_of(id.as_str()))?;
    }
    Ok(kinds)
}

/// The kind at a place.
pub(crate) fn kind_at(kinds: &[Option<LayoutKind>], encoding: u16) -> Option<LayoutKind>
    ensures { result ≡ kind_in kinds.now encoding }
{
    match kinds.get(encoding as usize) {
        Some(kind) => *kind,
        None => None,
    }
}
