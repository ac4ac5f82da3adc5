//! The ids that a layout uses.
ghost use Rattle.std.specs.Prelude.{◌≡◌, ◌≤◌, IfOk, OnOk, true, length, map, string_bytes};
ghost use Rattle.vx_data.specs.Layout.{layouts_of};
ghost use Rattle.vx_data.specs.LayoutWritten.{has_id as is_among, uses_ids};
ghost use Rattle.vx_data.specs.LayoutIds.{with_id, ids_behind, all_behind, used_ids};

use crate::Layout;
use crate::layout_table::name_of;
use std::alloc::{AllocError, Global};

/// Whether an id is among others.
fn has_id(ids: &[String], id: &str) -> bool
    ensures { result ≡ is_among (map string_bytes ids.now) id.now }
{
    for other in ids {
        if other.as_str() == id {
            return true;
        }
    }
    false
}

/// Adds an id, unless it is there.
fn push_id(alloc: Global, ids: &mut Vec<String>, id: &str) -> Result<(), AllocError>
    ensures { OnOk result (map string_bytes ids.new.items ≡ with_id (map string_bytes ids.old.items) id.now) }
{
    if has_id(ids, id) {
        return Ok(());
    }
    ids.push(String::from_str(alloc, id)?)?;
    Ok(())
}

/// Adds the ids of layouts that are not there.
#[cycle(naming)]
#[tactic(auto, using(crate::proofs::LayoutUses::id_steps))]
fn push_all(alloc: Global, layouts: &[Layout], ids: &mut Vec<String>) -> Result<(), AllocError>
    ensures { OnOk result (map string_bytes ids.new.items ≡ all_behind (map string_bytes ids.old.items) (layouts_of layouts.now)) }
{
    for at in 0..layouts.len() {
        push_used(alloc, &layouts[at], ids)?;
    }
    Ok(())
}

/// Adds the ids of a layout that are not there.
#[cycle(naming)]
#[tactic(auto, using(crate::proofs::LayoutUses::id_parts))]
fn push_used(alloc: Global, layout: &Layout, ids: &mut Vec<String>) -> Result<(), AllocError>
    ensures { OnOk result (map string_bytes ids.new.items ≡ ids_behind (map string_bytes ids.old.items) layout.now) }
{
    push_id(alloc, ids, name_of(layout.kind()))?;
    push_all(alloc, layout.children(), ids)?;
    Ok(())
}

impl Layout {
    /// The ids that the layout and those below it use, in order of first use.
    #[tactic(auto, using(crate::proofs::LayoutUses::all_used, crate::proofs::LayoutUses::few_used))]
    pub fn used_ids(&self, alloc: Global) -> Result<Vec<String>, AllocError>
        ensures value { IfOk result (λ ids. map string_bytes ids.items ≡ used_ids self.now) }
        ensures used { IfOk result (λ ids. uses_ids (map string_bytes ids.items) self.now ≡ true) }
        ensures few { IfOk result (λ ids. length ids.items ≤ 3) }
    {
        let mut ids = Vec::new(alloc);
        push_used(alloc, self, &mut ids)?;
        Ok(ids)
    }
}
