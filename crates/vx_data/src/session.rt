//! The ids that a session may use.
ghost use Rattle.std.specs.Prelude.{◌≡◌, ◌++◌, ◌∷◌, [], IfOk, OnOk, map, string_bytes};
ghost use Rattle.vx_data.specs.Session.{known_arrays, known_layouts, all_enabled, enabled_of, with_ids};

use std::alloc::{AllocError, Global};
use std::marker::Model;
use std::sync::Arc;

/// What an id names.
#[derive(Clone, Copy, Debug, PartialEq, Eq)]
pub enum ComponentKind {
    Array,
    Layout,
}

/// The ids of arrays and layouts that are enabled.
#[derive(Debug, Drop)]
pub struct VortexSession {
    array_ids: Arc<Vec<String>, Global>,
    layout_ids: Arc<Vec<String>, Global>,
}

impl Model for VortexSession {
    ghost use Rattle.std.specs.Prelude.{map, string_bytes};
    ghost use Rattle.std.specs.Arc.{arc_value};
    ghost use Rattle.vx_data.specs.Session.{Session};

    ghost Value = { Session };

    ghost view = { λ a. record { arrays = map string_bytes (arc_value a.array_ids).items; layouts = map string_bytes (arc_value a.layout_ids).items } };
}

/// Adds an id.
fn push_id(alloc: Global, ids: &mut Vec<String>, id: &str) -> Result<(), AllocError>
    ensures { OnOk result (map string_bytes ids.new.items ≡ map string_bytes ids.old.items ++ id.now ∷ []) }
{
    ids.push(String::from_str(alloc, id)?)?;
    Ok(())
}

/// The ids of arrays that are known.
fn array_ids(alloc: Global) -> Result<Vec<String>, AllocError>
    ensures { IfOk result (λ ids. map string_bytes ids.items ≡ known_arrays) }
{
    let mut ids = Vec::new(alloc);
    push_id(alloc, &mut ids, "vortex.bool")?;
    push_id(alloc, &mut ids, "vortex.primitive")?;
    push_id(alloc, &mut ids, "vortex.struct")?;
    push_id(alloc, &mut ids, "vortex.varbin")?;
    Ok(ids)
}

/// The ids of layouts that are known.
fn layout_ids(alloc: Global) -> Result<Vec<String>, AllocError>
    ensures { IfOk result (λ ids. map string_bytes ids.items ≡ known_layouts) }
{
    let mut ids = Vec::new(alloc);
    push_id(alloc, &mut ids, "vortex.flat")?;
    push_id(alloc, &mut ids, "vortex.chunked")?;
    push_id(alloc, &mut ids, "vortex.struct")?;
    Ok(ids)
}

impl VortexSession {
    /// A session with all ids that are known.
    pub fn new(alloc: Global) -> Result<VortexSession, AllocError>
        ensures { IfOk result (λ session. session ≡ all_enabled) }
    {
        Ok(VortexSession {
            array_ids: Arc::new(alloc, array_ids(alloc)?)?,
            layout_ids: Arc::new(alloc, layout_ids(alloc)?)?,
        })
    }

    /// The session with these ids in place of those of the kind.
    pub fn with_enabled(
        self,
        alloc: Global,
        kind: ComponentKind,
        ids: Vec<String>,
    ) -> Result<VortexSession, AllocError>
        ensures { IfOk result (λ session. session ≡ with_ids kind (map string_bytes ids.items) self) }
    {
        let VortexSession {
            array_ids,
            layout_ids,
        } = self;
        let ids = Arc::new(alloc, ids)?;
        match kind {
            ComponentKind::Array => Ok(VortexSession {
                array_ids: ids,
                layout_ids,
            }),
            ComponentKind::Layout => Ok(VortexSession {
                array_ids,
                layout_ids: ids,
            }),
        }
    }

    /// The ids of the kind that are enabled.
    pub fn enabled(&self, kind: ComponentKind) -> &[String]
        ensures { map string_bytes result.now ≡ enabled_of kind self.now }
    {
        match kind {
            ComponentKind::Array => &self.array_ids,
            ComponentKind::Layout => &self.layout_ids,
        }
    }

    /// The same session. No id is copied.
    pub fn share(&self, alloc: Global) -> Result<VortexSession, AllocError>
        ensures { IfOk result (λ session. session ≡ self.now) }
    {
        let _ = alloc;
        Ok(VortexSession {
            array_ids: Arc::try_clone(&self.array_ids)?,
            layout_ids: Arc::try_clone(&self.layout_ids)?,
        })
    }
}
