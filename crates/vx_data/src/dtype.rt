//! What the rows of a column are.
ghost use Rattle.std.specs.Prelude.{◌≡◌, IfOk};
ghost use Rattle.vx_data.specs.Dtype.{dtype_view, fields_view, pairs_view, is_nullable as may_be_null};

use crate::PType;
use std::alloc::{AllocError, Global};
use std::sync::Arc;

/// What the rows of a column are. The truth value says whether a row may be null.
#[cycle(dtype)]
#[derive(Debug, Drop)]
pub enum DType {
    Bool(bool),
    Int(PType, bool),
    Text(bool),
    Struct(Fields, bool),
}

/// The names and types of a struct's fields, in order. Names may repeat.
#[cycle(dtype)]
#[derive(Debug, Drop)]
pub struct Fields {
    pub(crate) kept: Kept,
}

// Fields of this value alone, or fields with several owners.
#[cycle(dtype)]
#[derive(Debug, Drop)]
pub(crate) enum Kept {
    Owned(Vec<(String, DType)>),
    Shared(Arc<Vec<(String, DType)>, Global>),
}

impl Fields {
    /// These fields.
    pub fn new(fields: Vec<(String, DType)>) -> Fields
        ensures { fields_view result ≡ pairs_view fields.items }
    {
        Fields {
            kept: Kept::Owned(fields),
        }
    }

    /// These fields, with room for more owners.
    pub(crate) fn shared(alloc: Global, fields: Vec<(String, DType)>) -> Result<Fields, AllocError>
        ensures { IfOk result (λ shared. fields_view shared ≡ pairs_view fields.items) }
    {
        Ok(Fields {
            kept: Kept::Shared(Arc::new(alloc, fields)?),
        })
    }

    /// The fields in order.
    pub fn as_slice(&self) -> &[(String, DType)]
        ensures { pairs_view result.now ≡ fields_view self.now }
    {
        match &self.kept {
            Kept::Owned(fields) => fields,
            Kept::Shared(fields) => fields,
        }
    }

    /// The same fields. Fields with several owners are not copied.
    #[cycle(sharing)]
    fn share(&self, alloc: Global) -> Result<Fields, AllocError>
        ensures { IfOk result (λ shared. fields_view shared ≡ fields_view self.now) }
    {
        match &self.kept {
            Kept::Owned(fields) => Ok(Fields::shared(alloc, share_all(alloc, fields)?)?),
            Kept::Shared(fields) => Ok(Fields {
                kept: Kept::Shared(Arc::try_clone(fields)?),
            }),
        }
    }
}

#[cycle(sharing)]
fn share_all(alloc: Global, fields: &[(String, DType)]) -> Result<Vec<(String, DType)>, AllocError>
    ensures { IfOk result (λ shared. pairs_view shared.items ≡ pairs_view fields.now) }
{
    let mut shared = Vec::new(alloc);
    for at in 0..fields.len() {
        let field = &fields[at];
        shared.push((field.0.clone()?, field.1.share(alloc)?))?;
    }
    Ok(shared)
}

impl DType {
    /// The same type. Structs that were read or shared before are not copied.
    #[cycle(sharing)]
    pub fn share(&self, alloc: Global) -> Result<DType, AllocError>
        ensures { IfOk result (λ shared. dtype_view shared ≡ dtype_view self.now) }
    {
        match self {
            DType::Bool(nullable) => Ok(DType::Bool(*nullable)),
            DType::Int(ptype, nullable) => Ok(DType::Int(*ptype, *nullable)),
            DType::Text(nullable) => Ok(DType::Text(*nullable)),
            DType::Struct(fields, nullable) => Ok(DType::Struct(fields.share(alloc)?, *nullable)),
        }
    }

    /// Whether a row may be null.
    pub fn is_nullable(&self) -> bool
        ensures { result ≡ may_be_null (dtype_view self.now) }
    {
        match self {
            DType::Bool(nullable)
            | DType::Int(_, nullable)
            | DType::Text(nullable)
            | DType::Struct(_, nullable) => *nullable,
        }
    }
}
