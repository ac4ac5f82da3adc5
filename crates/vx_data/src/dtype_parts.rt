//! Types from the parts that a table names.
ghost use Rattle.std.specs.Prelude.{◌≡◌, IfOk, List, ℕ, length, map, string_bytes, is_some};
ghost use Rattle.std.specs.List.{list_all, flat_map, zip};
ghost use Rattle.std.specs.Option.{option_map, option_to_list};
ghost use Rattle.vx_tables.specs.Walking.{Reads};
ghost use Rattle.vx_data.specs.Dtype.{dtype_view, pairs_view};
ghost use Rattle.vx_data.specs.DtypeTable.{ptype_of_number, dtype_of as dtype_by, known_fields, paired as paired_by};

use crate::{DType, Fields, PType};
use std::alloc::{AllocError, Global};
use vx_tables::WalkError;

pub(crate) const BOOL: u8 = 1;

pub(crate) const INTEGER: u8 = 2;

pub(crate) const TEXT: u8 = 3;

pub(crate) const STRUCT: u8 = 4;

/// The type of integers with this number.
fn ptype_at(number: u8) -> Option<PType>
    ensures { result ≡ ptype_of_number number }
{
    match number {
        0 => Some(PType::U8),
        1 => Some(PType::U16),
        2 => Some(PType::U32),
        3 => Some(PType::U64),
        4 => Some(PType::I8),
        5 => Some(PType::I16),
        6 => Some(PType::I32),
        7 => Some(PType::I64),
        _ => None,
    }
}

/// The type of these parts, where its kind is known. Only a struct keeps the fields.
fn dtype_of(
    alloc: Global,
    kind: u8,
    nullable: bool,
    ptype: u8,
    fields: Vec<(String, DType)>,
) -> Result<Option<DType>, AllocError>
    ensures { IfOk result (λ dtype. option_map dtype_view dtype ≡ dtype_by kind nullable ptype (pairs_view fields.items)) }
{
    match kind {
        BOOL => Ok(Some(DType::Bool(nullable))),
        INTEGER => match ptype_at(ptype) {
            Some(ptype) => Ok(Some(DType::Int(ptype, nullable))),
            None => Ok(None),
        },
        TEXT => Ok(Some(DType::Text(nullable))),
        STRUCT => Ok(Some(DType::Struct(Fields::shared(alloc, fields)?, nullable))),
        _ => Ok(None),
    }
}

/// Whether each of the types is known.
fn are_known(dtypes: &[Option<DType>]) -> bool
    ensures { result ≡ list_all (λ d. is_some d) dtypes.now }
{
    dtypes.iter().all(|dtype| dtype.is_some())
}

/// The types that are known.
fn all_known(alloc: Global, dtypes: Vec<Option<DType>>) -> Result<Vec<DType>, AllocError>
    ensures { IfOk result (λ known. known.items ≡ flat_map option_to_list dtypes.items) }
{
    dtypes.into_iter().flatten().collect(alloc)
}

/// Each name with its type.
fn zipped(
    alloc: Global,
    names: Vec<String>,
    dtypes: Vec<DType>,
) -> Result<Vec<(String, DType)>, AllocError>
    ensures { IfOk result (λ pairs. pairs.items ≡ zip names.items dtypes.items) }
{
    names.into_iter().zip(dtypes).collect(alloc)
}

/// The fields of these names and types, where each type is known.
fn fields_of(
    alloc: Global,
    names: Vec<String>,
    dtypes: Vec<Option<DType>>,
) -> Result<Option<Vec<(String, DType)>>, AllocError>
    requires { length names.items ≡ length dtypes.items }
    ensures { IfOk result (λ fields. option_map (λ v. pairs_view v.items) fields
        ≡ known_fields (map string_bytes names.items) (map (option_map dtype_view) dtypes.items)) }
{
    if !are_known(&dtypes) {
        return Ok(None);
    }
    let known = all_known(alloc, dtypes)?;
    Ok(Some(zipped(alloc, names, known)?))
}

/// The type of these parts, where as many names as types are there, and all kinds are known.
pub(crate) fn paired(
    alloc: Global,
    kind: u8,
    nullable: bool,
    ptype: u8,
    names: Vec<String>,
    dtypes: Vec<Option<DType>>,
) -> Result<Option<DType>, WalkError>
    ensures { Reads (option_map dtype_view) result (paired_by kind nullable ptype (map string_bytes names.items) (map (option_map dtype_view) dtypes.items)) }
{
    if names.len() != dtypes.len() {
        return Err(WalkError::BadTable);
    }
    match fields_of(alloc, names, dtypes)? {
        Some(fields) => Ok(dtype_of(alloc, kind, nullable, ptype, fields)?),
        None => Ok(None),
    }
}
