//! The text of a type.
ghost use Rattle.std.specs.Prelude.{◌≡◌, ◌++◌, ◌∷◌, [], true, OnOk, IfOk, string_bytes};
ghost use Rattle.vx_data.specs.Dtype.{dtype_view, fields_view, pairs_view};
ghost use Rattle.vx_data.specs.Texts.{ptype_name, mark, comma, name_text, dtype_text, fields_text};

use crate::dtype::Kept;
use crate::quoted::push_quoted;
use crate::{DType, Fields, PType};
use std::alloc::{AllocError, Global};

/// The name of a type of integers.
pub(crate) fn name_of(ptype: PType) -> &'static str
    ensures { result.now ≡ ptype_name ptype }
{
    match ptype {
        PType::U8 => "u8",
        PType::U16 => "u16",
        PType::U32 => "u32",
        PType::U64 => "u64",
        PType::I8 => "i8",
        PType::I16 => "i16",
        PType::I32 => "i32",
        PType::I64 => "i64",
    }
}

/// Adds the mark of a type whose rows may be null.
fn push_mark(text: &mut String, nullable: bool) -> Result<(), AllocError>
    ensures { OnOk result (string_bytes text.new ≡ string_bytes text.old ++ mark nullable) }
{
    if nullable {
        return text.push_str("?");
    }
    Ok(())
}

/// Adds what stands before a field.
fn push_comma(text: &mut String, is_first: bool) -> Result<(), AllocError>
    ensures { OnOk result (string_bytes text.new ≡ string_bytes text.old ++ comma is_first) }
{
    if is_first {
        return Ok(());
    }
    text.push_str(",")
}

/// Adds the name of a field and what stands behind it.
fn push_name(text: &mut String, name: &str) -> Result<(), AllocError>
    ensures { OnOk result (string_bytes text.new ≡ string_bytes text.old ++ name_text name.now) }
{
    push_quoted(text, name)?;
    text.push_str(":")
}

/// Adds fields, in order.
#[cycle(telling)]
#[tactic(auto, using(crate::proofs::FieldTexts::next_field))]
fn push_all(text: &mut String, fields: &[(String, DType)]) -> Result<(), AllocError>
    ensures { OnOk result (string_bytes text.new ≡ string_bytes text.old ++ fields_text true (pairs_view fields.now)) }
{
    let mut is_first = true;
    for at in 0..fields.len() {
        let field = &fields[at];
        push_comma(text, is_first)?;
        push_name(text, field.0.as_str())?;
        push_dtype(text, &field.1)?;
        is_first = false;
    }
    Ok(())
}

/// Adds the fields of a struct.
#[cycle(telling)]
fn push_fields(text: &mut String, fields: &Fields) -> Result<(), AllocError>
    ensures { OnOk result (string_bytes text.new ≡ string_bytes text.old ++ fields_text true (fields_view fields.now)) }
{
    match &fields.kept {
        Kept::Owned(fields) => push_all(text, fields),
        Kept::Shared(fields) => push_all(text, fields),
    }
}

/// Adds the text of a type.
#[cycle(telling)]
fn push_dtype(text: &mut String, dtype: &DType) -> Result<(), AllocError>
    ensures { OnOk result (string_bytes text.new ≡ string_bytes text.old ++ dtype_text (dtype_view dtype.now)) }
{
    match dtype {
        DType::Bool(nullable) => {
            text.push_str("bool")?;
            push_mark(text, *nullable)
        }
        DType::Int(ptype, nullable) => {
            text.push_str(name_of(*ptype))?;
            push_mark(text, *nullable)
        }
        DType::Text(nullable) => {
            text.push_str("text")?;
            push_mark(text, *nullable)
        }
        DType::Struct(fields, nullable) => {
            text.push_str("{")?;
            push_fields(text, fields)?;
            text.push_str("}")?;
            push_mark(text, *nullable)
        }
    }
}

impl DType {
    /// The text of the type, as `{id:u32,name:text?}`.
    pub fn to_text(&self, alloc: Global) -> Result<String, AllocError>
        ensures { IfOk result (λ text. string_bytes text ≡ dtype_text (dtype_view self.now)) }
    {
        let mut text = String::new(alloc);
        push_dtype(&mut text, self)?;
        Ok(text)
    }
}
