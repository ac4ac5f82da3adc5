//! The blocks of vectors and texts.

ghost use Rattle.std.specs.Prelude.{◌≡◌, ◌++◌, ◌∷◌, [], IfOk, OnOk, length, List, ℕ, map, string_bytes};
ghost use Rattle.std.specs.Int.{w32};
ghost use Rattle.std.specs.Int.{to_le_bytes};
ghost use Rattle.std.specs.List.{flat_map};
ghost use Rattle.vx_tables.specs.Block.{counted_block, text as text_piece, segment as segment_bytes, vector as vector_piece, texts as texts_piece, body};

use crate::blocks::{push_body, push_low};
use crate::piece::Piece;
use std::alloc::{AllocError, Global};
use vx_base::SegmentSpec;

/// The block of a text: its length, its bytes and a zero.
pub(crate) fn text_block_of(alloc: Global, value: &str) -> Result<Vec<u8>, AllocError>
    ensures { IfOk result (λ v. v.items ≡ (text_piece 0 value.now).bytes) }
{
    let mut out = Vec::new(alloc);
    push_low(&mut out, value.len())?;
    out.extend_from_slice(value.as_bytes())?;
    out.push(0)?;
    Ok(out)
}

/// The block of a vector of u8.
pub(crate) fn bytes_block_of(alloc: Global, value: &[u8]) -> Result<Vec<u8>, AllocError>
    ensures { IfOk result (λ v. v.items ≡ counted_block (length value.now) value.now) }
{
    let mut out = Vec::new(alloc);
    push_low(&mut out, value.len())?;
    out.extend_from_slice(value)?;
    Ok(out)
}

/// The block of a vector of u32.
pub(crate) fn numbers_block_of(alloc: Global, value: &[u32]) -> Result<Vec<u8>, AllocError>
    ensures { IfOk result (λ v. v.items ≡ counted_block (length value.now) (flat_map (to_le_bytes w32) value.now)) }
{
    let mut out = Vec::new(alloc);
    push_low(&mut out, value.len())?;
    for number in value {
        out.extend_from_slice(&number.to_le_bytes())?;
    }
    Ok(out)
}

/// Appends a segment struct.
#[tactic(auto, unfolding(crate::specs::Block::segment))]
fn push_segment(out: &mut Vec<u8>, value: &SegmentSpec) -> Result<(), AllocError>
    ensures { OnOk result (out.new.items ≡ out.old.items ++ segment_bytes value.now) }
{
    out.extend_from_slice(&value.offset.to_le_bytes())?;
    out.extend_from_slice(&value.length.to_le_bytes())?;
    out.extend_from_slice(&[value.alignment.exponent(), 0, 0, 0])
}

/// The block of a vector of segment structs.
pub(crate) fn segments_block_of(alloc: Global, value: &[SegmentSpec]) -> Result<Vec<u8>, AllocError>
    ensures { IfOk result (λ v. v.items ≡ counted_block (length value.now) (flat_map segment_bytes value.now)) }
{
    let mut out = Vec::new(alloc);
    push_low(&mut out, value.len())?;
    for segment in value {
        push_segment(&mut out, segment)?;
    }
    Ok(out)
}

/// The block of a vector of texts or tables.
pub(crate) fn vector_block_of(alloc: Global, elements: &[Piece]) -> Result<Vec<u8>, AllocError>
    ensures { IfOk result (λ v. v.items ≡ (vector_piece 0 elements.now).bytes) }
{
    let mut out = Vec::new(alloc);
    push_low(&mut out, elements.len())?;
    push_body(&mut out, elements)?;
    Ok(out)
}

/// The block of a vector of texts.
pub(crate) fn texts_block_of(alloc: Global, value: &[String]) -> Result<Vec<u8>, AllocError>
    ensures { IfOk result (λ v. v.items ≡ (texts_piece 0 (map string_bytes value.now)).bytes) }
{
    let mut elements = Vec::new(alloc);
    for text in value {
        elements.push(Piece {
            slot: 0,
            lead: Some(0),
            bytes: text_block_of(alloc, text.as_str())?,
        })?;
    }
    vector_block_of(alloc, &elements)
}
