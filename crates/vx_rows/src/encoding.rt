//! The bytes of a column of any type.
ghost use Rattle.std.specs.Prelude.{ℕ, Ok, ◌≡◌, ◌++◌, ◌<◌, ◌≤◌, ◌^◌, length, map, string_bytes, true, IfOk, OnOk};
ghost use Rattle.vx_base.specs.Checks.{Gives};
ghost use Rattle.vx_data.specs.LayoutWritten.{place_in, has_id};
ghost use Rattle.vx_rows.specs.Rows.{column_view, columns_view, pairs_view, dtype_of, IsColumn};
ghost use Rattle.vx_rows.specs.Trees.{array};
ghost use Rattle.vx_rows.specs.Encoded.{id_of, index_bytes, is_permitted as may_be_encoded, are_permitted as may_all_be_encoded};
ghost use Rattle.vx_rows.specs.Encoded.{body_bytes, array_bytes, arrays_bytes, encoded, FailsToEncode};

use crate::{Column, Columns, EncodeError};
use std::alloc::{AllocError, Global};
use vx_base::{Alignment, ByteBuffer};

/// The most bytes of rows for which room is made before they are there.
const MOST_ROOM: u64 = 16_777_216;

/// The first place of an id; their number where it is not among them.
fn place_of(ids: &[String], id: &str) -> usize
    ensures { result ≡ place_in (map string_bytes ids.now) id.now }
{
    let mut place = 0;
    for other in ids {
        if other.as_str() == id {
            return place;
        }
        place += 1;
    }
    place
}

/// Whether an id is among these.
fn is_among(ids: &[String], id: &str) -> bool
    ensures { result ≡ has_id (map string_bytes ids.now) id.now }
{
    for other in ids {
        if other.as_str() == id {
            return true;
        }
    }
    false
}

/// The id of a column's array.
fn name_of(column: &Column) -> &'static str
    ensures { result.now ≡ id_of (column_view column.now) }
{
    match column {
        Column::Bool(_) => "vortex.bool",
        Column::Int(_) => "vortex.primitive",
        Column::Text(_) => "vortex.varbin",
        Column::Struct(_, _) => "vortex.struct",
    }
}

/// Whether the ids of all fields' arrays are among these.
#[cycle(permitting)]
#[tactic(auto, using(crate::proofs::EncodedLemmas::next_permitted))]
fn are_permitted(ids: &[String], columns: &[(String, Column)]) -> bool
    ensures { result ≡ may_all_be_encoded (map string_bytes ids.now) (pairs_view columns.now) }
{
    for at in 0..columns.len() {
        let column = &columns[at];
        if !is_permitted(ids, &column.1) {
            return false;
        }
    }
    true
}

#[cycle(permitting)]
fn are_fields_permitted(ids: &[String], columns: &Columns) -> bool
    ensures { result ≡ may_all_be_encoded (map string_bytes ids.now) (columns_view columns.now) }
{
    are_permitted(ids, &columns.columns)
}

/// Whether the ids of all arrays of a column are among these.
#[cycle(permitting)]
fn is_permitted(ids: &[String], column: &Column) -> bool
    ensures { result ≡ may_be_encoded (map string_bytes ids.now) (column_view column.now) }
{
    match column {
        Column::Struct(_, columns) => {
            is_among(ids, name_of(column)) && are_fields_permitted(ids, columns)
        }
        _ => is_among(ids, name_of(column)),
    }
}

/// Adds the index of an id.
#[tactic(auto, using(vx_data::proofs::LayoutTables::place_below))]
fn push_index(bytes: &mut Vec<u8>, ids: &[String], id: &str) -> Result<(), AllocError>
    requires among { has_id (map string_bytes ids.now) id.now ≡ true }
    requires few { length ids.now ≤ 65536 }
    ensures { OnOk result (bytes.new.items ≡ bytes.old.items ++ index_bytes (map string_bytes ids.now) id.now) }
{
    let place = place_of(ids, id) as u16;
    bytes.extend_from_slice(&place.to_le_bytes())
}

/// Adds the bytes of fields, one behind the other.
#[cycle(encoding)]
#[tactic(auto, using(crate::proofs::EncodedLemmas::next_array, crate::proofs::EncodedLemmas::id_permitted))]
fn push_all(
    bytes: &mut Vec<u8>,
    ids: &[String],
    columns: &[(String, Column)],
) -> Result<(), AllocError>
    requires permitted { may_all_be_encoded (map string_bytes ids.now) (pairs_view columns.now) ≡ true }
    requires few { length ids.now ≤ 65536 }
    ensures { OnOk result (bytes.new.items ≡ bytes.old.items ++ arrays_bytes (map string_bytes ids.now) (pairs_view columns.now)) }
{
    for at in 0..columns.len() {
        let column = &columns[at];
        push_index(bytes, ids, name_of(&column.1))?;
        push_body(bytes, ids, &column.1)?;
    }
    Ok(())
}

#[cycle(encoding)]
fn push_fields(bytes: &mut Vec<u8>, ids: &[String], columns: &Columns) -> Result<(), AllocError>
    requires permitted { may_all_be_encoded (map string_bytes ids.now) (columns_view columns.now) ≡ true }
    requires few { length ids.now ≤ 65536 }
    ensures { OnOk result (bytes.new.items ≡ bytes.old.items ++ arrays_bytes (map string_bytes ids.now) (columns_view columns.now)) }
{
    push_all(bytes, ids, &columns.columns)
}

/// Adds the bytes of an array behind the index of its id.
#[cycle(encoding)]
#[tactic(auto, using(crate::proofs::EncodedLemmas::fields_permitted))]
fn push_body(bytes: &mut Vec<u8>, ids: &[String], column: &Column) -> Result<(), AllocError>
    requires permitted { may_be_encoded (map string_bytes ids.now) (column_view column.now) ≡ true }
    requires few { length ids.now ≤ 65536 }
    ensures { OnOk result (bytes.new.items ≡ bytes.old.items ++ body_bytes (map string_bytes ids.now) (column_view column.now)) }
{
    match column {
        Column::Bool(values) => values.push_bytes(bytes),
        Column::Int(values) => values.push_bytes(bytes),
        Column::Text(values) => values.push_bytes(bytes),
        Column::Struct(rows, columns) => {
            rows.push_bytes(bytes)?;
            push_fields(bytes, ids, columns)
        }
    }
}

/// Adds the bytes of a column.
#[tactic(auto, using(crate::proofs::EncodedLemmas::id_permitted))]
fn push_column(bytes: &mut Vec<u8>, ids: &[String], column: &Column) -> Result<(), AllocError>
    requires permitted { may_be_encoded (map string_bytes ids.now) (column_view column.now) ≡ true }
    requires few { length ids.now ≤ 65536 }
    ensures { OnOk result (bytes.new.items ≡ bytes.old.items ++ array_bytes (map string_bytes ids.now) (column_view column.now)) }
{
    push_index(bytes, ids, name_of(column))?;
    push_body(bytes, ids, column)
}

/// Room for the bytes of a column: what its rows take, or a first piece of very many.
fn room_for(column: &Column) -> usize
    ensures { result ≤ 16777280 }
{
    64 + column.plain_size().min(MOST_ROOM) as usize
}

/// The bytes of a column by the ids of a file's array encodings, of which there are at most 65,536. NotPermitted
/// where an id that it needs is not among them; SegmentTooLong where the bytes exceed 2^32 - 1.
pub fn encode_array(
    alloc: Global,
    column: &Column,
    ids: &[String],
) -> Result<ByteBuffer, EncodeError>
    requires { length ids.now ≤ 65536 }
    ensures value { Gives FailsToEncode (λ b. b.bytes) result (encoded (map string_bytes ids.now) (column_view column.now)) }
    // What was encoded is decoded to the same column.
    ensures back { (n : ℕ) → IsColumn n (column_view column.now) → IfOk result (λ b.
        array (map string_bytes ids.now) (dtype_of (column_view column.now)) n b.bytes ≡ Ok (column_view column.now)) }
{
    if !is_permitted(ids, column) {
        return Err(EncodeError::NotPermitted);
    }
    let mut bytes = Vec::with_capacity(alloc, room_for(column))?;
    push_column(&mut bytes, ids, column)?;
    if bytes.len() >= 1 << 32 {
        return Err(EncodeError::SegmentTooLong);
    }
    Ok(ByteBuffer::from_vec(alloc, bytes, Alignment::none())?)
}
