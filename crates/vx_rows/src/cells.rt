//! Values of integers as bytes.
ghost use Rattle.std.specs.Prelude.{◌≡◌, ◌++◌, ℤ, Option, pos, true, unwrap_or, OnOk, OnErr, IfOk, IfSome, length};
ghost use Rattle.std.specs.List.{flat_map, All};
ghost use Rattle.vx_rows.specs.Written.{is_within, value_bytes, cell};

use crate::int_column::size_of;
use std::alloc::{AllocError, Global};
use vx_data::PType;

/// Adds the bytes of a value. Where memory refuses, nothing changes.
#[inline(always)]
#[tactic(auto, using(crate::proofs::LowByteLemmas::low_bytes))]
fn push_value(bytes: &mut Vec<u8>, ptype: PType, value: i128) -> Result<(), AllocError>
    requires { is_within ptype value ≡ true }
    ensures err { OnErr result (bytes.new.items ≡ bytes.old.items) }
    ensures ok { OnOk result (bytes.new.items ≡ bytes.old.items ++ value_bytes ptype value) }
{
    // Eight bytes are put at once, and those that the type does not have are taken off: no branch on the type.
    let before = bytes.len();
    let low = (value.cast_unsigned() % (1 << 64)) as u64;
    bytes.extend_from_slice(&low.to_le_bytes())?;
    bytes.truncate(before + size_of(ptype));
    Ok(())
}

/// Adds the bytes of a row: of the value 0, where it is null. Where memory refuses, nothing changes.
#[inline(always)]
pub fn push_cell(bytes: &mut Vec<u8>, ptype: PType, row: Option<i128>) -> Result<(), AllocError>
    requires { IfSome row (λ n. is_within ptype n ≡ true) }
    ensures err { OnErr result (bytes.new.items ≡ bytes.old.items) }
    ensures ok { OnOk result (bytes.new.items ≡ bytes.old.items ++ cell ptype row) }
{
    push_value(bytes, ptype, row.unwrap_or(0))
}

/// The bytes of rows.
pub fn cells_of(alloc: Global, ptype: PType, rows: &[Option<i128>]) -> Result<Vec<u8>, AllocError>
    requires { All (λ (row : Option ℤ). IfSome row (λ n. is_within ptype n ≡ true)) rows.now }
    ensures { IfOk result (λ bytes. bytes.items ≡ flat_map (cell ptype) rows.now) }
{
    let mut bytes = Vec::new(alloc);
    for row in rows {
        push_cell(&mut bytes, ptype, *row)?;
    }
    Ok(bytes)
}
