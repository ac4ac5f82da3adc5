//! The bytes of blocks, put together from pieces.

ghost use Rattle.std.specs.Prelude.{◌≡◌, ◌+◌, ◌*◌, ◌≤◌, ◌<◌, ◌^◌, ◌++◌, OnOk, IfOk, length, List, ℕ, sum_by, replicate, true};
ghost use Rattle.std.specs.List.{flat_map};
ghost use Rattle.vx_tables.specs.Block.{low, u16_bytes, u32_bytes, fixed_size, tail, cell, cells, fixed_len, body, slot_count, vtable_size, entries, vtable, block, in_order};

use crate::piece::Piece;
use std::alloc::{AllocError, Global};

/// The low 32 bits.
fn low_bits(n: usize) -> u32
    ensures { result ≡ low n }
{
    (n % (1 << 32)) as u32
}

/// Appends the low 32 bits of a number.
pub(crate) fn push_low(out: &mut Vec<u8>, n: usize) -> Result<(), AllocError>
    ensures { OnOk result (out.new.items ≡ out.old.items ++ u32_bytes n) }
{
    out.extend_from_slice(&low_bits(n).to_le_bytes())
}

/// Appends a number of 16 bits.
fn push_short(out: &mut Vec<u8>, n: u16) -> Result<(), AllocError>
    ensures { OnOk result (out.new.items ≡ out.old.items ++ u16_bytes n) }
{
    out.extend_from_slice(&n.to_le_bytes())
}

impl Piece {
    /// What the piece takes in the fixed part.
    fn fixed_size(&self) -> usize
        ensures { result ≡ fixed_size self.now }
    {
        match self.lead {
            None => self.bytes.len(),
            Some(_) => 4,
        }
    }

    /// What the piece has behind the fixed part.
    fn tail(&self) -> &[u8]
        ensures { result.now ≡ tail self.now }
    {
        match self.lead {
            None => &[],
            Some(_) => &self.bytes,
        }
    }
}

/// A sum of sizes, which memory could not hold where it passes usize.
pub(crate) fn sum_of(a: usize, b: usize) -> Result<usize, AllocError>
    ensures { IfOk result (λ n. n ≡ a + b) }
{
    a.checked_add(b).ok_or(AllocError)
}

/// The fixed part's size, with the four bytes at its front.
fn fixed_len_of(pieces: &[Piece]) -> Result<usize, AllocError>
    ensures { IfOk result (λ n. n ≡ fixed_len pieces.now) }
{
    let mut size = 4;
    for piece in pieces {
        size = sum_of(size, piece.fixed_size())?;
    }
    Ok(size)
}

/// Appends a piece's cell in the fixed part, at a place, where its block would stand behind.
fn push_cell(out: &mut Vec<u8>, at: usize, behind: usize, piece: &Piece) -> Result<(), AllocError>
    ensures { OnOk result (out.new.items ≡ out.old.items ++ cell at behind piece.now) }
{
    match piece.lead {
        None => out.extend_from_slice(&piece.bytes),
        Some(lead) => push_low(out, sum_of(behind, lead)?.saturating_sub(at)),
    }
}

/// Appends the pieces' cells.
fn push_cells(out: &mut Vec<u8>, fixed: usize, pieces: &[Piece]) -> Result<(), AllocError>
    ensures { OnOk result (out.new.items ≡ out.old.items ++ cells 4 fixed pieces.now) }
{
    let mut at = 4;
    let mut behind = fixed;
    for piece in pieces {
        push_cell(out, at, behind, piece)?;
        at = sum_of(at, piece.fixed_size())?;
        behind = sum_of(behind, piece.tail().len())?;
    }
    Ok(())
}

/// Appends the pieces' blocks.
fn push_tails(out: &mut Vec<u8>, pieces: &[Piece]) -> Result<(), AllocError>
    ensures { OnOk result (out.new.items ≡ out.old.items ++ flat_map tail pieces.now) }
{
    for piece in pieces {
        out.extend_from_slice(piece.tail())?;
    }
    Ok(())
}

/// Appends what follows the four bytes at the front of a fixed part.
pub(crate) fn push_body(out: &mut Vec<u8>, pieces: &[Piece]) -> Result<(), AllocError>
    ensures { OnOk result (out.new.items ≡ out.old.items ++ body pieces.now) }
{
    let fixed = fixed_len_of(pieces)?;
    push_cells(out, fixed, pieces)?;
    push_tails(out, pieces)
}

/// Appends zeros.
fn push_zeros(out: &mut Vec<u8>, count: usize) -> Result<(), AllocError>
    ensures { OnOk result (out.new.items ≡ out.old.items ++ replicate count 0) }
{
    for _ in 0..count {
        out.push(0)?;
    }
    Ok(())
}

/// How many slots the vtable has.
fn slot_count_of(pieces: &[Piece]) -> usize
    requires { in_order 0 pieces.now ≡ true }
    ensures value { result ≡ slot_count pieces.now }
    ensures bound { result ≤ 1024 }
{
    let mut next = 0;
    for piece in pieces {
        next = piece.slot + 1;
    }
    next
}

/// Appends the entries of the slots.
fn push_entries(out: &mut Vec<u8>, pieces: &[Piece]) -> Result<(), AllocError>
    requires { in_order 0 pieces.now ≡ true }
    ensures { OnOk result (out.new.items ≡ out.old.items ++ entries 4 0 pieces.now) }
{
    let mut at: usize = 4;
    let mut next = 0;
    for piece in pieces {
        push_zeros(out, 2 * (piece.slot - next))?;
        push_short(out, at as u16)?;
        at += piece.fixed_size();
        next = piece.slot + 1;
    }
    Ok(())
}

/// Appends a table's vtable.
#[tactic(auto, using(crate::proofs::Order::fixed_len_fits))]
fn push_vtable(out: &mut Vec<u8>, pieces: &[Piece]) -> Result<(), AllocError>
    requires { in_order 0 pieces.now ≡ true }
    ensures { OnOk result (out.new.items ≡ out.old.items ++ vtable pieces.now) }
{
    let fixed = fixed_len_of(pieces)?;
    push_short(out, (4 + 2 * slot_count_of(pieces)) as u16)?;
    push_short(out, fixed as u16)?;
    push_entries(out, pieces)
}

/// The size of a table's vtable.
pub(crate) fn vtable_size_of(pieces: &[Piece]) -> usize
    requires { in_order 0 pieces.now ≡ true }
    ensures value { result ≡ vtable_size pieces.now }
    ensures bound { result ≤ 2052 }
{
    4 + 2 * slot_count_of(pieces)
}

/// Appends a table's block.
pub(crate) fn push_block(out: &mut Vec<u8>, pieces: &[Piece]) -> Result<(), AllocError>
    requires { in_order 0 pieces.now ≡ true }
    ensures { OnOk result (out.new.items ≡ out.old.items ++ block pieces.now) }
{
    push_vtable(out, pieces)?;
    push_low(out, vtable_size_of(pieces))?;
    push_body(out, pieces)
}
