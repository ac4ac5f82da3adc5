//! Columns that are made of values.
ghost use Rattle.std.specs.Prelude.{◌≡◌, ◌++◌, ◌+◌, ℤ, Option, map, length, is_some, unwrap_or};
ghost use Rattle.std.specs.Prelude.{string_bytes, replicate, OnOk, IfOk, IfSome, true, false, Some, None, if◌then◌else◌};
ghost use Rattle.std.specs.List.{All, flat_map};
ghost use Rattle.vx_rows.specs.Columns.{may_hold, are_there, texts_of};
ghost use Rattle.vx_rows.specs.Span.{span};
ghost use Rattle.vx_rows.specs.Written.{is_within, text_bytes, text_place};
ghost use Rattle.std.specs.Option.{option_map};
ghost use Rattle.vx_rows.specs.Rows.{bools, ints, texts, structs, column_view, pairs_view, AllHaveRows};

use crate::cells::cells_of;
use crate::text_places::TextPlaces;
use crate::{Bits, BoolColumn, Column, Columns, IntColumn, StructRows, TextColumn};
use std::alloc::{AllocError, Global};
use vx_base::{Alignment, ByteBuffer};
use vx_data::PType;

/// Which values are there.
fn flags_of<T>(alloc: Global, values: &[Option<T>]) -> Result<Vec<bool>, AllocError>
    ensures { IfOk result (λ flags. flags.items ≡ map is_some values.now) }
{
    let mut flags = Vec::new(alloc);
    for value in values {
        flags.push(value.is_some())?;
    }
    Ok(flags)
}

/// The values, and false where there is none.
fn bits_of(alloc: Global, values: &[Option<bool>]) -> Result<Vec<bool>, AllocError>
    ensures { IfOk result (λ bits. bits.items ≡ map (λ v. unwrap_or v false) values.now) }
{
    let mut bits = Vec::new(alloc);
    for value in values {
        bits.push(value.unwrap_or(false))?;
    }
    Ok(bits)
}

/// Which rows are not null, where they may be.
fn presence_of(alloc: Global, nullable: bool, flags: &[bool]) -> Result<Option<Bits>, AllocError>
    ensures { IfOk result (λ present. present ≡ (if nullable then Some flags.now else None)) }
{
    if !nullable {
        return Ok(None);
    }
    let bits = Bits::from_rows(alloc, flags)?;
    Ok(Some(bits))
}

/// Truth values, none only where they may be null.
fn make_bools(
    alloc: Global,
    values: &[Option<bool>],
    nullable: bool,
) -> Result<BoolColumn, AllocError>
    requires { may_hold nullable values.now ≡ true }
    ensures { IfOk result (λ column. column ≡ record { nullable = nullable; rows = values.now }) }
{
    let flags = flags_of(alloc, values)?;
    let present = presence_of(alloc, nullable, &flags)?;
    let values = bits_of(alloc, values)?;
    let bits = Bits::from_rows(alloc, &values)?;
    Ok(BoolColumn::new(nullable, present, bits))
}

/// Integers in the range of their type, none only where they may be null.
fn make_ints(
    alloc: Global,
    ptype: PType,
    values: &[Option<i128>],
    nullable: bool,
) -> Result<IntColumn, AllocError>
    requires allowed { may_hold nullable values.now ≡ true }
    requires within { All (λ (value : Option ℤ). IfSome value (λ n. is_within ptype n ≡ true)) values.now }
    ensures { IfOk result (λ column. column ≡ record { ptype = ptype; nullable = nullable; rows = values.now }) }
{
    let flags = flags_of(alloc, values)?;
    let present = presence_of(alloc, nullable, &flags)?;
    let bytes = cells_of(alloc, ptype, values)?;
    let held = ByteBuffer::from_vec(alloc, bytes, Alignment::none())?;
    let column = IntColumn::new(alloc, ptype, nullable, present, &held, 0, values.len())?;
    Ok(column)
}

/// Adds the bytes of a text, if there is one.
fn push_text(bytes: &mut Vec<u8>, text: &Option<String>) -> Result<(), AllocError>
    ensures { OnOk result (bytes.new.items ≡ bytes.old.items ++ text_bytes (option_map string_bytes text.now)) }
{
    match text {
        Some(text) => bytes.extend_from_slice(text.as_bytes()),
        None => Ok(()),
    }
}

/// The bytes of texts, one behind the other, and their places, and the place behind the last.
fn gather(alloc: Global, values: &[Option<String>]) -> Result<(Vec<u8>, TextPlaces), AllocError>
    ensures bytes { IfOk result (λ x. x.0.items ≡ flat_map text_bytes (texts_of values.now)) }
    ensures places { IfOk result (λ x. x.1 ≡ span (text_place (texts_of values.now)) 0 (length values.now + 1)) }
{
    let mut bytes = Vec::new(alloc);
    let mut places = TextPlaces::with_capacity(alloc, values.len())?;
    places.push(0)?;
    for value in values {
        push_text(&mut bytes, value)?;
        places.push(bytes.len())?;
    }
    Ok((bytes, places))
}

/// Texts, none only where they may be null.
fn make_texts(
    alloc: Global,
    values: &[Option<String>],
    nullable: bool,
) -> Result<TextColumn, AllocError>
    requires { may_hold nullable values.now ≡ true }
    ensures { IfOk result (λ column. column ≡ record { nullable = nullable; rows = texts_of values.now }) }
{
    let flags = flags_of(alloc, values)?;
    let present = presence_of(alloc, nullable, &flags)?;
    let (bytes, places) = gather(alloc, values)?;
    let held = ByteBuffer::from_vec(alloc, bytes, Alignment::none())?;
    let column = TextColumn::new(alloc, nullable, present, &held, places, values.len())?;
    Ok(column)
}

/// Structs, not there only where they may be null.
fn make_structs(alloc: Global, present: &[bool], nullable: bool) -> Result<StructRows, AllocError>
    requires { are_there nullable present.now ≡ true }
    ensures { IfOk result (λ rows. rows ≡ record { nullable = nullable; present = present.now }) }
{
    let bits = presence_of(alloc, nullable, present)?;
    Ok(StructRows::new(nullable, bits, present.len()))
}

/// So many structs that are there. None may be null.
#[tactic(auto, using(crate::proofs::MakingLemmas::all_there))]
fn present_rows(rows: usize) -> StructRows
    ensures { result ≡ record { nullable = false; present = replicate rows true } }
{
    StructRows::new(false, None, rows)
}

impl Column {
    /// A column of truth values, none only where it may be null. Only memory refuses.
    pub fn bools(
        alloc: Global,
        values: &[Option<bool>],
        nullable: bool,
    ) -> Result<Column, AllocError>
        requires { may_hold nullable values.now ≡ true }
        ensures { IfOk result (λ column. column_view column ≡ bools (record { nullable = nullable; rows = values.now })) }
    {
        let column = make_bools(alloc, values, nullable)?;
        Ok(Column::Bool(column))
    }

    /// A column of integers in the range of their type, none only where it may be null. Only memory refuses.
    pub fn ints(
        alloc: Global,
        ptype: PType,
        values: &[Option<i128>],
        nullable: bool,
    ) -> Result<Column, AllocError>
        requires allowed { may_hold nullable values.now ≡ true }
        requires within { All (λ (value : Option ℤ). IfSome value (λ n. is_within ptype n ≡ true)) values.now }
        ensures { IfOk result (λ column. column_view column ≡ ints (record { ptype = ptype; nullable = nullable; rows = values.now })) }
    {
        let column = make_ints(alloc, ptype, values, nullable)?;
        Ok(Column::Int(column))
    }

    /// A column of texts, none only where it may be null. Only memory refuses.
    pub fn texts(
        alloc: Global,
        values: &[Option<String>],
        nullable: bool,
    ) -> Result<Column, AllocError>
        requires { may_hold nullable values.now ≡ true }
        ensures { IfOk result (λ column. column_view column ≡ texts (record { nullable = nullable; rows = texts_of values.now })) }
    {
        let column = make_texts(alloc, values, nullable)?;
        Ok(Column::Text(column))
    }

    /// A column of structs of fields that have as many rows, not there only where it may be null. Only
    /// memory refuses.
    pub fn structs(
        alloc: Global,
        fields: Vec<(String, Column)>,
        present: &[bool],
        nullable: bool,
    ) -> Result<Column, AllocError>
        requires allowed { are_there nullable present.now ≡ true }
        requires long { AllHaveRows (length present.now) (pairs_view fields.items) }
        ensures { IfOk result (λ column. column_view column
            ≡ structs (record { nullable = nullable; present = present.now }) (pairs_view fields.items)) }
    {
        let rows = make_structs(alloc, present, nullable)?;
        Ok(Column::Struct(rows, Columns::new(fields)))
    }

    /// A column of structs of fields that have so many rows. Each struct is there, and none may be null.
    pub fn present_structs(fields: Vec<(String, Column)>, rows: usize) -> Column
        requires { AllHaveRows rows (pairs_view fields.items) }
        ensures { column_view result ≡ structs (record { nullable = false; present = replicate rows true }) (pairs_view fields.items) }
    {
        Column::Struct(present_rows(rows), Columns::new(fields))
    }
}
