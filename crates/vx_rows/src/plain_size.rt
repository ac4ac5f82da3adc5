//! How many bytes the rows of columns take, written plainly.
ghost use Rattle.std.specs.Prelude.{◌≡◌, ◌+◌, ◌-◌, ◌*◌, ◌^◌, Bool, min};
ghost use Rattle.vx_rows.specs.Bits.{bitmap_size};
ghost use Rattle.vx_rows.specs.Columns.{value_size};
ghost use Rattle.vx_rows.specs.Rows.{column_view, columns_view, pairs_view};
ghost use Rattle.vx_rows.specs.Parts.{nulls_size, plain_size, fields_plain_size};

use crate::bits::bitmap_len;
use crate::int_column::size_of;
use crate::{Column, Columns};
use vx_data::PType;

/// How many of so many rows lie from one on, up to another.
pub fn rows_between(rows: usize, from: usize, to: usize) -> usize
    ensures { result ≡ min (to - from) (rows - from) }
{
    to.min(rows).saturating_sub(from)
}

/// How many bytes it takes to say which rows are null.
fn size_of_nulls(nullable: bool, rows: usize) -> u64
    ensures { result ≡ nulls_size nullable rows }
{
    if nullable { bitmap_len(rows) as u64 } else { 0 }
}

/// The size of truth values.
pub fn size_of_bools(nullable: bool, rows: usize) -> u64
    ensures { result ≡ min (bitmap_size rows + nulls_size nullable rows) (2 ^ 64 - 1) }
{
    size_of_nulls(nullable, rows).saturating_add(bitmap_len(rows) as u64)
}

/// The size of integers.
pub fn size_of_ints(ptype: PType, nullable: bool, rows: usize) -> u64
    ensures { result ≡ min (value_size ptype * rows + nulls_size nullable rows) (2 ^ 64 - 1) }
{
    let values = (size_of(ptype) as u64).saturating_mul(rows as u64);
    values.saturating_add(size_of_nulls(nullable, rows))
}

/// The size of texts of so many bytes, at most 2^64 - 1.
pub fn size_of_texts(nullable: bool, rows: usize, bytes: u64) -> u64
    ensures { result ≡ min ((4 * rows + bytes) + nulls_size nullable rows) (2 ^ 64 - 1) }
{
    let lengths = (rows as u64).saturating_mul(4);
    lengths
        .saturating_add(bytes)
        .saturating_add(size_of_nulls(nullable, rows))
}

/// The size of structs whose fields have so many bytes, at most 2^64 - 1.
pub fn size_of_structs(nullable: bool, rows: usize, fields: u64) -> u64
    ensures { result ≡ min (fields + nulls_size nullable rows) (2 ^ 64 - 1) }
{
    fields.saturating_add(size_of_nulls(nullable, rows))
}

/// The sum of the sizes of fields.
#[cycle(measuring)]
#[tactic(auto, using(crate::proofs::PartLemmas::field_sizes))]
fn size_of_all(columns: &[(String, Column)]) -> u64
    ensures { result ≡ min (fields_plain_size (pairs_view columns.now)) (2 ^ 64 - 1) }
{
    let mut size: u64 = 0;
    for at in 0..columns.len() {
        size = size.saturating_add(size_of_one(&columns[at].1));
    }
    size
}

/// The sum of the sizes of a struct's fields.
#[cycle(measuring)]
fn size_of_fields(columns: &Columns) -> u64
    ensures { result ≡ min (fields_plain_size (columns_view columns.now)) (2 ^ 64 - 1) }
{
    size_of_all(&columns.columns)
}

/// The size of a column.
#[cycle(measuring)]
fn size_of_one(column: &Column) -> u64
    ensures { result ≡ min (plain_size (column_view column.now)) (2 ^ 64 - 1) }
{
    match column {
        Column::Bool(column) => column.plain_size(),
        Column::Int(column) => column.plain_size(),
        Column::Text(column) => column.plain_size(),
        Column::Struct(rows, columns) => {
            size_of_structs(rows.is_nullable(), rows.len(), size_of_fields(columns))
        }
    }
}

impl Column {
    /// How many bytes the rows take, written plainly; 2^64 - 1 where they are more.
    pub fn plain_size(&self) -> u64
        ensures { result ≡ min (plain_size (column_view self.now)) (2 ^ 64 - 1) }
    {
        size_of_one(self)
    }
}
