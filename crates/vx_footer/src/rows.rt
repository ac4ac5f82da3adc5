//! The tables of a file as they stand, before any check.
ghost use Rattle.std.specs.Prelude.{◌≡◌};
ghost use Rattle.vx_footer.specs.Opening.{is_plain as is_plain_locator};

use std::marker::Model;
use vx_base::{Sequence, Text};
use vx_tables::VectorReader;

/// Where a table or a value lies, and whether compression or encryption is named.
#[derive(Clone, Copy, Debug, PartialEq, Eq)]
pub struct Locator {
    pub offset: u64,
    pub length: u32,
    pub exponent: u8,
    pub is_coded: bool,
}

/// A metadata entry.
#[derive(Debug, Drop)]
pub struct MetadataRow {
    pub key: Text,
    pub segment: Locator,
}

/// The postscript: where the other tables lie, and the metadata.
#[derive(Debug, Drop)]
pub struct PostscriptRow {
    pub dtype: Option<Locator>,
    pub layout: Locator,
    pub statistics: Option<Locator>,
    pub footer: Locator,
    pub metadata: Sequence<MetadataRow>,
}

/// The footer's table: the ids of arrays and layouts, and the vector of the data segments' places.
#[derive(Debug, Drop)]
pub struct FooterRow<'a> {
    pub(crate) array_ids: Vec<String>,
    pub(crate) layout_ids: Vec<String>,
    pub(crate) places: VectorReader<'a>,
}

impl<'a> Model for FooterRow<'a> {
    ghost use Rattle.std.specs.Prelude.{◌≡◌, ◌*◌, ◌≤◌, length, map, string_bytes};
    ghost use Rattle.vx_tables.specs.Field.{element_bytes};
    ghost use Rattle.vx_tables.specs.declared.elements.Elements.{Elements};
    ghost use Rattle.vx_footer.specs.FooterTable.{FooterTable};
    ghost use Rattle.vx_footer.specs.Tables.{segment_structs};

    ghost Value = { FooterTable };

    ghost view = { λ a. record {
      arrays = map string_bytes a.array_ids.items;
      layouts = map string_bytes a.layout_ids.items;
      segments = segment_structs a.places.vector.count (element_bytes a.places.bytes a.places.vector Elements.Segments);
    } };

    ghost invariant = { λ a. (a.places.elements ≡ Elements.Segments)
        × (a.places.vector.count * 16 ≤ length (element_bytes a.places.bytes a.places.vector Elements.Segments)) };
}

impl Locator {
    /// Whether neither compression nor encryption is named.
    pub(crate) fn is_plain(&self) -> bool
        ensures { result ≡ is_plain_locator self.now }
    {
        !self.is_coded
    }
}
