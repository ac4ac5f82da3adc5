//! A field of a table that is written, as its bytes.
use std::marker::Model;

/// A field of a table that is written.
#[derive(Debug, Drop)]
pub(crate) struct Piece {
    pub(crate) slot: usize,
    pub(crate) lead: Option<usize>,
    pub(crate) bytes: Vec<u8>,
}

impl Model for Piece {
    ghost use Rattle.vx_tables.specs.Block as written;

    ghost Value = { written.Piece };

    ghost view = { λ a. record { slot = a.slot; lead = a.lead; bytes = a.bytes.items } };
}
