//! What the elements of a vector are.
ghost use Rattle.std.specs.Prelude.{◌≡◌};

/// What a vector has as elements.
#[derive(Clone, Copy, Debug, PartialEq, Eq)]
pub enum Elements {
    /// Numbers of this width in bytes.
    Numbers(usize),
    /// Offsets of tables or texts.
    Offsets,
    /// Segment structs of 16 bytes.
    Segments,
}

impl Elements {
    ghost use Rattle.vx_tables.specs.Field.{element_size};

    /// How many bytes an element takes.
    pub(crate) fn size(self) -> usize
        ensures { result ≡ element_size self }
    {
        match self {
            Elements::Numbers(width) => width,
            Elements::Offsets => 4,
            Elements::Segments => 16,
        }
    }
}
