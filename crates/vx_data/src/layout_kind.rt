//! How the rows of a layout are kept.

/// How the rows of a layout are kept.
#[derive(Clone, Copy, Debug, PartialEq, Eq)]
pub enum LayoutKind {
    /// All rows in one segment.
    Flat,
    /// Some rows behind one another in each child.
    Chunked,
    /// A child for each field, behind one that tells which rows are there where they may be null.
    Struct,
}
