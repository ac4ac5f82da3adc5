//! How the rows of one type are laid out.
use crate::LeafStrategy;

/// How the rows of a type are laid out.
#[derive(Drop)]
pub(crate) enum Plan {
    /// In chunks.
    Leaf(LeafStrategy),
    /// By their fields, behind a validity column, where there is one.
    Struct(Option<LeafStrategy>, Vec<Plan>),
}
