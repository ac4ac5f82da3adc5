//! What is held back of a leaf once a push is settled.
use vx_rows::GrowingColumn;

/// What is held back of a leaf once a push is settled: its rows, where they are not the ones that are held now with some
/// behind them, and how many bytes its whole blocks have.
#[derive(Drop)]
pub(crate) struct Pending {
    pub(crate) rows: Option<GrowingColumn>,
    pub(crate) gathered: u64,
}
