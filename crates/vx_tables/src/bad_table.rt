//! Why a table root cannot be read.
use thiserror::Error;

/// The bytes are no readable table, or it is too deep or too large.
#[derive(Clone, Copy, Debug, Error, PartialEq, Eq)]
#[error("the table can't be read")]
pub struct BadTable;
