//! The texts of footers, of rows and of the sizes of fields.
#![tactic(auto, using(vx_text::proofs::TextLemmas::adds_then, vx_text::proofs::TextLemmas::adds_nothing))]

mod footer;
mod layout;
mod printable_rows;
mod rows;
mod sizes;
mod statistics;
mod words;

pub use footer::put_footer;
pub use printable_rows::PrintableRows;
pub use rows::put_rows;
pub use sizes::put_sizes;
pub use words::{put_line, put_numbers, put_quoted, put_words};
