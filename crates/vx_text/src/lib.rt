//! Texts on their way to a sink, and the numbers and options of command lines.
#![tactic(auto, using(crate::proofs::TextLemmas::adds_then, crate::proofs::TextLemmas::adds_nothing))]

mod digits;
mod hexadecimal;
mod numbers;
mod options;
mod room;
mod text;

pub use hexadecimal::put_hex;
pub use numbers::{number, value};
pub use options::{Shape, are_options, behind, first, optional_number, value_count, values_of};
pub use text::TextOut;
