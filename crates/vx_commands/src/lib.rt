//! The commands of the program: the words that ask for them, what they answer, its text, and why they fail.
#![tactic(auto, using(vx_text::proofs::TextLemmas::adds_then, vx_text::proofs::TextLemmas::adds_nothing))]

mod answer;
mod command;
mod commands;
mod failure;
mod filter;
mod input;
mod made_file;
mod metadata_words;
mod name;
mod performing;
mod print;
mod printable;
mod reading;
mod refusal;
mod row_type;
mod rows_file;
mod scanning;
mod script;
mod serving;
mod summary;
mod table;
mod words;

pub use command::Command;
pub use failure::Failure;
pub use performing::{fail, perform};
pub use words::unread;
