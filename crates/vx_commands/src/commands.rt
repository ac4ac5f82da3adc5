//! The commands, each with its arguments, how they are parsed, and what it answers.
pub(crate) mod demo;
pub(crate) mod generate;
pub(crate) mod prune;
pub(crate) mod scan;
pub(crate) mod serve;
pub(crate) mod sizes;
pub(crate) mod write;
