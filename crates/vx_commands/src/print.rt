//! What is printed, by kinds of lines.
pub(crate) mod fault;
pub(crate) mod help;
pub(crate) mod reply;
pub(crate) mod served;
pub(crate) mod summary;
pub(crate) mod truth;
