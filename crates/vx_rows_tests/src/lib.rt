//! Tests of columns, of predicates on their rows, and of pruning, which use the public calls of the libraries alone.
#![tactic(auto)]

#[cfg(test)]
mod arrays;
#[cfg(test)]
mod parts;
#[cfg(test)]
mod predicate_words;
#[cfg(test)]
mod predicates;
#[cfg(test)]
mod pruning;
