//! Tests of the writer of files of rows, which use the public calls of the libraries alone.
#![tactic(auto)]

#[cfg(test)]
mod layouts;
#[cfg(test)]
mod reopening;
#[cfg(test)]
mod segments;
#[cfg(test)]
mod streams;
#[cfg(test)]
mod writers;
