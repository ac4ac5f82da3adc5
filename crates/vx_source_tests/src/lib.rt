//! Tests of the libraries that gather reads and serve requests, which use their public calls alone. They stand apart, so
//! that no library is proved twice.
#![tactic(auto)]

#[cfg(test)]
mod merging;
#[cfg(test)]
mod scheduler;
#[cfg(test)]
mod sessions;
