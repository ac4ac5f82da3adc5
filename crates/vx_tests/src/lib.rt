//! Tests of the libraries that read and hold the parts of files, which use their public calls alone. They stand apart, so
//! that no library is proved twice.
#![tactic(auto)]

#[cfg(test)]
mod base;
#[cfg(test)]
mod data;
#[cfg(test)]
mod footers;
#[cfg(test)]
mod postscripts;
#[cfg(test)]
mod serializers;
#[cfg(test)]
mod tables;
