//! Tests of files that are opened, served and scanned, and of the smallest files that are written, which use the public
//! calls of the libraries alone.
#![tactic(auto)]

#[cfg(test)]
mod example;
#[cfg(test)]
mod four_values;
#[cfg(test)]
mod kept_footers;
#[cfg(test)]
mod multi_files;
#[cfg(test)]
mod opening;
#[cfg(test)]
mod reader_scans;
#[cfg(test)]
mod scans;
#[cfg(test)]
mod serving;
