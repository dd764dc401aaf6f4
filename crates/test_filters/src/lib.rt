//! Nothing for other crates: tests of mdoc, preconv, tbl and utf8: runs of these programs over words and texts in memory, with
//! their lines and their status. What they write of a text by its own is shown by the examples in data/ of the programs' crates.
//!
//! It stands on the libraries of the four, filters and command_line. To read: `runs`, then the files in any order.
#![tactic(auto)]

#[cfg(test)]
mod mdoc;
#[cfg(test)]
mod preconv;
#[cfg(test)]
mod runs;
#[cfg(test)]
mod tbl;
#[cfg(test)]
mod utf8;
