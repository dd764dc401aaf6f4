//! Nothing for other crates: tests of nr_command: runs of the program nroff over words and texts in memory, with its
//! lines and its status.
//!
//! It stands on nr_command and the crates of its words. To read: the files in any order.
#![tactic(auto)]

#[cfg(test)]
mod arguments;
#[cfg(test)]
mod lines;
#[cfg(test)]
mod statuses;
#[cfg(test)]
mod systems;
