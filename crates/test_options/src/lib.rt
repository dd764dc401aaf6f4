//! Nothing for other crates: tests of what a command line's words mean: good words and bad ones, page lists, the ranges
//! of limits, and texts that are read one after the other.
//!
//! It stands on nr_command_options, nr_options and command_line. To read: the files in any order.
#![tactic(auto)]

#[cfg(test)]
mod bad_words;
#[cfg(test)]
mod command_words;
#[cfg(test)]
mod files_in_order;
#[cfg(test)]
mod good_words;
#[cfg(test)]
mod limit_ranges;
#[cfg(test)]
mod page_lists;
