//! Nothing for other crates: tests of how readers and writers of std are called, which of their answers are faults, and
//! what is left then.
//!
//! It stands on nr_units. To read: `turns`, the readers and writers of the tests; then the others in any order.
#![tactic(auto)]

#[cfg(test)]
mod readers;
#[cfg(test)]
mod turns;
#[cfg(test)]
mod writers;
