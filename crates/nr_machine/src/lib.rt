//! The machine: the state of a run, in the memory that its limits allow, and its moves, one at a time.
//!
//! It stands on nr_formatter, nr_page, nr_options and the crates below them. To read: `outcome`,
//! `lengths`; `engine`, `beginning`, `choosing`; its moves in `pages`, `lines`, `breaks`, `titles`, `rooms`,
//! `diverted`, `spacing`, `ejecting`.
#![tactic(auto)]

mod beginning;
mod breaks;
mod choosing;
mod diverted;
mod ejecting;
mod engine;
mod lengths;
mod lines;
mod outcome;
mod pages;
mod rooms;
mod spacing;
mod titles;

pub use beginning::sizes;
pub use engine::Engine;
pub use lengths::Sizes;
pub use outcome::{Measure, Outcome};
