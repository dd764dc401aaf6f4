//! Text in UTF-16 or in a set of eight bits, read as UTF-8, and text in UTF-8 without its mark.
//!
//! It stands on nr_units. To read: `wide`, `sets`, `names`, `tag`, `part`, `under_coding`.
#![tactic(auto)]

mod names;
mod part;
mod sets;
mod tables;
mod tag;
mod under_coding;
mod wide;

pub use names::Coding;
pub use sets::Set;
pub use under_coding::{UnderCoding, Unknown};
