//! The collected line: text that is read and not set yet, cutting lines off it, spreading them, setting them in
//! a row of cells, tab stops, and titles.
//!
//! It stands on nr_units, nr_vectors and nr_settings. To read: `piece`, `margins`, `setting`, `stops`; `measured`,
//! `cells`, `title`; `cutting`, `cell_row`, `out`; `plain`, `queue`, `piece_row`; then `line`, and its calls in `words`,
//! `runs`, `tabs`, `taking`, `titling`.
#![tactic(auto)]

pub mod cell_row;
pub mod cells;
mod cutting;
pub mod line;
pub mod margins;
pub mod measured;
pub mod out;
pub mod piece;
mod piece_row;
mod plain;
mod queue;
mod runs;
pub mod setting;
pub mod stops;
mod tabs;
mod taking;
pub mod title;
mod titling;
mod words;
