//! For speed: many moves of a run at once: those that `put_at_hand` makes before the next single one. Each contract says only
//! that so many steps of the meaning were made.
//!
//! It stands on nr_machine, fast_input, nr_formatter and the crates below them. To read: `reading`, `fonts`,
//! `escapes`, `plain_text`, `level_text`, `rereading`, `empty_lines`, `obeying`.
#![tactic(auto)]

mod empty_lines;
mod escapes;
mod fonts;
mod level_text;
mod obeying;
mod plain_text;
mod reading;
mod rereading;

pub use plain_text::put_at_hand;
pub use reading::reads_on;
