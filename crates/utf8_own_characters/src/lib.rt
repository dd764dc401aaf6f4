//! The table of a page's own characters: one byte, or two, for each of those that the page has.
//!
//! It stands on nr_vectors and utf8_characters. To read: `cluster`, `joining`; `table`, `reading`; `counting`, `choosing`; `laws`,
//! which say in which way a row is read back; `breaking`. `index` only saves time.
#![tactic(auto)]

mod breaking;
mod choosing;
mod cluster;
mod counting;
mod decoding;
mod index;
mod joining;
pub mod laws;
mod listening;
mod looking;
mod ranking;
mod reading;
mod table;

pub use breaking::{is_east_asian, may_break_between};
pub use choosing::{MOST_NARROW, MOST_WIDE, choose, halves_for};
pub use cluster::{Cluster, is_mark};
pub use counting::{Count, count_cluster};
pub use decoding::{Decoded, Part};
pub use index::fill_slots;
pub use joining::{Heard, hear};
pub use listening::{Listened, Listener, begins_letter};
pub use looking::{end_look, look_at, takes_place};
pub use ranking::rank;
pub use reading::Read;
pub use table::{Code, OwnTable};
