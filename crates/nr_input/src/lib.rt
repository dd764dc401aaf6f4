//! The input: one list of items, read ahead of by one byte of the source at most, and what is read out of it
//! move by move.
//!
//! It stands on nr_units, nr_vectors, nr_pool, nr_levels, nr_symbol_tables, nr_store and nr_reading. To read:
//! `reader`, `refusal`, `emitted`; `place`; `acting`, `moving`; `splicing`, `setting`. Many moves at once are in
//! fast_input.
#![tactic(auto)]

mod acting;
mod emitted;
mod moving;
mod place;
mod reader;
mod refusal;
mod setting;
mod splicing;

pub use emitted::{Emitted, Heard};
pub use moving::advance;
pub use nr_reading::{Event, Question, Standing};
pub use place::{Ahead, Place};
pub use reader::Reader;
pub use refusal::Refusal;
pub use splicing::Definition;
