//! For speed: many moves of the input at once, of bytes that lie in a stretch: of the source, of levels, and those that
//! are spliced between them. Each contract says only that so many steps of the meaning were made.
//!
//! It stands on nr_units, nr_vectors, nr_pool, nr_levels, nr_symbol_tables, nr_store, nr_reading and nr_input. To
//! read: `at_hand`, `target`, `adding`, `stretches`, `runs`, `level_lines`, `level_stretches`, `beginnings`,
//! `interpolations`, `levels`, `splices`, `gathering`, `macro_lines`, `body_lines`, `dropped_lines`,
//! `control_lines`, `fonts`.
//!
//! Proved: Each call makes many moves of nr_input at once.
#![tactic(auto)]

mod adding;
mod at_hand;
mod beginnings;
mod body_lines;
mod control_lines;
mod dropped_lines;
mod fonts;
mod gathering;
mod interpolations;
mod level_lines;
mod level_stretches;
mod levels;
mod macro_lines;
mod runs;
mod splices;
mod stretches;
mod target;

pub use at_hand::{take_window, window};
pub use body_lines::read_body_lines;
pub use control_lines::{read_control_line, read_next};
pub use dropped_lines::read_dropped_line;
pub use fonts::take_in_font;
pub use gathering::{Gathered, gather, leave};
pub use levels::read_levels;
pub use runs::{Moved, read_run};
