//! The lines of a table: which there are, and what stands on each. They go out as lines of text, with few requests before and
//! after them.
//!
//! It stands on nr_units, nr_vectors, tbl_blocks, tbl_table and tbl_columns. To read: `layout`, `steps`, `heights`; `pen`,
//! `writing`, `strokes`, `fields`, `blocks`; `drawing`, `ruling`, `lines`; `laws`.
#![tactic(auto)]

mod blocks;
mod drawing;
mod fields;
mod heights;
pub mod laws;
mod layout;
mod lines;
mod pen;
mod ruling;
mod steps;
mod strokes;
mod writing;

pub use layout::Layout;
pub use writing::Out;
