//! The program mdoc but for its `main`: its words, its files in order, what is wrong with pages, and the lines that tell how it
//! ended.
//!
//! It stands on filters, filters_complaints, mdoc_layout, mdoc_words, mdoc_converter, nr_units and nr_vectors. To read: `names`,
//! `lines`, `telling`, `wording`, `naming`, `watching`, `watched`; `complaints`, `looking`, `rooms`, `program`.
#![tactic(auto)]

mod complaints;
mod lines;
mod looking;
mod names;
mod naming;
mod program;
mod rooms;
mod telling;
mod watched;
mod watching;
mod wording;

pub use looking::tell_page;
pub use program::Mdoc;
