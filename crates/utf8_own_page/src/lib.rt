//! The table of a page's own characters: what a page prints is looked at, and where no fixed table has all of it, one is made of it.
//!
//! It stands on preconv_characters, utf8_own_characters, utf8_characters, tbl_table, nr_vectors and nr_units. To read: `looking`, `needing`, `making`, `lacking`, `cells`, `signs`; `laws`.
#![tactic(auto)]

mod cells;
mod lacking;
pub mod laws;
mod looking;
mod making;
mod needing;
mod signs;

pub use cells::{Cells, counted, names_of_numbered};
pub use needing::{MORE_LOOKED_AT, has_all, lacks, may_need_own, prefix_of};
pub use signs::signs_of;
