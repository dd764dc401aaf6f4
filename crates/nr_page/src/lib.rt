//! The open page: lines of cells placed on rows, later ones over earlier ones, and the bytes that it prints;
//! and which pages are printed.
//!
//! It stands on nr_units, nr_vectors and nr_pool. To read: `row`, `gap_vec`, `placing`; `faces`, `gathering`, `writing`; `page`;
//! `selection`.
#![tactic(auto)]

mod faces;
mod gap_vec;
mod gathering;
pub mod page;
mod placing;
pub mod row;
mod selection;
mod writing;

pub use faces::Faces;
pub use selection::{BadList, PageRange, Select};
