//! The characters of a page become the bytes of its own table, a part of the page after the other, and lines of East Asian text may be cut.
//!
//! It stands on document_stages, nr_vectors, preconv_characters and utf8_own_characters. To read: `points`, `sides`, `runs`, `plain`, `coding`, `staged`; `laws`.
#![tactic(auto)]

mod coding;
pub mod laws;
mod plain;
mod points;
mod runs;
mod sides;
mod staged;

pub use staged::Coder;
