//! The bytes of a page's own table go out in UTF-8.
//!
//! It stands on nr_units, nr_vectors, document_stages, utf8_converter and utf8_own_characters. To read: `letters`, `cells`, `runs`, `staged`; `pending`, `showing`.
#![tactic(auto)]

mod cells;
mod letters;
mod pending;
mod runs;
mod showing;
mod staged;

pub use showing::Shown;
pub use staged::Decoder;
