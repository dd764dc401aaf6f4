//! Pages of mdoc(7) become pages of man(7).
//!
//! It stands on nr_units, nr_vectors, document_stages, mdoc_layout and mdoc_words. To read: `lines`, `rows`, `definitions`, `scan`,
//! which puts them together; `pending`, `reader`, `strings`, `at_hand`; `staged`, `running`; `passing`, `word_laws`.
#![tactic(auto)]

mod at_hand;
mod definitions;
mod lines;
mod passing;
mod pending;
mod reader;
mod rows;
mod running;
mod scan;
mod staged;
mod strings;
mod word_laws;

pub use document_stages::RunEnd;
pub use mdoc_layout::Block;
pub use passing::passes_unchanged;
pub use running::convert;
pub use staged::MdocConverter;
pub use word_laws::words_are_said;
