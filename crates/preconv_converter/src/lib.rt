//! What manual pages use, turned into the language of the formatter.
//!
//! It stands on nr_units, nr_vectors, document_stages, preconv_characters and preconv_lines. To read: `runs`, `reader`, `whole`, `letters`,
//! `passing`; `staged`, `running`; `plain_text`, `word_laws`.
#![tactic(auto)]

mod letters;
mod passing;
mod plain_text;
mod reader;
mod running;
mod runs;
mod staged;
mod whole;
mod word_laws;

pub use document_stages::RunEnd;
pub use plain_text::passes_unchanged;
pub use preconv_characters::Target;
pub use running::convert;
pub use staged::PreconvConverter;
pub use word_laws::words_go_out;
