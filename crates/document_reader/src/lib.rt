//! What the formatter reads of a page: mdoc becomes man, and characters and escapes what it knows, as bytes are asked
//! for.
//!
//! It stands on document_stages, mdoc_converter, preconv_characters, preconv_converter, utf8_own_stage, utf8_own_characters and nr_units. To read: `page`, `places`, `own`, `skimmed`.
#![tactic(auto)]

mod own;
mod page;
mod places;
mod skimmed;

pub use own::{OwnText, read_own_page};
pub use page::{PageText, Stages, Waits, read_page};
pub use places::Places;
pub use skimmed::{Skimmed, skim_page};
