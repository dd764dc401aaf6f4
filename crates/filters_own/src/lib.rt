//! What the filters share of the table of a page's own characters: its name, and how the page is looked at.
//!
//! It stands on filters, document_reader, preconv_coding, utf8_own_page and what these stand on. To read: `names`, `prefixes`,
//! `looking`.
#![tactic(auto)]

mod looking;
mod names;
mod prefixes;

pub use looking::{count_prefix, look_at};
pub use names::{Named, file_at, table_at};
pub use prefixes::{first_of, room_for};
