//! Words of the lines of mdoc(7): how their bytes are kept, what they are the names of, which macros they call, and what
//! a macro takes them for.
//!
//! It stands on nr_units and mdoc_layout. To read: `macros`, `meanings`, `rules`, `calls`, `taking`; `options`,
//! `escaping`, `keeping`; `words`, which has what becomes of a word that is whole.
#![tactic(auto)]

mod calls;
mod escaping;
mod keeping;
mod macros;
mod meanings;
mod options;
mod rules;
mod taking;
mod words;

pub use calls::{called, is_pending, leaves, tab};
pub use escaping::escape_then;
pub use keeping::{
    closing, ends_word, in_escape, in_name_of, in_quotes, in_word, turns, word_begins,
};
pub use macros::{is_macro, looked_up, macro_of};
pub use rules::is_synopsis;
pub use words::{given, goes_on, long};
