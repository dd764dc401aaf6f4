//! The program utf8 but for its `main`: its words, its files in order, and the lines that tell how it ended.
//!
//! It stands on filters, filters_own, utf8_converter, utf8_own_sink, utf8_characters and what these stand on. To read: `arguments`;
//! `choosing`; `own`; `program`.
#![tactic(auto)]

mod arguments;
mod choosing;
mod own;
mod program;

pub use program::Utf8;
