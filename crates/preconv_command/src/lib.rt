//! The program preconv but for its `main`: its words, its files in order, and the lines that tell how it ended.
//!
//! It stands on filters, filters_own, preconv_converter, preconv_coding, utf8_own_stage and what these stand on. To read: `arguments`,
//! `lines`, `through`, `unshown`, `own`, `program`.
#![tactic(auto)]

mod arguments;
mod lines;
mod own;
mod program;
mod through;
mod unshown;

pub use program::Preconv;
