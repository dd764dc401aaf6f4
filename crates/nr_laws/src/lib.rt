//! Laws of the output: what a reader may say of nroff's definition in its own words, proved over the definition alone.
//!
//! It stands on nr_machine and the crates below it. To read: `laws`, and in specs/ `Limited`, `Laws`; `Moves`; `PlainText`;
//! `FilledText`.
//!
//! Proved: Laws of the definition over whole runs. None of them calls the formatter; `format`'s contract ties it to
//! the same definition.
#![tactic(auto)]

pub mod laws;
