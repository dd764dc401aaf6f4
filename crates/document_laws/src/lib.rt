//! Laws of a whole document: what a reader may say of what goes out, whatever the page is, proved over the definition alone.
//!
//! It stands on document_printing, nr_laws, nr_machine and the crates below them. To read: `laws`, and in specs/ `Laws`.
//!
//! Proved: Laws of what a reader gets of a page. None of them calls `print_shown`; its contract ties it to the same
//! definition.
#![tactic(auto)]

pub mod laws;
