//! What is wrong with the lines of a page of man(7): names that nothing defines, escapes that are none, blocks that are not ended
//! or not open, and a title that is missing or late.
//!
//! It stands on filters, filters_complaints, nr_units and nr_vectors. To read: `names`, `calls`, `lines`, `escapes`; `reporting`, `own_names`,
//! `watching`; `complaints`, `looking`, `laws`.
#![tactic(auto)]

mod calls;
mod complaints;
mod escapes;
mod laws;
mod lines;
mod looking;
mod names;
mod own_names;
mod reporting;
mod watching;

pub use laws::complaints_have_lines;
pub use looking::tell_page;
