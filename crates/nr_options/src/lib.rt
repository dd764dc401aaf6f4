//! What a run is given beside its input: the limits, the first page's number, registers, and which pages
//! are printed.
//!
//! It stands on nr_units and nr_page. To read: `limits`, `options`.
#![tactic(auto)]

mod limits;
mod options;

pub use limits::{Limit, Limits};
pub use options::{MOST_REGISTERS, Options};
