//! What is wrong with the lines of texts: names as they are reported, the blocks that are open, the first complaints about a text,
//! and the lines that report them.
//!
//! It stands on filters, nr_units and nr_vectors. To read: `names`, `blocks`, `complaints`, `lines`.
#![tactic(auto)]

mod blocks;
mod complaints;
mod lines;
mod names;

pub use blocks::{MOST_OPEN, OpenBlock, place_of};
pub use complaints::{Complains, Complaints, MOST_COMPLAINTS};
pub use lines::tell_complaints;
pub use names::printable;
