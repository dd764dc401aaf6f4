//! The program tbl but for its `main`: its words, the rooms that it takes, its files in order, and the lines that tell
//! how it ended.
//!
//! It stands on filters, filters_own, tbl_setting, utf8_own_page and what these stand on. To read: `arguments`, `complaints`, `rooms`,
//! `looking`, `program`.
#![tactic(auto)]

mod arguments;
mod complaints;
mod looking;
mod program;
mod rooms;

pub use arguments::Job;
pub use complaints::tell_complaints;
pub use looking::{Tables, look_at};
pub use program::Tbl;
