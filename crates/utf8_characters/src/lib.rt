//! Tables of characters: single bytes for characters beyond ASCII.
//!
//! A formatter that prints a cell for each byte prints such a table's characters as the bytes from 128 on; what comes
//! before it puts the bytes, and what comes after it turns them back. It stands on no crate of the repository. To
//! read: `tables`, `table`.
#![tactic(auto)]

mod table;
mod tables;

pub use table::FixedTable;
