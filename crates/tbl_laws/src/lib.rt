//! Laws of pages with tables: what a reader may say of tbl in its own words, from the bytes of a page to those that go out.
//!
//! It stands on tbl_setting and the crates below it. To read: `laws`, and in specs/ `OutsideText`, `Rows`,
//! `HeldRows`, `Columns`, `Texts`, `Lines`.
//!
//! Proved: Laws of the definition over whole pages. None of them calls tbl; `convert`'s contract ties it to the same
//! definition.
#![tactic(auto)]

pub mod laws;
