//! Pages with tables are turned: what tbl_reader reads is emitted to what holds it, and goes out.
//!
//! It stands on nr_units, nr_vectors, utf8_characters, tbl_blocks, tbl_table, tbl_columns, tbl_drawing and tbl_reader. To read:
//! `drawing`, `hearing`; `arguments`, `conditions`, `lengths`, `margins`, `requests`, `papers`, `watching`; `setting`, `press`, `turning`, `stepping`.
#![tactic(auto)]

mod arguments;
mod conditions;
mod drawing;
mod hearing;
mod lengths;
mod margins;
mod papers;
mod press;
mod requests;
mod setting;
mod stepping;
mod turning;
mod watching;

pub use drawing::signs_of;
pub use setting::Setting;
pub use stepping::{Step, set_next};
pub use tbl_reader::{Complaint, Kind, ReadEnd};
pub use tbl_table::{Joints, Signs};
pub use turning::{Report, Rooms, convert};
