//! Tables as a stage of a text: a page goes out as it comes, and no more than one table is held.
//!
//! It stands on document_stages, tbl_setting, tbl_reader, tbl_table, tbl_columns, tbl_drawing, utf8_characters, nr_units and nr_vectors. To read:
//! `space`, `filling`; `turning`, `turned`; `tables`, `setter`, `rooms`; `laws`.
#![tactic(auto)]

mod filling;
pub mod laws;
mod rooms;
mod setter;
mod space;
mod tables;
mod turned;
mod turning;

pub use rooms::{PageLimits, Rooms, SetText, set_tables};
pub use setter::TableSetter;
pub use space::Space;
pub use tables::Tables;
pub use turned::Turned;
pub use turning::Turning;
