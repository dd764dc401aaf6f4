//! What a table is: its options, its formats, and its rows with their fields, as they were read.
//!
//! It stands on nr_vectors and tbl_blocks. To read: `lists`, `signs`, `requests`; `table`, `held`, `formats`, `rows`.
//!
//! Proved: A table is held as lists: its text, its lines of formats with their letters, its rows with their fields. Each
//! call that changes it says what it becomes.
#![tactic(auto)]

mod formats;
mod held;
mod lists;
mod requests;
mod rows;
mod signs;
mod table;

pub use lists::{add_each, add_item, item_at, set_item};
pub use requests::{defines, is_harmless, open_after, space_of};
pub use signs::{Joints, Signs};
pub use table::{
    COLUMNS, Field, Form, Frame, Item, Key, Kind, LINES, Line, Looks, Open, Row, Span, Stand, Table,
};
