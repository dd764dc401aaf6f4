//! tbl: the tables of a page are read, and what they say is emitted to who sets them.
//!
//! It stands on nr_units, nr_vectors, tbl_blocks and tbl_table. To read: `complaint`, `passing`, `command`; `options`, `numbers`, `formats`,
//! `field`; `telling`, `state`, `reader`, `head`, `rows`, `blocks`, `ending`, `quiet`;
//! `running`; `untouched`.
#![tactic(auto)]

mod blocks;
mod command;
mod complaint;
mod ending;
mod field;
mod formats;
mod head;
mod numbers;
mod options;
mod passing;
mod quiet;
mod reader;
mod rows;
mod running;
mod state;
mod telling;
mod untouched;

pub use complaint::{Complaint, Kind};
pub use field::Mark;
pub use formats::{Call, Called};
pub use options::Options;
pub use reader::{Limits, Reader};
pub use running::{ReadEnd, read_page};
pub use telling::{Setter, Tell};
pub use untouched::passes_unchanged;
