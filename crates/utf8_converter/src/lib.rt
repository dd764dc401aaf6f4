//! The bytes of a table of characters, turned into UTF-8 for a terminal.
//!
//! It stands on nr_units, nr_vectors, utf8_characters and document_stages. To read: `reader`, `spelling`, `cells`, `shapes`, `rows`, `staged`, `running`, `waiting`, `came`, `showing`, `undoing`, `names`, `choosing`.
#![tactic(auto)]

mod came;
mod cells;
mod choosing;
mod names;
mod reader;
mod rows;
mod running;
mod shapes;
mod showing;
mod spelling;
mod staged;
mod undoing;
mod waiting;

pub use came::Came;
pub use choosing::{CHARACTERS, LOOKED_AT, choose, choose_of};
pub use document_stages::RunEnd;
pub use running::convert;
pub use showing::Shown;
pub use staged::Utf8Converter;
pub use undoing::byte_for;
