//! The columns of a table: which field stands in which columns and rows, how wide columns are and where they stand, the lines
//! of text blocks, and the bars between columns.
//!
//! It stands on nr_units, nr_vectors, tbl_blocks and tbl_table. To read: `grid`, `cells`, `counted`,
//! `registers`, `columns`, `texts`,
//! `shares`, `narrow`, `measured`, `frames`, and the `laws`.
#![tactic(auto)]

mod cells;
mod columns;
mod counted;
mod frames;
mod grid;
mod laws;
mod measured;
mod narrow;
mod registers;
mod shares;
mod texts;

pub use columns::or_nothing;
pub use frames::Near;
pub use grid::{Block, Cell, Column, Edges, Grid, Placed, Room};
pub use laws::{
    columns_keep_formats, fields_fit_columns, fitting_tables_stay, narrowed_tables_fit,
};
pub use registers::Register;
