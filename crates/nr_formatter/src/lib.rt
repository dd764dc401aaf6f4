//! The formatter between two moves, and the moves that touch neither the source nor the page nor the output.
//!
//! It stands on nr_units, nr_settings, nr_fill, nr_reading, nr_pool, nr_levels, nr_symbol_tables, nr_store and
//! nr_input. To read: `request_line`, `tasks`, `paper`, `formatter`; `limits`, `passed`; then a file for each
//! matter, in any order: `text`, `motions`, `lines`, `titles`, `pages`, `numbering`, `spacing`, `traps`,
//! `springing`, `diversion_row`, `diversions`, `built_in`, `registers`, `names`, `conditions`, `settings`,
//! `ending`; `requests` and `moves`, the tables of them; `runs`, `cell_bytes`, `empty_lines` and `obeying`, many moves
//! at once.
//!
//! Proved: Each move is one equation between the formatter before and after.
#![tactic(auto)]

pub mod built_in;
mod conditions;
mod diversion_row;
mod diversions;
mod ending;
pub mod formatter;
mod limits;
pub mod lines;
pub mod many;
mod motions;
mod moves;
mod names;
mod numbering;
mod pages;
pub mod paper;
pub mod passed;
mod registers;
pub mod request_line;
mod requests;
mod settings;
mod spacing;
mod springing;
pub mod tasks;
mod text;
mod titles;
mod traps;
