//! What a run of nulbiko is to be: what macros its text asks for, what is read before it, and which texts are opened.
//!
//! It stands on program_options, nr_command_options, nr_options and program_macros. To read: `kinds`, `macros`, `others`; `prefix`,
//! `before`; `texts`.
#![tactic(auto)]

mod before;
mod kinds;
mod macros;
mod others;
mod prefix;
mod texts;

pub use before::{cells_of, first_missing, text_before};
pub use kinds::is_manual;
pub use macros::{Macros, macros_of};
pub use others::asks_for_others;
pub use prefix::put_prefix;
pub use texts::texts_of;
