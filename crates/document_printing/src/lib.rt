//! A whole page in one program: what the formatter reads of it is formatted after macros.
//!
//! It stands on document_reader, document_stages, mdoc_converter, tbl_stage, tbl_setting, nr_engine, nr_machine, nr_options, utf8_converter, utf8_own_sink,
//! utf8_own_characters, utf8_characters, nr_vectors and nr_units. To read: `setup`, `prefix`; `joining`, `pulling`, `setting`, `printing`; `showing`, `laws`.
//!
//! Proved: A write fault is reported where a put failed, and none failed where all went out. (`write_faults` of
//! `print` and `print_shown`)
#![tactic(auto)]

mod joining;
mod laws;
mod prefix;
mod printing;
mod pulling;
mod setting;
mod setup;
mod showing;

pub use document_reader::Stages;
pub use laws::{lines_stay, reaches_terminal};
pub use prefix::{Prefixed, has_tables};
pub use printing::print;
pub use setup::{PageEnd, Report, Setup};
pub use showing::{PageTable, Showing, Spelling, print_shown};
pub use tbl_stage::{PageLimits, Rooms};
