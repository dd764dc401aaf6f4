//! A formatter for terminals: marked-up text into pages, under limits.
//!
//! It stands on nr_machine, fast_machine, nr_page, nr_options and the crates below them. To read: `first_part`, `no_pages`, `keeping`; `desk`;
//! `run`, with `format` and `format_after`.
#![tactic(auto)]

mod desk;
mod first_part;
mod keeping;
mod no_pages;
mod run;

pub use desk::{Desk, Work};
pub use nr_machine::{Measure, Outcome, Sizes, sizes};
pub use nr_options::{Limit, Limits, MOST_REGISTERS, Options};
pub use nr_page::page::WriteFault;
pub use nr_page::{BadList, Faces, Select};
pub use nr_units::buffered::Buffered;
pub use nr_units::over_std::{FromReader, ToWriter};
pub use nr_units::sink::Sink;
pub use nr_units::source::{Fault, Source};
pub use nr_vectors::CountedAlloc;
pub use run::{format, format_after};
