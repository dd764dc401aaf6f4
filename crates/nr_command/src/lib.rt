//! The program nroff but for its `main`: the texts that it reads, a run over streams, the lines that
//! report how it ended, and its status.
//!
//! It stands on nr_units, nr_options, nr_machine, nr_engine, nr_command_options and command_line. To read: `faults`, `running`; `memory`,
//! `opening`, `disk`; `program`.
#![tactic(auto)]

mod disk;
mod faults;
mod memory;
mod opening;
mod program;
mod running;

pub use disk::{Disk, Paths, Text, Tree};
pub use faults::fault_line;
pub use memory::{Heap, Memory};
pub use opening::{BUFFER_SIZE, NotRun, Opener, open_texts, text_count, unopened_line};
pub use program::{run_program, run_words};
pub use running::{out_of_memory, run_over};
