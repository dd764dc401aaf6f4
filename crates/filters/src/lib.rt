//! What the programs share that turn texts: how they ended, how they open texts and turn them, how they run.
//!
//! It stands on nr_units and command_line. To read: `lines`, `endings`; `arguments`; `paths`, `disk`, `turning`, `program`.
#![tactic(auto)]

mod arguments;
mod disk;
mod endings;
mod lines;
mod paths;
mod program;
mod turning;

pub use arguments::is_option;
pub use disk::{Disk, Stream, Text};
pub use endings::{Ending, tell};
pub use lines::put_all;
pub use paths::{Paths, Tree};
pub use program::{Filter, run_program, run_words};
pub use turning::{BUFFER_SIZE, Buffers, Turns, turn_names};
