//! The program nulbiko but for its `main`: a run through all stages, the lines that report how it ended, and its status.
//!
//! It stands on program_options, program_plan, nr_command, document_printing, document_sources, mdoc_command, tbl_command and what these stand on. To read: `endings`; `bare`, `nowhere`; `surroundings`, `plan`, `printing`, `own`, `reaching`, `running`, `ahead`, `warnings`, `program`.
#![tactic(auto)]

mod ahead;
mod bare;
mod endings;
mod nowhere;
mod own;
mod plan;
mod printing;
mod program;
mod reaching;
mod running;
mod surroundings;
mod warnings;

pub use endings::{Ending, Place};
pub use program::{run_program, run_words};
pub use reaching::{Reach, Reaches};
pub use surroundings::Surroundings;
