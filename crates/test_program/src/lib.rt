//! Nothing for other crates: whole runs of the program nulbiko over words and texts in memory, with their lines and
//! statuses.
//!
//! It stands on program_command and command_line. To read: `runs`.
#![tactic(auto)]

#[cfg(test)]
mod runs;
