//! The program nroff: it formats text for a terminal, to standard output.
//!
//! It stands on nr_command, which has all but `main`. To read: this file, and nr_command.
#![tactic(auto)]

use nr_command::run_program;
use std::process::ExitCode;

/// Formats the files that its words name, or standard input, to standard output.
fn main(rt: HostRuntime) -> ExitCode {
    let status = run_program(&rt, rt.alloc(), rt.stdin(), rt.stdout(), rt.stderr());
    ExitCode::from(status)
}
