//! The program nulbiko: it shows manual pages and papers on a terminal, from files or standard input.
//!
//! It stands on program_command, which has all but `main`. To read: this file, and program_command.
#![tactic(auto)]

use program_command::run_program;
use std::io::IsTerminal;
use std::process::ExitCode;

/// Formats the files that its words name, or standard input, to standard output.
fn main(rt: HostRuntime) -> ExitCode {
    let shows = rt.stdout().is_terminal();
    let status = run_program(&rt, rt.alloc(), rt.stdin(), rt.stdout(), rt.stderr(), shows);
    ExitCode::from(status)
}
