//! The program tbl: it turns the tables of a page into the language of nroff, to standard output.
//!
//! It stands on tbl_command, which has all but `main`, and on filters. To read: this file, and tbl_command.
#![tactic(auto)]

use filters::run_program;
use std::process::ExitCode;
use tbl_command::Tbl;

/// Turns the files that its words name, or standard input.
fn main(rt: HostRuntime) -> ExitCode {
    let status = run_program(&Tbl, &rt, rt.alloc(), rt.stdin(), rt.stdout(), rt.stderr());
    ExitCode::from(status)
}
