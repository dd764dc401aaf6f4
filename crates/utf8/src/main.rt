//! The program utf8: it turns the bytes of a table of characters into UTF-8, to standard output.
//!
//! It stands on utf8_command, which has all but `main`, and on filters. To read: this file, and utf8_command.
#![tactic(auto)]

use filters::run_program;
use std::process::ExitCode;
use utf8_command::Utf8;

/// Turns the files that its words name, or standard input.
fn main(rt: HostRuntime) -> ExitCode {
    let status = run_program(&Utf8, &rt, rt.alloc(), rt.stdin(), rt.stdout(), rt.stderr());
    ExitCode::from(status)
}
