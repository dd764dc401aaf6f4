//! The program preconv: it turns what manual pages use into the language of nroff, to standard output.
//!
//! It stands on preconv_command, which has all but `main`, and on filters. To read: this file, and preconv_command.
#![tactic(auto)]

use filters::run_program;
use preconv_command::Preconv;
use std::process::ExitCode;

/// Turns the files that its words name, or standard input.
fn main(rt: HostRuntime) -> ExitCode {
    let status = run_program(
        &Preconv,
        &rt,
        rt.alloc(),
        rt.stdin(),
        rt.stdout(),
        rt.stderr(),
    );
    ExitCode::from(status)
}
