//! The program mdoc: it turns manual pages of mdoc(7) into pages of man(7), to standard output.
//!
//! It stands on mdoc_command, which has all but `main`, and on filters. To read: this file, and mdoc_command.
#![tactic(auto)]

use filters::run_program;
use mdoc_command::Mdoc;
use std::process::ExitCode;

/// Turns the files that its words name, or standard input.
fn main(rt: HostRuntime) -> ExitCode {
    let status = run_program(&Mdoc, &rt, rt.alloc(), rt.stdin(), rt.stdout(), rt.stderr());
    ExitCode::from(status)
}
