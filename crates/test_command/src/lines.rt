// The lines that report how a run ended, or why there was none, byte for byte; and the error that says the same.

use nr_command::{NotRun, fault_line, unopened_line};
use nr_command_options::{Input, MacroFile};
use nr_engine::{Measure, Outcome};
use nr_units::fakes::Slate;
use std::alloc::AllocError;
use std::test::Fail;

/// Each outcome that has a line.
static FAULTS: [(Outcome, &[u8]); 11] = [
    (
        Outcome::Limit {
            which: Measure::Stored,
            at: 0,
        },
        b"nroff: stored bytes limit passed at byte 0\n",
    ),
    (
        Outcome::Limit {
            which: Measure::Depth,
            at: 7,
        },
        b"nroff: input depth limit passed at byte 7\n",
    ),
    (
        Outcome::Limit {
            which: Measure::LineCells,
            at: 5,
        },
        b"nroff: line cells limit passed at byte 5\n",
    ),
    (
        Outcome::Limit {
            which: Measure::PageCells,
            at: 27,
        },
        b"nroff: page cells limit passed at byte 27\n",
    ),
    (
        Outcome::Limit {
            which: Measure::Expansions,
            at: 1_000_000,
        },
        b"nroff: expansions limit passed at byte 1000000\n",
    ),
    (
        Outcome::Limit {
            which: Measure::Moves,
            at: 431,
        },
        b"nroff: moves limit passed at byte 431\n",
    ),
    (
        Outcome::Limit {
            which: Measure::Stored,
            at: 1_099_511_627_775,
        },
        b"nroff: stored bytes limit passed at byte 1099511627775\n",
    ),
    (
        Outcome::ReadFault { at: 18 },
        b"nroff: read fault at byte 18\n",
    ),
    (
        Outcome::ReadFault { at: u64::MAX },
        b"nroff: read fault at byte 18446744073709551615\n",
    ),
    (Outcome::TooLong, b"nroff: input too long\n"),
    (Outcome::WriteFault, b"nroff: write fault\n"),
];

#[test]
fn writes_each_line(rt: HostRuntime) {
    for (outcome, line) in &FAULTS {
        let mut out = [0; 80];
        let mut errors = Slate::over(&mut out);
        assert!(rt; fault_line(outcome, &mut errors) == Ok(()), "{outcome:?}");
        assert!(rt; errors.bytes() == *line, "{outcome:?}");
    }
}

/// Each text that can be missing, and its line.
static UNOPENED: [(Input<'static>, &[u8]); 4] = [
    (Input::File("a b"), b"nroff: cannot open a b\n"),
    (Input::File(""), b"nroff: cannot open \n"),
    (
        Input::Macros(MacroFile {
            folder: "lib/mac",
            name: "an",
        }),
        b"nroff: cannot open lib/mac/tmac.an\n",
    ),
    (Input::Standard, b"nroff: cannot open -\n"),
];

#[test]
fn tells_the_name(rt: HostRuntime) {
    for (input, line) in &UNOPENED {
        let mut room = [0; 80];
        let mut errors = Slate::over(&mut room);
        assert!(rt; unopened_line(input, &mut errors).is_ok());
        assert!(rt; errors.bytes() == *line, "{input:?}");
    }
}

// An error's text is its line, less the program's name and the newline.
#[test]
fn displays_errors(rt: HostRuntime) -> Result<(), Fail> {
    for (input, line) in &UNOPENED {
        let error = NotRun::CannotOpen(*input);
        let shown = format!(in rt.alloc(); "nroff: {error}\n")?;
        assert!(rt; shown.as_bytes() == *line, "{input:?}");
    }
    let error = NotRun::from(AllocError);
    let shown = format!(in rt.alloc(); "{error}")?;
    assert_eq!(rt; shown.as_str(), "out of memory");
    Ok(())
}
