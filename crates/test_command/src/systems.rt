// Whole runs in a system: over its words, its texts and its standard input.

use command_line::fakes::{Closing, Page, System, Typed};
use nr_command::run_program;
use std::alloc::Global;
use std::cell::Cell;

/// A run in a system: its words, standard input, what it prints, its status and its line.
struct SystemRow {
    words: &'static [&'static [u8]],
    input: &'static [u8],
    output: &'static [u8],
    status: u8,
    line: &'static [u8],
}

static SYSTEM_ROWS: [SystemRow; 7] = [
    SystemRow {
        words: &[b"nroff"],
        input: b".pl 2\n.ll 8\na bb ccc dddd\n",
        output: b"a bb ccc\ndddd\n",
        status: 0,
        line: b"",
    },
    // Macro files come first, in the folder that was given last, then the files, and then standard input,
    // which was read before. No text ends with a newline.
    SystemRow {
        words: &[
            b"nroff",
            b"-mpage",
            b"-Mnowhere",
            b"-Mlib",
            b"-mline",
            b"-i",
            b"-Ld4",
            b"first",
            b"-",
            b"-i",
        ],
        input: b"from the input",
        output: b"one\ntwo from the input\nthree\n",
        status: 0,
        line: b"",
    },
    SystemRow {
        words: &[b"nroff", b"-Lp100", b"-s", b"-x"],
        input: b".pl 1\na\n",
        output: b"",
        status: 2,
        line: b"nroff: option -s is not in this profile\n",
    },
    SystemRow {
        words: &[b"nroff", b"there", b"nowhere"],
        input: b"",
        output: b"",
        status: 3,
        line: b"nroff: cannot open nowhere\n",
    },
    SystemRow {
        words: &[b"nroff", b"-mnot", b"there"],
        input: b"",
        output: b"",
        status: 3,
        line: b"nroff: cannot open ./tmac.not\n",
    },
    // What was ended before the fault is out.
    SystemRow {
        words: &[b"nroff", b"there", b"folder"],
        input: b"",
        output: b"a\n",
        status: 3,
        line: b"nroff: read fault at byte 18\n",
    },
    SystemRow {
        words: &[b"nroff", b"-Lp4"],
        input: b".pl 1\na\n.br\nb\n.br\nhello\n",
        output: b"a\n",
        status: 1,
        line: b"nroff: line cells limit passed at byte 23\n",
    },
];

#[test]
fn runs_in_a_system(rt: HostRuntime) {
    for row in &SYSTEM_ROWS {
        let words = row.words;
        assert!(rt; agrees(rt.alloc(), row), "{words:?}");
    }
}

/// Whether a run comes to what its row says.
fn agrees(alloc: Global, row: &SystemRow) -> bool {
    let mut output = Vec::new(alloc);
    let mut line = Vec::new(alloc);
    let status = run_row(alloc, row, &mut output, &mut line);
    output.as_slice() == row.output && line.as_slice() == row.line && status == row.status
}

/// Its status.
fn run_row(alloc: Global, row: &SystemRow, output: &mut Vec<u8>, line: &mut Vec<u8>) -> u8 {
    let system = System {
        words: row.words,
        texts: &SYSTEM_TEXTS,
    };
    let left = Cell::new(row.input);
    run_program(&system, alloc, Typed { left: &left }, output, line)
}

static SYSTEM_TEXTS: [(&str, Page<'static>); 6] = [
    ("first", Page::Bytes(b"one\n.br\ntwo")),
    ("-i", Page::Bytes(b".br\nthree")),
    ("lib/tmac.line", Page::Bytes(b".ll 20")),
    ("lib/tmac.page", Page::Bytes(b".pl 1")),
    ("there", Page::Bytes(b".pl 1\na\n.br\nb\n.br")),
    ("folder", Page::Cut(b"")),
];

#[test]
fn tells_an_output_that_fails(rt: HostRuntime) {
    let system = System {
        words: &[b"nroff", b"first"],
        texts: &SYSTEM_TEXTS,
    };
    let mut line = Vec::new(rt.alloc());
    let input = b"".as_slice();
    let output = Closing { takes: false };
    assert_eq!(rt;
        run_program(&system, rt.alloc(), input, output, &mut line),
        4
    );
    assert!(rt; line.as_slice() == b"nroff: write fault\n".as_slice());
}
