// Whole runs of tbl over words, and over texts in memory. Standard input is `a` and a line `.br`.
use crate::runs::{Named, Run, comes_to, reports_a_write_fault};
use command_line::fakes::{Page, System};
use filters::run_program;
use tbl_command::Tbl;

static TEXTS: [Named; 7] = [
    ("plain", Page::Bytes(b"T{ _\n.TSX\n\xc3\xa9\\fIb\\fP\n")),
    ("open", Page::Bytes(b".ds x y")),
    ("folder", Page::Cut(b"")),
    ("cut", Page::Cut(b"a\n.BR c d")),
    ("empty", Page::Bytes(b"")),
    ("scripts", Page::Bytes(b"\xc5\x98\xe5\x90\x8d a\n")),
    ("box", Page::Bytes(b".TS\nbox;\nl.\n\xe9\n.TE\n")),
];

static RUNS: [Run; 29] = [
    // The table of what a file prints has what frames are drawn with first.
    Run {
        words: &[b"tbl", b"-u", b"own:scripts", b"box"],
        output: b".TS\n.br\n.nr *u \\n(.u\n.nr *I \\n(.i\n.nf\n.nr *box 1\n.if '\\n(.z'' .if 3v<\\n(.p .ne 3v\n.if !'\\n(.z'' \\{\\\n\\!.ne 3v\n.\\}\n\x82\x80\x80\x84\n\x81\xe9 \x81\n\x88\x80\x80\x8a\n.in \\n(*Iu\n.if \\n(*u .fi\n.TE\n",
        status: 0,
        lines: b"",
    },
    Run {
        words: &[b"tbl", b"-u", b"own:none", b"missing"],
        output: b"",
        status: 3,
        lines: b"tbl: cannot open none\n",
    },
    // Frames have the characters of the table, and what it names is no file.
    Run {
        words: &[b"tbl", b"-u", b"english", b"box"],
        output: b".TS\n.br\n.nr *u \\n(.u\n.nr *I \\n(.i\n.nf\n.nr *box 1\n.if '\\n(.z'' .if 3v<\\n(.p .ne 3v\n.if !'\\n(.z'' \\{\\\n\\!.ne 3v\n.\\}\n\xa4\x9c\x9c\xa6\n\x9d\xe9 \x9d\n\x9e\x9c\x9c\xa8\n.in \\n(*Iu\n.if \\n(*u .fi\n.TE\n",
        status: 0,
        lines: b"",
    },
    // In a table without boxes they have those of ASCII; the last word counts.
    Run {
        words: &[b"tbl", b"-u", b"english", b"-l65", b"-u", b"latin", b"box"],
        output: b".TS\n.br\n.nr *u \\n(.u\n.nr *I \\n(.i\n.nf\n.nr *box 1\n.if '\\n(.z'' .if 3v<\\n(.p .ne 3v\n.if !'\\n(.z'' \\{\\\n\\!.ne 3v\n.\\}\n+--+\n|\xe9 |\n+--+\n.in \\n(*Iu\n.if \\n(*u .fi\n.TE\n",
        status: 0,
        lines: b"",
    },
    Run {
        words: &[b"tbl", b"-u"],
        output: b"",
        status: 2,
        lines: b"tbl: no table is named\n",
    },
    Run {
        words: &[b"tbl", b"-l65", b"-u", b"-l65", b"plain"],
        output: b"",
        status: 2,
        lines: b"tbl: unknown table -l65\n",
    },
    Run {
        words: &[b"tbl", b"-u", b"Latin"],
        output: b"",
        status: 2,
        lines: b"tbl: unknown table Latin\n",
    },
    Run {
        words: &[b"tbl"],
        output: b"a\n.br\n",
        status: 0,
        lines: b"",
    },
    Run {
        words: &[b"tbl", b"-Lt1", b"-Lr64"],
        output: b"a\n.br\n",
        status: 0,
        lines: b"",
    },
    Run {
        words: &[b"tbl", b"-Lr1048576", b"-Lr100", b"-Lt00020", b"plain"],
        output: b"T{ _\n.TSX\n\xc3\xa9\\fIb\\fP\n",
        status: 0,
        lines: b"",
    },
    // Standard input stands where it is named, and ends once.
    Run {
        words: &[b"tbl", b"plain", b"-", b"empty", b"-"],
        output: b"T{ _\n.TSX\n\xc3\xa9\\fIb\\fP\na\n.br\n",
        status: 0,
        lines: b"",
    },
    // Each file is turned by itself.
    Run {
        words: &[b"tbl", b"open", b"open"],
        output: b".ds x y.ds x y",
        status: 0,
        lines: b"",
    },
    // What stands after a file is a file.
    Run {
        words: &[b"tbl", b"plain", b"-Lt9"],
        output: b"",
        status: 3,
        lines: b"tbl: cannot open -Lt9\n",
    },
    Run {
        words: &[b"tbl", b"-", b"-x"],
        output: b"",
        status: 3,
        lines: b"tbl: cannot open -x\n",
    },
    // The first that can't be opened is reported, before anything is read.
    Run {
        words: &[b"tbl", b"folder", b"none", b"nor"],
        output: b"",
        status: 3,
        lines: b"tbl: cannot open none\n",
    },
    Run {
        words: &[b"tbl", b""],
        output: b"",
        status: 3,
        lines: b"tbl: cannot open \n",
    },
    // The first word that can't be taken is reported, before anything is opened.
    Run {
        words: &[b"tbl", b"-Lt9", b"-C", b"-Lt0", b"none"],
        output: b"",
        status: 2,
        lines: b"tbl: unknown option -C\n",
    },
    Run {
        words: &[b"tbl", b"--"],
        output: b"",
        status: 2,
        lines: b"tbl: unknown option --\n",
    },
    Run {
        words: &[b"tbl", b"-L"],
        output: b"",
        status: 2,
        lines: b"tbl: bad value in -L\n",
    },
    Run {
        words: &[b"tbl", b"-Lx9"],
        output: b"",
        status: 2,
        lines: b"tbl: bad value in -Lx9\n",
    },
    Run {
        words: &[b"tbl", b"-Lt0"],
        output: b"",
        status: 2,
        lines: b"tbl: bad value in -Lt0\n",
    },
    Run {
        words: &[b"tbl", b"-Lr63", b"none"],
        output: b"",
        status: 2,
        lines: b"tbl: bad value in -Lr63\n",
    },
    Run {
        words: &[b"tbl", b"-Lt1048577"],
        output: b"",
        status: 2,
        lines: b"tbl: bad value in -Lt1048577\n",
    },
    Run {
        words: &[b"tbl", b"-l0"],
        output: b"",
        status: 2,
        lines: b"tbl: bad value in -l0\n",
    },
    Run {
        words: &[b"tbl", b"-l"],
        output: b"",
        status: 2,
        lines: b"tbl: bad value in -l\n",
    },
    Run {
        words: &[b"tbl", b"-Lr+64"],
        output: b"",
        status: 2,
        lines: b"tbl: bad value in -Lr+64\n",
    },
    Run {
        words: &[b"tbl", b"-Lr64x"],
        output: b"",
        status: 2,
        lines: b"tbl: bad value in -Lr64x\n",
    },
    Run {
        words: &[b"tbl", b"folder", b"plain"],
        output: b"",
        status: 3,
        lines: b"tbl: read fault at byte 0\n",
    },
    // What came before the fault is out; bytes are those of the file.
    Run {
        words: &[b"tbl", b"open", b"cut", b"plain"],
        output: b".ds x ya\n.BR c d",
        status: 3,
        lines: b"tbl: read fault at byte 9\n",
    },
];

/// Texts with tables.
static TABLES: [Named; 4] = [
    ("bad", Page::Bytes(b".TS\nl.\na\tb\n.TE\n.TS\nl.\n")),
    (
        "wide",
        Page::Bytes(b".TS\nl l.\nabc\td\nefgh\t\\fIij\\fP\n.TE\n"),
    ),
    (
        "long",
        Page::Bytes(
            b".TS\nl l.\n0123456789012345678901234567890123456789\t0123456789012345678901234\n.TE\n",
        ),
    ),
    ("none", Page::Bytes(b"a\n")),
];

/// A run over texts with tables: its words, its status and its lines.
struct ReportCase {
    words: &'static [&'static [u8]],
    status: u8,
    lines: &'static [u8],
}

static REPORT_CASES: [ReportCase; 7] = [
    ReportCase {
        words: &[b"tbl", b"bad", b"none"],
        status: 1,
        lines: b"tbl: bad:3: more fields than columns\ntbl: bad:6: table without an end, from line 5\n",
    },
    // A table wider than the line is reported, and nothing is wrong with it.
    ReportCase {
        words: &[b"tbl", b"-l8", b"wide"],
        status: 0,
        lines: b"tbl: wide:1: table wider than the line\n",
    },
    ReportCase {
        words: &[b"tbl", b"-l9", b"wide"],
        status: 0,
        lines: b"",
    },
    ReportCase {
        words: &[b"tbl", b"-l3", b"wide", b"none", b"wide"],
        status: 0,
        lines: b"tbl: wide:1: table wider than the line\ntbl: wide:1: table wider than the line\n",
    },
    ReportCase {
        words: &[b"tbl", b"-l1", b"wide", b"bad"],
        status: 1,
        lines: b"tbl: wide:1: table wider than the line\ntbl: bad:3: more fields than columns\ntbl: bad:6: table without an end, from line 5\n",
    },
    // The line's length is 65 where no word sets it, and the limit on a row is one on its fields together.
    ReportCase {
        words: &[b"tbl", b"long"],
        status: 0,
        lines: b"tbl: long:1: table wider than the line\n",
    },
    ReportCase {
        words: &[b"tbl", b"-Lr64", b"-l68", b"long"],
        status: 1,
        lines: b"tbl: long:3: table row limit passed\n",
    },
];

#[test]
fn reports_of_tables(rt: HostRuntime) {
    for case in &REPORT_CASES {
        let system = System {
            words: case.words,
            texts: &TABLES,
        };
        let mut output = Vec::new(rt.alloc());
        let mut lines = Vec::new(rt.alloc());
        let input = b"".as_slice();
        let status = run_program(&Tbl, &system, rt.alloc(), input, &mut output, &mut lines);
        let words = case.words;
        assert!(rt; lines.as_slice() == case.lines, "{words:?}");
        assert_eq!(rt; status, case.status, "{words:?}");
    }
}

#[test]
fn runs_in_a_system(rt: HostRuntime) {
    for run in &RUNS {
        let words = run.words;
        assert!(rt;
            comes_to(&Tbl, rt.alloc(), &TEXTS, b"a\n.br\n", run),
            "{words:?}"
        );
    }
}

// A write that fails, and a flush; a read fault is not reported then.
#[test]
fn reports_an_output_that_fails(rt: HostRuntime) {
    for (takes, text) in [
        (false, b"plain".as_slice()),
        (true, b"plain"),
        (true, b"cut"),
    ] {
        let words = [b"tbl".as_slice(), text];
        let line = b"tbl: write fault\n".as_slice();
        assert!(rt; reports_a_write_fault(&Tbl, rt.alloc(), &TEXTS, &words, takes, line));
    }
}

// A text of several buffers, in which no line ends.
#[test]
fn passes_a_long_line(rt: HostRuntime) -> Result<(), std::alloc::AllocError> {
    let mut page = Vec::new(rt.alloc());
    for _ in 0..40_000 {
        page.extend_from_slice(b"ab T{ ")?;
    }
    let mut output = Vec::new(rt.alloc());
    let mut lines = Vec::new(rt.alloc());
    let system = System {
        words: &[b"tbl"],
        texts: &[],
    };
    let status = run_program(
        &Tbl,
        &system,
        rt.alloc(),
        page.as_slice(),
        &mut output,
        &mut lines,
    );
    assert_eq!(rt; status, 0);
    assert!(rt; output == page);
    Ok(())
}
