// Whole runs of utf8 over words, and over texts in memory. Standard input is `caf`, a byte of the table and `_`.
use crate::runs::{Named, Run, comes_to, reports_a_write_fault};
use command_line::fakes::Page;
use utf8_command::Utf8;

static TEXTS: [Named; 19] = [
    ("underlined", Page::Bytes(b"_\x08a_\x08b c__\x08_\n_")),
    (
        "bold",
        Page::Bytes(b"_\x08_e\x08e\xe9\x08\xe9(_\x08\xe9_\x08_\n-\x08--\x08-"),
    ),
    ("apart", Page::Bytes(b"a\x08b \x08 _\x08 x\x08x\x08x\n")),
    ("struck", Page::Cut(b"_\x08_a\x08")),
    ("hostile", Page::Bytes(b"\x1b[1m\x08\x7f_\x08-\x00\r\n\xff")),
    ("half", Page::Bytes(b"a_\x08")),
    ("cut", Page::Cut(b"ab_\x08")),
    ("russian", Page::Bytes(b"\xc3\xa9 \xd0\xaf\xd0\xb1\n")),
    ("greek", Page::Bytes(b"\xce\xb1\xce\xb9")),
    (
        "named",
        Page::Bytes(b".\\\" -*- coding: iso-8859-7 -*-\n\xe1\xe2"),
    ),
    ("polish", Page::Bytes(b"\xc4\x99\xe2\x80\x9c")),
    ("plain", Page::Bytes(b"a\xe9\n")),
    ("letters", Page::Bytes(b"\\(oeuvre \\[/l]")),
    ("accents", Page::Bytes(b"\\'a \\(14 \xe2\x80\x94")),
    ("ordinals", Page::Bytes(b"N\\(Om 1\xc2\xaa")),
    ("arrow", Page::Bytes(b"a \xe2\x86\x92 b")),
    ("scripts", Page::Bytes(b"\xc5\x98\xe5\x90\x8d a\n")),
    (
        "coded",
        Page::Bytes(b"\x8b_\x08\xfe_\x08\xff \x81\xfe\xff\x81\n"),
    ),
    ("boxed", Page::Bytes(b".TS\nbox;\nl.\n\xc4\x99\n.TE\n")),
];

static RUNS: [Run; 38] = [
    Run {
        words: &[b"utf8", b"latin"],
        output: b"caf\xc3\xa9_",
        status: 0,
        lines: b"",
    },
    Run {
        words: &[b"utf8", b"cyrillic", b"-"],
        output: b"caf\xd2\x90_",
        status: 0,
        lines: b"",
    },
    Run {
        words: &[b"utf8", b"-c", b"latin", b"underlined"],
        output: b"\x1b[4mab\x1b[24m c_\x1b[1m_\x1b[22m\n_",
        status: 0,
        lines: b"",
    },
    // `_` over itself goes on what is underlined, and else is bold.
    Run {
        words: &[b"utf8", b"-c", b"latin", b"bold"],
        output: b"\x1b[1m_e\xc3\xa9\x1b[22m(\x1b[4m\xc3\xa9_\x1b[24m\n\x1b[1m--\x1b[22m",
        status: 0,
        lines: b"",
    },
    // A backspace strikes no other byte, and no blank; a third byte is a cell of its own.
    Run {
        words: &[b"utf8", b"-c", b"latin", b"apart"],
        output: b"ab  _ \x1b[1mx\x1b[22mx\n",
        status: 0,
        lines: b"utf8: 4 bytes dropped that show nothing\n",
    },
    // No control character goes out but newline.
    Run {
        words: &[b"utf8", b"latin", b"hostile"],
        output: b"[1m_\x08-\n\xe2\x80\x9c",
        status: 0,
        lines: b"utf8: 5 bytes dropped that show nothing\n",
    },
    // What is half read at the end of a file is no part of the next.
    Run {
        words: &[b"utf8", b"latin", b"half", b"half"],
        output: b"a_a_",
        status: 0,
        lines: b"utf8: 2 bytes dropped that show nothing\n",
    },
    Run {
        words: &[b"utf8"],
        output: b"",
        status: 2,
        lines: b"utf8: no table is named\n",
    },
    Run {
        words: &[b"utf8", b"-c"],
        output: b"",
        status: 2,
        lines: b"utf8: no table is named\n",
    },
    Run {
        words: &[b"utf8", b"Latin"],
        output: b"",
        status: 2,
        lines: b"utf8: unknown table Latin\n",
    },
    Run {
        words: &[b"utf8", b"-x", b"latin"],
        output: b"",
        status: 2,
        lines: b"utf8: unknown option -x\n",
    },
    Run {
        words: &[b"utf8", b"-c", b"-c", b"latin"],
        output: b"",
        status: 2,
        lines: b"utf8: unknown option -c\n",
    },
    Run {
        words: &[b"utf8", b"latin", b"none"],
        output: b"",
        status: 3,
        lines: b"utf8: cannot open none\n",
    },
    Run {
        words: &[b"utf8", b"--choose", b"russian"],
        output: b"own:russian\n",
        status: 0,
        lines: b"",
    },
    Run {
        words: &[b"utf8", b"--choose", b"greek"],
        output: b"greek\n",
        status: 0,
        lines: b"",
    },
    // A page is read under its coding.
    Run {
        words: &[b"utf8", b"--choose", b"named"],
        output: b"greek\n",
        status: 0,
        lines: b"",
    },
    Run {
        words: &[b"utf8", b"--choose", b"polish"],
        output: b"latin\n",
        status: 0,
        lines: b"",
    },
    // Names count where only some tables have what they name.
    Run {
        words: &[b"utf8", b"--choose", b"letters"],
        output: b"latin\n",
        status: 0,
        lines: b"",
    },
    Run {
        words: &[b"utf8", b"--choose", b"accents"],
        output: b"english\n",
        status: 0,
        lines: b"",
    },
    Run {
        words: &[b"utf8", b"--choose", b"ordinals"],
        output: b"latin\n",
        status: 0,
        lines: b"",
    },
    // Of two that have as many, the one that draws boxes.
    Run {
        words: &[b"utf8", b"--choose", b"arrow"],
        output: b"english\n",
        status: 0,
        lines: b"",
    },
    // Where no table has a character, and from standard input where no file is named.
    Run {
        words: &[b"utf8", b"--choose", b"plain"],
        output: b"english\n",
        status: 0,
        lines: b"",
    },
    Run {
        words: &[b"utf8", b"--choose"],
        output: b"english\n",
        status: 0,
        lines: b"",
    },
    Run {
        words: &[b"utf8", b"--choose", b"plain", b"greek"],
        output: b"",
        status: 2,
        lines: b"utf8: --choose takes one file\n",
    },
    Run {
        words: &[b"utf8", b"--choose", b"cut"],
        output: b"",
        status: 3,
        lines: b"utf8: cannot read cut\n",
    },
    Run {
        words: &[b"utf8", b"--choose", b"none"],
        output: b"",
        status: 3,
        lines: b"utf8: cannot open none\n",
    },
    Run {
        words: &[b"utf8", b"--version"],
        output: b"utf8 0.2.0\n",
        status: 0,
        lines: b"",
    },
    Run {
        words: &[b"utf8", b"latin", b"--choose"],
        output: b"",
        status: 3,
        lines: b"utf8: cannot open --choose\n",
    },
    // What was half read does not go out where the file fails.
    Run {
        words: &[b"utf8", b"latin", b"cut"],
        output: b"ab",
        status: 3,
        lines: b"utf8: cut: read fault at byte 4\n",
    },
    Run {
        words: &[b"utf8", b"-c", b"latin", b"struck"],
        output: b"\x1b[1m_",
        status: 3,
        lines: b"utf8: struck: read fault at byte 5\n",
    },
    Run {
        words: &[b"utf8", b"own:scripts", b"cut"],
        output: b"ab",
        status: 3,
        lines: b"utf8: cut: read fault at byte 4\n",
    },
    // The table of what a file prints: after what frames are drawn with comes what is in the file.
    Run {
        words: &[b"utf8", b"own:scripts", b"coded"],
        output: b"\xc5\x98_\x08\xe5\x90\x8d \xe2\x94\x82\xe5\x90\x8d\xe2\x94\x82\n",
        status: 0,
        lines: b"",
    },
    Run {
        words: &[b"utf8", b"-c", b"own:scripts", b"coded"],
        output: b"\xc5\x98\x1b[4m\xe5\x90\x8d\x1b[24m \xe2\x94\x82\xe5\x90\x8d\xe2\x94\x82\n",
        status: 0,
        lines: b"",
    },
    // It is opened before the others, and reported by its name.
    Run {
        words: &[b"utf8", b"own:none", b"missing"],
        output: b"",
        status: 3,
        lines: b"utf8: cannot open none\n",
    },
    Run {
        words: &[b"utf8", b"own:cut", b"coded"],
        output: b"",
        status: 3,
        lines: b"utf8: cannot read cut\n",
    },
    Run {
        words: &[b"utf8", b"--choose", b"scripts"],
        output: b"own:scripts\n",
        status: 0,
        lines: b"",
    },
    // A page with a table needs what frames are drawn with, which the table of Latin letters lacks.
    Run {
        words: &[b"utf8", b"--choose", b"boxed"],
        output: b"own:boxed\n",
        status: 0,
        lines: b"",
    },
    // Of standard input the name of a fixed table is told.
    Run {
        words: &[b"utf8", b"--choose", b"-"],
        output: b"english\n",
        status: 0,
        lines: b"",
    },
];

#[test]
fn runs_in_a_system(rt: HostRuntime) {
    for run in &RUNS {
        let words = run.words;
        assert!(rt;
            comes_to(&Utf8, rt.alloc(), &TEXTS, b"caf\xe9_", run),
            "{words:?}"
        );
    }
}

// A write that fails, and a flush; a read fault is not reported then.
#[test]
fn reports_an_output_that_fails(rt: HostRuntime) {
    for (takes, text) in [
        (false, b"underlined".as_slice()),
        (true, b"underlined"),
        (true, b"cut"),
    ] {
        let words = [b"utf8".as_slice(), b"latin", text];
        let line = b"utf8: write fault\n".as_slice();
        assert!(rt; reports_a_write_fault(&Utf8, rt.alloc(), &TEXTS, &words, takes, line));
    }
}
