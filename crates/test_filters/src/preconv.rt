// Whole runs of preconv over words, and over texts in memory. Standard input is `café` in UTF-8.
use crate::runs::{Named, Run, comes_to, reports_a_write_fault};
use command_line::fakes::{Page, System};
use filters::run_program;
use preconv_command::Preconv;

static TEXTS: [Named; 11] = [
    (
        "quotes",
        Page::Bytes(b"\xe2\x80\x9ca\xe2\x80\x9d \\(em \\fIb\\fP\n"),
    ),
    ("latin", Page::Bytes(b"na\xefve \xc3\xa9\n")),
    ("half", Page::Bytes(b"\\(l")),
    ("scripts", Page::Bytes(b"\xc5\x98\xe5\x90\x8d a\n")),
    ("other", Page::Bytes(b"q\n.tr x")),
    (
        "named",
        Page::Bytes(b"\\'a \\*(lqb\\*[rq] \\*R \\[e aa] \\[u03B1_0301]\n"),
    ),
    (
        "russian",
        Page::Bytes(b".\\\" -*- mode: nroff; coding: KOI8-R -*-\n\xf0\xd2\xa3 a\n"),
    ),
    (
        "japanese",
        Page::Bytes(b".TH x\n.\\\" -*- coding: EUC-JP-unix -*-\na\xe9\n"),
    ),
    // The letters U+0400 to U+0477, of one column each.
    (
        "many",
        Page::Bytes(
            b"\xd0\x80\xd0\x81\xd0\x82\xd0\x83\xd0\x84\xd0\x85\xd0\x86\xd0\x87\xd0\x88\xd0\x89\xd0\x8a\xd0\x8b\xd0\x8c\xd0\x8d\xd0\x8e\xd0\x8f\xd0\x90\xd0\x91\xd0\x92\xd0\x93\xd0\x94\xd0\x95\xd0\x96\xd0\x97\xd0\x98\xd0\x99\xd0\x9a\xd0\x9b\xd0\x9c\xd0\x9d\xd0\x9e\xd0\x9f\xd0\xa0\xd0\xa1\xd0\xa2\xd0\xa3\xd0\xa4\xd0\xa5\xd0\xa6\xd0\xa7\xd0\xa8\xd0\xa9\xd0\xaa\xd0\xab\xd0\xac\xd0\xad\xd0\xae\xd0\xaf\xd0\xb0\xd0\xb1\xd0\xb2\xd0\xb3\xd0\xb4\xd0\xb5\xd0\xb6\xd0\xb7\xd0\xb8\xd0\xb9\xd0\xba\xd0\xbb\xd0\xbc\xd0\xbd\xd0\xbe\xd0\xbf\xd1\x80\xd1\x81\xd1\x82\xd1\x83\xd1\x84\xd1\x85\xd1\x86\xd1\x87\xd1\x88\xd1\x89\xd1\x8a\xd1\x8b\xd1\x8c\xd1\x8d\xd1\x8e\xd1\x8f\xd1\x90\xd1\x91\xd1\x92\xd1\x93\xd1\x94\xd1\x95\xd1\x96\xd1\x97\xd1\x98\xd1\x99\xd1\x9a\xd1\x9b\xd1\x9c\xd1\x9d\xd1\x9e\xd1\x9f\xd1\xa0\xd1\xa1\xd1\xa2\xd1\xa3\xd1\xa4\xd1\xa5\xd1\xa6\xd1\xa7\xd1\xa8\xd1\xa9\xd1\xaa\xd1\xab\xd1\xac\xd1\xad\xd1\xae\xd1\xaf\xd1\xb0\xd1\xb1\xd1\xb2\xd1\xb3\xd1\xb4\xd1\xb5\xd1\xb6\xd1\xb7\n",
        ),
    ),
    ("folder", Page::Cut(b"")),
    ("cut", Page::Cut(b"a\\~b\n.BR c\\(l")),
];

static RUNS: [Run; 24] = [
    Run {
        words: &[b"preconv"],
        output: b"cafe\n",
        status: 0,
        lines: b"",
    },
    Run {
        words: &[b"preconv", b"-8"],
        output: b"caf\xe9\n",
        status: 0,
        lines: b"",
    },
    Run {
        words: &[b"preconv", b"-8", b"-8", b"latin"],
        output: b"na\xefve \xe9\n",
        status: 0,
        lines: b"",
    },
    // Characters of the table are its bytes, by their names too.
    Run {
        words: &[b"preconv", b"-u", b"latin", b"quotes"],
        output: b"\xffa\xbc \xb4 \\fIb\\fP\n",
        status: 0,
        lines: b"",
    },
    // So are the acute accent's escape, the strings for quotes of -man, and a letter with marks where the table has both.
    Run {
        words: &[b"preconv", b"-u", b"english", b"named"],
        output: b"\xb4a \x88b\x89 \xae \xe9 <alpha>\n",
        status: 0,
        lines: b"",
    },
    Run {
        words: &[b"preconv", b"-u"],
        output: b"",
        status: 2,
        lines: b"preconv: no table is named\n",
    },
    Run {
        words: &[b"preconv", b"-8", b"-u", b"Latin"],
        output: b"",
        status: 2,
        lines: b"preconv: unknown table Latin\n",
    },
    // Standard input stands where it is named, and ends once.
    Run {
        words: &[b"preconv", b"quotes", b"-", b"latin", b"-"],
        output: b"\\(dqa\\(dq \\(em \\fIb\\fP\ncafe\nnaive e\n",
        status: 0,
        lines: b"",
    },
    // Text is read under its coding.
    Run {
        words: &[b"preconv", b"-u", b"cyrillic", b"russian"],
        output: b".\\\" -*- mode: nroff; coding: KOI8-R -*-\n\x9a\xcd\xde a\n",
        status: 0,
        lines: b"",
    },
    // A coding that is not known is reported.
    Run {
        words: &[b"preconv", b"japanese", b"half"],
        output: b".TH x\n.\\\" -*- coding: EUC-JP-unix -*-\nae\n\\(l\n",
        status: 1,
        lines: b"preconv: japanese:2: unknown coding euc-jp-unix\n",
    },
    // Each file is turned by itself, and ends with a newline.
    Run {
        words: &[b"preconv", b"half", b"other", b"half"],
        output: b"\\(l\nq\n.tr x\n\\(l\n",
        status: 0,
        lines: b"",
    },
    // What stands after a file is a file.
    Run {
        words: &[b"preconv", b"latin", b"-8"],
        output: b"",
        status: 3,
        lines: b"preconv: cannot open -8\n",
    },
    Run {
        words: &[b"preconv", b"-", b"-x"],
        output: b"",
        status: 3,
        lines: b"preconv: cannot open -x\n",
    },
    // The first that can't be opened is reported, before anything is read.
    Run {
        words: &[b"preconv", b"folder", b"none", b"nor"],
        output: b"",
        status: 3,
        lines: b"preconv: cannot open none\n",
    },
    Run {
        words: &[b"preconv", b""],
        output: b"",
        status: 3,
        lines: b"preconv: cannot open \n",
    },
    // The first word that is no option is reported, before anything is opened.
    Run {
        words: &[b"preconv", b"-8", b"-88", b"-x", b"none"],
        output: b"",
        status: 2,
        lines: b"preconv: unknown option -88\n",
    },
    Run {
        words: &[b"preconv", b"--"],
        output: b"",
        status: 2,
        lines: b"preconv: unknown option --\n",
    },
    Run {
        words: &[b"preconv", b"folder", b"latin"],
        output: b"",
        status: 3,
        lines: b"preconv: folder: read fault at byte 0\n",
    },
    // What came before the fault is out, but for what is half read; bytes are those of the file.
    Run {
        words: &[b"preconv", b"latin", b"cut", b"latin"],
        output: b"naive e\na\\ b\n.BR c",
        status: 3,
        lines: b"preconv: cut: read fault at byte 13\n",
    },
    Run {
        words: &[b"preconv", b"-8", b"cut"],
        output: b"a\\ b\n.BR c",
        status: 3,
        lines: b"preconv: cut: read fault at byte 13\n",
    },
    // The table of what a file prints: 11 bytes for frames, and then those of the file; a character of two columns is two.
    Run {
        words: &[b"preconv", b"-u", b"own:scripts", b"scripts", b"-"],
        output: b"\x8b\\(zb\xfe\xff a\ncafe\n",
        status: 0,
        lines: b"",
    },
    // Of 120 letters 117 have room beside what frames are drawn with. The others are reported once all went out.
    Run {
        words: &[b"preconv", b"-u", b"own:many", b"-"],
        output: b"cafe\n",
        status: 0,
        lines: b"preconv: many: characters not shown: U+0475 U+0476 U+0477\n",
    },
    Run {
        words: &[b"preconv", b"-u", b"own:none", b"missing"],
        output: b"",
        status: 3,
        lines: b"preconv: cannot open none\n",
    },
    Run {
        words: &[b"preconv", b"-u", b"own:cut", b"latin"],
        output: b"",
        status: 3,
        lines: b"preconv: cannot read cut\n",
    },
];

#[test]
fn runs_in_a_system(rt: HostRuntime) {
    for run in &RUNS {
        let words = run.words;
        assert!(rt;
            comes_to(&Preconv, rt.alloc(), &TEXTS, b"caf\xc3\xa9", run),
            "{words:?}"
        );
    }
}

// A write that fails, and a flush; a read fault is not reported then.
#[test]
fn reports_an_output_that_fails(rt: HostRuntime) {
    for (takes, text) in [
        (false, b"quotes".as_slice()),
        (true, b"quotes"),
        (true, b"cut"),
    ] {
        let words = [b"preconv".as_slice(), text];
        let line = b"preconv: write fault\n".as_slice();
        assert!(rt; reports_a_write_fault(&Preconv, rt.alloc(), &TEXTS, &words, takes, line));
    }
}

// A text of several buffers, in which no line ends.
#[test]
fn turns_a_long_line(rt: HostRuntime) -> Result<(), std::alloc::AllocError> {
    let mut page = Vec::new(rt.alloc());
    let mut turned = Vec::new(rt.alloc());
    for _ in 0..40_000 {
        page.extend_from_slice(b"ab \xe2\x86\x92 ")?;
        turned.extend_from_slice(b"ab \\-> ")?;
    }
    turned.push(b'\n')?;
    let mut output = Vec::new(rt.alloc());
    let mut line = Vec::new(rt.alloc());
    let system = System {
        words: &[b"preconv"],
        texts: &[],
    };
    let status = run_program(
        &Preconv,
        &system,
        rt.alloc(),
        page.as_slice(),
        &mut output,
        &mut line,
    );
    assert_eq!(rt; status, 0);
    assert!(rt; output == turned);
    Ok(())
}
