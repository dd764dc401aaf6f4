// Whole runs of mdoc over words, and over texts in memory. Standard input is the line `typed`.
use crate::runs::{Named, Run, comes_to, reports_a_write_fault};
use command_line::fakes::Page;
use mdoc_command::Mdoc;

static TEXTS: [Named; 6] = [
    (
        "page",
        Page::Bytes(b".Dd May 1, 2020\n.Dt ROW 1\n.Os\n.Sh NAME\n.Nm row\n.Nd a line\n"),
    ),
    (
        "wrong",
        Page::Bytes(b".Dd May 1, 2020\n.Dt ROW 1\n.Os\n.Xx a\n.Xy b\n"),
    ),
    ("man", Page::Bytes(b".TH x\na\n")),
    ("open", Page::Bytes(b".TH x\na")),
    ("folder", Page::Cut(b"")),
    ("cut", Page::Cut(b".TH x\na\n")),
];

static RUNS: [Run; 15] = [
    // A page that is none of mdoc passes as it is.
    Run {
        words: &[b"mdoc"],
        output: b"typed\n",
        status: 0,
        lines: b"",
    },
    Run {
        words: &[b"mdoc", b"page"],
        output: b".de %i\n.br\n.if \\\\n(nl-\\\\n(%t=1v*\\\\$1>\\\\n(.n \\\\{.sp -1\n\\\\&\\\\c\n.\\\\}\n..\n.TH ROW 1 \"May 1, 2020\" \"\\*()O\"\n.ds )9 \\*()4\n.nr IN 5n\n.ad l\n.SH NAME\n\\fBrow\\fR\n\\(en a line\n",
        status: 0,
        lines: b"",
    },
    // Standard input stands where it is named, and ends once. Each file is turned by itself.
    Run {
        words: &[b"mdoc", b"man", b"page", b"-", b"open", b"-"],
        output: b".TH x\na\n.de %i\n.br\n.if \\\\n(nl-\\\\n(%t=1v*\\\\$1>\\\\n(.n \\\\{.sp -1\n\\\\&\\\\c\n.\\\\}\n..\n.TH ROW 1 \"May 1, 2020\" \"\\*()O\"\n.ds )9 \\*()4\n.nr IN 5n\n.ad l\n.SH NAME\n\\fBrow\\fR\n\\(en a line\ntyped\n.TH x\na",
        status: 0,
        lines: b"",
    },
    // What is wrong with a page is reported, and the others are turned.
    Run {
        words: &[b"mdoc", b"wrong", b"man"],
        output: b".de %i\n.br\n.if \\\\n(nl-\\\\n(%t=1v*\\\\$1>\\\\n(.n \\\\{.sp -1\n\\\\&\\\\c\n.\\\\}\n..\n.TH ROW 1 \"May 1, 2020\" \"\\*()O\"\n.ds )9 \\*()4\n.nr IN 5n\n.ad l\na\nb\n.TH x\na\n",
        status: 1,
        lines: b"mdoc: wrong:4: unknown macro: Xx\nmdoc: wrong:5: unknown macro: Xy\n",
    },
    // The first that can't be opened is reported, before anything is read.
    Run {
        words: &[b"mdoc", b"folder", b"none", b"nor"],
        output: b"",
        status: 3,
        lines: b"mdoc: cannot open none\n",
    },
    Run {
        words: &[b"mdoc", b"wrong", b"none"],
        output: b"",
        status: 3,
        lines: b"mdoc: cannot open none\n",
    },
    Run {
        words: &[b"mdoc", b""],
        output: b"",
        status: 3,
        lines: b"mdoc: cannot open \n",
    },
    // What stands after a file is a file.
    Run {
        words: &[b"mdoc", b"man", b"-x"],
        output: b"",
        status: 3,
        lines: b"mdoc: cannot open -x\n",
    },
    Run {
        words: &[b"mdoc", b"-", b"--"],
        output: b"",
        status: 3,
        lines: b"mdoc: cannot open --\n",
    },
    // It has no option, and nothing is opened then.
    Run {
        words: &[b"mdoc", b"-x", b"none"],
        output: b"",
        status: 2,
        lines: b"mdoc: unknown option -x\n",
    },
    Run {
        words: &[b"mdoc", b"--"],
        output: b"",
        status: 2,
        lines: b"mdoc: unknown option --\n",
    },
    // What came before a fault is out, and nothing after it is read.
    Run {
        words: &[b"mdoc", b"folder", b"man"],
        output: b"",
        status: 3,
        lines: b"mdoc: read fault at byte 0\n",
    },
    Run {
        words: &[b"mdoc", b"man", b"cut", b"man"],
        output: b".TH x\na\n.TH x\na\n",
        status: 3,
        lines: b"mdoc: read fault at byte 8\n",
    },
    Run {
        words: &[b"mdoc", b"wrong", b"folder"],
        output: b".de %i\n.br\n.if \\\\n(nl-\\\\n(%t=1v*\\\\$1>\\\\n(.n \\\\{.sp -1\n\\\\&\\\\c\n.\\\\}\n..\n.TH ROW 1 \"May 1, 2020\" \"\\*()O\"\n.ds )9 \\*()4\n.nr IN 5n\n.ad l\na\nb\n",
        status: 3,
        lines: b"mdoc: wrong:4: unknown macro: Xx\nmdoc: wrong:5: unknown macro: Xy\nmdoc: read fault at byte 0\n",
    },
    Run {
        words: &[b"mdoc", b"man", b"wrong", b"man", b"wrong"],
        output: b".TH x\na\n.de %i\n.br\n.if \\\\n(nl-\\\\n(%t=1v*\\\\$1>\\\\n(.n \\\\{.sp -1\n\\\\&\\\\c\n.\\\\}\n..\n.TH ROW 1 \"May 1, 2020\" \"\\*()O\"\n.ds )9 \\*()4\n.nr IN 5n\n.ad l\na\nb\n.TH x\na\n.de %i\n.br\n.if \\\\n(nl-\\\\n(%t=1v*\\\\$1>\\\\n(.n \\\\{.sp -1\n\\\\&\\\\c\n.\\\\}\n..\n.TH ROW 1 \"May 1, 2020\" \"\\*()O\"\n.ds )9 \\*()4\n.nr IN 5n\n.ad l\na\nb\n",
        status: 1,
        lines: b"mdoc: wrong:4: unknown macro: Xx\nmdoc: wrong:5: unknown macro: Xy\nmdoc: wrong:4: unknown macro: Xx\nmdoc: wrong:5: unknown macro: Xy\n",
    },
];

#[test]
fn runs_in_a_system(rt: HostRuntime) {
    for run in &RUNS {
        let words = run.words;
        assert!(rt;
            comes_to(&Mdoc, rt.alloc(), &TEXTS, b"typed\n", run),
            "{words:?}"
        );
    }
}

// A write that fails, and a flush; a read fault is not reported then.
#[test]
fn reports_an_output_that_fails(rt: HostRuntime) {
    for (takes, text) in [(false, b"page".as_slice()), (true, b"page"), (true, b"cut")] {
        let words = [b"mdoc".as_slice(), text];
        let line = b"mdoc: write fault\n".as_slice();
        assert!(rt; reports_a_write_fault(&Mdoc, rt.alloc(), &TEXTS, &words, takes, line));
    }
}
