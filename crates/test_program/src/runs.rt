// Whole runs in a system: over its words, its texts and its standard input.

use command_line::fakes::{Closing, Page, System, Typed};
use program_command::run_program;
use std::alloc::Global;
use std::cell::Cell;

/// A run in a system: its words, standard input, what it prints, its status and its line.
struct Case {
    words: &'static [&'static [u8]],
    input: &'static [u8],
    output: &'static [u8],
    status: u8,
    line: &'static [u8],
}

static TEXTS: [(&str, Page<'static>); 13] = [
    ("one", Page::Bytes(b"one\n.br\ntwo")),
    ("-i", Page::Bytes(b".br\nthree")),
    (
        "a.1",
        Page::Bytes(b".TH A 1 today here\n.SH NAME\na \\- b\n"),
    ),
    (
        "b.1",
        Page::Bytes(b".Dd May 1, 2020\n.Dt B 1\n.Os X\n.Sh NAME\n.Nm b\n.Nd c\n"),
    ),
    ("lib/tmac.line", Page::Bytes(b".ll 20")),
    ("lib/tmac.page", Page::Bytes(b".pl 1")),
    (
        "lib/tmac.tables",
        Page::Bytes(b".ig\n.TS\nl.\na\tb\n.TE\n..\n"),
    ),
    ("man/man1/b.1", Page::Bytes(b"b\n")),
    (
        "man/man1/c.1",
        Page::Bytes(b"c\n'\tso  man1/b.1 and no more\nd"),
    ),
    ("man/man1/round.1", Page::Bytes(b".so man1/round.1\n")),
    ("man/man1/latin.1", Page::Bytes(b"n\xe9e\n")),
    ("man/man1/cut.1", Page::Cut(b"cut\n")),
    ("man/man1/out.1", Page::Link("one")),
];

/// What is formatted.
static PRINTED: [Case; 21] = [
    Case {
        words: &[b"nulbiko"],
        input: b".pl 2\n.ll 8\na bb ccc dddd\n",
        output: b"a bb ccc\ndddd\n",
        status: 0,
        line: b"",
    },
    // files in order, and standard input after them
    Case {
        words: &[b"nulbiko", b"-i", b"one", b"-"],
        input: b".pl 1\n.br\nthree",
        output: b"one\ntwo\nthree\n",
        status: 0,
        line: b"",
    },
    // a page asks for its macros by itself
    Case {
        words: &[b"nulbiko", b"-Tascii", b"-w", b"41", b"a.1"],
        input: b"",
        output: b"A(1)     General Commands Manual     A(1)\n\n\
NAME\n       a - b\n\n\
here              today              A(1)\n",
        status: 0,
        line: b"",
    },
    // macros that are named twice are read once
    Case {
        words: &[
            b"nulbiko", b"-mandoc", b"-man", b"-Tascii", b"-w", b"41", b"a.1",
        ],
        input: b"",
        output: b"A(1)     General Commands Manual     A(1)\n\n\
NAME\n       a - b\n\n\
here              today              A(1)\n",
        status: 0,
        line: b"",
    },
    // tables, characters beyond ASCII and strings of the words
    Case {
        words: &[b"nulbiko", b"-Tutf8", b"-dwd=word"],
        input: b".pl 1\n\\*(wd \xc3\xa9\n",
        output: b"word \xc3\xa9\n",
        status: 0,
        line: b"",
    },
    // a page with a table of its own: characters of one column and of two, struck out, between sequences, and as other text
    Case {
        words: &[b"nulbiko", b"-Tutf8"],
        input: b".pl 1\nP\xc5\x98EKLAD \xe5\x90\x8d\n",
        output: b"P\xc5\x98EKLAD \xe5\x90\x8d\n",
        status: 0,
        line: b"",
    },
    Case {
        words: &[b"nulbiko", b"-Tutf8", b"--faces=on"],
        input: b".pl 1\n\\fBP\xc5\x98\\fP \\fI\xe5\x90\x8dx\\fP\n",
        output: b"\x1b[1mP\xc5\x98\x1b[22m \x1b[4m\xe5\x90\x8dx\x1b[24m\n",
        status: 0,
        line: b"",
    },
    Case {
        words: &[b"nulbiko", b"-Tutf8", b"--faces=none"],
        input: b".pl 1\n\\fBP\xc5\x98\\fP \\fI\xe5\x90\x8dx\\fP\n",
        output: b"P\xc5\x98 \xe5\x90\x8dx\n",
        status: 0,
        line: b"",
    },
    // a page of ASCII, which names letters that no fixed table has, by words, and with their marks
    Case {
        words: &[b"nulbiko", b"-Tutf8"],
        input: b".pl 1\n\\(vs\\[*a] \\[e aa] \\[u0438_0306] \\[q a~].\n",
        output: b"\xc5\xa1\xce\xb1 \xc3\xa9 \xd0\xb9 q\xcc\x83.\n",
        status: 0,
        line: b"",
    },
    // a coding that is named for the texts
    Case {
        words: &[b"nulbiko", b"-Tutf8", b"-K", b"ISO-8859-1"],
        input: b".pl 1\nn\xe9e\n",
        output: b"n\xc3\xa9e\n",
        status: 0,
        line: b"",
    },
    Case {
        words: &[
            b"nulbiko", b"-Tascii", b"-mline", b"-mpage", b"-Mlib", b"-rab=7",
        ],
        input: b"\\n(ab.\n",
        output: b"7.\n",
        status: 0,
        line: b"",
    },
    Case {
        words: &[b"nulbiko", b"-o2"],
        input: b".pl 1\na\n.bp\nb\n.bp\nc\n",
        output: b"b\n",
        status: 0,
        line: b"",
    },
    // a page that needs no other program
    Case {
        words: &[b"nulbiko", b"--alone"],
        input: b".pl 1\na\n",
        output: b"a\n",
        status: 0,
        line: b"",
    },
    // bold text struck over, and as other text
    Case {
        words: &[b"nulbiko", b"-Tascii", b"-b"],
        input: b".pl 1\n\\fBab\\fP \\fIc\\fP\n",
        output: b"a\x08ab\x08b _\x08c\n",
        status: 0,
        line: b"",
    },
    Case {
        words: &[b"nulbiko", b"-Tascii", b"-b", b"--faces", b"none"],
        input: b".pl 1\n\\fBab\\fP \\fIc\\fP\n",
        output: b"ab c\n",
        status: 0,
        line: b"",
    },
    Case {
        words: &[b"nulbiko", b"-Tutf8", b"--faces=none"],
        input: b".pl 1\n\\fIa\xc3\xa9\\fP\n",
        output: b"a\xc3\xa9\n",
        status: 0,
        line: b"",
    },
    // a text that is only checked
    Case {
        words: &[b"nulbiko", b"-z", b"one"],
        input: b"",
        output: b"",
        status: 0,
        line: b"",
    },
    // texts of a folder that a page names, which name others; read as the page is
    Case {
        words: &[b"nulbiko", b"--within", b"man"],
        input: b".pl 1\na\n.so man1/c.1\ne\n.so man1/b.1",
        output: b"a c b d e b\n",
        status: 0,
        line: b"",
    },
    Case {
        words: &[b"nulbiko", b"--within=man/", b"--alone", b"-Tutf8"],
        input: b".pl 1\n.so man1/latin.1\n",
        output: b"n\xc3\xa9e\n",
        status: 0,
        line: b"",
    },
    // no line of the text: behind what is no line's beginning, and with no name
    Case {
        words: &[b"nulbiko", b"--within=man"],
        input: b".pl 1\na .so man1/b.1\n.so\n.sox man1/b.1\n",
        output: b"a .so man1/b.1\n",
        status: 0,
        line: b"",
    },
    Case {
        words: &[b"nulbiko", b"--version"],
        input: b"",
        output: b"nulbiko 0.2.0\n",
        status: 0,
        line: b"",
    },
];

/// What is reported.
static REPORTED: [Case; 28] = [
    // what is wrong in the texts, where words ask for it: of pages of mdoc, and of tables
    Case {
        words: &[b"nulbiko", b"-z", b"--warnings", b"b.1", b"-"],
        input: b".Dd\n.Xx\n",
        output: b"",
        status: 0,
        line: b"nulbiko: -:2: unknown macro: Xx\n",
    },
    Case {
        words: &[b"nulbiko", b"-z", b"-wmac"],
        input: b".TS\nl.\na\tb\n.TE\n",
        output: b"",
        status: 0,
        line: b"nulbiko: -:3: more fields than columns\n",
    },
    // of the lines of pages of man(7), and that they have no title where words name these macros
    Case {
        words: &[b"nulbiko", b"-z", b"--warnings"],
        input: b".SH A\n.TH A 1\n.XX\n.xx\n\\*(xy \\q\n.RE\n.UE\n.ME\n.EE\n.RS\n.UR x\n",
        output: b"",
        status: 0,
        line: b"nulbiko: -:2: late title macro: TH\nnulbiko: -:3: unknown macro: XX\nnulbiko: -:4: unknown macro: xx\nnulbiko: -:5: unknown string: xy\nnulbiko: -:5: unknown escape: \\q\nnulbiko: -:6: end of block that is not open: RE\nnulbiko: -:7: end of block that is not open: UE\nnulbiko: -:8: end of block that is not open: ME\nnulbiko: -:9: end of block that is not open: EE\nnulbiko: -:11: missing end of block: UR\nnulbiko: -:10: missing end of block: RS\n",
    },
    Case {
        words: &[b"nulbiko", b"-z", b"-man", b"--warnings"],
        input: b".ds xy a\n.SH A\n\\*(xy\n",
        output: b"",
        status: 0,
        line: b"nulbiko: -:2: missing title macro: TH\n",
    },
    // of each file by itself and once, of its macros before its tables, and of no macro file; then its pages go out
    Case {
        words: &[b"nulbiko", b"-z", b"-wmac", b"-", b"b.1", b"-"],
        input: b".Dd\n.Xx\n.TS\nl.\na\tb\n.TE\n",
        output: b"",
        status: 0,
        line: b"nulbiko: -:2: unknown macro: Xx\nnulbiko: -:5: more fields than columns\n",
    },
    Case {
        words: &[
            b"nulbiko",
            b"--warnings",
            b"-Tascii",
            b"-mpage",
            b"-mtables",
            b"-Mlib",
            b"one",
            b"-",
        ],
        input: b".TS\nl.\na\tb\n.TE\n",
        output: b"one\ntwo\na\nb\n",
        status: 0,
        line: b"nulbiko: -:3: more fields than columns\n",
    },
    // of one that fails that it wasn't looked at
    Case {
        words: &[b"nulbiko", b"-z", b"--warnings", b"man/man1/cut.1"],
        input: b"",
        output: b"",
        status: 3,
        line: b"nulbiko: man/man1/cut.1: not looked at\nnulbiko: man/man1/cut.1:1: read fault\n",
    },
    Case {
        words: &[b"nulbiko", b"-z", b"b.1", b"-"],
        input: b".Dd\n.Xx\n",
        output: b"",
        status: 0,
        line: b"",
    },
    Case {
        words: &[b"nulbiko", b"-c", b"-V", b"-y"],
        input: b".pl 1\na\n",
        output: b"",
        status: 2,
        line: b"nulbiko: option -V is not in this program\n",
    },
    Case {
        words: &[b"nulbiko", b"-o3-1", b"nowhere"],
        input: b"",
        output: b"",
        status: 2,
        line: b"nulbiko: bad value in 3-1\n",
    },
    Case {
        words: &[b"nulbiko", b"one", b"nowhere", b"nor"],
        input: b"",
        output: b"",
        status: 3,
        line: b"nulbiko: cannot open nowhere\n",
    },
    Case {
        words: &[b"nulbiko", b"-Mno", b"-mline", b"one"],
        input: b"",
        output: b"",
        status: 3,
        line: b"nulbiko: cannot open no/tmac.line\n",
    },
    Case {
        words: &[b"nulbiko", b"-mx", b"one"],
        input: b"",
        output: b"",
        status: 3,
        line: b"nulbiko: no macros of the name x\n",
    },
    Case {
        words: &[b"nulbiko", b"-Lp4"],
        input: b".pl 1\na\n.br\nb\n.br\nhello\n",
        output: b"a\n",
        status: 1,
        line: b"nulbiko: -:6: line cells limit passed\n",
    },
    Case {
        words: &[b"nulbiko", b"-Ls64"],
        input: b".ds xx aaaaaaaaaaaaaaaaaaaaaaaaaaaaaaaaaaaaaaaaaaaaaaaaaaaaaaaaaaaaaaaaaaaaa\n",
        output: b"",
        status: 1,
        line: b"nulbiko: -:1: stored bytes limit passed\n",
    },
    // a page of 128 characters of one column, and 10 others
    Case {
        words: &[b"nulbiko", b"-Tutf8", b"-o2"],
        input: b"\xc4\x80\xc4\x81\xc4\x82\xc4\x83\xc4\x84\xc4\x85\xc4\x86\xc4\x87\xc4\x88\xc4\x89\xc4\x8a\xc4\x8b\
\xc4\x8c\xc4\x8d\xc4\x8e\xc4\x8f\xc4\x90\xc4\x91\xc4\x92\xc4\x93\xc4\x94\xc4\x95\xc4\x96\xc4\x97\
\xc4\x98\xc4\x99\xc4\x9a\xc4\x9b\xc4\x9c\xc4\x9d\xc4\x9e\xc4\x9f\xc4\xa0\xc4\xa1\xc4\xa2\xc4\xa3\
\xc4\xa4\xc4\xa5\xc4\xa6\xc4\xa7\xc4\xa8\xc4\xa9\xc4\xaa\xc4\xab\xc4\xac\xc4\xad\xc4\xae\xc4\xaf\
\xc4\xb0\xc4\xb1\xc4\xb2\xc4\xb3\xc4\xb4\xc4\xb5\xc4\xb6\xc4\xb7\xc4\xb8\xc4\xb9\xc4\xba\xc4\xbb\
\xc4\xbc\xc4\xbd\xc4\xbe\xc4\xbf\xc5\x80\xc5\x81\xc5\x82\xc5\x83\xc5\x84\xc5\x85\xc5\x86\xc5\x87\
\xc5\x88\xc5\x89\xc5\x8a\xc5\x8b\xc5\x8c\xc5\x8d\xc5\x8e\xc5\x8f\xc5\x90\xc5\x91\xc5\x92\xc5\x93\
\xc5\x94\xc5\x95\xc5\x96\xc5\x97\xc5\x98\xc5\x99\xc5\x9a\xc5\x9b\xc5\x9c\xc5\x9d\xc5\x9e\xc5\x9f\
\xc5\xa0\xc5\xa1\xc5\xa2\xc5\xa3\xc5\xa4\xc5\xa5\xc5\xa6\xc5\xa7\xc5\xa8\xc5\xa9\xc5\xaa\xc5\xab\
\xc5\xac\xc5\xad\xc5\xae\xc5\xaf\xc5\xb0\xc5\xb1\xc5\xb2\xc5\xb3\xc5\xb4\xc5\xb5\xc5\xb6\xc5\xb7\
\xc5\xb8\xc5\xb9\xc5\xba\xc5\xbb\xc5\xbc\xc5\xbd\xc5\xbe\xc5\xbf\
\x20q\xcc\x83\xe5\x90\x8d\xce\xb1\xce\xb2\xce\xb3\xce\xb4\xce\xb5\xce\xb6\xce\xb7\xce\xb8\n",
        output: b"",
        status: 0,
        line: b"nulbiko: -: characters not shown: U+0071+U+0303 U+540D U+03B1 U+03B2 U+03B3 U+03B4 U+03B5 U+03B6 and 2 more\n",
    },
    // characters that look like nothing in ASCII and in Latin-1, and some that do
    Case {
        words: &[b"nulbiko", b"-Tascii"],
        input: b".pl 1\n\xe1\xbc\x81 \xe5\x90\x8d \xc5\x99 \xe5\x90\x8d \xce\xb1\n",
        output: b"<U+1F01> <U+540D> r <U+540D> <alpha>\n",
        status: 0,
        line: b"nulbiko: -: characters not shown: U+540D U+1F01\n",
    },
    Case {
        words: &[b"nulbiko", b"-Tlatin1"],
        input: b".pl 1\n\xc3\xa9 \xc5\x99 \\[u540D]\n",
        output: b"\xe9 r <U+540D>\n",
        status: 0,
        line: b"nulbiko: -: characters not shown: U+540D\n",
    },
    Case {
        words: &[b"nulbiko", b"-Tascii"],
        input: b".pl 1\n\xc3\xa9 \xc5\x99\n",
        output: b"e r\n",
        status: 0,
        line: b"",
    },
    // a page that names another
    Case {
        words: &[b"nulbiko", b"--alone"],
        input: b".pl 1\na\n.so man1/b.1\n",
        output: b"",
        status: 6,
        line: b"",
    },
    // texts that are left out
    Case {
        words: &[b"nulbiko", b"--within=man"],
        input: b".pl 1\na\n.so man1/no.1\nb\n.so man1/../../one\n",
        output: b"a b\n",
        status: 3,
        line: b"nulbiko: -:3: the text that .so names is not in the folder\n",
    },
    Case {
        words: &[b"nulbiko", b"--within=man"],
        input: b".pl 1\na\n.so man1/../../one\nb\n",
        output: b"a b\n",
        status: 3,
        line: b"nulbiko: -:3: the text that .so names is out of the folder\n",
    },
    Case {
        words: &[b"nulbiko", b"--within=man"],
        input: b".pl 1\n.so man1/b.1\n.so man1/out.1\n.so one\n.so /one\n",
        output: b"b\n",
        status: 3,
        line: b"nulbiko: -:3: the text that .so names is out of the folder\n",
    },
    Case {
        words: &[b"nulbiko", b"--within=man"],
        input: b".pl 1\n.so man1/round.1\na\n",
        output: b"a\n",
        status: 3,
        line: b"nulbiko: -:2: the text that .so names is one too many\n",
    },
    Case {
        words: &[b"nulbiko", b"--within=man"],
        input: b".pl 1\na\n.so man1/cut.1\n",
        output: b"a\n",
        status: 3,
        line: b"nulbiko: -:3: the text that .so names can't be read\n",
    },
    Case {
        words: &[b"nulbiko", b"--within=nowhere"],
        input: b".pl 1\na\n",
        output: b"",
        status: 3,
        line: b"nulbiko: no folder nowhere\n",
    },
    Case {
        words: &[b"nulbiko", b"-Kmorse", b"one"],
        input: b"",
        output: b"",
        status: 2,
        line: b"nulbiko: bad value in morse\n",
    },
    Case {
        words: &[b"nulbiko", b"-K"],
        input: b"",
        output: b"",
        status: 2,
        line: b"nulbiko: no value after -K\n",
    },
];

/// The first words of a run that comes to something else.
fn first_other(rows: &'static [Case], alloc: Global) -> Option<&'static [&'static [u8]]> {
    for row in rows {
        if !meets(alloc, row) {
            return Some(row.words);
        }
    }
    None
}

/// Whether a run comes to what its row says.
fn meets(alloc: Global, row: &Case) -> bool {
    let mut output = Vec::new(alloc);
    let mut line = Vec::new(alloc);
    let status = run_row(alloc, row, &mut output, &mut line);
    output.as_slice() == row.output && line.as_slice() == row.line && status == row.status
}

/// Its status.
fn run_row(alloc: Global, row: &Case, output: &mut Vec<u8>, line: &mut Vec<u8>) -> u8 {
    let system = System {
        words: row.words,
        texts: &TEXTS,
    };
    let left = Cell::new(row.input);
    run_program(&system, alloc, Typed { left: &left }, output, line, false)
}

#[test]
fn prints(rt: HostRuntime) {
    assert_eq!(rt; first_other(&PRINTED, rt.alloc()), None);
}

#[test]
fn reports(rt: HostRuntime) {
    assert_eq!(rt; first_other(&REPORTED, rt.alloc()), None);
}

#[test]
fn tells_an_output_that_fails(rt: HostRuntime) {
    let system = System {
        words: &[b"nulbiko", b"one"],
        texts: &TEXTS,
    };
    let mut line = Vec::new(rt.alloc());
    let input = b"".as_slice();
    let output = Closing { takes: false };
    let status = run_program(&system, rt.alloc(), input, output, &mut line, false);
    assert_eq!(rt; status, 4);
    assert!(rt; line.as_slice() == b"nulbiko: write fault\n".as_slice());
}
