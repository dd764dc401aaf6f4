// Whole runs over words, and over texts in memory.
ghost use Rattle.std.specs.Prelude.{◌≡◌};
ghost use Rattle.nr_units.specs.Failures.{counted as counted_value};

use command_line::fakes::Page;
use nr_command::{Heap, Memory, Opener, run_words};
use nr_command_options::{Input, MacroFile};
use nr_engine::{Buffered, CountedAlloc, Desk, Limits, ToWriter};
use nr_units::source::next_count;
use std::alloc::{AllocError, Global};
use std::io;
use std::io::ErrorKind;

/// Texts by their paths, and standard input; how many were opened.
#[derive(Drop)]
struct Shelf<'a> {
    texts: &'a [(&'a str, Page<'a>)],
    standard: Page<'a>,
    opened: usize,
}

fn is_path(path: &str, file: MacroFile<'_>) -> bool {
    let Some(rest) = path.strip_prefix(file.folder) else {
        return false;
    };
    rest.strip_prefix("/tmac.") == Some(file.name)
}

impl<'b, 'a> Opener<'b> for Shelf<'a> {
    ghost use Rattle.std.specs.Prelude.{⊤, None};

    type Text = Buffered<'b, Page<'a>>;

    ghost may_come = { λ shelf reading opening. ⊤ };

    ghost asked = { λ shelf. None };

    fn open(&mut self, input: Input<'_>, buffer: &'b mut [u8]) -> io::Result<Self::Text> {
        for (path, page) in self.texts {
            let found = match input {
                Input::Macros(file) => is_path(path, file),
                Input::File(name) => *path == name,
                Input::Standard => false,
            };
            if found {
                self.opened = self.opened.wrapping_add(1);
                return Ok(Buffered::over(*page, buffer));
            }
        }
        if matches!(input, Input::Standard) {
            self.opened = self.opened.wrapping_add(1);
            return Ok(Buffered::over(self.standard, buffer));
        }
        Err(io::Error::from(ErrorKind::NotFound))
    }
}

/// The memory of the system, of which one call is refused.
#[derive(Drop)]
struct Scarce {
    alloc: Global,
    /// How many calls come before that one.
    before: usize,
    refusals: u64,
}

impl Scarce {
    ghost use Rattle.std.specs.Prelude.{◌≡◌};

    // Whether this is that call.
    fn refuses(&mut self) -> bool
        ensures { self.new.refusals ≡ self.old.refusals }
    {
        let refused = self.before == 0;
        self.before = self.before.wrapping_sub(1);
        refused
    }
}

/// What was taken, and one refusal more where it was refused.
fn counted<T>(refusals: &mut u64, taken: Result<T, AllocError>) -> Result<T, AllocError>
    ensures same { result ≡ taken }
    ensures refusals { refusals.new ≡ counted_value refusals.old taken }
{
    if taken.is_err() {
        *refusals = next_count(*refusals);
    }
    taken
}

impl Memory for Scarce {
    ghost use Rattle.std.specs.Prelude.{None};

    ghost refusals = { λ memory. memory.refusals };

    ghost asked = { λ memory. None };

    fn bytes(&mut self, len: usize) -> Result<Vec<u8>, AllocError> {
        if self.refuses() {
            return counted(&mut self.refusals, Err(AllocError));
        }
        let taken = vec![in self.alloc; 0u8; len];
        counted(&mut self.refusals, taken)
    }

    fn room<T>(&mut self, count: usize) -> Result<Vec<T>, AllocError> {
        if self.refuses() {
            return counted(&mut self.refusals, Err(AllocError));
        }
        let taken = Vec::with_capacity(self.alloc, count);
        counted(&mut self.refusals, taken)
    }

    fn desk(&mut self, limits: Limits) -> Result<Desk, AllocError> {
        if self.refuses() {
            return counted(&mut self.refusals, Err(AllocError));
        }
        let taken = Desk::new(&mut CountedAlloc::new(self.alloc), limits);
        counted(&mut self.refusals, taken)
    }
}

/// A run: its words, what it prints, its status, its line, and how many texts it opened.
#[derive(Drop)]
struct Case {
    words: &'static [&'static str],
    output: &'static [u8],
    status: u8,
    line: &'static [u8],
    opened: usize,
}

static TEXTS: [(&str, Page<'static>); 6] = [
    ("one", Page::Bytes(b".pl 1v\none")),
    ("two", Page::Bytes(b"two")),
    ("empty", Page::Bytes(b"")),
    ("folder", Page::Cut(b"")),
    ("./tmac.short", Page::Bytes(b".pl 1v\n")),
    ("lib/tmac.short", Page::Bytes(b".pl 2v\n")),
];

static ROWS: [Case; 19] = [
    Case {
        words: &[],
        output: b"in\n",
        status: 0,
        line: b"",
        opened: 1,
    },
    Case {
        words: &["-"],
        output: b"in\n",
        status: 0,
        line: b"",
        opened: 1,
    },
    // Neither file ends with a newline.
    Case {
        words: &["one", "two"],
        output: b"one two\n",
        status: 0,
        line: b"",
        opened: 2,
    },
    Case {
        words: &["one", "empty", "two"],
        output: b"one two\n",
        status: 0,
        line: b"",
        opened: 3,
    },
    Case {
        words: &["-i", "one"],
        output: b"one in\n",
        status: 0,
        line: b"",
        opened: 2,
    },
    Case {
        words: &["-i"],
        output: b"in\n",
        status: 0,
        line: b"",
        opened: 1,
    },
    Case {
        words: &["one", "-", "two"],
        output: b"one in two\n",
        status: 0,
        line: b"",
        opened: 3,
    },
    // Macro files come first, in the folder that was given last.
    Case {
        words: &["-mshort", "two"],
        output: b"two\n",
        status: 0,
        line: b"",
        opened: 2,
    },
    Case {
        words: &["-mshort", "-Mno", "-Mlib", "two"],
        output: b"two\n\n",
        status: 0,
        line: b"",
        opened: 2,
    },
    Case {
        words: &["-Mno", "-mshort"],
        output: b"",
        status: 3,
        line: b"nroff: cannot open no/tmac.short\n",
        opened: 0,
    },
    // Words after the first file are files.
    Case {
        words: &["one", "-i"],
        output: b"",
        status: 3,
        line: b"nroff: cannot open -i\n",
        opened: 1,
    },
    Case {
        words: &["-", "-s"],
        output: b"",
        status: 3,
        line: b"nroff: cannot open -s\n",
        opened: 1,
    },
    Case {
        words: &["one", "none", "nor"],
        output: b"",
        status: 3,
        line: b"nroff: cannot open none\n",
        opened: 1,
    },
    Case {
        words: &[""],
        output: b"",
        status: 3,
        line: b"nroff: cannot open \n",
        opened: 0,
    },
    Case {
        words: &["one", "folder"],
        output: b"",
        status: 3,
        line: b"nroff: read fault at byte 11\n",
        opened: 2,
    },
    // The first bad word is reported, before anything is opened.
    Case {
        words: &["-o5-3", "-s", "none"],
        output: b"",
        status: 2,
        line: b"nroff: bad value in -o5-3\n",
        opened: 0,
    },
    Case {
        words: &["-s2", "one"],
        output: b"",
        status: 2,
        line: b"nroff: option -s is not in this profile\n",
        opened: 0,
    },
    Case {
        words: &["-x"],
        output: b"",
        status: 2,
        line: b"nroff: unknown option -x\n",
        opened: 0,
    },
    Case {
        words: &["-Lp3", "one", "two"],
        output: b"",
        status: 1,
        line: b"nroff: line cells limit passed at byte 11\n",
        opened: 2,
    },
];

/// What a run prints and reports, with its status, and how many texts it opened.
#[derive(Drop)]
struct Ran {
    status: u8,
    output: Vec<u8>,
    line: Vec<u8>,
    opened: usize,
}

fn run<M: Memory>(alloc: Global, memory: &mut M, words: &[&str]) -> Ran {
    let mut output = Vec::new(alloc);
    let mut line = Vec::new(alloc);
    let (status, opened) = run_into(memory, words, Vec::new(alloc), &mut output, &mut line);
    Ran {
        status,
        output,
        line,
        opened,
    }
}

/// The status of a run, and how many texts it opened.
fn run_into<M: Memory>(
    memory: &mut M,
    words: &[&str],
    mut buffers: Vec<u8>,
    output: &mut Vec<u8>,
    line: &mut Vec<u8>,
) -> (u8, usize) {
    let mut shelf = Shelf {
        texts: &TEXTS,
        standard: Page::Bytes(b".pl 1v\nin\n"),
        opened: 0,
    };
    let status = run_words(
        memory,
        words,
        &mut shelf,
        &mut buffers,
        &mut ToWriter::over(output),
        &mut ToWriter::over(line),
    );
    (status, shelf.opened)
}

/// Whether a run comes to what its row says.
fn agrees<M: Memory>(alloc: Global, memory: &mut M, row: &Case) -> bool {
    let ran = run(alloc, memory, row.words);
    let is_same = ran.output.as_slice() == row.output && ran.line.as_slice() == row.line;
    is_same && (ran.status, ran.opened) == (row.status, row.opened)
}

#[test]
fn rows(rt: HostRuntime) {
    for row in &ROWS {
        let words = row.words;
        assert!(rt;
            agrees(rt.alloc(), &mut Heap::new(rt.alloc()), row),
            "{words:?}"
        );
    }
}

/// The same where so many calls for memory are granted and the next is refused, and how many were refused.
fn agrees_after(alloc: Global, before: usize, row: &Case) -> (bool, u64) {
    let mut memory = Scarce {
        alloc,
        before,
        refusals: 0,
    };
    let agreed = agrees(alloc, &mut memory, row);
    (agreed, memory.refusals)
}

// The first two calls are for the buffers and the list of the texts, the third for the desk.
#[test]
fn tells_memory_that_is_refused(rt: HostRuntime) {
    for (before, opened) in [(0, 0), (1, 0), (2, 2)] {
        let row = Case {
            words: &["one", "two"],
            output: b"",
            status: 5,
            line: b"nroff: out of memory\n",
            opened,
        };
        assert!(rt;
            agrees_after(rt.alloc(), before, &row) == (true, 1),
            "behind {before}"
        );
    }
    let row = Case {
        words: &["one", "two"],
        output: b"one two\n",
        status: 0,
        line: b"",
        opened: 2,
    };
    assert!(rt; agrees_after(rt.alloc(), 3, &row) == (true, 0));
}
