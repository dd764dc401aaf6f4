// A run of a program over words and texts in memory, and what it must come to.
use command_line::fakes::{Closing, Page, System, Typed};
use filters::{Filter, run_program};
use std::alloc::Global;
use std::cell::Cell;

/// A run: its words, what it writes, its status and its lines.
pub struct Run {
    pub words: &'static [&'static [u8]],
    pub output: &'static [u8],
    pub status: u8,
    pub lines: &'static [u8],
}

/// A text in memory with its name.
pub type Named = (&'static str, Page<'static>);

/// Whether a program over these texts and this standard input comes to what a run says.
pub fn comes_to<F: Filter>(
    program: &F,
    alloc: Global,
    texts: &[Named],
    typed: &[u8],
    run: &Run,
) -> bool {
    let system = System {
        words: run.words,
        texts,
    };
    let left = Cell::new(typed);
    let input = Typed { left: &left };
    let mut output = Vec::new(alloc);
    let mut lines = Vec::new(alloc);
    let status = run_program(program, &system, alloc, input, &mut output, &mut lines);
    output.as_slice() == run.output && lines.as_slice() == run.lines && status == run.status
}

/// Whether it reports by this line alone an output that fails: it takes bytes and not their flush, or none.
pub fn reports_a_write_fault<F: Filter>(
    program: &F,
    alloc: Global,
    texts: &[Named],
    words: &[&[u8]],
    takes: bool,
    line: &[u8],
) -> bool {
    let system = System { words, texts };
    let input = b"".as_slice();
    let mut lines = Vec::new(alloc);
    let status = run_program(
        program,
        &system,
        alloc,
        input,
        Closing { takes },
        &mut lines,
    );
    lines.as_slice() == line && status == 4
}
