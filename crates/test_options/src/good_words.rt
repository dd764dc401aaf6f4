// What good words ask for.
use nr_command_options::{Input, Job, MacroFile, read_words};

/// Words, and what they ask for.
struct Asked {
    words: &'static [&'static str],
    /// The first page's number.
    first: i64,
    /// Whether page 1 is printed; page 2 always is.
    prints_first: bool,
    registers: &'static [(u8, i64)],
    /// Stored bytes, depth, cells and expansions.
    limits: [u64; 4],
    macro_folder: &'static str,
    /// What is read, in order.
    inputs: &'static [Input<'static>],
}

/// The limits where no word sets them.
const LIMITS: [u64; 4] = [262_144, 256, 65_536, 1_000_000];

static JOBS: [Asked; 8] = [
    Asked {
        words: &[],
        first: 1,
        prints_first: true,
        registers: &[],
        limits: LIMITS,
        macro_folder: ".",
        inputs: &[Input::Standard],
    },
    // the last of a kind counts
    Asked {
        words: &[
            "-o1",
            "-n7",
            "-Mone",
            "-Ls64",
            "-o2-",
            "-n008",
            "-Mtwo",
            "-Ls100",
            "-Lx4294967296",
            "-Lp5",
            "-Ld1",
        ],
        first: 8,
        prints_first: false,
        registers: &[],
        limits: [100, 1, 5, 4_294_967_296],
        macro_folder: "two",
        inputs: &[Input::Standard],
    },
    // registers in order
    Asked {
        words: &[
            "-ra5",
            "-r%-007",
            "-ra6",
            "-r-1",
            "-r--1",
            "-r~2147483647",
            "-r!-2147483647",
        ],
        first: 1,
        prints_first: true,
        registers: &[
            (b'a', 5),
            (b'%', -7),
            (b'a', 6),
            (b'-', 1),
            (b'-', -1),
            (b'~', 2_147_483_647),
            (b'!', -2_147_483_647),
        ],
        limits: LIMITS,
        macro_folder: ".",
        inputs: &[Input::Standard],
    },
    // options end at the first file
    Asked {
        words: &["-n5", "-", "-i"],
        first: 5,
        prints_first: true,
        registers: &[],
        limits: LIMITS,
        macro_folder: ".",
        inputs: &[Input::Standard, Input::File("-i")],
    },
    Asked {
        words: &["-n5", "", "-n6"],
        first: 5,
        prints_first: true,
        registers: &[],
        limits: LIMITS,
        macro_folder: ".",
        inputs: &[Input::File(""), Input::File("-n6")],
    },
    // macro files first, then files, then standard input
    Asked {
        words: &["-i", "-ms", "-Mlib\u{e9}", "-man", "one", "tw\u{f6}"],
        first: 1,
        prints_first: true,
        registers: &[],
        limits: LIMITS,
        macro_folder: "lib\u{e9}",
        inputs: &[
            Input::Macros(MacroFile {
                folder: "lib\u{e9}",
                name: "s",
            }),
            Input::Macros(MacroFile {
                folder: "lib\u{e9}",
                name: "an",
            }),
            Input::File("one"),
            Input::File("tw\u{f6}"),
            Input::Standard,
        ],
    },
    // standard input once
    Asked {
        words: &["-i"],
        first: 1,
        prints_first: true,
        registers: &[],
        limits: LIMITS,
        macro_folder: ".",
        inputs: &[Input::Standard],
    },
    Asked {
        words: &["-i", "-i"],
        first: 1,
        prints_first: true,
        registers: &[],
        limits: LIMITS,
        macro_folder: ".",
        inputs: &[Input::Standard],
    },
];

fn is_same(one: &Input<'_>, other: &Input<'_>) -> bool {
    match one {
        Input::Standard => matches!(other, Input::Standard),
        Input::File(name) => matches!(other, Input::File(same) if same == name),
        Input::Macros(file) => {
            matches!(other, Input::Macros(same) if same.folder == file.folder && same.name == file.name)
        }
    }
}

/// Whether the job reads this, in order, and nothing more.
fn reads(job: &Job<'_>, inputs: &[Input<'_>]) -> bool {
    for (place, input) in inputs.iter().enumerate() {
        match job.input(place) {
            None => return false,
            Some(found) => {
                if !is_same(&found, input) {
                    return false;
                }
            }
        }
    }
    job.input(inputs.len()).is_none() && job.input(usize::MAX).is_none()
}

/// Whether the job has these limits.
fn keeps(job: &Job<'_>, limits: [u64; 4]) -> bool {
    let [stored, depth, cells, expansions] = limits;
    job.limits.stored() as u64 == stored
        && job.limits.depth() as u64 == depth
        && job.limits.cells() as u64 == cells
        && job.limits.expansions() == expansions
}

/// Whether this was asked for.
fn is_asked(job: &Job<'_>, asked: &Asked) -> bool {
    let options = &job.options;
    options.first == asked.first
        && options.select.has(1) == asked.prints_first
        && options.select.has(2)
        && options.registers.as_slice() == asked.registers
        && job.macro_folder == asked.macro_folder
        && keeps(job, asked.limits)
        && reads(job, asked.inputs)
}

/// Whether the words are good, and ask for this.
fn asks(asked: &Asked) -> bool {
    match read_words(asked.words) {
        Ok(job) => is_asked(&job, asked),
        Err(_) => false,
    }
}

#[test]
fn jobs(rt: HostRuntime) {
    for asked in &JOBS {
        let words = asked.words;
        assert!(rt; asks(asked), "{words:?}");
    }
}
