//! Examples: inputs of the formatter with the pages that they must give, as files in data/, NAME.roff and NAME.out.
//! data/examples lists those that end under the limits by default, data/examples_with_faces those that show faces (`-b`),
//! data/examples_with_limits the others, with their limits and their ends; data/examples_of_tables lists inputs that go through tbl first, with their limits and what that reports;
//! data/examples_with_faults lists inputs that are run with a fault at every byte. The program runs them.
//!
//! It stands on nr_units, nr_vectors, utf8_characters, nr_engine and tbl_setting. To read: this file, `limits`, `tables`, `faults`.
#![tactic(auto)]

use nr_engine::{
    Buffered, CountedAlloc, Desk, Faces, Limits, Options, Outcome, Sink, Source, format,
};
use nr_units::fakes::Slate;
use std::alloc::{AllocError, Global};
use std::fs;
use std::rt::Files;

mod faults;
mod limits;
mod tables;

use limits::limits_of;
use tables::TableSetter;

/// The bytes of the buffer of an example's input.
const BUFFER_SIZE: usize = 4096;

/// Runs all examples, and prints how many of each list passed.
fn main(rt: HostRuntime) -> anyhow::Result<()> {
    let plain = plain_examples(&rt)?;
    println!(rt; "{plain} examples")?;
    let faced = examples_with_faces(&rt)?;
    println!(rt; "{faced} examples with faces")?;
    let limited = examples_with_limits(&rt)?;
    println!(rt; "{limited} examples with limits")?;
    let turned = examples_of_tables(&rt)?;
    println!(rt; "{turned} examples of tables")?;
    let faulty = examples_with_faults(&rt)?;
    println!(rt; "{faulty} examples with faults")?;
    Ok(())
}

/// How many of the examples under the limits by default pass. One desk serves them all.
fn plain_examples<R: Files + AllocGlobal + Print>(rt: &R) -> anyhow::Result<u64> {
    let mut desk = Desk::new(&mut CountedAlloc::new(rt.alloc()), Limits::default())?;
    examples_at(rt, &mut desk, "examples", Faces::Letters)
}

/// How many of the examples that show faces pass. One desk serves them all.
fn examples_with_faces<R: Files + AllocGlobal + Print>(rt: &R) -> anyhow::Result<u64> {
    let mut desk = Desk::new(&mut CountedAlloc::new(rt.alloc()), Limits::default())?;
    examples_at(rt, &mut desk, "examples_with_faces", Faces::All)
}

/// How many of the examples of this list pass at this desk.
fn examples_at<R: Files + AllocGlobal + Print>(
    rt: &R,
    desk: &mut Desk,
    list: &str,
    faces: Faces,
) -> anyhow::Result<u64> {
    let list = fs::read_to_string(rt, list)?;
    let mut passed = 0u64;
    for name in list.lines() {
        if passes(rt, desk, faces, name, "Done")? {
            passed = passed.saturating_add(1);
        }
    }
    Ok(passed)
}

/// How many of the examples with limits of their own pass. Each has a desk of its own.
fn examples_with_limits<R: Files + AllocGlobal + Print>(rt: &R) -> anyhow::Result<u64> {
    let list = fs::read_to_string(rt, "examples_with_limits")?;
    let mut passed = 0u64;
    for line in list.lines() {
        let (run, end) = line
            .split_once(": ")
            .ok_or(anyhow::anyhow!("no end: {line}"))?;
        let (name, words) = run.split_once(' ').unwrap_or((run, ""));
        if passes_under(rt, limits_of(words)?, name, end)? {
            passed = passed.saturating_add(1);
        }
    }
    Ok(passed)
}

/// Whether an example under these limits gives its pages and ends so.
fn passes_under<R: Files + AllocGlobal + Print>(
    rt: &R,
    limits: Limits,
    name: &str,
    end: &str,
) -> anyhow::Result<bool> {
    let mut desk = Desk::new(&mut CountedAlloc::new(rt.alloc()), limits)?;
    passes(rt, &mut desk, Faces::Letters, name, end)
}

/// How many of the examples of tables pass.
fn examples_of_tables<R: Files + AllocGlobal + Print>(rt: &R) -> anyhow::Result<u64> {
    let mut turner = TableSetter::new(rt.alloc())?;
    let mut desk = Desk::new(&mut CountedAlloc::new(rt.alloc()), Limits::default())?;
    examples_of_tables_at(rt, &mut desk, &mut turner)
}

/// The same at this desk.
fn examples_of_tables_at<R: Files + AllocGlobal + Print>(
    rt: &R,
    desk: &mut Desk,
    turner: &mut TableSetter,
) -> anyhow::Result<u64> {
    let list = fs::read_to_string(rt, "examples_of_tables")?;
    let mut passed = 0u64;
    for line in list.lines() {
        if tables::passes(rt, desk, turner, line)? {
            passed = passed.saturating_add(1);
        }
    }
    Ok(passed)
}

/// How many of the examples with faults pass. One desk serves all of their runs.
fn examples_with_faults<R: Files + AllocGlobal + Print>(rt: &R) -> anyhow::Result<u64> {
    let mut desk = Desk::new(&mut CountedAlloc::new(rt.alloc()), Limits::default())?;
    examples_with_faults_at(rt, &mut desk)
}

/// The same at this desk.
fn examples_with_faults_at<R: Files + AllocGlobal + Print>(
    rt: &R,
    desk: &mut Desk,
) -> anyhow::Result<u64> {
    let list = fs::read_to_string(rt, "examples_with_faults")?;
    let mut passed = 0u64;
    for line in list.lines() {
        if faults::passes(rt, desk, line)? {
            passed = passed.saturating_add(1);
        }
    }
    Ok(passed)
}

/// Whether an example gives its pages and ends so, read in large pieces and byte by byte. Prints its name and
/// how it ends where it does not.
fn passes<R: Files + AllocGlobal + Print>(
    rt: &R,
    desk: &mut Desk,
    faces: Faces,
    name: &str,
    end: &str,
) -> anyhow::Result<bool> {
    let mut buffer = [0u8; BUFFER_SIZE];
    let whole = gives(rt, desk, faces, name, end, &mut buffer)?;
    if !whole {
        return Ok(false);
    }
    gives(rt, desk, faces, name, end, &mut buffer[..1])
}

/// Whether an example gives its pages and ends so, read into this buffer.
fn gives<R: Files + AllocGlobal + Print>(
    rt: &R,
    desk: &mut Desk,
    faces: Faces,
    name: &str,
    end: &str,
    buffer: &mut [u8],
) -> anyhow::Result<bool> {
    let pages = fs::read(rt, format!(in rt.alloc(); "{name}.out")?)?;
    let file = fs::open(rt, format!(in rt.alloc(); "{name}.roff")?)?;
    let mut printed = vec![in rt.alloc(); 0u8; pages.len()]?;
    let mut input = Buffered::over(file, buffer);
    let mut output = Slate::over(&mut printed);
    let outcome = formatted_with(desk, faces, &mut input, &mut output);
    let ended = end_of(rt.alloc(), outcome)?;
    let good = ended.as_str() == end && output.bytes() == pages.as_slice();
    if !good {
        println!(rt; "other pages or another end: {name}, {ended}")?;
    }
    Ok(good)
}

/// How a run ended, as the list of the examples with limits says it: `Stored at 17`.
fn end_of(alloc: Global, outcome: Outcome) -> Result<String, AllocError> {
    match outcome {
        Outcome::Limit { which, at } => format!(in alloc; "{which:?} at {at}"),
        other => format!(in alloc; "{other:?}"),
    }
}

/// Formats on what the desk lends.
fn formatted<R: Source, W: Sink>(desk: &mut Desk, input: &mut R, output: &mut W) -> Outcome {
    formatted_with(desk, Faces::Letters, input, output)
}

/// The same, and shows these faces.
fn formatted_with<R: Source, W: Sink>(
    desk: &mut Desk,
    faces: Faces,
    input: &mut R,
    output: &mut W,
) -> Outcome {
    let mut options = Options::plain();
    options.faces = faces;
    let mut moves = 0;
    format(desk.lend(), &options, input, output, &mut moves)
}
