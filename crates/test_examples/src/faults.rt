// Examples with faults: an input that fails after each of its bytes, an output that takes so many bytes of the pages and
// no more, and each prefix of the input as an input of its own.

use super::formatted;
use nr_engine::{Buffered, Desk, Outcome, Source, ToWriter};
use nr_units::fakes::{Script, Slate};
use std::fs;
use std::rt::Files;

/// More than an example, or a prefix of its input, prints.
const MOST_BYTES: usize = 512;

/// An example.
#[derive(Clone, Copy)]
struct Example<'a> {
    input: &'a [u8],
    pages: &'a [u8],
    /// Where pages end, as in `387 85, 508 158`: how many bytes of the input are read then, and how many are printed; but
    /// for what ends at the end of the input.
    ends: &'a str,
}

/// Whether an example ends at each fault as it must: its line is a name and, after a colon, where its pages end. Prints its
/// name where it does not.
pub(crate) fn passes<R: Files + AllocGlobal + Print>(
    rt: &R,
    desk: &mut Desk,
    line: &str,
) -> anyhow::Result<bool> {
    let (name, ends) = line
        .split_once(": ")
        .ok_or(anyhow::anyhow!("no end: {line}"))?;
    let input = fs::read(rt, format!(in rt.alloc(); "{name}.roff")?)?;
    let pages = fs::read(rt, format!(in rt.alloc(); "{name}.out")?)?;
    let example = Example {
        input: &input,
        pages: &pages,
        ends,
    };
    let good = survives_faults(desk, example)?;
    if !good {
        println!(rt; "other pages or another end at a fault: {name}")?;
    }
    Ok(good)
}

/// Whether an example ends at each fault as it must, and gives its pages after all of them.
fn survives_faults(desk: &mut Desk, example: Example<'_>) -> anyhow::Result<bool> {
    let agreed = input_fails(desk, example)?
        && output_fails(desk, example)
        && writer_fills(desk, example);
    let mut input = Script::new(example.input);
    Ok(
        agreed
            && prefixes_agree(desk, example.input)
            && gives(
                desk,
                &mut input,
                example.pages.len(),
                Outcome::Done,
                example.pages,
            ),
    )
}

/// Whether the pages that had ended are out where the input fails after any number of bytes, and that is reported.
fn input_fails(desk: &mut Desk, example: Example<'_>) -> anyhow::Result<bool> {
    for given in 0..=example.input.len() {
        let printed = prefix(example.pages, printed_after(example.ends, given)?);
        let mut input = Script::failing_after(example.input, given);
        let outcome = Outcome::ReadFault { at: given as u64 };
        if !gives(desk, &mut input, MOST_BYTES, outcome, printed) {
            return Ok(false);
        }
    }
    Ok(true)
}

/// How much is printed where the input fails after so many bytes.
fn printed_after(ends: &str, given: usize) -> anyhow::Result<usize> {
    let mut printed = 0;
    for end in ends.split(", ") {
        let (read, written) = end
            .split_once(' ')
            .ok_or(anyhow::anyhow!("no end of a page: {end}"))?;
        if read.parse::<usize>()? <= given {
            printed = written.parse::<usize>()?;
        }
    }
    Ok(printed)
}

/// Whether just so many bytes of the pages are out where the output takes no more, and that is reported.
fn output_fails(desk: &mut Desk, example: Example<'_>) -> bool {
    for taken in 0..example.pages.len() {
        let mut input = Script::new(example.input);
        let printed = prefix(example.pages, taken);
        if !gives(desk, &mut input, taken, Outcome::WriteFault, printed) {
            return false;
        }
    }
    true
}

/// The same of a writer of std that is full: it takes no byte of the next write, and answers no error.
fn writer_fills(desk: &mut Desk, example: Example<'_>) -> bool {
    for taken in 0..example.pages.len() {
        let mut bytes = [0u8; MOST_BYTES];
        let taken = taken.min(MOST_BYTES);
        let mut output = ToWriter::over(&mut bytes[..taken]);
        let mut input = Script::new(example.input);
        let outcome = formatted(desk, &mut input, &mut output);
        if outcome != Outcome::WriteFault || &bytes[..taken] != prefix(example.pages, taken) {
            return false;
        }
    }
    true
}

/// Whether each prefix of an input is one, and gives the same pages in one piece and byte by byte.
fn prefixes_agree(desk: &mut Desk, input: &[u8]) -> bool {
    for len in 0..=input.len() {
        if !agrees(desk, prefix(input, len)) {
            return false;
        }
    }
    true
}

/// Whether an input gives the same pages in one piece and byte by byte.
fn agrees(desk: &mut Desk, input: &[u8]) -> bool {
    let mut bytes = [0u8; MOST_BYTES];
    let mut output = Slate::over(&mut bytes);
    let outcome = formatted(desk, &mut Script::new(input), &mut output);
    let mut one = [0u8; 1];
    let mut bytewise = Buffered::over(input, &mut one);
    outcome == Outcome::Done
        && gives(
            desk,
            &mut bytewise,
            MOST_BYTES,
            Outcome::Done,
            output.bytes(),
        )
}

/// Whether an input ends so and prints just these bytes, where the output takes so many and no more.
fn gives<R: Source>(
    desk: &mut Desk,
    input: &mut R,
    takes: usize,
    outcome: Outcome,
    printed: &[u8],
) -> bool {
    let mut bytes = [0u8; MOST_BYTES];
    let mut output = Slate::over(&mut bytes[..takes.min(MOST_BYTES)]);
    let came = formatted(desk, input, &mut output);
    came == outcome && output.bytes() == printed
}

/// The first so many bytes, or all.
fn prefix(bytes: &[u8], len: usize) -> &[u8] {
    &bytes[..len.min(bytes.len())]
}
