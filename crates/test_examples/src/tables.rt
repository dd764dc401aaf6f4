// Examples of tables: an input goes through tbl, and what that makes of it through the formatter.

use super::formatted;
use nr_engine::{Buffered, Desk, Outcome, Sink, Source};
use nr_units::Name;
use nr_units::fakes::{Script, Slate};
use nr_vectors::CountedAlloc;
use nr_vectors::slice_vec::SliceVec;
use std::alloc::{AllocError, Global};
use std::fs;
use std::rt::Files;
use tbl_setting::{Complaint, Kind, Report, Rooms, convert};
use utf8_characters::FixedTable;

/// The most bytes that tbl makes of an example.
const MOST_BYTES: usize = 262_144;

/// The limits on formats and on a row where an example sets none, and the greatest that it may set.
const USUAL: usize = 4096;

/// The length of the line where an example sets none.
const USUAL_LINE: usize = 65;

/// The most complaints of an example.
const MOST_COMPLAINTS: usize = 8;

/// The memory that examples are turned in.
#[derive(Drop)]
pub(crate) struct TableSetter {
    turned: Vec<u8>,
    complaints: Vec<Complaint>,
}

impl TableSetter {
    /// Takes the memory.
    pub(crate) fn new(alloc: Global) -> Result<TableSetter, AllocError> {
        Ok(TableSetter {
            turned: vec![in alloc; 0u8; MOST_BYTES]?,
            complaints: vec![in alloc; Complaint::NONE; MOST_COMPLAINTS]?,
        })
    }
}

/// Whether an example gives its pages and ends so, read in large pieces and byte by byte: its line is a name, the
/// limits that it sets, and after a colon how it ends. Prints its name and how it ends where it does not.
pub(crate) fn passes<R: Files + AllocGlobal + Print>(
    rt: &R,
    desk: &mut Desk,
    turner: &mut TableSetter,
    line: &str,
) -> anyhow::Result<bool> {
    let (run, end) = line
        .split_once(": ")
        .ok_or(anyhow::anyhow!("no end: {line}"))?;
    let (name, words) = run.split_once(' ').unwrap_or((run, ""));
    let limits = limits_of(words)?;
    let example = Example { name, limits, end };
    let mut buffer = [0u8; 4096];
    let whole = gives(rt, desk, turner, example, &mut buffer)?;
    if !whole {
        return Ok(false);
    }
    gives(rt, desk, turner, example, &mut buffer[..1])
}

/// An example: its name, the limits that it sets, and how it ends.
#[derive(Clone, Copy)]
struct Example<'a> {
    name: &'a str,
    limits: Bounds,
    end: &'a str,
}

/// The limits on formats and on a row, the length of the line, and the table of characters.
#[derive(Clone, Copy)]
struct Bounds {
    formats: usize,
    row: usize,
    line: usize,
    characters: Option<FixedTable>,
}

/// What the words set, as in `formats=4 row=64` or `characters=english`.
fn limits_of(words: &str) -> anyhow::Result<Bounds> {
    let mut limits = Bounds {
        formats: USUAL,
        row: USUAL,
        line: USUAL_LINE,
        characters: None,
    };
    for word in words.split_whitespace() {
        let (name, value) = word
            .split_once('=')
            .ok_or(anyhow::anyhow!("no limit: {word}"))?;
        if name == "characters" {
            limits.characters = FixedTable::named(value);
            continue;
        }
        let number = value.parse::<usize>()?;
        match name {
            "formats" => limits.formats = number,
            "row" => limits.row = number,
            "line" => limits.line = number,
            _ => anyhow::bail!("no limit: {word}"),
        }
    }
    Ok(limits)
}

/// Whether an example gives its pages and ends so, read into this buffer.
fn gives<R: Files + AllocGlobal + Print>(
    rt: &R,
    desk: &mut Desk,
    turner: &mut TableSetter,
    example: Example<'_>,
    buffer: &mut [u8],
) -> anyhow::Result<bool> {
    let Example { name, limits, end } = example;
    if limits.formats > USUAL || limits.row > USUAL {
        anyhow::bail!("limits out of range: {name}");
    }
    let (pages, file) = opened(rt, name)?;
    let (mut rooms, mut printed) = rooms_of(rt.alloc(), limits, pages.len())?;
    let mut input = Buffered::over(file, buffer);
    let ran = run_example(desk, turner, &mut rooms, &mut input, &mut printed, &pages);
    is_good(rt, name, end, ran, &turner.complaints)
}

/// The pages of an example, and its input.
fn opened<R: Files + AllocGlobal>(rt: &R, name: &str) -> anyhow::Result<(Vec<u8>, R::File)> {
    let pages = fs::read(rt, format!(in rt.alloc(); "{name}.out")?)?;
    let file = fs::open(rt, format!(in rt.alloc(); "{name}.roff")?)?;
    Ok((pages, file))
}

/// The rooms of tbl under these limits, and room for so many bytes of pages.
fn rooms_of(alloc: Global, limits: Bounds, len: usize) -> Result<(Rooms, Vec<u8>), AllocError> {
    let rooms = Rooms::new(
        &mut CountedAlloc::new(alloc),
        limits.formats,
        limits.row,
        limits.line,
        limits.characters,
    )?;
    let printed = vec![in alloc; 0u8; len]?;
    Ok((rooms, printed))
}

/// Whether an example came to its pages and its end. Prints its name and how it ended where it did not.
fn is_good<R: AllocGlobal + Print>(
    rt: &R,
    name: &str,
    end: &str,
    ran: Ran,
    complaints: &[Complaint],
) -> anyhow::Result<bool> {
    let ended = end_of(rt.alloc(), ran, complaints)?;
    let good = ended.as_str() == end && ran.is_same;
    if !good {
        println!(rt; "other pages or another end: {name}, {ended}")?;
    }
    Ok(good)
}

/// What became of an example.
#[derive(Clone, Copy)]
struct Ran {
    report: Report,
    /// How many complaints there were.
    complaints: usize,
    outcome: Outcome,
    /// The pages are those of the example.
    is_same: bool,
}

/// Turns the tables of an input, and formats what that makes of it.
fn run_example<R: Source>(
    desk: &mut Desk,
    turner: &mut TableSetter,
    rooms: &mut Rooms,
    input: &mut R,
    printed: &mut [u8],
    pages: &[u8],
) -> Ran {
    let room = Slate::over(&mut turner.turned);
    let mut complaints = SliceVec::over(&mut turner.complaints);
    let (report, turned) = turned(input, room, rooms, &mut complaints);
    let mut output = Slate::over(printed);
    let outcome = formatted(desk, &mut Script::new(turned.bytes()), &mut output);
    Ran {
        report,
        complaints: complaints.len(),
        outcome,
        is_same: output.bytes() == pages,
    }
}

/// What tbl makes of an input, and what it reports.
fn turned<R: Source, W: Sink>(
    input: &mut R,
    output: W,
    rooms: &mut Rooms,
    complaints: &mut SliceVec<'_, Complaint>,
) -> (Report, W) {
    convert(input, output, rooms, complaints)
}

/// What is wrong, as lines of examples have it.
fn kind_reported(alloc: Global, kind: Kind) -> anyhow::Result<String> {
    Ok(match kind {
        Kind::NoFormat => format!(in alloc; "NoFormat")?,
        Kind::BadFormat(byte) => format!(in alloc; "BadFormat {}", char::from(byte))?,
        Kind::UnknownOption(word) => format!(in alloc; "UnknownOption {}", text_of(&word))?,
        Kind::BadArgument(word) => format!(in alloc; "BadArgument {}", text_of(&word))?,
        Kind::TooManyFields => format!(in alloc; "TooManyFields")?,
        Kind::OpenBlock(line) => format!(in alloc; "OpenBlock from {line}")?,
        Kind::OpenTable(line) => format!(in alloc; "OpenTable from {line}")?,
        Kind::TooManyColumns => format!(in alloc; "TooManyColumns")?,
        Kind::FormatsLimit => format!(in alloc; "FormatsLimit")?,
        Kind::RowLimit => format!(in alloc; "RowLimit")?,
        Kind::TooWide => format!(in alloc; "TooWide")?,
        Kind::UnsetRequest(word) => format!(in alloc; "UnsetRequest {}", text_of(&word))?,
    })
}

/// A word of letters.
fn text_of(word: &Name) -> &str {
    str::from_utf8(word.as_bytes()).unwrap_or("")
}

/// How a run ended, as the list says it: `Done`, or its complaints, as `BadFormat on line 3, OpenTable on line 4`.
fn end_of(alloc: Global, ran: Ran, complaints: &[Complaint]) -> anyhow::Result<String> {
    let Ran {
        report,
        outcome,
        ..
    } = ran;
    if report.missed || report.outcome != tbl_setting::ReadEnd::Done || outcome != Outcome::Done {
        return Ok(format!(in alloc; "{report:?}, {outcome:?}")?);
    }
    let mut ended = String::new(alloc);
    let Some(complaints) = complaints.get(..ran.complaints) else {
        return Ok(ended);
    };
    for complaint in complaints {
        if !ended.is_empty() {
            ended.push_str(", ")?;
        }
        ended.push_str(&kind_reported(alloc, complaint.kind)?)?;
        ended.push_str(&format!(in alloc; " on line {}", complaint.line)?)?;
    }
    let uneven = if ended.is_empty() {
        "Uneven"
    } else {
        ", Uneven"
    };
    if report.uneven {
        ended.push_str(uneven)?;
    }
    if ended.is_empty() {
        ended.push_str("Done")?;
    }
    Ok(ended)
}
