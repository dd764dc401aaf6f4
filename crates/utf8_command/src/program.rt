// The program over its words and its texts.
ghost use Rattle.std.specs.Prelude.{◌≡◌, ◌<◌, length, true, Err};
ghost use Rattle.filters.specs.Arguments.{texts};
ghost use Rattle.filters.specs.Disk.{MayCome};
ghost use Rattle.filters.specs.Lines.{joined};
ghost use Rattle.filters.specs.Program.{IsReportedWord, Puts, TurnsNames, is_unread};
ghost use Rattle.utf8_command.specs.Arguments.{IsWithin};
ghost use Rattle.utf8_command.specs.Converting.{ending_of, file_after, utf8, version_line, what_of, word_of};

use super::arguments::{Job, Wrong, read_words};
use super::choosing::choose_for;
use super::own::turn_own;
use filters::{Buffers, Disk, Ending, Filter, Paths, Turns, put_all, turn_names};
use filters_own::{Named, file_at};
use itoa::Buffer;
use nr_units::buffered::Buffered;
use nr_units::sink::Sink;
use nr_units::source::Fault;
use std::io::Read;
use utf8_characters::FixedTable;
use utf8_converter::{RunEnd, convert};

/// What `--version` prints: that of the file VERSION.
const VERSION: &str = "0.2.0";

/// The program.
///
/// Proved: What utf8's words ask for comes about: its files are opened in order and turned by the table that the words
/// name, with escape sequences where they ask for them; the name of the table is printed that a page takes, by the first
/// of its text; the version is; or its first bad word is reported, and no file is opened. Where they name `own:FILE`, that file
/// is opened before all others, and the table is that of what it prints. Status and line are those of how that ended.
pub struct Utf8;

impl Filter for Utf8 {
    ghost use Rattle.std.specs.Prelude.{codes};
    ghost use Rattle.utf8_command.specs.Arguments.{asked};
    ghost use Rattle.utf8_command.specs.Converting.{AsksFor};

    ghost called = { codes "utf8" };

    ghost asks = { λ program words job. AsksFor words (asked words) job };

    fn name(&self) -> &'static str {
        "utf8"
    }

    fn run<'a, P: Paths, I: Read + Copy + Drop, W: Sink, E: Sink>(
        &self,
        words: &[&'a str],
        disk: &mut Disk<P, I>,
        output: W,
        errors: &mut E,
    ) -> (Ending<'a>, W) {
        let (table, escapes, files) = match read_words(words) {
            Ok(
                Job::Turn {
                    table,
                    escapes,
                    files,
                },
            ) => (table, escapes, files),
            Ok(Job::Choose) => return choose_for(chosen_file(words), disk, output),
            Ok(Job::Version) => return put_version(output),
            Err(wrong) => return (bad_word(wrong, words), output),
        };
        let names = &words[files..];
        match table {
            Named::Fixed(table) => turn_files((table, escapes), names, disk, output, errors),
            Named::Own(place) => {
                turn_own(file_at(words, place), escapes, names, disk, output, errors)
            }
        }
    }
}

/// What is reported of bad words.
fn bad_word<'a>(wrong: Wrong, words: &[&'a str]) -> Ending<'a>
    requires { IsWithin (length words.now) (Err wrong) }
    ensures { IsReportedWord (what_of wrong) (word_of (texts words.now) wrong) result }
{
    match wrong {
        Wrong::UnknownOption(place) => Ending::BadWord("unknown option ", words[place]),
        Wrong::UnknownTable(place) => Ending::BadWord("unknown table ", words[place]),
        Wrong::NoTable => Ending::BadWord("no table is named", ""),
        Wrong::SeveralFiles => Ending::BadWord("--choose takes one file", ""),
    }
}

/// The file after the first word, or standard input.
fn chosen_file<'a>(words: &[&'a str]) -> &'a str
    ensures { result.now ≡ file_after (texts words.now) }
{
    if words.len() < 2 { "-" } else { words[1] }
}

/// Puts out a line, by its parts, and flushes it.
pub(crate) fn put_out<'a, W: Sink>(parts: &[&[u8]], output: W) -> (Ending<'a>, W)
    ensures { Puts (joined parts.now) (W.held output) (W.held result.1) (W.passed_on result.1) result.0 }
{
    let mut output = output;
    if put_all(parts, &mut output).is_err() {
        return (Ending::WriteFault, output);
    }
    match output.flush() {
        Ok(()) => (Ending::Done, output),
        Err(_) => (Ending::WriteFault, output),
    }
}

/// Prints the version.
fn put_version<'a, W: Sink>(output: W) -> (Ending<'a>, W)
    ensures { Puts version_line (W.held output) (W.held result.1) (W.passed_on result.1) result.0 }
{
    put_out(&[b"utf8 ", VERSION.as_bytes(), b"\n"], output)
}

/// Turns the files of these names, or standard input, and reports how many bytes were dropped.
fn turn_files<'a, P: Paths, I: Read + Copy + Drop, W: Sink, E: Sink>(
    how: (FixedTable, bool),
    names: &[&'a str],
    disk: &mut Disk<P, I>,
    output: W,
    errors: &mut E,
) -> (Ending<'a>, W)
    ensures turns { TurnsNames (MayCome (I.remaining disk.old.standard) (P.may_open disk.old.paths))
        (P.asked disk.old.paths) (P.asked disk.new.paths) (W.held output) (W.held result.1)
        (W.failures output) (W.failures result.1) (W.passed_on result.1) (utf8 how.0 how.1)
        (texts names.now) result.0 }
    ensures quiet { is_unread result.0 ≡ true → errors.new ≡ errors.old }
{
    let Ok(buffers) = Buffers::new(disk.alloc) else {
        return (Ending::OutOfMemory, output);
    };
    let mut turner = Converter {
        how,
        buffers,
        strays: 0,
    };
    let (ending, output) = turn_names(&mut turner, names, disk, output, errors);
    if matches!(ending, Ending::Done) && turner.strays > 0 {
        let _ = put_dropped(turner.strays, errors);
    }
    (ending, output)
}

/// Writes how many bytes were dropped.
fn put_dropped<E: Sink>(strays: u64, errors: &mut E) -> Result<(), Fault> {
    let mut digits = Buffer::new();
    let count = digits.format(strays).as_bytes();
    put_all(
        &[b"utf8: ", count, b" bytes dropped that show nothing\n"],
        errors,
    )
}

/// Turns texts, and counts the bytes that are dropped.
#[derive(Drop)]
struct Converter {
    how: (FixedTable, bool),
    buffers: Buffers,
    strays: u64,
}

impl Turns for Converter {
    ghost use Rattle.utf8_command.specs.Converting.{utf8};

    ghost filter = { λ turner. utf8 turner.how.0 turner.how.1 };

    fn turn<'a, T: Read + Drop, W: Sink, E: Sink>(
        &mut self,
        name: &'a str,
        text: T,
        output: W,
        _errors: &mut E,
    ) -> (Ending<'a>, W) {
        let mut source = Buffered::over(text, &mut self.buffers.input);
        let mut output = output;
        let (table, escapes) = self.how;
        let pending = &mut self.buffers.pending;
        let mut more = 0;
        let outcome = convert(&mut source, &mut output, table, escapes, pending, &mut more);
        self.strays = self.strays.saturating_add(more);
        (ended(outcome, name), output)
    }
}

/// How a text of this name ended.
pub(crate) fn ended(outcome: RunEnd, name: &str) -> Ending<'_>
    ensures { result ≡ ending_of name.entry outcome }
{
    match outcome {
        RunEnd::Done => Ending::Done,
        RunEnd::TooLong => Ending::TooLong(Some(name)),
        RunEnd::ReadFault { at } => Ending::ReadFault(Some(name), at),
        RunEnd::WriteFault => Ending::WriteFault,
    }
}
