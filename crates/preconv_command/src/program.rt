// The program over its words and its texts.
ghost use Rattle.std.specs.Prelude.{◌≡◌, length, true, false, Err};
ghost use Rattle.nr_units.specs.Failures.{put_counted_if};
ghost use Rattle.document_stages.specs.Running.{is_write_fault};
ghost use Rattle.filters.specs.Arguments.{texts};
ghost use Rattle.filters.specs.Disk.{MayCome};
ghost use Rattle.filters.specs.Program.{IsReportedWord, TurnsNames, is_unread};
ghost use Rattle.filters.specs.Turning as turning;
ghost use Rattle.preconv_command.specs.Arguments.{IsWithin};
ghost use Rattle.preconv_command.specs.Converting.{Ended, complained_by, preconv, what_of, word_of};

use super::arguments::{Wrong, read_words};
use super::lines::Lines;
use super::own::turn_own;
use filters::{Buffers, Disk, Ending, Filter, Paths, Turns, put_all, turn_names};
use filters_own::{Named, file_at};
use itoa::Buffer;
use nr_units::buffered::Buffered;
use nr_units::sink::Sink;
use preconv_coding::{UnderCoding, Unknown};
use preconv_converter::{RunEnd, Target, convert};
use std::io::Read;

/// The program.
///
/// Proved: What preconv's words ask for comes about: its files are opened in order and turned, each under its coding,
/// into the language of the table that the words name, a newline after a text or none; or its first bad word is
/// reported, and no file is opened. Where they name `own:FILE`, that file is opened before all others, and the table is that of
/// what it prints. Status and line are those of how that ended.
pub struct Preconv;

impl Filter for Preconv {
    ghost use Rattle.std.specs.Prelude.{codes};
    ghost use Rattle.preconv_command.specs.Arguments.{asked};
    ghost use Rattle.preconv_command.specs.Converting.{AsksFor};

    ghost called = { codes "preconv" };

    ghost asks = { λ program words job. AsksFor words (asked words) job };

    fn name(&self) -> &'static str {
        "preconv"
    }

    fn run<'a, P: Paths, I: Read + Copy + Drop, W: Sink, E: Sink>(
        &self,
        words: &[&'a str],
        disk: &mut Disk<P, I>,
        output: W,
        errors: &mut E,
    ) -> (Ending<'a>, W) {
        let job = match read_words(words) {
            Ok(job) => job,
            Err(wrong) => return (bad_word(wrong, words), output),
        };
        let names = &words[job.files..];
        match job.table {
            Some(Named::Own(place)) => {
                turn_own(file_at(words, place), names, disk, output, errors)
            }
            Some(Named::Fixed(table)) => {
                turn_fixed(Target::Bytes(table), names, disk, output, errors)
            }
            None => turn_fixed(Target::Ascii, names, disk, output, errors),
        }
    }
}

/// Turns the texts of these names into the bytes of a fixed table, or ASCII.
fn turn_fixed<'a, P: Paths, I: Read + Copy + Drop, W: Sink, E: Sink>(
    target: Target,
    names: &[&'a str],
    disk: &mut Disk<P, I>,
    output: W,
    errors: &mut E,
) -> (Ending<'a>, W)
    ensures turns { TurnsNames (MayCome (I.remaining disk.old.standard) (P.may_open disk.old.paths))
        (P.asked disk.old.paths) (P.asked disk.new.paths) (W.held output) (W.held result.1)
        (W.failures output) (W.failures result.1) (W.passed_on result.1) (preconv target)
        (texts names.now) result.0 }
    ensures quiet { is_unread result.0 ≡ true → errors.new ≡ errors.old }
{
    let Ok(buffers) = Buffers::new(disk.alloc) else {
        return (Ending::OutOfMemory, output);
    };
    let mut turner = Converter { target, buffers };
    turn_names(&mut turner, names, disk, output, errors)
}

/// What is reported of a bad word.
fn bad_word<'a>(wrong: Wrong, words: &[&'a str]) -> Ending<'a>
    requires { IsWithin (length words.now) (Err wrong) }
    ensures { IsReportedWord (what_of wrong) (word_of (texts words.now) wrong) result }
{
    match wrong {
        Wrong::UnknownOption(place) => Ending::BadWord("unknown option ", words[place]),
        Wrong::UnknownTable(place) => Ending::BadWord("unknown table ", words[place]),
        Wrong::NoTable => Ending::BadWord("no table is named", ""),
    }
}

/// Turns texts into the language of a table, or of ASCII.
#[derive(Drop)]
struct Converter {
    target: Target,
    buffers: Buffers,
}

impl Turns for Converter {
    ghost use Rattle.preconv_command.specs.Converting.{preconv};

    ghost filter = { λ turner. preconv turner.target };

    /// Turns a text under its coding. What comes of it ends with a newline, if it is not empty.
    fn turn<'a, T: Read + Drop, W: Sink, E: Sink>(
        &mut self,
        name: &'a str,
        text: T,
        output: W,
        errors: &mut E,
    ) -> (Ending<'a>, W) {
        let mut source = UnderCoding::over(Buffered::over(text, &mut self.buffers.input));
        let mut lines = Lines {
            output,
            open: false,
        };
        let mut steps = 0;
        let pending = &mut self.buffers.pending;
        let outcome = convert(&mut source, &mut lines, self.target, pending, &mut steps);
        let ending = ended(outcome, name, &mut lines);
        let Lines { output, open: _ } = lines;
        match source.unknown() {
            Some(unknown) => (complained(name, unknown, ending, errors), output),
            None => (ending, output),
        }
    }
}

/// How a text ended. Where it is whole, a line that it left open is ended.
pub(crate) fn ended<'a, W: Sink>(outcome: RunEnd, name: &'a str, lines: &mut Lines<W>) -> Ending<'a>
    ensures ended { Ended outcome name.entry (W.held lines.old.output) (W.held lines.new.output) result }
    ensures failures { is_write_fault outcome ≡ false → W.failures lines.new.output
        ≡ put_counted_if (turning.is_write_fault result) (W.failures lines.old.output) }
    ensures same { is_write_fault outcome ≡ true → W.failures lines.new.output ≡ W.failures lines.old.output }
{
    match outcome {
        RunEnd::Done => match lines.end_line() {
            Ok(()) => Ending::Done,
            Err(_) => Ending::WriteFault,
        },
        RunEnd::WriteFault => Ending::WriteFault,
        RunEnd::TooLong => Ending::TooLong(Some(name)),
        RunEnd::ReadFault { at } => Ending::ReadFault(Some(name), at),
    }
}

/// Tells of a coding that the text of this name names and that is not known, as far as `errors` takes it, and so how
/// the text ended.
pub(crate) fn complained<'a, E: Sink>(
    name: &'a str,
    unknown: Unknown,
    ending: Ending<'a>,
    errors: &mut E,
) -> Ending<'a>
    ensures { result ≡ complained_by ending.entry }
{
    let mut digits = Buffer::new();
    let line = digits.format(unknown.line).as_bytes();
    let parts = [
        b"preconv: ".as_slice(),
        name.as_bytes(),
        b":",
        line,
        b": unknown coding ",
        unknown.name.as_bytes(),
        b"\n",
    ];
    let _ = put_all(&parts, errors);
    match ending {
        Ending::Done => Ending::Complained,
        fault => fault,
    }
}
