//! A page is printed, and a reader is shown its characters.
ghost use Rattle.std.specs.Prelude.{◌≡◌, ◌≤◌, ℕ, Some, false, length, take};
ghost use Rattle.nr_units.specs.Source.{After, Supply};
ghost use Rattle.document_reader.specs.Page.{IsShort, breaks_off, man_of, man_so_far};
ghost use Rattle.tbl_stage.specs.Text.{bounds_in};
ghost use Rattle.document_printing.specs.Document.{TellsWrites, setting_of, source_of, source_so_far};
ghost use Rattle.document_printing.specs.Showing as specs;
ghost use Rattle.document_printing.specs.Showing.{Shows};

use super::printing::print;
use super::setup::{PageEnd, Report, Setup};
use nr_engine::Desk;
use nr_units::sink::Sink;
use nr_units::source::Source;
use tbl_setting::Complaint;
use tbl_stage::Rooms;
use utf8_characters::FixedTable;
use utf8_converter::Shown;
use utf8_own_characters::OwnTable;
use utf8_own_sink::Shown as OwnShown;

/// How many bytes of UTF-8 wait to go out at once.
const ROOM: usize = 4096;

/// The characters that bytes stand for, beside those of ASCII.
#[derive(Clone, Copy)]
pub enum PageTable<'a> {
    /// Those of a fixed table.
    Fixed(FixedTable),
    /// The page's own, of one column or two.
    Own(&'a OwnTable<'a>),
}

/// How the bytes of a page go out.
#[derive(Clone, Copy)]
pub enum Spelling<'a> {
    /// As they are.
    Bytes,
    /// As characters, in UTF-8.
    Utf8 {
        /// Which they are.
        table: PageTable<'a>,
        /// Underlined and bold text stands between escape sequences, and is not struck over.
        escapes: bool,
    },
}

/// How a page is set, and how it goes out.
#[derive(Clone, Copy)]
pub struct Showing<'a> {
    /// How it is set.
    pub setup: Setup<'a>,
    /// How its bytes go out.
    pub spelling: Spelling<'a>,
}

/// How a page ended whose characters did not all go out. That its input failed is reported first.
fn cut_short(outcome: PageEnd) -> PageEnd
    ensures { result ≡ specs.cut_short outcome }
{
    match outcome {
        PageEnd::ReadFault => PageEnd::ReadFault,
        PageEnd::TooLong => PageEnd::TooLong,
        _ => PageEnd::WriteFault,
    }
}

/// What is reported of a page that was printed, where the output failed or not.
fn report_shown(printed: Report, failed: bool) -> Report
    ensures outcome { result.outcome ≡ specs.reported_shown printed.outcome failed }
    ensures moves { result.moves ≡ printed.moves }
{
    if !failed {
        return printed;
    }
    Report {
        outcome: cut_short(printed.outcome),
        ..printed
    }
}

/// Prints a page as [`print`] does, and puts its characters out as they are shown. What was printed before a refusal went out.
/// Gives the output back, which is not flushed. Nothing is allocated.
///
/// Proved: **What a reader gets is one equation.** What goes out of `print_shown` is `shown (pages)` of these pages,
/// each word a definition: their bytes as they are, or the UTF-8 of their characters, as utf8_converter defines it for a
/// fixed table and utf8_own_sink for the page's own. At a limit it is that of the pages until then; where the output
/// fails, or the page breaks off, a prefix of it; no byte goes out twice. (`print_shown`; `Shows` in Showing.antt)
pub fn print_shown<R: Source + Drop, W: Sink>(
    input: R,
    showing: &Showing<'_>,
    rooms: &mut Rooms,
    complaints: &mut [Complaint],
    desk: &mut Desk,
    output: W,
) -> (W, Report)
    // A reader gets the document: what the pages come to that the machine prints over macros and what the stages make of the
    // page. At a refusal it is a prefix of that.
    ensures whole { (q : Supply) → R.supply input ≡ Some q → breaks_off q.faults ≡ false →
        IsShort q.bytes (man_of showing.now.setup.stages.mdoc q.bytes) →
        Shows (setting_of showing.now.setup (bounds_in rooms.old) desk.old) showing.now.spelling
        (source_of (setting_of showing.now.setup (bounds_in rooms.old) desk.old) q)
        result.1.moves result.1.outcome (W.held output) (W.held result.0) }
    // Of a page that breaks off after so many bytes it is what the stages make of these.
    ensures cut { (q : Supply) → (n : ℕ) → R.supply input ≡ Some q → q.faults ≡ After n → n ≤ length q.bytes →
        IsShort q.bytes (man_so_far showing.now.setup.stages.mdoc (take n q.bytes)) →
        Shows (setting_of showing.now.setup (bounds_in rooms.old) desk.old) showing.now.spelling
        (source_so_far (setting_of showing.now.setup (bounds_in rooms.old) desk.old) (take n q.bytes))
        result.1.moves result.1.outcome (W.held output) (W.held result.0) }
    // The desk serves for the next page.
    ensures desk { desk.new ≡ desk.old }
    // A write fault is reported where a put failed, and nowhere else.
    ensures write_faults { (q : Supply) → R.supply input ≡ Some q → breaks_off q.faults ≡ false →
        IsShort q.bytes (man_of showing.now.setup.stages.mdoc q.bytes) →
        TellsWrites result.1.outcome (W.failures output).puts (W.failures result.0).puts }
{
    match showing.spelling {
        Spelling::Bytes => {
            let mut output = output;
            let report = print(input, &showing.setup, rooms, complaints, desk, &mut output);
            (output, report)
        }
        Spelling::Utf8 { table, escapes } => match table {
            PageTable::Fixed(fixed) => {
                let mut room = [0; ROOM];
                let mut shown = Shown::over(output, fixed, escapes, &mut room);
                let printed = print(input, &showing.setup, rooms, complaints, desk, &mut shown);
                let (output, ended) = shown.finish();
                let failed = ended.is_err();
                let report = report_shown(printed, failed);
                (output, report)
            }
            PageTable::Own(own) => {
                let mut waits = [0; ROOM];
                let mut letters = OwnShown::over(output, own, escapes, &mut waits);
                let made = print(input, &showing.setup, rooms, complaints, desk, &mut letters);
                let (below, end) = letters.finish();
                let is_cut = end.is_err();
                let reported = report_shown(made, is_cut);
                (below, reported)
            }
        },
    }
}
