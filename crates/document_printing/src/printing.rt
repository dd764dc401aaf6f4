//! A page is printed.
ghost use Rattle.std.specs.Prelude.{◌≡◌, ◌≤◌, ℕ, Some, false, length, take};
ghost use Rattle.nr_units.specs.Source.{After, Supply};
ghost use Rattle.document_reader.specs.Page.{IsShort, breaks_off, man_of, man_so_far};
ghost use Rattle.tbl_stage.specs.Text.{bounds_in};
ghost use Rattle.document_printing.specs.Document as specs;
ghost use Rattle.document_printing.specs.Document.{Prints, TellsWrites, setting_of, source_of, source_so_far};

use super::pulling::{Pulled, pull};
use super::setting::pull_set;
use super::setup::{PageEnd, Report, Setup};
use nr_engine::Desk;
use nr_units::sink::Sink;
use nr_units::source::Source;
use tbl_setting::Complaint;
use tbl_stage::Rooms;

/// How the formatter's end is reported of a page whose tables have no room, or have.
fn reported(outcome: nr_engine::Outcome, full: bool) -> PageEnd
    ensures { result ≡ specs.reported outcome full }
{
    match outcome {
        nr_engine::Outcome::Done => PageEnd::Done,
        nr_engine::Outcome::Limit { which, at } => PageEnd::Limit { which, at },
        nr_engine::Outcome::ReadFault { at: _ } => {
            if full {
                PageEnd::NoRoom
            } else {
                PageEnd::ReadFault
            }
        }
        nr_engine::Outcome::TooLong => PageEnd::TooLong,
        nr_engine::Outcome::WriteFault => PageEnd::WriteFault,
    }
}

/// What the formatter came to is reported.
fn report_of(pulled: Pulled) -> Report
    ensures outcome { result.outcome ≡ specs.reported pulled.outcome pulled.tables.full }
    ensures moves { result.moves ≡ pulled.moves }
{
    Report {
        outcome: reported(pulled.outcome, pulled.tables.full),
        line: pulled.line,
        moves: pulled.moves,
        complaints: pulled.tables.complaints,
        missed: pulled.tables.missed,
    }
}

/// Prints a page: it goes through mdoc, characters and tables, and is formatted after its macros as it comes. What was
/// printed before a refusal went out. The output is not flushed. Nothing is allocated.
///
/// Proved: **A whole document is one equation.** Where a page comes whole and all is printed, what goes out are the
/// pages of the machine, once its run is over, over `macros ++ tables (characters (mdoc page))`, each word the
/// definition of its crate and each stage left out that is off; so with any table of characters, with tables and
/// without, where the page and what mdoc makes of it have less than 2^40 bytes. (`print`; `source_of` and `Prints` in
/// Document.antt)
/// Proved: Where a limit is passed, it is one that the machine over the text of `Prints` would pass with the next
/// move, and the pages that had ended by then went out, and no other byte. Where the output fails, a prefix of these
/// and of the page that the next move ends did.
/// Proved: Where what goes out of a table at once has no room, or the page breaks off, the machine wants the next byte
/// where its source fails, and the pages that had ended by then went out. (`room_is_enough` of document_laws)
/// Proved: A desk keeps its limits, so that one serves for many pages. (`desk` of `print` and `print_shown`)
/// Proved: Of a page that breaks off after so many bytes the same is true over what the stages make of these bytes, but
/// for what is half read. (`cut` of `print`)
pub fn print<R: Source + Drop, W: Sink>(
    input: R,
    setup: &Setup<'_>,
    rooms: &mut Rooms,
    complaints: &mut [Complaint],
    desk: &mut Desk,
    output: &mut W,
) -> Report
    // What goes out is the document: the pages of the machine over macros and what the stages make of the page, all of them
    // where it is done, and else those until then.
    ensures whole { (q : Supply) → R.supply input ≡ Some q → breaks_off q.faults ≡ false →
        IsShort q.bytes (man_of setup.now.stages.mdoc q.bytes) →
        Prints (setting_of setup.now (bounds_in rooms.old) desk.old)
        (source_of (setting_of setup.now (bounds_in rooms.old) desk.old) q)
        result.moves result.outcome (W.held output.old) (W.held output.new) }
    // Of a page that breaks off after so many bytes it is what the stages make of these.
    ensures cut { (q : Supply) → (n : ℕ) → R.supply input ≡ Some q → q.faults ≡ After n → n ≤ length q.bytes →
        IsShort q.bytes (man_so_far setup.now.stages.mdoc (take n q.bytes)) →
        Prints (setting_of setup.now (bounds_in rooms.old) desk.old)
        (source_so_far (setting_of setup.now (bounds_in rooms.old) desk.old) (take n q.bytes))
        result.moves result.outcome (W.held output.old) (W.held output.new) }
    // The desk serves for the next page.
    ensures desk { desk.new ≡ desk.old }
    // A write fault is reported where a put failed, and nowhere else.
    ensures write_faults { TellsWrites result.outcome (W.failures output.old).puts (W.failures output.new).puts }
{
    if setup.tables {
        let set = pull_set(input, setup, rooms, complaints, desk, output);
        report_of(set)
    } else {
        let pulled = pull(input, setup, desk, output);
        report_of(pulled)
    }
}
