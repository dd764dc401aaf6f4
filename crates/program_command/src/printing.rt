//! A page goes out: as a reader is shown it, without what is struck over, or not at all.
ghost use Rattle.std.specs.Prelude.{◌≡◌, IfErr, IfOk, Some, false, true};
ghost use Rattle.nr_units.specs.Source.{Supply};
ghost use Rattle.document_reader.specs.Page.{IsShort, breaks_off, man_of};
ghost use Rattle.tbl_stage.specs.Text.{bounds_in};
ghost use Rattle.document_printing.specs.Document.{setting_of, source_of};
ghost use Rattle.document_printing.specs.Showing.{Shows};
ghost use Rattle.program_command.specs.Printing.{FixedShows, Where, fixed_showing, fixed_spelling, given_by};

use crate::bare::Bare;
use crate::nowhere::Nowhere;
use crate::plan::Plan;
use document_printing::{
    PageEnd, PageLimits, PageTable, Report, Rooms, Setup, Showing, Spelling, print, print_shown,
};
use nr_engine::{Desk, Options, Sink, Source};
use nr_vectors::CountedAlloc;
use preconv_characters::Target;
use std::alloc::{AllocError, Global};
use tbl_setting::Complaint;
use utf8_converter::Shown;
use utf8_own_sink::Shown as OwnShown;

/// The bytes of characters that go out at once.
const ROOM: usize = 2_048;

/// How many complaints are kept of tables.
const MOST_COMPLAINTS: usize = 64;

/// How a page is printed, beside its plan.
#[derive(Clone, Copy)]
pub(crate) struct Means<'a> {
    pub macros: &'a [u8],
    pub options: &'a Options,
    pub limits: PageLimits,
    pub alloc: Global,
}

/// How bytes go out: in UTF-8, or as those of their fixed table.
fn spelling_of<'a>(plan: &Plan) -> Spelling<'a>
    ensures { result ≡ fixed_spelling plan.now }
{
    match plan.characters {
        Some(table) if plan.spells => Spelling::Utf8 {
            table: PageTable::Fixed(table),
            escapes: plan.escapes,
        },
        _ => Spelling::Bytes,
    }
}

/// How a page shows with the fixed table of its plan.
fn fixed_showing<'a>(plan: &Plan, means: Means<'a>) -> Showing<'a>
    ensures { result ≡ fixed_showing plan.now means.entry }
{
    Showing {
        setup: Setup {
            macros: means.macros,
            stages: plan.stages,
            tables: plan.tables,
            characters: Target::of(plan.characters),
            options: means.options,
        },
        spelling: spelling_of(plan),
    }
}

/// Prints a page with the fixed table of its plan. Nothing is flushed. Gives the output back; where there was not enough
/// memory nothing was printed.
pub(crate) fn print_fixed<R: Source + Drop, W: Sink + Drop>(
    page: R,
    plan: &Plan,
    means: Means<'_>,
    desk: &mut Desk,
    output: W,
) -> (W, Result<Report, AllocError>)
    ensures prints { IfOk result.1 (λ report. Where plan.now (R.supply page)
        (λ q. FixedShows plan.now (given_by means.entry desk.old) q report (W.held output) (W.held result.0))) }
    ensures checks { plan.now.checks ≡ true → result.0 ≡ output }
    ensures unprinted { IfErr result.1 (λ _. result.0 ≡ output) }
{
    let mut alloc = CountedAlloc::new(means.alloc);
    let Ok(mut rooms) = Rooms::new(&mut alloc, means.limits, plan.cells, plan.characters) else {
        return (output, Err(AllocError));
    };
    let showing = fixed_showing(plan, means);
    let (output, report) = print_page(page, &showing, plan, &mut rooms, desk, output);
    (output, Ok(report))
}

/// Prints a page by its plan. Nothing is flushed. Gives the output back.
///
/// Proved: Where what is struck over is printed, a reader gets the document of document_printing, in bytes, in UTF-8
/// with backspaces or between escape sequences, and to each of its ends: of a page that may fail at any call, too.
/// Where texts are only checked nothing is printed. (`print_page` in printing.rt)
pub(crate) fn print_page<R: Source + Drop, W: Sink + Drop>(
    page: R,
    showing: &Showing<'_>,
    plan: &Plan,
    rooms: &mut Rooms,
    desk: &mut Desk,
    output: W,
) -> (W, Report)
    // With what is struck over a reader gets the document.
    ensures whole { plan.now.checks ≡ false → plan.now.strikes ≡ true →
        (q : Supply) → R.supply page ≡ Some q → breaks_off q.faults ≡ false →
        IsShort q.bytes (man_of showing.now.setup.stages.mdoc q.bytes) →
        Shows (setting_of showing.now.setup (bounds_in rooms.old) desk.old) showing.now.spelling
        (source_of (setting_of showing.now.setup (bounds_in rooms.old) desk.old) q)
        result.1.moves result.1.outcome (W.held output) (W.held result.0) }
    ensures checks { plan.now.checks ≡ true → result.0 ≡ output }
{
    if plan.checks {
        let report = print_bytes(page, &showing.setup, rooms, desk, &mut Nowhere::new());
        return (output, report);
    }
    if !plan.strikes {
        return print_bare(page, showing, rooms, desk, output);
    }
    let mut complaints = [Complaint::NONE; MOST_COMPLAINTS];
    print_shown(page, showing, rooms, &mut complaints, desk, output)
}

/// Prints a page without what is struck over.
fn print_bare<R: Source + Drop, W: Sink + Drop>(
    page: R,
    showing: &Showing<'_>,
    rooms: &mut Rooms,
    desk: &mut Desk,
    output: W,
) -> (W, Report) {
    match showing.spelling {
        Spelling::Bytes => print_unstruck(page, &showing.setup, rooms, desk, output),
        Spelling::Utf8 { table, escapes } => match table {
            PageTable::Fixed(fixed) => {
                let mut room = [0; ROOM];
                let shown = Shown::over(output, fixed, escapes, &mut room);
                let (shown, report) = print_unstruck(page, &showing.setup, rooms, desk, shown);
                let (output, end) = shown.finish();
                (output, ended(report, end.is_ok()))
            }
            PageTable::Own(own) => {
                let mut room = [0; ROOM];
                let shown = OwnShown::over(output, own, escapes, &mut room);
                let (shown, report) = print_unstruck(page, &showing.setup, rooms, desk, shown);
                let (output, end) = shown.finish();
                (output, ended(report, end.is_ok()))
            }
        },
    }
}

/// The same into an output that is given bytes.
fn print_unstruck<R: Source + Drop, W: Sink + Drop>(
    page: R,
    setup: &Setup<'_>,
    rooms: &mut Rooms,
    desk: &mut Desk,
    output: W,
) -> (W, Report) {
    let mut bare = Bare::over(output);
    let report = print_bytes(page, setup, rooms, desk, &mut bare);
    let (output, end) = bare.finish();
    (output, ended(report, end.is_ok()))
}

/// The report of a page whose end went out, or didn't.
fn ended(report: Report, is_out: bool) -> Report {
    if is_out {
        report
    } else {
        Report {
            outcome: PageEnd::WriteFault,
            ..report
        }
    }
}

/// Prints a page as the formatter gives its bytes.
fn print_bytes<R: Source + Drop, W: Sink>(
    page: R,
    setup: &Setup<'_>,
    rooms: &mut Rooms,
    desk: &mut Desk,
    output: &mut W,
) -> Report {
    let mut complaints = [Complaint::NONE; MOST_COMPLAINTS];
    print(page, setup, rooms, &mut complaints, desk, output)
}
