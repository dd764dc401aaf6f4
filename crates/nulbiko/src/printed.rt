// The pages of a document go out: as bytes, or in UTF-8.
ghost use Rattle.std.specs.Prelude.{◌≡◌, ◌≢◌, ◌+◌, List, ℕ, [], Some, IfOk};
ghost use Rattle.nr_machine.specs.Lengths.{sizes_of, sum_of};
ghost use Rattle.tbl_stage.specs.Memory.{memory_of};
ghost use Rattle.document_stages.specs.Pulling.{whole};
ghost use Rattle.document_reader.specs.Page.{IsShort, man_of};
ghost use Rattle.tbl_stage.specs.Text.{bounds_in};
ghost use Rattle.document_printing.specs.Document.{Prints, setting_of, source_of};
ghost use Rattle.utf8_own_characters.specs.Table.{Good};
ghost use Rattle.document_printing.specs.declared.showing.PageTable.TheVariants as page_tables;
ghost use Rattle.nulbiko.specs.Reported.{count_reported};
ghost use Rattle.document_printing.specs.declared.showing.Spelling.TheVariants as spellings;
ghost use Rattle.nulbiko.specs.Own.{IsCodedShort, ShowsCoded, coded_setup};
ghost use Rattle.nulbiko.specs.Printed as specs;
ghost use Rattle.nulbiko.specs.Printed.{IsPrinted};

use super::formatting::limit_number;
use super::pages::Pages;
use super::reported::{DONE, FULL, LIMIT, Report, TOO_LONG, UNREADABLE, count_reported};
use super::text::Text;
use document_printing::{
    PageEnd, PageLimits, PageTable, Report as Run, Rooms, Setup, Showing, Spelling, Stages, print,
    print_shown,
};
use document_reader::{Places, read_own_page};
use nr_engine::{CountedAlloc, Desk, Limits, Options};
use nr_units::sink::Sink;
use nr_units::source::Fault;
use preconv_characters::Target;
use std::alloc::AllocError;
use tbl_setting::Complaint;
use utf8_characters::FixedTable;
use utf8_converter::Shown;
use utf8_own_characters::OwnTable;

/// The bytes of characters that go out at once.
const ROOM: usize = 2_048;

/// The number of the limit of what goes out of a table at once.
const SET_PAGE: u32 = 7;

/// How pages go out.
#[derive(Clone, Copy)]
pub(crate) enum Form {
    /// As the bytes of their table.
    Bytes,
    /// As its characters, in UTF-8; with `true` looks stand between escape sequences.
    Characters(FixedTable, bool),
}

/// The form of a number: 0 for bytes, 1 for UTF-8, 2 for UTF-8 with escape sequences.
pub(crate) fn form_of(number: u32, characters: Option<FixedTable>) -> Form
    ensures { result ≡ specs.form_of number characters }
{
    match characters {
        Some(table) if number != 0 => Form::Characters(table, number == 2),
        _ => Form::Bytes,
    }
}

/// The memory that a page is printed in.
pub(crate) struct Memory {
    pub rooms: Rooms,
    pub desk: Desk,
}

// Derived, it would be gone through part by part in the proof of each function that owns one.
impl Drop for Memory {
    fn drop(self) {
        let Memory { rooms: _, desk: _ } = self;
    }
}

/// No room for tables.
const NO_TABLES: PageLimits = PageLimits {
    formats: 0,
    row: 0,
    set: 0,
};

impl Memory {
    /// Takes it for pages under these limits, without room for tables.
    pub(crate) fn new(alloc: &mut CountedAlloc, limits: Limits) -> Result<Memory, AllocError>
        ensures limits { IfOk result (λ made. made.desk ≡ limits) }
        ensures taken { IfOk result (λ made. alloc.new ≡ alloc.old + sum_of (sizes_of limits)
            + memory_of (record { formats = 0; row = 0; set = 0 })) }
    {
        let desk = Desk::new(alloc, limits)?;
        let rooms = Rooms::new(alloc, NO_TABLES, 0, None)?;
        Ok(Memory { rooms, desk })
    }

    /// Reads the macros that stand before pages once, with these options, where there is memory for what comes of them.
    pub(crate) fn keep(&mut self, alloc: &mut CountedAlloc, options: Options, macros: &[u8])
        ensures desk { self.new.desk ≡ self.old.desk }
    {
        let _ = self.desk.keep(alloc, options, macros);
    }
}

/// How a page was printed.
#[derive(Clone, Copy)]
pub(crate) struct Printed {
    pub outcome: PageEnd,
    pub line: u64,
    pub moves: u128,
    /// The bytes that are no character of the table.
    pub dropped: u64,
}

/// Prints a page as the formatter gives its bytes.
fn print_page<W: Sink>(page: &[u8], setup: &Setup<'_>, memory: &mut Memory, output: &mut W) -> Run
    ensures printed { IsShort page.now (man_of setup.now.stages.mdoc page.now) →
        Prints (setting_of setup.now (bounds_in memory.old.rooms) memory.old.desk)
        (source_of (setting_of setup.now (bounds_in memory.old.rooms) memory.old.desk) (whole page.now))
        result.moves result.outcome (W.held output.old) (W.held output.new) }
    ensures desk { memory.new.desk ≡ memory.old.desk }
{
    let Memory { rooms, desk } = memory;
    let mut complaints = [Complaint::NONE];
    let text = Text::over(page);
    print(text, setup, rooms, &mut complaints, desk, output)
}

/// The outcome of a page of which the end had no room.
fn cut_off(outcome: PageEnd) -> PageEnd
    ensures { result ≡ specs.cut_off outcome }
{
    match outcome {
        PageEnd::Done | PageEnd::Limit { .. } | PageEnd::NoRoom => PageEnd::WriteFault,
        _ => outcome,
    }
}

/// How a page was printed whose end went out with so many bytes dropped, or didn't.
fn ended(run: Run, strays: Result<u64, Fault>) -> Printed
    ensures moves { result.moves ≡ run.moves }
    ensures outcome { result.outcome ≡ specs.outcome_of run.outcome strays }
    ensures dropped { result.dropped ≡ specs.dropped_of strays }
{
    let (outcome, dropped) = match strays {
        Ok(dropped) => (run.outcome, dropped),
        Err(_) => (cut_off(run.outcome), 0),
    };
    Printed {
        outcome,
        line: run.line,
        moves: run.moves,
        dropped,
    }
}

/// Prints a page as characters of a fixed table.
fn print_fixed(
    page: &[u8],
    table: FixedTable,
    escapes: bool,
    setup: &Setup<'_>,
    memory: &mut Memory,
    pages: Pages,
) -> (Pages, Printed)
    ensures printed { ⟦<Pages as Sink>⟧.held pages ≡ Some [] →
        IsShort page.now (man_of setup.now.stages.mdoc page.now) →
        (bytes : List ℕ) → ⟦<Pages as Sink>⟧.held result.0 ≡ Some bytes →
        IsPrinted (setting_of setup.now (bounds_in memory.old.rooms) memory.old.desk)
        (specs.characters table escapes) page.now bytes result.1.moves result.1.outcome result.1.dropped }
    ensures desk { memory.new.desk ≡ memory.old.desk }
{
    let mut room = [0; ROOM];
    let mut shown = Shown::over(pages, table, escapes, &mut room);
    let run = print_page(page, setup, memory, &mut shown);
    let (pages, strays) = shown.finish();
    (pages, ended(run, strays))
}

/// How a page is shown that has become the bytes of a table of its own.
fn coded_showing<'a>(table: &'a OwnTable<'a>, escapes: bool, setup: Setup<'a>) -> Showing<'a>
    ensures setup { result.setup ≡ coded_setup setup.entry }
    ensures spelling { result.spelling ≡ spellings.Utf8 (page_tables.Own table.entry) escapes }
{
    Showing {
        setup: Setup {
            stages: Stages {
                mdoc: false,
                characters: false,
            },
            characters: Target::Ascii,
            ..setup
        },
        spelling: Spelling::Utf8 {
            table: PageTable::Own(table),
            escapes,
        },
    }
}

/// Prints a page in the bytes of a table of its own, which are shown in UTF-8.
pub(crate) fn print_coded<'a>(
    page: &[u8],
    table: &'a OwnTable<'a>,
    escapes: bool,
    setup: Setup<'a>,
    memory: &mut Memory,
    pages: Pages,
) -> (Pages, Printed)
    requires good { Good table.now }
    ensures shown { ⟦<Pages as Sink>⟧.held pages ≡ Some [] →
        IsCodedShort setup.entry.stages table.entry.now page.now →
        (bytes : List ℕ) → ⟦<Pages as Sink>⟧.held result.0 ≡ Some bytes →
        ShowsCoded (setting_of setup.entry (bounds_in memory.old.rooms) memory.old.desk)
        table.entry.now escapes page.now bytes result.1.moves result.1.outcome }
    ensures none_dropped { result.1.dropped ≡ 0 }
    ensures desk { memory.new.desk ≡ memory.old.desk }
{
    let stages = setup.stages;
    let showing = coded_showing(table, escapes, setup);
    let mut places = Places::new();
    let mut room = [0; ROOM];
    let text = Text::over(page);
    let coded = read_own_page(text, stages, table, places.lend(), &mut room);
    let Memory { rooms, desk } = memory;
    let mut complaints = [Complaint::NONE];
    let (pages, run) = print_shown(coded, &showing, rooms, &mut complaints, desk, pages);
    (pages, ended(run, Ok(0)))
}

/// Prints a page in its form.
pub(crate) fn print_pages(
    page: &[u8],
    form: Form,
    setup: &Setup<'_>,
    memory: &mut Memory,
    pages: Pages,
) -> (Pages, Printed)
    ensures printed { ⟦<Pages as Sink>⟧.held pages ≡ Some [] →
        IsShort page.now (man_of setup.now.stages.mdoc page.now) →
        (bytes : List ℕ) → ⟦<Pages as Sink>⟧.held result.0 ≡ Some bytes →
        IsPrinted (setting_of setup.now (bounds_in memory.old.rooms) memory.old.desk)
        form page.now bytes result.1.moves result.1.outcome result.1.dropped }
    ensures desk { memory.new.desk ≡ memory.old.desk }
{
    match form {
        Form::Bytes => {
            let mut pages = pages;
            let run = print_page(page, setup, memory, &mut pages);
            (pages, ended(run, Ok(0)))
        }
        Form::Characters(table, escapes) => {
            print_fixed(page, table, escapes, setup, memory, pages)
        }
    }
}

/// The number of an outcome.
pub(crate) fn code(outcome: PageEnd) -> u32
    ensures value { result ≡ specs.code_of outcome }
    ensures not_range { result ≢ 2 }
    ensures not_memory { result ≢ 5 }
{
    match outcome {
        PageEnd::Done => DONE,
        PageEnd::Limit { .. } | PageEnd::NoRoom => LIMIT,
        PageEnd::WriteFault => FULL,
        PageEnd::TooLong => TOO_LONG,
        PageEnd::ReadFault => UNREADABLE,
    }
}

/// What is reported of a page that was printed after macros of so many bytes, and of which so many were written.
pub(crate) fn report_of(printed: Printed, written: usize, macros: usize) -> Report
    ensures written { result.written ≡ written }
    ensures moves { result.moves ≡ count_reported printed.moves }
    ensures limit { result.limit ≡ specs.limit_reported printed.outcome }
    ensures place { result.at ≡ specs.place_reported macros printed.outcome }
    ensures dropped { result.dropped ≡ printed.dropped }
    ensures line { result.line ≡ printed.line }
{
    let (limit, at) = match printed.outcome {
        PageEnd::Limit { which, at } => (limit_number(which), at.saturating_sub(macros as u64)),
        PageEnd::NoRoom => (SET_PAGE, 0),
        _ => (0, 0),
    };
    Report {
        written,
        at,
        moves: count_reported(printed.moves),
        limit,
        dropped: printed.dropped,
        line: printed.line,
    }
}
