// A whole page is printed in one call: through mdoc, characters and tables, after its macros.
ghost use Rattle.std.specs.Prelude.{◌≡◌, ◌≢◌, ◌↔◌, ◌+◌, [], Some, drop, length, IfOk, IfSome, IsSome};
ghost use Rattle.preconv_coding.specs.UnderCoding.{text_of};
ghost use Rattle.document_reader.specs.Page.{IsShort, man_of};
ghost use Rattle.tbl_setting.specs.Drawing.{signs_of};
ghost use Rattle.tbl_stage.specs.Memory.{memory_of};
ghost use Rattle.tbl_stage.specs.Text.{bounds_in};
ghost use Rattle.nulbiko.specs.Formatting.{bounds_of};
ghost use Rattle.nulbiko.specs.Reported.{nothing_reported};
ghost use Rattle.nulbiko.specs.Document as specs;
ghost use Rattle.nulbiko.specs.Document.{AreSet, IsAllowed, PrintsDocument, sets_of, table_for, tables_by};
ghost use Rattle.nulbiko.specs.Own.{AreShort, PrintsPage, asks_for_own, stages_of};

use super::coded::text_of;
use super::formatting::{TextLimits, TextOptions, options_of};
use super::own::{own_cells, prepare as prepare_own, print_own};
use super::pages::{Pages, hand_over};
use super::printed::{Memory, code, form_of, print_pages, report_of};
use super::reported::{OUT_OF_MEMORY, OUT_OF_RANGE, Report, code_within};
use super::tables::table_of;
use super::utf8::look;
use arrayvec::ArrayVec;
use document_printing::{PageLimits, Rooms, Setup, Stages};
use nr_engine::{CountedAlloc, Limits, Options};
use nr_options::MOST_REGISTERS;
use nr_units::sink::Sink;
use preconv_characters::Target;
use std::alloc::{AllocError, Global};
use utf8_characters::FixedTable;
use utf8_own_page::may_need_own;

/// The number of the table that the page takes.
const CHOSEN: u32 = 6;

/// The greatest number of a form.
const MOST_FORMS: u32 = 2;

/// What tables may use, in bytes.
#[repr(C)]
#[derive(Clone, Copy)]
pub struct TableLimits {
    /// The options and formats of a table, and what is held of it.
    pub formats: usize,
    /// A line of a row.
    pub row: usize,
    /// What goes out of a table at once.
    pub page: usize,
}

/// How a page is set.
#[repr(C)]
#[derive(Clone, Copy)]
pub struct DocumentOptions {
    /// What the formatter is given beside the width.
    pub text: TextOptions,
    /// The cells of a line: the register `L` has them, and tables are set for it.
    pub width: u32,
    /// The number of the table of characters: 0 of none, 6 of the one that the page takes.
    pub table: u32,
    /// How pages go out: 0 as the bytes of the table, 1 in UTF-8 with backspaces, 2 in UTF-8 with escape sequences.
    pub form: u32,
    /// One long page: the register `C` is 1.
    pub long: bool,
    /// A page of mdoc(7) becomes one of man(7).
    pub mdoc: bool,
    /// Tables are set, where a line begins with `.TS`.
    pub tables: bool,
}

/// What a page may cost, and how it is set.
#[repr(C)]
#[derive(Clone, Copy)]
pub struct DocumentSetup {
    /// The formatter's limits.
    pub limits: TextLimits,
    /// Those of tables.
    pub tables: TableLimits,
    /// How it is set.
    pub options: DocumentOptions,
}

/// Whether there are a table and a form of these numbers. A form in UTF-8 has a table.
fn are_numbers(table: u32, form: u32) -> bool
    ensures { result ≡ specs.are_numbers table form }
{
    table <= CHOSEN && (form == 0 || (form <= MOST_FORMS && table != 0))
}

/// The formatter's limits, where all that is asked for is in its range.
pub(crate) fn limits_of(setup: &DocumentSetup) -> Option<Limits>
    ensures ranges { IsSome result ↔ IsAllowed setup.now }
    ensures value { IfSome result (λ limits. limits ≡ bounds_of setup.now.limits) }
{
    if !are_numbers(setup.options.table, setup.options.form) {
        return None;
    }
    Limits::new(
        setup.limits.stored,
        setup.limits.depth,
        setup.limits.cells,
        setup.limits.expansions,
        setup.limits.moves,
    )
}

/// The table of a number, for a page.
fn table_for(alloc: Global, number: u32, page: &[u8]) -> Result<Option<FixedTable>, AllocError>
    ensures { IfOk result (λ table. table ≡ specs.table_for number page.now) }
{
    if number == CHOSEN {
        let chosen = look(alloc, page)?;
        return Ok(table_of(chosen));
    }
    Ok(table_of(number))
}

/// The registers that are set before a run.
fn registers_for(asked: DocumentOptions) -> ArrayVec<(u8, i64), MOST_REGISTERS>
    ensures { result.items ≡ specs.registers_for asked }
{
    let mut registers = ArrayVec::new();
    registers.push((b'L', i64::from(asked.width)));
    if asked.long {
        registers.push((b'C', 1));
    }
    registers
}

/// What the formatter is given.
pub(crate) fn options_for(asked: DocumentOptions) -> Options
    ensures { AreSet asked result }
{
    let mut options = options_of(asked.text);
    options.registers = registers_for(asked);
    options
}

/// Whether a line of a page begins with `.TS`.
pub(crate) fn has_tables(page: &[u8]) -> bool
    ensures { result ≡ specs.has_tables page.now }
{
    let mut begins = true;
    for (place, byte) in page.iter().enumerate() {
        if begins && page[place..].starts_with(b".TS") {
            return true;
        }
        begins = *byte == b'\n';
    }
    false
}

/// The limits of tables; a page without any has no room for them.
pub(crate) fn table_limits(asked: TableLimits, sets: bool) -> PageLimits
    ensures { result ≡ specs.page_limits asked sets }
{
    if sets {
        PageLimits {
            formats: asked.formats,
            row: asked.row,
            set: asked.page,
        }
    } else {
        PageLimits {
            formats: 0,
            row: 0,
            set: 0,
        }
    }
}

/// How a page is set, and the macros that stand before it.
#[derive(Clone, Copy)]
pub(crate) struct Asked<'a> {
    pub setup: &'a DocumentSetup,
    pub macros: &'a [u8],
}

/// What a page is printed with beside the memory that is kept.
struct Prepared {
    /// Its tables are set.
    sets: bool,
    characters: Option<FixedTable>,
    pages: Pages,
    rooms: Rooms,
}

/// Takes the memory for a page with these characters, of which so many bytes may go out.
fn prepare(
    alloc: &mut CountedAlloc,
    setup: &DocumentSetup,
    page: &[u8],
    characters: Option<FixedTable>,
    room: usize,
) -> Result<Prepared, AllocError>
    ensures sets { IfOk result (λ made. made.sets ≡ sets_of setup.now page.now) }
    ensures characters { IfOk result (λ made. made.characters ≡ characters) }
    ensures pages { IfOk result (λ made. ⟦<Pages as Sink>⟧.held made.pages ≡ Some []) }
    ensures tables { IfOk result (λ made. bounds_in made.rooms
        ≡ tables_by setup.now made.sets (signs_of made.characters)) }
    ensures taken { IfOk result (λ made. alloc.new ≡ alloc.old + room
        + memory_of (specs.page_limits setup.now.tables made.sets)) }
{
    let sets = sets_tables(setup, page);
    let tables = table_limits(setup.tables, sets);
    let pages = Pages::new(alloc, room)?;
    let rooms = Rooms::new(alloc, tables, setup.options.width as usize, characters)?;
    Ok(Prepared {
        sets,
        characters,
        pages,
        rooms,
    })
}

/// Prints a page with what was prepared, hands its pages over and gives the number of the outcome.
fn print_document(
    prepared: Prepared,
    memory: &mut Memory,
    asked: Asked<'_>,
    page: &[u8],
    output: &mut [u8],
    reported: &mut Report,
) -> u32
    ensures printed { prepared.sets ≡ sets_of asked.entry.setup.now page.now →
        prepared.characters ≡ table_for asked.entry.setup.now.options.table page.now →
        ⟦<Pages as Sink>⟧.held prepared.pages ≡ Some [] →
        memory.old.desk ≡ bounds_of asked.entry.setup.now.limits →
        bounds_in prepared.rooms ≡ tables_by asked.entry.setup.now prepared.sets (signs_of prepared.characters) →
        IsShort page.now (man_of asked.entry.setup.now.options.mdoc page.now) →
        PrintsDocument asked.entry.setup.now asked.entry.macros.now page.now output.new reported.new result }
    ensures desk { memory.new.desk ≡ memory.old.desk }
    ensures not_range { result ≢ 2 }
    ensures not_memory { result ≢ 5 }
    ensures rest { drop reported.new.written output.new ≡ drop reported.new.written output.old }
{
    let Prepared {
        sets,
        characters,
        pages,
        rooms,
    } = prepared;
    let Asked { setup, macros } = asked;
    memory.rooms = rooms;
    let options = options_for(setup.options);
    let form = form_of(setup.options.form, characters);
    let target = Target::of(characters);
    let set = Setup {
        macros,
        stages: Stages {
            mdoc: setup.options.mdoc,
            characters: true,
        },
        tables: sets,
        characters: target,
        options: &options,
    };
    let (pages, printed) = print_pages(page, form, &set, memory, pages);
    let Setup {
        macros: _,
        stages: _,
        tables: _,
        characters: _,
        options: _,
    } = set;
    let bytes = pages.as_slice();
    let written = hand_over(bytes, output);
    *reported = report_of(printed, written, macros.len());
    code_within(code(printed.outcome), bytes.len(), output.len())
}

/// The stages that a page goes through.
pub(crate) fn stages_of(setup: &DocumentSetup) -> Stages
    ensures { result ≡ stages_of setup.now }
{
    Stages {
        mdoc: setup.options.mdoc,
        characters: true,
    }
}

/// Whether tables are set.
pub(crate) fn sets_tables(setup: &DocumentSetup, text: &[u8]) -> bool
    ensures { result ≡ sets_of setup.now text.now }
{
    setup.options.tables && has_tables(text)
}

/// Whether a page may have a table of its own.
pub(crate) fn asks_for_own(setup: &DocumentSetup, text: &[u8]) -> bool
    ensures { result ≡ asks_for_own setup.now text.now }
{
    setup.options.table == CHOSEN && setup.options.form != 0 && may_need_own(text)
}

/// Prints a page in this memory, and gives the number of the outcome.
pub(crate) fn print_in(
    alloc: Global,
    memory: &mut Memory,
    asked: Asked<'_>,
    page: &[u8],
    output: &mut [u8],
    reported: &mut Report,
) -> u32
    ensures printed { memory.old.desk ≡ bounds_of asked.entry.setup.now.limits → result ≢ 5 → AreShort asked.entry.setup.now (text_of page.now)
        → PrintsPage asked.entry.setup.now asked.entry.macros.now (text_of page.now) output.new reported.new result }
    ensures desk { memory.new.desk ≡ memory.old.desk }
    ensures not_range { result ≢ 2 }
    ensures no_memory { result ≡ 5 → (output.new ≡ output.old) × (reported.new ≡ nothing_reported) }
    ensures rest { drop reported.new.written output.new ≡ drop reported.new.written output.old }
{
    *reported = Report::nothing();
    let setup = asked.setup;
    let Ok(text) = text_of(alloc, page) else {
        return OUT_OF_MEMORY;
    };
    let Ok(characters) = table_for(alloc, setup.options.table, &text) else {
        return OUT_OF_MEMORY;
    };
    let Ok(own) = own_cells(alloc, setup, &text, characters) else {
        return OUT_OF_MEMORY;
    };
    let mut counted = CountedAlloc::new(alloc);
    let room = output.len();
    match own {
        Some(cells) => match prepare_own(&mut counted, setup, &text, cells, room) {
            Ok(prepared) => print_own(prepared, memory, asked, &text, output, reported),
            Err(_) => OUT_OF_MEMORY,
        },
        None => match prepare(&mut counted, setup, &text, characters, room) {
            Ok(prepared) => print_document(prepared, memory, asked, &text, output, reported),
            Err(_) => OUT_OF_MEMORY,
        },
    }
}

/// Prints a page after macros, under limits, into a buffer, reports how it went, and gives the number of the outcome: 0 done,
/// 1 a limit would be passed, 2 a limit or a number is out of range, 4 the buffer is full, 5 there is not enough memory, 6 a
/// text is too long.
///
/// Proved: **One call prints a whole document.** What stands at the beginning of the output are the pages of the machine
/// over `macros ++ tables (characters (mdoc text))`, as `print` of document_printing has them, of the page's text under
/// its coding, in their form: the bytes of the table, or what utf8 makes of them, which is a text for a terminal. Tables
/// are set for the width, by the limits and with the table of characters that are asked for (`tables_by`). Where
/// not all fit the number is 4, and as many stand there as fit; where a limit would be passed it is 1, and the pages that
/// had ended stand there. So it is where the text and what mdoc makes of it have less than 2^40 bytes. (`printed` of `nulbiko_document_lent`)
/// Proved: **A page in UTF-8 that takes its table has one of its own** exactly where the fixed one that it takes lacks a letter with its
/// marks that its first 512 KiB print. Then it goes out as `print_shown` of document_printing shows it, of the page in the bytes of that
/// table, which has the most frequent ones that have room. So it is where what each stage is given has less than 2^40 bytes.
/// (`takes_own` and `PrintsOwn` in Own.antt)
/// Proved: The number is 2 exactly where a limit or a number is out of its range. Then, and where memory is refused (5),
/// the output is as it was, and the report has zeros.
#[unsafe(no_mangle)]
pub extern "C" fn nulbiko_document_lent(
    alloc: Global,
    setup: &DocumentSetup,
    macros: &[u8],
    page: &[u8],
    output: &mut [u8],
    reported: &mut Report,
) -> u32
    ensures ranges { (result ≡ 2) ↔ (IsAllowed setup.now → ⊥) }
    ensures printed { result ≢ 2 → result ≢ 5 → AreShort setup.now (text_of page.now)
        → PrintsPage setup.now macros.now (text_of page.now) output.new reported.new result }
    ensures bad { result ≡ 2 → (output.new ≡ output.old) × (reported.new ≡ nothing_reported) }
    ensures no_memory { result ≡ 5 → (output.new ≡ output.old) × (reported.new ≡ nothing_reported) }
    ensures rest { drop reported.new.written output.new ≡ drop reported.new.written output.old }
{
    *reported = Report::nothing();
    let Some(limits) = limits_of(setup) else {
        return OUT_OF_RANGE;
    };
    let Ok(mut memory) = Memory::new(&mut CountedAlloc::new(alloc), limits) else {
        return OUT_OF_MEMORY;
    };
    let asked = Asked { setup, macros };
    print_in(alloc, &mut memory, asked, page, output, reported)
}
