// A page that has characters which no fixed table has is printed with a table of its own.
ghost use Rattle.std.specs.Prelude.{◌≡◌, ◌≢◌, ◌+◌, [], Some, drop, true, IfOk};
ghost use Rattle.tbl_stage.specs.Memory.{memory_of};
ghost use Rattle.tbl_stage.specs.Text.{bounds_in};
ghost use Rattle.utf8_own_characters.specs.Counting.{is_once};
ghost use Rattle.utf8_own_characters.specs.Ranking.{ranked};
ghost use Rattle.utf8_own_page.specs.Looking.{counts_of};
ghost use Rattle.utf8_own_page.specs.Needing.{prefix_of};
ghost use Rattle.preconv_characters.specs.declared.target.Target.TheVariants.{Utf8};
ghost use Rattle.document_reader.specs.Page.{plain_of};
ghost use Rattle.nulbiko.specs.Document.{page_limits, sets_of, table_for, tables_by};
ghost use Rattle.nulbiko.specs.Formatting.{bounds_of};
ghost use Rattle.nulbiko.specs.Own as specs;
ghost use Rattle.nulbiko.specs.Own.{HasOwn, IsShortIf, LookIsShort, OwnIsShort, PrintsOwn};

use super::document::{
    Asked, DocumentSetup, asks_for_own, options_for, sets_tables, stages_of, table_limits,
};
use super::pages::{Pages, hand_over};
use super::printed::{Memory, code, print_coded, report_of};
use super::reported::{Report, code_within};
use super::text::Text;
use document_printing::{Rooms, Setup, Stages};
use document_reader::{Places, read_page};
use nr_engine::CountedAlloc;
use nr_units::sink::Sink;
use preconv_characters::Target;
use std::alloc::{AllocError, Global};
use utf8_characters::FixedTable as Fixed;
use utf8_own_characters::Count;
use utf8_own_page::{Cells, counted, lacks, prefix_of, signs_of};

/// Counts what the first of a page prints beyond ASCII, after what frames are drawn with.
pub(crate) fn count_prefix(
    alloc: Global,
    stages: Stages,
    frames: bool,
    prefix: &[u8],
) -> Result<Vec<Count>, AllocError>
    ensures items { LookIsShort stages prefix.now →
        IfOk result (λ counts. counts.items ≡ counts_of 4352 frames (plain_of stages Utf8 prefix.now)) }
    ensures once { IfOk result (λ counts. is_once counts.items ≡ true) }
{
    let mut places = Places::new();
    let text = Text::over(prefix);
    let mut page = read_page(text, stages, Target::Utf8, places.lend());
    counted(alloc, &mut page, frames)
}

/// Counts what a page prints beyond ASCII, and what frames are drawn with.
fn count_page(alloc: Global, setup: &DocumentSetup, text: &[u8]) -> Result<Vec<Count>, AllocError>
    ensures items { LookIsShort (specs.stages_of setup.now) (prefix_of text.now) →
        IfOk result (λ counts. counts.items ≡ specs.counts_for setup.now text.now) }
    ensures once { IfOk result (λ counts. is_once counts.items ≡ true) }
{
    let stages = stages_of(setup);
    let frames = sets_tables(setup, text);
    count_prefix(alloc, stages, frames, prefix_of(text))
}

/// The characters of a page's own table, where no fixed one has all that it prints.
pub(crate) fn own_cells(
    alloc: Global,
    setup: &DocumentSetup,
    text: &[u8],
    characters: Option<Fixed>,
) -> Result<Option<Cells>, AllocError>
    ensures { IfOk result (λ own. IsShortIf (specs.asks_for_own setup.now text.now) setup.now text.now →
        characters ≡ table_for setup.now.options.table text.now → HasOwn setup.now text.now own) }
{
    if !asks_for_own(setup, text) {
        return Ok(None);
    }
    let counts = count_page(alloc, setup, text)?;
    if !lacks(characters, &counts) {
        return Ok(None);
    }
    Ok(Some(Cells::of(alloc, &counts)?))
}

/// What a page is printed with that has a table of its own.
pub(crate) struct Prepared {
    /// Its tables are set.
    sets: bool,
    cells: Cells,
    pages: Pages,
    rooms: Rooms,
}

/// Takes the memory for a page with these characters, of which so many bytes may go out.
pub(crate) fn prepare(
    alloc: &mut CountedAlloc,
    setup: &DocumentSetup,
    text: &[u8],
    cells: Cells,
    room: usize,
) -> Result<Prepared, AllocError>
    ensures sets { IfOk result (λ made. made.sets ≡ sets_of setup.now text.now) }
    ensures cells { IfOk result (λ made. made.cells ≡ cells) }
    ensures pages { IfOk result (λ made. ⟦<Pages as Sink>⟧.held made.pages ≡ Some []) }
    ensures tables { IfOk result (λ made. bounds_in made.rooms
        ≡ tables_by setup.now made.sets (bounds_in made.rooms).tables.signs) }
    ensures taken { IfOk result (λ made. alloc.new ≡ alloc.old + room
        + memory_of (page_limits setup.now.tables made.sets)) }
{
    let sets = sets_tables(setup, text);
    let tables = table_limits(setup.tables, sets);
    let signs = signs_of(&cells.table());
    let pages = Pages::new(alloc, room)?;
    let rooms = Rooms::drawn_with(alloc, tables, setup.options.width as usize, signs)?;
    Ok(Prepared {
        sets,
        cells,
        pages,
        rooms,
    })
}

/// Prints a page with a table of its own, hands its pages over and gives the number of the outcome.
pub(crate) fn print_own(
    prepared: Prepared,
    memory: &mut Memory,
    asked: Asked<'_>,
    text: &[u8],
    output: &mut [u8],
    reported: &mut Report,
) -> u32
    ensures printed { prepared.sets ≡ sets_of asked.entry.setup.now text.now →
        ⟦<Pages as Sink>⟧.held prepared.pages ≡ Some [] → memory.old.desk ≡ bounds_of asked.entry.setup.now.limits →
        bounds_in prepared.rooms ≡ tables_by asked.entry.setup.now prepared.sets (bounds_in prepared.rooms).tables.signs →
        prepared.cells ≡ ranked (specs.counts_for asked.entry.setup.now text.now) → OwnIsShort asked.entry.setup.now text.now →
        PrintsOwn asked.entry.setup.now asked.entry.macros.now text.now output.new reported.new result }
    ensures desk { memory.new.desk ≡ memory.old.desk }
    ensures not_range { result ≢ 2 }
    ensures not_memory { result ≢ 5 }
    ensures rest { drop reported.new.written output.new ≡ drop reported.new.written output.old }
{
    let Prepared {
        sets,
        cells,
        pages,
        rooms,
    } = prepared;
    let Asked { setup, macros } = asked;
    memory.rooms = rooms;
    let options = options_for(setup.options);
    let set = Setup {
        macros,
        stages: stages_of(setup),
        tables: sets,
        characters: Target::Ascii,
        options: &options,
    };
    let table = cells.table();
    let escapes = setup.options.form == 2;
    let (pages, printed) = print_coded(text, &table, escapes, set, memory, pages);
    let bytes = pages.as_slice();
    let written = hand_over(bytes, output);
    *reported = report_of(printed, written, macros.len());
    code_within(code(printed.outcome), bytes.len(), output.len())
}
