//! A page that has characters which no fixed table has is printed with a table of its own.
ghost use Rattle.std.specs.Prelude.{◌≡◌, ◌<◌, ℕ, List, IfErr, IfOk, None, length, true};
ghost use Rattle.document_stages.specs.Joined.{Begins};
ghost use Rattle.document_reader.specs.Page.{IsShort, man_of, plain_of};
ghost use Rattle.preconv_characters.specs.declared.target.Target.TheVariants.{Utf8};
ghost use Rattle.utf8_own_characters.specs.Counting.{is_once};
ghost use Rattle.utf8_own_characters.specs.Table.{Good};
ghost use Rattle.program_command.specs.Own.{HasOwn, counts_of, may_have_numbers, may_need_own, numbered_of, unshown_of};
ghost use Rattle.program_command.specs.Printing.{AreShort, OwnShows, Printed, Where, given_by, own_showing};

use crate::plan::Plan;
use crate::printing::{Means, print_fixed, print_page};
use document_printing::{PageTable, Report, Rooms, Setup, Showing, Spelling, Stages};
use document_reader::{Places, read_own_page, skim_page};
use document_stages::Text;
use nr_engine::{Desk, Sink, Source};
use nr_vectors::CountedAlloc;
use preconv_characters::Target;
use std::alloc::{AllocError, Global};
use utf8_own_characters::{Count, OwnTable};
use utf8_own_page::{Cells, counted, lacks, names_of_numbered, signs_of};

/// The bytes of characters that go out at once.
const ROOM: usize = 2_048;

/// Whether no fixed table may have all that a page prints.
fn may_need_own(plan: &Plan, prefix: &[u8]) -> bool
    ensures { result ≡ may_need_own plan.now prefix.now }
{
    plan.spells && !plan.checks && utf8_own_page::may_need_own(prefix)
}

/// Counts what a page prints beyond ASCII, after what frames are drawn with where its tables are set.
fn count_prefix(plan: &Plan, prefix: &[u8], alloc: Global) -> Result<Vec<Count>, AllocError>
    ensures counted { IsShort prefix.now (man_of plan.now.stages.mdoc prefix.now) →
        length (plain_of plan.now.stages Utf8 prefix.now) < 1099511627776 →
        IfOk result (λ counts. counts.items ≡ counts_of plan.now prefix.now) }
    ensures once { IfOk result (λ counts. is_once counts.items ≡ true) }
{
    let mut places = Places::new();
    let mut text = skim_page(Text::over(prefix), plan.stages, Target::Utf8, places.lend());
    counted(alloc, &mut text, plan.tables)
}

/// The characters of the table of its own that a page has which begins with these bytes; none where a fixed table serves.
///
/// Proved: A page has a table of its own exactly where UTF-8 is printed, its first 512 KiB have a character beyond ASCII,
/// or name one by its number or a letter that English lacks by its name, and the fixed table of its plan lacks a cluster of
/// what the stages make of the bytes that were looked at. (`own_cells`; `needs_own` in Own.antt)
pub(crate) fn own_cells(
    plan: &Plan,
    prefix: &[u8],
    alloc: Global,
) -> Result<Option<Cells>, AllocError>
    ensures { AreShort plan.now.stages prefix.now → IfOk result (HasOwn plan.now prefix.now) }
{
    if !may_need_own(plan, prefix) {
        return Ok(None);
    }
    let counts = count_prefix(plan, prefix, alloc)?;
    if !lacks(plan.characters, &counts) {
        return Ok(None);
    }
    Ok(Some(Cells::of(alloc, &counts)?))
}

/// Whether a page that isn't printed in UTF-8 may have characters that are shown by their numbers.
fn may_have_numbers(plan: &Plan, prefix: &[u8]) -> bool
    ensures { result ≡ may_have_numbers plan.now prefix.now }
{
    !plan.spells && !plan.checks && utf8_own_page::may_need_own(prefix)
}

/// Names the characters of a page that begins with these bytes which are shown by their numbers; there is nothing where UTF-8 is printed.
fn numbered(plan: &Plan, prefix: &[u8], alloc: Global) -> Result<Vec<u8>, AllocError>
    ensures { AreShort plan.now.stages prefix.now → IfOk result (λ names. names.items ≡ numbered_of plan.now prefix.now) }
{
    if !may_have_numbers(plan, prefix) {
        return Ok(Vec::new(alloc));
    }
    let counts = count_prefix(plan, prefix, alloc)?;
    names_of_numbered(alloc, Target::of(plan.characters), &counts)
}

/// Names the characters of a page that are not shown as themselves, nor by what they look like: those that the table of its own lacks, if
/// it has one, else those that its fixed table shows by their numbers.
///
/// Proved: Where a page has no table of its own and is printed in ASCII or Latin-1, the characters that are reported are those that came
/// in the bytes of it that were looked at and of which the table has neither a byte nor a likeness, so that they are shown by their
/// numbers. (`unshown`; `unshown_of` in Own.antt)
pub(crate) fn unshown(
    own: &Option<Cells>,
    plan: &Plan,
    prefix: &[u8],
    alloc: Global,
) -> Result<Vec<u8>, AllocError>
    ensures { AreShort plan.now.stages prefix.now → HasOwn plan.now prefix.now own.now →
        IfOk result (λ names. names.items ≡ unshown_of plan.now prefix.now) }
{
    match own {
        Some(cells) => cells.left_out(alloc),
        None => numbered(plan, prefix, alloc),
    }
}

/// Prints a page by its plan: with the fixed table of it, or with that of its own characters, if it has them. Gives the output back;
/// where there was not enough memory nothing was printed.
///
/// Proved: The table of a page's own has the clusters that come most often in the bytes of it that were looked at, as many as
/// have room. (`print_by_plan`; `TableShows` in Printing.antt)
pub(crate) fn print_by_plan<R: Source + Drop, W: Sink + Drop>(
    page: R,
    own: &Option<Cells>,
    plan: &Plan,
    means: Means<'_>,
    desk: &mut Desk,
    output: W,
) -> (W, Result<Report, AllocError>)
    ensures prints { (first : List ℕ) → Begins (R.supply page) first → (AreShort plan.now.stages first → HasOwn plan.now first own.now) →
        IfOk result.1 (λ report. Where plan.now (R.supply page)
        (λ q. Printed plan.now first (given_by means.entry desk.old) q report (W.held output) (W.held result.0))) }
    ensures checks { plan.now.checks ≡ true → result.0 ≡ output }
    ensures unprinted { IfErr result.1 (λ _. result.0 ≡ output) }
{
    match own {
        Some(cells) => print_own(page, &cells.table(), plan, means, desk, output),
        None => print_fixed(page, plan, means, desk, output),
    }
}

/// How a page shows that has become the bytes of its own table.
fn own_showing<'a>(table: &'a OwnTable<'a>, plan: &Plan, means: Means<'a>) -> Showing<'a>
    ensures { result ≡ own_showing plan.now table.entry means.entry }
{
    Showing {
        setup: Setup {
            macros: means.macros,
            stages: Stages {
                mdoc: false,
                characters: false,
            },
            tables: plan.tables,
            characters: Target::Ascii,
            options: means.options,
        },
        spelling: Spelling::Utf8 {
            table: PageTable::Own(table),
            escapes: plan.escapes,
        },
    }
}

/// Prints a page with these characters.
fn print_own<'a, R: Source + Drop, W: Sink + Drop>(
    page: R,
    table: &'a OwnTable<'a>,
    plan: &Plan,
    means: Means<'a>,
    desk: &mut Desk,
    output: W,
) -> (W, Result<Report, AllocError>)
    requires { Good table.now }
    ensures prints { IfOk result.1 (λ report. Where plan.now (R.supply page)
        (λ q. OwnShows plan.now table.entry (given_by means.entry desk.old) q report (W.held output)
        (W.held result.0))) }
    ensures checks { plan.now.checks ≡ true → result.0 ≡ output }
    ensures unprinted { IfErr result.1 (λ _. result.0 ≡ output) }
{
    let mut alloc = CountedAlloc::new(means.alloc);
    let Ok(mut rooms) = Rooms::drawn_with(&mut alloc, means.limits, plan.cells, signs_of(table))
    else {
        return (output, Err(AllocError));
    };
    let showing = own_showing(table, plan, means);
    let mut places = Places::new();
    let mut third = [0; ROOM];
    let coded = read_own_page(page, plan.stages, table, places.lend(), &mut third);
    let (output, report) = print_page(coded, &showing, plan, &mut rooms, desk, output);
    (output, Ok(report))
}
