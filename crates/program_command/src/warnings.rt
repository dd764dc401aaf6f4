//! What is wrong in texts is reported.
ghost use Rattle.std.specs.Prelude.{◌≡◌, ◌⊎◌, IfOk, drop, false, map};
ghost use Rattle.std.specs.Option.{option_map};
ghost use Rattle.filters.specs.Endings.{Tells};
ghost use Rattle.document_stages.specs.Pulling.{Stays};
ghost use Rattle.program_options.specs.Job.{asked_of};
ghost use Rattle.program_command.specs.Program.{EndsUnrun, IsOfRun, Passes, Warned};
ghost use Rattle.program_command.specs.Running.{IsReading, first_of};
ghost use Rattle.document_printing.specs.Tables.{has_tables};
ghost use Rattle.preconv_converter.specs.Reading.{converted};
ghost use Rattle.preconv_characters.specs.declared.target.Target.TheVariants.{Ascii};
ghost use Rattle.tbl_command.specs.Looking.{AreReportedOf};
ghost use Rattle.program_command.specs.Printing.{AreAllShort};
ghost use Rattle.program_command.specs.Warnings.{AreAhead, AreTablesOf, TellsAt, TellsBytes, TellsEach, TellsRead, TellsText, TellsTexts, heard, is_looked_at, lines_of, of_macros, of_man, page_of, tables_job, unlooked, warnings_of};

use crate::ahead::{Ahead, Read, read_ahead};
use crate::endings::Ending;
use crate::nowhere::Nowhere;
use crate::plan::{kind_of, limits_of};
use crate::running::{Reading, add_all, macro_count, run_texts, under_coding};
use crate::surroundings::Surroundings;
use document_printing::has_tables;
use document_reader::{Places, Stages, read_page};
use document_sources::Folder;
use document_stages::Text;
use filters::put_all;
use mdoc_command::tell_page;
use nr_engine::{Sink, Source};
use preconv_characters::Target;
use preconv_coding::Coding;
use program_options::Job;
use program_plan::{Macros, cells_of};
use std::alloc::{AllocError, Global};
use tbl_command::{Job as TablesJob, Tables, look_at, tell_complaints};

/// The name that begins lines.
const PROGRAM: &str = "nulbiko";

/// What the tables of a page are looked at after.
const STAGES: Stages = Stages {
    mdoc: false,
    characters: true,
};

/// Runs a job over its texts. What is wrong in them is reported before, where words ask for it. Gives the output back.
pub(crate) fn run_warned<'a, T: Source + Drop, F: Folder + Drop, W: Sink + Drop, E: Sink>(
    job: &Job<'a>,
    around: &Surroundings,
    with: (Reading, Option<F>),
    texts: Vec<T>,
    output: W,
    errors: &mut E,
) -> (Ending<'a>, W)
    requires { IsReading (asked_of job.now) with.0 }
    ensures run { IsOfRun result.0 }
    ensures comes { EndsUnrun result.0 (W.held output) (W.held result.1) ⊎ Warned (asked_of job.now) around.now
        with.0.coding (option_map F.texts with.1) (map T.supply texts.items) result.0 (W.held output) (W.held result.1)
        (heard (E.held errors.old) (E.failures errors.old)) (heard (E.held errors.new) (E.failures errors.new)) }
    ensures prints { (result.1 ≡ output) ⊎ Passes result.0 (W.passed_on result.1) }
    ensures silent { (asked_of job.now).plain.warns ≡ false → errors.new ≡ errors.old }
{
    let (reading, folder) = with;
    let Ok(mut ahead) = warn_of(job, reading.coding, texts, around.alloc, errors) else {
        return (Ending::OutOfMemory, output);
    };
    run_texts(job, reading, around, &mut ahead, folder, output)
}

/// How texts are looked at: under a coding that is named for them, or that they name themselves.
#[derive(Clone, Copy)]
struct Looks {
    coding: Option<Coding>,
    alloc: Global,
}

/// Texts that are to be read. What is wrong with each as it stands by itself is reported before, macro files aside, where words
/// ask for it.
pub(crate) fn warn_of<S: Source + Drop, E: Sink>(
    job: &Job<'_>,
    coding: Option<Coding>,
    texts: Vec<S>,
    alloc: Global,
    errors: &mut E,
) -> Result<Vec<Ahead<S>>, AllocError>
    ensures stay { IfOk result (λ all. AreAhead (map S.supply texts.items)
        (map ⟦<Ahead<S> as Source>⟧.supply all.items)) }
    ensures reported { IfOk result (λ _. TellsTexts (asked_of job.now) coding 0 (map S.supply texts.items)
        (heard (E.held errors.old) (E.failures errors.old)) (heard (E.held errors.new) (E.failures errors.new))) }
    ensures silent { (asked_of job.now).plain.warns ≡ false → errors.new ≡ errors.old }
{
    let looks = Looks { coding, alloc };
    let mut all = Vec::new(alloc);
    for text in texts {
        let ahead = ahead_of(job, all.len(), looks, text, errors)?;
        all.push(ahead)?;
    }
    Ok(all)
}

/// A text that is to be read, the one at this place among those of a job.
fn ahead_of<S: Source + Drop, E: Sink>(
    job: &Job<'_>,
    place: usize,
    looks: Looks,
    text: S,
    errors: &mut E,
) -> Result<Ahead<S>, AllocError>
    ensures stays { IfOk result (λ ahead. Stays (S.supply text) (⟦<Ahead<S> as Source>⟧.supply ahead)) }
    ensures reported { IfOk result (λ _. TellsAt (asked_of job.now) looks.coding place (S.supply text)
        (heard (E.held errors.old) (E.failures errors.old)) (heard (E.held errors.new) (E.failures errors.new))) }
    ensures silent { (asked_of job.now).plain.warns ≡ false → errors.new ≡ errors.old }
{
    if !is_looked_at(job, place) {
        return Ok(Ahead::over(Vec::new(looks.alloc), text));
    }
    let page = place.saturating_sub(macro_count(job));
    look_at_text(job, name_of(job, page), looks, text, errors)
}

/// Whether what is wrong with the text at this place is reported: where words ask for it, and of no macro file.
fn is_looked_at(job: &Job<'_>, place: usize) -> bool
    ensures { result ≡ is_looked_at (asked_of job.now) place }
{
    job.plain.warns && macro_count(job) <= place
}

/// The name of one of the texts that are no macro files.
fn name_of<'a>(job: &Job<'a>, page: usize) -> &'a str
    ensures { result.now ≡ first_of (drop page (asked_of job.now).files) }
{
    match job.files.get(page) {
        Some(name) => *name,
        None => "-",
    }
}

/// Tells what is wrong with a text of this name, which is read before. It comes again as it is.
fn look_at_text<S: Source + Drop, E: Sink>(
    job: &Job<'_>,
    name: &str,
    looks: Looks,
    text: S,
    errors: &mut E,
) -> Result<Ahead<S>, AllocError>
    ensures stays { IfOk result (λ ahead. Stays (S.supply text) (⟦<Ahead<S> as Source>⟧.supply ahead)) }
    ensures reported { IfOk result (λ _. TellsText (asked_of job.now) looks.coding name.now (S.supply text)
        (heard (E.held errors.old) (E.failures errors.old)) (heard (E.held errors.new) (E.failures errors.new))) }
{
    let mut text = text;
    let read = read_ahead(&mut text, looks.alloc)?;
    tell_read(job, name, looks, &read, errors)?;
    Ok(Ahead::over(read.bytes, text))
}

/// Tells what is wrong with what was read of a text of this name, or if that is not all of it, that it was not looked at.
fn tell_read<E: Sink>(
    job: &Job<'_>,
    name: &str,
    looks: Looks,
    read: &Read,
    errors: &mut E,
) -> Result<(), AllocError>
    ensures { IfOk result (λ _. TellsRead (asked_of job.now) looks.coding name.now read.now.whole read.now.bytes.items
        (heard (E.held errors.old) (E.failures errors.old)) (heard (E.held errors.new) (E.failures errors.new))) }
{
    if read.whole {
        return tell_bytes(job, name, looks, &read.bytes, errors);
    }
    tell_unlooked(name, errors);
    Ok(())
}

/// Tells that the text of this name was not looked at.
fn tell_unlooked<E: Sink>(name: &str, errors: &mut E)
    ensures { Tells (E.held errors.old) (E.held errors.new) (E.failures errors.old) (E.failures errors.new)
        (unlooked name.now) }
{
    let parts = [b"nulbiko: ", name.as_bytes(), b": not looked at\n"];
    let _ = put_all(&parts, errors);
}

/// Tells what is wrong with a text of this name and these bytes.
fn tell_bytes<E: Sink>(
    job: &Job<'_>,
    name: &str,
    looks: Looks,
    bytes: &[u8],
    errors: &mut E,
) -> Result<(), AllocError>
    ensures { IfOk result (λ _. TellsBytes (asked_of job.now) looks.coding name.now bytes.now
        (heard (E.held errors.old) (E.failures errors.old)) (heard (E.held errors.new) (E.failures errors.new))) }
{
    let page = decoded(looks, bytes)?;
    tell_page_of(job, name, &page, looks.alloc, errors)
}

/// The bytes of a text under its coding.
fn decoded(looks: Looks, bytes: &[u8]) -> Result<Vec<u8>, AllocError>
    ensures { IfOk result (λ page. page.items ≡ page_of looks.coding bytes.now) }
{
    let mut page = Vec::new(looks.alloc);
    let mut text = under_coding(Text::over(bytes), looks.coding);
    if !add_all(&mut text, &mut page)? {
        return Err(AllocError);
    }
    Ok(page)
}

/// Tells what is wrong with a page of this name: by its macros, by the lines of a page of man(7), and by its tables.
fn tell_page_of<E: Sink>(
    job: &Job<'_>,
    name: &str,
    page: &[u8],
    alloc: Global,
    errors: &mut E,
) -> Result<(), AllocError>
    ensures { IfOk result (λ _. AreAllShort page.now → TellsEach
        (heard (E.held errors.old) (E.failures errors.old)) (heard (E.held errors.new) (E.failures errors.new))
        (warnings_of (asked_of job.now) name.now page.now)) }
{
    let kind = kind_of(job, page);
    let tables = tables_of(job, kind, page, alloc)?;
    tell_macros(kind, name, page, alloc, errors)?;
    tell_man(kind, name, page, alloc, errors)?;
    tell_tables(name, &tables, errors);
    Ok(())
}

/// Tells what mdoc would of a page that has these macros.
fn tell_macros<E: Sink>(
    kind: Macros,
    name: &str,
    page: &[u8],
    alloc: Global,
    errors: &mut E,
) -> Result<(), AllocError>
    ensures { IfOk result (λ _. TellsEach (heard (E.held errors.old) (E.failures errors.old))
        (heard (E.held errors.new) (E.failures errors.new)) (of_macros kind name.now page.now)) }
{
    match kind {
        Macros::Manual => tell_page(PROGRAM, name, page, alloc, errors),
        _ => Ok(()),
    }
}

/// Tells what is wrong with the lines of a page of man(7) that has these macros.
fn tell_man<E: Sink>(
    kind: Macros,
    name: &str,
    page: &[u8],
    alloc: Global,
    errors: &mut E,
) -> Result<(), AllocError>
    ensures { IfOk result (λ _. TellsEach (heard (E.held errors.old) (E.failures errors.old))
        (heard (E.held errors.new) (E.failures errors.new)) (of_man kind name.now page.now)) }
{
    match kind {
        Macros::Manual => man_lint::tell_page(PROGRAM, name, page, alloc, errors),
        _ => Ok(()),
    }
}

/// Tells what is wrong with the tables of a page of this name.
fn tell_tables<E: Sink>(name: &str, tables: &Option<Tables>, errors: &mut E)
    ensures { TellsEach (heard (E.held errors.old) (E.failures errors.old))
        (heard (E.held errors.new) (E.failures errors.new)) (lines_of name.now tables.now) }
{
    match tables {
        Some(tables) => {
            tell_complaints(PROGRAM, name, tables.report, &tables.complaints, errors);
        }
        None => {}
    }
}

/// What is wrong with the tables of a page of these macros, if it has tables.
fn tables_of(
    job: &Job<'_>,
    kind: Macros,
    page: &[u8],
    alloc: Global,
) -> Result<Option<Tables>, AllocError>
    ensures { IfOk result (λ tables. AreAllShort page.now →
        AreTablesOf (has_tables page.now) (tables_job (asked_of job.now) kind) page.now tables) }
{
    if !has_tables(page) {
        return Ok(None);
    }
    let tables = look_at_tables(job, kind, page, alloc)?;
    Ok(Some(tables))
}

/// The same of a page that has tables.
fn look_at_tables(
    job: &Job<'_>,
    kind: Macros,
    page: &[u8],
    alloc: Global,
) -> Result<Tables, AllocError>
    ensures { IfOk result (λ tables. AreAllShort page.now →
        AreReportedOf (tables_job (asked_of job.now) kind) (converted Ascii page.now) tables) }
{
    let mut places = Places::new();
    let mut text = read_page(Text::over(page), STAGES, Target::Ascii, places.lend());
    match look_at(&mut text, Nowhere::new(), tables_job(job, kind), alloc)? {
        Some(tables) => Ok(tables),
        None => Err(AllocError),
    }
}

/// How tables are looked at: by the limits of the words, for their line, and in ASCII.
fn tables_job(job: &Job<'_>, kind: Macros) -> TablesJob
    ensures { result ≡ tables_job (asked_of job.now) kind }
{
    let limits = limits_of(job);
    TablesJob {
        formats: limits.formats,
        row: limits.row,
        line: cells_of(job, kind),
        fits: true,
        characters: None,
        files: 0,
    }
}
