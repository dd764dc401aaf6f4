//! A run over texts that are open.
ghost use Rattle.std.specs.Prelude.{◌≡◌, ◌++◌, IfErr, IfOk, IfSome, Some, length, map, true};
ghost use Rattle.nr_units.specs.Source.{Supply};
ghost use Rattle.std.specs.Option.{option_map};
ghost use Rattle.nr_command_options.specs.Files.{files_supply};
ghost use Rattle.program_options.specs.Job.{asked_of};
ghost use Rattle.program_plan.specs.Texts.{macro_names};
ghost use Rattle.program_command.specs.Own.{HasOwn, unshown_of};
ghost use Rattle.program_command.specs.Plan.{AreOptions, IsSelected, kind_of, plan_of};
ghost use Rattle.program_command.specs.Printing.{AreShort};
ghost use Rattle.program_command.specs.Program.{IsOfRun, Passes};
ghost use Rattle.program_command.specs.Running.{AreMacros, PrefixGives, IsReading, IsReported, IsWholeBut, Runs, files_of, first_of, is_for_others, text_of, under, with_named, MayLeaveOut};

use crate::ahead::read_prefix;
use crate::endings::{Ending, Place};
use crate::own::{own_cells, print_by_plan, unshown};
use crate::plan::{LOOKED_AT, Plan, kind_of, limits_of, options_of, plan_of};
use crate::printing::Means;
use crate::surroundings::Surroundings;
use document_printing::{PageEnd, Prefixed, Report};
use document_sources::{Folder, Joining, LeftOut, Limits, Omissions};
use nr_command_options::chain;
use nr_engine::{CountedAlloc, Desk, Options, Sink, Source};
use nr_page::Select;
use preconv_coding::{Coding, UnderCoding};
use program_options::Job;
use program_plan::{asks_for_others, text_before};
use std::alloc::AllocError;
use utf8_own_page::{Cells, MORE_LOOKED_AT};

/// The bytes of the longest line that names a text, and one more: a path of Linux has 4,095 at most.
const LONGEST_LINE: usize = 8_192;

/// How much is followed of lines that name texts: 64 of them, and 64 MiB.
const FOLLOWED: Limits = Limits {
    files: 64,
    bytes: 67_108_864,
};

/// What of a job's texts is read, and what of their pages goes out.
#[derive(Drop)]
pub(crate) struct Reading {
    /// The pages.
    pub select: Select,
    /// The coding of the texts; none where the first says it.
    pub coding: Option<Coding>,
}

/// How a page ended that was printed whole, but for these characters, if there are any.
fn printed<'a>(name: &'a str, unshown: Vec<u8>) -> Ending<'a>
    ensures run { IsOfRun result }
    ensures reported { IsWholeBut name.entry.now unshown.items result }
{
    if unshown.is_empty() {
        return Ending::Done;
    }
    Ending::Unshown(name, unshown)
}

/// What a report comes to, for texts of which the first has this name, and of which these characters are not shown.
fn ending_of<'a>(report: &Report, name: &'a str, unshown: Vec<u8>) -> Ending<'a>
    ensures run { IsOfRun result }
    ensures reported { IsReported name.entry.now unshown.items report.now result }
{
    let place = Place {
        name,
        line: report.line,
    };
    match report.outcome {
        PageEnd::Done => printed(name, unshown),
        PageEnd::Limit { which, .. } => Ending::Limit(place, which),
        PageEnd::NoRoom => Ending::NoRoom(place),
        PageEnd::ReadFault => Ending::ReadFault(place),
        PageEnd::TooLong => Ending::TooLong,
        PageEnd::WriteFault => Ending::WriteFault,
    }
}

/// The name of the first text.
fn first_name<'a>(job: &Job<'a>) -> &'a str
    ensures { result.now ≡ first_of (asked_of job.now).files }
{
    match job.files.first() {
        Some(name) => *name,
        None => "-",
    }
}

/// How many of the texts of a job are macro files.
pub(crate) fn macro_count(job: &Job<'_>) -> usize
    ensures { result ≡ length (macro_names (asked_of job.now)) }
{
    if job.folder.is_some() {
        job.macros.len()
    } else {
        0
    }
}

/// Runs a job over its texts, and flushes the output, after a fault too. Where there is a folder the pages may name texts of it.
/// Gives the output back.
pub(crate) fn run_texts<'a, T: Source + Drop, F: Folder + Drop, W: Sink + Drop>(
    job: &Job<'a>,
    reading: Reading,
    around: &Surroundings,
    texts: &mut [T],
    folder: Option<F>,
    output: W,
) -> (Ending<'a>, W)
    requires { IsReading (asked_of job.now) reading }
    ensures run { IsOfRun result.0 }
    ensures runs { Runs (asked_of job.now) around.now (files_of (asked_of job.now) (map T.supply texts.old))
        (text_of (asked_of job.now) reading.coding (option_map F.texts folder) (map T.supply texts.old))
        result.0 (W.held output) (W.held result.1) }
    ensures passed_on { Passes result.0 (W.passed_on result.1) }
{
    let count = macro_count(job).min(texts.len());
    let (macros, pages) = texts.split_at_mut(count);
    let pages = chain(pages);
    let (mut output, ran) = run_pages(job, reading, around, macros, (pages, folder), output);
    let ending = settled(ran);
    match output.flush() {
        Ok(()) => (ending, output),
        Err(_) => (Ending::WriteFault, output),
    }
}

/// How a run ended, for which there was enough memory or not.
fn settled<'a>(ran: Result<Ending<'a>, AllocError>) -> Ending<'a>
    ensures ended { IfOk ran.entry (λ ending. result ≡ ending) }
    ensures refused { IfErr ran.entry (λ _. result ≡ Ending.OutOfMemory) }
{
    match ran {
        Ok(ending) => ending,
        Err(_) => Ending::OutOfMemory,
    }
}

/// Runs a job over macro files and pages, which may name texts of a folder where there is one.
fn run_pages<'a, T: Source + Drop, S: Source + Drop, F: Folder + Drop, W: Sink + Drop>(
    job: &Job<'a>,
    reading: Reading,
    around: &Surroundings,
    macros: &mut [T],
    within: (S, Option<F>),
    output: W,
) -> (W, Result<Ending<'a>, AllocError>)
    requires { IsReading (asked_of job.now) reading }
    ensures run { IfOk result.1 IsOfRun }
    ensures runs { IfOk result.1 (λ ending. Runs (asked_of job.now) around.now (files_supply (map T.supply macros.old))
        (under reading.coding (with_named (option_map F.texts within.1) (S.supply within.0))) ending (W.held output)
        (W.held result.0)) }
    ensures unprinted { IfErr result.1 (λ _. result.0 ≡ output) }
{
    let (pages, folder) = within;
    match folder {
        None => run_all(job, reading, around, macros, pages, output),
        Some(folder) => run_within(job, reading, around, macros, (pages, folder), output),
    }
}

/// The same where there is a folder.
fn run_within<'a, T: Source + Drop, S: Source + Drop, F: Folder + Drop, W: Sink + Drop>(
    job: &Job<'a>,
    reading: Reading,
    around: &Surroundings,
    macros: &mut [T],
    within: (S, F),
    output: W,
) -> (W, Result<Ending<'a>, AllocError>)
    requires { IsReading (asked_of job.now) reading }
    ensures run { IfOk result.1 IsOfRun }
    ensures runs { IfOk result.1 (λ ending. Runs (asked_of job.now) around.now (files_supply (map T.supply macros.old))
        (under reading.coding (with_named (Some (F.texts within.1)) (S.supply within.0))) ending (W.held output)
        (W.held result.0)) }
    ensures unprinted { IfErr result.1 (λ _. result.0 ≡ output) }
{
    let (pages, folder) = within;
    let Ok(mut room) = vec![in around.alloc; 0u8; LONGEST_LINE] else {
        return (output, Err(AllocError));
    };
    let mut first = None;
    let reported = Omissions::over(&mut first);
    let pages = Joining::over(pages, folder, FOLLOWED, &mut room, reported, around.alloc);
    let (output, ran) = run_all(job, reading, around, macros, pages, output);
    match ran {
        Ok(ending) => (output, Ok(with_left_out(ending, first_name(job), first))),
        Err(error) => (output, Err(error)),
    }
}

/// How a run ended of which a text was left out, or none.
fn with_left_out<'a>(ending: Ending<'a>, name: &'a str, first: Option<LeftOut>) -> Ending<'a>
    ensures { MayLeaveOut name.entry.now ending.entry result }
{
    let Some(left) = first else {
        return ending;
    };
    match ending {
        Ending::Done | Ending::Unshown(_, _) => {
            let place = Place {
                name,
                line: left.line,
            };
            Ending::LeftOut(place, left.why)
        }
        other => other,
    }
}

/// Runs a job over its texts, macro files first. `AllocError` where there was not enough memory: then nothing is printed.
fn run_all<'a, T: Source + Drop, S: Source + Drop, W: Sink + Drop>(
    job: &Job<'a>,
    reading: Reading,
    around: &Surroundings,
    macros: &mut [T],
    pages: S,
    output: W,
) -> (W, Result<Ending<'a>, AllocError>)
    requires { IsReading (asked_of job.now) reading }
    ensures run { IfOk result.1 IsOfRun }
    ensures runs { IfOk result.1 (λ ending. Runs (asked_of job.now) around.now (files_supply (map T.supply macros.old))
        (under reading.coding (S.supply pages)) ending (W.held output) (W.held result.0)) }
    ensures unprinted { IfErr result.1 (λ _. result.0 ≡ output) }
{
    let Reading { select, coding } = reading;
    let mut text = under_coding(pages, coding);
    let mut first = Vec::new(around.alloc);
    let Ok(()) = read_prefix(&mut text, LOOKED_AT, &mut first) else {
        return (output, Err(AllocError));
    };
    if is_for_others(job, first.as_slice()) {
        return (output, Ok(Ending::NeedsOthers));
    }
    let most = looked_at(first.len());
    let Ok(()) = read_prefix(&mut text, most, &mut first) else {
        return (output, Err(AllocError));
    };
    let prefix = Prefixed::over(first.as_slice(), text);
    run_prefix(job, select, around, macros, prefix, output)
}

/// How many bytes of a text are looked at of which the first 64 KiB came, or these and no more.
fn looked_at(came: usize) -> usize {
    if came < LOOKED_AT {
        came
    } else {
        MORE_LOOKED_AT
    }
}

/// Whether words ask not to print a text that asks for other programs, as one does that begins with these bytes.
fn is_for_others(job: &Job<'_>, first: &[u8]) -> bool
    ensures { result ≡ is_for_others (asked_of job.now) first.now }
{
    job.plain.is_alone && asks_for_others(first)
}

/// Texts under the coding that is named for them, or under that which the first of them says.
pub(crate) fn under_coding<S: Source + Drop>(texts: S, coding: Option<Coding>) -> UnderCoding<S>
    ensures { ⟦<UnderCoding<S> as Source>⟧.supply result ≡ under coding (S.supply texts) }
{
    match coding {
        Some(coding) => UnderCoding::under(texts, coding),
        None => UnderCoding::over(texts),
    }
}

/// What a page is printed with.
#[derive(Drop)]
struct Ready {
    /// What is read before it.
    before: Vec<u8>,
    plan: Plan,
    /// The characters of its own table, if it has one.
    own: Option<Cells>,
    /// The names of the characters that are not shown.
    unshown: Vec<u8>,
    options: Options,
    desk: Desk,
}

/// Makes ready for pages that begin with these bytes. Nothing where a macro file fails.
fn make_ready<T: Source + Drop>(
    job: &Job<'_>,
    select: Select,
    around: &Surroundings,
    macros: &mut [T],
    prefix: &[u8],
) -> Result<Option<Ready>, AllocError>
    requires { IsSelected (asked_of job.now).pages select }
    ensures plan { IfOk result (λ made. IfSome made (λ ready. ready.plan
        ≡ plan_of (asked_of job.now) around.now (kind_of (asked_of job.now) prefix.now) prefix.now)) }
    ensures own { IfOk result (λ made. IfSome made (λ ready. AreShort ready.plan.stages prefix.now →
        HasOwn ready.plan prefix.now ready.own)) }
    ensures unshown { IfOk result (λ made. IfSome made (λ ready. AreShort ready.plan.stages prefix.now →
        ready.unshown.items ≡ unshown_of ready.plan prefix.now)) }
    ensures macros { IfOk result (λ made. IfSome made (λ ready. AreMacros (asked_of job.now)
        (kind_of (asked_of job.now) prefix.now) (files_supply (map T.supply macros.old)) ready.before.items)) }
    ensures options { IfOk result (λ made. IfSome made (λ ready. AreOptions (asked_of job.now) ready.plan ready.options)) }
    ensures limits { IfOk result (λ made. IfSome made (λ ready. ready.desk ≡ (asked_of job.now).limits)) }
{
    let kind = kind_of(job, prefix);
    let mut before = text_before(job, kind, around.alloc)?;
    if !add_all(&mut chain(macros), &mut before)? {
        return Ok(None);
    }
    let plan = plan_of(job, kind, around, prefix)?;
    let own = own_cells(&plan, prefix, around.alloc)?;
    let unshown = unshown(&own, &plan, prefix, around.alloc)?;
    let desk = Desk::new(&mut CountedAlloc::new(around.alloc), job.limits)?;
    let options = options_of(job, &plan, select);
    Ok(Some(Ready {
        before,
        plan,
        own,
        unshown,
        options,
        desk,
    }))
}

/// The same over pages of which the first bytes were read.
fn run_prefix<'a, 'p, T: Source + Drop, R: Source + Drop, W: Sink + Drop>(
    job: &Job<'a>,
    select: Select,
    around: &Surroundings,
    macros: &mut [T],
    prefix: Prefixed<'p, R>,
    output: W,
) -> (W, Result<Ending<'a>, AllocError>)
    requires { IsSelected (asked_of job.now).pages select }
    ensures run { IfOk result.1 IsOfRun }
    ensures prints { IfOk result.1 (λ ending. PrefixGives (asked_of job.now) around.now (files_supply (map T.supply macros.old))
        (⟦<Prefixed<'p, R> as Source>⟧.supply prefix.entry) ending (W.held output) (W.held result.0)) }
    ensures checks { (asked_of job.now).plain.checks ≡ true → result.0 ≡ output }
    ensures unprinted { IfErr result.1 (λ _. result.0 ≡ output) }
{
    let name = first_name(job);
    let first = prefix.first();
    let Ok(made) = make_ready(job, select, around, macros, first) else {
        return (output, Err(AllocError));
    };
    let Some(ready) = made else {
        return (output, Ok(Ending::ReadFault(Place { name, line: 0 })));
    };
    let Ready {
        before,
        plan,
        own,
        unshown,
        options,
        mut desk,
    } = ready;
    let means = Means {
        macros: &before,
        options: &options,
        limits: limits_of(job),
        alloc: around.alloc,
    };
    let (output, printed) = print_by_plan(prefix, &own, &plan, means, &mut desk, output);
    match printed {
        Ok(report) => (output, Ok(ending_of(&report, name, unshown))),
        Err(error) => (output, Err(error)),
    }
}

/// Adds what a source gives, to its end. Tells whether the source failed nowhere.
pub(crate) fn add_all<S: Source>(source: &mut S, text: &mut Vec<u8>) -> Result<bool, AllocError>
    ensures { IfOk result (λ whole. whole ≡ true → (q : Supply) → S.supply source.old ≡ Some q →
        text.new.items ≡ text.old.items ++ q.bytes) }
{
    for _ in 0..u64::MAX {
        match source.next() {
            Ok(Some(byte)) => text.push(byte)?,
            Ok(None) => return Ok(true),
            Err(_) => return Ok(false),
        }
    }
    Ok(false)
}
