//! The program over its words.
ghost use Rattle.std.specs.Prelude.{◌≡◌, ◌⊎◌, IfErr, IfOk, OnOk, false, map, true};
ghost use Rattle.std.specs.Option.{option_map};
ghost use Rattle.nr_command.specs.Opening.{AreOpen, Asks};
ghost use Rattle.nr_command.specs.Program.{IsRefused};
ghost use Rattle.nr_command_options.specs.Inputs.{readings};
ghost use Rattle.nr_command_options.specs.Job.{asked_of as texts_asked};
ghost use Rattle.filters.specs.Endings.{Tells};
ghost use Rattle.program_options.specs.Job.{asked_of, texts};
ghost use Rattle.program_options.specs.Reading.{asked};
ghost use Rattle.program_command.specs.declared.endings.Ending.{Ending};
ghost use Rattle.program_command.specs.Endings.{line_of, status_of};
ghost use Rattle.program_plan.specs.Texts.{readings_of};
ghost use Rattle.program_command.specs.Plan.{IsSelected};
ghost use Rattle.program_command.specs.Program.{Comes, ComesTo, ComesToPages, IsOfRun, IsUnopened, Opens, Passes, is_silent};
ghost use Rattle.program_command.specs.Running.{IsNamed, IsReading};
ghost use Rattle.program_command.specs.Warnings.{heard};

use crate::endings::{Ending, tell};
use crate::reaching::{Reach, Reaches};
use crate::running::Reading;
use crate::surroundings::Surroundings;
use crate::warnings::run_warned;
use command_line::{SystemWords, words_of};
use nr_command::{BUFFER_SIZE, Disk, Heap, Memory, NotRun, Opener, Tree, open_texts, text_count};
use nr_command_options::Job as Texts;
use nr_engine::{Fault, Sink, ToWriter};
use nr_page::Select;
use preconv_coding::Coding;
use program_macros::VERSION;
use program_options::{Case, Job, Says, Usage, read_words};
use program_plan::{first_missing, texts_of};
use std::alloc::{AllocError, Global};
use std::io::{BufWriter, Read, Write};
use std::rt::{Env, Files};

/// The bytes of the buffer of the output.
const OUTPUT_SIZE: usize = 8_192;

/// How the program is called.
const HELP: &[u8] = b"\
nulbiko [-man | -mdoc | -mandoc | -ms | -me | -ml | -m NAME] [-T utf8 | latin1 | ascii] [-w CELLS] [-p] [-o PAGES]\n\
        [-b] [--faces on | off | auto | none] [--alone] [--within FOLDER] [FILE ..]\n\
nulbiko --version | --help\n";

/// Runs the program in a system: over its words, its files and these streams. Gives its status. `shows` says that the
/// output is a terminal.
pub fn run_program<R: Env + Files, I: Read + Copy + Drop, W: Write + Drop, E: Write + Drop>(
    system: &R,
    alloc: Global,
    input: I,
    output: W,
    errors: E,
    shows: bool,
) -> u8 {
    let mut errors = ToWriter::over(errors);
    let Ok(owned) = words_of(&SystemWords::new(system, alloc), alloc) else {
        return tell(Ending::OutOfMemory, &mut errors);
    };
    let Ok(words) = borrowed(&owned, alloc) else {
        return tell(Ending::OutOfMemory, &mut errors);
    };
    let Ok(output) = BufWriter::with_capacity(alloc, OUTPUT_SIZE, output) else {
        return tell(Ending::OutOfMemory, &mut errors);
    };
    let output = ToWriter::over(output);
    let around = Surroundings::of(system, alloc, shows);
    let mut buffers = Vec::new(alloc);
    let mut reach = Reach {
        system,
        alloc,
        opener: Disk::new(Tree::new(system), input),
    };
    let (status, _) = run_words(
        &around,
        &words,
        &mut reach,
        &mut buffers,
        output,
        &mut errors,
    );
    status
}

/// The words as they are borrowed.
fn borrowed(words: &[String], alloc: Global) -> Result<Vec<&str>, AllocError> {
    let mut borrowed = Vec::new(alloc);
    for word in words {
        borrowed.push(word.as_str())?;
    }
    Ok(borrowed)
}

/// Runs the program over the words after its name, and gives its status: 0 done, 1 a limit, 2 a bad word, 3 a text that
/// can't be opened or read, 4 the output can't be written, 5 there is not enough memory, 6 other programs are needed. The
/// output comes back.
///
/// All texts are opened before the first is read, each over its part of `buffers`.
///
/// Proved: Status and line report how it ended, and the line that place in a text; the line goes out whole, or a
/// prefix of it where a call failed. (`run_words`, `tell` in endings.rt)
/// Proved: Where a word is bad that word is reported, nothing is opened, and nothing printed.
/// Proved: All texts of a job are opened, each once and in order, before the first is read; or the first that can't
/// be is reported, those before it were opened, and none after it was asked for; or none was asked for.
/// Proved: Where no write fault is reported, all that was printed was passed on.
/// Proved: Where words ask for it, what is reported before that line is what is wrong with the pages of the job, each as it
/// stands by itself and in their order: mdoc's complaints of a manual page, by the definition of mdoc_command, and those of its
/// tables, by that of tbl_command, each once, with the name of its file and its line, up to 64 of a text and of its tables. Only of
/// a text a call of which may fail, or that has 64 MiB or more, may it be reported instead that it wasn't looked at. Where no word
/// asks for it nothing is reported. (`Warned` of Program.antt, `TellsTexts` of Warnings.antt)
/// Proved: **What a reader gets of the program.** Where words ask for pages with what is struck over, what goes out is the
/// document of document_printing: of the text that the opened files make one after the other, where a word names a
/// folder with the texts of it that lines `.so` name in the places of these, under the coding that a word or the text
/// names, after what words set and macro files, through the stages that words or the text ask for, in the table of
/// characters that `print_by_plan` chooses, for the first page, the pages, the looks and the limits of the words. Status
/// and line report how that document ended, and the line of the text that was read last, or the first text of the folder
/// that was left out, or the characters that are not shown: those that the table of its own has no room for, or that are shown
/// by their numbers in ASCII and Latin-1. So it is where the text and what each stage makes of it have less than 2^40 bytes; the text breaks
/// off nowhere. (`run_words`; `ComesToPages` in Program.antt, `Runs` in Running.antt, `Printed` in Printing.antt)
/// Proved: Nothing goes out where a job isn't run, where a macro file fails or memory is wanting before its page, and
/// where texts are only checked. Where words ask not to print a text that asks for other programs, 6 tells such a text,
/// and nothing goes out.
pub fn run_words<'b, O: Opener<'b> + Reaches, W: Sink + Drop, E: Sink>(
    around: &Surroundings,
    words: &[&str],
    opener: &mut O,
    buffers: &'b mut Vec<u8>,
    output: W,
    errors: &mut E,
) -> (u8, W)
    ensures { (ending : Ending) × (result.0 ≡ status_of ending)
        × (reported : E) × (is_silent (asked (texts words.now)) ≡ true → reported ≡ errors.old)
        × Tells (E.held reported) (E.held errors.new) (E.failures reported) (E.failures errors.new) (line_of ending)
        × Comes (asked (texts words.now)) around.now (O.may_come opener.old) (O.texts_in opener.old) (O.asked opener.old)
        (O.asked opener.new) (opener.new ≡ opener.old) (result.1 ≡ output) (W.held output) (W.held result.1) (W.passed_on result.1)
        (heard (E.held errors.old) (E.failures errors.old)) (heard (E.held reported) (E.failures reported)) ending }
{
    let (ending, output) = ending_of(around, words, opener, buffers, output, errors);
    (tell(ending, errors), output)
}

/// How the program ends over these words.
fn ending_of<'a, 'b, O: Opener<'b> + Reaches, W: Sink + Drop, E: Sink>(
    around: &Surroundings,
    words: &'a [&'a str],
    opener: &mut O,
    buffers: &'b mut Vec<u8>,
    output: W,
    errors: &mut E,
) -> (Ending<'a>, W)
    ensures comes { Comes (asked (texts words.now)) around.now (O.may_come opener.old) (O.texts_in opener.old)
        (O.asked opener.old) (O.asked opener.new) (opener.new ≡ opener.old) (result.1 ≡ output) (W.held output) (W.held result.1)
        (W.passed_on result.1) (heard (E.held errors.old) (E.failures errors.old))
        (heard (E.held errors.new) (E.failures errors.new)) result.0 }
    ensures silent { is_silent (asked (texts words.now)) ≡ true → errors.new ≡ errors.old }
{
    match read_words(words) {
        Ok(job) => run_job(around, &job, opener, buffers, output, errors),
        Err(usage) => (Ending::BadWord(usage), output),
    }
}

/// Runs a job.
fn run_job<'a, 'b, O: Opener<'b> + Reaches, W: Sink + Drop, E: Sink>(
    around: &Surroundings,
    job: &Job<'a>,
    opener: &mut O,
    buffers: &'b mut Vec<u8>,
    output: W,
    errors: &mut E,
) -> (Ending<'a>, W)
    ensures opens { Opens (O.may_come opener.old) (O.asked opener.old) (O.asked opener.new)
        (readings_of (asked_of job.now)) result.0 }
    ensures pages { ComesToPages (O.may_come opener.old) (O.texts_in opener.old) (asked_of job.now) around.now result.0 (W.held output)
        (W.held result.1) (heard (E.held errors.old) (E.failures errors.old))
        (heard (E.held errors.new) (E.failures errors.new)) }
    ensures prints { (result.1 ≡ output) ⊎ Passes result.0 (W.passed_on result.1) }
    ensures silent { (asked_of job.now).plain.warns ≡ false → errors.new ≡ errors.old }
{
    match job.plain.says {
        Some(says) => say(says, output),
        None => format_job(around, job, opener, buffers, output, errors),
    }
}

/// Runs a job that prints pages: finds the folder that words name, opens its texts, and reads them.
fn format_job<'a, 'b, O: Opener<'b> + Reaches, W: Sink + Drop, E: Sink>(
    around: &Surroundings,
    job: &Job<'a>,
    opener: &mut O,
    buffers: &'b mut Vec<u8>,
    output: W,
    errors: &mut E,
) -> (Ending<'a>, W)
    ensures opens { Opens (O.may_come opener.old) (O.asked opener.old) (O.asked opener.new)
        (readings_of (asked_of job.now)) result.0 }
    ensures pages { ComesTo (O.may_come opener.old) (O.texts_in opener.old) (asked_of job.now) around.now result.0 (W.held output)
        (W.held result.1) (heard (E.held errors.old) (E.failures errors.old))
        (heard (E.held errors.new) (E.failures errors.new)) }
    ensures prints { (result.1 ≡ output) ⊎ Passes result.0 (W.passed_on result.1) }
    ensures silent { (asked_of job.now).plain.warns ≡ false → errors.new ≡ errors.old }
{
    let texts = texts_of(job);
    match ready_of(job, opener) {
        Ok(ready) => match open_all(&texts, around.alloc, opener, buffers) {
            Ok(opened) => run_warned(job, around, ready, opened, output, errors),
            Err(why) => match why {
                NotRun::CannotOpen(input) => (Ending::CannotOpen(input), output),
                NotRun::OutOfMemory => (Ending::OutOfMemory, output),
            },
        },
        Err(ending) => (ending, output),
    }
}

/// How the texts of a job are read, and the folder whose texts they may name, if words name one; or why it isn't run.
fn ready_of<'a, O: Reaches>(
    job: &Job<'a>,
    opener: &O,
) -> Result<(Reading, Option<O::Folder>), Ending<'a>>
    ensures read { IfOk result (λ ready. IsReading (asked_of job.now) ready.0) }
    ensures folder { IfOk result (λ ready. option_map O.Folder.texts ready.1
        ≡ option_map (O.texts_in opener.now) (asked_of job.now).within) }
    ensures unopened { IfErr result IsUnopened }
{
    let reading = read_of(job)?;
    let folder = folder_of(job, opener)?;
    Ok((reading, folder))
}

/// The pages that a job prints and the coding of its texts, or why it isn't run: the list of pages is bad, the coding is
/// not known, or macros are not in the program.
fn read_of<'a>(job: &Job<'a>) -> Result<Reading, Ending<'a>>
    ensures read { IfOk result (λ reading. IsReading (asked_of job.now) reading) }
    ensures unopened { IfErr result IsUnopened }
{
    let select = match selected(job) {
        Ok(select) => select,
        Err(usage) => return Err(Ending::BadWord(usage)),
    };
    let coding = match coding_of(job) {
        Ok(coding) => coding,
        Err(usage) => return Err(Ending::BadWord(usage)),
    };
    if job.folder.is_none()
        && let Some(name) = first_missing(job.macros.as_slice())
    {
        return Err(Ending::NoMacros(name));
    }
    Ok(Reading { select, coding })
}

/// Prints the version, or how the program is called.
fn say<'a, W: Sink>(says: Says, output: W) -> (Ending<'a>, W)
    ensures run { IsOfRun result.0 }
    ensures passed_on { Passes result.0 (W.passed_on result.1) }
{
    let mut output = output;
    let put = match says {
        Says::Version => output.put(VERSION),
        Says::Help => output.put(HELP),
    };
    match output.flush() {
        Ok(()) => (said(put), output),
        Err(_) => (Ending::WriteFault, output),
    }
}

/// How the program ended that put a text, which was passed on.
fn said<'a>(put: Result<(), Fault>) -> Ending<'a>
    ensures { IsOfRun result }
{
    match put {
        Ok(()) => Ending::Done,
        Err(_) => Ending::WriteFault,
    }
}

/// The pages that a job prints.
fn selected<'a>(job: &Job<'a>) -> Result<Select, Usage<'a>>
    ensures { IfOk result (IsSelected (asked_of job.now).pages) }
{
    let Some(pages) = job.pages else {
        return Ok(Select::all());
    };
    match Select::parse(pages.as_bytes()) {
        Ok(select) => Ok(select),
        Err(_) => Err(Usage {
            case: Case::BadValue,
            word: pages,
        }),
    }
}

/// The coding that a job names.
fn coding_of<'a>(job: &Job<'a>) -> Result<Option<Coding>, Usage<'a>>
    ensures { IfOk result (IsNamed (asked_of job.now).coding) }
{
    let Some(name) = job.coding else {
        return Ok(None);
    };
    match Coding::named(name.as_bytes()) {
        Some(coding) => Ok(Some(coding)),
        None => Err(Usage {
            case: Case::BadValue,
            word: name,
        }),
    }
}

/// The folder whose texts the pages of a job may name, if words name one.
fn folder_of<'a, O: Reaches>(job: &Job<'a>, opener: &O) -> Result<Option<O::Folder>, Ending<'a>>
    ensures folder { IfOk result (λ folder. option_map O.Folder.texts folder
        ≡ option_map (O.texts_in opener.now) (asked_of job.now).within) }
    ensures unopened { IfErr result IsUnopened }
{
    let Some(path) = job.within else {
        return Ok(None);
    };
    match opener.folder(path) {
        Ok(folder) => Ok(Some(folder)),
        Err(_) => Err(Ending::NoFolder(path)),
    }
}

/// Opens texts, each over its part of `buffers`.
fn open_all<'a, 'b, O: Opener<'b>>(
    texts: &Texts<'a>,
    alloc: Global,
    opener: &mut O,
    buffers: &'b mut Vec<u8>,
) -> Result<Vec<O::Text>, NotRun<'a>>
    ensures opened { IfOk result (λ opened. AreOpen (O.may_come opener.old) (readings (texts_asked texts.now))
        (map O.Text.supply opened.items)) }
    ensures asked { OnOk result
        (Asks (O.asked opener.old) (O.asked opener.new) (readings (texts_asked texts.now))) }
    ensures refused { IfErr result (λ why. IsRefused (O.may_come opener.old) (O.asked opener.old)
        (O.asked opener.new) (readings (texts_asked texts.now)) why) }
{
    let mut memory = Heap::new(alloc);
    *buffers = memory.bytes(text_count(texts).saturating_mul(BUFFER_SIZE))?;
    open_texts(&mut memory, opener, texts, buffers.as_mut_slice())
}
