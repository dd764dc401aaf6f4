// The program over its words.
ghost use Rattle.std.specs.Prelude.{◌≡◌, ◌≢◌, ◌==◌, Ok, Err, IfOk, IfErr, OnErr, IsTrue, List, ℕ, map, string_bytes};
ghost use Rattle.nr_units.specs.Failures.{counted_if};
ghost use Rattle.nr_machine.specs.declared.outcome.Outcome.{Outcome};
ghost use Rattle.nr_command_options.specs.declared.job.Job.{Job};
ghost use Rattle.nr_command_options.specs.Job.{asked_of, texts};
ghost use Rattle.nr_command_options.specs.Usage.{usage_text};
ghost use Rattle.nr_command_options.specs.Arguments.{Complaint, IsAnswer};
ghost use Rattle.nr_command.specs.Faults.{Tells};
ghost use Rattle.nr_command.specs.Memory.{Takes};
ghost use Rattle.nr_command.specs.Program.{Comes, Ends, lacks_memory, line_of_end, status_of_end};

use super::disk::{Disk, Tree};
use super::memory::{Heap, Memory};
use super::opening::{BUFFER_SIZE, NotRun, Opener, open_texts, text_count, unopened_line};
use super::running::{out_of_memory, run_desk, tell};
use command_line::{SystemWords, words_of};
use nr_command_options::{Job, Usage, chain, read_words, usage_line};
use nr_engine::{Outcome, Sink, ToWriter};
use std::alloc::{AllocError, Global};
use std::io::{BufWriter, Read, Write};
use std::rt::{Env, Files};

/// The bytes of the buffer of the output.
const OUTPUT_SIZE: usize = 8_192;

/// Runs the program in a system: over its words, its files and these streams. Gives its status.
pub fn run_program<R: Env + Files, I: Read + Copy + Drop, W: Write + Drop, E: Write + Drop>(
    system: &R,
    alloc: Global,
    input: I,
    output: W,
    errors: E,
) -> u8 {
    let mut errors = ToWriter::over(errors);
    let Ok(owned) = words_of(&SystemWords::new(system, alloc), alloc) else {
        return out_of_memory(&mut errors);
    };
    let Ok(words) = borrowed(&owned, alloc) else {
        return out_of_memory(&mut errors);
    };
    let Ok(output) = BufWriter::with_capacity(alloc, OUTPUT_SIZE, output) else {
        return out_of_memory(&mut errors);
    };
    let mut output = ToWriter::over(output);
    let mut memory = Heap::new(alloc);
    let mut buffers = Vec::new(alloc);
    let mut disk = Disk::new(Tree::new(system), input);
    run_words(
        &mut memory,
        &words,
        &mut disk,
        &mut buffers,
        &mut output,
        &mut errors,
    )
}

/// The words as they are borrowed.
fn borrowed(words: &[String], alloc: Global) -> Result<Vec<&str>, AllocError>
    ensures { IfOk result (λ borrowed. texts borrowed.items ≡ map string_bytes words.now) }
{
    let mut borrowed = Vec::new(alloc);
    for word in words {
        borrowed.push(word.as_str())?;
    }
    Ok(borrowed)
}

/// Runs the program over the words after its name, and gives its status: 2 where a word is bad, and
/// then nothing is opened, read or written but the line that reports the first bad one; 3 where a text
/// can't be opened, the first of which is reported; 5 where memory was refused, which is reported; and else that
/// of `run_over`.
///
/// First memory is taken for the buffers of the texts, which come to stand in `buffers`, and for the list
/// of the texts; then the texts are opened; then the desk is taken; and then the first byte is read.
///
/// Proved: A bad word gives status 2 and the line of the first one, nothing is printed or opened then, and no other
/// run has status 2.
/// Proved: Good words ask for a job, which comes to one of three ends: the first text that can't be opened, want of
/// memory, or the outcome of a run over its texts as the one input that they make; status and line report which.
/// (`run_words`, by `Comes` in Program.antt)
/// Proved: A read fault is reported where a call of one of the job's texts failed, and nowhere else. (`run_words`, by
/// `Comes` in Program.antt)
/// Proved: Want of memory is reported exactly where a call for memory was refused; then the status is 5, the line
/// says so, and nothing is printed. (`run_words`, `open_texts` in opening.rt; `Memory` in memory.rt counts refused
/// calls)
/// Proved: For a job memory is asked for in this order: 8 KiB for each of its texts, room for the list of them, and,
/// once all of them are open, a desk under its limits. No text is opened before the first two are there, nothing else
/// is asked for, and nothing at all where a word is bad. (`run_words`, by `Takes` in Memory.antt, for whatever memory
/// tells what it was asked for)
pub fn run_words<'b, M: Memory, O: Opener<'b>, W: Sink, E: Sink>(
    memory: &mut M,
    words: &[&str],
    opener: &mut O,
    buffers: &'b mut Vec<u8>,
    output: &mut W,
    errors: &mut E,
) -> u8
    ensures bad_word { (complaint : Complaint) → IsAnswer (texts words.now) (Err complaint) → (result ≡ 2)
        × Tells (E.held errors.old) (E.held errors.new) (E.failures errors.old) (E.failures errors.new)
        (usage_text complaint.case complaint.word) }
    ensures usage { result ≡ 2 → (complaint : Complaint) × IsAnswer (texts words.now) (Err complaint) }
    ensures unwritten { result ≡ 2 → output.new ≡ output.old }
    ensures unopened { result ≡ 2 → opener.new ≡ opener.old }
    ensures untaken { result ≡ 2 → memory.new ≡ memory.old }

    // Else the words ask for a job, and it comes to its end.
    ensures ran { result ≢ 2 → (job : Job) × IsAnswer (texts words.now) (Ok (asked_of job))
        × Comes O.Text.supply O.Text.failures (O.may_come opener.old) (O.asked opener.old)
        (O.asked opener.new) (M.asked memory.old) (M.asked memory.new) job
        (W.held output.old) (W.held output.new) (W.failures output.old) (W.failures output.new)
        (W.passed_on output.new)
        (E.held errors.old) (E.held errors.new) (E.failures errors.old) (E.failures errors.new) result }
    ensures quiet { result ≡ 0 → errors.new ≡ errors.old }

    // Want of memory is reported where memory was refused, and nowhere else.
    ensures memory { M.refusals memory.new ≡ counted_if (result == 5) (M.refusals memory.old) }
{
    match read_words(words) {
        Ok(job) => run_job(memory, &job, opener, buffers, output, errors),
        Err(usage) => refuse_word(&usage, errors),
    }
}

/// Tells a bad word, as far as `errors` takes its line, and gives the status of the program.
fn refuse_word<E: Sink>(usage: &Usage<'_>, errors: &mut E) -> u8
    ensures status { result ≡ 2 }
    ensures reported { Tells (E.held errors.old) (E.held errors.new) (E.failures errors.old)
        (E.failures errors.new) (usage_text usage.now.case usage.now.word.now) }
{
    let _ = usage_line(usage, errors);
    usage.status()
}

/// Runs a job, reports how it ended, as far as `errors` takes the line, and gives the status of the
/// program.
fn run_job<'b, M: Memory, O: Opener<'b>, W: Sink, E: Sink>(
    memory: &mut M,
    job: &Job<'_>,
    opener: &mut O,
    buffers: &'b mut Vec<u8>,
    output: &mut W,
    errors: &mut E,
) -> u8
    ensures ran { Comes O.Text.supply O.Text.failures (O.may_come opener.old) (O.asked opener.old)
        (O.asked opener.new) (M.asked memory.old) (M.asked memory.new) job.now
        (W.held output.old) (W.held output.new) (W.failures output.old) (W.failures output.new)
        (W.passed_on output.new)
        (E.held errors.old) (E.held errors.new) (E.failures errors.old) (E.failures errors.new) result }
    ensures not_bad { result ≢ 2 }
    ensures quiet { result ≡ 0 → errors.new ≡ errors.old }
    ensures memory { M.refusals memory.new ≡ counted_if (result == 5) (M.refusals memory.old) }
{
    match outcome_of(memory, job, opener, buffers, output) {
        Ok(outcome) => tell(outcome, errors),
        Err(why) => tell_not_run(&why, errors),
    }
}

/// Runs a job. All memory that it takes is taken here, before its first byte is read.
fn outcome_of<'a, 'b, M: Memory, O: Opener<'b>, W: Sink>(
    memory: &mut M,
    job: &Job<'a>,
    opener: &mut O,
    buffers: &'b mut Vec<u8>,
    output: &mut W,
) -> Result<Outcome, NotRun<'a>>
    ensures ends { Ends O.Text.supply O.Text.failures (O.may_come opener.old) (O.asked opener.old)
        (O.asked opener.new) job.now
        (W.held output.old) (W.held output.new) (W.failures output.old) (W.failures output.new)
        (W.passed_on output.new) result }
    ensures takes { Takes (M.asked memory.old) (M.asked memory.new) (O.asked opener.old)
        (O.asked opener.new) job.now result }
    ensures memory { M.refusals memory.new ≡ counted_if (lacks_memory result) (M.refusals memory.old) }
{
    let len = text_count(job).saturating_mul(BUFFER_SIZE);
    *buffers = memory.bytes(len)?;
    let mut texts = open_texts(memory, opener, job, buffers.as_mut_slice())?;
    let mut desk = memory.desk(job.limits)?;
    let mut input = chain(&mut texts);
    Ok(run_desk(&mut desk, &job.options, &mut input, output))
}

/// Tells why a job is not run, as far as `errors` takes the line, and gives the status of the program.
fn tell_not_run<E: Sink>(why: &NotRun<'_>, errors: &mut E) -> u8
    ensures status { result ≡ status_of_end (Err why.now) }
    ensures reported { Tells (E.held errors.old) (E.held errors.new) (E.failures errors.old)
        (E.failures errors.new) (line_of_end (Err why.now)) }
{
    match why {
        NotRun::CannotOpen(input) => {
            let _ = unopened_line(input, errors);
            3
        }
        NotRun::OutOfMemory => out_of_memory(errors),
    }
}
