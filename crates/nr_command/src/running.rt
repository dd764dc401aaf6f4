// A run of the program over given streams.
ghost use Rattle.std.specs.Prelude.{◌≡◌, ◌≢◌, ◌↔◌, IsTrue, IsErr, IfOk, OnErr};
ghost use Rattle.nr_machine.specs.declared.outcome.Outcome.{Outcome};
ghost use Rattle.nr_command.specs.Faults.{Tells, line_of};
ghost use Rattle.nr_command.specs.Running.{Ran, status_of, memory_line};

use super::faults::fault_line;
use nr_engine::{Desk, Fault, Options, Outcome, Sink, Source, format};
use std::alloc::AllocError;

/// Formats the input within the desk, flushes the output, writes the one line that reports a fault to
/// `errors`, where a further fault is ignored, and gives the status of the program: 0 done, 1 a limit
/// passed or the input too long, 3 read fault, 4 write fault. A fault of the flush makes it a write
/// fault, however the run ended.
///
/// Without a desk there was no memory: then it says so, and the status is 5. Nothing is read, and the
/// output is left alone.
///
/// Proved: A run over given streams comes to an outcome of `format`, or to a write fault where the flush failed; its
/// status and its line report that outcome.
/// Proved: Where a run over given streams ends with another status than 4 and 5, the output passed on all that was
/// printed. After a write fault too it is flushed: it passed on all that it took, or the flush failed and was
/// counted. (`run_over`, by `Ran` in Running.antt)
/// Proved: Status 5 comes of a run over given streams exactly where there was no desk; then nothing was read and
/// nothing printed.
/// Proved: Where the status is 0 nothing went to the error stream. (`run_over`; `run_words` in program.rt)
pub fn run_over<R: Source, W: Sink, E: Sink>(
    desk: Result<Desk, AllocError>,
    options: &Options,
    input: &mut R,
    output: &mut W,
    errors: &mut E,
) -> u8
    // The status and the line report the outcome of the run.
    ensures ran { IfOk desk (λ limits. (outcome : Outcome)
        × Ran limits options.now (R.supply input.old) (R.failures input.old) (R.failures input.new)
        (W.held output.old) (W.held output.new) (W.failures output.old) (W.failures output.new)
        (W.passed_on output.new) outcome
        × (result ≡ status_of outcome)
        × Tells (E.held errors.old) (E.held errors.new) (E.failures errors.old) (E.failures errors.new)
        (line_of outcome)) }
    ensures quiet { result ≡ 0 → errors.new ≡ errors.old }
    // Whatever was printed went on to where the output leads.
    ensures passed_on { result ≢ 4 → result ≢ 5 → IsTrue (W.passed_on output.new) }

    ensures refused { (result ≡ 5) ↔ IsErr desk }
    ensures untouched { OnErr desk ((input.new ≡ input.old) × (output.new ≡ output.old)) }
    ensures reported { OnErr desk (Tells (E.held errors.old) (E.held errors.new) (E.failures errors.old)
        (E.failures errors.new) memory_line) }
{
    match desk {
        Ok(mut desk) => {
            let outcome = run_desk(&mut desk, options, input, output);
            tell(outcome, errors)
        }
        Err(_) => out_of_memory(errors),
    }
}

/// Formats the input within the desk, and flushes the output, after a write fault too.
pub(crate) fn run_desk<R: Source, W: Sink>(
    desk: &mut Desk,
    options: &Options,
    input: &mut R,
    output: &mut W,
) -> Outcome
    ensures ran { Ran desk.old options.now (R.supply input.old) (R.failures input.old) (R.failures input.new)
        (W.held output.old) (W.held output.new) (W.failures output.old) (W.failures output.new)
        (W.passed_on output.new) result }
    ensures passed_on { result ≢ Outcome.WriteFault → IsTrue (W.passed_on output.new) }
{
    let mut moves = 0;
    let outcome = format(desk.lend(), options, input, output, &mut moves);
    match output.flush() {
        Ok(()) => outcome,
        Err(Fault) => Outcome::WriteFault,
    }
}

/// Tells an outcome, as far as `errors` takes its line, and gives its status.
pub(crate) fn tell<E: Sink>(outcome: Outcome, errors: &mut E) -> u8
    ensures status { result ≡ status_of outcome }
    ensures reported { Tells (E.held errors.old) (E.held errors.new) (E.failures errors.old)
        (E.failures errors.new) (line_of outcome) }
    ensures quiet { outcome ≡ Outcome.Done → errors.new ≡ errors.old }
{
    let _ = fault_line(&outcome, errors);
    status(outcome)
}

/// The status of an outcome.
fn status(outcome: Outcome) -> u8
    ensures { result ≡ status_of outcome }
{
    match outcome {
        Outcome::Done => 0,
        Outcome::Limit { .. } | Outcome::TooLong => 1,
        Outcome::ReadFault { .. } => 3,
        Outcome::WriteFault => 4,
    }
}

/// Tells want of memory, as far as `errors` takes the line, and gives its status.
pub fn out_of_memory<E: Sink>(errors: &mut E) -> u8
    ensures status { result ≡ 5 }
    ensures reported { Tells (E.held errors.old) (E.held errors.new) (E.failures errors.old)
        (E.failures errors.new) memory_line }
{
    let _ = errors.put(b"nroff: out of memory\n");
    5
}
