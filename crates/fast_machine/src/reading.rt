//! Many moves that read, in one call.
ghost use Rattle.std.specs.Prelude.{◌≡◌, ◌≤◌, true, None};
ghost use Rattle.nr_reading.specs.declared.event.Event.TheVariants as events;
ghost use Rattle.nr_formatter.specs.declared.tasks.Task.TheVariants as tasks;
ghost use Rattle.nr_machine.specs.Holding.{shape};
ghost use Rattle.fast_machine.specs.Running.{MakesInPlace, MakesReading};

use nr_formatter::tasks::Task;
use nr_input::Event;
use nr_machine::Engine;
use nr_reading::{Mode, PendingAct};
use nr_units::source::Source;

/// Whether the input is read next.
#[inline(always)]
pub(crate) fn reads_next(engine: &Engine) -> bool
    ensures springs { result ≡ true → engine.now.formatter.springs ≡ None }
    ensures event { result ≡ true → engine.now.formatter.event ≡ events.Nothing }
    ensures task { result ≡ true → engine.now.formatter.task ≡ tasks.Read }
{
    if engine.formatter.springs.is_some() {
        return false;
    }
    match (engine.formatter.event, engine.formatter.task) {
        (Event::Nothing, Task::Read) => true,
        _ => false,
    }
}

/// Whether an item is looked at next, and nothing is to be done before.
#[inline(always)]
pub fn reads_on(engine: &Engine) -> bool {
    let pending_act = engine.formatter.reader.half.reading.pending_act;
    match (engine.formatter.event, engine.formatter.task, pending_act) {
        (Event::Nothing, Task::Read, PendingAct::Look) => true,
        _ => false,
    }
}

/// Items that lie in a row are read, up to the first that tells something or after which something is pending. Tells how many
/// moves that was.
#[inline(always)]
fn read_run<R: Source>(engine: &mut Engine, input: &mut R) -> u128
    ensures reads { MakesReading result (shape engine.old) (shape engine.new) (R.supply input.old)
        (R.supply input.new) (R.failures input.old) (R.failures input.new) }
    ensures few { result ≤ 65542 }
{
    if !reads_next(engine) {
        return 0;
    }
    let formatter = &mut engine.formatter;
    let run = fast_input::read_next(
        &mut engine.place,
        &mut formatter.reader,
        &mut formatter.store,
        input,
    );
    engine.formatter.event = run.event;
    engine.formatter.fit_memory();
    run.moves as u128
}

/// The lines of a definition that the source has at hand are added to its text, if the input is read next. Tells how many
/// moves that was.
#[inline(always)]
fn read_body_lines<R: Source>(engine: &mut Engine, input: &mut R) -> u128
    ensures reads { MakesReading result (shape engine.old) (shape engine.new) (R.supply input.old)
        (R.supply input.new) (R.failures input.old) (R.failures input.new) }
    ensures few { result ≤ 32000 }
{
    if !reads_next(engine) {
        return 0;
    }
    let formatter = &mut engine.formatter;
    let run = fast_input::read_body_lines(
        &mut engine.place,
        &mut formatter.reader,
        &mut formatter.store,
        input,
    );
    engine.formatter.event = run.event;
    engine.formatter.fit_memory();
    run.moves as u128
}

/// The rest of a line that does nothing is read, if the source has it at hand and the input is read next. Tells how many moves
/// that was.
#[inline(always)]
fn read_dropped_line<R: Source>(engine: &mut Engine, input: &mut R) -> u128
    ensures reads { MakesReading result (shape engine.old) (shape engine.new) (R.supply input.old)
        (R.supply input.new) (R.failures input.old) (R.failures input.new) }
    ensures few { result ≤ 16000 }
{
    if !reads_next(engine) {
        return 0;
    }
    let formatter = &mut engine.formatter;
    let run = fast_input::read_dropped_line(
        &mut engine.place,
        &mut formatter.reader,
        &formatter.store,
        input,
    );
    engine.formatter.event = run.event;
    engine.formatter.fit_memory();
    run.moves as u128
}

/// The lines of a definition and the rest of a line that does nothing are read, as far as the source has them at hand. Tells how
/// many moves that was.
#[inline(always)]
fn read_quiet_lines<R: Source>(engine: &mut Engine, input: &mut R) -> u128
    ensures reads { MakesReading result (shape engine.old) (shape engine.new) (R.supply input.old)
        (R.supply input.new) (R.failures input.old) (R.failures input.new) }
    ensures few { result ≤ 32000 }
{
    match engine.formatter.reader.half.reading.mode {
        Mode::Body | Mode::BodyStart(_) => read_body_lines(engine, input),
        Mode::Drop => read_dropped_line(engine, input),
        _ => 0,
    }
}

/// As `read_run`, but first the lines are read that do little. Tells how many moves that was.
#[inline(always)]
pub(crate) fn read_source<R: Source>(engine: &mut Engine, input: &mut R) -> u128
    ensures reads { MakesReading result (shape engine.old) (shape engine.new) (R.supply input.old)
        (R.supply input.new) (R.failures input.old) (R.failures input.new) }
    ensures few { result ≤ 97542 }
{
    let lines = read_quiet_lines(engine, input);
    let run = read_run(engine, input);
    lines + run
}

/// What levels bring is read, up to what tells something and to text, if the input is read next. Tells how many moves that was.
#[inline(always)]
pub(crate) fn read_levels_once(engine: &mut Engine) -> u128
    ensures reads { MakesInPlace result (shape engine.old) (shape engine.new) }
    ensures few { result ≤ 458757 }
{
    if !reads_next(engine) {
        return 0;
    }
    let formatter = &mut engine.formatter;
    let run = fast_input::read_levels(
        &mut formatter.reader,
        &mut formatter.store,
        &mut engine.resumed,
    );
    engine.formatter.event = run.event;
    engine.formatter.fit_memory();
    run.moves as u128
}
