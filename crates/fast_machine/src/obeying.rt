//! Requests that only set or make space: many moves in one call.
ghost use Rattle.std.specs.Prelude.{◌≡◌, ◌<◌, ◌≤◌, false};
ghost use Rattle.nr_reading.specs.declared.event.Event.TheVariants as events;
ghost use Rattle.nr_formatter.specs.Many.Obeying.{is_spacing};
ghost use Rattle.nr_machine.specs.Holding.{shape, ReadsNext};
ghost use Rattle.fast_machine.specs.Running.{MakesInPlace, MakesReading};

use crate::reading::{read_levels_once, reads_next};
use nr_input::{Event, Question};
use nr_machine::Engine;
use nr_units::source::Source;

/// The most lines of requests that are acted on in one call.
const MOST_LINES: u32 = 4096;

/// After how many moves no further line is read in one call.
const ENOUGH_MOVES: u128 = 65_536;

/// The request whose line was read takes effect, if it only sets or makes space, is not refused, and its break does nothing.
/// Tells how many moves that was.
#[inline(always)]
fn obey(engine: &mut Engine) -> u128
    requires request { engine.old.formatter.event ≡ events.Request }
    ensures obeys { MakesInPlace result (shape engine.old) (shape engine.new) }
    ensures few { result ≤ 4 }
    ensures next { is_spacing engine.old.formatter.reader.request ≡ false → 0 < result
        → ReadsNext engine.new.formatter }
{
    u128::from(engine.formatter.obey())
}

/// The control line that the source has at hand is read, if one comes next. Tells how many moves that was.
#[inline(always)]
fn read_control_line<R: Source>(engine: &mut Engine, input: &mut R) -> u128
    requires next { ReadsNext engine.old.formatter }
    ensures reads { MakesReading result (shape engine.old) (shape engine.new) (R.supply input.old)
        (R.supply input.new) (R.failures input.old) (R.failures input.new) }
    ensures few { result ≤ 65536 }
{
    let formatter = &mut engine.formatter;
    let Some(run) = fast_input::read_control_line(
        &mut engine.place,
        &mut formatter.reader,
        &mut formatter.store,
        input,
    ) else {
        return 0;
    };
    engine.formatter.event = run.event;
    engine.formatter.fit_memory();
    run.moves as u128
}

/// The request whose line was read takes effect, if it only sets or makes space, is not refused, and its break does nothing, and
/// so do those of the lines that the source has at hand after it, up to what is no such request, or after which the input is
/// not read next: of a control line that is one the name and the line are read. Tells how many moves that was.
#[inline(never)]
pub(crate) fn obey_lines<R: Source>(engine: &mut Engine, input: &mut R) -> u128
    requires request { engine.old.formatter.event ≡ events.Request }
    ensures reads { MakesReading result (shape engine.old) (shape engine.new) (R.supply input.old)
        (R.supply input.new) (R.failures input.old) (R.failures input.new) }
    ensures few { result ≤ 131076 }
{
    let mut moves = 0u128;
    for _ in 0..MOST_LINES {
        let obeyed = obey(engine);
        if obeyed == 0 {
            return moves;
        }
        moves += obeyed;
        if !reads_next(engine) || moves > ENOUGH_MOVES {
            return moves;
        }
        moves += read_control_line(engine, input);
        match engine.formatter.event {
            Event::Request => {}
            _ => return moves,
        }
    }
    moves
}

/// The condition that was emitted is judged, unless a macro springs. Tells how many moves that was.
#[inline(always)]
fn judge(engine: &mut Engine, question: Question) -> u128
    requires event { engine.old.formatter.event ≡ events.Judge question }
    ensures judges { MakesInPlace result (shape engine.old) (shape engine.new) }
    ensures few { result ≤ 1 }
{
    if engine.formatter.springs.is_some() {
        return 0;
    }
    engine.formatter.judge(question);
    1
}

/// What was emitted is done, if it is a request that only sets or makes space, or a condition to be judged. Tells how many moves
/// that was.
#[inline(always)]
fn answer(engine: &mut Engine) -> u128
    ensures answers { MakesInPlace result (shape engine.old) (shape engine.new) }
    ensures few { result ≤ 4 }
{
    match engine.formatter.event {
        Event::Request => obey(engine),
        Event::Judge(question) => judge(engine, question),
        _ => 0,
    }
}

/// What was emitted after text is done, if it is a request that only sets or makes space, or a condition to be judged, and what
/// levels bring after it is read. Tells how many moves that was.
#[inline(always)]
pub(crate) fn answer_after(engine: &mut Engine) -> u128
    ensures answers { MakesInPlace result (shape engine.old) (shape engine.new) }
    ensures few { result ≤ 524301 }
{
    let answered = answer(engine);
    if answered == 0 {
        return 0;
    }
    answered + read_levels(engine)
}

/// What levels bring is read; requests of it that only set or make space take effect, and conditions are judged. Tells how many
/// moves that was.
#[inline(always)]
pub(crate) fn read_levels(engine: &mut Engine) -> u128
    ensures reads { MakesInPlace result (shape engine.old) (shape engine.new) }
    ensures few { result ≤ 524297 }
{
    let mut moves = 0u128;
    for _ in 0..MOST_LINES {
        moves += read_levels_once(engine);
        let answered = answer(engine);
        moves += answered;
        if answered == 0 || moves > ENOUGH_MOVES {
            return moves;
        }
    }
    moves
}
