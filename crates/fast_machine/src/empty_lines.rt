//! Empty lines: many moves in one call.
ghost use Rattle.std.specs.Prelude.{◌≡◌, ◌≢◌, ◌+◌, ◌-◌, ◌<◌, ◌≤◌, ◌^◌, true, [], length, take, replicate, slice_index};
ghost use Rattle.nr_units.specs.Character.{code};
ghost use Rattle.nr_reading.specs.declared.event.Event.TheVariants as events;
ghost use Rattle.nr_input.specs.Place.{is_unseen};
ghost use Rattle.nr_formatter.specs.Many.EmptyLines.{is_at_line};
ghost use Rattle.fast_machine.specs.EmptyLines.{NewlinesAtHand, WentDown};
ghost use Rattle.nr_machine.specs.Holding.{shape};
ghost use Rattle.fast_machine.specs.Running.{MakesReading};

use crate::obeying::{obey_lines, read_levels};
use crate::reading::read_source;
use nr_input::Event;
use nr_machine::Engine;
use nr_units::source::Source;

/// How many empty lines after one that was read go down with it, at most.
const MOST_LINES: u32 = 65_536;

/// How many newlines these bytes begin with.
fn count_newlines(bytes: &[u8]) -> usize
    ensures prefix { result ≤ length bytes.now }
    ensures newlines { take result bytes.now ≡ replicate result (code "\n") }
    ensures stops { result < length bytes.now → slice_index bytes.now result ≢ code "\n" }
{
    let mut count = 0;
    for byte in bytes {
        if *byte != b'\n' {
            return count;
        }
        count += 1;
    }
    count
}

/// How many newlines the source has at hand at the beginning of a line, as far as they are asked for.
fn newlines_next<R: Source>(engine: &Engine, input: &R, most: usize) -> usize
    ensures most { result ≤ most }
    ensures next { NewlinesAtHand (R.at_hand input.now) result (shape engine.now) (R.supply input.now) }
    ensures longest { engine.now.formatter.store.levels ≡ [] → is_unseen engine.now.place.ahead ≡ true →
        engine.now.place.taken + length (R.at_hand input.now) < 2 ^ 40
        → is_at_line engine.now.formatter.reader.half ≡ true →
        result < most → result < length (R.at_hand input.now)
        → slice_index (R.at_hand input.now) result ≢ code "\n" }
{
    if !engine.formatter.is_at_line() {
        return 0;
    }
    let bytes = fast_input::window(&engine.place, &engine.formatter.store, input);
    count_newlines(&bytes[..bytes.len().min(most)])
}

/// The empty line that was read goes down the open page, if it does nothing else, and so do those that the source has at
/// hand after it, as far as there is room for them, 65,536 at most. Tells how many moves that was.
#[inline(never)]
fn put_empty_lines<R: Source>(engine: &mut Engine, input: &mut R) -> u128
    requires empty { engine.old.formatter.event ≡ events.Empty }
    ensures reads { MakesReading result (shape engine.old) (shape engine.new) (R.supply input.old)
        (R.supply input.new) (R.failures input.old) (R.failures input.new) }
    ensures few { result ≤ 262147 }
    ensures longest { engine.old.formatter.store.levels ≡ [] → is_unseen engine.old.place.ahead ≡ true →
        engine.old.place.taken + length (R.at_hand input.old) < 2 ^ 40 →
        WentDown (R.at_hand input.old) (engine.new.place.taken - engine.old.place.taken) result
        engine.old.formatter }
{
    let lines = engine.formatter.lines_below();
    if lines == 0 {
        return 0;
    }
    let count = newlines_next(engine, input, (lines - 1).min(MOST_LINES) as usize);
    engine.formatter.go_down(count as u32 + 1);
    if count == 0 {
        return 3;
    }
    let reader = &mut engine.formatter.reader;
    fast_input::take_window(&mut engine.place, reader, input, b'\n', count);
    4 * count as u128 + 3
}

/// Items that lie in a row are read; where an empty line is emitted, it goes down with those after it, as far as it does nothing
/// else, and where a request is emitted that only sets, it takes effect with those after it. Tells how many moves that was.
#[inline(always)]
pub(crate) fn read_lines<R: Source>(engine: &mut Engine, input: &mut R) -> u128
    ensures reads { MakesReading result (shape engine.old) (shape engine.new) (R.supply input.old)
        (R.supply input.new) (R.failures input.old) (R.failures input.new) }
    ensures few { result ≤ 524301 }
{
    if engine.formatter.store.is_reading() {
        return read_levels(engine);
    }
    let run = read_source(engine, input);
    match engine.formatter.event {
        Event::Empty => run + put_empty_lines(engine, input),
        Event::Request => run + obey_lines(engine, input),
        _ => run,
    }
}
