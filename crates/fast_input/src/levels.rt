//! What levels bring: many moves in one loop.
ghost use Rattle.std.specs.Prelude.{◌≡◌, ℕ, ◌*◌, ◌<◌, ◌≤◌, true, false, Option, Some, slice_get};
ghost use Rattle.nr_units.specs.Source.{Supply};
ghost use Rattle.nr_reading.specs.declared.event.Event.TheVariants as events;
ghost use Rattle.nr_reading.specs.declared.mode.PendingAct.TheVariants as pending_acts;
ghost use Rattle.nr_store.specs.Windows.{rest_of};
ghost use Rattle.nr_store.specs.declared.element.Element.TheVariants as elements;
ghost use Rattle.nr_input.specs.declared.reader.Reader.{Reader as ReaderValue};
ghost use Rattle.nr_input.specs.Place.{Coming, Reached, HoldsComing};
ghost use Rattle.fast_input.specs.Levels.{may_act};
ghost use Rattle.nr_input.specs.Limits.{limits_of};
ghost use Rattle.nr_input.specs.Moving.{situation};
ghost use Rattle.fast_input.specs.Runs.{HasRead, PaysMany, StopsInLevel, IsLongestUpToText};

use crate::interpolations::interpolate_at_once;
use crate::level_stretches::read_stretches;
use crate::runs::{Moved, read_added, read_level};
use nr_input::Reader;
use nr_reading::{Event, Mode, PendingAct, Run};
use nr_store::Store;

/// The most stretches, ends of levels and pending acts in one call.
const MOST_PARTS: u32 = 800;

/// After how many moves no further part is read in one call.
const ENOUGH_MOVES: usize = 65_536;

// What is pending may be done at once: no blank of a line's beginning is emitted by it, and there may be a splice more.
#[inline(always)]
fn may_act(reader: &Reader) -> bool
    ensures { result ≡ may_act reader.now }
{
    match reader.half.reading.pending_act {
        PendingAct::Look | PendingAct::Lead(_) | PendingAct::Expanded => false,
        _ => reader.burst < reader.most,
    }
}

// What is pending is done, where it may be done at once and is not refused.
#[inline(always)]
fn do_pending<K: Copy>(reader: &mut Reader, store: &mut Store<K>) -> Moved
    ensures read { (c : Coming) (p : Reached) (supply : Option Supply) → HoldsComing c p supply
        → HasRead result.moves (situation store.old c reader.old) result.event store.new reader.new p supply }
    ensures pays { (p : Reached)
        → PaysMany result.moves store.old p reader.old result.event store.new p reader.new }
    ensures few { result.moves ≤ 1 }
    ensures limits { limits_of store.new reader.new ≡ limits_of store.old reader.old }
    ensures left { result.moves ≡ 0 → reader.new ≡ reader.old }
{
    if !may_act(reader) {
        return Moved {
            moves: 0,
            event: Event::Nothing,
        };
    }
    match reader.act(store) {
        Ok(event) => Moved { moves: 1, event },
        Err(_) => Moved {
            moves: 0,
            event: Event::Nothing,
        },
    }
}

// What is pending is done, where it may be done at once and is not refused: an argument or a register that is spliced where bytes are
// copied is read with no level opened for it.
#[inline(always)]
fn act<K: Copy>(reader: &mut Reader, store: &mut Store<K>) -> Moved
    ensures read { (c : Coming) (p : Reached) (supply : Option Supply) → HoldsComing c p supply
        → HasRead result.moves (situation store.old c reader.old) result.event store.new reader.new p supply }
    ensures pays { (p : Reached)
        → PaysMany result.moves store.old p reader.old result.event store.new p reader.new }
    ensures few { result.moves ≤ 197125 }
    ensures limits { limits_of store.new reader.new ≡ limits_of store.old reader.old }
    ensures left { result.moves ≡ 0 → reader.new ≡ reader.old }
{
    let spliced = interpolate_at_once(reader, store);
    if spliced.moves > 0 {
        return spliced;
    }
    do_pending(reader, store)
}

// The end of the newest level is taken, if it comes next: it does nothing to what is half read. Tells whether it was.
#[inline(always)]
fn end_level<K: Copy>(store: &mut Store<K>) -> bool
    ensures read { result ≡ true → (c : Coming) (p : Reached) (r : ReaderValue) (supply : Option Supply)
        → r.half.reading.pending_act ≡ pending_acts.Look → HoldsComing c p supply
        → HasRead 1 (situation store.old c r) events.Nothing store.new r p supply }
    ensures pays { result ≡ true → (p : Reached) (r : ReaderValue) → r.half.reading.pending_act ≡ pending_acts.Look
        → PaysMany 1 store.old p r events.Nothing store.new p r }
    ensures limits { (r : ReaderValue) → limits_of store.new r ≡ limits_of store.old r }
    ensures left { result ≡ false → store.new ≡ store.old }
{
    store.take_end()
}

// The same. Answers how many moves that was.
#[inline(always)]
fn read_end<K: Copy>(store: &mut Store<K>) -> usize
    ensures read { (c : Coming) (p : Reached) (r : ReaderValue) (supply : Option Supply)
        → r.half.reading.pending_act ≡ pending_acts.Look → HoldsComing c p supply
        → HasRead result (situation store.old c r) events.Nothing store.new r p supply }
    ensures pays { (p : Reached) (r : ReaderValue) → r.half.reading.pending_act ≡ pending_acts.Look
        → PaysMany result store.old p r events.Nothing store.new p r }
    ensures few { result ≤ 1 }
    ensures limits { (r : ReaderValue) → limits_of store.new r ≡ limits_of store.old r }
    ensures left { result ≡ 0 → store.new ≡ store.old }
{
    if end_level(store) {
        return 1;
    }
    0
}

// Whether no move was made for the first items, and an item is looked at next.
#[inline(always)]
fn made_none(run: Run, reader: &Reader) -> bool
    ensures moves { result ≡ true → run.moves ≡ 0 }
    ensures event { result ≡ true → run.event ≡ events.Nothing }
    ensures pending_act { result ≡ true → reader.now.half.reading.pending_act ≡ pending_acts.Look }
{
    run.moves == 0 && matches!(run.event, Event::Nothing) && reader.looks()
}

// The same, or the end of the level.
#[inline(always)]
fn read_copied<K: Copy>(reader: &mut Reader, store: &mut Store<K>) -> Moved
    ensures read { (c : Coming) (p : Reached) (supply : Option Supply) → HoldsComing c p supply
        → HasRead result.moves (situation store.old c reader.old) result.event store.new reader.new p supply }
    ensures pays { (p : Reached)
        → PaysMany result.moves store.old p reader.old result.event store.new p reader.new }
    ensures few { result.moves ≤ 66048 }
    ensures limits { limits_of store.new reader.new ≡ limits_of store.old reader.old }
    ensures some { (b : ℕ) → slice_get (rest_of store.old.levels) 0 ≡ Some (elements.Byte b)
        → reader.old.half.reading.pending_act ≡ pending_acts.Look → 0 < result.moves }
    ensures stops { result.moves ≡ 0 → StopsInLevel 0 result.event store.new reader.new }
{
    let run = read_added(reader, store);
    if made_none(run, reader) && end_level(store) {
        return Moved {
            moves: 1,
            event: Event::Nothing,
        };
    }
    Moved {
        moves: run.moves,
        event: run.event,
    }
}

// The first items of the newest level are read with the names of control lines, or its end is taken.
#[inline(always)]
fn read_stretch<K: Copy>(reader: &mut Reader, store: &mut Store<K>) -> Moved
    requires pending_act { reader.old.half.reading.pending_act ≡ pending_acts.Look }
    ensures read { (c : Coming) (p : Reached) (supply : Option Supply) → HoldsComing c p supply
        → HasRead result.moves (situation store.old c reader.old) result.event store.new reader.new p supply }
    ensures pays { (p : Reached)
        → PaysMany result.moves store.old p reader.old result.event store.new p reader.new }
    ensures few { result.moves ≤ 327684 }
    ensures limits { limits_of store.new reader.new ≡ limits_of store.old reader.old }
    ensures some { (b : ℕ) → slice_get (rest_of store.old.levels) 0 ≡ Some (elements.Byte b)
        → reader.old.half.reading.pending_act ≡ pending_acts.Look → 0 < result.moves }
    ensures stops { result.moves ≡ 0 → StopsInLevel 0 result.event store.new reader.new }
{
    let Some(prefix) = read_stretches(reader, store) else {
        return Moved {
            moves: read_end(store),
            event: Event::Nothing,
        };
    };
    Moved {
        moves: prefix.moves,
        event: prefix.event,
    }
}

// What comes next of the levels: what is pending, items that lie in a stretch, or the end of a level.
#[inline(always)]
fn read_part<K: Copy>(reader: &mut Reader, store: &mut Store<K>) -> Moved
    ensures read { (c : Coming) (p : Reached) (supply : Option Supply) → HoldsComing c p supply
        → HasRead result.moves (situation store.old c reader.old) result.event store.new reader.new p supply }
    ensures pays { (p : Reached)
        → PaysMany result.moves store.old p reader.old result.event store.new p reader.new }
    ensures few { result.moves ≤ 327684 }
    ensures limits { limits_of store.new reader.new ≡ limits_of store.old reader.old }
    ensures some { (b : ℕ) → slice_get (rest_of store.old.levels) 0 ≡ Some (elements.Byte b)
        → reader.old.half.reading.pending_act ≡ pending_acts.Look → 0 < result.moves }
    ensures stops { result.moves ≡ 0 → StopsInLevel 0 result.event store.new reader.new }
{
    if !matches!(reader.half.reading.pending_act, PendingAct::Look) {
        return act(reader, store);
    }
    match reader.half.reading.mode {
        Mode::Word | Mode::Quoted | Mode::StringText | Mode::Body => read_copied(reader, store),
        _ => read_stretch(reader, store),
    }
}

// What levels bring is read, up to what tells something and to a text line.
#[inline(never)]
fn read_lines<K: Copy>(reader: &mut Reader, store: &mut Store<K>) -> Moved
    ensures read { (c : Coming) (p : Reached) (supply : Option Supply) → HoldsComing c p supply
        → HasRead result.moves (situation store.old c reader.old) result.event store.new reader.new p supply }
    ensures pays { (p : Reached)
        → PaysMany result.moves store.old p reader.old result.event store.new p reader.new }
    ensures few { result.moves ≤ 393220 }
    ensures limits { limits_of store.new reader.new ≡ limits_of store.old reader.old }
    ensures longest { IsLongestUpToText result.moves store.old reader.old result.event store.new reader.new }
{
    let mut moves = 0;
    for _ in 0..MOST_PARTS {
        let part = read_part(reader, store);
        moves += part.moves;
        if part.moves == 0 || !matches!(part.event, Event::Nothing) {
            return Moved {
                moves,
                event: part.event,
            };
        }
        if reader.half.is_in_text() || moves > ENOUGH_MOVES {
            return Moved {
                moves,
                event: Event::Nothing,
            };
        }
    }
    Moved {
        moves,
        event: Event::Nothing,
    }
}

// What comes next of the newest level in a text line is read: its items, and what is pending after them.
#[inline(never)]
fn read_text<K: Copy>(reader: &mut Reader, store: &mut Store<K>) -> Moved
    ensures read { (c : Coming) (p : Reached) (supply : Option Supply) → HoldsComing c p supply
        → HasRead result.moves (situation store.old c reader.old) result.event store.new reader.new p supply }
    ensures pays { (p : Reached)
        → PaysMany result.moves store.old p reader.old result.event store.new p reader.new }
    ensures few { result.moves ≤ 65537 }
    ensures limits { limits_of store.new reader.new ≡ limits_of store.old reader.old }
    ensures some { (b : ℕ) → slice_get (rest_of store.old.levels) 0 ≡ Some (elements.Byte b)
        → reader.old.half.reading.pending_act ≡ pending_acts.Look → 0 < result.moves }
    ensures stops { result.moves ≡ 0 → StopsInLevel 0 result.event store.new reader.new }
{
    let run = read_level(reader, store);
    if !matches!(run.event, Event::Nothing) || reader.looks() {
        return Moved {
            moves: run.moves,
            event: run.event,
        };
    }
    let done = do_pending(reader, store);
    Moved {
        moves: run.moves + done.moves,
        event: done.event,
    }
}

// The same, and what comes after the text line.
#[inline(always)]
fn read_text_on<K: Copy>(reader: &mut Reader, store: &mut Store<K>) -> Moved
    ensures read { (c : Coming) (p : Reached) (supply : Option Supply) → HoldsComing c p supply
        → HasRead result.moves (situation store.old c reader.old) result.event store.new reader.new p supply }
    ensures pays { (p : Reached)
        → PaysMany result.moves store.old p reader.old result.event store.new p reader.new }
    ensures few { result.moves ≤ 458757 }
    ensures limits { limits_of store.new reader.new ≡ limits_of store.old reader.old }
    ensures longest { IsLongestUpToText result.moves store.old reader.old result.event store.new reader.new }
{
    let text = read_text(reader, store);
    if text.moves == 0 || !matches!(text.event, Event::Nothing) || reader.half.is_in_text() {
        return text;
    }
    let lines = read_lines(reader, store);
    Moved {
        moves: text.moves + lines.moves,
        event: lines.event,
    }
}

/// What levels bring is read, up to what tells something and to a text line: control lines, the lines of requests, conditions, strings
/// and arguments with what is spliced into them, ends of levels, and what is pending. In a text line that has begun, the items up to what is
/// pending are read, or the end of its level. The mode after a sprung text is left; `_mode` is of no account.
///
/// Proved: What levels bring is read in one call by exactly the moves of nr_input: what is pending, items that lie in
/// a stretch, control lines with their names, ends of levels, and arguments and registers that are spliced where bytes
/// are copied, for which no level need be opened, also where an argument or a string's text begins with them.
/// (`read_levels`; `interpolate_at_once` in interpolations.rt; `take_in_bytes` in beginnings.rt)
/// Proved: If the newest level has a byte and no action is pending, `read_levels` makes at least one move. If it
/// emits nothing, makes fewer than 512 moves and no text line has begun, the next byte does not fit where it is to be
/// added, or is not plain there.
#[inline(always)]
pub fn read_levels<K: Copy>(reader: &mut Reader, store: &mut Store<K>, _mode: &mut K) -> Moved
    ensures read { (c : Coming) (p : Reached) (supply : Option Supply) → HoldsComing c p supply
        → HasRead result.moves (situation store.old c reader.old) result.event store.new reader.new p supply }
    ensures pays { (p : Reached)
        → PaysMany result.moves store.old p reader.old result.event store.new p reader.new }
    ensures few { result.moves ≤ 458757 }
    ensures limits { limits_of store.new reader.new ≡ limits_of store.old reader.old }
    ensures longest { IsLongestUpToText result.moves store.old reader.old result.event store.new reader.new }
{
    if !reader.half.is_in_text() {
        return read_lines(reader, store);
    }
    if end_level(store) {
        return Moved {
            moves: 1,
            event: Event::Nothing,
        };
    }
    read_text_on(reader, store)
}
