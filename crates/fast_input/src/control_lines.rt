//! Control lines of the source: many moves at once.
ghost use Rattle.std.specs.Prelude.{◌≡◌, ◌≢◌, ◌^◌, ◌<◌, ◌≤◌, [], length, map, nat_lt, true, false, None, IfSome};
ghost use Rattle.nr_reading.specs.declared.event.Event.TheVariants as events;
ghost use Rattle.nr_reading.specs.declared.next_item.NextItem.TheVariants as variants;
ghost use Rattle.nr_reading.specs.declared.mode.Mode.TheVariants as modes;
ghost use Rattle.nr_reading.specs.Many.Runs.{HasTakenIn, spot};
ghost use Rattle.nr_input.specs.Place.{Coming, HoldsComing, has_failed, is_unseen};
ghost use Rattle.nr_input.specs.Limits.{limits_of};
ghost use Rattle.nr_input.specs.Moving.{situation};
ghost use Rattle.fast_input.specs.Runs.{HasRead, PaysAll, ReadsSome, IsLongest, IsLongestInLevel};

use crate::at_hand::window;
use crate::level_lines::read_level_line;
use crate::macro_lines::read_macro_line;
use crate::runs::{read_run, read_source};
use crate::stretches::ByteStretch;
use nr_input::{Place, Reader};
use nr_reading::{Event, Half, Mode, PendingAct, Run};
use nr_store::Store;
use nr_units::source::Source;

// What comes after the name of a control line, where nothing was emitted of it: the line of a request, or nothing.
#[inline(always)]
fn take_in_after_name(half: &mut Half, emitted: Event, bytes: &[u8]) -> Run
    ensures taken_in { emitted ≡ events.Nothing
        → HasTakenIn result.moves (map variants.Byte bytes.now) half.old (spot result half.new) }
    ensures few { result.moves ≤ 32769 }
    ensures within { result.taken ≤ length bytes.now }
    ensures left { emitted ≢ events.Nothing → half.new ≡ half.old }
    ensures none { emitted ≢ events.Nothing → result ≡ record { taken = 0; moves = 0; event = emitted } }
{
    if !matches!(emitted, Event::Nothing) {
        return Run {
            taken: 0,
            moves: 0,
            event: emitted,
        };
    }
    half.take_in_request_line(bytes)
}

// The control line that the source has at hand, where nothing else comes first: its name is looked up, and if it calls a request
// whose line is there too, with no escape in it, all of it is read. None where no such name is there.
#[inline(always)]
fn read_named_line<K: Copy, R: Source>(
    place: &mut Place,
    reader: &mut Reader,
    store: &mut Store<K>,
    source: &mut R,
) -> Option<Run>
    ensures read { IfSome result (λ run. (c : Coming) → HoldsComing c place.old (R.supply source.old)
        → HasRead run.moves (situation store.old c reader.old) run.event store.new reader.new place.new
        (R.supply source.new)) }
    ensures pays { IfSome result (λ run. PaysAll run.moves store.old place.old reader.old run.event store.new
        place.new reader.new) }
    ensures some { IfSome result (λ run. 0 < run.moves) }
    ensures few { IfSome result (λ run. run.moves ≤ 32775) }
    ensures within { IfSome result (λ run. run.taken < 2 ^ 40) }
    ensures limits { limits_of store.new reader.new ≡ limits_of store.old reader.old }
    ensures failures { R.failures source.new ≡ R.failures source.old }
    ensures unfailed { has_failed place.old.ahead ≡ false → has_failed place.new.ahead ≡ false }
    ensures reader { result ≡ None → reader.new ≡ reader.old }
    ensures store { result ≡ None → store.new ≡ store.old }
    ensures place { result ≡ None → place.new ≡ place.old }
    ensures source { result ≡ None → source.new ≡ source.old }
{
    let bytes = window(place, store, source);
    let stretch = ByteStretch(bytes);
    if !matches!(reader.half.reading.pending_act, PendingAct::Look) {
        return None;
    }
    let Some(name) = reader.half.take_in_name(&stretch) else {
        return None;
    };
    reader.burst = 0;
    let emitted = reader.seek(store);
    let line = take_in_after_name(&mut reader.half, emitted, &bytes[name.taken..]);
    let taken = name.taken + line.taken;
    place.pass_run(bytes[taken - 1], taken);
    source.skip(taken);
    Some(Run {
        taken,
        moves: name.moves + 1 + line.moves,
        event: line.event,
    })
}

/// The control line that the source has at hand, where nothing else comes first: its name is looked up. If it calls a request whose
/// line is there too, with no escape in it, all of it is read, and if it calls a macro its arguments are, up to the first escape.
/// None where no such name is there.
///
/// Proved: At the beginning of a line of the source the name of a control line is looked up, and the line of its
/// request or the arguments of its macro read, in one call by exactly the moves of nr_input. (`read_control_line`,
/// `read_next`)
#[inline(always)]
pub fn read_control_line<K: Copy, R: Source>(
    place: &mut Place,
    reader: &mut Reader,
    store: &mut Store<K>,
    source: &mut R,
) -> Option<Run>
    ensures read { IfSome result (λ run. (c : Coming) → HoldsComing c place.old (R.supply source.old)
        → HasRead run.moves (situation store.old c reader.old) run.event store.new reader.new place.new
        (R.supply source.new)) }
    ensures pays { IfSome result (λ run. PaysAll run.moves store.old place.old reader.old run.event store.new
        place.new reader.new) }
    ensures some { IfSome result (λ run. 0 < run.moves) }
    ensures few { IfSome result (λ run. run.moves ≤ 65536) }
    ensures limits { limits_of store.new reader.new ≡ limits_of store.old reader.old }
    ensures failures { R.failures source.new ≡ R.failures source.old }
    ensures unfailed { has_failed place.old.ahead ≡ false → has_failed place.new.ahead ≡ false }
    ensures reader { result ≡ None → reader.new ≡ reader.old }
    ensures store { result ≡ None → store.new ≡ store.old }
    ensures place { result ≡ None → place.new ≡ place.old }
    ensures source { result ≡ None → source.new ≡ source.old }
{
    let Some(run) = read_named_line(place, reader, store, source) else {
        return None;
    };
    if !matches!(reader.half.reading.mode, Mode::MacroBlanks)
        || !matches!(run.event, Event::Nothing)
    {
        return Some(run);
    }
    let line = read_macro_line(place, reader, store, source);
    Some(Run {
        taken: run.taken + line.taken,
        moves: run.moves + line.moves,
        event: line.event,
    })
}

// The bytes that the source has at hand at the beginning of a line are read, where nothing else comes first: of a control line whose
// name is there more than the name.
#[inline(never)]
fn read_beginning<K: Copy, R: Source>(
    place: &mut Place,
    reader: &mut Reader,
    store: &mut Store<K>,
    source: &mut R,
) -> Run
    ensures read { (c : Coming) → HoldsComing c place.old (R.supply source.old)
        → HasRead result.moves (situation store.old c reader.old) result.event store.new reader.new place.new
        (R.supply source.new) }
    ensures pays { PaysAll result.moves store.old place.old reader.old result.event store.new
        place.new reader.new }
    ensures few { result.moves ≤ 65536 }
    ensures limits { limits_of store.new reader.new ≡ limits_of store.old reader.old }
    ensures some { store.old.levels ≡ [] → is_unseen place.old.ahead ≡ true
        → ReadsSome (R.at_hand source.old) result.moves place.old reader.old }
    ensures failures { R.failures source.new ≡ R.failures source.old }
    ensures unfailed { has_failed place.old.ahead ≡ false → has_failed place.new.ahead ≡ false }
{
    match read_control_line(place, reader, store, source) {
        Some(run) => run,
        None => read_source(place, reader, store, source),
    }
}

/// As `read_run`; but the name of a control line is looked up at once, and what is after it is read: of the source the line of a
/// request, where it is at hand and no escape stands in it, of a level its items.
///
/// Proved: If the source has a byte at hand, or the newest level has one, and no action is pending, `read_next` makes
/// at least one move. Except at the beginning of a line of the source it reads as many bytes as `read_run`.
#[inline(always)]
pub fn read_next<K: Copy, R: Source>(
    place: &mut Place,
    reader: &mut Reader,
    store: &mut Store<K>,
    source: &mut R,
) -> Run
    ensures read { (c : Coming) → HoldsComing c place.old (R.supply source.old)
        → HasRead result.moves (situation store.old c reader.old) result.event store.new reader.new place.new
        (R.supply source.new) }
    ensures pays { PaysAll result.moves store.old place.old reader.old result.event store.new
        place.new reader.new }
    ensures few { result.moves ≤ 65542 }
    ensures limits { limits_of store.new reader.new ≡ limits_of store.old reader.old }
    ensures some { store.old.levels ≡ [] → is_unseen place.old.ahead ≡ true
        → ReadsSome (R.at_hand source.old) result.moves place.old reader.old }
    ensures longest { store.old.levels ≡ [] → is_unseen place.old.ahead ≡ true
        → reader.old.half.reading.mode ≢ modes.Start
        → IsLongest (R.at_hand source.old) result.moves place.old reader.old result.event store.new
        place.new reader.new }
    ensures longest_in_level { nat_lt 0 (length store.old.levels) ≡ true
        → IsLongestInLevel result.moves store.old reader.old result.event store.new reader.new }
    ensures failures { R.failures source.new ≡ R.failures source.old }
    ensures unfailed { has_failed place.old.ahead ≡ false → has_failed place.new.ahead ≡ false }
{
    if !matches!(reader.half.reading.mode, Mode::Start) {
        return read_run(place, reader, store, source);
    }
    if store.is_reading() {
        return read_level_line(reader, store);
    }
    read_beginning(place, reader, store, source)
}
