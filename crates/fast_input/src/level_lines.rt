//! Control lines of the newest level: many moves at once.
ghost use Rattle.std.specs.Prelude.{◌≡◌, ◌<◌, ◌≤◌, map, None, Option, IfSome};
ghost use Rattle.nr_units.specs.Source.{Supply};
ghost use Rattle.nr_reading.specs.declared.event.Event.TheVariants as events;
ghost use Rattle.nr_reading.specs.declared.mode.PendingAct.TheVariants as pending_acts;
ghost use Rattle.nr_reading.specs.Many.Passing.{quiet};
ghost use Rattle.nr_reading.specs.Many.Runs.{HasTakenIn};
ghost use Rattle.nr_store.specs.Windows.{elements_in};
ghost use Rattle.nr_input.specs.Place.{Coming, Reached, HoldsComing, element_item};
ghost use Rattle.nr_input.specs.Limits.{limits_of};
ghost use Rattle.nr_input.specs.Moving.{situation};
ghost use Rattle.fast_input.specs.Runs.{HasRead, PaysAll, IsLongestInLevel};

use crate::runs::read_level;
use crate::stretches::{ByteStretch, ElementStretch};
use nr_input::Reader;
use nr_reading::{Event, Half, PendingAct, Run, TakenInName};
use nr_store::{Rest, Store};

// The name of a control line that what is left of a level begins with is taken in, as `Half::take_in_name` says.
#[inline(always)]
fn take_in_name(half: &mut Half, rest: Rest<'_>) -> Option<TakenInName>
    requires pending_act { half.old.reading.pending_act ≡ pending_acts.Look }
    ensures taken_in { IfSome result (λ name. HasTakenIn name.moves (map element_item (elements_in rest.entry))
        half.old (quiet name.taken half.new)) }
    ensures pending_act { IfSome result (λ name. half.new.reading.pending_act ≡ pending_acts.Seek) }
    ensures some { IfSome result (λ name. 0 < name.taken) }
    ensures short { IfSome result (λ name. name.taken ≤ 3) }
    ensures few { IfSome result (λ name. name.moves ≤ 5) }
    ensures left { result ≡ None → half.new ≡ half.old }
{
    match rest {
        Rest::Text(elements) => half.take_in_name(&ElementStretch(elements)),
        Rest::Bytes(bytes) => half.take_in_name(&ByteStretch(bytes)),
    }
}

// The name of a control line that the newest level begins with is taken in and taken, if nothing is pending. None where none was there.
#[inline(always)]
fn read_name<K: Copy>(reader: &mut Reader, store: &mut Store<K>) -> Option<TakenInName>
    ensures read { IfSome result (λ name. (c : Coming) (p : Reached) (supply : Option Supply)
        → HoldsComing c p supply → HasRead name.moves (situation store.old c reader.old) events.Nothing
        store.new reader.new p supply) }
    ensures pays { IfSome result (λ name. (p : Reached)
        → PaysAll name.moves store.old p reader.old events.Nothing store.new p reader.new) }
    ensures pending_act { IfSome result (λ name. reader.new.half.reading.pending_act ≡ pending_acts.Seek) }
    ensures few { IfSome result (λ name. name.moves ≤ 5) }
    ensures short { IfSome result (λ name. name.taken ≤ 3) }
    ensures reader { result ≡ None → reader.new ≡ reader.old }
    ensures store { result ≡ None → store.new ≡ store.old }
    ensures limits { limits_of store.new reader.new ≡ limits_of store.old reader.old }
{
    if !matches!(reader.half.reading.pending_act, PendingAct::Look) {
        return None;
    }
    let Some(name) = take_in_name(&mut reader.half, store.rest()) else {
        return None;
    };
    store.skip(name.taken as u32);
    Some(name)
}

/// As `read_level`; but the name of a control line that comes next is looked up at once, and what is after it is read.
///
/// Proved: At the beginning of a line of the newest level the name of a control line is looked up, and the items
/// after it are read, in one call by exactly the moves of nr_input.
#[inline(never)]
pub(crate) fn read_level_line<K: Copy>(reader: &mut Reader, store: &mut Store<K>) -> Run
    ensures read { (c : Coming) (p : Reached) (supply : Option Supply) → HoldsComing c p supply
        → HasRead result.moves (situation store.old c reader.old) result.event store.new reader.new p supply }
    ensures pays { (p : Reached)
        → PaysAll result.moves store.old p reader.old result.event store.new p reader.new }
    ensures few { result.moves ≤ 65542 }
    ensures limits { limits_of store.new reader.new ≡ limits_of store.old reader.old }
    ensures longest { IsLongestInLevel result.moves store.old reader.old result.event store.new reader.new }
{
    let Some(name) = read_name(reader, store) else {
        return read_level(reader, store);
    };
    let emitted = reader.seek(store);
    if !matches!(emitted, Event::Nothing) {
        return Run {
            taken: name.taken,
            moves: name.moves + 1,
            event: emitted,
        };
    }
    let run = read_level(reader, store);
    Run {
        taken: name.taken + run.taken,
        moves: name.moves + 1 + run.moves,
        event: run.event,
    }
}
