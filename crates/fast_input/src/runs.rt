//! Many moves over items that lie in a stretch.
ghost use Rattle.std.specs.Prelude.{◌≡◌, ℕ, ◌*◌, ◌<◌, ◌≤◌, [], length, map, slice_get, nat_lt, true, false, Option, None, Some};
ghost use Rattle.nr_units.specs.Source.{Supply};
ghost use Rattle.nr_reading.specs.declared.event.Event.TheVariants as events;
ghost use Rattle.nr_reading.specs.declared.next_item.NextItem.TheVariants as variants;
ghost use Rattle.nr_reading.specs.declared.mode.PendingAct.TheVariants as pending_acts;
ghost use Rattle.nr_reading.specs.Many.Runs.{HasTakenIn, spot};
ghost use Rattle.nr_store.specs.Windows.{elements_in};
ghost use Rattle.fast_input.specs.declared.target.Target.TheVariants.{Argument};
ghost use Rattle.nr_input.specs.Place.{Coming, Reached, HoldsComing, element_item, has_failed, is_unseen};
ghost use Rattle.nr_input.specs.Limits.{limits_of};
ghost use Rattle.nr_input.specs.Moving.{situation};
ghost use Rattle.fast_input.specs.Runs.{HasRead, PaysAll, PaysMany, IsLongest, IsLongestInLevel};
ghost use Rattle.fast_input.specs.Target.{is_read_for};

use crate::adding::{add_level_prefix, add_prefix};
use crate::at_hand::window;
use crate::stretches::{ByteStretch, ElementStretch};
use crate::target::Target;
use nr_input::{Place, Reader};
use nr_reading::{Event, Half, Items, Run};
use nr_store::{Element, Rest, Store};
use nr_units::source::Source;

/// Many moves.
#[derive(Clone, Copy)]
pub struct Moved {
    /// How many.
    pub moves: usize,
    /// What the last of them emitted.
    pub event: Event,
}

// What is left of a level is taken in, as `Half::take_in_run` says.
#[inline(always)]
fn take_in_level(half: &mut Half, rest: Rest<'_>) -> Run
    ensures taken_in { HasTakenIn result.moves (map element_item (elements_in rest.entry)) half.old
        (spot result half.new) }
    ensures few { result.moves ≤ 65536 }
    ensures longest { result.event ≡ events.Nothing → half.new.reading.pending_act ≡ pending_acts.Look → result.moves < 65536
        → (byte : ℕ) → slice_get (map element_item (elements_in rest.entry)) result.taken
        ≡ Some (variants.Byte byte) → ⊥ }
{
    match rest {
        Rest::Text(elements) => half.take_in_run(&ElementStretch(elements)),
        Rest::Bytes(bytes) => half.take_in_run(&ByteStretch(bytes)),
    }
}

/// The items of the newest level are read.
#[inline(always)]
pub(crate) fn read_level<K: Copy>(reader: &mut Reader, store: &mut Store<K>) -> Run
    ensures read { (c : Coming) (p : Reached) (supply : Option Supply) → HoldsComing c p supply
        → HasRead result.moves (situation store.old c reader.old) result.event store.new reader.new p supply }
    ensures pays { (p : Reached)
        → PaysAll result.moves store.old p reader.old result.event store.new p reader.new }
    ensures few { result.moves ≤ 65536 }
    ensures within { result.taken ≤ 65536 }
    ensures limits { limits_of store.new reader.new ≡ limits_of store.old reader.old }
    ensures longest { IsLongestInLevel result.moves store.old reader.old result.event store.new reader.new }
{
    let run = take_in_level(&mut reader.half, store.rest());
    store.skip(run.taken as u32);
    run
}

/// The bytes that the source has at hand are read, where nothing else comes first.
#[inline(always)]
pub(crate) fn read_source<K: Copy, R: Source>(
    place: &mut Place,
    reader: &mut Reader,
    store: &Store<K>,
    source: &mut R,
) -> Run
    ensures read { (c : Coming) → HoldsComing c place.old (R.supply source.old)
        → HasRead result.moves (situation store.now c reader.old) result.event store.now reader.new place.new
        (R.supply source.new) }
    ensures pays { PaysAll result.moves store.now place.old reader.old result.event store.now
        place.new reader.new }
    ensures few { result.moves ≤ 65536 }
    ensures limits { limits_of store.now reader.new ≡ limits_of store.now reader.old }
    ensures longest { store.now.levels ≡ [] → is_unseen place.old.ahead ≡ true
        → IsLongest (R.at_hand source.old) result.moves place.old reader.old result.event store.now
        place.new reader.new }
    ensures failures { R.failures source.new ≡ R.failures source.old }
    ensures unfailed { has_failed place.old.ahead ≡ false → has_failed place.new.ahead ≡ false }
{
    let bytes = window(place, store, source);
    let run = reader.half.take_in_run(&ByteStretch(bytes));
    if run.taken == 0 {
        return run;
    }
    place.pass_run(bytes[run.taken - 1], run.taken);
    source.skip(run.taken);
    reader.burst = 0;
    run
}

// The first bytes of the newest level that stand for themselves are added, where they are read for an argument of a macro or for a
// text that is defined. Answers how many.
#[inline(always)]
fn add_wanted<K: Copy>(reader: &Reader, store: &mut Store<K>) -> usize
    ensures read { (c : Coming) (p : Reached) (supply : Option Supply) → HoldsComing c p supply
        → HasRead (2 * result) (situation store.old c reader.now) events.Nothing store.new
        reader.now p supply }
    ensures pays { (p : Reached)
        → PaysAll (2 * result) store.old p reader.now events.Nothing store.new p reader.now }
    ensures few { result ≤ 256 }
    ensures limits { limits_of store.new reader.now ≡ limits_of store.old reader.now }
    ensures none { result ≡ 0 → store.new ≡ store.old }
{
    match Target::of(&reader.half) {
        Some(target) => add_level_prefix(target, reader, store),
        None => 0,
    }
}

/// The first items of the newest level are added, and then read.
#[inline(always)]
pub(crate) fn read_added<K: Copy>(reader: &mut Reader, store: &mut Store<K>) -> Run
    ensures read { (c : Coming) (p : Reached) (supply : Option Supply) → HoldsComing c p supply
        → HasRead result.moves (situation store.old c reader.old) result.event store.new reader.new p supply }
    ensures pays { (p : Reached)
        → PaysMany result.moves store.old p reader.old result.event store.new p reader.new }
    ensures few { result.moves ≤ 66048 }
    ensures limits { limits_of store.new reader.new ≡ limits_of store.old reader.old }
    ensures longest { IsLongestInLevel result.moves store.old reader.old result.event store.new reader.new }
{
    let added = add_wanted(reader, store);
    let run = read_level(reader, store);
    Run {
        taken: added + run.taken,
        moves: 2 * added + run.moves,
        event: run.event,
    }
}

// As `read_level`, in the midst of a macro's argument: the first bytes that stand for themselves are added to it.
#[inline]
fn add_from_level<K: Copy>(reader: &mut Reader, store: &mut Store<K>) -> Run
    requires { is_read_for Argument reader.old.half ≡ true }
    ensures read { (c : Coming) (p : Reached) (supply : Option Supply) → HoldsComing c p supply
        → HasRead result.moves (situation store.old c reader.old) result.event store.new reader.new p supply }
    ensures pays { (p : Reached)
        → PaysAll result.moves store.old p reader.old result.event store.new p reader.new }
    ensures few { result.moves ≤ 65536 }
    ensures limits { limits_of store.new reader.new ≡ limits_of store.old reader.old }
    ensures longest { IsLongestInLevel result.moves store.old reader.old result.event store.new reader.new }
{
    let taken = add_level_prefix(Target::Argument, reader, store);
    if taken == 0 {
        return read_level(reader, store);
    }
    Run {
        taken,
        moves: 2 * taken,
        event: Event::Nothing,
    }
}

// As `read_source`, where items are read for this target: the first bytes that stand for themselves are added to it.
#[inline]
fn add_from_source<K: Copy, R: Source>(
    target: Target,
    place: &mut Place,
    reader: &mut Reader,
    store: &mut Store<K>,
    source: &mut R,
) -> Run
    requires { is_read_for target reader.old.half ≡ true }
    ensures read { (c : Coming) → HoldsComing c place.old (R.supply source.old)
        → HasRead result.moves (situation store.old c reader.old) result.event store.new reader.new place.new
        (R.supply source.new) }
    ensures pays { PaysAll result.moves store.old place.old reader.old result.event store.new
        place.new reader.new }
    ensures few { result.moves ≤ 65536 }
    ensures limits { limits_of store.new reader.new ≡ limits_of store.old reader.old }
    ensures longest { store.old.levels ≡ [] → is_unseen place.old.ahead ≡ true
        → IsLongest (R.at_hand source.old) result.moves place.old reader.old result.event store.new
        place.new reader.new }
    ensures failures { R.failures source.new ≡ R.failures source.old }
    ensures unfailed { has_failed place.old.ahead ≡ false → has_failed place.new.ahead ≡ false }
{
    let bytes = window(place, store, source);
    let taken = add_prefix(target, &reader.half, store, bytes);
    if taken == 0 {
        return read_source(place, reader, store, source);
    }
    place.pass_run(bytes[taken - 1], taken);
    source.skip(taken);
    reader.burst = 0;
    Run {
        taken,
        moves: 2 * taken,
        event: Event::Nothing,
    }
}

/// As `read_run`, of the newest level.
#[inline(always)]
pub(crate) fn read_run_of_level<K: Copy>(reader: &mut Reader, store: &mut Store<K>) -> Run
    ensures read { (c : Coming) (p : Reached) (supply : Option Supply) → HoldsComing c p supply
        → HasRead result.moves (situation store.old c reader.old) result.event store.new reader.new p supply }
    ensures pays { (p : Reached)
        → PaysAll result.moves store.old p reader.old result.event store.new p reader.new }
    ensures few { result.moves ≤ 65536 }
    ensures limits { limits_of store.new reader.new ≡ limits_of store.old reader.old }
    ensures longest { IsLongestInLevel result.moves store.old reader.old result.event store.new reader.new }
{
    match Target::of(&reader.half) {
        Some(Target::Argument) => add_from_level(reader, store),
        _ => read_level(reader, store),
    }
}

/// Items that lie in a stretch are read, many moves at once: up to the first that tells something or after which something
/// is pending, and none where an item has to be looked at alone.
///
/// Proved: Bytes that lie in a stretch are read in one call by exactly the moves of nr_input, of which only the last may
/// emit an event.
/// Proved: Of the bytes that the source has at hand `read_run` reads as many as can be, in 65,536 moves at most.
#[inline(always)]
pub fn read_run<K: Copy, R: Source>(
    place: &mut Place,
    reader: &mut Reader,
    store: &mut Store<K>,
    source: &mut R,
) -> Run
    ensures read { (c : Coming) → HoldsComing c place.old (R.supply source.old)
        → HasRead result.moves (situation store.old c reader.old) result.event store.new reader.new place.new
        (R.supply source.new) }
    ensures pays { PaysAll result.moves store.old place.old reader.old result.event store.new
        place.new reader.new }
    ensures few { result.moves ≤ 65536 }
    ensures limits { limits_of store.new reader.new ≡ limits_of store.old reader.old }
    ensures longest { store.old.levels ≡ [] → is_unseen place.old.ahead ≡ true
        → IsLongest (R.at_hand source.old) result.moves place.old reader.old result.event store.new
        place.new reader.new }
    ensures longest_in_level { nat_lt 0 (length store.old.levels) ≡ true
        → IsLongestInLevel result.moves store.old reader.old result.event store.new reader.new }
    ensures failures { R.failures source.new ≡ R.failures source.old }
    ensures unfailed { has_failed place.old.ahead ≡ false → has_failed place.new.ahead ≡ false }
{
    if store.is_reading() {
        return read_run_of_level(reader, store);
    }
    match Target::of(&reader.half) {
        Some(target) => add_from_source(target, place, reader, store, source),
        None => read_source(place, reader, store, source),
    }
}
