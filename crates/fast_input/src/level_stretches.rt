//! Stretches of the newest level, in which the names of control lines are looked up: many moves at once.
ghost use Rattle.std.specs.Prelude.{◌≡◌, ℕ, ◌+◌, ◌*◌, ◌<◌, ◌≤◌, length, map, drop, slice_get, true, false, Option, Some, None, IfSome};
ghost use Rattle.nr_units.specs.Source.{Supply};
ghost use Rattle.nr_reading.specs.declared.event.Event.TheVariants as events;
ghost use Rattle.nr_reading.specs.declared.next_item.NextItem.TheVariants as variants;
ghost use Rattle.nr_reading.specs.declared.mode.PendingAct.TheVariants as pending_acts;
ghost use Rattle.nr_reading.specs.Many.Runs.{HasTakenIn, spot};
ghost use Rattle.nr_store.specs.Windows.{rest_of, left_times};
ghost use Rattle.nr_store.specs.declared.element.Element.TheVariants as elements;
ghost use Rattle.nr_input.specs.Place.{Coming, Reached, HoldsComing, element_item};
ghost use Rattle.fast_input.specs.LevelStretches.{begun_by, is_text};
ghost use Rattle.nr_input.specs.Limits.{limits_of};
ghost use Rattle.nr_input.specs.Moving.{situation};
ghost use Rattle.fast_input.specs.Runs.{HasRead, PaysAll, StopsInLevel};

use crate::stretches::{ByteStretch, ElementStretch};
use nr_input::Reader;
use nr_reading::{Event, Half, Items, PendingAct, Run};
use nr_store::{Meaning, Rest, Store};

/// The most names that are looked up in one stretch.
const MOST_NAMES: u32 = 4;

/// What came of a stretch.
#[derive(Clone, Copy)]
struct TakenIn {
    /// How much of it was taken in.
    run: Run,
    /// Whether the arguments of a macro are still to be begun.
    calls: bool,
}

/// Items in a stretch, of which the first can be left out.
pub(crate) trait Tail: Items + Copy {
    /// What is after so many items.
    fn afterwards(self, n: usize) -> Self
        requires { n ≤ length (Self.next_items self) }
        ensures { Self.next_items result ≡ drop n (Self.next_items self) };
}

impl<'a> Tail for ByteStretch<'a> {
    #[inline(always)]
    fn afterwards(self, n: usize) -> Self {
        ByteStretch(&self.0[n..])
    }
}

impl<'a> Tail for ElementStretch<'a> {
    #[inline(always)]
    fn afterwards(self, n: usize) -> Self {
        ElementStretch(&self.0[n..])
    }
}

// Whether a text has the name.
#[inline(always)]
fn is_text(meaning: Meaning) -> bool
    ensures { result ≡ is_text meaning }
{
    matches!(meaning, Meaning::Text)
}

// The items of a stretch are taken in; of those of a control line its name alone.
#[inline(always)]
fn take_in_first<I: Items>(half: &mut Half, stretch: &I) -> Run
    ensures taken_in { HasTakenIn result.moves (I.next_items stretch.now) half.old (spot result half.new) }
    ensures few { result.moves ≤ 65536 }
    ensures longest { result.event ≡ events.Nothing → half.new.reading.pending_act ≡ pending_acts.Look → result.moves < 65536
        → (byte : ℕ) → slice_get (I.next_items stretch.now) result.taken ≡ Some (variants.Byte byte) → ⊥ }
{
    if !matches!(half.reading.pending_act, PendingAct::Look) {
        return half.take_in_run(stretch);
    }
    match half.take_in_name(stretch) {
        Some(name) => Run {
            taken: name.taken,
            moves: name.moves,
            event: Event::Nothing,
        },
        None => half.take_in_run(stretch),
    }
}

// The name that was read is looked up, and the items that are after it in a stretch are taken in.
#[inline(always)]
fn take_in_named<K: Copy, I: Tail>(
    reader: &mut Reader,
    store: &Store<K>,
    stretch: I,
    from: usize,
) -> TakenIn
    requires stretch { I.next_items stretch ≡ map element_item (rest_of store.now.levels) }
    requires within { from ≤ length (rest_of store.now.levels) }
    requires pending_act { reader.old.half.reading.pending_act ≡ pending_acts.Seek }
    ensures read { (c : Coming) (p : Reached) (supply : Option Supply) → HoldsComing c p supply →
        HasRead result.run.moves (situation (left_times from store.now) c reader.old) result.run.event
        (begun_by result.calls (left_times (from + result.run.taken) store.now)) reader.new p supply }
    ensures pays { (p : Reached)
        → PaysAll result.run.moves (left_times from store.now) p reader.old result.run.event
        (begun_by result.calls (left_times (from + result.run.taken) store.now)) p reader.new }
    ensures few { result.run.moves ≤ 65537 }
    ensures some { 0 < result.run.moves }
    ensures within { from + result.run.taken ≤ length (rest_of store.now.levels) }
    ensures short { result.run.taken ≤ result.run.moves }
    ensures limits { limits_of store.now reader.new ≡ limits_of store.now reader.old }
{
    let meaning = reader.meaning(store);
    let emitted = reader.take_meaning(meaning);
    let calls = is_text(meaning);
    if calls || !matches!(emitted, Event::Nothing) {
        let run = Run {
            taken: 0,
            moves: 1,
            event: emitted,
        };
        return TakenIn { run, calls };
    }
    let more = reader.half.take_in_run(&stretch.afterwards(from));
    let run = Run {
        taken: more.taken,
        moves: more.moves + 1,
        event: more.event,
    };
    TakenIn { run, calls: false }
}

// The items of a stretch are taken in, and the names of control lines that are read there are looked up.
#[inline(always)]
fn take_in_stretches<K: Copy, I: Tail>(reader: &mut Reader, store: &Store<K>, stretch: I) -> TakenIn
    requires stretch { I.next_items stretch ≡ map element_item (rest_of store.now.levels) }
    ensures read { (c : Coming) (p : Reached) (supply : Option Supply) → HoldsComing c p supply →
        HasRead result.run.moves (situation store.now c reader.old) result.run.event
        (begun_by result.calls (left_times result.run.taken store.now)) reader.new p supply }
    ensures pays { (p : Reached) → PaysAll result.run.moves store.now p reader.old result.run.event
        (begun_by result.calls (left_times result.run.taken store.now)) p reader.new }
    ensures few { result.run.moves ≤ 65536 + 65537 * 4 }
    ensures within { result.run.taken ≤ length (rest_of store.now.levels) }
    ensures short { result.run.taken ≤ result.run.moves }
    ensures limits { limits_of store.now reader.new ≡ limits_of store.now reader.old }
    ensures some { (b : ℕ) → slice_get (rest_of store.now.levels) 0 ≡ Some (elements.Byte b)
        → reader.old.half.reading.pending_act ≡ pending_acts.Look → 0 < result.run.moves }
    ensures stops { result.run.moves ≡ 0
        → StopsInLevel 0 result.run.event (begun_by result.calls (left_times result.run.taken store.now))
        reader.new }
{
    let mut taken_in = TakenIn {
        run: take_in_first(&mut reader.half, &stretch),
        calls: false,
    };
    for _ in 0..MOST_NAMES {
        if taken_in.calls
            || !matches!(taken_in.run.event, Event::Nothing)
            || !matches!(reader.half.reading.pending_act, PendingAct::Seek)
        {
            return taken_in;
        }
        let more = take_in_named(reader, store, stretch, taken_in.run.taken);
        let run = Run {
            taken: taken_in.run.taken + more.run.taken,
            moves: taken_in.run.moves + more.run.moves,
            event: more.run.event,
        };
        taken_in = TakenIn {
            run,
            calls: more.calls,
        };
    }
    taken_in
}

// The first items of the newest level are taken in, and the names of control lines that are read there are looked up. None where it has
// none next.
#[inline(always)]
fn take_in_next<K: Copy>(reader: &mut Reader, store: &Store<K>) -> Option<TakenIn>
    ensures read { IfSome result (λ taken_in. (c : Coming) (p : Reached) (supply : Option Supply)
        → HoldsComing c p supply →
        HasRead taken_in.run.moves (situation store.now c reader.old) taken_in.run.event
        (begun_by taken_in.calls (left_times taken_in.run.taken store.now)) reader.new p supply) }
    ensures pays { IfSome result (λ taken_in. (p : Reached)
        → PaysAll taken_in.run.moves store.now p reader.old taken_in.run.event
        (begun_by taken_in.calls (left_times taken_in.run.taken store.now)) p reader.new) }
    ensures few { IfSome result (λ taken_in. taken_in.run.moves ≤ 65536 + 65537 * 4) }
    ensures within { IfSome result (λ taken_in. taken_in.run.taken ≤ length (rest_of store.now.levels)) }
    ensures short { IfSome result (λ taken_in. taken_in.run.taken ≤ taken_in.run.moves) }
    ensures limits { IfSome result (λ taken_in. limits_of store.now reader.new ≡ limits_of store.now reader.old) }
    ensures some { IfSome result (λ taken_in. (b : ℕ) → slice_get (rest_of store.now.levels) 0
        ≡ Some (elements.Byte b) → reader.old.half.reading.pending_act ≡ pending_acts.Look → 0 < taken_in.run.moves) }
    ensures stops { IfSome result (λ taken_in. taken_in.run.moves ≡ 0
        → StopsInLevel 0 taken_in.run.event (begun_by taken_in.calls (left_times taken_in.run.taken store.now)) reader.new) }
    ensures none { result ≡ None → (b : ℕ) → slice_get (rest_of store.now.levels) 0 ≡ Some (elements.Byte b)
        → ⊥ }
    ensures reader { result ≡ None → reader.new ≡ reader.old }
{
    match store.rest() {
        Rest::Text(elements) => {
            if elements.is_empty() {
                return None;
            }
            Some(take_in_stretches(reader, store, ElementStretch(elements)))
        }
        Rest::Bytes(bytes) => {
            if bytes.is_empty() {
                return None;
            }
            Some(take_in_stretches(reader, store, ByteStretch(bytes)))
        }
    }
}

// What was taken in of the newest level's stretch is taken.
#[inline(always)]
fn leave_stretch<K: Copy>(taken_in: TakenIn, store: &mut Store<K>)
    requires within { taken_in.run.taken ≤ length (rest_of store.old.levels) }
    requires few { taken_in.run.taken ≤ 327684 }
    ensures { store.new ≡ begun_by taken_in.calls (left_times taken_in.run.taken store.old) }
{
    store.skip(taken_in.run.taken as u32);
    if taken_in.calls {
        store.begin_arguments();
    }
}

/// The first items of the newest level are read, and the names of control lines are looked up. None where it has none next.
#[inline(always)]
pub(crate) fn read_stretches<K: Copy>(reader: &mut Reader, store: &mut Store<K>) -> Option<Run>
    ensures read { IfSome result (λ run. (c : Coming) (p : Reached) (supply : Option Supply)
        → HoldsComing c p supply → HasRead run.moves (situation store.old c reader.old) run.event store.new
        reader.new p supply) }
    ensures pays { IfSome result (λ run. (p : Reached)
        → PaysAll run.moves store.old p reader.old run.event store.new p reader.new) }
    ensures few { IfSome result (λ run. run.moves ≤ 327684) }
    ensures limits { IfSome result (λ run. limits_of store.new reader.new ≡ limits_of store.old reader.old) }
    ensures some { IfSome result (λ run. (b : ℕ) → slice_get (rest_of store.old.levels) 0
        ≡ Some (elements.Byte b) → reader.old.half.reading.pending_act ≡ pending_acts.Look → 0 < run.moves) }
    ensures stops { IfSome result (λ run. run.moves ≡ 0 → StopsInLevel 0 run.event store.new reader.new) }
    ensures none { result ≡ None → (b : ℕ) → slice_get (rest_of store.old.levels) 0 ≡ Some (elements.Byte b)
        → ⊥ }
    ensures reader { result ≡ None → reader.new ≡ reader.old }
    ensures store { result ≡ None → store.new ≡ store.old }
{
    let Some(taken_in) = take_in_next(reader, store) else {
        return None;
    };
    leave_stretch(taken_in, store);
    Some(taken_in.run)
}
