//! Arguments of macros and texts of strings that begin with spliced bytes.
ghost use Rattle.std.specs.Prelude.{◌≡◌, ◌+◌, ◌*◌, ◌≤◌, Option, length, true, false, Ok};
ghost use Rattle.nr_units.specs.Source.{Supply};
ghost use Rattle.nr_store.specs.Store.{charge_of, reading_bytes};
ghost use Rattle.nr_store.specs.Windows.{left_times};
ghost use Rattle.nr_reading.specs.declared.event.Event.TheVariants as events;
ghost use Rattle.fast_input.specs.Beginnings.{begins_target};
ghost use Rattle.nr_input.specs.Place.{Coming, Reached, HoldsComing};
ghost use Rattle.nr_input.specs.Limits.{limits_of};
ghost use Rattle.nr_input.specs.Moving.{situation};
ghost use Rattle.nr_input.specs.Refusal.{called, acted};
ghost use Rattle.fast_input.specs.Runs.{HasRead, PaysAll};

use crate::adding::add_prefix;
use crate::stretches::ByteStretch;
use crate::target::Target;
use nr_input::Reader;
use nr_reading::{Event, PendingAct, Run};
use nr_store::Store;

// A string's text that is not a copy of the old one begins, or the first byte of an argument is put, where that is pending and
// so many bytes may be stored after it twice. Tells whether that was done.
#[inline(always)]
fn begin_target<K: Copy>(reader: &mut Reader, len: usize, store: &mut Store<K>) -> bool
    requires few { len ≤ 64 }
    ensures done { result ≡ true → called store.new reader.new (Ok events.Nothing)
        ≡ acted reader.old.half.reading.pending_act store.old reader.old }
    ensures begins { result ≡ true → begins_target reader.old.half.reading.pending_act ≡ true }
    ensures empty { result ≡ true → reader.old.half.notes.defining.appends ≡ false }
    ensures room { result ≡ true → charge_of store.old + (80 + 2 * len) ≤ store.old.limit }
    ensures reader { result ≡ false → reader.new ≡ reader.old }
    ensures store { result ≡ false → store.new ≡ store.old }
{
    if reader.half.notes.defining.appends || !store.admits(80 + 2 * len) {
        return false;
    }
    let begun = match reader.half.reading.pending_act {
        PendingAct::Begin => reader.begin(store),
        PendingAct::Put(byte) => reader.put(byte, store),
        _ => return false,
    };
    begun.is_ok()
}

/// Bytes are taken in as those of a level that brings them; where an argument or a string's text begins with them they are added to it.
/// Answers how many, and in how many moves.
#[inline(always)]
pub(crate) fn take_in_bytes<K: Copy>(reader: &mut Reader, bytes: &[u8], store: &mut Store<K>) -> Run
    requires few { length bytes.now ≤ 64 }
    requires room { charge_of store.old + (32 + 2 * length bytes.now) ≤ store.old.limit }
    ensures read { (c : Coming) (p : Reached) (supply : Option Supply) → HoldsComing c p supply →
        HasRead result.moves (situation (reading_bytes bytes.now store.old) c reader.old) result.event
        (left_times result.taken (reading_bytes bytes.now store.new)) reader.new p supply }
    ensures pays { (p : Reached)
        → PaysAll result.moves (reading_bytes bytes.now store.old) p reader.old result.event
        (left_times result.taken (reading_bytes bytes.now store.new)) p reader.new }
    ensures within { result.taken ≤ length bytes.now }
    ensures few { result.moves ≤ 131074 }
    ensures levels { store.new.levels ≡ store.old.levels }
    ensures deepest { store.new.deepest ≡ store.old.deepest }
    ensures room { charge_of store.new + (32 + length bytes.now) ≤ store.new.limit }
    ensures limits { limits_of store.new reader.new ≡ limits_of store.old reader.old }
{
    let run = reader.half.take_in_run(&ByteStretch(bytes));
    if !matches!(run.event, Event::Nothing) || !begin_target(reader, bytes.len(), store) {
        return run;
    }
    let Some(target) = Target::of(&reader.half) else {
        return Run {
            taken: run.taken,
            moves: run.moves + 1,
            event: Event::Nothing,
        };
    };
    let added = add_prefix(target, &reader.half, store, &bytes[run.taken..]);
    Run {
        taken: run.taken + added,
        moves: run.moves + 1 + 2 * added,
        event: Event::Nothing,
    }
}
