//! One move of the machine that reads.
ghost use Rattle.std.specs.Prelude.{◌≡◌, ◌≤◌, true, OnOk};
ghost use Rattle.nr_units.specs.Failures.{counted_if};
ghost use Rattle.nr_input.specs.Acting.{is_look};
ghost use Rattle.nr_store.specs.declared.shown.Shown.TheVariants as shows;
ghost use Rattle.nr_store.specs.Store.{shown};
ghost use Rattle.nr_input.specs.Place.{Coming, HoldsComing, fails_now, has_failed, KeepsRefusal, RefusesAgain};
ghost use Rattle.nr_input.specs.Moving.{burst_past, situation, AfterMove};
ghost use Rattle.nr_input.specs.Emitted.{heard_of, emitted_with};
ghost use Rattle.nr_input.specs.Limits.{limits_of};
ghost use Rattle.nr_input.specs.Weights.{PaysIfMade, diversions_in};

use super::emitted::Heard;
use super::place::Place;
use super::reader::Reader;
use super::refusal::Refusal;
use nr_reading::Event;
use nr_store::{Sight, Store};
use nr_units::source::Source;

// How many splices there were since the last byte of the input was taken, after an item, by how many bytes were taken before
// and after it.
fn burst_after(before: u64, taken: u64, burst: u64) -> u64
    ensures { result ≡ burst_past before taken burst }
{
    if taken == before {
        return burst;
    }
    0
}

// What is emitted: a resume mark that is taken resumes what was under way.
fn heard_of(sight: Sight, event: Event) -> Heard
    ensures { result ≡ heard_of sight event }
{
    match sight {
        Sight::Resume => Heard::Resume,
        _ => Heard::Event(event),
    }
}

// The next item is looked at, and taken or left.
fn look<K: Copy, R: Source>(
    place: &mut Place,
    reader: &mut Reader,
    store: &mut Store<K>,
    source: &mut R,
    mode: &mut K,
) -> Result<Heard, Refusal>
    requires { is_look reader.old.half.reading.pending_act ≡ true }
    ensures moved { (c : Coming) → HoldsComing c place.old (R.supply source.old) →
        AfterMove (situation store.old c reader.old) (emitted_with mode.new result) store.new reader.new
        place.new (R.supply source.new) }
    ensures failures { R.failures source.new ≡ counted_if (fails_now place.old.ahead result)
        (R.failures source.old) }
    ensures pays { PaysIfMade store.old place.old reader.old (emitted_with mode.new result) store.new
        place.new reader.new }
    ensures diversions { diversions_in store.new.building ≤ diversions_in store.old.building }
    ensures limits { limits_of store.new reader.new ≡ limits_of store.old reader.old }
    ensures unfailed { OnOk result (has_failed place.new.ahead ≡ has_failed place.old.ahead) }
    ensures keeps { KeepsRefusal result place.new.ahead }
    ensures again { shown store.old.levels ≡ shows.Nothing → RefusesAgain place.old.ahead result }
{
    let next_item = place.look(store, source)?;
    let seen = reader.half.take_in(next_item);
    if !seen.takes {
        return Ok(Heard::Event(seen.event));
    }
    let before = place.taken();
    let sight = place.take(store, mode);
    reader.burst = burst_after(before, place.taken(), reader.burst);
    Ok(heard_of(sight, seen.event))
}

/// One move: it takes an item, or makes a splice, or adds an element, or sees what is next. Where it takes the mark
/// after a sprung text, it puts what was under way into `mode`.
///
/// Proved: Each move of the reader is the definition's, made where the definition makes it, or is refused for the
/// reason reported where the definition refuses it for that.
/// Proved: A byte that was read ahead and not taken is still to come.
/// Proved: A read fault is reported only where a call of the source has failed, and each call that fails is reported.
/// (`advance`; `read_run` in fast_input/runs.rt)
/// Proved: A move that is made leaves a source that had not failed as one that has not failed. (`advance`; `read_run`
/// in fast_input/runs.rt)
/// Proved: A read fault, or an input too long, is answered again by each move that would look at the source.
/// Proved: Each move is paid for: by a byte of the source, an item of the list, a splice, or what is half read.
/// (`advance`; `read_run` in fast_input/runs.rt; `Reader::{give, spring, define}` in splicing.rt)
/// Proved: No move of the reader makes the open diversions more.
/// Proved: The limits that stand in what is stored and in the reader stay, whether a call is made or refused.
/// (`advance`; `read_run` in fast_input/runs.rt; `read_next`, `read_control_line` in fast_input/control_lines.rt;
/// `Reader::{give, spring, define}` in splicing.rt)
pub fn advance<K: Copy, R: Source>(
    place: &mut Place,
    reader: &mut Reader,
    store: &mut Store<K>,
    source: &mut R,
    mode: &mut K,
) -> Result<Heard, Refusal>
    ensures moved { (c : Coming) → HoldsComing c place.old (R.supply source.old) →
        AfterMove (situation store.old c reader.old) (emitted_with mode.new result) store.new reader.new
        place.new (R.supply source.new) }
    ensures failures { R.failures source.new ≡ counted_if (fails_now place.old.ahead result)
        (R.failures source.old) }
    ensures pays { PaysIfMade store.old place.old reader.old (emitted_with mode.new result) store.new
        place.new reader.new }
    ensures diversions { diversions_in store.new.building ≤ diversions_in store.old.building }
    ensures limits { limits_of store.new reader.new ≡ limits_of store.old reader.old }
    ensures unfailed { OnOk result (has_failed place.new.ahead ≡ has_failed place.old.ahead) }
    // What the source refused is refused from then on.
    ensures keeps { KeepsRefusal result place.new.ahead }
    ensures again { is_look reader.old.half.reading.pending_act ≡ true → shown store.old.levels ≡ shows.Nothing
        → RefusesAgain place.old.ahead result }
{
    if reader.looks() {
        return look(place, reader, store, source, mode);
    }
    match reader.act(store) {
        Ok(event) => Ok(Heard::Event(event)),
        Err(refusal) => Err(refusal),
    }
}
