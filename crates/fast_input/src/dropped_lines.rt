//! Lines of the source that do nothing: many moves at once.
ghost use Rattle.std.specs.Prelude.{◌≡◌, ◌≤◌, false};
ghost use Rattle.nr_input.specs.Place.{Coming, HoldsComing, has_failed};
ghost use Rattle.fast_input.specs.DroppedLines.{is_dropping};
ghost use Rattle.nr_input.specs.Limits.{limits_of};
ghost use Rattle.nr_input.specs.Moving.{situation};
ghost use Rattle.fast_input.specs.Runs.{HasRead, PaysAll};

use crate::at_hand::window;
use crate::body_lines::text_bytes;
use nr_input::{Place, Reader};
use nr_reading::{Escape, Event, Half, Mode, PendingAct, Run};
use nr_store::Store;
use nr_units::source::Source;

/// The most bytes that are read in one call.
const LONGEST: usize = 16_000;

// Whether the next item is read in a line that does nothing, after no part of an escape.
#[inline(always)]
fn is_dropping(half: &Half) -> bool
    ensures { result ≡ is_dropping half.now }
{
    match (
        half.reading.mode,
        half.reading.escape,
        half.reading.pending_act,
    ) {
        (Mode::Drop, Escape::Plain, PendingAct::Look) => half.asks.is_empty(),
        _ => false,
    }
}

/// The rest of a line that does nothing is read, with its newline, if the source has it at hand with no escape in it, where it comes
/// next and nothing was spliced since the last byte. No move where it does not.
#[inline(never)]
pub fn read_dropped_line<K: Copy, R: Source>(
    place: &mut Place,
    reader: &mut Reader,
    store: &Store<K>,
    source: &mut R,
) -> Run
    ensures read { (c : Coming) → HoldsComing c place.old (R.supply source.old)
        → HasRead result.moves (situation store.now c reader.old) result.event store.now reader.new place.new
        (R.supply source.new) }
    ensures pays { PaysAll result.moves store.now place.old reader.old result.event store.now
        place.new reader.new }
    ensures few { result.moves ≤ 16000 }
    ensures limits { limits_of store.now reader.new ≡ limits_of store.now reader.old }
    ensures failures { R.failures source.new ≡ R.failures source.old }
    ensures unfailed { has_failed place.old.ahead ≡ false → has_failed place.new.ahead ≡ false }
{
    let bytes = window(place, store, source);
    let near = &bytes[..bytes.len().min(LONGEST)];
    let nothing = Run {
        taken: 0,
        moves: 0,
        event: Event::Nothing,
    };
    if reader.burst > 0 || !is_dropping(&reader.half) {
        return nothing;
    }
    let count = text_bytes(near);
    if count == near.len() || near[count] != b'\n' {
        return nothing;
    }
    let taken = count + 1;
    reader.half.reading.mode = Mode::Start;
    place.pass_run(bytes[taken - 1], taken);
    source.skip(taken);
    Run {
        taken,
        moves: taken,
        event: Event::Nothing,
    }
}
