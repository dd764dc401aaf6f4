//! Bytes that the source has at hand, taken many at once.
ghost use Rattle.std.specs.Prelude.{◌≡◌, ℕ, ◌+◌, ◌-◌, ◌<◌, ◌≤◌, ◌^◌, true, length, take, [], Option};
ghost use Rattle.nr_units.specs.Source.{Skips};
ghost use Rattle.fast_input.specs.AtHand.{ComeNext, after_last};
ghost use Rattle.nr_input.specs.Place.{Coming, HoldsComing, is_unseen, passed_run};

use nr_input::{Place, Reader};
use nr_store::Store;
use nr_units::source::Source;

/// The bytes that come next of the input, as far as the source has them at hand: none where a level is read or a byte
/// was read ahead.
///
/// Proved: Bytes at hand are shown and taken, all before the 2^40th. (`window`, `take_window`)
#[inline]
pub fn window<'s, K: Copy, R: Source>(place: &Place, store: &Store<K>, source: &'s R) -> &'s [u8]
    ensures all { is_unseen place.now.ahead ≡ true → store.now.levels ≡ []
        → result.now ≡ take (2 ^ 40 - 1 - place.now.taken) (R.at_hand source.now) }
    ensures room { place.now.taken + length result.now < 2 ^ 40 }
    ensures prefix { take (length result.now) (R.at_hand source.now) ≡ result.now }
    ensures next { 0 < length result.now → (c : Coming) → HoldsComing c place.now (R.supply source.now)
        → ComeNext result.now c }
    ensures unseen { 0 < length result.now → is_unseen place.now.ahead ≡ true }
    ensures levels { 0 < length result.now → store.now.levels ≡ [] }
    ensures whole { is_unseen place.now.ahead ≡ true → store.now.levels ≡ []
        → place.now.taken + length (R.at_hand source.now) < 2 ^ 40 → result.now ≡ R.at_hand source.now }
{
    let room = place.room();
    if !place.is_unseen() || store.is_reading() {
        return &[];
    }
    let window = source.window();
    if window.len() > room {
        return &window[..room];
    }
    window
}

/// Takes the first n of the bytes at hand, of which this is the last.
#[inline]
pub fn take_window<R: Source>(
    place: &mut Place,
    reader: &mut Reader,
    source: &mut R,
    last: u8,
    n: usize,
)
    requires unseen { is_unseen place.old.ahead ≡ true }
    requires room { place.old.taken + n < 2 ^ 40 }
    requires at_hand { n ≤ length (R.at_hand source.old) }
    ensures place { place.new ≡ passed_run last n place.old }
    ensures reader { reader.new ≡ record reader.old { burst = 0 } }
    ensures coming { (c : Coming) → HoldsComing c place.old (R.supply source.old)
        → HoldsComing (after_last last n c) place.new (R.supply source.new) }
    ensures failures { R.failures source.new ≡ R.failures source.old }
{
    source.skip(n);
    place.pass_run(last, n);
    reader.burst = 0;
}
