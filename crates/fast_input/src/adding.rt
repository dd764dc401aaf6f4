//! Bytes that stand for themselves in copy mode, taken and added many at once.
ghost use Rattle.std.specs.Prelude.{◌≡◌, ◌≤◌, ◌<◌, ◌*◌, ◌∷◌, [], ℕ, All, Option, length, map, take, slice_get, slice_index, Some, true, false};
ghost use Rattle.nr_units.specs.Source.{Supply};
ghost use Rattle.nr_store.specs.Store.{charge_of};
ghost use Rattle.nr_store.specs.Windows.{rest_of};
ghost use Rattle.nr_store.specs.declared.element.Element.TheVariants as variants;
ghost use Rattle.nr_reading.specs.declared.event.Event.TheVariants as events;
ghost use Rattle.nr_reading.specs.Many.InArgument.{ending_of, IsPlain};
ghost use Rattle.nr_input.specs.Place.{Coming, Reached, HoldsComing};
ghost use Rattle.nr_input.specs.Limits.{limits_of};
ghost use Rattle.nr_input.specs.Moving.{situation};
ghost use Rattle.fast_input.specs.Runs.{HasRead, PaysAll, IsLeft};
ghost use Rattle.fast_input.specs.Target.{is_read_for, with_more};

use crate::target::Target;
use nr_input::Reader;
use nr_reading::{Half, Mode};
use nr_store::{Element, Rest, Store};

/// The most bytes that are added in one run: each is two moves.
const LONGEST: usize = 32_768;

/// The most bytes of a level in one run.
const CHUNK: usize = 256;

// Adds a prefix of these bytes, as far as they find room. Answers how many.
#[inline(always)]
fn add_plain<K: Copy>(target: Target, store: &mut Store<K>, bytes: &[u8]) -> usize
    ensures prefix { result ≤ length bytes.now }
    ensures added { store.new ≡ with_more target (take result bytes.now) store.old }
    ensures afforded { charge_of store.new ≤ store.new.limit }
    ensures longest { result < length bytes.now
        → store.new.limit < charge_of (with_more target (slice_index bytes.now result ∷ []) store.new) }
{
    match target {
        Target::Argument => store.add_argument_bytes(bytes),
        Target::Text => store.add_bytes(bytes),
    }
}

/// Adds a prefix of these bytes, each of which stands for itself, as far as they find room. Answers how many.
#[inline(always)]
pub(crate) fn add_prefix<K: Copy>(
    target: Target,
    half: &Half,
    store: &mut Store<K>,
    bytes: &[u8],
) -> usize
    ensures prefix { result ≤ length bytes.now }
    ensures few { result ≤ 32768 }
    ensures plain { All (IsPlain (ending_of half.now.reading.mode)) (take result bytes.now) }
    ensures added { store.new ≡ with_more target (take result bytes.now) store.old }
    ensures afforded { charge_of store.new ≤ store.new.limit }
    ensures longest { result < 32768 → result < length bytes.now
        → IsPlain (ending_of half.now.reading.mode) (slice_index bytes.now result) →
        store.new.limit < charge_of (with_more target (slice_index bytes.now result ∷ []) store.new) }
{
    let near = &bytes[..bytes.len().min(LONGEST)];
    let plain = &near[..half.plain_bytes(near)];
    add_plain(target, store, plain)
}

// The byte that ends what is read in this mode, beside the newline and the `\`.
#[inline(always)]
fn ending_of(mode: Mode) -> u8
    ensures { result ≡ ending_of mode }
{
    match mode {
        Mode::Quoted => b'"',
        Mode::StringText | Mode::Body => b'\n',
        _ => b' ',
    }
}

/// Whether a byte stands for itself before such an ending.
#[inline(always)]
pub(crate) fn is_plain(ending: u8, byte: u8) -> bool
    ensures plain { result ≡ true → IsPlain ending byte }
    ensures other { result ≡ false → ¬ IsPlain ending byte }
{
    byte != ending && byte != b'\n' && byte != b'\\'
}

// The first bytes of these elements that stand for themselves are put into the chunk, as many as it holds. Answers how many.
#[inline(always)]
fn copy_plain(elements: &[Element], ending: u8, chunk: &mut [u8]) -> usize
    ensures holds { result ≤ length chunk.old }
    ensures prefix { result ≤ length elements.now }
    ensures bytes { map variants.Byte (take result chunk.new) ≡ take result elements.now }
    ensures plain { All (IsPlain ending) (take result chunk.new) }
    ensures longest { result < length chunk.old → result < length elements.now → (byte : ℕ)
        → slice_get elements.now result ≡ Some (variants.Byte byte) → ¬ IsPlain ending byte }
{
    let most = chunk.len().min(elements.len());
    for place in 0..most {
        let Element::Byte(byte) = elements[place] else {
            return place;
        };
        if !is_plain(ending, byte) {
            return place;
        }
        chunk[place] = byte;
    }
    most
}

// The same of bytes.
#[inline(always)]
fn copy_plain_bytes(bytes: &[u8], ending: u8, chunk: &mut [u8]) -> usize
    ensures holds { result ≤ length chunk.old }
    ensures prefix { result ≤ length bytes.now }
    ensures bytes { take result chunk.new ≡ take result bytes.now }
    ensures plain { All (IsPlain ending) (take result chunk.new) }
    ensures longest { result < length chunk.old → result < length bytes.now
        → ¬ IsPlain ending (slice_index bytes.now result) }
{
    let most = chunk.len().min(bytes.len());
    for place in 0..most {
        let byte = bytes[place];
        if !is_plain(ending, byte) {
            return place;
        }
        chunk[place] = byte;
    }
    most
}

// The bytes that the newest level begins with and that stand for themselves are put into the chunk, as many as it holds. Answers how
// many.
#[inline(always)]
fn copy_level<K: Copy>(half: &Half, store: &Store<K>, chunk: &mut [u8]) -> usize
    ensures holds { result ≤ length chunk.old }
    ensures prefix { result ≤ length (rest_of store.now.levels) }
    ensures bytes { map variants.Byte (take result chunk.new) ≡ take result (rest_of store.now.levels) }
    ensures plain { All (IsPlain (ending_of half.now.reading.mode)) (take result chunk.new) }
    ensures longest { result < length chunk.old → (byte : ℕ) → slice_get (rest_of store.now.levels) result
        ≡ Some (variants.Byte byte) → ¬ IsPlain (ending_of half.now.reading.mode) byte }
{
    let ending = ending_of(half.reading.mode);
    match store.rest() {
        Rest::Text(elements) => copy_plain(elements, ending, chunk),
        Rest::Bytes(bytes) => copy_plain_bytes(bytes, ending, chunk),
    }
}

/// The bytes that the newest level begins with and that stand for themselves are added, as far as they find room. Answers how many.
#[inline(always)]
pub(crate) fn add_level_prefix<K: Copy>(
    target: Target,
    reader: &Reader,
    store: &mut Store<K>,
) -> usize
    requires { is_read_for target reader.now.half ≡ true }
    ensures read { (c : Coming) (p : Reached) (supply : Option Supply) → HoldsComing c p supply
        → HasRead (2 * result) (situation store.old c reader.now) events.Nothing store.new
        reader.now p supply }
    ensures pays { (p : Reached)
        → PaysAll (2 * result) store.old p reader.now events.Nothing store.new p reader.now }
    ensures few { result ≤ 256 }
    ensures limits { limits_of store.new reader.now ≡ limits_of store.old reader.now }
    ensures none { result ≡ 0 → store.new ≡ store.old }
    ensures stops { result < 256 → (byte : ℕ) → slice_get (rest_of store.new.levels) 0
        ≡ Some (variants.Byte byte) → IsLeft byte reader.now.half store.new }
{
    let mut chunk = [0; CHUNK];
    let near = copy_level(&reader.half, store, &mut chunk);
    let taken = add_plain(target, store, &chunk[..near]);
    store.skip(taken as u32);
    taken
}
