//! The arguments of a macro that the source has at hand: many moves at once.
ghost use Rattle.std.specs.Prelude.{◌≡◌, ◌≢◌, ◌+◌, ◌*◌, ◌^◌, ◌<◌, ◌≤◌, ℕ, List, All, length, map, take, slice_index, true, false};
ghost use Rattle.nr_units.specs.Character.{code};
ghost use Rattle.nr_reading.specs.declared.next_item.NextItem.TheVariants as variants;
ghost use Rattle.nr_reading.specs.Many.InArgument.{is_in_argument};
ghost use Rattle.nr_reading.specs.Many.Passing.{quiet};
ghost use Rattle.nr_reading.specs.Many.Runs.{HasTakenIn};
ghost use Rattle.nr_input.specs.Place.{Coming, HoldsComing, has_failed};
ghost use Rattle.nr_input.specs.Limits.{limits_of};
ghost use Rattle.fast_input.specs.MacroLines.{is_before_argument, blanks_left, begun_with, argument_ended, ReadsOn};
ghost use Rattle.nr_input.specs.Moving.{situation};
ghost use Rattle.fast_input.specs.Runs.{HasRead, PaysAll};

use crate::adding::add_prefix;
use crate::at_hand::window;
use crate::target::Target;
use nr_input::{Place, Reader};
use nr_reading::{Escape, Event, Half, Mode, PendingAct, Run};
use nr_store::Store;
use nr_units::source::Source;

/// The most arguments that are read in one call.
const MOST_ARGUMENTS: u32 = 64;

/// The most bytes that are read in one call.
const LONGEST: usize = 16_000;

/// Moves that tell nothing.
#[derive(Clone, Copy)]
struct Passed {
    /// How many bytes they took.
    taken: usize,
    /// How many they were.
    moves: usize,
}

// Whether the next item is read before an argument of a macro or after the last, after no part of an escape.
#[inline(always)]
fn is_before_argument(half: &Half) -> bool
    ensures { result ≡ is_before_argument half.now }
{
    match (
        half.reading.mode,
        half.reading.escape,
        half.reading.pending_act,
    ) {
        (Mode::MacroBlanks | Mode::MacroGap, Escape::Plain, PendingAct::Look) => half
            .asks
            .is_empty(),
        _ => false,
    }
}

// How many spaces there are before the first byte that is none.
#[inline(always)]
fn space_count(bytes: &[u8]) -> usize
    ensures prefix { result ≤ length bytes.now }
    ensures spaces { All (λ byte. byte ≡ code " ") (take result bytes.now) }
    ensures stops { result < length bytes.now → slice_index bytes.now result ≢ code " " }
{
    let mut count = 0;
    for byte in bytes {
        if *byte != b' ' {
            return count;
        }
        count += 1;
    }
    count
}

// In how many moves the blanks before the arguments are left.
#[inline(always)]
fn blanks_left(mode: Mode) -> usize
    ensures is { result ≡ blanks_left mode }
    ensures few { result ≤ 1 }
{
    match mode {
        Mode::MacroBlanks => 1,
        _ => 0,
    }
}

// An argument begins with this byte, or with the one after it, or the line ends with it: so it is taken.
#[inline(always)]
fn begin_with(half: &mut Half, byte: u8)
    ensures { half.new ≡ begun_with byte half.old }
{
    match byte {
        b'\n' => {
            half.reading.mode = Mode::Start;
            half.reading.pending_act = PendingAct::Call;
        }
        b'"' => half.reading.mode = Mode::Quoted,
        _ => {
            half.reading.mode = Mode::Word;
            half.reading.pending_act = PendingAct::Put(byte);
        }
    }
}

// The spaces before an argument are taken in, and what it begins with.
#[inline(always)]
fn begin_argument(half: &mut Half, bytes: &[u8]) -> Passed
    requires before { is_before_argument half.old ≡ true }
    ensures taken_in { HasTakenIn result.moves (map variants.Byte bytes.now) half.old (quiet result.taken half.new) }
    ensures few { result.moves ≤ result.taken + 1 }
{
    let spaces = space_count(bytes);
    let none = Passed {
        taken: spaces,
        moves: spaces,
    };
    if spaces == bytes.len() {
        return none;
    }
    let byte = bytes[spaces];
    if byte == b'\\' || byte == b'\t' {
        return none;
    }
    let left = blanks_left(half.reading.mode);
    begin_with(half, byte);
    Passed {
        taken: spaces + 1,
        moves: spaces + left + 1,
    }
}

// The argument ends, after so many bytes of its end and in so many moves.
#[inline(always)]
fn end_after(half: &mut Half, taken: usize, moves: usize) -> Passed
    ensures half { half.new ≡ argument_ended half.old }
    ensures passed { result ≡ record { taken = taken; moves = moves } }
{
    half.reading.mode = Mode::MacroGap;
    half.reading.pending_act = PendingAct::EndArgument;
    Passed { taken, moves }
}

// Whether a quote in an argument ends it, by the byte after the quote: that is read next, and begins no escape.
#[inline(always)]
fn closes(next: u8) -> bool
    ensures quote { result ≡ true → next ≢ code "\"" }
    ensures escape { result ≡ true → next ≢ code "\\" }
{
    next != b'"' && next != b'\\'
}

// What ends an argument is taken in, if it comes first.
#[inline(always)]
fn end_argument(half: &mut Half, bytes: &[u8]) -> Passed
    requires argument { is_in_argument half.old ≡ true }
    ensures taken_in { HasTakenIn result.moves (map variants.Byte bytes.now) half.old (quiet result.taken half.new) }
    ensures few { result.moves ≤ result.taken + 1 }
{
    if bytes.is_empty() {
        return Passed { taken: 0, moves: 0 };
    }
    match (half.reading.mode, bytes[0]) {
        (_, b'\n') => end_after(half, 0, 1),
        (Mode::Word, b' ') => end_after(half, 1, 1),
        (Mode::Quoted, b'"') if bytes.len() > 1 && closes(bytes[1]) => end_after(half, 1, 2),
        _ => Passed { taken: 0, moves: 0 },
    }
}

// A byte is added to the argument, or the argument ends, where that is pending. Answers how many moves that was: none where there is no room.
#[inline(always)]
fn do_argument<K: Copy>(reader: &mut Reader, store: &mut Store<K>) -> usize
    ensures reads { (bytes : List ℕ) → ReadsOn result 0 bytes store.old reader.old store.new reader.new }
    ensures few { result ≤ 1 }
{
    match reader.half.reading.pending_act {
        PendingAct::Put(byte) => match reader.put(byte, store) {
            Ok(_) => 1,
            Err(_) => 0,
        },
        PendingAct::EndArgument => {
            reader.end_argument(store);
            1
        }
        _ => 0,
    }
}

// The bytes of an argument are added to it, and what ends it is taken in.
#[inline(always)]
fn put_argument<K: Copy>(reader: &mut Reader, store: &mut Store<K>, bytes: &[u8]) -> Passed
    requires argument { is_in_argument reader.old.half ≡ true }
    ensures reads { ReadsOn result.moves result.taken bytes.now store.old reader.old store.new reader.new }
    ensures few { result.moves ≤ 2 * result.taken + 1 }
{
    let added = add_prefix(Target::Argument, &reader.half, store, bytes);
    let end = end_argument(&mut reader.half, &bytes[added..]);
    Passed {
        taken: added + end.taken,
        moves: 2 * added + end.moves,
    }
}

// An argument is read, with the spaces before it and what ends it.
#[inline(always)]
fn read_argument<K: Copy>(reader: &mut Reader, store: &mut Store<K>, bytes: &[u8]) -> Passed
    requires before { is_before_argument reader.old.half ≡ true }
    requires short { length bytes.now ≤ 16000 }
    ensures reads { ReadsOn result.moves result.taken bytes.now store.old reader.old store.new reader.new }
    ensures few { result.moves ≤ 2 * result.taken + 4 }
{
    let begun = begin_argument(&mut reader.half, bytes);
    let first = do_argument(reader, store);
    if !reader.half.is_in_argument() {
        return Passed {
            taken: begun.taken,
            moves: begun.moves + first,
        };
    }
    let put = put_argument(reader, store, &bytes[begun.taken..]);
    let end = do_argument(reader, store);
    Passed {
        taken: begun.taken + put.taken,
        moves: begun.moves + first + put.moves + end,
    }
}

// The arguments that these bytes begin with are read, and the newline after them.
#[inline(always)]
fn read_arguments<K: Copy>(reader: &mut Reader, store: &mut Store<K>, bytes: &[u8]) -> Passed
    requires short { length bytes.now ≤ 16000 }
    ensures reads { ReadsOn result.moves result.taken bytes.now store.old reader.old store.new reader.new }
    ensures few { result.moves ≤ 2 * result.taken + 256 }
{
    let mut taken = 0;
    let mut moves = 0;
    for _ in 0..MOST_ARGUMENTS {
        if !is_before_argument(&reader.half) {
            return Passed { taken, moves };
        }
        let argument = read_argument(reader, store, &bytes[taken..]);
        taken += argument.taken;
        moves += argument.moves;
        if argument.moves == 0 {
            return Passed { taken, moves };
        }
    }
    Passed { taken, moves }
}

/// The arguments of a macro that the source has at hand are read, up to the end of their line or to the first escape, where they come
/// next and nothing was spliced since the last byte. No move where they don't.
#[inline(never)]
pub(crate) fn read_macro_line<K: Copy, R: Source>(
    place: &mut Place,
    reader: &mut Reader,
    store: &mut Store<K>,
    source: &mut R,
) -> Run
    ensures read { (c : Coming) → HoldsComing c place.old (R.supply source.old)
        → HasRead result.moves (situation store.old c reader.old) result.event store.new reader.new place.new
        (R.supply source.new) }
    ensures pays { PaysAll result.moves store.old place.old reader.old result.event store.new
        place.new reader.new }
    ensures few { result.moves ≤ 32256 }
    ensures within { result.taken < 2 ^ 40 }
    ensures limits { limits_of store.new reader.new ≡ limits_of store.old reader.old }
    ensures failures { R.failures source.new ≡ R.failures source.old }
    ensures unfailed { has_failed place.old.ahead ≡ false → has_failed place.new.ahead ≡ false }
{
    let bytes = window(place, store, source);
    let near = &bytes[..bytes.len().min(LONGEST)];
    let nothing = Run {
        taken: 0,
        moves: 0,
        event: Event::Nothing,
    };
    if near.is_empty() || reader.burst > 0 {
        return nothing;
    }
    let passed = read_arguments(reader, store, near);
    let run = Run {
        taken: passed.taken,
        moves: passed.moves,
        event: Event::Nothing,
    };
    if run.taken == 0 {
        return run;
    }
    place.pass_run(bytes[run.taken - 1], run.taken);
    source.skip(run.taken);
    run
}
