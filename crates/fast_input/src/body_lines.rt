//! The lines of a definition that the source has at hand: many moves at once.
ghost use Rattle.std.specs.Prelude.{◌≡◌, ◌+◌, ◌*◌, ◌<◌, ◌≤◌, ◌++◌, All, IfSome, length, take, slice_index, true, false};
ghost use Rattle.nr_units.specs.Character.{code};
ghost use Rattle.nr_store.specs.Store.{charge_of};
ghost use Rattle.nr_reading.specs.declared.mode.Mode.TheVariants as modes;
ghost use Rattle.nr_reading.specs.Definitions.{in_body};
ghost use Rattle.nr_reading.specs.Many.InArgument.{IsPlain};
ghost use Rattle.fast_input.specs.declared.target.Target.TheVariants.{Text};
ghost use Rattle.fast_input.specs.BodyLines.{is_in_body, IsLine, IsOther, IsOwn, IsPart};
ghost use Rattle.nr_input.specs.Place.{Coming, HoldsComing, has_failed};
ghost use Rattle.nr_input.specs.Limits.{limits_of};
ghost use Rattle.fast_input.specs.MacroLines.{ReadsOn};
ghost use Rattle.nr_input.specs.Moving.{situation};
ghost use Rattle.fast_input.specs.Runs.{HasRead, PaysAll};
ghost use Rattle.fast_input.specs.Target.{with_more};

use crate::adding::is_plain;
use crate::at_hand::window;
use nr_input::{Place, Reader};
use nr_reading::{Defining, Escape, Event, Half, Mode, PendingAct, Run};
use nr_store::Store;
use nr_units::source::Source;

/// The most parts of lines that are read in one call.
const MOST_PARTS: u32 = 4_096;

/// The most bytes that are read in one call.
const LONGEST: usize = 16_000;

/// The most bytes that are added to the text at once.
const CHUNK: usize = 256;

/// Moves that tell nothing.
#[derive(Clone, Copy)]
struct Passed {
    /// How many bytes they took.
    taken: usize,
    /// How many they were.
    moves: usize,
}

/// The part of a line that some bytes begin with.
#[derive(Clone, Copy)]
struct Part {
    /// How many bytes stand for themselves.
    own: usize,
    /// How many `\` are after them, each written twice: one at most.
    more: usize,
}

/// What was read, and is still to be added.
#[derive(Clone, Copy)]
struct Copied {
    /// How many bytes were taken.
    taken: usize,
    /// How many are to be added.
    count: usize,
}

// Whether the next item is read in a line of a definition that is kept, or at its beginning, after no part of an escape.
#[inline(always)]
fn is_in_body(half: &Half) -> bool
    ensures { result ≡ is_in_body half.now }
{
    let keeps = half.notes.defining.keeps;
    match (
        half.reading.mode,
        half.reading.escape,
        half.reading.pending_act,
    ) {
        (Mode::Body, Escape::Plain, PendingAct::Look) => keeps && half.asks.is_empty(),
        (Mode::BodyStart(held), Escape::Plain, PendingAct::Look) => {
            held == 0 && (keeps && half.asks.is_empty())
        }
        _ => false,
    }
}

/// How many bytes there are before the first `\` or newline.
#[inline(always)]
pub(crate) fn text_bytes(bytes: &[u8]) -> usize
    ensures prefix { result ≤ length bytes.now }
    ensures plain { All (IsPlain (code "\n")) (take result bytes.now) }
{
    for place in 0..bytes.len() {
        if !is_plain(b'\n', bytes[place]) {
            return place;
        }
    }
    bytes.len()
}

// The same, and a newline that comes then.
#[inline(always)]
fn line_bytes(bytes: &[u8]) -> usize
    ensures { IsLine result bytes.now }
{
    let count = text_bytes(bytes);
    if count < bytes.len() && bytes[count] == b'\n' {
        return count + 1;
    }
    count
}

// Whether these bytes begin like the line that ends the definition.
#[inline(always)]
fn is_like_last(defining: &Defining, bytes: &[u8]) -> bool
    ensures { result ≡ false → 0 < length bytes.now → slice_index bytes.now 0 ≡ code "."
        → IsOther bytes.now defining.now }
{
    if bytes.is_empty() || bytes[0] != b'.' {
        return false;
    }
    if bytes.len() < 2 {
        return true;
    }
    bytes[1] == defining.last_line_byte(1)
}

// Whether a line that begins with these bytes, if one does, may be the one that ends the definition.
#[inline(always)]
fn may_end(half: &Half, bytes: &[u8]) -> bool
    ensures { result ≡ false → half.now.reading.mode ≡ modes.BodyStart 0 → 0 < length bytes.now
        → slice_index bytes.now 0 ≡ code "."
        → IsOther bytes.now half.now.notes.defining }
{
    match half.reading.mode {
        Mode::BodyStart(_) => is_like_last(&half.notes.defining, bytes),
        _ => false,
    }
}

// How many of these bytes stand for themselves, up to the end of their line; none where it may end the definition.
#[inline(always)]
fn own_bytes(half: &Half, bytes: &[u8]) -> usize
    ensures { IsOwn result bytes.now half.now.reading.mode half.now.notes.defining }
{
    let count = line_bytes(bytes);
    if may_end(half, &bytes[..count]) {
        return 0;
    }
    count
}

// How many bytes stand for themselves after a `\` at this place: one, if it is another.
#[inline(always)]
fn backslashes_at(bytes: &[u8], place: usize) -> usize
    requires { place ≤ length bytes.now }
    ensures few { result ≤ 1 }
    ensures within { 0 < result → place + 1 < length bytes.now }
    ensures first { 0 < result → slice_index bytes.now place ≡ code "\\" }
    ensures second { 0 < result → slice_index bytes.now (place + 1) ≡ code "\\" }
{
    if bytes.len() - place < 2 || bytes[place] != b'\\' || bytes[place + 1] != b'\\' {
        return 0;
    }
    1
}

// Adds these bytes to the text that is defined, if there is room for all of them. Tells whether there was.
#[inline(always)]
fn add_all<K: Copy>(store: &mut Store<K>, bytes: &[u8]) -> bool
    ensures added { result ≡ true → store.new ≡ with_more Text bytes.now store.old }
    ensures afforded { result ≡ true → charge_of store.new ≤ store.new.limit }
    ensures left { result ≡ false → store.new ≡ store.old }
{
    if !store.admits(bytes.len()) {
        return false;
    }
    store.add_bytes(bytes);
    true
}

// In the midst of a line, or at the beginning of the next, by the last byte.
#[inline(always)]
fn in_body(byte: u8) -> Mode
    ensures { result ≡ in_body byte }
{
    if byte == b'\n' {
        return Mode::BodyStart(0);
    }
    Mode::Body
}

// The part of a line that these bytes begin with, if one is read next.
#[inline(always)]
fn next_part(half: &Half, bytes: &[u8]) -> Option<Part>
    ensures { IfSome result (λ part. IsPart part.own part.more bytes.now half.now) }
{
    if !is_in_body(half) {
        return None;
    }
    let own = own_bytes(half, bytes);
    let more = backslashes_at(bytes, own);
    if own + more == 0 {
        return None;
    }
    Some(Part { own, more })
}

// A part is read and added.
#[inline(always)]
fn read_part<K: Copy>(reader: &mut Reader, store: &mut Store<K>, bytes: &[u8]) -> Passed
    ensures reads { ReadsOn result.moves result.taken bytes.now store.old reader.old store.new reader.new }
    ensures few { result.moves ≤ 2 * result.taken }
{
    let nothing = Passed { taken: 0, moves: 0 };
    let Some(part) = next_part(&reader.half, bytes) else {
        return nothing;
    };
    let added = part.own + part.more;
    if !add_all(store, &bytes[..added]) {
        return nothing;
    }
    reader.half.reading.mode = in_body(bytes[added - 1]);
    Passed {
        taken: added + part.more,
        moves: 2 * added + part.more,
    }
}

// Puts bytes into the chunk after its first `len`.
#[inline(always)]
fn put_after(chunk: &mut [u8], len: usize, bytes: &[u8])
    requires { len + length bytes.now ≤ length chunk.old }
    ensures bytes { take (len + length bytes.now) chunk.new ≡ take len chunk.old ++ bytes.now }
    ensures size { length chunk.new ≡ length chunk.old }
    ensures within { len + length bytes.now ≤ length chunk.new }
{
    chunk[len..len + bytes.len()].copy_from_slice(bytes);
}

// Parts are read as far as the chunk holds what they add, and that is put into it.
#[inline(always)]
fn copy_parts<K: Copy>(
    reader: &mut Reader,
    store: &Store<K>,
    bytes: &[u8],
    chunk: &mut [u8],
) -> Copied
    requires short { length bytes.now ≤ 16000 }
    requires size { length chunk.old ≡ 256 }
    requires room { charge_of store.now + 256 ≤ store.now.limit }
    ensures reads { ReadsOn (result.taken + result.count) result.taken bytes.now store.now reader.old
        (with_more Text (take result.count chunk.new) store.now) reader.new }
    ensures size { length chunk.new ≡ 256 }
    ensures within { result.count ≤ 256 }
    ensures few { result.count ≤ result.taken }
    ensures none { result.count ≡ 0 → reader.new ≡ reader.old }
{
    let mut taken = 0;
    let mut count = 0;
    for _ in 0..MOST_PARTS {
        let next = &bytes[taken..];
        let Some(part) = next_part(&reader.half, next) else {
            return Copied { taken, count };
        };
        let added = part.own + part.more;
        if added > CHUNK - count {
            return Copied { taken, count };
        }
        put_after(chunk, count, &next[..added]);
        reader.half.reading.mode = in_body(next[added - 1]);
        taken += added + part.more;
        count += added;
    }
    Copied { taken, count }
}

// The parts that these bytes begin with are read, as many as a chunk holds, and what they add is added at once. One is read where there
// is no room for a chunk, or the chunk doesn't hold the first.
#[inline(always)]
fn read_chunk<K: Copy>(reader: &mut Reader, store: &mut Store<K>, bytes: &[u8]) -> Passed
    requires short { length bytes.now ≤ 16000 }
    ensures reads { ReadsOn result.moves result.taken bytes.now store.old reader.old store.new reader.new }
    ensures few { result.moves ≤ 2 * result.taken }
{
    if !store.admits(CHUNK) {
        return read_part(reader, store, bytes);
    }
    let mut chunk = [0; CHUNK];
    let copied = copy_parts(reader, store, bytes, &mut chunk);
    if copied.count == 0 {
        return read_part(reader, store, bytes);
    }
    store.add_bytes(&chunk[..copied.count]);
    Passed {
        taken: copied.taken,
        moves: copied.taken + copied.count,
    }
}

// The lines that these bytes begin with are read, chunk by chunk.
#[inline(always)]
fn read_parts<K: Copy>(reader: &mut Reader, store: &mut Store<K>, bytes: &[u8]) -> Passed
    requires short { length bytes.now ≤ 16000 }
    ensures reads { ReadsOn result.moves result.taken bytes.now store.old reader.old store.new reader.new }
    ensures few { result.moves ≤ 2 * result.taken }
{
    let mut taken = 0;
    let mut moves = 0;
    for _ in 0..MOST_PARTS {
        let part = read_chunk(reader, store, &bytes[taken..]);
        taken += part.taken;
        moves += part.moves;
        if part.moves == 0 {
            return Passed { taken, moves };
        }
    }
    Passed { taken, moves }
}

/// The lines of a definition that the source has at hand are read and added to its text, up to one that may end it and to any escape
/// but `\\`, where they come next and nothing was spliced since the last byte. No move where they don't.
///
/// Proved: The lines of a definition that the source has at hand are read and added to its text in one call by
/// exactly the moves of nr_input, and so is the rest of a line that does nothing. (`read_body_lines`;
/// `read_dropped_line` in dropped_lines.rt)
#[inline(never)]
pub fn read_body_lines<K: Copy, R: Source>(
    place: &mut Place,
    reader: &mut Reader,
    store: &mut Store<K>,
    source: &mut R,
) -> Run
    ensures read { (c : Coming) → HoldsComing c place.old (R.supply source.old)
        → HasRead result.moves (situation store.old c reader.old) result.event store.new reader.new place.new
        (R.supply source.new) }
    ensures pays { PaysAll result.moves store.old place.old reader.old result.event store.new
        place.new reader.new }
    ensures few { result.moves ≤ 32000 }
    ensures limits { limits_of store.new reader.new ≡ limits_of store.old reader.old }
    ensures failures { R.failures source.new ≡ R.failures source.old }
    ensures unfailed { has_failed place.old.ahead ≡ false → has_failed place.new.ahead ≡ false }
{
    let bytes = window(place, store, source);
    let near = &bytes[..bytes.len().min(LONGEST)];
    let nothing = Run {
        taken: 0,
        moves: 0,
        event: Event::Nothing,
    };
    if near.is_empty() || reader.burst > 0 {
        return nothing;
    }
    let passed = read_parts(reader, store, near);
    let run = Run {
        taken: passed.taken,
        moves: passed.moves,
        event: Event::Nothing,
    };
    if run.taken == 0 {
        return run;
    }
    place.pass_run(bytes[run.taken - 1], run.taken);
    source.skip(run.taken);
    run
}
