//! Runs of plain bytes of a text line: many moves in one call.
ghost use Rattle.std.specs.Prelude.{◌≡◌, ◌+◌, ◌<◌, ◌≤◌, ◌^◌, true, false, [], length, take};
ghost use Rattle.nr_input.specs.Place.{is_unseen};
ghost use Rattle.nr_formatter.specs.Many.LineBeginnings.{is_at_text, BeginsText};
ghost use Rattle.nr_formatter.specs.Many.Runs.{is_in_line};
ghost use Rattle.nr_machine.specs.Holding.{shape};
ghost use Rattle.fast_machine.specs.LineBeginnings.{may_take, Begins, PutsMost};
ghost use Rattle.fast_machine.specs.Running.{HasNext, MakesReading, Longest, LongestWords, PutsOfFlow, PutsText};

use crate::empty_lines::read_lines;
use crate::escapes::put_escape;
use crate::fonts::begin_font;
use crate::level_text::put_level_text;
use crate::obeying::answer_after;
use crate::reading::reads_next;
use crate::rereading::put_row;
use fast_input::Gathered;
use nr_formatter::formatter::Formatter;
use nr_formatter::many::runs::Gap;
use nr_machine::Engine;
use nr_units::source::Source;

/// The fewest moves that may be left for many to be made at once: no call makes more.
const MOST_MOVES: u64 = 1 << 21;

/// How many bytes that the source has at hand are put in one call, at most.
const MOST_BYTES: usize = 65_536;

/// How much of some bytes was put.
#[derive(Clone, Copy)]
pub(crate) struct Words {
    pub(crate) taken: usize,
    pub(crate) moves: usize,
}

/// Puts the words that these bytes begin with, with the hyphens, tabs and blanks that go to a word and do not end it, and the blanks
/// that do nothing but end it, in a text line that has begun: up to a byte that is none of these, or to the limit of the line.
#[inline(never)]
pub(crate) fn put_line_words(formatter: &mut Formatter, bytes: &[u8]) -> Words
    requires line { is_in_line formatter.old ≡ true }
    requires few { length bytes.now < 2 ^ 40 }
    ensures puts { PutsText bytes.now result.taken result.moves formatter.old formatter.new }
    ensures flow { PutsOfFlow bytes.now result.taken result.moves formatter.old formatter.new }
    ensures longest { LongestWords bytes.now result.taken formatter.new }
    ensures line { is_at_text formatter.new ≡ true → is_in_line formatter.new ≡ true }
{
    let mut taken = 0;
    let mut moves = 0;
    let manner = formatter.manner();
    loop {
        let word = formatter.put_word(manner, &bytes[taken..]);
        taken += word.count;
        moves += 2 * word.count;
        match word.gap {
            Gap::Left => {
                let count = formatter.put_cell_bytes(&bytes[taken..]);
                if count == 0 {
                    return Words { taken, moves };
                }
                taken += count;
                moves += 2 * count;
            }
            Gap::Flows => {
                return Words {
                    taken: taken + 1,
                    moves: moves + 2,
                };
            }
            Gap::Reads => {
                taken += 1;
                moves += 3;
                if taken == bytes.len() {
                    return Words { taken, moves };
                }
            }
        }
    }
}

/// Puts the text that these bytes begin with, in a text line that has begun: its words, minuses, places to cut and font escapes, and after
/// the newline that ends it and does nothing else, where it begins with a byte that is put or with a font escape, the next line's.
///
/// Proved: Of the text of the source that is at hand as much is put in one call as can be: what comes next is no
/// word, no minus and no place to cut one, no newline that only ends its line, no beginning of text that is put, and no
/// font escape that has its name, of one byte or in the midst of a line of two.
#[inline(always)]
fn put_words(formatter: &mut Formatter, bytes: &[u8]) -> Words
    requires line { is_in_line formatter.old ≡ true }
    requires few { length bytes.now < 2 ^ 40 }
    ensures puts { PutsText bytes.now result.taken result.moves formatter.old formatter.new }
    ensures longest { Longest bytes.now result.taken result.moves formatter.new }
{
    let mut taken = 0;
    let mut moves = 0;
    loop {
        let line = put_line_words(formatter, &bytes[taken..]);
        taken += line.taken;
        moves += line.moves;
        if taken == bytes.len() {
            return Words { taken, moves };
        }
        if bytes[taken] != b'\n' {
            let escape = put_escape(formatter, &bytes[taken..]);
            if escape == 0 {
                return Words { taken, moves };
            }
            taken += escape;
            moves += escape + 1;
            continue;
        }
        match formatter.put_newline() {
            Gap::Left => return Words { taken, moves },
            Gap::Flows => {
                return Words {
                    taken: taken + 1,
                    moves: moves + 2,
                };
            }
            Gap::Reads => {}
        }
        taken += 1;
        moves += 5;
        if !formatter.begin_text(&bytes[taken..]) {
            let font = begin_font(formatter, &bytes[taken..]);
            if font == 0 {
                return Words { taken, moves };
            }
            taken += font;
            moves += font + 2;
        }
    }
}

/// The bytes that come next of the input, as far as the source has them at hand: 65,536 at most.
#[inline(always)]
fn prefix_at_hand<'s, R: Source>(engine: &Engine, input: &'s R) -> &'s [u8]
    ensures few { length result.now ≤ 65536 }
    ensures room { engine.now.place.taken + length result.now < 2 ^ 40 }
    ensures prefix { take (length result.now) (R.at_hand input.now) ≡ result.now }
    ensures next { 0 < length result.now → HasNext result.now (shape engine.now) (R.supply input.now) }
    ensures whole { engine.now.formatter.store.levels ≡ [] → is_unseen engine.now.place.ahead ≡ true →
        engine.now.place.taken + length (R.at_hand input.now) < 2 ^ 40
        → result.now ≡ take 65536 (R.at_hand input.now) }
    ensures begins { engine.now.formatter.store.levels ≡ [] → is_unseen engine.now.place.ahead ≡ true →
        BeginsText (may_take engine.now.place (R.at_hand input.now)) engine.now.formatter
        → BeginsText result.now engine.now.formatter }
{
    let bytes = fast_input::window(&engine.place, &engine.formatter.store, input);
    &bytes[..MOST_BYTES.min(bytes.len())]
}

/// Reads and puts the text of the source at hand, in a text line that has begun, with the blanks and newlines that do
/// nothing but end their word, and tells how many moves that was.
#[inline(always)]
fn put_source_text<R: Source>(engine: &mut Engine, input: &mut R) -> u128
    requires line { is_in_line engine.old.formatter ≡ true }
    ensures reads { MakesReading result (shape engine.old) (shape engine.new) (R.supply input.old)
        (R.supply input.new) (R.failures input.old) (R.failures input.new) }
    ensures few { result ≤ 327680 }
    ensures most { PutsMost (R.at_hand input.old) result (shape engine.old) (shape engine.new) }
{
    let bytes = prefix_at_hand(engine, input);
    let words = put_words(&mut engine.formatter, bytes);
    if words.taken == 0 {
        return 0;
    }
    let last = bytes[words.taken - 1];
    let reader = &mut engine.formatter.reader;
    fast_input::take_window(&mut engine.place, reader, input, last, words.taken);
    words.moves as u128
}

/// The text of a line begins with what the source has at hand, if the first byte of it is put. Tells whether it does.
#[inline(always)]
fn begin_text<R: Source>(engine: &mut Engine, input: &R) -> bool
    ensures begins { result ≡ true
        → Begins (may_take engine.old.place (R.at_hand input.now)) (shape engine.old) (shape engine.new)
        (R.supply input.now) }
    ensures left { result ≡ false → shape engine.new ≡ shape engine.old }
    ensures longest { result ≡ false → engine.old.formatter.store.levels ≡ []
        → is_unseen engine.old.place.ahead ≡ true →
        BeginsText (may_take engine.old.place (R.at_hand input.now)) engine.old.formatter → ⊥ }
{
    let bytes = fast_input::window(&engine.place, &engine.formatter.store, input);
    engine.formatter.begin_text(bytes)
}

/// Reads and puts the plain bytes of a text line that are at hand, those of the newest level if there is one, and the
/// blanks after them, and tells how many moves that was. At the beginning of a line only the source's are read.
#[inline(always)]
fn put_text<R: Source>(engine: &mut Engine, input: &mut R, gathered: &mut Gathered) -> u128
    requires at_text { is_at_text engine.old.formatter ≡ true }
    ensures reads { MakesReading result (shape engine.old) (shape engine.new) (R.supply input.old)
        (R.supply input.new) (R.failures input.old) (R.failures input.new) }
    ensures few { result ≤ 525004 }
{
    let in_line = engine.formatter.is_in_line();
    if engine.formatter.store.is_reading() {
        if !in_line {
            return 0;
        }
        return put_level_text(engine, gathered);
    }
    if !in_line && !begin_text(engine, input) {
        return 0;
    }
    put_source_text(engine, input)
}

/// After text: of levels what was emitted is answered, and what they bring after it is read; of the source what can be read
/// there without anything being done, and empty lines after it. Tells how many moves that was.
#[inline(always)]
fn read_after<R: Source>(engine: &mut Engine, input: &mut R) -> u128
    ensures reads { MakesReading result (shape engine.old) (shape engine.new) (R.supply input.old)
        (R.supply input.new) (R.failures input.old) (R.failures input.new) }
    ensures few { result ≤ 524301 }
{
    if engine.formatter.store.is_reading() {
        return answer_after(engine);
    }
    read_lines(engine, input)
}

/// Reads and puts what is at hand, and tells how many moves that was: plain text, else cells of a diverted line, else what
/// can be read without anything being done, and empty lines after it.
#[inline(always)]
fn put_next<R: Source>(engine: &mut Engine, input: &mut R, gathered: &mut Gathered) -> u128
    ensures reads { MakesReading result (shape engine.old) (shape engine.new) (R.supply input.old)
        (R.supply input.new) (R.failures input.old) (R.failures input.new) }
    ensures few { result ≤ 1049305 }
{
    if engine.formatter.is_at_text() {
        let text = put_text(engine, input, gathered);
        if text > 0 {
            return text + read_after(engine, input);
        }
    }
    let cells = put_row(engine);
    if cells > 0 {
        return cells;
    }
    read_lines(engine, input)
}

/// Reads and puts what is at hand, where the input is read next and so many moves are left that there can't be more. Tells how many
/// moves that was. What is gathered of levels stands in `gathered`, and nothing of it is read in a later call.
///
/// Proved: Many moves in one call are so many moves of the machine, and no call of the source fails in them.
#[inline(always)]
pub fn put_at_hand<R: Source>(
    engine: &mut Engine,
    input: &mut R,
    left: u64,
    gathered: &mut Gathered,
) -> u64
    ensures reads { MakesReading result (shape engine.old) (shape engine.new) (R.supply input.old)
        (R.supply input.new) (R.failures input.old) (R.failures input.new) }
    ensures few { result ≤ left }
{
    if left < MOST_MOVES || !reads_next(engine) {
        return 0;
    }
    put_next(engine, input, gathered) as u64
}
