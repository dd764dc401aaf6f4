//! Words of levels: many moves in one call.
ghost use Rattle.std.specs.Prelude.{◌≡◌, ◌≤◌, length, true};
ghost use Rattle.nr_units.specs.Character.{code};
ghost use Rattle.nr_store.specs.Store.{shown};
ghost use Rattle.nr_store.specs.Windows.{rest_of};
ghost use Rattle.nr_store.specs.declared.element.Element.TheVariants as elements;
ghost use Rattle.nr_store.specs.declared.shown.Shown.TheVariants as shows;
ghost use Rattle.fast_input.specs.Gathering.{GathersMost, IsGathered};
ghost use Rattle.nr_formatter.specs.Many.Runs.{is_in_line};
ghost use Rattle.nr_machine.specs.Holding.{shape};
ghost use Rattle.fast_machine.specs.Running.{EndsLine, LongestOfLevels, MakesInPlace, MakesInText};

use crate::plain_text::put_line_words;
use crate::reading::read_levels_once;
use fast_input::Gathered;
use nr_formatter::formatter::Formatter;
use nr_formatter::many::runs::Gap;
use nr_machine::Engine;

/// The most words, newlines and interpolations of a text in one call.
const MOST_PARTS: u32 = 4096;

/// After how many moves no further part is put in one call.
const ENOUGH_MOVES: u128 = 65_536;

/// How many bytes of levels are gathered at once, at most.
const LONGEST_LINE: usize = 128;

/// Reads the newline that comes next of the newest level where it does nothing but end the text line, and tells how many moves that
/// was.
#[inline(always)]
fn put_level_newline(formatter: &mut Formatter) -> usize
    requires next { shown formatter.old.store.levels ≡ shows.Item (elements.Byte (code "\n")) }
    ensures puts { MakesInText result formatter.old formatter.new }
    ensures few { result ≤ 5 }
    ensures ends { EndsLine formatter.old formatter.new }
{
    match formatter.put_newline() {
        Gap::Left => 0,
        Gap::Flows => {
            formatter.store.skip(1);
            2
        }
        Gap::Reads => {
            formatter.store.skip(1);
            5
        }
    }
}

/// Puts the words that the gathered bytes begin with, in a text line that has begun, and the newline after them, and takes them. Tells
/// how many moves that was.
#[inline(always)]
fn put_gathered(formatter: &mut Formatter, bytes: &[u8], gathered: &Gathered) -> usize
    requires line { is_in_line formatter.old ≡ true }
    requires gathered { IsGathered bytes.now formatter.old.store formatter.old.reader gathered.now }
    requires most { GathersMost (rest_of formatter.old.store.levels) gathered.now }
    requires few { length bytes.now ≤ 128 }
    ensures puts { MakesInText result formatter.old formatter.new }
    ensures few { result ≤ 711 }
    ensures longest { LongestOfLevels formatter.old.store formatter.old.reader formatter.new }
{
    if bytes.is_empty() && !gathered.ends {
        return 0;
    }
    formatter.fit_memory();
    let words = put_line_words(formatter, bytes);
    let goes = formatter.is_in_line();
    let besides = fast_input::leave(
        &mut formatter.reader,
        &mut formatter.store,
        bytes,
        gathered,
        words.taken,
        goes,
    );
    formatter.fit_memory();
    let moves = words.moves + besides;
    if goes && gathered.ends && words.taken == bytes.len() {
        return moves + put_level_newline(formatter);
    }
    moves
}

/// Reads and puts the words that come next of levels, in a text line that has begun, with the blanks after them and the newline, and
/// tells how many moves that was.
#[inline(always)]
fn put_level_line(engine: &mut Engine, gathered: &mut Gathered) -> u128
    requires line { is_in_line engine.old.formatter ≡ true }
    ensures puts { MakesInPlace result (shape engine.old) (shape engine.new) }
    ensures few { result ≤ 711 }
    ensures longest { LongestOfLevels engine.old.formatter.store engine.old.formatter.reader
        engine.new.formatter }
{
    let mut bytes = [0; LONGEST_LINE];
    let formatter = &mut engine.formatter;
    fast_input::gather(
        &mut formatter.reader,
        &formatter.store,
        &mut bytes,
        gathered,
    );
    let count = gathered.count;
    put_gathered(&mut engine.formatter, &bytes[..count], gathered) as u128
}

/// Reads and puts the text of levels, in a text line that has begun, as long as it is in such a line, and tells how many moves
/// that was.
#[inline(never)]
pub(crate) fn put_level_text(engine: &mut Engine, gathered: &mut Gathered) -> u128
    requires line { is_in_line engine.old.formatter ≡ true }
    ensures puts { MakesInPlace result (shape engine.old) (shape engine.new) }
    ensures few { result ≤ 525004 }
{
    let mut moves = 0u128;
    for _ in 0..MOST_PARTS {
        let next = put_level_line(engine, gathered) + read_levels_once(engine);
        moves += next;
        if next == 0 || !engine.formatter.is_in_line() || moves > ENOUGH_MOVES {
            return moves;
        }
    }
    moves
}
