//! Letters of three bytes are read at once, and put one after another.
ghost use Rattle.std.specs.Prelude.{◌≡◌, ℕ, ◌+◌, ◌*◌, ◌<◌, ◌≤◌, ◌++◌, ◌%◌, length, take, true, Some};
ghost use Rattle.utf8_own_characters.specs.Listening as listening;
ghost use Rattle.utf8_own_characters.specs.Cluster as cluster;
ghost use Rattle.utf8_own_characters.specs.Table.{Good};
ghost use Rattle.utf8_own_stage.specs.Coding as coding;
ghost use Rattle.utf8_own_stage.specs.Letters as specs;
ghost use Rattle.utf8_own_stage.specs.Points.{passed, text_of};
ghost use Rattle.utf8_own_stage.specs.declared.points.Point.TheVariants.{Cut};
ghost use Rattle.utf8_own_stage.specs.declared.points.Waiting.TheVariants as waiting;

use super::coding::{put_cluster, put_done};
use super::points::Place;
use super::sides::is_common;
use nr_vectors::slice_vec::SliceVec;
use utf8_own_characters::{Cluster, Listener, OwnTable, Part, is_mark, may_break_between};

/// Whether these are three bytes of which the first begins a character of three, and the others go one on.
#[inline(always)]
fn is_three(a: u8, b: u8, c: u8) -> bool
    ensures { result ≡ listening.is_three a b c }
{
    matches!(a, 0xE0..=0xEF) && matches!(b, 0x80..=0xBF) && matches!(c, 0x80..=0xBF)
}

/// The number of the character of three such bytes.
#[inline(always)]
fn number_of(a: u8, b: u8, c: u8) -> u32
    ensures value { result ≡ (a % 16) * 4096 + (b % 64) * 64 + c % 64 }
    ensures within { result < 65536 }
{
    u32::from(a % 16) * 4_096 + u32::from(b % 64) * 64 + u32::from(c % 64)
}

/// The letter of a number: no mark, and no sign that shows nothing. Not all are found.
#[inline(always)]
fn letter_by(code: u32) -> Option<char>
    ensures { (c : ℕ) → result ≡ Some c → specs.IsLetter code c }
{
    if code < 0x2070 || code == 0xFEFF {
        return None;
    }
    match char::from_u32(code) {
        Some(character) if !is_mark(character) => Some(character),
        _ => None,
    }
}

/// The letter of three bytes that these begin with, which can be read at once. Not all are found.
#[inline(always)]
pub(crate) fn letter_of(bytes: &[u8]) -> Option<char>
    ensures { (c : ℕ) → result ≡ Some c → specs.Begins bytes.now c }
{
    if bytes.len() < 3 || !is_three(bytes[0], bytes[1], bytes[2]) {
        return None;
    }
    letter_by(number_of(bytes[0], bytes[1], bytes[2]))
}

/// Puts a point, if a line may be cut between two letters; it is known of some that it may.
#[inline(always)]
fn put_cut(last: char, letter: char, both: bool, out: &mut SliceVec<'_, u8>)
    requires common { both ≡ true → specs.cut_between last letter ≡ Cut }
    requires room { length out.old.items + 5 ≤ out.old.capacity }
    ensures items { out.new.items ≡ out.old.items ++ text_of waiting.Nothing (specs.cut_between last letter) }
    ensures few { length out.new.items ≤ length out.old.items + 5 }
    ensures room { out.new.capacity ≡ out.old.capacity }
{
    if both || may_break_between(last, letter) {
        out.extend(b"\\(zb");
    }
}

/// Puts a letter that was held after what is printed before it, where it is known whether that is common. Tells whether the letter is.
#[inline(always)]
fn put_next(
    letter: char,
    last: bool,
    place: &mut Place,
    table: &OwnTable<'_>,
    out: &mut SliceVec<'_, u8>,
) -> bool
    requires good { Good table.now }
    requires quiet { specs.is_quiet place.old ≡ true }
    requires beyond { 128 ≤ letter }
    requires last { last ≡ specs.is_common place.old.before }
    requires room { length out.old.items + 32 ≤ out.old.capacity }
    ensures items { out.new.items ≡ out.old.items ++ coding.said_cluster table.now place.old (Some (cluster.single letter)) }
    ensures place { place.new ≡ passed place.old letter }
    ensures quiet { specs.is_quiet place.new ≡ true }
    ensures common { result ≡ specs.is_common place.new.before }
    ensures few { length out.new.items ≤ length out.old.items + 32 }
    ensures room { out.new.capacity ≡ out.old.capacity }
{
    let common = is_common(letter);
    put_cut(place.before, letter, last && common, out);
    put_cluster(&Cluster::single(letter), table, out);
    place.before = letter;
    common
}

/// The letter that is held, and how many bytes were read.
#[derive(Clone, Copy)]
struct Run {
    letter: char,
    count: usize,
}

/// Puts letters after a first one that is held, in a place where each is printed as it comes. The last is held.
#[inline(always)]
fn put_more(
    first: char,
    bytes: &[u8],
    place: &mut Place,
    table: &OwnTable<'_>,
    out: &mut SliceVec<'_, u8>,
) -> Run
    requires good { Good table.now }
    requires quiet { specs.is_quiet place.old ≡ true }
    requires beyond { 128 ≤ first }
    requires room { length out.old.items + 32 * length bytes.now ≤ out.old.capacity }
    ensures items { out.new.items ≡ out.old.items ++ coding.said_of table.now (specs.holding first) place.old (take result.count bytes.now) }
    ensures few { length out.new.items ≤ length out.old.items + 32 * result.count }
    ensures listener { specs.holding result.letter ≡ listening.after (specs.holding first) (take result.count bytes.now) }
    ensures place { place.new ≡ coding.place_after_all (specs.holding first) place.old (take result.count bytes.now) }
    ensures room { out.new.capacity ≡ out.old.capacity }
    ensures within { result.count ≤ length bytes.now }
{
    let mut letter = first;
    let mut count = 0;
    let mut last = is_common(place.before);
    while let Some(next) = letter_of(&bytes[count..]) {
        last = put_next(letter, last, place, table, out);
        letter = next;
        count += 3;
    }
    Run { letter, count }
}

/// The same in any place, as far as it goes.
#[inline(always)]
fn put_rest(
    first: char,
    bytes: &[u8],
    place: &mut Place,
    table: &OwnTable<'_>,
    out: &mut SliceVec<'_, u8>,
) -> Run
    requires good { Good table.now }
    requires beyond { 128 ≤ first }
    requires room { length out.old.items + 32 * length bytes.now ≤ out.old.capacity }
    ensures items { out.new.items ≡ out.old.items ++ coding.said_of table.now (specs.holding first) place.old (take result.count bytes.now) }
    ensures few { length out.new.items ≤ length out.old.items + 32 * result.count }
    ensures listener { specs.holding result.letter ≡ listening.after (specs.holding first) (take result.count bytes.now) }
    ensures place { place.new ≡ coding.place_after_all (specs.holding first) place.old (take result.count bytes.now) }
    ensures room { out.new.capacity ≡ out.old.capacity }
    ensures within { result.count ≤ length bytes.now }
{
    if place.is_quiet() {
        put_more(first, bytes, place, table, out)
    } else {
        Run {
            letter: first,
            count: 0,
        }
    }
}

/// Puts what comes of the letters that these bytes begin with. Tells how many bytes that is.
#[inline(always)]
pub(crate) fn put_letters(
    first: char,
    bytes: &[u8],
    listener: &mut Listener,
    place: &mut Place,
    table: &OwnTable<'_>,
    out: &mut SliceVec<'_, u8>,
) -> usize
    requires good { Good table.now }
    requires begins { specs.Begins bytes.now first }
    requires room { length out.old.items + 32 * length bytes.now ≤ out.old.capacity }
    ensures items { out.new.items ≡ out.old.items ++ coding.said_of table.now listener.old place.old (take result bytes.now) }
    ensures few { length out.new.items ≤ length out.old.items + 32 * result }
    ensures listener { listener.new ≡ listening.after listener.old (take result bytes.now) }
    ensures place { place.new ≡ coding.place_after_all listener.old place.old (take result bytes.now) }
    ensures room { out.new.capacity ≡ out.old.capacity }
    ensures some { 0 < result }
    ensures within { result ≤ length bytes.now }
{
    put_done(listener.held, place, table, out);
    let run = put_rest(first, &bytes[3..], place, table, out);
    *listener = Listener {
        part: Part::none(),
        held: Some(Cluster::single(run.letter)),
        is_plain: true,
    };
    3 + run.count
}
