//! The bytes of a text line of levels, gathered with those of the arguments, registers and strings that are spliced between them.
ghost use Rattle.std.specs.Prelude.{◌≡◌, ℕ, ◌+◌, ◌-◌, ◌<◌, ◌≤◌, ◌^◌, [], length, map, take, drop, slice_get, false, true, Option, None, Some, IfSome};
ghost use Rattle.nr_units.specs.Character.{code};
ghost use Rattle.nr_symbol_tables.specs.Table.{find};
ghost use Rattle.nr_store.specs.Store.{charge_of, shown, words};
ghost use Rattle.nr_store.specs.Windows.{rest_of, left_times};
ghost use Rattle.nr_store.specs.declared.element.Element.TheVariants as elements;
ghost use Rattle.nr_store.specs.declared.shown.Shown.TheVariants as shows;
ghost use Rattle.nr_reading.specs.declared.event.Event.TheVariants as events;
ghost use Rattle.nr_reading.specs.declared.next_item.NextItem.TheVariants as variants;
ghost use Rattle.nr_reading.specs.Many.Braces.{is_byte};
ghost use Rattle.nr_reading.specs.Many.Interpolations.{AsksOnly};
ghost use Rattle.nr_reading.specs.Many.InText.{is_in_text};
ghost use Rattle.nr_reading.specs.Many.Runs.{HasTakenIn};
ghost use Rattle.nr_input.specs.declared.reader.Reader.{Reader as ReaderValue};
ghost use Rattle.nr_input.specs.Place.{element_item};
ghost use Rattle.fast_input.specs.Gathering.{AreGathered, GathersMost, IsGathered, IsGathering, Leaves, StopsGathering, brace_items, last_asked, nothing_gathered, own_bytes, passed, spliced, with_splice};
ghost use Rattle.fast_input.specs.Interpolations.{MaySplice, opened};
ghost use Rattle.fast_input.specs.Stretches.{AreBytes, EndsRun};

use crate::interpolations::{LONGEST, begin_splice, brings_text, copy_splice};
use crate::level_stretches::Tail;
use crate::splices::{MOST, Splice, Splices};
use crate::stretches::{ByteStretch, ElementStretch, copy_run};
use nr_input::Reader;
use nr_reading::{Event, Items, PendingAct};
use nr_store::{Rest, Store};
use nr_units::Name;

/// The most bytes that are gathered.
const LONGEST_CHUNK: usize = 4096;

/// What was gathered of the newest level.
#[derive(Drop)]
pub struct Gathered {
    /// How many items of the level.
    pub items: usize,
    /// How many bytes.
    pub count: usize,
    /// Whether `\}` comes after them, which does nothing.
    pub closes: bool,
    /// Whether a newline comes after that.
    pub ends: bool,
    /// How many moves lead after the items, besides those that the bytes are put in.
    moves: usize,
    /// The arguments, registers and strings whose bytes are among them.
    splices: Splices,
}

impl Gathered {
    /// Nothing.
    pub fn new() -> Gathered
        ensures { result ≡ nothing_gathered }
    {
        Gathered {
            items: 0,
            count: 0,
            closes: false,
            ends: false,
            moves: 0,
            splices: Splices::new(),
        }
    }

    // Nothing any more.
    #[inline(always)]
    fn clear(&mut self)
        ensures { self.new ≡ nothing_gathered }
    {
        self.items = 0;
        self.count = 0;
        self.closes = false;
        self.ends = false;
        self.moves = 0;
        self.splices.clear();
    }

    // So many bytes of the level more.
    #[inline(always)]
    fn pass(&mut self, count: usize)
        requires items { self.old.items + count < 2 ^ 63 }
        requires count { self.old.count + count < 2 ^ 63 }
        ensures { self.new ≡ passed count self.old }
    {
        self.items += count;
        self.count += count;
    }

    // So many bytes more that are spliced, whose escape has so many items and was taken in by so many moves: those of this name's text, or of
    // an argument or a register.
    #[inline(always)]
    fn add(&mut self, items: usize, moves: usize, count: usize, asked: Name, named: bool)
        requires few { length self.old.splices < 8 }
        requires items { self.old.items + items < 2 ^ 63 }
        requires count { self.old.count + count < 2 ^ 63 }
        requires moves { self.old.moves + moves + 2 < 2 ^ 63 }
        ensures { self.new ≡ with_splice items moves count asked named self.old }
    {
        self.splices.push(Splice {
            afterwards: self.items + items,
            before: self.count,
            count,
            moves: self.moves + moves + 1,
            asked,
            named,
        });
        self.items += items;
        self.count += count;
        self.moves += moves + 2;
    }

    // How many items `\}` has after them, each of which is a move: 0 where it does not come.
    #[inline(always)]
    fn brace(&self) -> usize
        ensures { result ≡ brace_items self.now.closes }
    {
        if self.closes { 2 } else { 0 }
    }
}

// Whether a stretch has this byte after so many items.
#[inline(always)]
fn has_byte<I: Items>(stretch: &I, place: usize, byte: u8) -> bool
    ensures { result ≡ is_byte byte (slice_get (I.next_items stretch.now) place) }
{
    place < stretch.count() && stretch.byte(place) == Some(byte)
}

// Whether a stretch begins with a newline, or with `closes` after the `\}` that it begins with.
#[inline(always)]
fn has_newline<I: Items>(stretch: &I, closes: bool) -> bool
    ensures { result ≡ is_byte (code "\n") (slice_get (I.next_items stretch.now) (brace_items closes)) }
{
    if closes {
        return has_byte(stretch, 2, b'\n');
    }
    has_byte(stretch, 0, b'\n')
}

// So many splices more are counted, and this name was asked for last.
#[inline(always)]
fn pass_splices(reader: &mut Reader, count: usize, asked: Name)
    requires burst { reader.old.burst + count ≤ reader.old.most }
    ensures { reader.new ≡ spliced count asked reader.old }
{
    reader.count_splices(count);
    reader.half.notes.asked = asked;
}

// All of these are counted.
#[inline(always)]
fn pass_all(reader: &mut Reader, splices: &Splices)
    requires burst { 0 < length splices.now → reader.old.burst + length splices.now ≤ reader.old.most }
    ensures { reader.new ≡ spliced (length splices.now) (last_asked splices.now reader.old.half.notes.asked)
        reader.old }
{
    if let Some(splice) = splices.last() {
        pass_splices(reader, splices.len(), splice.asked);
    }
}

// An escape that was taken in, and the bytes that it brings.
#[derive(Clone, Copy)]
struct TakenIn {
    // How many items it has.
    taken: usize,
    // How many moves they were taken in by.
    moves: usize,
    // How many bytes it brings.
    count: usize,
}

// The escape that a stretch begins with is taken in, and the bytes that it brings are put into the chunk, of 64 bytes or more, where they are those
// of an argument, a register or a string: they are to be spliced then. Else what is half read stays.
#[inline(always)]
fn take_in_splice<K: Copy, I: Items>(
    reader: &mut Reader,
    store: &Store<K>,
    stretch: &I,
    chunk: &mut [u8],
) -> Option<TakenIn>
    requires text { is_in_text reader.old.half ≡ true }
    requires holds { 64 ≤ length chunk.old }
    ensures taken_in { IfSome result (λ taken_in. HasTakenIn taken_in.moves (I.next_items stretch.now) reader.old.half
        (record { taken = taken_in.taken; half = reader.new.half; event = events.Nothing })) }
    ensures few { IfSome result (λ taken_in. taken_in.moves ≤ 6) }
    ensures asks { IfSome result (λ taken_in. AsksOnly reader.old.half reader.new.half) }
    ensures reader { IfSome result (λ taken_in. reader.new ≡ record reader.old { half = reader.new.half }) }
    ensures may { IfSome result (λ taken_in. (n : ℕ) → n ≤ length (rest_of store.now.levels)
        → MaySplice (take taken_in.count chunk.new) (left_times n store.now) reader.new) }
    ensures within { IfSome result (λ taken_in. taken_in.count ≤ length chunk.new) }
    ensures left { result ≡ None → reader.new ≡ reader.old }
{
    let asked = reader.half.notes.asked;
    let Some(run) = reader.half.take_in_next(stretch) else {
        return None;
    };
    if matches!(run.event, Event::Nothing) {
        if let Some(count) = copy_splice(reader, store, chunk) {
            return Some(TakenIn {
                taken: run.taken,
                moves: run.moves,
                count,
            });
        }
    }
    reader.half.reading.pending_act = PendingAct::Look;
    reader.half.notes.asked = asked;
    None
}

// The escape that a stretch begins with is taken in, and the bytes that it brings are put after those that were gathered, where they are those
// of an argument, a register or a string. Answers how many items it has: 0 where it is none of these.
#[inline(always)]
fn gather_escape<K: Copy, I: Items>(
    reader: &mut Reader,
    store: &Store<K>,
    stretch: &I,
    chunk: &mut [u8],
    gathered: &mut Gathered,
) -> usize
    requires text { is_in_text reader.old.half ≡ true }
    requires stretch { I.next_items stretch.now ≡ drop gathered.old.items (map element_item (rest_of store.now.levels)) }
    requires count { gathered.old.count ≤ length chunk.old }
    requires holds { length chunk.old ≤ 4096 }
    requires items { gathered.old.items ≤ 8192 }
    requires moves { gathered.old.moves ≤ 64 }
    ensures gathered { (r : ReaderValue)
        → IsGathering (take gathered.old.count chunk.old) store.now r reader.old gathered.old
        → IsGathering (take gathered.new.count chunk.new) store.now r reader.new gathered.new }
    ensures text { is_in_text reader.new.half ≡ true }
    ensures items { gathered.new.items ≡ gathered.old.items + result }
    ensures within { result ≤ length (I.next_items stretch.now) }
    ensures count { gathered.new.count ≤ length chunk.new }
    ensures more { gathered.old.count ≤ gathered.new.count }
    ensures ends { gathered.new.ends ≡ gathered.old.ends }
    ensures holds { length chunk.new ≡ length chunk.old }
{
    if gathered.splices.len() == MOST || chunk.len() - gathered.count < LONGEST {
        return 0;
    }
    let Some(taken_in) = take_in_splice(reader, store, stretch, &mut chunk[gathered.count..]) else {
        return 0;
    };
    let named = brings_text(reader);
    gathered.add(
        taken_in.taken,
        taken_in.moves,
        taken_in.count,
        reader.half.notes.asked,
        named,
    );
    begin_splice(reader);
    taken_in.taken
}

// Gathers the bytes that a stretch begins with, and answers how many.
#[inline(always)]
fn gather_run<I: Items>(stretch: &I, chunk: &mut [u8], gathered: &mut Gathered) -> usize
    requires count { gathered.old.count ≤ length chunk.old }
    requires holds { length chunk.old ≤ 4096 }
    requires items { gathered.old.items ≤ 8192 }
    ensures passed { gathered.new ≡ passed result gathered.old }
    ensures within { result ≤ length (I.next_items stretch.now) }
    ensures count { gathered.new.count ≤ length chunk.new }
    ensures holds { length chunk.new ≡ length chunk.old }
    ensures kept { take gathered.old.count chunk.new ≡ take gathered.old.count chunk.old }
    ensures bytes { AreBytes (take result (drop gathered.old.count chunk.new)) (I.next_items stretch.now) }
    ensures longest { gathered.old.count + result < length chunk.old
        → EndsRun (slice_get (I.next_items stretch.now) result) }
{
    let count = copy_run(stretch, &mut chunk[gathered.count..]);
    gathered.pass(count);
    count
}

// Gathers what comes next in a stretch, from an escape on, and answers what is left of it. The reader stands where that many are spliced.
#[inline(always)]
fn gather_more<K: Copy, I: Tail>(
    reader: &mut Reader,
    store: &Store<K>,
    stretch: I,
    chunk: &mut [u8],
    gathered: &mut Gathered,
) -> I
    requires text { is_in_text reader.old.half ≡ true }
    requires stretch { I.next_items stretch ≡ drop gathered.old.items (map element_item (rest_of store.now.levels)) }
    requires count { gathered.old.count ≤ length chunk.old }
    requires holds { length chunk.old ≤ 4096 }
    requires room { 64 ≤ length chunk.old }
    requires gathered { IsGathering (take gathered.old.count chunk.old) store.now reader.old reader.old
        gathered.old }
    requires stops { StopsGathering (rest_of store.now.levels) gathered.old.items gathered.old.count }
    ensures stretch { I.next_items result ≡ drop gathered.new.items (map element_item (rest_of store.now.levels)) }
    ensures count { gathered.new.count ≤ length chunk.new }
    ensures holds { length chunk.new ≡ length chunk.old }
    ensures ends { gathered.new.ends ≡ gathered.old.ends }
    ensures gathered { IsGathering (take gathered.new.count chunk.new) store.now reader.old reader.new
        gathered.new }
    ensures stops { StopsGathering (rest_of store.now.levels) gathered.new.items gathered.new.count }
{
    let mut rest = stretch;
    for _ in 0..MOST {
        let taken = gather_escape(reader, store, &rest, chunk, gathered);
        if taken == 0 {
            return rest;
        }
        rest = rest.afterwards(taken);
        let count = gather_run(&rest, chunk, gathered);
        rest = rest.afterwards(count);
    }
    rest
}

// The same, where an escape comes next, and the reader is put back.
#[inline(always)]
fn gather_escapes<K: Copy, I: Tail>(
    reader: &mut Reader,
    store: &Store<K>,
    stretch: I,
    chunk: &mut [u8],
    gathered: &mut Gathered,
) -> I
    requires text { is_in_text reader.old.half ≡ true }
    requires stretch { I.next_items stretch ≡ drop gathered.old.items (map element_item (rest_of store.now.levels)) }
    requires count { gathered.old.count ≤ length chunk.old }
    requires holds { length chunk.old ≤ 4096 }
    requires room { 64 ≤ length chunk.old }
    requires gathered { IsGathering (take gathered.old.count chunk.old) store.now reader.old reader.old
        gathered.old }
    requires stops { StopsGathering (rest_of store.now.levels) gathered.old.items gathered.old.count }
    ensures stretch { I.next_items result ≡ drop gathered.new.items (map element_item (rest_of store.now.levels)) }
    ensures count { gathered.new.count ≤ length chunk.new }
    ensures holds { length chunk.new ≡ length chunk.old }
    ensures ends { gathered.new.ends ≡ gathered.old.ends }
    ensures gathered { AreGathered (take gathered.new.count chunk.new) gathered.new.items gathered.new.moves
        gathered.new.splices store.now reader.old }
    ensures stops { StopsGathering (rest_of store.now.levels) gathered.new.items gathered.new.count }
    ensures left { reader.new ≡ reader.old }
{
    if !has_byte(&stretch, 0, b'\\') {
        return stretch;
    }
    let burst = reader.burst;
    let asked = reader.half.notes.asked;
    let rest = gather_more(reader, store, stretch, chunk, gathered);
    reader.burst = burst;
    reader.half.notes.asked = asked;
    rest
}

// Gathers what comes next in the stretch of the newest level.
#[inline(always)]
fn gather_stretch<K: Copy, I: Tail>(
    reader: &mut Reader,
    store: &Store<K>,
    stretch: I,
    chunk: &mut [u8],
    gathered: &mut Gathered,
)
    requires text { is_in_text reader.old.half ≡ true }
    requires stretch { I.next_items stretch ≡ map element_item (rest_of store.now.levels) }
    requires holds { length chunk.old ≤ 4096 }
    requires room { 64 ≤ length chunk.old }
    requires none { gathered.old ≡ nothing_gathered }
    ensures gathered { IsGathered (take gathered.new.count chunk.new) store.now reader.old gathered.new }
    ensures within { gathered.new.count ≤ length chunk.new }
    ensures holds { length chunk.new ≡ length chunk.old }
    ensures most { GathersMost (rest_of store.now.levels) gathered.new }
    ensures left { reader.new ≡ reader.old }
{
    let count = gather_run(&stretch, chunk, gathered);
    let rest = gather_escapes(reader, store, stretch.afterwards(count), chunk, gathered);
    gathered.closes = reader.half.takes_in_brace(&rest);
    gathered.ends = has_newline(&rest, gathered.closes);
}

/// Gathers the bytes that come next of the newest level into the chunk, with those of the arguments, registers and strings that are
/// spliced between them: up to a newline or the `\}` before it, and as many as there is room for. Nothing is taken.
///
/// Proved: In a text line the bytes that come next of the newest level are gathered, with those of the arguments,
/// registers and strings that are spliced between them: nothing is taken, and they are followed by a newline or a
/// `\`, or there are 64 or more. A closing brace after them is reported, and the newline after that. Taking a prefix
/// of them is exactly the moves by which they come. If all are taken and reading goes on, the two moves of that brace
/// are added. (`gather`, `leave`)
pub fn gather<K: Copy>(
    reader: &mut Reader,
    store: &Store<K>,
    chunk: &mut [u8],
    gathered: &mut Gathered,
)
    requires text { is_in_text reader.old.half ≡ true }
    requires room { 64 ≤ length chunk.old }
    ensures gathered { IsGathered (take gathered.new.count chunk.new) store.now reader.old gathered.new }
    ensures within { gathered.new.count ≤ length chunk.new }
    ensures room { length chunk.new ≡ length chunk.old }
    ensures most { GathersMost (rest_of store.now.levels) gathered.new }
    ensures left { reader.new ≡ reader.old }
{
    let most = chunk.len().min(LONGEST_CHUNK);
    let chunk = &mut chunk[..most];
    gathered.clear();
    match store.rest() {
        Rest::Text(elements) => gather_stretch(
            reader,
            store,
            ElementStretch(elements),
            chunk,
            gathered,
        ),
        Rest::Bytes(bytes) => gather_stretch(reader, store, ByteStretch(bytes), chunk, gathered),
    }
}

// A level of the bytes that a splice brings is opened.
#[inline(always)]
fn open_splice<K: Copy>(store: &mut Store<K>, bytes: &[u8], splice: &Splice)
    requires within { splice.now.before + splice.now.count ≤ length bytes.now }
    requires charge { charge_of store.old + (32 + splice.now.count) ≤ store.old.limit }
    requires depth { length store.old.levels < store.old.deepest }
    requires text { splice.now.named ≡ true → words (find splice.now.asked store.old.names)
        ≡ Some (map elements.Byte (own_bytes splice.now bytes.now)) }
    ensures { store.new ≡ opened splice.now.named (own_bytes splice.now bytes.now)
        splice.now.asked store.old }
{
    if splice.named {
        let _ = store.enter(splice.asked);
        return;
    }
    let own = &bytes[splice.before..splice.before + splice.count];
    let _ = store.enter_bytes(own);
}

// It is, and so many of those that were gathered are taken.
#[inline(always)]
fn enter_splice<K: Copy>(store: &mut Store<K>, bytes: &[u8], splice: &Splice, taken: usize)
    requires few { length bytes.now ≤ 4096 }
    requires within { splice.now.before + splice.now.count ≤ length bytes.now }
    requires begun { splice.now.before < taken }
    requires part { taken ≤ splice.now.before + splice.now.count }
    requires charge { charge_of store.old + (32 + splice.now.count) ≤ store.old.limit }
    requires depth { length store.old.levels < store.old.deepest }
    requires text { splice.now.named ≡ true → words (find splice.now.asked store.old.names)
        ≡ Some (map elements.Byte (own_bytes splice.now bytes.now)) }
    ensures { store.new ≡ left_times (taken - splice.now.before)
        (opened splice.now.named (own_bytes splice.now bytes.now) splice.now.asked store.old) }
{
    open_splice(store, bytes, splice);
    store.skip((taken - splice.before) as u32);
}

// So many of the bytes that were gathered are taken, and nothing after the last of them: where an argument, a register or a string
// brings it, a level is opened for that.
#[inline(never)]
fn leave_part<K: Copy>(
    reader: &mut Reader,
    store: &mut Store<K>,
    bytes: &[u8],
    gathered: &Gathered,
    taken: usize,
) -> usize
    requires gathered { IsGathered bytes.now store.old reader.old gathered.now }
    requires within { taken ≤ length bytes.now }
    ensures leaves { Leaves false result (take taken bytes.now) store.old reader.old store.new reader.new }
    ensures few { result ≤ 64 }
{
    let begun = gathered.splices.begun(taken);
    if begun == 0 {
        store.skip(taken as u32);
        return 0;
    }
    let splice = gathered.splices.at(begun - 1);
    pass_splices(reader, begun, splice.asked);
    store.skip(splice.afterwards as u32);
    let end = splice.before + splice.count;
    if end < taken {
        store.skip((taken - end) as u32);
        return splice.moves + 1;
    }
    enter_splice(store, bytes, &splice, taken);
    splice.moves
}

/// So many of the bytes that were gathered are taken, with what is spliced between them, and with `goes` what is spliced after them and
/// the `\}` that does nothing, up to what comes next. Answers how many moves that was besides those that the bytes are put in.
#[inline(always)]
pub fn leave<K: Copy>(
    reader: &mut Reader,
    store: &mut Store<K>,
    bytes: &[u8],
    gathered: &Gathered,
    taken: usize,
    goes: bool,
) -> usize
    requires text { is_in_text reader.old.half ≡ true }
    requires gathered { IsGathered bytes.now store.old reader.old gathered.now }
    requires within { taken ≤ length bytes.now }
    ensures leaves { Leaves goes result (take taken bytes.now) store.old reader.old store.new reader.new }
    ensures next { goes ≡ true → gathered.now.ends ≡ true → taken ≡ length bytes.now
        → shown store.new.levels ≡ shows.Item (elements.Byte (code "\n")) }
    ensures few { result ≤ 66 }
{
    if !goes || taken < gathered.count {
        return leave_part(reader, store, bytes, gathered, taken);
    }
    let brace = gathered.brace();
    store.skip((gathered.items + brace) as u32);
    pass_all(reader, &gathered.splices);
    gathered.moves + brace
}
