//! Interpolations that are read at once: where all that they bring is only taken in or added, no level is opened for it.
ghost use Rattle.std.specs.Prelude.{◌≡◌, ℕ, ◌+◌, ◌*◌, ◌<◌, ◌≤◌, ◌∷◌, [], Option, IfSome, length, take, true};
ghost use Rattle.nr_units.specs.NumberText.{number_text};
ghost use Rattle.nr_units.specs.Source.{Supply};
ghost use Rattle.nr_symbol_tables.specs.Table.{find};
ghost use Rattle.nr_store.specs.Store.{charge_of, reading_bytes, register_of};
ghost use Rattle.nr_store.specs.Windows.{rest_of, left_times};
ghost use Rattle.nr_reading.specs.declared.ask.Sign.TheVariants as signs;
ghost use Rattle.nr_reading.specs.declared.mode.PendingAct.TheVariants as pending_acts;
ghost use Rattle.nr_input.specs.Acting.{expanded, register_text};
ghost use Rattle.nr_input.specs.Place.{Coming, Reached, HoldsComing};
ghost use Rattle.fast_input.specs.Interpolations.{IsSplice, MaySplice, brings_text, stepping};
ghost use Rattle.nr_input.specs.Limits.{limits_of};
ghost use Rattle.nr_input.specs.Moving.{situation};
ghost use Rattle.fast_input.specs.Runs.{HasRead, PaysAll, PaysMany};

use crate::adding::add_prefix;
use crate::beginnings::take_in_bytes;
use crate::runs::{Moved, read_added};
use crate::stretches::{ElementStretch, copy_run};
use crate::target::Target;
use nr_input::Reader;
use nr_reading::{Event, Half, Mode, PendingAct, Run, Sign};
use nr_store::Store;
use nr_units::{Format, format_number};

/// The most bytes of an interpolation that is read at once.
pub(crate) const LONGEST: usize = 64;

// Whether bytes are copied: else a level of them is read as text.
#[inline(always)]
fn copies(half: &Half) -> bool {
    !matches!(half.reading.mode, Mode::Text | Mode::Start)
}

// The digit that is all of a number's text, where that is one of 0 to 9 in Arabic.
#[inline(always)]
fn lone_digit(number: i32, format: Format) -> Option<u8>
    ensures { IfSome result (λ digit. number_text format number ≡ digit ∷ []) }
{
    let value = number.unsigned_abs();
    if number < 0 || value > 9 {
        return None;
    }
    match format {
        Format::Arabic { places } if places <= 1 => Some(b'0' + value as u8),
        _ => None,
    }
}

// Whether a level of so many bytes may be opened, and as many bytes be stored of it before its end.
#[inline(always)]
fn may_splice<K: Copy>(reader: &Reader, len: usize, store: &Store<K>) -> bool
    ensures few { result ≡ true → len ≤ 64 }
    ensures burst { result ≡ true → reader.now.burst < reader.now.most }
    ensures charge { result ≡ true → charge_of store.now + (32 + 2 * len) ≤ store.now.limit }
    ensures depth { result ≡ true → length store.now.levels < store.now.deepest }
{
    len <= LONGEST && reader.burst < reader.most && store.admits(32 + 2 * len)
}

// Bytes are read as those of a level that brings them: how many, and in how many moves.
#[inline(always)]
fn read_bytes<K: Copy>(reader: &mut Reader, bytes: &[u8], store: &mut Store<K>) -> Run
    requires few { length bytes.now ≤ 64 }
    requires room { charge_of store.old + (32 + 2 * length bytes.now) ≤ store.old.limit }
    ensures read { (c : Coming) (p : Reached) (supply : Option Supply) → HoldsComing c p supply →
        HasRead result.moves (situation (reading_bytes bytes.now store.old) c reader.old) result.event
        (left_times result.taken (reading_bytes bytes.now store.new)) reader.new p supply }
    ensures pays { (p : Reached)
        → PaysAll result.moves (reading_bytes bytes.now store.old) p reader.old result.event
        (left_times result.taken (reading_bytes bytes.now store.new)) p reader.new }
    ensures within { result.taken ≤ length bytes.now }
    ensures few { result.moves ≤ 131074 }
    ensures levels { store.new.levels ≡ store.old.levels }
    ensures deepest { store.new.deepest ≡ store.old.deepest }
    ensures room { charge_of store.new + (32 + length bytes.now) ≤ store.new.limit }
    ensures limits { limits_of store.new reader.new ≡ limits_of store.old reader.old }
{
    let Some(target) = Target::of(&reader.half) else {
        return take_in_bytes(reader, bytes, store);
    };
    let taken = add_prefix(target, &reader.half, store, bytes);
    Run {
        taken,
        moves: 2 * taken,
        event: Event::Nothing,
    }
}

// Bytes are spliced and read. Where that is all that their level brings, none is opened; else it is opened after those that were
// read. No move where a limit is near.
#[inline(always)]
fn splice_read<K: Copy>(reader: &mut Reader, bytes: &[u8], store: &mut Store<K>) -> Moved
    requires pending_act { IsSplice bytes.now store.old reader.old }
    ensures read { (c : Coming) (p : Reached) (supply : Option Supply) → HoldsComing c p supply
        → HasRead result.moves (situation store.old c reader.old) result.event store.new reader.new p supply }
    ensures pays { (p : Reached)
        → PaysMany result.moves store.old p reader.old result.event store.new p reader.new }
    ensures few { result.moves ≤ 131076 }
    ensures limits { limits_of store.new reader.new ≡ limits_of store.old reader.old }
    ensures reader { result.moves ≡ 0 → reader.new ≡ reader.old }
    ensures store { result.moves ≡ 0 → store.new ≡ store.old }
{
    if !may_splice(reader, bytes.len(), store) {
        return Moved {
            moves: 0,
            event: Event::Nothing,
        };
    }
    begin_splice(reader);
    let run = read_bytes(reader, bytes, store);
    if run.taken == bytes.len() && matches!(run.event, Event::Nothing) && reader.looks() {
        return Moved {
            moves: run.moves + 2,
            event: Event::Nothing,
        };
    }
    let _ = store.enter_bytes(bytes);
    store.skip(run.taken as u32);
    Moved {
        moves: run.moves + 1,
        event: run.event,
    }
}

// The same, and where no level was opened the first items of the newest level after it.
#[inline(always)]
fn splice_on<K: Copy>(reader: &mut Reader, bytes: &[u8], store: &mut Store<K>) -> Moved
    requires pending_act { IsSplice bytes.now store.old reader.old }
    ensures read { (c : Coming) (p : Reached) (supply : Option Supply) → HoldsComing c p supply
        → HasRead result.moves (situation store.old c reader.old) result.event store.new reader.new p supply }
    ensures pays { (p : Reached)
        → PaysMany result.moves store.old p reader.old result.event store.new p reader.new }
    ensures few { result.moves ≤ 197124 }
    ensures limits { limits_of store.new reader.new ≡ limits_of store.old reader.old }
    ensures reader { result.moves ≡ 0 → reader.new ≡ reader.old }
    ensures store { result.moves ≡ 0 → store.new ≡ store.old }
{
    let spliced = splice_read(reader, bytes, store);
    if spliced.moves == 0 || !matches!(spliced.event, Event::Nothing) || !reader.looks() {
        return spliced;
    }
    let stretch = read_added(reader, store);
    Moved {
        moves: spliced.moves + stretch.moves,
        event: stretch.event,
    }
}

// An argument is spliced.
#[inline(never)]
fn read_argument<K: Copy>(reader: &mut Reader, n: u8, store: &mut Store<K>) -> Moved
    requires pending_act { reader.old.half.reading.pending_act ≡ pending_acts.Argument n }
    ensures read { (c : Coming) (p : Reached) (supply : Option Supply) → HoldsComing c p supply
        → HasRead result.moves (situation store.old c reader.old) result.event store.new reader.new p supply }
    ensures pays { (p : Reached)
        → PaysMany result.moves store.old p reader.old result.event store.new p reader.new }
    ensures few { result.moves ≤ 197124 }
    ensures limits { limits_of store.new reader.new ≡ limits_of store.old reader.old }
    ensures reader { result.moves ≡ 0 → reader.new ≡ reader.old }
    ensures store { result.moves ≡ 0 → store.new ≡ store.old }
{
    let bytes = store.argument(usize::from(n));
    let len = bytes.len();
    if len > LONGEST {
        return Moved {
            moves: 0,
            event: Event::Nothing,
        };
    }
    let mut chunk = [0; LONGEST];
    chunk[..len].copy_from_slice(bytes);
    splice_on(reader, &chunk[..len], store)
}

// A register is spliced.
#[inline(never)]
fn read_register<K: Copy>(reader: &mut Reader, store: &mut Store<K>) -> Moved
    requires pending_act { reader.old.half.reading.pending_act ≡ pending_acts.Register signs.None }
    ensures read { (c : Coming) (p : Reached) (supply : Option Supply) → HoldsComing c p supply
        → HasRead result.moves (situation store.old c reader.old) result.event store.new reader.new p supply }
    ensures pays { (p : Reached)
        → PaysMany result.moves store.old p reader.old result.event store.new p reader.new }
    ensures few { result.moves ≤ 197124 }
    ensures limits { limits_of store.new reader.new ≡ limits_of store.old reader.old }
    ensures reader { result.moves ≡ 0 → reader.new ≡ reader.old }
    ensures store { result.moves ≡ 0 → store.new ≡ store.old }
{
    let register = store.register(reader.half.notes.asked);
    if let Some(digit) = lone_digit(register.value, register.format) {
        return splice_on(reader, &[digit], store);
    }
    let text = format_number(i64::from(register.value), register.format);
    splice_on(reader, text.as_slice(), store)
}

// A register's step is added or taken away, and the register is spliced.
#[inline(never)]
fn read_stepped<K: Copy>(reader: &mut Reader, up: bool, store: &mut Store<K>) -> Moved
    requires pending_act { reader.old.half.reading.pending_act ≡ pending_acts.Register (stepping up) }
    ensures read { (c : Coming) (p : Reached) (supply : Option Supply) → HoldsComing c p supply
        → HasRead result.moves (situation store.old c reader.old) result.event store.new reader.new p supply }
    ensures pays { (p : Reached)
        → PaysMany result.moves store.old p reader.old result.event store.new p reader.new }
    ensures few { result.moves ≤ 197125 }
    ensures some { 0 < result.moves }
    ensures limits { limits_of store.new reader.new ≡ limits_of store.old reader.old }
{
    let _ = reader.step(up, store);
    let spliced = read_register(reader, store);
    Moved {
        moves: spliced.moves + 1,
        event: spliced.event,
    }
}

/// An argument or a register is spliced where that is pending and bytes are copied, and read. No move where that is not pending or a limit
/// is near.
#[inline(always)]
pub(crate) fn interpolate_at_once<K: Copy>(reader: &mut Reader, store: &mut Store<K>) -> Moved
    ensures read { (c : Coming) (p : Reached) (supply : Option Supply) → HoldsComing c p supply
        → HasRead result.moves (situation store.old c reader.old) result.event store.new reader.new p supply }
    ensures pays { (p : Reached)
        → PaysMany result.moves store.old p reader.old result.event store.new p reader.new }
    ensures few { result.moves ≤ 197125 }
    ensures limits { limits_of store.new reader.new ≡ limits_of store.old reader.old }
    ensures reader { result.moves ≡ 0 → reader.new ≡ reader.old }
    ensures store { result.moves ≡ 0 → store.new ≡ store.old }
{
    let pending_act = reader.half.reading.pending_act;
    match pending_act {
        PendingAct::Argument(n) if copies(&reader.half) => read_argument(reader, n, store),
        PendingAct::Register(Sign::None) if copies(&reader.half) => read_register(reader, store),
        PendingAct::Register(Sign::Plus) if copies(&reader.half) => read_stepped(
            reader, true, store,
        ),
        PendingAct::Register(Sign::Minus) if copies(&reader.half) => read_stepped(
            reader, false, store,
        ),
        _ => Moved {
            moves: 0,
            event: Event::Nothing,
        },
    }
}

// The bytes of an argument that is to be spliced are put into the chunk.
#[inline(always)]
fn copy_argument<K: Copy>(
    reader: &Reader,
    n: u8,
    store: &Store<K>,
    chunk: &mut [u8],
) -> Option<usize>
    requires pending_act { reader.now.half.reading.pending_act ≡ pending_acts.Argument n }
    requires holds { 64 ≤ length chunk.old }
    ensures may { IfSome result (λ count. (n : ℕ) → n ≤ length (rest_of store.now.levels)
        → MaySplice (take count chunk.new) (left_times n store.now) reader.now) }
    ensures within { IfSome result (λ count. count ≤ length chunk.new) }
{
    let bytes = store.argument(usize::from(n));
    let len = bytes.len();
    if !may_splice(reader, len, store) {
        return None;
    }
    chunk[..len].copy_from_slice(bytes);
    Some(len)
}

// The text of a register that is to be spliced is put into the chunk.
#[inline(always)]
fn copy_text<K: Copy>(
    reader: &Reader,
    text: &[u8],
    store: &Store<K>,
    chunk: &mut [u8],
) -> Option<usize>
    requires pending_act { reader.now.half.reading.pending_act ≡ pending_acts.Register signs.None }
    requires text { text.now
        ≡ register_text (register_of (find reader.now.half.notes.asked store.now.registers)) }
    requires holds { 64 ≤ length chunk.old }
    ensures may { IfSome result (λ count. (n : ℕ) → n ≤ length (rest_of store.now.levels)
        → MaySplice (take count chunk.new) (left_times n store.now) reader.now) }
    ensures within { IfSome result (λ count. count ≤ length chunk.new) }
{
    let len = text.len();
    if !may_splice(reader, len, store) {
        return None;
    }
    chunk[..len].copy_from_slice(text);
    Some(len)
}

// The same of the register that was asked for.
#[inline(always)]
fn copy_register<K: Copy>(reader: &Reader, store: &Store<K>, chunk: &mut [u8]) -> Option<usize>
    requires pending_act { reader.now.half.reading.pending_act ≡ pending_acts.Register signs.None }
    requires holds { 64 ≤ length chunk.old }
    ensures may { IfSome result (λ count. (n : ℕ) → n ≤ length (rest_of store.now.levels)
        → MaySplice (take count chunk.new) (left_times n store.now) reader.now) }
    ensures within { IfSome result (λ count. count ≤ length chunk.new) }
{
    let register = store.register(reader.half.notes.asked);
    if let Some(digit) = lone_digit(register.value, register.format) {
        return copy_text(reader, &[digit], store, chunk);
    }
    let text = format_number(i64::from(register.value), register.format);
    copy_text(reader, text.as_slice(), store, chunk)
}

// The text of the name that was asked for is put into the chunk, where it is bytes alone, and neither a `\` nor a newline is among them.
#[inline(always)]
fn copy_string<K: Copy>(reader: &Reader, store: &Store<K>, chunk: &mut [u8]) -> Option<usize>
    requires pending_act { reader.now.half.reading.pending_act ≡ pending_acts.Splice }
    requires holds { 64 ≤ length chunk.old }
    ensures may { IfSome result (λ count. (n : ℕ) → n ≤ length (rest_of store.now.levels)
        → MaySplice (take count chunk.new) (left_times n store.now) reader.now) }
    ensures within { IfSome result (λ count. count ≤ length chunk.new) }
{
    let Some(text) = store.text(reader.half.notes.asked) else {
        return None;
    };
    let len = text.len();
    if !may_splice(reader, len, store) || copy_run(&ElementStretch(text), chunk) < len {
        return None;
    }
    Some(len)
}

/// The bytes of an argument, a register or a string are put into the chunk, of 64 bytes or more, where that is to be spliced, has 64 at
/// most, and no limit is near. Tells how many.
#[inline(always)]
pub(crate) fn copy_splice<K: Copy>(
    reader: &Reader,
    store: &Store<K>,
    chunk: &mut [u8],
) -> Option<usize>
    requires holds { 64 ≤ length chunk.old }
    ensures may { IfSome result (λ count. (n : ℕ) → n ≤ length (rest_of store.now.levels)
        → MaySplice (take count chunk.new) (left_times n store.now) reader.now) }
    ensures within { IfSome result (λ count. count ≤ length chunk.new) }
{
    match reader.half.reading.pending_act {
        PendingAct::Argument(n) => copy_argument(reader, n, store, chunk),
        PendingAct::Register(Sign::None) => copy_register(reader, store, chunk),
        PendingAct::Splice => copy_string(reader, store, chunk),
        _ => None,
    }
}

/// Whether what is pending is to splice the text of the name that was asked for.
#[inline(always)]
pub(crate) fn brings_text(reader: &Reader) -> bool
    ensures { result ≡ brings_text reader.now.half.reading.pending_act }
{
    matches!(reader.half.reading.pending_act, PendingAct::Splice)
}

/// The splice is counted, and what it brings is read next. One more must be allowed.
#[inline(always)]
pub(crate) fn begin_splice(reader: &mut Reader)
    requires burst { reader.old.burst < reader.old.most }
    ensures { reader.new ≡ expanded reader.old }
{
    reader.count_splices(1);
    reader.half.reading.pending_act = PendingAct::Look;
}
