//! The table that a page takes.
ghost use Rattle.std.specs.Prelude.{◌≡◌, ◌<◌, ◌≤◌, [], length, take, get_or, OnOk, true, false};
ghost use Rattle.std.specs.List.{sum_by};
ghost use Rattle.nr_units.specs.Failures.{counted};
ghost use Rattle.utf8_converter.specs.Choosing as specs;
ghost use Rattle.document_stages.specs.Running.{Ends};

use super::names::{NAMES, Name};
use nr_units::source::{Fault, Source};
use nr_vectors::slice_vec::SliceVec;
use utf8_characters::FixedTable;

/// How many bytes of a page are looked at.
pub const LOOKED_AT: usize = 65_536;

/// A number above that of each character of a table.
pub const CHARACTERS: usize = 10_240;

/// The acute accent, which a backslash and an apostrophe name.
const ACUTE: usize = 0xB4;

/// The byte at a place of a page, or 0 after its end.
#[inline]
fn byte_at(page: &[u8], place: usize) -> u8
    ensures { result ≡ get_or page.now place 0 }
{
    match page.get(place) {
        Some(byte) => *byte,
        None => 0,
    }
}

/// Whether a byte goes on a character.
fn is_tail(byte: u8) -> bool
    ensures { result ≡ specs.is_tail byte }
{
    matches!(byte, 0x80..=0xBF)
}

/// The character that three bytes begin with, or 0.
fn character_of_bytes(a: u8, b: u8, c: u8) -> usize
    ensures { result ≡ specs.character_of_bytes a b c }
{
    if matches!(a, 0xC2..=0xDF) && is_tail(b) {
        return usize::from(a % 32) * 64 + usize::from(b % 64);
    }
    if matches!(a, 0xE0..=0xEF) && (is_tail(b) && is_tail(c)) {
        let code = usize::from(a % 16) * 4096 + usize::from(b % 64) * 64 + usize::from(c % 64);
        return if code < 0x800 { 0 } else { code };
    }
    0
}

/// The character of a name among these, or 0.
fn character_named(names: &[Name], first: u8, second: u8) -> usize
    ensures { result ≡ specs.character_named names.now first second }
{
    for name in names {
        if name.0 == first && name.1 == second {
            return name.2 as usize;
        }
    }
    0
}

/// The character that is named after a backslash, at a place of a page, or 0.
fn named_at(page: &[u8], place: usize) -> usize
    requires { place ≤ length page.now }
    ensures { result ≡ specs.named_at NAMES page.now place }
{
    match byte_at(page, place) {
        b'\'' => ACUTE,
        b'(' => character_named(&NAMES, byte_at(page, place + 1), byte_at(page, place + 2)),
        b'[' if byte_at(page, place + 3) == b']' => {
            character_named(&NAMES, byte_at(page, place + 1), byte_at(page, place + 2))
        }
        _ => 0,
    }
}

/// The character that begins at a place of a page, or is named there, or 0.
fn character_at(page: &[u8], place: usize) -> usize
    requires { place < length page.now }
    ensures { result ≡ specs.character_at page.now place }
{
    let first = byte_at(page, place);
    if first == b'\\' {
        return named_at(page, place + 1);
    }
    if first < 0xC2 {
        return 0;
    }
    character_of_bytes(first, byte_at(page, place + 1), byte_at(page, place + 2))
}

/// How often a character was counted.
fn count_of(character: u32, counts: &[u32]) -> u32
    ensures { result ≡ get_or counts.now character 0 }
{
    match counts.get(character as usize) {
        Some(count) => *count,
        None => 0,
    }
}

/// Sets all of them to 0.
fn clear(counts: &mut [u32])
    ensures { specs.Counts [] 0 counts.new }
{
    for count in counts {
        *count = 0;
    }
}

/// Counts each character of a page.
fn count_all(page: &[u8], counts: &mut [u32])
    requires { length page.now ≤ 65536 }
    ensures { specs.Counts page.now (length page.now) counts.new }
{
    clear(counts);
    for place in 0..page.len() {
        let character = character_at(page, place);
        if character < counts.len() {
            counts[character] += 1;
        }
    }
}

/// How often characters were counted, all of these together.
fn sum_of(characters: &[char; 128], counts: &[u32]) -> u64
    ensures { result ≡ sum_by (λ c. get_or counts.now c 0) characters.now }
{
    let mut sum = 0;
    for character in characters {
        sum += u64::from(count_of(u32::from(*character), counts));
    }
    sum
}

/// How many characters of the page that was counted a table has.
fn covered(table: FixedTable, counts: &[u32]) -> u64
    ensures { result ≡ specs.covered_by counts.now table }
{
    sum_of(table.characters(), counts)
}

/// The second of two tables where it has more of the characters, and else the first.
fn better(first: FixedTable, second: FixedTable, counts: &[u32]) -> FixedTable
    ensures { result ≡ specs.better_by counts.now first second }
{
    if covered(first, counts) < covered(second, counts) {
        second
    } else {
        first
    }
}

/// The table that has most of the characters.
fn fullest(counts: &[u32]) -> FixedTable
    ensures { result ≡ specs.fullest_by counts.now }
{
    let european = better(FixedTable::English, FixedTable::Latin, counts);
    better(
        better(european, FixedTable::Cyrillic, counts),
        FixedTable::Greek,
        counts,
    )
}

/// The table of a page that was counted.
fn chosen(counts: &[u32]) -> FixedTable
    ensures { result ≡ specs.chosen_by counts.now }
{
    let table = fullest(counts);
    if covered(table, counts) == 0 {
        FixedTable::English
    } else {
        table
    }
}

/// Takes bytes at hand, as many as there is room for, and tells whether there was one.
fn take_at_hand<R: Source>(input: &mut R, page: &mut SliceVec<'_, u8>) -> bool
    ensures took { result ≡ true → specs.ComesAfter (R.supply input.old) (R.supply input.new) page.old.items
        page.new.items }
    ensures some { result ≡ true → length page.old.items < length page.new.items }
    ensures none { result ≡ false → (input.new ≡ input.old) × (page.new.items ≡ page.old.items) }
    ensures failures { R.failures input.new ≡ R.failures input.old }
    ensures room { page.new.capacity ≡ page.old.capacity }
{
    let window = input.window();
    let count = window.len().min(page.capacity() - page.len());
    if count == 0 {
        return false;
    }
    page.extend_prefix(window, count);
    input.skip(count);
    true
}

/// Takes bytes at hand, or the next one. At the end there is none.
fn take_more<R: Source>(input: &mut R, page: &mut SliceVec<'_, u8>) -> Result<bool, Fault>
    requires { length page.old.items < page.old.capacity }
    ensures took { OnOk result (specs.ComesAfter (R.supply input.old) (R.supply input.new) page.old.items
        page.new.items) }
    ensures some { result ≡ Ok true → length page.old.items < length page.new.items }
    ensures ends { result ≡ Ok false → Ends (R.supply input.old) (R.supply input.new) }
    ensures failures { R.failures input.new ≡ counted (R.failures input.old) result }
    ensures room { page.new.capacity ≡ page.old.capacity }
{
    if take_at_hand(input, page) {
        return Ok(true);
    }
    match input.next() {
        Ok(Some(byte)) => {
            page.push(byte);
            Ok(true)
        }
        Ok(None) => Ok(false),
        Err(Fault) => Err(Fault),
    }
}

/// Takes what the input gives first, as much as there is room for.
fn read_prefix<R: Source>(input: &mut R, page: &mut SliceVec<'_, u8>) -> Result<(), Fault>
    requires { page.old.items ≡ [] }
    ensures prefix { OnOk result (specs.IsPrefix (R.supply input.old) (R.supply input.new) page.new.capacity
        page.new.items) }
    ensures failures { R.failures input.new ≡ counted (R.failures input.old) result }
    ensures room { page.new.capacity ≡ page.old.capacity }
{
    while !page.is_full() {
        if !take_more(input, page)? {
            return Ok(());
        }
    }
    Ok(())
}

/// The bytes of a page that are looked at.
fn first_of(page: &[u8]) -> &[u8]
    ensures { result.now ≡ take 65536 page.now }
{
    &page[..LOOKED_AT.min(page.len())]
}

/// Chooses a table for a page that is at hand, as `choose` does: by its first 65,536 bytes. The slice holds what is counted.
///
/// Proved: The table of a page at hand is that of `choose`. (`choose_of`)
pub fn choose_of(page: &[u8], counts: &mut [u32]) -> FixedTable
    requires { length counts.old ≡ 10240 }
    ensures { result ≡ specs.chosen (take 65536 page.now) }
{
    count_all(first_of(page), counts);
    chosen(counts)
}

/// Chooses a table for a page, by its first 65,536 bytes: the one that has most of the characters of UTF-8 in them, and
/// of those that are named and that only some tables have; the first of `english`, `latin`, `cyrillic` and `greek` where
/// several have as many, and so `english` where none has one. The slices hold these bytes and what is counted; what they
/// held is of no account. Nothing is allocated.
///
/// Proved: The table that is chosen for a page has, of the first 65,536 bytes, at least as many characters as any
/// other to choose from: those that stand there, and those of the names in `NAMES` (names.rt).
pub fn choose<R: Source>(
    input: &mut R,
    page: &mut [u8],
    counts: &mut [u32],
) -> Result<FixedTable, Fault>
    requires page { length page.old ≡ 65536 }
    requires counts { length counts.old ≡ 10240 }
    ensures value { specs.Chooses (R.supply input.old) result }
    // An error is emitted where a call of the source failed.
    ensures failures { R.failures input.new ≡ counted (R.failures input.old) result }
{
    let mut prefix = SliceVec::over(page);
    read_prefix(input, &mut prefix)?;
    count_all(prefix.as_slice(), counts);
    Ok(chosen(counts))
}
