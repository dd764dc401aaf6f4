//! What is plain goes out at once, letter after letter, where no backspace follows.
ghost use Rattle.std.specs.Prelude.{◌≡◌, ℕ, ◌+◌, ◌*◌, ◌<◌, ◌≤◌, List, ◌++◌, drop, get_or, length, take, true, IfSome};
ghost use Rattle.utf8_own_sink.specs.Letters.{is_plain};
ghost use Rattle.utf8_own_sink.specs.Reading.{IsLetterRead, IsNarrow, IsPair, Moves, is_as_is, resting};
ghost use Rattle.utf8_own_characters.specs.Table.{Characters};
ghost use Rattle.utf8_own_sink.specs.declared.letters.Way.{Way};

use super::cells::bare_letter;
use super::letters::put_character;
use nr_vectors::slice_vec::SliceVec;
use utf8_own_characters::{OwnTable, Read};

/// The letter that was read, where nothing else comes.
#[inline(always)]
fn letter_read(read: &Read) -> Option<char>
    ensures { IfSome result (λ letter. IsLetterRead read.now letter) }
{
    match read.cluster {
        Some(cluster) if read.blanks == 0 && read.held.is_none() => bare_letter(&cluster),
        _ => None,
    }
}

/// The letter of a lead and a trail.
#[inline(always)]
fn pair_letter(lead: u8, trail: u8, table: &OwnTable<'_>) -> Option<char>
    ensures { IfSome result (λ letter. IsPair table.now lead trail letter) }
{
    if lead < 128 || trail < 128 || !table.is_lead(lead) {
        return None;
    }
    letter_read(&table.read(Some(lead), trail))
}

/// The letter of a byte alone.
#[inline(always)]
fn narrow_letter(byte: u8, table: &OwnTable<'_>) -> Option<char>
    ensures { IfSome result (λ letter. IsNarrow table.now byte letter) }
{
    if byte < 128 {
        return None;
    }
    letter_read(&table.read(None, byte))
}

/// Puts the letter of the pair that these bytes begin with, where it is plain and no backspace follows: at most 4 bytes. Tells how many bytes it is of.
#[inline(always)]
fn put_pair(bytes: &[u8], table: &OwnTable<'_>, out: &mut SliceVec<'_, u8>) -> usize
    requires { length out.old.items + 4 ≤ out.old.capacity }
    ensures moves { (way : Way) → is_plain way ≡ true →
        Moves table.now (resting way) (resting way) out.old.items out.new.items bytes.now (drop result bytes.now) }
    ensures within { result ≤ length bytes.now }
    ensures few { length out.new.items ≤ length out.old.items + 4 * result }
    ensures room { out.new.capacity ≡ out.old.capacity }
{
    if bytes.len() < 3 || bytes[2] == b'\x08' {
        return 0;
    }
    if let Some(letter) = pair_letter(bytes[0], bytes[1], table) {
        put_character(letter, out);
        return 2;
    }
    0
}

/// Whether a byte of ASCII is shown as it comes: a newline, or one that is no control character.
#[inline(always)]
fn is_as_is(byte: u8) -> bool
    ensures { result ≡ is_as_is byte }
{
    matches!(byte, b' '..=b'~') || byte == b'\n'
}

/// How many of these bytes come first that are such, up to so many.
#[inline(always)]
fn as_is_len(bytes: &[u8], most: usize) -> usize
    ensures as_is { (i : ℕ) → i < result → is_as_is (get_or bytes.now i 0) ≡ true }
    ensures within { result ≤ length bytes.now }
    ensures few { result ≤ most }
{
    let mut len = 0;
    while len < bytes.len() && len < most && is_as_is(bytes[len]) {
        len += 1;
    }
    len
}

/// How many of these bytes of ASCII come first over which nothing is struck, up to so many: the last is a blank, or what follows it is
/// known.
#[inline(always)]
fn ascii_len(bytes: &[u8], most: usize) -> usize
    ensures moves { (t : Characters) → (way : Way) → (p : List ℕ) → is_plain way ≡ true →
        Moves t (resting way) (resting way) p (p ++ take result bytes.now) bytes.now (drop result bytes.now) }
    ensures within { result ≤ length bytes.now }
    ensures few { result ≤ most }
{
    let len = as_is_len(bytes, most);
    if len == 0 || bytes[len - 1] <= b' ' {
        return len;
    }
    if len < bytes.len() && bytes[len] != b'\x08' {
        return len;
    }
    len - 1
}

/// Puts the plain letter that these bytes begin with, where no backspace follows: at most 4 bytes. Tells how many bytes it is of.
#[inline(always)]
fn put_letter(bytes: &[u8], table: &OwnTable<'_>, out: &mut SliceVec<'_, u8>) -> usize
    requires some { 0 < length bytes.now }
    requires room { length out.old.items + 4 ≤ out.old.capacity }
    ensures moves { (way : Way) → is_plain way ≡ true →
        Moves table.now (resting way) (resting way) out.old.items out.new.items bytes.now (drop result bytes.now) }
    ensures within { result ≤ length bytes.now }
    ensures few { length out.new.items ≤ length out.old.items + 4 * result }
    ensures room { out.new.capacity ≡ out.old.capacity }
{
    if bytes.len() < 2 || bytes[1] == b'\x08' {
        return 0;
    }
    if table.is_lead(bytes[0]) {
        return put_pair(bytes, table, out);
    }
    if let Some(letter) = narrow_letter(bytes[0], table) {
        put_character(letter, out);
        return 1;
    }
    0
}

/// Puts what the first of these bytes come to, where it is plain and no backspace follows. Tells how many they are.
#[inline(always)]
fn put_first(bytes: &[u8], table: &OwnTable<'_>, out: &mut SliceVec<'_, u8>) -> usize
    requires some { 0 < length bytes.now }
    requires room { length out.old.items + 4 ≤ out.old.capacity }
    ensures moves { (way : Way) → is_plain way ≡ true →
        Moves table.now (resting way) (resting way) out.old.items out.new.items bytes.now (drop result bytes.now) }
    ensures within { result ≤ length bytes.now }
    ensures few { length out.new.items ≤ length out.old.items + 4 * result }
    ensures room { out.new.capacity ≡ out.old.capacity }
{
    if bytes[0] >= 128 {
        return put_letter(bytes, table, out);
    }
    let len = ascii_len(bytes, out.capacity() - out.len());
    out.extend_prefix(bytes, len);
    len
}

/// Puts what is plain at the start of these bytes, as long as there is room, and tells how many they are.
pub(crate) fn put_run(bytes: &[u8], table: &OwnTable<'_>, out: &mut SliceVec<'_, u8>) -> usize
    ensures moves { (way : Way) → is_plain way ≡ true →
        Moves table.now (resting way) (resting way) out.old.items out.new.items bytes.now (drop result bytes.now) }
    ensures within { result ≤ length bytes.now }
    ensures few { length out.new.items ≤ length out.old.items + 4 * result }
    ensures room { out.new.capacity ≡ out.old.capacity }
{
    let mut len = 0;
    while len < bytes.len() && out.capacity() - out.len() >= 4 {
        let taken = put_first(&bytes[len..], table, out);
        if taken == 0 {
            return len;
        }
        len += taken;
    }
    len
}
