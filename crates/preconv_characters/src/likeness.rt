//! What a character looks like.
ghost use Rattle.std.specs.Prelude.{◌≡◌, ◌+◌, ◌≤◌, ◌<◌, ◌++◌, length, true};
ghost use Rattle.preconv_characters.specs.Targets.{byte_in_force, is_long, itself, shown};
ghost use Rattle.preconv_characters.specs.Likeness.{ascii_like, before_nul, beyond_like, box_like, code_emitted, hex_digit, is_blank, is_latin_letter, is_mark, letter_in, likeness, marked_like, plain_letter, sign_like, sign_text, struck_like, text_in, word_text};

use super::composed::Marked;
use super::signs::{LATIN, LATIN_ADDITIONAL, SIGNS, WORDS};
use super::target::Target;
use nr_vectors::slice_vec::SliceVec;

/// U+200B, which prints nothing, and is a place to cut a word.
pub const CUT: u32 = 0x200B;

/// A letter of Latin-1 beyond ASCII.
pub(crate) fn is_latin_letter(code: u32) -> bool
    ensures { result ≡ is_latin_letter code }
{
    matches!(code, 0xAA | 0xB5 | 0xBA | 0xC0..=0xD6 | 0xD8..=0xF6 | 0xF8..=0xFF)
}

/// The byte of a character of the table in force.
pub(crate) fn byte_in_force(target: Target, code: u32) -> Option<u8>
    ensures { result ≡ byte_in_force target code }
{
    match target {
        Target::Bytes(table) => table.byte(code),
        Target::Ascii | Target::Utf8 => None,
    }
}

/// The character of a code; a question mark for half of a pair of UTF-16, and for what is too great.
pub(crate) fn character_of(code: u32) -> char
    ensures { result ≡ shown code }
{
    match char::from_u32(code) {
        Some(character) => character,
        None => '?',
    }
}

/// Puts a character itself, in UTF-8: at most 4 bytes.
pub(crate) fn put_itself(code: u32, out: &mut SliceVec<'_, u8>)
    requires { length out.old.items + 4 ≤ out.old.capacity }
    ensures items { out.new.items ≡ out.old.items ++ itself code }
    ensures few { length out.new.items ≤ length out.old.items + 4 }
    ensures room { out.new.capacity ≡ out.old.capacity }
{
    let mut buffer = [0; 4];
    let text = character_of(code).encode_utf8(&mut buffer).as_bytes();
    out.extend(text);
}

/// Whether a character is three bytes in UTF-8, and stands beyond the signs that print nothing.
#[inline(always)]
pub(crate) fn is_long(code: u32) -> bool
    ensures { result ≡ is_long code }
{
    matches!(code, 0x2070..=0xD7FF | 0xE000..=0xFFFF)
}

/// Puts such a character itself.
#[inline(always)]
pub(crate) fn put_long(code: u32, out: &mut SliceVec<'_, u8>)
    requires long { is_long code ≡ true }
    requires room { length out.old.items + 4 ≤ out.old.capacity }
    ensures items { out.new.items ≡ out.old.items ++ itself code }
    ensures few { length out.new.items ≤ length out.old.items + 4 }
    ensures room { out.new.capacity ≡ out.old.capacity }
{
    out.extend(&[
        (0xE0 + code / 4096) as u8,
        (0x80 + code / 64 % 64) as u8,
        (0x80 + code % 64) as u8,
    ]);
}

/// The letter of a row of letters that begins with `first`, if it has one for the code.
fn letter_in(row: &[u8], first: u32, code: u32) -> Option<u8>
    ensures { result ≡ letter_in row.now first code }
{
    if code < first {
        return None;
    }
    match row.get((code - first) as usize) {
        Some(letter) if *letter != b' ' => Some(*letter),
        _ => None,
    }
}

/// What a table says of a character.
fn text_in<const N: usize>(table: &[(u32, [u8; N])], code: u32) -> Option<[u8; N]>
    ensures { result ≡ text_in table.now code }
{
    for entry in table {
        if entry.0 == code {
            return Some(entry.1);
        }
    }
    None
}

/// Puts the bytes before the first NUL after what goes out.
fn put_text(text: &[u8], out: &mut SliceVec<'_, u8>)
    requires { length out.old.items + length text.now ≤ out.old.capacity }
    ensures items { out.new.items ≡ out.old.items ++ before_nul text.now }
    ensures few { length out.new.items ≤ length out.old.items + length text.now }
    ensures room { out.new.capacity ≡ out.old.capacity }
{
    for byte in text {
        if *byte == 0 {
            return;
        }
        out.push(*byte);
    }
}

/// A digit of base 16.
fn hex_digit(value: u32) -> u8
    requires { value < 16 }
    ensures { result ≡ hex_digit value }
{
    if value < 10 {
        b'0' + value as u8
    } else {
        b'A' - 10 + value as u8
    }
}

/// Puts `<U+XXXX>`, at most ten bytes, after what goes out.
fn put_code(code: u32, out: &mut SliceVec<'_, u8>)
    requires { length out.old.items + 10 ≤ out.old.capacity }
    ensures items { out.new.items ≡ out.old.items ++ code_emitted code }
    ensures few { length out.new.items ≤ length out.old.items + 10 }
    ensures room { out.new.capacity ≡ out.old.capacity }
{
    out.extend(b"<U+");
    if code >= 0x0010_0000 {
        out.push(hex_digit(code / 0x0010_0000 % 16));
    }
    if code >= 0x0001_0000 {
        out.push(hex_digit(code / 0x0001_0000 % 16));
    }
    out.extend(&[
        hex_digit(code / 4096 % 16),
        hex_digit(code / 256 % 16),
        hex_digit(code / 16 % 16),
        hex_digit(code % 16),
        b'>',
    ]);
}

/// What a sign is shown as.
fn sign_text(code: u32) -> Option<[u8; 6]>
    ensures { result ≡ sign_text code }
{
    text_in(&SIGNS, code)
}

/// The word that stands for a character.
fn word_text(code: u32) -> Option<[u8; 21]>
    ensures { result ≡ word_text code }
{
    text_in(&WORDS, code)
}

/// Puts what a sign or a word stands for, or else its code: at most 21 bytes.
fn put_sign(code: u32, out: &mut SliceVec<'_, u8>)
    requires { length out.old.items + 24 ≤ out.old.capacity }
    ensures items { out.new.items ≡ out.old.items ++ sign_like code }
    ensures few { length out.new.items ≤ length out.old.items + 21 }
    ensures room { out.new.capacity ≡ out.old.capacity }
{
    if matches!(code, 0x3040..=0xFAFF) {
        put_code(code, out);
    } else if let Some(text) = sign_text(code) {
        put_text(&text, out);
    } else if let Some(text) = word_text(code) {
        put_text(&text, out);
    } else {
        put_code(code, out);
    }
}

/// The plain letter of a letter with marks.
#[tactic(auto, unfolding(crate::specs::Likeness::plain_letter))]
fn plain_letter(code: u32) -> Option<u8>
    ensures { result ≡ plain_letter code }
{
    match letter_in(&LATIN, 0xC0, code) {
        Some(letter) => Some(letter),
        None => letter_in(&LATIN_ADDITIONAL, 0x1E00, code),
    }
}

/// A mark on the character before it, or a sign without width.
fn is_mark(code: u32) -> bool
    ensures { result ≡ is_mark code }
{
    matches!(
        code,
        0x0300..=0x0337
            | 0x0339..=0x036F
            | 0x200B..=0x200F
            | 0x202A..=0x202E
            | 0x2060..=0x2069
            | 0x20D0..=0x20FF
            | 0xFE00..=0xFE0F
            | 0xFEFF
    )
}

/// A blank that isn't U+0020.
pub fn is_blank(code: u32) -> bool
    ensures { result ≡ is_blank code }
{
    matches!(
        code,
        0x85 | 0x2000..=0x200A | 0x2028 | 0x2029 | 0x202F | 0x205F | 0x3000
    )
}

/// What a part of a box looks like.
fn box_like(code: u32) -> Option<u8>
    ensures { result ≡ box_like code }
{
    match code {
        0x2500 | 0x2501 | 0x2550 => Some(b'-'),
        0x2502 | 0x2503 | 0x251C | 0x2551 => Some(b'|'),
        0x2514 => Some(b'`'),
        0x2504..=0x257F => Some(b'+'),
        _ => None,
    }
}

/// Puts what a character beyond ASCII looks like: at most 21 bytes.
#[tactic(auto, unfolding(crate::specs::Likeness::beyond_like))]
fn put_beyond(code: u32, out: &mut SliceVec<'_, u8>)
    requires { length out.old.items + 24 ≤ out.old.capacity }
    ensures items { out.new.items ≡ out.old.items ++ beyond_like code }
    ensures few { length out.new.items ≤ length out.old.items + 21 }
    ensures room { out.new.capacity ≡ out.old.capacity }
{
    if is_mark(code) {
        return;
    }
    if is_blank(code) {
        out.extend(b"\\ ");
        return;
    }
    if matches!(code, 0xFF01..=0xFF5E) {
        put_ascii((code - 0xFEE0) as u8, out);
    } else if let Some(letter) = plain_letter(code) {
        out.push(letter);
    } else if let Some(part) = box_like(code) {
        out.push(part);
    } else {
        put_sign(code, out);
    }
}

/// Puts an ASCII character that stood as an escape, so that it is read as itself, and by tbl as text: at most 4 bytes.
fn put_ascii(byte: u8, out: &mut SliceVec<'_, u8>)
    requires { length out.old.items + 4 ≤ out.old.capacity }
    ensures items { out.new.items ≡ out.old.items ++ ascii_like byte }
    ensures few { length out.new.items ≤ length out.old.items + 4 }
    ensures room { out.new.capacity ≡ out.old.capacity }
{
    match byte {
        b' ' => out.extend(b"\\ "),
        b'"' => out.extend(b"\\(dq"),
        b'\'' => out.extend(b"\\(aq"),
        b'.' => out.extend(b"\\&."),
        b'=' => out.extend(b"\\&="),
        b'_' => out.extend(b"\\&_"),
        b'\\' => out.extend(b"\\(rs"),
        b'!'..=b'~' => out.push(byte),
        _ => {}
    }
}

/// Puts a character with a stroke through it: at most 25 bytes.
pub(crate) fn put_struck(code: u32, target: Target, out: &mut SliceVec<'_, u8>)
    requires { length out.old.items + 25 ≤ out.old.capacity }
    ensures items { out.new.items ≡ out.old.items ++ struck_like target code }
    ensures few { length out.new.items ≤ length out.old.items + 25 }
    ensures room { out.new.capacity ≡ out.old.capacity }
{
    out.push(b'!');
    put_likeness(code, target, out);
}

/// Puts a letter with marks: where the target has what they compose to, that and a mark that composes with nothing, else the letter: at
/// most 25 bytes.
pub(crate) fn put_marked(marked: Marked, target: Target, out: &mut SliceVec<'_, u8>)
    requires { length out.old.items + 28 ≤ out.old.capacity }
    ensures items { out.new.items ≡ out.old.items ++ marked_like target marked }
    ensures few { length out.new.items ≤ length out.old.items + 25 }
    ensures room { out.new.capacity ≡ out.old.capacity }
{
    if target.is_utf8() {
        put_likeness(marked.whole, target, out);
        if marked.mark != 0 {
            put_itself(marked.mark, out);
        }
    } else if let Some(byte) = byte_in_force(target, marked.whole) {
        out.push(byte);
    } else {
        put_likeness(marked.letter, target, out);
    }
}

/// Puts what a character becomes after what goes out: its byte, itself, a place to cut a word, or what it looks like. That is at most 21
/// bytes, and room for 24 is needed.
pub fn put_likeness(code: u32, target: Target, out: &mut SliceVec<'_, u8>)
    requires { length out.old.items + 24 ≤ out.old.capacity }
    ensures items { out.new.items ≡ out.old.items ++ likeness target code }
    ensures few { length out.new.items ≤ length out.old.items + 21 }
    ensures room { out.new.capacity ≡ out.old.capacity }
{
    if code < 128 {
        put_ascii(code as u8, out);
    } else if code == CUT {
        out.extend(b"\\(zb");
    } else if target.is_utf8() {
        put_itself(code, out);
    } else if let Some(byte) = byte_in_force(target, code) {
        out.push(byte);
    } else {
        put_beyond(code, out);
    }
}
