//! The names of characters (groff_char(7)).
ghost use Rattle.std.specs.Prelude.{◌≡◌};
ghost use Rattle.preconv_characters.specs.Glyphs.{before_blank, below_codes, code_of, font_of, glyph_code, is_native, is_pair, is_struck, letter_code, letter_of, long_code, looked_up, named_in, overstruck, pair_code, quote_of, string_code, unmarked_code};
ghost use Rattle.preconv_characters.specs.Likeness.{before_nul};

use super::numbers::number_from;
use super::pairs::{NAMES, PAIRS};
use nr_units::Name;

/// The greatest code of a character, and one.
const CODES: u32 = 0x0011_0000;

/// Whether a name is made of these two bytes.
pub fn is_pair(name: &[u8], first: u8, second: u8) -> bool
    ensures { result ≡ is_pair first second name.now }
{
    match name {
        [a, b] => *a == first && *b == second,
        _ => false,
    }
}

/// What a table says of a name of two bytes.
pub(crate) fn looked_up<T: Copy>(table: &[(u8, u8, T)], first: u8, second: u8) -> Option<T>
    ensures { result ≡ looked_up table.now first second }
{
    for entry in table {
        if entry.0 == first && entry.1 == second {
            return Some(entry.2);
        }
    }
    None
}

/// A code, if it is that of a character.
pub(crate) fn below_codes(code: Option<u32>) -> Option<u32>
    ensures { result ≡ below_codes code }
{
    match code {
        Some(code) if code < CODES => Some(code),
        _ => None,
    }
}

/// The character with this number.
pub fn code_of(digits: &[u8]) -> Option<u32>
    ensures { result ≡ code_of digits.now }
{
    below_codes(number_from(10, 0, digits))
}

/// The character of two bytes.
fn pair_code(first: u8, second: u8) -> Option<u32>
    ensures { result ≡ pair_code first second }
{
    looked_up(&PAIRS, first, second)
}

/// What stands before the first NUL.
fn before_nul(text: &[u8]) -> &[u8]
    ensures { result.now ≡ before_nul text.now }
{
    for (i, byte) in text.iter().enumerate() {
        if *byte == 0 {
            return &text[..i];
        }
    }
    text
}

/// What stands before the first blank.
fn before_blank(text: &[u8]) -> &[u8]
    ensures { result.now ≡ before_blank text.now }
{
    for (i, byte) in text.iter().enumerate() {
        if *byte == b' ' {
            return &text[..i];
        }
    }
    text
}

/// What a table says of a name.
pub(crate) fn named_in<const N: usize>(table: &[([u8; N], u32)], name: &[u8]) -> Option<u32>
    ensures { result ≡ named_in table.now name.now }
{
    for entry in table {
        if before_nul(&entry.0) == name {
            return Some(entry.1);
        }
    }
    None
}

/// The character of a longer name.
fn long_code(name: &[u8]) -> Option<u32>
    ensures { result ≡ long_code name.now }
{
    named_in(&NAMES, name)
}

/// The character of a name without marks.
fn unmarked_code(name: &[u8]) -> Option<u32>
    ensures { result ≡ unmarked_code name.now }
{
    if name.len() == 2 {
        return pair_code(name[0], name[1]);
    }
    if name.len() > 4 && name[0] == b'u' {
        return below_codes(number_from(16, 0, &name[1..]));
    }
    if name.len() > 4 && name[0] == b'c' && name[1] == b'h' && name[2] == b'a' && name[3] == b'r' {
        return code_of(&name[4..]);
    }
    long_code(name)
}

/// The letter before marks.
fn letter_code(name: &[u8]) -> Option<u32>
    ensures { result ≡ letter_code name.now }
{
    match name {
        [letter] => Some(u32::from(*letter)),
        _ => unmarked_code(name),
    }
}

/// The character of a name, without the marks that are named after it.
pub fn glyph_code(name: &[u8]) -> Option<u32>
    ensures { result ≡ glyph_code name.now }
{
    let letter = before_blank(name);
    if name.len() > 2 && letter.len() < name.len() {
        letter_code(letter)
    } else {
        unmarked_code(name)
    }
}

/// A name whose last mark is a stroke through the letter, U+0338.
pub fn is_struck(name: &[u8]) -> bool
    ensures { result ≡ is_struck name.now }
{
    name.len() >= 5 && &name[name.len() - 5..] == b"_0338".as_slice()
}

/// A name that the language has itself.
pub fn is_native(name: &[u8]) -> bool
    ensures { result ≡ is_native name.now }
{
    is_pair(name, b'h', b'y')
        || is_pair(name, b'e', b'm')
        || is_pair(name, b'b', b'u')
        || is_pair(name, b'a', b'q')
        || is_pair(name, b'd', b'q')
        || is_pair(name, b'r', b's')
}

/// What spells the quote that a sign is once it was translated.
pub fn quote_of(name: &[u8]) -> Option<Name>
    ensures { result ≡ quote_of name.now }
{
    if is_pair(name, b'i', b's') {
        return Some(Name::of(b"\\(aq"));
    }
    if is_pair(name, b'i', b'f') {
        return Some(Name::of(b"\\`"));
    }
    if is_pair(name, b'p', b'd') {
        return Some(Name::of(b"\\(dq"));
    }
    None
}

/// The character that a string of man(7) is.
pub fn string_code(name: &[u8]) -> Option<u32>
    ensures { result ≡ string_code name.now }
{
    if is_pair(name, b'l', b'q') {
        return Some(u32::from('“'));
    }
    if is_pair(name, b'r', b'q') {
        return Some(u32::from('”'));
    }
    if name == b"R".as_slice() {
        return Some(u32::from('®'));
    }
    None
}

/// The character that stands last of those over one another.
pub fn overstruck(text: &[u8]) -> Option<u32>
    ensures { result ≡ overstruck text.now }
{
    if text.len() >= 4 && &text[text.len() - 4..text.len() - 2] == b"\\(".as_slice() {
        return glyph_code(&text[text.len() - 2..]);
    }
    match text.last() {
        Some(last) => Some(u32::from(*last)),
        None => None,
    }
}

/// The letter of a font with a name of one byte, if it is one.
fn letter_of(name: u8) -> Option<u8>
    ensures { result ≡ letter_of name }
{
    match name {
        b'R' | b'1' | b'5' => Some(b'R'),
        b'I' | b'2' | b'4' => Some(b'I'),
        b'B' | b'3' | b'V' => Some(b'B'),
        b'P' => Some(b'P'),
        _ => None,
    }
}

/// The letter of a font: roman, italic, bold or the previous one. Bold italic is italic.
pub fn font_of(name: &[u8]) -> Option<u8>
    ensures { result ≡ font_of name.now }
{
    match name {
        [] => Some(b'P'),
        [letter] => letter_of(*letter),
        [first, second] => match (*first, *second) {
            (b'C', b'R') => Some(b'R'),
            (b'C' | b'B' | b'V', b'I') => Some(b'I'),
            (b'C' | b'V', b'B') => Some(b'B'),
            _ => None,
        },
        _ => None,
    }
}
