//! Letters with marks, by their names (groff_char(7)).
ghost use Rattle.std.specs.Prelude.{◌≡◌, []};
ghost use Rattle.preconv_characters.specs.Composed as specs;
ghost use Rattle.preconv_characters.specs.Targets.{shown};
ghost use Rattle.unicode_normalization.specs.Compose.{primary_composite};

use super::glyphs::{below_codes, glyph_code, is_native, named_in};
use super::likeness::character_of;
use super::numbers::number_from;
use unicode_normalization::char::compose;
use utf8_characters::FixedTable;

/// The marks of accents.
pub(crate) static ACCENTS: [([u8; 2], u32); 22] = [
    (*b"ga", 0x0300),
    (*b"`\0", 0x0300),
    (*b"aa", 0x0301),
    (*b"'\0", 0x0301),
    (*b"a^", 0x0302),
    (*b"^\0", 0x0302),
    (*b"a~", 0x0303),
    (*b"~\0", 0x0303),
    (*b"a-", 0x0304),
    (*b"-\0", 0x0304),
    (*b"ab", 0x0306),
    (*b"a.", 0x0307),
    (*b".\0", 0x0307),
    (*b"ad", 0x0308),
    (*b":\0", 0x0308),
    (*b"ao", 0x030A),
    (*b"a\"", 0x030B),
    (*b"\"\0", 0x030B),
    (*b"ah", 0x030C),
    (*b"ac", 0x0327),
    (*b",\0", 0x0327),
    (*b"ho", 0x0328),
];

/// A letter with its marks.
#[derive(Clone, Copy)]
pub struct Marked {
    /// The letter.
    pub letter: u32,
    /// What it and its marks compose to.
    pub whole: u32,
    /// The first mark that composes with nothing; 0 if there is none.
    pub mark: u32,
}

/// Whether a byte stands before the name of a mark.
fn separates(byte: u8) -> bool
    ensures { result ≡ specs.separates byte }
{
    byte == b' ' || byte == b'_'
}

/// The names of the marks in a name.
fn marks_in(name: &[u8]) -> &[u8]
    ensures { result.now ≡ specs.marks_in name.now }
{
    for (i, byte) in name.iter().enumerate() {
        if separates(*byte) {
            return &name[i + 1..];
        }
    }
    &[]
}

/// Whether a name has names of marks.
pub fn has_marks(name: &[u8]) -> bool
    ensures { result ≡ specs.has_marks name.now }
{
    name.len() > 2 && !marks_in(name).is_empty()
}

/// The mark of an accent.
fn accent_code(name: &[u8]) -> Option<u32>
    ensures { result ≡ specs.accent_code name.now }
{
    named_in(&ACCENTS, name)
}

/// A number without the `u` before it.
fn without_u(name: &[u8]) -> &[u8]
    ensures { result.now ≡ specs.without_u name.now }
{
    match name {
        [b'u', digits @ ..] => digits,
        _ => name,
    }
}

/// The mark of this name or number.
fn mark_code(name: &[u8]) -> Option<u32>
    ensures { result ≡ specs.mark_code name.now }
{
    match accent_code(name) {
        Some(code) => Some(code),
        None => below_codes(number_from(16, 0, without_u(name))),
    }
}

/// The character of a letter and a mark.
fn composed(letter: u32, mark: u32) -> Option<u32>
    ensures { result ≡ primary_composite (shown letter) (shown mark) }
{
    match compose(character_of(letter), character_of(mark)) {
        Some(character) => Some(u32::from(character)),
        None => None,
    }
}

impl Marked {
    /// A letter without marks.
    fn letter(code: u32) -> Marked
        ensures { result ≡ specs.unmarked code }
    {
        Marked {
            letter: code,
            whole: code,
            mark: 0,
        }
    }

    /// With one mark more, where there is one.
    fn with_mark(self, mark: Option<u32>) -> Marked
        ensures { result ≡ specs.with_mark mark self }
    {
        let Some(mark) = mark else {
            return self;
        };
        if self.mark != 0 {
            return self;
        }
        match composed(self.whole, mark) {
            Some(whole) => Marked { whole, ..self },
            None if matches!(mark, 0x0300..=0x036F) => Marked { mark, ..self },
            None => self,
        }
    }
}

/// A letter with the marks of these names.
fn with_marks(letter: u32, marks: &[u8]) -> Marked
    ensures { result ≡ specs.with_marks (specs.unmarked letter) [] marks.now }
{
    let mut marked = Marked::letter(letter);
    let mut start = 0;
    for (i, byte) in marks.iter().enumerate() {
        if separates(*byte) {
            marked = marked.with_mark(mark_code(&marks[start..i]));
            start = i + 1;
        }
    }
    marked.with_mark(mark_code(&marks[start..]))
}

/// A letter with the marks that a name has after it.
pub fn marked_by(name: &[u8], letter: u32) -> Marked
    ensures { result ≡ specs.marked_by name.now letter }
{
    with_marks(letter, marks_in(name))
}

/// Whether letters beyond ASCII have this code, of the characters that have names.
fn is_letter(code: u32) -> bool
    ensures { result ≡ specs.is_letter code }
{
    matches!(code, 0x0080..=0x1FFF)
}

/// Whether a fixed table lacks the letter of a name: one beyond ASCII, or with a mark that composes with nothing.
pub fn lacks_letter(table: FixedTable, name: &[u8]) -> bool
    ensures { result ≡ specs.lacks_letter table name.now }
{
    if is_native(name) {
        return false;
    }
    match glyph_code(name) {
        Some(letter) => {
            let marked = marked_by(name, letter);
            marked.mark != 0 || (is_letter(marked.whole) && table.byte(marked.whole).is_none())
        }
        None => false,
    }
}
