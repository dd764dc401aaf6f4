//! What a text is made of: characters, blanks, changes of font, and places where a word may be cut (CSTR 54, special character
//! names and escape sequences). Escapes are as long and as wide as `\w` has them.
ghost use Rattle.std.specs.Prelude.{◌≡◌, ◌+◌, ◌≤◌, length, take, true};
ghost use Rattle.nr_settings.specs.Escapes as escapes;
ghost use Rattle.tbl_blocks.specs.Units as specs;

use super::parts::{Font, Known};
use nr_settings::{Special, prints};

/// What a unit of a text does.
#[derive(Clone, Copy)]
pub(crate) enum Does {
    /// It prints, or is a character without a cell.
    Print,
    /// It is nothing.
    Nothing,
    /// It prints a letter.
    Letter,
    /// It prints what ends a sentence.
    Stop,
    /// It prints a hyphen, after which a word may be cut between letters.
    Hyphen,
    /// It prints a dash, after which a word may be cut.
    Dash,
    /// It separates words.
    Blank,
    /// A word may be cut here, and a hyphen is printed then.
    Point,
    /// A word may be cut here.
    Cut,
    /// The font is this one.
    Font(Font),
    /// The font is the one before.
    Back,
    /// Only the formatter knows what it prints: it counts as its text.
    Unsure,
    /// A comment: the rest is none of the text.
    Comment,
}

/// A unit of a text.
#[derive(Clone, Copy)]
pub(crate) struct Unit {
    /// How many bytes it has after its first; those past the end are not there.
    pub more: usize,
    /// How many cells of the page it takes.
    pub cells: usize,
    /// What it does.
    pub does: Does,
}

/// How many bytes stand before the first that is this one.
fn len_before(byte: u8, text: &[u8]) -> usize
    ensures value { result ≡ escapes.len_before byte text.now }
    ensures within { result ≤ length text.now }
{
    text.iter().take_while(|other| **other != byte).count()
}

/// How long a name is: one byte, `(xx` or `[..]`.
fn name_len(text: &[u8]) -> usize
    ensures value { result ≡ escapes.escape_name_len true text.now }
    ensures within { result ≤ length text.now + 2 }
{
    match text.split_first() {
        None => 0,
        Some((b'(', _rest)) => 3,
        Some((b'[', rest)) => len_before(b']', rest) + 2,
        Some(_) => 1,
    }
}

/// What stands before a `]`; without one, nothing.
fn bracketed(text: &[u8]) -> &[u8]
    ensures { result.now ≡ escapes.bracketed text.now }
{
    let len = len_before(b']', text);
    if len == text.len() {
        return &text[..0];
    }
    &text[..len]
}

/// The first bytes of a text, or as many as there are.
fn prefix(text: &[u8], count: usize) -> &[u8]
    ensures { result.now ≡ take count text.now }
{
    &text[..text.len().min(count)]
}

/// A name without what it begins and ends with.
fn name_in(text: &[u8]) -> &[u8]
    ensures { result.now ≡ specs.name_in text.now }
{
    match text.split_first() {
        Some((b'(', rest)) => prefix(rest, 2),
        Some((b'[', rest)) => bracketed(rest),
        _ => prefix(text, 1),
    }
}

/// How long a register's name is with the sign before it.
fn register_len(text: &[u8]) -> usize
    ensures value { result ≡ escapes.register_len true text.now }
    ensures within { result ≤ length text.now + 3 }
{
    match text.split_first() {
        Some((b'+' | b'-', rest)) => name_len(rest) + 1,
        _ => name_len(text),
    }
}

/// How long an argument is that stands between two of its first byte.
fn delimited_len(text: &[u8]) -> usize
    ensures value { result ≡ escapes.delimited_len text.now }
    ensures within { result ≤ length text.now + 2 }
{
    match text.split_first() {
        None => 0,
        Some((delimiter, rest)) => len_before(*delimiter, rest) + 2,
    }
}

/// 1 where a digit comes first, else 0.
fn digit_len(text: &[u8]) -> usize
    ensures value { result ≡ escapes.digit_len text.now }
    ensures most { result ≤ 1 }
{
    match text.split_first() {
        Some((b'0'..=b'9', _rest)) => 1,
        _ => 0,
    }
}

/// How long a size is.
fn size_len(text: &[u8]) -> usize
    ensures value { result ≡ escapes.size_len text.now }
    ensures most { result ≤ 2 }
{
    match text.split_first() {
        None => 0,
        Some((b'+' | b'-' | b'1' | b'2' | b'3', rest)) => 1 + digit_len(rest),
        Some(_) => digit_len(text),
    }
}

/// What a byte does that stands for itself.
fn byte_does(byte: u8) -> Does
    ensures { result ≡ specs.byte_does byte }
{
    match byte {
        b'a'..=b'z' | b'A'..=b'Z' => Does::Letter,
        b'-' => Does::Hyphen,
        b'.' | b'?' | b'!' => Does::Stop,
        b' ' | b'\t' => Does::Blank,
        b' '..=b'~' | 128..=255 => Does::Print,
        _ => Does::Unsure,
    }
}

/// A letter of ASCII.
pub(crate) fn is_letter(byte: u8) -> bool
    ensures { result ≡ specs.is_letter byte }
{
    matches!(byte, b'a'..=b'z' | b'A'..=b'Z')
}

/// What ends a sentence.
pub(crate) fn is_stop(byte: u8) -> bool
    ensures { result ≡ specs.is_stop byte }
{
    byte == b'.' || byte == b'?' || byte == b'!'
}

/// A byte that prints as it is, and neither separates words nor cuts one.
pub(crate) fn is_plain(byte: u8) -> bool
    ensures { result ≡ specs.is_plain byte }
{
    prints(byte) && byte != b' ' && byte != b'-' && byte != b'\\'
}

/// A byte that prints as it is.
pub(crate) fn is_printing(byte: u8) -> bool
    ensures { result ≡ specs.is_printing byte }
{
    prints(byte) && byte != b'\\'
}

impl Unit {
    /// Whether the page shows how wide it is.
    pub(crate) fn is_sure(self) -> bool
        ensures { result ≡ specs.is_sure self.does }
    {
        !matches!(self.does, Does::Unsure)
    }

    /// One that prints so many cells.
    fn prints(more: usize, cells: usize) -> Unit
        ensures { result ≡ specs.prints more cells }
    {
        Unit {
            more,
            cells,
            does: Does::Print,
        }
    }

    /// One that takes no cell.
    fn only(more: usize, does: Does) -> Unit
        ensures { result ≡ specs.only more does }
    {
        Unit {
            more,
            cells: 0,
            does,
        }
    }

    /// One that counts as its text.
    fn unsure(more: usize, text: &[u8]) -> Unit
        ensures { result ≡ specs.unsure more text.now }
    {
        Unit {
            more,
            cells: 1 + more.min(text.len()),
            does: Does::Unsure,
        }
    }
}

/// A character that has a name.
fn named(more: usize, name: &[u8]) -> Unit
    ensures { result ≡ specs.named more name.now }
{
    match Special::of(name) {
        None => Unit::only(more, Does::Nothing),
        Some(Special::Hyphen) => Unit {
            more,
            cells: 1,
            does: Does::Hyphen,
        },
        Some(Special::Dash) => Unit {
            more,
            cells: 2,
            does: Does::Dash,
        },
        Some(Special::Point | Special::Joint) => Unit::only(more, Does::Cut),
        Some(_) => Unit::prints(more, 1),
    }
}

/// What a change to the font of a letter does. One that names no font leaves it.
fn letter_does(letter: u8) -> Does
    ensures { result ≡ specs.letter_does letter }
{
    match letter {
        b'P' => Does::Back,
        b'R' | b'1' => Does::Font(Font::Roman),
        b'I' | b'2' => Does::Font(Font::Italic),
        b'B' | b'3' => Does::Font(Font::Bold),
        _ => Does::Nothing,
    }
}

/// What a change of font does that has this name.
fn font_does(name: &[u8]) -> Does
    ensures { result ≡ specs.font_does name.now }
{
    match name.split_first() {
        None => Does::Back,
        Some((letter, rest)) => {
            if rest.is_empty() {
                letter_does(*letter)
            } else {
                Does::Nothing
            }
        }
    }
}

/// The cells of a string that the page defines.
fn cells_of(name: &[u8], strings: &[Known]) -> Option<usize>
    ensures { result ≡ specs.cells_of name.now strings.now }
{
    for known in strings {
        if known.name.as_bytes() == name {
            return Some(known.cells);
        }
    }
    None
}

/// The cells of a string of one letter or two that macro files for manual pages define; 0 is no second letter.
fn page_cells(first: u8, second: u8) -> Option<usize>
    ensures { result ≡ specs.page_cells first second }
{
    match (first, second) {
        (b'A', b'q') | (b'l', b'q') | (b'r', b'q') => Some(1),
        (b'R', 0) => Some(3),
        (b'T', b'm') => Some(4),
        (b'S', 0) => Some(0),
        _ => None,
    }
}

/// The cells of such a string by its name.
fn usual_cells(name: &[u8]) -> Option<usize>
    ensures { result ≡ specs.usual_cells name.now }
{
    let Some((first, rest)) = name.split_first() else {
        return None;
    };
    let Some((second, more)) = rest.split_first() else {
        return page_cells(*first, 0);
    };
    if more.is_empty() {
        page_cells(*first, *second)
    } else {
        None
    }
}

/// The cells of a string: of one that the page defines, or that macro files do.
fn string_cells(name: &[u8], strings: &[Known]) -> Option<usize>
    ensures { result ≡ specs.string_cells name.now strings.now }
{
    match cells_of(name, strings) {
        Some(cells) => Some(cells),
        None => usual_cells(name),
    }
}

/// A string.
fn string(text: &[u8], strings: &[Known]) -> Unit
    ensures { result ≡ specs.string_of text.now strings.now }
{
    let more = 1 + name_len(text);
    match string_cells(name_in(text), strings) {
        Some(cells) => Unit::prints(more, cells),
        None => Unit::unsure(more, text),
    }
}

/// What an escape is, by the byte after the backslash.
#[derive(Clone, Copy)]
enum Escape {
    /// One cell.
    OneCell,
    /// No cell.
    Nothing,
    /// A comment.
    Comment,
    /// `\$`, with one more byte.
    Argument,
    /// `\*`, `\f` or `\k`, with a name.
    Named,
    /// `\n`, with a sign or none and a name.
    Register,
    /// `\(`, with the two letters of a special character.
    Pair,
    /// `\[`, with the name of a special character and `]`.
    Bracket,
    /// With an argument between two of its first byte.
    Delimited,
    /// `\s`, with a size.
    Size,
    /// Any other: its byte as text.
    Plain,
}

impl Escape {
    /// The escape of a byte.
    fn of(byte: u8) -> Escape
        ensures { result ≡ specs.escape_by byte }
    {
        match byte {
            b'\\' | b'\'' | b' ' | b'e' | b'0' | b'-' | b'.' | b'`' => Escape::OneCell,
            b'\n' | b'&' | b'|' | b'^' | b'!' | b'%' | b'c' | b'd' => Escape::Nothing,
            b'u' | b'r' | b'z' | b'p' | b'a' | b't' | b'{' | b'}' => Escape::Nothing,
            b'"' => Escape::Comment,
            b'$' => Escape::Argument,
            b'*' | b'f' | b'k' => Escape::Named,
            b'n' => Escape::Register,
            b'(' => Escape::Pair,
            b'[' => Escape::Bracket,
            b'h' | b'l' | b'v' | b'x' | b'b' | b'o' | b'L' | b'D' | b'w' => Escape::Delimited,
            b's' => Escape::Size,
            _ => Escape::Plain,
        }
    }

    /// Its unit, with what stands after its byte.
    fn unit(self, byte: u8, text: &[u8], strings: &[Known]) -> Unit
        ensures { result ≡ specs.unit_in self byte text.now strings.now }
    {
        match self {
            Escape::OneCell => one_cell(byte),
            Escape::Nothing => no_cell(byte),
            Escape::Comment => Unit::only(1 + text.len(), Does::Comment),
            Escape::Argument => Unit::unsure(2, text),
            Escape::Named => with_name(byte, text, strings),
            Escape::Register => Unit::unsure(1 + register_len(text), text),
            Escape::Pair => named(3, prefix(text, 2)),
            Escape::Bracket => named(2 + len_before(b']', text), bracketed(text)),
            Escape::Delimited => Unit::unsure(1 + delimited_len(text), text),
            Escape::Size => Unit::only(1 + size_len(text), Does::Nothing),
            Escape::Plain => Unit::prints(1, if prints(byte) { 1 } else { 0 }),
        }
    }
}

/// One that prints a cell.
fn one_cell(byte: u8) -> Unit
    ensures { result ≡ specs.one_cell byte }
{
    if byte == b'.' {
        return Unit {
            more: 1,
            cells: 1,
            does: Does::Stop,
        };
    }
    Unit::prints(1, 1)
}

/// One that prints none.
fn no_cell(byte: u8) -> Unit
    ensures { result ≡ specs.no_cell byte }
{
    if byte == b'%' {
        return Unit::only(1, Does::Point);
    }
    if byte == b'&' {
        return Unit::prints(1, 0);
    }
    Unit::only(1, Does::Nothing)
}

/// One with a name.
fn with_name(byte: u8, text: &[u8], strings: &[Known]) -> Unit
    ensures { result ≡ specs.with_name byte text.now strings.now }
{
    if byte == b'*' {
        return string(text, strings);
    }
    if byte == b'f' {
        return Unit::only(1 + name_len(text), font_does(name_in(text)));
    }
    Unit::only(1 + name_len(text), Does::Nothing)
}

/// The unit that begins with a byte, with what stands after that.
pub(crate) fn unit_of(byte: u8, text: &[u8], strings: &[Known]) -> Unit
    ensures { result ≡ specs.unit_of byte text.now strings.now }
{
    if byte != b'\\' {
        return Unit {
            more: 0,
            cells: 1,
            does: byte_does(byte),
        };
    }
    let Some((first, rest)) = text.split_first() else {
        return Unit::only(0, Does::Nothing);
    };
    Escape::of(*first).unit(*first, rest, strings)
}
