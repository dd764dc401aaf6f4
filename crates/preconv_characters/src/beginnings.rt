//! What the name of a control line makes of the rest of it.
ghost use Rattle.std.specs.Prelude.{◌≡◌, ◌≤◌, ℕ};
ghost use Rattle.preconv_characters.specs.declared.beginnings.TheConstants.{OPENING};
ghost use Rattle.preconv_characters.specs.Glyphs.{looked_up};
ghost use Rattle.preconv_characters.specs.Beginnings.{apart, entry, goes_out, group, group_of, is_alone, is_known, is_roman, known_entry, opened, opened_by, opening_entry, said_name};

use super::glyphs::looked_up;
use super::said::Said;
use super::words::Fonts;
use nr_units::Name;

/// What a control line is.
#[derive(Clone, Copy)]
pub enum Opens {
    /// A request or a macro that is of no account here.
    Rest,
    /// The definition of a macro.
    Definition,
    /// Its end.
    End,
    /// Lines that are ignored.
    Ignored,
    /// A condition.
    Condition,
    /// The other part of one.
    Else,
    /// A translation of characters.
    Translation,
    /// The text of a string.
    Stored,
    /// A line of its own after the name.
    Nop,
    /// The title of a manual page.
    Title,
    /// A paragraph with a tag in the same line.
    Paragraph,
    /// An address.
    Address,
    /// A paragraph without a tag.
    Plain,
    /// A font.
    Face,
    /// A paragraph whose tag is the next line.
    Tagged,
    /// A table, or another format of one.
    Table,
    /// Its end.
    TableEnd,
    /// Words in a font, or in two.
    Words(Fonts),
}

impl Opens {
    /// Whether text after its line is roman: that of a heading, a paragraph, or words in fonts.
    pub fn is_roman(self) -> bool
        ensures { result ≡ is_roman self }
    {
        matches!(
            self,
            Opens::Words(_) | Opens::Paragraph | Opens::Tagged | Opens::Plain | Opens::Title
        )
    }

    /// Whether a name of this length that opens so goes out as it is, and so does a blank or a newline after it.
    pub fn goes_out(self, len: usize) -> bool
        ensures { result ≡ goes_out self len }
    {
        match self {
            Opens::Ignored | Opens::Condition | Opens::Else => false,
            Opens::Nop | Opens::Translation | Opens::Face => false,
            Opens::Definition => len != 3,
            _ => true,
        }
    }
}

/// The names that are of account here, those with the same first byte side by side.
static OPENING: [(u8, u8, Opens); 54] = [
    (b'.', b' ', Opens::End),
    (b'A', b'U', Opens::Words(Fonts::One)),
    (b'A', b'I', Opens::Words(Fonts::One)),
    (b'B', b' ', Opens::Words(Fonts::Same(b'B'))),
    (b'B', b'X', Opens::Words(Fonts::One)),
    (b'B', b'R', Opens::Words(Fonts::Turn(b'B', b'R'))),
    (b'B', b'I', Opens::Words(Fonts::Turn(b'B', b'I'))),
    (b'C', b'W', Opens::Words(Fonts::One)),
    (b'C', b'L', Opens::Words(Fonts::One)),
    (b'D', b'A', Opens::Words(Fonts::One)),
    (b'G', b'R', Opens::Words(Fonts::One)),
    (b'H', b'P', Opens::Plain),
    (b'I', b'P', Opens::Paragraph),
    (b'I', b' ', Opens::Words(Fonts::Same(b'I'))),
    (b'I', b'B', Opens::Words(Fonts::Turn(b'I', b'B'))),
    (b'I', b'R', Opens::Words(Fonts::Turn(b'I', b'R'))),
    (b'L', b'G', Opens::Words(Fonts::One)),
    (b'L', b'P', Opens::Plain),
    (b'M', b'E', Opens::Words(Fonts::One)),
    (b'M', b'T', Opens::Address),
    (b'N', b'H', Opens::Words(Fonts::One)),
    (b'N', b'D', Opens::Words(Fonts::One)),
    (b'P', b'P', Opens::Plain),
    (b'P', b' ', Opens::Plain),
    (b'R', b' ', Opens::Words(Fonts::One)),
    (b'R', b'B', Opens::Words(Fonts::Turn(b'R', b'B'))),
    (b'R', b'I', Opens::Words(Fonts::Turn(b'R', b'I'))),
    (b'S', b'M', Opens::Words(Fonts::One)),
    (b'S', b'B', Opens::Words(Fonts::Same(b'B'))),
    (b'S', b'H', Opens::Words(Fonts::Same(b'B'))),
    (b'S', b'S', Opens::Words(Fonts::Same(b'B'))),
    (b'S', b'U', Opens::Words(Fonts::One)),
    (b'S', b'G', Opens::Words(Fonts::One)),
    (b'T', b'H', Opens::Title),
    (b'T', b'P', Opens::Tagged),
    (b'T', b'Q', Opens::Tagged),
    (b'T', b'S', Opens::Table),
    (b'T', b'&', Opens::Table),
    (b'T', b'E', Opens::TableEnd),
    (b'T', b'L', Opens::Words(Fonts::One)),
    (b'T', b'O', Opens::Words(Fonts::One)),
    (b'U', b'L', Opens::Words(Fonts::One)),
    (b'U', b'E', Opens::Words(Fonts::One)),
    (b'U', b'R', Opens::Address),
    (b'a', b'm', Opens::Definition),
    (b'a', b's', Opens::Stored),
    (b'd', b'e', Opens::Definition),
    (b'd', b's', Opens::Stored),
    (b'e', b'l', Opens::Else),
    (b'f', b't', Opens::Face),
    (b'i', b'g', Opens::Ignored),
    (b'i', b'f', Opens::Condition),
    (b'i', b'e', Opens::Condition),
    (b't', b'r', Opens::Translation),
];

/// The requests of the language and the names of the macro file for manual pages.
static KNOWN: [(u8, u8, bool); 96] = [
    (b'A', b'T', true),
    (b'B', b' ', true),
    (b'B', b'I', true),
    (b'B', b'R', true),
    (b'D', b'T', true),
    (b'E', b'E', true),
    (b'E', b'X', true),
    (b'H', b'P', true),
    (b'I', b' ', true),
    (b'I', b'B', true),
    (b'I', b'P', true),
    (b'I', b'R', true),
    (b'L', b'P', true),
    (b'M', b'E', true),
    (b'M', b'T', true),
    (b'O', b'P', true),
    (b'P', b' ', true),
    (b'P', b'D', true),
    (b'P', b'P', true),
    (b'R', b' ', true),
    (b'R', b'B', true),
    (b'R', b'E', true),
    (b'R', b'I', true),
    (b'R', b'S', true),
    (b'S', b' ', true),
    (b'S', b'B', true),
    (b'S', b'H', true),
    (b'S', b'M', true),
    (b'S', b'S', true),
    (b'S', b'Y', true),
    (b'T', b'H', true),
    (b'T', b'P', true),
    (b'T', b'Q', true),
    (b'T', b'm', true),
    (b'U', b'C', true),
    (b'U', b'E', true),
    (b'U', b'R', true),
    (b'Y', b'S', true),
    (b'a', b'd', true),
    (b'a', b'f', true),
    (b'a', b'm', true),
    (b'a', b's', true),
    (b'b', b'p', true),
    (b'b', b'r', true),
    (b'c', b'2', true),
    (b'c', b'c', true),
    (b'c', b'e', true),
    (b'c', b'h', true),
    (b'c', b'p', true),
    (b'd', b'a', true),
    (b'd', b'e', true),
    (b'd', b'i', true),
    (b'd', b's', true),
    (b'd', b't', true),
    (b'e', b'l', true),
    (b'e', b'm', true),
    (b'e', b'x', true),
    (b'f', b'i', true),
    (b'f', b't', true),
    (b'h', b'w', true),
    (b'h', b'y', true),
    (b'i', b'e', true),
    (b'i', b'f', true),
    (b'i', b'g', true),
    (b'i', b'n', true),
    (b'i', b't', true),
    (b'l', b'c', true),
    (b'l', b'l', true),
    (b'l', b'q', true),
    (b'l', b't', true),
    (b'm', b'k', true),
    (b'n', b'a', true),
    (b'n', b'e', true),
    (b'n', b'f', true),
    (b'n', b'h', true),
    (b'n', b'r', true),
    (b'n', b's', true),
    (b'p', b'c', true),
    (b'p', b'l', true),
    (b'p', b'n', true),
    (b'p', b'o', true),
    (b'p', b's', true),
    (b'r', b'm', true),
    (b'r', b'n', true),
    (b'r', b'q', true),
    (b'r', b'r', true),
    (b'r', b's', true),
    (b'r', b't', true),
    (b's', b'p', true),
    (b't', b'a', true),
    (b't', b'c', true),
    (b't', b'i', true),
    (b't', b'l', true),
    (b'u', b'l', true),
    (b'v', b's', true),
    (b'w', b'h', true),
];

/// What a table has for a name of one byte or two.
fn entry<T: Copy>(table: &[(u8, u8, T)], name: &[u8]) -> Option<T>
    ensures { result ≡ entry table.now name.now }
{
    match name {
        [first] => looked_up(table, *first, b' '),
        [first, second] => looked_up(table, *first, *second),
        _ => None,
    }
}

/// What the table of known names has for a name.
fn known_entry(name: &[u8]) -> Option<bool>
    ensures { result ≡ known_entry name.now }
{
    entry(&KNOWN, name)
}

/// Where the names that are of account and begin with a byte stand in their table, and where the next ones do.
fn group_of(first: u8) -> (usize, usize)
    ensures value { result ≡ group_of first }
    ensures within { result.0 ≤ result.1 }
    ensures few { result.1 ≤ 54 }
{
    match first {
        b'.' => (0, 1),
        b'A' => (1, 3),
        b'B' => (3, 7),
        b'C' => (7, 9),
        b'D' => (9, 10),
        b'G' => (10, 11),
        b'H' => (11, 12),
        b'I' => (12, 16),
        b'L' => (16, 18),
        b'M' => (18, 20),
        b'N' => (20, 22),
        b'P' => (22, 24),
        b'R' => (24, 27),
        b'S' => (27, 33),
        b'T' => (33, 41),
        b'U' => (41, 44),
        b'a' => (44, 46),
        b'd' => (46, 48),
        b'e' => (48, 49),
        b'f' => (49, 50),
        b'i' => (50, 53),
        b't' => (53, 54),
        _ => (0, 0),
    }
}

/// Those names.
fn group(first: u8) -> &'static [(u8, u8, Opens)]
    ensures value { result.now ≡ group first }
    ensures all { (second : ℕ) → looked_up OPENING first second ≡ looked_up (group first) first second }
{
    let (start, end) = group_of(first);
    &OPENING[start..end]
}

/// What the table of names that are of account has for a name.
fn opening_entry(name: &[u8]) -> Option<Opens>
    ensures { result ≡ opening_entry name.now }
{
    if name.is_empty() {
        return None;
    }
    entry(group(name[0]), name)
}

/// Whether a name stands for something at the beginning of a page.
pub fn is_known(name: &[u8]) -> bool
    ensures { result ≡ is_known name.now }
{
    known_entry(name).is_some()
}

/// What a name of one byte or two makes of its line.
fn opened_by(name: &[u8]) -> Opens
    ensures { result ≡ opened_by name.now }
{
    match opening_entry(name) {
        Some(opens) => opens,
        None => Opens::Rest,
    }
}

/// What a name makes of its line: `de1` and `am1` are as `de` and `am`.
pub fn opened(name: &[u8]) -> Opens
    ensures { result ≡ opened name.now }
{
    if name.len() == 3 && name[2] == b'1' {
        return match opened_by(&name[..2]) {
            Opens::Definition => Opens::Definition,
            _ => Opens::Rest,
        };
    }
    if name == b"nop".as_slice() {
        return Opens::Nop;
    }
    opened_by(name)
}

/// Whether this is a request that takes no words.
fn is_alone(name: &[u8]) -> bool
    ensures { result ≡ is_alone name.now }
{
    name == b"nf".as_slice() || name == b"fi".as_slice() || name == b"br".as_slice()
}

/// The name with a blank before an escape.
fn apart(name: Name, byte: u8) -> Name
    ensures { result ≡ apart name byte }
{
    let mut apart = name;
    if byte == b'\\' && !name.is_full() {
        apart.push(b' ');
    }
    apart
}

/// How a name goes out before this byte: that of a definition without its third byte, and that of a condition, or of a request
/// that takes no words, with a blank before an escape. `.nop` is a condition that holds.
pub fn said_name(opens: Opens, name: Name, byte: u8) -> Said
    ensures { result ≡ said_name opens name byte }
{
    match opens {
        Opens::Definition if name.len() == 3 => {
            let first = Name::of(&name.as_bytes()[..2]);
            Said::Kept(first)
        }
        Opens::Condition | Opens::Else => Said::Kept(apart(name, byte)),
        Opens::Rest if is_alone(name.as_bytes()) => Said::Kept(apart(name, byte)),
        Opens::Nop => Said::Kept(Name::of(b"if 1 ")),
        _ => Said::Kept(name),
    }
}
