//! The clusters of a text in which escapes stand, a byte after the other.
ghost use Rattle.std.specs.Prelude.{◌≡◌, ◌≤◌, length, true};
ghost use Rattle.utf8_own_characters.specs.Listening as specs;

use super::cluster::{Cluster, is_mark};
use super::decoding::Part;
use super::joining::with_mark;

/// What is half read of a text.
#[derive(Clone, Copy, Debug, PartialEq, Eq)]
pub struct Listener {
    /// Of a character.
    pub part: Part,
    /// A letter, on which marks may come.
    pub held: Option<Cluster>,
    /// No backslash stands before in the word, so that letters and digits are no parts of escapes.
    pub is_plain: bool,
}

/// What comes of a byte.
#[derive(Clone, Copy, Debug, PartialEq, Eq)]
pub struct Listened {
    pub listener: Listener,
    /// The cluster that ends before it, if one does.
    pub done: Option<Cluster>,
    /// A byte of ASCII after that, if no marks may come on it.
    pub byte: Option<u8>,
}

/// Whether a character is a sign that shows nothing and takes no column.
#[inline(always)]
fn is_unseen(character: char) -> bool
    ensures { result ≡ specs.is_unseen character }
{
    matches!(
        u32::from(character),
        0x200B..=0x200F | 0x202A..=0x202E | 0x2060..=0x206F | 0xFEFF
    )
}

/// Whether marks may come on a character: on a letter or digit of ASCII that is no part of an escape, and on all beyond ASCII.
#[inline(always)]
pub(crate) fn takes_marks(character: char, is_plain: bool) -> bool
    ensures { result ≡ specs.takes_marks character is_plain }
{
    if u32::from(character) < 128 {
        return is_plain && matches!(character, 'A'..='Z' | 'a'..='z' | '0'..='9');
    }
    true
}

/// Whether letters after a character are no names of escapes, if those before it are or are not.
#[inline(always)]
pub(crate) fn plain_after(character: char, is_plain: bool) -> bool
    ensures { result ≡ specs.plain_after character is_plain }
{
    match character {
        '\\' => false,
        '\0'..=' ' => true,
        _ => is_plain || u32::from(character) >= 128,
    }
}

/// Whether these are three bytes of which the first begins a character of three, and the others go one on.
#[inline(always)]
pub(crate) fn is_three(a: u8, b: u8, c: u8) -> bool
    ensures { result ≡ specs.is_three a b c }
{
    matches!(a, 0xE0..=0xEF) && matches!(b, 0x80..=0xBF) && matches!(c, 0x80..=0xBF)
}

/// Whether three such bytes are a letter: no mark, and no sign that shows nothing.
#[inline(always)]
fn are_letter(a: u8, b: u8, c: u8) -> bool {
    let code = (u32::from(a % 16) * 64 + u32::from(b % 64)) * 64 + u32::from(c % 64);
    if code < 0x2070 || code == 0xFEFF {
        return false;
    }
    match char::from_u32(code) {
        Some(character) => !is_mark(character),
        None => false,
    }
}

/// Whether these bytes begin with a letter of three bytes, which can be read at once. Not all of those are found.
#[inline(always)]
pub fn begins_letter(bytes: &[u8]) -> bool
    ensures long { result ≡ true → 3 ≤ length bytes.now }
    ensures three { result ≡ true → specs.begins_three bytes.now ≡ true }
{
    bytes.len() >= 3
        && is_three(bytes[0], bytes[1], bytes[2])
        && are_letter(bytes[0], bytes[1], bytes[2])
}

/// Whether these are two bytes of which the first begins a character of two, and the other goes it on.
#[inline(always)]
fn is_two(a: u8, b: u8) -> bool
    ensures { result ≡ specs.is_two a b }
{
    matches!(a, 0xC0..=0xDF) && matches!(b, 0x80..=0xBF)
}

/// Whether these bytes begin with a character of two bytes, which can be read at once.
#[inline(always)]
pub(crate) fn begins_pair(bytes: &[u8]) -> bool
    ensures long { result ≡ true → 2 ≤ length bytes.now }
    ensures two { result ≡ true → specs.begins_two bytes.now ≡ true }
{
    bytes.len() >= 2 && is_two(bytes[0], bytes[1])
}

impl Listener {
    /// A text begins.
    pub fn new() -> Listener
        ensures { result ≡ specs.first }
    {
        Listener {
            part: Part::none(),
            held: None,
            is_plain: true,
        }
    }

    /// Nothing ends.
    #[inline(always)]
    fn going(self, held: Option<Cluster>) -> Listened
        ensures { result ≡ specs.going self held }
    {
        Listened {
            listener: Listener { held, ..self },
            done: None,
            byte: None,
        }
    }

    /// A mark comes. One that stands on no letter is dropped.
    fn hear_mark(self, mark: char) -> Listened
        ensures { result ≡ specs.hear_mark self mark }
    {
        match self.held {
            Some(cluster) => self.going(Some(with_mark(cluster, mark))),
            None => self.going(None),
        }
    }

    /// A character comes that is no mark.
    #[inline(always)]
    fn hear_letter(self, character: char) -> Listened
        ensures { result ≡ specs.hear_letter self character }
    {
        let holds = takes_marks(character, self.is_plain);
        Listened {
            listener: Listener {
                part: self.part,
                held: if holds {
                    Some(Cluster::single(character))
                } else {
                    None
                },
                is_plain: plain_after(character, self.is_plain),
            },
            done: self.held,
            byte: if holds {
                None
            } else {
                Some((u32::from(character) % 128) as u8)
            },
        }
    }

    /// A character comes.
    #[inline(always)]
    fn hear(self, character: char) -> Listened
        ensures { result ≡ specs.hear self character }
    {
        if u32::from(character) < 128 {
            return self.hear_letter(character);
        }
        if is_unseen(character) {
            return self.going(self.held);
        }
        if is_mark(character) {
            return self.hear_mark(character);
        }
        self.hear_letter(character)
    }

    /// A byte comes.
    #[inline(always)]
    pub fn read(self, byte: u8) -> Listened
        ensures { result ≡ specs.read self byte }
    {
        let decoded = self.part.read(byte);
        let listener = Listener {
            part: decoded.part,
            ..self
        };
        match decoded.character {
            Some(character) => listener.hear(character),
            None => listener.going(self.held),
        }
    }

    /// What comes of the last of two bytes.
    #[inline(always)]
    pub(crate) fn read_two(self, a: u8, b: u8) -> Listened
        ensures { result ≡ specs.read (specs.read self a).listener b }
    {
        self.read(a).listener.read(b)
    }

    /// What comes of the last of three bytes.
    #[inline(always)]
    pub fn read_three(self, a: u8, b: u8, c: u8) -> Listened
        ensures { result ≡ specs.read (specs.read (specs.read self a).listener b).listener c }
    {
        self.read(a).listener.read(b).listener.read(c)
    }
}
