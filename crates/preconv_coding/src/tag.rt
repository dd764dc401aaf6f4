//! A coding that is named in a page's first two lines, as in `.\" -*- coding: koi8-r -*-` (groff's preconv(1), Coding Tags).
ghost use Rattle.std.specs.Prelude.{◌≡◌, ◌<◌, length};
ghost use Rattle.preconv_coding.specs.Tag as specs;
ghost use Rattle.nr_units.specs.Name.{capacity};

use super::names::{Coding, coding_named};
use nr_units::Name;

/// What stands before the name of a coding.
static KEY: [u8; 7] = *b"coding:";

/// What was read of a tag.
#[derive(Clone, Copy)]
pub(crate) enum Tag {
    /// So many bytes of what stands before the name.
    Key(u8),
    /// All of them, and blanks.
    Blanks,
    /// The same, and a part of the name.
    Value,
}

/// The first two lines, as far as they were read.
#[derive(Clone, Copy)]
pub(crate) struct Head {
    /// It is the second line.
    pub second: bool,
    /// What was read of a tag.
    pub tag: Tag,
    /// The name, in lowercase.
    pub name: Name,
}

/// What a byte of these lines tells.
#[derive(Clone, Copy)]
pub(crate) enum Tells {
    /// Nothing yet.
    More(Head),
    /// How the text is read.
    Reads(Coding),
    /// A coding that is not known.
    Unknown(Head),
}

/// Whether a byte goes on a name.
fn goes_on(byte: u8) -> bool
    ensures { result ≡ specs.goes_on byte }
{
    matches!(byte, b'A'..=b'Z' | b'a'..=b'z' | b'0'..=b'9' | b'-' | b'/' | b'_')
}

/// A letter in lowercase.
pub(super) fn lowered(byte: u8) -> u8
    ensures { result ≡ specs.lowered byte }
{
    if matches!(byte, b'A'..=b'Z') {
        byte + 32
    } else {
        byte
    }
}

/// How many bytes of what stands before the name were read, with one more.
fn key_read(count: u8, byte: u8) -> u8
    ensures { result ≡ specs.key_read count byte }
{
    match KEY.get(usize::from(count)) {
        Some(next) if *next == byte => count + 1,
        _ if byte == b'c' => 1,
        _ => 0,
    }
}

impl Head {
    /// A page begins.
    pub(crate) fn new() -> Head
        ensures { result ≡ specs.first_head }
    {
        Head {
            second: false,
            tag: Tag::Key(0),
            name: Name::new(),
        }
    }

    /// The line goes on so.
    fn goes(self, tag: Tag) -> Tells
        ensures { result ≡ specs.going tag self }
    {
        Tells::More(Head {
            second: self.second,
            tag,
            name: self.name,
        })
    }

    /// The name goes on with a byte.
    fn spells(self, byte: u8) -> Tells
        requires { length self.name < capacity }
        ensures { result ≡ specs.spelling byte self }
    {
        let mut name = self.name;
        name.push(lowered(byte));
        Tells::More(Head {
            second: self.second,
            tag: Tag::Value,
            name,
        })
    }

    /// The name was read whole; an empty one names nothing.
    fn names(self) -> Tells
        ensures { result ≡ specs.named self }
    {
        if self.name.is_empty() {
            return Tells::Reads(Coding::Plain);
        }
        match coding_named(self.name.as_bytes()) {
            Some(coding) => Tells::Reads(coding),
            None => Tells::Unknown(self),
        }
    }

    /// A byte comes in the name of a coding, or after it.
    fn in_value(self, byte: u8) -> Tells
        ensures { result ≡ specs.in_value byte self }
    {
        if goes_on(byte) && !self.name.is_full() {
            return self.spells(byte);
        }
        self.names()
    }

    /// A byte comes after the key.
    fn in_blanks(self, byte: u8) -> Tells
        ensures { result ≡ specs.in_blanks byte self }
    {
        match byte {
            b'\n' => self.ends_line(),
            b' ' => self.goes(Tag::Blanks),
            _ => self.in_value(byte),
        }
    }

    /// A byte comes in the key, or before it.
    fn in_key(self, count: u8, byte: u8) -> Tells
        ensures { result ≡ specs.in_key count byte self }
    {
        if byte == b'\n' {
            return self.ends_line();
        }
        let read = key_read(count, byte);
        self.goes(if read == 7 {
            Tag::Blanks
        } else {
            Tag::Key(read)
        })
    }

    /// A byte comes.
    pub(crate) fn takes(self, byte: u8) -> Tells
        ensures { result ≡ specs.taken byte self }
    {
        match self.tag {
            Tag::Value => self.in_value(byte),
            Tag::Blanks => self.in_blanks(byte),
            Tag::Key(count) => self.in_key(count, byte),
        }
    }

    /// A newline comes.
    fn ends_line(self) -> Tells
        ensures { result ≡ specs.line_ended self }
    {
        if self.second {
            return Tells::Reads(Coding::Plain);
        }
        Tells::More(Head {
            second: true,
            tag: Tag::Key(0),
            name: Name::new(),
        })
    }
}
