//! The mark at the beginning of a text (RFC 2781, section 3.2; RFC 3629, section 6), and what is half read after it.
ghost use Rattle.std.specs.Prelude.{◌≡◌, ◌≤◌, length};
ghost use Rattle.preconv_coding.specs.Part as specs;

use super::names::Coding;
use super::sets::Set;
use super::tag::{Head, Tells};
use super::wide::{Order, Wide, utf8_of};
use nr_units::Name;

/// What is half read of a text.
#[derive(Clone, Copy)]
pub(crate) enum Part {
    /// Nothing was read yet.
    Start,
    /// The first byte of a mark.
    Mark(u8),
    /// Two bytes of the mark of UTF-8.
    LongMark,
    /// The first two lines, where a coding may be named.
    Head(Head),
    /// Bytes go out as they are.
    Plain,
    /// The same, after the name of a coding that is not known.
    Unknown(Head),
    /// Characters of a set of eight bits.
    Eight(Set),
    /// UTF-16.
    Wide(Wide),
}

/// What is half read then, and the text that came of a byte.
#[derive(Clone, Copy)]
pub(crate) struct Step {
    /// What is half read.
    pub part: Part,
    /// The text.
    pub text: Name,
}

/// Bytes go out as they are, and the text goes on so.
fn plain(part: Part, bytes: &[u8]) -> Step
    requires { length bytes.now ≤ 32 }
    ensures { result ≡ specs.plain part bytes.now }
{
    Step {
        part,
        text: Name::of(bytes),
    }
}

/// What stands after a byte of the first two lines.
pub(super) fn decided(tells: Tells) -> Part
    ensures { result ≡ specs.decided tells }
{
    match tells {
        Tells::More(head) => Part::Head(head),
        Tells::Reads(Coding::Plain) => Part::Plain,
        Tells::Reads(Coding::Eight(set)) => Part::Eight(set),
        Tells::Unknown(head) => Part::Unknown(head),
    }
}

/// The first byte of a text without a mark.
fn first(byte: u8) -> Part
    ensures { result ≡ specs.first byte }
{
    decided(Head::new().takes(byte))
}

/// The text goes on so.
fn silent(part: Part) -> Step
    ensures { result ≡ specs.silent part }
{
    Step {
        part,
        text: Name::new(),
    }
}

/// A byte after one that a mark may begin with.
fn after_mark(first: u8, byte: u8) -> Step
    ensures { result ≡ specs.after_mark first byte }
{
    match (first, byte) {
        (0xFE, 0xFF) => silent(Part::Wide(Wide::new(Order::Big))),
        (0xFF, 0xFE) => silent(Part::Wide(Wide::new(Order::Little))),
        (0xEF, 0xBB) => silent(Part::LongMark),
        _ => plain(Part::Plain, &[first, byte]),
    }
}

impl Part {
    /// A byte comes.
    pub(crate) fn takes(self, byte: u8) -> Step
        ensures { result ≡ specs.taken byte self }
    {
        match self {
            Part::Start if matches!(byte, 0xEF | 0xFE | 0xFF) => silent(Part::Mark(byte)),
            Part::Mark(first) => after_mark(first, byte),
            Part::LongMark if byte == 0xBF => silent(Part::Plain),
            Part::LongMark => plain(Part::Plain, &[0xEF, 0xBB, byte]),
            Part::Start => plain(first(byte), &[byte]),
            Part::Head(head) => plain(decided(head.takes(byte)), &[byte]),
            Part::Plain => plain(Part::Plain, &[byte]),
            Part::Unknown(head) => plain(Part::Unknown(head), &[byte]),
            Part::Eight(set) => Step {
                part: Part::Eight(set),
                text: utf8_of(set.character(byte)),
            },
            Part::Wide(wide) => {
                let units = wide.takes(byte);
                Step {
                    part: Part::Wide(units.wide),
                    text: units.text,
                }
            }
        }
    }

    /// Whether bytes go out as they are from now on.
    #[inline]
    pub(crate) fn is_plain(self) -> bool
        ensures { result ≡ specs.is_plain self }
    {
        matches!(self, Part::Plain | Part::Unknown(_))
    }

    /// The end comes.
    pub(crate) fn ends(self) -> Name
        ensures { result ≡ specs.ended self }
    {
        match self {
            Part::Start | Part::Head(_) | Part::Plain | Part::Unknown(_) | Part::Eight(_) => {
                Name::new()
            }
            Part::Mark(first) => Name::of(&[first]),
            Part::LongMark => Name::of(&[0xEF, 0xBB]),
            Part::Wide(wide) => wide.ends(),
        }
    }
}
