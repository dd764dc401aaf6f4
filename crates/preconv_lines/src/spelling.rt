//! How the name in an escape is spelled.
ghost use Rattle.std.specs.Prelude.{◌≡◌};
ghost use Rattle.preconv_lines.specs.Half.{offered};
ghost use Rattle.preconv_lines.specs.Spelling as specs;

use super::half::{Escape, Half, Kind, Seen};
use nr_units::Name;
use preconv_characters::Said;

/// Whether the escape of this letter gives a name where it stands: a string, a register, an argument, or what the line goes on
/// with.
fn gives_name(byte: u8) -> bool
    ensures { result ≡ specs.gives_name byte }
{
    matches!(byte, b'*' | b'n' | b'$' | b'\\' | b'"' | b'#' | b'\n')
}

impl Half {
    /// A name of one byte.
    fn named_by(&mut self, kind: Kind, byte: u8) -> Seen
        ensures { offered self.new result ≡ specs.named_by kind byte self.old }
    {
        self.keep(byte);
        self.spell(byte);
        match kind {
            Kind::Size => self.ended_size(),
            _ => self.named(kind),
        }
    }

    /// A backslash after the letter of an escape with a name.
    fn escaped(&mut self, kind: Kind) -> Seen
        ensures { offered self.new result ≡ specs.escaped kind self.old }
    {
        match kind {
            Kind::Font => {
                self.spell(b'\\');
                self.goes_on(b'\\', Escape::FontEscape)
            }
            _ => self.abandoned(),
        }
    }

    /// The backslash after `\f` is the name of no font, and what comes is text.
    pub(crate) fn font_left(&mut self) -> Seen
        ensures { offered self.new result ≡ specs.font_left self.old }
    {
        let seen = self.font();
        Seen::left(seen.said)
    }

    /// It begins an escape that gives the name.
    fn font_given(&mut self) -> Seen
        ensures { offered self.new result ≡ specs.font_given self.old }
    {
        let kept = self.kept;
        let bytes = kept.as_bytes();
        let before = Name::of(&bytes[..bytes.len().saturating_sub(1)]);
        self.forget();
        self.line = self.line.with_text();
        self.escape = Escape::Begun;
        self.kept = Name::of(b"\\");
        Seen::left(Said::Kept(before))
    }

    /// A byte after `\f` and a backslash.
    pub(crate) fn font_escape(&mut self, byte: u8) -> Seen
        ensures { offered self.new result ≡ specs.font_escape byte self.old }
    {
        if gives_name(byte) {
            return self.font_given();
        }
        self.font_left()
    }

    /// A byte after the letter of an escape with a name. One that another escape gives, as `\f\*B`, is left to
    /// the formatter.
    pub(crate) fn target(&mut self, kind: Kind, byte: u8) -> Seen
        ensures { offered self.new result ≡ specs.target kind byte self.old }
    {
        match (byte, kind) {
            (b'\n', _) => self.abandoned(),
            (b'\\', _) if !matches!(kind, Kind::Dropped) => self.escaped(kind),
            (b'(', _) => self.goes_on(byte, Escape::Pair(kind)),
            (b'[', _) => self.goes_on(byte, Escape::Bracket(kind)),
            (b'+' | b'-', Kind::Register | Kind::Size) => self.goes_on(byte, Escape::Target(kind)),
            (b'\'', Kind::Size) => self.goes_on(byte, Escape::Delimited(kind, byte)),
            _ => self.named_by(kind, byte),
        }
    }

    /// A byte of a name of two bytes.
    pub(crate) fn pair(&mut self, kind: Kind, byte: u8) -> Seen
        ensures { offered self.new result ≡ specs.pair kind byte self.old }
    {
        if byte == b'\n' {
            return self.abandoned();
        }
        self.keep(byte);
        self.spell(byte);
        if self.spelled.len() == 2 {
            return self.named(kind);
        }
        Seen::taken(Said::Nothing)
    }

    /// A byte of a name that `end` ends.
    pub(crate) fn spelled_up_to(&mut self, end: u8, kind: Kind, byte: u8) -> Seen
        ensures { offered self.new result ≡ specs.spelled_up_to end kind byte self.old }
    {
        if byte == b'\n' {
            return self.abandoned();
        }
        if byte == b'\\' && matches!(kind, Kind::Hang) {
            return self.abandoned();
        }
        self.keep(byte);
        if byte == end {
            return self.named(kind);
        }
        self.spell(byte);
        Seen::taken(Said::Nothing)
    }

    /// A byte of a name between brackets.
    pub(crate) fn bracketed(&mut self, kind: Kind, byte: u8) -> Seen
        ensures { offered self.new result ≡ specs.bracketed kind byte self.old }
    {
        if byte == b'[' {
            return self.goes_on(byte, Escape::Nested(kind));
        }
        self.spelled_up_to(b']', kind, byte)
    }

    /// A byte of one in it.
    pub(crate) fn nested(&mut self, kind: Kind, byte: u8) -> Seen
        ensures { offered self.new result ≡ specs.nested kind byte self.old }
    {
        if byte == b'\n' {
            return self.abandoned();
        }
        if byte == b']' {
            return self.goes_on(byte, Escape::Bracket(kind));
        }
        self.keep(byte);
        Seen::taken(Said::Nothing)
    }

    /// The delimiter of a name.
    pub(crate) fn delimiter(&mut self, kind: Kind, byte: u8) -> Seen
        ensures { offered self.new result ≡ specs.delimiter kind byte self.old }
    {
        if byte == b'\n' {
            return self.abandoned();
        }
        self.goes_on(byte, Escape::Delimited(kind, byte))
    }
}
