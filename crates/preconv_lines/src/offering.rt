//! A character is offered to what is half read.
ghost use Rattle.std.specs.Prelude.{◌≡◌, true, false};
ghost use Rattle.preconv_lines.specs.declared.half.Coming.TheVariants.{Wide};
ghost use Rattle.preconv_characters.specs.declared.said.Said.TheVariants.{Character};
ghost use Rattle.preconv_lines.specs.Half.{is_open, offered, taken};
ghost use Rattle.preconv_lines.specs.Offering as specs;

use super::half::{Coming, Escape, Half, Line, Seen};
use nr_units::Name;
use preconv_characters::{Said, wide_mark};

impl Line {
    /// The line after such a character.
    #[inline(always)]
    fn taken(self, byte: u8) -> Line
        ensures { result ≡ specs.line_taken self byte }
    {
        match self {
            _ if byte == b'\n' => Line::Start,
            Line::Start | Line::Fonts => Line::Text,
            Line::Words(words) => Line::Words(words.taken(byte)),
            line => line,
        }
    }
}

impl Half {
    /// An escape begins.
    fn begins(&mut self) -> Seen
        ensures { offered self.new result ≡ specs.beginning self.old }
    {
        self.escape = Escape::Begun;
        self.kept = Name::of(b"\\");
        self.spelled = Name::new();
        Seen::taken(Said::Nothing)
    }

    /// An ASCII character comes.
    #[inline(always)]
    fn offer_byte(&mut self, byte: u8) -> Seen
        ensures { offered self.new result ≡ specs.offer_byte byte self.old }
    {
        if !matches!(self.escape, Escape::Plain) {
            return self.in_escape(byte);
        }
        if byte == b'\\' && self.takes_escape() {
            return self.begins();
        }
        self.in_line(byte)
    }

    /// Another character comes. It is in the name of no escape.
    fn offer_wide(&mut self, code: u32) -> Seen
        ensures { offered self.new result ≡ specs.offer_wide code self.old }
    {
        match self.escape {
            Escape::Plain => self.wide_in_line(code),
            Escape::Skip | Escape::Skipped(_) | Escape::Embedded(_) | Escape::Note => {
                Seen::taken(Said::Nothing)
            }
            Escape::FontEscape => self.font_left(),
            Escape::Sentence => self.after_sentence(b'?'),
            _ => self.abandoned(),
        }
    }

    /// Takes a character beyond ASCII that only goes on a text line. Tells whether it does.
    #[inline]
    pub fn takes_wide(&mut self, code: u32) -> bool
        ensures taken { result ≡ true → taken (Character code) self.new ≡ specs.offer (Wide code) self.old }
        ensures left { result ≡ false → self.new ≡ self.old }
    {
        match self.escape {
            Escape::Plain => match self.line {
                Line::Text => {
                    self.places(wide_mark(code));
                    true
                }
                _ => false,
            },
            _ => false,
        }
    }

    /// What a character does.
    #[inline(always)]
    pub fn offer(&mut self, coming: Coming) -> Seen
        ensures { offered self.new result ≡ specs.offer coming self.old }
    {
        match coming {
            Coming::Byte(byte) => self.offer_byte(byte),
            Coming::Wide(code) => self.offer_wide(code),
        }
    }

    /// Whether no escape is half read, and no byte is translated.
    #[inline(always)]
    pub fn is_open(&self) -> bool
        ensures { result ≡ is_open self.now }
    {
        matches!(self.escape, Escape::Plain) && !self.translating
    }

    /// Whether a byte of a text line is no hyphen that is read, and no newline that waits.
    #[inline(always)]
    fn is_text_as_is(&self, byte: u8) -> bool
        ensures { result ≡ specs.is_text_as_is byte self.now }
    {
        match byte {
            b'-' => !self.turns_hyphens(),
            b'\n' => !self.closes(),
            _ => true,
        }
    }

    /// Whether an ASCII character goes out as it is and is taken at once.
    #[inline(always)]
    pub fn takes_as_is(&self, byte: u8) -> bool
        ensures { result ≡ specs.is_as_is byte self.now }
    {
        if byte >= 127 || byte == b'\r' || byte == b'\\' || !self.is_open() {
            return false;
        }
        match self.line {
            Line::Request | Line::Stored => true,
            Line::Text => self.is_text_as_is(byte),
            Line::Fonts => byte != b' ' && self.is_text_as_is(byte),
            Line::Start => {
                !matches!(byte, b'.' | b'\'')
                    && self.is_text_as_is(byte)
                    && !(matches!(byte, b'\n' | b' ') && self.follows_tag())
            }
            Line::Words(words) => words.takes_as_is(byte),
            _ => false,
        }
    }

    /// Takes such a character.
    #[inline(always)]
    pub fn takes(&mut self, byte: u8)
        ensures { self.new ≡ specs.taken_as_is byte self.old }
    {
        self.line = self.line.taken(byte);
        self.goes_by(byte);
    }

    /// Whether bytes pass as they are, up to a newline.
    pub fn is_raw(&self) -> bool
        ensures { result ≡ specs.is_raw self.now.line }
    {
        matches!(self.line, Line::Comment | Line::Ignored(_))
    }
}
