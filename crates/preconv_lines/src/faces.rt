//! Which font a page is in, so that a name that is no font keeps it.
ghost use Rattle.std.specs.Prelude.{◌≡◌};
ghost use Rattle.preconv_lines.specs.Half.{offered};
ghost use Rattle.preconv_lines.specs.Faces as specs;

use super::half::{Half, Line, Seen};
use nr_units::Name;
use preconv_characters::{Said, WordFont, font_of};

impl Line {
    /// The letter of the font here, where text has this one, and that was set in a macro's word.
    fn face(self, text: u8, set: WordFont) -> u8
        ensures { result ≡ specs.face_at self text set }
    {
        match self {
            Line::Words(words) => words.font(set),
            _ => text,
        }
    }
}

impl Half {
    /// A font is set. What is set in a macro's line holds no longer than that.
    pub fn faces(&mut self, letter: u8)
        ensures { self.new ≡ specs.faced letter self.old }
    {
        if let Line::Words(words) = self.line {
            self.word_font = words.with_face(letter, self.word_font);
            return;
        }
        let before = self.font;
        self.font = if letter == b'P' {
            self.previous
        } else {
            letter
        };
        self.previous = before;
    }

    /// A font by its name. One that is none keeps the font, and counts as a change.
    fn named_face(&self, name: Name) -> u8
        ensures { result ≡ specs.named_face name self.now }
    {
        match font_of(name.as_bytes()) {
            Some(letter) => letter,
            None => self.line.face(self.font, self.word_font),
        }
    }

    /// The name of a font in an escape has ended.
    pub(crate) fn font(&mut self) -> Seen
        ensures { offered self.new result ≡ specs.font_named self.old }
    {
        let letter = self.named_face(self.spelled);
        self.faces(letter);
        self.ended_font(Said::Font(letter))
    }

    /// The name of a font in a line of `.ft` has ended.
    pub(crate) fn face_ends(&mut self) -> Seen
        ensures { offered self.new result ≡ specs.face_ended self.old }
    {
        let name = self.name;
        let letter = self.named_face(name);
        self.faces(letter);
        self.line = Line::Request;
        self.name = Name::new();
        if name.is_empty() {
            return Seen::left(Said::Nothing);
        }
        Seen::left(Said::Byte(letter))
    }

    /// A byte of a line of `.ft`.
    pub(crate) fn in_face(&mut self, byte: u8) -> Seen
        ensures { offered self.new result ≡ specs.in_face byte self.old }
    {
        match byte {
            b'\n' => self.face_ends(),
            b' ' | b'\t' if self.name.is_empty() => self.says(byte, Line::Face),
            b'\\' if self.name.is_empty() => self.face_unknown(),
            b' ' | b'\t' | b'\\' => self.face_ends(),
            b'\r' => Seen::taken(Said::Nothing),
            _ => {
                if !self.name.is_full() {
                    self.name.push(byte);
                }
                Seen::taken(Said::Nothing)
            }
        }
    }

    /// An escape names the font: which it is isn't known.
    fn face_unknown(&mut self) -> Seen
        ensures { offered self.new result ≡ specs.face_unknown self.old }
    {
        self.font = b'R';
        self.previous = b'R';
        self.line = Line::Request;
        Seen::left(Said::Nothing)
    }
}
