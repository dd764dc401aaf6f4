//! What the name in an escape stands for: a character, a font, a register, a string, or what a test comes to.
ghost use Rattle.std.specs.Prelude.{◌≡◌};
ghost use Rattle.preconv_lines.specs.Half.{offered};
ghost use Rattle.preconv_lines.specs.Named as specs;

use super::half::{Half, Kind, Line, Seen};
use nr_units::Name;
use preconv_characters::{
    Before, Mark, Said, code_of, glyph_code, has_marks, is_hang, is_native, is_number, is_pair,
    is_struck, marked_by, overstruck, quote_of, string_code, wide_mark,
};

/// The register that has the indent of a manual page in groff's macros.
const MARGIN: &[u8] = b"[an-margin]";

impl Half {
    /// This character, if there is one. A name that means nothing goes out as it is, but between
    /// delimiters, which the language doesn't have.
    fn character(&mut self, code: Option<u32>) -> Seen
        ensures { offered self.new result ≡ specs.character code self.old }
    {
        match code {
            Some(code) => {
                let said = self.line.character(code);
                self.places(wide_mark(code));
                self.ended(said)
            }
            None if self.escape.is_delimited() => self.dropped(),
            None => self.ended_kept(),
        }
    }

    /// This character, if there is one, with a stroke through it.
    fn struck(&mut self, code: Option<u32>) -> Seen
        ensures { offered self.new result ≡ specs.struck code self.old }
    {
        match code {
            Some(code) => {
                self.places(Mark::Other);
                self.ended(Said::Struck(code))
            }
            None => self.character(None),
        }
    }

    /// The letter of a name, if it is one, with its marks.
    fn marked(&mut self, letter: Option<u32>) -> Seen
        ensures { offered self.new result ≡ specs.marked letter self.old }
    {
        let Some(letter) = letter else {
            return self.character(None);
        };
        let name = self.spelled;
        let marked = marked_by(name.as_bytes(), letter);
        let said = self.line.marked(marked);
        self.places(wide_mark(marked.whole));
        self.ended(said)
    }

    /// A character that the language has: it goes out as it was kept, or as a byte.
    fn native(&mut self, code: Option<u32>) -> Seen
        ensures { offered self.new result ≡ specs.native code self.old }
    {
        let Some(code) = code else {
            return self.ended_kept();
        };
        let kept = self.kept;
        self.places(wide_mark(code));
        self.ended(Said::Native(kept, code))
    }

    /// A character by its name.
    fn glyph(&mut self) -> Seen
        ensures { offered self.new result ≡ specs.glyph self.old }
    {
        let name = self.spelled;
        if is_native(name.as_bytes()) && !self.escape.is_delimited() {
            return self.native(glyph_code(name.as_bytes()));
        }
        if is_pair(name.as_bytes(), b'*', b'W') {
            if matches!(self.line, Line::Translation(_)) {
                self.dashes = true;
                return self.ended_kept();
            }
            if self.dashes {
                self.places(Mark::Other);
                return self.ended(Said::Escape(b'-'));
            }
        }
        let translates = matches!(self.line, Line::Translation(_));
        if is_pair(name.as_bytes(), b'i', b's') && translates {
            self.quotes = true;
            return self.ended_kept();
        }
        if self.quotes && !translates {
            return self.quoted(quote_of(name.as_bytes()));
        }
        self.sign()
    }

    /// A sign that `.tr` made a quote, if it is one.
    fn quoted(&mut self, quote: Option<Name>) -> Seen
        ensures { offered self.new result ≡ specs.quoted quote self.old }
    {
        match quote {
            Some(quote) => {
                self.places(Mark::Other);
                self.ended(Said::Kept(quote))
            }
            None => self.sign(),
        }
    }

    /// The character of a name as it is, maybe with marks or a stroke through it.
    fn sign(&mut self) -> Seen
        ensures { offered self.new result ≡ specs.sign self.old }
    {
        let name = self.spelled;
        let code = glyph_code(name.as_bytes());
        if is_struck(name.as_bytes()) {
            return self.struck(code);
        }
        if has_marks(name.as_bytes()) {
            return self.marked(code);
        }
        self.character(code)
    }

    /// A character by its number.
    fn numbered(&mut self) -> Seen
        ensures { offered self.new result ≡ specs.numbered self.old }
    {
        let name = self.spelled;
        self.character(code_of(name.as_bytes()))
    }

    /// A string. Those of man(7) that are a character go out as its byte.
    fn string(&mut self, code: Option<u32>) -> Seen
        ensures { offered self.new result ≡ specs.string code self.old }
    {
        match code {
            Some(code) => self.kept_or(code),
            None => self.ended_kept(),
        }
    }

    /// What a test comes to.
    fn tested(&mut self, holds: bool) -> Seen
        ensures { offered self.new result ≡ specs.tested holds self.old }
    {
        self.places(Mark::Other);
        self.ended(Said::Byte(if holds { b'1' } else { b'0' }))
    }

    /// How far to the left a line begins, if that is a number of cells.
    fn hang(&mut self) -> Seen
        ensures { offered self.new result ≡ specs.hang self.old }
    {
        let number = self.spelled;
        if !is_hang(number.as_bytes()) {
            return self.ended_kept();
        }
        self.forget();
        self.line = Line::Text;
        self.before = Before::Character(Mark::Other);
        Seen::taken(Said::Hang(number))
    }

    /// A register. The indent of a manual page, which groff's macros have in `an-margin`, is `_` in tmac.an.
    #[tactic(auto, unfolding(crate::specs::Named::register))]
    fn register(&mut self) -> Seen
        ensures { offered self.new result ≡ specs.register self.old }
    {
        let name = self.spelled;
        if is_pair(name.as_bytes(), b'.', b'g') {
            self.places(Mark::Other);
            return self.ended(Said::Byte(b'1'));
        }
        let kept = self.kept;
        let bytes = kept.as_bytes();
        let cut = bytes.len().saturating_sub(MARGIN.len());
        if &bytes[cut..] != MARGIN {
            return self.ended_kept();
        }
        let mut indent = Name::of(&bytes[..cut]);
        indent.push(b'_');
        self.places(Mark::Other);
        self.ended(Said::Kept(indent))
    }

    /// The name of an escape has ended.
    pub(crate) fn named(&mut self, kind: Kind) -> Seen
        ensures { offered self.new result ≡ specs.named kind self.old }
    {
        let name = self.spelled;
        match kind {
            Kind::Glyph => self.glyph(),
            Kind::Code => self.numbered(),
            Kind::Font => self.font(),
            Kind::Register => self.register(),
            Kind::Text => self.string(string_code(name.as_bytes())),
            Kind::Hang => self.hang(),
            Kind::Overstruck => self.character(overstruck(name.as_bytes())),
            Kind::Identifier => self.tested(!name.is_empty()),
            Kind::Number => self.tested(is_number(name.as_bytes())),
            Kind::Size | Kind::Dropped => self.dropped(),
        }
    }
}
