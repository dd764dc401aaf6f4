//! What a text line is but for its bytes that go out as they are: bytes that are dropped or translated, and the end
//! of a sentence at its newline.
ghost use Rattle.std.specs.Prelude.{◌≡◌};
ghost use Rattle.preconv_lines.specs.Half.{offered};
ghost use Rattle.preconv_lines.specs.Hyphens as specs;

use super::half::{Escape, Half, Line, Seen};
use nr_units::Name;
use preconv_characters::{Before, Mark, Said, wide_mark};

impl Half {
    /// Whether a byte is dropped or translated.
    #[inline(always)]
    pub(crate) fn is_moved(&self, byte: u8) -> bool
        ensures { result ≡ specs.is_moved byte self.now }
    {
        byte == b'\r' || (self.translating && self.translated(byte) != 0)
    }

    /// Such a byte of a text line.
    pub(crate) fn moved(&mut self, byte: u8) -> Seen
        ensures { offered self.new result ≡ specs.moved byte self.old }
    {
        if byte == b'\r' {
            return Seen::taken(Said::Nothing);
        }
        let code = u32::from(self.translated(byte));
        self.shows(code, Line::Text)
    }

    /// A character goes out as what it looks like, and the line goes on so.
    pub(crate) fn shows(&mut self, code: u32, line: Line) -> Seen
        ensures { offered self.new result ≡ specs.showing code line self.old }
    {
        let said = self.line.character(code);
        self.places(wide_mark(code));
        self.line = line;
        Seen::taken(said)
    }

    /// Whether a sentence has ended in what closes after its stop.
    pub(crate) fn closes(&self) -> bool
        ensures { result ≡ specs.closes self.now }
    {
        self.is_flowing()
            && !self.defining
            && matches!(self.before, Before::Character(Mark::Closed))
    }

    /// The newline after it waits.
    pub(crate) fn holds_newline(&mut self) -> Seen
        ensures { offered self.new result ≡ specs.newline_held self.old }
    {
        self.goes_by(b'\n');
        self.line = Line::Start;
        self.escape = Escape::Sentence;
        self.kept = Name::of(b"\n");
        Seen::taken(Said::Nothing)
    }

    /// The first byte of the line after it. A blank or an empty line breaks, and else what comes stands two blanks apart.
    pub(crate) fn after_sentence(&mut self, byte: u8) -> Seen
        ensures { offered self.new result ≡ specs.after_sentence byte self.old }
    {
        let said = match byte {
            b' ' | b'\n' => Name::of(b"\n"),
            _ => Name::of(b"\\*(.\\n(.u\n"),
        };
        self.forget();
        Seen::left(Said::Kept(said))
    }
}
