//! Hyphens of a manual page: a line may be broken after one only where it stands between two letters.
ghost use Rattle.std.specs.Prelude.{◌≡◌, true};
ghost use Rattle.preconv_lines.specs.Half.{offered};
ghost use Rattle.preconv_lines.specs.Hyphens as specs;

use super::half::{Escape, Half, Line, Seen, TablePart};
use nr_units::Name;
use preconv_characters::{Before, Mark, Said, is_ascii_letter, mark_of};

/// Whether a hyphen is read as that of text in a line.
fn has_hyphens(line: Line) -> bool
    ensures { result ≡ specs.has_hyphens line }
{
    match line {
        Line::Words(words) => words.has_hyphens(),
        _ => true,
    }
}

impl Half {
    /// A character is read.
    pub fn places(&mut self, mark: Mark)
        ensures { self.new ≡ specs.placed mark self.old }
    {
        if self.manual {
            self.before = self.before.followed(mark);
        }
    }

    /// A byte is read.
    #[inline(always)]
    pub fn goes_by(&mut self, byte: u8)
        ensures { self.new ≡ specs.gone_by byte self.old }
    {
        if byte == b'\n' {
            self.table = self.table.next_line(self.before);
            self.before = Before::Character(Mark::Other);
            self.tag = self.tag.next_line();
        } else {
            self.places(mark_of(byte));
        }
    }

    /// Whether an opening bracket or a quote stands before the next character.
    pub(crate) fn begins_after(&self) -> bool
        ensures { result ≡ specs.begins_after self.now }
    {
        matches!(self.before, Before::Character(Mark::Opening | Mark::Quote))
    }

    /// The hyphens of this line are left as they are from here on.
    pub(crate) fn leaves_hyphens(&mut self)
        ensures { self.new ≡ specs.leaving_hyphens self.old }
    {
        if self.manual {
            self.before = Before::Argument;
        }
    }

    /// Whether hyphens are read: after a title, and in no table whose fields a hyphen separates.
    pub(crate) fn turns_hyphens(&self) -> bool
        ensures { result ≡ specs.turns_hyphens self.now }
    {
        self.manual && !matches!(self.table, TablePart::Separated)
    }

    /// Whether text is that of a manual page, and of no table.
    pub(crate) fn is_flowing(&self) -> bool
        ensures { result ≡ specs.is_flowing self.now }
    {
        self.manual && !self.table.is_read()
    }

    /// A hyphen among words of which this is a tag or none, or in text. In a tag or an address no line is broken after it.
    pub(crate) fn hyphen(&mut self, line: Line) -> Seen
        ensures { offered self.new result ≡ specs.hyphen line self.old }
    {
        self.line = line;
        if !has_hyphens(line) {
            return Seen::taken(Said::Byte(b'-'));
        }
        if matches!(self.table, TablePart::Format) {
            return self.format_hyphen();
        }
        self.text_hyphen()
    }

    /// A hyphen in the format of a table. After a bracket, as in `tab(-)`, it separates fields.
    fn format_hyphen(&mut self) -> Seen
        ensures { offered self.new result ≡ specs.hyphen_at true self.old.before self.old }
    {
        self.table = match self.before {
            Before::Character(Mark::Opening) => TablePart::Separated,
            _ => TablePart::Format,
        };
        self.before = Before::Character(Mark::Other);
        Seen::taken(Said::Byte(b'-'))
    }

    /// One in text, or in a word that is text.
    fn text_hyphen(&mut self) -> Seen
        ensures { offered self.new result ≡ specs.hyphen_by self.old.before self.old }
    {
        let whole = self.tag.is_whole();
        match self.before {
            Before::Character(Mark::Backslash) => {
                self.before = Before::Character(Mark::Other);
                Seen::taken(Said::Byte(b'-'))
            }
            Before::Character(Mark::Letter) if !whole => {
                self.before = Before::Character(Mark::Other);
                self.escape = Escape::Hyphen;
                self.kept = Name::of(b"-");
                Seen::taken(Said::Nothing)
            }
            Before::Character(_) => {
                self.before = Before::Character(Mark::Other);
                Seen::taken(Said::Escape(b'-'))
            }
            Before::Argument => Seen::taken(Said::Byte(b'-')),
        }
    }

    /// A byte after a letter and a hyphen. After an escape, which may be that of a font, it stays as well.
    pub(crate) fn after_hyphen(&mut self, byte: u8) -> Seen
        ensures { offered self.new result ≡ specs.after_hyphen byte self.old }
    {
        if is_ascii_letter(byte) || byte == b'\\' {
            return self.abandoned();
        }
        self.forget();
        Seen::left(Said::Escape(b'-'))
    }

    /// A byte goes out as it is, and the line goes on so.
    pub(crate) fn says(&mut self, byte: u8, line: Line) -> Seen
        ensures { offered self.new result ≡ specs.saying byte line self.old }
    {
        self.goes_by(byte);
        self.line = line;
        Seen::taken(Said::Byte(byte))
    }

    /// A byte of a text line.
    pub(crate) fn in_text(&mut self, byte: u8) -> Seen
        ensures { offered self.new result ≡ specs.in_text byte self.old }
    {
        if self.is_moved(byte) {
            return self.moved(byte);
        }
        match byte {
            b'\n' if self.closes() => self.holds_newline(),
            b'\n' => self.says(byte, Line::Start),
            b'-' if self.turns_hyphens() => self.hyphen(Line::Text),
            _ => self.says(byte, Line::Text),
        }
    }
}
