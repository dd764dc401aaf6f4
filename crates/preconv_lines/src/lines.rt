//! Lines: control lines and their names, text lines, lines that pass as they are.
ghost use Rattle.std.specs.Prelude.{◌≡◌};
ghost use Rattle.preconv_lines.specs.Half.{offered};
ghost use Rattle.preconv_lines.specs.Lines as specs;

use super::half::{Dots, Half, Line, Pair, Seen, TablePart, Tag};
use nr_units::Name;
use preconv_characters::{
    Before, Class, Fonts, Mark, Opens, Said, WordFont, Words, opened, said_name, wide_mark,
};

/// A blank, a control byte or a backslash, which end a name.
fn ends_name(byte: u8) -> bool
    ensures { result ≡ specs.ends_name byte }
{
    byte <= b' ' || byte == b'\\' || byte == 127
}

impl Half {
    /// A control character begins a control line, after a condition or not.
    pub(crate) fn control(&mut self, conditional: bool, byte: u8) -> Seen
        ensures { offered self.new result ≡ specs.control conditional byte self.old }
    {
        self.name = Name::new();
        self.conditional = conditional;
        self.says(byte, Line::Control)
    }

    /// Whether this line of a manual page follows that of a tag.
    pub(crate) fn follows_tag(&self) -> bool
        ensures { result ≡ specs.follows_tag self.now }
    {
        self.is_flowing() && matches!(self.tag, Tag::InLast)
    }

    /// Before a line that is empty or begins with a blank, as this byte says, a request breaks, also where text stands
    /// beside the tag.
    fn breaks(&mut self, byte: u8) -> Seen
        ensures { offered self.new result ≡ specs.breaking byte self.old }
    {
        self.tag = Tag::Nowhere;
        if byte == b'\n' {
            return Seen::left(Said::Kept(Name::of(b".sp")));
        }
        Seen::left(Said::Kept(Name::of(b".br\n")))
    }

    /// A byte at the beginning of a line.
    fn at_start(&mut self, byte: u8) -> Seen
        ensures { offered self.new result ≡ specs.at_start byte self.old }
    {
        match byte {
            b'.' | b'\'' => self.control(false, byte),
            b'\n' | b' ' if self.follows_tag() => self.breaks(byte),
            b'\n' => self.says(byte, Line::Start),
            _ => self.in_text(byte),
        }
    }

    /// A byte after a condition.
    fn at_part(&mut self, byte: u8) -> Seen
        ensures { offered self.new result ≡ specs.at_part byte self.old }
    {
        match byte {
            b'.' | b'\'' => self.control(true, byte),
            b'\n' => self.says(byte, Line::Start),
            b' ' | b'\t' => {
                let line = self.line;
                self.says(byte, line)
            }
            _ => self.in_text(byte),
        }
    }

    /// The name becomes this, and the line goes on so.
    fn names(&mut self, name: Name, line: Line) -> Seen
        ensures { offered self.new result ≡ specs.naming name line self.old }
    {
        self.name = name;
        self.line = line;
        Seen::taken(Said::Nothing)
    }

    /// The blanks that were kept go out, and the line goes on so.
    fn blanks_said(&mut self, line: Line) -> Seen
        ensures { offered self.new result ≡ specs.blanks_said line self.old }
    {
        let blanks = self.name;
        self.name = Name::new();
        self.line = line;
        Seen::left(Said::Kept(blanks))
    }

    /// A byte after a control character and blanks. In a definition these are dropped before another
    /// control character, which ends it.
    fn after_control(&mut self, byte: u8) -> Seen
        ensures { offered self.new result ≡ specs.after_control byte self.old }
    {
        if byte == b'.' && self.defining {
            return self.names(Name::of(b"."), Line::Name);
        }
        if (byte == b' ' || byte == b'\t') && !self.name.is_full() {
            let mut blanks = self.name;
            blanks.push(byte);
            return self.names(blanks, Line::Control);
        }
        if !self.name.is_empty() {
            return self.blanks_said(Line::Control);
        }
        if ends_name(byte) {
            return self.blanks_said(Line::Request);
        }
        self.names(Name::of(&[byte]), Line::Name)
    }

    /// Where a line goes on whose name has ended before this byte. Whether lines are ignored after a
    /// condition is not known, nor where they end that have a name of their own.
    #[inline(always)]
    pub fn opens(&mut self, opens: Opens, byte: u8)
        ensures { self.new ≡ specs.opening opens byte self.old }
    {
        self.line = match opens {
            Opens::Rest | Opens::Definition | Opens::End => Line::Request,
            Opens::Paragraph | Opens::Address => Line::Words(Words::new(Fonts::Tag)),
            Opens::Tagged | Opens::Plain => Line::Request,
            Opens::Face => Line::Face,
            Opens::Title | Opens::Table | Opens::TableEnd => Line::Request,
            Opens::Ignored if byte == b'\n' && !self.conditional => Line::Ignored(Dots::Other),
            Opens::Ignored => Line::Request,
            Opens::Condition => Line::Condition,
            Opens::Else | Opens::Nop => Line::Part,
            Opens::Stored => Line::Stored,
            Opens::Translation => Line::Translation(Pair::First),
            Opens::Words(fonts) => Line::Words(Words::new(fonts)),
        };
        self.defining = match opens {
            Opens::Definition => true,
            Opens::End => false,
            _ => self.defining,
        };
        self.tag = match opens {
            Opens::Paragraph => Tag::InThis,
            Opens::Tagged => Tag::InNext,
            Opens::Address => Tag::Address,
            _ => self.tag,
        };
        if opens.is_roman() {
            self.font = b'R';
            self.previous = b'R';
        }
        self.word_font = WordFont::new();
        match opens {
            Opens::Title if !self.table.is_read() => self.manual = true,
            Opens::Table => {
                self.table = self.table.with_format();
                self.before = Before::Character(Mark::Other);
            }
            Opens::TableEnd => self.table = TablePart::Nowhere,
            _ => {}
        }
    }

    /// The name has ended before this byte.
    fn named_line(&mut self, byte: u8) -> Seen
        ensures { offered self.new result ≡ specs.named_line byte self.old }
    {
        let name = self.name;
        let opens = opened(name.as_bytes());
        self.opens(opens, byte);
        self.name = Name::new();
        Seen::left(said_name(opens, name, byte))
    }

    /// A byte of a name, or after it.
    fn in_name(&mut self, byte: u8) -> Seen
        ensures { offered self.new result ≡ specs.in_name byte self.old }
    {
        if ends_name(byte) || self.name.is_full() {
            return self.named_line(byte);
        }
        self.name.push(byte);
        Seen::taken(Said::Nothing)
    }

    /// A byte of the rest of a line.
    fn in_rest(&mut self, byte: u8) -> Seen
        ensures { offered self.new result ≡ specs.in_rest byte self.old }
    {
        if byte == b'\r' {
            return Seen::taken(Said::Nothing);
        }
        let line = if byte == b'\n' {
            Line::Start
        } else {
            self.line
        };
        self.says(byte, line)
    }

    /// A byte of a text line of which only fonts were read. Blanks there are printed, as are those between words.
    fn after_fonts(&mut self, byte: u8) -> Seen
        ensures { offered self.new result ≡ specs.after_fonts byte self.old }
    {
        if byte == b' ' && !self.table.is_read() {
            self.line = Line::Text;
            return Seen::left(Said::Escape(b'&'));
        }
        self.in_text(byte)
    }

    /// A character among words that goes out as `said` elsewhere.
    #[inline(always)]
    fn among_words(&mut self, words: Words, class: Class, said: Said) -> Seen
        ensures { offered self.new result ≡ specs.among_words words class said self.old }
    {
        let emitted = words.offered(class, said);
        self.line = Line::Words(emitted.words);
        Seen {
            said: emitted.said,
            takes: emitted.takes,
        }
    }

    /// A byte among words that is dropped or translated.
    fn word_moved(&mut self, words: Words, byte: u8) -> Seen
        ensures { offered self.new result ≡ specs.word_moved words byte self.old }
    {
        if byte == b'\r' {
            return Seen::taken(Said::Nothing);
        }
        let code = u32::from(self.translated(byte));
        self.places(wide_mark(code));
        let said = Line::Words(words).character(code);
        self.among_words(words, Class::Other, said)
    }

    /// A byte among words. The ninth has its last quote before the newline.
    #[inline(always)]
    fn in_words(&mut self, words: Words, byte: u8) -> Seen
        ensures { offered self.new result ≡ specs.in_words words byte self.old }
    {
        if self.is_moved(byte) {
            return self.word_moved(words, byte);
        }
        if byte == b'-' && self.turns_hyphens() && !words.begins_word() {
            return self.hyphen(Line::Words(words));
        }
        if byte != b'\n' {
            self.goes_by(byte);
            return self.among_words(words, Class::of(byte), Said::Byte(byte));
        }
        if words.is_ninth() {
            self.line = Line::Request;
            return Seen::left(Said::Byte(b'"'));
        }
        self.says(byte, Line::Start)
    }

    /// A byte passes as it is. Comments end with their line, and ignored lines with one that begins with
    /// two dots.
    pub fn passes(&mut self, byte: u8)
        ensures { self.new ≡ specs.passing byte self.old }
    {
        self.line = match (self.line, byte) {
            (Line::Comment, b'\n') => Line::Start,
            (Line::Ignored(Dots::Two), b'\n') => Line::Start,
            (Line::Ignored(_), b'\n') => Line::Ignored(Dots::Start),
            (Line::Ignored(Dots::Start), b'.') => Line::Ignored(Dots::One),
            (Line::Ignored(Dots::One), b'.') => Line::Ignored(Dots::Two),
            (Line::Ignored(Dots::Start | Dots::One), _) => Line::Ignored(Dots::Other),
            (line, _) => line,
        };
    }

    /// A byte of a line, in no escape.
    #[inline(always)]
    pub(crate) fn in_line(&mut self, byte: u8) -> Seen
        ensures { offered self.new result ≡ specs.in_line byte self.old }
    {
        match self.line {
            Line::Start => self.at_start(byte),
            Line::Control => self.after_control(byte),
            Line::Name => self.in_name(byte),
            Line::Words(words) => self.in_words(words, byte),
            Line::Condition => self.before_condition(byte),
            Line::Number => self.in_number(byte),
            Line::Strings(delimiter, ended) => self.in_strings(delimiter, ended, byte),
            Line::Asked(asked) => self.in_asked(asked, byte),
            Line::Part | Line::Braced => self.at_part(byte),
            Line::Text => self.in_text(byte),
            Line::Request | Line::Stored => self.in_rest(byte),
            Line::Translation(pair) => self.in_translation(pair, byte),
            Line::Face => self.in_face(byte),
            Line::Fonts => self.after_fonts(byte),
            Line::Comment | Line::Ignored(_) => {
                self.passes(byte);
                Seen::taken(Said::Byte(byte))
            }
        }
    }

    /// A character beyond ASCII in a line, in no escape.
    pub(crate) fn wide_in_line(&mut self, code: u32) -> Seen
        ensures { offered self.new result ≡ specs.wide_in_line code self.old }
    {
        match self.line {
            Line::Start | Line::Part | Line::Braced | Line::Condition | Line::Fonts => self.shows(
                code,
                Line::Text,
            ),
            Line::Control => self.blanks_said(Line::Request),
            Line::Name => self.named_line(b' '),
            Line::Face => self.face_ends(),
            Line::Words(words) => {
                self.places(wide_mark(code));
                self.among_words(words, Class::Other, self.line.character(code))
            }
            Line::Asked(asked) => self.in_asked(asked, b'?'),
            line => self.shows(code, line.with_text()),
        }
    }

    /// Whether a backslash begins an escape.
    pub(crate) fn takes_escape(&self) -> bool
        ensures { result ≡ specs.takes_escape self.now.line }
    {
        !matches!(
            self.line,
            Line::Control
                | Line::Name
                | Line::Face
                | Line::Asked(_)
                | Line::Comment
                | Line::Ignored(_)
        )
    }
}
