//! What an escape is by the byte after its backslash.
ghost use Rattle.std.specs.Prelude.{◌≡◌};
ghost use Rattle.preconv_lines.specs.Half.{offered};
ghost use Rattle.preconv_lines.specs.Hyphens.{may_hang};
ghost use Rattle.preconv_lines.specs.Letters as specs;

use super::half::{Escape, Half, Kind, Line, Seen};
use preconv_characters::{Before, CUT, Class, Mark, Said};

/// The letter of an escape with a number or a text.
fn is_measured(byte: u8) -> bool
    ensures { result ≡ specs.is_measured byte }
{
    matches!(byte, b'h' | b'v' | b'w' | b'l' | b'L' | b'D' | b'b' | b'x')
}

/// The letter of an escape with a name that is dropped: colours, families, devices.
fn is_unnamed(byte: u8) -> bool
    ensures { result ≡ specs.is_unnamed byte }
{
    matches!(byte, b'm' | b'M' | b'F' | b'O' | b'V' | b'Y')
}

/// The letter of an escape with a text that is dropped: letters' height and slant, devices, new registers.
fn is_skipped(byte: u8) -> bool
    ensures { result ≡ specs.is_skipped byte }
{
    matches!(byte, b'H' | b'R' | b'S' | b'X' | b'Z')
}

impl Half {
    /// A comment begins.
    fn comment(&mut self, said: Said) -> Seen
        ensures { offered self.new result ≡ specs.comment said self.old }
    {
        self.forget();
        self.before = Before::Character(Mark::Other);
        self.line = Line::Comment;
        Seen::taken(said)
    }

    /// A newline after a backslash. Where nothing of a line has begun after a condition, it is dropped.
    pub(crate) fn newline_hidden(&mut self) -> Seen
        ensures { offered self.new result ≡ specs.newline_hidden self.old }
    {
        self.keep(b'\n');
        let kept = self.kept;
        self.forget();
        match self.line {
            Line::Part | Line::Condition => Seen::taken(Said::Nothing),
            _ => Seen::taken(Said::Kept(kept)),
        }
    }

    /// `\{` or the like, with one backslash or more.
    fn brace(&mut self) -> Seen
        ensures { offered self.new result ≡ specs.brace self.old }
    {
        let braced = self.line.takes_brace();
        let seen = self.ends_with(b'{');
        if braced {
            self.line = Line::Braced;
        }
        seen
    }

    /// `\` and a blank, or a blank that can't break: in a control line it must not end a word.
    fn blank(&mut self) -> Seen
        ensures { offered self.new result ≡ specs.blank self.old }
    {
        let byte = if self.line.is_text() { b' ' } else { b'0' };
        self.places(Mark::Other);
        self.ended(Said::Escape(byte))
    }

    /// `\'`, an acute accent.
    fn acute(&mut self) -> Seen
        ensures { offered self.new result ≡ specs.acute self.old }
    {
        self.keep(b'\'');
        self.kept_or(u32::from('´'))
    }

    /// A backslash after another. Copying a macro's word makes one of both, so that a hyphen after it is a minus sign.
    fn backslash(&mut self) -> Seen
        ensures { offered self.new result ≡ specs.backslash self.old }
    {
        self.keep(b'\\');
        let kept = self.kept;
        let copied = matches!(self.line, Line::Words(_));
        self.places(if copied { Mark::Backslash } else { Mark::Other });
        self.ended(Said::Kept(kept))
    }

    /// `\.`: where a text line begins with it, a control character. In a definition it may be that of a line within,
    /// and in a table it begins a row.
    fn dot(&mut self) -> Seen
        ensures { offered self.new result ≡ specs.dot self.old }
    {
        if self.defining || self.table.is_read() || !matches!(self.line, Line::Start) {
            return self.ends_with(b'.');
        }
        self.forget();
        self.control(false, b'.')
    }

    /// In a table `\R` and a character is a field, the character repeated.
    fn repeats(&self, byte: u8) -> bool
        ensures { result ≡ specs.repeats byte self.now }
    {
        byte == b'R' && self.table.is_read()
    }

    /// Such a letter. By `\h` at the beginning of a line it may hang.
    fn measured(&mut self, byte: u8) -> Seen
        ensures { offered self.new result ≡ specs.measured byte self.old }
    {
        let hangs = byte == b'h' && self.may_hang();
        self.leaves_hyphens();
        if hangs {
            return self.goes_on(byte, Escape::Delimiter(Kind::Hang));
        }
        self.ends_with(byte)
    }

    /// A text line may hang after a title, and in no table, where the line before has ended.
    fn may_hang(&self) -> bool
        ensures { result ≡ may_hang self.now }
    {
        self.is_flowing() && matches!(self.line, Line::Start | Line::Braced)
    }

    /// A byte after a backslash.
    fn letter(&mut self, byte: u8) -> Seen
        ensures { offered self.new result ≡ specs.letter byte self.old }
    {
        match byte {
            b'(' => self.goes_on(byte, Escape::Pair(Kind::Glyph)),
            b'[' => self.goes_on(byte, Escape::Bracket(Kind::Glyph)),
            b'f' => self.goes_on(byte, Escape::Target(Kind::Font)),
            b'n' => self.goes_on(byte, Escape::Target(Kind::Register)),
            b'*' => self.goes_on(byte, Escape::Target(Kind::Text)),
            b's' => self.goes_on(byte, Escape::Target(Kind::Size)),
            b'N' => self.goes_on(byte, Escape::Delimiter(Kind::Code)),
            b'C' => self.goes_on(byte, Escape::Delimiter(Kind::Glyph)),
            b'A' => self.goes_on(byte, Escape::Delimiter(Kind::Identifier)),
            b'B' => self.goes_on(byte, Escape::Delimiter(Kind::Number)),
            b'o' => self.goes_on(byte, Escape::Delimiter(Kind::Overstruck)),
            b'\\' => self.backslash(),
            b'?' => self.embed(),
            b':' => self.ended(Said::Character(CUT)),
            b',' | b'/' | b')' => self.dropped(),
            b'%' if self.begins_after() => self.dropped(),
            b' ' | b'~' => self.blank(),
            b'$' => self.goes_on(byte, Escape::Argument),
            b'{' => self.brace(),
            b'\'' => self.acute(),
            b'.' => self.dot(),
            _ if is_unnamed(byte) => self.goes_on(byte, Escape::Target(Kind::Dropped)),
            _ if is_skipped(byte) && !self.repeats(byte) => self.skip(),
            _ if is_measured(byte) => self.measured(byte),
            _ => self.ends_with(byte),
        }
    }

    /// Whether the line must go on before an escape is read.
    fn waits(&self) -> bool
        ensures { result ≡ specs.waits self.now.line }
    {
        match self.line {
            Line::Words(words) => words.begins_word(),
            Line::Condition => true,
            _ => false,
        }
    }

    /// The line goes on before an escape is read.
    fn makes_way(&mut self) -> Seen
        ensures { offered self.new result ≡ specs.made_way self.old.line self.old }
    {
        match self.line {
            Line::Words(words) => {
                let emitted = words.offered(Class::Other, Said::Nothing);
                self.line = Line::Words(emitted.words);
                Seen::left(emitted.said)
            }
            Line::Condition => {
                self.line = Line::Number;
                Seen::left(Said::Nothing)
            }
            _ => Seen::left(Said::Nothing),
        }
    }

    /// A byte after one backslash or more.
    pub(crate) fn after_backslash(&mut self, byte: u8) -> Seen
        ensures { offered self.new result ≡ specs.after_backslash byte self.old }
    {
        match byte {
            b'\n' => self.newline_hidden(),
            b'\\' if self.defining || matches!(self.line, Line::Stored) => self.goes_on(
                byte,
                Escape::Begun,
            ),
            b'"' => {
                self.keep(byte);
                let kept = self.kept;
                self.comment(Said::Kept(kept))
            }
            b'#' if matches!(self.line, Line::Text | Line::Fonts) => {
                self.escape = Escape::Note;
                Seen::taken(Said::Nothing)
            }
            b'#' => {
                let alone = matches!(self.line, Line::Start);
                self.comment(Said::Comment(alone))
            }
            _ if self.waits() => self.makes_way(),
            _ => self.letter(byte),
        }
    }
}
