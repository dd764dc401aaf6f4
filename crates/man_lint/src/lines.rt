// The lines of a page are read: what they call.
ghost use Rattle.std.specs.Prelude.{◌≡◌};
ghost use Rattle.man_lint.specs.Lines as specs;

use super::calls::Call;
use super::names::is_condition;

/// Where a line is read.
#[derive(Clone, Copy)]
pub enum Line {
    /// At its beginning.
    Start,
    /// After the control character.
    Control,
    /// In the name of what it calls.
    Name,
    /// Before a word, or at the end of the line.
    Between,
    /// In a word.
    Word,
    /// Before a word that stands after the name of a condition.
    Condition,
    /// In such a word.
    Within,
    /// In text.
    Text,
    /// In a comment.
    Comment,
}

/// What is half read of a line.
#[derive(Clone, Copy)]
pub struct Half {
    /// Where it is read.
    pub line: Line,
    /// What it calls, as far as that came.
    pub call: Call,
}

/// Whether a byte stands between words.
fn is_blank(byte: u8) -> bool
    ensures { result ≡ specs.is_blank byte }
{
    matches!(byte, b' ' | b'\t')
}

impl Half {
    /// A page begins.
    pub fn new() -> Half
        ensures { result ≡ specs.first }
    {
        Half {
            line: Line::Start,
            call: Call::none(false),
        }
    }

    /// Whether it is a comment that is read.
    pub fn is_comment(&self) -> bool
        ensures { result ≡ specs.is_comment self.now.line }
    {
        matches!(self.line, Line::Comment)
    }

    /// A byte comes that no escape has.
    pub fn take(&mut self, byte: u8)
        ensures { self.new ≡ specs.taken byte self.old }
    {
        if byte == b'\n' {
            self.line = Line::Start;
            return;
        }
        match self.line {
            Line::Start => self.start(byte),
            Line::Control => self.after_control(byte),
            Line::Name => self.in_name(byte),
            Line::Between => self.between(byte),
            Line::Word => self.in_word(byte),
            Line::Condition => self.before_condition(byte),
            Line::Within => self.in_condition(byte),
            Line::Text | Line::Comment => {}
        }
    }

    /// At the beginning of a line.
    fn start(&mut self, byte: u8)
        ensures { self.new ≡ specs.started byte self.old }
    {
        self.line = match byte {
            b'.' | b'\'' => Line::Control,
            _ => Line::Text,
        };
    }

    /// After the control character.
    fn after_control(&mut self, byte: u8)
        ensures { self.new ≡ specs.after_control byte self.old }
    {
        if !is_blank(byte) {
            self.line = Line::Name;
            self.call.add(byte);
        }
    }

    /// In the name of what the line calls.
    fn in_name(&mut self, byte: u8)
        ensures { self.new ≡ specs.in_name byte self.old }
    {
        if is_blank(byte) {
            self.end_name();
        } else {
            self.call.add(byte);
        }
    }

    /// The name ends. That of a condition calls what comes after it.
    fn end_name(&mut self)
        ensures { self.new ≡ specs.name_ended self.old }
    {
        if is_condition(self.call.name.as_bytes()) {
            self.line = Line::Condition;
            self.call = Call::none(true);
        } else {
            self.line = Line::Between;
        }
    }

    /// Before a word.
    fn between(&mut self, byte: u8)
        ensures { self.new ≡ specs.between byte self.old }
    {
        if !is_blank(byte) {
            self.line = Line::Word;
            self.call.begin_word();
            self.call.add(byte);
        }
    }

    /// In a word.
    fn in_word(&mut self, byte: u8)
        ensures { self.new ≡ specs.in_word byte self.old }
    {
        if is_blank(byte) {
            self.line = Line::Between;
        } else {
            self.call.add(byte);
        }
    }

    /// Before a word of a condition, or what comes after it.
    fn before_condition(&mut self, byte: u8)
        ensures { self.new ≡ specs.before_condition byte self.old }
    {
        if byte == b'.' {
            self.line = Line::Control;
        } else if !is_blank(byte) {
            self.line = Line::Within;
        }
    }

    /// In such a word.
    fn in_condition(&mut self, byte: u8)
        ensures { self.new ≡ specs.in_condition byte self.old }
    {
        if is_blank(byte) {
            self.line = Line::Condition;
        }
    }

    /// A byte comes after a backslash. A newline there doesn't end the line.
    pub fn take_escaped(&mut self, byte: u8)
        ensures { self.new ≡ specs.taken_escaped byte self.old }
    {
        match byte {
            b'\n' => {}
            b'"' | b'#' => self.line = Line::Comment,
            _ => self.escape(byte),
        }
    }

    /// An escape stands in the line.
    fn escape(&mut self, byte: u8)
        ensures { self.new ≡ specs.escaped byte self.old }
    {
        if matches!(self.line, Line::Name) {
            self.end_name();
        }
        match self.line {
            Line::Start | Line::Control => self.line = Line::Text,
            Line::Between => self.escape_word(),
            Line::Word => self.call.escape(),
            Line::Condition | Line::Within => self.escape_condition(byte),
            _ => {}
        }
    }

    /// A word begins with an escape.
    fn escape_word(&mut self)
        ensures { self.new ≡ specs.escaped_word self.old }
    {
        self.line = Line::Word;
        self.call.begin_word();
        self.call.escape();
    }

    /// In a condition a brace begins what it calls.
    fn escape_condition(&mut self, byte: u8)
        ensures { self.new ≡ specs.escaped_condition byte self.old }
    {
        self.line = match byte {
            b'{' => Line::Condition,
            _ => Line::Within,
        };
    }
}
