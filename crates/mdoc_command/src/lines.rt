// The lines of a page are read: what they begin with, and the words of macros.
ghost use Rattle.std.specs.Prelude.{◌≡◌};
ghost use Rattle.mdoc_command.specs.Lines as specs;

use super::names::{defines, hides, is_parsed, is_request};
use nr_units::Name;

/// So many lines are looked at for `.Dd`, besides those that are empty or comments.
const MOST_LINES: u8 = 64;

/// Where a line is read.
#[derive(Clone, Copy)]
pub enum Line {
    /// At its beginning.
    Start,
    /// After the control character.
    Control,
    /// In the name of a macro.
    Name,
    /// Before a word of a macro, or at the end of its line.
    Between,
    /// In a word.
    Word,
    /// After a backslash in a word.
    Escape,
    /// In a word that is no name, after a backslash or not.
    Text(bool),
    /// Between quotes, after a backslash or not.
    Quoted(bool),
    /// After the quote that ends them.
    Closed,
    /// After the blanks that follow it.
    Apart,
    /// After the control character and a backslash.
    ControlEscape,
    /// In a comment.
    Comment,
    /// In a line that is not looked at.
    Rest,
    /// At the beginning of a line of a definition.
    Body,
    /// After a dot there.
    Dot,
    /// In such a line.
    BodyLine,
}

/// What is whole with a byte.
#[derive(Clone, Copy)]
pub enum Whole {
    /// Nothing.
    Nothing,
    /// The name of a line's macro.
    Macro,
    /// A word, which calls a macro where it is a name and words may.
    Word,
}

/// What is half read of a page.
#[derive(Clone, Copy)]
pub struct Half {
    /// The line, from 1 on.
    pub number: u64,
    /// So many lines were looked at for `.Dd`.
    pub looked: u8,
    /// Where it is read.
    pub line: Line,
    /// It begins with a dot, and nothing stands between that and the name.
    pub dotted: bool,
    /// The first bytes of the name of its macro, or of a word.
    pub name: Name,
    /// There were more of them than are kept.
    pub cut: bool,
    /// Words may call macros.
    pub calls: bool,
    /// The page is one of mdoc.
    pub awake: bool,
    /// Lines or words came that are not looked at, and may name the page.
    pub hidden: bool,
}

/// Whether a byte ends a word.
fn ends_word(byte: u8) -> bool
    ensures { result ≡ specs.ends_word byte }
{
    matches!(byte, b' ' | b'\t' | b'\n')
}

/// How a line is read of which the rest is not looked at.
fn rest_after(byte: u8) -> Line
    ensures { result ≡ specs.rest_after byte }
{
    match byte {
        b'\n' => Line::Start,
        _ => Line::Rest,
    }
}

/// How a line is read whose control character and backslash came before the byte.
fn escape_after(byte: u8) -> Line
    ensures { result ≡ specs.escape_after byte }
{
    match byte {
        b'"' | b'#' => Line::Comment,
        _ => rest_after(byte),
    }
}

/// How a comment is read.
fn comment_after(byte: u8) -> Line
    ensures { result ≡ specs.comment_after byte }
{
    match byte {
        b'\n' => Line::Start,
        _ => Line::Comment,
    }
}

/// Whether a line that ends here is one that is looked at for `.Dd`.
fn is_looked_at(line: Line) -> bool
    ensures { result ≡ specs.is_looked_at line }
{
    !matches!(line, Line::Start | Line::Comment)
}

/// How the lines of a definition are read.
fn body_after(byte: u8) -> Line
    ensures { result ≡ specs.body_after byte }
{
    match byte {
        b'\n' => Line::Body,
        _ => Line::BodyLine,
    }
}

/// How words are read after the byte that ends a name or a word.
fn words_after(byte: u8) -> Line
    ensures { result ≡ specs.words_after byte }
{
    match byte {
        b'\n' => Line::Start,
        b'\\' => Line::Escape,
        _ => Line::Between,
    }
}

impl Half {
    /// A page begins.
    pub fn new() -> Half
        ensures { result ≡ specs.first }
    {
        Half {
            number: 1,
            looked: 0,
            line: Line::Start,
            dotted: false,
            name: Name::new(),
            cut: false,
            calls: false,
            awake: false,
            hidden: false,
        }
    }

    /// The page is none of mdoc: no line that may have `.Dd` is left.
    #[inline]
    pub fn is_unwatched(&self) -> bool
        ensures { result ≡ specs.is_unwatched self.now }
    {
        !self.awake && self.looked >= MOST_LINES
    }

    /// A byte that changes nothing: within a line that is not looked at, or in a page that is none of mdoc.
    #[inline]
    pub fn is_unread(&self, byte: u8) -> bool
        ensures { result ≡ specs.is_unread byte self.now }
    {
        self.is_unwatched() || byte != b'\n' && matches!(self.line, Line::Rest | Line::Comment)
    }

    /// The line ends where the byte is a newline.
    pub fn count(&mut self, byte: u8)
        ensures { self.new ≡ specs.counted byte self.old }
    {
        if byte == b'\n' && self.number < u64::MAX {
            self.number += 1;
        }
    }

    /// The line takes in a byte.
    pub fn take_in(&mut self, byte: u8) -> Whole
        ensures half { self.new ≡ (specs.taken_in byte self.old).0 }
        ensures whole { result ≡ (specs.taken_in byte self.old).1 }
    {
        let line = self.line;
        let whole = self.take_in_line(byte);
        self.look(line, byte);
        whole
    }

    /// A line that was read so is looked at for `.Dd` where it ends.
    fn look(&mut self, line: Line, byte: u8)
        ensures { self.new ≡ specs.looked_at line byte self.old }
    {
        if byte == b'\n' && is_looked_at(line) && self.looked < MOST_LINES {
            self.looked += 1;
        }
    }

    /// It is taken in by where it is read.
    fn take_in_line(&mut self, byte: u8) -> Whole
        ensures half { self.new ≡ (specs.taken_in_at self.old.line byte self.old).0 }
        ensures whole { result ≡ (specs.taken_in_at self.old.line byte self.old).1 }
    {
        match self.line {
            Line::Name => return self.in_name(byte),
            Line::Word => return self.in_word(byte),
            Line::Escape => return self.in_escape(byte),
            _ => self.pass(byte),
        }
        Whole::Nothing
    }

    /// Where nothing can be whole.
    fn pass(&mut self, byte: u8)
        ensures { self.new ≡ specs.passed byte self.old }
    {
        match self.line {
            Line::Start => self.starts(byte),
            Line::Control => self.after_control(byte),
            Line::Apart => self.apart(byte),
            Line::Between => self.between(byte),
            Line::Text(escaped) => self.in_text(escaped, byte),
            Line::Quoted(escaped) => self.in_quotes(escaped, byte),
            Line::Closed => self.closed(byte),
            Line::Body => self.in_body(byte),
            Line::Dot => self.after_dot(byte),
            Line::BodyLine => self.line = body_after(byte),
            Line::ControlEscape => self.line = escape_after(byte),
            Line::Comment => self.line = comment_after(byte),
            _ => self.line = rest_after(byte),
        }
    }

    /// At the beginning of a line.
    fn starts(&mut self, byte: u8)
        ensures { self.new ≡ specs.starts byte self.old }
    {
        self.dotted = byte == b'.';
        self.line = match byte {
            b'.' | b'\'' => Line::Control,
            _ => rest_after(byte),
        };
    }

    /// After the control character.
    fn after_control(&mut self, byte: u8)
        ensures { self.new ≡ specs.after_control byte self.old }
    {
        match byte {
            b' ' | b'\t' => {
                self.line = Line::Apart;
                self.dotted = false;
            }
            b'\n' => self.line = Line::Start,
            b'\\' => self.line = Line::ControlEscape,
            _ => self.begins(Line::Name, byte),
        }
    }

    /// After the blanks that follow the control character.
    fn apart(&mut self, byte: u8)
        ensures { self.new ≡ specs.apart byte self.old }
    {
        match byte {
            b' ' | b'\t' => {}
            b'\n' => self.line = Line::Start,
            b'\\' => self.line = Line::Rest,
            _ => self.begins(Line::Name, byte),
        }
    }

    /// A name or a word begins.
    fn begins(&mut self, line: Line, byte: u8)
        ensures { self.new ≡ specs.begins line byte self.old }
    {
        self.line = line;
        self.name = Name::of(&[byte]);
        self.cut = false;
    }

    /// It goes on.
    fn grows(&mut self, byte: u8)
        ensures { self.new ≡ specs.grows byte self.old }
    {
        if self.name.is_full() {
            self.cut = true;
        } else {
            self.name.push(byte);
        }
    }

    /// In the name of a macro.
    fn in_name(&mut self, byte: u8) -> Whole
        ensures half { self.new ≡ (specs.in_name byte self.old).0 }
        ensures whole { result ≡ (specs.in_name byte self.old).1 }
    {
        if !ends_word(byte) && byte != b'\\' {
            self.grows(byte);
            return Whole::Nothing;
        }
        if !self.awake {
            self.awake = self.is_date() && ends_word(byte);
            self.line = rest_after(byte);
            return Whole::Nothing;
        }
        self.after_name(byte)
    }

    /// The name is that of `.Dd`, in one of the first lines.
    fn is_date(&self) -> bool
        ensures { result ≡ specs.is_date self.now }
    {
        self.dotted && self.looked < MOST_LINES && self.name.as_bytes() == b"Dd".as_slice()
    }

    /// The name is whole, of a request or a macro.
    fn after_name(&mut self, byte: u8) -> Whole
        ensures half { self.new ≡ (specs.after_name byte self.old).0 }
        ensures whole { result ≡ (specs.after_name byte self.old).1 }
    {
        self.hidden = self.hidden || hides(self.name.as_bytes());
        if defines(self.name.as_bytes()) {
            self.line = body_after(byte);
            return Whole::Nothing;
        }
        if is_request(self.name.as_bytes()) {
            self.line = rest_after(byte);
            return Whole::Nothing;
        }
        self.line = words_after(byte);
        self.calls = is_parsed(self.name.as_bytes());
        Whole::Macro
    }

    /// Before a word.
    fn between(&mut self, byte: u8)
        ensures { self.new ≡ specs.between byte self.old }
    {
        match byte {
            b' ' | b'\t' => self.line = Line::Between,
            b'\n' => self.line = Line::Start,
            b'"' => self.line = Line::Quoted(false),
            b'\\' => self.begins_escaped(),
            _ => self.begins(Line::Word, byte),
        }
    }

    /// A word begins with an escape.
    fn begins_escaped(&mut self)
        ensures { self.new ≡ specs.begins_escaped self.old }
    {
        self.line = Line::Escape;
        self.name = Name::new();
    }

    /// In a word.
    fn in_word(&mut self, byte: u8) -> Whole
        ensures half { self.new ≡ (specs.in_word byte self.old).0 }
        ensures whole { result ≡ (specs.in_word byte self.old).1 }
    {
        if ends_word(byte) {
            self.line = words_after(byte);
            return Whole::Word;
        }
        if byte == b'\\' {
            self.line = Line::Escape;
        } else {
            self.grows(byte);
        }
        Whole::Nothing
    }

    /// After a backslash in a word: a comment begins, the line goes on with the next, or the word is no name.
    fn in_escape(&mut self, byte: u8) -> Whole
        ensures half { self.new ≡ (specs.in_escape byte self.old).0 }
        ensures whole { result ≡ (specs.in_escape byte self.old).1 }
    {
        match byte {
            b'"' => {
                self.line = Line::Rest;
                return Whole::Word;
            }
            b'\n' => {
                self.line = if self.name.is_empty() {
                    Line::Between
                } else {
                    Line::Word
                };
            }
            _ => self.line = Line::Text(false),
        }
        Whole::Nothing
    }

    /// In a word that is no name.
    fn in_text(&mut self, escaped: bool, byte: u8)
        ensures { self.new ≡ specs.in_text escaped byte self.old }
    {
        self.line = if escaped {
            match byte {
                b'"' => Line::Rest,
                _ => Line::Text(false),
            }
        } else {
            match byte {
                b' ' | b'\t' => Line::Between,
                b'\n' => Line::Start,
                _ => Line::Text(byte == b'\\'),
            }
        };
    }

    /// Between quotes.
    fn in_quotes(&mut self, escaped: bool, byte: u8)
        ensures { self.new ≡ specs.in_quotes escaped byte self.old }
    {
        self.line = if escaped {
            match byte {
                b'"' => Line::Rest,
                _ => Line::Quoted(false),
            }
        } else {
            match byte {
                b'"' => Line::Closed,
                b'\n' => Line::Start,
                _ => Line::Quoted(byte == b'\\'),
            }
        };
    }

    /// After a quote that ends a word, or is the first of two that stand for one.
    fn closed(&mut self, byte: u8)
        ensures { self.new ≡ specs.closed byte self.old }
    {
        if byte == b'"' {
            self.line = Line::Quoted(false);
        } else {
            self.between(byte);
        }
    }

    /// At the beginning of a line of a definition.
    fn in_body(&mut self, byte: u8)
        ensures { self.new ≡ specs.in_body byte self.old }
    {
        self.line = match byte {
            b'.' => Line::Dot,
            _ => body_after(byte),
        };
    }

    /// After a dot there: a second one ends the definition.
    fn after_dot(&mut self, byte: u8)
        ensures { self.new ≡ specs.after_dot byte self.old }
    {
        self.line = match byte {
            b'.' => Line::Rest,
            _ => body_after(byte),
        };
    }
}
