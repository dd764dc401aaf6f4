//! Where lines of East Asian text, which has no blanks, may be cut: by special characters that print nothing.
ghost use Rattle.std.specs.Prelude.{◌≡◌};
ghost use Rattle.utf8_own_stage.specs.Letters as letters;
ghost use Rattle.utf8_own_stage.specs.Points as specs;

use utf8_own_characters::{is_east_asian, may_break_between};

/// Where a line is read.
#[derive(Clone, Copy)]
pub(crate) enum Line {
    /// At its beginning.
    Start,
    /// After its control character.
    Control,
    /// After a control character and `T`.
    Tee,
    /// In the name of a control line.
    Name,
    /// In the rest of a control line.
    Rest,
    /// In a text line.
    Text,
}

/// What part of an escape was read.
#[derive(Clone, Copy)]
pub(crate) enum Escape {
    /// None.
    Plain,
    /// A backslash.
    Begun,
    /// The letter of one with a name.
    Named,
    /// All but so many characters of a name.
    Left(u8),
}

/// What is read of a table.
#[derive(Clone, Copy)]
pub(crate) enum TablePlace {
    /// None is read.
    Nowhere,
    /// Its format.
    Format,
    /// Its rows.
    Rows,
    /// A block of text among them.
    Block,
}

/// What stands before the next character.
#[derive(Clone, Copy)]
pub(crate) struct Place {
    /// Where the line is read.
    pub line: Line,
    /// Which part of an escape was read.
    pub escape: Escape,
    /// What is read of a table.
    pub table: TablePlace,
    /// The character of the line that is printed before it, or NUL.
    pub before: char,
    /// What waits for it, after an East Asian character.
    pub waits: Waiting,
}

/// What waits for the next character: a newline, with what was read of a font after it.
#[derive(Clone, Copy)]
pub(crate) enum Waiting {
    /// Nothing.
    Nothing,
    /// A newline.
    Newline,
    /// A newline and a backslash.
    Escape,
    /// A newline and `\f`.
    Name,
    /// A newline and a font of this name.
    Font(char),
}

/// What goes out before a character.
#[derive(Clone, Copy)]
pub(crate) enum Point {
    /// Nothing.
    Nothing,
    /// A place to cut a line.
    Cut,
    /// What waited.
    Waited,
    /// The same, and at the newline the word goes on.
    Joint,
}

/// Whether a character names a font.
#[inline]
fn is_font(character: char) -> bool
    ensures { result ≡ specs.is_font character }
{
    matches!(character, 'B' | 'I' | 'P' | 'R')
}

impl Waiting {
    /// Whether something waits.
    #[inline(always)]
    pub(crate) fn is_some(self) -> bool
        ensures { result ≡ specs.is_waiting self }
    {
        !matches!(self, Waiting::Nothing)
    }

    /// What waits with one character more, if that goes on a font after a newline.
    #[inline]
    fn with(self, character: char) -> Waiting
        ensures { result ≡ specs.waiting_with self character }
    {
        match self {
            Waiting::Newline if character == '\\' => Waiting::Escape,
            Waiting::Escape if character == 'f' => Waiting::Name,
            Waiting::Name if is_font(character) => Waiting::Font(character),
            _ => Waiting::Nothing,
        }
    }

    /// Whether a newline that waits is no blank before a character: one of East Asia, and with a font between them, one from U+2E80 on.
    #[inline]
    fn joins(self, character: char) -> bool
        ensures { result ≡ specs.joins self character }
    {
        match self {
            Waiting::Newline => is_east_asian(character),
            Waiting::Font(_) => u32::from(character) >= 0x2E80 && is_east_asian(character),
            _ => false,
        }
    }
}

impl Place {
    /// A text begins.
    pub(crate) fn new() -> Place
        ensures { result ≡ specs.first_place }
    {
        Place {
            line: Line::Start,
            escape: Escape::Plain,
            table: TablePlace::Nowhere,
            before: '\0',
            waits: Waiting::Nothing,
        }
    }

    /// Whether a line may be cut before a character that is printed.
    #[inline(always)]
    fn may_cut(&self, character: char) -> bool
        ensures { result ≡ specs.may_cut self.now character }
    {
        character != '\\' && self.is_open() && may_break_between(self.before, character)
    }

    /// What goes out before a character for which something waits.
    #[inline(never)]
    fn point_waiting(&self, character: char) -> Point
        ensures { result ≡ specs.point_waiting self.now.waits character }
    {
        if self.waits.with(character).is_some() {
            Point::Nothing
        } else if self.waits.joins(character) {
            Point::Joint
        } else {
            Point::Waited
        }
    }

    /// What goes out before a character.
    #[inline(always)]
    pub(crate) fn point(&self, character: char) -> Point
        ensures { result ≡ specs.point self.now character }
    {
        if self.waits.is_some() {
            return self.point_waiting(character);
        }
        if self.may_cut(character) {
            Point::Cut
        } else {
            Point::Nothing
        }
    }

    /// Whether what is read is printed: no escape, and no format of a table.
    #[inline]
    fn is_open(&self) -> bool
        ensures { result ≡ specs.is_open self.now }
    {
        matches!(self.escape, Escape::Plain) && !matches!(self.table, TablePlace::Format)
    }

    /// Whether each character is printed as it comes: no escape or format of a table is read, and no newline waits.
    #[inline(always)]
    pub(crate) fn is_quiet(&self) -> bool
        ensures { result ≡ letters.is_quiet self.now }
    {
        matches!(self.line, Line::Text | Line::Rest) && self.is_open() && !self.waits.is_some()
    }

    /// Whether a newline would wait here: after an East Asian character in a text line, but not in a row of a table.
    #[inline]
    fn may_join(&self) -> bool
        ensures { result ≡ specs.may_join self.now }
    {
        matches!(self.line, Line::Text)
            && self.is_open()
            && !matches!(self.table, TablePlace::Rows)
            && is_east_asian(self.before)
    }

    /// The line ends. In a table the format ends with a dot, and before a block a row with a brace.
    #[inline(never)]
    fn ends(&mut self)
        ensures { self.new ≡ specs.line_ended self.old }
    {
        self.waits = if self.may_join() {
            Waiting::Newline
        } else {
            Waiting::Nothing
        };
        self.table = match (self.table, self.before) {
            (TablePlace::Format, '.') => TablePlace::Rows,
            (TablePlace::Rows, '{') => TablePlace::Block,
            (table, _) => table,
        };
        self.line = Line::Start;
        self.escape = Escape::Plain;
        self.before = '\0';
    }

    /// The first character of a line. With `T` a block of a table ends.
    #[inline(never)]
    fn begins(&mut self, character: char)
        ensures { self.new ≡ specs.begun character self.old }
    {
        match character {
            '.' | '\'' => self.line = Line::Control,
            _ => {
                self.line = Line::Text;
                self.before = character;
            }
        }
        self.table = match self.table {
            TablePlace::Block if character == 'T' => TablePlace::Rows,
            table => table,
        };
    }

    /// A character of a control line's name, or the blank after it.
    #[inline(never)]
    fn names(&mut self, character: char)
        ensures { self.new ≡ specs.naming character self.old }
    {
        self.line = match (self.line, character) {
            (_, ' ' | '\t') => Line::Rest,
            (Line::Control, 'T') => Line::Tee,
            _ => Line::Name,
        };
    }

    /// A character after a control character and `T`.
    #[inline(never)]
    fn names_table(&mut self, character: char)
        ensures { self.new ≡ specs.naming_table character self.old }
    {
        self.table = match character {
            'S' | '&' => TablePlace::Format,
            'E' => TablePlace::Nowhere,
            _ => self.table,
        };
        self.names(character);
    }

    /// A character in no escape that does not end the line.
    #[inline]
    fn goes_on(&mut self, character: char)
        ensures { self.new ≡ specs.going_on character self.old }
    {
        if character == '\\' {
            self.escape = Escape::Begun;
            if matches!(self.line, Line::Start) {
                self.line = Line::Text;
            }
            return;
        }
        match self.line {
            Line::Text | Line::Rest => self.before = character,
            Line::Start => self.begins(character),
            Line::Control | Line::Name => self.names(character),
            Line::Tee => self.names_table(character),
        }
    }

    /// A character after a backslash. A font leaves what is printed before it.
    #[inline(never)]
    fn escapes(&mut self, character: char)
        ensures { self.new ≡ specs.escaping character self.old }
    {
        if character != 'f' {
            self.before = '\0';
        }
        self.escape = match character {
            'f' | '*' | 'n' => Escape::Named,
            '(' => Escape::Left(2),
            _ => Escape::Plain,
        };
    }

    /// A character of a name in an escape.
    #[inline(never)]
    fn spells(&mut self, character: char)
        ensures { self.new ≡ specs.spelling character self.old }
    {
        self.escape = match self.escape {
            Escape::Named if character == '(' => Escape::Left(2),
            Escape::Left(2) => Escape::Left(1),
            _ => Escape::Plain,
        };
    }

    /// A character is read.
    #[inline(always)]
    pub(crate) fn passes(&mut self, character: char)
        ensures { self.new ≡ specs.passed self.old character }
    {
        self.waits = self.waits.with(character);
        match self.escape {
            Escape::Begun => self.escapes(character),
            _ if character == '\n' => self.ends(),
            Escape::Plain => self.goes_on(character),
            _ => self.spells(character),
        }
    }
}
