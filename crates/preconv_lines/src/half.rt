//! What is half read of a page.
ghost use Rattle.std.specs.Prelude.{◌≡◌, true, false};
ghost use Rattle.preconv_lines.specs.Named.{is_delimited};
ghost use Rattle.preconv_lines.specs.Half.{after_other, character_said, first_half, is_beginning, is_read, is_space, is_text, is_whole, marked_said, next_line, table_after, takes_brace, with_font, with_format, with_text};

use super::translations::no_translations;
use nr_units::Name;
use preconv_characters::{Before, Mark, Marked, Said, WordFont, Words, is_blank};

/// Where a line is read.
#[derive(Clone, Copy)]
pub enum Line {
    /// At its beginning.
    Start,
    /// After its control character and blanks, which are kept as the name.
    Control,
    /// In its name.
    Name,
    /// In a text line.
    Text,
    /// In a text line of which nothing but fonts was read.
    Fonts,
    /// In the rest of a control line.
    Request,
    /// In the text of a string, which may have two backslashes for one.
    Stored,
    /// In the name of a font, in a line of `.ft`.
    Face,
    /// In a line of `.tr`.
    Translation(Pair),
    /// Among the words of a font macro's line.
    Words(Words),
    /// Before a condition.
    Condition,
    /// In a number that is a condition.
    Number,
    /// In strings that are compared: their delimiter, and whether the first has ended.
    Strings(u8, bool),
    /// In the name that a condition asks for.
    Asked(Asked),
    /// After a condition.
    Part,
    /// After a condition and `\\{`.
    Braced,
    /// In a comment.
    Comment,
    /// In lines that are ignored.
    Ignored(Dots),
}

/// Where in a line of `.tr`.
#[derive(Clone, Copy)]
pub enum Pair {
    /// Before a character that becomes another.
    First,
    /// After it, a byte.
    Second(u8),
    /// After it, which is no byte.
    Other,
}

/// What a condition asks of a name.
#[derive(Clone, Copy)]
pub enum Asked {
    /// Whether it stands for something.
    Defined,
    /// Whether there is a character or a font of that name: there is.
    Always,
    /// Whether there is a register, a colour or a style: there is none.
    Never,
}

/// How many dots a line that is ignored begins with.
#[derive(Clone, Copy)]
pub enum Dots {
    /// None yet.
    Start,
    /// One.
    One,
    /// Two: it is the last of these lines.
    Two,
    /// It begins otherwise.
    Other,
}

/// In which line the tag of a paragraph stands, beside which its text may begin. A tag isn't broken at its hyphens,
/// nor is an address.
#[derive(Clone, Copy)]
pub enum Tag {
    /// In none of these.
    Nowhere,
    /// In the next line.
    InNext,
    /// In this line.
    InThis,
    /// In the line before.
    InLast,
    /// In none, but this line has an address.
    Address,
}

/// What is read of a table.
#[derive(Clone, Copy)]
pub enum TablePart {
    /// None is read.
    Nowhere,
    /// Its options and format, in which a hyphen is no text.
    Format,
    /// Its rows.
    Rows,
    /// Any of these, where a hyphen separates its fields.
    Separated,
}

/// What part of an escape is half read.
#[derive(Clone, Copy)]
pub enum Escape {
    /// None.
    Plain,
    /// A backslash, in a definition one or more.
    Begun,
    /// `\\$`.
    Argument,
    /// The letter of an escape with a name.
    Target(Kind),
    /// `\\f` and a backslash.
    FontEscape,
    /// `(` and a part of a name of two bytes.
    Pair(Kind),
    /// `[` and a part of a name.
    Bracket(Kind),
    /// The same after another `[`.
    Nested(Kind),
    /// The letter of an escape with a delimited name.
    Delimiter(Kind),
    /// Its delimiter and a part of the name.
    Delimited(Kind, u8),
    /// `\\Z`.
    Skip,
    /// `\\Z` and its delimiter.
    Skipped(u8),
    /// `\\?`, and whether a backslash came after it.
    Embedded(bool),
    /// `\\#` in a text line.
    Note,
    /// No escape, but a hyphen after a letter.
    Hyphen,
    /// No escape, but a newline after what closes a sentence.
    Sentence,
}

/// What an escape names.
#[derive(Clone, Copy)]
pub enum Kind {
    /// A character.
    Glyph,
    /// A character by its number.
    Code,
    /// A font.
    Font,
    /// A register.
    Register,
    /// A type size.
    Size,
    /// A colour or a family, which is dropped.
    Dropped,
    /// A string.
    Text,
    /// A name that is tested.
    Identifier,
    /// A number that is tested.
    Number,
    /// How far a text line begins to the left.
    Hang,
    /// Characters over one another.
    Overstruck,
}

/// A character that comes.
#[derive(Clone, Copy)]
pub enum Coming {
    /// An ASCII character.
    Byte(u8),
    /// Another one, by its code.
    Wide(u32),
}

/// What a character says, and whether it is taken: one that is left is offered again.
#[derive(Clone, Copy)]
pub struct Seen {
    /// What goes out.
    pub said: Said,
    /// The character is taken.
    pub takes: bool,
}

/// A blank that isn't what separates words.
fn is_space(code: u32) -> bool
    ensures { result ≡ is_space code }
{
    code == 0x20 || code == 0xA0 || is_blank(code)
}

/// What is half read.
#[derive(Clone, Copy)]
pub struct Half {
    /// Where the line is read.
    pub line: Line,
    /// Which part of an escape was read.
    pub escape: Escape,
    /// The bytes of the escape, none of which went out.
    pub kept: Name,
    /// The name in it.
    pub spelled: Name,
    /// The name of the control line, or that a condition asks for.
    pub name: Name,
    /// A condition stands before the control line.
    pub conditional: bool,
    /// A macro is being defined.
    pub defining: bool,
    /// `\\(*W` is a dash.
    pub dashes: bool,
    /// `\\(is`, `\\(if` and `\\(pd` are quotes.
    pub quotes: bool,
    /// It is a manual page: a title came.
    pub manual: bool,
    /// What is read of a table.
    pub table: TablePart,
    /// What stands before the next character, where it is a manual page.
    pub before: Before,
    /// In which line a tag stands.
    pub tag: Tag,
    /// The letter of the font in text.
    pub font: u8,
    /// That of the font before.
    pub previous: u8,
    /// The font that an escape has set in a macro's line.
    pub word_font: WordFont,
    /// A byte is translated.
    pub translating: bool,
    /// What each byte of ASCII becomes, 0 if it stays.
    pub translations: [u8; 128],
}

impl Seen {
    /// The character is taken.
    pub(crate) fn taken(said: Said) -> Seen
        ensures { result ≡ record { said = said; takes = true } }
    {
        Seen { said, takes: true }
    }

    /// The character is left.
    pub(crate) fn left(said: Said) -> Seen
        ensures { result ≡ record { said = said; takes = false } }
    {
        Seen { said, takes: false }
    }
}

impl Line {
    /// Nothing of a text line was read yet.
    pub(crate) fn is_beginning(self) -> bool
        ensures { result ≡ is_beginning self }
    {
        matches!(self, Line::Start | Line::Part | Line::Braced)
    }

    /// What is read next is text.
    pub(crate) fn is_text(self) -> bool
        ensures { result ≡ is_text self }
    {
        matches!(
            self,
            Line::Start | Line::Part | Line::Braced | Line::Text | Line::Fonts
        )
    }

    /// The line after something that is printed.
    pub fn with_text(self) -> Line
        ensures { result ≡ with_text self }
    {
        match self {
            Line::Start | Line::Part | Line::Braced | Line::Fonts => Line::Text,
            Line::Translation(pair) => Line::Translation(pair.after_other()),
            line => line,
        }
    }

    /// The line after a font.
    pub fn with_font(self) -> Line
        ensures { result ≡ with_font self }
    {
        match self {
            Line::Start | Line::Part | Line::Braced => Line::Fonts,
            line => line,
        }
    }

    /// What is said for a character: a blank must not end a word of a control line.
    pub(crate) fn character(self, code: u32) -> Said
        ensures { result ≡ character_said self code }
    {
        if is_space(code) && !self.is_text() {
            Said::Escape(b'0')
        } else {
            Said::Character(code)
        }
    }

    /// What is said for a letter with marks, likewise.
    pub(crate) fn marked(self, marked: Marked) -> Said
        ensures { result ≡ marked_said self marked }
    {
        if is_space(marked.letter) && !self.is_text() {
            Said::Escape(b'0')
        } else {
            Said::Marked(marked)
        }
    }

    /// After a condition, where `\\{` begins a part.
    pub(crate) fn takes_brace(self) -> bool
        ensures { result ≡ takes_brace self }
    {
        matches!(
            self,
            Line::Part | Line::Braced | Line::Number | Line::Strings(_, _)
        )
    }
}

impl Pair {
    /// Where it is after a character that is no byte.
    fn after_other(self) -> Pair
        ensures { result ≡ after_other self }
    {
        match self {
            Pair::First => Pair::Other,
            _ => Pair::First,
        }
    }
}

impl Tag {
    /// In which line it stands when this one ends.
    pub(crate) fn next_line(self) -> Tag
        ensures { result ≡ next_line self }
    {
        match self {
            Tag::InNext => Tag::InThis,
            Tag::InThis => Tag::InLast,
            _ => Tag::Nowhere,
        }
    }

    /// Whether the words of this line stay whole: those of a tag or an address.
    pub(crate) fn is_whole(self) -> bool
        ensures { result ≡ is_whole self }
    {
        matches!(self, Tag::InThis | Tag::Address)
    }
}

impl TablePart {
    /// Whether a table is read.
    pub(crate) fn is_read(self) -> bool
        ensures { result ≡ is_read self }
    {
        !matches!(self, TablePart::Nowhere)
    }

    /// What is read of it when another format begins, or one in a row of them.
    pub(crate) fn with_format(self) -> TablePart
        ensures { result ≡ with_format self }
    {
        match self {
            TablePart::Separated => TablePart::Separated,
            _ => TablePart::Format,
        }
    }

    /// What is read of it when a line ends, before whose end this stands: a format ends with a dot.
    pub(crate) fn next_line(self, before: Before) -> TablePart
        ensures { result ≡ table_after self before }
    {
        match (self, before) {
            (TablePart::Format, Before::Character(Mark::Stop)) => TablePart::Rows,
            (table, _) => table,
        }
    }
}

impl Escape {
    /// A name between delimiters is read.
    pub(crate) fn is_delimited(self) -> bool
        ensures { result ≡ is_delimited self }
    {
        matches!(self, Escape::Delimited(_, _))
    }
}

impl Half {
    /// A page begins.
    pub fn new() -> Half
        ensures { result ≡ first_half }
    {
        Half {
            line: Line::Start,
            escape: Escape::Plain,
            kept: Name::new(),
            spelled: Name::new(),
            name: Name::new(),
            conditional: false,
            defining: false,
            dashes: false,
            quotes: false,
            manual: false,
            table: TablePart::Nowhere,
            before: Before::Character(Mark::Other),
            tag: Tag::Nowhere,
            font: b'R',
            previous: b'R',
            word_font: WordFont::new(),
            translating: false,
            translations: no_translations(),
        }
    }
}
