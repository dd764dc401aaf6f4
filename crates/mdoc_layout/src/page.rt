//! What is half read of a page.

use super::macros::{Font, Macro};
use nr_units::Name;

/// What was read of an escape (CSTR 54, section 10.1; groff manual, "Escapes").
#[derive(Clone, Copy)]
pub enum Escape {
    /// A backslash.
    Begun,
    /// What a name follows: a letter, `(` and two letters, or `[` and all up to `]`.
    Named,
    /// All but two letters of a name.
    Two,
    /// All but one letter of it.
    One,
    /// `[`, and what comes up to `]`.
    Bracketed,
    /// What an argument follows.
    Opens,
    /// That, and the mark that ends the argument.
    Delimited(u8),
}

/// How many dots a line begins with.
#[derive(Clone, Copy)]
pub enum Dots {
    /// None yet.
    Start,
    /// One.
    One,
    /// Two: it is the last of the lines that pass.
    Two,
    /// It begins otherwise.
    Other,
}

/// Where a line of a table is read.
#[derive(Clone, Copy)]
pub enum RowPart {
    /// At its beginning.
    Start,
    /// After the control character.
    Control,
    /// After the control character and a backslash.
    Escape,
    /// In a comment.
    Comment,
    /// In the name of a control line.
    Name,
    /// After the name of a macro.
    Words,
    /// The rest of it passes.
    Rest,
}

/// What was read of `.Dd` at the beginning of a line, before a page is known to be one of mdoc.
#[derive(Clone, Copy)]
pub enum Prefix {
    /// Nothing.
    Nothing,
    /// `.`.
    Dot,
    /// `.D`.
    Half,
    /// `.Dd`.
    Whole,
    /// A control character, which passed.
    Control,
    /// A control character and a backslash.
    Escape,
    /// A comment.
    Comment,
    /// Something else: the line passes.
    Other,
}

/// What stands before a byte of a text line.
#[derive(Clone, Copy)]
pub enum Before {
    /// A letter.
    Letter,
    /// What was read of an escape.
    Within(Escape),
    /// Another byte.
    Other,
}

/// Where in a word a byte has no room.
#[derive(Clone, Copy)]
pub enum Inside {
    /// In a word.
    Word,
    /// After a backslash in it.
    Escape,
    /// Between quotes.
    Quoted,
    /// After a backslash between quotes.
    QuotedEscape,
    /// After a quote between quotes.
    Closing,
    /// In the name or the argument of an escape, between quotes or not.
    Named(Escape, bool),
}

/// Where a line is read.
#[derive(Clone, Copy)]
pub enum Scan {
    /// In so many lines no `.Dd` came: all passes.
    Asleep(Prefix, u8),
    /// All passes.
    Passes,
    /// At its beginning.
    Start,
    /// In a comment.
    Comment,
    /// In a text line, after such a byte.
    Text(Before),
    /// In a text line, after a hyphen after a letter.
    Hyphen,
    /// In a text line that is a row, where a cell may begin.
    Cell,
    /// After the control character.
    Control,
    /// After the control character and a backslash.
    ControlEscape,
    /// In the name of a macro.
    Name,
    /// Between words.
    Between,
    /// In a word.
    Word,
    /// In a word, after a backslash.
    Escape,
    /// In a word between quotes.
    Quoted,
    /// In a word between quotes, after a backslash.
    QuotedEscape,
    /// After a quote that may be the last of its word.
    Closing,
    /// In the name or the argument of an escape of a word, between quotes or not.
    Named(Escape, bool),
    /// A word is whole: between quotes or not.
    Given(bool),
    /// A word is longer than what is kept of one.
    Long(Inside),
    /// Its prefix went out.
    Goes(Inside),
    /// The rest of the line passes.
    Rest,
    /// The rest of the line is dropped.
    Dropped,
    /// In the line that begins a definition.
    Defines,
    /// Lines pass, up to `..`.
    Ignored(Dots),
    /// Lines of a table pass, up to `.TE`.
    Table(RowPart),
    /// The line ends.
    Ends,
}

/// Where the text that goes out stands.
#[derive(Clone, Copy)]
pub enum At {
    /// At the beginning of a line.
    Start,
    /// In a line.
    Middle,
    /// In a line, and what comes next is of another line of the input.
    Ended,
}

/// A section in which some macros print otherwise.
#[derive(Clone, Copy)]
pub enum Section {
    /// Any other.
    Other,
    /// NAME.
    Name,
    /// NAME, after a condition: the next name may be the page's.
    Condition,
    /// SYNOPSIS.
    Synopsis,
    /// AUTHORS.
    Authors,
    /// SEE ALSO.
    SeeAlso,
}

/// Whether authors begin lines.
#[derive(Clone, Copy)]
pub enum Split {
    /// None does.
    Never,
    /// All but the next.
    Next,
    /// All.
    Always,
}

/// What began the line before in a synopsis.
#[derive(Clone, Copy)]
pub enum Last {
    /// Something else.
    Other,
    /// `.Nm`.
    Name,
    /// `.Ft`.
    ResultType,
    /// `.Fn` or `.Fo`.
    Function,
    /// `.Vt`.
    Variable,
    /// `.Fd`.
    Declaration,
    /// `.Cd`.
    Configuration,
    /// `.In`.
    Include,
    /// The heading.
    Heading,
}

/// Where in the parameters of a function that `.Fo` opened.
#[derive(Clone, Copy)]
pub enum Parameters {
    /// In none.
    Outside,
    /// Before the first.
    First,
    /// After one.
    Further,
}

/// What the next word of `.Bl` or `.Bd` is.
#[derive(Clone, Copy)]
pub enum Wanted {
    /// An option, or a column.
    Option,
    /// The width of tags.
    Width,
    /// The indent.
    Offset,
    /// A further column.
    Column,
}

/// A kind of a block.
#[derive(Clone, Copy)]
pub enum Kind {
    /// The page itself.
    Page,
    /// A list whose items begin lines.
    Item,
    /// Items with a bullet.
    Bullet,
    /// Items with a dash.
    Dash,
    /// Numbered items.
    Number,
    /// Items with a tag.
    Tag,
    /// Items with a tag that hangs.
    Hang,
    /// Items whose head runs into the text.
    Inset,
    /// Items whose head is a line.
    Overhang,
    /// Items whose head is in bold and runs into the text.
    Diagnosis,
    /// Rows of columns.
    Column,
    /// A display that is filled.
    Filled,
    /// A display whose lines stay, with the tab stops of programs.
    Literal,
    /// A display whose lines stay, with the tab stops of the macro file.
    Unfilled,
    /// A display whose lines stay, each in the middle.
    Centered,
}

/// What an option of `.Bl` or `.Bd` asks.
#[derive(Clone, Copy)]
pub enum Asks {
    /// The kind of the block.
    Kind(Kind),
    /// The width of tags, which comes next.
    Width,
    /// The indent, which comes next.
    Offset,
    /// No space before items.
    Compact,
}

/// A block: a list, or a display.
#[derive(Clone, Copy)]
pub struct Block {
    /// Its kind.
    pub kind: Kind,
    /// The width of its tags, where it is said.
    pub width: Option<u16>,
    /// How many columns it has.
    pub columns: u16,
    /// Its indent.
    pub offset: u16,
    /// How many items it has.
    pub items: u16,
    /// No space stands before an item.
    pub compact: bool,
    /// An item has begun.
    pub begun: bool,
}

/// How text is laid out.
#[derive(Clone, Copy)]
pub struct Lay {
    /// Where it stands.
    pub at: At,
    /// The next word joins the one before.
    pub joined: bool,
    /// Words are set apart (`.Sm`).
    pub spaced: bool,
    /// The line is a tag, which more lines may go on.
    pub tag: bool,
    /// Lines stay as they are.
    pub literal: bool,
    /// No line is broken between the words of a line.
    pub kept: bool,
    /// Which cell of its row it is; the first is 0.
    pub cell: u16,
    /// Nothing was put since space was made.
    pub quiet: bool,
    /// The font of a word that goes on.
    pub font: Font,
    /// The next word is only the prefix of a longer one.
    pub partial: bool,
    /// The head of an item of `-diag` was put, and nothing after it.
    pub bare: bool,
}

/// What stands after a long word, all of it.
#[derive(Clone, Copy)]
pub enum Following {
    /// Nothing.
    Nothing,
    /// A parenthesis, which the next word joins.
    Parenthesis,
    /// What closes the name of a file that is included.
    Angle,
    /// A joint.
    Joint,
}

/// What the words of a line are read for.
#[derive(Clone, Copy)]
pub struct Call {
    /// The macro that began the line.
    pub line: Macro,
    /// The macro that takes the next word.
    pub taker: Macro,
    /// It is the one that began the line.
    pub first: bool,
    /// Its words call no macro.
    pub plain: bool,
    /// It took a word.
    pub some: bool,
    /// A parameter or a name came, and no mark after it.
    pub listed: bool,
    /// More than two names came.
    pub many: bool,
    /// What stands after the long word.
    pub following: Following,
    /// The prefix of the word went out.
    pub going: bool,
    /// A comment ends the line.
    pub comment: bool,
    /// What of a list's options comes.
    pub wanted: Wanted,
    /// The printing bytes of the word, escapes counted as one each.
    pub width: u16,
}

/// Where in the page.
#[derive(Clone, Copy)]
pub struct Place {
    /// The section.
    pub section: Section,
    /// What began the line before in a synopsis.
    pub last: Last,
    /// Whether authors begin lines.
    pub split: Split,
    /// In a function's parameters.
    pub parameters: Parameters,
    /// How many enclosures are open that may end on another line.
    pub depth: u8,
    /// In a reference.
    pub reference: bool,
    /// Some of it was printed.
    pub listed: bool,
    /// How many authors it has, of three at most.
    pub authors: u8,
    /// The page's title went out.
    pub titled: bool,
    /// The width of the page's name.
    pub width: u16,
}

/// What is half read.
#[derive(Clone, Copy)]
pub struct Page {
    /// Where the line is read.
    pub scan: Scan,
    /// The word.
    pub word: Name,
    /// Closing marks that may be the last of the line.
    pub marks: Name,
    /// A name that `.Ex` or `.Rv` holds back.
    pub held: Name,
    /// The letters of the parts of a reference.
    pub parts: Name,
    /// What closes the enclosures that the line opened: the last stands last.
    pub closers: Name,
    /// The page's name.
    pub name: Name,
    /// The names of macros that the page defines, of two bytes each.
    pub own: Name,
    /// The page's title.
    pub title: Name,
    /// The section of the manual.
    pub chapter: Name,
    /// The month of its date.
    pub month: Name,
    /// The day.
    pub day: Name,
    /// The year.
    pub year: Name,
    /// How text is laid out.
    pub lay: Lay,
    /// What words are read for.
    pub call: Call,
    /// Where in the page.
    pub place: Place,
    /// The innermost block.
    pub block: Block,
}
