//! What one step says: parts with fonts and joints, and requests.

use super::macros::{Font, Pair, System};
use super::page::Prefix;

/// A text that stands for a macro.
#[derive(Clone, Copy)]
pub enum Text {
    /// What opens an enclosure.
    Opening(Pair),
    /// What closes it, by its byte.
    Closing(u8),
    /// The name of a system.
    System(System),
    /// `.At` without a version.
    Att,
    /// `BSD`.
    Bsd,
    /// `.Fl` without words.
    Dash,
    /// `.Ar` without words.
    File,
    /// And what it says then.
    Dots,
    /// `.Pa` without words.
    Home,
    /// An apostrophe.
    Apostrophe,
    /// What sets a name and its description apart.
    Description,
    /// A comma.
    Comma,
    /// A colon.
    Colon,
    /// The link that is kept.
    Link,
    /// A full stop.
    Period,
    /// The end of a function of a synopsis.
    FunctionEnds,
    /// Nothing that shows.
    Empty,
    /// What does not break.
    FixedSpace,
    /// The head of an inclusion.
    Include,
    /// `The`, before the names of utilities.
    The,
    /// What `.Ex` says after one of them.
    Exits,
    /// What it says after several.
    AllExit,
    /// What `.Rv` says after a function.
    Returns,
    /// What it says after several.
    AllReturn,
    /// What it says without one.
    Succeeds,
    /// What stands after a function's name.
    Parentheses,
}

/// A request that goes out as a line.
#[derive(Clone, Copy)]
pub enum Request {
    /// `.br`.
    Break,
    /// `.sp`.
    Space,
    /// No space before paragraphs.
    NoDistance,
    /// That of the macro file.
    Distance,
    /// The tab stops of the macro file.
    Tabs,
    /// An indent ends.
    IndentEnds,
    /// Lines stay, with the tab stops of programs.
    Literal,
    /// Lines stay, with the tab stops of the macro file.
    Unfilled,
    /// Lines stay, each in the middle.
    Centered,
    /// They stay no more.
    LiteralEnds,
    /// They stand in the middle no more.
    CenteredEnds,
    /// A line hangs.
    Hangs,
    /// It ends.
    HangEnds,
    /// A string begins, which keeps a link.
    Link,
    /// The definition of the macro that ends a tag.
    TagMacro,
    /// A font.
    Font(Font),
}

/// A request with a number.
#[derive(Clone, Copy)]
pub enum Sized {
    /// An indent begins.
    Indent,
    /// An item with a bullet.
    Bullet,
    /// An item with a dash.
    Dash,
    /// Text goes on, further to the right.
    Inner,
    /// A tag hangs.
    Tag,
    /// A paragraph hangs.
    Hanging,
}

/// What goes out.
#[derive(Clone, Copy)]
pub enum Act {
    /// Nothing.
    Nothing,
    /// A byte as it is.
    Byte(u8),
    /// A hyphen after which no line is broken.
    Hyphen,
    /// What was read of `.Dd`.
    Prefix(Prefix),
    /// The first byte of a text line.
    Begin(u8),
    /// The word, in a font.
    Word(Font),
    /// The word as an option.
    Flag,
    /// The word joined to what is before.
    Joined(Font),
    /// A further part of a long word.
    More,
    /// The last part of one.
    LastMore,
    /// The page's name.
    Own,
    /// The word becomes the string that keeps that.
    Naming,
    /// The name that was held back, after a comma.
    Held,
    /// The last of the names, after `and`, and after a comma too where there are more than two.
    LastHeld(bool),
    /// A text.
    Text(Text),
    /// A text joined to what is before.
    Close(Text),
    /// The marks that were held back.
    Marks,
    /// What closes the enclosures that the line opened.
    Closers,
    /// The next word joins this one.
    Join,
    /// It does not.
    Apart,
    /// The standard that the word names.
    Standard,
    /// The library.
    Library,
    /// The version of AT&T UNIX.
    Att,
    /// A release of BSD.
    Release,
    /// The line ends.
    Ends,
    /// What was begun is put on a line, and a tag is whole.
    Fresh,
    /// A tag begins, by the width of tags: what goes on over lines hangs by that.
    Tag(u16),
    /// A tag is whole: text stands after one of one line that is narrower than so many ens.
    TagEnds(u16),
    /// A tag is whole, after which text goes on: one wider than so many ens has it a blank further to the right.
    HangEnds(u16),
    /// The head of an item ends, which stays on one line with the first word after it.
    HeadEnds,
    /// The same, and nothing was put since space was made.
    Quiet,
    /// Space as before a paragraph, once.
    Space,
    /// A request.
    Request(Request),
    /// A request with a number.
    Sized(Sized, u16),
    /// A paragraph hangs by so many ens.
    Hanging(u16),
    /// A numbered item: its number, and the width of its tag.
    Numbered(u16, u16),
    /// The page's title begins a line of its own, up to its source.
    Title,
    /// What was read of a long title becomes a string.
    TitlePrefix,
    /// A string begins, which keeps the system.
    System,
    /// The line ends that the system stands in: the title's, or that of its string.
    TitleEnds,
    /// A section's heading begins.
    Section,
    /// A subsection's heading begins.
    Subsection,
    /// A request of the page itself: its control character and its name, which is the word.
    Control,
    /// The widths of columns begin.
    Columns,
    /// The width of a column.
    Column(u16),
    /// Tab stops, by the space after each column.
    Stops(u16),
    /// A cell of a table ends.
    Cell,
    /// A row of columns begins.
    Row,
    /// A part of a reference begins, by its letter: its line sets a string.
    Part(u8),
    /// The parts of a reference stand in their order.
    Reference,
}

/// What becomes of the open blocks.
#[derive(Clone, Copy)]
pub enum Stack {
    /// They stay.
    Stay,
    /// This one is open too.
    Opens,
    /// The innermost is closed.
    Closes,
    /// All are closed.
    Empties,
}
