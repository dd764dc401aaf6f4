//! What was read.
use nr_vectors::cell::Cell;

/// What a condition asks of those who know the page and the units (CSTR 54, 16).
#[derive(Clone, Copy)]
pub enum Question {
    /// `o`: the page number is odd.
    Odd,
    /// `e`: the page number is even.
    Even,
    /// The line has a number's bytes: it is above 0.
    Number,
}

/// What an item tells that was read, if it tells anything.
#[derive(Clone, Copy)]
pub enum Event {
    /// Nothing.
    Nothing,
    /// The list is empty, at the beginning of a line.
    Over,
    /// An empty text line, or one of blanks alone.
    Empty,
    /// An empty line, or one of blanks alone, after one that `\c` ended.
    EndContinued,
    /// A text line has ended.
    EndLine,
    /// A text line has ended, and `\c` came last in it.
    EndInterrupted,
    /// The first blank at the beginning of a text line.
    Leading,
    /// One of the blanks that a text line begins with is a cell.
    Lead,
    /// A byte of text.
    Byte(u8),
    /// A cell of a diverted line, in the text.
    Cell(Cell),
    /// A character that makes no break point, delimits nothing and is no page number character.
    Plain(u8),
    /// A blank cell that is no gap: `\` and a blank, or `\0`.
    Fixed,
    /// `\&`.
    Zero,
    /// `\%`.
    Percent,
    /// `\p`.
    BreakWord,
    /// A tab.
    Tab,
    /// A leader.
    Leader,
    /// A special character, by the name that was asked for.
    Special,
    /// A font, by the name that was asked for.
    Font,
    /// `\h`, with its argument.
    Horizontal,
    /// `\l`, with its argument.
    Rule,
    /// A built-in register, by the name that was asked for: its text is to be given.
    Given,
    /// `\w`, with its argument: the text of its width is to be given.
    Width,
    /// `.tl`: its line may be read once there is room.
    Title,
    /// A title's delimiter: the left part begins, the middle one, the right one, or what is dropped.
    TitlePart,
    /// A title's line has ended.
    TitleEnd,
    /// A diverted line comes next, at the beginning of a line: it may be read once there is room.
    Diverted,
    /// A cell of a diverted line.
    DivertedCell(Cell),
    /// The end of a diverted line, and its height in u where it has one.
    DivertedEnd(Option<u32>),
    /// A request and its line.
    Request,
    /// A condition that is to be judged.
    Judge(Question),
}
