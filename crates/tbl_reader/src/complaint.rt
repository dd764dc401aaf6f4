//! What is wrong with a table.

use nr_units::Name;

/// What is wrong.
#[derive(Clone, Copy)]
pub enum Kind {
    /// The table ends before its formats do: its text goes out as it stands.
    NoFormat,
    /// This byte is no part of a format, or what it needs doesn't follow: it is passed over. A column over which nothing can go
    /// on is read as `l`. A point where no format stands before it.
    BadFormat(u8),
    /// This word is no option: it is passed over.
    UnknownOption(Name),
    /// What follows this option is not one character: it is passed over.
    BadArgument(Name),
    /// A row has more fields than the table has columns: what is too much goes out below it.
    TooManyFields,
    /// A text block has no end before that of the table; it begins on this line.
    OpenBlock(u64),
    /// The input ends inside a table, which begins on this line.
    OpenTable(u64),
    /// More than 64 columns or 256 format lines: the table goes out as plain lines.
    TooManyColumns,
    /// More bytes of options and formats than are kept: the table goes out as plain lines.
    FormatsLimit,
    /// More bytes of a row than are kept: the rest of the table goes out as plain lines.
    RowLimit,
    /// The table that begins with `.TS` on the complaint's line is wider than the line of the page, narrowed or not.
    TooWide,
    /// This request of a text block, of whose name so much is reported, isn't set: it does nothing there, and the words of a
    /// macro are text.
    UnsetRequest(Name),
}

/// What is wrong, and where.
#[derive(Clone, Copy)]
pub struct Complaint {
    /// What.
    pub kind: Kind,
    /// On which line of the input, counted from 1.
    pub line: u64,
}

impl Complaint {
    /// One to fill a slice with at first.
    pub const NONE: Complaint = Complaint {
        kind: Kind::NoFormat,
        line: 0,
    };
}
