//! The parts of a block's words, and its lines.
ghost use Rattle.std.specs.Prelude.{◌≡◌};
ghost use Rattle.tbl_blocks.specs.Parts as specs;

use nr_units::Name;

/// A font.
#[derive(Clone, Copy)]
pub enum Font {
    /// That of plain text.
    Roman,
    /// Italic, or underlined.
    Italic,
    /// Bold.
    Bold,
}

/// What stands before a part.
#[derive(Clone, Copy)]
pub enum Join {
    /// Nothing: it belongs to the part before.
    Glued,
    /// Nothing, but the line may end here.
    Cut,
    /// The same, and a hyphen is printed then.
    Point,
    /// So many blanks, where the line may end.
    Gap(usize),
    /// So many blanks that stay.
    Fixed(usize),
    /// The end of the line before, so many empty lines, and what this line is indented.
    Line { space: usize, indent: usize },
}

/// A part of a word: its text in one font.
#[derive(Clone, Copy)]
pub struct Part {
    /// Where its text begins.
    pub start: usize,
    /// Where it ends.
    pub end: usize,
    /// How many cells it takes.
    pub cells: usize,
    /// Its font.
    pub font: Font,
    /// What stands before it.
    pub join: Join,
    /// How many cells a line is indented that begins with it, where the line before was full.
    pub indent: usize,
    /// It stands in angle brackets, which are two of its cells.
    pub bracketed: bool,
}

/// A line of a block: its parts, by number, and how it stands.
#[derive(Clone, Copy)]
pub struct Line {
    /// The first part.
    pub first: usize,
    /// The part after the last.
    pub end: usize,
    /// Which row of the block it is, counted from 0: empty lines are rows, too.
    pub row: usize,
    /// How many cells it is indented.
    pub indent: usize,
    /// How many cells it takes with its indent and its hyphen.
    pub cells: usize,
    /// How many of its gaps may be widened.
    pub gaps: usize,
    /// How many blanks its gaps get more, where it is spread.
    pub lack: usize,
    /// The first of them get the odd ones of these, in place of the last.
    pub left: bool,
    /// A hyphen is printed at its end.
    pub hyphen: bool,
}

/// A string that the page defines in plain text.
#[derive(Clone, Copy)]
pub struct Known {
    /// Its name.
    pub name: Name,
    /// How many cells its text takes.
    pub cells: usize,
}

/// What was seen of a block or a field.
#[derive(Clone, Copy)]
pub struct Seen {
    /// Its full lines are spread.
    pub spread: bool,
    /// How wide its words are is known.
    pub sure: bool,
    /// It defines strings or registers, or asks for them.
    pub defines: bool,
}

/// How many cells a text takes.
#[derive(Clone, Copy)]
pub struct Extent {
    /// So many, where what only the formatter knows counts as its text.
    pub cells: usize,
    /// There is nothing like that in it.
    pub sure: bool,
}

impl Font {
    /// The font of a letter or a digit; of any other, that of plain text.
    pub fn of(letter: u8) -> Font
        ensures { result ≡ specs.font_of letter }
    {
        match letter {
            b'I' | b'2' => Font::Italic,
            b'B' | b'3' => Font::Bold,
            _ => Font::Roman,
        }
    }

    /// Its letter.
    pub fn letter(self) -> u8
        ensures { result ≡ specs.letter_of self }
    {
        match self {
            Font::Roman => b'R',
            Font::Italic => b'I',
            Font::Bold => b'B',
        }
    }
}

impl Join {
    /// How many blanks it stands for within a line.
    pub fn blanks(self) -> usize
        ensures { result ≡ specs.blanks self }
    {
        match self {
            Join::Gap(blanks) | Join::Fixed(blanks) => blanks,
            _ => 0,
        }
    }

    /// Whether a line may end before the part, or has ended.
    pub fn may_end(self) -> bool
        ensures { result ≡ specs.may_end self }
    {
        !matches!(self, Join::Glued | Join::Fixed(_))
    }

    /// Whether it is blanks that may be widened.
    pub fn is_gap(self) -> bool
        ensures { result ≡ specs.is_gap self }
    {
        matches!(self, Join::Gap(_))
    }

    /// Whether a hyphen is printed where a line ends before the part.
    pub fn is_point(self) -> bool
        ensures { result ≡ specs.is_point self }
    {
        matches!(self, Join::Point)
    }

    /// Whether a line begins with the part.
    pub fn is_line(self) -> bool
        ensures { result ≡ specs.is_line self }
    {
        matches!(self, Join::Line { .. })
    }
}

impl Part {
    /// What stands for one that is not there.
    pub fn nothing() -> Part
        ensures { result ≡ specs.no_part }
    {
        Part {
            start: 0,
            end: 0,
            cells: 0,
            font: Font::Roman,
            join: Join::Glued,
            indent: 0,
            bracketed: false,
        }
    }
}

impl Line {
    /// How many blanks a gap of it gets more, counted from 0.
    pub fn more(self, gap: usize) -> usize
        ensures { result ≡ specs.gap_more gap self }
    {
        if gap >= self.gaps {
            return 0;
        }
        let odd = self.lack % self.gaps;
        let wider = if self.left {
            gap < odd
        } else {
            self.gaps - odd <= gap
        };
        let each = self.lack / self.gaps;
        if wider { each.saturating_add(1) } else { each }
    }
}
