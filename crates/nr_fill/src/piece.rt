//! Pieces of a line, and how they hang together. (CSTR 54, sections 4 and 13.)
ghost use Rattle.std.specs.Prelude.{◌≡◌, ◌≤◌};
ghost use Rattle.nr_fill.specs.Cutting.{join_width, hyphen_width};
ghost use Rattle.nr_fill.specs.Piece.{join_at, mark_cells};
ghost use Rattle.nr_fill.specs.Slots.{blank_slot};

/// How a piece hangs on the one before it.
#[derive(Clone, Copy)]
pub enum Join {
    /// So many blanks stand between two words.
    Gap(u16),
    /// A break point inside a word, at which a cut prints a hyphen.
    Soft,
    /// A break point inside a word, at which a cut prints nothing.
    Hard,
}

/// A place inside a word where a line may be cut.
#[derive(Clone, Copy)]
pub enum Point {
    /// A cut prints a hyphen here.
    Soft,
    /// A cut prints nothing here.
    Hard,
    /// The same, and where a text line ends here the word goes on.
    Joining,
}

/// What kind of cell is read: whether a line may be cut after it.
#[derive(Clone, Copy)]
pub enum CutAfter {
    /// No break point stands after it.
    Letter,
    /// A `-` or `\(hy`: a hard point, where the word has a cell before it and one after it.
    Hyphen,
    /// The second cell of `\(em`: a hard point, where the word has a cell before its first cell and one after it.
    Dash,
}

/// A piece's place in a line's second slice: how it hangs on the one before it, and how many cells it has.
#[derive(Clone, Copy)]
pub struct PieceSlot {
    pub(crate) join: Join,
    pub(crate) len: u32,
}

impl PieceSlot {
    /// A slot to fill a new slice with.
    pub fn blank() -> Self
        ensures { result ≡ blank_slot }
    {
        PieceSlot {
            join: Join::Gap(0),
            len: 0,
        }
    }
}

impl Join {
    /// How a piece hangs on the one before a break point.
    pub(crate) fn at(point: Point) -> Self
        ensures { result ≡ join_at point }
    {
        match point {
            Point::Soft => Join::Soft,
            Point::Hard | Point::Joining => Join::Hard,
        }
    }

    /// How many blanks stand between the two pieces.
    #[inline]
    pub(crate) fn width(self) -> u16
        ensures { result ≡ join_width self }
    {
        match self {
            Join::Gap(blanks) => blanks,
            Join::Soft | Join::Hard => 0,
        }
    }

    /// How many hyphens a cut between the two pieces prints.
    #[inline]
    pub(crate) fn hyphen(self) -> u16
        ensures value { result ≡ hyphen_width self }
        ensures one { result ≤ 1 }
    {
        match self {
            Join::Soft => 1,
            Join::Gap(_) | Join::Hard => 0,
        }
    }
}

impl CutAfter {
    /// How many cells a mark has at whose end a point may stand.
    #[inline]
    pub(crate) fn mark_cells(self) -> usize
        ensures { result ≡ mark_cells self }
    {
        match self {
            CutAfter::Letter => 0,
            CutAfter::Hyphen => 1,
            CutAfter::Dash => 2,
        }
    }
}
