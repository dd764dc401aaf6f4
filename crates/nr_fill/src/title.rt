//! Titles of three parts. (CSTR 54, section 14.)
ghost use Rattle.std.specs.Prelude.{◌≡◌, ◌+◌, ◌≤◌, ◌<◌, ◌^◌, ◌&&◌, nat_le, max, length, map, is_none, Some, true};
ghost use Rattle.std.specs.List.{range_with_len};
ghost use Rattle.nr_fill.specs.Titling.{next_state, parted_title, title_of};
ghost use Rattle.nr_fill.specs.Title.{Title, cell_of, is_within, title_or_empty, title_row};

use crate::cells::CellSink;
use nr_vectors::cell::Cell;

/// The part of a title that is being read.
#[derive(Clone, Copy)]
pub enum TitlePart {
    Left,
    Centre,
    Right,
}

/// Where the parts of a title end that is being read.
#[derive(Clone, Copy)]
pub(crate) enum TitleState {
    /// All cells are the left part's.
    Left,
    /// So many are the left part's, the others the centre's.
    Centre(usize),
    /// So many are the left part's, so many the centre's.
    Right(usize, usize),
}

impl TitleState {
    /// Where the parts end once the one that is being read does, of a title of `len` cells.
    pub(crate) fn next(self, len: usize) -> Self
        requires { parted_title self ≤ len }
        ensures { result ≡ next_state len self }
    {
        match self {
            TitleState::Left => TitleState::Centre(len),
            TitleState::Centre(left) => TitleState::Right(left, len - left),
            TitleState::Right(_, _) => self,
        }
    }
}

/// The parts of a title.
#[derive(Clone, Copy)]
pub(crate) struct TitleParts<'t> {
    left: &'t [Cell],
    centre: &'t [Cell],
    right: &'t [Cell],
}

/// Whether a column is one of n from `start` on.
#[inline]
fn is_within(start: usize, n: usize, column: usize) -> bool
    ensures { result ≡ is_within start n column }
{
    start <= column && column - start < n
}

impl<'t> TitleParts<'t> {
    /// The parts that the cells of a title are.
    pub(crate) fn of(title: Option<TitleState>, cells: &'t [Cell]) -> Self
        requires within { (t : TitleState) → title ≡ Some t → parted_title t ≤ length cells.now }
        requires none { is_none title ≡ true → length cells.now ≡ 0 }
        ensures left { result.left.now ≡ (title_or_empty (title_of title cells.entry.now)).left }
        ensures centre { result.centre.now ≡ (title_or_empty (title_of title cells.entry.now)).centre }
        ensures right { result.right.now ≡ (title_or_empty (title_of title cells.entry.now)).right }
    {
        let Some(state) = title else {
            return TitleParts {
                left: cells,
                centre: &[],
                right: &[],
            };
        };
        match state {
            TitleState::Left => TitleParts {
                left: cells,
                centre: &[],
                right: &[],
            },
            TitleState::Centre(left) => {
                let (left, centre) = cells.split_at(left);
                TitleParts {
                    left,
                    centre,
                    right: &[],
                }
            }
            TitleState::Right(left, centre) => {
                let (left, others) = cells.split_at(left);
                let (centre, right) = others.split_at(centre);
                TitleParts {
                    left,
                    centre,
                    right,
                }
            }
        }
    }

    /// The cell at a column of a title whose centre and right part begin so far on.
    fn cell_at(self, centre: usize, right: usize, column: usize) -> Cell
        ensures { result ≡ cell_of centre right self.entry.left.now self.entry.centre.now self.entry.right.now
            column }
    {
        if is_within(right, self.right.len(), column) {
            return self.right[column - right];
        }
        if is_within(centre, self.centre.len(), column) {
            return self.centre[column - centre];
        }
        if column < self.left.len() {
            return self.left[column];
        }
        Cell::blank()
    }

    /// Whether each part ends before the next one begins, of which two do so far on.
    fn are_apart(self, centre: usize, right: usize) -> bool
        requires centre { centre < 2 ^ 32 }
        requires cells { length self.centre.now < 2 ^ 32 }
        ensures { result
            ≡ (nat_le (length self.entry.left.now) centre
            && nat_le (centre + length self.entry.centre.now) right) }
    {
        self.left.len() <= centre && centre + self.centre.len() <= right
    }

    /// Sets such parts in the row after what stands there: in blocks.
    fn set_apart<S: CellSink>(self, centre: usize, right: usize, out: &mut S)
        requires left { length self.left.now ≤ centre }
        requires centre { centre + length self.centre.now ≤ right }
        ensures { S.Adds out.old
            (map (cell_of centre right self.entry.left.now self.entry.centre.now self.entry.right.now)
            (range_with_len 0
            (max (length self.entry.left.now)
            (max (centre + length self.entry.centre.now) (right + length self.entry.right.now)))))
            out.new }
    {
        out.extend(self.left);
        out.blanks(centre - self.left.len());
        out.extend(self.centre);
        out.blanks(right - centre - self.centre.len());
        out.extend(self.right);
    }

    /// The same cell by cell, also where a part stands in another's place.
    fn set_each<S: CellSink>(self, centre: usize, right: usize, out: &mut S)
        requires centre { centre < 2 ^ 32 }
        requires right { right < 2 ^ 32 }
        requires centre_cells { length self.centre.now < 2 ^ 32 }
        requires right_cells { length self.right.now < 2 ^ 32 }
        ensures { S.Adds out.old
            (map (cell_of centre right self.entry.left.now self.entry.centre.now self.entry.right.now)
            (range_with_len 0
            (max (length self.entry.left.now)
            (max (centre + length self.entry.centre.now) (right + length self.entry.right.now)))))
            out.new }
    {
        let reach = self
            .left
            .len()
            .max((centre + self.centre.len()).max(right + self.right.len()));
        for column in 0..reach {
            out.push(self.cell_at(centre, right, column));
        }
    }
}

/// Sets a title of this length in the row after what stands there.
pub(crate) fn set_parts<S: CellSink>(parts: TitleParts<'_>, line: usize, out: &mut S)
    requires line { line < 2 ^ 32 }
    requires left { length parts.left.now < 2 ^ 32 }
    requires centre { length parts.centre.now < 2 ^ 32 }
    requires right { length parts.right.now < 2 ^ 32 }
    ensures { (t : Title) → t.left ≡ parts.entry.left.now → t.centre ≡ parts.entry.centre.now
        → t.right ≡ parts.entry.right.now
        → S.Adds out.old (title_row line t) out.new }
{
    let centre = line.saturating_sub(parts.centre.len()) / 2;
    let right = line.saturating_sub(parts.right.len());
    if parts.are_apart(centre, right) {
        parts.set_apart(centre, right, out);
    } else {
        parts.set_each(centre, right, out);
    }
}
