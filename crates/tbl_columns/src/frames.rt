//! Bars, rules and frames: what meets where.

ghost use Rattle.std.specs.Prelude.{◌≡◌};
ghost use Rattle.tbl_columns.specs.Frames as specs;
ghost use Rattle.tbl_columns.specs.Held as held;
ghost use Rattle.tbl_table.specs.Held as table;
ghost use Rattle.tbl_table.specs.Sums.{sum};

use super::grid::{Column, Grid};
use tbl_table::{Form, Item, Kind, Line, set_item};

/// A row's line of formats, and the rows right beside it, no rules between them, if they have other ones.
#[derive(Clone, Copy)]
pub struct Near {
    /// Its own line of formats.
    pub line: Line,
    /// The one above.
    pub above: Option<usize>,
    /// The one below, if it is more than rules.
    pub below: Option<usize>,
}

impl Grid {
    /// Whether a column of a row goes on from the left.
    #[inline(always)]
    fn is_inside(&self, line: Line, row: usize, column: usize) -> bool
        requires { line ≡ table.line self.now.table (table.row self.now.table row).line }
        ensures { result ≡ specs.is_inside self.now row column }
    {
        let left = column.saturating_sub(1);
        matches!(self.table.key(line, column).kind, Kind::Across)
            || self.cell_number(row, column) == self.cell_number(row, left)
    }

    /// The bars that a frame puts before a column, or after the last one.
    fn framing_bars(&self, inside: bool) -> usize
        ensures { result ≡ specs.framing self.now inside }
    {
        let framed = if inside {
            self.table.is_all_boxed()
        } else {
            self.table.is_boxed()
        };
        if framed { 1 } else { 0 }
    }

    /// The bars that formats or a frame put before a column of this row, or after the last one: at an edge one.
    #[inline(always)]
    fn bars_put(&self, line: Line, column: usize, between: bool) -> usize
        ensures { result ≡ specs.or_else (specs.edged between (table.bars_in self.now.table line column))
            (specs.framing self.now between) }
    {
        let bars = self.table.bars_in(line, column);
        if bars > 0 {
            return if between { bars } else { 1 };
        }
        self.framing_bars(between)
    }

    /// How many bars stand before a column of a row, or after the last one.
    pub fn bars_of(&self, row: usize, column: usize) -> usize
        ensures { result ≡ specs.bars_of self.now row column }
    {
        self.bars_by(self.table.line(self.table.row(row).line), row, column)
    }

    /// The same, by the row's line of formats. Most rows have none, whatever their fields.
    #[inline(always)]
    fn bars_by(&self, line: Line, row: usize, column: usize) -> usize
        requires { line ≡ table.line self.now.table (table.row self.now.table row).line }
        ensures { result ≡ specs.bars_of self.now row column }
    {
        let between = 0 < column && column < self.columns.len();
        let bars = self.bars_put(line, column, between);
        if bars > 0 && between && self.is_inside(line, row, column) {
            return 0;
        }
        bars
    }

    /// The row right below one, no rule between them, that has another line of formats and is more than rules.
    pub fn row_below(&self, row: usize) -> Option<usize>
        ensures { result ≡ specs.row_below self.now row }
    {
        if self.table.lines.len() < 2 || self.table.is_all_boxed() {
            return None;
        }
        let this = self.table.row(row);
        match self.table.item(this.item.saturating_add(1)) {
            Item::Row(next) => self.other_row(this.line, next),
            _ => None,
        }
    }

    /// A row, if it has another line of formats than this, and fields that print something.
    fn other_row(&self, line: usize, next: usize) -> Option<usize>
        ensures { result ≡ specs.other_row self.now line next }
    {
        let row = self.table.row(next);
        if row.line != line && self.table.some_print(row.first, row.end) {
            Some(next)
        } else {
            None
        }
    }

    /// Whether bars of a row below may be seen before a column of a row: not in a field over several columns, but in a rule.
    fn shows_below(&self, row: usize, column: usize) -> bool
        ensures { result ≡ specs.shows_below self.now row column }
    {
        let between = 0 < column && column < self.columns.len();
        let line = self.table.line(self.table.row(row).line);
        !between || self.is_ruled(row, column) || !self.is_inside(line, row, column)
    }

    /// How many bars of the row below are seen before a column of a row that has none there.
    fn bars_from_below(&self, row: usize, below: usize, column: usize) -> usize
        ensures { result ≡ specs.from_below self.now row column below }
    {
        if self.shows_below(row, column) {
            self.bars_of(below, column)
        } else {
            0
        }
    }

    /// The same, if there is such a row.
    #[inline(always)]
    fn bars_from(&self, row: usize, below: Option<usize>, column: usize) -> usize
        ensures { result ≡ specs.from_row self.now row column below }
    {
        match below {
            Some(below) => self.bars_from_below(row, below, column),
            None => 0,
        }
    }

    /// The row right above one, no rule between them, that has another line of formats.
    fn row_above(&self, row: usize) -> Option<usize>
        ensures { result ≡ specs.row_above self.now row }
    {
        let this = self.table.row(row);
        if this.item == 0 || self.table.lines.len() < 2 || self.table.is_all_boxed() {
            return None;
        }
        match self.table.item(this.item.saturating_sub(1)) {
            Item::Row(last) if self.table.row(last).line != this.line => Some(last),
            _ => None,
        }
    }

    /// The rows right beside one.
    pub fn near(&self, row: usize) -> Near
        ensures { result ≡ specs.near self.now row }
    {
        Near {
            line: self.table.line(self.table.row(row).line),
            above: self.row_above(row),
            below: self.row_below(row),
        }
    }

    /// How many bars of the row above meet a rule of a field before a column, or after the last one.
    fn bars_from_above(&self, row: usize, above: usize, column: usize) -> usize
        ensures { result ≡ specs.from_above self.now row column above }
    {
        if self.rules_join(row, column) {
            self.bars_of(above, column)
        } else {
            0
        }
    }

    /// The same, if there is such a row.
    #[inline(always)]
    fn bars_to(&self, row: usize, above: Option<usize>, column: usize) -> usize
        ensures { result ≡ specs.from_last self.now row column above }
    {
        match above {
            Some(above) => self.bars_from_above(row, above, column),
            None => 0,
        }
    }

    /// How many bars of the rows beside one are seen before a column that has none of its own.
    #[inline(always)]
    fn bars_beside(&self, row: usize, near: Near, column: usize) -> usize
        requires { near ≡ specs.near self.now row }
        ensures { result ≡ specs.bars_beside self.now row column }
    {
        let bars = self.bars_from(row, near.below, column);
        if bars > 0 {
            return bars;
        }
        self.bars_to(row, near.above, column)
    }

    /// How many bars are seen before a column of a row, or after the last one: its own, those that begin in the row below, or
    /// those of the row above that meet a rule of a field.
    #[inline(always)]
    pub fn bars_seen(&self, row: usize, near: Near, column: usize) -> usize
        requires { near ≡ specs.near self.now row }
        ensures { result ≡ specs.bars_seen self.now row column }
    {
        let bars = self.bars_by(near.line, row, column);
        if bars > 0 {
            return bars;
        }
        self.bars_beside(row, near, column)
    }

    /// How many bars stand before a column of a row, if there is one, or after the last one.
    pub fn bars_at(&self, row: Option<usize>, column: usize) -> usize
        ensures { result ≡ specs.bars_at self.now row column }
    {
        match row {
            Some(row) => self.bars_of(row, column),
            None => 0,
        }
    }

    /// Whether a row has bars.
    #[tactic(auto, using(crate::proofs::Nexts::bars_next))]
    pub fn has_bars(&self, row: usize) -> bool
        ensures { result ≡ specs.has_bars self.now row }
    {
        for column in 0..self.columns.len().saturating_add(1) {
            if self.bars_at(Some(row), column) > 0 {
                return true;
            }
        }
        false
    }

    /// Whether a field from above goes on over a column between two rows.
    pub fn is_covered(&self, above: Option<usize>, below: Option<usize>, column: usize) -> bool
        ensures { result ≡ specs.is_covered self.now above below column }
    {
        let Some(above) = above else {
            return false;
        };
        let Some(below) = below else {
            return false;
        };
        above != below && self.cell(below, column).top < below
    }

    /// The most bars that a line of formats has before a column, or after the last one.
    fn most_bars(&self, column: usize) -> usize
        ensures { result ≡ specs.most_bars self.now column }
    {
        let mut bars = 0;
        for line in 0..self.table.lines.len() {
            bars = self.table.bars_in(self.table.line(line), column).max(bars);
        }
        bars
    }

    /// What stands at the left edge.
    pub(crate) fn left_edge(&self) -> usize
        ensures { result ≡ specs.left_edge self.now }
    {
        if self.table.is_boxed() {
            return 1;
        }
        self.most_bars(0).min(1)
    }

    /// What stands at the right edge.
    pub(crate) fn right_edge(&self) -> usize
        ensures { result ≡ specs.right_edge self.now }
    {
        if self.table.is_boxed() {
            return 1;
        }
        self.most_bars(self.columns.len()).min(1)
    }

    /// Whether a field of a row is a rule in a column.
    pub fn is_ruled(&self, row: usize, column: usize) -> bool
        ensures { result ≡ specs.is_ruled self.now row column }
    {
        let cell = self.cell(row, column);
        cell.top == row && matches!(cell.field.form, Form::Rule)
    }

    /// Whether one is before a column.
    pub fn was_ruled(&self, row: usize, column: usize) -> bool
        ensures { result ≡ specs.was_ruled self.now row column }
    {
        0 < column && self.is_ruled(row, column - 1)
    }

    /// Whether a rule of a field ends or begins before a column, or after the last one.
    pub fn rules_join(&self, row: usize, column: usize) -> bool
        ensures { result ≡ specs.rules_join self.now row column }
    {
        self.was_ruled(row, column) || (column < self.columns.len() && self.is_ruled(row, column))
    }

    /// A column begins at a place; tells where the next one does.
    fn lay_column(&mut self, number: usize, left: usize) -> usize
        ensures value { self.new ≡ (specs.column_laid number left self.old).grid }
        ensures next { result ≡ (specs.column_laid number left self.old).place }
        ensures room { held.emptied self.new ≡ held.emptied self.old }
    {
        let column = self.column(number);
        let right = left.saturating_add(column.width);
        let bar = right.saturating_add(column.bar_in);
        let placed = Column {
            left,
            right,
            bar,
            ..column
        };
        set_item(&mut self.columns, number, placed);
        right.saturating_add(column.gap)
    }

    /// Where the first column begins.
    fn first_place(&self) -> usize
        ensures { result ≡ sum (specs.left_edge self.now) self.now.edges.left }
    {
        self.left_edge().saturating_add(self.edges.left)
    }

    /// The places of columns.
    #[tactic(auto, using(crate::proofs::Turns::one_more))]
    pub(crate) fn lay_out(&mut self)
        ensures value { self.new ≡ specs.laid_out self.old }
        ensures room { held.emptied self.new ≡ held.emptied self.old }
    {
        let mut place = self.first_place();
        for number in 0..self.columns.len() {
            place = self.lay_column(number, place);
        }
    }

    /// Where the table ends.
    pub fn end(&self) -> usize
        ensures { result ≡ specs.table_end self.now }
    {
        let columns = self.columns.len();
        if columns == 0 {
            return 0;
        }
        let right = self.column(columns - 1).right;
        right
            .saturating_add(self.right_edge())
            .saturating_add(self.edges.right)
    }

    /// Where bars before a column stand, or after the last one.
    pub fn bar_place(&self, column: usize) -> usize
        ensures { result ≡ specs.bar_place self.now column }
    {
        if column == 0 {
            0
        } else if column >= self.columns.len() {
            self.end()
        } else {
            self.column(column - 1).bar
        }
    }
}
