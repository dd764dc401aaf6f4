//! Rules between the rows of a table are drawn, and the outer rule of a double box.
ghost use Rattle.std.specs.Prelude.{◌≡◌, not, max};
ghost use Rattle.tbl_columns.specs.Frames as frames;
ghost use Rattle.tbl_columns.specs.Held as grids;
ghost use Rattle.tbl_drawing.specs.Drawing as specs;
ghost use Rattle.tbl_drawing.specs.Steps.{is_rule_item};
ghost use Rattle.tbl_drawing.specs.Tapes.{Draws};
ghost use Rattle.tbl_table.specs.Held.{item};

use super::heights::count_of;
use super::layout::Layout;
use super::writing::Out;
use nr_units::sink::Sink;
use tbl_table::Item;

impl Layout {
    /// The bars of a box at an edge of the table.
    fn framing_bars_at(&self, column: usize) -> usize
        ensures { result ≡ frames.framing_at self.now.grid column }
    {
        let edge = column == 0 || column == self.grid.columns.len();
        if edge && self.grid.table.is_boxed() {
            1
        } else {
            0
        }
    }

    /// How many bars meet a rule before a column, where the row above has so many and that below.
    fn most_meeting(&self, up: usize, down: usize, column: usize) -> usize
        ensures { result ≡ max (max up down) (frames.framing_at self.now.grid column) }
    {
        up.max(down).max(self.framing_bars_at(column))
    }

    /// Whether a field goes on over the column before one; so the edge is.
    fn was_covered(&self, above: Option<usize>, below: Option<usize>, column: usize) -> bool
        ensures { result ≡ specs.was_covered self.now above below column }
    {
        column == 0 || self.grid.is_covered(above, below, column - 1)
    }

    /// The pen goes to where bars meet a rule.
    #[tactic(auto, using(crate::proofs::Tapes::draws_nothing))]
    fn begin_crossing<W: Sink>(&self, was: bool, column: usize, out: &mut Out<'_, W>)
        ensures { Draws out.old out.new (specs.begun_crossing self.now was column) }
    {
        if column == 0 {
            return;
        }
        self.go(!was, self.grid.bar_place(column), out);
    }

    /// Where a rule of a field ends that meets no bars before a column, or after the last one.
    pub(crate) fn rule_stop(&self, column: usize) -> usize
        ensures { result ≡ specs.rule_stop self.now column }
    {
        if column < self.grid.columns.len() {
            return self.turn_end(column);
        }
        self.grid.end().saturating_add(1)
    }

    /// Where a rule ends that meets no bars, beside a field that goes on over a column.
    fn turn_end(&self, column: usize) -> usize
        ensures { result ≡ specs.turn_end self.now column }
    {
        let spaced = self.grid.column(column.saturating_sub(1)).gap > 0;
        self.grid.bar_place(column).saturating_add(count_of(spaced))
    }

    /// Where a rule meets no bars it ends beside a field that goes on, or begins there.
    #[tactic(auto, using(crate::proofs::Tapes::draws_nothing))]
    fn turn_rule<W: Sink>(&self, was: bool, covered: bool, column: usize, out: &mut Out<'_, W>)
        ensures { Draws out.old out.new (specs.turned self.now column was covered) }
    {
        match (was, covered) {
            (false, true) => self.draw_dash(self.turn_end(column), out),
            (true, false) => out.to(self.grid.bar_place(column)),
            _ => {}
        }
    }

    /// Bars meet a rule before a column, or it turns there.
    #[tactic(auto, using(crate::proofs::Tapes::draws_nothing))]
    fn draw_crossing<W: Sink>(
        &self,
        above: Option<usize>,
        below: Option<usize>,
        column: usize,
        out: &mut Out<'_, W>,
    )
        ensures { Draws out.old out.new (specs.crossing self.now above below column) }
    {
        let up = self.grid.bars_at(above, column);
        let down = self.grid.bars_at(below, column);
        let bars = self.most_meeting(up, down, column);
        let was = self.was_covered(above, below, column);
        if bars == 0 {
            return self.turn_rule(was, self.grid.is_covered(above, below, column), column, out);
        }
        self.begin_crossing(was, column, out);
        out.bars(self.crossing_of(above, below, column, up, down), bars);
    }

    /// Whether a rule across the table stands first.
    fn begins_with_rule(&self) -> bool
        ensures { result ≡ is_rule_item (item self.now.grid.table 0) }
    {
        matches!(self.grid.table.item(0), Item::Rule)
    }

    /// Whether a line stands above a rule that is below no row of what is held.
    fn is_second(&self, below: Option<usize>) -> bool
        ensures { result ≡ specs.is_second self.now below }
    {
        self.grid.table.is_double() || (below.is_some() && self.begins_with_rule())
    }

    /// Whether bars go up from a rule that is below no row of what is held.
    fn goes_up_first(&self, below: Option<usize>, column: usize) -> bool
        ensures { result ≡ specs.goes_up_first self.now below column }
    {
        self.begun || (self.framing_bars_at(column) > 0 && self.is_second(below))
    }

    /// Whether bars go up from a rule before a column, where the row above has so many.
    fn goes_up(
        &self,
        above: Option<usize>,
        below: Option<usize>,
        column: usize,
        bars: usize,
    ) -> bool
        requires { bars ≡ frames.bars_at self.now.grid above column }
        ensures { result ≡ specs.goes_up self.now above below column }
    {
        match above {
            Some(_) => bars > 0,
            None => self.goes_up_first(below, column),
        }
    }

    /// Whether bars go down from a rule before a column, where the row below has so many.
    fn goes_down(
        &self,
        above: Option<usize>,
        below: Option<usize>,
        column: usize,
        bars: usize,
    ) -> bool
        requires { bars ≡ frames.bars_at self.now.grid below column }
        ensures { result ≡ specs.goes_down self.now above below column }
    {
        match below {
            Some(_) => bars > 0,
            None => self.framing_bars_at(column) > 0
                && (self.grid.table.is_double() || above.is_none()),
        }
    }

    /// Whether a rule goes on in a column.
    fn goes_right(&self, above: Option<usize>, below: Option<usize>, column: usize) -> bool
        ensures { result ≡ specs.goes_right self.now above below column }
    {
        column < self.grid.columns.len() && !self.grid.is_covered(above, below, column)
    }

    /// What stands where bars meet a rule before a column, or after the last one.
    pub(crate) fn crossing_byte(
        &self,
        above: Option<usize>,
        below: Option<usize>,
        column: usize,
    ) -> u8
        ensures { result ≡ specs.crossing_byte self.now above below column }
    {
        let up = self.grid.bars_at(above, column);
        let down = self.grid.bars_at(below, column);
        self.crossing_of(above, below, column, up, down)
    }

    /// The same, where the row above has so many bars before the column and that below.
    fn crossing_of(
        &self,
        above: Option<usize>,
        below: Option<usize>,
        column: usize,
        up: usize,
        down: usize,
    ) -> u8
        requires up { up ≡ frames.bars_at self.now.grid above column }
        requires down { down ≡ frames.bars_at self.now.grid below column }
        ensures { result ≡ specs.crossing_byte self.now above below column }
    {
        let up = self.goes_up(above, below, column, up);
        let down = self.goes_down(above, below, column, down);
        let left = !self.was_covered(above, below, column);
        let right = self.goes_right(above, below, column);
        self.grid.table.signs.joint(up, down, left, right)
    }

    /// A field that goes on over a rule.
    #[tactic(auto, using(crate::proofs::Tapes::draws_nothing))]
    fn draw_going_on<W: Sink>(
        &self,
        above: Option<usize>,
        below: Option<usize>,
        column: usize,
        line: usize,
        out: &mut Out<'_, W>,
    )
        ensures { Draws out.old out.new (specs.going_on self.now above below column line) }
    {
        let Some(row) = below else {
            return;
        };
        if self.grid.is_covered(above, Some(row), column) {
            self.draw_falling(row, column, line, out);
        }
    }

    /// The rule goes on to where a column ends, but over a field that goes on.
    fn go_over<W: Sink>(
        &self,
        above: Option<usize>,
        below: Option<usize>,
        column: usize,
        out: &mut Out<'_, W>,
    )
        ensures { Draws out.old out.new
            (specs.go self.now (not (frames.is_covered self.now.grid above below column))
            (grids.column self.now.grid column).right) }
    {
        let covered = self.grid.is_covered(above, below, column);
        self.go(!covered, self.grid.column(column).right, out);
    }

    /// A column of a rule.
    fn draw_rule_cell<W: Sink>(
        &self,
        above: Option<usize>,
        below: Option<usize>,
        column: usize,
        line: usize,
        out: &mut Out<'_, W>,
    )
        ensures { Draws out.old out.new (specs.rule_cell self.now above below column line) }
    {
        self.draw_crossing(above, below, column, out);
        self.draw_going_on(above, below, column, line, out);
        self.go_over(above, below, column, out);
    }

    /// The columns of a rule.
    fn draw_rule_cells<W: Sink>(
        &self,
        above: Option<usize>,
        below: Option<usize>,
        line: usize,
        out: &mut Out<'_, W>,
    )
        ensures { Draws out.old out.new (specs.rule_cells (grids.columns self.now.grid) self.now above below line) }
    {
        for column in 0..self.grid.columns.len() {
            self.draw_rule_cell(above, below, column, line, out);
        }
    }

    /// Whether a field goes on over the last column.
    fn ends_covered(&self, above: Option<usize>, below: Option<usize>) -> bool
        ensures { result ≡ specs.ends_covered self.now above below }
    {
        self.was_covered(above, below, self.grid.columns.len()) && self.grid.columns.len() > 0
    }

    /// Where a rule ends: with a bar, or with one cell more.
    #[tactic(auto, using(crate::proofs::Tapes::draws_nothing))]
    fn end_rule<W: Sink>(&self, above: Option<usize>, below: Option<usize>, out: &mut Out<'_, W>)
        ensures { Draws out.old out.new (specs.rule_end self.now above below) }
    {
        let columns = self.grid.columns.len();
        let up = self.grid.bars_at(above, columns);
        let down = self.grid.bars_at(below, columns);
        if self.most_meeting(up, down, columns) == 0 {
            return self.go(
                !self.ends_covered(above, below),
                self.grid.end().saturating_add(1),
                out,
            );
        }
        out.bars(self.crossing_of(above, below, columns, up, down), 1);
    }

    /// The rule goes on to where the table ends, but after such a field.
    fn go_end<W: Sink>(&self, above: Option<usize>, below: Option<usize>, out: &mut Out<'_, W>)
        ensures { Draws out.old out.new
            (specs.go self.now (not (specs.ends_covered self.now above below)) (frames.table_end self.now.grid)) }
    {
        let covered = self.ends_covered(above, below);
        self.go(!covered, self.grid.end(), out);
    }

    /// A rule between two rows.
    pub(crate) fn draw_rule<W: Sink>(
        &self,
        above: Option<usize>,
        below: Option<usize>,
        line: usize,
        out: &mut Out<'_, W>,
    )
        ensures { Draws out.old out.new (specs.rule_strokes self.now above below line) }
    {
        self.draw_rule_cells(above, below, line, out);
        self.go_end(above, below, out);
        self.end_rule(above, below, out);
    }

    /// The outer rule of a double box, above it or below, which meets no bars.
    pub(crate) fn draw_edge<W: Sink>(&self, above: bool, out: &mut Out<'_, W>)
        ensures { Draws out.old out.new (specs.edge_strokes self.now above) }
    {
        out.bars(self.grid.table.signs.joint(!above, above, false, true), 1);
        self.draw_dash(self.grid.end(), out);
        out.bars(self.grid.table.signs.joint(!above, above, true, false), 1);
    }
}
