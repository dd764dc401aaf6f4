//! Lines of a table are drawn: bars, fields, and rules in their place.
ghost use Rattle.std.specs.Prelude.{◌≡◌, ◌==◌, ◌&&◌, ◌||◌, None, Some, false, nat_le};
ghost use Rattle.tbl_columns.specs.Columns.{is_given};
ghost use Rattle.tbl_columns.specs.Frames as frames;
ghost use Rattle.tbl_columns.specs.Held as grids;
ghost use Rattle.tbl_drawing.specs.Drawing as specs;
ghost use Rattle.tbl_drawing.specs.Held.{begin_line};
ghost use Rattle.tbl_drawing.specs.Tapes.{Draws};
ghost use Rattle.tbl_table.specs.declared.table.Form.TheVariants as forms;
ghost use Rattle.tbl_table.specs.Held.{is_rule};

use super::heights::count_of;
use super::layout::Layout;
use super::writing::Out;
use nr_units::sink::Sink;
use tbl_columns::{Block, Cell, Near};
use tbl_table::Form;

/// Whether a field begins in a column of a row.
fn begins_in(cell: &Cell, row: usize, column: usize) -> bool
    ensures { result ≡ ((cell.now.top == row) && (cell.now.first == column)) }
{
    cell.top == row && cell.first == column
}

/// Whether it begins in a column.
fn begins_at(cell: &Cell, column: usize) -> bool
    ensures { result ≡ (cell.now.first == column) }
{
    cell.first == column
}

/// Whether a line is no further up than that where a field begins.
fn begins_by(begin: usize, line: usize) -> bool
    ensures { result ≡ nat_le begin line }
{
    begin <= line
}

/// Whether a field is a rule through its columns, and begins in a row.
fn rules_in(cell: &Cell, row: usize) -> bool
    ensures { result ≡ (is_rule cell.now.field.form && (cell.now.top == row)) }
{
    matches!(cell.field.form, Form::Rule) && cell.top == row
}

/// Whether a field stands on lines of its own: those of a block, or beside rows below.
fn has_lines(cell: &Cell) -> bool
    ensures { result ≡ (cell.now.falls || is_given cell.now.block) }
{
    cell.falls || cell.block.is_some()
}

impl Layout {
    /// It goes on at a place, by a rule or not.
    pub(crate) fn go<W: Sink>(&self, ruled: bool, place: usize, out: &mut Out<'_, W>)
        ensures { Draws out.old out.new (specs.go self.now ruled place) }
    {
        if ruled {
            return self.draw_dash(place, out);
        }
        out.to(place);
    }

    /// A rule up to a place.
    pub(crate) fn draw_dash<W: Sink>(&self, place: usize, out: &mut Out<'_, W>)
        ensures { Draws out.old out.new (specs.dash self.now place) }
    {
        out.dash(self.grid.table.signs.rule, place);
    }

    /// A byte that is repeated over the columns of a field.
    fn draw_repeat<W: Sink>(&self, byte: u8, cell: Cell, out: &mut Out<'_, W>)
        ensures { Draws out.old out.new (specs.field_in (forms.Repeat byte) self.now cell) }
    {
        out.to(self.grid.column(cell.first).left);
        out.fill(byte, self.grid.column(cell.last).right);
    }

    /// Where a rule ends that is as wide as what stands in a column: a cell after it, if the space there has more than a bar.
    fn inner_end(&self, column: usize) -> usize
        ensures { result ≡ specs.inner_end self.now column }
    {
        let last = self.grid.column(column);
        last.right.saturating_add(count_of(last.gap > 1))
    }

    /// A rule as wide as what stands in the columns of a field.
    fn draw_inner<W: Sink>(&self, cell: Cell, out: &mut Out<'_, W>)
        ensures { Draws out.old out.new (specs.field_in forms.Inner self.now cell) }
    {
        out.to(self.grid.column(cell.first).left);
        self.draw_dash(self.inner_end(cell.last), out);
    }

    /// A field.
    #[inline(always)]
    #[tactic(auto, using(crate::proofs::Tapes::draws_nothing))]
    pub(crate) fn draw_field<W: Sink>(&self, cell: &Cell, out: &mut Out<'_, W>)
        ensures { Draws out.old out.new (specs.field_strokes self.now cell.now) }
    {
        match cell.field.form {
            Form::Inner => self.draw_inner(*cell, out),
            Form::Repeat(byte) => self.draw_repeat(byte, *cell, out),
            Form::Text => {
                if cell.field.has_text() {
                    self.draw_text(cell, out);
                }
            }
            _ => {}
        }
    }

    /// Whether a field goes on over rows below, and begins on a line.
    fn falls_on(&self, number: usize, cell: &Cell, line: usize) -> bool
        ensures { result ≡ (cell.now.falls && (begin_line self.now number == line)) }
    {
        cell.falls && self.begin_line(number) == line
    }

    /// A field that is no block stands on its line.
    fn draw_text_on<W: Sink>(&self, number: usize, cell: &Cell, line: usize, out: &mut Out<'_, W>)
        ensures { Draws out.old out.new (specs.on_line None self.now number cell.now line) }
    {
        if !self.falls_on(number, cell, line) {
            return;
        }
        self.draw_field(cell, out);
    }

    /// A line of a block stands on this line, from that where it begins.
    fn draw_block_on<W: Sink>(
        &self,
        number: usize,
        cell: &Cell,
        block: Block,
        line: usize,
        out: &mut Out<'_, W>,
    )
        ensures { Draws out.old out.new (specs.on_line (Some block) self.now number cell.now line) }
    {
        let begin = self.begin_line(number);
        if !begins_by(begin, line) {
            return;
        }
        self.draw_block(cell, block, line.saturating_sub(begin), out);
    }

    /// What of a field that has lines stands on this line.
    fn draw_on<W: Sink>(&self, number: usize, cell: &Cell, line: usize, out: &mut Out<'_, W>)
        ensures { Draws out.old out.new
            (specs.on_line (grids.block_of self.now.grid cell.now) self.now number cell.now line) }
    {
        match self.grid.block_of(cell) {
            Some(block) => self.draw_block_on(number, cell, block, line, out),
            None => self.draw_text_on(number, cell, line, out),
        }
    }

    /// What stands on this line of a field that goes on over rows below, or of a block.
    pub(crate) fn draw_falling<W: Sink>(
        &self,
        row: usize,
        column: usize,
        line: usize,
        out: &mut Out<'_, W>,
    )
        ensures { Draws out.old out.new (specs.falling self.now row column line) }
    {
        let number = self.grid.cell_number(row, column);
        let cell = self.grid.cell_of(number);
        if !begins_at(&cell, column) {
            return;
        }
        self.draw_on(number, &cell, line, out);
    }

    /// The bars before a column, after a rule of a field or before one.
    #[tactic(auto, using(crate::proofs::Tapes::draws_nothing))]
    fn draw_bar<W: Sink>(
        &self,
        row: usize,
        column: usize,
        was: bool,
        now: bool,
        out: &mut Out<'_, W>,
    )
        ensures { Draws out.old out.new (specs.bar self.now row column was now) }
    {
        let bars = self.grid.bars_of(row, column);
        if bars == 0 {
            return;
        }
        self.draw_some_bars(
            column,
            self.grid.table.signs.joint(true, true, was, now),
            was,
            bars,
            out,
        );
    }

    /// So many bars before a column, each this byte, after a rule of a field or not.
    fn draw_some_bars<W: Sink>(
        &self,
        column: usize,
        byte: u8,
        was: bool,
        bars: usize,
        out: &mut Out<'_, W>,
    )
        ensures { Draws out.old out.new (specs.bars_as self.now column byte was bars) }
    {
        self.go(was, self.grid.bar_place(column), out);
        out.bars(byte, bars);
    }

    /// Whether bars go down from a row.
    fn goes_below(&self, row: usize) -> bool
        ensures { result ≡ specs.goes_below self.now row }
    {
        self.grid.table.is_boxed()
            || self.measured
            || self.grid.table.row(row).item.saturating_add(1) != self.grid.table.items.len()
    }

    /// What stands for a bar of a row after a rule of a field, or before one.
    #[inline(always)]
    fn bar_byte(&self, row: usize, was: bool, now: bool) -> u8
        ensures { result ≡ specs.bar_byte self.now row was now }
    {
        if !was && !now {
            return self.grid.table.signs.bar;
        }
        self.grid
            .table
            .signs
            .joint(true, self.goes_below(row), was, now)
    }

    /// Where no bar is seen, and no rule before it, a rule begins where bars would stand.
    #[tactic(auto, using(crate::proofs::Tapes::draws_nothing))]
    fn begin_rule<W: Sink>(&self, row: usize, column: usize, near: Near, out: &mut Out<'_, W>)
        requires { near ≡ frames.near self.now.grid row }
        ensures { Draws out.old out.new (specs.rule_begin self.now row column) }
    {
        if !self.grid.was_ruled(row, column) && self.grid.bars_seen(row, near, column) == 0 {
            out.to(self.grid.bar_place(column));
        }
    }

    /// Whether a rule of a field goes on before a column, or bars are seen there, or after the last one.
    fn goes_on(&self, row: usize, column: usize, near: Near) -> bool
        requires { near ≡ frames.near self.now.grid row }
        ensures { result ≡ specs.goes_on self.now row column }
    {
        (column < self.grid.columns.len() && self.grid.is_ruled(row, column))
            || self.grid.bars_seen(row, near, column) > 0
    }

    /// Where it doesn't, it ends with a cell there.
    #[tactic(auto, using(crate::proofs::Tapes::draws_nothing))]
    fn end_column_rule<W: Sink>(&self, row: usize, column: usize, near: Near, out: &mut Out<'_, W>)
        requires { near ≡ frames.near self.now.grid row }
        ensures { Draws out.old out.new (specs.column_rule_end self.now row column) }
    {
        if self.goes_on(row, column, near) {
            return;
        }
        self.draw_dash(self.rule_stop(column), out);
    }

    /// A rule through a column of a field.
    fn draw_column_rule<W: Sink>(&self, row: usize, column: usize, near: Near, out: &mut Out<'_, W>)
        requires { near ≡ frames.near self.now.grid row }
        ensures { Draws out.old out.new (specs.column_rule self.now row column) }
    {
        self.begin_rule(row, column, near, out);
        self.draw_dash(self.grid.column(column).right, out);
        self.end_column_rule(row, column.saturating_add(1), near, out);
    }

    /// What stands in a column in which its field begins.
    #[inline(always)]
    fn draw_own<W: Sink>(
        &self,
        row: usize,
        column: usize,
        cell: &Cell,
        line: usize,
        out: &mut Out<'_, W>,
    )
        ensures { Draws out.old out.new (specs.own_in self.now row column line cell.now) }
    {
        if has_lines(cell) {
            return self.draw_falling(row, column, line, out);
        }
        self.draw_field(cell, out);
    }

    /// What stands in a column of a row that has no rule there.
    #[inline(always)]
    fn draw_text_in<W: Sink>(
        &self,
        row: usize,
        column: usize,
        cell: &Cell,
        line: usize,
        out: &mut Out<'_, W>,
    )
        ensures { Draws out.old out.new (specs.text_in self.now row column line cell.now) }
    {
        if !begins_in(cell, row, column) {
            return self.draw_falling(row, column, line, out);
        }
        self.draw_own(row, column, cell, line, out);
    }

    /// What stands in a column of a row.
    #[inline(always)]
    fn draw_content<W: Sink>(
        &self,
        row: usize,
        column: usize,
        near: Near,
        line: usize,
        out: &mut Out<'_, W>,
    )
        requires { near ≡ frames.near self.now.grid row }
        ensures { Draws out.old out.new (specs.content self.now row column line) }
    {
        let cells = self.grid.cells.as_slice();
        let Some(cell) = cells.get(self.grid.cell_number(row, column)) else {
            return;
        };
        if rules_in(cell, row) {
            return self.draw_column_rule(row, column, near, out);
        }
        self.draw_text_in(row, column, cell, line, out);
    }

    /// The bars before a column of a row.
    #[inline(always)]
    #[tactic(auto, using(crate::proofs::Tapes::draws_nothing))]
    fn draw_row_bar<W: Sink>(&self, row: usize, column: usize, near: Near, out: &mut Out<'_, W>)
        requires { near ≡ frames.near self.now.grid row }
        ensures { Draws out.old out.new (specs.row_bar self.now row column
            (frames.was_ruled self.now.grid row column) (frames.is_ruled self.now.grid row column)) }
    {
        let bars = self.grid.bars_seen(row, near, column);
        if bars == 0 {
            return;
        }
        let was = self.grid.was_ruled(row, column);
        let now = self.grid.is_ruled(row, column);
        self.draw_some_bars(column, self.bar_byte(row, was, now), was, bars, out);
    }

    /// A column of a row, with the bars before it.
    #[inline(always)]
    fn draw_cell<W: Sink>(
        &self,
        row: usize,
        column: usize,
        near: Near,
        line: usize,
        out: &mut Out<'_, W>,
    )
        requires { near ≡ frames.near self.now.grid row }
        ensures { Draws out.old out.new (specs.row_cell self.now row column line) }
    {
        self.draw_row_bar(row, column, near, out);
        self.draw_content(row, column, near, line, out);
    }

    /// The columns of a row.
    fn draw_cells<W: Sink>(&self, row: usize, near: Near, line: usize, out: &mut Out<'_, W>)
        requires { near ≡ frames.near self.now.grid row }
        ensures { Draws out.old out.new (specs.row_cells (grids.columns self.now.grid) self.now row line) }
    {
        for column in 0..self.grid.columns.len() {
            self.draw_cell(row, column, near, line, out);
        }
    }

    /// The bars after the last column of a row.
    #[tactic(auto, using(crate::proofs::Tapes::draws_nothing))]
    fn end_row_bar<W: Sink>(&self, row: usize, columns: usize, near: Near, out: &mut Out<'_, W>)
        requires { near ≡ frames.near self.now.grid row }
        ensures { Draws out.old out.new
            (specs.row_bar self.now row columns (frames.was_ruled self.now.grid row columns) false) }
    {
        let bars = self.grid.bars_seen(row, near, columns);
        if bars == 0 {
            return;
        }
        let was = self.grid.was_ruled(row, columns);
        self.draw_some_bars(columns, self.bar_byte(row, was, false), was, bars, out);
    }

    /// A row: bars, rules of fields, fields.
    pub(crate) fn draw_row<W: Sink>(&self, row: usize, line: usize, out: &mut Out<'_, W>)
        ensures { Draws out.old out.new (specs.row_strokes self.now row line) }
    {
        let near = self.grid.near(row);
        self.draw_cells(row, near, line, out);
        self.end_row_bar(row, self.grid.columns.len(), near, out);
    }

    /// A column of the bars of a row alone.
    fn draw_bars_cell<W: Sink>(&self, row: usize, column: usize, line: usize, out: &mut Out<'_, W>)
        ensures { Draws out.old out.new (specs.bars_cell self.now row column line) }
    {
        self.draw_bar(row, column, false, false, out);
        self.draw_falling(row, column, line, out);
    }

    /// The columns of these.
    fn draw_bars_cells<W: Sink>(&self, row: usize, line: usize, out: &mut Out<'_, W>)
        ensures { Draws out.old out.new (specs.bars_cells (grids.columns self.now.grid) self.now row line) }
    {
        for column in 0..self.grid.columns.len() {
            self.draw_bars_cell(row, column, line, out);
        }
    }

    /// The bars of a row alone.
    pub(crate) fn draw_bars<W: Sink>(&self, row: usize, line: usize, out: &mut Out<'_, W>)
        ensures { Draws out.old out.new (specs.bars_strokes self.now row line) }
    {
        self.draw_bars_cells(row, line, out);
        self.draw_bar(row, self.grid.columns.len(), false, false, out);
    }

    /// The line of a row; an empty one stands for itself, or doesn't.
    pub(crate) fn put_row_line<W: Sink>(&self, row: usize, line: usize, out: &mut Out<'_, W>)
        ensures { Draws out.old out.new (specs.whole (specs.row_strokes self.now row line)) }
    {
        out.start();
        self.draw_row(row, line, out);
        out.end();
    }

    /// A line of a row's bars.
    pub(crate) fn put_bars_line<W: Sink>(&self, row: usize, line: usize, out: &mut Out<'_, W>)
        ensures { Draws out.old out.new (specs.whole (specs.bars_strokes self.now row line)) }
    {
        out.start();
        self.draw_bars(row, line, out);
        out.end();
    }

    /// The line of a rule between two rows.
    pub(crate) fn put_rule_line<W: Sink>(
        &self,
        above: Option<usize>,
        below: Option<usize>,
        line: usize,
        out: &mut Out<'_, W>,
    )
        ensures { Draws out.old out.new (specs.whole (specs.rule_strokes self.now above below line)) }
    {
        out.start();
        self.draw_rule(above, below, line, out);
        out.end();
    }

    /// The line of the outer rule of a double box, above it or below.
    pub(crate) fn put_edge_line<W: Sink>(&self, above: bool, out: &mut Out<'_, W>)
        ensures { Draws out.old out.new (specs.whole (specs.edge_strokes self.now above)) }
    {
        out.start();
        self.draw_edge(above, out);
        out.end();
    }
}
