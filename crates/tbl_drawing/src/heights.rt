//! How many lines the rows of a table take, and on which of them its fields begin.
ghost use Rattle.std.specs.Prelude.{◌≡◌, ◌-◌, ◌==◌, ◌&&◌, length};
ghost use Rattle.tbl_columns.specs.Columns.{is_given};
ghost use Rattle.tbl_columns.specs.Frames.{count};
ghost use Rattle.tbl_drawing.specs.Heights as specs;
ghost use Rattle.tbl_drawing.specs.Held as held;
ghost use Rattle.tbl_drawing.specs.Steps.{lines_taken};
ghost use Rattle.tbl_table.specs.Sums.{sum};

use super::layout::{Layout, Tall};
use tbl_columns::{Cell, Placed};
use tbl_table::{Stand, add_item, set_item};

/// One, or none.
pub(crate) fn count_of(one: bool) -> usize
    ensures { result ≡ count one }
{
    if one { 1 } else { 0 }
}

/// Whether a field is a block that goes on over rows below.
fn is_falling_block(cell: &Cell) -> bool
    ensures { result ≡ (cell.now.falls && is_given cell.now.block) }
{
    cell.falls && cell.block.is_some()
}

impl Layout {
    /// How many lines a row takes: as its highest field of those that don't go on.
    #[tactic(auto, using(crate::proofs::Nexts::highest_next))]
    fn own_height(&self, row: Placed) -> usize
        ensures { result ≡ specs.own_height self.now.grid row }
    {
        let mut height = 1;
        for number in row.cells..row.cells_end {
            let cell = self.grid.cell_of(number);
            if !cell.falls {
                height = self.grid.height_of(&cell).max(height);
            }
        }
        height
    }

    /// No heights are known.
    fn forget_talls(&mut self)
        ensures value { self.new ≡ specs.without_talls self.old }
        ensures room { held.emptied self.new ≡ held.emptied self.old }
    {
        self.talls.clear();
    }

    /// How many lines a row takes by its own fields.
    fn read_height(&mut self, number: usize)
        ensures value { self.new ≡ specs.height_read number self.old }
        ensures room { held.emptied self.new ≡ held.emptied self.old }
    {
        let height = self.own_height(self.grid.placed(number));
        add_item(&mut self.talls, Tall::of(height));
    }

    /// How many lines each row takes by its own fields.
    fn read_heights(&mut self)
        ensures value { self.new ≡ specs.heights_read self.old }
        ensures room { held.emptied self.new ≡ held.emptied self.old }
    {
        self.forget_talls();
        for number in 0..self.grid.placed.len() {
            self.read_height(number);
        }
    }

    /// How many lines rows have that were added to them.
    #[tactic(auto, using(crate::proofs::Nexts::added_next))]
    fn lines_added(&self, first: usize, last: usize) -> usize
        ensures { result ≡ specs.lines_added (sum last 1 - first) self.now first 0 }
    {
        let mut lines: usize = 0;
        for number in first..last.saturating_add(1) {
            lines = lines.saturating_add(self.tall(number).more);
        }
        lines
    }

    /// How many lines the rows take over which a field goes on, by lines that were counted before some were added.
    fn lines_over(&self, cell: Cell) -> usize
        ensures { result ≡ specs.lines_over self.now cell }
    {
        let top = self.row_line(cell.top);
        let between = self.row_line(cell.bottom).saturating_sub(top);
        let added = self.lines_added(cell.top, cell.bottom);
        let last = self.tall(cell.bottom).height;
        between.saturating_add(added).saturating_add(last)
    }

    /// So many lines more for a row.
    fn add_lines(&mut self, row: usize, lines: usize)
        ensures value { self.new ≡ specs.lines_given lines row self.old }
        ensures room { held.emptied self.new ≡ held.emptied self.old }
    {
        let tall = self.tall(row);
        let more = tall.more.saturating_add(lines);
        set_item(&mut self.talls, row, Tall { more, ..tall });
    }

    /// How many lines a block has more than the rows over which it goes on.
    fn missing(&self, cell: Cell) -> usize
        ensures { result ≡ specs.missing self.now cell }
    {
        self.grid
            .height_of(&cell)
            .saturating_sub(self.lines_over(cell))
    }

    /// A block that goes on over rows below makes the last of them higher, if they have fewer lines.
    fn raise_below(&mut self, cell: Cell)
        ensures value { self.new ≡ specs.raised_below cell self.old }
        ensures room { held.emptied self.new ≡ held.emptied self.old }
    {
        let missing = self.missing(cell);
        if missing == 0 {
            return;
        }
        self.add_lines(cell.bottom, missing);
    }

    /// So does this one, if it is such.
    fn raise_at(&mut self, number: usize)
        ensures value { self.new ≡ specs.raised_at number self.old }
        ensures room { held.emptied self.new ≡ held.emptied self.old }
    {
        let cell = self.grid.cell_of(number);
        if !is_falling_block(&cell) {
            return;
        }
        self.raise_below(cell);
    }

    /// So do all of these.
    fn raise_rows(&mut self)
        ensures value { self.new ≡ specs.rows_raised self.old }
        ensures room { held.emptied self.new ≡ held.emptied self.old }
    {
        for number in 0..self.grid.cells.len() {
            self.raise_at(number);
        }
    }

    /// Rows have their heights by their own fields; tells how many lines there are.
    fn settle_first_heights(&mut self, ends: bool) -> usize
        ensures value { self.new ≡ specs.first_heights ends self.old }
        ensures lines { result ≡ lines_taken ends (specs.heights_read self.old) }
        ensures room { held.emptied self.new ≡ held.emptied self.old }
    {
        self.read_heights();
        self.take_steps(ends)
    }

    /// Whether no field is set in lines.
    fn has_no_texts(&self) -> bool
        ensures { result ≡ (length self.now.grid.texts.items == 0) }
    {
        self.grid.texts.len() == 0
    }

    /// How many lines rows take, and all of them together.
    pub(crate) fn settle_heights(&mut self, ends: bool) -> usize
        ensures value { self.new ≡ specs.heights_settled ends self.old }
        ensures lines { result ≡ specs.all_lines ends self.old }
        ensures room { held.emptied self.new ≡ held.emptied self.old }
    {
        let none = self.has_no_texts();
        let lines = self.settle_first_heights(ends);
        if none {
            return lines;
        }
        self.raise_rows();
        self.take_steps(ends)
    }

    /// The line after a row.
    pub(crate) fn row_end(&self, row: usize) -> usize
        ensures { result ≡ specs.row_end self.now row }
    {
        self.row_line(row).saturating_add(self.tall(row).lines())
    }

    /// The line on which a field is to begin that goes on over rows below.
    fn line_wanted(&self, cell: Cell) -> usize
        ensures { result ≡ specs.line_wanted self.now cell }
    {
        let top = self.row_line(cell.top);
        let free = self
            .row_end(cell.bottom)
            .saturating_sub(top)
            .saturating_sub(self.grid.height_of(&cell));
        match cell.key.stand {
            Stand::Top => top,
            Stand::Middle => top.saturating_add(free / 2),
            Stand::Low => top.saturating_add(free),
        }
    }

    /// The line on which it begins: one of text beside its rows.
    fn falling_line(&self, number: usize, cell: Cell) -> usize
        ensures { result ≡ specs.falling_line self.now number cell }
    {
        let wanted = self.line_wanted(cell);
        match cell.block {
            Some(_) => wanted,
            None => self.line_up_to(number, cell, wanted),
        }
    }

    /// The line on which a field begins.
    fn line_of(&self, number: usize) -> usize
        ensures { result ≡ specs.line_of self.now number }
    {
        let cell = self.grid.cell_of(number);
        if cell.falls {
            self.falling_line(number, cell)
        } else {
            self.row_line(cell.top)
        }
    }

    /// No fields begin.
    fn forget_begins(&mut self)
        ensures value { self.new ≡ specs.without_begins self.old }
        ensures room { held.emptied self.new ≡ held.emptied self.old }
    {
        self.begins.clear();
    }

    /// A field begins on its line.
    fn settle_line(&mut self, number: usize)
        ensures value { self.new ≡ specs.line_settled number self.old }
        ensures room { held.emptied self.new ≡ held.emptied self.old }
    {
        let line = self.line_of(number);
        add_item(&mut self.begins, line);
    }

    /// The lines on which fields begin.
    pub(crate) fn settle_lines(&mut self)
        ensures value { self.new ≡ specs.lines_settled self.old }
        ensures room { held.emptied self.new ≡ held.emptied self.old }
    {
        self.forget_begins();
        for number in 0..self.grid.cells.len() {
            self.settle_line(number);
        }
    }

    /// The last row over which a field of a row goes on.
    #[tactic(auto, using(crate::proofs::Nexts::lowest_next))]
    pub(crate) fn last_below(&self, number: usize) -> usize
        ensures { result ≡ specs.last_below self.now number }
    {
        let row = self.grid.placed(number);
        let mut last = number;
        for cell in row.cells..row.cells_end {
            last = self.grid.cell_of(cell).bottom.max(last);
        }
        last
    }
}
