//! A table that is wider than the line is narrowed, so that it fits: a cell is taken from the widest column, again and again,
//! as long as it is wider than its longest word. Fields that are wider than their columns then are set in lines. A rule or a
//! bar at its end has room, too.

ghost use Rattle.std.specs.Prelude.{◌≡◌, ◌<◌, ℕ, Some, get_or, length};
ghost use Rattle.tbl_columns.specs.Held as held;
ghost use Rattle.tbl_columns.specs.Narrow as specs;

use super::grid::{Cell, Column, Grid};
use tbl_table::{COLUMNS, Form, set_item};

/// Whether a text has a blank.
fn has_blank(text: &[u8]) -> bool
    ensures { result ≡ specs.has_blank text.now }
{
    for byte in text {
        if *byte == b' ' {
            return true;
        }
    }
    false
}

impl Grid {
    /// Whether a field is text of more than one word, which may be set in lines.
    fn may_break(&self, cell: Cell) -> bool
        ensures { result ≡ specs.may_break self.now cell }
    {
        cell.measures() && !cell.is_number() && has_blank(self.table.bytes(cell.field.span))
    }

    /// The words of all such fields are read.
    #[tactic(auto, using(crate::proofs::Turns::one_more))]
    pub(crate) fn read_long_fields(&mut self)
        ensures value { self.new ≡ specs.long_fields_read self.old }
        ensures room { held.emptied self.new ≡ held.emptied self.old }
    {
        for number in 0..self.cells.len() {
            let cell = self.cell_of(number);
            if self.may_break(cell) {
                self.read_words(number, cell);
            }
        }
    }

    /// How narrow a field may be.
    fn least_of_cell(&self, cell: Cell) -> usize
        ensures { result ≡ specs.least_of_cell self.now cell }
    {
        match self.block_of(&cell) {
            Some(block) => block.word.saturating_add(cell.beside()),
            None if cell.measures() && !cell.is_number() => cell.needs(),
            None => 1,
        }
    }

    /// How narrow a column may be by its numbers.
    fn least_by_numbers(&self, number: usize) -> usize
        ensures { result ≡ specs.least_by_numbers self.now number }
    {
        let column = self.column(number);
        column.prefix.saturating_add(column.back).max(1)
    }

    /// How narrow columns may be by their numbers.
    fn leasts_by_numbers(&self) -> [usize; COLUMNS]
        ensures len { length result ≡ 64 }
        ensures leasts { (c : ℕ) → c < 64 → get_or result c 0 ≡ specs.first_least self.now c }
    {
        let mut leasts = [1; COLUMNS];
        for number in 0..self.columns.len().min(COLUMNS) {
            leasts[number] = self.least_by_numbers(number);
        }
        leasts
    }

    /// A field counts for how narrow its column may be.
    fn count_least(&self, cell: Cell, leasts: &mut [usize; COLUMNS])
        requires { length leasts.old ≡ 64 }
        ensures len { length leasts.new ≡ 64 }
        ensures leasts { (c : ℕ) → c < 64 → get_or leasts.new c 0 ≡ specs.with_least self.now c cell (get_or leasts.old c 0) }
    {
        if cell.first < COLUMNS && !cell.spans() {
            leasts[cell.first] = self.least_of_cell(cell).max(leasts[cell.first]);
        }
    }

    /// How narrow columns may be.
    fn leasts(&self) -> [usize; COLUMNS]
        ensures { (c : ℕ) → c < 64 → get_or result c 0 ≡ specs.least self.now c }
    {
        let mut leasts = self.leasts_by_numbers();
        for number in 0..self.cells.len() {
            self.count_least(self.cell_of(number), &mut leasts);
        }
        leasts
    }

    /// The widest column that may be narrower, the first of several.
    #[tactic(auto, using(crate::proofs::Turns::one_more))]
    fn widest(&self, leasts: &[usize; COLUMNS]) -> Option<usize>
        ensures { result ≡ specs.widest self.now (λ c. get_or leasts.now c 0) }
    {
        let mut found = None;
        let mut most = 0;
        for number in 0..self.columns.len().min(COLUMNS) {
            let width = self.column(number).width;
            if width > leasts[number] && width > most {
                found = Some(number);
                most = width;
            }
        }
        found
    }

    /// A cell is taken from a column.
    fn take_cell(&mut self, number: usize)
        ensures value { self.new ≡ specs.taken_from (Some number) self.old }
        ensures room { held.emptied self.new ≡ held.emptied self.old }
    {
        let column = self.column(number);
        let width = column.width.saturating_sub(1);
        let alpha = column.alpha.min(width);
        set_item(
            &mut self.columns,
            number,
            Column {
                width,
                alpha,
                ..column
            },
        );
    }

    /// So many cells are taken from columns, as far as words allow.
    fn take_cells(&mut self, count: usize)
        ensures value { self.new ≡ specs.cells_taken count (specs.least self.old) self.old }
        ensures room { held.emptied self.new ≡ held.emptied self.old }
    {
        let leasts = self.leasts();
        for _ in 0..count {
            let Some(number) = self.widest(&leasts) else {
                return;
            };
            self.take_cell(number);
        }
    }

    /// A field of text that fits in its columns stays in one line.
    fn keep_line(&mut self, number: usize)
        ensures value { self.new ≡ specs.line_kept number self.old }
        ensures room { held.emptied self.new ≡ held.emptied self.old }
    {
        let cell = self.cell_of(number);
        let columns = self.span_width(cell.first, cell.last);
        if matches!(cell.field.form, Form::Text) && cell.needs() <= columns {
            let block = None;
            set_item(&mut self.cells, number, Cell { block, ..cell });
        }
    }

    /// So it is of all fields.
    #[tactic(auto, using(crate::proofs::Turns::one_more))]
    pub(crate) fn keep_lines(&mut self)
        ensures value { self.new ≡ specs.lines_kept self.old }
        ensures room { held.emptied self.new ≡ held.emptied self.old }
    {
        for number in 0..self.cells.len() {
            self.keep_line(number);
        }
    }

    /// Columns are as wide as the lines in them at least.
    #[tactic(auto, using(crate::proofs::Turns::one_more))]
    fn count_blocks(&mut self)
        ensures value { self.new ≡ specs.blocks_counted self.old }
        ensures room { held.emptied self.new ≡ held.emptied self.old }
    {
        for number in 0..self.cells.len() {
            if self.cell_of(number).block.is_some() {
                self.count_block(number);
            }
        }
    }

    /// The table is narrowed.
    fn make_narrow(&mut self, cells: usize)
        ensures value { self.new ≡ specs.made_narrow cells self.old }
        ensures room { held.emptied self.new ≡ held.emptied self.old }
    {
        self.narrowed = true;
        self.read_long_fields();
        self.take_cells(cells);
        self.keep_lines();
        self.fill_all_within();
        self.count_blocks();
        self.lay_out();
    }

    /// The table is narrowed, if it is wider than the line and may be.
    pub(crate) fn narrow(&mut self)
        ensures value { self.new ≡ specs.narrowed self.old }
        ensures room { held.emptied self.new ≡ held.emptied self.old }
    {
        let width = self.end();
        let room = self.line_room();
        if self.room.fits && !self.table.looks.nofit && width > room {
            self.make_narrow(width.saturating_add(1).saturating_sub(room));
        }
    }
}
