//! Text blocks, and fields that have become such: their words are read, and their lines filled.

ghost use Rattle.std.specs.Prelude.{◌≡◌};
ghost use Rattle.tbl_columns.specs.Held as held;
ghost use Rattle.tbl_columns.specs.Texts as specs;

use super::columns::parts_end;
use super::grid::{Block, Cell, Column, Grid};
use tbl_blocks::{Font, Line, Seen};
use tbl_table::{Form, add_item, set_item};

/// The font of a field: that of its column, or roman.
fn font_of(cell: &Cell) -> Font
    ensures { result ≡ specs.font_of cell.now }
{
    cell.key.font.unwrap_or(Font::Roman)
}

impl Grid {
    /// The parts from one on are those of a field, whose lines are no narrower than this.
    fn add_text(&mut self, number: usize, first: usize, word: usize, seen: Seen)
        ensures value { self.new ≡ specs.text_added number first word seen self.old }
        ensures room { held.emptied self.new ≡ held.emptied self.old }
    {
        let cell = self.cell_of(number);
        let block = Some(self.texts.len());
        let text = Block {
            first,
            end: self.blocks.parts.len(),
            word,
            spread: seen.spread,
            defines: seen.defines,
            ..Block::empty()
        };
        add_item(&mut self.texts, text);
        let sure = cell.sure && seen.sure;
        set_item(
            &mut self.cells,
            number,
            Cell {
                block,
                sure,
                ..cell
            },
        );
    }

    /// The words of a block are read.
    fn read_block(&mut self, number: usize, cell: Cell)
        ensures value { self.new ≡ specs.read_block number cell self.old }
        ensures room { held.emptied self.new ≡ held.emptied self.old }
    {
        let first = self.blocks.parts.len();
        let text = self.table.bytes(cell.field.span);
        let font = font_of(&cell);
        let seen = self
            .blocks
            .read_block(text, cell.field.span.start, font, self.spreads);
        let end = self.blocks.parts.len();
        let word = self.blocks.longest_run(first.min(end), end);
        self.add_text(number, first, word, seen);
    }

    /// The words of a field of text are read.
    pub(crate) fn read_words(&mut self, number: usize, cell: Cell)
        ensures value { self.new ≡ specs.read_words number cell self.old }
        ensures room { held.emptied self.new ≡ held.emptied self.old }
    {
        let first = self.blocks.parts.len();
        let text = self.table.bytes(cell.field.span);
        let font = font_of(&cell);
        let seen = self.blocks.read_field(text, cell.field.span.start, font);
        let end = self.blocks.parts.len();
        let word = self.blocks.longest_word(first.min(end), end);
        self.add_text(number, first, word, seen);
    }

    /// The words of all blocks are read.
    #[tactic(auto, using(crate::proofs::Turns::one_more))]
    pub(crate) fn read_blocks(&mut self)
        ensures value { self.new ≡ specs.blocks_read self.old }
        ensures room { held.emptied self.new ≡ held.emptied self.old }
    {
        for number in 0..self.cells.len() {
            let cell = self.cell_of(number);
            if matches!(cell.field.form, Form::Block) {
                self.read_block(number, cell);
            }
        }
    }

    /// The widest of the lines from one on.
    fn widest_line(&self, first: usize) -> usize
        ensures { result ≡ specs.widest_line (specs.lines_from first self.now) }
    {
        let mut most = 0;
        for number in first..self.blocks.lines.len() {
            let line = self.blocks.lines.get(number);
            most = line.cells.saturating_add(line.lack).max(most);
        }
        most
    }

    /// How many lines of the page those from one on take: empty ones stand before some of them.
    fn rows_from(&self, first: usize) -> usize
        ensures { result ≡ specs.rows_of (specs.lines_from first self.now) }
    {
        let lines = self.blocks.lines.len();
        if first < lines {
            self.blocks.lines.get(lines - 1).row.saturating_add(1)
        } else {
            0
        }
    }

    /// The line of a block that stands in a row of it, if one does: empty ones stand before some of them.
    pub fn line_in_row(&self, block: Block, row: usize) -> Option<Line>
        ensures { result ≡ specs.line_in_row self.now block row }
    {
        let count = block.line_end.saturating_sub(block.line);
        let most = count.min(row.saturating_add(1));
        for back in 0..most {
            let number = block.line.saturating_add(most - 1 - back);
            if number >= self.blocks.lines.len() {
                return None;
            }
            let line = self.blocks.lines.get(number);
            if line.row <= row {
                return if line.row == row { Some(line) } else { None };
            }
        }
        None
    }

    /// The lines of a block are added, in so many cells.
    fn fill_lines(&mut self, block: Block, width: usize)
        ensures value { self.new ≡ specs.text_lines block width self.old }
        ensures room { held.emptied self.new ≡ held.emptied self.old }
    {
        let end = block.end.min(self.blocks.parts.len());
        let first = block.first.min(end);
        self.blocks.fill(first, end, width, block.spread);
    }

    /// A block with its lines, from one on.
    fn with_lines(&self, first: usize, block: Block) -> Block
        ensures { result ≡ specs.with_lines first block self.now }
    {
        Block {
            line: first,
            line_end: self.blocks.lines.len(),
            rows: self.rows_from(first),
            ..block
        }
    }

    /// The lines from one on are those of a field's block.
    fn count_lines(&mut self, number: usize, place: usize, first: usize, block: Block)
        ensures value { self.new ≡ specs.lines_counted number place first block self.old }
        ensures room { held.emptied self.new ≡ held.emptied self.old }
    {
        let width = self.widest_line(first);
        let cell = self.cell_of(number);
        let filled = self.with_lines(first, block);
        set_item(&mut self.texts, place, filled);
        set_item(&mut self.cells, number, Cell { width, ..cell });
    }

    /// A block is filled in so many cells.
    fn fill_text(&mut self, number: usize, place: usize, width: usize)
        ensures value { self.new ≡ specs.filled_text number place width self.old }
        ensures room { held.emptied self.new ≡ held.emptied self.old }
    {
        let block = self.text(place);
        let first = self.blocks.lines.len();
        self.fill_lines(block, width);
        self.count_lines(number, place, first, block);
    }

    /// A field that is set in lines is filled in columns of so many cells.
    pub(crate) fn fill_cell(&mut self, number: usize, width: usize)
        ensures value { self.new ≡ specs.filled_cell number width self.old }
        ensures room { held.emptied self.new ≡ held.emptied self.old }
    {
        let cell = self.cell_of(number);
        if let Some(place) = cell.block {
            self.fill_text(number, place, width.saturating_sub(cell.beside()));
        }
    }

    /// The column of a block is as wide as it at least, or its columns together.
    pub(crate) fn count_block(&mut self, number: usize)
        ensures value { self.new ≡ specs.counted_cell number self.old }
        ensures room { held.emptied self.new ≡ held.emptied self.old }
    {
        let cell = self.cell_of(number);
        if cell.spans() {
            return self.widen(cell.first, cell.last, cell.needs());
        }
        let column = self.column(cell.first);
        let width = column.width.max(cell.needs());
        set_item(&mut self.columns, cell.first, Column { width, ..column });
    }

    /// Whether a field stands in a column that shares the line.
    #[tactic(auto, using(crate::proofs::Nexts::wide_next))]
    fn is_wide(&self, cell: Cell) -> bool
        ensures { result ≡ specs.is_wide self.now cell }
    {
        for number in cell.first..cell.last.saturating_add(1) {
            if self.column(number).wide {
                return true;
            }
        }
        false
    }

    /// Whether all columns of a field have a width.
    #[tactic(auto, using(crate::proofs::Nexts::given_next))]
    fn is_given(&self, cell: Cell) -> bool
        ensures { result ≡ specs.has_width self.now cell }
    {
        for number in cell.first..cell.last.saturating_add(1) {
            if self.column(number).least.is_none() {
                return false;
            }
        }
        true
    }

    /// The share of the line that a block takes where no column says it.
    fn share_of(&self, cell: Cell) -> usize
        ensures { result ≡ specs.share_of self.now cell }
    {
        if self.is_given(cell) || self.is_wide(cell) {
            return 0;
        }
        let columns = cell.last.saturating_add(1).saturating_sub(cell.first);
        let all = self.columns.len().saturating_add(1);
        parts_end(self.room.line, columns, all)
    }

    /// How wide a block is filled: as its columns are without it, and as its share.
    fn fill_width(&self, cell: Cell) -> usize
        ensures { result ≡ specs.fill_width self.now cell }
    {
        self.span_width(cell.first, cell.last)
            .max(self.share_of(cell))
    }

    /// Whether a field is a block that is filled now: over several columns or not, before the sharing or after it.
    fn is_pending(&self, cell: Cell, spans: bool, wide: bool) -> bool
        ensures { result ≡ specs.is_pending self.now cell spans wide }
    {
        cell.block.is_some() && cell.spans() == spans && self.is_wide(cell) == wide
    }

    /// A block is filled, as wide as its columns have become, if it is its turn.
    fn fill_if_pending(&mut self, number: usize, spans: bool, wide: bool)
        ensures value { self.new ≡ specs.filled_at spans wide number self.old }
        ensures room { held.emptied self.new ≡ held.emptied self.old }
    {
        let cell = self.cell_of(number);
        if self.is_pending(cell, spans, wide) {
            self.fill_cell(number, self.fill_width(cell));
            self.count_block(number);
        }
    }

    /// Blocks of one column are filled, or those over several.
    #[tactic(auto, using(crate::proofs::Turns::one_more))]
    fn fill_some(&mut self, spans: bool, wide: bool)
        ensures value { self.new ≡ specs.filled_some spans wide self.old }
        ensures room { held.emptied self.new ≡ held.emptied self.old }
    {
        for number in 0..self.cells.len() {
            self.fill_if_pending(number, spans, wide);
        }
    }

    /// Blocks of columns that share the line are filled, or all others.
    pub(crate) fn fill_blocks(&mut self, wide: bool)
        ensures value { self.new ≡ specs.filled_blocks wide self.old }
        ensures room { held.emptied self.new ≡ held.emptied self.old }
    {
        if self.texts.len() == 0 {
            return;
        }
        self.fill_some(false, wide);
        self.fill_some(true, wide);
    }

    /// A block is filled in its columns, or where these are narrower than its words, as wide as they are.
    fn fill_within(&mut self, number: usize)
        ensures value { self.new ≡ specs.filled_within number self.old }
        ensures room { held.emptied self.new ≡ held.emptied self.old }
    {
        let cell = self.cell_of(number);
        if let Some(block) = self.block_of(&cell) {
            let columns = self.span_width(cell.first, cell.last);
            let least = block.word.saturating_add(cell.beside());
            self.fill_cell(number, columns.max(least));
        }
    }

    /// The lines of all blocks, in columns that have their width.
    #[tactic(auto, using(crate::proofs::Turns::one_more))]
    pub(crate) fn fill_all_within(&mut self)
        ensures value { self.new ≡ specs.all_filled_within self.old }
        ensures room { held.emptied self.new ≡ held.emptied self.old }
    {
        self.blocks.clear_lines();
        for number in 0..self.cells.len() {
            self.fill_within(number);
        }
    }
}
