//! A table with its fields in columns, as it is held while it is measured.

ghost use Rattle.std.specs.Prelude.{◌≡◌, ◌+◌, IfOk};
ghost use Rattle.tbl_columns.specs.Held as held;

use super::registers::Register;
use nr_vectors::{CountedAlloc, FixedVec};
use std::alloc::AllocError;
use tbl_blocks::Blocks;
use tbl_table::{COLUMNS, Field, Key, Signs, Span, Table, item_at};

/// The space after a column where no number gives another.
const GAP: usize = 3;

/// The greatest number of strings of a page that are known.
const STRINGS: usize = 64;

/// The greatest number of registers of a page that are known.
const REGISTERS: usize = 64;

/// A field in its place.
#[derive(Clone, Copy)]
pub struct Cell {
    /// The field.
    pub field: Field,
    /// Its key.
    pub key: Key,
    /// Its first column.
    pub first: usize,
    /// Its last one.
    pub last: usize,
    /// Its first row.
    pub top: usize,
    /// Its last one.
    pub bottom: usize,
    /// It goes on over rows below, which may take no room.
    pub falls: bool,
    /// How many cells of the page its text takes, or the widest of its lines.
    pub width: usize,
    /// That is known: nothing in it is what only the formatter knows.
    pub sure: bool,
    /// The number of its block, if it is set in lines.
    pub block: Option<usize>,
}

/// A text that is set in lines.
#[derive(Clone, Copy)]
pub struct Block {
    /// Its first part.
    pub first: usize,
    /// After its last one.
    pub end: usize,
    /// Its first line.
    pub line: usize,
    /// After its last one.
    pub line_end: usize,
    /// How many lines of the page it takes.
    pub rows: usize,
    /// The least width in which its lines fit.
    pub word: usize,
    /// Its full lines are spread.
    pub spread: bool,
    /// It defines strings or registers.
    pub defines: bool,
}

/// Where a row's fields stand.
#[derive(Clone, Copy)]
pub struct Placed {
    /// The first of its fields that stands in no column.
    pub beyond: usize,
    /// Its first cell.
    pub cells: usize,
    /// After its last one.
    pub cells_end: usize,
    /// A field of it is its own: it takes room.
    pub own: bool,
    /// The last row that takes room, from this one upward.
    pub last_own: usize,
}

/// A column.
#[derive(Clone, Copy)]
pub struct Column {
    /// Its width.
    pub width: usize,
    /// What `w` says.
    pub least: Option<Span>,
    /// That in cells, or 0.
    pub least_cells: usize,
    /// The greatest width of fields of `a`.
    pub alpha: usize,
    /// There is one.
    pub alphas: bool,
    /// The most that stands before the place where numbers are aligned.
    pub prefix: usize,
    /// And after it.
    pub back: usize,
    /// There are numbers.
    pub numbers: bool,
    /// The space after it.
    pub gap: usize,
    /// How far in that space bars stand.
    pub bar_in: usize,
    /// `e`
    pub equal: bool,
    /// `x`
    pub wide: bool,
    /// Where it begins.
    pub left: usize,
    /// Where it ends.
    pub right: usize,
    /// Where bars before the next one stand.
    pub bar: usize,
}

/// The line in which tables stand.
#[derive(Clone, Copy)]
pub struct Room {
    /// How long it is, with its indent.
    pub line: usize,
    /// What it is indented.
    pub indent: usize,
    /// Tables that are wider are narrowed.
    pub fits: bool,
}

/// The spaces at the edges of a table that is as wide as the line.
#[derive(Clone, Copy)]
pub struct Edges {
    pub left: usize,
    pub right: usize,
}

/// A table with its fields in columns.
#[derive(Drop)]
pub struct Grid {
    pub table: Table,
    /// The words and the lines of its blocks.
    pub blocks: Blocks,
    pub cells: FixedVec<Cell>,
    /// The number of the cell in each column of each row.
    pub numbers: FixedVec<usize>,
    /// Where each row's fields stand.
    pub placed: FixedVec<Placed>,
    pub columns: FixedVec<Column>,
    pub texts: FixedVec<Block>,
    /// The registers that the page sets.
    pub registers: FixedVec<Register>,
    pub room: Room,
    /// Full lines of blocks are spread, where these don't say otherwise.
    pub spreads: bool,
    /// It is narrowed: fields that are wider than their columns are set in lines.
    pub narrowed: bool,
    pub edges: Edges,
}

impl Cell {
    /// One without text.
    pub fn empty() -> Cell
        ensures { result ≡ held.no_cell }
    {
        Cell {
            field: Field::empty(),
            key: Key::usual(),
            first: 0,
            last: 0,
            top: 0,
            bottom: 0,
            falls: false,
            width: 0,
            sure: true,
            block: None,
        }
    }
}

impl Block {
    /// One without lines.
    pub fn empty() -> Block
        ensures { result ≡ held.no_block }
    {
        Block {
            first: 0,
            end: 0,
            line: 0,
            line_end: 0,
            rows: 0,
            word: 0,
            spread: false,
            defines: false,
        }
    }
}

impl Placed {
    /// A row without fields.
    pub fn empty() -> Placed
        ensures { result ≡ held.no_place }
    {
        Placed {
            beyond: 0,
            cells: 0,
            cells_end: 0,
            own: true,
            last_own: 0,
        }
    }
}

impl Column {
    /// One without fields.
    pub(crate) fn fresh() -> Column
        ensures { result ≡ held.fresh }
    {
        Column {
            width: 0,
            least: None,
            least_cells: 0,
            alpha: 0,
            alphas: false,
            prefix: 0,
            back: 0,
            numbers: false,
            gap: GAP,
            bar_in: GAP / 2,
            equal: false,
            wide: false,
            left: 0,
            right: 0,
            bar: 0,
        }
    }
}

impl Edges {
    /// None.
    fn none() -> Edges
        ensures { result ≡ held.no_edges }
    {
        Edges { left: 0, right: 0 }
    }
}

impl Grid {
    /// Takes the memory for a table of so many bytes, whose rows have so many at most, and which is drawn with these.
    pub fn new(
        alloc: &mut CountedAlloc,
        most: usize,
        row: usize,
        signs: Signs,
        room: Room,
    ) -> Result<Grid, AllocError>
        ensures value { IfOk result (λ made. made ≡ held.first_grid signs room most row) }
        ensures taken { IfOk result (λ made. alloc.new ≡ alloc.old + held.memory_of most row) }
    {
        let bytes = most.saturating_add(row).saturating_add(64);
        let rows = most / COLUMNS + 2;
        let cells = rows.saturating_mul(COLUMNS);
        let numbers = FixedVec::new(alloc, cells)?;
        let placed = FixedVec::new(alloc, rows)?;
        let columns = FixedVec::new(alloc, COLUMNS)?;
        let texts = FixedVec::new(alloc, cells)?;
        let registers = FixedVec::new(alloc, REGISTERS)?;
        let cells = FixedVec::new(alloc, cells)?;
        let blocks = Blocks::new(alloc, bytes, bytes, STRINGS)?;
        // Last, as it has the most parts: what may fail after it would give each back.
        let table = Table::new(alloc, most, row, signs)?;
        Ok(Grid {
            table,
            blocks,
            cells,
            numbers,
            placed,
            columns,
            texts,
            registers,
            room,
            spreads: true,
            narrowed: false,
            edges: Edges::none(),
        })
    }

    /// A table begins: nothing is held of another.
    pub fn begin(&mut self)
        ensures value { self.new ≡ held.begun self.old }
        ensures room { held.emptied self.new ≡ held.emptied self.old }
    {
        self.table.begin();
        self.columns.clear();
        self.narrowed = false;
        self.edges = Edges::none();
        self.forget_cells();
    }

    /// Its rows are forgotten.
    pub fn forget_rows(&mut self)
        ensures value { self.new ≡ held.forgotten self.old }
        ensures room { held.emptied self.new ≡ held.emptied self.old }
    {
        self.table.forget_rows();
        self.forget_cells();
    }

    /// Fields have no places.
    pub(crate) fn forget_cells(&mut self)
        ensures value { self.new ≡ held.forgotten_cells self.old }
        ensures room { held.emptied self.new ≡ held.emptied self.old }
    {
        self.cells.clear();
        self.numbers.clear();
        self.placed.clear();
        self.texts.clear();
        self.blocks.clear();
    }

    /// A cell, by its number.
    pub fn cell_of(&self, number: usize) -> Cell
        ensures { result ≡ held.cell_of self.now number }
    {
        item_at(&self.cells, number, Cell::empty())
    }

    /// Where a row's fields stand.
    pub fn placed(&self, row: usize) -> Placed
        ensures { result ≡ held.placed self.now row }
    {
        item_at(&self.placed, row, Placed::empty())
    }

    /// A column.
    pub fn column(&self, number: usize) -> Column
        ensures { result ≡ held.column self.now number }
    {
        item_at(&self.columns, number, Column::fresh())
    }

    /// A text that is set in lines.
    pub fn text(&self, number: usize) -> Block
        ensures { result ≡ held.text self.now number }
    {
        item_at(&self.texts, number, Block::empty())
    }

    /// A field's block, if it is set in lines.
    pub fn block_of(&self, cell: &Cell) -> Option<Block>
        ensures { result ≡ held.block_of self.now cell.now }
    {
        match cell.block {
            Some(number) => Some(self.text(number)),
            None => None,
        }
    }

    /// How many lines of the page a field takes.
    pub fn height_of(&self, cell: &Cell) -> usize
        ensures { result ≡ held.height_of self.now cell.now }
    {
        match self.block_of(cell) {
            Some(block) => block.rows,
            None => 1,
        }
    }
}
