//! A table as it is set, and the page around it.
ghost use Rattle.std.specs.Prelude.{◌≡◌, ◌+◌, IfOk, true};
ghost use Rattle.tbl_columns.specs.Held.{no_room};
ghost use Rattle.tbl_drawing.specs.Tapes.{Draws};
ghost use Rattle.tbl_setting.specs.Held as specs;
ghost use Rattle.tbl_setting.specs.Setting as setting;

use super::hearing::add_empty;
use super::watching::Watch;
use nr_units::sink::Sink;
use nr_vectors::CountedAlloc;
use std::alloc::AllocError;
use tbl_columns::Room;
use tbl_drawing::{Layout, Out};
use tbl_table::{Signs, Table};

/// The table that is held, and what is known of the page.
#[derive(Drop)]
pub struct Setting {
    pub(crate) layout: Layout,
    /// What lines outside of tables say of those that follow.
    pub(crate) watch: Watch,
    /// How many cells a line has where the page doesn't say it.
    pub(crate) cells: usize,
    /// Tables of manual pages that are wider than the line are narrowed.
    pub(crate) fits: bool,
    /// On which line of the input the table begins, with `.TS`.
    pub(crate) begun: u64,
    /// A part of it that went out is wider than the line.
    pub(crate) wide: bool,
}

/// A line of which nothing was heard.
fn unknown_room() -> Room
    ensures { result ≡ no_room }
{
    Room {
        line: 0,
        indent: 0,
        fits: false,
    }
}

impl Setting {
    /// Takes the memory: for a table of so many bytes, of which rows have so many at most, which is drawn with these, in lines of
    /// so many cells. Tables of manual pages are narrowed.
    ///
    /// Proved: Tables are set in as many elements of memory as their limits ask for, by the count of the allocator. (`taken` of
    /// what `Setting::new` ensures)
    pub fn new(
        alloc: &mut CountedAlloc,
        most: usize,
        row: usize,
        signs: Signs,
        cells: usize,
    ) -> Result<Setting, AllocError>
        ensures value { IfOk result (λ made. made ≡ specs.first_setting signs most row cells true) }
        ensures taken { IfOk result (λ made. alloc.new ≡ alloc.old + specs.memory_of most row) }
    {
        let layout = Layout::new(alloc, most, row, signs, unknown_room())?;
        let watch = Watch::new(alloc, cells)?;
        Ok(Setting {
            layout,
            watch,
            cells,
            fits: true,
            begun: 0,
            wide: false,
        })
    }

    /// Tables of manual pages that are wider than the line are narrowed, or stay as they are.
    pub fn set_fits(&mut self, fits: bool)
        ensures { self.new ≡ specs.with_fits fits self.old }
    {
        self.fits = fits;
    }

    /// A page begins: nothing is held of another.
    ///
    /// Proved: The next page is set in the same room, from a table that holds nothing: nothing is known of the page before.
    /// (`Setting::begin_page`)
    pub fn begin_page(&mut self)
        ensures { self.new ≡ specs.emptied self.old }
    {
        self.layout.begin_page();
        self.layout.grid.blocks.strings.clear();
        self.layout.grid.registers.clear();
        self.layout.grid.room = unknown_room();
        self.layout.grid.spreads = true;
        self.watch.begin(self.cells);
        self.begun = 0;
        self.wide = false;
    }

    /// A table begins, with `.TS` on this line of the input, in the line of the page of which was heard.
    pub(crate) fn begin_table(&mut self, line: u64)
        ensures value { self.new ≡ specs.table_begun line self.old }
        ensures room { specs.emptied self.new ≡ specs.emptied self.old }
    {
        self.layout.begin();
        self.layout.grid.spreads = self.watch.spreads();
        self.layout.grid.room = self.watch.room(self.fits);
        self.begun = line;
        self.wide = false;
    }

    /// Lines outside of tables pass.
    pub fn hear(&mut self, text: &[u8])
        ensures value { self.new ≡ specs.page_heard text.now self.old }
        ensures room { specs.emptied self.new ≡ specs.emptied self.old }
    {
        self.watch.hear(text, &mut self.layout.grid);
    }

    /// The table.
    pub(crate) fn table(&self) -> &Table
        ensures { result.now ≡ specs.table self.now }
    {
        &self.layout.grid.table
    }

    /// A byte of a block is held.
    pub(crate) fn add_byte(&mut self, byte: u8)
        ensures value { self.new ≡ setting.byte_held byte self.old }
        ensures room { specs.emptied self.new ≡ specs.emptied self.old }
    {
        self.layout.grid.table.add_text(byte);
    }

    /// The row ends with what was read of a block.
    pub(crate) fn cut_off(&mut self)
        ensures value { self.new ≡ setting.cut_off self.old }
        ensures room { specs.emptied self.new ≡ specs.emptied self.old }
    {
        self.layout.grid.table.block_ends();
        self.layout.grid.table.end_row();
    }

    /// The block goes on in a column of the next row.
    pub(crate) fn go_on(&mut self, column: usize)
        ensures value { self.new ≡ setting.block_goes_on column self.old }
        ensures room { specs.emptied self.new ≡ specs.emptied self.old }
    {
        add_empty(column, &mut self.layout.grid.table);
        self.layout.grid.table.text_begins();
    }

    /// Whether the table that went out last is wider than its line.
    fn is_wide(&self) -> bool
        ensures { result ≡ specs.is_wide self.now.layout }
    {
        self.layout.grid.end() > self.layout.grid.line_room()
    }

    /// The table goes out, or the part of it that was read.
    pub(crate) fn put_table<W: Sink>(&mut self, ends: bool, out: &mut Out<'_, W>)
        ensures draws { Draws out.old out.new (specs.table_strokes ends self.old) }
        ensures value { self.new ≡ specs.table_set ends self.old }
        ensures room { specs.emptied self.new ≡ specs.emptied self.old }
    {
        let _ = self.layout.put_table(ends, out);
        let is_wide = self.is_wide();
        self.wide = self.wide || is_wide;
    }

    /// Whether a table of the page went out in parts whose columns may differ.
    pub fn is_uneven(&self) -> bool
        ensures { result ≡ self.now.layout.uneven }
    {
        self.layout.is_uneven()
    }
}
