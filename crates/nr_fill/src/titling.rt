// Reading a title, and setting it. (CSTR 54, section 14.)
ghost use Rattle.std.specs.Prelude.{◌≡◌, ◌+◌, ◌≤◌, OnOk, OnErr};
ghost use Rattle.nr_fill.specs.Line.{afforded};
ghost use Rattle.nr_fill.specs.Piece.{with_part_ended, with_title, with_title_cell, without_title};
ghost use Rattle.nr_fill.specs.Title.{titled_row};

use crate::cells::CellSink;
use crate::line::{Line, LineCells};
use crate::title::{TitleParts, TitleState, set_parts};
use nr_vectors::cell::Cell;

impl Line {
    /// A title begins with its left part, which has no cells yet. It shares the line's cells: what is added to the
    /// line while a title is read gives the title up.
    ///
    /// Proved: A title is read part by part and set with its three parts in their places. (`Line::{begin_title,
    /// put_title, end_part, set_title}`)
    pub fn begin_title(&mut self)
        ensures { self.new ≡ record self.old { collected = with_title self.old.collected } }
    {
        self.row.clear_title();
        self.title = Some(TitleState::Left);
    }

    /// Reads a cell of the title, where one is being read. It fails where the cell would pass the limit.
    pub fn put_title(&mut self, cell: Cell) -> Result<(), LineCells>
        ensures result { result
            ≡ afforded (record self.old { collected = with_title_cell cell self.old.collected }) }
        ensures ok { OnOk result (self.new ≡ record self.old
            { collected = with_title_cell cell self.old.collected }) }
        ensures err { OnErr result (self.new ≡ self.old) }
    {
        let Some(_title) = self.title else {
            return Ok(());
        };
        if self.measure() == self.limit {
            return Err(LineCells);
        }
        self.row.push_title(cell);
        Ok(())
    }

    /// The part of the title that is being read ends: the next one begins, the right one goes on.
    pub fn end_part(&mut self)
        ensures { self.new ≡ record self.old { collected = with_part_ended self.old.collected } }
    {
        let Some(title) = self.title else {
            return;
        };
        self.title = Some(title.next(self.row.title_len()));
    }

    /// Sets the title in a row after what stands there, `length` cells long and `offset` cells on, and is done with
    /// it. Without a title there are the `offset` blanks alone.
    pub fn set_title<S: CellSink>(&mut self, length: u32, offset: u32, out: &mut S)
        ensures out { S.Adds out.old (titled_row offset length self.old.collected.title) out.new }
        ensures rest { self.new ≡ record self.old { collected = without_title self.old.collected } }
    {
        let parts = TitleParts::of(self.title, self.row.title());
        out.blanks(offset as usize);
        set_parts(parts, length as usize, out);
        self.row.clear_title();
        self.title = None;
    }
}
