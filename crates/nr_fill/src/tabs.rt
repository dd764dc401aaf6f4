// Tabs and leaders. (CSTR 54, section 9.)
ghost use Rattle.std.specs.Prelude.{◌≡◌, ◌+◌, ◌≤◌, OnOk, OnErr};
ghost use Rattle.nr_fill.specs.Line.{afforded};
ghost use Rattle.nr_fill.specs.Piece.{in_word, text_cells};
ghost use Rattle.nr_fill.specs.Tabs.{before_stop, field_fill, fill_count, first_beyond, is_aligned, tabbed, with_field, with_field_filled};

use crate::line::{Line, LineCells};
use crate::margins::Margins;
use crate::stops::{Field, Pending, Stop, StopKind};
use nr_vectors::cell::Cell;

/// The first stop in the list beyond the column.
fn first_beyond(column: usize, stops: &[Stop]) -> Option<Stop>
    ensures { result ≡ first_beyond column stops.now }
{
    for stop in stops {
        if stop.column as usize > column {
            return Some(*stop);
        }
    }
    None
}

/// Whether a stop of this kind aligns the text after it, where stops align text at all.
fn aligns(kind: StopKind, aligned: bool) -> bool
    ensures { result ≡ is_aligned aligned kind }
{
    match kind {
        StopKind::Left => false,
        StopKind::Right | StopKind::Centre => aligned,
    }
}

/// How many of n cells stand before a stop of this kind.
fn cells_before(kind: StopKind, n: usize) -> usize
    ensures { result ≡ before_stop kind n }
{
    match kind {
        StopKind::Left => 0,
        StopKind::Right => n,
        StopKind::Centre => n / 2,
    }
}

impl Field {
    /// How many cells are filled in before a text of n.
    fn fill_count(self, n: usize) -> usize
        ensures { result ≡ fill_count self n }
    {
        self.width.saturating_sub(cells_before(self.kind, n))
    }
}

impl Line {
    /// Reads a tab or leader: as part of a word it moves to the first stop beyond the column, by cells `fill` as one
    /// addition. With `aligned`, as in no-fill mode, a right or centring stop instead takes the text up to the next
    /// tab, leader or line end; `end_field` is to be called there. It fails where the cells would pass the limit.
    pub fn tab(
        &mut self,
        margins: Margins,
        stops: &[Stop],
        aligned: bool,
        fill: Cell,
    ) -> Result<(), LineCells>
        ensures result { result
            ≡ afforded
            (record self.old { collected = tabbed margins stops.now aligned fill self.old.collected }) }
        ensures ok { OnOk result (self.new ≡ record self.old
            { collected = tabbed margins stops.now aligned fill self.old.collected }) }
        ensures err { OnErr result (self.new ≡ self.old) }
    {
        let column = self.column();
        let Some(stop) = first_beyond(column, stops) else {
            self.open_word(margins);
            return Ok(());
        };
        let width = (stop.column as usize).saturating_sub(column);
        if !aligns(stop.kind, aligned) {
            return self.put_cells(margins, fill, width);
        }
        self.open_word(margins);
        self.end_piece();
        self.begin_field(width, stop.kind, fill);
        Ok(())
    }

    /// The text for a stop begins.
    fn begin_field(&mut self, width: usize, kind: StopKind, fill: Cell)
        ensures { self.new ≡ record self.old
            { collected = in_word (with_field width kind fill) self.old.collected } }
    {
        self.row.clear_title();
        self.title = None;
        let Some(word) = &mut self.word else {
            return;
        };
        word.pending = Pending::ForStop(Field {
            before: self.row.last_len(),
            width,
            kind,
            fill,
        });
        word.blanks = 0;
    }

    /// The text for a right or centring stop, where one is being read, ends: as many cells as align it are filled in
    /// before it, as one addition. It fails where they would pass the limit.
    pub fn end_field(&mut self) -> Result<(), LineCells>
        ensures result { result
            ≡ afforded (record self.old { collected = with_field_filled self.old.collected }) }
        ensures ok { OnOk result (self.new ≡ record self.old
            { collected = with_field_filled self.old.collected }) }
        ensures err { OnErr result (self.new ≡ self.old) }
    {
        let n = self.field_fill();
        if n > self.limit - self.text_measure() {
            return Err(LineCells);
        }
        self.fill_field(n);
        Ok(())
    }

    /// How many cells the text for a stop is to be filled up by.
    fn field_fill(&self) -> usize
        ensures { result ≡ field_fill self.now.collected.word }
    {
        let Some(word) = self.word else {
            return 0;
        };
        let Pending::ForStop(field) = word.pending else {
            return 0;
        };
        field.fill_count(self.row.last_len() - field.before)
    }

    /// Fills the text for a stop up, by n cells.
    fn fill_field(&mut self, n: usize)
        requires count { n ≡ field_fill self.old.collected.word }
        requires room { text_cells self.old.collected + n ≤ self.old.limit }
        ensures { self.new ≡ record self.old { collected = with_field_filled self.old.collected } }
    {
        self.row.clear_title();
        self.title = None;
        let Some(word) = &mut self.word else {
            return;
        };
        let Pending::ForStop(field) = word.pending else {
            return;
        };
        self.row.insert_copies(field.before, field.fill, n);
        word.pending = Pending::Nothing;
    }
}
