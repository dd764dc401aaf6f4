//! The row that goes into a diversion, a line of few cells at once. (CSTR 54, section 7.4.)
ghost use Rattle.std.specs.Prelude.{◌≡◌, ◌<◌, length, ◌^◌, ◌++◌, List, replicate, OnOk, true, refl};
ghost use Rattle.std.proofs.Common.{◌∙◌};
ghost use Rattle.std.specs.List.{list_any};
ghost use Rattle.nr_vectors.specs.Cell.{blank};
ghost use Rattle.nr_vectors.specs.declared.cell.Cell.{Cell as CellValue};
ghost use Rattle.nr_store.specs.Store.{Stored, afforded, charge_of, diverted};
ghost use Rattle.nr_fill.specs.Piece.{without_title};
ghost use Rattle.nr_fill.specs.Title.{titled_row};
ghost use Rattle.nr_formatter.specs.Limits.{stored_limits};
ghost use Rattle.nr_formatter.specs.Lines.{row_of, rest_of, settings_after};
ghost use Rattle.nr_formatter.specs.declared.tasks.Resume.{Resume as ResumeValue};
ghost use Rattle.nr_formatter.specs.DiversionRow.{AddsToDiversion, AddsToDiversion-both, AddsToDiversion-nothing, EndsRow, HoldsRow, diverted_cells, is_faced_blank, with_cells};

use crate::lines::{Going, set_going};
use crate::tasks::Resume;
use nr_fill::cell_row::lay_line;
use nr_fill::cells::CellSink;
use nr_fill::line::Line;
use nr_fill::measured::Extent;
use nr_fill::piece::PieceSlot;
use nr_fill::setting::Extra;
use nr_settings::Settings;
use nr_store::{Element, Store, StoredBytes};
use nr_vectors::cell::{Cell, Look};
use nr_vectors::slice_vec::SliceVec;

/// How many cells a line has at most that is laid at once.
const LAID: usize = 256;

/// A row whose cells are added to the newest text being built. Blanks wait for a cell that is none; once a cell is
/// refused, nothing more is added.
#[derive(Drop)]
pub(crate) struct DiversionRow<'b> {
    store: &'b mut Store<Resume>,
    /// What the store was charged before the row.
    charge: u32,
    /// How many blanks wait.
    blanks: usize,
    refused: bool,
}

/// Whether a cell is a blank that isn't plain.
fn is_faced_blank(cell: Cell) -> bool
    ensures { result ≡ is_faced_blank cell }
{
    match cell.look {
        Look::Plain => false,
        Look::Under | Look::Bold => cell.byte == b' ',
    }
}

/// Whether one of the cells is a blank that isn't plain.
fn has_faced_blank(cells: &[Cell]) -> bool
    ensures { result ≡ list_any is_faced_blank cells.now }
{
    for cell in cells {
        if is_faced_blank(*cell) {
            return true;
        }
    }
    false
}

/// Whether the cells end with one that is no blank, and each blank of them is plain.
fn ends_row(cells: &[Cell]) -> bool
    ensures { result ≡ true → EndsRow cells.now }
{
    if cells.is_empty() || cells[cells.len() - 1].byte == b' ' {
        return false;
    }
    !has_faced_blank(cells)
}

/// Adds so many blanks and cells after them, and tells what the store is charged then.
fn add_after(store: &mut Store<Resume>, blanks: usize, cells: &[Cell]) -> Result<u32, StoredBytes>
    ensures result { result ≡ afforded (with_cells (replicate blanks blank ++ cells.now) store.old)
        (charge_of (with_cells (replicate blanks blank ++ cells.now) store.old)) }
    ensures ok { OnOk result (store.new ≡ with_cells (replicate blanks blank ++ cells.now) store.old) }
    ensures small { OnOk result (charge_of (with_cells (replicate blanks blank ++ cells.now) store.old)
        < 2 ^ 32) }
    ensures limits { stored_limits store.new ≡ stored_limits store.old }
{
    for _blank in 0..blanks {
        store.add(Element::Cell(Cell::blank()))?;
    }
    store.add_cells(cells)?;
    Ok(store.charge())
}

/// Adds the cells one after another.
fn push_each(row: &mut DiversionRow<'_>, cells: &[Cell])
    ensures same_reference { row.new.store.ghost_name ≡ row.old.store.ghost_name }
    ensures charge { row.new.charge ≡ row.old.charge }
    ensures adds { AddsToDiversion row.old.store.now row.old.blanks row.old.refused cells.now
        row.new.store.now row.new.blanks row.new.refused }
{
    for cell in cells {
        row.push(*cell);
    }
}

impl<'b> DiversionRow<'b> {
    /// Adds cells that end with one that is no blank after the blanks that wait.
    fn add_written(&mut self, cells: &[Cell])
        requires { EndsRow cells.now }
        ensures same_reference { self.new.store.ghost_name ≡ self.old.store.ghost_name }
        ensures charge { self.new.charge ≡ self.old.charge }
        ensures adds { AddsToDiversion self.old.store.now self.old.blanks self.old.refused cells.now
            self.new.store.now self.new.blanks self.new.refused }
    {
        if self.refused {
            return;
        }
        match add_after(self.store, self.blanks, cells) {
            Ok(_charge) => self.blanks = 0,
            Err(StoredBytes) => self.refused = true,
        }
    }

    /// The row ends as a line of this height, in u.
    pub(crate) fn end(&mut self, height: u32) -> Result<(), StoredBytes>
        ensures same_reference { self.new.store.ghost_name ≡ self.old.store.ghost_name }
        ensures result { (before : Stored ResumeValue) → (row : List CellValue)
            → HoldsRow before row self.old.store.now self.old.blanks self.old.refused
            → self.old.charge ≡ charge_of before
            → result ≡ afforded (diverted 0 (diverted_cells row) height before) tt }
        ensures ok { (before : Stored ResumeValue) → (row : List CellValue)
            → HoldsRow before row self.old.store.now self.old.blanks self.old.refused
            → self.old.charge ≡ charge_of before
            → OnOk result (self.new.store.now ≡ diverted 0 (diverted_cells row) height before) }
        ensures limits { stored_limits self.new.store.now ≡ stored_limits self.old.store.now }
    {
        if self.refused {
            return Err(StoredBytes);
        }
        let cells = self.store.charge().saturating_sub(self.charge);
        self.store.end_line(cells, height)
    }
}

impl CellSink for DiversionRow<'_> {
    ghost Adds = { λ old cells new.
        (new.store.ghost_name ≡ old.store.ghost_name) × (new.charge ≡ old.charge)
        × AddsToDiversion old.store.now old.blanks old.refused cells new.store.now new.blanks new.refused };

    fn push(&mut self, cell: Cell) {
        if cell.byte == b' ' {
            self.blanks = self.blanks.saturating_add(1);
            return;
        }
        self.add_written(&[cell]);
    }

    fn extend(&mut self, cells: &[Cell]) {
        if ends_row(cells) {
            self.add_written(cells);
            return;
        }
        push_each(self, cells);
    }

    fn blanks(&mut self, n: usize) {
        self.blanks = self.blanks.saturating_add(n);
    }

    /// A line of few cells is laid in a row of its own, and added at once.
    fn lay(
        &mut self,
        slots: &[PieceSlot],
        cells: &[Cell],
        extra: Extra,
        most: usize,
    ) -> Option<Extent> {
        if most > LAID {
            return None;
        }
        let mut block = [Cell::blank(); LAID];
        let mut row = SliceVec::over(&mut block);
        lay_line(slots, cells, extra, &mut row);
        let laid = row.as_slice();
        let extent = Extent::of(laid);
        self.extend(laid);
        Some(extent)
    }

    ghost adds_nothing = { λ row. (
      refl,
      refl,
      AddsToDiversion-nothing row.store.now row.blanks row.refused,
    ) };

    ghost adds_both = { λ a b c xs ys first second. (
      second.0 ∙ first.0,
      second.1 ∙ first.1,
      AddsToDiversion-both a.store.now a.blanks a.refused b.store.now b.blanks b.refused
          c.store.now c.blanks c.refused xs ys first.2 second.2,
    ) };
}

/// The line that goes out next goes into the text that is being built, so many u high.
pub(crate) fn divert_going(
    store: &mut Store<Resume>,
    line: &mut Line,
    settings: &mut Settings,
    going: Going,
    height: u32,
) -> Result<(), StoredBytes>
    requires { 0 < length line.old.collected.pieces }
    ensures result { result
        ≡ afforded (diverted 0 (diverted_cells (row_of going 0 line.old.collected)) height store.old) tt }
    ensures ok { OnOk result (store.new ≡ diverted 0 (diverted_cells (row_of going 0 line.old.collected))
        height store.old) }
    ensures limits { stored_limits store.new ≡ stored_limits store.old }
    ensures line { line.new ≡ record line.old
        { collected = rest_of going settings.old.indents line.old.collected } }
    ensures settings { settings.new ≡ settings_after going line.old.collected settings.old }
{
    let charge = store.charge();
    let mut row = DiversionRow {
        store,
        charge,
        blanks: 0,
        refused: false,
    };
    set_going(line, settings, going, 0, &mut row);
    row.end(height)
}

/// The title that was read goes into the text that is being built, so many cells long and so many u high.
pub(crate) fn divert_titled(
    store: &mut Store<Resume>,
    line: &mut Line,
    length: u32,
    height: u32,
) -> Result<(), StoredBytes>
    ensures result { result
        ≡ afforded (diverted 0 (diverted_cells (titled_row 0 length line.old.collected.title)) height
        store.old) tt }
    ensures ok { OnOk result
        (store.new ≡ diverted 0 (diverted_cells (titled_row 0 length line.old.collected.title))
        height store.old) }
    ensures limits { stored_limits store.new ≡ stored_limits store.old }
    ensures line { line.new ≡ record line.old { collected = without_title line.old.collected } }
{
    let charge = store.charge();
    let mut row = DiversionRow {
        store,
        charge,
        blanks: 0,
        refused: false,
    };
    line.set_title(length, 0, &mut row);
    row.end(height)
}
