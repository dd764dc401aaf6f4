//! Rows in memory that a line is laid in at once.
ghost use Rattle.std.specs.Prelude.{◌≡◌, ◌+◌, ◌<◌, ◌≤◌, ◌^◌, ◌++◌, length, take, replicate};
ghost use Rattle.nr_vectors.specs.Items.{Items};
ghost use Rattle.nr_vectors.specs.declared.cell.Cell.{Cell as CellValue};
ghost use Rattle.nr_fill.specs.Slots.{pieces_of, cells_in_slots};
ghost use Rattle.nr_fill.specs.Spreading.{cells_in_line};

use crate::cutting::{blanks_of, gap_after};
use crate::piece::PieceSlot;
use crate::setting::Extra;
use nr_vectors::FixedVec;
use nr_vectors::cell::Cell;
use nr_vectors::slice_vec::SliceVec;

/// Cells in memory, with a capacity that stays.
pub trait CellRow {
    /// Its cells and its capacity.
    ghost Holds: { Self → Items CellValue };

    /// Adds the first n of these cells.
    fn add_prefix(&mut self, cells: &[Cell], n: usize)
        requires prefix { n ≤ length cells.now }
        requires room { length (Holds self.old).items + n ≤ (Holds self.old).capacity }
        ensures items { (Holds self.new).items ≡ (Holds self.old).items ++ take n cells.now }
        ensures room { (Holds self.new).capacity ≡ (Holds self.old).capacity };

    /// Adds copies of a cell, and after them the first n of these cells.
    fn add_after_copies(&mut self, cell: Cell, copies: usize, cells: &[Cell], n: usize)
        requires prefix { n ≤ length cells.now }
        requires room { length (Holds self.old).items + copies + n ≤ (Holds self.old).capacity }
        ensures items { (Holds self.new).items ≡ (Holds self.old).items ++ replicate copies cell
            ++ take n cells.now }
        ensures room { (Holds self.new).capacity ≡ (Holds self.old).capacity };
}

impl CellRow for FixedVec<Cell> {
    ghost Holds = { λ row. row };

    #[inline(always)]
    fn add_prefix(&mut self, cells: &[Cell], n: usize) {
        self.extend_prefix(cells, n);
    }

    #[inline(always)]
    fn add_after_copies(&mut self, cell: Cell, copies: usize, cells: &[Cell], n: usize) {
        self.extend_after_copies(cell, copies, cells, n);
    }
}

impl CellRow for SliceVec<'_, Cell> {
    ghost Holds = { λ row. row };

    #[inline(always)]
    fn add_prefix(&mut self, cells: &[Cell], n: usize) {
        self.extend_prefix(cells, n);
    }

    #[inline(always)]
    fn add_after_copies(&mut self, cell: Cell, copies: usize, cells: &[Cell], n: usize) {
        self.extend_copies(cell, copies);
        self.extend_prefix(cells, n);
    }
}

/// Sets these pieces as a line in a row that has room for it, after what stands there.
pub fn lay_line<R: CellRow>(slots: &[PieceSlot], cells: &[Cell], extra: Extra, row: &mut R)
    requires some { 0 < length slots.now }
    requires cells { cells_in_slots slots.now ≤ length cells.now }
    requires each { extra.each < 2 ^ 62 }
    requires few { length slots.now < 2 ^ 32 }
    requires room { length (R.Holds row.old).items
        + length (cells_in_line extra (pieces_of slots.now cells.now)) ≤ (R.Holds row.old).capacity }
    ensures items { (R.Holds row.new).items ≡ (R.Holds row.old).items
        ++ cells_in_line extra (pieces_of slots.now cells.now) }
    ensures room { (R.Holds row.new).capacity ≡ (R.Holds row.old).capacity }
{
    let mut taken = slots[0].len as usize;
    row.add_prefix(cells, taken);
    let mut gap = 1;
    let others = &slots[1..];
    for slot in others {
        let blanks = blanks_of(slot.join, extra, gap);
        let len = slot.len as usize;
        row.add_after_copies(Cell::blank(), blanks, &cells[taken..], len);
        gap = gap_after(slot.join, gap);
        taken += len;
    }
}
