//! The row that a line is set in.
ghost use Rattle.std.specs.Prelude.{◌≡◌, ◌+◌, ◌<◌, ◌≤◌, ◌^◌, ◌↔◌, List, [], length, MatchOption, None, IfSome, IsSome, IfOk};
ghost use Rattle.nr_vectors.specs.Cell.{trimmed};
ghost use Rattle.nr_vectors.specs.declared.cell.Cell.{Cell as CellValue};
ghost use Rattle.nr_fill.specs.Extents.{IsExtent};
ghost use Rattle.nr_fill.specs.Piece.{is_nil};
ghost use Rattle.nr_fill.specs.CellRow.{AddsToRow, AddsToRow-both, AddsToRow-nothing, IsRow, row_of};
ghost use Rattle.nr_fill.specs.Slots.{cells_in_slots, pieces_of};
ghost use Rattle.nr_fill.specs.Spreading.{cells_in_line};

use crate::cell_row::lay_line;
use crate::cells::CellSink;
use crate::measured::{Extent, written_after, written_len};
use crate::piece::PieceSlot;
use crate::setting::Extra;
use nr_vectors::cell::Cell;
use nr_vectors::{CountedAlloc, FixedVec};
use std::alloc::AllocError;
use std::marker::Model;

/// A row of cells, with a capacity that stays. Cells for which it has no room are only counted: how many there are,
/// and how many up to the last that is no blank.
///
/// Clauses see what is kept of a row as a value of its own, and say of each call what it does to whatever row that may be.
#[derive(Drop)]
pub struct Out {
    cells: FixedVec<Cell>,
    count: usize,
    written: usize,
}

impl Model for Out {
    ghost use Rattle.std.specs.Prelude.{◌<◌, ◌^◌};
    ghost use Rattle.nr_fill.specs.CellRow.{Row};

    ghost Value = { Row };

    ghost view = { λ o. record {
      kept = o.cells.items;
      count = o.count;
      written = o.written;
      capacity = o.cells.capacity;
    } };

    ghost invariant = { λ o. o.cells.capacity < 2 ^ 32 };
}

impl Out {
    /// A row with no cells, and room for so many: `AllocError` where there is no memory for them. No other call allocates.
    pub fn new(alloc: &mut CountedAlloc, capacity: usize) -> Result<Out, AllocError>
        requires { capacity < 2 ^ 32 }
        ensures made { IfOk result (λ made. made ≡ row_of capacity []) }
        ensures taken { IfOk result (λ made. alloc.new ≡ alloc.old + capacity) }
    {
        Ok(Out {
            cells: FixedVec::new(alloc, capacity)?,
            count: 0,
            written: 0,
        })
    }

    /// How many cells there is memory for, as their vector tells.
    pub fn memory(&self) -> usize
        ensures { result ≡ self.now.capacity }
    {
        self.cells.memory()
    }

    /// The row without the blanks at its end, where there was room for it.
    ///
    /// Proved: A row reports that it is longer than its capacity.
    pub fn row(&self) -> Option<&[Cell]>
        ensures { (cells : List CellValue) → IsRow cells self.now →
            MatchOption result (self.now.capacity < length (trimmed cells)) (λ row. row.now ≡ trimmed cells) }
    {
        if self.written <= self.cells.len() {
            Some(&self.cells.as_slice()[..self.written])
        } else {
            None
        }
    }

    /// Takes copies of the cells of another row in place of its own.
    pub fn copy_from(&mut self, other: &Out)
        requires { other.now.capacity ≡ self.old.capacity }
        ensures { self.new ≡ other.now }
    {
        self.cells.copy_from(&other.cells);
        self.count = other.count;
        self.written = other.written;
    }

    /// How many cells the row has up to the last that is no blank.
    #[inline]
    pub fn written(&self) -> usize
        ensures { result ≡ self.now.written }
    {
        self.written
    }

    /// Whether it has no cells, blanks among them.
    #[inline]
    pub fn is_empty(&self) -> bool
        ensures { (cells : List CellValue) → IsRow cells self.now → result ≡ is_nil cells }
    {
        self.count == 0
    }

    /// Takes all cells away.
    #[inline]
    pub fn clear(&mut self)
        ensures { self.new ≡ row_of self.old.capacity [] }
    {
        self.cells.clear();
        self.count = 0;
        self.written = 0;
    }
}

impl CellSink for Out {
    ghost Adds = { AddsToRow };

    #[inline]
    fn push(&mut self, cell: Cell) {
        let one = [cell];
        let kept = one.len().min(self.cells.capacity() - self.cells.len());
        self.cells.extend_copies(cell, kept);
        self.written = written_after(self.written, self.count, written_len(&one));
        self.count = self.count.saturating_add(one.len());
    }

    #[inline]
    fn extend(&mut self, cells: &[Cell]) {
        let n = cells.len().min(self.cells.capacity() - self.cells.len());
        self.cells.extend(&cells[..n]);
        self.written = written_after(self.written, self.count, written_len(cells));
        self.count = self.count.saturating_add(cells.len());
    }

    #[inline]
    fn blanks(&mut self, n: usize) {
        let kept = n.min(self.cells.capacity() - self.cells.len());
        self.cells.extend_copies(Cell::blank(), kept);
        self.count = self.count.saturating_add(n);
    }

    /// It does so exactly where none of the row's cells is gone and there is room for `most` more.
    fn lay(
        &mut self,
        slots: &[PieceSlot],
        cells: &[Cell],
        extra: Extra,
        most: usize,
    ) -> Option<Extent>
        requires some { 0 < length slots.now }
        requires cells { cells_in_slots slots.now ≤ length cells.now }
        requires each { extra.each < 2 ^ 62 }
        requires few { length slots.now < 2 ^ 32 }
        requires most { length (cells_in_line extra (pieces_of slots.now cells.now)) ≤ most }
        ensures set { IfSome result
            (λ extent. AddsToRow self.old (cells_in_line extra (pieces_of slots.now cells.now)) self.new) }
        ensures extent { IfSome result
            (λ extent. IsExtent (cells_in_line extra (pieces_of slots.now cells.now)) extent.count
            extent.written) }
        ensures none { result ≡ None → self.new ≡ self.old }
        ensures laid { (before : List CellValue) → IsRow before self.old
            → (IsSome result ↔ (length before + most ≤ self.old.capacity)) }
    {
        let start = self.cells.len();
        if self.count != start || most > self.cells.capacity() - start {
            return None;
        }
        lay_line(slots, cells, extra, &mut self.cells);
        let laid = &self.cells.as_slice()[start..];
        let extent = Extent::of(laid);
        self.written = written_after(self.written, start, extent.written);
        self.count = start + extent.count;
        Some(extent)
    }

    ghost adds_nothing = { AddsToRow-nothing };

    ghost adds_both = { AddsToRow-both };
}
