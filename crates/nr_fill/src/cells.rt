//! Where the cells of a row go.
ghost use Rattle.std.specs.Prelude.{◌≡◌, ◌<◌, ◌≤◌, ◌^◌, List, [], ◌∷◌, ◌++◌, length, replicate, IfSome, None};
ghost use Rattle.nr_vectors.specs.Cell.{blank};
ghost use Rattle.nr_vectors.specs.declared.cell.Cell.{Cell as CellValue};
ghost use Rattle.nr_fill.specs.Extents.{IsExtent};
ghost use Rattle.nr_fill.specs.Slots.{pieces_of, cells_in_slots};
ghost use Rattle.nr_fill.specs.Spreading.{cells_in_line};

use crate::measured::Extent;
use crate::piece::PieceSlot;
use crate::setting::Extra;
use nr_vectors::cell::Cell;

/// Takes the cells of a row one after another.
///
/// Proved: A line or a title is set in whatever takes cells, and how wide it is does not depend on that. (`CellSink`;
/// `Line::take_line` in taking.rt; `Line::set_title` in titling.rt)
pub trait CellSink {
    /// These cells were added between the one and the other.
    ghost Adds: { Self → List CellValue → Self → Type 0 };

    /// Adds a cell.
    fn push(&mut self, cell: Cell)
        ensures { Adds self.old (cell ∷ []) self.new };

    /// Adds these cells.
    fn extend(&mut self, cells: &[Cell])
        ensures { Adds self.old cells.now self.new };

    /// Adds n blanks.
    fn blanks(&mut self, n: usize)
        ensures { Adds self.old (replicate n blank) self.new };

    /// Adds these pieces as a line of at most so many cells, where it can do so at once, and tells how far they reach.
    /// Else nothing has changed.
    fn lay(
        &mut self,
        _slots: &[PieceSlot],
        _cells: &[Cell],
        _extra: Extra,
        _most: usize,
    ) -> Option<Extent>
        requires some { 0 < length _slots.now }
        requires cells { cells_in_slots _slots.now ≤ length _cells.now }
        requires each { _extra.each < 2 ^ 62 }
        requires few { length _slots.now < 2 ^ 32 }
        requires most { length (cells_in_line _extra (pieces_of _slots.now _cells.now)) ≤ _most }
        ensures set { IfSome result
            (λ extent. Adds self.old (cells_in_line _extra (pieces_of _slots.now _cells.now)) self.new) }
        ensures extent { IfSome result
            (λ extent. IsExtent (cells_in_line _extra (pieces_of _slots.now _cells.now)) extent.count
            extent.written) }
        ensures none { result ≡ None → self.new ≡ self.old }
    {
        None
    }

    /// Between a row and itself no cells were added.
    ghost adds_nothing: { (row : Self) → Adds row [] row };

    /// What was added first stands before what was added then.
    ghost adds_both: { (a : Self) → (b : Self) → (c : Self) → (xs : List CellValue) → (ys : List CellValue)
        → Adds a xs b → Adds b ys c → Adds a (xs ++ ys) c };
}
