// Pieces one after another in two vectors, after them the cells of one that has no end yet, and those of a title.
ghost use Rattle.std.specs.Prelude.{◌≡◌, ℕ, ◌+◌, ◌-◌, ◌<◌, ◌≤◌, ◌^◌, List, [], ◌∷◌, ◌++◌, length, map, min, take, drop, replicate, slice_index, All, IfOk};
ghost use Rattle.std.specs.List.{flat_map};
ghost use Rattle.nr_vectors.specs.declared.cell.Cell.{Cell as CellValue};
ghost use Rattle.nr_fill.specs.Cutting.{cut, hyphen_before, pieces_width};
ghost use Rattle.nr_fill.specs.Extents.{IsExtent};
ghost use Rattle.nr_fill.specs.Laid.{read_cells};
ghost use Rattle.nr_fill.specs.Piece.{Piece, cells_in, join_before};
ghost use Rattle.nr_fill.specs.Plain.{IsPlain, run_cell};
ghost use Rattle.nr_fill.specs.Spreading.{cells_in_line, gaps};

use crate::cells::CellSink;
use crate::cutting::{Sums, longest_prefix, longest_prefix_from_end, set_pieces, sums_of};
use crate::measured::Extent;
use crate::piece::{Join, PieceSlot};
use crate::queue::Queue;
use crate::setting::Extra;
use nr_vectors::CountedAlloc;
use nr_vectors::cell::{Cell, Look};
use std::alloc::AllocError;
use std::marker::Model;

/// The cells of all pieces stand in one vector one after another, after them those of the piece that is being read and
/// those of a title; a second vector says of each piece how long it is and how it hangs on the one before it.
#[derive(Drop)]
pub(crate) struct PieceRow {
    cells: Queue<Cell>,
    slots: Queue<PieceSlot>,
    /// How many cells are the pieces'.
    pieced: usize,
    /// How many cells are not the title's.
    read: usize,
}

impl Model for PieceRow {
    ghost use Rattle.std.specs.Prelude.{min};
    ghost use Rattle.nr_fill.specs.Laid.{Laid, laid_of, IsLaid};

    ghost Value = { Laid };

    ghost view = { λ r.
        laid_of r.slots.items r.cells.items r.pieced r.read (min r.slots.capacity r.cells.capacity) };

    ghost invariant = { λ r.
        IsLaid r.slots.items r.cells.items r.slots.capacity r.cells.capacity r.pieced r.read };
}

impl PieceRow {
    /// No pieces and no cells, and room for so many of each: `AllocError` where there is no memory for them.
    pub(crate) fn new(
        alloc: &mut CountedAlloc,
        cells: usize,
        pieces: usize,
    ) -> Result<PieceRow, AllocError>
        requires small { cells < 2 ^ 32 }
        requires same { pieces ≡ cells }
        ensures made { IfOk result (λ made. made ≡ record {
          pieces = [];
          last = [];
          title = [];
          capacity = min pieces cells;
        }) }
        ensures taken { IfOk result (λ made. alloc.new ≡ alloc.old + cells + pieces) }
    {
        Ok(PieceRow {
            cells: Queue::new(alloc, cells)?,
            slots: Queue::new(alloc, pieces)?,
            pieced: 0,
            read: 0,
        })
    }

    /// Takes all pieces and cells away.
    pub(crate) fn clear(&mut self)
        ensures { self.new ≡ record self.old { pieces = []; last = []; title = [] } }
    {
        self.cells.clear();
        self.slots.clear();
        self.pieced = 0;
        self.read = 0;
    }

    /// Takes the pieces and cells of another with as much room in place of its own.
    pub(crate) fn copy_from(&mut self, other: &PieceRow)
        requires { other.now.capacity ≡ self.old.capacity }
        ensures { self.new ≡ other.now }
    {
        self.cells.copy_from(&other.cells);
        self.slots.copy_from(&other.slots);
        self.pieced = other.pieced;
        self.read = other.read;
    }

    /// How many cells there is memory for, as their vector tells.
    pub(crate) fn cell_memory(&self) -> usize
        ensures { result ≡ self.now.capacity }
    {
        self.cells.memory()
    }

    /// How many pieces there is memory for, as their vector tells.
    pub(crate) fn piece_memory(&self) -> usize
        ensures { result ≡ self.now.capacity }
    {
        self.slots.memory()
    }

    /// How many pieces there are.
    #[inline]
    pub(crate) fn pieces(&self) -> usize
        ensures { result ≡ length self.now.pieces }
    {
        self.slots.len()
    }

    /// How many cells there are but the title's.
    #[inline]
    pub(crate) fn read(&self) -> usize
        ensures { result ≡ read_cells self.now }
    {
        self.read
    }

    /// How many cells stand after the last piece, but the title's.
    #[inline]
    pub(crate) fn last_len(&self) -> usize
        ensures { result ≡ length self.now.last }
    {
        self.read - self.pieced
    }

    /// How many cells the title has.
    #[inline]
    pub(crate) fn title_len(&self) -> usize
        ensures { result ≡ length self.now.title }
    {
        self.cells.len() - self.read
    }

    /// How the first piece hangs on what is before it.
    pub(crate) fn first_join(&self) -> Join
        requires { 0 < length self.now.pieces }
        ensures { (p : Piece) → (ps : List Piece) → self.now.pieces ≡ p ∷ ps → result ≡ p.join }
    {
        self.slots.as_slice()[0].join
    }

    /// One more cell after the last piece.
    #[inline]
    pub(crate) fn push(&mut self, cell: Cell)
        requires room { read_cells self.old < self.old.capacity }
        requires no_title { self.old.title ≡ [] }
        ensures { self.new ≡ record self.old { last = self.old.last ++ cell ∷ [] } }
    {
        self.cells.push(cell);
        self.read += 1;
    }

    /// Puts the cells of these bytes after the last piece, up to the first that is not plain, and tells how many these
    /// are.
    #[inline]
    pub(crate) fn push_plain(&mut self, look: Look, bytes: &[u8]) -> usize
        requires room { read_cells self.old + length bytes.now ≤ self.old.capacity }
        requires no_title { self.old.title ≡ [] }
        ensures prefix { result ≤ length bytes.now }
        ensures plain { All IsPlain (take result bytes.now) }
        ensures stops { result < length bytes.now → ¬ IsPlain (slice_index bytes.now result) }
        ensures cells { self.new ≡ record self.old
            { last = self.old.last ++ map (run_cell look) (take result bytes.now) } }
    {
        let count = self.cells.push_plain(look, bytes);
        self.read += count;
        count
    }

    /// Puts n copies of a cell in, so many cells after the last piece.
    pub(crate) fn insert_copies(&mut self, place: usize, cell: Cell, n: usize)
        requires within { place ≤ length self.old.last }
        requires room { read_cells self.old + n ≤ self.old.capacity }
        requires no_title { self.old.title ≡ [] }
        ensures { self.new ≡ record self.old
            { last = take place self.old.last ++ replicate n cell ++ drop place self.old.last } }
    {
        self.cells.insert_copies(self.pieced + place, cell, n);
        self.read += n;
    }

    /// n copies of a cell more after the last piece.
    #[inline]
    pub(crate) fn push_copies(&mut self, cell: Cell, n: usize)
        requires room { read_cells self.old + n ≤ self.old.capacity }
        requires no_title { self.old.title ≡ [] }
        ensures { self.new ≡ record self.old { last = self.old.last ++ replicate n cell } }
    {
        self.cells.push_copies(cell, n);
        self.read += n;
    }

    /// Keeps so many of the cells after the last piece.
    pub(crate) fn shorten(&mut self, n: usize)
        requires within { n ≤ length self.old.last }
        requires no_title { self.old.title ≡ [] }
        ensures { self.new ≡ record self.old { last = take n self.old.last } }
    {
        self.read = self.pieced + n;
        self.cells.truncate(self.read);
    }

    /// So many of the cells after the last piece are a piece of their own.
    #[inline]
    pub(crate) fn close(&mut self, join: Join, n: usize)
        requires within { n ≤ length self.old.last }
        requires room { length self.old.pieces < self.old.capacity }
        ensures { self.new ≡ record self.old {
          pieces = self.old.pieces ++ record { join = join; cells = take n self.old.last } ∷ [];
          last = drop n self.old.last;
        } }
    {
        self.slots.push(PieceSlot {
            join,
            len: n as u32,
        });
        self.pieced += n;
    }

    /// How the piece after the first n hangs on them, or one after all pieces where there are no more.
    pub(crate) fn join_before(&self, n: usize, last: Join) -> Join
        requires { n ≤ length self.now.pieces }
        ensures { result ≡ join_before (drop n self.now.pieces) last }
    {
        if n == self.slots.len() {
            return last;
        }
        self.slots.as_slice()[n].join
    }

    /// The pieces after the first n, which have so many cells, have no end any more: their cells stand before those
    /// after the last piece.
    pub(crate) fn open_after(&mut self, n: usize, cells: usize)
        requires within { n ≤ length self.old.pieces }
        requires cells { cells ≡ cells_in (drop n self.old.pieces) }
        ensures { self.new ≡ record self.old {
          pieces = take n self.old.pieces;
          last = flat_map (λ (p : Piece). p.cells) (drop n self.old.pieces) ++ self.old.last;
        } }
    {
        self.slots.truncate(n);
        self.pieced -= cells;
    }

    /// One more cell of a title.
    pub(crate) fn push_title(&mut self, cell: Cell)
        requires { read_cells self.old + length self.old.title < self.old.capacity }
        ensures { self.new ≡ record self.old { title = self.old.title ++ cell ∷ [] } }
    {
        self.cells.push(cell);
    }

    /// No title is being read.
    #[inline]
    pub(crate) fn clear_title(&mut self)
        ensures { self.new ≡ record self.old { title = [] } }
    {
        self.cells.truncate(self.read);
    }

    /// The title's cells.
    pub(crate) fn title(&self) -> &[Cell]
        ensures { result.now ≡ self.now.title }
    {
        &self.cells.as_slice()[self.read..]
    }

    /// The cells after the first pieces, but the title's. The other pieces have `parted` cells.
    pub(crate) fn cells_after(&self, parted: usize) -> &[Cell]
        requires { parted ≤ cells_in self.now.pieces }
        ensures { (n : ℕ) → cells_in (drop n self.now.pieces) ≡ parted
            → result.now ≡ flat_map (λ (p : Piece). p.cells) (drop n self.now.pieces) ++ self.now.last }
    {
        &self.cells.as_slice()[self.pieced - parted..self.read]
    }

    /// The number of pieces in the longest prefix of the first n, which are so wide, that fits the line, and 1 where none
    /// does.
    pub(crate) fn longest_prefix(&self, n: usize, wide: usize, line: usize) -> usize
        requires some { 0 < n }
        requires within { n ≤ length self.now.pieces }
        requires wide { pieces_width (take n self.now.pieces) ≡ wide }
        requires small { wide < 2 ^ 63 }
        requires line { line < 2 ^ 62 }
        ensures pieces { result ≡ cut line (take n self.now.pieces) }
        ensures some { 0 < result }
        ensures within { result ≤ n }
    {
        let slots = &self.slots.as_slice()[..n];
        let width = wide - usize::from(slots[0].join.width());
        if width <= 2 * line {
            longest_prefix_from_end(slots, width, line)
        } else {
            longest_prefix(slots, line)
        }
    }

    /// What the first n pieces come to.
    pub(crate) fn sums(&self, n: usize) -> Sums
        requires some { 0 < n }
        requires within { n ≤ length self.now.pieces }
        requires wide { pieces_width (take n self.now.pieces) < 2 ^ 63 }
        ensures cells { result.cells ≡ cells_in (take n self.now.pieces) }
        ensures wide { result.wide ≡ pieces_width (take n self.now.pieces) }
        ensures gaps { result.gaps ≡ gaps (take n self.now.pieces) }
    {
        sums_of(&self.slots.as_slice()[..n])
    }

    /// Whether a line of n pieces, of the first `all`, ends with a hyphen.
    pub(crate) fn hyphen(&self, n: usize, all: usize) -> u16
        requires within { n ≤ all }
        requires all { all ≤ length self.now.pieces }
        ensures value { result ≡ hyphen_before (drop n (take all self.now.pieces)) }
        ensures one { result ≤ 1 }
    {
        if n == all {
            return 0;
        }
        self.slots.as_slice()[n].join.hyphen()
    }

    /// Sets the first n pieces in the row after what stands there, at most so many cells, and tells how far they reach.
    pub(crate) fn set<S: CellSink>(
        &self,
        n: usize,
        extra: Extra,
        most: usize,
        out: &mut S,
    ) -> Extent
        requires some { 0 < n }
        requires within { n ≤ length self.now.pieces }
        requires each { extra.each < 2 ^ 62 }
        requires most { length (cells_in_line extra (take n self.now.pieces)) ≤ most }
        ensures set { S.Adds out.old (cells_in_line extra (take n self.now.pieces)) out.new }
        ensures extent { IsExtent (cells_in_line extra (take n self.now.pieces)) result.count result.written }
    {
        let slots = &self.slots.as_slice()[..n];
        let cells = self.cells.as_slice();
        match out.lay(slots, cells, extra, most) {
            Some(extent) => extent,
            None => set_pieces(slots, cells, extra, out),
        }
    }

    /// Takes the first n pieces away, which have so many cells.
    pub(crate) fn remove_prefix(&mut self, n: usize, cells: usize)
        requires within { n ≤ length self.old.pieces }
        requires cells { cells ≡ cells_in (take n self.old.pieces) }
        ensures { self.new ≡ record self.old { pieces = drop n self.old.pieces } }
    {
        self.slots.remove_prefix(n);
        self.cells.remove_prefix(cells);
        self.pieced -= cells;
        self.read -= cells;
    }
}
