//! The open page.
ghost use Rattle.std.specs.Prelude.{◌*◌, ◌≡◌, ℕ, ◌+◌, ◌/◌, ◌^◌, ◌<◌, ◌≤◌, ◌↔◌, List, [], ◌∷◌, ◌++◌, length, OnOk, OnErr, IsErr, IfOk};
ghost use Rattle.nr_page.specs.Grid.{Placed, page_charge};
ghost use Rattle.nr_page.specs.Page.{Holds};
ghost use Rattle.std.specs.Io.KnownBytes.{Appends};
ghost use Rattle.nr_units.specs.Failures.{put_counted};
ghost use Rattle.nr_units.specs.Sink.{AppendsPrefix};
ghost use Rattle.nr_page.specs.PageBytes.{page_bytes};

use crate::faces::Faces;
use crate::gap_vec::GapVec;
use crate::placing::put;
use crate::row::RowSlot;
use crate::writing::write_all;
use nr_pool::Pool;
use nr_units::sink::Sink;
use nr_units::source::Fault;
use nr_vectors::CountedAlloc;
use nr_vectors::cell::Cell;
use std::alloc::AllocError;
use std::marker::Model;

/// Placing the line would pass the limit of the page's charge.
#[derive(Clone, Copy)]
pub struct PageCells;

/// The sink failed: a prefix of the page's bytes went out.
#[derive(Clone, Copy, Debug, PartialEq, Eq)]
pub struct WriteFault;

/// How many elements there is room for in a page.
#[derive(Clone, Copy)]
pub struct PageRoom {
    pub cells: usize,
    pub texts: usize,
    pub rows: usize,
}

/// The rooms of a page whose charge is at most `limit`. Only a line with cells needs a text and a row,
/// and is charged 2 or more.
pub fn room(limit: usize) -> PageRoom
    ensures cells { result.cells ≡ limit }
    ensures texts { result.texts ≡ limit / 2 }
    ensures rows { result.rows ≡ limit / 2 }
{
    PageRoom {
        cells: limit,
        texts: limit / 2,
        rows: limit / 2,
    }
}

/// The open page. It holds the lines placed on it, up to a limit: each line is charged 1 and its cells. `new` takes memory
/// for all that the limit allows, and no other call allocates. Of lines on one row it keeps one text, the later laid over the earlier.
///
/// A line on the last row, or below it, takes time for its cells, and one above it for a search too. Where it comes
/// to a new row, the rows between it and the newest one are moved, 8 bytes each; where it has more cells than its row,
/// the row gets a new text, as long as the line, and its old one is of no use until the page is cleared. So the texts,
/// old and new, have no more cells than the lines.
#[derive(Drop)]
pub struct Page {
    texts: Pool<Cell>,
    rows: GapVec<RowSlot>,
    // how many rows there are down to the lowest line, which may have no cells
    row_count: usize,
    charge: usize,
    limit: usize,
}

impl Model for Page {
    ghost use Rattle.nr_page.specs.Page.{Sheet};
    ghost use Rattle.nr_page.specs.Rows.{sheet_of, IsKept};

    ghost Value = { Sheet };

    ghost view = { λ p. sheet_of p.texts p.rows.items p.row_count p.charge p.limit };

    ghost invariant = { λ p. IsKept p.texts p.rows p.row_count p.charge p.limit };
}

impl Page {
    /// An empty page: `AllocError` where there is not the memory that `capacity` tells.
    ///
    /// Proved: A page holds the lines that were placed on it: it shows what they show, reaches as far down, and is
    /// charged 1 and its cells for each. (`Page::{new, place, clear, charge}`)
    pub fn new(alloc: &mut CountedAlloc, limit: usize) -> Result<Page, AllocError>
        requires in_range { limit < 2 ^ 32 }
        ensures empty { IfOk result (λ page. Holds [] page) }
        ensures limit { IfOk result (λ page. page.limit ≡ limit) }
        ensures taken { IfOk result (λ page. alloc.new ≡ alloc.old + limit + 2 * (limit / 2)) }
    {
        let room = room(limit);
        Ok(Page {
            texts: Pool::new(alloc, room.cells, room.texts)?,
            rows: GapVec::new(alloc, room.rows)?,
            row_count: 0,
            charge: 0,
            limit,
        })
    }

    /// How many elements there is memory for, as the vectors tell.
    ///
    /// Proved: A page has the memory that its limit asks for, no more and no less.
    pub fn memory(&self) -> PageRoom
        ensures cells { result.cells ≡ self.now.limit }
        ensures texts { result.texts ≡ self.now.limit / 2 }
        ensures rows { result.rows ≡ self.now.limit / 2 }
    {
        PageRoom {
            cells: self.texts.element_memory(),
            texts: self.texts.text_memory(),
            rows: self.rows.memory(),
        }
    }

    /// The charge of the lines that the page holds: 1 and the cells for each.
    pub fn charge(&self) -> usize
        ensures some { (lines : List Placed) × Holds lines self.now }
        ensures value { (lines : List Placed) → Holds lines self.now → result ≡ page_charge lines }
        ensures within { result ≤ self.now.limit }
    {
        self.charge
    }

    /// Places a line on a row, counted from 0 at the top: its cells from column 0 on. `PageCells` where the limit would be
    /// passed; then nothing has changed.
    ///
    /// Proved: `PageCells` is answered exactly where the page's charge would pass the limit, and then nothing has
    /// changed.
    pub fn place(&mut self, row: u32, cells: &[Cell]) -> Result<(), PageCells>
        ensures ok { OnOk result ((lines : List Placed) → Holds lines self.old
            → Holds (lines ++ (record { row = row; cells = cells.now }) ∷ []) self.new) }
        ensures full { (lines : List Placed) → Holds lines self.old
            → (IsErr result ↔ (self.old.limit < page_charge lines + 1 + length cells.now)) }
        ensures err { OnErr result (self.new ≡ self.old) }
        ensures limit { self.new.limit ≡ self.old.limit }
    {
        if self.limit - self.charge <= cells.len() {
            return Err(PageCells);
        }
        put(&mut self.texts, &mut self.rows, row, cells);
        self.row_count = self.row_count.max(row as usize + 1);
        self.charge += 1 + cells.len();
        Ok(())
    }

    /// Writes the page: as many rows as asked for, or down to the lowest line where that is more. Each row is without
    /// trailing blanks and has a newline after it. What `faces` shows as underlined is `_`, a backspace and the byte,
    /// and what it shows as bold the byte, a backspace and the byte.
    /// `WriteFault` where the sink failed; a prefix of the bytes went out then.
    ///
    /// Proved: The bytes of a page are those of the grid: at each place the last cell placed there that is no blank,
    /// rows without blanks at their ends, each cell as the faces show it (underlined letters and digits, or each cell
    /// but a blank that is underlined, as `_`, backspace and the byte, and bold ones as the byte, backspace and the
    /// byte), as many rows as asked for or down to the lowest line.
    /// Proved: Where the sink failed, a prefix of the page's bytes went out.
    pub fn write_page<W: Sink>(
        &self,
        faces: Faces,
        rows: u32,
        output: &mut W,
    ) -> Result<(), WriteFault>
        ensures ok { OnOk result ((lines : List Placed) → Holds lines self.now
            → Appends (W.held output.old) (W.held output.new) (page_bytes faces rows lines)) }
        ensures err { OnErr result ((lines : List Placed) → Holds lines self.now
            → AppendsPrefix (W.held output.old) (W.held output.new) (page_bytes faces rows lines)) }
        ensures failures { W.failures output.new ≡ put_counted (W.failures output.old) result }
    {
        let count = self.row_count.max(rows as usize);
        match write_all(faces, &self.texts, &self.rows, count, output) {
            Ok(()) => Ok(()),
            Err(Fault) => Err(WriteFault),
        }
    }

    /// Takes the lines of another page of the same limit in place of its own.
    pub fn copy_from(&mut self, other: &Page)
        requires { other.now.limit ≡ self.old.limit }
        ensures { self.new ≡ other.now }
    {
        self.texts.copy_from(&other.texts);
        self.rows.copy_from(&other.rows);
        self.row_count = other.row_count;
        self.charge = other.charge;
    }

    /// Takes all lines away.
    pub fn clear(&mut self)
        ensures empty { Holds [] self.new }
        ensures limit { self.new.limit ≡ self.old.limit }
    {
        self.texts.remove_all();
        self.rows.clear();
        self.row_count = 0;
        self.charge = 0;
    }
}
