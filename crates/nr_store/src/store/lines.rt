// Lines that go into a diversion.
ghost use Rattle.std.specs.Prelude.{◌≡◌, ◌+◌, ◌∷◌, [], ◌++◌, ◌≤◌, length, map, replicate, OnOk, OnErr};
ghost use Rattle.std.specs.Option.{option_map};
ghost use Rattle.nr_pool.specs.Texts.{IsOpen, text, used, with_text};
ghost use Rattle.nr_store.specs.declared.element.Element.{Element as AnElement};
ghost use Rattle.nr_store.specs.declared.element.Element.TheVariants as elements;
ghost use Rattle.nr_store.specs.Store.{added, afforded, blank_cell, line_of, taken, diverted, diverted_end};

use crate::element::{Diversion, Draft, Element};
use crate::height::Height;
use crate::refusal::StoredBytes;
use crate::store::Store;
use nr_pool::{Id, Pool};
use nr_vectors::cell::Cell;

// How many elements are added to a text at once.
const BLOCK: usize = 16;

// Adds blanks to a text.
fn append_blanks(pool: &mut Pool<Element>, id: Id, n: u32)
    requires is_open { IsOpen pool.old id }
    requires room { used pool.old + n ≤ pool.old.capacity }
    ensures { pool.new ≡ with_text pool.old id (text pool.old id ++ replicate n blank_cell) }
{
    for _i in 0..n {
        let _ = pool.append(id, Element::Cell(Cell::blank()));
    }
}

// What is an element of a text.
pub(super) trait Single: Copy {
    // Which one.
    ghost single: { Self → AnElement };

    // The element.
    fn element(self) -> Element
        ensures { result ≡ single self };
}

impl Single for Cell {
    ghost single = { elements.Cell };

    #[inline(always)]
    fn element(self) -> Element {
        Element::Cell(self)
    }
}

impl Single for u8 {
    ghost single = { elements.Byte };

    #[inline(always)]
    fn element(self) -> Element {
        Element::Byte(self)
    }
}

// Puts elements in a block as long as they are.
fn fill<T: Single>(block: &mut [Element], more: &[T])
    requires { length block.old ≡ length more.now }
    ensures { block.new ≡ map T.single more.now }
{
    for i in 0..more.len() {
        block[i] = more[i].element();
    }
}

// Adds elements to a text, a block at a time.
#[inline(never)]
fn append_blocks<T: Single>(pool: &mut Pool<Element>, id: Id, more: &[T])
    requires is_open { IsOpen pool.old id }
    requires room { used pool.old + length more.now ≤ pool.old.capacity }
    ensures { pool.new ≡ with_text pool.old id (text pool.old id ++ map T.single more.now) }
{
    let mut block = [Element::Byte(0); BLOCK];
    let mut done = 0;
    while done < more.len() {
        let count = (more.len() - done).min(BLOCK);
        fill(&mut block[..count], &more[done..done + count]);
        let _ = pool.append_slice(id, &block[..count]);
        done += count;
    }
}

// The same, at once where it is one element or none.
#[inline(always)]
pub(super) fn append_all<T: Single>(pool: &mut Pool<Element>, id: Id, more: &[T])
    requires is_open { IsOpen pool.old id }
    requires room { used pool.old + length more.now ≤ pool.old.capacity }
    ensures { pool.new ≡ with_text pool.old id (text pool.old id ++ map T.single more.now) }
{
    if more.is_empty() {
        return;
    }
    if more.len() == 1 {
        let _ = pool.append(id, more[0].element());
        return;
    }
    append_blocks(pool, id, more);
}

// Adds a line to a text.
fn append_line(pool: &mut Pool<Element>, id: Id, indent: u32, cells: &[Cell], height: u32)
    requires is_open { IsOpen pool.old id }
    requires room { used pool.old + (indent + length cells.now + 1) ≤ pool.old.capacity }
    ensures { pool.new ≡ with_text pool.old id (text pool.old id ++ line_of indent cells.now height) }
{
    append_blanks(pool, id, indent);
    append_all(pool, id, cells);
    let _ = pool.append(id, Element::LineEnd(Height::of(height)));
}

// The diversion, where a line of so many cells and of this height was taken.
fn with_line(diversion: Option<Diversion>, cells: usize, height: u32) -> Option<Diversion>
    ensures { result ≡ option_map (taken cells height) diversion }
{
    let Some(diversion) = diversion else {
        return None;
    };
    Some(diversion.with_line(cells, height))
}

impl<K: Copy> Store<K> {
    /// Adds cells to the newest text being built: all of them or, where they can't be afforded, none. Nothing happens where
    /// none is being built.
    pub fn add_cells(&mut self, cells: &[Cell]) -> Result<(), StoredBytes>
        ensures answer { result ≡ afforded (added (map elements.Cell cells.now) self.old) tt }
        ensures ok { OnOk result (self.new ≡ added (map elements.Cell cells.now) self.old) }
        ensures err { OnErr result (self.new ≡ self.old) }
    {
        let Some(draft) = self.drafts.top() else {
            return Ok(());
        };
        let room = (self.stored - self.charge) as usize;
        if room < cells.len() {
            return Err(StoredBytes);
        }
        append_all(&mut self.pool, draft.id, cells);
        self.charge += cells.len() as u32;
        Ok(())
    }

    /// Adds a line to the newest text being built: so many blanks, the cells, and a line end of this height in u. It is
    /// checked once, for all of it. A diversion's height and width grow by it. Nothing happens where no text is being
    /// built.
    ///
    /// Proved: A diverted line goes in as blanks, cells and its end, at once or in parts. (`Store::{add_line,
    /// add_cells, end_line}`)
    pub fn add_line(&mut self, indent: u32, cells: &[Cell], height: u32) -> Result<(), StoredBytes>
        ensures answer { result ≡ afforded (diverted indent cells.now height self.old) tt }
        ensures ok { OnOk result (self.new ≡ diverted indent cells.now height self.old) }
        ensures err { OnErr result (self.new ≡ self.old) }
    {
        let Some(draft) = self.drafts.top() else {
            return Ok(());
        };
        let width = indent as usize + cells.len();
        let room = (self.stored - self.charge) as usize;
        if room <= width {
            return Err(StoredBytes);
        }
        let Draft { id, diversion } = draft;
        append_line(&mut self.pool, id, indent, cells, height);
        self.drafts.set_top(Draft {
            id,
            diversion: with_line(diversion, width, height),
        });
        self.charge += width as u32 + 1;
        Ok(())
    }

    /// Ends a line of the newest text being built whose cells, so many, were added one by one: adds a line end of this
    /// height in u. A diversion's height and width grow by the line. Nothing happens where no text is being built.
    pub fn end_line(&mut self, cells: u32, height: u32) -> Result<(), StoredBytes>
        ensures answer { result ≡ afforded (diverted_end cells height self.old) tt }
        ensures ok { OnOk result (self.new ≡ diverted_end cells height self.old) }
        ensures err { OnErr result (self.new ≡ self.old) }
    {
        let Some(draft) = self.drafts.top() else {
            return Ok(());
        };
        if self.charge == self.stored {
            return Err(StoredBytes);
        }
        let Draft { id, diversion } = draft;
        let Ok(()) = self.pool.append(id, Element::LineEnd(Height::of(height))) else {
            return Err(StoredBytes);
        };
        self.drafts.set_top(Draft {
            id,
            diversion: with_line(diversion, cells as usize, height),
        });
        self.charge += 1;
        Ok(())
    }
}
