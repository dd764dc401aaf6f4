//! What texts are made of, and what is kept beside a text that is being built.
ghost use Rattle.std.specs.Prelude.{◌≡◌};
ghost use Rattle.nr_store.specs.Store.{fresh, taken};

use crate::height::Height;
use nr_pool::Id;
use nr_symbol_tables::Trap;
use nr_units::Name;
use nr_vectors::cell::Cell;

// The greatest height and width that are reported, in u.
const GREATEST: u64 = 2147483647;

/// One element of a text.
#[derive(Clone, Copy)]
pub enum Element {
    /// A byte, to be read as input.
    Byte(u8),
    /// A cell of a diverted line, set already.
    Cell(Cell),
    /// The end of a diverted line of this height in u.
    LineEnd(Height),
}

/// An open diversion (CSTR 54, diversions).
#[derive(Clone, Copy)]
pub struct Diversion {
    /// The name that its text takes when it ends.
    pub name: Name,
    /// The height of the lines that it has taken, in u, 2147483647 at most.
    pub height: u32,
    /// The width of the widest of these lines, indent included, in u, 2147483647 at most.
    pub width: u32,
    /// The trap in it.
    pub trap: Option<Trap>,
}

impl Diversion {
    // One that has taken no line.
    pub(crate) fn fresh(name: Name) -> Diversion
        ensures { result ≡ fresh name }
    {
        Diversion {
            name,
            height: 0,
            width: 0,
            trap: None,
        }
    }

    // The same with this trap.
    pub(crate) fn with_trap(self, trap: Option<Trap>) -> Diversion
        ensures { result ≡ record self { trap = trap } }
    {
        Diversion {
            name: self.name,
            height: self.height,
            width: self.width,
            trap,
        }
    }

    // The same, where a line of so many cells and of this height was taken.
    pub(crate) fn with_line(self, cells: usize, height: u32) -> Diversion
        ensures { result ≡ taken cells height self }
    {
        let cells = cells.min(GREATEST as usize) as u64;
        let width = (24 * cells).min(GREATEST) as u32;
        let height = (u64::from(self.height) + u64::from(height)).min(GREATEST) as u32;
        Diversion {
            name: self.name,
            height,
            width: self.width.max(width).min(GREATEST as u32),
            trap: self.trap,
        }
    }
}

/// What is kept of a text that is being built.
#[derive(Clone, Copy)]
pub struct Draft {
    pub(crate) id: Id,
    pub(crate) diversion: Option<Diversion>,
}

impl Draft {
    /// A draft to fill new slices with.
    pub const fn blank() -> Draft {
        Draft {
            id: Id::blank(),
            diversion: None,
        }
    }
}
