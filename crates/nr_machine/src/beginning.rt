//! How a run begins: the memory that its limits allow, and nothing read or placed.
ghost use Rattle.std.specs.Prelude.{◌≡◌, ◌+◌, ◌*◌, ◌^◌, ◌≤◌, IfOk};
ghost use Rattle.nr_machine.specs.Choosing.{IsNew};
ghost use Rattle.nr_machine.specs.Holding.{shape};
ghost use Rattle.nr_machine.specs.Lengths.{sizes_of, sum_of};
ghost use Rattle.nr_machine.specs.Limits.{limits_of, limits_under};

use crate::engine::Engine;
use crate::lengths::Sizes;
use nr_fill::line::Line;
use nr_fill::out::Out;
use nr_formatter::formatter::Formatter;
use nr_formatter::tasks::Resume;
use nr_input::Place;
use nr_options::{Limits, Options};
use nr_page::page::{Page, room};
use nr_page::{Faces, Select};
use nr_store::memory::Room;
use nr_vectors::CountedAlloc;
use std::alloc::AllocError;

/// The lengths that the limits ask for.
///
/// Proved: The room that the limits ask for is `4S + 4D + 6P + 8192` elements at most.
pub fn sizes(limits: Limits) -> Sizes
    ensures value { result ≡ sizes_of limits }
    ensures bound { sum_of result ≤ 4 * limits.stored + 4 * limits.depth + 6 * limits.cells + 8192 }
{
    let store = Room::of(limits.stored() as u32, limits.depth() as u32);
    let line = Line::room(limits.cells());
    let page = room(limits.cells());
    Sizes {
        elements: store.elements,
        slots: store.slots,
        names: store.names,
        drafts: store.drafts,
        frames: store.frames,
        modes: store.modes,
        bytes: store.bytes,
        places: store.places,
        gathering: store.gathering,
        registers: store.registers,
        traps: store.traps,
        trap_order: store.trap_order,
        words: store.words,
        kinds: store.kinds,
        cells: line.cells,
        pieces: line.pieces,
        row: line.row,
        page_cells: page.cells,
        page_texts: page.texts,
        page_rows: page.rows,
    }
}

impl Engine {
    /// Nothing is read yet, and nothing placed: `AllocError` where there is no memory for what the limits allow. No other call
    /// allocates.
    ///
    /// Proved: An engine is made of as many elements of memory as `sizes` reports, by the count of the allocator.
    pub fn new(alloc: &mut CountedAlloc, limits: Limits) -> Result<Engine, AllocError>
        ensures limits { IfOk result (λ engine. limits_of (shape engine) ≡ limits_under limits) }
        ensures taken { IfOk result (λ engine. alloc.new ≡ alloc.old + sum_of (sizes_of limits)) }
    {
        let row = Out::new(alloc, Line::room(limits.cells()).row)?;
        let page = Page::new(alloc, limits.cells())?;
        let formatter = Formatter::new(
            alloc,
            limits.stored() as u32,
            limits.depth() as u32,
            limits.cells(),
            limits.expansions(),
        )?;
        Ok(Engine {
            formatter,
            place: Place::new(),
            row,
            page,
            select: Select::all(),
            faces: Faces::Letters,
            resumed: Resume::blank(),
        })
    }

    /// Stands where another under the same limits stands.
    ///
    /// Proved: An engine is made equal to another under the same limits.
    pub fn copy_from(&mut self, other: &Engine)
        requires { limits_of (shape other.now) ≡ limits_of (shape self.old) }
        ensures { shape self.new ≡ shape other.now }
    {
        self.formatter.copy_from(&other.formatter);
        self.place.copy_from(&other.place);
        self.row.copy_from(&other.row);
        self.page.copy_from(&other.page);
        self.select = other.select.copied();
        self.faces = other.faces;
        self.resumed = other.resumed;
    }

    /// Nothing is read yet, and nothing placed, under the limits that it was made for. What is printed is as the options say.
    ///
    /// Proved: An engine that is emptied stands where the machine begins: nothing is read and nothing placed, under
    /// the limits that it was made for.
    pub fn clear(&mut self, limits: Limits, options: &Options)
        requires { limits_of (shape self.old) ≡ limits_under limits }
        ensures is_new { IsNew limits options.now (shape self.new) }
        ensures stored { limits.stored ≤ 2 ^ 24 }
        ensures expansions { limits.expansions ≤ 2 ^ 32 }
    {
        let _stored = limits.stored();
        let _expansions = limits.expansions();
        self.formatter.clear();
        self.place = Place::new();
        self.row.clear();
        self.page.clear();
        self.select = options.select.copied();
        self.faces = options.faces;
        self.resumed = Resume::blank();
    }
}
