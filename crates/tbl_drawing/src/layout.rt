//! A table is measured, and goes out as lines of text.
ghost use Rattle.std.specs.Prelude.{◌≡◌, ◌+◌, [], ◌∷◌, true, false, IfOk, OnOk, OnErr};
ghost use Rattle.tbl_drawing.specs.Heights.{all_lines};
ghost use Rattle.tbl_drawing.specs.Held as held;
ghost use Rattle.tbl_drawing.specs.Lines.{closing};
ghost use Rattle.tbl_drawing.specs.Pens.{Bytes};
ghost use Rattle.tbl_drawing.specs.Tables as specs;
ghost use Rattle.tbl_drawing.specs.Tapes.{Draws};

use super::writing::Out;
use nr_units::sink::Sink;
use nr_units::source::Fault;
use nr_vectors::{CountedAlloc, FixedVec};
use std::alloc::AllocError;
use tbl_columns::{Grid, Room};
use tbl_table::{COLUMNS, LINES, Signs, Span, item_at};

/// A line of the table, or a request.
#[derive(Clone, Copy)]
pub(crate) struct Step {
    /// Its kind, and the rows, lines or text that it is of.
    pub kind: StepKind,
    /// The number of its line.
    pub line: usize,
}

/// What a line of a table is.
#[derive(Clone, Copy)]
pub(crate) enum StepKind {
    /// The outer rule of a double box, above it or below.
    Edge(bool),
    /// A rule between two rows.
    Rule(Option<usize>, Option<usize>),
    /// Room is asked for the rows that begin here.
    Before(usize),
    /// A row, with all its lines.
    Row(usize),
    /// So many lines of a row's bars.
    Bars(usize, usize),
    /// A request.
    Request(Span),
    /// The fields of a row that stand in no column.
    Beyond(usize),
}

/// How high a row is.
#[derive(Clone, Copy)]
pub(crate) struct Tall {
    /// Its step.
    pub step: usize,
    /// How many lines its own fields take.
    pub height: usize,
    /// How many more it has for a field that goes on from above.
    pub more: usize,
}

/// A table, as it is measured and drawn.
#[derive(Drop)]
pub struct Layout {
    /// The table, with its fields in columns.
    pub grid: Grid,
    /// Its lines and requests.
    pub(crate) steps: FixedVec<Step>,
    /// How high its rows are.
    pub(crate) talls: FixedVec<Tall>,
    /// The lines on which its fields begin, by number.
    pub(crate) begins: FixedVec<usize>,
    /// A part of the table went out.
    pub(crate) begun: bool,
    /// Its columns stay as they are.
    pub(crate) measured: bool,
    /// A table of the page went out in parts, and blocks of a later one may be wider than its columns.
    pub(crate) uneven: bool,
}

impl Step {
    /// One that does nothing.
    pub(crate) fn nothing() -> Step
        ensures { result ≡ held.no_step }
    {
        Step {
            kind: StepKind::Bars(0, 0),
            line: 0,
        }
    }
}

impl Tall {
    /// A row whose fields take so many lines.
    pub(crate) fn of(height: usize) -> Tall
        ensures { result ≡ held.tall_of height }
    {
        Tall {
            step: 0,
            height,
            more: 0,
        }
    }

    /// All its lines.
    pub(crate) fn lines(self) -> usize
        ensures { result ≡ held.lines_of self }
    {
        self.height.saturating_add(self.more)
    }
}

impl Layout {
    /// Takes the memory for a table of so many bytes, whose rows have so many at most, which is drawn with these, in a line.
    pub fn new(
        alloc: &mut CountedAlloc,
        most: usize,
        row: usize,
        signs: Signs,
        room: Room,
    ) -> Result<Layout, AllocError>
        ensures value { IfOk result (λ made. made ≡ held.first_layout signs room most row) }
        ensures taken { IfOk result (λ made. alloc.new ≡ alloc.old + held.memory_of most row) }
    {
        let rows = most / COLUMNS + 2;
        let items = rows * 2 + 2 * LINES;
        let cells = rows.saturating_mul(COLUMNS);
        let steps = FixedVec::new(alloc, items * 4 + 4)?;
        let talls = FixedVec::new(alloc, rows)?;
        let begins = FixedVec::new(alloc, cells)?;
        // Last, as it has the most parts: what may fail after it would give each back.
        let grid = Grid::new(alloc, most, row, signs, room)?;
        Ok(Layout {
            grid,
            steps,
            talls,
            begins,
            begun: false,
            measured: false,
            uneven: false,
        })
    }

    /// A table begins.
    pub fn begin(&mut self)
        ensures value { self.new ≡ held.begun self.old }
        ensures room { held.emptied self.new ≡ held.emptied self.old }
    {
        self.grid.begin();
        self.forget_lines();
        self.begun = false;
        self.measured = false;
    }

    /// A page begins: nothing is held of another.
    pub fn begin_page(&mut self)
        ensures value { self.new ≡ held.page_begun self.old }
        ensures room { held.emptied self.new ≡ held.emptied self.old }
    {
        self.begin();
        self.uneven = false;
    }

    /// No lines are known.
    fn forget_lines(&mut self)
        ensures value { self.new ≡ held.forgotten_lines self.old }
        ensures room { held.emptied self.new ≡ held.emptied self.old }
    {
        self.steps.clear();
        self.talls.clear();
        self.begins.clear();
    }

    /// A step.
    pub(crate) fn step(&self, number: usize) -> Step
        ensures { result ≡ held.step self.now number }
    {
        item_at(&self.steps, number, Step::nothing())
    }

    /// How high a row is.
    pub(crate) fn tall(&self, row: usize) -> Tall
        ensures { result ≡ held.tall self.now row }
    {
        item_at(&self.talls, row, Tall::of(1))
    }

    /// The line on which a field begins.
    pub(crate) fn begin_line(&self, number: usize) -> usize
        ensures { result ≡ held.begin_line self.now number }
    {
        item_at(&self.begins, number, 0)
    }

    /// Whether rows or requests were read, or went out.
    pub fn has_begun(&self) -> bool
        ensures { result ≡ held.has_begun self.now }
    {
        self.begun || self.grid.table.items.len() > 0
    }

    /// Whether a table of the page went out in parts whose columns may differ.
    pub fn is_uneven(&self) -> bool
        ensures { result ≡ self.now.uneven }
    {
        self.uneven
    }

    /// Whether the columns are those of the formats that were read.
    fn columns_stand(&self) -> bool
        ensures { result ≡ specs.columns_stand self.now }
    {
        self.grid.columns.len() == self.grid.table.width()
    }

    /// They become so: lines that went out stay as they are.
    fn renew_columns<W: Sink>(&mut self, out: &mut Out<'_, W>)
        ensures draws { Draws out.old out.new (Bytes (closing self.old.measured) ∷ []) }
        ensures value { self.new ≡ specs.columns_renewed self.old }
        ensures room { held.emptied self.new ≡ held.emptied self.old }
    {
        self.put_closing(self.measured, out);
        self.measured = false;
        self.grid.read_columns();
    }

    /// That, if they are not.
    fn open_columns<W: Sink>(&mut self, out: &mut Out<'_, W>)
        ensures draws { Draws out.old out.new (specs.columns_strokes self.old) }
        ensures value { self.new ≡ specs.columns_opened self.old }
        ensures room { held.emptied self.new ≡ held.emptied self.old }
    {
        if self.columns_stand() {
            return;
        }
        self.renew_columns(out);
    }

    /// Fields are placed.
    fn place(&mut self)
        ensures value { self.new ≡ specs.placed self.old }
        ensures room { held.emptied self.new ≡ held.emptied self.old }
    {
        self.grid.place_table();
    }

    /// Columns are measured, if lines of them went out.
    fn measure_part(&mut self)
        ensures value { self.new ≡ specs.part_measured self.old }
        ensures room { held.emptied self.new ≡ held.emptied self.old }
    {
        let grown = self.grid.measure_part();
        self.uneven = grown || self.uneven;
    }

    /// Columns are measured, if none of their lines went out.
    fn measure_table(&mut self)
        ensures value { self.new ≡ specs.table_measured self.old }
        ensures room { held.emptied self.new ≡ held.emptied self.old }
    {
        self.grid.measure_table();
    }

    /// Columns are measured.
    fn measure(&mut self)
        ensures value { self.new ≡ specs.measured self.old }
        ensures room { held.emptied self.new ≡ held.emptied self.old }
    {
        if self.measured {
            return self.measure_part();
        }
        self.measure_table();
    }

    /// Fields are in their places, and columns have their widths.
    fn make_ready<W: Sink>(&mut self, out: &mut Out<'_, W>)
        ensures draws { Draws out.old out.new (specs.columns_strokes self.old) }
        ensures value { self.new ≡ specs.ready self.old }
        ensures room { held.emptied self.new ≡ held.emptied self.old }
    {
        self.open_columns(out);
        self.place();
        self.measure();
    }

    /// Rows have their heights and fields their lines; tells how many lines there are.
    fn lay(&mut self, ends: bool) -> usize
        ensures value { self.new ≡ specs.laid ends self.old }
        ensures lines { result ≡ all_lines ends self.old }
        ensures room { held.emptied self.new ≡ held.emptied self.old }
    {
        let lines = self.settle_heights(ends);
        self.settle_lines();
        self.measured = !ends;
        lines
    }

    /// A part of the table went out: its rows are forgotten.
    fn forget_part(&mut self)
        ensures value { self.new ≡ specs.part_forgotten self.old }
        ensures room { held.emptied self.new ≡ held.emptied self.old }
    {
        self.begun = true;
        self.grid.forget_rows();
        self.forget_lines();
    }

    /// The table goes out, or the part of it that was read.
    fn put_parts<W: Sink>(&mut self, ends: bool, out: &mut Out<'_, W>)
        ensures draws { Draws out.old out.new (specs.table_strokes ends self.old) }
        ensures value { self.new ≡ specs.table_after ends self.old }
        ensures room { held.emptied self.new ≡ held.emptied self.old }
    {
        self.make_ready(out);
        let opens = !self.measured;
        let lines = self.lay(ends);
        self.put_lines(opens, lines, ends, out);
        self.forget_part();
    }

    /// The table goes out, or the part of it that was read: a fault where the sink failed, now or before.
    pub fn put_table<W: Sink>(&mut self, ends: bool, out: &mut Out<'_, W>) -> Result<(), Fault>
        ensures draws { Draws out.old out.new (specs.table_strokes ends self.old) }
        ensures value { self.new ≡ specs.table_after ends self.old }
        ensures room { held.emptied self.new ≡ held.emptied self.old }
        ensures ok { OnOk result (out.new.failed ≡ false) }
        ensures err { OnErr result (out.new.failed ≡ true) }
    {
        self.put_parts(ends, out);
        out.returned()
    }
}
