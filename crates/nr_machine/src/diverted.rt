//! Diverted lines that are read again. (CSTR 54, section 7.4.)
ghost use Rattle.std.specs.Prelude.{◌≡◌, ◌++◌, ◌∷◌, [], List, replicate, Ok};
ghost use Rattle.nr_vectors.specs.Cell.{blank};
ghost use Rattle.nr_vectors.specs.declared.cell.Cell.{Cell as CellValue};
ghost use Rattle.nr_fill.specs.CellRow.{IsRow, AddsToRow};
ghost use Rattle.nr_formatter.specs.Places.{outlet};
ghost use Rattle.nr_formatter.specs.declared.paper.Outlet.TheVariants as outlets;
ghost use Rattle.nr_machine.specs.Machine.{margin_in, cell_to, line_to};
ghost use Rattle.nr_units.specs.Failures.{put_counted_if};
ghost use Rattle.nr_reading.specs.declared.event.Event.TheVariants as events;
ghost use Rattle.nr_formatter.specs.declared.tasks.Task.TheVariants as tasks;
ghost use Rattle.nr_machine.specs.Run.{fails_writing};
ghost use Rattle.nr_machine.specs.Holding.{shape, IsUnderWay, Works, WorksQuietly};
ghost use Rattle.nr_machine.specs.Limits.{limits_of};

use crate::engine::Engine;
use crate::outcome::{Measure, Stop};
use nr_fill::cells::CellSink;
use nr_formatter::paper::Outlet;
use nr_formatter::tasks::Task;
use nr_input::Event;
use nr_units::sink::Sink;
use nr_vectors::cell::Cell;

impl Engine {
    /// How many blanks stand before the next cell, in cells: the margin before the first.
    fn margin(&self, margin: u32) -> u32
        ensures { (cells : List CellValue) → IsRow cells self.now.row → result ≡ margin_in margin cells }
    {
        if self.row.is_empty() { margin } else { 0 }
    }

    /// A cell goes into the row, after so many blanks where it is the first.
    fn push(&mut self, margin: u32, cell: Cell)
        ensures row { AddsToRow self.old.row (replicate margin blank ++ cell ∷ []) self.new.row }
        ensures rest { shape self.new ≡ record (shape self.old) { row = self.new.row } }
    {
        self.row.blanks(margin as usize);
        self.row.push(cell);
    }

    /// The cell goes into the row and into the innermost diversion.
    fn divert_cell(&mut self, cell: Cell) -> Result<(), Measure>
        requires { self.old.formatter.event ≡ events.DivertedCell cell }
        ensures works { WorksQuietly (cell_to outlets.Diversion cell) (shape self.old)
            (shape self.new) result }
        ensures limits { limits_of (shape self.new) ≡ limits_of (shape self.old) }
    {
        let indent = self.formatter.settings.indents.indent.value.cells();
        let blanks = self.margin(indent);
        match self.formatter.divert_cell(blanks, cell) {
            Err(_) => Err(Measure::Stored),
            Ok(()) => {
                self.push(blanks, cell);
                self.formatter.fit_memory();
                self.formatter.event = Event::Nothing;
                Ok(())
            }
        }
    }

    /// The cell goes into the row.
    fn read_cell(&mut self, cell: Cell)
        requires { self.old.formatter.event ≡ events.DivertedCell cell }
        ensures works { WorksQuietly (cell_to outlets.Room cell) (shape self.old) (shape self.new) (Ok tt) }
        ensures limits { limits_of (shape self.new) ≡ limits_of (shape self.old) }
    {
        let indent = self.formatter.settings.indents.indent.value.cells();
        let blanks = self.margin(self.offset() + indent);
        self.push(blanks, cell);
        self.formatter.event = Event::Nothing;
    }

    /// A cell of a diverted line that is read again goes into its row, and where that is diverted also there.
    pub(crate) fn put_diverted_cell(&mut self, cell: Cell) -> Result<(), Measure>
        requires { self.old.formatter.event ≡ events.DivertedCell cell }
        ensures works { WorksQuietly (λ s. cell_to (outlet s.formatter) cell s) (shape self.old)
            (shape self.new) result }
        ensures limits { limits_of (shape self.new) ≡ limits_of (shape self.old) }
    {
        match self.formatter.outlet() {
            Outlet::Diversion => self.divert_cell(cell),
            _ => {
                self.read_cell(cell);
                Ok(())
            }
        }
    }

    /// The diverted line ends in the innermost diversion.
    fn end_line(&mut self, height: u32) -> Result<(), Measure>
        requires { IsUnderWay (tasks.Line height) self.old.formatter }
        ensures works { WorksQuietly (line_to outlets.Diversion height) (shape self.old)
            (shape self.new) result }
        ensures limits { limits_of (shape self.new) ≡ limits_of (shape self.old) }
    {
        let cells = self.row.written().min(u32::MAX as usize) as u32;
        match self.formatter.divert_line_end(cells, height) {
            Err(_) => Err(Measure::Stored),
            Ok(()) => {
                self.row.clear();
                Ok(())
            }
        }
    }

    /// The diverted line goes on the open page as it is.
    fn place_diverted_line(&mut self, height: u32) -> Result<(), Measure>
        requires { IsUnderWay (tasks.Line height) self.old.formatter }
        ensures works { WorksQuietly (line_to outlets.Room height) (shape self.old) (shape self.new) result }
        ensures limits { limits_of (shape self.new) ≡ limits_of (shape self.old) }
    {
        self.formatter.task = Task::Read;
        self.place_row(height)
    }

    /// The diverted line that was read again is diverted, or finds room and is placed. Its height is in u.
    pub(crate) fn put_diverted_line<W: Sink>(
        &mut self,
        height: u32,
        output: &mut W,
    ) -> Result<(), Stop>
        requires { IsUnderWay (tasks.Line height) self.old.formatter }
        ensures works { Works (λ s. line_to (outlet s.formatter) height s) (shape self.old) (shape self.new)
            (W.held output.old) (W.held output.new) result }
        ensures limits { limits_of (shape self.new) ≡ limits_of (shape self.old) }
        ensures failures { W.failures output.new ≡ put_counted_if (fails_writing result)
            (W.failures output.old) }
    {
        match self.formatter.outlet() {
            Outlet::Diversion => Stop::of_limit(self.end_line(height)),
            Outlet::Room => Stop::of_limit(self.place_diverted_line(height)),
            outlet => self.turn_page(outlet, output),
        }
    }
}
