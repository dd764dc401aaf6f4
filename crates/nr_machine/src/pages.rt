//! Beginning and ending a page, and what is placed on it. (CSTR 54, section 3.)
ghost use Rattle.std.specs.Prelude.{◌≡◌, List, Option, Bool, Ok, Err, OnOk, OnErr, false};
ghost use Rattle.std.specs.Io.KnownBytes.{Appends};
ghost use Rattle.nr_units.specs.Sink.{AppendsPrefix};
ghost use Rattle.nr_fill.specs.CellRow.{IsRow};
ghost use Rattle.nr_vectors.specs.declared.cell.Cell.{Cell as CellValue};
ghost use Rattle.nr_page.specs.Page.{Holds as HoldsPage};
ghost use Rattle.nr_formatter.specs.Places.{is_open};
ghost use Rattle.nr_formatter.specs.Weights.{Falls};
ghost use Rattle.nr_machine.specs.State.{State};
ghost use Rattle.nr_machine.specs.Printing.{bytes_of};
ghost use Rattle.nr_machine.specs.Machine.{row_at, begin_page, end_page, turn_page, page_of};
ghost use Rattle.nr_units.specs.Failures.{put_counted, put_counted_if};
ghost use Rattle.nr_formatter.specs.declared.tasks.Task.TheVariants as tasks;
ghost use Rattle.nr_machine.specs.Run.{fails_writing};
ghost use Rattle.nr_machine.specs.Holding.{shape, IsUnderWay, NeedsPage, IsEnding, IsLighter, Comes, ComesQuietly, Works, Places};
ghost use Rattle.nr_machine.specs.Limits.{limits_of};

use crate::engine::Engine;
use crate::outcome::{Measure, Stop};
use nr_formatter::paper::Outlet;
use nr_page::page::WriteFault;
use nr_units::sink::Sink;

/// How high a row is, in u.
const ROW_HEIGHT: u32 = 40;

/// The row of a line that ends at this place, in u.
fn row_at(place: u32) -> u32
    ensures { result ≡ row_at place }
{
    (place / ROW_HEIGHT).saturating_sub(1)
}

impl Engine {
    /// A page begins.
    pub(crate) fn begin_page(&mut self)
        ensures comes { ComesQuietly begin_page (shape self.old) (shape self.new) (Ok tt) }
        ensures limits { limits_of (shape self.new) ≡ limits_of (shape self.old) }
        ensures opened { is_open self.old.formatter.paper.state ≡ false
            → IsLighter (shape self.old) (shape self.new) }
        ensures begun { (given : Option Bool) → IsUnderWay (tasks.Begin given) self.old.formatter
            → IsLighter (shape self.old) (shape self.new) }
    {
        let _length = self.formatter.settings.pages.page_length.units();
        self.page.clear();
        self.formatter.begin_page();
    }

    /// The bytes of the open page go out, if its number is one to print.
    fn print<W: Sink>(&self, output: &mut W) -> Result<(), WriteFault>
        ensures ok { OnOk result ((s : State) → HoldsPage s.lines self.now.page → s.select ≡ self.now.select
            → s.faces ≡ self.now.faces → s.formatter ≡ self.now.formatter
            → Appends (W.held output.old) (W.held output.new) (bytes_of (page_of s))) }
        ensures err { OnErr result ((s : State) → HoldsPage s.lines self.now.page → s.select ≡ self.now.select
            → s.faces ≡ self.now.faces → s.formatter ≡ self.now.formatter
            → AppendsPrefix (W.held output.old) (W.held output.new) (bytes_of (page_of s))) }
        ensures failures { W.failures output.new ≡ put_counted (W.failures output.old) result }
    {
        if !self.select.has(i64::from(self.formatter.paper.number)) {
            return Ok(());
        }
        let rows = self.formatter.settings.pages.page_length.units() / ROW_HEIGHT;
        self.page.write_page(self.faces, rows, output)
    }

    /// The open page ends: its bytes go out.
    pub(crate) fn end_page<W: Sink>(&mut self, output: &mut W) -> Result<(), Stop>
        ensures comes { Comes end_page (shape self.old) (shape self.new) (W.held output.old)
            (W.held output.new) result }
        ensures limits { limits_of (shape self.new) ≡ limits_of (shape self.old) }
        ensures lightens { IsEnding self.old.formatter
            → OnOk result (IsLighter (shape self.old) (shape self.new)) }
        ensures failures { W.failures output.new ≡ put_counted_if (fails_writing result)
            (W.failures output.old) }
    {
        match self.print(output) {
            Err(_) => Err(Stop::WriteFault),
            Ok(()) => {
                self.page.clear();
                self.formatter.page_ended();
                Ok(())
            }
        }
    }

    /// A full page ends, and where none is open one begins.
    pub(crate) fn turn_page<W: Sink>(&mut self, outlet: Outlet, output: &mut W) -> Result<(), Stop>
        requires { NeedsPage outlet self.old.formatter }
        ensures works { Works (turn_page outlet) (shape self.old) (shape self.new) (W.held output.old)
            (W.held output.new) result }
        ensures limits { limits_of (shape self.new) ≡ limits_of (shape self.old) }
        ensures failures { W.failures output.new ≡ put_counted_if (fails_writing result)
            (W.failures output.old) }
    {
        if matches!(outlet, Outlet::Full) {
            return self.end_page(output);
        }
        self.begin_page();
        Ok(())
    }

    /// The row goes on the page as a line of this height, in u.
    pub(crate) fn place_row(&mut self, height: u32) -> Result<(), Measure>
        ensures places { (cells : List CellValue) → IsRow cells self.old.row
            → Places cells height (shape self.old) (shape self.new) result }
        ensures limits { limits_of (shape self.new) ≡ limits_of (shape self.old) }
        ensures falls { OnOk result (Falls 0 4 self.old.formatter self.new.formatter
            × (self.new.place ≡ self.old.place)) }
    {
        let row = row_at(self.formatter.place_after(height));
        let Some(cells) = self.row.row() else {
            return Err(Measure::PageCells);
        };
        match self.page.place(row, cells) {
            Err(_) => Err(Measure::PageCells),
            Ok(()) => {
                self.row.clear();
                self.formatter.line_placed(height);
                Ok(())
            }
        }
    }
}
