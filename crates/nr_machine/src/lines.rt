//! The lines that go out where a word or a text line ended. (CSTR 54, section 4.)
ghost use Rattle.std.specs.Prelude.{◌≡◌, ◌<◌, ◌≤◌, length};
ghost use Rattle.nr_formatter.specs.Access.{collected};
ghost use Rattle.nr_formatter.specs.Places.{outlet};
ghost use Rattle.nr_formatter.specs.Diversions.{divert_line};
ghost use Rattle.nr_formatter.specs.declared.paper.Outlet.TheVariants as outlets;
ghost use Rattle.nr_machine.specs.State.{plainly};
ghost use Rattle.nr_machine.specs.Machine.{offset, put_line_to, put_line, flow};
ghost use Rattle.nr_units.specs.Failures.{put_counted_if};
ghost use Rattle.nr_formatter.specs.declared.tasks.Task.TheVariants as tasks;
ghost use Rattle.nr_machine.specs.Run.{fails_writing};
ghost use Rattle.nr_machine.specs.Holding.{shape, IsUnderWay, Works, WorksQuietly};
ghost use Rattle.nr_machine.specs.Limits.{limits_of};

use crate::engine::Engine;
use crate::outcome::{Measure, Stop};
use nr_formatter::lines::Going;
use nr_formatter::paper::Outlet;
use nr_formatter::tasks::After;
use nr_units::sink::Sink;

impl Engine {
    /// The page offset, in cells.
    pub(crate) fn offset(&self) -> u32
        ensures value { result ≡ offset self.now.formatter }
        ensures within { result ≤ 1365 }
    {
        self.formatter.settings.indents.page_offset.value.cells()
    }

    /// The line goes into the innermost diversion.
    fn divert_line(&mut self, going: Going) -> Result<(), Measure>
        requires { 0 < length (collected self.old.formatter).pieces }
        ensures works { WorksQuietly (plainly (divert_line going)) (shape self.old) (shape self.new) result }
        ensures limits { limits_of (shape self.new) ≡ limits_of (shape self.old) }
    {
        match self.formatter.divert_line(going) {
            Ok(()) => {
                self.formatter.fit_memory();
                Ok(())
            }
            Err(_) => Err(Measure::Stored),
        }
    }

    /// The line goes on the open page.
    fn place_line(&mut self, going: Going) -> Result<(), Measure>
        requires { 0 < length (collected self.old.formatter).pieces }
        ensures works { WorksQuietly (put_line_to outlets.Room going) (shape self.old)
            (shape self.new) result }
        ensures limits { limits_of (shape self.new) ≡ limits_of (shape self.old) }
    {
        let offset = self.offset();
        let height = self.formatter.settings.pages.spacing.units();
        self.row.clear();
        self.formatter.set_line(going, offset, &mut self.row);
        self.formatter.fit_memory();
        self.place_row(height)
    }

    /// The line that goes out is diverted, or finds room and is placed.
    pub(crate) fn put_line<W: Sink>(&mut self, going: Going, output: &mut W) -> Result<(), Stop>
        requires { 0 < length (collected self.old.formatter).pieces }
        ensures works { Works (put_line going) (shape self.old) (shape self.new) (W.held output.old)
            (W.held output.new) result }
        ensures limits { limits_of (shape self.new) ≡ limits_of (shape self.old) }
        ensures failures { W.failures output.new ≡ put_counted_if (fails_writing result)
            (W.failures output.old) }
    {
        match self.formatter.outlet() {
            Outlet::Diversion => Stop::of_limit(self.divert_line(going)),
            Outlet::Room => Stop::of_limit(self.place_line(going)),
            outlet => self.turn_page(outlet, output),
        }
    }

    /// Full lines go out, and then all, where that is asked for.
    pub(crate) fn flow<W: Sink>(
        &mut self,
        after: After,
        breaks: bool,
        output: &mut W,
    ) -> Result<(), Stop>
        requires { IsUnderWay (tasks.Flow after breaks) self.old.formatter }
        ensures works { Works (flow after breaks) (shape self.old) (shape self.new) (W.held output.old)
            (W.held output.new) result }
        ensures limits { limits_of (shape self.new) ≡ limits_of (shape self.old) }
        ensures failures { W.failures output.new ≡ put_counted_if (fails_writing result)
            (W.failures output.old) }
    {
        match self.formatter.flow_line(after, breaks) {
            Some(going) => self.put_line(going, output),
            None => {
                self.formatter.flow_done(after);
                Ok(())
            }
        }
    }
}
