//! Titles of three parts go out. (CSTR 54, section 14.)
ghost use Rattle.std.specs.Prelude.{◌≡◌};
ghost use Rattle.nr_formatter.specs.Places.{outlet};
ghost use Rattle.nr_formatter.specs.Diversions.{divert_title};
ghost use Rattle.nr_formatter.specs.declared.paper.Outlet.TheVariants as outlets;
ghost use Rattle.nr_machine.specs.State.{plainly};
ghost use Rattle.nr_machine.specs.Machine.{title_to};
ghost use Rattle.nr_units.specs.Failures.{put_counted_if};
ghost use Rattle.nr_formatter.specs.declared.tasks.Task.TheVariants as tasks;
ghost use Rattle.nr_machine.specs.Run.{fails_writing};
ghost use Rattle.nr_machine.specs.Holding.{shape, IsUnderWay, Works, WorksQuietly};
ghost use Rattle.nr_machine.specs.Limits.{limits_of};

use crate::engine::Engine;
use crate::outcome::{Measure, Stop};
use nr_formatter::paper::Outlet;
use nr_units::sink::Sink;

impl Engine {
    /// The title goes into the innermost diversion.
    fn divert_title(&mut self) -> Result<(), Measure>
        requires { IsUnderWay tasks.Title self.old.formatter }
        ensures works { WorksQuietly (plainly divert_title) (shape self.old) (shape self.new) result }
        ensures limits { limits_of (shape self.new) ≡ limits_of (shape self.old) }
    {
        match self.formatter.divert_title() {
            Ok(()) => Ok(()),
            Err(_) => Err(Measure::Stored),
        }
    }

    /// The title goes on the open page.
    fn place_title(&mut self) -> Result<(), Measure>
        requires { IsUnderWay tasks.Title self.old.formatter }
        ensures works { WorksQuietly (title_to outlets.Room) (shape self.old) (shape self.new) result }
        ensures limits { limits_of (shape self.new) ≡ limits_of (shape self.old) }
    {
        let offset = self.offset();
        let height = self.formatter.settings.pages.spacing.units();
        self.row.clear();
        self.formatter.set_title(offset, &mut self.row);
        self.formatter.fit_memory();
        self.place_row(height)
    }

    /// The title that was read is diverted, or finds room and is placed.
    pub(crate) fn put_title<W: Sink>(&mut self, output: &mut W) -> Result<(), Stop>
        requires { IsUnderWay tasks.Title self.old.formatter }
        ensures works { Works (λ s. title_to (outlet s.formatter) s) (shape self.old) (shape self.new)
            (W.held output.old) (W.held output.new) result }
        ensures limits { limits_of (shape self.new) ≡ limits_of (shape self.old) }
        ensures failures { W.failures output.new ≡ put_counted_if (fails_writing result)
            (W.failures output.old) }
    {
        match self.formatter.outlet() {
            Outlet::Diversion => Stop::of_limit(self.divert_title()),
            Outlet::Room => Stop::of_limit(self.place_title()),
            outlet => self.turn_page(outlet, output),
        }
    }
}
