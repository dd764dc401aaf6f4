//! Vertical space finds room. (CSTR 54, section 5.)
ghost use Rattle.std.specs.Prelude.{◌≡◌};
ghost use Rattle.nr_formatter.specs.Diversions.{with_diverted_space};
ghost use Rattle.nr_machine.specs.State.{plainly};
ghost use Rattle.nr_machine.specs.Machine.{put_space};
ghost use Rattle.nr_units.specs.Failures.{put_counted_if};
ghost use Rattle.nr_formatter.specs.declared.tasks.Task.TheVariants as tasks;
ghost use Rattle.nr_machine.specs.Run.{fails_writing};
ghost use Rattle.nr_machine.specs.Holding.{shape, IsUnderWay, Works, WorksQuietly};
ghost use Rattle.nr_machine.specs.Limits.{limits_of};

use crate::engine::Engine;
use crate::outcome::{Measure, Stop};
use nr_formatter::paper::Outlet;
use nr_formatter::tasks::Task;
use nr_units::sink::Sink;

impl Engine {
    /// Space of so many u goes into the innermost diversion.
    fn divert_space(&mut self, distance: u32) -> Result<(), Measure>
        requires { IsUnderWay (tasks.Space distance) self.old.formatter }
        ensures works { WorksQuietly (plainly (with_diverted_space distance)) (shape self.old)
            (shape self.new) result }
        ensures limits { limits_of (shape self.new) ≡ limits_of (shape self.old) }
    {
        match self.formatter.divert_space(distance) {
            Ok(()) => Ok(()),
            Err(_) => Err(Measure::Stored),
        }
    }

    /// Space of so many u is diverted, or finds room and is placed; in no-space mode there is none.
    pub(crate) fn put_space<W: Sink>(&mut self, distance: u32, output: &mut W) -> Result<(), Stop>
        requires { IsUnderWay (tasks.Space distance) self.old.formatter }
        ensures works { Works (put_space distance) (shape self.old) (shape self.new) (W.held output.old)
            (W.held output.new) result }
        ensures limits { limits_of (shape self.new) ≡ limits_of (shape self.old) }
        ensures failures { W.failures output.new ≡ put_counted_if (fails_writing result)
            (W.failures output.old) }
    {
        if self.formatter.is_spaceless(distance) {
            self.formatter.task = Task::Read;
            return Ok(());
        }
        match self.formatter.outlet() {
            Outlet::Diversion => Stop::of_limit(self.divert_space(distance)),
            Outlet::Room => {
                self.formatter.space_down(distance);
                Ok(())
            }
            outlet => self.turn_page(outlet, output),
        }
    }
}
