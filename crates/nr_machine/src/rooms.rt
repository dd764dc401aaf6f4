//! The room of titles and of diverted lines, before they are read.
ghost use Rattle.std.specs.Prelude.{◌≡◌};
ghost use Rattle.nr_formatter.specs.Places.{outlet};
ghost use Rattle.nr_machine.specs.Machine.{room_in};
ghost use Rattle.nr_units.specs.Failures.{put_counted_if};
ghost use Rattle.nr_formatter.specs.declared.tasks.Task.TheVariants as tasks;
ghost use Rattle.nr_machine.specs.Run.{fails_writing};
ghost use Rattle.nr_machine.specs.Holding.{shape, IsUnderWay, Works};
ghost use Rattle.nr_machine.specs.Limits.{limits_of};

use crate::engine::Engine;
use crate::outcome::Stop;
use nr_formatter::paper::Outlet;
use nr_formatter::tasks::Room;
use nr_units::sink::Sink;

impl Engine {
    /// A title or a diverted line makes room, and is read then.
    pub(crate) fn make_room<W: Sink>(&mut self, room: Room, output: &mut W) -> Result<(), Stop>
        requires { IsUnderWay (tasks.Room room) self.old.formatter }
        ensures works { Works (λ s. room_in (outlet s.formatter) room s) (shape self.old) (shape self.new)
            (W.held output.old) (W.held output.new) result }
        ensures limits { limits_of (shape self.new) ≡ limits_of (shape self.old) }
        ensures failures { W.failures output.new ≡ put_counted_if (fails_writing result)
            (W.failures output.old) }
    {
        match self.formatter.outlet() {
            Outlet::Diversion | Outlet::Room => {
                self.formatter.read_in_room(room);
                Ok(())
            }
            outlet => self.turn_page(outlet, output),
        }
    }
}
