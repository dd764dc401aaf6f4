//! Ejecting a page. (CSTR 54, section 3.)
ghost use Rattle.std.specs.Prelude.{◌≡◌, ◌≤ℤ◌, pos, true};
ghost use Rattle.nr_formatter.specs.Pages.{names_text};
ghost use Rattle.nr_formatter.specs.Springing.{ejected_to};
ghost use Rattle.nr_machine.specs.State.{plainly};
ghost use Rattle.nr_machine.specs.Machine.{eject};
ghost use Rattle.nr_units.specs.Failures.{put_counted_if};
ghost use Rattle.nr_formatter.specs.declared.tasks.Task.TheVariants as tasks;
ghost use Rattle.nr_machine.specs.Run.{fails_writing};
ghost use Rattle.nr_machine.specs.Holding.{shape, IsUnderWay, Works, WorksQuietly};
ghost use Rattle.nr_machine.specs.Limits.{limits_of};

use crate::engine::Engine;
use crate::outcome::{Measure, Stop};
use nr_formatter::tasks::Ejected;
use nr_store::Trap;
use nr_units::sink::Sink;

impl Engine {
    /// The page goes to a trap, whose macro springs.
    fn eject_to(&mut self, trap: Trap) -> Result<(), Measure>
        requires below { pos 0 ≤ℤ trap.place }
        requires named { names_text trap.name self.old.formatter ≡ true }
        ensures works { WorksQuietly (plainly (ejected_to trap)) (shape self.old) (shape self.new) result }
        ensures limits { limits_of (shape self.new) ≡ limits_of (shape self.old) }
    {
        Measure::of_splice(self.formatter.eject_to(trap))
    }

    /// The page that is being ejected goes to the next trap, and with none left it ends.
    pub(crate) fn eject<W: Sink>(&mut self, ejected: Ejected, output: &mut W) -> Result<(), Stop>
        requires { IsUnderWay (tasks.Eject ejected) self.old.formatter }
        ensures works { Works (eject ejected) (shape self.old) (shape self.new) (W.held output.old)
            (W.held output.new) result }
        ensures limits { limits_of (shape self.new) ≡ limits_of (shape self.old) }
        ensures failures { W.failures output.new ≡ put_counted_if (fails_writing result)
            (W.failures output.old) }
    {
        if !self.formatter.is_ejecting() {
            self.formatter.task = ejected.task();
            return Ok(());
        }
        match self.formatter.next_springing() {
            Some(trap) => Stop::of_limit(self.eject_to(trap)),
            None => self.end_page(output),
        }
    }
}
