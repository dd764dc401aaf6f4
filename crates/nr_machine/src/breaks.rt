//! Breaks. (CSTR 54, section 4.)
ghost use Rattle.std.specs.Prelude.{◌≡◌, is_none, false};
ghost use Rattle.nr_formatter.specs.Access.{collected};
ghost use Rattle.nr_formatter.specs.Lines.{break_word_end};
ghost use Rattle.nr_machine.specs.State.{plainly};
ghost use Rattle.nr_machine.specs.Machine.{break_part, break_out};
ghost use Rattle.nr_units.specs.Failures.{put_counted_if};
ghost use Rattle.nr_formatter.specs.declared.tasks.Task.TheVariants as tasks;
ghost use Rattle.nr_machine.specs.Run.{fails_writing};
ghost use Rattle.nr_machine.specs.Holding.{shape, IsUnderWay, Works, WorksQuietly};
ghost use Rattle.nr_machine.specs.Limits.{limits_of};

use crate::engine::Engine;
use crate::outcome::{Measure, Stop};
use nr_formatter::tasks::Then;
use nr_units::sink::Sink;

impl Engine {
    /// The word ends before a break.
    fn end_word(&mut self) -> Result<(), Measure>
        requires { is_none (collected self.old.formatter).word ≡ false }
        ensures works { WorksQuietly (plainly break_word_end) (shape self.old) (shape self.new) result }
        ensures limits { limits_of (shape self.new) ≡ limits_of (shape self.old) }
    {
        match self.formatter.break_word_end() {
            Ok(()) => Ok(()),
            Err(_) => Err(Measure::LineCells),
        }
    }

    /// The word ends, the first page begins, and all that is collected goes out.
    fn break_part<W: Sink>(&mut self, then: Then, output: &mut W) -> Result<(), Stop>
        requires { IsUnderWay (tasks.Break then) self.old.formatter }
        ensures works { Works (break_part then) (shape self.old) (shape self.new) (W.held output.old)
            (W.held output.new) result }
        ensures limits { limits_of (shape self.new) ≡ limits_of (shape self.old) }
        ensures failures { W.failures output.new ≡ put_counted_if (fails_writing result)
            (W.failures output.old) }
    {
        if self.formatter.line.has_word() {
            return Stop::of_limit(self.end_word());
        }
        if self.formatter.begins_first_page(then) {
            self.begin_page();
            return Ok(());
        }
        match self.formatter.break_line() {
            Some(going) => self.put_line(going, output),
            None => {
                self.formatter.break_done(then);
                Ok(())
            }
        }
    }

    /// What `\c` continues ends, and the break goes on.
    pub(crate) fn break_out<W: Sink>(&mut self, then: Then, output: &mut W) -> Result<(), Stop>
        requires { IsUnderWay (tasks.Break then) self.old.formatter }
        ensures works { Works (break_out then) (shape self.old) (shape self.new) (W.held output.old)
            (W.held output.new) result }
        ensures limits { limits_of (shape self.new) ≡ limits_of (shape self.old) }
        ensures failures { W.failures output.new ≡ put_counted_if (fails_writing result)
            (W.failures output.old) }
    {
        self.formatter.reader.end_continuing();
        self.break_part(then, output)
    }
}
