//! The end of the run, step by step. (groff manual, `.em`, `.ex`)
ghost use Rattle.std.specs.Prelude.{◌≡◌};
ghost use Rattle.nr_store.specs.declared.request.Request.TheVariants as requests;
ghost use Rattle.nr_reading.specs.declared.event.Event.TheVariants as events;
ghost use Rattle.nr_formatter.specs.declared.tasks.Task.TheVariants as tasks;
ghost use Rattle.nr_formatter.specs.Ending.{finish, end_last_diversion, em, ex};
ghost use Rattle.nr_formatter.specs.Weights.{Falls};

use crate::formatter::Formatter;
use crate::tasks::{Ejected, Step, Task, Then};
use nr_input::Event;
use nr_settings::Arguments;

impl Formatter {
    /// The next step of the end.
    pub(crate) fn finish(&mut self)
        ensures { self.new ≡ finish self.old }
    {
        match self.step {
            Step::NotYet => {
                self.step = Step::FirstBreak;
                self.task = Task::Break(Then::Finish);
            }
            Step::FirstBreak | Step::SecondBreak => self.task = Task::Break(Then::Finish),
            Step::Macro => {
                self.step = Step::SecondBreak;
                self.springs = self.end_macro;
            }
            Step::Diversions => self.end_last_diversion(),
            Step::LastPage => self.task = Task::Halted,
        }
    }

    /// Open diversions end one after the other, from the innermost outwards, and then the open page is ejected.
    fn end_last_diversion(&mut self)
        ensures { self.new ≡ end_last_diversion self.old }
    {
        if self.end_diversion() {
            return;
        }
        self.step = Step::LastPage;
        self.paper.ejecting = true;
        self.task = Task::Eject(Ejected::Finish);
    }

    /// `.em`
    pub(crate) fn em(&mut self)
        ensures { self.new ≡ em self.old }
    {
        let long = self.reader.long_names();
        self.end_macro = Arguments::of(self.reader.line()).name(long);
        self.task = Task::Read;
    }

    /// `.ex`, once nothing is to come of the source: the levels are empty, and the end of the input is read.
    pub fn ex(&mut self)
        ensures is { self.new ≡ ex self.old }
        ensures falls { self.old.event ≡ events.Nothing → self.old.task ≡ tasks.Act requests.Ex
            → Falls 1 0 self.old self.new }
    {
        self.store.clear_levels();
        self.event = Event::Nothing;
        self.task = Task::Read;
    }
}
