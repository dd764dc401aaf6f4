//! Sprung macros: their text comes before the rest of the input, and after it what was under way is gone on with.
//! (CSTR 54, section 7.5)
ghost use Rattle.std.specs.Prelude.{◌≡◌, true, Some, OnOk};
ghost use Rattle.nr_reading.specs.declared.event.Event.TheVariants as events;
ghost use Rattle.nr_formatter.specs.declared.tasks.Task.TheVariants as tasks;
ghost use Rattle.nr_formatter.specs.Limits.{IsWithin, limits_of};
ghost use Rattle.nr_formatter.specs.Pages.{names_text};
ghost use Rattle.nr_formatter.specs.Registers.{splice_checked};
ghost use Rattle.nr_formatter.specs.Springing.{interrupted, sprung, resumed};
ghost use Rattle.nr_input.specs.Weights.{left_to_resume};
ghost use Rattle.nr_formatter.specs.Weights.{Falls};

use crate::formatter::Formatter;
use crate::request_line::RequestLine;
use crate::tasks::{Resume, Task};
use nr_input::{Event, Refusal};
use nr_units::Name;

impl Formatter {
    /// What a sprung macro interrupts now.
    fn interrupted(&self) -> Resume
        ensures { result ≡ interrupted self.now }
    {
        Resume {
            task: self.task,
            standing: self.reader.standing(),
            line: RequestLine::of(self.reader.line()),
        }
    }

    /// The macro of this name springs. A name without text springs nothing.
    ///
    /// Proved: A macro springs before the rest of the input, and after it what was interrupted is gone on with.
    /// (`Formatter::{spring, resume}`)
    pub fn spring(&mut self, name: Name) -> Result<(), Refusal>
        ensures result { IsWithin self.old → result ≡ splice_checked (sprung name self.old) }
        ensures ok { OnOk result (self.new ≡ sprung name self.old) }
        ensures limits { limits_of self.new ≡ limits_of self.old }
        ensures text { names_text name self.old ≡ true → OnOk result (Falls 4 0 self.old self.new) }
        ensures falls { self.old.springs ≡ Some name → OnOk result (Falls 1 0 self.old self.new) }
    {
        let resume = self.interrupted();
        match self.reader.spring(&mut self.store, name, resume) {
            Err(refusal) => Err(refusal),
            Ok(sprung) => {
                self.springs = None;
                if sprung {
                    self.task = Task::Read;
                }
                Ok(())
            }
        }
    }

    /// What was under way is gone on with, after the text of a sprung macro.
    pub fn resume(&mut self, resume: &Resume)
        ensures is { self.new ≡ resumed resume.now self.old }
        ensures falls { self.old.event ≡ events.Nothing → self.old.task ≡ tasks.Read
            → Falls 0 left_to_resume self.old self.new }
    {
        self.reader.stand(resume.standing);
        self.reader.set_line(resume.line.as_slice());
        self.event = Event::Nothing;
        self.task = resume.task;
    }
}
