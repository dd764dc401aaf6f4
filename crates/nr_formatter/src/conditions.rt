//! Conditions on the page and on numbers. (CSTR 54, section 16.)
ghost use Rattle.std.specs.Prelude.{◌≡◌};
ghost use Rattle.nr_formatter.specs.Conditions.{holds, answered};

use crate::formatter::Formatter;
use nr_input::{Event, Question};
use nr_settings::is_true_number;

impl Formatter {
    /// Whether what was asked holds.
    fn holds(&self, question: Question) -> bool
        ensures { result ≡ holds question self.now }
    {
        match question {
            Question::Odd => self.paper.number.unsigned_abs() % 2 == 1,
            Question::Even => self.paper.number.unsigned_abs() % 2 == 0,
            Question::Number => is_true_number(self.reader.line(), self.settings.pages.spacing),
        }
    }

    /// The question is answered.
    pub fn judge(&mut self, question: Question)
        ensures { self.new ≡ answered question self.old }
    {
        let holds = self.holds(question);
        self.reader.accept(holds);
        self.event = Event::Nothing;
    }
}
