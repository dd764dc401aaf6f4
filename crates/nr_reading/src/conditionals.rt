//! Answers of conditions, and what follows them.
ghost use Rattle.std.specs.Prelude.{◌≡◌};
ghost use Rattle.nr_reading.specs.Conditionals.{part_mode, else_mode};

use super::half::Half;
use super::mode::Mode;
use super::notes::Condition;

// The part that follows is accepted, or rejected.
fn part_mode(accepted: bool) -> Mode
    ensures { result ≡ part_mode accepted }
{
    if accepted {
        return Mode::Accepted;
    }
    Mode::Skip(0)
}

// The part after `.el`, by the newest answer.
fn else_mode(answer: Option<bool>) -> Mode
    ensures { result ≡ else_mode answer }
{
    match answer {
        None => part_mode(false),
        Some(answer) => part_mode(!answer),
    }
}

impl Half {
    ghost use Rattle.nr_reading.specs.Conditionals.{answer_of, remembering, judged, conditional, otherwise};

    // The condition's answer.
    fn answer_of(&self, found: bool) -> bool
        ensures { result ≡ answer_of found self.now.notes }
    {
        if self.notes.condition.negated {
            return !found;
        }
        found
    }

    // The answer of `.ie` is remembered.
    fn remember(&mut self, found: bool)
        ensures { self.new ≡ remembering found self.old }
    {
        if self.notes.condition.remembers {
            let answer = self.answer_of(found);
            self.notes.answers.remember(answer);
        }
    }

    /// The condition holds, or not: what follows is accepted or rejected.
    pub fn judge(&mut self, found: bool)
        ensures { self.new ≡ judged found self.old }
    {
        let answer = self.answer_of(found);
        self.remember(found);
        self.reading.mode = part_mode(answer);
    }

    /// A condition begins, whose answer is remembered or not.
    pub(crate) fn begin_condition(&mut self, remembers: bool)
        ensures { self.new ≡ conditional remembers self.old }
    {
        let mut condition = Condition::new();
        condition.remembers = remembers;
        self.notes.condition = condition;
        self.reading.mode = Mode::Condition;
    }

    /// The else part begins.
    pub(crate) fn begin_else(&mut self)
        ensures { self.new ≡ otherwise self.old }
    {
        let answer = self.notes.answers.pop();
        self.reading.mode = else_mode(answer);
    }
}
