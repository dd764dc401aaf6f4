//! What the name of a control line calls.
ghost use Rattle.std.specs.Prelude.{◌≡◌};
ghost use Rattle.nr_reading.specs.Seeking.{sought_event};

use super::event::Event;
use super::half::Half;
use super::mode::{Calls, Mode};

impl Calls {
    /// What is emitted of it.
    pub fn event(self) -> Event
        ensures { result ≡ sought_event self }
    {
        match self {
            Calls::Title => Event::Title,
            _ => Event::Nothing,
        }
    }
}

impl Half {
    ghost use Rattle.nr_reading.specs.Seeking.{defining_string, sought};

    // A string is defined, or added to.
    fn begin_string(&mut self, appends: bool)
        ensures { self.new ≡ defining_string appends self.old }
    {
        self.notes.defining.keeps = true;
        self.notes.defining.appends = appends;
        self.reading.mode = Mode::StringBefore;
    }

    /// The name calls this.
    ///
    /// Proved: What the name of a control line calls, and what the answer of a condition leads to, are functions of
    /// plain values too. (`Half::seek`; `Half::judge` in conditionals.rt)
    pub fn seek(&mut self, calls: Calls)
        ensures { self.new ≡ sought calls self.old }
    {
        match calls {
            Calls::Nothing => self.reading.mode = Mode::Drop,
            Calls::Macro => self.reading.mode = Mode::MacroBlanks,
            Calls::Request => self.reading.mode = Mode::RequestBlanks,
            Calls::NewString => self.begin_string(false),
            Calls::MoreString => self.begin_string(true),
            Calls::If => self.begin_condition(false),
            Calls::IfElse => self.begin_condition(true),
            Calls::Else => self.begin_else(),
            Calls::Title => self.reading.mode = Mode::TitleBefore,
        }
    }
}
