//! What those who read events set.
ghost use Rattle.std.specs.Prelude.{◌≡◌, false};

use super::half::Half;
use super::mode::{Escape, Mode, PendingAct, Standing};
use super::notes::Defining;
use super::spelled::Spelled;
use nr_units::Name;

impl Half {
    ghost use Rattle.nr_reading.specs.Setting.{with_control, with_no_break, with_long_names, not_continued, with_line, sprung, resumed, defining};
    ghost use Rattle.nr_reading.specs.declared.mode.Mode.TheVariants as modes;
    ghost use Rattle.nr_reading.specs.Conditionals.{in_mode};
    ghost use Rattle.nr_reading.specs.Mode.{standing_of};

    /// Sets the control character.
    ///
    /// Proved: What is set from outside sets what the definition says. (`Half::{set_control, set_long_names, spring,
    /// stand, define}`)
    pub fn set_control(&mut self, byte: u8)
        ensures { self.new ≡ with_control byte self.old }
    {
        self.signs.control = byte;
    }

    /// Sets the no-break control character.
    pub fn set_no_break(&mut self, byte: u8)
        ensures { self.new ≡ with_no_break byte self.old }
    {
        self.signs.no_break = byte;
    }

    /// Turns long names on or off.
    pub fn set_long_names(&mut self, long: bool)
        ensures { self.new ≡ with_long_names long self.old }
    {
        self.signs.long = long;
    }

    /// The next text line continues no word.
    pub fn end_continuing(&mut self)
        ensures { self.new ≡ not_continued self.old }
    {
        self.reading.continued = false;
    }

    /// Puts a line, as far as its bytes count, in place of the one that was read.
    pub fn set_line(&mut self, line: &[u8])
        ensures { self.new ≡ with_line line.now self.old }
    {
        self.notes.line.set(line);
    }

    /// A title's line is read.
    pub fn begin_title(&mut self)
        ensures { self.new ≡ in_mode modes.TitleBefore self.old }
    {
        self.reading.mode = Mode::TitleBefore;
    }

    /// A diverted line is read, if one comes next.
    pub fn begin_diverted_line(&mut self)
        ensures { self.new ≡ in_mode modes.Diverting self.old }
    {
        self.reading.mode = Mode::Diverting;
    }

    /// A sprung text begins a line.
    pub fn spring(&mut self)
        ensures { self.new ≡ sprung self.old }
    {
        self.reading.mode = Mode::Start;
        self.reading.escape = Escape::Plain;
        self.reading.pending_act = PendingAct::Look;
        self.asks.clear();
        self.delimited.clear();
    }

    /// Where the line stands.
    pub fn standing(&self) -> Standing
        ensures { result ≡ standing_of self.now.reading.mode }
    {
        self.reading.mode.standing()
    }

    /// The line goes on there.
    pub fn stand(&mut self, standing: Standing)
        ensures { self.new ≡ resumed standing self.old }
    {
        self.reading.mode = standing.mode();
    }

    /// The lines of a definition follow. They are kept under the name, or not, and end by the other name, or by
    /// two dots where that is empty.
    pub fn define(&mut self, name: Name, ending: Name, keeps: bool)
        ensures { self.new ≡ defining name ending keeps self.old }
    {
        self.reading.mode = Mode::BodyStart(0);
        self.notes.name = Spelled {
            bytes: name,
            bad: false,
        };
        self.notes.defining = Defining {
            ending,
            long: self.signs.long,
            keeps,
            appends: false,
        };
    }
}
