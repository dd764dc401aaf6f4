//! Empty lines, many at once. (CSTR 54, section 5.3.)
ghost use Rattle.std.specs.Prelude.{◌≡◌, ◌+◌, ◌*◌, ◌≤◌, ◌<◌, ◌^◌, max};
ghost use Rattle.nr_formatter.specs.Access.{spacing};
ghost use Rattle.nr_formatter.specs.Many.EmptyLines.{goes_down, lines_below, gone_down, is_at_line};

use crate::formatter::Formatter;
use crate::paper::Outlet;
use crate::tasks::Task;
use nr_input::Event;
use nr_reading::{Escape, Mode, PendingAct};

impl Formatter {
    /// Whether an empty line does nothing but go down the open page.
    fn goes_down(&self) -> bool
        ensures { result ≡ goes_down self.now }
    {
        self.springs.is_none()
            && self.line.is_empty()
            && (matches!(self.outlet(), Outlet::Room) && !self.settings.pages.no_space)
    }

    /// How many empty lines may go down the open page so that the last ends above the next trap and the bottom.
    ///
    /// Proved: How many empty lines end above the next trap and the bottom is reported, and so many go down at once.
    /// (`Formatter::{lines_below, go_down}`)
    pub fn lines_below(&self) -> u32
        ensures value { result ≡ lines_below self.now }
        ensures within { self.now.paper.place + result * spacing self.now ≤ max self.now.paper.place 32760 }
    {
        if !self.goes_down() {
            return 0;
        }
        let below = self.distance_below(self.paper.place);
        below.saturating_sub(1) / self.settings.pages.spacing.units()
    }

    /// Whether the next item is read at the beginning of a line, after no part of an escape.
    pub fn is_at_line(&self) -> bool
        ensures { result ≡ is_at_line self.now.reader.half }
    {
        let half = &self.reader.half;
        matches!(half.reading.mode, Mode::Start)
            && matches!(half.reading.escape, Escape::Plain)
            && matches!(half.reading.pending_act, PendingAct::Look)
            && half.asks.is_empty()
            && (half.signs.control != b'\n' && half.signs.no_break != b'\n')
    }

    /// So many empty lines go down the open page, once the first of them was read.
    pub fn go_down(&mut self, lines: u32)
        requires { self.old.paper.place + lines * spacing self.old < 2 ^ 32 }
        ensures { self.new ≡ gone_down lines self.old }
    {
        self.reader.end_continuing();
        self.paper.place += lines * self.settings.pages.spacing.units();
        self.event = Event::Nothing;
        self.task = Task::Read;
        self.breaks = false;
    }
}
