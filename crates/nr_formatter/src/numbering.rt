//! Page numbers, and turning pages. (CSTR 54, section 3)
ghost use Rattle.std.specs.Prelude.{◌≡◌};
ghost use Rattle.nr_formatter.specs.Numbering.{given_number, number_next, pn, bp};

use crate::formatter::Formatter;
use crate::paper::PageState;
use crate::tasks::Task;
use nr_settings::page_number;

impl Formatter {
    /// The page number of the request's line.
    fn given_number(&self) -> Option<i32>
        ensures { result ≡ given_number self.now }
    {
        page_number(
            self.reader.line(),
            self.settings.pages.spacing,
            self.paper.number,
        )
    }

    /// The page after the open one gets this number, if there is one.
    fn number_next(&mut self, number: Option<i32>)
        ensures { self.new ≡ number_next number self.old }
    {
        if number.is_some() {
            self.paper.next = number;
        }
    }

    /// `.bp`
    pub(crate) fn bp(&mut self)
        ensures { self.new ≡ bp self.old }
    {
        if self.store.diversion().is_some() {
            self.task = Task::Read;
            return;
        }
        let number = self.given_number();
        match self.paper.state {
            PageState::Unbegun => {
                self.paper.number = number.unwrap_or(self.paper.number);
                self.task = Task::Begin(None);
            }
            PageState::Open => {
                self.number_next(number);
                self.task = Task::Turn(number.is_some());
            }
            PageState::Closed => {
                self.number_next(number);
                self.task = Task::Begin(Some(number.is_some()));
            }
        }
    }

    /// `.pn`
    pub(crate) fn pn(&mut self)
        ensures { self.new ≡ pn self.old }
    {
        let number = self.given_number();
        self.task = Task::Read;
        let Some(number) = number else {
            return;
        };
        if self.paper.is_open() {
            self.paper.next = Some(number);
        } else {
            self.paper.number = number;
        }
    }
}
