//! Pages: beginning, what is placed, ejecting, ending. (CSTR 54, section 3; on traps section 7.5.)
ghost use Rattle.std.specs.Prelude.{◌≡◌, ◌<◌, ◌≤ℤ◌, pos, true, false, Bool, Option, IfSome, OnOk};
ghost use Rattle.nr_reading.specs.declared.event.Event.TheVariants as events;
ghost use Rattle.nr_formatter.specs.declared.paper.Outlet.TheVariants as outlets;
ghost use Rattle.nr_formatter.specs.declared.tasks.Ejected.{Ejected};
ghost use Rattle.nr_formatter.specs.declared.tasks.Task.TheVariants as tasks;
ghost use Rattle.nr_formatter.specs.Pages.{begins_page, begins_first_page, place_after, reached, moved_to, line_placed, task_begun, page_begun, task_ejected, task_ended, page_ended, turned, is_ejecting, names_text, next_springing};
ghost use Rattle.nr_formatter.specs.Places.{is_open, page_outlet, trap_below, IsBelow};
ghost use Rattle.nr_formatter.specs.Limits.{IsWithin, limits_of};
ghost use Rattle.nr_formatter.specs.Registers.{splice_checked};
ghost use Rattle.nr_formatter.specs.Springing.{ejected_to};
ghost use Rattle.nr_formatter.specs.Weights.{Falls};

use crate::formatter::Formatter;
use crate::paper::{LOWEST, PageState, Paper};
use crate::tasks::{Ejected, Task, Then};
use nr_input::Refusal;
use nr_store::{Meaning, Request, Trap};
use nr_units::Name;

impl Ejected {
    /// What is gone on with once the page has ended.
    pub fn task(self) -> Task
        ensures { result ≡ task_ejected self }
    {
        match self {
            Ejected::Request => Task::Read,
            Ejected::Finish => Task::Halted,
        }
    }
}

impl Then {
    /// The break begins the first page, where none has begun: not that of `.bp` or of the end.
    fn begins_page(self) -> bool
        ensures { result ≡ begins_page self }
    {
        !matches!(self, Then::Act(Request::Bp) | Then::Finish)
    }
}

impl Task {
    /// What is under way once a page has begun.
    fn begun(self) -> Task
        ensures { result ≡ task_begun self }
    {
        match self {
            Task::Begin(None) => Task::Read,
            Task::Begin(Some(given)) => Task::Turn(given),
            task => task,
        }
    }

    /// What is under way once a page has ended.
    fn ended(self) -> Task
        ensures { result ≡ task_ended self }
    {
        match self {
            Task::Eject(ejected) => ejected.task(),
            task => task,
        }
    }
}

/// The macro of a trap that a move to this place reaches.
fn reached(trap: Option<Trap>, place: u32) -> Option<Name>
    ensures { result ≡ reached place trap }
{
    let Some(trap) = trap else {
        return None;
    };
    if i64::from(trap.place) <= i64::from(place) {
        return Some(trap.name);
    }
    None
}

impl Formatter {
    /// The nearest trap below a place.
    pub(crate) fn trap_below(&self, place: u32) -> Option<Trap>
        ensures value { result ≡ trap_below place self.now }
        ensures below { IfSome result (λ t. IsBelow place self.now t.place) }
    {
        let length = self.settings.pages.page_length.units();
        if place >= length {
            return None;
        }
        self.store.next_trap(place as i32, length as i32)
    }

    /// A move down the page springs the nearest trap that it passes or reaches, and only that. The place is in u.
    pub(crate) fn move_to(&mut self, place: u32)
        ensures { self.new ≡ moved_to place self.old }
    {
        let trap = self.trap_below(self.paper.place);
        self.paper.place = place;
        self.springs = reached(trap, place);
    }

    /// The place at which a line of this height ends, in u.
    #[inline]
    pub fn place_after(&self, height: u32) -> u32
        ensures { result ≡ place_after height self.now }
    {
        self.paper.place.saturating_add(height).min(LOWEST)
    }

    /// A line of this height, in u, was placed. It ends no-space mode.
    ///
    /// Proved: A line that was placed moves the place down, and the nearest trap that it passes or reaches springs,
    /// and no other.
    #[inline]
    pub fn line_placed(&mut self, height: u32)
        ensures is { self.new ≡ line_placed height self.old }
        ensures falls { Falls 0 4 self.old self.new }
    {
        self.settings.pages.no_space = false;
        self.move_to(self.place_after(height));
    }

    /// A break begins the first page, before anything goes out.
    pub fn begins_first_page(&self, then: Then) -> bool
        ensures { result ≡ begins_first_page then self.now }
    {
        matches!(self.paper.state, PageState::Unbegun)
            && then.begins_page()
            && self.store.diversion().is_none()
    }

    /// A page begins at its top, and the trap there springs.
    ///
    /// Proved: A page begins, ends and is ejected from trap to trap as the definition says. (`Formatter::{begin_page,
    /// page_ended, next_springing, eject_to}`)
    pub fn begin_page(&mut self)
        ensures is { self.new ≡ page_begun self.old }
        ensures opened { 0 < self.old.settings.pages.page_length → is_open self.old.paper.state ≡ false
            → Falls 1 0 self.old self.new }
        ensures begun { (given : Option Bool) → 0 < self.old.settings.pages.page_length
            → self.old.event ≡ events.Nothing → self.old.task ≡ tasks.Begin given
            → Falls 1 0 self.old self.new }
    {
        let length = self.settings.pages.page_length.units();
        self.springs = reached(self.store.next_trap(-1, length as i32), 0);
        self.paper.state = PageState::Open;
        self.paper.place = 0;
        self.paper.ejecting = false;
        self.task = self.task.begun();
    }

    /// The open page has ended.
    pub fn page_ended(&mut self)
        ensures is { self.new ≡ page_ended self.old }
        ensures full { page_outlet self.old.paper.state self.old.paper.place
            self.old.settings.pages.page_length ≡ outlets.Full → Falls 1 0 self.old self.new }
        ensures ejected { (e : Ejected) → self.old.event ≡ events.Nothing → self.old.task ≡ tasks.Eject e
            → Falls 1 0 self.old self.new }
    {
        self.paper = Paper {
            state: PageState::Closed,
            number: self.paper.following(),
            next: None,
            place: 0,
            ejecting: false,
        };
        self.task = self.task.ended();
    }

    /// The open page is ejected, unless no-space mode keeps a request without a number from it.
    pub(crate) fn turn(&mut self, given: bool)
        ensures { self.new ≡ turned given self.old }
    {
        if !self.paper.is_open() || (self.settings.pages.no_space && !given) {
            self.task = Task::Read;
            return;
        }
        self.paper.ejecting = true;
        self.task = Task::Eject(Ejected::Request);
    }

    /// The name stands for a text.
    fn names_text(&self, name: Name) -> bool
        ensures { result ≡ names_text name self.now }
    {
        matches!(self.store.lookup(name), Meaning::Text)
    }

    /// The next trap below that names a text; those without text are passed. Its place is counted from the top, in u.
    pub fn next_springing(&self) -> Option<Trap>
        ensures value { result ≡ next_springing self.now }
        ensures below { IfSome result (λ t. IsBelow 0 self.now t.place) }
        ensures named { IfSome result (λ t. names_text t.name self.now ≡ true) }
    {
        let mut place = self.paper.place;
        while let Some(trap) = self.trap_below(place) {
            if self.names_text(trap.name) {
                return Some(trap);
            }
            place = trap.place as u32;
        }
        None
    }

    /// The page goes to the next trap, whose macro springs.
    pub fn eject_to(&mut self, trap: Trap) -> Result<(), Refusal>
        requires { pos 0 ≤ℤ trap.place }
        ensures result { IsWithin self.old → result ≡ splice_checked (ejected_to trap self.old) }
        ensures ok { OnOk result (self.new ≡ ejected_to trap self.old) }
        ensures limits { limits_of self.new ≡ limits_of self.old }
        ensures falls { names_text trap.name self.old ≡ true → OnOk result (Falls 1 0 self.old self.new) }
    {
        self.paper.place = trap.place as u32;
        self.spring(trap.name)
    }

    /// The page that is being ejected is still open.
    pub fn is_ejecting(&self) -> bool
        ensures { result ≡ is_ejecting self.now }
    {
        self.paper.is_open() && self.paper.ejecting
    }
}
