//! Vertical space. (CSTR 54, section 5.)
ghost use Rattle.std.specs.Prelude.{◌≡◌, ◌+◌, ◌≤◌, max};
ghost use Rattle.nr_reading.specs.declared.event.Event.TheVariants as events;
ghost use Rattle.nr_formatter.specs.declared.tasks.Task.TheVariants as tasks;
ghost use Rattle.nr_formatter.specs.Places.{distance_below};
ghost use Rattle.nr_formatter.specs.Spacing.{is_spaceless, spaced, spaced_up, sp, ne, rt};
ghost use Rattle.nr_formatter.specs.Weights.{Falls};

use crate::formatter::Formatter;
use crate::paper::Outlet;
use crate::tasks::Task;
use nr_settings as settings;

impl Formatter {
    /// The distance from a place to the next trap below it, or else to the bottom; 0 at the bottom or below it. In u.
    pub(crate) fn distance_below(&self, place: u32) -> u32
        ensures value { result ≡ distance_below place self.now }
        ensures within { place + result ≤ max place 32760 }
    {
        let bottom = self.settings.pages.page_length.units();
        match self.trap_below(place) {
            Some(trap) => trap.place as u32 - place,
            None => bottom.saturating_sub(place),
        }
    }

    /// No space of so many u is placed: there is none, or no-space mode is on.
    pub fn is_spaceless(&self, distance: u32) -> bool
        ensures { result ≡ is_spaceless distance self.now }
    {
        self.settings.pages.no_space || distance == 0
    }

    /// Space of so many u goes down on the open page, to the next trap or the bottom at most.
    ///
    /// Proved: Space goes down to the next trap or the bottom at most.
    pub fn space_down(&mut self, distance: u32)
        ensures is { self.new ≡ spaced distance self.old }
        ensures falls { self.old.event ≡ events.Nothing → self.old.task ≡ tasks.Space distance
            → Falls 1 0 self.old self.new }
    {
        let down = distance.min(self.distance_below(self.paper.place));
        self.move_to(self.paper.place + down);
        self.task = Task::Read;
    }

    /// So many u upward on the open page, to its top at most.
    fn space_up(&mut self, distance: u32)
        ensures { self.new ≡ spaced_up distance self.old }
    {
        if matches!(self.outlet(), Outlet::Room | Outlet::Full) && !self.settings.pages.no_space {
            self.paper.place = self.paper.place.saturating_sub(distance);
        }
    }

    /// `.sp`
    pub(crate) fn sp(&mut self)
        ensures { self.new ≡ sp self.old }
    {
        let here = self.here();
        let distance = settings::sp(self.reader.line(), self.settings.pages.spacing, here);
        if distance >= 0 {
            self.task = Task::Space(distance as u32);
            return;
        }
        self.space_up(distance.unsigned_abs());
        self.task = Task::Read;
    }

    /// `.ne`
    pub(crate) fn ne(&mut self)
        ensures { self.new ≡ ne self.old }
    {
        let here = self.here();
        let distance = settings::ne(self.reader.line(), self.settings.pages.spacing, here);
        self.task = Task::Read;
        if !matches!(self.outlet(), Outlet::Room) {
            return;
        }
        let below = self.distance_below(self.paper.place);
        if i64::from(below) < i64::from(distance) {
            self.move_to(self.paper.place + below);
        }
    }

    /// `.rt`
    pub(crate) fn rt(&mut self)
        ensures { self.new ≡ rt self.old }
    {
        let place = self.paper.page_place();
        let to = settings::rt(
            self.reader.line(),
            self.settings.pages.spacing,
            place,
            self.settings.pages.mark,
        );
        self.task = Task::Read;
        if self.store.diversion().is_none() && to >= 0 && to < i64::from(place) {
            self.paper.place = to as u32;
        }
    }
}
