//! Diversions. (CSTR 54, section 7.4.)
ghost use Rattle.std.specs.Prelude.{◌≡◌, ◌<◌, ◌≤◌, length, replicate, OnOk};
ghost use Rattle.nr_formatter.specs.Access.{collected};
ghost use Rattle.nr_formatter.specs.Diversions.{trap_between, trap_reached, with_diverted, divert_line, divert_title, with_diverted_space, with_diverted_cell, with_diverted_end, end_diversion, di, da, dt};
ghost use Rattle.nr_formatter.specs.Limits.{IsWithin, limits_of, stored_limits};
ghost use Rattle.nr_formatter.specs.Places.{diversion_room, is_diverting, room_above};
ghost use Rattle.nr_formatter.specs.Weights.{Falls};
ghost use Rattle.nr_reading.specs.declared.event.Event.TheVariants as events;
ghost use Rattle.nr_store.specs.Store.{afforded, added, blank_cell, charge_of, newest_diversion};

use crate::diversion_row::{divert_going, divert_titled};
use crate::formatter::Formatter;
use crate::lines::Going;
use crate::paper::LOWEST;
use crate::tasks::{Resume, Task};
use nr_settings as settings;
use nr_settings::{Arguments, DiversionTrap};
use nr_store::{Diversion, Element, Store, StoredBytes, Trap};
use nr_units::Name;
use nr_vectors::cell::Cell;

/// How far down it goes from this height to a trap, in u; no bound where there is none below.
fn room_above(height: u32, trap: Option<Trap>) -> u32
    ensures { result ≡ room_above height trap }
{
    let Some(trap) = trap else {
        return LOWEST;
    };
    if i64::from(height) < i64::from(trap.place) {
        return trap.place as u32 - height;
    }
    LOWEST
}

/// The macro of a trap that lies below one place and not below another, in u.
fn trap_between(from: u32, to: u32, trap: Option<Trap>) -> Option<Name>
    ensures { result ≡ trap_between from to trap }
{
    let Some(trap) = trap else {
        return None;
    };
    if i64::from(from) < i64::from(trap.place) && i64::from(trap.place) <= i64::from(to) {
        return Some(trap.name);
    }
    None
}

/// The macro of the diversion's trap, where a line of this height reaches it, in u.
fn trap_reached(height: u32, diversion: Option<Diversion>) -> Option<Name>
    ensures { result ≡ trap_reached height diversion }
{
    let Some(diversion) = diversion else {
        return None;
    };
    let end = diversion.height.saturating_add(height).min(LOWEST);
    trap_between(diversion.height, end, diversion.trap)
}

/// So many blanks go into the text that is being built.
fn add_blanks(store: &mut Store<Resume>, count: u32) -> Result<(), StoredBytes>
    ensures answer { charge_of store.old ≤ store.old.limit
        → result ≡ afforded (added (replicate count blank_cell) store.old) tt }
    ensures ok { OnOk result (store.new ≡ added (replicate count blank_cell) store.old) }
    ensures limits { stored_limits store.new ≡ stored_limits store.old }
{
    for _ in 0..count {
        match store.add(Element::Cell(Cell::blank())) {
            Err(full) => return Err(full),
            Ok(()) => {}
        }
    }
    Ok(())
}

impl Formatter {
    /// How far down the innermost diversion goes before its trap, in u; no bound where it has none below.
    pub(crate) fn diversion_room(&self) -> u32
        ensures { result ≡ diversion_room self.now }
    {
        match self.store.diversion() {
            Some(diversion) => room_above(diversion.height, diversion.trap),
            None => LOWEST,
        }
    }

    /// A line goes into the diversion: blanks, cells and its end. The diversion's trap springs where the line
    /// reaches it. The height is in u.
    fn divert(&mut self, indent: u32, cells: &[Cell], height: u32) -> Result<(), StoredBytes>
        ensures result { result ≡ afforded (with_diverted indent cells.now height self.old).store tt }
        ensures ok { OnOk result (self.new ≡ with_diverted indent cells.now height self.old) }
        ensures limits { limits_of self.new ≡ limits_of self.old }
    {
        let springs = trap_reached(height, self.store.diversion());
        match self.store.add_line(indent, cells, height) {
            Err(full) => Err(full),
            Ok(()) => {
                self.springs = springs;
                Ok(())
            }
        }
    }

    /// The line that goes out next goes into the diversion, as high as lines are and without the page offset, and
    /// ends no-space mode.
    ///
    /// Proved: A line, a title, space and a line that is read again go into a diversion, lines and titles however
    /// long. (`Formatter::{divert_line, divert_title, divert_space, divert_cell, divert_line_end}`)
    pub fn divert_line(&mut self, going: Going) -> Result<(), StoredBytes>
        requires pieces { 0 < length (collected self.old).pieces }
        ensures result { result ≡ afforded (divert_line going self.old).store tt }
        ensures ok { OnOk result (self.new ≡ divert_line going self.old) }
        ensures limits { limits_of self.new ≡ limits_of self.old }
        ensures falls { OnOk result (Falls 1 0 self.old self.new) }
    {
        let height = self.settings.pages.spacing.units();
        let springs = trap_reached(height, self.store.diversion());
        divert_going(
            &mut self.store,
            &mut self.line,
            &mut self.settings,
            going,
            height,
        )?;
        self.settings.pages.no_space = false;
        self.springs = springs;
        Ok(())
    }

    /// The title that was read goes into the diversion, as high as lines are, and ends no-space mode.
    pub fn divert_title(&mut self) -> Result<(), StoredBytes>
        ensures result { result ≡ afforded (divert_title self.old).store tt }
        ensures ok { OnOk result (self.new ≡ divert_title self.old) }
        ensures limits { limits_of self.new ≡ limits_of self.old }
        ensures falls { self.old.event ≡ events.Nothing → self.old.task ≡ Task.Title
            → OnOk result (Falls 1 0 self.old self.new) }
    {
        let height = self.settings.pages.spacing.units();
        let length = self.settings.indents.title_length.value.cells();
        let springs = trap_reached(height, self.store.diversion());
        divert_titled(&mut self.store, &mut self.line, length, height)?;
        self.settings.pages.no_space = false;
        self.springs = springs;
        self.task = Task::Read;
        Ok(())
    }

    /// Space of so many u goes into the diversion, to its trap at most.
    pub fn divert_space(&mut self, distance: u32) -> Result<(), StoredBytes>
        ensures result { result ≡ afforded (with_diverted_space distance self.old).store tt }
        ensures ok { OnOk result (self.new ≡ with_diverted_space distance self.old) }
        ensures limits { limits_of self.new ≡ limits_of self.old }
        ensures falls { self.old.event ≡ events.Nothing → self.old.task ≡ Task.Space distance
            → OnOk result (Falls 1 0 self.old self.new) }
    {
        let height = distance.min(self.diversion_room());
        self.task = Task::Read;
        self.divert(0, &[], height)
    }

    /// A cell of a diverted line that is read again goes into the diversion, after so many blanks.
    pub fn divert_cell(&mut self, indent: u32, cell: Cell) -> Result<(), StoredBytes>
        ensures result { IsWithin self.old
            → result ≡ afforded (with_diverted_cell indent cell self.old).store tt }
        ensures ok { OnOk result (self.new ≡ with_diverted_cell indent cell self.old) }
        ensures limits { limits_of self.new ≡ limits_of self.old }
        ensures falls { OnOk result (Falls 0 0 self.old self.new) }
    {
        match add_blanks(&mut self.store, indent) {
            Err(full) => Err(full),
            Ok(()) => self.store.add(Element::Cell(cell)),
        }
    }

    /// A diverted line that was read again ends in the diversion, so many cells wide and so many u high.
    pub fn divert_line_end(&mut self, cells: u32, height: u32) -> Result<(), StoredBytes>
        ensures result { result ≡ afforded (with_diverted_end cells height self.old).store tt }
        ensures ok { OnOk result (self.new ≡ with_diverted_end cells height self.old) }
        ensures limits { limits_of self.new ≡ limits_of self.old }
        ensures falls { self.old.event ≡ events.Nothing → self.old.task ≡ Task.Line height
            → OnOk result (Falls 1 0 self.old self.new) }
    {
        let springs = trap_reached(height, self.store.diversion());
        match self.store.end_line(cells, height) {
            Err(full) => Err(full),
            Ok(()) => {
                self.settings.pages.no_space = false;
                self.springs = springs;
                self.task = Task::Read;
                Ok(())
            }
        }
    }

    /// The innermost diversion ends. `dn` and `dl` then hold its height and its greatest width. Answers whether one ended.
    pub(crate) fn end_diversion(&mut self) -> bool
        ensures ended { result ≡ is_diverting (newest_diversion self.old.store.building) }
        ensures is { self.new ≡ end_diversion self.old }
    {
        let Some(diversion) = self.store.end_diversion() else {
            return false;
        };
        self.given.height = diversion.height.min(LOWEST) as i32;
        self.given.width = diversion.width.min(LOWEST) as i32;
        true
    }

    /// `.di`
    pub(crate) fn di(&mut self) -> Result<(), StoredBytes>
        ensures result { result ≡ afforded (di self.old).store tt }
        ensures ok { OnOk result (self.new ≡ di self.old) }
        ensures limits { limits_of self.new ≡ limits_of self.old }
    {
        self.task = Task::Read;
        let long = self.reader.long_names();
        match Arguments::of(self.reader.line()).name(long) {
            Some(name) => self.store.begin_diversion(name),
            None => {
                self.end_diversion();
                self.fit_memory();
                Ok(())
            }
        }
    }

    /// `.da`
    pub(crate) fn da(&mut self) -> Result<(), StoredBytes>
        ensures result { result ≡ afforded (da self.old).store tt }
        ensures ok { OnOk result (self.new ≡ da self.old) }
        ensures limits { limits_of self.new ≡ limits_of self.old }
    {
        self.task = Task::Read;
        let long = self.reader.long_names();
        match Arguments::of(self.reader.line()).name(long) {
            Some(name) => self.store.begin_appending(name),
            None => {
                self.end_diversion();
                self.fit_memory();
                Ok(())
            }
        }
    }

    /// `.dt`
    pub(crate) fn dt(&mut self)
        ensures { self.new ≡ dt self.old }
    {
        let here = self.here();
        let dt = settings::dt(
            self.reader.line(),
            self.reader.long_names(),
            self.settings.pages.spacing,
            here,
        );
        self.task = Task::Read;
        match dt {
            DiversionTrap::Set(place, name) => self
                .store
                .set_diversion_trap(Some(Trap { place, name })),
            DiversionTrap::Remove => self.store.set_diversion_trap(None),
            DiversionTrap::Nothing => {}
        }
    }
}
