//! The formatter between two moves: everything but the source, the lines on the page and the output.
ghost use Rattle.std.specs.Prelude.{◌+◌, ◌*◌, ◌≡◌, ◌<◌, ◌^◌, IfOk};
ghost use Rattle.nr_fill.specs.Piece.{nothing_collected};
ghost use Rattle.nr_store.specs.Memory.{elements_in, rooms_of};
ghost use Rattle.nr_store.specs.Request.{request_names};
ghost use Rattle.nr_store.specs.Store.{nothing};
ghost use Rattle.nr_formatter.specs.Beginning.{first_formatter, with_first};
ghost use Rattle.nr_formatter.specs.Limits.{limits_of};
ghost use Rattle.nr_formatter.specs.Places.{outlet, present_place};

use crate::paper::{Given, Outlet, Paper};
use crate::tasks::{Resume, Step, Task};
use nr_fill::line::Line;
use nr_input::{Event, Reader};
use nr_settings::Settings;
use nr_store::Store;
use nr_units::Name;
use nr_vectors::CountedAlloc;
use std::alloc::AllocError;

/// An input line trap. (CSTR 54, section 7.5)
#[derive(Clone, Copy)]
pub struct InputTrap {
    /// How many text lines are still to come before it springs, 1 or more.
    pub lines: u32,
    pub name: Name,
}

/// All that a run keeps, but for the source, the lines on the page and the output.
pub struct Formatter {
    /// What of the input is half read.
    pub reader: Reader,
    /// Names, texts being built, levels, registers, traps, hyphenation words.
    pub store: Store<Resume>,
    /// What was read and is not set yet.
    pub line: Line,
    pub settings: Settings,
    pub paper: Paper,
    pub given: Given,
    /// What was read and is not acted on yet.
    pub event: Event,
    /// The macro that is sprung next.
    pub springs: Option<Name>,
    /// What the next moves do else.
    pub task: Task,
    /// `\p` asked for a break at the end of the next word.
    pub breaks: bool,
    pub input_trap: Option<InputTrap>,
    /// How far the end has come.
    pub step: Step,
    /// The macro of `.em`.
    pub end_macro: Option<Name>,
}

// Derived, it would be gone through part by part in the proof of each function that owns a formatter.
impl Drop for Formatter {
    fn drop(self) {
        let Formatter {
            reader: _,
            store: _,
            line: _,
            settings: _,
            paper: _,
            given: _,
            event: _,
            springs: _,
            task: _,
            breaks: _,
            input_trap: _,
            step: _,
            end_macro: _,
        } = self;
    }
}

impl Formatter {
    /// Nothing is read yet. There may be at most so many splices and springs after one byte of the input, and so much may be
    /// stored, in so many levels, and collected: `AllocError` where there is no memory for that. No other call allocates.
    pub fn new(
        alloc: &mut CountedAlloc,
        stored: u32,
        deepest: u32,
        cells: usize,
        most: u64,
    ) -> Result<Formatter, AllocError>
        requires { cells < 2 ^ 32 }
        ensures made { IfOk result (λ made. made ≡ first_formatter (nothing request_names stored deepest)
            (record { collected = nothing_collected; limit = cells }) most) }
        ensures taken { IfOk result (λ made.
            alloc.new ≡ alloc.old + elements_in (rooms_of stored deepest) + 2 * cells) }
    {
        let line = Line::new(alloc, cells)?;
        let store = Store::new(alloc, stored, deepest)?;
        Ok(Formatter {
            reader: Reader::new(most),
            store,
            line,
            settings: Settings::new(),
            paper: Paper::new(),
            given: Given::new(),
            event: Event::Nothing,
            springs: None,
            task: Task::Read,
            breaks: false,
            input_trap: None,
            step: Step::NotYet,
            end_macro: None,
        })
    }

    /// Nothing is read yet, under the same limits.
    pub fn clear(&mut self)
        ensures { self.new
            ≡ first_formatter (nothing request_names self.old.store.limit self.old.store.deepest)
            (record { collected = nothing_collected; limit = self.old.line.limit }) self.old.reader.most }
    {
        self.reader = Reader::new(self.reader.most);
        self.store.clear();
        self.line.clear();
        self.settings = Settings::new();
        self.paper = Paper::new();
        self.given = Given::new();
        self.event = Event::Nothing;
        self.springs = None;
        self.task = Task::Read;
        self.breaks = false;
        self.input_trap = None;
        self.step = Step::NotYet;
        self.end_macro = None;
    }

    /// Takes all that another under the same limits keeps in place of its own.
    ///
    /// Proved: A formatter is made equal to another under the same limits.
    pub fn copy_from(&mut self, other: &Formatter)
        requires { limits_of other.now ≡ limits_of self.old }
        ensures { self.new ≡ other.now }
    {
        self.reader.copy_from(&other.reader);
        self.store.copy_from(&other.store);
        self.line.copy_from(&other.line);
        self.settings.copy_from(&other.settings);
        self.paper = other.paper;
        self.given = other.given;
        self.event = other.event;
        self.springs = other.springs;
        self.task = other.task;
        self.breaks = other.breaks;
        self.input_trap = other.input_trap;
        self.step = other.step;
        self.end_macro = other.end_macro;
    }

    /// The next page has this number, as `-n` asks before the first.
    pub fn set_first(&mut self, number: i32)
        ensures { self.new ≡ with_first number self.old }
    {
        self.paper.number = number;
    }

    /// Where output goes.
    #[inline]
    pub fn outlet(&self) -> Outlet
        ensures { result ≡ outlet self.now }
    {
        if self.store.diversion().is_some() {
            return Outlet::Diversion;
        }
        self.paper.outlet(self.settings.pages.page_length.units())
    }

    /// The present place, in u: in the innermost diversion, and else on the open page.
    pub(crate) fn here(&self) -> i64
        ensures { result ≡ present_place self.now }
    {
        match self.store.diversion() {
            Some(diversion) => i64::from(diversion.height),
            None => i64::from(self.paper.page_place()),
        }
    }
}
