//! The ends of words, which lines go out, and breaks. (CSTR 54, section 4.)
ghost use Rattle.std.specs.Prelude.{◌≡◌, ◌<◌, Bool, false, is_none, OnOk, length};
ghost use Rattle.nr_fill.specs.Line.{afforded};
ghost use Rattle.nr_reading.specs.declared.event.Event.TheVariants as events;
ghost use Rattle.nr_formatter.specs.Access.{collected, with_collected};
ghost use Rattle.nr_formatter.specs.Limits.{limits_of};
ghost use Rattle.nr_formatter.specs.Lines.{with_points, most_points, pointed, breaks_after, word_ended, break_word_end, goes_out, whole_line, next_line, flow_line, break_line, row_of, row_going, rest_of, settings_after, after_line, task_after, flow_done, task_of, step_after, break_done, count, count_input};
ghost use Rattle.nr_formatter.specs.Weights.{Falls};

use crate::formatter::{Formatter, InputTrap};
use crate::tasks::{After, Room, Step, Task, Then};
use nr_fill::cells::CellSink;
use nr_fill::line::{Line, LineCells};
use nr_fill::setting::{Align, Setting};
use nr_settings::Settings;

/// The greatest number.
const GREATEST: u64 = 2_147_483_647;

/// Which line goes out next.
#[derive(Clone, Copy)]
pub struct Going {
    /// All that is collected, however wide; else as much as fits.
    pub whole: bool,
    pub align: Align,
}

/// A word takes at most so many points.
const MOST_POINTS: usize = 31;

/// The first of these places, at most 31.
fn most_points(places: &[u8]) -> &[u8]
    ensures { result.now ≡ most_points places.now }
{
    &places[..MOST_POINTS.min(places.len())]
}

/// The word that is being read may be cut at these places, so many cells in.
fn cut_at(line: &mut Line, places: &[u8])
    ensures { line.new ≡ record line.old { collected = with_points places.now line.old.collected } }
{
    for place in places {
        line.hyphenate(usize::from(*place));
    }
}

/// Sets the line that goes out next in a row after what stands there, so many cells on, and takes it away.
pub(crate) fn set_going<S: CellSink>(
    line: &mut Line,
    settings: &mut Settings,
    going: Going,
    offset: u32,
    out: &mut S,
)
    requires { 0 < length line.old.collected.pieces }
    ensures out { S.Adds out.old (row_of going offset line.old.collected) out.new }
    ensures line { line.new ≡ record line.old
        { collected = rest_of going settings.old.indents line.old.collected } }
    ensures settings { settings.new ≡ settings_after going line.old.collected settings.old }
{
    let setting = Setting {
        align: going.align,
        offset,
    };
    let next = settings.indents.margins();
    let width = if going.whole {
        line.take_all(next, setting, out)
    } else {
        line.take_line(next, setting, out)
    };
    if !line.is_empty() {
        let _ = settings.indents.take_margins();
    }
    settings.text_width = (24 * width as u64).min(GREATEST) as u32;
}

impl After {
    /// In no-fill mode all goes out.
    fn goes_out(self) -> bool
        ensures { result ≡ goes_out self }
    {
        matches!(self, After::Line | After::Continued)
    }

    /// What is under way once nothing more goes out.
    fn task(self) -> Task
        ensures { result ≡ task_after self }
    {
        match self {
            After::Text | After::Continued => Task::Read,
            After::Line | After::Interrupted => Task::Count,
        }
    }
}

impl Then {
    /// The step of the end after this break.
    fn step_after(self, step: Step) -> Step
        ensures { result ≡ step_after self step }
    {
        match (self, step) {
            (Then::Finish, Step::FirstBreak) => Step::Macro,
            (Then::Finish, Step::SecondBreak) => Step::Diversions,
            _ => step,
        }
    }
}

impl Formatter {
    /// The word takes the points of its `.hw` word, or is one piece where lines are not filled.
    #[tactic(auto, unfolding(crate::specs::Lines::pointed))]
    fn point_word(&mut self)
        ensures { self.new ≡ with_collected (pointed self.old) self.old }
    {
        if !self.settings.filling.is_filling() {
            self.line.join_word();
            return;
        }
        if self.settings.hyphenation.on && self.line.may_hyphenate() {
            let places = self.store.points(self.line.word_cells());
            cut_at(&mut self.line, most_points(places));
        }
    }

    /// Whether `\p` asks for a break at the end of the word that is being read.
    pub(crate) fn breaks_after(&self) -> bool
        ensures { result ≡ breaks_after self.now }
    {
        self.breaks && self.line.has_word()
    }

    /// The word, if there is one, becomes pieces of the line, cut at the points of its `.hw` word too.
    pub(crate) fn end_word(&mut self) -> Result<(), LineCells>
        ensures result { result ≡ afforded (word_ended self.old).line }
        ensures ok { OnOk result (self.new ≡ word_ended self.old) }
        ensures limits { limits_of self.new ≡ limits_of self.old }
    {
        let breaks = self.breaks && !self.breaks_after();
        self.point_word();
        self.line.end_word()?;
        self.breaks = breaks;
        Ok(())
    }

    /// The word ends before a break; text for a stop ends first.
    pub fn break_word_end(&mut self) -> Result<(), LineCells>
        ensures result { result ≡ afforded (break_word_end self.old).line }
        ensures ok { OnOk result (self.new ≡ break_word_end self.old) }
        ensures limits { limits_of self.new ≡ limits_of self.old }
        ensures falls { is_none (collected self.old).word ≡ false
            → OnOk result (Falls 1 0 self.old self.new) }
    {
        if self.line.has_field() {
            return self.line.end_field();
        }
        self.end_word()
    }

    /// As much as fits.
    fn next_line(&self, full: bool) -> Going
        ensures { result ≡ next_line full self.now }
    {
        Going {
            whole: false,
            align: self.settings.filling.align(full),
        }
    }

    /// All that is collected, as in no-fill mode and where lines are centred.
    fn whole_line(&self) -> Going
        ensures { result ≡ whole_line self.now }
    {
        let align = if self.settings.filling.centred == 0 {
            Align::Left
        } else {
            Align::Centre
        };
        Going { whole: true, align }
    }

    /// The line that goes out next where a word or a text line ended: a full one; with `\p` the rest, as a full one.
    ///
    /// Proved: Which line goes out next where a word, a text line or a break ended is one function of the formatter.
    /// (`Formatter::{flow_line, break_line}`)
    pub fn flow_line(&self, after: After, breaks: bool) -> Option<Going>
        ensures { result ≡ flow_line after breaks self.now }
    {
        if !self.line.has_pieces() {
            return None;
        }
        if !self.settings.filling.is_filling() {
            return if after.goes_out() {
                Some(self.whole_line())
            } else {
                None
            };
        }
        if self.line.fits() && !breaks {
            return None;
        }
        Some(self.next_line(true))
    }

    /// The line that goes out next at a break.
    pub fn break_line(&self) -> Option<Going>
        ensures { result ≡ break_line self.now }
    {
        if !self.line.has_pieces() {
            return None;
        }
        if !self.settings.filling.is_filling() {
            return Some(self.whole_line());
        }
        Some(self.next_line(!self.line.fits()))
    }

    /// Sets the line that goes out next in a row after what stands there, so many cells on, and takes it away.
    ///
    /// Proved: The line that goes out, and what it leaves, are the definition's. (`Formatter::{set_line, flow_done,
    /// break_done, break_word_end}`)
    pub fn set_line<S: CellSink>(&mut self, going: Going, offset: u32, out: &mut S)
        requires { 0 < length (collected self.old).pieces }
        ensures out { S.Adds out.old (row_going going offset self.old) out.new }
        ensures rest { self.new ≡ after_line going self.old }
        ensures falls { Falls 5 0 self.old self.new }
    {
        set_going(&mut self.line, &mut self.settings, going, offset, out);
    }

    /// Nothing more goes out where a word or a text line ended.
    pub fn flow_done(&mut self, after: After)
        ensures done { self.new ≡ flow_done after self.old }
        ensures falls { (breaks : Bool) → self.old.event ≡ events.Nothing
            → self.old.task ≡ Task.Flow after breaks → Falls 1 0 self.old self.new }
    {
        self.task = after.task();
    }

    /// What a break was for.
    fn after_break(&self, then: Then) -> Task
        ensures { result ≡ task_of then self.now }
    {
        match then {
            Then::Act(request) => Task::Act(request),
            Then::Space => Task::Space(self.settings.pages.spacing.units()),
            Then::Leading => Task::Read,
            Then::Diverted => Task::Room(Room::Line),
            Then::Finish => Task::Finish,
        }
    }

    /// Nothing more goes out at a break. A `\p` that waits for a word is dropped, and what `\c` continues ends.
    pub fn break_done(&mut self, then: Then)
        ensures done { self.new ≡ break_done then self.old }
        ensures falls { self.old.event ≡ events.Nothing → self.old.task ≡ Task.Break then
            → Falls 1 0 self.old self.new }
    {
        self.breaks = false;
        self.reader.end_continuing();
        self.step = then.step_after(self.step);
        self.task = self.after_break(then);
    }

    /// A text line is counted by `.ce` and `.ul`.
    pub(crate) fn count(&mut self)
        ensures { self.new ≡ count self.old }
    {
        self.settings.filling.count_line();
        self.settings.fonts.count_line();
        self.task = Task::InputTrap;
    }

    /// A text line is counted by `.it`, whose macro springs after the last.
    pub(crate) fn count_input(&mut self)
        ensures { self.new ≡ count_input self.old }
    {
        self.task = Task::Read;
        let Some(trap) = self.input_trap else {
            return;
        };
        if trap.lines <= 1 {
            self.input_trap = None;
            self.springs = Some(trap.name);
            return;
        }
        self.input_trap = Some(InputTrap {
            lines: trap.lines - 1,
            name: trap.name,
        });
    }
}
