//! The moves that touch neither the source nor the page nor the output.
ghost use Rattle.std.specs.Prelude.{◌≡◌, ◌≢◌, true, OnOk};
ghost use Rattle.nr_reading.specs.declared.event.Event.TheVariants as events;
ghost use Rattle.nr_formatter.specs.declared.tasks.Task.TheVariants as tasks;
ghost use Rattle.nr_fill.specs.Line.{afforded};
ghost use Rattle.nr_formatter.specs.Limits.{IsWithin, judged, limits_of};
ghost use Rattle.nr_formatter.specs.Moves.{is_text, text_heard, heard_for, task_requested, font_set, width_given, control, heard_beside, heard, read_in, gone_on, worked, works};
ghost use Rattle.nr_formatter.specs.Registers.{splice_checked};
ghost use Rattle.nr_formatter.specs.Requests.{act};
ghost use Rattle.nr_formatter.specs.Weights.{Falls};

use crate::formatter::Formatter;
use crate::passed::Passed;
use crate::requests::breaks;
use crate::tasks::{After, Room, Task, Then};
use itoa::Buffer;
use nr_fill::line::LineCells;
use nr_input::{Event, Refusal};
use nr_settings::width;
use nr_store::Request;

/// An event of a text line's text or of a title's.
#[inline]
fn is_text(event: Event) -> bool
    ensures { result ≡ is_text event }
{
    matches!(
        event,
        Event::Byte(_)
            | Event::Lead
            | Event::Cell(_)
            | Event::Plain(_)
            | Event::Fixed
            | Event::Zero
            | Event::Percent
            | Event::BreakWord
            | Event::Tab
            | Event::Leader
            | Event::Special
            | Event::Horizontal
            | Event::Rule
            | Event::EndLine
            | Event::EndContinued
    )
}

impl Formatter {
    /// What was read is acted on by this.
    fn begin(&mut self, task: Task)
        ensures { self.new ≡ heard_for task self.old }
    {
        self.event = Event::Nothing;
        self.task = task;
    }

    /// The request whose line was read.
    fn requested(&self) -> Task
        ensures { result ≡ task_requested self.now }
    {
        let request = self.reader.request();
        if breaks(request) && !self.reader.no_break() {
            return Task::Break(Then::Act(request));
        }
        Task::Act(request)
    }

    /// The font that was asked for.
    #[inline]
    pub fn set_font(&mut self)
        ensures { self.new ≡ font_set self.old }
    {
        self.settings.fonts.set(self.reader.asked().as_bytes());
        self.event = Event::Nothing;
    }

    /// The text of the width that was asked for is spliced.
    fn give_width(&mut self) -> Result<(), Refusal>
        ensures result { result ≡ splice_checked (width_given self.old) }
        ensures ok { OnOk result (self.new ≡ width_given self.old) }
        ensures limits { limits_of self.new ≡ limits_of self.old }
        ensures falls { OnOk result (Falls 1 0 self.old self.new) }
    {
        let units = width(
            self.reader.argument(),
            self.reader.long_names(),
            self.settings.pages.spacing,
        );
        let mut digits = Buffer::new();
        self.splice(digits.format(units).as_bytes())?;
        self.event = Event::Nothing;
        Ok(())
    }

    /// What was read, where it is no text and splices nothing.
    fn control(&mut self, event: Event)
        ensures { self.new ≡ control event self.old }
    {
        match event {
            Event::Over => self.begin(Task::Finish),
            Event::Empty => self.begin(Task::Break(Then::Space)),
            Event::Leading => self.begin(Task::Break(Then::Leading)),
            Event::EndInterrupted => self.begin(Task::Flow(After::Interrupted, false)),
            Event::Diverted => self.begin(Task::Break(Then::Diverted)),
            Event::DivertedEnd(Some(height)) => self.begin(Task::Line(height)),
            Event::DivertedEnd(None) => {
                let height = self.settings.pages.spacing.units();
                self.begin(Task::Line(height));
            }
            Event::Title => self.begin(Task::Room(Room::Title)),
            Event::TitlePart => self.title_part(),
            Event::TitleEnd => self.begin(Task::Title),
            Event::Font => self.set_font(),
            Event::Judge(question) => self.judge(question),
            Event::Request => {
                let task = self.requested();
                self.begin(task);
            }
            _ => self.event = Event::Nothing,
        }
    }

    /// What was read of a text line's text, or of a title's.
    #[inline]
    fn hear_text(&mut self, event: Event) -> Result<(), LineCells>
        ensures result { IsWithin self.old → result ≡ afforded (text_heard event self.old).line }
        ensures ok { OnOk result (self.new ≡ text_heard event self.old) }
        ensures limits { limits_of self.new ≡ limits_of self.old }
        ensures falls { self.old.event ≡ event → is_text event ≡ true
            → OnOk result (Falls 1 0 self.old self.new) }
    {
        if self.reads_title() {
            return self.title(event);
        }
        self.text(event)
    }

    /// What was read beside text.
    fn hear_beside(&mut self, event: Event) -> Result<(), Passed>
        ensures result { IsWithin self.old → result ≡ judged (heard_beside event self.old) }
        ensures ok { OnOk result (self.new ≡ heard_beside event self.old) }
        ensures limits { limits_of self.new ≡ limits_of self.old }
        ensures falls { self.old.event ≡ event → event ≢ events.Nothing
            → OnOk result (Falls 1 0 self.old self.new) }
    {
        match event {
            Event::Given => Passed::of_splice(self.give_register()),
            Event::Width => Passed::of_splice(self.give_width()),
            _ => {
                self.control(event);
                self.fit_memory();
                Ok(())
            }
        }
    }

    /// What was read is acted on.
    ///
    /// Proved: What was read is acted on as the definition says: text, titles, fonts, widths, conditions, the lines
    /// of requests.
    /// Proved: A move is refused for the first measure that it would bring above its limit, and only then.
    /// (`Formatter::{hear, work}`; `Formatter::spring` in springing.rt; `Formatter::eject_to` in pages.rt;
    /// `Formatter::set_register` in registers.rt)
    /// Proved: The limits that stand in a formatter stay where a call is refused as where it is made.
    /// (`Formatter::{hear, work}`; `Formatter::spring` in springing.rt; `Formatter::eject_to` in pages.rt;
    /// `Formatter::break_word_end` in lines.rt; `Formatter::{divert_line, divert_title, divert_space, divert_cell,
    /// divert_line_end}` in diversions.rt; `Formatter::set_register` in registers.rt)
    /// Proved: Each move reports by how much the number of moves that may still come before the next byte falls, or
    /// rises where an earlier move has paid for that. (`Formatter::{hear, work}`; `Formatter::set_line` in lines.rt;
    /// `Formatter::{line_placed, begin_page, page_ended}` in pages.rt; `Formatter::{spring, resume}` in springing.rt)
    #[inline]
    pub fn hear(&mut self, event: Event) -> Result<(), Passed>
        ensures result { IsWithin self.old → result ≡ judged (heard event self.old) }
        ensures ok { OnOk result (self.new ≡ heard event self.old) }
        ensures limits { limits_of self.new ≡ limits_of self.old }
        ensures falls { self.old.event ≡ event → event ≢ events.Nothing
            → OnOk result (Falls 1 0 self.old self.new) }
    {
        if is_text(event) {
            return Passed::of_line(self.hear_text(event));
        }
        self.hear_beside(event)
    }

    /// There is room for what is read then.
    pub fn read_in_room(&mut self, room: Room)
        ensures is { self.new ≡ read_in room self.old }
        ensures falls { self.old.event ≡ events.Nothing → self.old.task ≡ tasks.Room room
            → Falls 1 0 self.old self.new }
    {
        match room {
            Room::Title => self.reader.begin_title(),
            Room::Line => self.reader.begin_diverted_line(),
        }
        self.task = Task::Read;
    }

    /// What is under way goes on, where it adds nothing to what has a limit.
    fn go_on(&mut self, task: Task)
        ensures { self.new ≡ gone_on task self.old }
    {
        match task {
            Task::Count => self.count(),
            Task::InputTrap => self.count_input(),
            Task::Turn(given) => self.turn(given),
            Task::Finish => self.finish(),
            _ => {}
        }
    }

    /// A request takes effect.
    fn take_effect(&mut self, request: Request) -> Result<(), Passed>
        ensures result { IsWithin self.old → result ≡ judged (act request self.old) }
        ensures ok { OnOk result (self.new ≡ act request self.old) }
        ensures limits { limits_of self.new ≡ limits_of self.old }
    {
        match self.act(request) {
            Ok(()) => {
                self.fit_memory();
                Ok(())
            }
            Err(refused) => Err(Passed::from(refused)),
        }
    }

    /// What is under way goes on, where it needs neither the source nor the page nor the output.
    ///
    /// Proved: What is under way goes on as the definition says: each request under its own name, counting lines,
    /// turning pages, the steps of the end. (`Formatter::work`; `Formatter::act` in requests.rt; `Formatter::finish`
    /// in ending.rt)
    pub fn work(&mut self, task: Task) -> Result<(), Passed>
        ensures result { IsWithin self.old → result ≡ judged (worked task self.old) }
        ensures ok { OnOk result (self.new ≡ worked task self.old) }
        ensures limits { limits_of self.new ≡ limits_of self.old }
        ensures falls { self.old.event ≡ events.Nothing → self.old.task ≡ task → works task ≡ true
            → OnOk result (Falls 1 0 self.old self.new) }
    {
        match task {
            Task::Dash => Passed::of_line(self.finish_dash()),
            Task::Act(request) => self.take_effect(request),
            _ => {
                self.go_on(task);
                self.fit_memory();
                Ok(())
            }
        }
    }
}
