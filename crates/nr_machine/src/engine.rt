//! The state of a run, kept in memory that is taken once, and its moves.
ghost use Rattle.std.specs.Prelude.{◌≡◌, ◌+◌};

use crate::lengths::Sizes;
use crate::outcome::{Measure, Outcome, Stop};
use nr_fill::out::Out;
use nr_formatter::formatter::Formatter;
use nr_formatter::tasks::{Resume, Task};
use nr_input::{Event, Heard, Place, Refusal};
use nr_page::page::Page;
use nr_page::{Faces, Select};
use nr_store::Request;
use nr_units::Name;
use nr_units::sink::Sink;
use nr_units::source::Source;

/// The state of a run.
#[derive(Drop)]
pub struct Engine {
    /// All that is kept but pages.
    pub formatter: Formatter,
    /// How far the source was taken.
    pub place: Place,
    /// The row that goes out, or the diverted line that is being read again.
    pub row: Out,
    /// The lines on the open page.
    pub page: Page,
    /// The pages to print.
    pub select: Select,
    /// The faces that they show.
    pub faces: Faces,
    /// What was under way where the text was sprung whose mark was taken last.
    pub resumed: Resume,
    ghost has_row: { row.capacity ≡ page.limit + 4096 },
}

impl Engine {
    ghost use Rattle.std.specs.Prelude.{◌≡◌, ◌≢◌, ℕ, List, Option, Some, true};
    ghost use Rattle.nr_units.specs.Failures.{put_counted_if};
    ghost use Rattle.nr_input.specs.Weights.{left_to_resume};
    ghost use Rattle.nr_formatter.specs.Weights.{Falls};
    ghost use Rattle.nr_formatter.specs.declared.tasks.Resume.{Resume as ResumeValue};
    ghost use Rattle.nr_input.specs.declared.emitted.Emitted.TheVariants as tells;
    ghost use Rattle.nr_input.specs.Emitted.{emitted_as};
    ghost use Rattle.nr_input.specs.Refusal.{place_reported};
    ghost use Rattle.nr_formatter.specs.Moves.{works, worked};
    ghost use Rattle.nr_formatter.specs.Springing.{sprung};
    ghost use Rattle.nr_reading.specs.declared.event.Event.TheVariants as events;
    ghost use Rattle.nr_store.specs.declared.request.Request.TheVariants as requests;
    ghost use Rattle.nr_formatter.specs.declared.tasks.Task.TheVariants as tasks;
    ghost use Rattle.nr_machine.specs.declared.outcome.Outcome.TheVariants as outcomes;
    ghost use Rattle.nr_machine.specs.State.{plainly};
    ghost use Rattle.nr_machine.specs.Machine.{emitted as emitted_formatter, act as act_request, work as work_state, hear as hear_event};
    ghost use Rattle.nr_machine.specs.Run.{refused, fails_writing, stops_writing};
    ghost use Rattle.nr_machine.specs.Holding.{shape, ReadsNext, IsUnderWay, IsAtWork, WorksQuietly, Acts, ActsQuietly, Exits, Moves, TellsRead, TellsSource};
    ghost use Rattle.nr_machine.specs.Limits.{limits_of, limits_under};
    ghost use Rattle.nr_machine.specs.Lengths.{sizes_of};
    ghost use Rattle.nr_options.specs.Limits.{Bounds};

    /// The lengths of all vectors, as these tell.
    pub fn memory(&self) -> Sizes
        ensures { (b : Bounds) → limits_of (shape self.now) ≡ limits_under b → result ≡ sizes_of b }
    {
        let store = self.formatter.store.memory();
        let page = self.page.memory();
        Sizes {
            elements: store.elements,
            slots: store.slots,
            names: store.names,
            drafts: store.drafts,
            frames: store.frames,
            modes: store.modes,
            bytes: store.bytes,
            places: store.places,
            gathering: store.gathering,
            registers: store.registers,
            traps: store.traps,
            trap_order: store.trap_order,
            words: store.words,
            kinds: store.kinds,
            cells: self.formatter.line.cell_memory(),
            pieces: self.formatter.line.piece_memory(),
            row: self.row.memory(),
            page_cells: page.cells,
            page_texts: page.texts,
            page_rows: page.rows,
        }
    }

    /// The next move would pass this limit.
    pub(crate) fn passed(&self, which: Measure) -> Outcome
        ensures { result ≡ outcomes.Limit which self.now.place.taken }
    {
        Outcome::Limit {
            which,
            at: self.place.taken(),
        }
    }

    /// What was emitted is acted on then; what a sprung macro interrupted is gone on with.
    #[inline(always)]
    fn tell(&mut self, heard: Heard)
        ensures is { shape self.new ≡ record (shape self.old)
            { formatter = emitted_formatter (emitted_as self.old.resumed heard) self.old.formatter } }
        ensures limits { limits_of (shape self.new) ≡ limits_of (shape self.old) }
        ensures falls { (resume : ResumeValue) → emitted_as self.old.resumed heard ≡ tells.Resume resume
            → self.old.formatter.event ≡ events.Nothing → self.old.formatter.task ≡ tasks.Read
            → Falls 0 left_to_resume self.old.formatter self.new.formatter }
    {
        match heard {
            Heard::Event(event) => self.formatter.event = event,
            Heard::Resume => self.formatter.resume(&self.resumed),
        }
    }

    /// The next item of the input is looked at, and taken or left; or what is pending is done.
    #[inline(always)]
    fn read<R: Source>(&mut self, input: &mut R) -> Result<(), Refusal>
        requires { ReadsNext self.old.formatter }
        ensures moves { (held : Option (List ℕ))
            → Moves (shape self.old) (shape self.new) (R.supply input.old) (R.supply input.new) held held
            (refused (place_reported self.old.place.taken self.old.formatter.reader) result) }
        ensures limits { limits_of (shape self.new) ≡ limits_of (shape self.old) }
        ensures tells { TellsRead (shape self.old) (shape self.new) result (R.failures input.old)
            (R.failures input.new) }
    {
        let formatter = &mut self.formatter;
        match nr_input::advance(
            &mut self.place,
            &mut formatter.reader,
            &mut formatter.store,
            input,
            &mut self.resumed,
        ) {
            Ok(heard) => {
                self.tell(heard);
                self.formatter.fit_memory();
                Ok(())
            }
            Err(refusal) => Err(refusal),
        }
    }

    /// `.ex`: nothing is to come of the source, and the levels are empty.
    fn exit(&mut self)
        requires { IsUnderWay (tasks.Act requests.Ex) self.old.formatter }
        ensures exits { Exits (shape self.old) (shape self.new) }
        ensures limits { limits_of (shape self.new) ≡ limits_of (shape self.old) }
    {
        self.place.empty();
        self.formatter.ex();
    }

    /// What is under way goes on in the formatter alone.
    fn work_plainly(&mut self, task: Task) -> Result<(), Measure>
        requires under_way { IsUnderWay task self.old.formatter }
        requires plain { works task ≡ true }
        ensures works { WorksQuietly (plainly (worked task)) (shape self.old) (shape self.new) result }
        ensures limits { limits_of (shape self.new) ≡ limits_of (shape self.old) }
    {
        Measure::of_answer(self.formatter.work(task))
    }

    /// A request takes effect.
    fn act(&mut self, request: Request) -> Result<(), Measure>
        requires { IsUnderWay (tasks.Act request) self.old.formatter }
        ensures acts { ActsQuietly (act_request request) (shape self.old) (shape self.new) result }
        ensures limits { limits_of (shape self.new) ≡ limits_of (shape self.old) }
    {
        match request {
            Request::Ex => {
                self.exit();
                Ok(())
            }
            _ => self.work_plainly(Task::Act(request)),
        }
    }

    /// What is under way goes on, where nothing is read.
    fn work<W: Sink>(&mut self, task: Task, output: &mut W) -> Result<(), Stop>
        requires { IsAtWork task self.old.formatter }
        ensures acts { Acts (work_state task) (shape self.old) (shape self.new) (W.held output.old)
            (W.held output.new) result }
        ensures limits { limits_of (shape self.new) ≡ limits_of (shape self.old) }
        ensures failures { W.failures output.new ≡ put_counted_if (fails_writing result)
            (W.failures output.old) }
    {
        match task {
            Task::Flow(after, breaks) => self.flow(after, breaks, output),
            Task::Break(then) => self.break_out(then, output),
            Task::Act(request) => Stop::of_limit(self.act(request)),
            Task::Room(room) => self.make_room(room, output),
            Task::Title => self.put_title(output),
            Task::Line(height) => self.put_diverted_line(height, output),
            Task::Space(distance) => self.put_space(distance, output),
            Task::Begin(_) => {
                self.begin_page();
                Ok(())
            }
            Task::Eject(ejected) => self.eject(ejected, output),
            _ => Stop::of_limit(self.work_plainly(task)),
        }
    }

    /// What was read is acted on.
    fn hear(&mut self, event: Event) -> Result<(), Measure>
        requires event { self.old.formatter.event ≡ event }
        requires busy { event ≢ events.Nothing }
        ensures works { WorksQuietly (hear_event event) (shape self.old) (shape self.new) result }
        ensures limits { limits_of (shape self.new) ≡ limits_of (shape self.old) }
    {
        if let Event::DivertedCell(cell) = event {
            return self.put_diverted_cell(cell);
        }
        Measure::of_answer(self.formatter.hear(event))
    }

    /// The macro that is to be sprung springs.
    fn spring(&mut self, name: Name) -> Result<(), Measure>
        requires { self.old.formatter.springs ≡ Some name }
        ensures works { WorksQuietly (plainly (sprung name)) (shape self.old) (shape self.new) result }
        ensures limits { limits_of (shape self.new) ≡ limits_of (shape self.old) }
    {
        Measure::of_splice(self.formatter.spring(name))
    }

    /// One move, or why the run stops.
    ///
    /// Proved: One move in the program is one move of the machine, or the reason why none is made.
    /// Proved: The limits that stand in an engine are after each move as before it, and after the options.
    /// (`Engine::advance`, `Engine::choose` in choosing.rt)
    #[inline(always)]
    pub fn advance<R: Source, W: Sink>(
        &mut self,
        input: &mut R,
        output: &mut W,
    ) -> Result<(), Outcome>
        ensures moves { Moves (shape self.old) (shape self.new) (R.supply input.old) (R.supply input.new)
            (W.held output.old) (W.held output.new) result }
        ensures limits { limits_of (shape self.new) ≡ limits_of (shape self.old) }
        ensures tells { TellsSource (shape self.old) (shape self.new) result (R.failures input.old)
            (R.failures input.new) }
        ensures write_failures { W.failures output.new ≡ put_counted_if (stops_writing result)
            (W.failures output.old) }
    {
        let at = self.place.taken();
        if let Some(name) = self.formatter.springs {
            return Outcome::limited(self.spring(name), at);
        }
        match self.formatter.event {
            Event::Nothing => match self.formatter.task {
                Task::Read => {
                    let emitted = self.formatter.reader.place_reported(at);
                    Outcome::refused(self.read(input), emitted)
                }
                Task::Halted => Err(Outcome::Done),
                task => Outcome::stopped(self.work(task, output), at),
            },
            event => Outcome::limited(self.hear(event), at),
        }
    }
}
