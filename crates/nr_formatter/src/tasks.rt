//! What the formatter has under way.
use crate::request_line::RequestLine;
use nr_input::Standing;
use nr_store::Request;

/// What goes on once full lines went out.
#[derive(Clone, Copy)]
pub enum After {
    /// The text line in which a word ended.
    Text,
    /// A text line ended: it is counted.
    Line,
    /// A text line ended after `\c`: it is counted, and in no-fill mode nothing goes out.
    Interrupted,
    /// An empty line ended a word that `\c` had left open: it is not counted.
    Continued,
}

/// What a break is for.
#[derive(Clone, Copy)]
pub enum Then {
    /// A request, whose line was read.
    Act(Request),
    /// The space of an empty text line.
    Space,
    /// A text line that begins with a blank.
    Leading,
    /// A diverted line that is read again.
    Diverted,
    /// The end of the input.
    Finish,
}

/// What room is made for.
#[derive(Clone, Copy)]
pub enum Room {
    /// A title, which is read then.
    Title,
    /// A diverted line, which is read again then.
    Line,
}

/// What a page is ejected for.
#[derive(Clone, Copy)]
pub enum Ejected {
    /// A request.
    Request,
    /// The end of the run.
    Finish,
}

/// What the next moves do. It is what a sprung macro interrupts and what is gone on with after it.
#[derive(Clone, Copy)]
pub enum Task {
    /// The input is read.
    Read,
    /// The second cell of a dash is read.
    Dash,
    /// Full lines go out, and then all, where a word that ended asks for a break.
    Flow(After, bool),
    /// A text line is counted by `.ce` and `.ul`.
    Count,
    /// A text line is counted by `.it`.
    InputTrap,
    /// All that is collected goes out.
    Break(Then),
    /// A request takes effect.
    Act(Request),
    /// Room is made.
    Room(Room),
    /// The title that was read is placed.
    Title,
    /// The diverted line that was read is placed, so many u high.
    Line(u32),
    /// Space of so many u is placed.
    Space(u32),
    /// A page begins, and is ejected if this says so.
    Begin(Option<bool>),
    /// The open page is ejected, unless no-space mode is on and no number was given.
    Turn(bool),
    /// The page that is being ejected goes from trap to trap, and ends.
    Eject(Ejected),
    /// The input has ended: the next step of the end.
    Finish,
    /// The run is over.
    Halted,
}

/// What is gone on with after the text of a sprung macro.
#[derive(Clone, Copy)]
pub struct Resume {
    pub task: Task,
    /// Where the reader stood.
    pub standing: Standing,
    /// The line of the request that waits, if one does.
    pub line: RequestLine,
}

impl Resume {
    /// The input is read, at the beginning of a line.
    pub fn blank() -> Resume {
        Resume {
            task: Task::Read,
            standing: Standing::Start,
            line: RequestLine::of(&[]),
        }
    }
}

/// The steps of the end.
#[derive(Clone, Copy)]
pub enum Step {
    /// The input goes on.
    NotYet,
    /// All that is collected goes out.
    FirstBreak,
    /// The macro of `.em` is sprung.
    Macro,
    /// What it collected goes out.
    SecondBreak,
    /// Open diversions end.
    Diversions,
    /// The open page is ejected.
    LastPage,
}
