//! What is noted of a line while it is read.
ghost use Rattle.std.specs.Prelude.{◌≡◌};
ghost use Rattle.nr_reading.specs.Step.{note_of};
ghost use Rattle.nr_reading.specs.Noting.{no_condition, no_definition, are_equal, compared, one_more, no_notes, noted};

use super::answers::Answers;
use super::kept::Kept;
use super::spelled::Spelled;
use super::step::Jot;
use nr_units::Name;

/// What was read of a condition (CSTR 54, 16).
#[derive(Clone, Copy)]
pub struct Condition {
    /// `!` came before it.
    pub negated: bool,
    /// Its answer is remembered for `.el`.
    pub remembers: bool,
    /// The length of its first string, in bytes.
    pub first: u64,
    /// The length of its second string, in bytes.
    pub second: u64,
    /// So far the second string has the bytes of the first.
    pub same: bool,
}

/// What is defined.
#[derive(Clone, Copy)]
pub struct Defining {
    /// The name that ends the definition and is called then; the empty one where two dots end it.
    pub ending: Name,
    /// Names may be long in it.
    pub long: bool,
    /// Its lines are kept.
    pub keeps: bool,
    /// A string is added to.
    pub appends: bool,
}

/// What is noted of a line while it is read.
#[derive(Drop)]
pub struct Notes {
    /// A control line's name; then that of the macro that is called, or of the text that is defined.
    pub name: Spelled,
    /// The name that an escape has asked for.
    pub asked: Name,
    /// The first 256 bytes of a request's line, of a condition's number or of its first string.
    pub line: Kept,
    /// What was read of a condition.
    pub condition: Condition,
    /// What is defined.
    pub defining: Defining,
    /// The last answers of `.ie`.
    pub answers: Answers,
}

// A count, and one. It stops at the greatest.
fn one_more(count: u64) -> u64
    ensures { result ≡ one_more count }
{
    count.saturating_add(1)
}

impl Condition {
    /// Nothing was read.
    pub(crate) fn new() -> Condition
        ensures { result ≡ no_condition }
    {
        Condition {
            negated: false,
            remembers: false,
            first: 0,
            second: 0,
            same: true,
        }
    }

    /// The strings that were read are equal.
    pub(crate) fn are_equal(self) -> bool
        ensures { result ≡ are_equal self }
    {
        self.same && self.first == self.second
    }

    // A byte of the second string comes.
    fn compared(self, byte: u8, line: &Kept) -> Condition
        ensures { result ≡ compared byte line.now self }
    {
        let mut condition = self;
        if self.second < 256 {
            condition.same = self.same && line.at(self.second) == Some(byte);
        }
        condition.second = one_more(self.second);
        condition
    }
}

impl Defining {
    /// Nothing is defined.
    pub(crate) fn new() -> Defining
        ensures { result ≡ no_definition }
    {
        Defining {
            ending: Name::new(),
            long: false,
            keeps: false,
            appends: false,
        }
    }
}

impl Notes {
    /// Nothing was read.
    pub(crate) fn new() -> Notes
        ensures { result ≡ no_notes }
    {
        Notes {
            name: Spelled::new(),
            asked: Name::new(),
            line: Kept::new(),
            condition: Condition::new(),
            defining: Defining::new(),
            answers: Answers::new(),
        }
    }

    /// Takes what another has.
    pub(crate) fn copy_from(&mut self, other: &Notes)
        ensures { self.new ≡ other.now }
    {
        self.name = other.name;
        self.asked = other.asked;
        self.line.copy_from(&other.line);
        self.condition = other.condition;
        self.defining = other.defining;
        self.answers.copy_from(&other.answers);
    }

    /// What an element adds.
    #[inline(always)]
    pub(crate) fn note(&mut self, note: Jot)
        ensures { self.new ≡ noted (note_of note) self.old }
    {
        match note {
            Jot::Nothing | Jot::Begin(_) => {}
            Jot::NewName => self.name = Spelled::new(),
            Jot::Name(byte) => self.name.push(byte),
            Jot::NewLine => self.line.clear(),
            Jot::Line(byte) => self.line.keep(byte),
            Jot::Negated => self.condition.negated = true,
            Jot::Strings => {
                self.line.clear();
                self.condition.first = 0;
                self.condition.second = 0;
                self.condition.same = true;
            }
            Jot::First(byte) => {
                self.line.keep(byte);
                self.condition.first = one_more(self.condition.first);
            }
            Jot::Second(byte) => self.condition = self.condition.compared(byte, &self.line),
        }
    }
}
