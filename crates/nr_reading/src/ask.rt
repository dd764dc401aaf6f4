//! What an escape still has to read.
ghost use Rattle.std.specs.Prelude.{◌≡◌};
ghost use Rattle.nr_reading.specs.Ask.{counts, has_text, reads_argument, is_size, is_unsigned, is_argument, is_digit, begun_ask, bracketed_ask, at_stage, of_kind, with_byte, spoiled, answer, answer_byte, answer_first, answer_two, answer_bracket, answer_digit, argument_asked, is_given};

use super::spelled::{Spelled, is_blank};

/// What is done to a register before it is read.
#[derive(Clone, Copy)]
pub enum Sign {
    /// Nothing.
    None,
    /// Its step is added.
    Plus,
    /// Its step is taken away.
    Minus,
}

/// What an escape asks for.
#[derive(Clone, Copy)]
pub enum Kind {
    /// `\*`: a string's name.
    String,
    /// `\n`: a register's name.
    Register(Sign),
    /// `\$`: an argument's number.
    Argument,
    /// `\w`: a text between delimiters.
    Width,
    /// `\f`: a font's name.
    Font,
    /// `\(` or `\[`: the name of a special character.
    Special,
    /// `\k`: a name, for nothing.
    Mark,
    /// `\h`: a distance between delimiters.
    Horizontal,
    /// `\l`: a distance and a character between delimiters.
    Rule,
    /// A text between delimiters, for nothing.
    Ignored,
    /// `\s`: a sign and digits, for nothing.
    Size,
}

/// What is read next of it.
#[derive(Clone, Copy)]
pub enum Stage {
    /// The first byte of a name.
    First,
    /// The two bytes of a name, of which one may have been read.
    Two,
    /// A name in brackets.
    Bracket,
    /// The delimiter.
    Delimiter,
    /// The text up to this delimiter.
    Inside(u8),
    /// A sign, or the first digit.
    Sign,
    /// The first digit, a sign having come or not.
    Digit(bool),
    /// A second digit.
    Second,
}

/// An escape whose argument is half read.
#[derive(Clone, Copy)]
pub struct Ask {
    /// What it asks for.
    pub kind: Kind,
    /// What is read next of it.
    pub stage: Stage,
    /// Its name, as far as it was read.
    pub name: Spelled,
}

/// How an escape begins whose argument is still to be read.
#[derive(Clone, Copy)]
pub(crate) enum Begun {
    /// It asks for this.
    Of(Kind),
    /// It asks for a special character whose name stands in brackets.
    Bracket,
}

impl Begun {
    ghost use Rattle.nr_reading.specs.Step.{ask_of};

    /// The escape.
    pub(crate) fn ask(self) -> Ask
        ensures { result ≡ ask_of self }
    {
        match self {
            Begun::Of(kind) => Ask::begun(kind),
            Begun::Bracket => Ask::bracketed(),
        }
    }
}

/// What an ask does with a byte.
#[derive(Clone, Copy)]
pub(crate) enum Answer {
    /// It takes the byte, and goes on as this.
    Goes(Ask),
    /// It leaves the byte, and goes on as this.
    Turns(Ask),
    /// It adds the byte to its text.
    Keeps(u8),
    /// It ends with the byte, as this.
    Ends(Ask),
    /// It ends before the byte, which stays, as this.
    Stops(Ask),
    /// It ends with the byte, the number of an argument, counted from 0.
    Argument(u8),
}

impl Kind {
    /// It counts as a name in which interpolations nest.
    pub(crate) fn counts(self) -> bool
        ensures { result ≡ counts self }
    {
        !matches!(
            self,
            Kind::Horizontal | Kind::Rule | Kind::Ignored | Kind::Size
        )
    }

    /// Its text is kept.
    pub(crate) fn has_text(self) -> bool
        ensures { result ≡ has_text self }
    {
        matches!(self, Kind::Width | Kind::Horizontal | Kind::Rule)
    }

    /// It is read in argument mode.
    pub(crate) fn reads_argument(self) -> bool
        ensures { result ≡ reads_argument self }
    {
        matches!(
            self,
            Kind::Width | Kind::Horizontal | Kind::Rule | Kind::Ignored
        )
    }

    /// A register without a sign.
    fn is_unsigned(self) -> bool
        ensures { result ≡ is_unsigned self }
    {
        matches!(self, Kind::Register(Sign::None))
    }

    /// The number of an argument.
    fn is_argument(self) -> bool
        ensures { result ≡ is_argument self }
    {
        matches!(self, Kind::Argument)
    }

    /// It is read as it stands.
    pub(crate) fn is_size(self) -> bool
        ensures { result ≡ is_size self }
    {
        matches!(self, Kind::Size)
    }
}

pub(crate) fn is_digit(byte: u8) -> bool
    ensures { result ≡ is_digit byte }
{
    b'0' <= byte && byte <= b'9'
}

// The number of an argument, 1 to 9.
fn argument_asked(byte: u8, ask: Ask) -> Answer
    ensures { result ≡ argument_asked byte ask }
{
    if b'1' <= byte && byte <= b'9' {
        return Answer::Argument(byte - b'1');
    }
    Answer::Ends(ask)
}

/// The formatter gives the value of this register: its name begins with `.`, or is one of four.
pub(crate) fn is_given(name: &[u8]) -> bool
    ensures { result ≡ is_given name.now }
{
    match name {
        [] => false,
        [first] => *first == b'.' || *first == b'%',
        [first, second] => {
            *first == b'.'
                || (*first == b'n' && *second == b'l')
                || (*first == b'd' && (*second == b'n' || *second == b'l'))
        }
        [first, ..] => *first == b'.',
    }
}

impl Ask {
    /// Nothing of it was read.
    pub(crate) fn begun(kind: Kind) -> Ask
        ensures { result ≡ begun_ask kind }
    {
        let stage = match kind {
            Kind::Width | Kind::Horizontal | Kind::Rule | Kind::Ignored => Stage::Delimiter,
            Kind::Size => Stage::Sign,
            Kind::Special => Stage::Two,
            _ => Stage::First,
        };
        Ask {
            kind,
            stage,
            name: Spelled::new(),
        }
    }

    /// A special character's name in brackets.
    pub(crate) fn bracketed() -> Ask
        ensures { result ≡ bracketed_ask }
    {
        Ask {
            kind: Kind::Special,
            stage: Stage::Bracket,
            name: Spelled::new(),
        }
    }

    // At another stage.
    fn at(self, stage: Stage) -> Ask
        ensures { result ≡ at_stage stage self }
    {
        Ask {
            kind: self.kind,
            stage,
            name: self.name,
        }
    }

    // Of another kind.
    fn of_kind(self, kind: Kind) -> Ask
        ensures { result ≡ of_kind kind self }
    {
        Ask {
            kind,
            stage: self.stage,
            name: self.name,
        }
    }

    // With one byte more of its name.
    fn with(self, byte: u8) -> Ask
        ensures { result ≡ with_byte byte self }
    {
        Ask {
            kind: self.kind,
            stage: self.stage,
            name: self.name.with(byte),
        }
    }

    // With a name that is bad.
    fn spoiled(self) -> Ask
        ensures { result ≡ spoiled self }
    {
        Ask {
            kind: self.kind,
            stage: self.stage,
            name: Spelled {
                bytes: self.name.bytes,
                bad: true,
            },
        }
    }

    // The first byte of a name.
    fn answer_first(self, byte: u8, long: bool) -> Answer
        ensures { result ≡ answer_first byte long self }
    {
        if byte == b'(' {
            return Answer::Goes(self.at(Stage::Two));
        }
        if byte == b'[' && long {
            return Answer::Goes(self.at(Stage::Bracket));
        }
        if byte == b'+' && self.kind.is_unsigned() {
            return Answer::Goes(self.of_kind(Kind::Register(Sign::Plus)));
        }
        if byte == b'-' && self.kind.is_unsigned() {
            return Answer::Goes(self.of_kind(Kind::Register(Sign::Minus)));
        }
        Answer::Ends(self.with(byte))
    }

    // One of the two bytes of a name.
    fn answer_two(self, byte: u8) -> Answer
        ensures { result ≡ answer_two byte self }
    {
        if self.name.bytes.is_empty() {
            return Answer::Goes(self.with(byte));
        }
        Answer::Ends(self.with(byte))
    }

    // A byte of a name in brackets.
    fn answer_bracket(self, byte: u8) -> Answer
        ensures { result ≡ answer_bracket byte self }
    {
        if byte == b']' {
            return Answer::Ends(self);
        }
        if is_blank(byte) {
            return Answer::Goes(self.spoiled());
        }
        Answer::Goes(self.with(byte))
    }

    // The first digit of a size.
    fn answer_digit(self, byte: u8, signed: bool) -> Answer
        ensures { result ≡ answer_digit byte signed self }
    {
        if !is_digit(byte) {
            return Answer::Stops(self);
        }
        if !signed && b'1' <= byte && byte <= b'3' {
            return Answer::Goes(self.at(Stage::Second));
        }
        Answer::Ends(self)
    }

    // A byte that is no newline.
    fn answer_byte(self, byte: u8, long: bool) -> Answer
        ensures { result ≡ answer_byte byte long self.stage self }
    {
        match self.stage {
            Stage::First => {
                if self.kind.is_argument() {
                    return argument_asked(byte, self);
                }
                self.answer_first(byte, long)
            }
            Stage::Two => self.answer_two(byte),
            Stage::Bracket => self.answer_bracket(byte),
            Stage::Delimiter => Answer::Goes(self.at(Stage::Inside(byte))),
            Stage::Inside(delimiter) => {
                if byte == delimiter {
                    return Answer::Ends(self);
                }
                Answer::Keeps(byte)
            }
            Stage::Sign => {
                if byte == b'+' || byte == b'-' {
                    return Answer::Goes(self.at(Stage::Digit(true)));
                }
                Answer::Turns(self.at(Stage::Digit(false)))
            }
            Stage::Digit(signed) => self.answer_digit(byte, signed),
            Stage::Second => {
                if is_digit(byte) {
                    return Answer::Ends(self);
                }
                Answer::Stops(self)
            }
        }
    }

    /// An element comes. A newline ends it and stays; a name in brackets is bad then.
    pub(crate) fn answer(self, byte: u8, long: bool) -> Answer
        ensures { result ≡ answer byte long self }
    {
        if byte == b'\n' {
            if matches!(self.stage, Stage::Bracket) {
                return Answer::Stops(self.spoiled());
            }
            return Answer::Stops(self);
        }
        self.answer_byte(byte, long)
    }
}
