//! Where the reader is.
ghost use Rattle.std.specs.Prelude.{◌≡◌};
ghost use Rattle.nr_reading.specs.Mode.{is_direct, reads_arguments, reads_name, standing_of, mode_of, at_a_line, first_signs};
ghost use Rattle.nr_reading.specs.Many.LineBeginnings.{begins_control};

use super::ask::Sign;

/// Where in a line the reader is.
#[derive(Clone, Copy)]
pub enum Mode {
    // ---- beginnings of lines, and text: items as they are
    /// At the beginning of a line.
    Start,
    /// At the beginning of a line, which may be a diverted one.
    Diverting,
    /// After so many blanks that a text line begins with.
    Leading(u32),
    /// After the blanks of a line that continues a word.
    Continued,
    /// In a text line.
    Text,
    /// In a text line, `\c` having come last.
    Interrupted,
    /// In a title, before its first delimiter.
    TitleBefore,
    /// In the left, the middle or the right part of a title, 0 to 2, which end at this byte.
    Title(u8, u8),
    /// In a diverted line.
    Diverted,
    /// After an accepted condition.
    Accepted,
    /// In a rejected part, in which so many braces are open.
    Skip(u64),

    // ---- copied elements
    /// After a control character, in the blanks before the name.
    Control,
    /// In a control line's name.
    Name,
    /// In a line that does nothing.
    Drop,
    /// After the last delimiter of a title.
    TitleRest,
    /// In the blanks before a request's arguments.
    RequestBlanks,
    /// In a request's arguments.
    RequestLine,
    /// In the blanks before a macro's arguments.
    MacroBlanks,
    /// Before an argument of a macro, or after the last.
    MacroGap,
    /// In an argument of a macro.
    Word,
    /// In an argument of a macro that began with a quote.
    Quoted,
    /// In such an argument, after a quote.
    Quote,
    /// In the blanks before a string's name.
    StringBefore,
    /// In a string's name.
    StringName,
    /// In the blanks before a string's text.
    StringBlanks,
    /// In a string's text.
    StringText,
    /// In a line of a definition that so far has so many bytes of the line that ends it.
    BodyStart(u8),
    /// In another line of a definition.
    Body,
    /// In the line that ends a definition, after what tells it.
    BodyEnd,
    /// Before or in a condition.
    Condition,
    /// In a condition's number, in which so many parentheses are open.
    Number(u64),
    /// In a condition's first string, which ends at this byte.
    First(u8),
    /// In a condition's second string, which ends at this byte.
    Second(u8),
    /// In a transparent line.
    Transparent,
}

/// What of an escape was read.
#[derive(Clone, Copy)]
pub enum Escape {
    /// Nothing.
    Plain,
    /// The `\`.
    Begun,
    /// The `\"`, and some of what follows.
    Comment,
}

/// What the next move does.
#[derive(Clone, Copy)]
pub enum PendingAct {
    /// It looks at the next item.
    Look,
    /// It begins a string's text: empty, or as it was.
    Begin,
    /// It adds a byte to the text that is built.
    Add(u8),
    /// It adds the byte at `next` of the `held` bytes that were held back, and then goes on so; `then` comes last.
    Release {
        /// How many bytes were held back.
        held: u8,
        /// How many of them were added.
        next: u8,
        /// The byte that showed that they belong to the text.
        then: Option<u8>,
    },
    /// It gives the text its name.
    Define,
    /// It gives the text its name, and then calls the macro that ended the definition.
    DefineAndCall,
    /// It calls that macro.
    CallEnding,
    /// It splices the string that was asked for.
    Splice,
    /// It splices the register that was asked for.
    Register(Sign),
    /// It splices an argument, counted from 0.
    Argument(u8),
    /// It adds a byte to the argument of a macro that is read.
    Put(u8),
    /// It ends that argument.
    EndArgument,
    /// It calls the macro.
    Call,
    /// It looks the control line's name up.
    Seek,
    /// It judges the condition.
    Judge(bool),
    /// It tells one of so many blanks that a text line begins with.
    Lead(u32),
    /// Nothing: the limit of expansions was passed.
    Expanded,
}

/// What the name of a control line calls.
#[derive(Clone, Copy)]
pub enum Calls {
    /// Nothing: the line is dropped.
    Nothing,
    /// A macro.
    Macro,
    /// A request whose line is read before it acts.
    Request,
    /// `.ds`.
    NewString,
    /// `.as`.
    MoreString,
    /// `.if`.
    If,
    /// `.ie`.
    IfElse,
    /// `.el`.
    Else,
    /// `.tl`.
    Title,
}

/// Where a line stands in whose middle a macro was sprung.
#[derive(Clone, Copy)]
pub enum Standing {
    /// At its beginning.
    Start,
    /// After the first of its blanks.
    Leading,
    /// In its text.
    Text,
    /// In the blanks of a line that continues a word.
    Continued,
}

/// Where the reader and the copier are.
#[derive(Clone, Copy)]
pub struct Reading {
    /// Where in a line the reader is.
    pub mode: Mode,
    /// What of an escape was read.
    pub escape: Escape,
    /// What the next move does.
    pub pending_act: PendingAct,
    /// The next text line continues a word.
    pub continued: bool,
    /// The control line began with the no-break character.
    pub no_break: bool,
}

/// How lines are read, as requests set it.
#[derive(Clone, Copy)]
pub struct Signs {
    /// The control character.
    pub control: u8,
    /// The no-break control character.
    pub no_break: u8,
    /// Names may have more than two bytes.
    pub long: bool,
}

impl Mode {
    /// Items are read as they are, and not in copy mode.
    pub(crate) fn is_direct(self) -> bool
        ensures { result ≡ is_direct self }
    {
        matches!(
            self,
            Mode::Start
                | Mode::Diverting
                | Mode::Leading(_)
                | Mode::Continued
                | Mode::Text
                | Mode::Interrupted
                | Mode::TitleBefore
                | Mode::Title(_, _)
                | Mode::Diverted
                | Mode::Accepted
                | Mode::Skip(_)
        )
    }

    /// Arguments are read: `\w` is interpolated too.
    pub(crate) fn reads_arguments(self) -> bool
        ensures { result ≡ reads_arguments self }
    {
        matches!(
            self,
            Mode::RequestBlanks | Mode::RequestLine | Mode::Condition | Mode::Number(_)
        )
    }

    /// A control line's name is read.
    pub(crate) fn reads_name(self) -> bool
        ensures { result ≡ reads_name self }
    {
        matches!(self, Mode::Control | Mode::Name)
    }

    /// Where the line stands.
    pub(crate) fn standing(self) -> Standing
        ensures { result ≡ standing_of self }
    {
        match self {
            Mode::Leading(_) => Standing::Leading,
            Mode::Continued => Standing::Continued,
            Mode::Text | Mode::Interrupted => Standing::Text,
            _ => Standing::Start,
        }
    }
}

impl Standing {
    /// The mode of a line that stands there.
    pub(crate) fn mode(self) -> Mode
        ensures { result ≡ mode_of self }
    {
        match self {
            Standing::Start => Mode::Start,
            Standing::Leading => Mode::Leading(1),
            Standing::Text => Mode::Text,
            Standing::Continued => Mode::Continued,
        }
    }
}

impl Reading {
    /// At the beginning of a line, with nothing half read.
    pub(crate) fn new() -> Reading
        ensures { result ≡ at_a_line }
    {
        Reading {
            mode: Mode::Start,
            escape: Escape::Plain,
            pending_act: PendingAct::Look,
            continued: false,
            no_break: false,
        }
    }
}

impl Signs {
    /// Those at first.
    pub(crate) fn new() -> Signs
        ensures { result ≡ first_signs }
    {
        Signs {
            control: b'.',
            no_break: b'\'',
            long: false,
        }
    }

    /// Whether a line that begins with this byte is a control line.
    #[inline]
    pub fn begins_control(self, byte: u8) -> bool
        ensures { result ≡ begins_control byte self }
    {
        byte == self.control || byte == self.no_break
    }
}
