//! The options of a table.
ghost use Rattle.std.specs.Prelude.{◌≡◌};
ghost use Rattle.tbl_reader.specs.Options as specs;

use super::complaint::Kind;
use nr_units::Name;
use tbl_table::Frame;

/// What the options say.
#[derive(Clone, Copy)]
pub struct Options {
    /// The table stands in the middle of the line.
    pub center: bool,
    /// It is as wide as the line.
    pub expand: bool,
    /// Its frame.
    pub frame: Frame,
    /// The byte that separates fields.
    pub tab: u8,
    /// The byte before the fraction of a number.
    pub point: u8,
    /// Blanks around fields don't count.
    pub nospaces: bool,
    /// A table in a box may be cut by the end of a page.
    pub nokeep: bool,
    /// It stays as wide as it is.
    pub nofit: bool,
    /// What is wrong with the first word that is no option, or has another argument than one character.
    pub wrong: Option<Kind>,
}

/// An option.
#[derive(Clone, Copy)]
enum Choice {
    /// `center`
    Center,
    /// `expand`
    Expand,
    /// `box` and its like
    Frame(Frame),
    /// `tab(x)`
    Tab,
    /// `decimalpoint(c)`
    Point,
    /// `nospaces`
    NoSpaces,
    /// `nokeep`
    NoKeep,
    /// `nofit`
    NoFit,
    /// One without effect.
    Passed,
    /// None.
    Unknown,
}

/// What is half read of the options.
#[derive(Clone, Copy)]
pub(crate) struct OptionsRead {
    /// What was read.
    pub options: Options,
    /// The word.
    pub word: Name,
    /// A blank stands after the word.
    pub spaced: bool,
    /// Its argument is read.
    pub inside: bool,
    /// The first byte of its argument.
    pub argument: Option<u8>,
    /// It has more.
    pub more: bool,
}

/// Whether a word is this one.
fn is_word(word: Name, text: Name) -> bool
    ensures { result ≡ specs.is_word word text }
{
    word == text
}

/// The option of a word in small letters.
fn choice_of(word: Name) -> Choice
    ensures { result ≡ specs.choice_of word }
{
    if is_word(word, Name::of(b"center")) || is_word(word, Name::of(b"centre")) {
        return Choice::Center;
    }
    if is_word(word, Name::of(b"expand")) {
        return Choice::Expand;
    }
    if is_word(word, Name::of(b"tab")) {
        return Choice::Tab;
    }
    if is_word(word, Name::of(b"decimalpoint")) {
        return Choice::Point;
    }
    if is_word(word, Name::of(b"nospaces")) {
        return Choice::NoSpaces;
    }
    if is_word(word, Name::of(b"nokeep")) {
        return Choice::NoKeep;
    }
    if is_word(word, Name::of(b"nofit")) {
        return Choice::NoFit;
    }
    frame_of(word)
}

/// The option of a word that names a frame.
fn frame_of(word: Name) -> Choice
    ensures { result ≡ specs.frame_of word }
{
    if is_word(word, Name::of(b"box")) || is_word(word, Name::of(b"frame")) {
        return Choice::Frame(Frame::Single);
    }
    if is_word(word, Name::of(b"allbox")) {
        return Choice::Frame(Frame::All);
    }
    if is_word(word, Name::of(b"doublebox")) || is_word(word, Name::of(b"doubleframe")) {
        return Choice::Frame(Frame::Double);
    }
    if is_passed(word) {
        return Choice::Passed;
    }
    Choice::Unknown
}

/// Whether a word is an option without effect.
fn is_passed(word: Name) -> bool
    ensures { result ≡ specs.is_passed word }
{
    is_word(word, Name::of(b"linesize"))
        || is_word(word, Name::of(b"delim"))
        || is_word(word, Name::of(b"nowarn"))
}

/// The frame of two that are asked for, one after the other.
fn framed(frame: Frame, other: Frame) -> Frame
    ensures { result ≡ specs.framed frame other }
{
    match (frame, other) {
        (Frame::All | Frame::Double, Frame::Single) => frame,
        _ => other,
    }
}

/// The small letter of a letter.
pub(crate) fn small(byte: u8) -> u8
    ensures { result ≡ specs.small byte }
{
    match byte {
        b'A'..=b'Z' => byte + 32,
        _ => byte,
    }
}

/// Whether a byte is a letter.
fn is_letter(byte: u8) -> bool
    ensures { result ≡ specs.is_letter byte }
{
    matches!(byte, b'A'..=b'Z' | b'a'..=b'z')
}

impl Options {
    /// Without any.
    pub(crate) fn new() -> Options
        ensures { result ≡ specs.no_options }
    {
        Options {
            center: false,
            expand: false,
            frame: Frame::Open,
            tab: b'\t',
            point: b'.',
            nospaces: false,
            nokeep: false,
            nofit: false,
            wrong: None,
        }
    }

    /// Something is wrong, if nothing was before.
    fn blaming(self, kind: Kind) -> Options
        ensures { result ≡ specs.blaming kind self }
    {
        match self.wrong {
            Some(_) => self,
            None => Options {
                wrong: Some(kind),
                ..self
            },
        }
    }

    /// With an option of this name and its argument, if that is one byte.
    fn with(self, choice: Choice, word: Name, argument: Option<u8>) -> Options
        ensures { result ≡ specs.options_with choice word argument self }
    {
        let mut options = self;
        match (choice, argument) {
            (Choice::Center, _) => options.center = true,
            (Choice::Expand, _) => options.expand = true,
            (Choice::Frame(frame), _) => options.frame = framed(self.frame, frame),
            (Choice::Tab, Some(byte)) => options.tab = byte,
            (Choice::Point, Some(byte)) => options.point = byte,
            (Choice::NoSpaces, _) => options.nospaces = true,
            (Choice::NoKeep, _) => options.nokeep = true,
            (Choice::NoFit, _) => options.nofit = true,
            (Choice::Passed, _) => {}
            (Choice::Tab | Choice::Point, None) => return self.blaming(Kind::BadArgument(word)),
            (Choice::Unknown, _) => return self.blaming(Kind::UnknownOption(word)),
        }
        options
    }
}

impl OptionsRead {
    /// Nothing was read.
    pub(crate) fn new() -> OptionsRead
        ensures { result ≡ specs.first_options }
    {
        OptionsRead {
            options: Options::new(),
            word: Name::new(),
            spaced: false,
            inside: false,
            argument: None,
            more: false,
        }
    }

    /// Its argument, if it is one byte.
    fn only_argument(self) -> Option<u8>
        ensures { result ≡ specs.only_argument self }
    {
        if self.more { None } else { self.argument }
    }

    /// The word has ended, if there is one.
    pub(crate) fn ended(self) -> OptionsRead
        ensures { result ≡ specs.word_ended self }
    {
        let mut read = OptionsRead::new();
        read.options = if self.word.is_empty() {
            self.options
        } else {
            self.options
                .with(choice_of(self.word), self.word, self.only_argument())
        };
        read
    }

    /// A letter of a word: after a blank it begins another.
    fn letter(self, byte: u8) -> OptionsRead
        ensures { result ≡ specs.letter byte self }
    {
        let mut read = if self.spaced { self.ended() } else { self };
        if !read.word.is_full() {
            read.word.push(small(byte));
        }
        read
    }

    /// A byte in an argument.
    fn in_argument(self, byte: u8) -> OptionsRead
        ensures { result ≡ specs.in_argument byte self }
    {
        if byte == b')' {
            return self.ended();
        }
        let mut read = self;
        match self.argument {
            None => read.argument = Some(byte),
            Some(_) => read.more = true,
        }
        read
    }

    /// With one byte more.
    pub(crate) fn with(self, byte: u8) -> OptionsRead
        ensures { result ≡ specs.options_read byte self }
    {
        if self.inside {
            return self.in_argument(byte);
        }
        if is_letter(byte) {
            return self.letter(byte);
        }
        let mut read = self;
        match byte {
            b'(' => read.inside = true,
            b' ' | b'\t' => read.spaced = true,
            _ => return self.ended(),
        }
        read
    }
}

/// The options of a text.
pub(crate) fn options_of(text: &[u8]) -> Options
    ensures { result ≡ specs.options_of text.now }
{
    let mut read = OptionsRead::new();
    for byte in text {
        read = read.with(*byte);
    }
    read.ended().options
}
