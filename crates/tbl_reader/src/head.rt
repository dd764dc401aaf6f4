//! The options and formats of a table.
ghost use Rattle.std.specs.Prelude.{◌≡◌, ◌<◌, length, IfSome, Some};
ghost use Rattle.tbl_reader.specs.Heads as specs;
ghost use Rattle.tbl_reader.specs.HeadLines as lines;
ghost use Rattle.tbl_reader.specs.Outside.{given_up};
ghost use Rattle.tbl_reader.specs.States.{wrong_with};
ghost use Rattle.tbl_reader.specs.Telling.{Tells};
ghost use Rattle.tbl_reader.specs.declared.complaint.Kind.TheVariants.{FormatsLimit};

use super::command::{Start, is_command};
use super::complaint::Kind;
use super::formats::Formats;
use super::options::options_of;
use super::reader::Reader;
use super::state::Mode;
use super::telling::{Setter, Tell};

/// Where the semicolon stands that ends the options: none does after an opening parenthesis.
fn options_end(line: &[u8]) -> Option<usize>
    ensures value { result ≡ specs.options_end line.now }
    ensures within { IfSome result (λ place. place < length line.now) }
{
    let mut opened = false;
    for (at, byte) in line.iter().enumerate() {
        if *byte == b';' && !opened {
            return Some(at);
        }
        opened = *byte == b'(';
    }
    None
}

/// Whether a line ends with a point, and blanks.
fn is_dotted(line: &[u8]) -> bool
    ensures { result ≡ specs.is_dotted line.now }
{
    let mut dotted = false;
    for byte in line {
        dotted = *byte == b'.' || (dotted && matches!(*byte, b' ' | b'\t'));
    }
    dotted
}

/// Tells what formats say, and gives what was read of them with the newline after them.
fn tell_formats<S: Setter>(first: Formats, text: &[u8], setter: &mut S) -> Formats
    ensures formats { result ≡ lines.formats_after first (lines.with_newline text.now) }
    ensures emitted { Tells S.shows S.hears (lines.formats_said first (lines.with_newline text.now))
        setter.old setter.new }
{
    let mut formats = first;
    for byte in text {
        let called = formats.read(*byte);
        setter.tell(Tell::Format(called), b"");
    }
    let called = formats.read(b'\n');
    setter.tell(Tell::Format(called), b"");
    formats
}

/// What is wrong with formats, after so many lines of formats.
fn wrong_with(formats: &Formats, before: usize) -> Option<Kind>
    ensures { result ≡ wrong_with formats.now before }
{
    if formats.columns == 0 {
        return Some(Kind::NoFormat);
    }
    if formats.many {
        return Some(Kind::TooManyColumns);
    }
    match formats.bad {
        Some(byte) => Some(Kind::BadFormat(byte)),
        None if formats.lines == before => Some(Kind::BadFormat(b'.')),
        None => None,
    }
}

impl Reader {
    /// A line of options or formats ends.
    pub(crate) fn head_line<S: Setter>(&mut self, setter: &mut S)
        ensures page { self.new ≡ (lines.head_line self.old).page }
        ensures emitted { Tells S.shows S.hears (lines.head_line self.old).pieces setter.old setter.new }
    {
        if is_command(self.line(), b'E') {
            self.head_ends(setter);
            return;
        }
        self.options_line(setter);
        self.formats_line(setter);
    }

    /// Options are read, if the line may have some.
    fn options_line<S: Setter>(&mut self, setter: &mut S)
        ensures page { self.new ≡ (lines.options_line self.old).page }
        ensures emitted { Tells S.shows S.hears (lines.options_line self.old).pieces setter.old setter.new }
    {
        if !self.state.first {
            return;
        }
        self.state.first = false;
        if let Some(end) = options_end(self.kept.as_slice()) {
            self.options_end_at(end, setter);
        }
    }

    /// Options up to a semicolon: the formats begin after it.
    fn options_end_at<S: Setter>(&mut self, end: usize, setter: &mut S)
        requires { end < length self.old.kept }
        ensures page { self.new ≡ (lines.options_split (Some end) self.old).page }
        ensures emitted { Tells S.shows S.hears (lines.options_split (Some end) self.old).pieces setter.old
            setter.new }
    {
        let options = options_of(&self.kept.as_slice()[..end]);
        self.state.tell_options(&options, setter);
        self.state.options = options;
        self.from = end + 1;
        self.start = end + 1;
    }

    /// A line of formats ends, and perhaps all of them.
    fn formats_line<S: Setter>(&mut self, setter: &mut S)
        ensures page { self.new ≡ (lines.formats_line self.old).page }
        ensures emitted { Tells S.shows S.hears (lines.formats_line self.old).pieces setter.old setter.new }
    {
        if is_dotted(self.line()) {
            self.formats_end(setter);
        } else if self.kept.len() >= self.limits.formats {
            self.gives_up_line(Kind::FormatsLimit, setter);
        } else {
            self.kept.push(b'\n');
            self.start = self.kept.len();
        }
    }

    /// The formats end with this line.
    fn formats_end<S: Setter>(&mut self, setter: &mut S)
        ensures page { self.new ≡ (lines.formats_ended self.old).page }
        ensures emitted { Tells S.shows S.hears (lines.formats_ended self.old).pieces setter.old setter.new }
    {
        let formats = tell_formats(self.state.formats, self.rest(), setter);
        setter.tell(Tell::FormatsEnd, b"");
        let wrong = self.takes_formats(formats);
        self.judges_formats(wrong, setter);
    }

    /// These formats were read: what is wrong with them.
    fn takes_formats(&mut self, formats: Formats) -> Option<Kind>
        ensures wrong { result ≡ lines.wrong_in formats self.old }
        ensures page { self.new ≡ lines.formats_taken formats self.old }
    {
        let wrong = wrong_with(&formats, self.state.formats.lines);
        self.state.formats = formats;
        wrong
    }

    /// This is wrong with the formats, or nothing: rows begin with the next line, or the table isn't set.
    fn judges_formats<S: Setter>(&mut self, wrong: Option<Kind>, setter: &mut S)
        ensures page { self.new ≡ (lines.formats_judged wrong self.old).page }
        ensures emitted { Tells S.shows S.hears (lines.formats_judged wrong self.old).pieces setter.old
            setter.new }
    {
        match wrong {
            Some(Kind::NoFormat) => self.gives_up_line(Kind::NoFormat, setter),
            Some(Kind::TooManyColumns) => self.gives_up_line(Kind::TooManyColumns, setter),
            Some(kind) => {
                self.state.complains(kind, setter);
                self.begins_row();
            }
            None => self.begins_row(),
        }
    }

    /// The table isn't set, and a line ends that is kept.
    fn gives_up_line<S: Setter>(&mut self, kind: Kind, setter: &mut S)
        ensures page { self.new ≡ (lines.given_up_line kind self.old).page }
        ensures emitted { Tells S.shows S.hears (lines.given_up_line kind self.old).pieces setter.old
            setter.new }
    {
        self.gives_up(kind, setter);
        setter.tell(Tell::Pass, b"\n");
        self.state.mode = Mode::Plain(Start::Nothing);
    }

    /// `.TE` comes before the formats end.
    fn head_ends<S: Setter>(&mut self, setter: &mut S)
        ensures page { self.new ≡ (lines.head_ended self.old).page }
        ensures emitted { Tells S.shows S.hears (lines.head_ended self.old).pieces setter.old setter.new }
    {
        self.gives_up_line(Kind::NoFormat, setter);
        self.state.mode = Mode::Passing(Start::Nothing);
        setter.tell(Tell::PlainEnd, b"");
    }

    /// There is no room for more options or formats.
    pub(crate) fn head_overflows<S: Setter>(&mut self, setter: &mut S)
        ensures page { self.new ≡ (given_up FormatsLimit self.old).page }
        ensures emitted { Tells S.shows S.hears (given_up FormatsLimit self.old).pieces setter.old setter.new }
    {
        self.gives_up(Kind::FormatsLimit, setter);
    }
}
