//! The end of the input.
ghost use Rattle.std.specs.Prelude.{◌≡◌, ◌+◌, ◌^◌, ◌<◌, [], ◌∷◌};
ghost use Rattle.tbl_reader.specs.Ending as specs;
ghost use Rattle.tbl_reader.specs.Reading.{Fits};
ghost use Rattle.tbl_reader.specs.Telling.{Tells};

use super::command::Start;
use super::complaint::{Complaint, Kind};
use super::reader::Reader;
use super::state::Mode;
use super::telling::{Setter, Tell};

impl Reader {
    /// Something is wrong at the end: of a page that ends with a newline, on the line that this ends.
    fn complains_at_end<S: Setter>(&self, kind: Kind, starts: bool, setter: &mut S)
        ensures { Tells S.shows S.hears (specs.wrong_at_end kind starts self.now.state ∷ []) setter.old
            setter.new }
    {
        let line = if starts && self.state.line > 1 {
            self.state.line - 1
        } else {
            self.state.line
        };
        setter.tell(Tell::Wrong(Complaint { kind, line }), b"");
    }

    /// The end of the input, in a table whose last line has ended or begun.
    fn ends_in_table<S: Setter>(&mut self, setter: &mut S)
        ensures page { self.new ≡ (specs.closed self.old).page }
        ensures emitted { Tells S.shows S.hears (specs.closed self.old).pieces setter.old setter.new }
    {
        match self.state.mode {
            Mode::Passing(_) => {}
            Mode::Plain(_) => {
                self.complains_at_end(Kind::OpenTable(self.state.begun), true, setter);
                setter.tell(Tell::PlainEnd, b"");
            }
            Mode::Head => self.ends_in_head(setter),
            Mode::Rows => {
                self.complains_at_end(Kind::OpenTable(self.state.begun), true, setter);
                setter.tell(Tell::TableEnd, b"");
            }
            Mode::Row => self.ends_in_row(setter),
            Mode::Block | Mode::BlockLine => self.ends_in_block(setter),
        }
    }

    /// The end of the input, before the formats end.
    fn ends_in_head<S: Setter>(&mut self, setter: &mut S)
        ensures page { self.new ≡ (specs.head_at_end self.old).page }
        ensures emitted { Tells S.shows S.hears (specs.head_at_end self.old).pieces setter.old setter.new }
    {
        self.complains_at_end(Kind::NoFormat, true, setter);
        setter.tell(Tell::Plain, b"");
        setter.tell(Tell::Pass, self.rest());
        setter.tell(Tell::PlainEnd, b"");
    }

    /// The end of the input, in a row.
    fn ends_in_row<S: Setter>(&mut self, setter: &mut S)
        ensures page { self.new ≡ (specs.row_at_end self.old).page }
        ensures emitted { Tells S.shows S.hears (specs.row_at_end self.old).pieces setter.old setter.new }
    {
        self.complains_at_end(Kind::OpenTable(self.state.begun), true, setter);
        self.tell_last_field(setter);
        setter.tell(Tell::Row, b"");
        setter.tell(Tell::TableEnd, b"");
    }

    /// The end of the input, in a text block.
    fn ends_in_block<S: Setter>(&mut self, setter: &mut S)
        ensures page { self.new ≡ (specs.block_at_end self.old).page }
        ensures emitted { Tells S.shows S.hears (specs.block_at_end self.old).pieces setter.old setter.new }
    {
        self.complains_at_end(Kind::OpenBlock(self.state.block), true, setter);
        setter.tell(Tell::BlockEnd, b"");
        setter.tell(Tell::Row, b"");
        setter.tell(Tell::TableEnd, b"");
    }

    /// Whether a line is half read.
    fn is_open(&self) -> bool
        ensures { result ≡ specs.is_open_in self.now.state.mode self.now }
    {
        match self.state.mode {
            Mode::Passing(_) => false,
            Mode::Plain(start) => !matches!(start, Start::Nothing),
            Mode::BlockLine => true,
            Mode::Head | Mode::Rows | Mode::Row | Mode::Block => self.kept.len() > self.start,
        }
    }

    /// Whether the line of `.TS` is half read.
    fn is_begin(&self) -> bool
        ensures { result ≡ specs.is_begin self.now.state.mode }
    {
        match self.state.mode {
            Mode::Passing(start) => start.is_command(),
            _ => false,
        }
    }

    /// A line of a table that is half read ends.
    fn ends_line<S: Setter>(&mut self, setter: &mut S)
        requires lines { self.old.state.line + 1 < 2 ^ 64 }
        requires fits { Fits self.old }
        ensures page { self.new ≡ (specs.line_closed self.old).page }
        ensures emitted { Tells S.shows S.hears (specs.line_closed self.old).pieces setter.old setter.new }
    {
        if self.is_open() {
            self.read(b"\n", setter);
        }
    }

    /// The input ends. A line of a table that is half read ends first.
    pub(crate) fn finish<S: Setter>(&mut self, setter: &mut S)
        requires lines { self.old.state.line + 1 < 2 ^ 64 }
        requires fits { Fits self.old }
        ensures page { self.new ≡ (specs.finished self.old).page }
        ensures emitted { Tells S.shows S.hears (specs.finished self.old).pieces setter.old setter.new }
    {
        if self.is_begin() {
            self.complains_at_end(Kind::OpenTable(self.state.line), false, setter);
            return;
        }
        self.ends_line(setter);
        self.ends_in_table(setter);
    }

    /// What comes next is read: a byte, or the end, where there is none.
    pub fn read_next<S: Setter>(&mut self, next: Option<u8>, setter: &mut S)
        requires lines { self.old.state.line + 1 < 2 ^ 64 }
        requires fits { Fits self.old }
        ensures page { self.new ≡ (specs.next_read next self.old).page }
        ensures emitted { Tells S.shows S.hears (specs.next_read next self.old).pieces setter.old setter.new }
        ensures goes_on { specs.GoesOn next self.old self.new }
    {
        match next {
            Some(byte) => {
                self.read(&[byte], setter);
            }
            None => self.finish(setter),
        }
    }
}
