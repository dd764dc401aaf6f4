//! What is known of a page between two bytes.
ghost use Rattle.std.specs.Prelude.{◌≡◌, [], ◌∷◌};
ghost use Rattle.tbl_reader.specs.HeadLines.{options_wrong};
ghost use Rattle.tbl_reader.specs.Pages.{wrong};
ghost use Rattle.tbl_reader.specs.States as specs;
ghost use Rattle.tbl_reader.specs.Telling.{Tells, piece};
ghost use Rattle.tbl_reader.specs.declared.telling.Tell.TheVariants as tells;

use super::command::Start;
use super::complaint::{Complaint, Kind};
use super::formats::Formats;
use super::numbers::one_more;
use super::options::Options;
use super::telling::{Setter, Tell};

/// One more than the greatest number of columns.
const MOST_FIELDS: usize = 65;

/// Where a page is read.
#[derive(Clone, Copy)]
pub(crate) enum Mode {
    /// In a line outside of tables, which begins so.
    Passing(Start),
    /// In a line of options or formats.
    Head,
    /// In a line between rows.
    Rows,
    /// In a row, some of whose fields or a part of one was read.
    Row,
    /// In a line of a text block.
    Block,
    /// In such a line, of which a part was emitted.
    BlockLine,
    /// In a line of a table that isn't set, which begins so.
    Plain(Start),
}

/// What is known.
#[derive(Clone, Copy)]
pub(crate) struct State {
    /// Where the page is read.
    pub mode: Mode,
    /// In which line, counted from 1.
    pub line: u64,
    /// The line may be that of the options.
    pub first: bool,
    /// The options of the table.
    pub options: Options,
    /// Its formats.
    pub formats: Formats,
    /// How many fields of the row have ended.
    pub fields: usize,
    /// The line of `.TS`.
    pub begun: u64,
    /// The line on which the text block begins.
    pub block: u64,
}

impl State {
    /// A page begins.
    pub(crate) fn new() -> State
        ensures { result ≡ specs.first_state }
    {
        State {
            mode: Mode::Passing(Start::Nothing),
            line: 1,
            first: false,
            options: Options::new(),
            formats: Formats::new(0, 0, false),
            fields: 0,
            begun: 0,
            block: 0,
        }
    }

    /// This line begins a table.
    pub(crate) fn begins_table(&mut self)
        ensures { self.new ≡ specs.table_begun self.old }
    {
        self.mode = Mode::Head;
        self.first = true;
        self.options = Options::new();
        self.formats = Formats::new(0, 0, false);
        self.fields = 0;
        self.begun = self.line;
    }

    /// New formats begin with the next line.
    pub(crate) fn begins_formats(&mut self)
        ensures { self.new ≡ specs.formats_begun self.old }
    {
        self.mode = Mode::Head;
        self.first = false;
        self.formats = Formats::new(
            self.formats.columns,
            self.formats.lines,
            self.formats.numeric,
        );
    }

    /// The next line begins a row.
    pub(crate) fn begins_row(&mut self)
        ensures { self.new ≡ specs.row_begun self.old }
    {
        self.mode = Mode::Rows;
        self.fields = 0;
    }

    /// A text block begins.
    pub(crate) fn begins_block(&mut self)
        ensures { self.new ≡ specs.block_opened self.old }
    {
        self.mode = Mode::Block;
        self.block = self.line;
    }

    /// One field more has ended.
    pub(crate) fn counts_field(&mut self)
        ensures { self.new ≡ specs.field_counted self.old }
    {
        self.fields = one_more(self.fields, MOST_FIELDS);
    }

    /// Whether the next field is one more than there are columns.
    pub(crate) fn is_beyond(&self) -> bool
        ensures { result ≡ specs.is_beyond self.now }
    {
        self.fields >= self.formats.columns
    }

    /// Tells the options of a table, and what is wrong with them.
    pub(crate) fn tell_options<S: Setter>(&self, options: &Options, setter: &mut S)
        ensures { Tells S.shows S.hears (piece (tells.Options options.now) [] ∷ options_wrong options.now self.now)
            setter.old setter.new }
    {
        setter.tell(Tell::Options(*options), b"");
        if let Some(kind) = options.wrong {
            self.complains(kind, setter);
        }
    }

    /// Tells that something is wrong on this line.
    pub(crate) fn complains<S: Setter>(&self, kind: Kind, setter: &mut S)
        ensures { Tells S.shows S.hears (wrong kind self.now ∷ []) setter.old setter.new }
    {
        let line = self.line;
        setter.tell(Tell::Wrong(Complaint { kind, line }), b"");
    }
}
