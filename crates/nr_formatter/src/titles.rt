//! Titles of three parts. (CSTR 54, section 14.)
ghost use Rattle.std.specs.Prelude.{◌≡◌, ◌≤◌, ◌∷◌, [], map, replicate, OnOk};
ghost use Rattle.nr_fill.specs.Line.{afforded};
ghost use Rattle.nr_fill.specs.Piece.{line_cells};
ghost use Rattle.nr_settings.specs.Fonts.{cell_of};
ghost use Rattle.nr_formatter.specs.Access.{cell as cell_in};
ghost use Rattle.nr_formatter.specs.Limits.{IsWithin, limits_of};
ghost use Rattle.nr_formatter.specs.Titles.{reads_title, title_part, with_title_cells, titled, page_number, title_byte, printed, title_special, title_dash_end, title, title_row, title_set};
ghost use Rattle.nr_settings.specs.Specials.{special_of};
ghost use Rattle.nr_formatter.specs.Access.{asked};
ghost use Rattle.nr_formatter.specs.Weights.{Falls};

use crate::formatter::Formatter;
use crate::tasks::Task;
use nr_fill::cells::CellSink;
use nr_fill::line::{Line, LineCells};
use nr_input::Event;
use nr_reading::Mode;
use nr_settings::{Fonts, Special, prints};
use nr_units::format_number;
use nr_vectors::cell::Cell;

/// So many equal cells more of the title that is being read.
fn put_copies(line: &mut Line, cell: Cell, n: u32) -> Result<(), LineCells>
    ensures result { line_cells line.old.collected ≤ line.old.limit
        → result
        ≡ afforded (record line.old { collected = with_title_cells (replicate n cell) line.old.collected }) }
    ensures ok { OnOk result (line.new ≡ record line.old
        { collected = with_title_cells (replicate n cell) line.old.collected }) }
    ensures limit { line.new.limit ≡ line.old.limit }
{
    for _copy in 0..n {
        line.put_title(cell)?;
    }
    Ok(())
}

/// The cells of these bytes more of the title that is being read.
fn put_bytes(line: &mut Line, fonts: &Fonts, bytes: &[u8]) -> Result<(), LineCells>
    ensures result { line_cells line.old.collected ≤ line.old.limit
        → result
        ≡ afforded
        (record line.old
        { collected = with_title_cells (map (λ b. cell_of b fonts.now) bytes.now) line.old.collected }) }
    ensures ok { OnOk result (line.new ≡ record line.old
        { collected = with_title_cells (map (λ b. cell_of b fonts.now) bytes.now) line.old.collected }) }
    ensures limit { line.new.limit ≡ line.old.limit }
{
    for byte in bytes {
        line.put_title(fonts.cell(*byte))?;
    }
    Ok(())
}

impl Formatter {
    /// A title is being read.
    pub(crate) fn reads_title(&self) -> bool
        ensures { result ≡ reads_title self.now }
    {
        matches!(
            self.reader.half.reading.mode,
            Mode::TitleBefore | Mode::Title(_, _)
        )
    }

    /// The first delimiter begins the title with its left part; a further one ends a part.
    pub(crate) fn title_part(&mut self)
        ensures { self.new ≡ title_part self.old }
    {
        if self.line.has_title() {
            self.line.end_part();
        } else {
            self.line.begin_title();
        }
        self.event = Event::Nothing;
    }

    /// A cell of the title. Before its first delimiter nothing prints.
    fn title_cell(&mut self, cell: Cell) -> Result<(), LineCells>
        ensures result { result ≡ afforded (titled (cell ∷ []) self.old).line }
        ensures ok { OnOk result (self.new ≡ titled (cell ∷ []) self.old) }
        ensures limits { limits_of self.new ≡ limits_of self.old }
    {
        self.event = Event::Nothing;
        self.line.put_title(cell)
    }

    /// A byte that is a cell of the title.
    fn title_letter(&mut self, byte: u8) -> Result<(), LineCells>
        ensures result { result ≡ afforded (titled (cell_in byte self.old ∷ []) self.old).line }
        ensures ok { OnOk result (self.new ≡ titled (cell_in byte self.old ∷ []) self.old) }
        ensures limits { limits_of self.new ≡ limits_of self.old }
    {
        let cell = self.settings.fonts.cell(byte);
        self.title_cell(cell)
    }

    /// So many equal cells of the title.
    fn title_cells(&mut self, byte: u8, n: u32) -> Result<(), LineCells>
        ensures result { IsWithin self.old
            → result ≡ afforded (titled (replicate n (cell_in byte self.old)) self.old).line }
        ensures ok { OnOk result (self.new ≡ titled (replicate n (cell_in byte self.old)) self.old) }
        ensures limits { limits_of self.new ≡ limits_of self.old }
    {
        self.event = Event::Nothing;
        let cell = self.settings.fonts.cell(byte);
        put_copies(&mut self.line, cell, n)
    }

    /// The number of the page in its format.
    fn page_number(&mut self) -> Result<(), LineCells>
        ensures result { IsWithin self.old → result ≡ afforded (titled (page_number self.old) self.old).line }
        ensures ok { OnOk result (self.new ≡ titled (page_number self.old) self.old) }
        ensures limits { limits_of self.new ≡ limits_of self.old }
    {
        self.event = Event::Nothing;
        let text = format_number(i64::from(self.paper.number), self.given.page_format);
        put_bytes(&mut self.line, &self.settings.fonts, text.as_slice())
    }

    /// A byte that is a cell, if it prints.
    fn title_plain(&mut self, byte: u8) -> Result<(), LineCells>
        ensures result { IsWithin self.old
            → result ≡ afforded (titled (printed byte self.old) self.old).line }
        ensures ok { OnOk result (self.new ≡ titled (printed byte self.old) self.old) }
        ensures limits { limits_of self.new ≡ limits_of self.old }
    {
        if prints(byte) {
            return self.title_letter(byte);
        }
        self.event = Event::Nothing;
        Ok(())
    }

    /// A byte of a title.
    fn title_byte(&mut self, byte: u8) -> Result<(), LineCells>
        ensures result { IsWithin self.old
            → result ≡ afforded (titled (title_byte byte self.old) self.old).line }
        ensures ok { OnOk result (self.new ≡ titled (title_byte byte self.old) self.old) }
        ensures limits { limits_of self.new ≡ limits_of self.old }
    {
        if self.settings.pages.number_character == Some(byte) {
            return self.page_number();
        }
        self.title_plain(byte)
    }

    /// `\(hy`, `\(em` and their kin.
    fn title_special(&mut self) -> Result<(), LineCells>
        ensures result { IsWithin self.old
            → result ≡ afforded (title_special (special_of (asked self.old)) self.old).line }
        ensures ok { OnOk result (self.new ≡ title_special (special_of (asked self.old)) self.old) }
        ensures limits { limits_of self.new ≡ limits_of self.old }
    {
        match Special::of(self.reader.asked().as_bytes()) {
            None => {
                self.event = Event::Nothing;
                Ok(())
            }
            Some(Special::Dash) => {
                self.title_letter(b'-')?;
                self.task = Task::Dash;
                Ok(())
            }
            Some(Special::Point | Special::Joint) => {
                self.event = Event::Nothing;
                Ok(())
            }
            Some(special) => self.title_letter(special.byte()),
        }
    }

    /// The second cell of a dash.
    pub(crate) fn title_dash_end(&mut self) -> Result<(), LineCells>
        ensures result { result ≡ afforded (title_dash_end self.old).line }
        ensures ok { OnOk result (self.new ≡ title_dash_end self.old) }
        ensures limits { limits_of self.new ≡ limits_of self.old }
    {
        self.title_letter(b'-')?;
        self.task = Task::Read;
        Ok(())
    }

    /// `\h`: blank cells.
    fn title_horizontal(&mut self) -> Result<(), LineCells>
        ensures result { IsWithin self.old → result ≡ afforded (title Event.Horizontal self.old).line }
        ensures ok { OnOk result (self.new ≡ title Event.Horizontal self.old) }
        ensures limits { limits_of self.new ≡ limits_of self.old }
    {
        let n = self.motion_cells();
        self.title_cells(b' ', n)
    }

    /// `\l`: a rule.
    fn title_rule(&mut self) -> Result<(), LineCells>
        ensures result { IsWithin self.old → result ≡ afforded (title Event.Rule self.old).line }
        ensures ok { OnOk result (self.new ≡ title Event.Rule self.old) }
        ensures limits { limits_of self.new ≡ limits_of self.old }
    {
        let rule = self.rule_cells();
        self.title_cells(rule.byte, rule.cells)
    }

    /// What was read of a title. A tab, a leader, `\c`, `\p`, `\%` do nothing in it.
    pub(crate) fn title(&mut self, event: Event) -> Result<(), LineCells>
        ensures result { IsWithin self.old → result ≡ afforded (title event self.old).line }
        ensures ok { OnOk result (self.new ≡ title event self.old) }
        ensures limits { limits_of self.new ≡ limits_of self.old }
    {
        match event {
            Event::Byte(byte) => self.title_byte(byte),
            Event::Plain(byte) => self.title_plain(byte),
            Event::Fixed => self.title_letter(b' '),
            Event::Cell(cell) => self.title_cell(cell),
            Event::Special => self.title_special(),
            Event::Horizontal => self.title_horizontal(),
            Event::Rule => self.title_rule(),
            _ => {
                self.event = Event::Nothing;
                Ok(())
            }
        }
    }

    /// Sets the title that was read in a row after what stands there, so many cells on, and takes it away.
    ///
    /// Proved: A title goes out with its parts, and is gone then.
    pub fn set_title<S: CellSink>(&mut self, offset: u32, out: &mut S)
        ensures out { S.Adds out.old (title_row offset self.old) out.new }
        ensures rest { self.new ≡ title_set self.old }
        ensures falls { self.old.event ≡ Event.Nothing → self.old.task ≡ Task.Title
            → Falls 5 0 self.old self.new }
    {
        let length = self.settings.indents.title_length.value.cells();
        self.line.set_title(length, offset, out);
        self.task = Task::Read;
    }
}
