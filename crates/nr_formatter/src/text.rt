//! What is read of a text line goes into the collected line. (CSTR 54, sections 4, 9, 10, 11 and 13.)
ghost use Rattle.std.specs.Prelude.{◌≡◌, OnOk};
ghost use Rattle.nr_fill.specs.Line.{afforded};
ghost use Rattle.nr_formatter.specs.Access.{margins};
ghost use Rattle.nr_formatter.specs.Limits.{IsWithin, limits_of};
ghost use Rattle.nr_formatter.specs.Text.{line_begun, put, character, letter, blank_cell, gap_blank, blank, tab, text_byte, dash, dash_end, finish_dash, hyphen, special, break_point, joins_lines, text_line_end, cells, horizontal, ruled, mark, percent, break_word, line_end, text_sign, text};
ghost use Rattle.nr_formatter.specs.Weights.{Falls};

use crate::formatter::Formatter;
use crate::tasks::{After, Task};
use nr_fill::line::LineCells;
use nr_fill::margins::Margins;
use nr_fill::piece::{CutAfter, Point};
use nr_input::Event;
use nr_settings::{Special, prints};
use nr_vectors::cell::Cell;

impl Formatter {
    /// The margins of a line that begins now. A `.ti` is used up where one does.
    fn margins(&mut self) -> Margins
        ensures margins { result ≡ margins self.old }
        ensures begun { self.new ≡ line_begun self.old }
    {
        if self.line.is_empty() {
            return self.settings.indents.take_margins();
        }
        self.settings.indents.margins()
    }

    /// A cell, and what may stand after it.
    fn put(&mut self, cell: Cell, afterwards: CutAfter) -> Result<(), LineCells>
        ensures result { result ≡ afforded (put cell afterwards self.old).line }
        ensures ok { OnOk result (self.new ≡ put cell afterwards self.old) }
        ensures limits { limits_of self.new ≡ limits_of self.old }
    {
        let margins = self.margins();
        self.line.put(margins, cell, afterwards)?;
        self.event = Event::Nothing;
        Ok(())
    }

    /// A byte that is a cell of its own. A `-` has a break point after it.
    fn character(&mut self, byte: u8) -> Result<(), LineCells>
        ensures result { result ≡ afforded (character byte self.old).line }
        ensures ok { OnOk result (self.new ≡ character byte self.old) }
        ensures limits { limits_of self.new ≡ limits_of self.old }
    {
        let afterwards = if byte == b'-' {
            CutAfter::Hyphen
        } else {
            CutAfter::Letter
        };
        let cell = self.settings.fonts.cell(byte);
        self.put(cell, afterwards)
    }

    /// A byte that is a cell of its own, with no break point after it.
    fn letter(&mut self, byte: u8) -> Result<(), LineCells>
        ensures result { result ≡ afforded (letter byte self.old).line }
        ensures ok { OnOk result (self.new ≡ letter byte self.old) }
        ensures limits { limits_of self.new ≡ limits_of self.old }
    {
        let cell = self.settings.fonts.cell(byte);
        self.put(cell, CutAfter::Letter)
    }

    /// A blank that is a cell of its word.
    fn blank_cell(&mut self) -> Result<(), LineCells>
        ensures result { result ≡ afforded (blank_cell self.old).line }
        ensures ok { OnOk result (self.new ≡ blank_cell self.old) }
        ensures limits { limits_of self.new ≡ limits_of self.old }
    {
        let margins = self.margins();
        self.line.put_blank(margins)?;
        self.event = Event::Nothing;
        Ok(())
    }

    /// A blank ends the word and widens the gap.
    fn gap_blank(&mut self) -> Result<(), LineCells>
        ensures result { result ≡ afforded (gap_blank self.old).line }
        ensures ok { OnOk result (self.new ≡ gap_blank self.old) }
        ensures limits { limits_of self.new ≡ limits_of self.old }
    {
        let task = if self.line.has_word() {
            Task::Flow(After::Text, self.breaks_after())
        } else {
            Task::Read
        };
        self.end_word()?;
        self.line.widen_gap();
        self.event = Event::Nothing;
        self.task = task;
        Ok(())
    }

    /// A blank; in no-fill mode and where lines are centred it is a cell. Text for a stop ends first.
    #[tactic(auto, unfolding(crate::specs::Text::blank))]
    fn blank(&mut self) -> Result<(), LineCells>
        ensures result { result ≡ afforded (blank self.old).line }
        ensures ok { OnOk result (self.new ≡ blank self.old) }
        ensures limits { limits_of self.new ≡ limits_of self.old }
    {
        if !self.settings.filling.is_filling() {
            return self.blank_cell();
        }
        if self.line.has_field() {
            return self.line.end_field();
        }
        self.gap_blank()
    }

    /// A tab or leader goes to the next stop. Text for a stop ends first.
    #[tactic(auto, unfolding(crate::specs::Text::tab))]
    fn tab(&mut self, filler: Option<u8>) -> Result<(), LineCells>
        ensures result { result ≡ afforded (tab filler self.old).line }
        ensures ok { OnOk result (self.new ≡ tab filler self.old) }
        ensures limits { limits_of self.new ≡ limits_of self.old }
    {
        if self.line.has_field() {
            return self.line.end_field();
        }
        let margins = self.margins();
        let cell = self.settings.fonts.cell(filler.unwrap_or(b' '));
        let aligned = !self.settings.filling.fill;
        self.line.tab(margins, self.settings.tabs.stops.as_slice(), aligned, cell)?;
        self.event = Event::Nothing;
        Ok(())
    }

    /// A byte of a text line.
    #[inline]
    #[tactic(auto, unfolding(crate::specs::Text::text_byte))]
    fn byte(&mut self, byte: u8) -> Result<(), LineCells>
        ensures result { IsWithin self.old → result ≡ afforded (text_byte byte self.old).line }
        ensures ok { OnOk result (self.new ≡ text_byte byte self.old) }
        ensures limits { limits_of self.new ≡ limits_of self.old }
    {
        match byte {
            b' ' => self.blank(),
            b'\t' => self.tab(self.settings.tabs.tab),
            1 => self.tab(self.settings.tabs.leader),
            _ if prints(byte) => self.character(byte),
            _ => {
                self.event = Event::Nothing;
                Ok(())
            }
        }
    }

    /// `\(hy`: a `-` with a break point after it.
    fn hyphen(&mut self) -> Result<(), LineCells>
        ensures result { result ≡ afforded (hyphen self.old).line }
        ensures ok { OnOk result (self.new ≡ hyphen self.old) }
        ensures limits { limits_of self.new ≡ limits_of self.old }
    {
        let cell = self.settings.fonts.cell(b'-');
        self.put(cell, CutAfter::Hyphen)
    }

    /// The first cell of a dash.
    fn dash(&mut self) -> Result<(), LineCells>
        ensures result { result ≡ afforded (dash self.old).line }
        ensures ok { OnOk result (self.new ≡ dash self.old) }
        ensures limits { limits_of self.new ≡ limits_of self.old }
    {
        self.letter(b'-')?;
        self.task = Task::Dash;
        Ok(())
    }

    /// The second cell of a dash.
    fn dash_end(&mut self) -> Result<(), LineCells>
        ensures result { result ≡ afforded (dash_end self.old).line }
        ensures ok { OnOk result (self.new ≡ dash_end self.old) }
        ensures limits { limits_of self.new ≡ limits_of self.old }
    {
        let cell = self.settings.fonts.cell(b'-');
        self.put(cell, CutAfter::Dash)?;
        self.task = Task::Read;
        Ok(())
    }

    /// `\(zb`, `\(zj`: a break point, at which a cut prints nothing.
    fn break_point(&mut self, point: Point)
        ensures { self.new ≡ break_point point self.old }
    {
        self.line.point(point);
        self.event = Event::Nothing;
    }

    /// `\(hy`, `\(em` and their kin.
    #[tactic(auto, unfolding(crate::specs::Text::special))]
    fn special(&mut self) -> Result<(), LineCells>
        ensures result { IsWithin self.old → result ≡ afforded (special self.old).line }
        ensures ok { OnOk result (self.new ≡ special self.old) }
        ensures limits { limits_of self.new ≡ limits_of self.old }
    {
        match Special::of(self.reader.asked().as_bytes()) {
            None => {
                self.event = Event::Nothing;
                Ok(())
            }
            Some(Special::Hyphen) => self.hyphen(),
            Some(Special::Dash) => self.dash(),
            Some(Special::Point) => {
                self.break_point(Point::Hard);
                Ok(())
            }
            Some(Special::Joint) => {
                self.break_point(Point::Joining);
                Ok(())
            }
            Some(special) => self.letter(special.byte()),
        }
    }

    /// So many equal cells of the word, which exists where there are none too.
    fn cells(&mut self, byte: u8, n: u32) -> Result<(), LineCells>
        ensures result { result ≡ afforded (cells byte n self.old).line }
        ensures ok { OnOk result (self.new ≡ cells byte n self.old) }
        ensures limits { limits_of self.new ≡ limits_of self.old }
    {
        let margins = self.margins();
        let cell = self.settings.fonts.cell(byte);
        self.line.put_cells(margins, cell, n as usize)?;
        self.event = Event::Nothing;
        Ok(())
    }

    /// `\h`: blank cells.
    fn horizontal(&mut self) -> Result<(), LineCells>
        ensures result { result ≡ afforded (horizontal self.old).line }
        ensures ok { OnOk result (self.new ≡ horizontal self.old) }
        ensures limits { limits_of self.new ≡ limits_of self.old }
    {
        let n = self.motion_cells();
        self.cells(b' ', n)
    }

    /// `\l`: a rule.
    fn rule(&mut self) -> Result<(), LineCells>
        ensures result { result ≡ afforded (ruled self.old).line }
        ensures ok { OnOk result (self.new ≡ ruled self.old) }
        ensures limits { limits_of self.new ≡ limits_of self.old }
    {
        let rule = self.rule_cells();
        self.cells(rule.byte, rule.cells)
    }

    /// `\&`
    fn mark(&mut self)
        ensures { self.new ≡ mark self.old }
    {
        let margins = self.margins();
        self.line.mark(margins);
        self.event = Event::Nothing;
    }

    /// `\%`: a soft break point.
    fn percent(&mut self)
        ensures { self.new ≡ percent self.old }
    {
        self.line.bar();
        self.event = Event::Nothing;
    }

    /// `\p`: a break at the end of the word that is being read, or of the next one.
    fn break_word(&mut self)
        ensures { self.new ≡ break_word self.old }
    {
        self.breaks = self.breaks || self.settings.filling.is_filling();
        self.event = Event::Nothing;
    }

    /// The word of a text line ends. Lines go out then.
    #[tactic(auto, unfolding(crate::specs::Text::line_end))]
    fn line_end(&mut self, after: After) -> Result<(), LineCells>
        ensures result { result ≡ afforded (line_end after self.old).line }
        ensures ok { OnOk result (self.new ≡ line_end after self.old) }
        ensures limits { limits_of self.new ≡ limits_of self.old }
    {
        if !self.settings.filling.is_filling() {
            self.line.drop_blanks();
        }
        if self.line.has_field() {
            return self.line.end_field();
        }
        let breaks = self.breaks_after();
        self.end_word()?;
        self.line.newline_gap();
        self.event = Event::Nothing;
        self.task = Task::Flow(after, breaks);
        Ok(())
    }

    /// Whether the word goes on over the end of a text line: it ends in `\(zj`, in a line that is filled and that neither
    /// `.it` nor `.ul` counts.
    fn joins_lines(&self) -> bool
        ensures { result ≡ joins_lines self.now }
    {
        self.settings.filling.is_filling()
            && self.line.is_at_joint()
            && (self.input_trap.is_none() && self.settings.fonts.underlined == 0)
    }

    /// A text line ends, and with it its word, unless that goes on.
    #[tactic(auto, unfolding(crate::specs::Text::text_line_end))]
    fn text_line_end(&mut self) -> Result<(), LineCells>
        ensures result { IsWithin self.old → result ≡ afforded (text_line_end self.old).line }
        ensures ok { OnOk result (self.new ≡ text_line_end self.old) }
        ensures limits { limits_of self.new ≡ limits_of self.old }
    {
        if self.joins_lines() {
            self.event = Event::Nothing;
            return Ok(());
        }
        self.line_end(After::Line)
    }

    /// What was read of a text line, where it is no cell and ends no word.
    fn text_sign(&mut self, event: Event)
        ensures { self.new ≡ text_sign event self.old }
    {
        match event {
            Event::Zero => self.mark(),
            Event::Percent => self.percent(),
            Event::BreakWord => self.break_word(),
            _ => self.event = Event::Nothing,
        }
    }

    /// What was read of a text line.
    pub(crate) fn text(&mut self, event: Event) -> Result<(), LineCells>
        ensures result { IsWithin self.old → result ≡ afforded (text event self.old).line }
        ensures ok { OnOk result (self.new ≡ text event self.old) }
        ensures limits { limits_of self.new ≡ limits_of self.old }
    {
        match event {
            Event::Byte(byte) => self.byte(byte),
            Event::Lead => self.blank_cell(),
            Event::Cell(cell) => self.put(cell, CutAfter::Letter),
            Event::Plain(byte) => self.letter(byte),
            Event::Fixed => self.letter(b' '),
            Event::Tab => self.tab(self.settings.tabs.tab),
            Event::Leader => self.tab(self.settings.tabs.leader),
            Event::Special => self.special(),
            Event::Horizontal => self.horizontal(),
            Event::Rule => self.rule(),
            Event::EndLine => self.text_line_end(),
            Event::EndContinued => self.line_end(After::Continued),
            _ => {
                self.text_sign(event);
                Ok(())
            }
        }
    }

    /// The second cell of a dash, in a text line or in a title.
    pub(crate) fn finish_dash(&mut self) -> Result<(), LineCells>
        ensures result { result ≡ afforded (finish_dash self.old).line }
        ensures ok { OnOk result (self.new ≡ finish_dash self.old) }
        ensures limits { limits_of self.new ≡ limits_of self.old }
        ensures falls { self.old.event ≡ Event.Nothing → self.old.task ≡ Task.Dash
            → OnOk result (Falls 1 0 self.old self.new) }
    {
        if self.reads_title() {
            return self.title_dash_end();
        }
        self.dash_end()
    }
}
