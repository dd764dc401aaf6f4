//! A line of a text block is drawn.
ghost use Rattle.std.specs.Prelude.{◌≡◌, ◌-◌, Some, [], ◌∷◌, nat_lt};
ghost use Rattle.tbl_blocks.specs.Parts.{is_gap};
ghost use Rattle.tbl_blocks.specs.declared.parts.Font.TheVariants as fonts;
ghost use Rattle.tbl_columns.specs.Frames.{count};
ghost use Rattle.tbl_drawing.specs.Drawing as specs;
ghost use Rattle.tbl_drawing.specs.Pens.{Bytes, Text};
ghost use Rattle.tbl_drawing.specs.Tapes.{Draws};
ghost use Rattle.tbl_table.specs.Sums.{sum};

use super::fields::{cells_if, first_byte, put_font};
use super::heights::count_of;
use super::layout::Layout;
use super::writing::Out;
use nr_units::sink::Sink;
use tbl_blocks::{Font, Line, Part};
use tbl_columns::{Block, Cell};
use tbl_table::Span;

/// Whether two fonts are one.
fn is_same(one: Font, other: Font) -> bool
    ensures { result ≡ specs.is_same_font one other }
{
    matches!(
        (one, other),
        (Font::Roman, Font::Roman) | (Font::Italic, Font::Italic) | (Font::Bold, Font::Bold)
    )
}

/// Where a part's text stands.
fn span_of(part: Part) -> Span
    ensures { result ≡ specs.span_of part }
{
    Span {
        start: part.start,
        end: part.end,
    }
}

/// A font is set, if it is another than before.
fn change_font<W: Sink>(before: Font, font: Font, out: &mut Out<'_, W>)
    ensures { Draws out.old out.new (Bytes (specs.font_change before font) ∷ []) }
{
    if is_same(before, font) {
        return;
    }
    put_font(font, out);
}

/// Whether a part is not the first of a line.
fn is_later(number: usize, line: Line) -> bool
    ensures { result ≡ nat_lt line.first number }
{
    number > line.first
}

/// One more gap, if a part has one before it.
fn gaps_after(part: Part, gap: usize) -> usize
    ensures { result ≡ sum gap (count (is_gap part.join)) }
{
    gap.saturating_add(count_of(part.join.is_gap()))
}

/// How many blanks more stand before a part of a line that is spread, where so many gaps stand before them.
fn more_in(part: Part, line: Line, gap: usize) -> usize
    ensures { result ≡ specs.more_in part line gap }
{
    if part.join.is_gap() {
        line.more(gap)
    } else {
        0
    }
}

/// The text of a part, in angle brackets or not.
fn put_bracketed<W: Sink>(bracketed: bool, text: &[u8], out: &mut Out<'_, W>)
    ensures { Draws out.old out.new (Bytes (specs.bracketed bracketed text.now) ∷ []) }
{
    out.ask_if(bracketed, b"<");
    out.add(text);
    out.ask_if(bracketed, b">");
}

/// The first byte of that.
fn first_bracketed(bracketed: bool, text: &[u8]) -> u8
    ensures { result ≡ specs.first_bracketed bracketed text.now }
{
    if bracketed { b'<' } else { first_byte(text) }
}

/// How many cells the parts of a line take, with the blanks that its gaps get more.
fn line_cells(line: Line) -> usize
    ensures { result ≡ specs.line_cells line }
{
    line.cells
        .saturating_sub(line.indent)
        .saturating_add(line.lack)
}

impl Layout {
    /// A part of a block.
    fn part(&self, number: usize) -> Part
        ensures { result ≡ specs.part self.now number }
    {
        if number < self.grid.blocks.parts.len() {
            self.grid.blocks.parts.get(number)
        } else {
            Part::nothing()
        }
    }

    /// The first byte of what goes out for a line.
    fn first_of_line(&self, line: Line) -> u8
        ensures { result ≡ specs.first_of_line self.now line }
    {
        let part = self.part(line.first);
        if is_same(part.font, Font::Roman) {
            return first_bracketed(part.bracketed, self.grid.table.bytes(span_of(part)));
        }
        b'\\'
    }

    /// The blanks before a part of a line, where so many gaps stand before them.
    fn put_blanks<W: Sink>(&self, number: usize, line: Line, gap: usize, out: &mut Out<'_, W>)
        ensures { Draws out.old out.new (Bytes (specs.blanks_before self.now number line gap) ∷ []) }
    {
        let part = self.part(number);
        let blanks = part.join.blanks();
        out.repeat(b' ', blanks.saturating_add(more_in(part, line, gap)));
    }

    /// These, if the part is not the first of its line.
    fn put_blanks_if<W: Sink>(&self, number: usize, line: Line, gap: usize, out: &mut Out<'_, W>)
        ensures { Draws out.old out.new (Bytes (specs.blanks_if self.now number line gap) ∷ []) }
    {
        if !is_later(number, line) {
            return;
        }
        self.put_blanks(number, line, gap, out);
    }

    /// How many gaps stand in a line up to a part.
    fn gaps_if(&self, number: usize, line: Line, gap: usize) -> usize
        ensures { result ≡ specs.gaps_if self.now number line gap }
    {
        if !is_later(number, line) {
            return gap;
        }
        gaps_after(self.part(number), gap)
    }

    /// A part of a line, after a font.
    fn put_part<W: Sink>(
        &self,
        number: usize,
        line: Line,
        font: Font,
        gap: usize,
        out: &mut Out<'_, W>,
    )
        ensures { Draws out.old out.new (Bytes (specs.part_after self.now number line font gap) ∷ []) }
    {
        self.put_blanks_if(number, line, gap, out);
        let part = self.part(number);
        change_font(font, part.font, out);
        put_bracketed(part.bracketed, self.grid.table.bytes(span_of(part)), out);
    }

    /// The parts of a line; tells the font in which they end.
    fn put_parts_of<W: Sink>(&self, line: Line, out: &mut Out<'_, W>) -> Font
        ensures draws { Draws out.old out.new (Bytes (specs.parts_text (line.«end» - line.first) self.now line.first line fonts.Roman 0) ∷ []) }
        ensures font { result ≡ specs.last_font (line.«end» - line.first) self.now line.first fonts.Roman }
    {
        let mut font = Font::Roman;
        let mut gap: usize = 0;
        for number in line.first..line.end {
            self.put_part(number, line, font, gap, out);
            gap = self.gaps_if(number, line, gap);
            let part = self.part(number);
            font = part.font;
        }
        font
    }

    /// The text of a line of a block.
    fn put_line_of<W: Sink>(&self, line: Line, out: &mut Out<'_, W>)
        ensures { Draws out.old out.new (Text (specs.line_text self.now line) ∷ []) }
    {
        let font = self.put_parts_of(line, out);
        out.ask_if(line.hyphen, b"-");
        change_font(font, Font::Roman, out);
    }

    /// A line of a block.
    fn draw_line_of<W: Sink>(&self, cell: &Cell, line: Line, out: &mut Out<'_, W>)
        ensures { Draws out.old out.new (specs.line_strokes self.now cell.now line) }
    {
        out.to(self.begin_of(cell).saturating_add(line.indent));
        out.begin(self.first_of_line(line));
        self.put_line_of(line, out);
        out.passed(cells_if(cell.sure, line_cells(line)));
    }

    /// A line of a block, if it prints something.
    fn draw_some_line<W: Sink>(&self, cell: &Cell, line: Line, out: &mut Out<'_, W>)
        ensures { Draws out.old out.new (specs.line_in (Some line) self.now cell.now) }
    {
        if !self.has_letters(line) {
            return;
        }
        self.draw_line_of(cell, line, out);
    }

    /// The line of a block that stands in a row of it, if there is one.
    pub(crate) fn draw_block<W: Sink>(
        &self,
        cell: &Cell,
        block: Block,
        row: usize,
        out: &mut Out<'_, W>,
    )
        ensures { Draws out.old out.new (specs.block_strokes self.now cell.now block row) }
    {
        match self.grid.line_in_row(block, row) {
            Some(line) => self.draw_some_line(cell, line, out),
            None => {}
        }
    }

    /// Whether a line prints something: one at the end of a block may not.
    fn has_letters(&self, line: Line) -> bool
        ensures { result ≡ specs.has_letters self.now line }
    {
        let part = self.part(line.first);
        line.first.saturating_add(1) < line.end || part.start < part.end
    }
}
