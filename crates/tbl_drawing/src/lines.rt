//! The lines of a table whose widths all show in its text, with the requests before and after them.
ghost use Rattle.std.specs.Prelude.{◌≡◌, ◌<◌, ◌≤◌, false, [], ◌∷◌, length, map};
ghost use Rattle.tbl_columns.specs.Held as grids;
ghost use Rattle.tbl_drawing.specs.Drawing as drawing;
ghost use Rattle.tbl_drawing.specs.Lines as specs;
ghost use Rattle.tbl_drawing.specs.Pens.{Bytes, Text};
ghost use Rattle.tbl_drawing.specs.Tapes.{Draws};
ghost use Rattle.tbl_table.specs.Held.{text_of};

use super::layout::{Layout, Step, StepKind};
use super::writing::{Out, Piece};
use Piece::{N, T};
use nr_units::sink::Sink;
use tbl_columns::Cell;
use tbl_table::{Item, Span, defines, is_harmless};

/// A newline in a field that stands in one line is a blank.
fn in_line(byte: u8) -> u8
    ensures { result ≡ specs.in_line byte }
{
    if byte == b'\n' { b' ' } else { byte }
}

/// A field in one line.
fn put_in_line<W: Sink>(text: &[u8], out: &mut Out<'_, W>)
    ensures { Draws out.old out.new (Bytes (map specs.in_line text.now) ∷ []) }
{
    for byte in text {
        out.add(&[in_line(*byte)]);
    }
}

/// A request that defines a string or a register; another line is none.
fn put_definition<W: Sink>(line: &[u8], out: &mut Out<'_, W>)
    ensures { Draws out.old out.new (Bytes (specs.definition line.now) ∷ []) }
{
    if !defines(line) {
        return;
    }
    out.line(&[T(line)]);
}

/// Whether a line ends at a place of a text.
fn ends_at(text: &[u8], at: usize) -> bool
    requires { at < length text.now }
    ensures { result ≡ specs.ends_at text.now at }
{
    text[at] == b'\n'
}

/// The line that ends at a place of a text, if one does; tells where the next one begins, or this one.
fn put_definition_at<W: Sink>(text: &[u8], from: usize, at: usize, out: &mut Out<'_, W>) -> usize
    requires order { from ≤ at }
    requires within { at < length text.now }
    ensures draws { Draws out.old out.new (Bytes (specs.definition_at text.now from at) ∷ []) }
    ensures next { result ≡ specs.from_after text.now from at }
{
    if !ends_at(text, at) {
        return from;
    }
    put_definition(&text[from..at], out);
    at + 1
}

impl Layout {
    /// Whether this is a request that may change filling or indent.
    fn moves(&self, item: Item) -> bool
        ensures { result ≡ specs.moves self.now item }
    {
        match item {
            Item::Request(span) => !is_harmless(self.grid.table.bytes(span)),
            _ => false,
        }
    }

    /// Whether a request between rows is such a one.
    fn is_moved(&self) -> bool
        ensures { result ≡ specs.is_moved self.now }
    {
        for place in 0..self.grid.table.items.len() {
            if self.moves(self.grid.table.item(place)) {
                return true;
            }
        }
        false
    }

    /// Room for so many lines is asked for; in a diversion where it is printed.
    fn put_need<W: Sink>(&self, lines: usize, out: &mut Out<'_, W>)
        ensures { Draws out.old out.new (Bytes (specs.need lines) ∷ []) }
    {
        out.line(&[
            T(b".if '\\n(.z'' .if "),
            N(lines),
            T(b"v<\\n(.p .ne "),
            N(lines),
            T(b"v"),
        ]);
        out.line(&[T(b".if !'\\n(.z'' \\{\\\n\\!.ne "), N(lines), T(b"v\n.\\}")])
    }

    /// Whether all of it is to stand on one page.
    fn is_kept(&self) -> bool
        ensures { result ≡ specs.is_kept self.now }
    {
        self.grid.table.is_boxed() && !self.grid.table.looks.nokeep
    }

    /// Room is asked for rows up to another, and a line after them, where the page has less and is not shorter.
    fn put_room_to<W: Sink>(&self, row: usize, last: usize, out: &mut Out<'_, W>)
        ensures { Draws out.old out.new (Bytes (specs.room_to self.now row last) ∷ []) }
    {
        let lines = self
            .row_end(last)
            .saturating_sub(self.row_line(row))
            .saturating_add(1);
        out.pieces(&[
            T(b".if \\n(.t<"),
            N(lines),
            T(b"v .if "),
            N(lines),
            T(b"v<\\n(.p .ne "),
            N(lines),
        ]);
        out.ask(b"v\n");
    }

    /// Whether room is asked for rows up to another.
    fn needs_room(&self, row: usize, last: usize) -> bool
        ensures { result ≡ specs.needs_room self.now row last }
    {
        (last != row || self.tall(row).lines() > 1) && !self.is_kept()
    }

    /// It is, if it is to be.
    #[tactic(auto, using(crate::proofs::Tapes::draws_no_bytes))]
    fn put_room_if<W: Sink>(&self, row: usize, last: usize, out: &mut Out<'_, W>)
        ensures { Draws out.old out.new (Bytes (specs.room_if self.now row last) ∷ []) }
    {
        if !self.needs_room(row, last) {
            return;
        }
        self.put_room_to(row, last, out);
    }

    /// Room is asked for the rows over which a field of this one goes on, where a box doesn't ask for all.
    fn put_room<W: Sink>(&self, row: usize, out: &mut Out<'_, W>)
        ensures { Draws out.old out.new (Bytes (specs.room self.now row) ∷ []) }
    {
        self.put_room_if(row, self.last_below(row), out)
    }

    /// That it has a box is passed to macros.
    pub(crate) fn put_boxed<W: Sink>(&self, out: &mut Out<'_, W>)
        ensures { Draws out.old out.new (Bytes (specs.boxed self.now) ∷ []) }
    {
        out.ask_if(self.grid.table.is_boxed(), b".nr *box 1\n");
    }

    /// It stands in the middle of the line, if it is to.
    fn put_centered<W: Sink>(&self, out: &mut Out<'_, W>)
        ensures { Draws out.old out.new (Bytes (specs.centered self.now) ∷ []) }
    {
        if self.grid.table.looks.center {
            return self.put_middle_indent(out);
        }
        out.ask(b"");
    }

    /// The indent with which it does.
    fn put_middle_indent<W: Sink>(&self, out: &mut Out<'_, W>)
        ensures { Draws out.old out.new (Bytes (specs.middle self.now) ∷ []) }
    {
        let width = self.grid.end();
        out.line(&[T(b".nr *O \\n(.l-\\n(.i-"), N(width), T(b"n/48*24")]);
        out.ask(b".in +\\n(*Ou\n");
    }

    /// Room is asked for a table in a box, if it may not be cut.
    fn put_whole_room<W: Sink>(&self, lines: usize, ends: bool, out: &mut Out<'_, W>)
        ensures { Draws out.old out.new (Bytes (specs.whole_room self.now lines ends) ∷ []) }
    {
        if self.is_kept() && ends {
            return self.put_need(lines, out);
        }
        out.ask(b"");
    }

    /// What stands before the lines.
    fn put_head<W: Sink>(&self, lines: usize, ends: bool, out: &mut Out<'_, W>)
        ensures { Draws out.old out.new (Bytes (specs.head self.now lines ends) ∷ []) }
    {
        out.ask(b".br\n.nr *u \\n(.u\n.nr *I \\n(.i\n.nf\n");
        self.put_boxed(out);
        self.put_centered(out);
        self.put_whole_room(lines, ends, out);
    }

    /// What is before the lines of a table whose beginning went out or not.
    fn put_opening<W: Sink>(&self, opens: bool, lines: usize, ends: bool, out: &mut Out<'_, W>)
        ensures { Draws out.old out.new (Bytes (specs.opening self.now opens lines ends) ∷ []) }
    {
        if opens {
            return self.put_head(lines, ends, out);
        }
        out.ask(b"");
    }

    /// The indent before requests that may change it.
    fn put_indent<W: Sink>(&self, out: &mut Out<'_, W>)
        ensures { Draws out.old out.new (Bytes (specs.indent self.now) ∷ []) }
    {
        out.ask_if(self.is_moved(), b".nr *O \\n(.i\n");
    }

    /// A request, and what it may have changed.
    pub(crate) fn put_request<W: Sink>(&self, span: Span, out: &mut Out<'_, W>)
        ensures { Draws out.old out.new (Bytes (specs.request self.now span) ∷ []) }
    {
        let text = self.grid.table.bytes(span);
        out.line(&[T(text)]);
        out.ask_if(!is_harmless(text), b".nf\n.in \\n(*Ou\n");
    }

    /// Lines of a row's bars.
    fn put_bars<W: Sink>(&self, row: usize, count: usize, line: usize, out: &mut Out<'_, W>)
        ensures { Draws out.old out.new (drawing.bars_lines count self.now row line) }
    {
        for place in 0..count {
            self.put_bars_on(row, line, place, out);
        }
    }

    /// The bars of a row, on a line of the table and so many further.
    fn put_bars_on<W: Sink>(&self, row: usize, line: usize, more: usize, out: &mut Out<'_, W>)
        ensures { Draws out.old out.new (drawing.bars_on self.now row line more) }
    {
        self.put_bars_line(row, line.saturating_add(more), out);
    }

    /// A field that stands in no column.
    fn put_outside<W: Sink>(&self, number: usize, out: &mut Out<'_, W>)
        ensures { Draws out.old out.new (Text (specs.outside_text self.now number) ∷ []) }
    {
        put_in_line(
            self.grid.table.bytes(self.grid.table.field(number).span),
            out,
        );
    }

    /// A blank before all of these fields but the first.
    fn put_blank<W: Sink>(&self, number: usize, out: &mut Out<'_, W>)
        ensures { Draws out.old out.new (Bytes (specs.blank number) ∷ []) }
    {
        out.ask_if(number > 0, b" ");
    }

    /// One of these fields, with the blank before it.
    fn put_next_outside<W: Sink>(&self, first: usize, number: usize, out: &mut Out<'_, W>)
        ensures { Draws out.old out.new (specs.next_outside self.now first number) }
    {
        self.put_blank(number, out);
        self.put_outside(first.saturating_add(number), out);
    }

    /// So many of these fields.
    fn put_all_outside<W: Sink>(&self, first: usize, count: usize, out: &mut Out<'_, W>)
        ensures { Draws out.old out.new (specs.all_outside self.now first count) }
    {
        for number in 0..count {
            self.put_next_outside(first, number, out);
        }
    }

    /// The fields of a row that stand in no column.
    pub(crate) fn put_beyond<W: Sink>(&self, number: usize, out: &mut Out<'_, W>)
        ensures { Draws out.old out.new (specs.beyond self.now number) }
    {
        let row = self.grid.table.row(number);
        let beyond = self.grid.placed(number).beyond;
        out.ask(b"\\&");
        self.put_all_outside(beyond, row.end.saturating_sub(beyond), out);
        out.ask(b"\n");
    }

    /// The requests of a text that define strings or registers.
    fn put_definitions_in<W: Sink>(&self, text: &[u8], out: &mut Out<'_, W>)
        ensures { Draws out.old out.new (Bytes (specs.definitions_in [] text.now) ∷ []) }
    {
        let mut from = 0;
        for at in 0..text.len() {
            from = put_definition_at(text, from, at, out);
        }
        put_definition(&text[from..], out);
    }

    /// Those of a field, if it has any.
    fn put_definitions_if<W: Sink>(&self, defines: bool, cell: &Cell, out: &mut Out<'_, W>)
        ensures { Draws out.old out.new (Bytes (specs.definitions_if defines (text_of self.now.grid.table cell.now.field.span)) ∷ []) }
    {
        if !defines {
            return;
        }
        self.put_definitions_in(self.grid.table.bytes(cell.field.span), out);
    }

    /// Those of a block.
    #[tactic(auto, using(crate::proofs::Tapes::draws_no_bytes))]
    fn put_definitions_of<W: Sink>(&self, cell: &Cell, out: &mut Out<'_, W>)
        ensures { Draws out.old out.new (Bytes (specs.definitions_of (grids.block_of self.now.grid cell.now) (text_of self.now.grid.table cell.now.field.span)) ∷ []) }
    {
        match self.grid.block_of(cell) {
            Some(block) => self.put_definitions_if(block.defines, cell, out),
            None => {}
        }
    }

    /// Those of the blocks of a row.
    fn put_definitions<W: Sink>(&self, row: usize, out: &mut Out<'_, W>)
        ensures { Draws out.old out.new (Bytes (specs.definitions self.now row) ∷ []) }
    {
        let row = self.grid.placed(row);
        for number in row.cells..row.cells_end {
            self.put_definitions_of(&self.grid.cell_of(number), out);
        }
    }

    /// What stands before a row.
    fn put_before<W: Sink>(&self, row: usize, out: &mut Out<'_, W>)
        ensures { Draws out.old out.new (Bytes (specs.definitions self.now row) ∷ Bytes (specs.room self.now row) ∷ []) }
    {
        self.put_definitions(row, out);
        self.put_room(row, out);
    }

    /// The lines of a row.
    fn put_row<W: Sink>(&self, row: usize, line: usize, out: &mut Out<'_, W>)
        ensures { Draws out.old out.new (specs.row_lines self.now row line) }
    {
        self.put_row_line(row, line, out);
        for more in 1..self.tall(row).lines() {
            self.put_bars_on(row, line, more, out);
        }
    }

    /// A line.
    fn put_step<W: Sink>(&self, step: Step, out: &mut Out<'_, W>)
        ensures { Draws out.old out.new (specs.step_strokes self.now step) }
    {
        match step.kind {
            StepKind::Before(row) => self.put_before(row, out),
            StepKind::Beyond(row) => self.put_beyond(row, out),
            StepKind::Request(span) => self.put_request(span, out),
            StepKind::Bars(row, count) => self.put_bars(row, count, step.line, out),
            StepKind::Edge(above) => self.put_edge_line(above, out),
            StepKind::Rule(above, below) => self.put_rule_line(above, below, step.line, out),
            StepKind::Row(row) => self.put_row(row, step.line, out),
        }
    }

    /// All lines.
    fn put_steps<W: Sink>(&self, out: &mut Out<'_, W>)
        ensures { Draws out.old out.new (specs.steps_strokes self.now) }
    {
        for number in 0..self.steps.len() {
            self.put_step(self.step(number), out);
        }
    }

    /// The lines, with what stands before and after them.
    pub(crate) fn put_lines<W: Sink>(
        &self,
        opens: bool,
        lines: usize,
        ends: bool,
        out: &mut Out<'_, W>,
    )
        ensures { Draws out.old out.new (specs.lines_strokes self.now opens lines ends) }
    {
        self.put_opening(opens, lines, ends, out);
        self.put_indent(out);
        self.put_steps(out);
        self.put_closing(ends, out);
    }

    /// What stands after the lines.
    fn put_tail<W: Sink>(&self, out: &mut Out<'_, W>)
        ensures { Draws out.old out.new (Bytes specs.tail ∷ []) }
    {
        out.ask(b".in \\n(*Iu\n.if \\n(*u .fi\n");
    }

    /// That, if the table ends.
    pub(crate) fn put_closing<W: Sink>(&self, ends: bool, out: &mut Out<'_, W>)
        ensures { Draws out.old out.new (Bytes (specs.closing ends) ∷ []) }
    {
        if ends {
            return self.put_tail(out);
        }
        out.ask(b"");
    }
}
