//! The text of a field: where it begins, and what goes out for it.
ghost use Rattle.std.specs.Prelude.{◌≡◌, [], ◌∷◌};
ghost use Rattle.tbl_drawing.specs.Drawing as specs;
ghost use Rattle.tbl_drawing.specs.Pens.{Bytes, Text};
ghost use Rattle.tbl_drawing.specs.Tapes.{Draws};
ghost use Rattle.tbl_table.specs.Held.{text_of};

use super::layout::Layout;
use super::writing::Out;
use nr_units::sink::Sink;
use tbl_blocks::Font;
use tbl_columns::{Cell, Column};
use tbl_table::{Form, Kind};

/// Whether a text has an escape.
fn has_escape(text: &[u8]) -> bool
    ensures { result ≡ specs.has_escape text.now }
{
    for byte in text {
        if *byte == b'\\' {
            return true;
        }
    }
    false
}

/// The first byte of a text, or a blank.
pub(crate) fn first_byte(text: &[u8]) -> u8
    ensures { result ≡ specs.first_byte text.now }
{
    if text.is_empty() { b' ' } else { text[0] }
}

/// How far a number is moved in, of which so much stands before the place where it is aligned, in a column of so many cells.
fn number_in(prefix: usize, room: usize, column: Column) -> usize
    ensures { result ≡ specs.number_in prefix room column }
{
    let numbers = column.prefix.saturating_add(column.back);
    let rest = room.saturating_sub(numbers) / 2;
    rest.saturating_add(column.prefix).saturating_sub(prefix)
}

/// Where a field begins that stands in the middle of so many cells.
fn in_middle(room: usize, width: usize, left: usize) -> usize
    ensures { result ≡ specs.in_middle room width left }
{
    let inward = left.saturating_add(room.saturating_sub(width) / 2);
    inward.saturating_sub(width.saturating_sub(room) / 2)
}

/// A font is set.
pub(crate) fn put_font<W: Sink>(font: Font, out: &mut Out<'_, W>)
    ensures { Draws out.old out.new (Bytes (specs.font_text font) ∷ []) }
{
    out.add(&[b'\\', b'f', font.letter()]);
}

/// A font is set, if there is one.
#[tactic(auto, using(crate::proofs::Tapes::draws_no_bytes))]
fn put_font_if<W: Sink>(font: Option<Font>, out: &mut Out<'_, W>)
    ensures { Draws out.old out.new (Bytes (specs.font_if font) ∷ []) }
{
    match font {
        None => {}
        Some(font) => put_font(font, out),
    }
}

/// The font is as before a text: roman where that may have changed it.
fn restore_font<W: Sink>(text: &[u8], out: &mut Out<'_, W>)
    ensures { Draws out.old out.new (Bytes (specs.font_restored text.now) ∷ []) }
{
    if has_escape(text) {
        put_font(Font::Roman, out);
    } else {
        out.add(b"\\fP");
    }
}

/// The font is as before a text that has one of its own.
#[tactic(auto, using(crate::proofs::Tapes::draws_no_bytes))]
fn put_font_back<W: Sink>(font: Option<Font>, text: &[u8], out: &mut Out<'_, W>)
    ensures { Draws out.old out.new (Bytes (specs.font_back font text.now) ∷ []) }
{
    match font {
        None => {}
        Some(_font) => restore_font(text, out),
    }
}

/// The first byte of a text with a font, or without.
fn first_in(font: Option<Font>, text: &[u8]) -> u8
    ensures { result ≡ specs.first_in font text.now }
{
    match font {
        None => first_byte(text),
        Some(_) => b'\\',
    }
}

/// Whether a field stands at the left of its column.
fn stands_left(cell: &Cell) -> bool
    ensures { result ≡ specs.stands_left cell.now }
{
    match cell.key.kind {
        Kind::Left | Kind::Down | Kind::Rule | Kind::DoubleRule => true,
        Kind::Number => !matches!(cell.field.form, Form::Text),
        _ => false,
    }
}

/// So many cells, if that is known.
pub(crate) fn cells_if(sure: bool, cells: usize) -> Option<usize>
    ensures { result ≡ specs.if_sure sure cells }
{
    if sure { Some(cells) } else { None }
}

impl Layout {
    /// How far a number is moved in, in a column of so many cells.
    fn number_begin(&self, cell: Cell, room: usize) -> Option<usize>
        ensures { result ≡ specs.number_begin self.now cell room }
    {
        if !cell.is_number() || cell.spans() || cell.block.is_some() {
            return None;
        }
        let prefix = self.grid.prefix_cells(cell);
        Some(number_in(prefix, room, self.grid.column(cell.first)))
    }

    /// Where a field of the middle begins, in columns of so many cells.
    fn begin_in_middle(&self, cell: Cell, room: usize) -> usize
        ensures { result ≡ specs.begin_in_middle self.now cell room }
    {
        let left = self.grid.column(cell.first).left;
        match self.number_begin(cell, room) {
            Some(cells) => left.saturating_add(cells),
            None => in_middle(room, cell.width, left),
        }
    }

    /// Where a field of `a` begins, in columns of so many cells.
    fn begin_of_alpha(&self, cell: Cell, room: usize) -> usize
        ensures { result ≡ specs.begin_of_alpha self.now cell room }
    {
        if cell.spans() || cell.block.is_some() {
            return self.begin_in_middle(cell, room);
        }
        let column = self.grid.column(cell.first);
        column
            .left
            .saturating_add(room.saturating_sub(column.alpha) / 2)
    }

    /// Where a field begins, in columns of so many cells.
    fn begin_in(&self, cell: Cell, room: usize) -> usize
        ensures { result ≡ specs.begin_in self.now cell room }
    {
        let left = self.grid.column(cell.first).left;
        match cell.key.kind {
            Kind::Right => left.saturating_add(room).saturating_sub(cell.width),
            Kind::Alpha => self.begin_of_alpha(cell, room),
            Kind::Centre | Kind::Number => self.begin_in_middle(cell, room),
            _ => left,
        }
    }

    /// Where a field begins.
    #[inline(always)]
    pub(crate) fn begin_of(&self, cell: &Cell) -> usize
        ensures { result ≡ specs.begin_of self.now cell.now }
    {
        let column = self.grid.column(cell.first);
        if stands_left(cell) {
            return column.left;
        }
        let right = self.grid.column(cell.last).right;
        self.begin_in(*cell, right.saturating_sub(column.left))
    }

    /// The text of a field without its font.
    #[inline(always)]
    fn put_unset<W: Sink>(&self, cell: &Cell, out: &mut Out<'_, W>)
        ensures { Draws out.old out.new (Bytes (text_of self.now.grid.table cell.now.field.span) ∷ []) }
    {
        out.add(self.grid.table.bytes(cell.field.span));
    }

    /// The text of a field, with its font.
    #[inline(always)]
    fn put_text<W: Sink>(&self, cell: &Cell, out: &mut Out<'_, W>)
        ensures { Draws out.old out.new (Text (specs.field_text self.now cell.now) ∷ []) }
    {
        put_font_if(cell.key.font, out);
        self.put_unset(cell, out);
        put_font_back(cell.key.font, self.grid.table.bytes(cell.field.span), out);
    }

    /// The first byte of what goes out for a field.
    fn first_of(&self, cell: &Cell) -> u8
        ensures { result ≡ specs.first_of self.now cell.now }
    {
        first_in(cell.key.font, self.grid.table.bytes(cell.field.span))
    }

    /// The text of a field.
    #[inline(always)]
    pub(crate) fn draw_text<W: Sink>(&self, cell: &Cell, out: &mut Out<'_, W>)
        ensures { Draws out.old out.new (specs.text_strokes self.now cell.now) }
    {
        out.to(self.begin_of(cell));
        out.begin(self.first_of(cell));
        self.put_text(cell, out);
        out.passed(cells_if(cell.sure, cell.width));
    }
}
