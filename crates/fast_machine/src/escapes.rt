//! Escapes in the midst of a text line of the source: many moves in one call.
ghost use Rattle.std.specs.Prelude.{◌≡◌, ◌+◌, ◌<◌, true, false};
ghost use Rattle.nr_fill.specs.Piece.{text_cells};
ghost use Rattle.nr_reading.specs.Many.InText.{is_in_text};
ghost use Rattle.fast_input.specs.Fonts.{BeginsFont};
ghost use Rattle.nr_formatter.specs.Access.{collected};
ghost use Rattle.nr_formatter.specs.Many.Runs.{is_in_line};
ghost use Rattle.fast_machine.specs.Escapes.{PutsEscape};
ghost use Rattle.fast_machine.specs.NextEscapes.{BeginsEscape, BeginsMinus, BeginsPoint};

use crate::fonts::put_font;
use nr_fill::piece::{CutAfter, Point};
use nr_formatter::formatter::Formatter;
use nr_units::Name;

/// Whether the bytes begin with `\(zb`.
#[inline(always)]
fn begins_point(bytes: &[u8]) -> bool
    ensures point { result ≡ true → BeginsPoint bytes.now }
    ensures other { result ≡ false → BeginsPoint bytes.now → ⊥ }
{
    bytes.len() > 3 && bytes[0] == b'\\' && bytes[1] == b'(' && bytes[2] == b'z' && bytes[3] == b'b'
}

/// Whether the bytes begin with `\-`.
#[inline(always)]
fn begins_minus(bytes: &[u8]) -> bool
    ensures minus { result ≡ true → BeginsMinus bytes.now }
    ensures other { result ≡ false → BeginsMinus bytes.now → ⊥ }
{
    bytes.len() > 1 && bytes[0] == b'\\' && bytes[1] == b'-'
}

/// The place to cut the word that these bytes begin with is read in the midst of a text line, and stands there: a move a byte and one
/// for the point. Tells how many bytes it has: 0 where none was read.
#[inline(always)]
fn put_point(formatter: &mut Formatter, bytes: &[u8]) -> usize
    ensures puts { PutsEscape bytes.now result (result + 1) formatter.old formatter.new }
    ensures longest { result ≡ 0 → is_in_line formatter.old ≡ true → BeginsPoint bytes.now → ⊥ }
{
    if !begins_point(bytes) || !formatter.is_in_line() {
        return 0;
    }
    formatter.reader.half.notes.asked = Name::of(b"zb");
    formatter.line.point(Point::Hard);
    4
}

/// The minus that these bytes begin with is read in the midst of a text line, and put where the line is not full: a move a byte and one
/// for its cell. Tells how many bytes it has: 0 where none was read.
#[inline(always)]
fn put_minus(formatter: &mut Formatter, bytes: &[u8]) -> usize
    ensures puts { PutsEscape bytes.now result (result + 1) formatter.old formatter.new }
    ensures longest { result ≡ 0 → is_in_line formatter.old ≡ true → BeginsMinus bytes.now
        → text_cells (collected formatter.old) < formatter.old.line.limit → ⊥ }
{
    if !begins_minus(bytes) || !formatter.is_in_line() {
        return 0;
    }
    let margins = formatter.settings.indents.margins();
    let cell = formatter.settings.fonts.cell(b'-');
    if formatter.line.put(margins, cell, CutAfter::Letter).is_err() {
        return 0;
    }
    2
}

/// The place to cut, the minus or the font escape that these bytes begin with is read in the midst of a text line, in a move a byte and
/// one more. Tells how many bytes it has: 0 where none was read.
#[inline(always)]
pub(crate) fn put_escape(formatter: &mut Formatter, bytes: &[u8]) -> usize
    ensures puts { PutsEscape bytes.now result (result + 1) formatter.old formatter.new }
    ensures font { result ≡ 0 → is_in_line formatter.old ≡ true
        → BeginsFont (is_in_text formatter.old.reader.half) bytes.now → ⊥ }
    ensures longest { result ≡ 0 → is_in_line formatter.old ≡ true → BeginsEscape bytes.now formatter.old
        → ⊥ }
{
    let minus = put_minus(formatter, bytes);
    if minus > 0 {
        return minus;
    }
    let point = put_point(formatter, bytes);
    if point > 0 {
        return point;
    }
    put_font(formatter, bytes)
}
