//! A whole text is turned.
ghost use Rattle.std.specs.Prelude.{◌≡◌, ◌≤◌, length};
ghost use Rattle.nr_units.specs.Failures.{put_counted_if};
ghost use Rattle.document_stages.specs.Running.{TellsReads, is_write_fault};
ghost use Rattle.utf8_converter.specs.Running.{Ran};

use super::staged::Utf8Converter;
use document_stages::{RunEnd, run};
use nr_units::sink::Sink;
use nr_units::source::Source;
use utf8_characters::FixedTable;

/// Turns what the input gives into UTF-8, and puts it to the output, which is not flushed. Bytes from 128 on are
/// characters of the table; with `escapes` looks stand between escape sequences. The buffer, of 1536 bytes
/// at least, holds what goes out; what it held is of no account. Nothing is allocated.
///
/// What goes out is one function of the bytes that came, however they came. At a read fault, and where the input is
/// too long, it is that of the bytes before, but for a cell that is half read; at a write fault a prefix of it.
///
/// `strays` is set to the number of bytes that were dropped: control characters but newline, backspaces that strike no byte
/// over another, and bytes that the table lacks.
///
/// Proved: What goes out is one function of the bytes that came, however they came: they are read into `cells`, and
/// these are `printed`. (`convert`, Cells.antt)
/// Proved: Whatever comes, what goes out is a text for a terminal: UTF-8 (RFC 3629) of parts, each a newline, a
/// blank, a printing character of ASCII or one of one cell; a character that shows, a backspace and itself, or `_`, a
/// backspace and one that shows; or, only with `-c`, where there is no such part, one of the four escape sequences
/// that begin and end bold and underlined text.
/// Proved: Without sequences and what is struck over, what goes out is the characters of the cells that came, so each
/// line has as many cells.
/// Proved: How many bytes were dropped is reported, those that are in no cell; at most four bytes go out for each that
/// came.
/// Proved: At a read fault what the bytes before come to is out, but for what is half read; at a write fault a prefix
/// of what goes out. A fault is reported only where a call of the source or the sink failed.
pub fn convert<R: Source, W: Sink>(
    input: &mut R,
    output: &mut W,
    table: FixedTable,
    escapes: bool,
    buffer: &mut [u8],
    strays: &mut u64,
) -> RunEnd
    requires { 1536 ≤ length buffer.old }
    ensures ran { Ran table escapes (R.supply input.old) (R.supply input.new) (W.held output.old) (W.held output.new)
        strays.new result }
    // A read fault is reported only where the source failed once, and then always, but where the output fails too.
    ensures read_faults { TellsReads result (R.failures input.old) (R.failures input.new) }
    ensures write_faults { W.failures output.new ≡ put_counted_if (is_write_fault result) (W.failures output.old) }
{
    let mut text = Utf8Converter::new(table, escapes);
    let outcome = run(&mut text, input, output, buffer);
    *strays = text.strays();
    outcome
}
