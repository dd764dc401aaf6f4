//! Font escapes in the text of the source: many moves in one call.
ghost use Rattle.std.specs.Prelude.{◌≡◌, ◌+◌, Bool, true, false};
ghost use Rattle.nr_reading.specs.Many.InText.{is_in_text};
ghost use Rattle.nr_reading.specs.Many.Interpolations.{interpolates};
ghost use Rattle.nr_reading.specs.Many.LineBeginnings.{IsBeforeLine};
ghost use Rattle.fast_input.specs.Fonts.{BeginsFont};
ghost use Rattle.nr_formatter.specs.Many.LineBeginnings.{is_at_text};
ghost use Rattle.nr_formatter.specs.Many.Runs.{is_in_line};
ghost use Rattle.fast_machine.specs.Escapes.{PutsEscape};

use nr_formatter::formatter::Formatter;

/// Whether the bytes begin with `\f` and have another byte after it.
#[inline(always)]
fn begins_font(bytes: &[u8]) -> bool
    ensures { result ≡ false → (in_line : Bool) → BeginsFont in_line bytes.now → ⊥ }
{
    bytes.len() > 2 && bytes[0] == b'\\' && bytes[1] == b'f'
}

/// The font escape that these bytes begin with is read, and its font set: a move a byte and one to set it, and at the beginning of a
/// line one more, which begins its text. Tells how many bytes it has: 0 where none was read.
#[cold]
#[inline(never)]
fn change_font(formatter: &mut Formatter, bytes: &[u8]) -> usize
    requires text { is_at_text formatter.old ≡ true }
    ensures in_line { is_in_line formatter.old ≡ true
        → PutsEscape bytes.now result (result + 1) formatter.old formatter.new }
    ensures at_start { IsBeforeLine formatter.old.reader.half
        → PutsEscape bytes.now result (result + 2) formatter.old formatter.new }
    ensures longest { result ≡ 0 → interpolates formatter.old.reader.half ≡ true
        → BeginsFont (is_in_text formatter.old.reader.half) bytes.now → ⊥ }
{
    match fast_input::take_in_font(&mut formatter.reader, bytes) {
        Some(run) => {
            formatter.set_font();
            run.taken
        }
        None => 0,
    }
}

/// As `change_font`, in the midst of a text line.
#[inline(always)]
pub(crate) fn put_font(formatter: &mut Formatter, bytes: &[u8]) -> usize
    ensures puts { PutsEscape bytes.now result (result + 1) formatter.old formatter.new }
    ensures longest { result ≡ 0 → is_in_line formatter.old ≡ true
        → BeginsFont (is_in_text formatter.old.reader.half) bytes.now → ⊥ }
{
    if !begins_font(bytes) || !formatter.is_in_line() {
        return 0;
    }
    change_font(formatter, bytes)
}

/// As `change_font`, at the beginning of a line, whose text begins with it.
#[inline(always)]
pub(crate) fn begin_font(formatter: &mut Formatter, bytes: &[u8]) -> usize
    requires text { is_at_text formatter.old ≡ true }
    requires start { IsBeforeLine formatter.old.reader.half }
    ensures puts { PutsEscape bytes.now result (result + 2) formatter.old formatter.new }
    ensures longest { result ≡ 0 → interpolates formatter.old.reader.half ≡ true
        → BeginsFont (is_in_text formatter.old.reader.half) bytes.now → ⊥ }
{
    if !begins_font(bytes) {
        return 0;
    }
    change_font(formatter, bytes)
}
