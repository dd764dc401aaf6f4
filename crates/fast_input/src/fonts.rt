//! Font escapes in the text of the source.
ghost use Rattle.std.specs.Prelude.{◌≡◌, ◌+◌, ◌≤◌, true, map, Option, None, Some, IfSome};
ghost use Rattle.nr_reading.specs.declared.event.Event.TheVariants as events;
ghost use Rattle.nr_reading.specs.declared.next_item.NextItem.TheVariants as variants;
ghost use Rattle.nr_reading.specs.declared.mode.Mode.TheVariants as modes;
ghost use Rattle.nr_reading.specs.Many.InText.{is_in_text};
ghost use Rattle.nr_reading.specs.Many.Interpolations.{interpolates};
ghost use Rattle.nr_reading.specs.Many.LineBeginnings.{is_at_text};
ghost use Rattle.nr_reading.specs.Many.Runs.{HasTakenIn, spot};
ghost use Rattle.fast_input.specs.Fonts.{BeginsFont};

use crate::stretches::ByteStretch;
use nr_input::Reader;
use nr_reading::Run;

/// The font escape that these bytes begin with is taken in, where an item is looked at next: `\fX` or `\f(XX` in the midst of a text line, `\fX`
/// at the beginning of a line. None where the bytes have not all of it, or begin otherwise. The bytes are not taken yet.
///
/// Proved: A font escape that bytes begin with is taken in by one call in exactly the moves of nr_input, and one that has
/// its name, of one byte or in the midst of a line of two, is taken in wherever the midst or the beginning of a text line
/// is read and a `\` is no control character.
#[inline(always)]
pub fn take_in_font(reader: &mut Reader, bytes: &[u8]) -> Option<Run>
    ensures taken_in { IfSome result (λ run. HasTakenIn run.moves (map variants.Byte bytes.now) reader.old.half
        (spot run reader.new.half)) }
    ensures font { IfSome result (λ run. run.event ≡ events.Font) }
    ensures least { IfSome result (λ run. 3 ≤ run.taken) }
    ensures few { IfSome result (λ run. run.moves ≤ 6) }
    ensures in_line { reader.old.half.reading.mode ≡ modes.Text
        → IfSome result (λ run. run.moves ≡ run.taken) }
    ensures at_start { reader.old.half.reading.mode ≡ modes.Start
        → IfSome result (λ run. run.moves ≡ run.taken + 1) }
    ensures afterwards { IfSome result (λ run. is_in_text reader.new.half ≡ true) }
    ensures reader { reader.new ≡ record reader.old { half = reader.new.half } }
    ensures left { result ≡ None → reader.new ≡ reader.old }
    ensures longest { result ≡ None → is_at_text reader.old.half ≡ true → interpolates reader.old.half ≡ true
        → BeginsFont (is_in_text reader.old.half) bytes.now → ⊥ }
{
    reader.half.take_in_next_font(&ByteStretch(bytes))
}
