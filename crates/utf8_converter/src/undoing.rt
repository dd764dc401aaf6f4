//! The bytes that stand for characters where they are formatted.
ghost use Rattle.std.specs.Prelude.{◌≡◌};
ghost use Rattle.utf8_converter.specs.Undoing.{TurnsBack, byte_for};

use super::reader::is_shown;
use utf8_characters::FixedTable;

/// The byte that stands for a character: a character of ASCII that shows something, a blank or a newline stands for
/// itself, and one of the table has its byte.
///
/// Proved: The bytes that stand for a text, of ASCII and of the table's characters, each plain, bold or underlined,
/// come to that text where what is struck over is taken out, and to the text itself where all is plain.
pub fn byte_for(table: FixedTable, character: char) -> Option<u8>
    ensures value { result ≡ byte_for table character }
    // What `convert` makes of the bytes of a text is that text, in UTF-8.
    ensures back { TurnsBack table }
{
    let code = u32::from(character);
    if code < 128 && is_shown(code as u8) {
        return Some(code as u8);
    }
    table.byte(code)
}
