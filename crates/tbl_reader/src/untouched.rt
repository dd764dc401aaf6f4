//! Text that goes out as it is.
ghost use Rattle.std.specs.Prelude.{◌≡◌, IsTrue};
ghost use Rattle.tbl_reader.specs.Ending.{page_said};
ghost use Rattle.tbl_reader.specs.Telling.{each};
ghost use Rattle.tbl_reader.specs.Untouched.{begins_table, is_untouched};
ghost use Rattle.tbl_reader.specs.declared.reader.Limits.{Limits as LimitsValue};
ghost use Rattle.tbl_reader.specs.declared.telling.Tell.TheVariants.{Pass};

use super::command::ends_name;

/// Whether the first line of these bytes begins a table.
fn begins_table(bytes: &[u8]) -> bool
    ensures { result ≡ begins_table bytes.now }
{
    bytes.len() > 2
        && bytes[0] == b'.'
        && bytes[1] == b'T'
        && bytes[2] == b'S'
        && (bytes.len() == 3 || bytes[3] == b'\n' || ends_name(bytes[3]))
}

/// Whether no line of a text begins a table, with `.TS` and its end or a byte that ends a name. Of such a text nothing is
/// said but that it passes, byte for byte.
///
/// Proved: Of a text in which no line is `.TS` nothing is said but that it passes, byte for byte, for all limits. (`passes_unchanged`; it speaks of the definition `page_said`)
pub fn passes_unchanged(text: &[u8]) -> bool
    ensures value { result ≡ is_untouched text.now }
    ensures law { IsTrue result → (limits : LimitsValue)
        → page_said limits text.now ≡ each Pass text.now }
{
    let mut starts = true;
    for i in 0..text.len() {
        if starts && begins_table(&text[i..]) {
            return false;
        }
        starts = text[i] == b'\n';
    }
    true
}
