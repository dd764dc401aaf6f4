//! Text that goes out as it is.
ghost use Rattle.std.specs.Prelude.{◌≡◌, IsTrue, length};
ghost use Rattle.preconv_characters.specs.declared.target.Target.{Target};
ghost use Rattle.preconv_converter.specs.PlainText.{goes_on, is_plain_text};
ghost use Rattle.preconv_converter.specs.Reading.{converted, steps_of};

/// Whether a byte goes on such text, at the beginning of a line or not.
fn goes_on(starts: bool, byte: u8) -> bool
    ensures { result ≡ goes_on starts byte }
{
    byte < 127 && byte != b'\r' && byte != b'\\' && !(starts && (byte == b'.' || byte == b'\''))
}

/// Whether a text is of ASCII, without DEL, carriage returns and backslashes, and none of its lines begins with a control character. Such a
/// text is what `convert` makes of it, in one step for each byte.
///
/// Proved: ASCII text without DEL, without carriage returns, without `\` and without control lines goes out as it is,
/// in one step for each byte.
pub fn passes_unchanged(text: &[u8]) -> bool
    ensures value { result ≡ is_plain_text text.now }
    ensures law { IsTrue result → (table : Target) → converted table text.now ≡ text.now }
    ensures steps { IsTrue result → (table : Target) → steps_of table text.now ≡ length text.now }
{
    let mut starts = true;
    for byte in text {
        if !goes_on(starts, *byte) {
            return false;
        }
        starts = *byte == b'\n';
    }
    true
}
