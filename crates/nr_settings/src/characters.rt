//! Control characters, and which bytes print (CSTR 54, control characters).
ghost use Rattle.std.specs.Prelude.{◌≡◌};
ghost use Rattle.nr_settings.specs.Characters.{prints, printing, cc as control_character, c2, cp};
ghost use Rattle.nr_settings.specs.Arguments.{byte_in};

use crate::arguments::Arguments;
use crate::lengths::Height;
use crate::numbers::is_zero;

/// Whether a byte is printed as a cell: 32 to 126, and 128 to 255.
#[inline]
pub fn prints(byte: u8) -> bool
    ensures { result ≡ prints byte }
{
    byte >= b' ' && byte != 127
}

/// The first byte of a line's arguments, if it prints.
pub(crate) fn printing_byte(line: &[u8]) -> Option<u8>
    ensures { result ≡ printing (byte_in line.now) }
{
    match Arguments::of(line).byte() {
        Some(byte) if prints(byte) => Some(byte),
        _ => None,
    }
}

/// The control character that `.cc` sets.
pub fn cc(line: &[u8]) -> u8
    ensures { result ≡ control_character line.now }
{
    Arguments::of(line).byte().unwrap_or(b'.')
}

/// The no-break control character that `.c2` sets.
pub fn c2(line: &[u8]) -> u8
    ensures { result ≡ c2 line.now }
{
    Arguments::of(line).byte().unwrap_or(b'\'')
}

/// Whether long names are on after `.cp`.
pub fn cp(line: &[u8], v: Height) -> bool
    ensures { result ≡ cp line.now v }
{
    is_zero(line, v)
}
