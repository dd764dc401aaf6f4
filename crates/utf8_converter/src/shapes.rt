//! Which bytes stand together in whole cells.
ghost use Rattle.std.specs.Prelude.{◌≡◌, ◌+◌, ◌<◌, ◌≤◌, length, nat_lt, IsTrue};
ghost use Rattle.utf8_converter.specs.Shapes as specs;
ghost use Rattle.utf8_converter.specs.Spelling.{AllLow, AreLow};

/// How many bytes are looked at together.
pub(crate) const CHUNK: usize = 32;

/// So many, and one on either side of the last of them.
pub(crate) const SEEN: usize = CHUNK + 2;

/// The highest bit of each byte of a piece.
const HIGH: u64 = 0x8080_8080_8080_8080;

/// Whether a byte is shown or is beyond ASCII.
fn may_stand(byte: u8) -> bool
    ensures { result ≡ specs.may_stand byte }
{
    (byte == b'\n') | ((byte >= b' ') & (byte != 127))
}

/// Whether all of these go out as they are, or are beyond ASCII.
#[inline]
pub(crate) fn may_all_stand(bytes: &[u8]) -> bool
    ensures { IsTrue result → specs.StandAll (length bytes.now) bytes.now }
{
    let mut all = true;
    for byte in bytes {
        all &= may_stand(*byte);
    }
    all
}

/// Whether a byte is of ASCII, but for DEL.
fn is_low(byte: u8) -> bool
    ensures { result ≡ nat_lt byte 127 }
{
    byte < 127
}

/// Whether all of these are of ASCII, and none is DEL.
#[inline]
pub(crate) fn are_all_low(bytes: &[u8]) -> bool
    ensures { IsTrue result → AllLow bytes.now }
{
    let mut all = true;
    for byte in bytes {
        all &= is_low(*byte);
    }
    all
}

/// Whether all bytes of a piece are of ASCII.
#[inline]
pub(crate) fn are_low(piece: &[u8; 8]) -> bool
    ensures { IsTrue result → AreLow 8 piece.now }
{
    u64::from_le_bytes(*piece) & HIGH == 0
}

/// Whether a byte may stand between these two: a backspace only in a struck cell, and none two places after another.
fn is_shaped(before: u8, byte: u8, following: u8) -> bool
    ensures { result ≡ specs.is_shaped before byte following }
{
    let same = before == following;
    let struck = (byte == b'\x08') & (same | (before == b'_')) & (following > b' ');
    (may_stand(byte) | struck) & !(same & (following == b'\x08'))
}

/// Whether each of these bytes but the last may stand where it does.
#[inline]
pub(crate) fn are_shaped(bytes: &[u8; 34]) -> bool
    ensures { IsTrue result → specs.Shapes 32 bytes.now }
{
    let mut all = may_stand(bytes[0]);
    for place in 0..CHUNK {
        all &= is_shaped(bytes[place], bytes[place + 1], bytes[place + 2]);
    }
    all
}
