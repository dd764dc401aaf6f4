//! Lengths: what names and numbers of widths say.
ghost use Rattle.std.specs.Prelude.{◌≡◌, ◌≤◌};
ghost use Rattle.mdoc_layout.specs.Lengths as specs;

use super::lookup::named_in;

/// Widths that are named, and those that names of macros stand for.
static WIDTHS: [([u8; 15], u16); 26] = [
    (*b"indent\0\0\0\0\0\0\0\0\0", 6),
    (*b"Ds\0\0\0\0\0\0\0\0\0\0\0\0\0", 6),
    (*b"Fl\0\0\0\0\0\0\0\0\0\0\0\0\0", 10),
    (*b"Ar\0\0\0\0\0\0\0\0\0\0\0\0\0", 12),
    (*b"Cm\0\0\0\0\0\0\0\0\0\0\0\0\0", 10),
    (*b"Pa\0\0\0\0\0\0\0\0\0\0\0\0\0", 32),
    (*b"Ic\0\0\0\0\0\0\0\0\0\0\0\0\0", 10),
    (*b"Nm\0\0\0\0\0\0\0\0\0\0\0\0\0", 10),
    (*b"Er\0\0\0\0\0\0\0\0\0\0\0\0\0", 17),
    (*b"Ev\0\0\0\0\0\0\0\0\0\0\0\0\0", 15),
    (*b"Dv\0\0\0\0\0\0\0\0\0\0\0\0\0", 12),
    (*b"Li\0\0\0\0\0\0\0\0\0\0\0\0\0", 16),
    (*b"Va\0\0\0\0\0\0\0\0\0\0\0\0\0", 12),
    (*b"Vt\0\0\0\0\0\0\0\0\0\0\0\0\0", 12),
    (*b"Xr\0\0\0\0\0\0\0\0\0\0\0\0\0", 10),
    (*b"Sy\0\0\0\0\0\0\0\0\0\0\0\0\0", 6),
    (*b"Em\0\0\0\0\0\0\0\0\0\0\0\0\0", 10),
    (*b"Fn\0\0\0\0\0\0\0\0\0\0\0\0\0", 16),
    (*b"Ql\0\0\0\0\0\0\0\0\0\0\0\0\0", 16),
    (*b"Op\0\0\0\0\0\0\0\0\0\0\0\0\0", 14),
    (*b"Cd\0\0\0\0\0\0\0\0\0\0\0\0\0", 12),
    (*b"Fa\0\0\0\0\0\0\0\0\0\0\0\0\0", 12),
    (*b"An\0\0\0\0\0\0\0\0\0\0\0\0\0", 12),
    (*b"Aq\0\0\0\0\0\0\0\0\0\0\0\0\0", 12),
    (*b"Sx\0\0\0\0\0\0\0\0\0\0\0\0\0", 16),
    (*b"Tn\0\0\0\0\0\0\0\0\0\0\0\0\0", 10),
];

/// The value of a digit.
fn digit(byte: u8) -> Option<u16>
    ensures { result ≡ specs.digit byte }
{
    match byte {
        b'0'..=b'9' => Some(u16::from(byte - b'0')),
        _ => None,
    }
}

/// A number of two digits.
fn two_digits(first: u8, second: u8) -> Option<u16>
    ensures value { result ≡ specs.two_digits first second }
{
    match (digit(first), digit(second)) {
        (Some(a), Some(b)) if a < 10 && b < 10 => Some(10 * a + b),
        _ => None,
    }
}

/// Whether a byte is the unit of a width of characters.
fn is_unit(byte: u8) -> bool
    ensures { result ≡ specs.is_unit byte }
{
    byte == b'n' || byte == b'm'
}

/// The width that a number says.
pub fn number_said(word: &[u8]) -> Option<u16>
    ensures { result ≡ specs.number_said word.now }
{
    match word {
        [a, b] => if is_unit(*b) { digit(*a) } else { None },
        [a, b, c] => if is_unit(*c) {
            two_digits(*a, *b)
        } else {
            None
        },
        _ => None,
    }
}

/// The width that a name stands for.
pub fn width_named(word: &[u8]) -> Option<u16>
    ensures { result ≡ specs.width_named word.now }
{
    named_in(&WIDTHS, word)
}

/// The indent of a display that a name stands for.
pub fn offset_named(word: &[u8]) -> Option<u16>
    ensures { result ≡ specs.offset_named word.now }
{
    if word == b"left".as_slice() {
        return Some(0);
    }
    if word == b"indent-two".as_slice() {
        return Some(12);
    }
    None
}

/// At most so much of a width counts.
pub fn at_most(most: u16, width: u16) -> u16
    ensures value { result ≡ specs.at_most most width }
    ensures few { result ≤ most }
{
    if width < most { width } else { most }
}
