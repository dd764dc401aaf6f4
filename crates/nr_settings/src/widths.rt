//! The width of a text: of the argument of `\w` (CSTR 54, width function).
ghost use Rattle.std.specs.Prelude.{◌≡◌, ◌≤◌, pos, take, length, unwrap_or};
ghost use Rattle.nr_settings.specs.Specials.{special_of};
ghost use Rattle.nr_settings.specs.Widths.{byte_width, special_width, of_width, escaped, element_of, width_of};
ghost use Rattle.nr_settings.specs.Escapes.{escape_of};
ghost use Rattle.nr_settings.specs.Motions.{motion};

use crate::characters::prints;
use crate::escapes::{
    Escape, bracketed, bracketed_len, delimited, delimited_len, escape_name_len, register_len,
    size_len,
};
use crate::lengths::Height;
use crate::motions::motion;
use crate::specials::Special;

/// An element of a text: the number of its bytes after the first, and its width in units.
#[derive(Clone, Copy)]
pub(crate) struct Element {
    pub more: usize,
    pub width: u32,
}

impl Element {
    fn of_width(more: usize, width: u32) -> Self
        ensures { result ≡ of_width more width }
    {
        Element { more, width }
    }
}

/// The width of a byte of text.
fn byte_width(byte: u8) -> u32
    ensures { result ≡ byte_width byte }
{
    if prints(byte) { 24 } else { 0 }
}

/// The width of the special character of a name.
fn special_width(name: &[u8]) -> u32
    ensures value { result ≡ special_width (special_of name.now) }
    ensures most { result ≤ 48 }
{
    match Special::of(name) {
        None => 0,
        Some(special) => 24 * special.cells(),
    }
}

/// The two letters in front, or as many as there are.
fn letters(text: &[u8]) -> &[u8]
    ensures { result.now ≡ take 2 text.now }
{
    &text[..text.len().min(2)]
}

/// The width of a motion, 0 where it has none.
fn motion_width(argument: &[u8], v: Height) -> u32
    ensures value { result ≡ unwrap_or (motion v (pos 0) argument.now) 0 }
    ensures most { result ≤ 32760 }
{
    match motion(argument, v, 0) {
        None => 0,
        Some(width) => width.units(),
    }
}

/// The escape of a byte after a `\`, with what stands after that byte.
fn escaped(byte: u8, text: &[u8], long: bool, v: Height) -> Element
    requires { length text.now ≤ 256 }
    ensures value { result ≡ escaped long v byte text.now (escape_of long byte) }
    ensures most { result.width ≤ 32760 }
{
    match Escape::of(byte, long) {
        Escape::OneCell => Element::of_width(1, 24),
        Escape::Nothing => Element::of_width(1, 0),
        Escape::Comment => Element::of_width(1 + text.len(), 0),
        Escape::Argument => Element::of_width(2, 0),
        Escape::Named => Element::of_width(1 + escape_name_len(text, long), 0),
        Escape::Register => Element::of_width(1 + register_len(text, long), 0),
        Escape::Pair => Element::of_width(3, special_width(letters(text))),
        Escape::Bracket => Element::of_width(
            2 + bracketed_len(text),
            special_width(bracketed(text)),
        ),
        Escape::Motion => Element::of_width(
            1 + delimited_len(text),
            motion_width(delimited(text), v),
        ),
        Escape::Delimited => Element::of_width(1 + delimited_len(text), 0),
        Escape::Size => Element::of_width(1 + size_len(text), 0),
        Escape::Plain => Element::of_width(1, byte_width(byte)),
    }
}

/// The element that begins with a byte, with what stands after that byte.
fn element_of(byte: u8, text: &[u8], long: bool, v: Height) -> Element
    requires { length text.now ≤ 256 }
    ensures value { result ≡ element_of long v byte text.now }
    ensures most { result.width ≤ 32760 }
{
    if byte != b'\\' {
        return Element::of_width(0, byte_width(byte));
    }
    match text.split_first() {
        None => Element::of_width(0, 0),
        Some((first, rest)) => escaped(*first, rest, long, v),
    }
}

/// The width in units of a text that was read once in argument mode: 24 for each byte that prints and each blank,
/// escapes by what they print, tabs and leaders nothing. `\[` begins a name where long names are on.
///
/// Proved: The width of a text is the sum of the widths of its characters and escapes.
pub fn width(text: &[u8], long: bool, v: Height) -> u32
    requires { length text.now ≤ 256 }
    ensures value { result ≡ width_of long v text.now }
    ensures most { result ≤ 8386560 }
{
    let mut width = 0;
    let mut more = 0;
    for (at, byte) in text.iter().enumerate() {
        if more > 0 {
            more -= 1;
            continue;
        }
        let element = element_of(*byte, &text[at + 1..], long, v);
        width += element.width;
        more = element.more;
    }
    width
}
