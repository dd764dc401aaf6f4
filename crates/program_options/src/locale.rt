//! What pages are printed in where no word says it.
ghost use Rattle.std.specs.Prelude.{◌≡◌, ◌≤◌, slice_index};
ghost use Rattle.program_options.specs.Locale.{begins_utf8, device_of, first_set, has_utf8, is_letter};

use crate::plain::Device;

/// What pages are printed in by the locale: UTF-8 where its words name that, and else ASCII. They are the values of
/// LC_ALL, LC_CTYPE and LANG, of which the first that is not empty counts (POSIX, "Environment Variables").
///
/// Proved: The words of the locale say UTF-8 exactly where the first that is set names it.
pub fn device_of_locale(all: &[u8], ctype: &[u8], lang: &[u8]) -> Device
    ensures { result ≡ device_of all.now ctype.now lang.now }
{
    if has_utf8(first_set(all, ctype, lang)) {
        Device::Utf8
    } else {
        Device::Ascii
    }
}

/// The first that is not empty.
fn first_set<'a>(all: &'a [u8], ctype: &'a [u8], lang: &'a [u8]) -> &'a [u8]
    ensures { result.now ≡ first_set all.now ctype.now lang.now }
{
    if !all.is_empty() {
        all
    } else if !ctype.is_empty() {
        ctype
    } else {
        lang
    }
}

/// Whether UTF-8 is named: `utf8` or `utf-8`, in letters of any case.
fn has_utf8(locale: &[u8]) -> bool
    ensures { result ≡ has_utf8 locale.now }
{
    for at in 0..locale.len() {
        if begins_utf8(&locale[at..]) {
            return true;
        }
    }
    false
}

/// Whether the text begins with that name.
fn begins_utf8(text: &[u8]) -> bool
    ensures { result ≡ begins_utf8 text.now }
{
    is_letter(b'u', byte_at(text, 0))
        && is_letter(b't', byte_at(text, 1))
        && is_letter(b'f', byte_at(text, 2))
        && (byte_at(text, 3) == b'8' || (byte_at(text, 3) == b'-' && byte_at(text, 4) == b'8'))
}

/// Whether the byte is this small letter, or its capital.
fn is_letter(letter: u8, byte: u8) -> bool
    requires { 97 ≤ letter }
    ensures { result ≡ is_letter letter byte }
{
    byte == letter || byte == letter - 32
}

/// The byte at a place, and 0 after the last.
fn byte_at(text: &[u8], place: usize) -> u8
    ensures { result ≡ slice_index text.now place }
{
    match text.get(place) {
        Some(byte) => *byte,
        None => 0,
    }
}
