//! The arguments of `.nr` and `.af` (CSTR 54, number registers).
ghost use Rattle.std.specs.Prelude.{◌≡◌, ◌≤◌, length};
ghost use Rattle.std.specs.List.{prefix_len};
ghost use Rattle.nr_settings.specs.Registers.{nr, is_digit, format_of, af};

use crate::arguments::Arguments;
use crate::lengths::Height;
use crate::numbers::{Change, change_of, value_of};
use nr_units::{Format, Name, Scale};

/// A register's new value, and its step where that is given.
#[derive(Clone, Copy)]
pub struct RegisterChange {
    pub name: Name,
    pub change: Change,
    pub step: Option<i32>,
}

/// A register's new format.
#[derive(Clone, Copy)]
pub struct FormatChange {
    pub name: Name,
    pub format: Format,
}

/// What `.nr` changes; None where the register's name or its number is absent.
///
/// Proved: What the lines of `.nr .af .wh .ch .dt .it .sp .ne .rt .bp .pn` say is one function of the line and the
/// place or number at hand. (`nr`, `af`; `wh`, `ch`, `dt`, `it` in traps.rt; `sp`, `ne`, `rt` in spacing.rt;
/// `page_number` in pages.rt)
pub fn nr(line: &[u8], long: bool, v: Height) -> Option<RegisterChange>
    ensures { result ≡ nr line.now long v }
{
    let mut arguments = Arguments::of(line);
    let Some(name) = arguments.name(long) else {
        return None;
    };
    let Some(change) = change_of(arguments.number(), Scale::Unit, v, 0) else {
        return None;
    };
    let step = value_of(arguments.number(), Scale::Unit, v, 0);
    Some(RegisterChange { name, change, step })
}

/// The number of digits in front.
fn digits_len(word: &[u8]) -> usize
    ensures { result ≡ prefix_len is_digit word.now }
{
    word.iter().take_while(|byte| is_digit(**byte)).count()
}

/// Whether a byte is a decimal digit.
pub(crate) fn is_digit(byte: u8) -> bool
    ensures { result ≡ is_digit byte }
{
    b'0' <= byte && byte <= b'9'
}

/// The format that a word names; None where it names none.
fn format_of(word: &[u8]) -> Option<Format>
    ensures { result ≡ format_of word.now }
{
    let Some((first, _rest)) = word.split_first() else {
        return None;
    };
    match *first {
        b'i' => Some(Format::LowerRoman),
        b'I' => Some(Format::UpperRoman),
        b'a' => Some(Format::LowerAlphabetic),
        b'A' => Some(Format::UpperAlphabetic),
        first if is_digit(first) => Some(Format::Arabic {
            places: digits_len(word).min(9) as u8,
        }),
        _ => None,
    }
}

/// What `.af` changes; None where the register's name or the format is absent or bad.
pub fn af(line: &[u8], long: bool) -> Option<FormatChange>
    ensures { result ≡ af line.now long }
{
    let mut arguments = Arguments::of(line);
    let Some(name) = arguments.name(long) else {
        return None;
    };
    match format_of(arguments.word()) {
        None => None,
        Some(format) => Some(FormatChange { name, format }),
    }
}
