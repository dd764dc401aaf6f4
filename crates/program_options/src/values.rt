//! What the values of options mean.
ghost use Rattle.std.specs.Prelude.{◌≡◌, take, drop};
ghost use Rattle.std.specs.Option.{option_map};
ghost use Rattle.program_options.specs.Values.{at_equals, change_meaning, device_named, faces_named, is_name, limit_meaning, meaning, meaning_of, meaning_of_some, meant, output_meaning, parts_now, register_meaning, setting_parts, text_meaning, width_meaning};

use crate::names::Valued;
use crate::numbers::{read_between, read_number, without_scale};
use crate::plain::{Change, Device, Faces, Kind};
use crate::usage::Case;
use nr_options::Limit;

/// The most cells of a line.
const MOST_CELLS: u64 = 9_999;

/// The greatest number of a page.
const LAST_PAGE: u64 = 2_147_483_647;

/// The most bytes that are held of a table, or of its row.
const MOST_HELD: u64 = 1_048_576;

/// The least number that a row's limit may be.
const LEAST_ROW: u64 = 64;

/// What a word names by a text.
#[derive(Clone, Copy)]
pub(crate) enum Which {
    /// The folder of the macro files.
    Folder,
    /// The coding of the texts.
    Coding,
    /// The pages to print.
    Pages,
    /// The folder that `.so` may read of.
    Within,
}

/// What one option asks for.
#[derive(Clone, Copy)]
pub(crate) enum Ask<'a> {
    /// Nothing: it changes nothing on a terminal.
    Nothing,
    /// One thing set.
    Change(Change),
    /// A limit, and its number.
    Limit(Limit, u64),
    /// One more macro file, by its name.
    Macros(&'a str),
    /// Something by a text.
    Named(Which, &'a str),
    /// A register or a string, by its name, and what it is set to.
    Sets(Kind, &'a [u8], &'a [u8]),
}

/// What an option with this value asks for.
pub(crate) fn read_value(valued: Valued, value: &str) -> Result<Ask<'_>, Case>
    ensures { meant result ≡ meaning valued value.now }
{
    if value.is_empty() {
        return Err(Case::BadValue);
    }
    match read_some(valued, value) {
        Some(ask) => Ok(ask),
        None => Err(Case::BadValue),
    }
}

/// The same of a value that has bytes. None where it is no value of this option.
fn read_some(valued: Valued, value: &str) -> Option<Ask<'_>>
    ensures { option_map meaning_of result ≡ meaning_of_some valued value.now }
{
    match valued {
        Valued::Macros => Some(Ask::Macros(value)),
        Valued::Folder => Some(Ask::Named(Which::Folder, value)),
        Valued::Coding => Some(Ask::Named(Which::Coding, value)),
        Valued::Pages => Some(Ask::Named(Which::Pages, value)),
        Valued::Within => Some(Ask::Named(Which::Within, value)),
        Valued::Register => read_register(value),
        Valued::Text => read_text(value),
        Valued::Limit => read_limit(value.as_bytes()),
        Valued::Passed => Some(Ask::Nothing),
        Valued::Output => Some(read_output(value.as_bytes())),
        Valued::Device | Valued::Faces | Valued::First | Valued::Width | Valued::Cells => {
            let change = read_change(valued, value.as_bytes())?;
            Some(Ask::Change(change))
        }
    }
}

/// What an option sets that sets one thing.
fn read_change(valued: Valued, value: &[u8]) -> Option<Change>
    ensures { result ≡ change_meaning valued value.now }
{
    match valued {
        Valued::Device => Some(Change::Device(device_named(value)?)),
        Valued::Faces => Some(Change::Faces(faces_named(value)?)),
        Valued::First => Some(Change::First(read_between(value, 0, LAST_PAGE)?)),
        Valued::Width => read_width(value),
        Valued::Cells => Some(Change::Width(read_between(value, 1, MOST_CELLS)?)),
        _ => None,
    }
}

/// What pages are printed in, by its name.
fn device_named(name: &[u8]) -> Option<Device>
    ensures { result ≡ device_named name.now }
{
    if name == b"utf8".as_slice() {
        Some(Device::Utf8)
    } else if name == b"latin1".as_slice() {
        Some(Device::Latin1)
    } else if name == b"ascii".as_slice() {
        Some(Device::Ascii)
    } else {
        None
    }
}

/// How bold and underlined text goes out, by its name.
fn faces_named(name: &[u8]) -> Option<Faces>
    ensures { result ≡ faces_named name.now }
{
    if name == b"auto".as_slice() {
        Some(Faces::Auto)
    } else if name == b"on".as_slice() {
        Some(Faces::On)
    } else if name == b"off".as_slice() {
        Some(Faces::Off)
    } else if name == b"none".as_slice() {
        Some(Faces::None)
    } else {
        None
    }
}

/// `-w`: a number is the cells of a line, and a name a warning.
fn read_width(value: &[u8]) -> Option<Change>
    ensures { result ≡ width_meaning value.now }
{
    match value.first() {
        Some(b'0'..=b'9') => Some(Change::Width(read_between(value, 1, MOST_CELLS)?)),
        _ => Some(Change::Warns),
    }
}

/// `-P`: what groff gives the program that prints. `c` strikes over.
fn read_output(value: &[u8]) -> Ask<'_>
    ensures { meaning_of result ≡ output_meaning value.now }
{
    if value.contains(&b'c') {
        Ask::Change(Change::Faces(Faces::Off))
    } else {
        Ask::Nothing
    }
}

/// `-LxN`, by its letter.
fn read_limit(value: &[u8]) -> Option<Ask<'_>>
    ensures { option_map meaning_of result ≡ limit_meaning value.now }
{
    let (letter, digits) = value.split_first()?;
    let number = read_number(digits)?;
    match *letter {
        b's' => Some(Ask::Limit(Limit::Stored, number)),
        b'd' => Some(Ask::Limit(Limit::Depth, number)),
        b'p' => Some(Ask::Limit(Limit::Cells, number)),
        b'x' => Some(Ask::Limit(Limit::Expansions, number)),
        b'm' => Some(Ask::Limit(Limit::Moves, number)),
        b't' if 1 <= number && number <= MOST_HELD => Some(Ask::Change(Change::Formats(number))),
        b'r' if LEAST_ROW <= number && number <= MOST_HELD => {
            Some(Ask::Change(Change::Row(number)))
        }
        _ => None,
    }
}

/// A register: the length of lines (`LL`, `L`) is their width, that of titles (`LT`) is the same.
fn read_register(value: &str) -> Option<Ask<'_>>
    ensures { option_map meaning_of result ≡ register_meaning value.now }
{
    let (name, expression) = setting_parts(value)?;
    if expression.is_empty() {
        return None;
    }
    if name == b"LL".as_slice() || name == b"L".as_slice() {
        let cells = read_between(without_scale(expression), 1, MOST_CELLS)?;
        return Some(Ask::Change(Change::Width(cells)));
    }
    if name == b"LT".as_slice() {
        return Some(Ask::Nothing);
    }
    Some(Ask::Sets(Kind::Register, name, expression))
}

/// A string.
fn read_text(value: &str) -> Option<Ask<'_>>
    ensures { option_map meaning_of result ≡ text_meaning value.now }
{
    let (name, text) = setting_parts(value)?;
    Some(Ask::Sets(Kind::Text, name, text))
}

/// The name and what it is set to: before and after the first `=`, or else the first byte and the rest. None where
/// a byte of the name is none of `!` to `~`, and where there is a newline.
fn setting_parts(value: &str) -> Option<(&[u8], &[u8])>
    ensures { option_map parts_now result ≡ setting_parts value.now }
{
    let (name, text) = match at_equals(value) {
        Some((name, text)) => (name.as_bytes(), text.as_bytes()),
        None => first_byte(value.as_bytes()),
    };
    if is_name(name) && !text.contains(&b'\n') {
        Some((name, text))
    } else {
        None
    }
}

/// The first byte, and the rest.
fn first_byte(bytes: &[u8]) -> (&[u8], &[u8])
    ensures { parts_now result ≡ (take 1 bytes.now, drop 1 bytes.now) }
{
    if bytes.is_empty() {
        (bytes, bytes)
    } else {
        (&bytes[..1], &bytes[1..])
    }
}

/// What stands before the first `=` and after it.
pub(crate) fn at_equals(text: &str) -> Option<(&str, &str)>
    ensures { option_map parts_now result ≡ at_equals text.now }
{
    text.split_once('=')
}

/// Whether it is a name: one byte or more, all of them `!` to `~`.
fn is_name(bytes: &[u8]) -> bool
    ensures { result ≡ is_name bytes.now }
{
    if bytes.is_empty() {
        return false;
    }
    for byte in bytes {
        if *byte < b'!' || *byte > b'~' {
            return false;
        }
    }
    true
}
