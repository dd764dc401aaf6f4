//! Macros that a page defines: their names are kept, and their lines pass.
ghost use Rattle.std.specs.Prelude.{◌≡◌, ◌≤◌};
ghost use Rattle.mdoc_layout.specs.Seeing.{offered};
ghost use Rattle.mdoc_converter.specs.Definitions as specs;

use mdoc_layout::{Act, Dots, Page, Scan, Seen};
use mdoc_words::turns;
use nr_units::Name;

/// So many bytes of names are kept, two of each.
const MOST_OWN: usize = 8;

/// Whether a name stands at this place of names, two bytes after one another.
fn is_at(names: &[u8], at: usize, first: u8, second: u8) -> bool
    requires { at ≤ 6 }
    ensures { result ≡ specs.is_at names.now at first second }
{
    at + 1 < names.len() && names[at] == first && names[at + 1] == second
}

/// Whether one of four names is this one.
fn has_name(names: &[u8], first: u8, second: u8) -> bool
    ensures { result ≡ specs.has_name names.now first second }
{
    is_at(names, 0, first, second)
        || is_at(names, 2, first, second)
        || is_at(names, 4, first, second)
        || is_at(names, 6, first, second)
}

/// Whether a name that begins so is one that requests don't have.
fn is_capital(first: u8) -> bool
    ensures { result ≡ specs.is_capital first }
{
    matches!(first, b'A'..=b'Z')
}

/// Whether the page has defined the macro whose name is the word.
pub(crate) fn is_own(page: &Page) -> bool
    ensures { result ≡ specs.is_own page.now }
{
    match page.word.as_bytes() {
        [first, second] => has_name(page.own.as_bytes(), *first, *second),
        _ => false,
    }
}

/// The word is kept where it may be the name of a macro: two bytes, a capital letter first.
fn keep_own(page: &mut Page)
    ensures { page.new ≡ specs.keep_own page.old }
{
    let word = page.word;
    if let [first, second] = word.as_bytes() {
        let is_new = !has_name(page.own.as_bytes(), *first, *second);
        if is_capital(*first) && page.own.len() < MOST_OWN && is_new {
            page.own.push(*first);
            page.own.push(*second);
        }
    }
}

/// In the line that begins a definition.
pub(crate) fn in_definition(page: &mut Page, byte: u8) -> Seen
    ensures { offered page.new result ≡ specs.in_definition byte page.old }
{
    match byte {
        b' ' | b'\t' => {
            keep_own(page);
            page.word = Name::new();
            Seen::taken(Act::Byte(byte))
        }
        b'\n' => {
            keep_own(page);
            turns(
                page,
                Scan::Ignored(Dots::Start),
                Seen::taken(Act::Byte(byte)),
            )
        }
        _ => {
            if !page.word.is_full() {
                page.word.push(byte);
            }
            Seen::taken(Act::Byte(byte))
        }
    }
}
