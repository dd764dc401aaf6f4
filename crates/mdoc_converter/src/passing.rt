//! Pages that go out as they are.
ghost use Rattle.std.specs.Prelude.{◌≡◌, IsTrue};
ghost use Rattle.mdoc_converter.specs.Passing as specs;
ghost use Rattle.mdoc_converter.specs.Reading.{converted};

use super::scan::{given_up, passes_to, prefix_grows};
use mdoc_layout::{Prefix, Scan};
use mdoc_words::ends_word;

/// Where a byte leads that goes on no `.Dd`: nowhere, if it ends one.
fn leads_after(prefix: Prefix, lines: u8, byte: u8) -> Option<Scan>
    ensures { result ≡ specs.leads_after prefix lines byte }
{
    match prefix {
        Prefix::Whole if ends_word(byte) => None,
        _ => Some(passes_to(given_up(prefix), lines, byte)),
    }
}

/// Where a byte leads before a page is known to be one of mdoc.
fn leads_from(scan: Scan, byte: u8) -> Option<Scan>
    ensures { result ≡ specs.leads_from scan byte }
{
    match scan {
        Scan::Asleep(prefix, lines) => match prefix_grows(prefix, byte) {
            Some(more) => Some(Scan::Asleep(more, lines)),
            None => leads_after(prefix, lines, byte),
        },
        _ => Some(scan),
    }
}

/// The same, where the bytes before led somewhere.
fn leads(scan: Option<Scan>, byte: u8) -> Option<Scan>
    ensures { result ≡ specs.leads scan byte }
{
    match scan {
        Some(scan) => leads_from(scan, byte),
        None => None,
    }
}

/// Whether none of the first 64 lines of a text that are neither empty nor comments begins with `.Dd`. Such a text is what `convert` makes of it.
///
/// Proved: A text goes out as it is where none of its first 64 lines that are neither empty nor comments begins with
/// `.Dd` and a blank, a tab or its end.
pub fn passes_unchanged(text: &[u8]) -> bool
    ensures value { result ≡ specs.is_other text.now }
    ensures law { IsTrue result → converted text.now ≡ text.now }
{
    let mut scan = Some(Scan::Asleep(Prefix::Nothing, 0));
    for byte in text {
        scan = leads(scan, *byte);
    }
    scan.is_some()
}
