//! Bytes at hand that pass, many at once, before a page is known to be one of mdoc.
ghost use Rattle.std.specs.Prelude.{◌≡◌, ◌≤◌, length};
ghost use Rattle.mdoc_converter.specs.AtHand as specs;

use super::pending::Pending;
use super::reader::Reader;
use mdoc_layout::{Prefix, Scan};

/// How many bytes come before the first newline.
fn before_newline(bytes: &[u8]) -> usize
    ensures value { result ≡ specs.before_newline bytes.now }
    ensures few { result ≤ length bytes.now }
{
    for i in 0..bytes.len() {
        if bytes[i] == b'\n' {
            return i;
        }
    }
    bytes.len()
}

/// How many of these bytes pass in a line that is read so.
fn passing_in(scan: Scan, bytes: &[u8]) -> usize
    ensures value { result ≡ specs.passing_in scan bytes.now }
    ensures few { result ≤ length bytes.now }
{
    match scan {
        Scan::Passes => bytes.len(),
        Scan::Asleep(Prefix::Other, _) => before_newline(bytes),
        Scan::Asleep(Prefix::Comment, _) => before_newline(bytes),
        _ => 0,
    }
}

impl Reader {
    /// Whether bytes may pass, many at once.
    #[inline]
    pub(crate) fn may_pass(&self) -> bool
        ensures { result ≡ specs.may_pass self.now.page.scan }
    {
        matches!(
            self.page.scan,
            Scan::Passes | Scan::Asleep(Prefix::Other, _) | Scan::Asleep(Prefix::Comment, _)
        )
    }

    /// How many of these bytes pass: after the lines that are looked at all of them, and before up to a line's end.
    pub(crate) fn passing(&self, bytes: &[u8]) -> usize
        ensures value { result ≡ specs.passing self.now bytes.now }
        ensures few { result ≤ length bytes.now }
    {
        match self.pending {
            Pending::Nothing => passing_in(self.page.scan, bytes),
            _ => 0,
        }
    }
}
