//! Bytes in the midst of a macro's argument.
ghost use Rattle.std.specs.Prelude.{◌≡◌, ◌↔◌, ◌≤◌, ◌<◌, All, IsTrue, length, take, slice_index};
ghost use Rattle.nr_reading.specs.Many.InArgument.{is_in_argument, ending_of, IsPlain};

use crate::half::Half;
use crate::mode::{Escape, Mode, PendingAct};

// Whether a byte stands for itself in an argument of this ending.
#[inline(always)]
fn is_plain(ending: u8, byte: u8) -> bool
    ensures { IsTrue result ↔ IsPlain ending byte }
{
    byte != ending && byte != b'\n' && byte != b'\\'
}

// How many bytes there are before the first that is not plain.
#[inline]
pub(crate) fn plain_count(ending: u8, bytes: &[u8]) -> usize
    ensures prefix { result ≤ length bytes.now }
    ensures plain { All (IsPlain ending) (take result bytes.now) }
    ensures stops { result < length bytes.now → ¬ IsPlain ending (slice_index bytes.now result) }
{
    let mut count = 0;
    for byte in bytes {
        if !is_plain(ending, *byte) {
            return count;
        }
        count += 1;
    }
    count
}

impl Half {
    /// Whether the next item is read in the midst of an argument, after no part of an escape.
    #[inline]
    pub fn is_in_argument(&self) -> bool
        ensures { result ≡ is_in_argument self.now }
    {
        matches!(self.reading.mode, Mode::Word | Mode::Quoted) && self.reads_next()
    }

    /// How many of these bytes stand for themselves there, before the first that does not.
    #[inline]
    pub fn plain_bytes(&self, bytes: &[u8]) -> usize
        ensures prefix { result ≤ length bytes.now }
        ensures plain { All (IsPlain (ending_of self.now.reading.mode)) (take result bytes.now) }
        ensures stops { result < length bytes.now
            → ¬ IsPlain (ending_of self.now.reading.mode) (slice_index bytes.now result) }
    {
        let ending = match self.reading.mode {
            Mode::Quoted => b'"',
            Mode::StringText | Mode::Body => b'\n',
            _ => b' ',
        };
        plain_count(ending, bytes)
    }
}
