//! A source that reads ahead, so that many bytes are at hand.
ghost use Rattle.std.specs.Prelude.{◌≡◌, ◌<◌, ◌≤◌, length, true};
ghost use Rattle.document_stages.specs.Joined.{joined};
ghost use Rattle.document_stages.specs.Pulling.{Stays};

use super::counted::Lines;
use nr_units::source::{Fault, Source, next_count};
use nr_vectors::slice_vec::SliceVec;

/// Where bytes wait that were read ahead, and their lines: places for as many. What these hold is of no account.
#[derive(Drop)]
pub struct Ahead<'a> {
    /// The bytes.
    pub bytes: &'a mut [u8],
    /// The line of each.
    pub lines: &'a mut [u64],
}

/// A source that takes of another as many bytes as there is room for, and has them at hand. It stops where that one ends or
/// fails. It knows the line of each byte.
#[derive(Drop)]
pub struct Gathered<'a, R> {
    input: R,
    held: SliceVec<'a, u8>,
    // The lines of these bytes.
    lines: SliceVec<'a, u64>,
    // How many of them were given.
    at: usize,
    // The line of the byte that came before them.
    line: u64,
    failed: u64,
}

/// Takes some of the bytes that come next, or none at the end and where the source fails. Tells whether some came.
fn take_some<R: Source>(input: &mut R, held: &mut SliceVec<'_, u8>) -> bool
    requires room { length held.old.items < held.old.capacity }
    ensures came { Stays (joined held.old.items (R.supply input.old)) (joined held.new.items (R.supply input.new)) }
    ensures more { result ≡ true → length held.old.items < length held.new.items }
    ensures room { held.new.capacity ≡ held.old.capacity }
{
    let window = input.window();
    let count = window.len().min(held.capacity() - held.len());
    if count > 0 {
        held.extend(&window[..count]);
        input.skip(count);
        return true;
    }
    match input.next() {
        Ok(Some(byte)) => {
            held.push(byte);
            true
        }
        _ => false,
    }
}

/// The bytes that came now are of this line: so many are held.
fn note(lines: &mut SliceVec<'_, u64>, line: u64, len: usize) {
    let count = len.min(lines.capacity()).saturating_sub(lines.len());
    lines.extend_copies(line, count);
}

/// Takes bytes as long as there is room and some come.
fn gather<R: Source + Lines>(
    input: &mut R,
    held: &mut SliceVec<'_, u8>,
    lines: &mut SliceVec<'_, u64>,
)
    ensures came { Stays (R.supply input.old) (joined held.new.items (R.supply input.new)) }
{
    held.clear();
    lines.clear();
    while !held.is_full() {
        if !take_some(input, held) {
            return;
        }
        note(lines, input.line(), held.len());
    }
}

impl<'a, R: Source + Lines> Gathered<'a, R> {
    /// Nothing was taken yet.
    ///
    /// Proved: A source that reads ahead gives what the other does, and fails where it does.
    pub fn over(input: R, ahead: Ahead<'a>) -> Self
        ensures supply { ⟦<Gathered<'a, R> as Source>⟧.supply result ≡ R.supply input }
        ensures failures { ⟦<Gathered<'a, R> as Source>⟧.failures result ≡ 0 }
    {
        let Ahead { bytes, lines } = ahead;
        Gathered {
            input,
            held: SliceVec::over(bytes),
            lines: SliceVec::over(lines),
            at: 0,
            line: 0,
            failed: 0,
        }
    }
}

impl<'a, R: Source + Lines> Lines for Gathered<'a, R> {
    fn line(&self) -> u64 {
        let lines = self.lines.as_slice();
        if self.at == 0 || self.at > lines.len() {
            return self.line;
        }
        lines[self.at - 1]
    }
}

impl<'a, R: Source + Lines> Source for Gathered<'a, R> {
    ghost use Rattle.std.specs.Prelude.{drop};
    ghost use Rattle.document_stages.specs.Joined.{joined};

    ghost supply = { λ s. joined (drop s.at s.held.items) (R.supply s.input) };

    ghost at_hand = { λ s. drop s.at s.held.items };

    ghost failures = { λ s. s.failed };

    fn next(&mut self) -> Result<Option<u8>, Fault> {
        if self.at < self.held.len() {
            let byte = self.held.get(self.at);
            self.at += 1;
            return Ok(Some(byte));
        }
        match self.input.next() {
            Ok(Some(byte)) => {
                self.line = self.input.line();
                self.at = 0;
                gather(&mut self.input, &mut self.held, &mut self.lines);
                Ok(Some(byte))
            }
            Ok(None) => Ok(None),
            Err(Fault) => {
                self.failed = next_count(self.failed);
                Err(Fault)
            }
        }
    }

    fn window(&self) -> &[u8] {
        let bytes = self.held.as_slice();
        if self.at >= bytes.len() {
            return &[];
        }
        &bytes[self.at..]
    }

    fn skip(&mut self, n: usize) {
        if self.at < self.held.len() {
            self.at += n;
        }
    }
}
