//! What a source gives, a line at a time, with its lines counted.
ghost use Rattle.std.specs.Prelude.{◌≡◌, ◌≤◌, length, take};
ghost use Rattle.document_stages.specs.Counted.{line_len};

use nr_units::source::{Fault, Source};

/// What knows the line of a page that the byte given last came of.
pub trait Lines {
    /// Its number, from 1 on; 0 where none was given.
    fn line(&self) -> u64;
}

/// A source that has no more at hand than the rest of a line. It counts the newlines that it gives.
#[derive(Drop)]
pub struct Counted<R> {
    input: R,
    newlines: u64,
    open: bool,
    // How many bytes of the line are at hand at most.
    left: usize,
}

/// How many bytes the first line has, with its newline.
fn line_len(bytes: &[u8]) -> usize
    ensures value { result ≡ line_len bytes.now }
    ensures within { result ≤ length bytes.now }
{
    for i in 0..bytes.len() {
        if bytes[i] == b'\n' {
            return i + 1;
        }
    }
    bytes.len()
}

impl<R: Source> Counted<R> {
    /// No line came yet.
    pub fn over(input: R) -> Self
        ensures supply { ⟦<Counted<R> as Source>⟧.supply result ≡ R.supply input }
        ensures failures { ⟦<Counted<R> as Source>⟧.failures result ≡ R.failures input }
    {
        Counted {
            input,
            newlines: 0,
            open: false,
            left: 0,
        }
    }

    /// A byte was given.
    fn counts(&mut self, byte: u8)
        ensures input { self.new.input ≡ self.old.input }
        ensures left { self.new.left ≡ self.old.left }
    {
        if byte == b'\n' {
            self.newlines = self.newlines.saturating_add(1);
            self.open = false;
        } else {
            self.open = true;
        }
    }
}

impl<R: Source> Lines for Counted<R> {
    fn line(&self) -> u64 {
        if self.open {
            self.newlines.saturating_add(1)
        } else {
            self.newlines
        }
    }
}

impl<R: Source> Source for Counted<R> {
    ghost use Rattle.std.specs.Prelude.{take};

    ghost supply = { λ s. R.supply s.input };

    ghost at_hand = { λ s. take s.left (R.at_hand s.input) };

    ghost failures = { λ s. R.failures s.input };

    fn next(&mut self) -> Result<Option<u8>, Fault> {
        let next = self.input.next()?;
        if let Some(byte) = next {
            self.counts(byte);
        }
        self.left = line_len(self.input.window());
        Ok(next)
    }

    fn window(&self) -> &[u8] {
        let window = self.input.window();
        &window[..self.left.min(window.len())]
    }

    fn skip(&mut self, n: usize) {
        if n > 0 {
            let last = self.input.window()[n - 1];
            self.counts(last);
            self.left -= n;
        }
        self.input.skip(n);
    }
}
