//! Files read one after the other.
ghost use Rattle.std.specs.Prelude.{◌≡◌, map, false};

use nr_units::source::{Fault, Source};

/// Files read one after the other, each to its end, with a newline added after each that is not empty
/// and doesn't end with one. A fault of a file is reported as it comes, and that file is read again at the
/// next call.
pub struct Chain<'a, F> {
    files: &'a mut [F],
    /// The place of the file that is being read.
    at: usize,
    /// The last byte of that file was no newline.
    line_open: bool,
}

impl<F> Drop for Chain<'_, F> {
    fn drop(self) {
        let Chain {
            files: _,
            at: _,
            line_open: _,
        } = self;
    }
}

impl<'a, F: Source> Chain<'a, F> {
    ghost use Rattle.nr_command_options.specs.Chained.{chain_supply, failures_in};

    /// These files from where they stand, none of them begun.
    pub(crate) fn over(files: &'a mut [F]) -> Self
        ensures supply { ⟦<Chain<'a, F> as Source>⟧.supply result ≡ chain_supply 0 false
            (map F.supply files.entry.now) }
        ensures failures { ⟦<Chain<'a, F> as Source>⟧.failures result
            ≡ failures_in F.failures files.entry.now }
    {
        Chain {
            files,
            at: 0,
            line_open: false,
        }
    }
}

impl<'a, F: Source> Source for Chain<'a, F> {
    ghost use Rattle.std.specs.Prelude.{map};
    ghost use Rattle.nr_command_options.specs.Chained.{chain_supply, hand_at, failures_in};

    ghost supply = { λ s. chain_supply s.at s.line_open (map F.supply s.files.now) };

    ghost at_hand = { λ s. hand_at s.at (map F.at_hand s.files.now) };

    ghost failures = { λ s. failures_in F.failures s.files.now };

    #[inline]
    fn next(&mut self) -> Result<Option<u8>, Fault> {
        while self.at < self.files.len() {
            match self.files[self.at].next() {
                Ok(Some(byte)) => {
                    self.line_open = byte != b'\n';
                    return Ok(Some(byte));
                }
                Ok(None) => {
                    self.at += 1;
                    if self.line_open {
                        self.line_open = false;
                        return Ok(Some(b'\n'));
                    }
                }
                Err(fault) => return Err(fault),
            }
        }
        Ok(None)
    }

    #[inline]
    fn window(&self) -> &[u8] {
        let files = &*self.files;
        match files.get(self.at) {
            Some(file) => file.window(),
            None => &[],
        }
    }

    #[inline]
    fn skip(&mut self, n: usize) {
        if n == 0 {
            return;
        }
        let file = &mut self.files[self.at];
        self.line_open = file.window()[n - 1] != b'\n';
        file.skip(n);
    }
}
