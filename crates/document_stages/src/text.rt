//! A source over a slice, no call of which fails.
ghost use Rattle.std.specs.Prelude.{◌≡◌, Some};
ghost use Rattle.document_stages.specs.Pulling.{whole};

use nr_units::source::{Fault, Source};

/// The bytes of a slice that are to come.
#[derive(Drop)]
pub struct Text<'a> {
    rest: &'a [u8],
}

impl<'a> Text<'a> {
    /// All of the slice.
    pub fn over(bytes: &'a [u8]) -> Self
        ensures supply { ⟦<Text<'a> as Source>⟧.supply result ≡ Some (whole bytes.now) }
        ensures failures { ⟦<Text<'a> as Source>⟧.failures result ≡ 0 }
    {
        Text { rest: bytes }
    }
}

impl Source for Text<'_> {
    ghost use Rattle.std.specs.Prelude.{Some};
    ghost use Rattle.document_stages.specs.Pulling.{whole};

    ghost supply = { λ s. Some (whole s.rest.now) };

    ghost at_hand = { λ s. s.rest.now };

    ghost failures = { λ s. 0 };

    fn next(&mut self) -> Result<Option<u8>, Fault> {
        match self.rest.split_first() {
            None => Ok(None),
            Some((byte, rest)) => {
                self.rest = rest;
                Ok(Some(*byte))
            }
        }
    }

    fn window(&self) -> &[u8] {
        self.rest
    }

    fn skip(&mut self, n: usize) {
        self.rest = &self.rest[n..];
    }
}
