//! Bytes at hand, and then what a source gives.
ghost use Rattle.std.specs.Prelude.{◌≡◌, Some};
ghost use Rattle.nr_units.specs.Source.{Supply};
ghost use Rattle.document_stages.specs.Joined.{Begins, joined};

use nr_units::source::{Fault, Source, next_count};

/// The bytes of a slice, and then those of a source.
#[derive(Drop)]
pub struct Joined<'a, S> {
    first: &'a [u8],
    second: S,
    failed: u64,
}

impl<'a, S: Source> Joined<'a, S> {
    /// These bytes, and then those of this source.
    ///
    /// Proved: Bytes before a source come first, and it fails as many bytes later.
    pub fn over(first: &'a [u8], second: S) -> Self
        ensures supply { ⟦<Joined<'a, S> as Source>⟧.supply result ≡ joined first.now (S.supply second) }
        ensures failures { ⟦<Joined<'a, S> as Source>⟧.failures result ≡ 0 }
    {
        Joined {
            first,
            second,
            failed: 0,
        }
    }

    /// The bytes of the slice that were not given yet.
    ///
    /// Proved: What it is to give begins with them.
    pub fn first(&self) -> &'a [u8]
        ensures { Begins (⟦<Joined<'a, S> as Source>⟧.supply self.now) result.now }
    {
        self.first
    }

    /// The source.
    pub fn second(&self) -> &S {
        &self.second
    }
}

impl<'a, S: Source> Source for Joined<'a, S> {
    ghost use Rattle.document_stages.specs.Joined.{joined, first_at_hand};

    ghost supply = { λ s. joined s.first.now (S.supply s.second) };

    ghost at_hand = { λ s. first_at_hand s.first.now (S.at_hand s.second) };

    ghost failures = { λ s. s.failed };

    fn next(&mut self) -> Result<Option<u8>, Fault> {
        if let Some((byte, rest)) = self.first.split_first() {
            self.first = rest;
            return Ok(Some(*byte));
        }
        match self.second.next() {
            Ok(byte) => Ok(byte),
            Err(Fault) => {
                self.failed = next_count(self.failed);
                Err(Fault)
            }
        }
    }

    fn window(&self) -> &[u8] {
        if self.first.is_empty() {
            self.second.window()
        } else {
            self.first
        }
    }

    fn skip(&mut self, n: usize) {
        if self.first.is_empty() {
            self.second.skip(n);
        } else {
            self.first = &self.first[n..];
        }
    }
}
