//! The first bytes of an input, without what follows them.
ghost use Rattle.std.specs.Prelude.{◌≡◌, Some, [], true};
ghost use Rattle.nr_machine.specs.FirstBytes.{broken_off};

use nr_units::source::{Fault, Source, next_count};

/// Gives the bytes of a slice, one at a time, and fails after the last of them.
#[derive(Drop)]
pub(crate) struct FirstPart<'a> {
    rest: &'a [u8],
    failures: u64,
}

impl<'a> FirstPart<'a> {
    /// Before the first of these bytes.
    pub(crate) fn of(first: &'a [u8]) -> Self
        ensures { ⟦<FirstPart<'a> as Source>⟧.supply result ≡ Some (broken_off first.now) }
    {
        FirstPart {
            rest: first,
            failures: 0,
        }
    }

    /// Whether all bytes were given.
    pub(crate) fn is_over(&self) -> bool
        ensures { result ≡ true → ⟦<FirstPart<'a> as Source>⟧.supply self.now ≡ Some (broken_off []) }
    {
        self.rest.is_empty()
    }
}

impl Source for FirstPart<'_> {
    ghost use Rattle.std.specs.Prelude.{Some, []};
    ghost use Rattle.nr_machine.specs.FirstBytes.{broken_off};

    ghost supply = { λ s. Some (broken_off s.rest.now) };

    ghost at_hand = { λ s. [] };

    ghost failures = { λ s. s.failures };

    fn next(&mut self) -> Result<Option<u8>, Fault> {
        match self.rest.split_first() {
            None => {
                self.failures = next_count(self.failures);
                Err(Fault)
            }
            Some((byte, rest)) => {
                self.rest = rest;
                Ok(Some(*byte))
            }
        }
    }

    fn window(&self) -> &[u8] {
        &[]
    }

    fn skip(&mut self, _n: usize) {}
}
