//! Where bytes come from.
ghost use Rattle.std.specs.Prelude.{◌≡◌, ℕ, ◌≤◌, List, Option, length};
ghost use Rattle.nr_units.specs.Failures.{counted, next_count};
ghost use Rattle.nr_units.specs.Source.{Supply, Gives, Offers, Skips};

/// A read or a write failed.
#[derive(Clone, Copy, Debug, PartialEq, Eq)]
pub struct Fault;

/// The count of failed calls once one more has failed: after `u64::MAX` comes 0, and no count is its
/// own next one.
#[inline]
#[tactic(auto, unfolding(crate::specs::Failures::next_count))]
pub fn next_count(failures: u64) -> u64
    ensures { result ≡ next_count failures }
{
    failures.wrapping_add(1)
}

/// Gives bytes, one at a time, and counts the calls that answered an error.
pub trait Source {
    /// What is to come, where it is known.
    ghost supply: { Self → Option Supply };

    /// The bytes that it has at hand.
    ghost at_hand: { Self → List ℕ };

    /// How many calls answered an error.
    ghost failures: { Self → ℕ };

    /// The next byte, or `None` at the end. An error takes no byte, and the call may be made again.
    ///
    /// Proved: A source gives its bytes in order, an error takes none of them, and each error is counted.
    fn next(&mut self) -> Result<Option<u8>, Fault>
        ensures gives { Gives (supply self.old) result (supply self.new) }
        ensures failures { failures self.new ≡ counted (failures self.old) result };

    /// The bytes at hand: they come next. That there is none says nothing of the end.
    ///
    /// Proved: The bytes at hand are those that come next, and to skip some leaves what is to come after them.
    /// (`Source::{window, skip}`)
    fn window(&self) -> &[u8]
        ensures value { result.now ≡ at_hand self.now }
        ensures offers { Offers (supply self.now) result.now };

    /// Takes the first n of the bytes at hand, as n calls of `next` would.
    fn skip(&mut self, n: usize)
        requires { n ≤ length (at_hand self.old) }
        ensures skips { Skips (supply self.old) n (supply self.new) }
        ensures failures { failures self.new ≡ failures self.old };
}

impl<S: Source> Source for &mut S {
    ghost supply = { λ s. S.supply s.now };

    ghost at_hand = { λ s. S.at_hand s.now };

    ghost failures = { λ s. S.failures s.now };

    fn next(&mut self) -> Result<Option<u8>, Fault> {
        Source::next(&mut **self)
    }

    #[inline]
    fn window(&self) -> &[u8] {
        S::window(&**self)
    }

    #[inline]
    fn skip(&mut self, n: usize) {
        S::skip(&mut **self, n)
    }
}
