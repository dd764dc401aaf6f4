//! Where memory comes from.
ghost use Rattle.std.specs.Prelude.{◌≡◌, ℕ, List, [], ◌∷◌, Option, IfOk, vec_len, vec_capacity};
ghost use Rattle.nr_units.specs.Failures.{counted};
ghost use Rattle.nr_command.specs.Memory.{Taking, Bytes, Room, DeskUnder};
ghost use Rattle.nr_command.specs.Opening.{Asks};

use nr_engine::{CountedAlloc, Desk, Limits};
use nr_units::source::next_count;
use std::alloc::{AllocError, Global};

/// Gives memory, and counts the calls that were refused.
pub trait Memory {
    /// How many calls were refused.
    ghost refusals: { Self → ℕ };

    /// What it was asked for, in that order, where that is known.
    ghost asked: { Self → Option (List Taking) };

    /// So many bytes.
    fn bytes(&mut self, len: usize) -> Result<Vec<u8>, AllocError>
        ensures len { IfOk result (λ bytes. vec_len bytes ≡ len) }
        ensures asked { Asks (asked self.old) (asked self.new) (Bytes len ∷ []) }
        ensures refusals { refusals self.new ≡ counted (refusals self.old) result };

    /// An empty vector with room for so many values, and no more.
    fn room<T>(&mut self, count: usize) -> Result<Vec<T>, AllocError>
        ensures empty { IfOk result (λ room. room.items ≡ []) }
        ensures wide { IfOk result (λ room. vec_capacity room ≡ count) }
        ensures asked { Asks (asked self.old) (asked self.new) (Room count ∷ []) }
        ensures refusals { refusals self.new ≡ counted (refusals self.old) result };

    /// A desk for runs under these limits.
    fn desk(&mut self, limits: Limits) -> Result<Desk, AllocError>
        ensures limits { IfOk result (λ desk. desk ≡ limits) }
        ensures asked { Asks (asked self.old) (asked self.new) (DeskUnder limits ∷ []) }
        ensures refusals { refusals self.new ≡ counted (refusals self.old) result };
}

/// The memory of the system.
#[derive(Drop)]
pub struct Heap {
    alloc: Global,
    refusals: u64,
}

impl Heap {
    /// No call was refused yet.
    pub fn new(alloc: Global) -> Self
        ensures { ⟦<Heap as Memory>⟧.refusals result ≡ 0 }
    {
        Heap { alloc, refusals: 0 }
    }
}

/// What was taken, and one refusal more where it was refused.
pub(crate) fn counted<T>(refusals: &mut u64, taken: Result<T, AllocError>) -> Result<T, AllocError>
    ensures same { result ≡ taken }
    ensures refusals { refusals.new ≡ counted refusals.old taken }
{
    if taken.is_err() {
        *refusals = next_count(*refusals);
    }
    taken
}

impl Memory for Heap {
    ghost use Rattle.std.specs.Prelude.{None};

    ghost refusals = { λ heap. heap.refusals };

    ghost asked = { λ heap. None };

    fn bytes(&mut self, len: usize) -> Result<Vec<u8>, AllocError> {
        let taken = vec![in self.alloc; 0u8; len];
        counted(&mut self.refusals, taken)
    }

    fn room<T>(&mut self, count: usize) -> Result<Vec<T>, AllocError> {
        let taken = Vec::with_capacity(self.alloc, count);
        counted(&mut self.refusals, taken)
    }

    fn desk(&mut self, limits: Limits) -> Result<Desk, AllocError> {
        let taken = Desk::new(&mut CountedAlloc::new(self.alloc), limits);
        counted(&mut self.refusals, taken)
    }
}
