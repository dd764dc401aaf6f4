//! The allocator, and a count of what was taken from it.
ghost use Rattle.std.specs.Prelude.{◌≡◌, ◌+◌, [], IfOk, OnErr, vec_capacity};

use std::alloc::{AllocError, Global};
use std::marker::Model;

/// The system's allocator, and how much was taken from it. It gives the allocator to nobody, so what is lent this and has no
/// other takes no memory that isn't counted.
///
/// Clauses see the count: of elements, those of all vectors and boxes together. What is given back stays counted.
#[derive(Drop)]
pub struct CountedAlloc {
    alloc: Global,
    taken: usize,
}

impl Model for CountedAlloc {
    ghost use Rattle.std.specs.Prelude.{ℕ};

    ghost Value = { ℕ };

    ghost view = { λ a. a.taken };
}

impl CountedAlloc {
    /// Nothing is taken yet.
    pub fn new(alloc: Global) -> CountedAlloc
        ensures { result ≡ 0 }
    {
        CountedAlloc { alloc, taken: 0 }
    }

    /// An empty vector with memory for so many elements, and no more: `AllocError` where there is none, or where the count would
    /// pass `usize::MAX`.
    ///
    /// Proved: What takes memory takes it from an allocator that counts the elements, and a call that makes a vector,
    /// or what holds vectors, says how many more they are then: those of its rooms. A second vector, kept in a field
    /// that no clause sees or dropped again, would be counted too. (`CountedAlloc::{vector, boxed}`,
    /// `ReservedVec::new` in reserved_vec.rt, `ReservedArray::new` in reserved_array.rt, and each `new` above them up to `Desk::new` in nr_engine/desk.rt)
    pub(crate) fn vector<T>(&mut self, capacity: usize) -> Result<Vec<T>, AllocError>
        ensures empty { IfOk result (λ vector. vector.items ≡ []) }
        ensures exact { IfOk result (λ vector. vec_capacity vector ≡ capacity) }
        ensures taken { IfOk result (λ vector. self.new ≡ self.old + capacity) }
        ensures refused { OnErr result (self.new ≡ self.old) }
    {
        let Some(taken) = self.taken.checked_add(capacity) else {
            return Err(AllocError);
        };
        let vector = Vec::with_capacity(self.alloc, capacity)?;
        self.taken = taken;
        Ok(vector)
    }

    /// These elements on the heap: `AllocError` as above.
    pub(crate) fn boxed<const N: usize>(
        &mut self,
        elements: [usize; N],
    ) -> Result<Box<[usize; N]>, AllocError>
        ensures same { IfOk result (λ boxed. boxed.value ≡ elements.entry) }
        ensures taken { IfOk result (λ boxed. self.new ≡ self.old + N) }
        ensures refused { OnErr result (self.new ≡ self.old) }
    {
        let Some(taken) = self.taken.checked_add(N) else {
            return Err(AllocError);
        };
        let boxed = Box::new(self.alloc, elements)?;
        self.taken = taken;
        Ok(boxed)
    }
}
