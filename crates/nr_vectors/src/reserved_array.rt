//! An array on the heap, whose memory is taken once, and that gives nobody its allocator.
ghost use Rattle.std.specs.Prelude.{◌≡◌, ◌+◌, ◌<◌, length, replicate, slice_set, IfOk};

use crate::counted_alloc::CountedAlloc;
use std::alloc::AllocError;
use std::marker::Model;

/// Numbers, as many as at first, in memory that `new` takes and no other call does. It has no call that gives its allocator,
/// so whatever holds numbers in it can't take memory by it.
///
/// Clauses see the list of the numbers.
///
/// Proved: An array whose memory is taken once has as many numbers after every call, and no call gives its allocator.
#[derive(Drop)]
pub struct ReservedArray<const N: usize> {
    numbers: Box<[usize; N]>,
}

impl<const N: usize> Model for ReservedArray<N> {
    ghost use Rattle.std.specs.Prelude.{ℕ, ◌≡◌, List, length};

    ghost Value = { List ℕ };

    ghost view = { λ a. a.numbers.value };

    ghost invariant = { λ a. length a.numbers.value ≡ N };
}

impl<const N: usize> ReservedArray<N> {
    /// These numbers: `AllocError` where there is no memory for them.
    pub fn new(
        alloc: &mut CountedAlloc,
        numbers: [usize; N],
    ) -> Result<ReservedArray<N>, AllocError>
        ensures same { IfOk result (λ made. made ≡ numbers.entry) }
        ensures taken { IfOk result (λ made. alloc.new ≡ alloc.old + N) }
    {
        let numbers = alloc.boxed(numbers)?;
        Ok(ReservedArray { numbers })
    }

    /// All of them.
    #[inline(always)]
    pub fn as_array(&self) -> &[usize; N]
        ensures { result.now ≡ self.now }
    {
        &self.numbers
    }

    /// Puts a number at a place.
    #[inline(always)]
    pub fn set(&mut self, place: usize, number: usize)
        requires within { place < N }
        requires few { place < 65536 }
        ensures { self.new ≡ slice_set self.old place number }
    {
        self.numbers[place] = number;
    }

    /// Takes the numbers of another array.
    pub fn copy_from(&mut self, other: &ReservedArray<N>)
        ensures { self.new ≡ other.now }
    {
        *self.numbers = *other.numbers;
    }

    /// Puts a number at each place.
    pub fn fill(&mut self, number: usize)
        ensures { self.new ≡ replicate N number }
    {
        *self.numbers = [number; N];
    }
}
