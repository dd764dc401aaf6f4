//! A vector whose memory is taken once, and that gives nobody its allocator.
ghost use Rattle.std.specs.Prelude.{◌≡◌, ◌+◌, ◌-◌, ◌==◌, ◌<◌, ◌≤◌, [], ◌∷◌, ◌++◌, length, take, replicate, slice_index_or, max, IfOk};
ghost use Rattle.std.specs.List.{CopiedTo, SameBelow, SameFrom, copy_within};
ghost use Rattle.std.specs.Borrow.{sem};

use crate::counted_alloc::CountedAlloc;
use std::alloc::AllocError;
use std::marker::Model;
use std::ops::{Index, IndexMut, Range};

/// By how many items a vector becomes longer at least, where it has room for so many.
const STEP: usize = 64;

/// Items, and memory for a number of them, which `new` takes and no other call does. It has no call that gives its allocator,
/// so whatever holds items in it can't take memory by it.
///
/// Clauses see the items and the capacity, the greatest number of items.
///
/// Proved: A vector whose memory is taken once has that memory after every call, and no call gives its allocator.
#[derive(Drop)]
pub struct ReservedVec<T: Copy> {
    items: Vec<T>,
}

impl<T: Copy> Model for ReservedVec<T> {
    ghost use Rattle.std.specs.Prelude.{vec_capacity};
    ghost use Rattle.nr_vectors.specs.Items.{Items};

    ghost Value = { Items T };

    ghost view = { λ v. record { items = v.items.items; capacity = vec_capacity v.items } };
}

impl<T: Copy> ReservedVec<T> {
    ghost use Rattle.nr_vectors.specs.Lends.{lends_slice};

    /// No items, and room for so many: `AllocError` where there is no memory for them.
    pub fn new(alloc: &mut CountedAlloc, capacity: usize) -> Result<ReservedVec<T>, AllocError>
        ensures made { IfOk result (λ made. made ≡ record { items = []; capacity = capacity }) }
        ensures taken { IfOk result (λ made. alloc.new ≡ alloc.old + capacity) }
    {
        let items = alloc.vector(capacity)?;
        Ok(ReservedVec { items })
    }

    /// How many items there is memory for, as its vector tells.
    #[inline]
    pub fn capacity(&self) -> usize
        ensures { result ≡ self.now.capacity }
    {
        self.items.capacity()
    }

    /// The number of items.
    #[inline]
    pub fn len(&self) -> usize
        ensures { result ≡ length self.now.items }
    {
        self.items.len()
    }

    /// Whether there is no item.
    #[inline]
    pub fn is_empty(&self) -> bool
        ensures { result ≡ (length self.now.items == 0) }
    {
        self.items.is_empty()
    }

    /// The items.
    #[inline]
    pub fn as_slice(&self) -> &[T]
        ensures value { result.now ≡ self.now.items }
        ensures len { length result.now ≡ length self.now.items }
    {
        self.items.as_slice()
    }

    /// The items, for writing.
    #[inline]
    pub fn as_mut_slice(&mut self) -> &mut [T]
        ensures* writes_back { sem 𝓛 (lends_slice T.row self.entry result) }
        ensures value { result.now ≡ self.old.items }
        ensures len { length result.now ≡ length self.old.items }
    {
        self.items.as_mut_slice()
    }

    /// Adds an item at the end.
    #[inline]
    pub fn push(&mut self, item: T)
        requires { length self.old.items < self.old.capacity }
        ensures items { self.new.items ≡ self.old.items ++ item ∷ [] }
        ensures room { self.new.capacity ≡ self.old.capacity }
    {
        self.items.push_reserved(item);
    }

    /// Keeps the first n items; all, if there are no more than these.
    #[inline]
    pub fn truncate(&mut self, n: usize)
        ensures items { self.new.items ≡ take n self.old.items }
        ensures room { self.new.capacity ≡ self.old.capacity }
    {
        self.items.truncate(n);
    }

    /// Takes all items away.
    #[inline]
    pub fn clear(&mut self)
        ensures items { self.new.items ≡ [] }
        ensures room { self.new.capacity ≡ self.old.capacity }
    {
        self.items.clear();
    }

    /// Takes copies of these items in place of its own.
    pub fn copy_from(&mut self, items: &[T])
        requires { length items.now ≤ self.old.capacity }
        ensures items { self.new.items ≡ items.now }
        ensures room { self.new.capacity ≡ self.old.capacity }
    {
        self.items.truncate(items.len());
        let (first, more) = items.split_at(self.items.len());
        self.items.as_mut_slice().copy_from_slice(first);
        for item in more {
            self.items.push_reserved(*item);
        }
    }

    /// Copies the items of a range over those that stand from a place on.
    #[inline]
    pub fn copy_within(&mut self, from: Range<usize>, to: usize)
        requires start_le_end { from.start ≤ from.end }
        requires in_bounds { from.end ≤ length self.old.items }
        requires dest_in_bounds { to + (from.end - from.start) ≤ length self.old.items }
        ensures items { self.new.items ≡ copy_within self.old.items from.start from.end to }
        ensures len { length self.new.items ≡ length self.old.items }
        ensures room { self.new.capacity ≡ self.old.capacity }
        ensures by_index { CopiedTo self.old.items self.new.items from.start to (from.end - from.start)
            × SameBelow self.old.items self.new.items to
            × SameFrom self.old.items self.new.items (to + (from.end - from.start)) }
    {
        self.items.copy_within(from, to);
    }

    /// Makes it as long as asked for, by copies of an item after what it has. It becomes 64 items longer at least, where there
    /// is room for them, so that few calls write, and all calls together no more than 64 items beyond what was asked for.
    ///
    /// Proved: A vector is made longer within its capacity, by at most 63 items beyond what is asked for, and its
    /// capacity stays.
    #[inline]
    pub fn lengthen(&mut self, least: usize, item: T)
        requires asked { least ≤ self.old.capacity }
        requires held { length self.old.items ≤ self.old.capacity }
        ensures items { self.new.items ≡ self.old.items
            ++ replicate (length self.new.items - length self.old.items) item }
        ensures longer { length self.old.items ≤ length self.new.items }
        ensures least { least ≤ length self.new.items }
        ensures most { length self.new.items ≤ max (length self.old.items) (least + 63) }
        ensures held { length self.new.items ≤ self.new.capacity }
        ensures room { self.new.capacity ≡ self.old.capacity }
    {
        if least > self.items.len() {
            self.grow(least, item);
        }
    }

    /// The same where it is shorter.
    #[cold]
    fn grow(&mut self, least: usize, item: T)
        requires shorter { length self.old.items < least }
        requires asked { least ≤ self.old.capacity }
        ensures items { self.new.items ≡ self.old.items
            ++ replicate (length self.new.items - length self.old.items) item }
        ensures longer { length self.old.items ≤ length self.new.items }
        ensures least { least ≤ length self.new.items }
        ensures most { length self.new.items ≤ least + 63 }
        ensures held { length self.new.items ≤ self.new.capacity }
        ensures room { self.new.capacity ≡ self.old.capacity }
    {
        let stepped = self.items.len().saturating_add(STEP);
        let longer = least.max(stepped).min(self.items.capacity());
        for _ in self.items.len()..longer {
            self.items.push_reserved(item);
        }
    }
}

impl<T: Copy> Index<usize> for ReservedVec<T> {
    type Output = T;

    ghost can_index = { λ v place. place < length v.items };

    ghost index_gives = { λ v place item. item ≡ slice_index_or v.items place item };

    #[inline]
    fn index(&self, place: usize) -> &T {
        &self.items[place]
    }
}

impl<T: Copy> IndexMut<usize> for ReservedVec<T> {
    ghost use Rattle.nr_vectors.specs.Lends.{lends_item};

    #[inline]
    fn index_mut(&mut self, place: usize) -> &mut T
        requires { place < length self.old.items }
        ensures* writes_back { sem 𝓛 (lends_item T.row self.entry place result) }
        ensures value { result.now ≡ slice_index_or self.old.items place result.now }
    {
        &mut self.items[place]
    }
}
