//! A vector whose capacity is taken once.
ghost use Rattle.std.specs.Prelude.{◌≡◌, ◌+◌, ◌<◌, ◌≤◌, [], ◌∷◌, ◌++◌, length, take, replicate, slice_get, slice_set, Some, IfOk};
ghost use Rattle.std.specs.List.{insert, remove};

use crate::counted_alloc::CountedAlloc;
use crate::reserved_vec::ReservedVec;
use crate::slots;
use std::alloc::AllocError;
use std::marker::Model;

/// Items, and room for a number of them that stays. Memory for all of them is taken by `new`, the only call that allocates,
/// and touched as items come.
///
/// Clauses see the items and the capacity. Each call takes constant time or one move of memory, beside the first touch of
/// memory.
///
/// Proved: Each call of a vector whose capacity is taken once is one equation of lists, and keeps its capacity.
pub struct FixedVec<T: Copy> {
    // The items stand at the beginning. What lies after them is of no account.
    slots: ReservedVec<T>,
    len: usize,
    capacity: usize,
}

// Derived, it would be gone through part by part in the proof of each function that owns such a vector.
impl<T: Copy> Drop for FixedVec<T> {
    fn drop(self) {
        let FixedVec {
            slots: _,
            len: _,
            capacity: _,
        } = self;
    }
}

impl<T: Copy> Model for FixedVec<T> {
    ghost use Rattle.std.specs.Prelude.{◌≡◌, ◌≤◌, length, take};
    ghost use Rattle.nr_vectors.specs.Items.{Items};

    ghost Value = { Items T };

    ghost view = { λ v. record { items = take v.len v.slots.items; capacity = v.capacity } };

    ghost invariant = { λ v. (v.len ≤ length v.slots.items)
        × ((length v.slots.items ≤ v.capacity) × (v.slots.capacity ≡ v.capacity)) };
}

impl<T: Copy> FixedVec<T> {
    /// No items, and room for so many: `AllocError` where there is no memory for them.
    ///
    /// Proved: There is memory for as many items as its capacity says, no more and no fewer, after every call: by the
    /// type's invariant that is the capacity of its vector. (`FixedVec::{new, memory}`)
    pub fn new(alloc: &mut CountedAlloc, capacity: usize) -> Result<FixedVec<T>, AllocError>
        ensures made { IfOk result (λ made. made ≡ record { items = []; capacity = capacity }) }
        ensures taken { IfOk result (λ made. alloc.new ≡ alloc.old + capacity) }
    {
        let slots = ReservedVec::new(alloc, capacity)?;
        Ok(FixedVec {
            slots,
            len: 0,
            capacity,
        })
    }

    /// The number of items.
    #[inline]
    pub fn len(&self) -> usize
        ensures value { result ≡ length self.now.items }
        ensures within { result ≤ self.now.capacity }
    {
        self.len
    }

    /// The greatest number of items.
    #[inline]
    pub fn capacity(&self) -> usize
        ensures value { result ≡ self.now.capacity }
        ensures holds { length self.now.items ≤ result }
    {
        self.capacity
    }

    /// How many items there is memory for, as its vector tells.
    pub fn memory(&self) -> usize
        ensures { result ≡ self.now.capacity }
    {
        self.slots.capacity()
    }

    /// The items.
    #[inline]
    pub fn as_slice(&self) -> &[T]
        ensures value { result.now ≡ self.now.items }
        ensures within { length result.now ≤ self.now.capacity }
    {
        let slots = self.slots.as_slice();
        &slots[..self.len]
    }

    /// The item at a place, counted from 0.
    #[inline]
    pub fn get(&self, place: usize) -> T
        requires { place < length self.now.items }
        ensures { slice_get self.now.items place ≡ Some result }
    {
        self.slots[place]
    }

    /// Puts another item at a place.
    #[inline]
    pub fn set(&mut self, place: usize, item: T)
        requires { place < length self.old.items }
        ensures items { self.new.items ≡ slice_set self.old.items place item }
        ensures room { self.new.capacity ≡ self.old.capacity }
    {
        self.slots[place] = item;
    }

    /// Adds an item at the end. Where it is the first there, it is written once.
    #[inline]
    pub fn push(&mut self, item: T)
        requires { length self.old.items < self.old.capacity }
        ensures items { self.new.items ≡ self.old.items ++ item ∷ [] }
        ensures room { self.new.capacity ≡ self.old.capacity }
    {
        let len = self.len;
        if len == self.slots.len() {
            self.slots.push(item);
            self.len = len + 1;
            return;
        }
        self.slots[len] = item;
        self.len = len + 1;
    }

    /// Adds items at the end.
    #[inline]
    pub fn extend(&mut self, more: &[T])
        requires { length self.old.items + length more.now ≤ self.old.capacity }
        ensures items { self.new.items ≡ self.old.items ++ more.now }
        ensures room { self.new.capacity ≡ self.old.capacity }
    {
        let end = self.len + more.len();
        fit(&mut self.slots, self.len, end, more);
        slots::add(self.slots.as_mut_slice(), self.len, more);
        self.len = end;
    }

    /// Adds the first n of these items. A few more are copied than are added where there are places for them on both sides,
    /// as a copy of a fixed length is the cheapest.
    #[inline(always)]
    pub fn extend_prefix(&mut self, more: &[T], n: usize)
        requires prefix { n ≤ length more.now }
        requires room { length self.old.items + n ≤ self.old.capacity }
        ensures items { self.new.items ≡ self.old.items ++ take n more.now }
        ensures room { self.new.capacity ≡ self.old.capacity }
    {
        if slots::add_few(self.slots.as_mut_slice(), self.len, more, n) {
            self.len += n;
            return;
        }
        self.extend(&more[..n]);
    }

    /// Adds n copies of an item. A few more are written than are added where there are places for them, as with `extend_prefix`.
    #[inline(always)]
    pub fn extend_copies(&mut self, item: T, n: usize)
        requires { length self.old.items + n ≤ self.old.capacity }
        ensures items { self.new.items ≡ self.old.items ++ replicate n item }
        ensures room { self.new.capacity ≡ self.old.capacity }
    {
        if !slots::add_few_copies(self.slots.as_mut_slice(), self.len, item, n) {
            self.slots.lengthen(self.len + n, item);
            slots::add_copies(self.slots.as_mut_slice(), self.len, item, n);
        }
        self.len += n;
    }

    /// Adds copies of an item, and after them the first n of these items. A few more of both are written than are added where
    /// there are places for them, as with `extend_prefix`.
    #[inline(always)]
    pub fn extend_after_copies(&mut self, item: T, copies: usize, more: &[T], n: usize)
        requires prefix { n ≤ length more.now }
        requires room { length self.old.items + copies + n ≤ self.old.capacity }
        ensures items { self.new.items ≡ self.old.items ++ replicate copies item ++ take n more.now }
        ensures room { self.new.capacity ≡ self.old.capacity }
    {
        if slots::add_few_after_copies(self.slots.as_mut_slice(), self.len, item, copies, more, n) {
            self.len += copies + n;
            return;
        }
        self.extend_copies(item, copies);
        self.extend(&more[..n]);
    }

    /// Puts an item before the one at a place, or at the end.
    #[inline]
    pub fn insert(&mut self, place: usize, item: T)
        requires within { place ≤ length self.old.items }
        requires room { length self.old.items < self.old.capacity }
        ensures items { self.new.items ≡ insert self.old.items place item }
        ensures room { self.new.capacity ≡ self.old.capacity }
    {
        self.slots.lengthen(self.len + 1, item);
        slots::insert_item(self.slots.as_mut_slice(), self.len, place, item);
        self.len += 1;
    }

    /// Takes the item at a place away.
    #[inline]
    pub fn remove(&mut self, place: usize)
        requires { place < length self.old.items }
        ensures items { self.new.items ≡ remove self.old.items place }
        ensures room { self.new.capacity ≡ self.old.capacity }
    {
        slots::remove_item(self.slots.as_mut_slice(), self.len, place);
        self.len -= 1;
    }

    /// Keeps the first n items.
    #[inline]
    pub fn truncate(&mut self, n: usize)
        requires { n ≤ length self.old.items }
        ensures items { self.new.items ≡ take n self.old.items }
        ensures room { self.new.capacity ≡ self.old.capacity }
    {
        self.len = n;
    }

    /// Takes copies of the items of another vector in place of its own.
    pub fn copy_from(&mut self, other: &FixedVec<T>)
        requires { other.now.capacity ≡ self.old.capacity }
        ensures { self.new ≡ other.now }
    {
        self.len = 0;
        self.extend(other.as_slice());
    }

    /// Takes all items away.
    #[inline]
    pub fn clear(&mut self)
        ensures items { self.new.items ≡ [] }
        ensures room { self.new.capacity ≡ self.old.capacity }
    {
        self.len = 0;
    }
}

/// Makes sure that there are places for all these items after the first `len`, up to `end`.
#[inline]
fn fit<T: Copy>(slots: &mut ReservedVec<T>, len: usize, end: usize, more: &[T])
    requires len { len ≤ length slots.old.items }
    requires end { end ≡ len + length more.now }
    requires asked { end ≤ slots.old.capacity }
    requires held { length slots.old.items ≤ slots.old.capacity }
    ensures prefix { take len slots.new.items ≡ take len slots.old.items }
    ensures least { end ≤ length slots.new.items }
    ensures held { length slots.new.items ≤ slots.new.capacity }
    ensures room { slots.new.capacity ≡ slots.old.capacity }
{
    if end > slots.len() {
        slots.lengthen(end, more[0]);
    }
}
