//! A stack whose capacity is taken once.
ghost use Rattle.std.specs.Prelude.{◌+◌, ◌≡◌, ◌==◌, ◌<◌, ◌≤◌, [], ◌∷◌, length, drop, slice_get, Some, IfOk};

use crate::frame::Frame;
use nr_vectors::{CountedAlloc, ReservedVec};
use std::alloc::AllocError;
use std::marker::Model;

/// Items, and room for a number of them that stays; `new` is the only call that allocates. A clause sees the last that
/// came as the first, and the capacity, the greatest number of items. Each call takes constant time.
#[derive(Drop)]
pub struct Stack<T: Copy> {
    items: ReservedVec<T>,
    capacity: usize,
}

impl<T: Copy> Model for Stack<T> {
    ghost use Rattle.std.specs.Prelude.{◌≡◌, ◌≤◌, length, reverse};
    ghost use Rattle.nr_vectors.specs.Items.{Items};

    ghost Value = { Items T };

    ghost view = { λ v. record { items = reverse v.items.items; capacity = v.capacity } };

    ghost invariant = { λ v. (length v.items.items ≤ v.capacity) × (v.items.capacity ≡ v.capacity) };
}

impl<T: Copy> Stack<T> {
    /// No items, and room for so many: `AllocError` where there is no memory for them.
    pub fn new(alloc: &mut CountedAlloc, capacity: usize) -> Result<Stack<T>, AllocError>
        ensures made { IfOk result (λ made. made ≡ record { items = []; capacity = capacity }) }
        ensures taken { IfOk result (λ made. alloc.new ≡ alloc.old + capacity) }
    {
        let items = ReservedVec::new(alloc, capacity)?;
        Ok(Stack { items, capacity })
    }

    /// The number of items.
    #[inline]
    pub fn len(&self) -> usize
        ensures value { result ≡ length self.now.items }
        ensures within { result ≤ self.now.capacity }
    {
        self.items.len()
    }

    /// The greatest number of items.
    #[inline]
    pub fn capacity(&self) -> usize
        ensures { result ≡ self.now.capacity }
    {
        self.capacity
    }

    /// How many items there is memory for, as its vector tells.
    pub fn memory(&self) -> usize
        ensures { result ≡ self.now.capacity }
    {
        self.items.capacity()
    }

    /// Whether there is no item.
    #[inline]
    pub fn is_empty(&self) -> bool
        ensures { result ≡ (length self.now.items == 0) }
    {
        self.items.is_empty()
    }

    /// The item that came last.
    #[inline]
    pub fn top(&self) -> Option<T>
        ensures { result ≡ slice_get self.now.items 0 }
    {
        if self.items.is_empty() {
            return None;
        }
        Some(self.items[self.items.len() - 1])
    }

    /// Takes copies of the items of another stack in place of its own.
    pub fn copy_from(&mut self, other: &Stack<T>)
        requires { other.now.capacity ≡ self.old.capacity }
        ensures { self.new ≡ other.now }
    {
        self.items.copy_from(other.items.as_slice());
    }

    /// Adds an item.
    #[inline]
    pub fn push(&mut self, item: T)
        requires { length self.old.items < self.old.capacity }
        ensures { self.new ≡ record self.old { items = item ∷ self.old.items } }
    {
        self.items.push(item);
    }

    /// The n-th item from the last that came, counted from 0, where it lies.
    #[inline]
    pub fn at(&self, n: usize) -> &T
        requires { n < length self.now.items }
        ensures { slice_get self.now.items n ≡ Some result.now }
    {
        let items = self.items.as_slice();
        &items[items.len() - 1 - n]
    }

    /// The n-th item from the last that came, counted from 0.
    #[inline]
    pub fn get(&self, n: usize) -> T
        requires { n < length self.now.items }
        ensures { slice_get self.now.items n ≡ Some result }
    {
        *self.at(n)
    }

    /// Puts another item in place of the one that came last.
    #[inline]
    pub fn set_top(&mut self, item: T)
        requires { 0 < length self.old.items }
        ensures { self.new ≡ record self.old { items = item ∷ drop 1 self.old.items } }
    {
        let last = self.items.len() - 1;
        self.items[last] = item;
    }

    /// Takes the item away that came last.
    #[inline]
    pub fn pop(&mut self)
        requires { 0 < length self.old.items }
        ensures { self.new ≡ record self.old { items = drop 1 self.old.items } }
    {
        self.items.truncate(self.items.len() - 1);
    }

    /// Takes all items away.
    pub fn clear(&mut self)
        ensures { self.new ≡ record self.old { items = [] } }
    {
        self.items.clear();
    }
}

impl Stack<Frame> {
    ghost use Rattle.nr_levels.specs.Moving.{newest_gone_on, NewestMayGoOn};

    /// What came last reads so many elements further on.
    #[inline]
    pub(crate) fn go_on(&mut self, n: u32)
        requires { NewestMayGoOn n self.old.items }
        ensures { self.new ≡ record self.old { items = newest_gone_on n self.old.items } }
    {
        let last = self.items.len() - 1;
        self.items[last].reads.go_on(n);
    }
}
