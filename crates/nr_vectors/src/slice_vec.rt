//! A vector over a slice that is lent: it grows at its end up to the slice's length.
ghost use Rattle.std.specs.Prelude.{◌≡◌, ◌==◌, ◌+◌, ◌-◌, ◌<◌, ◌≤◌, [], ◌∷◌, ◌++◌, length, take, drop, replicate, slice_get, slice_set, Some, map, ℕ, List};
ghost use Rattle.std.specs.List.{insert, remove};
ghost use Rattle.nr_vectors.specs.declared.cell.Cell.{Cell as CellValue};

use crate::cell::Cell;
use crate::slots;
use std::marker::Model;

/// Items in a slice that is lent, from its start on. What lies after them is of no account.
///
/// Clauses see the items and the capacity, the greatest number of them. No call allocates; each takes
/// constant time or one move of memory.
///
/// Proved: Each call of a vector over a lent slice is one equation of lists.
#[derive(Drop)]
pub struct SliceVec<'a, T: Copy> {
    slots: &'a mut [T],
    len: usize,
}

impl<'a, T: Copy> Model for SliceVec<'a, T> {
    ghost use Rattle.std.specs.Prelude.{◌≤◌, length, take};
    ghost use Rattle.nr_vectors.specs.Items.{Items};

    ghost Value = { Items T };

    ghost view = { λ v. record { items = take v.len v.slots.now; capacity = length v.slots.now } };

    ghost invariant = { λ v. v.len ≤ length v.slots.now };
}

impl<'a, T: Copy> SliceVec<'a, T> {
    /// No items yet, and room for as many as the slice has.
    pub fn over(slots: &'a mut [T]) -> Self
        ensures empty { result.items ≡ [] }
        ensures room { result.capacity ≡ length slots.entry.now }
    {
        SliceVec { slots, len: 0 }
    }

    /// The number of items.
    #[inline]
    pub fn len(&self) -> usize
        ensures value { result ≡ length self.now.items }
        ensures within { result ≤ self.now.capacity }
    {
        self.len
    }

    /// The greatest number of items.
    #[inline]
    pub fn capacity(&self) -> usize
        ensures value { result ≡ self.now.capacity }
        ensures holds { length self.now.items ≤ result }
    {
        self.slots.len()
    }

    /// Whether there is no item.
    #[inline]
    pub fn is_empty(&self) -> bool
        ensures { result ≡ (length self.now.items == 0) }
    {
        self.len == 0
    }

    /// Whether no item can be added.
    #[inline]
    pub fn is_full(&self) -> bool
        ensures value { result ≡ (length self.now.items == self.now.capacity) }
        ensures holds { length self.now.items ≤ self.now.capacity }
    {
        self.len == self.slots.len()
    }

    /// The items.
    #[inline]
    pub fn as_slice(&self) -> &[T]
        ensures value { result.now ≡ self.now.items }
        ensures within { length result.now ≤ self.now.capacity }
    {
        &self.slots[..self.len]
    }

    /// The item at a place, counted from 0.
    #[inline]
    pub fn get(&self, place: usize) -> T
        requires { place < length self.now.items }
        ensures { slice_get self.now.items place ≡ Some result }
    {
        let slots = &*self.slots;
        slots[place]
    }

    /// The last item.
    #[inline]
    pub fn last(&self) -> Option<T>
        ensures { result ≡ slice_get self.now.items (length self.now.items - 1) }
    {
        if self.len == 0 {
            return None;
        }
        let slots = &*self.slots;
        Some(slots[self.len - 1])
    }

    /// Puts another item at a place.
    #[inline]
    pub fn set(&mut self, place: usize, item: T)
        requires { place < length self.old.items }
        ensures items { self.new.items ≡ slice_set self.old.items place item }
        ensures room { self.new.capacity ≡ self.old.capacity }
    {
        let slots = &mut *self.slots;
        slots[place] = item;
    }

    /// Adds an item at the end.
    #[inline]
    pub fn push(&mut self, item: T)
        requires { length self.old.items < self.old.capacity }
        ensures items { self.new.items ≡ self.old.items ++ item ∷ [] }
        ensures room { self.new.capacity ≡ self.old.capacity }
    {
        self.slots[self.len] = item;
        self.len += 1;
    }

    /// Takes the last item away.
    #[inline]
    pub fn pop(&mut self) -> Option<T>
        ensures value { result ≡ slice_get self.old.items (length self.old.items - 1) }
        ensures items { self.new.items ≡ take (length self.old.items - 1) self.old.items }
        ensures room { self.new.capacity ≡ self.old.capacity }
    {
        let item = self.last();
        if self.len > 0 {
            self.len -= 1;
        }
        item
    }

    /// Adds items at the end.
    #[inline]
    pub fn extend(&mut self, more: &[T])
        requires { length self.old.items + length more.now ≤ self.old.capacity }
        ensures items { self.new.items ≡ self.old.items ++ more.now }
        ensures room { self.new.capacity ≡ self.old.capacity }
    {
        slots::add(self.slots, self.len, more);
        self.len += more.len();
    }

    /// Adds the first n of these items. A few more are copied than are added where there is room on
    /// both sides, as a copy of a fixed length is the cheapest.
    #[inline]
    pub fn extend_prefix(&mut self, more: &[T], n: usize)
        requires prefix { n ≤ length more.now }
        requires room { length self.old.items + n ≤ self.old.capacity }
        ensures items { self.new.items ≡ self.old.items ++ take n more.now }
        ensures room { self.new.capacity ≡ self.old.capacity }
    {
        if slots::add_few(self.slots, self.len, more, n) {
            self.len += n;
            return;
        }
        self.extend(&more[..n]);
    }

    /// Adds n copies of an item. A few more are written than are added where there is room, as with `extend_prefix`.
    #[inline]
    pub fn extend_copies(&mut self, item: T, n: usize)
        requires { length self.old.items + n ≤ self.old.capacity }
        ensures items { self.new.items ≡ self.old.items ++ replicate n item }
        ensures room { self.new.capacity ≡ self.old.capacity }
    {
        if !slots::add_few_copies(self.slots, self.len, item, n) {
            slots::add_copies(self.slots, self.len, item, n);
        }
        self.len += n;
    }

    /// Puts an item before the one at a place, or at the end.
    #[inline]
    pub fn insert(&mut self, place: usize, item: T)
        requires within { place ≤ length self.old.items }
        requires room { length self.old.items < self.old.capacity }
        ensures items { self.new.items ≡ insert self.old.items place item }
        ensures room { self.new.capacity ≡ self.old.capacity }
    {
        slots::insert_item(self.slots, self.len, place, item);
        self.len += 1;
    }

    /// Takes the item at a place away.
    #[inline]
    pub fn remove(&mut self, place: usize)
        requires { place < length self.old.items }
        ensures items { self.new.items ≡ remove self.old.items place }
        ensures room { self.new.capacity ≡ self.old.capacity }
    {
        slots::remove_item(self.slots, self.len, place);
        self.len -= 1;
    }

    /// Takes the first n items away.
    #[inline]
    pub fn remove_prefix(&mut self, n: usize)
        requires { n ≤ length self.old.items }
        ensures items { self.new.items ≡ drop n self.old.items }
        ensures room { self.new.capacity ≡ self.old.capacity }
    {
        let len = self.len;
        self.slots.copy_within(n..len, 0);
        self.len -= n;
    }

    /// Keeps the first n items.
    #[inline]
    pub fn truncate(&mut self, n: usize)
        requires { n ≤ length self.old.items }
        ensures items { self.new.items ≡ take n self.old.items }
        ensures room { self.new.capacity ≡ self.old.capacity }
    {
        self.len = n;
    }

    /// Takes all items away.
    #[inline]
    pub fn clear(&mut self)
        ensures items { self.new.items ≡ [] }
        ensures room { self.new.capacity ≡ self.old.capacity }
    {
        self.len = 0;
    }
}

impl<'a> SliceVec<'a, u8> {
    /// Adds the byte of each cell.
    #[inline]
    pub fn extend_bytes(&mut self, cells: &[Cell])
        requires { length self.old.items + length cells.now ≤ self.old.capacity }
        ensures items { self.new.items ≡ self.old.items ++ map (λ (cell : CellValue). cell.byte) cells.now }
        ensures room { self.new.capacity ≡ self.old.capacity }
    {
        let end = self.len + cells.len();
        set_bytes(&mut self.slots[self.len..end], cells);
        self.len = end;
    }
}

/// The bytes of as many cells.
fn set_bytes(bytes: &mut [u8], cells: &[Cell])
    requires { length bytes.old ≡ length cells.now }
    ensures { bytes.new ≡ map (λ (cell : CellValue). cell.byte) cells.now }
{
    for i in 0..bytes.len() {
        bytes[i] = cells[i].byte;
    }
}
