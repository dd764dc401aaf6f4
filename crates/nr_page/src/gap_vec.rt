// A list that grows at any place, whose capacity is taken once.
ghost use Rattle.std.specs.Prelude.{◌≡◌, ℕ, ◌+◌, ◌<◌, ◌≤◌, List, [], ◌++◌, length, take, drop, insert, slice_get, slice_set, Some, IfOk};

use nr_vectors::{CountedAlloc, ReservedVec};
use std::alloc::AllocError;
use std::marker::Model;

/// Items, and room for a number of them that stays, with a gap among them where the last one was put: to put one beside it
/// takes constant time, and elsewhere the items between are moved. Where the gap is used up, and there is room for more,
/// there come as many slots more as there are, so that is seldom.
#[derive(Drop)]
pub(crate) struct GapVec<T: Copy> {
    slots: ReservedVec<T>,
    // The items before the gap stand at the beginning of the slots, and those after it at their end.
    prefix: usize,
    gap: usize,
    capacity: usize,
}

impl<T: Copy> Model for GapVec<T> {
    ghost use Rattle.std.specs.Prelude.{◌≡◌, ◌+◌, ◌≤◌, ◌++◌, length, take, drop};
    ghost use Rattle.nr_vectors.specs.Items.{Items};

    ghost Value = { Items T };

    ghost view = { λ v. record {
      items = take v.prefix v.slots.items ++ drop (v.prefix + v.gap) v.slots.items;
      capacity = v.capacity;
    } };

    ghost invariant = { λ v. (v.prefix + v.gap ≤ length v.slots.items)
        × ((length v.slots.items ≤ v.capacity) × (v.slots.capacity ≡ v.capacity)) };
}

impl<T: Copy> GapVec<T> {
    /// No items, and room for so many: `AllocError` where there is no memory for them.
    pub(crate) fn new(alloc: &mut CountedAlloc, capacity: usize) -> Result<GapVec<T>, AllocError>
        ensures made { IfOk result (λ made. made ≡ record { items = []; capacity = capacity }) }
        ensures taken { IfOk result (λ made. alloc.new ≡ alloc.old + capacity) }
    {
        let slots = ReservedVec::new(alloc, capacity)?;
        Ok(GapVec {
            slots,
            prefix: 0,
            gap: 0,
            capacity,
        })
    }

    pub(crate) fn memory(&self) -> usize
        ensures { result ≡ self.now.capacity }
    {
        self.slots.capacity()
    }

    pub(crate) fn len(&self) -> usize
        ensures { result ≡ length self.now.items }
    {
        self.slots.len() - self.gap
    }

    pub(crate) fn get(&self, place: usize) -> T
        requires { place < length self.now.items }
        ensures { slice_get self.now.items place ≡ Some result }
    {
        let slots = self.slots.as_slice();
        if place < self.prefix {
            slots[place]
        } else {
            slots[self.gap + place]
        }
    }

    pub(crate) fn set(&mut self, place: usize, item: T)
        requires { place < length self.old.items }
        ensures items { self.new.items ≡ slice_set self.old.items place item }
        ensures room { self.new.capacity ≡ self.old.capacity }
    {
        if place < self.prefix {
            self.slots[place] = item;
        } else {
            self.slots[self.gap + place] = item;
        }
    }

    pub(crate) fn insert(&mut self, place: usize, item: T)
        requires within { place ≤ length self.old.items }
        requires fits { length self.old.items < self.old.capacity }
        ensures items { self.new.items ≡ insert self.old.items place item }
        ensures room { self.new.capacity ≡ self.old.capacity }
    {
        move_gap(self.slots.as_mut_slice(), self.prefix, self.gap, place);
        let gap = make_gap(&mut self.slots, self.capacity, place, self.gap, item);
        self.slots[place] = item;
        self.prefix = place + 1;
        self.gap = gap - 1;
    }

    /// Takes copies of the items of another in place of its own.
    pub(crate) fn copy_from(&mut self, other: &GapVec<T>)
        requires { other.now.capacity ≡ self.old.capacity }
        ensures { self.new ≡ other.now }
    {
        self.slots.copy_from(other.slots.as_slice());
        self.prefix = other.prefix;
        self.gap = other.gap;
    }

    pub(crate) fn clear(&mut self)
        ensures items { self.new.items ≡ [] }
        ensures room { self.new.capacity ≡ self.old.capacity }
    {
        self.prefix = 0;
        self.gap = self.slots.len();
    }
}

/// Makes sure that there is a gap at a place, where it is or would be, and tells how long it is then.
#[inline]
fn make_gap<T: Copy>(
    slots: &mut ReservedVec<T>,
    capacity: usize,
    place: usize,
    gap: usize,
    item: T,
) -> usize
    requires here { place + gap ≤ length slots.old.items }
    requires held { length slots.old.items < capacity + gap }
    requires within { length slots.old.items ≤ capacity }
    requires capacity { slots.old.capacity ≡ capacity }
    ensures items { take place slots.new.items ++ drop (place + result) slots.new.items
        ≡ take place slots.old.items ++ drop (place + gap) slots.old.items }
    ensures some { 0 < result }
    ensures here { place + result ≤ length slots.new.items }
    ensures within { length slots.new.items ≤ capacity }
    ensures capacity { slots.new.capacity ≡ slots.old.capacity }
{
    if gap > 0 {
        return gap;
    }
    let len = slots.len();
    slots.lengthen(len + 1, item);
    let gap = slots.len() - len;
    slots.copy_within(place..len, place + gap);
    gap
}

/// Moves the gap from one place to another.
fn move_gap<T: Copy>(slots: &mut [T], prefix: usize, gap: usize, place: usize)
    requires here { prefix + gap ≤ length slots.old }
    requires there { place + gap ≤ length slots.old }
    ensures { take place slots.new ++ drop (place + gap) slots.new ≡ take prefix slots.old
        ++ drop (prefix + gap) slots.old }
{
    if place < prefix {
        slots.copy_within(place..prefix, place + gap);
    } else if place > prefix {
        slots.copy_within(prefix + gap..place + gap, prefix);
    }
}
