// Items that come in at the end and go out at the beginning, whose capacity is taken once.
ghost use Rattle.std.specs.Prelude.{◌≡◌, ◌+◌, ◌-◌, ◌<◌, ◌≤◌, [], ◌∷◌, ◌++◌, length, map, take, drop, replicate, slice_index, All, IfOk};
ghost use Rattle.nr_fill.specs.Plain.{IsPlain, run_cell};

use crate::plain::set_plain;
use nr_vectors::cell::{Cell, Look};
use nr_vectors::{CountedAlloc, ReservedVec};
use std::alloc::AllocError;
use std::marker::Model;

/// Items, and room for a number of them that stays; `new` is the only call that allocates. A prefix that is taken away stays
/// where it is until it is as long as what is left or its place is needed, so that taking a prefix costs no more than it had
/// items.
#[derive(Drop)]
pub(crate) struct Queue<T: Copy> {
    // The items stand from `start` to `end`. What lies beside them is of no account.
    slots: ReservedVec<T>,
    start: usize,
    end: usize,
    capacity: usize,
}

impl<T: Copy> Model for Queue<T> {
    ghost use Rattle.std.specs.Prelude.{◌≡◌, ◌≤◌, length, take, drop};
    ghost use Rattle.nr_vectors.specs.Items.{Items};

    ghost Value = { Items T };

    ghost view = { λ q. record { items = drop q.start (take q.end q.slots.items); capacity = q.capacity } };

    ghost invariant = { λ q. (q.start ≤ q.end)
        × ((q.end ≤ length q.slots.items)
        × ((length q.slots.items ≤ q.capacity) × (q.slots.capacity ≡ q.capacity))) };
}

/// Where items stand in a vector.
#[derive(Clone, Copy)]
struct Span {
    start: usize,
    end: usize,
}

/// Makes sure that there are n free slots after the items of the span, and tells where they are then.
#[inline]
fn make_room<T: Copy>(
    slots: &mut ReservedVec<T>,
    capacity: usize,
    span: Span,
    n: usize,
    item: T,
) -> Span
    requires ordered { span.start ≤ span.end }
    requires within { span.end ≤ length slots.old.items }
    requires held { length slots.old.items ≤ capacity }
    requires capacity { slots.old.capacity ≡ capacity }
    requires room { span.end - span.start + n ≤ capacity }
    ensures items { drop result.start (take result.end slots.new.items)
        ≡ drop span.start (take span.end slots.old.items) }
    ensures ordered { result.start ≤ result.end }
    ensures free { result.end + n ≤ length slots.new.items }
    ensures held { length slots.new.items ≤ capacity }
    ensures capacity { slots.new.capacity ≡ slots.old.capacity }
{
    if n <= slots.len() - span.end {
        return span;
    }
    move_to_start(slots, capacity, span, n, item)
}

/// The same where there are not so many: the items move to the beginning. There are slots for twice as many items and n more then, if
/// there is room for so many.
#[cold]
fn move_to_start<T: Copy>(
    slots: &mut ReservedVec<T>,
    capacity: usize,
    span: Span,
    n: usize,
    item: T,
) -> Span
    requires ordered { span.start ≤ span.end }
    requires within { span.end ≤ length slots.old.items }
    requires held { length slots.old.items ≤ capacity }
    requires capacity { slots.old.capacity ≡ capacity }
    requires room { span.end - span.start + n ≤ capacity }
    ensures items { drop result.start (take result.end slots.new.items)
        ≡ drop span.start (take span.end slots.old.items) }
    ensures ordered { result.start ≤ result.end }
    ensures free { result.end + n ≤ length slots.new.items }
    ensures held { length slots.new.items ≤ capacity }
    ensures capacity { slots.new.capacity ≡ slots.old.capacity }
{
    slots.copy_within(span.start..span.end, 0);
    let end = span.end - span.start;
    let least = end.saturating_mul(2).saturating_add(n).min(capacity);
    slots.lengthen(least, item);
    Span { start: 0, end }
}

/// Puts the item everywhere.
fn set_all<T: Copy>(slots: &mut [T], item: T)
    ensures { slots.new ≡ replicate (length slots.old) item }
{
    for slot in slots.iter_mut() {
        *slot = item;
    }
}

impl Queue<Cell> {
    /// Puts the cells of these bytes at the end, up to the first that is not plain, and tells how many these are.
    #[inline]
    pub(crate) fn push_plain(&mut self, look: Look, bytes: &[u8]) -> usize
        requires { length self.old.items + length bytes.now ≤ self.old.capacity }
        ensures prefix { result ≤ length bytes.now }
        ensures plain { All IsPlain (take result bytes.now) }
        ensures stops { result < length bytes.now → ¬ IsPlain (slice_index bytes.now result) }
        ensures items { self.new.items ≡ self.old.items ++ map (run_cell look) (take result bytes.now) }
        ensures room { self.new.capacity ≡ self.old.capacity }
    {
        let span = Span {
            start: self.start,
            end: self.end,
        };
        let n = bytes.len();
        let span = make_room(&mut self.slots, self.capacity, span, n, Cell::blank());
        let slots = self.slots.as_mut_slice();
        let count = set_plain(&mut slots[span.end..span.end + n], look, bytes);
        self.start = span.start;
        self.end = span.end + count;
        count
    }
}

impl<T: Copy> Queue<T> {
    /// No items, and room for so many: `AllocError` where there is no memory for them.
    pub(crate) fn new(alloc: &mut CountedAlloc, capacity: usize) -> Result<Queue<T>, AllocError>
        ensures made { IfOk result (λ made. made ≡ record { items = []; capacity = capacity }) }
        ensures taken { IfOk result (λ made. alloc.new ≡ alloc.old + capacity) }
    {
        let slots = ReservedVec::new(alloc, capacity)?;
        Ok(Queue {
            slots,
            start: 0,
            end: 0,
            capacity,
        })
    }

    /// How many items there is memory for, as its vector tells.
    pub(crate) fn memory(&self) -> usize
        ensures { result ≡ self.now.capacity }
    {
        self.slots.capacity()
    }

    /// Takes copies of the items of another queue in place of its own.
    pub(crate) fn copy_from(&mut self, other: &Queue<T>)
        requires { other.now.capacity ≡ self.old.capacity }
        ensures { self.new ≡ other.now }
    {
        self.slots.copy_from(other.slots.as_slice());
        self.start = other.start;
        self.end = other.end;
    }

    #[inline]
    pub(crate) fn len(&self) -> usize
        ensures value { result ≡ length self.now.items }
        ensures within { result ≤ self.now.capacity }
    {
        self.end - self.start
    }

    #[inline]
    pub(crate) fn as_slice(&self) -> &[T]
        ensures value { result.now ≡ self.now.items }
        ensures within { length result.now ≤ self.now.capacity }
    {
        let slots = self.slots.as_slice();
        &slots[self.start..self.end]
    }

    #[inline]
    pub(crate) fn push(&mut self, item: T)
        requires { length self.old.items < self.old.capacity }
        ensures items { self.new.items ≡ self.old.items ++ item ∷ [] }
        ensures room { self.new.capacity ≡ self.old.capacity }
    {
        let span = Span {
            start: self.start,
            end: self.end,
        };
        let span = make_room(&mut self.slots, self.capacity, span, 1, item);
        self.slots[span.end] = item;
        self.start = span.start;
        self.end = span.end + 1;
    }

    /// Puts n copies of an item at the end.
    #[inline]
    pub(crate) fn push_copies(&mut self, item: T, n: usize)
        requires { length self.old.items + n ≤ self.old.capacity }
        ensures items { self.new.items ≡ self.old.items ++ replicate n item }
        ensures room { self.new.capacity ≡ self.old.capacity }
    {
        let span = Span {
            start: self.start,
            end: self.end,
        };
        let span = make_room(&mut self.slots, self.capacity, span, n, item);
        let slots = self.slots.as_mut_slice();
        set_all(&mut slots[span.end..span.end + n], item);
        self.start = span.start;
        self.end = span.end + n;
    }

    /// Puts n copies of an item before the item at a place, or at the end.
    pub(crate) fn insert_copies(&mut self, place: usize, item: T, n: usize)
        requires within { place ≤ length self.old.items }
        requires room { length self.old.items + n ≤ self.old.capacity }
        ensures items { self.new.items ≡ take place self.old.items ++ replicate n item
            ++ drop place self.old.items }
        ensures room { self.new.capacity ≡ self.old.capacity }
    {
        let span = Span {
            start: self.start,
            end: self.end,
        };
        let span = make_room(&mut self.slots, self.capacity, span, n, item);
        let at = span.start + place;
        self.slots.copy_within(at..span.end, at + n);
        let slots = self.slots.as_mut_slice();
        set_all(&mut slots[at..at + n], item);
        self.start = span.start;
        self.end = span.end + n;
    }

    /// Takes the first n items away.
    pub(crate) fn remove_prefix(&mut self, n: usize)
        requires { n ≤ length self.old.items }
        ensures items { self.new.items ≡ drop n self.old.items }
        ensures room { self.new.capacity ≡ self.old.capacity }
    {
        let start = self.start + n;
        let left = self.end - start;
        if start < left {
            self.start = start;
            return;
        }
        self.slots.copy_within(start..self.end, 0);
        self.start = 0;
        self.end = left;
    }

    /// Takes all items away.
    pub(crate) fn clear(&mut self)
        ensures items { self.new.items ≡ [] }
        ensures room { self.new.capacity ≡ self.old.capacity }
    {
        self.start = 0;
        self.end = 0;
    }

    /// Keeps the first n items.
    #[inline]
    pub(crate) fn truncate(&mut self, n: usize)
        requires { n ≤ length self.old.items }
        ensures items { self.new.items ≡ take n self.old.items }
        ensures room { self.new.capacity ≡ self.old.capacity }
    {
        self.end = self.start + n;
    }
}
