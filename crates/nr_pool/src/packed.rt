//! Texts that lie without holes.
ghost use Rattle.std.specs.Prelude.{◌≡◌, ◌≢◌, ℕ, ◌+◌, ◌^◌, ◌<◌, ◌≤◌, ◌↔◌, [], ◌∷◌, ◌++◌, length, take, replicate, All, IsErr, IfOk, OnOk, OnErr, IsTrue, slice_get, slice_set, Some};
ghost use Rattle.nr_pool.specs.Rooms.{written};
ghost use Rattle.nr_pool.specs.Texts.{IsOpen, text, holders, used, no_text, opened, with_text, with_holders, without_text, released};

use crate::slot::{Slot, bring_last, give_last, remove_text, spare_of};
use crate::{Full, Id};
use nr_vectors::{CountedAlloc, ReservedVec};
use std::alloc::AllocError;
use std::marker::Model;

/// Texts of elements of `T` as `Pool` has them, each with elements of its own.
#[derive(Drop)]
pub(crate) struct Packed<T: Copy> {
    // The elements of the texts lie at the beginning. What lies after them is of no account.
    elements: ReservedVec<T>,
    capacity: usize,
    // The slots that have had a text since all were removed.
    slots: ReservedVec<Slot>,
    most: usize,
    // How many elements the texts have.
    used: u32,
    // How many of the slots have no text, and the first of them.
    spares: usize,
    first_spare: u32,
}

impl<T: Copy> Model for Packed<T> {
    ghost use Rattle.std.specs.Prelude.{◌≡◌};
    ghost use Rattle.nr_pool.specs.Texts.{Texts};
    ghost use Rattle.nr_pool.specs.Rooms.{texts_within, IsKept};

    ghost Value = { Texts T };

    ghost view = { λ p. texts_within p.capacity p.most p.elements.items p.slots.items };

    ghost invariant = { λ p. IsKept p.elements.items p.slots.items p.used p.spares p.first_spare p.capacity
        p.most × ((p.elements.capacity ≡ p.capacity) × (p.slots.capacity ≡ p.most)) };
}

impl<T: Copy> Packed<T> {
    /// A pool with no texts, and room for so many elements in so many texts: `AllocError` where there is no memory for
    /// them. A slot counts in 32 bits, so there are fewer than 2^32 of each.
    pub fn new(
        alloc: &mut CountedAlloc,
        capacity: usize,
        most: usize,
    ) -> Result<Packed<T>, AllocError>
        requires elements_fit { capacity < 2 ^ 32 }
        requires slots_fit { most < 2 ^ 32 }
        ensures capacity { IfOk result (λ made. made.capacity ≡ capacity) }
        ensures empty { IfOk result (λ made. made.texts ≡ replicate most no_text) }
        ensures taken { IfOk result (λ made. alloc.new ≡ alloc.old + capacity + most) }
    {
        let elements = ReservedVec::new(alloc, capacity)?;
        let slots = ReservedVec::new(alloc, most)?;
        Ok(Packed {
            elements,
            capacity,
            slots,
            most,
            used: 0,
            spares: 0,
            first_spare: 0,
        })
    }

    /// A new text, with no elements and one holder, in constant time. It fails if every number has a text,
    /// and then nothing has changed.
    pub fn open(&mut self) -> Result<Id, Full>
        ensures full { IsErr result ↔ All (λ t. 0 < t.holders) self.old.texts }
        ensures unused { IfOk result (λ id. slice_get self.old.texts id ≡ Some no_text) }
        ensures ok { IfOk result (λ id. self.new ≡ opened self.old id) }
        ensures is_open { IfOk result (λ id. IsOpen self.new id) }
        ensures apart { IfOk result (λ id. (other : ℕ) → IsOpen self.old other → other ≢ id) }
        ensures keeps { (other : ℕ) → IsOpen self.old other → IsOpen self.new other }
        ensures err { OnErr result (self.new ≡ self.old) }
    {
        let Some((spares, index)) = spare_of(
            &mut self.slots,
            self.most,
            self.spares,
            self.first_spare,
        ) else {
            return Err(Full);
        };
        let slot = &mut self.slots[index as usize];
        slot.holders = 1;
        self.first_spare = slot.start;
        self.spares = spares - 1;
        Ok(Id { index })
    }

    /// How many elements there is memory for, as their vector tells.
    pub fn element_memory(&self) -> usize
        ensures { result ≡ self.now.capacity }
    {
        self.elements.capacity()
    }

    /// How many texts there is memory for, as their vector tells.
    pub fn text_memory(&self) -> usize
        ensures { result ≡ length self.now.texts }
    {
        self.slots.capacity()
    }

    /// How many elements all texts have.
    #[inline]
    pub fn used(&self) -> usize
        ensures value { result ≡ used self.now }
        ensures within { result ≤ self.now.capacity }
        ensures small { self.now.capacity < 2 ^ 32 }
    {
        self.used as usize
    }

    /// Whether `id` is the number of a text.
    pub fn is_open(&self, id: Id) -> bool
        ensures { IsTrue result ↔ IsOpen self.now id }
    {
        let index = id.index as usize;
        index < self.slots.len() && self.slots[index].holders > 0
    }

    /// How many hold a text: at least one, and fewer than 2^32.
    pub fn holders(&self, id: Id) -> usize
        requires { IsOpen self.now id }
        ensures { result ≡ holders self.now id }
    {
        self.slots[id.index as usize].holders as usize
    }

    /// One holder more of a text. The caller keeps the number of holders below 2^32.
    pub fn hold(&mut self, id: Id)
        requires is_open { IsOpen self.old id }
        requires fits { holders self.old id + 1 < 2 ^ 32 }
        ensures held { self.new ≡ with_holders self.old id (holders self.old id + 1) }
        ensures keeps { (other : ℕ) → IsOpen self.old other → IsOpen self.new other }
    {
        self.slots[id.index as usize].holders += 1;
    }

    /// One holder less of a text, which is removed where that was the last.
    pub fn release(&mut self, id: Id)
        requires { IsOpen self.old id }
        ensures released { self.new ≡ released self.old id }
        ensures keeps { (other : ℕ) → other ≢ id → IsOpen self.old other → IsOpen self.new other }
    {
        if self.holders(id) == 1 {
            self.close(id);
        } else {
            self.slots[id.index as usize].holders -= 1;
        }
    }

    /// Removes a text, which has one holder. Its number may be that of a new text.
    pub fn close(&mut self, id: Id)
        requires { holders self.old id ≡ 1 }
        ensures closed { self.new ≡ without_text self.old id }
        ensures keeps { (other : ℕ) → other ≢ id → IsOpen self.old other → IsOpen self.new other }
    {
        let index = id.index as usize;
        let len = remove_text(
            &mut self.elements,
            &mut self.slots,
            self.used,
            index,
            self.first_spare,
        );
        self.used -= len;
        self.first_spare = id.index;
        self.spares += 1;
    }

    /// Removes all texts, whoever holds them, in constant time.
    pub fn remove_all(&mut self)
        ensures capacity { self.new.capacity ≡ self.old.capacity }
        ensures empty { self.new.texts ≡ replicate (length self.old.texts) no_text }
    {
        self.slots.clear();
        self.used = 0;
        self.spares = 0;
    }

    /// Takes the texts of another pool with as much room, under their numbers, in place of its own.
    pub fn copy_from(&mut self, other: &Packed<T>)
        requires capacity { other.now.capacity ≡ self.old.capacity }
        requires texts { length other.now.texts ≡ length self.old.texts }
        ensures { self.new ≡ other.now }
    {
        self.elements.copy_from(other.elements.as_slice());
        self.slots.copy_from(other.slots.as_slice());
        self.used = other.used;
        self.spares = other.spares;
        self.first_spare = other.first_spare;
    }

    /// How many elements a text has.
    pub fn len(&self, id: Id) -> usize
        requires { IsOpen self.now id }
        ensures { result ≡ length (text self.now id) }
    {
        self.slots[id.index as usize].len as usize
    }

    /// The element at a place of a text.
    pub fn get(&self, id: Id, place: usize) -> T
        requires is_open { IsOpen self.now id }
        requires within { place < length (text self.now id) }
        ensures { slice_get (text self.now id) place ≡ Some result }
    {
        let first = self.slots[id.index as usize].start as usize;
        self.elements[first + place]
    }

    /// A text as one slice.
    pub fn text(&self, id: Id) -> &[T]
        requires { IsOpen self.now id }
        ensures { result.now ≡ text self.now id }
    {
        let Slot { start, len, .. } = self.slots[id.index as usize];
        if len == 0 {
            return &[];
        }
        let elements = self.elements.as_slice();
        &elements[start as usize..start as usize + len as usize]
    }

    /// Puts another element at a place of a text.
    pub fn set(&mut self, id: Id, place: usize, element: T)
        requires is_open { IsOpen self.old id }
        requires within { place < length (text self.old id) }
        ensures replaced { self.new ≡ with_text self.old id (slice_set (text self.old id) place element) }
        ensures keeps { (other : ℕ) → IsOpen self.old other → IsOpen self.new other }
    {
        let start = self.slots[id.index as usize].start as usize;
        self.elements[start + place] = element;
    }

    /// Puts an element at the end of a text. It fails if the texts have as many elements as there is room
    /// for, and then nothing has changed.
    pub fn append(&mut self, id: Id, element: T) -> Result<(), Full>
        requires { IsOpen self.old id }
        ensures full { IsErr result ↔ (used self.old ≡ self.old.capacity) }
        ensures ok { OnOk result (self.new ≡ with_text self.old id (text self.old id ++ element ∷ [])) }
        ensures keeps { (other : ℕ) → IsOpen self.old other → IsOpen self.new other }
        ensures err { OnErr result (self.new ≡ self.old) }
    {
        let used = self.used as usize;
        if used == self.capacity {
            return Err(Full);
        }
        let index = id.index as usize;
        self.elements.lengthen(used + 1, element);
        bring_last(&mut self.elements, &mut self.slots, self.used, index);
        self.elements[used] = element;
        self.slots[index].len += 1;
        self.used += 1;
        Ok(())
    }

    /// Puts elements at the end of a text. It fails if there is no room for all of them, and then nothing has
    /// changed.
    pub fn append_slice(&mut self, id: Id, elements: &[T]) -> Result<(), Full>
        requires { IsOpen self.old id }
        ensures full { IsErr result ↔ (self.old.capacity < used self.old + length elements.now) }
        ensures ok { OnOk result (self.new ≡ with_text self.old id (text self.old id ++ elements.now)) }
        ensures keeps { (other : ℕ) → IsOpen self.old other → IsOpen self.new other }
        ensures err { OnErr result (self.new ≡ self.old) }
    {
        let used = self.used as usize;
        let count = elements.len();
        if count > self.capacity - used {
            return Err(Full);
        }
        if count == 0 {
            return Ok(());
        }
        let index = id.index as usize;
        self.elements.lengthen(used + count, elements[0]);
        bring_last(&mut self.elements, &mut self.slots, self.used, index);
        write_at(&mut self.elements, used, elements);
        self.slots[index].len += count as u32;
        self.used += count as u32;
        Ok(())
    }

    /// Puts a copy of the first `len` elements of the text of `from` at the end of the text of `to`. It fails if there
    /// is no room for them, and then nothing has changed.
    pub fn copy_first(&mut self, from: Id, len: usize, to: Id) -> Result<(), Full>
        requires from_open { IsOpen self.old from }
        requires to_open { IsOpen self.old to }
        requires within { len ≤ length (text self.old from) }
        ensures full { IsErr result ↔ (self.old.capacity < used self.old + len) }
        ensures ok { OnOk result (self.new ≡ with_text self.old to (text self.old to ++ take len (text self.old from))) }
        ensures keeps { (other : ℕ) → IsOpen self.old other → IsOpen self.new other }
        ensures err { OnErr result (self.new ≡ self.old) }
    {
        let used = self.used as usize;
        if len > self.capacity - used {
            return Err(Full);
        }
        if len == 0 {
            return Ok(());
        }
        let index = to.index as usize;
        let element = self.get(from, 0);
        self.elements.lengthen(used + len, element);
        bring_last(&mut self.elements, &mut self.slots, self.used, index);
        let start = self.slots[from.index as usize].start as usize;
        self.elements.copy_within(start..start + len, used);
        self.slots[index].len += len as u32;
        self.used += len as u32;
        Ok(())
    }

    /// Whether the elements of a text lie after all others. It is asked for speed alone.
    pub fn lies_last(&self, id: Id) -> bool
        requires { IsOpen self.now id }
    {
        let Slot { start, len, .. } = self.slots[id.index as usize];
        start as usize + len as usize == self.used as usize
    }

    /// Gives the text of `from` to `to`, which has no elements; none of them moves but to lie last.
    pub fn give(&mut self, from: Id, to: Id)
        requires from_open { IsOpen self.old from }
        requires to_open { IsOpen self.old to }
        requires apart { from ≢ to }
        requires empty { text self.old to ≡ [] }
        ensures given { self.new ≡ with_text (with_text self.old from []) to (text self.old from) }
    {
        let (from, to) = (from.index as usize, to.index as usize);
        bring_last(&mut self.elements, &mut self.slots, self.used, from);
        give_last(&mut self.slots, from, to);
    }

    /// Takes all but the first `len` elements from a text; none, if it has no more than these.
    pub fn truncate(&mut self, id: Id, len: usize)
        requires { IsOpen self.old id }
        ensures truncated { self.new ≡ with_text self.old id (take len (text self.old id)) }
        ensures keeps { (other : ℕ) → IsOpen self.old other → IsOpen self.new other }
    {
        if len >= self.len(id) {
            return;
        }
        let index = id.index as usize;
        bring_last(&mut self.elements, &mut self.slots, self.used, index);
        let slot = &mut self.slots[index];
        self.used -= slot.len - len as u32;
        slot.len = len as u32;
    }

    /// Takes all elements from a text, which stays, with its holders.
    pub fn clear(&mut self, id: Id)
        requires { IsOpen self.old id }
        ensures cleared { self.new ≡ with_text self.old id [] }
        ensures keeps { (other : ℕ) → IsOpen self.old other → IsOpen self.new other }
    {
        self.truncate(id, 0);
    }
}

/// Writes elements from a place on over those that stand there.
fn write_at<T: Copy>(elements: &mut ReservedVec<T>, place: usize, more: &[T])
    requires { place + length more.now ≤ length elements.old.items }
    ensures items { elements.new.items ≡ written elements.old.items place more.now }
    ensures len { length elements.new.items ≡ length elements.old.items }
    ensures room { elements.new.capacity ≡ elements.old.capacity }
{
    let places = elements.as_mut_slice();
    places[place..place + more.len()].copy_from_slice(more);
}
