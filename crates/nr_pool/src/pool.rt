//! Texts, of which two may share elements.
ghost use Rattle.std.specs.Prelude.{◌≡◌, ◌≢◌, ℕ, ◌+◌, ◌^◌, ◌<◌, ◌≤◌, ◌↔◌, [], ◌∷◌, ◌++◌, length, take, replicate, All, IsErr, IfOk, OnOk, OnErr, IsTrue, slice_get, slice_set, Some};
ghost use Rattle.nr_pool.specs.Texts.{IsOpen, text, holders, used, no_text, opened, with_text, with_holders, without_text, released};

use crate::packed::Packed;
use crate::sharing::{Share, is_shared, part_if, ready_for, removable, used, whole_only};
use crate::{Full, Id};
use nr_vectors::CountedAlloc;
use std::alloc::AllocError;
use std::marker::Model;

/// Texts of elements of `T`, with room for a number of elements and texts that stays. Memory for all of them is taken by
/// `new`, the only call that allocates, and touched as they come. A text keeps its `Id` until it is removed, whatever
/// happens to other texts; the `Id` of a removed text may be given again. Beside each text stands how many hold it, which
/// only `open`, `hold`, `release` and `close` change.
///
/// A call that makes a text longer or shorter first brings its elements after those of all other texts: in constant time
/// where they lie there or there are none; else in one pass over the slots that have had a text since all were removed, and
/// as many steps as it has elements where the text that lies last is as long, for then the two change places; else in such
/// a pass and one rotation of the elements from the text on. A call that removes a text takes constant time where it lies
/// last or has no elements; else such passes, and as many steps as it has elements where more than 64 lie after it and
/// the text that lies last is as long; else one move of the elements after it. Beside that each takes constant time, and
/// that of a copy of the elements that it is given. A copy of a text that lies after all others, in one without elements,
/// takes constant time where no two texts share elements: these two do from then on. The part gets elements of its own by
/// the call that changes it, that shortens the whole or writes in it, or that removes the whole before the part.
///
/// Proved: Each call for one text leaves all other texts as they are.
#[derive(Drop)]
pub struct Pool<T: Copy> {
    texts: Packed<T>,
    share: Option<Share>,
}

impl<T: Copy> Model for Pool<T> {
    ghost use Rattle.nr_pool.specs.Texts.{Texts};
    ghost use Rattle.nr_pool.specs.Sharing.{MayShare, seen};

    ghost Value = { Texts T };

    ghost view = { λ p. seen p.texts p.share };

    ghost invariant = { λ p. MayShare p.texts p.share };
}

impl<T: Copy> Pool<T> {
    /// A pool with no texts, and room for so many elements in so many texts: `AllocError` where there is no memory for
    /// them. A slot counts in 32 bits, so there are fewer than 2^32 of each.
    pub fn new(
        alloc: &mut CountedAlloc,
        capacity: usize,
        most: usize,
    ) -> Result<Pool<T>, AllocError>
        requires elements_fit { capacity < 2 ^ 32 }
        requires slots_fit { most < 2 ^ 32 }
        ensures capacity { IfOk result (λ made. made.capacity ≡ capacity) }
        ensures empty { IfOk result (λ made. made.texts ≡ replicate most no_text) }
        ensures taken { IfOk result (λ made. alloc.new ≡ alloc.old + capacity + most) }
    {
        Ok(Pool {
            texts: Packed::new(alloc, capacity, most)?,
            share: None,
        })
    }

    /// A new text, with no elements and one holder, in constant time. It fails if every number has a text,
    /// and then nothing has changed.
    ///
    /// Proved: A text is opened empty, with one holder, under a number that had none; it is refused exactly where
    /// every number has a text.
    pub fn open(&mut self) -> Result<Id, Full>
        ensures full { IsErr result ↔ All (λ t. 0 < t.holders) self.old.texts }
        ensures unused { IfOk result (λ id. slice_get self.old.texts id ≡ Some no_text) }
        ensures ok { IfOk result (λ id. self.new ≡ opened self.old id) }
        ensures is_open { IfOk result (λ id. IsOpen self.new id) }
        ensures apart { IfOk result (λ id. (other : ℕ) → IsOpen self.old other → other ≢ id) }
        ensures keeps { (other : ℕ) → IsOpen self.old other → IsOpen self.new other }
        ensures err { OnErr result (self.new ≡ self.old) }
    {
        self.texts.open()
    }

    /// How many elements there is memory for, as their vector tells.
    pub fn element_memory(&self) -> usize
        ensures { result ≡ self.now.capacity }
    {
        self.texts.element_memory()
    }

    /// How many texts there is memory for, as their vector tells.
    pub fn text_memory(&self) -> usize
        ensures { result ≡ length self.now.texts }
    {
        self.texts.text_memory()
    }

    /// How many elements all texts have.
    #[inline]
    pub fn used(&self) -> usize
        ensures value { result ≡ used self.now }
        ensures within { result ≤ self.now.capacity }
    {
        used(&self.texts, &self.share)
    }

    /// Whether `id` is the number of a text.
    pub fn is_open(&self, id: Id) -> bool
        ensures { IsTrue result ↔ IsOpen self.now id }
    {
        self.texts.is_open(id)
    }

    /// How many hold a text: at least one, and fewer than 2^32.
    ///
    /// Proved: How many hold a text is reported, how long it is, and how many elements all texts have.
    /// (`Pool::{holders, len, used}`)
    pub fn holders(&self, id: Id) -> usize
        requires { IsOpen self.now id }
        ensures { result ≡ holders self.now id }
    {
        self.texts.holders(id)
    }

    /// One holder more of a text. The caller keeps the number of holders below 2^32.
    ///
    /// Proved: A text goes with its last holder. (`Pool::{hold, release, close}`)
    pub fn hold(&mut self, id: Id)
        requires is_open { IsOpen self.old id }
        requires fits { holders self.old id + 1 < 2 ^ 32 }
        ensures held { self.new ≡ with_holders self.old id (holders self.old id + 1) }
        ensures keeps { (other : ℕ) → IsOpen self.old other → IsOpen self.new other }
    {
        self.texts.hold(id);
    }

    /// One holder less of a text, which is removed where that was the last.
    pub fn release(&mut self, id: Id)
        requires { IsOpen self.old id }
        ensures released { self.new ≡ released self.old id }
        ensures keeps { (other : ℕ) → other ≢ id → IsOpen self.old other → IsOpen self.new other }
    {
        if self.texts.holders(id) == 1 {
            self.close(id);
        } else {
            self.texts.release(id);
        }
    }

    /// Removes a text, which has one holder. Its number may be that of a new text.
    pub fn close(&mut self, id: Id)
        requires { holders self.old id ≡ 1 }
        ensures closed { self.new ≡ without_text self.old id }
        ensures keeps { (other : ℕ) → other ≢ id → IsOpen self.old other → IsOpen self.new other }
    {
        self.share = removable(&mut self.texts, self.share, id);
        self.texts.close(id);
    }

    /// Removes all texts, whoever holds them, in constant time.
    ///
    /// Proved: All texts are removed at once.
    pub fn remove_all(&mut self)
        ensures capacity { self.new.capacity ≡ self.old.capacity }
        ensures empty { self.new.texts ≡ replicate (length self.old.texts) no_text }
    {
        self.share = None;
        self.texts.remove_all();
    }

    /// Takes the texts of another pool with as much room, under their numbers, in place of its own. It takes as many steps as the
    /// other has had elements and texts since all were removed.
    ///
    /// Proved: A pool is made equal to another with as much room.
    pub fn copy_from(&mut self, other: &Pool<T>)
        requires capacity { other.now.capacity ≡ self.old.capacity }
        requires texts { length other.now.texts ≡ length self.old.texts }
        ensures { self.new ≡ other.now }
    {
        self.texts.copy_from(&other.texts);
        self.share = other.share;
    }

    /// How many elements a text has.
    pub fn len(&self, id: Id) -> usize
        requires { IsOpen self.now id }
        ensures { result ≡ length (text self.now id) }
    {
        match self.share {
            Some(share) if share.part.is(id) => share.len,
            _ => self.texts.len(id),
        }
    }

    /// The element at a place of a text.
    ///
    /// Proved: An element is read or replaced at its place, and a text is shortened or emptied. (`Pool::{get, text,
    /// set, truncate, clear}`)
    pub fn get(&self, id: Id, place: usize) -> T
        requires is_open { IsOpen self.now id }
        requires within { place < length (text self.now id) }
        ensures { slice_get (text self.now id) place ≡ Some result }
    {
        match self.share {
            Some(share) if share.part.is(id) => self.texts.get(share.whole, place),
            _ => self.texts.get(id, place),
        }
    }

    /// A text as one slice.
    pub fn text(&self, id: Id) -> &[T]
        requires { IsOpen self.now id }
        ensures { result.now ≡ text self.now id }
    {
        match self.share {
            Some(share) if share.part.is(id) => &self.texts.text(share.whole)[..share.len],
            _ => self.texts.text(id),
        }
    }

    /// Puts another element at a place of a text.
    pub fn set(&mut self, id: Id, place: usize, element: T)
        requires is_open { IsOpen self.old id }
        requires within { place < length (text self.old id) }
        ensures replaced { self.new ≡ with_text self.old id (slice_set (text self.old id) place element) }
        ensures keeps { (other : ℕ) → IsOpen self.old other → IsOpen self.new other }
    {
        self.share = part_if(&mut self.texts, self.share, is_shared(&self.share, id));
        self.texts.set(id, place, element);
    }

    /// Puts an element at the end of a text. It fails if the texts have as many elements as there is room
    /// for, and then nothing has changed.
    ///
    /// Proved: Elements are added at the end of a text; they are refused exactly where all texts together would have
    /// more than there is room for, and then nothing has changed. (`Pool::{append, append_slice, copy_text}`)
    pub fn append(&mut self, id: Id, element: T) -> Result<(), Full>
        requires { IsOpen self.old id }
        ensures full { IsErr result ↔ (used self.old ≡ self.old.capacity) }
        ensures ok { OnOk result (self.new ≡ with_text self.old id (text self.old id ++ element ∷ [])) }
        ensures keeps { (other : ℕ) → IsOpen self.old other → IsOpen self.new other }
        ensures err { OnErr result (self.new ≡ self.old) }
    {
        self.share = ready_for(&mut self.texts, self.share, id, 1)?;
        self.texts.append(id, element)
    }

    /// Puts elements at the end of a text. It fails if there is no room for all of them, and then nothing has
    /// changed.
    pub fn append_slice(&mut self, id: Id, elements: &[T]) -> Result<(), Full>
        requires { IsOpen self.old id }
        ensures full { IsErr result ↔ (self.old.capacity < used self.old + length elements.now) }
        ensures ok { OnOk result (self.new ≡ with_text self.old id (text self.old id ++ elements.now)) }
        ensures keeps { (other : ℕ) → IsOpen self.old other → IsOpen self.new other }
        ensures err { OnErr result (self.new ≡ self.old) }
    {
        self.share = ready_for(&mut self.texts, self.share, id, elements.len())?;
        self.texts.append_slice(id, elements)
    }

    /// Puts a copy of the text of `from` at the end of the text of `to`. It fails if there is no room for it,
    /// and then nothing has changed.
    pub fn copy_text(&mut self, from: Id, to: Id) -> Result<(), Full>
        requires from_open { IsOpen self.old from }
        requires to_open { IsOpen self.old to }
        ensures full { IsErr result ↔ (self.old.capacity < used self.old + length (text self.old from)) }
        ensures ok { OnOk result (self.new ≡ with_text self.old to (text self.old to ++ text self.old from)) }
        ensures keeps { (other : ℕ) → IsOpen self.old other → IsOpen self.new other }
        ensures err { OnErr result (self.new ≡ self.old) }
    {
        let len = self.len(from);
        if len > self.texts.element_memory() - used(&self.texts, &self.share) {
            return Err(Full);
        }
        if self.share.is_none()
            && self.texts.len(to) == 0
            && self.texts.lies_last(from)
            && !from.is(to)
        {
            self.texts.give(from, to);
            self.share = Some(Share {
                part: from,
                whole: to,
                len,
            });
            return Ok(());
        }
        self.share = whole_only(&mut self.texts, self.share, from);
        self.share = whole_only(&mut self.texts, self.share, to);
        self.texts.copy_first(from, len, to)
    }

    /// Takes all but the first `len` elements from a text; none, if it has no more than these.
    pub fn truncate(&mut self, id: Id, len: usize)
        requires { IsOpen self.old id }
        ensures truncated { self.new ≡ with_text self.old id (take len (text self.old id)) }
        ensures keeps { (other : ℕ) → IsOpen self.old other → IsOpen self.new other }
    {
        if len >= self.len(id) {
            return;
        }
        self.share = part_if(&mut self.texts, self.share, is_shared(&self.share, id));
        self.texts.truncate(id, len);
    }

    /// Takes all elements from a text, which stays, with its holders.
    pub fn clear(&mut self, id: Id)
        requires { IsOpen self.old id }
        ensures cleared { self.new ≡ with_text self.old id [] }
        ensures keeps { (other : ℕ) → IsOpen self.old other → IsOpen self.new other }
    {
        self.truncate(id, 0);
    }
}
