//! Where the texts of a pool lie.
ghost use Rattle.std.specs.Prelude.{◌≡◌, ◌≢◌, ℕ, ◌+◌, ◌-◌, ◌^◌, ◌<◌, ◌≤◌, ◌⊎◌, [], ◌∷◌, ◌++◌, length, map, take, drop, IfSome, None};
ghost use Rattle.nr_pool.specs.Slot.{texts_of, slot_at, blank_slot, is_after, shifted, given, IsPacked};
ghost use Rattle.nr_pool.specs.Spares.{HasSpares};
ghost use Rattle.nr_pool.specs.Exchange.{LiesAt, IsSwapped, IsExchanged};
ghost use Rattle.nr_pool.specs.Removal.{spare_before, IsRemoved};

use nr_vectors::ReservedVec;

/// How many elements are moved one by one, and among how many.
const FEW: usize = 8;

const SHORT: usize = 64;

/// How many elements after a text that is removed move to the beginning in any case.
const MUCH: u32 = 64;

/// What a `Pool` keeps for one text: 12 bytes.
#[derive(Clone, Copy, Drop)]
pub struct Slot {
    // The place of the text's first element; of no account while it has none.
    // In a slot with no text, the next spare slot.
    pub(crate) start: u32,
    pub(crate) len: u32,
    // 0 where there is no text.
    pub(crate) holders: u32,
}

impl Slot {
    /// A slot with no text, to fill a new slice with.
    pub const fn blank() -> Slot
        ensures { result ≡ blank_slot }
    {
        Slot {
            start: 0,
            len: 0,
            holders: 0,
        }
    }

    // A slot with no text, before `next` among the spare ones.
    #[inline(always)]
    fn spare(next: u32) -> Slot
        ensures { result ≡ spare_before next }
    {
        Slot {
            start: next,
            len: 0,
            holders: 0,
        }
    }

    // Whether the text has elements and begins at `end` or after it.
    fn is_after(&self, end: u32) -> bool
        ensures { result ≡ is_after end self.now }
    {
        self.len > 0 && self.start >= end
    }
}

// How many spare slots there are, and the first of them: where there was none, a new one after all others, if there may be
// so many.
pub(crate) fn spare_of(
    slots: &mut ReservedVec<Slot>,
    most: usize,
    count: usize,
    first: u32,
) -> Option<(usize, u32)>
    requires spares { HasSpares slots.old.items count first }
    requires few { length slots.old.items ≤ most }
    requires small { most < 2 ^ 32 }
    requires room { most ≤ slots.old.capacity }
    ensures none { result ≡ None → (count ≡ 0) × ((length slots.old.items ≡ most) × (slots.new ≡ slots.old)) }
    ensures some { IfSome result (λ found. 0 < found.0) }
    ensures spares { IfSome result (λ found. HasSpares slots.new.items found.0 found.1) }
    ensures same { (slots.new.items ≡ slots.old.items) ⊎ (slots.new.items ≡ slots.old.items
        ++ blank_slot ∷ []) }
    ensures few { length slots.new.items ≤ most }
    ensures room { slots.new.capacity ≡ slots.old.capacity }
{
    if count > 0 {
        return Some((count, first));
    }
    let index = slots.len();
    if index == most {
        return None;
    }
    slots.push(Slot::blank());
    Some((1, index as u32))
}

// A text of this length that begins here, if there is one.
fn text_at(slots: &[Slot], start: u32, len: u32) -> Option<usize>
    ensures { IfSome result (λ i. LiesAt slots.now i start len) }
{
    for i in 0..slots.len() {
        if slots[i].start == start && slots[i].len == len {
            return Some(i);
        }
    }
    None
}

// Exchanges two parts of the same length, the first of which lies before the other.
fn swap_parts<T: Copy>(elements: &mut [T], first: usize, second: usize, len: usize)
    requires apart { first + len ≤ second }
    requires within { second + len ≤ length elements.old }
    ensures { IsSwapped elements.old elements.new first second len }
{
    for k in 0..len {
        let element = elements[first + k];
        elements[first + k] = elements[second + k];
        elements[second + k] = element;
    }
}

// Exchanges the places of the text at `index` and of the text at `last`, which lies after all others and is as long.
fn exchange<T: Copy>(elements: &mut [T], slots: &mut [Slot], used: u32, index: usize, last: usize)
    requires packed { IsPacked (length elements.old) slots.old used }
    requires within { index < length slots.old }
    requires last { let s = slot_at slots.old index in LiesAt slots.old last (used - s.len) s.len }
    requires before { let s = slot_at slots.old index in (0 < s.len) × (s.start + s.len ≢ used) }
    ensures { IsExchanged elements.old elements.new slots.old slots.new used index }
{
    let Slot { start, len, .. } = slots[index];
    let end = used - len;
    swap_parts(elements, start as usize, end as usize, len as usize);
    slots[index].start = end;
    slots[last].start = start;
}

// Moves the first n elements after the others. Where they are few they go one by one: the room in which `rotate_left` has them wait
// is large, and cleared each time.
#[inline]
fn rotate<T: Copy>(part: &mut [T], n: usize)
    requires { n ≤ length part.old }
    ensures after { part.new ≡ drop n part.old ++ take n part.old }
{
    if n > FEW || part.len() > SHORT {
        part.rotate_left(n);
        return;
    }
    for _ in 0..n {
        part.rotate_left(1);
    }
}

// The texts with elements that begin at `end` or after it begin n further down.
#[inline(always)]
fn shift_after(slots: &mut [Slot], end: u32, n: u32)
    requires { n ≤ end }
    ensures { slots.new ≡ map (shifted end n) slots.old }
{
    for i in 0..slots.len() {
        let slot = &mut slots[i];
        if slot.is_after(end) {
            slot.start -= n;
        }
    }
}

// Moves the text at `index` after all others: the elements from it on are rotated, and the texts after it begin earlier.
fn rotate_last<T: Copy>(elements: &mut [T], slots: &mut [Slot], used: u32, index: usize)
    requires packed { IsPacked (length elements.old) slots.old used }
    requires within { index < length slots.old }
    requires held { 0 < (slot_at slots.old index).holders }
    ensures packed { IsPacked (length elements.new) slots.new used }
    ensures last { (slot_at slots.new index).start + (slot_at slots.new index).len ≡ used }
    ensures spares { (count first : ℕ) → HasSpares slots.old count first → HasSpares slots.new count first }
    ensures same { texts_of elements.new slots.new ≡ texts_of elements.old slots.old }
{
    let Slot { start, len, .. } = slots[index];
    if len == 0 {
        slots[index].start = used;
        return;
    }
    let end = start + len;
    if end == used {
        return;
    }
    rotate(&mut elements[start as usize..used as usize], len as usize);
    shift_after(slots, end, len);
    slots[index].start = used - len;
}

// Moves the text at `index` after all others, into the elements that end at `used`. Where the text that lies last is
// as long, the two change places.
#[inline(never)]
fn move_last<T: Copy>(elements: &mut [T], slots: &mut [Slot], used: u32, index: usize)
    requires packed { IsPacked (length elements.old) slots.old used }
    requires within { index < length slots.old }
    requires held { 0 < (slot_at slots.old index).holders }
    ensures packed { IsPacked (length elements.new) slots.new used }
    ensures last { (slot_at slots.new index).start + (slot_at slots.new index).len ≡ used }
    ensures spares { (count first : ℕ) → HasSpares slots.old count first → HasSpares slots.new count first }
    ensures same { texts_of elements.new slots.new ≡ texts_of elements.old slots.old }
{
    let Slot { start, len, .. } = slots[index];
    if len > 0 && start + len < used {
        if let Some(last) = text_at(slots, used - len, len) {
            exchange(elements, slots, used, index, last);
            return;
        }
    }
    rotate_last(elements, slots, used, index);
}

// The same in vectors: at once where the text lies there or has no elements.
#[inline(always)]
pub(crate) fn bring_last<T: Copy>(
    elements: &mut ReservedVec<T>,
    slots: &mut ReservedVec<Slot>,
    used: u32,
    index: usize,
)
    requires packed { IsPacked (length elements.old.items) slots.old.items used }
    requires within { index < length slots.old.items }
    requires held { 0 < (slot_at slots.old.items index).holders }
    ensures packed { IsPacked (length elements.new.items) slots.new.items used }
    ensures last { (slot_at slots.new.items index).start + (slot_at slots.new.items index).len ≡ used }
    ensures spares { (count first : ℕ) → HasSpares slots.old.items count first
        → HasSpares slots.new.items count first }
    ensures same { texts_of elements.new.items slots.new.items ≡ texts_of elements.old.items slots.old.items }
    ensures elements { length elements.new.items ≡ length elements.old.items }
    ensures slots { length slots.new.items ≡ length slots.old.items }
    ensures elements_room { elements.new.capacity ≡ elements.old.capacity }
    ensures slots_room { slots.new.capacity ≡ slots.old.capacity }
{
    let Slot { start, len, .. } = slots[index];
    if len == 0 {
        slots[index].start = used;
        return;
    }
    if start + len == used {
        return;
    }
    move_last(elements.as_mut_slice(), slots.as_mut_slice(), used, index);
}

// Gives the text at `from`, which lies last, to `to`, which has no elements.
pub(crate) fn give_last(slots: &mut ReservedVec<Slot>, from: usize, to: usize)
    requires from_within { from < length slots.old.items }
    requires to_within { to < length slots.old.items }
    ensures given { slots.new.items ≡ given slots.old.items from to }
    ensures room { slots.new.capacity ≡ slots.old.capacity }
{
    let Slot { start, len, .. } = slots[from];
    slots[from].len = 0;
    let slot = &mut slots[to];
    slot.start = start;
    slot.len = len;
}

// Removes the text at `index`, after which others lie; its slot is the first spare one then, before `next`. What lies
// after it moves to the front. Where that is much and the text that lies last is as long, the two change places first,
// so that nothing else moves.
#[inline(never)]
fn remove_before_others<T: Copy>(
    elements: &mut [T],
    slots: &mut [Slot],
    used: u32,
    index: usize,
    next: u32,
)
    requires packed { IsPacked (length elements.old) slots.old used }
    requires within { index < length slots.old }
    requires held { 0 < (slot_at slots.old index).holders }
    requires before { let s = slot_at slots.old index in (0 < s.len) × (s.start + s.len ≢ used) }
    ensures { IsRemoved elements.old elements.new slots.old slots.new used index next }
{
    let Slot { start, len, .. } = slots[index];
    let end = start + len;
    if used - end > MUCH {
        if let Some(last) = text_at(slots, used - len, len) {
            exchange(elements, slots, used, index, last);
            slots[index] = Slot::spare(next);
            return;
        }
    }
    slots[index] = Slot::spare(next);
    elements.copy_within(end as usize..used as usize, start as usize);
    shift_after(slots, end, len);
}

// The same in vectors, at once where no others lie after it or it has no elements. It gives how many it had.
#[inline(always)]
pub(crate) fn remove_text<T: Copy>(
    elements: &mut ReservedVec<T>,
    slots: &mut ReservedVec<Slot>,
    used: u32,
    index: usize,
    next: u32,
) -> u32
    requires packed { IsPacked (length elements.old.items) slots.old.items used }
    requires within { index < length slots.old.items }
    requires held { 0 < (slot_at slots.old.items index).holders }
    ensures removed { IsRemoved elements.old.items elements.new.items slots.old.items slots.new.items
        used index next }
    ensures len { result ≡ (slot_at slots.old.items index).len }
    ensures within { result ≤ used }
    ensures elements { length elements.new.items ≡ length elements.old.items }
    ensures slots { length slots.new.items ≡ length slots.old.items }
    ensures elements_room { elements.new.capacity ≡ elements.old.capacity }
    ensures slots_room { slots.new.capacity ≡ slots.old.capacity }
{
    let Slot { start, len, .. } = slots[index];
    if len == 0 || start + len == used {
        slots[index] = Slot::spare(next);
        return len;
    }
    remove_before_others(
        elements.as_mut_slice(),
        slots.as_mut_slice(),
        used,
        index,
        next,
    );
    len
}
