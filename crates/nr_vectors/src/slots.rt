//! Slots in a row, the first of which hold items: what is added to these, and taken away.
ghost use Rattle.std.specs.Prelude.{◌≡◌, ◌+◌, ◌-◌, ◌<◌, ◌≤◌, ◌++◌, length, take, replicate, true, false};
ghost use Rattle.std.specs.List.{insert, remove};

/// How many items are copied at once where no more than so many are added.
const CHUNK: usize = 8;

/// Writes items after the first `len`.
#[inline]
pub(crate) fn add<T: Copy>(slots: &mut [T], len: usize, more: &[T])
    requires { len + length more.now ≤ length slots.old }
    ensures items { take (len + length more.now) slots.new ≡ take len slots.old ++ more.now }
    ensures number { length slots.new ≡ length slots.old }
{
    slots[len..len + more.len()].copy_from_slice(more);
}

/// Writes the first n of these items after the first `len`, where these are few and there are slots for a few more: then a few
/// more are copied, as a copy of a fixed length is the cheapest. Else it writes none, and returns false.
#[inline(always)]
pub(crate) fn add_few<T: Copy>(slots: &mut [T], len: usize, more: &[T], n: usize) -> bool
    requires { len ≤ length slots.old }
    ensures items { result ≡ true → take (len + n) slots.new ≡ take len slots.old ++ take n more.now }
    ensures within { result ≡ true → len + n ≤ length slots.new }
    ensures left { result ≡ false → slots.new ≡ slots.old }
    ensures number { length slots.new ≡ length slots.old }
{
    if n <= CHUNK && more.len() >= CHUNK && slots.len() - len >= CHUNK {
        slots[len..len + CHUNK].copy_from_slice(&more[..CHUNK]);
        return true;
    }
    false
}

/// Writes n copies of an item after the first `len`.
#[inline]
pub(crate) fn add_copies<T: Copy>(slots: &mut [T], len: usize, item: T, n: usize)
    requires { len + n ≤ length slots.old }
    ensures items { take (len + n) slots.new ≡ take len slots.old ++ replicate n item }
    ensures number { length slots.new ≡ length slots.old }
{
    set_all(&mut slots[len..len + n], item);
}

/// The same where these are few and there are slots for a few more: else it writes none, and returns false.
#[inline(always)]
pub(crate) fn add_few_copies<T: Copy>(slots: &mut [T], len: usize, item: T, n: usize) -> bool
    requires { len ≤ length slots.old }
    ensures items { result ≡ true → take (len + n) slots.new ≡ take len slots.old ++ replicate n item }
    ensures within { result ≡ true → len + n ≤ length slots.new }
    ensures left { result ≡ false → slots.new ≡ slots.old }
    ensures number { length slots.new ≡ length slots.old }
{
    if n <= CHUNK && slots.len() - len >= CHUNK {
        slots[len..len + CHUNK].copy_from_slice(&[item; CHUNK]);
        return true;
    }
    false
}

/// Writes copies of an item after the first `len`, and after them the first n of these items, where both are few and there are
/// slots for a few more of both: else it writes none, and returns false.
#[inline(always)]
pub(crate) fn add_few_after_copies<T: Copy>(
    slots: &mut [T],
    len: usize,
    item: T,
    copies: usize,
    more: &[T],
    n: usize,
) -> bool
    requires { len ≤ length slots.old }
    ensures items { result ≡ true → take (len + copies + n) slots.new ≡ take len slots.old
        ++ replicate copies item ++ take n more.now }
    ensures within { result ≡ true → len + copies + n ≤ length slots.new }
    ensures left { result ≡ false → slots.new ≡ slots.old }
    ensures number { length slots.new ≡ length slots.old }
{
    if copies <= CHUNK && n <= CHUNK && more.len() >= CHUNK && slots.len() - len >= 2 * CHUNK {
        let near = &mut slots[len..len + 2 * CHUNK];
        near[..CHUNK].copy_from_slice(&[item; CHUNK]);
        near[copies..copies + CHUNK].copy_from_slice(&more[..CHUNK]);
        return true;
    }
    false
}

/// Puts an item before the one at a place of the first `len`, or after them.
#[inline]
pub(crate) fn insert_item<T: Copy>(slots: &mut [T], len: usize, place: usize, item: T)
    requires within { place ≤ len }
    requires room { len < length slots.old }
    ensures items { take (len + 1) slots.new ≡ insert (take len slots.old) place item }
    ensures number { length slots.new ≡ length slots.old }
{
    slots.copy_within(place..len, place + 1);
    slots[place] = item;
}

/// Takes the item at a place of the first `len` away.
#[inline]
pub(crate) fn remove_item<T: Copy>(slots: &mut [T], len: usize, place: usize)
    requires within { place < len }
    requires number { len ≤ length slots.old }
    ensures items { take (len - 1) slots.new ≡ remove (take len slots.old) place }
    ensures number { length slots.new ≡ length slots.old }
{
    slots.copy_within(place + 1..len, place);
}

/// Puts the item everywhere.
fn set_all<T: Copy>(slots: &mut [T], item: T)
    ensures { slots.new ≡ replicate (length slots.old) item }
{
    for slot in slots.iter_mut() {
        *slot = item;
    }
}
