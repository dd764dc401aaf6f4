//! Items in room that is lent: what lies beyond it is not there.
ghost use Rattle.std.specs.Prelude.{◌≡◌, get_or};
ghost use Rattle.tbl_table.specs.Lists as specs;

use nr_vectors::FixedVec;

/// The item at a place, or another where there is none.
pub fn item_at<T: Copy>(items: &FixedVec<T>, place: usize, other: T) -> T
    ensures { result ≡ get_or items.now.items place other }
{
    if place < items.len() {
        items.get(place)
    } else {
        other
    }
}

/// Puts another item at a place, if there is one.
pub fn set_item<T: Copy>(items: &mut FixedVec<T>, place: usize, item: T)
    ensures { items.new ≡ specs.put place item items.old }
{
    if place < items.len() {
        items.set(place, item);
    }
}

/// Adds an item, if there is room.
pub fn add_item<T: Copy>(items: &mut FixedVec<T>, item: T)
    ensures { items.new ≡ specs.added item items.old }
{
    if items.len() < items.capacity() {
        items.push(item);
    }
}

/// Adds an item so many times, as long as there is room.
pub fn add_each<T: Copy>(items: &mut FixedVec<T>, count: usize, item: T)
    ensures { items.new ≡ specs.added_each count item items.old }
{
    for _ in 0..count {
        add_item(items, item);
    }
}
