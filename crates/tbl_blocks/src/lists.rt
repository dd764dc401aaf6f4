//! Items in room that is lent: what lies beyond it is not there.
ghost use Rattle.std.specs.Prelude.{◌≡◌};
ghost use Rattle.tbl_blocks.specs.Lists as specs;

use nr_vectors::FixedVec;

/// Adds an item, if there is room.
pub(crate) fn add_item<T: Copy>(items: &mut FixedVec<T>, item: T)
    ensures { items.new ≡ specs.added item items.old }
{
    if items.len() < items.capacity() {
        items.push(item);
    }
}
