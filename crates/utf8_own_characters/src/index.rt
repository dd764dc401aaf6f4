//! Where to look for a cluster first. What is found is compared, so that nothing rests on the slots but the time.
ghost use Rattle.std.specs.Prelude.{◌<◌, length, IfSome};

use super::cluster::Cluster;

/// How many slots are looked at before a cluster is looked for everywhere.
pub(crate) const PROBES: usize = 8;

/// What is no place.
pub(crate) const NOWHERE: usize = 65_535;

/// The first slot of a cluster.
#[inline]
pub(crate) fn slot_of(cluster: &Cluster, slots: usize) -> usize
    requires { 0 < slots }
    ensures { result < slots }
{
    let marks = u32::from(cluster.first_mark).wrapping_mul(31)
        ^ u32::from(cluster.second_mark).wrapping_mul(1_009)
        ^ u32::from(cluster.third_mark).wrapping_mul(65_599);
    let mixed = (u32::from(cluster.letter) ^ marks).wrapping_mul(0x9E37_79B1);
    (mixed / 65_536) as usize % slots
}

/// The slot after one.
#[inline]
pub(crate) fn next(slot: usize, slots: usize) -> usize
    requires { slot < slots }
    ensures { result < slots }
{
    if slot + 1 < slots { slot + 1 } else { 0 }
}

/// Whether a cluster stands at a place, from 128 on among the wide ones.
#[inline]
fn is_at(narrow: &[Cluster], wide: &[Cluster], place: usize, cluster: &Cluster) -> bool {
    if place < 128 {
        return place < narrow.len() && narrow[place].is_same(cluster);
    }
    place - 128 < wide.len() && wide[place - 128].is_same(cluster)
}

/// The place in the first slot of a cluster, at which another one may stand.
#[inline(always)]
pub(crate) fn first_place(slots: &[u16], cluster: &Cluster) -> usize {
    if slots.is_empty() {
        return NOWHERE;
    }
    let slot = slot_of(cluster, slots.len());
    usize::from(slots[slot]).saturating_sub(1)
}

/// Where a cluster may stand.
pub(crate) fn guess(
    narrow: &[Cluster],
    wide: &[Cluster],
    slots: &[u16],
    cluster: &Cluster,
) -> usize {
    if slots.is_empty() {
        return NOWHERE;
    }
    let mut slot = slot_of(cluster, slots.len());
    for _ in 0..PROBES {
        let place = usize::from(slots[slot]);
        if place == 0 {
            return NOWHERE;
        }
        if is_at(narrow, wide, place - 1, cluster) {
            return place - 1;
        }
        slot = next(slot, slots.len());
    }
    NOWHERE
}

/// The first free slot of a cluster, if one is near.
fn free_slot(slots: &[u16], cluster: &Cluster) -> Option<usize>
    ensures { IfSome result (λ slot. slot < length slots.now) }
{
    if slots.is_empty() {
        return None;
    }
    let mut slot = slot_of(cluster, slots.len());
    for _ in 0..PROBES {
        if slots[slot] == 0 {
            return Some(slot);
        }
        slot = next(slot, slots.len());
    }
    None
}

/// Puts a place into a slot of its cluster. Places from 128 on are those of wide ones.
pub(crate) fn put(slots: &mut [u16], cluster: &Cluster, place: usize) {
    if place < NOWHERE {
        if let Some(slot) = free_slot(slots, cluster) {
            slots[slot] = place as u16 + 1;
        }
    }
}

/// The places of cells, the first of which has this one.
fn put_all(slots: &mut [u16], cells: &[Cluster], first: usize) {
    let mut place = first;
    for cell in cells {
        put(slots, cell, place);
        place = place.saturating_add(1);
    }
}

/// Fills the slots, so that `OwnTable::code` looks in the right place first. Twice as many slots as characters are enough.
pub fn fill_slots(narrow: &[Cluster], wide: &[Cluster], slots: &mut [u16]) {
    for slot in slots.iter_mut() {
        *slot = 0;
    }
    put_all(slots, narrow, 0);
    put_all(slots, wide, 128);
}
