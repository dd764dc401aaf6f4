//! How often each cluster of a page comes.
ghost use Rattle.std.specs.Prelude.{◌≡◌, ◌+◌, ◌^◌, ◌||◌, ◌<◌, ◌≤◌, ℕ, [], true, None, Some, IsTrue, drop, length, nat_lt, slice_get, slice_set};
ghost use Rattle.utf8_own_characters.specs.declared.cluster.Cluster.{Cluster as Letters};
ghost use Rattle.utf8_own_characters.specs.Counting as specs;
ghost use Rattle.utf8_own_characters.specs.Counting.{count_from, counted_within, is_counted, is_once, raised};
ghost use Rattle.utf8_own_characters.specs.declared.counting.Count.{Count as Counted};

use super::cluster::Cluster;
use super::index::{NOWHERE, PROBES, first_place, next, put, slot_of};
use nr_vectors::slice_vec::SliceVec;

/// A cluster, and how often it came.
#[derive(Clone, Copy, Debug, PartialEq, Eq)]
pub struct Count {
    pub cluster: Cluster,
    pub times: u32,
}

/// Where a cluster may be counted.
fn guess(counts: &[Count], slots: &[u16], cluster: &Cluster) -> usize {
    if slots.is_empty() {
        return NOWHERE;
    }
    let mut slot = slot_of(cluster, slots.len());
    for _ in 0..PROBES {
        let place = usize::from(slots[slot]);
        if place == 0 {
            return NOWHERE;
        }
        if place - 1 < counts.len() && counts[place - 1].cluster.is_same(cluster) {
            return place - 1;
        }
        slot = next(slot, slots.len());
    }
    NOWHERE
}

/// The count at a place.
#[inline]
fn at(counts: &[Count], place: usize) -> Count
    requires { place < length counts.now }
    ensures { slice_get counts.now place ≡ Some result }
{
    counts[place]
}

/// Whether the cluster is counted at this place.
#[inline]
fn stands(counts: &[Count], place: usize, cluster: &Cluster) -> bool
    requires { is_once counts.now ≡ true }
    ensures { IsTrue result → count_from 0 counts.now cluster.now ≡ Some place }
{
    if place >= counts.len() {
        return false;
    }
    let count = at(counts, place);
    count.cluster.is_same(cluster)
}

/// The place of a cluster among counts of which the first has this place.
#[inline(always)]
fn sought_from(first: usize, counts: &[Count], cluster: &Cluster) -> Option<usize>
    requires { first + length counts.now < 2 ^ 64 }
    ensures { result ≡ count_from first counts.now cluster.now }
{
    let mut place = first;
    for count in counts {
        if count.cluster.is_same(cluster) {
            return Some(place);
        }
        place += 1;
    }
    None
}

/// Whether none of the first four counts is of this letter.
#[inline(always)]
fn four_differ(counts: &[Count], letter: char) -> bool
    ensures none { result ≡ true → (k : ℕ) (c : Letters) → c.letter ≡ letter → count_from k counts.now c ≡ count_from (k + 4) (drop 4 counts.now) c }
    ensures long { result ≡ true → 4 ≤ length counts.now }
{
    if counts.len() < 4 {
        return false;
    }
    let first = at(counts, 0);
    let second = at(counts, 1);
    let third = at(counts, 2);
    let fourth = at(counts, 3);
    if first.cluster.letter == letter {
        return false;
    }
    if second.cluster.letter == letter {
        return false;
    }
    if third.cluster.letter == letter {
        return false;
    }
    fourth.cluster.letter != letter
}

/// How many counts a cluster is not looked for among, since they are of other letters.
#[inline(always)]
fn passed(counts: &[Count], cluster: &Cluster) -> usize
    ensures within { result ≤ length counts.now }
    ensures place { count_from 0 counts.now cluster.now ≡ count_from result (drop result counts.now) cluster.now }
{
    let mut count = 0;
    while four_differ(&counts[count..], cluster.letter) {
        count += 4;
    }
    count
}

/// The place of a cluster that is looked for everywhere.
fn sought(counts: &[Count], cluster: &Cluster) -> Option<usize>
    ensures { result ≡ count_from 0 counts.now cluster.now }
{
    let first = passed(counts, cluster);
    sought_from(first, &counts[first..], cluster)
}

/// The place of a cluster that does not stand where its first slot says.
#[inline(never)]
fn place_elsewhere(counts: &[Count], slots: &[u16], cluster: Cluster) -> Option<usize>
    requires { is_once counts.now ≡ true }
    ensures { result ≡ count_from 0 counts.now cluster }
{
    let place = guess(counts, slots, &cluster);
    if stands(counts, place, &cluster) {
        return Some(place);
    }
    sought(counts, &cluster)
}

/// The place of a cluster. Mostly its first slot says where it stands.
#[inline(always)]
fn place_in(counts: &[Count], slots: &[u16], cluster: &Cluster) -> Option<usize>
    requires { is_once counts.now ≡ true }
    ensures { result ≡ count_from 0 counts.now cluster.now }
{
    let first = first_place(slots, cluster);
    if stands(counts, first, cluster) {
        return Some(first);
    }
    place_elsewhere(counts, slots, *cluster)
}

/// A count, once more.
#[inline]
fn once_more(count: Count) -> Count
    ensures { result ≡ raised count }
{
    let times = if count.times == u32::MAX {
        count.times
    } else {
        count.times + 1
    };
    Count { times, ..count }
}

/// The cluster that is counted at a place comes once more.
#[inline]
fn raise(counts: &mut SliceVec<'_, Count>, place: usize)
    requires { place < length counts.old.items }
    ensures items { (x : Counted) → slice_get counts.old.items place ≡ Some x → counts.new.items ≡ slice_set counts.old.items place (raised x) }
    ensures room { counts.new.capacity ≡ counts.old.capacity }
{
    let count = counts.get(place);
    counts.set(place, once_more(count));
}

/// A cluster that was not counted comes. Tells whether there is room for it.
#[inline(never)]
fn add(counts: &mut SliceVec<'_, Count>, slots: &mut [u16], cluster: &Cluster) -> bool
    requires { count_from 0 counts.old.items cluster.now ≡ None }
    ensures items { counts.new.items ≡ counted_within counts.old.capacity counts.old.items cluster.now }
    ensures reported { result ≡ (is_counted counts.old.items cluster.now || nat_lt (length counts.old.items) counts.old.capacity) }
    ensures room { counts.new.capacity ≡ counts.old.capacity }
{
    if counts.len() >= counts.capacity() {
        return false;
    }
    put(slots, cluster, counts.len());
    counts.push(Count {
        cluster: *cluster,
        times: 1,
    });
    true
}

/// A cluster comes. Tells whether it is counted: it is where it was before, or where there is room. The slots, at first all 0, say where
/// to look first; twice as many as counts are enough. One that is new is looked for everywhere.
#[inline(always)]
pub fn count_cluster(counts: &mut SliceVec<'_, Count>, slots: &mut [u16], cluster: &Cluster) -> bool
    requires { is_once counts.old.items ≡ true }
    ensures items { counts.new.items ≡ counted_within counts.old.capacity counts.old.items cluster.now }
    ensures once { is_once counts.new.items ≡ true }
    ensures reported { result ≡ (is_counted counts.old.items cluster.now || nat_lt (length counts.old.items) counts.old.capacity) }
    ensures room { counts.new.capacity ≡ counts.old.capacity }
{
    let found = place_in(counts.as_slice(), slots, cluster);
    match found {
        Some(place) => {
            raise(counts, place);
            true
        }
        None => add(counts, slots, cluster),
    }
}
