//! The table of a page: which of its clusters have room.
ghost use Rattle.std.specs.Prelude.{◌≡◌, ◌≤◌, length, true};
ghost use Rattle.utf8_own_characters.specs.Choosing as specs;
ghost use Rattle.utf8_own_characters.specs.Choosing.{IsFewest, chosen, has_room, left_out, nothing, pairs_in};
ghost use Rattle.utf8_own_characters.specs.Counting.{is_once};
ghost use Rattle.utf8_own_characters.specs.Table.{Good};

use super::cluster::Cluster;
use super::counting::Count;
use super::table::OwnTable;
use nr_vectors::slice_vec::SliceVec;

/// How many clusters of one column a table has at most.
pub const MOST_NARROW: usize = 128;

/// How many clusters of two columns a table has at most.
pub const MOST_WIDE: usize = 4_096;

/// How many pairs can be made of so many halves.
fn pairs_in(halves: usize) -> usize
    requires { halves ≤ 128 }
    ensures { result ≡ pairs_in halves }
{
    (halves / 2) * (halves - halves / 2)
}

/// Whether so many clusters of one column and so many of two have room.
fn has_room(narrow: usize, wide: usize) -> bool
    ensures { result ≡ has_room narrow wide }
{
    narrow <= 128 && wide <= pairs_in(128 - narrow)
}

/// How many bytes are halves of so many pairs.
pub fn halves_for(wide: usize) -> u8
    requires { wide ≤ 4096 }
    ensures fewest { IsFewest result wide }
    ensures few { result ≤ 128 }
{
    let mut halves = 0;
    while halves < 128 && pairs_in(halves) < wide {
        halves += 1;
    }
    halves as u8
}

/// One more, if it has room. Tells whether it has.
fn add(
    narrow: &mut SliceVec<'_, Cluster>,
    wide: &mut SliceVec<'_, Cluster>,
    cluster: Cluster,
) -> bool
    requires narrow { 128 ≤ narrow.old.capacity }
    requires wide { 4096 ≤ wide.old.capacity }
    ensures cells { specs.choice narrow.new.items wide.new.items ≡ specs.added (specs.choice narrow.old.items wide.old.items) cluster }
    ensures reported { result ≡ specs.fits (specs.with_cluster (specs.choice narrow.old.items wide.old.items) cluster) }
    ensures narrow { narrow.new.capacity ≡ narrow.old.capacity }
    ensures wide { wide.new.capacity ≡ wide.old.capacity }
{
    if cluster.is_wide() {
        let room = has_room(narrow.len(), wide.len().saturating_add(1));
        if room {
            wide.push(cluster);
        }
        return room;
    }
    let room = has_room(narrow.len().saturating_add(1), wide.len());
    if room {
        narrow.push(cluster);
    }
    room
}

/// Chooses those that have room, the first ones first. Tells how many have none.
pub fn choose(
    counts: &[Count],
    narrow: &mut SliceVec<'_, Cluster>,
    wide: &mut SliceVec<'_, Cluster>,
) -> usize
    requires narrow { 128 ≤ narrow.old.capacity }
    requires wide { 4096 ≤ wide.old.capacity }
    ensures cells { specs.choice narrow.new.items wide.new.items ≡ chosen nothing counts.now }
    ensures reported { result ≡ length (left_out nothing counts.now) }
{
    narrow.clear();
    wide.clear();
    let mut reported = 0;
    for count in counts {
        if !add(narrow, wide, count.cluster) {
            reported += 1;
        }
    }
    reported
}

impl<'a> OwnTable<'a> {
    /// The table of what `choose` chose of these counts, which count each cluster once. The slots are those that `fill_slots` filled.
    pub fn chosen(
        counts: &[Count],
        narrow: &'a [Cluster],
        wide: &'a [Cluster],
        slots: &'a [u16],
    ) -> OwnTable<'a>
        requires cells { specs.choice narrow.now wide.now ≡ chosen nothing counts.now }
        requires once { is_once counts.now ≡ true }
        ensures narrow { result.narrow ≡ narrow.entry.now }
        ensures wide { result.wide ≡ wide.entry.now }
        ensures good { Good result }
    {
        let halves = halves_for(wide.len());
        OwnTable::over(narrow, wide, halves, slots)
    }
}
