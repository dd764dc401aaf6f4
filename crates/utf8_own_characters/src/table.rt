//! The table of a page's own characters.
ghost use Rattle.std.specs.Prelude.{◌≡◌, ◌+◌, ◌-◌, ◌*◌, ◌<◌, ◌≤◌, false, length, IsTrue, Some, None, slice_get};
ghost use Rattle.utf8_own_characters.specs.Choosing.{choice, table_of};
ghost use Rattle.utf8_own_characters.specs.Cluster.{is_ascii};
ghost use Rattle.utf8_own_characters.specs.Table as specs;
ghost use Rattle.utf8_own_characters.specs.Table.{Good, place_of};

use super::cluster::Cluster;
use super::index::{first_place, guess};
use std::marker::Model;

/// What stands for a cluster.
#[derive(Clone, Copy, Debug, PartialEq, Eq)]
pub enum Code {
    /// A byte.
    One(u8),
    /// A lead and a trail.
    Two(u8, u8),
}

/// The characters of a page, over slices that are lent.
#[derive(Drop)]
pub struct OwnTable<'a> {
    narrow: &'a [Cluster],
    wide: &'a [Cluster],
    halves: u8,
    slots: &'a [u16],
}

impl<'a> Model for OwnTable<'a> {
    ghost use Rattle.utf8_own_characters.specs.Table.{Characters};

    ghost Value = { Characters };

    ghost view = { λ t. record { narrow = t.narrow.now; wide = t.wide.now; halves = t.halves } };
}

/// The place of a cluster among these.
fn place_of(cells: &[Cluster], cluster: &Cluster) -> Option<usize>
    ensures { result ≡ place_of cells.now cluster.now }
{
    let mut place = 0;
    for cell in cells {
        if cell.is_same(cluster) {
            return Some(place);
        }
        place += 1;
    }
    None
}

/// The cluster at a place.
#[inline]
fn at(cells: &[Cluster], place: usize) -> Cluster
    requires { place < length cells.now }
    ensures { slice_get cells.now place ≡ Some result }
{
    cells[place]
}

/// Whether the cluster stands at this place.
#[inline]
fn stands(cells: &[Cluster], place: usize, cluster: &Cluster) -> bool
    ensures { IsTrue result → slice_get cells.now place ≡ Some cluster.now }
{
    if place >= cells.len() {
        return false;
    }
    let cell = at(cells, place);
    cell.is_same(cluster)
}

impl<'a> OwnTable<'a> {
    /// The table of these characters, each of which stands once. So many bytes, the last ones, are halves of pairs. The slots, which
    /// `fill_slots` fills, only say where to look first.
    pub fn over(
        narrow: &'a [Cluster],
        wide: &'a [Cluster],
        halves: u8,
        slots: &'a [u16],
    ) -> OwnTable<'a>
        ensures { result ≡ table_of (choice narrow.entry.now wide.entry.now) halves }
    {
        OwnTable {
            narrow,
            wide,
            halves,
            slots,
        }
    }

    /// How many trails there are.
    #[inline]
    fn trails(&self) -> usize
        ensures value { result ≡ specs.trails self.now }
        ensures within { result < 256 }
    {
        usize::from(self.halves - self.halves / 2)
    }

    /// The first lead.
    #[inline]
    fn first_lead(&self) -> usize
        ensures { result ≡ specs.first_lead self.now }
    {
        256 - usize::from(self.halves)
    }

    /// The first trail.
    #[inline]
    fn first_trail(&self) -> usize
        ensures { result ≡ specs.first_trail self.now }
    {
        256 - self.trails()
    }

    /// The pair at a place.
    #[inline]
    fn pair(&self, place: usize) -> Code
        requires good { Good self.now }
        requires there { place < length self.now.wide }
        ensures { specs.code_at self.now None (Some place) ≡ Some result }
    {
        let trails = self.trails();
        let lead = self.first_lead() + place / trails;
        let trail = self.first_trail() + place % trails;
        Code::Two(lead as u8, trail as u8)
    }

    /// The place of a cluster among the narrow ones.
    fn narrow_place(&self, cluster: &Cluster) -> Option<usize>
        ensures { result ≡ place_of self.now.narrow cluster.now }
    {
        place_of(self.narrow, cluster)
    }

    /// The place of a cluster among the wide ones.
    fn wide_place(&self, cluster: &Cluster) -> Option<usize>
        ensures { result ≡ place_of self.now.wide cluster.now }
    {
        place_of(self.wide, cluster)
    }

    /// Whether a cluster stands at this place among the narrow ones.
    #[inline(always)]
    fn narrow_stands(&self, place: usize, cluster: &Cluster) -> bool
        ensures { IsTrue result → slice_get self.now.narrow place ≡ Some cluster.now }
    {
        stands(self.narrow, place, cluster)
    }

    /// Whether a cluster stands at this place among the wide ones.
    #[inline(always)]
    fn wide_stands(&self, place: usize, cluster: &Cluster) -> bool
        ensures { IsTrue result → slice_get self.now.wide place ≡ Some cluster.now }
    {
        stands(self.wide, place, cluster)
    }

    /// What stands for a cluster that is looked for among the wide ones.
    fn sought_wide(&self, cluster: &Cluster) -> Option<Code>
        requires { Good self.now }
        ensures { result ≡ specs.code_at self.now None (place_of self.now.wide cluster.now) }
    {
        match self.wide_place(cluster) {
            Some(place) => Some(self.pair(place)),
            None => None,
        }
    }

    /// What stands for a cluster that is looked for everywhere.
    fn sought(&self, cluster: &Cluster) -> Option<Code>
        requires { Good self.now }
        ensures { result ≡ specs.code_at self.now (place_of self.now.narrow cluster.now) (place_of self.now.wide cluster.now) }
    {
        match self.narrow_place(cluster) {
            Some(place) => Some(Code::One((128 + place) as u8)),
            None => self.sought_wide(cluster),
        }
    }

    /// What stands for a cluster beyond ASCII: a look in a slot or two finds it, and one that has no code is looked for everywhere.
    #[inline(never)]
    fn found(&self, cluster: Cluster) -> Option<Code>
        requires good { Good self.now }
        requires beyond { false ≡ is_ascii cluster }
        ensures { result ≡ specs.code self.now cluster }
    {
        let place = guess(self.narrow, self.wide, self.slots, &cluster);
        if place < 128 && self.narrow_stands(place, &cluster) {
            return Some(Code::One((128 + place) as u8));
        }
        if place >= 128 && self.wide_stands(place - 128, &cluster) {
            return Some(self.pair(place - 128));
        }
        self.sought(&cluster)
    }

    /// What stands for a cluster: a byte for each column. Mostly its first slot says where it stands.
    #[inline(always)]
    pub fn code(&self, cluster: &Cluster) -> Option<Code>
        requires { Good self.now }
        ensures { result ≡ specs.code self.now cluster.now }
    {
        if cluster.is_ascii() {
            return Some(Code::One(cluster.letter as u8));
        }
        let place = first_place(self.slots, cluster);
        if place < 128 && self.narrow_stands(place, cluster) {
            return Some(Code::One((128 + place) as u8));
        }
        if place >= 128 && self.wide_stands(place - 128, cluster) {
            return Some(self.pair(place - 128));
        }
        self.found(*cluster)
    }

    /// Whether a byte is a lead.
    #[inline]
    pub fn is_lead(&self, byte: u8) -> bool
        ensures { result ≡ specs.is_lead self.now byte }
    {
        usize::from(byte) >= self.first_lead() && usize::from(byte) < self.first_trail()
    }

    /// Whether a byte is a trail.
    #[inline]
    pub fn is_trail(&self, byte: u8) -> bool
        ensures { result ≡ specs.is_trail self.now byte }
    {
        usize::from(byte) >= self.first_trail()
    }

    /// What stands at a byte that is greater by 128.
    #[inline]
    pub(crate) fn narrow_at(&self, place: usize) -> Option<Cluster>
        ensures { result ≡ slice_get self.now.narrow place }
    {
        self.narrow.get(place).copied()
    }

    /// What a pair stands for.
    #[inline]
    pub(crate) fn wide_at(&self, lead: u8, trail: u8) -> Option<Cluster>
        ensures { result ≡ slice_get self.now.wide ((lead - specs.first_lead self.now) * specs.trails self.now + (trail - specs.first_trail self.now)) }
    {
        let row = usize::from(lead).saturating_sub(self.first_lead());
        let column = usize::from(trail).saturating_sub(self.first_trail());
        self.wide.get(row * self.trails() + column).copied()
    }
}
