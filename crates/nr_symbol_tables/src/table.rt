//! A table of what has a name.
ghost use Rattle.std.specs.Prelude.{◌+◌, ◌≡◌, ◌<◌, ◌≤◌, ◌-◌, ◌↔◌, length, map, [], None, IfOk, IsTrue, slice_set};
ghost use Rattle.nr_symbol_tables.specs.Table.{find, put, without};
ghost use Rattle.nr_symbol_tables.specs.Rows.{named, names, kind, long_kind, kinds, earliers, IsPlace, AreChains, IsLink, IsLed};

use nr_units::Name;
use nr_vectors::{CountedAlloc, FixedVec, ReservedArray};
use std::alloc::AllocError;
use std::marker::Model;

/// How many kinds of names there are.
const KINDS: usize = 512;

/// A name and what has it.
#[derive(Clone, Copy, Drop)]
pub struct Entry<V> {
    pub(crate) name: Name,
    pub(crate) value: V,
    // The latest of its kind before it: its place counted from 1, or 0.
    pub(crate) earlier: usize,
}

impl<V: Copy> Entry<V> {
    /// An entry to fill new slices with.
    pub fn blank(value: V) -> Entry<V> {
        Entry {
            name: Name::new(),
            value,
            earlier: 0,
        }
    }
}

// The kind of a name of more than two bytes.
fn long_kind(bytes: &[u8]) -> usize
    ensures is { result ≡ long_kind bytes.now }
    ensures few { result < 512 }
{
    let mut kind = 0;
    for byte in bytes {
        kind = (kind * 31 + usize::from(*byte)) % 512;
    }
    kind
}

// The kind of a name.
fn kind_of(name: &Name) -> usize
    ensures is { result ≡ kind name.now }
    ensures few { result < 512 }
{
    if name.len() > 2 {
        return long_kind(name.as_bytes());
    }
    usize::from(name.kind())
}

// Whether two names are one.
#[inline]
fn is_same(a: &Name, b: &Name) -> bool
    ensures { IsTrue result ↔ (a.now ≡ b.now) }
{
    if b.len() <= 2 {
        return a.is_same_short(b);
    }
    a.compare(b).is_eq()
}

// The place of a name, counted from 1, or 0 where it is not there.
fn place_of<V: Copy>(row: &[Entry<V>], latest: &[usize; KINDS], name: &Name) -> usize
    requires { AreChains (kinds (map named row.now)) (earliers row.now) latest.now }
    ensures is { IsPlace name.now (names (map named row.now)) result }
    ensures long { length latest.now ≡ 512 }
{
    let mut at = latest[kind_of(name)];
    while at > 0 {
        let entry = &row[at - 1];
        if is_same(&entry.name, name) {
            return at;
        }
        at = entry.earlier;
    }
    at
}

// Where the chain of a kind comes to a place or passes it: from the last entry after that place, counted from 1, or
// from the beginning of the chain, which is 0; and where it goes from there.
#[derive(Clone, Copy)]
struct Link {
    over: usize,
    to: usize,
}

// The link of a kind at a place that is counted from 1.
fn link_at<V: Copy>(row: &[Entry<V>], latest: &[usize; KINDS], kind: usize, at: usize) -> Link
    requires chained { AreChains (kinds (map named row.now)) (earliers row.now) latest.now }
    requires few { kind < 512 }
    requires some { 0 < at }
    ensures is { IsLink (kinds (map named row.now)) (earliers row.now) latest.now kind (at - 1)
        result.over result.to }
    ensures long { length latest.now ≡ 512 }
{
    let mut over = 0;
    let mut to = latest[kind];
    while to > at {
        over = to;
        to = row[to - 1].earlier;
    }
    Link { over, to }
}

// Lets the chain of a kind go to another place from an entry, counted from 1, or from its beginning.
fn lead<V: Copy>(
    row: &mut FixedVec<Entry<V>>,
    latest: &mut ReservedArray<KINDS>,
    kind: usize,
    over: usize,
    to: usize,
)
    requires few { kind < 512 }
    requires within { over ≤ length row.old.items }
    ensures led { IsLed kind over to row.old.items row.new.items latest.old latest.new }
    ensures room { row.new.capacity ≡ row.old.capacity }
{
    if over == 0 {
        latest.set(kind, to);
        return;
    }
    let entry = row.get(over - 1);
    row.set(
        over - 1,
        Entry {
            name: entry.name,
            value: entry.value,
            earlier: to,
        },
    );
}

/// What has a name, with a capacity that stays. A name is found among those of its kind alone, of 512
/// kinds, and takes no other's place when it is new or goes.
///
/// Clauses see the list of names with their values, in the order of the names, and the capacity, the greatest number of names.
#[derive(Drop)]
pub struct SymbolTable<V: Copy> {
    entries: FixedVec<Entry<V>>,
    // The latest entry of each kind: its place counted from 1, or 0.
    latest: ReservedArray<KINDS>,
}

impl<V: Copy> Model for SymbolTable<V> {
    ghost use Rattle.std.specs.Prelude.{map};
    ghost use Rattle.nr_symbol_tables.specs.Rows.{SymbolTable, IsLinked, named, in_order};

    ghost Value = { SymbolTable V };

    ghost view = { λ t. record {
      entries = in_order (map named t.entries.items);
      capacity = t.entries.capacity;
    } };

    ghost invariant = { λ t. IsLinked t.entries.items t.latest };
}

impl<V: Copy> SymbolTable<V> {
    /// No names, and room for so many: `AllocError` where there is no memory for them. No other call allocates.
    pub fn new(alloc: &mut CountedAlloc, capacity: usize) -> Result<SymbolTable<V>, AllocError>
        ensures made { IfOk result (λ made. made ≡ record { entries = []; capacity = capacity }) }
        ensures taken { IfOk result (λ made. alloc.new ≡ alloc.old + capacity + 512) }
    {
        Ok(SymbolTable {
            entries: FixedVec::new(alloc, capacity)?,
            latest: ReservedArray::new(alloc, [0; KINDS])?,
        })
    }

    /// Takes the names of another table with as much room, and what has them, in place of its own.
    pub fn copy_from(&mut self, other: &SymbolTable<V>)
        requires { other.now.capacity ≡ self.old.capacity }
        ensures { self.new ≡ other.now }
    {
        self.entries.copy_from(&other.entries);
        self.latest.copy_from(&other.latest);
    }

    /// Takes all names away.
    pub fn clear(&mut self)
        ensures { self.new ≡ record self.old { entries = [] } }
    {
        self.entries.clear();
        self.latest.fill(0);
    }

    /// How many names there is memory for, as their vector tells.
    pub fn memory(&self) -> usize
        ensures { result ≡ self.now.capacity }
    {
        self.entries.memory()
    }

    /// How many numbers its box has: the beginnings of the chains, one for each kind.
    pub fn kinds(&self) -> usize
        ensures { result ≡ 512 }
    {
        KINDS
    }

    /// The number of names.
    pub fn len(&self) -> usize
        ensures { result ≡ length self.now.entries }
    {
        self.entries.len()
    }

    /// What has this name.
    ///
    /// Proved: What has a name is found, put and taken away as in a list of named values. (`SymbolTable::{get, put,
    /// remove}`)
    #[inline(always)]
    pub fn get(&self, name: Name) -> Option<V>
        ensures { result ≡ find name self.now.entries }
    {
        let at = self.latest.as_array()[usize::from(name.kind())];
        let row = self.entries.as_slice();
        if at > 0 && row[at - 1].name.is_same_short(&name) {
            return Some(row[at - 1].value);
        }
        self.look_up(name)
    }

    // The same, where no name of at most two bytes is the latest of its kind.
    #[inline(never)]
    fn look_up(&self, name: Name) -> Option<V>
        ensures { result ≡ find name self.now.entries }
    {
        let at = place_of(self.entries.as_slice(), self.latest.as_array(), &name);
        if at == 0 {
            return None;
        }
        let entry = self.entries.get(at - 1);
        Some(entry.value)
    }

    /// Gives a name a value, and answers the one that it had.
    pub fn put(&mut self, name: Name, value: V) -> Option<V>
        requires { find name self.old.entries ≡ None → length self.old.entries < self.old.capacity }
        ensures was { result ≡ find name self.old.entries }
        ensures is { self.new ≡ record self.old { entries = put name value self.old.entries } }
    {
        let at = place_of(self.entries.as_slice(), self.latest.as_array(), &name);
        if at == 0 {
            let kind = kind_of(&name);
            let earlier = self.latest.as_array()[kind];
            self.entries.push(Entry {
                name,
                value,
                earlier,
            });
            self.latest.set(kind, self.entries.len());
            return None;
        }
        let was = self.entries.get(at - 1);
        self.entries.set(
            at - 1,
            Entry {
                name,
                value,
                earlier: was.earlier,
            },
        );
        Some(was.value)
    }

    /// Takes a name away, and answers what had it.
    pub fn remove(&mut self, name: Name) -> Option<V>
        ensures was { result ≡ find name self.old.entries }
        ensures is { self.new ≡ record self.old { entries = without name self.old.entries } }
        ensures gone { find name self.new.entries ≡ None }
    {
        let at = place_of(self.entries.as_slice(), self.latest.as_array(), &name);
        if at == 0 {
            return None;
        }
        let was = self.entries.get(at - 1);
        let last = self.entries.len() - 1;
        let moved = self.entries.get(last);
        self.entries.truncate(last);
        self.latest.set(kind_of(&moved.name), moved.earlier);
        if at > last {
            return Some(was.value);
        }
        replace(&mut self.entries, &mut self.latest, at, moved);
        Some(was.value)
    }
}

// Puts an entry at a place, counted from 1, with another link.
fn put_at<V: Copy>(row: &mut FixedVec<Entry<V>>, at: usize, entry: Entry<V>, earlier: usize)
    requires some { 0 < at }
    requires within { at ≤ length row.old.items }
    ensures named { map named row.new.items ≡ slice_set (map named row.old.items) (at - 1) (named entry) }
    ensures earliers { earliers row.new.items ≡ slice_set (earliers row.old.items) (at - 1) earlier }
    ensures room { row.new.capacity ≡ row.old.capacity }
{
    row.set(
        at - 1,
        Entry {
            name: entry.name,
            value: entry.value,
            earlier,
        },
    );
}

// Puts an entry in the place of another, counted from 1, and links the entries of both kinds anew.
fn replace<V: Copy>(
    row: &mut FixedVec<Entry<V>>,
    latest: &mut ReservedArray<KINDS>,
    at: usize,
    entry: Entry<V>,
)
    requires some { 0 < at }
    requires within { at ≤ length row.old.items }
    requires chains { AreChains (kinds (map named row.old.items)) (earliers row.old.items) latest.old }
    ensures named { map named row.new.items ≡ slice_set (map named row.old.items) (at - 1) (named entry) }
    ensures chains { AreChains (kinds (map named row.new.items)) (earliers row.new.items) latest.new }
    ensures room { row.new.capacity ≡ row.old.capacity }
{
    let gone = row.get(at - 1);
    let from = kind_of(&gone.name);
    let kind = kind_of(&entry.name);
    if from == kind {
        put_at(row, at, entry, gone.earlier);
        return;
    }
    let left = link_at(row.as_slice(), latest.as_array(), from, at);
    let found = link_at(row.as_slice(), latest.as_array(), kind, at);
    lead(row, latest, from, left.over, gone.earlier);
    lead(row, latest, kind, found.over, at);
    put_at(row, at, entry, found.to);
}
